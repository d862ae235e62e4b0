use ix_bits::{Bits, List};
use ix_mean::Types;

/// What a behaviour stands on: the types of its slots and targets, and the tables of its extension.
#[derive(Drop)]
pub struct Source {
    pub types: Types,
    pub tables: List<List<Bits>>,
}
