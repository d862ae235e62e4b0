/// A behaviour of an extension: that of an instruction (from 0 to 63) or an always-block (from 0 to 7), by its place in the order of the source.
#[derive(Clone, Copy, Debug)]
pub enum Which {
    Instruction(u8),
    Block(u8),
}
