use ix_bits::Memory;

/// Why a token cannot be read.
#[derive(Clone, Copy, Debug, PartialEq, Eq)]
pub enum Stop {
    /// No text goes on with it.
    Refused,
    /// It nests deeper than 64.
    Deep,
    Memory,
}

impl From<Memory> for Stop {
    ghost use Rattle.std.specs.Prelude.{◌≡◌};
    ghost use Rattle.ix_parse_state.specs.declared.stop.Stop.TheVariants.{Memory as memory};

    ghost from_gives = { λ _ e. e ≡ memory };

    fn from(_want: Memory) -> Stop {
        Stop::Memory
    }
}
