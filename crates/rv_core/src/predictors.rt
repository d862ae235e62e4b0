ghost use Rattle.std.specs.Prelude.{ℕ, Bool, ◌≡◌};
ghost use Rattle.rv_core.specs.Guesses.{guess_of};

/// How a core guesses the address of the fetch behind one, before any instruction there is known.
pub trait Predictor {
    /// Whether a PC write of a block is taken as the guess.
    const BLOCKS: bool;

    ghost BLOCKS: { Bool };

    /// The guess behind a fetch at an address: the PC write of a block there, if it is taken and there is one, else the
    /// address plus 4 modulo 2^32.
    fn guess(block: Option<u32>, at: u32) -> u32
        ensures { result ≡ guess_of BLOCKS block at };
}

/// The guess is always the next address.
pub struct Plain;

impl Predictor for Plain {
    const BLOCKS: bool = false;

    ghost use Rattle.std.specs.Prelude.{false};

    ghost BLOCKS = { false };

    fn guess(_block: Option<u32>, at: u32) -> u32 {
        at.wrapping_add(4)
    }
}

/// The guess is where a block jumps.
pub struct Blocks;

impl Predictor for Blocks {
    const BLOCKS: bool = true;

    ghost use Rattle.std.specs.Prelude.{true};

    ghost BLOCKS = { true };

    fn guess(block: Option<u32>, at: u32) -> u32 {
        match block {
            Some(target) => target,
            None => at.wrapping_add(4),
        }
    }
}
