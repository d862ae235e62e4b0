ghost use Rattle.std.specs.Prelude.{◌≡◌, ◌^◌, ◌<◌};
ghost use Rattle.rv_bench.specs.Drawing.{next as next_state, given, draws_from, state_after};

/// What a word is drawn from: five numbers below 2^24.
#[derive(Clone, Copy)]
pub struct Draws {
    /// Which of the words it is.
    pub choice: u32,
    /// Which register it writes.
    pub destination: u32,
    /// Which register it reads first.
    pub first: u32,
    /// Which register it reads second.
    pub second: u32,
    /// The number in it.
    pub value: u32,
}

/// A generator of numbers, by a state of 32 bits.
#[derive(Drop)]
pub(crate) struct Generator {
    pub state: u32,
}

impl Generator {
    /// The next number, below 2^24.
    fn draw(&mut self) -> u32
        ensures state { self.new.state ≡ next_state self.old.state }
        ensures value { result ≡ given self.new.state }
    {
        self.state = self
            .state
            .wrapping_mul(1_664_525)
            .wrapping_add(1_013_904_223);
        self.state / 256
    }

    /// The next five numbers.
    #[tactic(auto, unfolding(crate::specs::Drawing::state_after))]
    pub fn draws(&mut self) -> Draws
        ensures state { self.new.state ≡ state_after self.old.state 5 }
        ensures value { result ≡ draws_from self.old.state }
        ensures below { result.value < 2 ^ 24 }
    {
        let choice = self.draw();
        let destination = self.draw();
        let first = self.draw();
        let second = self.draw();
        let value = self.draw();
        Draws {
            choice,
            destination,
            first,
            second,
            value,
        }
    }
}
