ghost use Rattle.std.specs.Prelude.{◌≡◌, ◌+◌, ◌<◌, ◌≤◌, ◌^◌, ℕ, ◌++◌, List, [], length, ◌&&◌, ◌==◌};
ghost use Rattle.rv_ending.specs.Differing.{IsCompared, TellsDiffering, HasRoom, with_next};

/// How far a text is the same as another one that comes piece by piece.
#[derive(Clone, Copy, Debug, PartialEq, Eq)]
pub struct Compared {
    /// How many bytes are the same.
    pub at: usize,
    /// The number of the line of the next byte.
    pub line: u32,
    /// Does the text begin with all that came so far?
    pub is_same: bool,
}

impl Compared {
    /// Nothing so far; the first line of the text has this number.
    pub fn new(first: u32) -> Compared
        ensures start { (result.at ≡ 0) × (result.line ≡ first) }
        ensures compared { (text : List ℕ) → IsCompared first text [] result }
    {
        Compared {
            at: 0,
            line: first,
            is_same: true,
        }
    }

    // One byte more of the other text.
    fn with_byte(self, text: &[u8], byte: u8) -> Compared
        requires { HasRoom text.now self }
        ensures next { result ≡ with_next text.now byte self }
        ensures room { HasRoom text.now result }
    {
        if !self.is_same {
            return self;
        }
        if self.at < text.len() && text[self.at] == byte {
            let line = if byte == b'\n' {
                self.line + 1
            } else {
                self.line
            };
            return Compared {
                at: self.at + 1,
                line,
                is_same: true,
            };
        }
        Compared {
            at: self.at,
            line: self.line,
            is_same: false,
        }
    }

    /// The next piece of the other text.
    pub fn with(self, text: &[u8], piece: &[u8]) -> Compared
        requires room { HasRoom text.now self }
        ensures room { HasRoom text.now result }
        ensures compared { (first : ℕ) (so_far : List ℕ) → IsCompared first text.now so_far self → IsCompared first text.now (so_far ++ piece.now) result }
    {
        let mut compared = self;
        for byte in piece {
            compared = compared.with_byte(text, *byte);
        }
        compared
    }

    // Is the text the other one, which is whole by now?
    fn is_whole(self, text: &[u8]) -> bool
        ensures { result ≡ (self.is_same && (self.at == length text.now)) }
    {
        self.is_same && self.at == text.len()
    }

    /// The line in which the text first differs from the other, which is whole by now.
    pub fn differs(self, text: &[u8]) -> Option<u32>
        ensures { (first : ℕ) (other : List ℕ) → IsCompared first text.now other self → TellsDiffering first text.now other result }
    {
        if self.is_whole(text) {
            None
        } else {
            Some(self.line)
        }
    }
}
