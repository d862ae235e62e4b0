ghost use Rattle.std.specs.Prelude.{◌≡◌, ◌==◌, ◌<◌, ◌≤◌, [], ◌∷◌, ◌++◌, length, slice_index, OnOk, OnErr};
ghost use Rattle.rv_isa.specs.Images.{most_words};

use ix_bits::{List, Memory};
use std::alloc::Global;
use std::marker::Model;

/// The words of a program, from address 0 on: at most 65,536 words of 32 bits. Contracts see the list of the words.
#[derive(Debug, Drop)]
pub struct Image {
    words: List<u32>,
}

impl Model for Image {
    ghost use Rattle.std.specs.Prelude.{List, ℕ, ◌≤◌, length};
    ghost use Rattle.rv_isa.specs.Images.{most_words};

    ghost Value = { List ℕ };

    ghost view = { λ image. image.words };

    ghost invariant = { λ image. length image.words ≤ most_words };
}

impl Image {
    /// The greatest count of words.
    pub const MOST: usize = 65_536;

    /// The image without words.
    pub fn new(alloc: Global) -> Image
        ensures { result ≡ [] }
    {
        Image {
            words: List::new(alloc),
        }
    }

    /// An image of these words, at most 65,536.
    pub fn from_list(words: List<u32>) -> Image
        requires { length words ≤ most_words }
        ensures { result ≡ words }
    {
        Image { words }
    }

    /// Puts a word behind the last one, where there is room. Without memory the image stays as it was.
    pub fn push(&mut self, word: u32) -> Result<(), Memory>
        requires { length self.old < most_words }
        ensures ok { OnOk result (self.new ≡ self.old ++ word ∷ []) }
        ensures err { OnErr result (self.new ≡ self.old) }
    {
        self.words.push(word)
    }

    /// The count of words, at most 65,536.
    pub fn len(&self) -> u32
        ensures value { result ≡ length self.now }
        ensures most { result ≤ most_words }
    {
        self.words.len() as u32
    }

    /// Whether there is no word.
    pub fn is_empty(&self) -> bool
        ensures { result ≡ (length self.now == 0) }
    {
        self.words.is_empty()
    }

    /// The word at index `k`, which is below the count.
    pub fn word(&self, k: u32) -> u32
        requires { k < length self.now }
        ensures { result ≡ slice_index self.now k }
    {
        self.words.as_slice()[k as usize]
    }

    /// The words, in order.
    pub fn as_slice(&self) -> &[u32]
        ensures words { result.now ≡ self.now }
        ensures most { length self.now ≤ most_words }
    {
        self.words.as_slice()
    }
}
