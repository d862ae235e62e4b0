ghost use Rattle.std.specs.Prelude.{◌≡◌, ◌++◌, ◌/◌, ◌%◌, ◌^◌, ◌<◌, IfOk, OnOk};
ghost use Rattle.ix_io.specs.Out.{hex_digit};
ghost use Rattle.rv_asm.specs.ImageText.{IsImageText, image_text as specified_image_text, word_text};

use ix_bits::{List, Memory};
use rv_isa::Image;
use std::alloc::Global;

/// The hexadecimal digit at a place, counted from the last digit.
fn digit_at(word: u32, place: u8) -> u8
    requires { place < 8 }
    ensures { result ≡ hex_digit (word / 16 ^ place % 16) }
{
    let digit = ((word >> (4 * place)) % 16) as u8;
    if digit < 10 {
        b'0' + digit
    } else {
        b'a' - 10 + digit
    }
}

/// Puts the line of a word behind a text.
fn push_word(text: &mut Vec<u8>, word: u32) -> Result<(), Memory>
    ensures { OnOk result (text.new.items ≡ text.old.items ++ word_text word) }
{
    for place in (0..8u8).rev() {
        text.push(digit_at(word, place))?;
    }
    text.push(b'\n')?;
    Ok(())
}

/// The text of an image: a line of eight lower-case hexadecimal digits for each word. It is read as that image again.
pub fn print_image(alloc: Global, image: &Image) -> Result<List<u8>, Memory>
    ensures text { IfOk result (λ text. text ≡ specified_image_text image.now) }
    ensures reads { IfOk result (λ text. IsImageText text image.now) }
{
    let mut text = Vec::new(alloc);
    for word in image.as_slice() {
        push_word(&mut text, *word)?;
    }
    Ok(List::from_vec(text))
}
