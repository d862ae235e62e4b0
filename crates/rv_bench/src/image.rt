ghost use Rattle.std.specs.Prelude.{◌≡◌, ◌+◌, ◌≤◌, IfOk};
ghost use Rattle.ix_extension.specs.Extensions.{view_extension};
ghost use Rattle.rv_isa.specs.Images.{most_words};
ghost use Rattle.rv_bench.specs.DrawnImage.{drawn_image as specified_drawn_image, first_word as specified_first_word, last_word as specified_last_word};

use crate::draws::Generator;
use crate::word::drawn_word;
use ix_bits::Memory;
use ix_tree::Extension;
use rv_isa::{Base, Image, encode, rows};
use std::alloc::Global;

/// LUI x31 with the address of the memory.
fn first_word() -> u32
    ensures { result ≡ specified_first_word }
{
    encode(Base {
        row: rows::LUI,
        rd: 31,
        rs1: 0,
        rs2: 0,
        imm: i32::MIN,
    })
}

/// EBREAK.
fn last_word() -> u32
    ensures { result ≡ specified_last_word }
{
    encode(Base {
        row: rows::EBREAK,
        rd: 0,
        rs1: 0,
        rs2: 0,
        imm: 0,
    })
}

/// An image of so many words that are drawn from a number, each an instruction of the base set or of the extension, behind a LUI
/// that makes x31 the address of the memory and before an EBREAK. The words are fewer than 65,535.
pub fn drawn_image(
    alloc: Global,
    extension: &Extension,
    number: u32,
    count: u32,
) -> Result<Image, Memory>
    requires { count + 2 ≤ most_words }
    ensures { IfOk result (λ image. image ≡ specified_drawn_image (view_extension extension.now) number count) }
{
    let mut image = Image::new(alloc);
    let mut generator = Generator { state: number };
    image.push(first_word())?;
    for _ in 0..count {
        let draws = generator.draws();
        image.push(drawn_word(extension.instructions.as_slice(), draws))?;
    }
    image.push(last_word())?;
    Ok(image)
}
