use ix_bits::{List, Memory, Name};
use ix_tree::Extension;
use rv_asm::assemble;
use std::alloc::Global;
use std::io;

/// How often the lines are repeated.
const COPIES: u16 = 4096;

/// The extension without sections.
fn no_extension(alloc: Global) -> Result<Extension, Memory> {
    let name = Name::from_text(alloc, "None")?;
    Ok(Extension {
        name,
        registers: List::new(alloc),
        tables: List::new(alloc),
        instructions: List::new(alloc),
        blocks: List::new(alloc),
    })
}

/// Puts one copy of the lines behind the source.
fn push_copy(source: &mut Vec<u8>, lines: &[u8], copy: u16) -> Result<(), Memory> {
    for byte in lines {
        if *byte == b'@' {
            for place in [1000u16, 100, 10, 1] {
                source.push(b'0' + (copy / place % 10) as u8)?;
            }
        } else {
            source.push(*byte)?;
        }
    }
    Ok(())
}

/// The whole source.
fn source_of(alloc: Global, lines: &[u8]) -> Result<Vec<u8>, Memory> {
    let mut source = Vec::new(alloc);
    for copy in 0..COPIES {
        push_copy(&mut source, lines, copy)?;
    }
    Ok(source)
}

/// The count of the words, and their sum.
fn words(alloc: Global, lines: &[u8]) -> Result<(u32, u32), Memory> {
    let extension = no_extension(alloc)?;
    let source = source_of(alloc, lines)?;
    if source.len() >= 0x8000_0000 {
        return Err(Memory);
    }
    let Ok(image) = assemble(alloc, &extension, source.as_slice()) else {
        return Err(Memory);
    };
    let mut sum = 0u32;
    for word in image.as_slice() {
        sum = sum.wrapping_add(*word);
    }
    Ok((image.len(), sum))
}

/// Assembles the lines of a source, 4,096 times one behind the other, with `@` as the number of
/// the copy. It prints how many words the image has, and the sum of the words modulo 2^32.
pub(crate) fn run(rt: &impl Print, alloc: Global, lines: &[u8]) -> io::Result<()> {
    match words(alloc, lines) {
        Ok((count, sum)) => println!(rt; "{count} words, sum {sum}"),
        Err(Memory) => println!(rt; "refused"),
    }
}
