use crate::grammar::{bad_byte, unclosed, unexpected};
use crate::place::Place;

/// What is wrong with a loop.
fn loop_sentence(kind: &str) -> Option<&'static str> {
    match kind {
        "Bound" => Some(
            "the turns of this loop are not known: begin with a literal, and test and change the loop's variable alone, as `for (int i = 0; i < 8; i++)`",
        ),
        "Turns" => Some("this loop has more than 128 turns: write fewer, and more in each of them"),
        "Assigned" => Some(
            "the body of this loop changes the loop's variable or declares its name again: use another local in it",
        ),
        "Size" => Some(
            "the loops unroll to more than 16384 statements: write fewer turns or shorter bodies",
        ),
        _ => None,
    }
}

/// What is wrong with an index of X or of MEM, which the first byte tells apart.
fn index_sentence(first: Option<u8>) -> &'static str {
    match first {
        Some(b'X') => {
            "a field alone indexes X: read `X[f]` with f in bits 19:15 or 24:20 of the encoding, and assign `X[f]` by `=` with f in bits 11:7, both in instructions"
        }
        _ => {
            "memory is `MEM[a]`, `MEM[a+1:a]` or `MEM[a+3:a]`, in an instruction: write the same address a twice, unsigned and of at most 32 bits"
        }
    }
}

/// What is wrong with a name, a type or a number.
fn type_sentence(kind: &str) -> Option<&'static str> {
    match kind {
        "Unknown" => Some(
            "no declaration of this name is visible here for this use: declare it before, in the block or in `architectural_state`",
        ),
        "Twice" => Some(
            "this is declared a second time: write another name, or put the sections of one kind into one",
        ),
        "Narrow" => Some(
            "this value can be too large or too small for its target: cast it to the target's type, as `(unsigned<32>)(a + b)`, or declare a wider target",
        ),
        "TooWide" => Some("this has more than 128 bits: cast the operands to narrower types first"),
        "Mixed" => Some(
            "a signed and an unsigned number meet here: cast one by `(signed)` or `(unsigned)`; what stands behind `<<` and `>>` is unsigned",
        ),
        "Range" => Some(
            "there are no such bits: write constants `[h:l]` with h not below l and below the width; a type has at least one bit, and a field no bit above 31",
        ),
        "Rom" => Some(
            "the table's length does not go with this: write as many entries as it says, and an unsigned index whose type cannot reach it",
        ),
        _ => None,
    }
}

/// What is wrong with a read or a write.
fn access_sentence(kind: &str) -> Option<&'static str> {
    match kind {
        "ReadAfterWrite" => Some(
            "this is read behind a write of it: read it into a local before the write, and use the local",
        ),
        "DoubleWrite" => Some(
            "this is written a second time on one path: compute the value in a local, and write it once",
        ),
        "SecondAccess" => Some(
            "a behaviour accesses memory once: keep what was read in a local, and do a second access in another instruction",
        ),
        "InSpawn" => Some(
            "this may not be in or around a `spawn`: write one `spawn` in an instruction, outside of `if`, which assigns registers, and use MEM and PC before it",
        ),
        _ => None,
    }
}

/// What is wrong with an encoding or with the extension as a whole.
fn whole_sentence(kind: &str) -> Option<&'static str> {
    match kind {
        "EncodingWidth" => Some(
            "the pieces of this encoding do not have 32 bits in all: write the bits that are missing, or remove some",
        ),
        "FieldTwice" => Some(
            "two pieces of this encoding give one bit of a field: write each bit of it once",
        ),
        "TooMany" => Some(
            "there are more than 64 instructions, 16 registers, 8 always-blocks or 4096 entries of tables: write fewer",
        ),
        "BaseOverlap" => Some(
            "this instruction has a word of the base set: write other fixed bits, as the opcode `7'b0001011`",
        ),
        "Overlap" => Some("two instructions have this word: write other fixed bits in one of them"),
        "TwoPcBlocks" => Some("two always-blocks assign PC: write one block in place of both"),
        "TooManyOps" => Some(
            "this behaviour has more than 256 operations: write fewer turns of its loops, or two instructions",
        ),
        _ => None,
    }
}

/// What is wrong with a token or with the place of one.
fn token_sentence(kind: &str, bytes: &[u8], place: Place) -> Option<&'static str> {
    match kind {
        "BadByte" => Some(bad_byte(bytes, place.from)),
        "Unclosed" => Some(unclosed(bytes, place.from)),
        "BadNumber" => Some(
            "this is not a number: write decimal digits with no leading 0, `0x` or `0b` and digits, or a width, a base and digits that fit, as `8'd200`",
        ),
        "At" => Some(unexpected(bytes, place)),
        "Deep" => Some("this is nested deeper than 64: write a part of it before, into a local"),
        "Index" => Some(index_sentence(bytes.get(place.from).copied())),
        _ => None,
    }
}

/// What is wrong with an extension, and what to write in its place.
pub(crate) fn extension_sentence(kind: &str, bytes: &[u8], place: Place) -> &'static str {
    token_sentence(kind, bytes, place)
        .or(loop_sentence(kind))
        .or(type_sentence(kind))
        .or(access_sentence(kind))
        .or(whole_sentence(kind))
        .unwrap_or("the extension is refused: write it as docs/LANGUAGE.md says")
}
