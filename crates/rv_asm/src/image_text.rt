ghost use Rattle.std.specs.Prelude.{◌≡◌, ◌≢◌, ℕ, ◌+◌, ◌*◌, ◌^◌, ◌<◌, ◌≤◌, List, length, map, IfOk, IfErr, MatchResult};
ghost use Rattle.rv_asm.specs.ImageText.{lines_of, is_blank as specified_is_blank, without_blanks, without_last_blanks, hex_value as specified_hex_value, hex_word as specified_hex_word, is_skipped as specified_is_skipped, line_of as specified_line_of, IsImageText, IsRefusal};

use rv_isa::Image;
use std::alloc::{AllocError, Global};

/// What a line of an image's text is.
#[derive(Clone, Copy, Debug, PartialEq, Eq)]
pub enum Line {
    Skipped,
    Word(u32),
    Bad,
}

/// Why the text of an image was not read.
#[derive(Debug, Drop, PartialEq, Eq)]
pub enum TextErr {
    /// The line of this number, from 1, is bad, or has word 65,537.
    At(u32),
    /// Memory was not found.
    Memory,
}

fn is_blank(b: u8) -> bool
    ensures { result ≡ specified_is_blank b }
{
    b == b' ' || b == b'\t' || b == b'\r'
}

fn trim_start(line: &[u8]) -> &[u8]
    ensures { result.now ≡ without_blanks line.now }
{
    let mut line = line;
    while let [first, rest @ ..] = line {
        if !is_blank(*first) {
            break;
        }
        line = rest;
    }
    line
}

fn trim_end(line: &[u8]) -> &[u8]
    ensures { result.now ≡ without_last_blanks line.now }
{
    let mut line = line;
    while let [rest @ .., last] = line {
        if !is_blank(*last) {
            break;
        }
        line = rest;
    }
    line
}

fn hex_value(b: u8) -> Option<u8>
    ensures { result ≡ specified_hex_value b }
{
    match b {
        b'0'..=b'9' => Some(b - b'0'),
        b'A'..=b'F' => Some(b - b'A' + 10),
        b'a'..=b'f' => Some(b - b'a' + 10),
        _ => None,
    }
}

/// The word that exactly eight hexadecimal digits write.
fn hex_word(line: &[u8]) -> Option<u32>
    ensures { result ≡ specified_hex_word line.now }
{
    if line.len() != 8 {
        return None;
    }
    let mut word = 0u32;
    for b in line {
        match hex_value(*b) {
            None => return None,
            Some(digit) => word = 16 * word + u32::from(digit),
        }
    }
    Some(word)
}

fn is_skipped(line: &[u8]) -> bool
    ensures { result ≡ specified_is_skipped line.now }
{
    match line {
        [] => true,
        [a] => *a == b'#',
        [a, b, ..] => *a == b'#' || (*a == b'/' && *b == b'/'),
    }
}

/// What a line is, without the blanks at both ends.
fn line_of(line: &[u8]) -> Line
    ensures { result ≡ specified_line_of line.now }
{
    let line = trim_end(trim_start(line));
    if is_skipped(line) {
        return Line::Skipped;
    }
    match hex_word(line) {
        None => Line::Bad,
        Some(word) => Line::Word(word),
    }
}

/// The lines of a text, which line feeds part.
fn lines(alloc: Global, bytes: &[u8]) -> Result<Vec<&[u8]>, AllocError>
    ensures { IfOk result (λ lines. map (λ line. line.now) lines.items ≡ lines_of bytes.now) }
{
    bytes.split(|b| *b == b'\n').collect(alloc)
}

/// Reads the text of an image. Per line blanks at both ends are dropped; an empty line, and one that begins with `#` or
/// `//`, is skipped; any other has exactly eight hexadecimal digits of either case. There are at most 65,536 words.
pub fn read_image(alloc: Global, bytes: &[u8]) -> Result<Image, TextErr>
    requires { length bytes.now < 2 ^ 32 }
    ensures image { IfOk result (λ image. IsImageText bytes.now image) }
    ensures refused { IfErr result (IsRefusal bytes.now) }
    ensures again { (words : List ℕ) → IsImageText bytes.now words → MatchResult result (λ image. image ≡ words) (λ e. e ≡ TextErr.Memory) }
{
    let Ok(lines) = lines(alloc, bytes) else {
        return Err(TextErr::Memory);
    };
    let mut image = Image::new(alloc);
    for (i, line) in lines.iter().enumerate() {
        match line_of(line) {
            Line::Skipped => {}
            Line::Word(word) => {
                if image.len() as usize == Image::MOST {
                    return Err(TextErr::At((i + 1) as u32));
                }
                if image.push(word).is_err() {
                    return Err(TextErr::Memory);
                }
            }
            Line::Bad => return Err(TextErr::At((i + 1) as u32)),
        }
    }
    Ok(image)
}
