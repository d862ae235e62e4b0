ghost use Rattle.std.specs.Prelude.{◌≤◌, length};

use crate::place::line_end;
use crate::text::{before_blanks, behind_blanks, name_end, token_end};

/// What kind of file a text looks like.
#[derive(Clone, Copy, Debug, PartialEq, Eq)]
pub(crate) enum Look {
    Extension,
    Sheet,
    Report,
    Image,
    Other,
}

/// The first byte of a text that is no blank and stands in no comment.
fn first_code(bytes: &[u8]) -> usize
    ensures { result ≤ length bytes.now }
{
    let mut at = behind_blanks(bytes, 0);
    while at < bytes.len() {
        match &bytes[at..] {
            [b'#', ..] => at = behind_blanks(bytes, line_end(bytes, at + 1)),
            [b'/', b'/' | b'*', ..] => at = behind_blanks(bytes, token_end(bytes, at)),
            _ => break,
        }
    }
    at
}

/// Whether a text starts with a key of a datasheet or with a header.
fn starts_sheet(text: &[u8]) -> bool {
    let end = name_end(text, 0);
    let sets = text[behind_blanks(text, end)..].starts_with(b"=");
    text.starts_with(b"[") || sets && matches!(&text[..end], b"core" | b"period")
}

/// Whether a text starts with a word of eight hexadecimal digits.
fn starts_image(text: &[u8]) -> bool {
    name_end(text, 0) == 8 && text[..8].iter().all(|b| b.is_ascii_hexdigit())
}

/// Whether a line of an image is a word, a comment, or empty.
pub(crate) fn is_image_line(line: &[u8]) -> bool {
    let text = &line[behind_blanks(line, 0)..];
    let text = &text[..before_blanks(text, text.len())];
    text.is_empty()
        || text.starts_with(b"#")
        || text.starts_with(b"//")
        || text.len() == 8 && starts_image(text)
}

/// What a file looks like by its first word.
pub(crate) fn look_of(bytes: &[u8]) -> Look {
    let text = &bytes[first_code(bytes)..];
    if text.starts_with(b"InstructionSet") {
        Look::Extension
    } else if text.starts_with(b"longnail report") {
        Look::Report
    } else if starts_sheet(text) {
        Look::Sheet
    } else if starts_image(text) {
        Look::Image
    } else {
        Look::Other
    }
}

/// What is wrong where a file looks like one of another kind than is due.
pub(crate) fn misplaced(due: Look, bytes: &[u8]) -> Option<&'static str> {
    let found = look_of(bytes);
    if found == due {
        return None;
    }
    match found {
        Look::Extension => Some(
            "this file is an extension, and another kind of file is expected here: write the files in the order of the command, as in `schedule EXT SHEET`",
        ),
        Look::Sheet => Some(
            "this file is a datasheet, and another kind of file is expected here: write the files in the order of the command, as in `schedule EXT SHEET`",
        ),
        Look::Report => Some(
            "this file is a report, and another kind of file is expected here: a report goes to `certify` alone",
        ),
        Look::Image => Some(
            "this file is an image, and another kind of file is expected here: write the files in the order of the command, as in `seq EXT IMAGE STEPS`",
        ),
        Look::Other => None,
    }
}
