use crate::look::is_image_line;
use crate::place::{Place, line_end};
use crate::search::start_of_line;
use crate::text::part;
use crate::words::{Refusal, Status, number, read_refusal};

/// What a refusal is of.
#[derive(Clone, Copy, Debug, PartialEq, Eq)]
pub(crate) enum Subject<'a> {
    /// The bytes of the file of that name.
    File(&'a str),
    /// The bytes of the first of two images, or else of the second.
    Images(&'a str, &'a str),
    /// A file that was not read whole, or the program.
    Name(&'a str),
}

/// The place of the image among the words of a command: the last but one, but two where waits stand
/// behind it, or but three where these and the rows of an interrupt line do.
fn image_word(count: usize) -> usize {
    match count {
        4 => 2,
        6 | 7 => 3,
        _ => 1,
    }
}

/// The images of two harts among the words of a command, if there are two.
fn two_images(words: &[String]) -> Option<Subject<'_>> {
    match words {
        [command, _, _, first, second, _] if command.as_str() == "barrel" => {
            Some(Subject::Images(first.as_str(), second.as_str()))
        }
        _ => None,
    }
}

/// An image has at most so many words.
const MOST_WORDS: usize = 65_536;

/// Whether an image is refused at the line whose number a word writes. Of two images one is, so that
/// of one with more words than it may have a line behind that many is enough.
pub(crate) fn is_refused_at(bytes: &[u8], told: &str) -> bool {
    let line = match number(told) {
        None | Some(0) => return false,
        Some(line) => line,
    };
    match start_of_line(bytes, line) {
        None => false,
        Some(from) => {
            let text = part(
                bytes,
                Place {
                    from,
                    to: line_end(bytes, from),
                },
            );
            !is_image_line(text) || line > MOST_WORDS && !text.is_empty()
        }
    }
}

/// What the line of a refusal is of, by the words of the command; nothing where the line refuses
/// nothing.
pub(crate) fn subject_of<'a>(line: &'a str, words: &'a [String]) -> Option<Subject<'a>> {
    let refusal = read_refusal(line)?;
    if refusal.status == Status::Image {
        if let Some(images) = two_images(words) {
            return Some(images);
        }
    }
    let word = match refusal.status {
        Status::Usage => return Some(Subject::Name("ixt")),
        Status::ReadFault | Status::TooLong => return Some(Subject::Name(refusal.rest)),
        Status::Extension | Status::NoSchedule | Status::Certificate | Status::Barrel => 1,
        Status::Sheet | Status::Source => 2,
        Status::Image => image_word(words.len()),
        Status::Waits => 4,
        Status::Lines | Status::Trace => 5,
        Status::Other => return None,
    };
    Some(Subject::File(words.get(word)?.as_str()))
}
