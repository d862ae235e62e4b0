use crate::diagnosis::diagnose;
use crate::subject::{Subject, is_refused_at, subject_of};
use crate::words::read_refusal;
use ix_io::{Shelf, read_all};
use std::alloc::Global;

/// Tells what a line refuses of the file of that name.
fn of_file<F: Shelf>(alloc: Global, line: &str, name: &str, shelf: &mut F) -> Option<String> {
    let bytes = read_all(alloc, shelf, name).ok()?;
    diagnose(alloc, line, name, bytes.as_slice()).ok()
}

/// Tells what a line of the tool's output refuses, by the words of its command and the file that is
/// refused, which is read once more. There is nothing to tell of a line that refuses nothing, nor
/// where memory is not found or the file is not read whole.
pub fn explain<F: Shelf>(
    alloc: Global,
    line: &str,
    words: &[String],
    shelf: &mut F,
) -> Option<String> {
    let told = match subject_of(line, words)? {
        Subject::Name(name) => diagnose(alloc, line, name, &[]),
        Subject::File(name) => return of_file(alloc, line, name, shelf),
        Subject::Images(first, second) => {
            let bytes = read_all(alloc, shelf, first).ok()?;
            if !is_refused_at(bytes.as_slice(), read_refusal(line)?.rest) {
                return of_file(alloc, line, second, shelf);
            }
            diagnose(alloc, line, first, bytes.as_slice())
        }
    };
    told.ok()
}
