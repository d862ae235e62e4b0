use ix_bits::{List, Memory, Name};
use std::alloc::Global;

/// The mark behind each part, and behind each answer.
pub(crate) const END: char = '\u{1e}';

/// The greatest length of a file's name.
const MOST_NAME: usize = 80;

/// The greatest count of bytes of a file: one more than the tool reads.
const MOST_BYTES: usize = 0x10_0001;

/// The names of files, and their bytes.
pub(crate) type Files = List<(Name, List<u8>)>;

// Puts a file, if its name is not too long.
fn put(alloc: Global, files: &mut Files, name: &str, bytes: List<u8>) -> Result<(), Memory> {
    if name.len() > MOST_NAME {
        return Ok(());
    }
    files.push((Name::from_text(alloc, name)?, bytes))
}

// A text that stands so many times, as far as a file goes.
fn repeated(alloc: Global, text: &str, count: &str) -> Result<List<u8>, Memory> {
    let mut bytes = List::new(alloc);
    for _ in 0..count.parse::<u32>().unwrap_or(0) {
        for byte in text.as_bytes() {
            if bytes.len() < MOST_BYTES {
                bytes.push(*byte)?;
            }
        }
    }
    Ok(bytes)
}

// Puts the file of a part that names another form than a text.
fn put_made(alloc: Global, files: &mut Files, head: &str, text: &str) -> Result<(), Memory> {
    let Some((form, rest)) = head.split_once(' ') else {
        return Ok(());
    };
    let Some((name, number)) = rest.split_once(' ') else {
        return Ok(());
    };
    match form {
        "many" => put(alloc, files, name, repeated(alloc, text, number)?),
        "byte" => {
            let byte = [number.parse::<u8>().unwrap_or(0)];
            put(alloc, files, name, List::from_slice(alloc, &byte)?)
        }
        _ => Ok(()),
    }
}

// Puts the file of a part, if it has one; where only texts are asked for, one of another form is left out.
fn put_file(alloc: Global, files: &mut Files, part: &str, only_texts: bool) -> Result<(), Memory> {
    let (head, text) = part.split_once('\n').unwrap_or((part, ""));
    match head.strip_prefix("file ") {
        Some(name) => put(
            alloc,
            files,
            name,
            List::from_slice(alloc, text.as_bytes())?,
        ),
        None if only_texts => Ok(()),
        None => put_made(alloc, files, head, text),
    }
}

/// Whether a part is the words of a command.
pub(crate) fn is_command(part: &str) -> bool {
    !part.is_empty()
        && !part.starts_with("file ")
        && !part.starts_with("many ")
        && !part.starts_with("byte ")
        && !part.starts_with("faults ")
        && !part.starts_with("tell ")
}

/// The files of a text's parts, or those that stand there as texts alone, since the others may be long.
pub(crate) fn files_of(alloc: Global, text: &str, only_texts: bool) -> Result<Files, Memory> {
    let mut files = List::new(alloc);
    for part in text.split(END) {
        put_file(alloc, &mut files, part, only_texts)?;
    }
    Ok(files)
}
