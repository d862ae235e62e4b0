use crate::place::Place;
use crate::text::part;

/// Whether a text has a mark of an interrupt that is taken, as ` i00000008`.
fn has_taken(text: &[u8]) -> bool {
    text.windows(4).any(|mark| {
        matches!(
            mark,
            [
                b' ',
                b'i',
                b'0'..=b'9' | b'a'..=b'f',
                b'0'..=b'9' | b'a'..=b'f'
            ]
        )
    })
}

/// Whether a line stands in the trace of a run with an interrupt line alone.
fn is_interrupted(line: &[u8]) -> bool {
    line.starts_with(b"epc ")
        || line.windows(5).any(|hold| hold == b"/Trap".as_slice())
        || has_taken(line)
}

/// What is wrong with a line that has no form.
fn form_sentence(line: &[u8]) -> &'static str {
    if is_interrupted(line) {
        return "the trace of a run with an interrupt line is not judged: write that of a run without LINES";
    }
    "this line has no form of a trace in its place, or one is missing: write the rows from number 0 on, behind a row with `r` its `=` line, behind one with `w` its `+` line, and then the state"
}

/// What is wrong with a line of a trace, and what to write in its place.
pub(crate) fn trace_sentence(kind: &str, bytes: &[u8], line: Place) -> &'static str {
    match kind {
        "Line" => form_sentence(part(bytes, line)),
        "Moves" => {
            "an instruction does not stand where the row before leaves it, or gives a reason to stay where it is flushed or stops the run, or `r` is not what leaves the last stage: let each one that gives no reason go on by one stage, and no other"
        }
        "Hold" => {
            "an instruction does not give the first reason to stay that is true of it: write that one, and none where no reason is true"
        }
        "Fetch" => {
            "this is not what is fetched here: where the first stage is free and the image has a word at the next address, write the next serial at this address, and else `-`"
        }
        "Successor" => {
            "the serials behind `f` or the address behind `p` are not those that are due: where an instruction goes on at another address than the one that stands behind it, write all younger serials and this address, and else none"
        }
        "Unit" => {
            "the serial behind `w` is not the one that is due: write that of the lowest unit that has finished, and none where no unit has"
        }
        "Stop" => {
            "this stop is not due here, or one is missing, or the run has stopped before: write the stop in the row in which the run stops, and no row behind it"
        }
        "Commit" => {
            "this is not what the run one instruction at a time does next: write the serial, and the address, the word and the writes as `seq` has them, with `later` for what a `spawn` body owes"
        }
        "Write" => {
            "this is not what the `spawn` body of this instruction writes: write its serial, and the values of the writes whose condition is true"
        }
        "State" => {
            "this is not the next line of the state behind the rows, or one is missing here: write the lines that docs/FORMATS.md lists, in their order"
        }
        _ => "the trace is refused: write it as docs/FORMATS.md says",
    }
}
