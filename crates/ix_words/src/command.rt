ghost use Rattle.std.specs.Prelude.{◌≡◌, ◌+◌, ◌*◌, ◌^◌, ◌<◌, length, IfSome, MatchOption, Some, None, ◌≤◌};
ghost use Rattle.ix_words.specs.CommandLine.{digit_value as specified_digit_value, digits_number as specified_digits_number, number_within as specified_number_within, word_of, slots_of, fits_slot, fits_slots, is_command as specified_is_command, command_of as specified_command_of, bytes_of};

/// A command of the table.
#[derive(Clone, Copy, Debug, PartialEq, Eq)]
pub enum Command {
    /// `run IMAGE CYCLES`, with 0 to 200,000 cycles.
    RunImage,
    /// `check EXT`.
    Check,
    /// `certify REPORT`.
    Certify,
    /// `asm EXT SOURCE`.
    Assemble,
    /// `seq EXT IMAGE STEPS`, with 0 to 200,000 steps.
    Seq,
    /// `schedule EXT SHEET`.
    Schedule,
    /// `build EXT SHEET`.
    Build,
    /// `sweep EXT SHEET`.
    Sweep,
    /// `run EXT SHEET IMAGE WAITS CYCLES`, with 0 to 200,000 cycles.
    RunExtension,
    /// `bench EXT SHEET NUMBER COUNT`, with a number of 32 bits and 0 to 10,000 drawn words.
    Bench,
    /// `wave EXT SHEET IMAGE WAITS CYCLES`, with 0 to 200,000 cycles.
    Wave,
    /// `run EXT SHEET IMAGE WAITS LINES CYCLES`, with 0 to 200,000 cycles.
    RunInterrupted,
    /// `audit EXT SHEET IMAGE WAITS TRACE`.
    Audit,
    /// `barrel EXT SHEET IMAGEA IMAGEB CYCLES`, with 0 to 200,000 cycles.
    Barrel,
}

/// What is written of a run with an extension.
#[derive(Clone, Copy, Debug, PartialEq, Eq)]
pub enum RunForm {
    /// The lines of its rows, and the state behind them.
    Rows,
    /// The same of a run with an interrupt line.
    Interrupted,
    /// A value change dump of the ports of the modules.
    Ports,
}

/// What a file is read as.
#[derive(Clone, Copy, Debug, PartialEq, Eq)]
pub enum FileKind {
    /// The words of a program.
    Image,
    /// A report of schedules.
    Report,
    /// The text of an extension.
    Extension,
    /// A datasheet.
    Sheet,
    /// An assembly source.
    Source,
    /// The waits of a memory.
    Waits,
    /// The rows in which an interrupt line is raised.
    Lines,
    /// The text of a trace.
    Trace,
}

/// What may stand in a place behind the first word.
#[derive(Clone, Copy, Debug, PartialEq, Eq)]
pub enum Slot {
    /// A number from 0 to this one.
    Number(u32),
    /// The name of a file.
    File(FileKind),
}

/// The commands, in the order in which words are tried.
const COMMANDS: [Command; 14] = [
    Command::RunImage,
    Command::Check,
    Command::Certify,
    Command::Seq,
    Command::Assemble,
    Command::Schedule,
    Command::Build,
    Command::Sweep,
    Command::RunExtension,
    Command::Bench,
    Command::Wave,
    Command::RunInterrupted,
    Command::Audit,
    Command::Barrel,
];

/// What stands behind `run` for an image alone.
const RUN_IMAGE: [Slot; 2] = [Slot::File(FileKind::Image), Slot::Number(200_000)];

/// What stands behind `check`.
const CHECK: [Slot; 1] = [Slot::File(FileKind::Extension)];

/// What stands behind `certify`.
const CERTIFY: [Slot; 1] = [Slot::File(FileKind::Report)];

/// What stands behind `seq`.
const SEQ: [Slot; 3] = [
    Slot::File(FileKind::Extension),
    Slot::File(FileKind::Image),
    Slot::Number(200_000),
];

/// What stands behind `asm`.
const ASSEMBLE: [Slot; 2] = [
    Slot::File(FileKind::Extension),
    Slot::File(FileKind::Source),
];

/// What stands behind `schedule`, `build` and `sweep`.
const SCHEDULE: [Slot; 2] = [Slot::File(FileKind::Extension), Slot::File(FileKind::Sheet)];

/// What stands behind `run` for an image on a core with an extension, and behind `wave`.
const RUN_EXTENSION: [Slot; 5] = [
    Slot::File(FileKind::Extension),
    Slot::File(FileKind::Sheet),
    Slot::File(FileKind::Image),
    Slot::File(FileKind::Waits),
    Slot::Number(200_000),
];

/// What stands behind `run` for an image on a core with an extension and an interrupt line.
const RUN_INTERRUPTED: [Slot; 6] = [
    Slot::File(FileKind::Extension),
    Slot::File(FileKind::Sheet),
    Slot::File(FileKind::Image),
    Slot::File(FileKind::Waits),
    Slot::File(FileKind::Lines),
    Slot::Number(200_000),
];

/// What stands behind `audit`.
const AUDIT: [Slot; 5] = [
    Slot::File(FileKind::Extension),
    Slot::File(FileKind::Sheet),
    Slot::File(FileKind::Image),
    Slot::File(FileKind::Waits),
    Slot::File(FileKind::Trace),
];

/// What stands behind `barrel`.
const BARREL: [Slot; 5] = [
    Slot::File(FileKind::Extension),
    Slot::File(FileKind::Sheet),
    Slot::File(FileKind::Image),
    Slot::File(FileKind::Image),
    Slot::Number(200_000),
];

/// What stands behind `bench`.
const BENCH: [Slot; 4] = [
    Slot::File(FileKind::Extension),
    Slot::File(FileKind::Sheet),
    Slot::Number(4_294_967_295),
    Slot::Number(10_000),
];

impl Command {
    /// The first word.
    fn word(self) -> &'static str
        ensures { result.now ≡ word_of self }
    {
        match self {
            Command::RunImage => "run",
            Command::Check => "check",
            Command::Certify => "certify",
            Command::Assemble => "asm",
            Command::Seq => "seq",
            Command::Schedule => "schedule",
            Command::Build => "build",
            Command::Sweep => "sweep",
            Command::RunExtension => "run",
            Command::Bench => "bench",
            Command::Wave => "wave",
            Command::RunInterrupted => "run",
            Command::Audit => "audit",
            Command::Barrel => "barrel",
        }
    }

    /// What stands behind it.
    pub fn slots(self) -> &'static [Slot]
        ensures { result.now ≡ slots_of self }
    {
        match self {
            Command::RunImage => &RUN_IMAGE,
            Command::Check => &CHECK,
            Command::Certify => &CERTIFY,
            Command::Assemble => &ASSEMBLE,
            Command::Schedule => &SCHEDULE,
            Command::Build => &SCHEDULE,
            Command::Sweep => &SCHEDULE,
            Command::Seq => &SEQ,
            Command::RunExtension => &RUN_EXTENSION,
            Command::Bench => &BENCH,
            Command::Wave => &RUN_EXTENSION,
            Command::RunInterrupted => &RUN_INTERRUPTED,
            Command::Audit => &AUDIT,
            Command::Barrel => &BARREL,
        }
    }
}

fn digit_value(b: u8) -> Option<u8>
    ensures { result ≡ specified_digit_value b }
{
    match b {
        b'0'..=b'9' => Some(b - b'0'),
        _ => None,
    }
}

/// The number that at most ten decimal digits write.
fn digits_number(word: &[u8]) -> Option<u64>
    requires { length word.now ≤ 10 }
    ensures { result ≡ specified_digits_number 0 word.now }
{
    let mut number = 0u64;
    for b in word {
        match digit_value(*b) {
            None => return None,
            Some(digit) => number = 10 * number + u64::from(digit),
        }
    }
    Some(number)
}

/// The number that one to ten decimal digits write, where it is at most `most`.
pub fn number_within(most: u32, word: &str) -> Option<u32>
    ensures { result ≡ specified_number_within most word.now }
{
    if word.len() < 1 || word.len() > 10 {
        return None;
    }
    match digits_number(word.as_bytes()) {
        Some(number) if number <= u64::from(most) => Some(number as u32),
        _ => None,
    }
}

/// Whether a word may stand in a place.
fn fits(slot: Slot, word: &str) -> bool
    ensures { result ≡ fits_slot slot word.now }
{
    match slot {
        Slot::File(_) => true,
        Slot::Number(most) => number_within(most, word).is_some(),
    }
}

/// Whether there is a word for each place, and no more.
fn fit(slots: &[Slot], words: &[String]) -> bool
    ensures { result ≡ fits_slots slots.now (bytes_of words.now) }
{
    for (at, slot) in slots.iter().enumerate() {
        if at >= words.len() {
            return false;
        }
        if !fits(*slot, words[at].as_str()) {
            return false;
        }
    }
    slots.len() == words.len()
}

fn is_command(command: Command, words: &[String]) -> bool
    ensures { result ≡ specified_is_command command (bytes_of words.now) }
{
    match words {
        [word, rest @ ..] => word.as_str() == command.word() && fit(command.slots(), rest),
        [] => false,
    }
}

/// The command of these words, if they are one.
pub fn command_of(words: &[String]) -> Option<Command>
    ensures { result ≡ specified_command_of (bytes_of words.now) }
{
    for command in COMMANDS {
        if is_command(command, words) {
            return Some(command);
        }
    }
    None
}
