ghost use Rattle.std.specs.Prelude.{◌≡◌};
ghost use Rattle.ix_words.specs.Codes.{code_of};

/// What a command answers.
#[derive(Clone, Copy, Debug, PartialEq, Eq)]
pub enum Status {
    /// The defined output was written whole.
    Ok,
    /// The words are no command.
    Usage,
    /// A file could not be read.
    ReadFault,
    /// The output could not be written.
    WriteFault,
    /// A file has more than 1,048,576 bytes.
    TooLong,
    /// An extension is refused.
    Extension,
    /// A datasheet is refused.
    Sheet,
    /// An image is refused.
    Image,
    /// A behaviour has no legal schedule.
    NoSchedule,
    /// A report is refused.
    Certificate,
    /// Memory was not found.
    Memory,
    /// A source is refused.
    Source,
    /// A list of waits is refused.
    Waits,
    /// A list of the rows in which an interrupt line is raised is refused.
    Lines,
    /// A trace is refused.
    Trace,
    /// A behaviour may wait, where two harts take turns.
    Barrel,
}

impl Status {
    /// The exit status of the program.
    pub fn code(self) -> u8
        ensures { result ≡ code_of self }
    {
        match self {
            Status::Ok => 0,
            Status::Usage => 2,
            Status::ReadFault => 4,
            Status::WriteFault => 5,
            Status::TooLong => 6,
            Status::Extension => 7,
            Status::Sheet => 8,
            Status::Image => 9,
            Status::NoSchedule => 10,
            Status::Certificate => 11,
            Status::Memory => 12,
            Status::Source => 13,
            Status::Waits => 14,
            Status::Lines => 15,
            Status::Trace => 16,
            Status::Barrel => 17,
        }
    }
}
