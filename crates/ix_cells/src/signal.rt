use ix_ports::Letter;

/// What a name of the netlist stands for.
#[derive(Clone, Copy, Debug)]
pub enum Signal {
    /// The input that moves what stands at a time on to the next one.
    Enable(u8),
    /// The input with the result of an operation.
    Input(usize),
    /// A cell, by its number.
    Node(usize),
    /// The output with one of the arguments of an operation, by a letter.
    Output(usize, Letter),
    /// The bank that holds the result of an operation at a time.
    Register(usize, u8),
}

/// A signal with its width.
#[derive(Clone, Copy, Debug)]
pub struct Wire {
    pub signal: Signal,
    pub width: u8,
}
