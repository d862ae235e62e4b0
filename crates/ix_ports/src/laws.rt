ghost use Rattle.ix_ports.specs.Worked.{WorkedPorts};

/// The ports of a sum of two registers are those of the format. It does nothing: its contract is what it is for.
pub fn worked_ports()
    ensures { WorkedPorts }
{}
