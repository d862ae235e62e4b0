ghost use Rattle.std.specs.Prelude.{◌≤◌, OnErr, OnOk};
ghost use Rattle.ix_io.specs.Faults.{Rose};
ghost use Rattle.ix_io.specs.Sink.{Appends, AppendsFront};

use crate::{Failed, Sink};
use thiserror::Error;

/// Why bytes were not written whole.
#[derive(Debug, Drop, Error, PartialEq, Eq)]
pub enum WriteErr {
    /// The sink failed, as its count of faults shows.
    #[error("the output could not be written")]
    Fault,
}

/// Appends all the bytes to the sink. After an `Err` a front of them was appended. It takes no memory.
pub fn write_all<S: Sink>(sink: &mut S, bytes: &[u8]) -> Result<(), WriteErr>
    ensures ok { OnOk result (Appends (S.written sink.old) (S.written sink.new) bytes.now) }
    ensures front { OnErr result (AppendsFront (S.written sink.old) (S.written sink.new) bytes.now) }
    ensures fault { OnErr result (Rose (S.faults sink.old) (S.faults sink.new)) }
    ensures never_fell { S.faults sink.old ≤ S.faults sink.new }
{
    let mut at = 0;
    while at < bytes.len() {
        match sink.write_part(&bytes[at..]) {
            Ok(count) => at += count,
            Err(Failed) => return Err(WriteErr::Fault),
        }
    }
    Ok(())
}
