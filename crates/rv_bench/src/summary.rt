ghost use Rattle.std.specs.Prelude.{◌≡◌, suc, ◌+◌, ◌^◌, ◌<◌, ◌≤◌, ◌++◌, [], length, reverse, if◌then◌else◌, OnOk, OnErr};
ghost use Rattle.ix_io.specs.Faults.{Rose};
ghost use Rattle.ix_io.specs.Sink.{Appends, AppendsFront};
ghost use Rattle.rv_trace.specs.Trace.{newest, retirements};
ghost use Rattle.rv_bench.specs.Summary.{writings, ending_text, count_line, summary_text};

use ix_io::{Out, Sink, WriteErr};
use rv_seq::Stop;
use rv_trace::{Trace, put_number, put_stop};

/// The count, or one more.
fn counted(count: u32, is_more: bool) -> u32
    requires { count + 1 < 2 ^ 32 }
    ensures { result ≡ (if is_more then suc count else count) }
{
    if is_more { count + 1 } else { count }
}

/// In how many rows an instruction retires.
fn retired(trace: &Trace) -> u32
    ensures { result ≡ retirements (reverse trace.now.rows) }
{
    let mut count = 0;
    for k in 0..trace.count() {
        count = counted(count, trace.row(k).retired.is_some());
    }
    count
}

/// In how many rows the outstanding writes of an instruction are made.
fn written(trace: &Trace) -> u32
    ensures { result ≡ writings (reverse trace.now.rows) }
{
    let mut count = 0;
    for k in 0..trace.count() {
        count = counted(count, trace.row(k).written.is_some());
    }
    count
}

/// The stop of the last row.
fn stop_of(trace: &Trace) -> Option<Stop>
    ensures { result ≡ (newest (reverse trace.now.rows)).stop }
{
    match trace.count() {
        0 => None,
        count => trace.row(count - 1).stop,
    }
}

/// Appends a number under its name, of at most 8 bytes, on a line of its own.
fn put_count(out: &mut Out, name: &str, count: u32)
    requires name { length name.now ≤ 8 }
    requires room { length out.old + 20 ≤ 65536 }
    ensures text { out.new ≡ out.old ++ count_line name.now count }
    ensures few { length out.new ≤ length out.old + 20 }
{
    out.text(name);
    out.text(" ");
    put_number(out, count);
    out.text("\n");
}

/// Appends the name of a stop, or that there is none.
fn put_ending(out: &mut Out, stop: Option<Stop>)
    requires { length out.old + 10 ≤ 65536 }
    ensures { out.new ≡ out.old ++ ending_text stop }
{
    match stop {
        None => out.text("none"),
        Some(stop) => put_stop(out, stop),
    }
}

/// Writes the summary of the rows of a program with so many words: how many words and rows there are, in how many rows an
/// instruction retired and in how many the outstanding writes of one were made, and the stop. It takes no memory.
pub fn write_summary<S: Sink>(
    words: u32,
    trace: &Trace,
    out: &mut Out,
    sink: &mut S,
) -> Result<(), WriteErr>
    requires empty { out.old ≡ [] }
    ensures whole { OnOk result (Appends (S.written sink.old) (S.written sink.new) (summary_text words (reverse trace.now.rows))) }
    ensures front { OnErr result (AppendsFront (S.written sink.old) (S.written sink.new) (summary_text words (reverse trace.now.rows))) }
    ensures fault { OnErr result (Rose (S.faults sink.old) (S.faults sink.new)) }
{
    put_count(out, "words", words);
    put_count(out, "rows", trace.count());
    put_count(out, "retired", retired(trace));
    put_count(out, "written", written(trace));
    out.text("stop ");
    put_ending(out, stop_of(trace));
    out.text("\n");
    out.flush(sink)
}
