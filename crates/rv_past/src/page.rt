ghost use Rattle.std.specs.Prelude.{◌≡◌, ◌+◌, ◌-◌, ◌≤◌, ◌++◌, take, drop, length, true, [], IfOk, OnOk, Some};
ghost use Rattle.rv_trace.specs.TraceText.{retired_text, written_text};
ghost use Rattle.rv_shown.specs.Shown.{part_of};
ghost use Rattle.rv_past.specs.Making.{retiring_with};

use ix_bits::{Bits, Memory};
use ix_io::Out;
use rv_seq::{Commit, Slot};
use rv_shown::Span;
use rv_trace::{put_number, put_retired};
use std::alloc::Global;

/// The most bytes that a line takes, with what is printed beside it.
const LINE: u32 = 1024;

/// A page on which lines are printed to be compared with those of a text. It takes 65,536 bytes of
/// memory, and where a line may not fit any more another page takes its place.
#[derive(Drop)]
pub struct Page {
    alloc: Global,
    out: Out,
}

// A part of a text.
fn part(text: &[u8], span: Span) -> &[u8]
    ensures { result.now ≡ part_of text.now span }
{
    let rest = &text[span.start.min(text.len())..];
    &rest[..span.end.saturating_sub(span.start).min(rest.len())]
}

// What retires with these writes, at address 0 with a word of 0.
fn retiring(writes: &(u32, u8, Slot<u32>, [Slot<Bits>; 16])) -> (u32, Commit)
    ensures { result ≡ retiring_with writes.now }
{
    let custom = writes.3;
    let commit = Commit {
        at: 0,
        word: 0,
        rd_index: writes.1,
        rd: writes.2,
        custom,
        store: None,
        next: 4,
    };
    (writes.0, commit)
}

// Are they the same bytes?
fn is_same(one: &[u8], other: &[u8]) -> bool
    ensures to { result ≡ true → one.now ≡ other.now }
    ensures from { one.now ≡ other.now → result ≡ true }
{
    one == other
}

// Is it this text, and behind it that one?
fn is_both(line: &[u8], head: &[u8], tail: &[u8]) -> bool
    ensures to { result ≡ true → line.now ≡ head.now ++ tail.now }
    ensures from { line.now ≡ head.now ++ tail.now → result ≡ true }
{
    let count = head.len();
    if line.len() < count {
        return false;
    }
    let begins = is_same(&line[..count], head);
    let ends = is_same(&line[count..], tail);
    begins && ends
}

// Is it this part of a page, and behind it the page from that byte on?
fn is_on_page(line: &[u8], page: &[u8], start: usize, end: usize, from: usize) -> bool
    requires ordered { start ≤ end }
    requires inside { end ≤ length page.now }
    requires from { from ≤ length page.now }
    ensures to { result ≡ true → line.now ≡ take (end - start) (drop start page.now) ++ drop from page.now }
    ensures from { line.now ≡ take (end - start) (drop start page.now) ++ drop from page.now → result ≡ true }
{
    is_both(line, &page[start..end], &page[from..])
}

// Is it the line of these writes? It is that of what retires with them, but for what stands before
// its writes.
fn is_line_of(out: &mut Out, line: &[u8], writes: &(u32, u8, Slot<u32>, [Slot<Bits>; 16])) -> bool
    requires { length out.old + 1024 ≤ 65536 }
    ensures to { result ≡ true → line.now ≡ written_text (Some writes.now) }
    ensures from { line.now ≡ written_text (Some writes.now) → result ≡ true }
{
    let start = out.bytes().len();
    out.text("+ ");
    put_number(out, writes.0);
    let named = out.bytes().len();
    out.text(" 00000000 00000000");
    let printed = out.bytes().len();
    put_retired(out, Some(retiring(writes)));
    let behind = printed + (printed - start);
    is_on_page(line, out.bytes(), start, named, behind)
}

impl Page {
    /// An empty page.
    pub fn new(alloc: Global) -> Result<Page, Memory>
        ensures { IfOk result (λ page. page.out ≡ []) }
    {
        let out = Out::new(alloc)?;
        Ok(Page { alloc, out })
    }

    // A new page where this one has no room for a line.
    fn turn(&mut self) -> Result<(), Memory>
        ensures { OnOk result (length self.new.out + 1024 ≤ 65536) }
    {
        if self.out.room() < LINE {
            self.out = Out::new(self.alloc)?;
        }
        Ok(())
    }

    /// Whether the line of what retires is that of this record.
    pub fn retires_rightly(
        &mut self,
        text: &[u8],
        span: Span,
        retired: Option<(u32, Commit)>,
    ) -> Result<bool, Memory>
        ensures to { IfOk result (λ right. right ≡ true → part_of text.now span ≡ retired_text retired) }
        ensures from { IfOk result (λ right. part_of text.now span ≡ retired_text retired → right ≡ true) }
    {
        self.turn()?;
        let start = self.out.bytes().len();
        put_retired(&mut self.out, retired);
        Ok(is_same(part(text, span), &self.out.bytes()[start..]))
    }

    /// Whether the line of outstanding writes is that of these.
    pub fn writes_rightly(
        &mut self,
        text: &[u8],
        span: Span,
        written: &Option<(u32, u8, Slot<u32>, [Slot<Bits>; 16])>,
    ) -> Result<bool, Memory>
        ensures to { IfOk result (λ right. right ≡ true → part_of text.now span ≡ written_text written.now) }
        ensures from { IfOk result (λ right. part_of text.now span ≡ written_text written.now → right ≡ true) }
    {
        let line = part(text, span);
        match written {
            None => Ok(line.is_empty()),
            Some(writes) => {
                self.turn()?;
                Ok(is_line_of(&mut self.out, line, writes))
            }
        }
    }
}
