ghost use Rattle.std.specs.Prelude.{◌≡◌, ◌↔◌, IsTrue, Contains};

use ix_bits::List;

// The calls of a shelf or a sink over memory.
#[derive(Drop)]
pub(crate) struct Calls {
    // The numbers of the calls that are to fail.
    pub(crate) fail: List<u64>,
    // The greatest count of bytes per call.
    pub(crate) most: u32,
    // The number of the next call, from 0 up to the last number.
    pub(crate) next: u64,
    // The count of the calls that failed.
    pub(crate) faults: u64,
}

impl Calls {
    ghost use Rattle.ix_io.specs.Calls.{first_call, after_call, after_fault};

    pub(crate) fn new(fail: List<u64>, most: u32) -> Calls
        ensures { result ≡ first_call fail most }
    {
        Calls {
            fail,
            most,
            next: 0,
            faults: 0,
        }
    }

    // Whether the next call is to fail.
    pub(crate) fn is_due(&self) -> bool
        ensures { IsTrue result ↔ Contains self.now.fail self.now.next }
    {
        self.fail.as_slice().contains(&self.next)
    }

    pub(crate) fn count_call(&mut self)
        ensures { self.new ≡ after_call self.old }
    {
        self.next = self.next.saturating_add(1);
    }

    pub(crate) fn count_fault(&mut self)
        ensures { self.new ≡ after_fault self.old }
    {
        self.next = self.next.saturating_add(1);
        self.faults = self.faults.saturating_add(1);
    }
}
