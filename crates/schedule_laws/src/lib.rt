//! A law on schedules that no function computes.
#![tactic(auto)]

ghost use Rattle.schedule_laws.specs.Existence.{ExistenceLaw};

/// Where there is a legal schedule there is a chosen one: one of least cost that is pointwise the least. It does nothing: its contract
/// is what it is for.
pub fn existence_law()
    ensures { ExistenceLaw }
{}
