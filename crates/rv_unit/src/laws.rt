ghost use Rattle.rv_unit.specs.UnitLaws.{FirstLaw, NumberingLaw, UnitsLaw, ApartLaw, AloneLaw, WrittenLaw, FrozenLaw, NextLaw, TimedLaw, RoomLaw, GoesOnLaw, LeavesLaw, BoardLaw};

/// The list of what stands in units shows the units of a design, row by row, and does not outgrow them; the scoreboard keeps
/// what was reserved. It does nothing: its contract is what it is for.
pub fn unit_laws()
    ensures first { FirstLaw }
    ensures numbering { NumberingLaw }
    ensures units { UnitsLaw }
    ensures apart { ApartLaw }
    ensures written { WrittenLaw }
    ensures frozen { FrozenLaw }
    ensures next { NextLaw }
    ensures timed { TimedLaw }
    ensures alone { AloneLaw }
    ensures room { RoomLaw }
    ensures goes_on { GoesOnLaw }
    ensures leaves { LeavesLaw }
    ensures board { BoardLaw }
{}
