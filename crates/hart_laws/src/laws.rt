ghost use Rattle.std.specs.Prelude.{◌≡◌};
ghost use Rattle.rv_barrel_text.specs.BarrelRowText.{barrel_rows_text};
ghost use Rattle.hart_laws.specs.Texts.{beside_empty_text, sharing_text, late_text};
ghost use Rattle.hart_laws.specs.Adding.{adding, empty, rows_beside_empty, breaking, rows_beside_break};
ghost use Rattle.hart_laws.specs.Hands.{HaveRows, plain, three, five};
ghost use Rattle.hart_laws.specs.Jumping.{leaping, doubling, jumping_rows, late_jumps, leaping_late, stepping_late, late_rows};
ghost use Rattle.hart_laws.specs.Spawning.{spawning, passing, draining, passing_rows, IsApplied, sharing, mixing, sharing_rows};

/// A hart that adds five and seven on the core of three stages: one instruction retires in every
/// other row. Beside it another hart stops, with an empty image in row 1 and with a stop alone in
/// row 2, and the cells and marks of the first are as they were.
pub fn adding_harts()
    ensures beside_empty { HaveRows (plain three) adding empty rows_beside_empty }
    ensures beside_break { HaveRows (plain three) adding breaking rows_beside_break }
{}

/// Two harts on a core of three stages that takes some instructions as decoupled. A sum is turned
/// for an outstanding write until the row behind it, while a younger write comes first; a stop is
/// turned until the row of the last write; the second instruction of a unit is turned until the row
/// behind the write of the first one; and a hart stops with Fetch when all is written. A state
/// between both writes is the run's with what is outstanding applied.
pub fn spawning_harts()
    ensures passing { HaveRows spawning passing draining passing_rows }
    ensures applied { IsApplied }
    ensures sharing { HaveRows spawning sharing mixing sharing_rows }
{}

/// Two harts on the core of five stages. A jump flushes the word behind it from stage 0, and a sum
/// is turned for its operand. Where jumps come late, one flushes the cell at EX and the one behind
/// that, and another, to the next word, has the cell at EX turned.
pub fn jumping_harts()
    ensures jumping { HaveRows (plain five) leaping doubling jumping_rows }
    ensures late { HaveRows late_jumps leaping_late stepping_late late_rows }
{}

/// How such rows are printed: on three stages those beside an empty image and those with two units,
/// and on five stages those with late jumps.
pub fn printed_harts()
    ensures beside_empty { barrel_rows_text 3 0 rows_beside_empty ≡ beside_empty_text }
    ensures sharing { barrel_rows_text 3 0 sharing_rows ≡ sharing_text }
    ensures late { barrel_rows_text 5 0 late_rows ≡ late_text }
{}
