ghost use Rattle.std.specs.Prelude.{ℕ, Bool};
ghost use Rattle.rv_lawful.specs.Headline.{Agreeing, IsSpawnWrite};
ghost use Rattle.rv_lawful.specs.LawfulTrace.{Lawful};
ghost use Rattle.rv_seq.specs.Bare.{bare};
ghost use Rattle.rv_seq.specs.States.{zero_bit};
ghost use Rattle.row_laws.specs.Adding.{adding, adding_rows, IsOther, wrong_value, wrong_order, other_stop};
ghost use Rattle.row_laws.specs.Detour as leap;
ghost use Rattle.row_laws.specs.Forwarding as forward;
ghost use Rattle.row_laws.specs.Guessing as guess;
ghost use Rattle.row_laws.specs.Holding.{holding, holding_rows, IsUnlawful, untrue_hold, later_hold, tail_one_more, tail_one_less, tail_left_out, custom_left_out, idle_cell, skipped_word, wrong_stop, missing_stop, after_stop, cell_behind, untrue_trap, taken_unasked};
ghost use Rattle.row_laws.specs.Interrupting as trap;
ghost use Rattle.row_laws.specs.LateEntry as late;
ghost use Rattle.row_laws.specs.Sharing as share;
ghost use Rattle.row_laws.specs.Spawning as spawn;
ghost use Rattle.row_laws.specs.Turning as turn;
ghost use Rattle.row_laws.specs.Waiting as wait;

/// The laws of rows, tried on a hand-made run whose first instruction is Tight and writes a custom register late: they hold of its rows, in which
/// it is held by Tail and the next instruction by Custom, and of none in which one thing is changed.
pub fn holding_run()
    ensures rows { Lawful (λ places. holding) holding_rows }
    ensures untrue_hold { IsUnlawful untrue_hold }
    ensures later_hold { IsUnlawful later_hold }
    ensures tail_one_more { IsUnlawful tail_one_more }
    ensures tail_one_less { IsUnlawful tail_one_less }
    ensures tail_left_out { IsUnlawful tail_left_out }
    ensures custom_left_out { IsUnlawful custom_left_out }
    ensures idle_cell { IsUnlawful idle_cell }
    ensures skipped_word { IsUnlawful skipped_word }
    ensures wrong_stop { IsUnlawful wrong_stop }
    ensures missing_stop { IsUnlawful missing_stop }
    ensures after_stop { IsUnlawful after_stop }
    ensures cell_behind { IsUnlawful cell_behind }
    ensures untrue_trap { IsUnlawful untrue_trap }
    ensures taken_unasked { IsUnlawful taken_unasked }
{}

/// The laws of rows, tried on a hand-made run whose first instruction is Tight and writes the pc late: they hold of its rows, in which
/// the next instruction is held by Late and flushed with the one behind it, and of none in which one thing is changed.
pub fn turning_run()
    ensures rows { Lawful (λ places. turn.turning) turn.turning_rows }
    ensures unflushed { turn.IsUnlawful turn.unflushed }
    ensures one_unflushed { turn.IsUnlawful turn.one_unflushed }
    ensures flushed_twice { turn.IsUnlawful turn.flushed_twice }
    ensures no_redirect { turn.IsUnlawful turn.no_redirect }
    ensures other_redirect { turn.IsUnlawful turn.other_redirect }
    ensures early_turn { turn.IsUnlawful turn.early_turn }
    ensures late_left_out { turn.IsUnlawful turn.late_left_out }
    ensures flushed_retires { turn.IsUnlawful turn.flushed_retires }
{}

/// The laws of rows and what they promise of the run, tried on the run of the base set that adds five and seven: its rows are lawful and the run's, and rows
/// that retire another value, or in another order, or stop for another cause, are not the run's.
pub fn adding_run()
    ensures rows { Lawful (λ places. adding) adding_rows }
    ensures agrees { Agreeing bare (λ places. adding) adding_rows }
    ensures wrong_value { IsOther wrong_value }
    ensures wrong_order { IsOther wrong_order }
    ensures other_stop { IsOther other_stop }
{}

/// The laws of rows, tried on a hand-made run whose first instruction goes on elsewhere in time: they hold of its rows, in which the instruction
/// behind it is flushed from EX, and of none in which one thing is changed.
pub fn detour_run()
    ensures rows { Lawful (λ places. leap.detour) leap.detour_rows }
    ensures unflushed { leap.IsUnlawful leap.unflushed }
    ensures other_redirect { leap.IsUnlawful leap.other_redirect }
    ensures no_redirect { leap.IsUnlawful leap.no_redirect }
    ensures flushed_twice { leap.IsUnlawful leap.flushed_twice }
    ensures flushed_moves { leap.IsUnlawful leap.flushed_moves }
    ensures missing_stop { leap.IsUnlawful leap.missing_stop }
    ensures after_stop { leap.IsUnlawful leap.after_stop }
{}

/// The laws of rows and what they promise of the run, tried on a run of the base set that takes two instructions as decoupled, of which the younger one
/// is written first: its rows are lawful and the run's with the outstanding writes applied, and rows in which one thing is changed are not.
pub fn passing_run()
    ensures rows { Lawful (λ places. spawn.passing) spawn.passing_rows }
    ensures agrees { Agreeing bare (λ places. spawn.passing) spawn.passing_rows }
    ensures owes_both { spawn.OwesBoth }
    ensures owes_one { spawn.OwesOne }
    ensures writes_one { spawn.WritesOne }
    ensures applies_both { spawn.AppliesBoth }
    ensures board_left_out { spawn.IsUnlawful spawn.board_left_out }
    ensures board_of_another { spawn.IsUnlawful spawn.board_of_another }
    ensures board_of_younger { spawn.IsUnlawful spawn.board_of_younger }
    ensures board_after_write { spawn.IsUnlawful spawn.board_after_write }
    ensures none_written { spawn.IsUnlawful spawn.none_written }
    ensures written_early { spawn.IsUnlawful spawn.written_early }
    ensures written_unretired { spawn.IsUnlawful spawn.written_unretired }
    ensures written_twice { spawn.IsUnlawful spawn.written_twice }
    ensures wrong_write { spawn.IsOther spawn.wrong_write }
    ensures late_native { spawn.IsOther spawn.late_native }
    ensures early_spawn { spawn.IsOther spawn.early_spawn }
{}

/// The same on a run in which a unit writes while an instruction with a write of its own stands in the last stage, and which ends at the fetch: the
/// instruction is held by Port, and the run does not stop before the last write.
pub fn port_run()
    ensures rows { Lawful (λ places. spawn.port) spawn.port_rows }
    ensures agrees { Agreeing bare (λ places. spawn.port) spawn.port_rows }
    ensures port_left_out { spawn.IsUnlawfulAtPort spawn.port_left_out }
    ensures port_without_write { spawn.IsUnlawfulAtPort spawn.port_without_write }
    ensures stop_before_write { spawn.IsUnlawfulAtPort spawn.stop_before_write }
    ensures stop_left_out { spawn.IsUnlawfulAtPort spawn.stop_left_out }
{}

/// The same on a run in which two units finish in one row: the lower one writes, the other one is frozen with all that stands in it, and what is to
/// enter it is held by UnitFull. The condition of the last write is false: it takes its turn and changes nothing.
pub fn frozen_run()
    ensures rows { Lawful (λ places. spawn.frozen) spawn.frozen_rows }
    ensures agrees { Agreeing bare (λ places. spawn.frozen) spawn.frozen_rows }
    ensures full_left_out { spawn.IsUnlawfulFrozen spawn.full_left_out }
    ensures full_of_another { spawn.IsUnlawfulFrozen spawn.full_of_another }
    ensures higher_written { spawn.IsUnlawfulFrozen spawn.higher_written }
    ensures frozen_moves { spawn.IsUnlawfulFrozen spawn.frozen_moves }
    ensures drain_left_out { spawn.IsUnlawfulFrozen spawn.drain_left_out }
    ensures later_left_out { spawn.IsOtherFrozen spawn.later_left_out }
{}

/// The same on a run in which an always-block and a `spawn` body write one register, with a true condition of the `spawn` body and with a false one:
/// what the block writes is there from the retirement on, the unit writes what the instruction itself does and not what the block does, and an ebreak
/// waits for it by Board, since the block writes the register beside each instruction.
pub fn sharing_run()
    ensures rows { (b : Bool) → Lawful (λ places. share.sharing b) (share.sharing_rows b) }
    ensures drains_first { (b : Bool) → share.IsUnlawful b share.drains_first }
    ensures block_first { (b : Bool) → share.Holds b share.sharing_three share.of_block }
    ensures block_lost { (b : Bool) → share.HoldsNot b share.sharing_three zero_bit }
    ensures applied { (b : Bool) → share.HoldsApplied b share.sharing_three (share.left_by b) }
    ensures instruction_last { (b : Bool) → share.Holds b (share.sharing_four b) (share.left_by b) }
    ensures writes_own { (b : Bool) → IsSpawnWrite (share.sharing b) share.sharing_three (share.sharing_write b) }
    ensures block_by_unit { (b : Bool) → share.IsNoWrite b share.block_by_unit }
{}

/// The laws of rows, tried on the run that adds five and seven, on cores that forward. On the one of three stages no cell is held: rows in which the sum
/// waits for the seven to retire, as on a core that never forwards, are not lawful. On the one of five stages the sum waits in one row, in which
/// the seven is at EX, the time of its write: rows without this hold are not lawful, nor are rows in which it waits for what is forwarded.
pub fn forwarding_run()
    ensures short { Lawful (λ places. forward.short) forward.short_rows }
    ensures never_forwarded { forward.IsUnlawfulShort forward.never_forwarded }
    ensures long { Lawful (λ places. forward.long) forward.long_rows }
    ensures forwarded_early { forward.IsUnlawfulLong forward.forwarded_early }
    ensures waits_for_forwarded { forward.IsUnlawfulLong forward.waits_for_forwarded }
    ensures waits_longer { forward.IsUnlawfulLong forward.waits_longer }
{}

/// The same on a core that predicts, with an always-block that jumps: what is fetched behind its instruction is the word at the address of the jump, with
/// nothing flushed, and rows with the next word there are not lawful, while on a core that does not predict it is the other way round. The jump is that
/// with the custom registers before the row in which the instruction leaves stage 0: where it does not come, what was fetched is flushed.
pub fn guessing_run()
    ensures over { Lawful (λ places. guess.jumping) guess.over_rows }
    ensures next_word_fetched { guess.IsUnlawfulOver guess.next_word_fetched }
    ensures plain { guess.IsLawfulPlain guess.next_word_fetched }
    ensures jump_fetched { guess.IsUnlawfulPlain guess.jump_fetched }
    ensures back { Lawful (λ places. guess.looping) guess.back_rows }
    ensures never_guessed { guess.IsUnlawfulBack guess.never_guessed }
    ensures guessed_ahead { guess.IsUnlawfulBack guess.guessed_ahead }
    ensures miss_kept { guess.IsUnlawfulBack guess.miss_kept }
{}

/// The laws of rows and what they promise of the run, tried on a run of the base set that goes to a handler and returns: the interrupt line is raised
/// while a load waits for the memory, so that the cell of EX is held by Trap, and the interrupt is taken in the row in which the load retires. Its rows
/// are lawful and the run's, which goes to the handler there, and rows in which one thing is changed are not. Where the line is raised once more in
/// the handler, the interrupt is taken behind the return, and not before.
pub fn interrupted_run()
    ensures rows { Lawful trap.interrupting trap.interrupted_rows }
    ensures agrees { Agreeing bare trap.interrupting trap.interrupted_rows }
    ensures again { Lawful (trap.interrupting_in trap.twice) trap.again_rows }
    ensures never_taken { trap.IsUnlawful trap.never_taken }
    ensures taken_unraised { trap.IsUnlawful trap.taken_unraised }
    ensures trap_unraised { trap.IsUnlawful trap.trap_unraised }
    ensures taken_early { trap.IsUnlawful trap.taken_early }
    ensures taken_at_retired { trap.IsUnlawful trap.taken_at_retired }
    ensures taken_at_youngest { trap.IsUnlawful trap.taken_at_youngest }
    ensures trap_left_out { trap.IsUnlawful trap.trap_left_out }
    ensures behind_alone { trap.IsUnlawful trap.behind_alone }
    ensures below_unflushed { trap.IsUnlawful trap.below_unflushed }
    ensures ex_unflushed { trap.IsUnlawful trap.ex_unflushed }
    ensures above_flushed { trap.IsUnlawful trap.above_flushed }
    ensures no_redirect { trap.IsUnlawful trap.no_redirect }
    ensures other_redirect { trap.IsUnlawful trap.other_redirect }
    ensures taken_again { trap.IsUnlawful trap.taken_again }
    ensures taken_in_handler { trap.IsUnlawfulIn trap.twice trap.taken_again }
    ensures trap_again { trap.IsUnlawful trap.trap_again }
    ensures trap_in_handler { trap.IsUnlawfulIn trap.twice trap.trap_again }
    ensures undiverted { trap.IsOther trap.undiverted }
    ensures answers { trap.AnswersWithin 1 trap.interrupted_rows }
    ensures answers_late { trap.AnswersNotWithin 1 trap.never_taken }
    ensures stopped_before { (bound : ℕ) → trap.AnswersNotWithin bound trap.stopped_before }
{}

/// The same on a hand-made run in which the interrupt is taken in the row in which an instruction retires that writes the pc late: it is taken where that
/// one goes on, and not at the address of what is flushed behind it, and the handler is fetched, and not what the jump names.
pub fn late_entry_run()
    ensures rows { Lawful late.late_entry late.late_rows }
    ensures taken_at_flushed { late.IsUnlawful late.taken_at_flushed }
    ensures jump_followed { late.IsUnlawful late.jump_followed }
    ensures jump_alone { late.IsUnlawful late.jump_alone }
{}

/// The laws of rows and what they promise of the run, tried on a store and a load of the same word behind it, on a core of five stages. Over a memory in which
/// the store waits for two rows it shows Wait, counted down; then the load shows StoreAhead in the row in which the store retires, and what is to stop the run
/// shows Drain until the load retires. Over one in which the load waits, Wait comes before StoreAhead. The rows of both are lawful and the run's; rows in which
/// one thing is changed are not lawful, and rows in which the load reads what was there before the store are not the run's.
pub fn waiting_run()
    ensures slow_store { Lawful (λ places. wait.slow_store) wait.slow_store_rows }
    ensures slow_store_agrees { Agreeing bare (λ places. wait.slow_store) wait.slow_store_rows }
    ensures old_value { wait.IsOther wait.old_value }
    ensures wait_one_less { wait.IsUnlawfulStore wait.wait_one_less }
    ensures wait_one_more { wait.IsUnlawfulStore wait.wait_one_more }
    ensures wait_stands_still { wait.IsUnlawfulStore wait.wait_stands_still }
    ensures wait_left_out { wait.IsUnlawfulStore wait.wait_left_out }
    ensures waits_longer { wait.IsUnlawfulStore wait.waits_longer }
    ensures load_passes { wait.IsUnlawfulStore wait.load_passes }
    ensures ahead_of_another { wait.IsUnlawfulStore wait.ahead_of_another }
    ensures ahead_longer { wait.IsUnlawfulStore wait.ahead_longer }
    ensures drain_left_out { wait.IsUnlawfulStore wait.drain_left_out }
    ensures behind_alone { wait.IsUnlawfulStore wait.behind_alone }
    ensures drains_retired { wait.IsUnlawfulStore wait.drains_retired }
    ensures stops_early { wait.IsUnlawfulStore wait.stops_early }
    ensures slow_load { Lawful (λ places. wait.slow_load) wait.slow_load_rows }
    ensures slow_load_agrees { Agreeing bare (λ places. wait.slow_load) wait.slow_load_rows }
    ensures store_waits { wait.IsUnlawfulLoad wait.store_waits }
    ensures ahead_before_wait { wait.IsUnlawfulLoad wait.ahead_before_wait }
    ensures waits_once { wait.IsUnlawfulLoad wait.waits_once }
    ensures stops_beside { wait.IsUnlawfulLoad wait.stops_beside }
{}
