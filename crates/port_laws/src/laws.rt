ghost use Rattle.port_laws.specs.Adding as add;
ghost use Rattle.port_laws.specs.Diverting as divert;
ghost use Rattle.port_laws.specs.Forwarding as forward;
ghost use Rattle.port_laws.specs.Freezing as freeze;
ghost use Rattle.port_laws.specs.Leaping as leap;
ghost use Rattle.port_laws.specs.Linking as link;
ghost use Rattle.port_laws.specs.Loading as load;
ghost use Rattle.port_laws.specs.Summing as total;
ghost use Rattle.port_laws.specs.Waiting as wait;

/// What drives modules, tried on a run of three stages whose instruction is held by Operand and then moves, and which stops at EX: an always-block
/// sees each cell there, but the held one.
pub fn adding_run()
    ensures inputs { add.AreAdding add.right }
    ensures reads_while_held { add.AreNotAdding add.reads_while_held }
    ensures moves_while_held { add.AreNotAdding add.moves_while_held }
    ensures stale_operand { add.AreNotAdding add.stale_operand }
    ensures reads_twice { add.AreNotAdding add.reads_twice }
    ensures moves_at_stop { add.AreNotAdding add.moves_at_stop }
    ensures watched { add.AreWatching add.watched }
    ensures watches_held { add.AreNotWatching add.watches_held }
    ensures blind_at_stop { add.AreNotWatching add.blind_at_stop }
{}

/// The same on a run of five stages whose instruction is held by Behind at RD, with both operands, and moves in the next row: an always-block
/// sees what it wrote from the row on behind the one in which its cell left EX.
pub fn waiting_run()
    ensures inputs { wait.AreWaiting wait.right }
    ensures silent_behind { wait.AreNotWaiting wait.silent_behind }
    ensures moves_behind { wait.AreNotWaiting wait.moves_behind }
    ensures idle { wait.AreNotWaiting wait.idle }
    ensures watched { wait.AreWatching wait.watched }
    ensures written_late { wait.AreNotWatching wait.written_late }
    ensures blind_at_stop { wait.AreNotWatching wait.blind_at_stop }
{}

/// The same on a run of three stages whose instruction loads and goes on in the last stage: it has no word while it is held by Wait, it has
/// the word in the first row in which it is held by Tail, and none in the second one.
pub fn loading_run()
    ensures inputs { load.AreLoading load.right }
    ensures reads_while_waiting { load.AreNotLoading load.reads_while_waiting }
    ensures goes_while_waiting { load.AreNotLoading load.goes_while_waiting }
    ensures reads_before_store { load.AreNotLoading load.reads_before_store }
    ensures reads_twice { load.AreNotLoading load.reads_twice }
    ensures one_enable { load.AreNotLoading load.one_enable }
    ensures goes_at_retirement { load.AreNotLoading load.goes_at_retirement }
{}

/// The same on a run of three stages whose instruction writes the pc late: the cell behind it is flushed from EX, does not move, and is seen by an
/// always-block with what this wrote and without the late write.
pub fn leaping_run()
    ensures inputs { leap.AreLeaping leap.right }
    ensures flushed_moves { leap.AreNotLeaping leap.flushed_moves }
    ensures watched { leap.AreWatching leap.watched }
    ensures blind_to_flushed { leap.AreNotWatching leap.blind_to_flushed }
    ensures block_put_off { leap.AreNotWatching leap.block_put_off }
    ensures late_too_early { leap.AreNotWatching leap.late_too_early }
    ensures late_lost { leap.AreNotWatching leap.late_lost }
{}

/// The same on a run of three stages with two decoupled instructions whose units finish in one row: the enables behind the last stage are 1 where a
/// unit is empty or moves, and 0 where it is frozen.
pub fn freezing_run()
    ensures slow { freeze.AreSlow freeze.slow_right }
    ensures quick { freeze.AreQuick freeze.quick_right }
    ensures slow_frozen { freeze.AreNotSlow freeze.slow_frozen }
    ensures moves_while_frozen { freeze.AreNotQuick freeze.moves_while_frozen }
    ensures still_while_empty { freeze.AreNotQuick freeze.still_while_empty }
    ensures retires_unseen { freeze.AreNotQuick freeze.retires_unseen }
{}

/// The same on a run of five stages of a core that forwards: an operand that two older instructions behind EX write is what the younger of them writes,
/// and neither what the older one does nor what the register file has, while the other one, which is written, is that of the file.
pub fn forwarding_run()
    ensures inputs { forward.AreForwarding forward.right }
    ensures of_file { forward.AreNotForwarding forward.of_file }
    ensures of_older { forward.AreNotForwarding forward.of_older }
{}

/// The same on such a run in which a jump leaves EX and flushes the cell at RD, which reads the register of its link: the operand of that cell is the link,
/// and it does not move.
pub fn linking_run()
    ensures inputs { link.AreLinking link.right }
    ensures of_file { link.AreNotLinking link.of_file }
    ensures flushed_moves { link.AreNotLinking link.flushed_moves }
{}

/// The same on a run of three stages that takes an interrupt: the cells at EX and below are flushed and do not move, and behind that row the inputs are those of
/// the run that goes to the handler, in which an always-block writes, and not those of the run that goes on.
pub fn diverting_run()
    ensures watched { divert.AreWatching divert.watched }
    ensures goes_on { divert.AreNotWatching divert.goes_on }
    ensures entry_unseen { divert.AreNotWatching divert.entry_unseen }
    ensures of_one_run { divert.IsOfOneRun divert.goes_on }
    ensures idle { divert.AreIdle divert.at_rest }
    ensures flushed_moves { divert.AreNotIdle divert.flushed_moves }
{}

/// A net that is driven by the rows of the first run: its cycles are such a run of it, its output has the sum in the row in which the instruction
/// retires, and cycles in which its register is never clocked, or of which there is one more than there are rows, are none.
pub fn driven_net()
    ensures cycles { total.AreCycles (total.cycles_to 12) }
    ensures ports { total.PortsShow }
    ensures unclocked { total.AreNotCycles total.unclocked }
    ensures cycle_more { total.AreNotCycles total.cycle_more }
{}
