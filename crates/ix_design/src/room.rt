ghost use Rattle.std.specs.Prelude.{◌≡◌, ◌*◌, ◌<◌, ◌≤◌, MatchBool};
ghost use Rattle.ix_design.specs.Room.{entries_at, entries_in};

use ix_graph::{Graph, Kind};

/// How many cells all nets may have. A cell takes some 250 bytes with its line in a module, so these take nearly 700 MB. Only look-ups can need more: all
/// other operations of 72 behaviours have far fewer cells.
pub(crate) const MOST_CELLS: usize = 2_700_000;

// How many entries an operation of this kind has in its table.
fn entries_of(graph: &Graph, kind: Kind) -> usize
    ensures { result ≡ entries_at graph.now.tables kind }
{
    let Kind::Rom(number) = kind else {
        return 0;
    };
    match graph.tables.as_slice().get(number as usize) {
        Some(table) => table.len(),
        None => 0,
    }
}

/// Whether there is room for the cells of a graph's look-ups. A look-up is a tree of choices, with at most a constant and a choice for each entry of its table.
pub(crate) fn has_room(graph: &Graph, room: usize) -> bool
    ensures { MatchBool result (2 * entries_in graph.now ≤ room) (room < 2 * entries_in graph.now) }
{
    let mut left = room / 2;
    for op in graph.ops.as_slice() {
        let entries = entries_of(graph, op.kind);
        if left < entries {
            return false;
        }
        left -= entries;
    }
    true
}
