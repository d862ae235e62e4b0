ghost use Rattle.std.specs.Prelude.{◌≡◌, if◌then◌else◌, length};
ghost use Rattle.std.specs.List.{list_any};
ghost use Rattle.ix_sheet.specs.Behaviours.{names_op};
ghost use Rattle.ix_netgen.specs.Uses.{uses_until};

use ix_graph::{Arg, Op};

fn is_op(arg: &Arg, number: usize) -> bool
    ensures { result ≡ names_op number arg.now }
{
    match arg {
        Arg::Op(other) => *other as usize == number,
        Arg::Const(_, _) => false,
    }
}

fn names(args: &[Arg], number: usize) -> bool
    ensures { result ≡ list_any (names_op number) args.now }
{
    for arg in args {
        if is_op(arg, number) {
            return true;
        }
    }
    false
}

fn use_at(op: &Op, time: u8, number: usize) -> u8
    ensures { result ≡ (if list_any (names_op number) op.now.args then time else 0) }
{
    if names(op.args.as_slice(), number) {
        time
    } else {
        0
    }
}

/// The last time at which the result of an operation is used; 0 where it is not used.
pub(crate) fn last_use(ops: &[Op], times: &[u8], number: usize) -> u8
    requires { length times.now ≡ length ops.now }
    ensures { result ≡ uses_until number ops.now times.now }
{
    let mut last = 0;
    for other in 0..ops.len() {
        last = last.max(use_at(&ops[other], times[other], number));
    }
    last
}
