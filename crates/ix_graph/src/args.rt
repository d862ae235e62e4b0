ghost use Rattle.std.specs.Prelude.{◌≡◌, ◌≤◌, length};

use ix_bits::{Bits, Ty};
use smallvec::SmallVec;
use std::alloc::Global;
use std::marker::Model;

/// An argument of an operation.
#[derive(Clone, Copy, Debug, PartialEq, Eq)]
pub enum Arg {
    /// The result of an earlier operation, by its number from 0.
    Op(u32),
    /// A constant: its type, and the pattern of its value.
    Const(Ty, Bits),
}

/// The blank that an unused place of `Args` holds.
impl Default for Arg {
    fn default() -> Arg {
        Arg::Op(0)
    }
}

/// The arguments of an operation, three at most, which lie in the value itself. Contracts see them as a list.
#[derive(Debug, Drop)]
pub struct Args {
    items: SmallVec<Arg, 3>,
}

impl Model for Args {
    ghost use Rattle.std.specs.Prelude.{List, ◌≤◌, length};
    ghost use Rattle.ix_graph.specs.declared.args.Arg.{Arg};

    ghost Value = { List Arg };

    ghost view = { λ args. args.items.items };

    ghost invariant = { λ args. length args.items.items ≤ 3 };
}

impl Args {
    /// The greatest count of arguments.
    pub const MOST: usize = 3;

    /// These arguments, in order. It takes no memory: the allocator is only kept.
    pub fn of(alloc: Global, args: &[Arg]) -> Args
        requires { length args.now ≤ 3 }
        ensures { result ≡ args.now }
    {
        match SmallVec::from_slice(alloc, args) {
            Ok(items) => Args { items },
            Err(_) => unreachable!(),
        }
    }

    /// The arguments, in order.
    pub fn as_slice(&self) -> &[Arg]
        ensures items { result.now ≡ self.now }
        ensures most { length self.now ≤ 3 }
    {
        self.items.as_slice()
    }
}
