ghost use Rattle.std.specs.Prelude.{◌≡◌};
ghost use Rattle.ix_graph.specs.Roles.{role_of};

use crate::Kind;

/// What an operation is in a graph, whatever its kind.
#[derive(Clone, Copy, Debug, PartialEq, Eq)]
pub enum Role {
    /// It reads the core's state: its result comes from outside.
    Read,
    /// It makes its result of its arguments.
    Compute,
    /// It writes the core's state: it has no result.
    Write,
}

/// The role of a kind.
pub fn kind_role(kind: &Kind) -> Role
    ensures { result ≡ role_of kind.now }
{
    match kind {
        Kind::RdInstr | Kind::RdRS1 | Kind::RdRS2 | Kind::RdPC | Kind::RdCustReg(_) | Kind::RdMem =>
            Role::Read,
        Kind::WrRD | Kind::WrPC | Kind::WrCustReg(_) | Kind::WrMem => Role::Write,
        _ => Role::Compute,
    }
}
