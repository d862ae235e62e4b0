ghost use Rattle.std.specs.Prelude.{◌≡◌};
ghost use Rattle.ix_tree.specs.LoopHeads.{value_in};
ghost use Rattle.ix_unroll.specs.Scopes.{bindings};

/// The loops that hold a place, the innermost first: their variables, and the values of these.
#[derive(Clone, Copy)]
pub enum Scope<'a> {
    Outside,
    Inside(&'a str, i32, &'a Scope<'a>),
}

/// The value of a loop variable, if the name is one.
pub fn value_in(scope: &Scope, name: &str) -> Option<i32>
    ensures { result ≡ value_in (bindings scope.now) name.now }
{
    match scope {
        Scope::Outside => None,
        Scope::Inside(variable, value, outer) => {
            if *variable == name {
                Some(*value)
            } else {
                value_in(outer, name)
            }
        }
    }
}
