ghost use Rattle.std.specs.Prelude.{◌≡◌, ◌≢◌, ◌≤◌, ◌-◌, ◌<◌, length, take, drop, IfOk, OnOk};
ghost use Rattle.ix_verilog.specs.Words.{words_of};
ghost use Rattle.ix_vline.specs.Slots.{IsHighest, slots};
ghost use Rattle.ix_vline.specs.Reached.{Fits};
ghost use Rattle.ix_vline.specs.Picked.{nth, IsDeclaredBy, IsSideOf};
ghost use Rattle.ix_vparse.specs.Taken.{Goes, Steps};

use crate::right::right_at;
use ix_bits::{List, Memory, Name};
use ix_net::Port;
use ix_verilog::{Assign, Source, Token, Update};
use ix_vform::{Scope, highest};
use ix_vline::{Kind, Right};
use std::alloc::Global;

/// The word at a place as a name.
pub(crate) fn name_at(alloc: Global, tokens: &[Token], place: usize) -> Result<Name, Memory>
    requires { place < length tokens.now }
    ensures { IfOk result (λ name. name ≡ nth place (words_of tokens.now)) }
{
    let Ok(text) = str::from_utf8(tokens[place].word.as_slice()) else {
        return Err(Memory);
    };
    if text.len() > Name::MOST {
        return Err(Memory);
    }
    Name::from_text(alloc, text)
}

/// What `[w-1:0] name;` declares behind the first word.
fn port_in(alloc: Global, tokens: &[Token]) -> Result<Port, Memory>
    requires whole { length tokens.now ≡ 8 }
    requires wide { IsHighest (nth 2 (words_of tokens.now)) }
    ensures { IfOk result (IsDeclaredBy (words_of tokens.now)) }
{
    match highest(tokens[2].word.as_slice()) {
        Some(high) => {
            let name = name_at(alloc, tokens, 6)?;
            Ok(Port {
                name,
                width: high + 1,
            })
        }
        None => unreachable!(),
    }
}

fn assign_in(alloc: Global, scope: &Scope, right: Right, tokens: &[Token]) -> Result<Assign, Memory>
    requires { Fits scope.now (slots (Kind.Assign right)) (words_of tokens.now) }
    ensures target { IfOk result (λ a. a.target ≡ nth 1 (words_of tokens.now)) }
    ensures right { IfOk result (λ a. IsSideOf right (words_of tokens.now) a.right) }
{
    let right = right_at(alloc, scope, right, tokens)?;
    let target = name_at(alloc, tokens, 1)?;
    Ok(Assign { target, right })
}

fn update_in(alloc: Global, tokens: &[Token]) -> Result<Update, Memory>
    requires { length tokens.now ≡ 8 }
    ensures enable { IfOk result (λ u. u.enable ≡ nth 2 (words_of tokens.now)) }
    ensures target { IfOk result (λ u. u.target ≡ nth 4 (words_of tokens.now)) }
    ensures source { IfOk result (λ u. u.source ≡ nth 6 (words_of tokens.now)) }
{
    let enable = name_at(alloc, tokens, 2)?;
    let target = name_at(alloc, tokens, 4)?;
    let source = name_at(alloc, tokens, 6)?;
    Ok(Update {
        enable,
        target,
        source,
    })
}

fn take_port(alloc: Global, scope: &mut Scope, tokens: &[Token]) -> Result<(), Memory>
    requires { Fits scope.old (slots Kind.Port) (words_of tokens.now) }
    ensures { OnOk result (Goes scope.old (words_of tokens.now) scope.new) }
{
    let name = name_at(alloc, tokens, 1)?;
    scope.add_port(name)
}

fn take_input(alloc: Global, scope: &mut Scope, tokens: &[Token]) -> Result<(), Memory>
    requires { Fits scope.old (slots Kind.Input) (words_of tokens.now) }
    ensures { OnOk result (Goes scope.old (words_of tokens.now) scope.new) }
{
    let port = port_in(alloc, tokens)?;
    scope.add_input(port)
}

fn take_output(alloc: Global, scope: &mut Scope, tokens: &[Token]) -> Result<(), Memory>
    requires { Fits scope.old (slots Kind.Output) (words_of tokens.now) }
    ensures { OnOk result (Goes scope.old (words_of tokens.now) scope.new) }
{
    let port = port_in(alloc, tokens)?;
    scope.add_output(port)
}

fn take_wire(alloc: Global, scope: &mut Scope, tokens: &[Token]) -> Result<(), Memory>
    requires { Fits scope.old (slots Kind.Wire) (words_of tokens.now) }
    ensures { OnOk result (Goes scope.old (words_of tokens.now) scope.new) }
{
    let port = port_in(alloc, tokens)?;
    scope.add_wire(port)
}

fn take_register(alloc: Global, scope: &mut Scope, tokens: &[Token]) -> Result<(), Memory>
    requires { Fits scope.old (slots Kind.Register) (words_of tokens.now) }
    ensures { OnOk result (Goes scope.old (words_of tokens.now) scope.new) }
{
    let port = port_in(alloc, tokens)?;
    scope.add_register(port)
}

fn take_assign(
    alloc: Global,
    scope: &mut Scope,
    right: Right,
    tokens: &[Token],
) -> Result<(), Memory>
    requires { Fits scope.old (slots (Kind.Assign right)) (words_of tokens.now) }
    ensures { OnOk result (Goes scope.old (words_of tokens.now) scope.new) }
{
    let assign = assign_in(alloc, scope, right, tokens)?;
    scope.add_assign(assign)
}

fn take_update(alloc: Global, scope: &mut Scope, tokens: &[Token]) -> Result<(), Memory>
    requires { Fits scope.old (slots Kind.Update) (words_of tokens.now) }
    ensures { OnOk result (Goes scope.old (words_of tokens.now) scope.new) }
{
    let update = update_in(alloc, tokens)?;
    scope.add_update(update)
}

fn take_head(alloc: Global, scope: &mut Scope, tokens: &[Token]) -> Result<(), Memory>
    requires { Fits scope.old (slots Kind.Head) (words_of tokens.now) }
    ensures { OnOk result (Goes scope.old (words_of tokens.now) scope.new) }
{
    let name = name_at(alloc, tokens, 1)?;
    scope.open(alloc, name);
    Ok(())
}

/// Takes a line that ends no module.
fn take_inner(alloc: Global, scope: &mut Scope, kind: Kind, tokens: &[Token]) -> Result<(), Memory>
    requires fits { Fits scope.old (slots kind) (words_of tokens.now) }
    requires inner { kind ≢ Kind.Finish }
    ensures { OnOk result (Goes scope.old (words_of tokens.now) scope.new) }
{
    match kind {
        Kind::Head => take_head(alloc, scope, tokens),
        Kind::Port => take_port(alloc, scope, tokens),
        Kind::Heading => {
            scope.end_ports();
            Ok(())
        }
        Kind::Input => take_input(alloc, scope, tokens),
        Kind::Output => take_output(alloc, scope, tokens),
        Kind::Wire => take_wire(alloc, scope, tokens),
        Kind::Register => take_register(alloc, scope, tokens),
        Kind::Assign(right) => take_assign(alloc, scope, right, tokens),
        Kind::Always => {
            scope.begin_always();
            Ok(())
        }
        Kind::Update => take_update(alloc, scope, tokens),
        Kind::Done => {
            scope.end_always();
            Ok(())
        }
        Kind::Finish => unreachable!(),
    }
}

/// Ends the module that is open.
fn take_finish(
    scope: &mut Scope,
    tokens: &[Token],
    modules: &mut List<Source>,
) -> Result<(), Memory>
    requires { Fits scope.old (slots Kind.Finish) (words_of tokens.now) }
    ensures { OnOk result (Steps scope.old modules.old (words_of tokens.now) scope.new modules.new) }
{
    match scope.close() {
        Some(source) => modules.push(source),
        None => unreachable!(),
    }
}

/// Takes a line of the kind, which these words are.
pub fn take_line(
    alloc: Global,
    scope: &mut Scope,
    kind: Kind,
    tokens: &[Token],
    modules: &mut List<Source>,
) -> Result<(), Memory>
    requires { Fits scope.old (slots kind) (words_of tokens.now) }
    ensures { OnOk result (Steps scope.old modules.old (words_of tokens.now) scope.new modules.new) }
{
    match kind {
        Kind::Finish => take_finish(scope, tokens, modules),
        _ => take_inner(alloc, scope, kind, tokens),
    }
}
