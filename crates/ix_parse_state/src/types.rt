ghost use Rattle.std.specs.Prelude.{◌≡◌, ◌+◌, ◌≤◌, ℕ, [], ◌∷◌, IfOk, IfErr};
ghost use Rattle.ix_tree.specs.declared.token.TokenKind.TheVariants.{Symbol};
ghost use Rattle.ix_tree.specs.Tokens.{less, greater};
ghost use Rattle.ix_tree.specs.Productions.{type_text};
ghost use Rattle.ix_tree.specs.Machine.{Stack, State, Next, go, only, is, with_number, width_of, named, typed, type_width, begin_type, after_type, sized_type, is_type_word, step, f_type_cast, f_type_locals, f_type_loop, f_type_register, f_type_table};
ghost use Rattle.ix_parse_state.specs.Views.{stack_of, type_frame, decl_frame, of_type, of_stmt, state_of, named_of, reader_of};
ghost use Rattle.ix_parse_state.specs.Moves.{Moves, GoesTo, StopsBy, Reaches};
ghost use Rattle.ix_parse_state.specs.declared.stop.Stop.TheVariants.{Memory as memory};

use crate::frame::{DeclFrame, Frame, NamedState, OpenLoop, OpenState, OperatorFrame, TypeFrame};
use crate::look::{copy, expect, is_symbol, is_word, level, nest};
use crate::reader::{behind, in_expr, in_stmt, in_type};
use crate::sign::{BOOL, CLOSE_ROUND, GREATER, INT, LESS, SIGNED, UNSIGNED};
use crate::stack::{bottom, pop, push};
use crate::state::{ExprGoal, Fixed, Place, Reader, StmtGoal, TextGoal, TypeGoal};
use crate::stop::Stop;
use ix_bits::{List, Memory, Name};
use ix_tree::{CastTo, Span, Token, TokenKind, TypeKind, TypeText};
use std::alloc::Global;

/// What the first token of a type leads to.
pub fn begin_type(
    alloc: Global,
    depth: u32,
    stack: Vec<Frame>,
    token: &Token,
) -> Result<Reader, Stop>
    ensures { Moves result (begin_type depth (stack_of stack.items) token.now) }
{
    go_on(behind_word(alloc, depth, token), stack)
}

/// The reader at what is wanted next in a type, inside of what is open.
fn go_on(goal: Result<TypeGoal, Stop>, stack: Vec<Frame>) -> Result<Reader, Stop>
    ensures { (n : Next) → Reaches goal (stack_of stack.items) n → Moves result n }
{
    match goal {
        Ok(goal) => Ok(in_type(goal, stack)),
        Err(stop) => {
            drop(stack);
            Err(stop)
        }
    }
}

/// What is wanted behind the first token of a type.
fn behind_word(alloc: Global, depth: u32, token: &Token) -> Result<TypeGoal, Stop>
    ensures { (k : Stack) → Reaches result k (begin_type depth k token.now) }
{
    if is_word(token, SIGNED) {
        level(depth)?;
        return Ok(TypeGoal::Less(depth, copy(alloc, token)?, true));
    }
    if is_word(token, UNSIGNED) {
        level(depth)?;
        return Ok(TypeGoal::Less(depth, copy(alloc, token)?, false));
    }
    if is_word(token, INT) {
        level(depth)?;
        return Ok(TypeGoal::Typed(whole(token, TypeKind::Int)));
    }
    if is_word(token, BOOL) {
        level(depth)?;
        return Ok(TypeGoal::Typed(whole(token, TypeKind::Bool)));
    }
    Err(Stop::Refused)
}

/// The type that one word is.
fn whole(token: &Token, kind: TypeKind) -> TypeText
    ensures { result ≡ type_text token.now token.now kind }
{
    TypeText {
        span: token.span,
        kind,
    }
}

/// What goes on behind a type.
fn after_type(alloc: Global, ty: TypeText, stack: Vec<Frame>, token: &Token) -> Result<Reader, Stop>
    ensures { Moves result (after_type ty (stack_of stack.items) token.now token.now.kind) }
{
    let Some((frame, stack)) = pop(stack) else {
        return Err(Stop::Refused);
    };
    match frame {
        Frame::Type(frame) => after_type_of(alloc, ty, frame, stack, token),
        other => {
            drop(other);
            drop(stack);
            Err(Stop::Refused)
        }
    }
}

/// What goes on behind a type that is read for this.
fn after_type_of(
    alloc: Global,
    ty: TypeText,
    frame: TypeFrame,
    stack: Vec<Frame>,
    token: &Token,
) -> Result<Reader, Stop>
    ensures { Moves result (after_type ty (type_frame frame ∷ stack_of stack.items) token.now token.now.kind) }
{
    match frame {
        TypeFrame::Cast(depth, first) => after_cast_type(depth, first, ty, stack, token),
        TypeFrame::Locals(depth) => after_locals_type(alloc, depth, ty, stack, token),
        TypeFrame::Loop(depth, first) => after_loop_type(alloc, depth, first, ty, stack, token),
        TypeFrame::Register(state) => after_register_type(alloc, state, ty, token),
        TypeFrame::Table(state) => after_table_type(alloc, state, ty, token),
    }
}

/// What goes on behind the type of a cast.
fn after_cast_type(
    depth: u32,
    first: Token,
    ty: TypeText,
    stack: Vec<Frame>,
    token: &Token,
) -> Result<Reader, Stop>
    ensures { Moves result (after_type ty (f_type_cast depth first ∷ stack_of stack.items) token.now token.now.kind) }
{
    match expect(token, CLOSE_ROUND, depth, 1) {
        Ok(inner) => {
            let frame = OperatorFrame::Cast(depth, first, CastTo::Written(ty));
            let stack = push(stack, Frame::Operator(frame))?;
            Ok(in_expr(ExprGoal::Want(inner), stack))
        }
        Err(stop) => {
            drop(first);
            drop(stack);
            Err(stop)
        }
    }
}

/// What is wanted behind the name of a declaration, or why the name cannot stand there.
fn behind_name(alloc: Global, depth: u32, name: &Name, token: &Token) -> Result<StmtGoal, Stop>
    ensures ok { (k : Stack) → IfOk result (λ g. GoesTo (of_stmt g k) (go depth (named depth token.now name.now k))) }
    ensures err { IfErr result (λ e. (z : State) → StopsBy e (go depth z)) }
{
    level(depth)?;
    let name = Name::from_text(alloc, name.as_str())?;
    let Ok(token) = copy(alloc, token) else {
        drop(name);
        return Err(Stop::Memory);
    };
    Ok(StmtGoal::Named(depth, token, name))
}

/// The reader behind the name of a declaration, with the declaration open around it.
fn declaring(goal: StmtGoal, frame: DeclFrame, stack: Vec<Frame>) -> Result<Reader, Stop>
    ensures ok { IfOk result (λ r. reader_of r ≡ of_stmt goal (decl_frame frame ∷ stack_of stack.items)) }
    ensures err { IfErr result (λ e. e ≡ memory) }
{
    match push(stack, Frame::Decl(frame)) {
        Ok(stack) => Ok(in_stmt(goal, stack)),
        Err(Memory) => {
            drop(goal);
            Err(Stop::Memory)
        }
    }
}

/// What goes on behind the type of locals.
fn after_locals_type(
    alloc: Global,
    depth: u32,
    ty: TypeText,
    stack: Vec<Frame>,
    token: &Token,
) -> Result<Reader, Stop>
    ensures { Moves result (after_type ty (f_type_locals depth ∷ stack_of stack.items) token.now token.now.kind) }
{
    match &token.kind {
        TokenKind::Name(name) => match behind_name(alloc, depth, name, token) {
            Ok(goal) => declaring(goal, DeclFrame::Locals(depth, ty, List::new(alloc)), stack),
            Err(stop) => {
                drop(stack);
                Err(stop)
            }
        },
        _ => {
            drop(stack);
            Err(Stop::Refused)
        }
    }
}

/// The name of a loop's variable in memory of its own, or why it cannot stand there.
fn loop_name(alloc: Global, depth: u32, name: &Name) -> Result<Name, Stop>
    ensures ok { IfOk result (λ n. n ≡ name.now) }
    ensures nesting { IfOk result (λ _. depth + 1 ≤ 64) }
    ensures err { IfErr result (λ e. (z : State) → StopsBy e (go (depth + 1) z)) }
{
    nest(depth, 1)?;
    Ok(Name::from_text(alloc, name.as_str())?)
}

/// What goes on behind the type in the head of a loop.
fn after_loop_type(
    alloc: Global,
    depth: u32,
    first: Token,
    ty: TypeText,
    stack: Vec<Frame>,
    token: &Token,
) -> Result<Reader, Stop>
    ensures { Moves result (after_type ty (f_type_loop depth first ∷ stack_of stack.items) token.now token.now.kind) }
{
    let named = match &token.kind {
        TokenKind::Name(name) => loop_name(alloc, depth, name),
        _ => Err(Stop::Refused),
    };
    match named {
        Ok(name) => {
            let head = OpenLoop {
                depth,
                first,
                ty: Some(ty),
                name,
            };
            Ok(in_stmt(StmtGoal::ForEquals(head), stack))
        }
        Err(stop) => {
            drop(first);
            drop(stack);
            Err(stop)
        }
    }
}

/// An open register or table with its type and its name.
fn named_state(
    alloc: Global,
    state: OpenState,
    ty: TypeText,
    name: &Name,
) -> Result<NamedState, Memory>
    ensures { IfOk result (λ n. named_of n ≡ record { state = state_of state; ty = ty; name = name.now }) }
{
    match Name::from_text(alloc, name.as_str()) {
        Ok(name) => Ok(NamedState { state, ty, name }),
        Err(Memory) => {
            drop(state);
            Err(Memory)
        }
    }
}

/// What goes on behind the type of a register.
fn after_register_type(
    alloc: Global,
    state: OpenState,
    ty: TypeText,
    token: &Token,
) -> Result<Reader, Stop>
    ensures { Moves result (after_type ty (f_type_register (state_of state) ∷ []) token.now token.now.kind) }
{
    match &token.kind {
        TokenKind::Name(name) => {
            let register = named_state(alloc, state, ty, name)?;
            match behind_name(alloc, 0, name, token) {
                Ok(goal) => declaring(goal, DeclFrame::Register(register), bottom(alloc)),
                Err(stop) => {
                    drop(register);
                    Err(stop)
                }
            }
        }
        _ => {
            drop(state);
            Err(Stop::Refused)
        }
    }
}

/// What goes on behind the type of a table.
#[tactic(auto, unfolding(crate::specs::Views::of_place))]
fn after_table_type(
    alloc: Global,
    state: OpenState,
    ty: TypeText,
    token: &Token,
) -> Result<Reader, Stop>
    ensures { Moves result (after_type ty (f_type_table (state_of state) ∷ []) token.now token.now.kind) }
{
    match &token.kind {
        TokenKind::Name(name) => {
            let table = named_state(alloc, state, ty, name)?;
            Ok(behind(Fixed::Square, Place::Text(TextGoal::TableLength(table))))
        }
        _ => {
            drop(state);
            Err(Stop::Refused)
        }
    }
}

/// What the token leads to inside of a type.
#[tactic(auto, unfolding(ix_tree::specs::Machine::step))]
pub fn type_step(
    alloc: Global,
    goal: TypeGoal,
    stack: Vec<Frame>,
    token: &Token,
) -> Result<Reader, Stop>
    ensures { Moves result (step (of_type goal (stack_of stack.items)) token.now) }
{
    match goal {
        TypeGoal::Typing(depth) => begin_type(alloc, depth, stack, token),
        TypeGoal::Less(depth, first, signed) => {
            go_on(behind_less(depth, first, signed, token), stack)
        }
        TypeGoal::Width(depth, first, signed) => {
            go_on(behind_width(depth, first, signed, token), stack)
        }
        TypeGoal::Greater(depth, first, signed, width) => {
            go_on(behind_greater(depth, &first, signed, width, token), stack)
        }
        TypeGoal::Typed(ty) => after_type(alloc, ty, stack, token),
    }
}

/// Whether the symbol stands where it is wanted, as deep as the production.
fn sign_at(depth: u32, symbol: u8, token: &Token) -> Result<(), Stop>
    ensures ok { (z : State) → IfOk result (λ _. GoesTo z (only (is token.now.kind (Symbol symbol)) depth z)) }
    ensures err { (z : State) → IfErr result (λ e. StopsBy e (only (is token.now.kind (Symbol symbol)) depth z)) }
{
    if !is_symbol(token, symbol) {
        return Err(Stop::Refused);
    }
    level(depth)?;
    Ok(())
}

/// What is wanted behind `<`.
fn behind_less(depth: u32, first: Token, signed: bool, token: &Token) -> Result<TypeGoal, Stop>
    ensures { (k : Stack) → Reaches result k (only (is token.now.kind less) depth (type_width depth first signed k)) }
{
    match sign_at(depth, LESS, token) {
        Ok(()) => Ok(TypeGoal::Width(depth, first, signed)),
        Err(stop) => {
            drop(first);
            Err(stop)
        }
    }
}

/// What is wanted behind a width.
#[tactic(auto, unfolding(ix_tree::specs::Machine::step))]
fn behind_width(depth: u32, first: Token, signed: bool, token: &Token) -> Result<TypeGoal, Stop>
    ensures { (k : Stack) → Reaches result k (step (type_width depth first signed k) token.now) }
{
    match written(depth, token) {
        Ok(width) => Ok(TypeGoal::Greater(depth, first, signed, width)),
        Err(stop) => {
            drop(first);
            Err(stop)
        }
    }
}

/// The width that the token is, or why none can stand there.
fn written(depth: u32, token: &Token) -> Result<u128, Stop>
    ensures ok { (z : ℕ → State) → IfOk result (λ w. GoesTo (z w) (with_number (width_of token.now.kind) depth z)) }
    ensures err { (z : ℕ → State) → IfErr result (λ e. StopsBy e (with_number (width_of token.now.kind) depth z)) }
{
    match &token.kind {
        TokenKind::Unsized(_, bits) => {
            level(depth)?;
            Ok(bits.raw)
        }
        _ => Err(Stop::Refused),
    }
}

/// The type that ends with `>`.
fn behind_greater(
    depth: u32,
    first: &Token,
    signed: bool,
    width: u128,
    token: &Token,
) -> Result<TypeGoal, Stop>
    ensures { (k : Stack) → Reaches result k (only (is token.now.kind greater) depth (typed (type_text first.now token.now (sized_type signed width)) k)) }
{
    sign_at(depth, GREATER, token)?;
    Ok(TypeGoal::Typed(sized(first, token, signed, width)))
}

/// The type of a written width.
fn sized(first: &Token, last: &Token, signed: bool, width: u128) -> TypeText
    ensures { result ≡ type_text first.now last.now (sized_type signed width) }
{
    TypeText {
        span: Span {
            from: first.span.from,
            to: last.span.to,
        },
        kind: if signed {
            TypeKind::Signed(width)
        } else {
            TypeKind::Unsigned(width)
        },
    }
}

/// Whether the token begins a type.
pub fn is_type_word(token: &Token) -> bool
    ensures { result ≡ is_type_word token.now.kind }
{
    is_word(token, SIGNED)
        || is_word(token, UNSIGNED)
        || is_word(token, INT)
        || is_word(token, BOOL)
}
