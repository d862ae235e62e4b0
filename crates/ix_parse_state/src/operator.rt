ghost use Rattle.std.specs.Prelude.{◌≡◌, if◌then◌else◌, slice_index_or, IfOk};
ghost use Rattle.ix_tree.specs.Trees.{e_literal, power, operators, operator_of};
ghost use Rattle.ix_bits.specs.declared.operator.BinOp.TheVariants.{Add};
ghost use Rattle.ix_tree.specs.declared.token.TokenKind.TheVariants.{Symbol};
ghost use Rattle.ix_tree.specs.Productions.{bit_type, one_bit, zero_bit};
ghost use Rattle.ix_tree.specs.View.{view, view_option};
ghost use Rattle.ix_tree.specs.Machine.{unary_of, primary, word_primary};

use crate::look::is_symbol;
use crate::sign::{BANG, DOUBLE_COLON, FALSE, MEM, MINUS, PC, TILDE, TRUE, X};
use ix_bits::{BinOp, Bits, Memory, Name, Ty, UnOp};
use ix_tree::{Expr, ExprKind, Span, Token, TokenKind};
use std::alloc::Global;

/// The number of `||`, the first symbol of the table of operators.
const FIRST_OPERATOR: u8 = 22;

/// How tightly each symbol holds what stands before it.
static POWERS: [u8; 40] = [
    1, 1, 26, 1, 1, 1, 1, 1, 1, 3, // {  }  [  ]  (  )  ;  ,  :  ::
    1, 1, 1, 1, 1, 1, 1, 1, 1, 1, // =  +=  -=  *=  &=  |=  ^=  <<=  >>=  ++
    1, 2, 5, 7, 9, 11, 13, 15, 15, 17, // --  ?  ||  &&  |  ^  &  ==  !=  <
    17, 17, 17, 19, 19, 21, 21, 23, 1, 1, // <=  >  >=  <<  >>  +  -  *  ~  !
];

/// The operators of the symbols from `||` to `*`.
static OPERATORS: [BinOp; 16] = [
    BinOp::Lor,
    BinOp::Land,
    BinOp::Or,
    BinOp::Xor,
    BinOp::And,
    BinOp::Eq,
    BinOp::Ne,
    BinOp::Lt,
    BinOp::Le,
    BinOp::Gt,
    BinOp::Ge,
    BinOp::Shl,
    BinOp::Shr,
    BinOp::Add,
    BinOp::Sub,
    BinOp::Mul,
];

/// How tightly the token holds what stands before it.
#[tactic(auto, unfolding(ix_tree::specs::Trees::power))]
pub fn power(token: &Token) -> u8
    ensures { result ≡ power token.now.kind }
{
    match &token.kind {
        TokenKind::Symbol(n) => POWERS.get(usize::from(*n)).copied().unwrap_or(1),
        _ => 1,
    }
}

/// The operator on two numbers that the token is.
#[tactic(auto, unfolding(ix_tree::specs::Trees::operator_of))]
pub fn binary_operator(token: &Token) -> BinOp
    ensures { result ≡ operator_of token.now.kind }
{
    match &token.kind {
        TokenKind::Symbol(n) => symbol_operator(*n),
        _ => BinOp::Add,
    }
}

/// The operator on two numbers that the symbol of that number is.
#[tactic(auto, unfolding(ix_tree::specs::Trees::operator_of))]
fn symbol_operator(number: u8) -> BinOp
    ensures { result ≡ operator_of (Symbol number) }
{
    if number == DOUBLE_COLON {
        return BinOp::Concat;
    }
    operator_at(number.saturating_sub(FIRST_OPERATOR))
}

/// The operator at a place of the table.
fn operator_at(place: u8) -> BinOp
    ensures { result ≡ slice_index_or operators place Add }
{
    OPERATORS
        .get(usize::from(place))
        .copied()
        .unwrap_or(BinOp::Add)
}

/// The operator on one number that the token is.
pub fn unary_operator(token: &Token) -> Option<UnOp>
    ensures { result ≡ unary_of token.now.kind }
{
    if is_symbol(token, MINUS) {
        return Some(UnOp::Neg);
    }
    if is_symbol(token, TILDE) {
        return Some(UnOp::Not);
    }
    if is_symbol(token, BANG) {
        return Some(UnOp::Lnot);
    }
    None
}

/// The expression that the token is.
pub fn primary(alloc: Global, token: &Token) -> Result<Option<Expr>, Memory>
    ensures { IfOk result (λ e. view_option e ≡ primary token.now.span token.now.kind) }
{
    let kind = match &token.kind {
        TokenKind::Name(name) => ExprKind::Name(Name::from_text(alloc, name.as_str())?),
        TokenKind::Unsized(ty, bits) => ExprKind::Literal(*ty, *bits),
        TokenKind::Sized(ty, bits) => ExprKind::Literal(*ty, *bits),
        TokenKind::Word(n) => return Ok(word_primary(token.span, *n)),
        _ => return Ok(None),
    };
    Ok(Some(Expr {
        span: token.span,
        kind,
    }))
}

/// The expression that the reserved word of that number is.
fn word_primary(span: Span, number: u8) -> Option<Expr>
    ensures { view_option result ≡ word_primary span number }
{
    let kind = match number {
        PC => ExprKind::Pc,
        X => ExprKind::X,
        MEM => ExprKind::Mem,
        TRUE => return Some(truth(span, true)),
        FALSE => return Some(truth(span, false)),
        _ => return None,
    };
    Some(Expr { span, kind })
}

/// A truth value.
fn truth(span: Span, value: bool) -> Expr
    ensures { view result ≡ e_literal span bit_type (if value then one_bit else zero_bit) }
{
    let ty = Ty {
        signed: false,
        width: 1,
    };
    let bits = Bits {
        raw: u128::from(value),
        width: 1,
    };
    Expr {
        span,
        kind: ExprKind::Literal(ty, bits),
    }
}
