ghost use Rattle.std.specs.Prelude.{◌≡◌, ◌≤◌, ℕ, true, IfSome, IfNone};
ghost use Rattle.ix_tree.specs.declared.token.Token.{Token};
ghost use Rattle.ix_tree.specs.Machine.{State, step, is, only};
ghost use Rattle.ix_parse_state.specs.Views.{of_fixed, of_place};
ghost use Rattle.ix_parse_state.specs.Moves.{Moves};
ghost use Rattle.ix_parse_section.specs.Wanting.{kind_of, nesting_of};

use ix_parse_state::look::{is_symbol, is_word};
use ix_parse_state::reader::behind;
use ix_parse_state::sign::{
    BEHAVIOR, CLOSE_SQUARE, COLON, ENCODING, EQUALS, EXTENDS, OPEN_BRACE, OPEN_SQUARE, RV32I,
    SEMICOLON,
};
use ix_parse_state::state::{Fixed, Place, Reader};
use ix_parse_state::stop::Stop;
use ix_tree::Token;

/// A reserved word or a symbol, by its number.
#[derive(Clone, Copy)]
pub enum Sign {
    Word(u8),
    Symbol(u8),
}

/// The first of the fixed tokens that are wanted, and what is wanted behind it.
#[derive(Clone, Copy)]
pub struct Wanted {
    pub sign: Sign,
    pub next: Fixed,
}

/// The fixed token that is wanted first, if one is.
#[tactic(auto, unfolding(ix_tree::specs::Machine::step))]
pub fn first_wanted(fixed: Fixed) -> Option<Wanted>
    ensures some { IfSome result (λ w. (z : State) (t : Token) → step (of_fixed fixed z) t ≡ only (is t.kind (kind_of w.sign)) (nesting_of fixed) (of_fixed w.next z)) }
    ensures none { IfNone result ((z : State) → of_fixed fixed z ≡ z) }
{
    let (sign, next) = match fixed {
        Fixed::None => return None,
        Fixed::Extends => (Sign::Word(EXTENDS), Fixed::Rv32i),
        Fixed::Rv32i => (Sign::Word(RV32I), Fixed::Brace),
        Fixed::Brace => (Sign::Symbol(OPEN_BRACE), Fixed::None),
        Fixed::BraceEncoding => (Sign::Symbol(OPEN_BRACE), Fixed::Encoding),
        Fixed::Encoding => (Sign::Word(ENCODING), Fixed::Colon),
        Fixed::Colon => (Sign::Symbol(COLON), Fixed::None),
        Fixed::SemicolonBehavior => (Sign::Symbol(SEMICOLON), Fixed::Behavior),
        Fixed::Behavior => (Sign::Word(BEHAVIOR), Fixed::Colon),
        Fixed::Square => (Sign::Symbol(OPEN_SQUARE), Fixed::None),
        Fixed::SquareEnd => (Sign::Symbol(CLOSE_SQUARE), Fixed::Equals),
        Fixed::Equals => (Sign::Symbol(EQUALS), Fixed::Brace),
    };
    Some(Wanted { sign, next })
}

/// Whether the token has that sign.
fn has_sign(token: &Token, sign: Sign) -> bool
    ensures { result ≡ is token.now.kind (kind_of sign) }
{
    match sign {
        Sign::Word(number) => is_word(token, number),
        Sign::Symbol(number) => is_symbol(token, number),
    }
}

/// What the token leads to where a fixed token is wanted, whatever the nesting at which it stands.
pub fn fixed_step(wanted: Wanted, place: Place, token: &Token) -> Result<Reader, Stop>
    ensures { (m : ℕ) → m ≤ 64 → Moves result (only (is token.now.kind (kind_of wanted.sign)) m (of_fixed wanted.next (of_place place))) }
{
    if has_sign(token, wanted.sign) {
        return Ok(behind(wanted.next, place));
    }
    drop(place);
    Err(Stop::Refused)
}
