ghost use Rattle.std.specs.Prelude.{◌≡◌, ◌≤◌, ◌++◌, ◌∷◌, [], length, OnOk, IfOk, IfErr};
ghost use Rattle.ix_typing.specs.declared.role.Role.TheVariants as R;
ghost use Rattle.ix_typing.specs.Texts.{width_between, moved, stands, grown, no_field, field_so_far, with_piece, fields, field_fault, piece_fault, pieces_fault};
ghost use Rattle.ix_check_parts.specs.Telling.{TellsFault};

use crate::CheckErr;
use crate::types::type_near;
use ix_bits::Name;
use ix_tree::{PieceKind, PieceText, Span};
use ix_typing::{Field, Names, Role};
use std::alloc::Global;

/// The highest bit of a field.
const HIGHEST: u128 = 31;

/// Judges the pieces of an encoding: a field has a name of its own, and its bits are within 31 to 0.
pub fn pieces(names: &Names, all: &[PieceText]) -> Result<(), CheckErr>
    ensures { TellsFault result (pieces_fault names.now all.now) }
{
    for piece in all {
        match piece_of(names, piece) {
            Err(error) => return Err(error),
            Ok(()) => {}
        }
    }
    Ok(())
}

fn piece_of(names: &Names, piece: &PieceText) -> Result<(), CheckErr>
    ensures { TellsFault result (piece_fault names.now piece.now.span piece.now.kind) }
{
    match &piece.kind {
        PieceKind::Fixed(_) => Ok(()),
        PieceKind::Field { name, hi, lo } => {
            field_of(piece.span, names.find(name.as_str()), *hi, *lo)
        }
    }
}

fn field_of(span: Span, role: Option<Role>, hi: u128, lo: u128) -> Result<(), CheckErr>
    ensures { TellsFault result (field_fault span role hi lo) }
{
    match role {
        Some(_) => Err(CheckErr::Twice { span }),
        None => {
            if hi > HIGHEST || lo > hi {
                Err(CheckErr::Range { span })
            } else {
                Ok(())
            }
        }
    }
}

/// Makes the fields of an encoding visible.
pub fn declare_fields(alloc: Global, names: &mut Names, all: &[PieceText]) -> Result<(), CheckErr>
    ensures ok { OnOk result (names.new ≡ (fields names.old all.now).names) }
    ensures err { IfErr result (λ e. e ≡ CheckErr.Memory) }
{
    let mut at = 0;
    let mut left = all.len();
    while left > 0 {
        left -= 1;
        match declare_piece(alloc, names, at, &all[left]) {
            Err(error) => return Err(error),
            Ok(before) => at = before,
        }
    }
    Ok(())
}

// Makes the field of a piece visible, and tells the place before the piece.
fn declare_piece(
    alloc: Global,
    names: &mut Names,
    at: u8,
    piece: &PieceText,
) -> Result<u8, CheckErr>
    ensures ok { IfOk result (λ n. with_piece piece.now.kind (record { names = names.old; at = at }) ≡ record { names = names.new; at = n }) }
    ensures err { IfErr result (λ e. e ≡ CheckErr.Memory) }
{
    match &piece.kind {
        PieceKind::Fixed(bits) => Ok(moved(at, bits.width)),
        PieceKind::Field { name, hi, lo } => {
            let field = grown(field_so_far(names.find(name.as_str())), at, *hi, *lo);
            match declare_field(alloc, names, name.as_str(), field) {
                Err(error) => Err(error),
                Ok(()) => Ok(moved(at, width_between(*hi, *lo))),
            }
        }
    }
}

fn declare_field(alloc: Global, names: &mut Names, name: &str, field: Field) -> Result<(), CheckErr>
    requires { length name.now ≤ 80 }
    ensures ok { OnOk result (names.new ≡ names.old ++ record { name = name.now; role = R.Field field } ∷ []) }
    ensures err { IfErr result (λ e. e ≡ CheckErr.Memory) }
{
    match Name::from_text(alloc, name) {
        Err(_) => Err(CheckErr::Memory),
        Ok(name) => match names.declare(name, Role::Field(field)) {
            Err(_) => Err(CheckErr::Memory),
            Ok(()) => Ok(()),
        },
    }
}

fn width_between(hi: u128, lo: u128) -> u8
    ensures { result ≡ width_between hi lo }
{
    hi.saturating_sub(lo).min(127) as u8 + 1
}

fn moved(at: u8, width: u8) -> u8
    ensures { result ≡ moved at width }
{
    (u16::from(at) + u16::from(width)).min(32) as u8
}

fn field_so_far(role: Option<Role>) -> Field
    ensures { result ≡ field_so_far role }
{
    match role {
        None => no_field(),
        Some(Role::Table { .. }) => no_field(),
        Some(Role::Field(field)) => field,
        Some(Role::Local { .. }) => no_field(),
        Some(Role::Register { .. }) => no_field(),
    }
}

fn no_field() -> Field
    ensures { result ≡ no_field }
{
    Field {
        ty: type_near(false, 1),
        count: 0,
        is_rs1: true,
        is_rs2: true,
        is_rd: true,
    }
}

// The field with one more piece.
fn grown(field: Field, at: u8, hi: u128, lo: u128) -> Field
    ensures { result ≡ grown field at hi lo }
{
    Field {
        ty: type_near(false, u128::from(field.ty.width).max(hi.min(127) + 1)),
        count: (u16::from(field.count) + u16::from(width_between(hi, lo))).min(6) as u8,
        is_rs1: field.is_rs1 && stands(15, at, hi, lo),
        is_rs2: field.is_rs2 && stands(20, at, hi, lo),
        is_rd: field.is_rd && stands(7, at, hi, lo),
    }
}

// Whether bits hi to lo, which lie from `at` on, are among bits 4 to 0 of what lies from `base` on.
fn stands(base: u8, at: u8, hi: u128, lo: u128) -> bool
    ensures { result ≡ stands base at hi lo }
{
    hi <= 4 && lo <= hi && u128::from(at) == u128::from(base) + lo
}
