use ix_bits::{List, Memory, Name, Ty};
use ix_check_parts::{CheckErr, check_pieces, check_states, declare_fields, globals};
use ix_tree::{PieceKind, PieceText, Span};
use ix_typing::{Names, Role, State, Target, Targets};
use std::alloc::Global;
use std::test::Fail;

fn local(signed: bool) -> Role {
    Role::Local {
        ty: Ty { signed, width: 8 },
    }
}

#[test]
fn the_last_declaration_counts(rt: HostRuntime) -> Result<(), Fail> {
    let alloc = rt.alloc();
    let mut names = Names::new(alloc);
    names.declare(Name::from_text(alloc, "a")?, local(false))?;
    names.declare(Name::from_text(alloc, "a")?, local(true))?;
    assert!(rt; names.find("a") == Some(local(true)));
    names.keep(1);
    assert!(rt; names.find("a") == Some(local(false)));
    assert!(rt; names.find("b").is_none());
    Ok(())
}

#[test]
fn targets_are_split_and_joined(rt: HostRuntime) -> Result<(), Fail> {
    let alloc = rt.alloc();
    let mut written = Targets::new(alloc);
    written.push(Target::Memory)?;
    written.push(Target::Register(3))?;
    let branch = written.split(alloc, 1)?;
    assert!(rt; written.contains(Target::Memory));
    assert!(rt; !written.contains(Target::Register(3)));
    written.append(branch.as_slice())?;
    assert!(rt; written.contains(Target::Register(3)));
    Ok(())
}

// A piece at place 7.
fn piece(alloc: Global, hi: u128, lo: u128) -> Result<PieceText, Memory> {
    Ok(PieceText {
        span: Span { from: 7, to: 7 },
        kind: PieceKind::Field {
            name: Name::from_text(alloc, "rs1")?,
            hi,
            lo,
        },
    })
}

#[test]
fn a_field_has_bits_31_to_0(rt: HostRuntime) -> Result<(), Fail> {
    let alloc = rt.alloc();
    let names = Names::new(alloc);
    let span = Span { from: 7, to: 7 };
    assert!(rt; check_pieces(&names, &[piece(alloc, 4, 0)?]).is_ok());
    assert!(rt; check_pieces(&names, &[piece(alloc, 32, 0)?]) == Err(CheckErr::Range { span }));
    Ok(())
}

#[test]
fn fields_are_declared(rt: HostRuntime) -> Result<(), Fail> {
    let alloc = rt.alloc();
    let mut names = Names::new(alloc);
    assert!(rt; declare_fields(alloc, &mut names, &[piece(alloc, 4, 0)?]).is_ok());
    assert!(rt; names.find("rs1").is_some());
    Ok(())
}

#[test]
fn a_text_may_have_no_registers(rt: HostRuntime) -> Result<(), Fail> {
    let alloc = rt.alloc();
    let state = State {
        names: Names::new(alloc),
        written: Targets::new(alloc),
        accessed: false,
        spawned: false,
    };
    assert!(rt; globals(alloc, &[]).is_ok());
    assert!(rt; check_states(alloc, &state, List::new(alloc)).is_ok());
    Ok(())
}
