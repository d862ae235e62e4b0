use ix_bits::{Bits, List, Memory, Ty};
use ix_check_parts::{CheckErr, check_statement};
use ix_tree::{Assign, Expr, ExprKind, Lvalue, LvalueKind, Span, Stmt, StmtKind};
use ix_typing::{Body, Names, Setting, State, Targets};
use std::alloc::Global;
use std::test::Fail;

fn at(n: u32) -> Span {
    Span { from: n, to: n }
}

fn stmt(n: u32, kind: StmtKind) -> Stmt {
    Stmt { span: at(n), kind }
}

// `PC = 4`
fn jump(n: u32) -> Stmt {
    let ty = Ty {
        signed: false,
        width: 32,
    };
    let target = Lvalue {
        span: at(n),
        kind: LvalueKind::Pc,
    };
    let value = Expr {
        span: at(n),
        kind: ExprKind::Literal(ty, Bits { raw: 4, width: 32 }),
    };
    stmt(
        n,
        StmtKind::Assign(Assign {
            span: at(n),
            target,
            op: None,
            value,
        }),
    )
}

fn block(alloc: Global, n: u32, first: Stmt, second: Stmt) -> Result<Stmt, Memory> {
    let mut all = List::new(alloc);
    all.push(first)?;
    all.push(second)?;
    Ok(stmt(n, StmtKind::Block(all)))
}

// What an instruction with this behaviour is refused for.
fn refusal(alloc: Global, stmt: &Stmt) -> Option<CheckErr> {
    let setting = Setting {
        body: Body::Instruction,
        in_spawn: false,
        below_if: false,
    };
    let mut state = State {
        names: Names::new(alloc),
        written: Targets::new(alloc),
        accessed: false,
        spawned: false,
    };
    match check_statement(alloc, setting, &mut state, stmt) {
        Ok(_) => None,
        Err(error) => Some(error),
    }
}

#[test]
fn nothing_is_typed(rt: HostRuntime) -> Result<(), Fail> {
    let alloc = rt.alloc();
    assert!(rt; refusal(alloc, &stmt(1, StmtKind::Empty)).is_none());
    Ok(())
}

#[test]
fn a_jump_is_typed(rt: HostRuntime) -> Result<(), Fail> {
    let alloc = rt.alloc();
    assert!(rt; refusal(alloc, &jump(1)).is_none());
    Ok(())
}

#[test]
fn a_second_jump_is_refused(rt: HostRuntime) -> Result<(), Fail> {
    let alloc = rt.alloc();
    let all = block(alloc, 1, jump(2), jump(3))?;
    assert!(rt; refusal(alloc, &all) == Some(CheckErr::DoubleWrite { span: at(3) }));
    Ok(())
}

#[test]
fn a_spawn_writes_a_target(rt: HostRuntime) -> Result<(), Fail> {
    let alloc = rt.alloc();
    let body = Box::new(alloc, stmt(2, StmtKind::Empty))?;
    let all = stmt(1, StmtKind::Spawn(body));
    assert!(rt; refusal(alloc, &all) == Some(CheckErr::InSpawn { span: at(1) }));
    Ok(())
}
