use ix_bits::{Bits, List, Ty};
use ix_tree::{Expr, ExprKind, SYMBOLS, Span, Stmt, StmtKind, WORDS};
use std::test::Fail;

const NOWHERE: Span = Span { from: 0, to: 0 };

#[test]
fn tables(rt: HostRuntime) {
    assert_eq!(rt; WORDS[15], "if");
    assert_eq!(rt; WORDS[23], "false");
    assert_eq!(rt; SYMBOLS[9], "::");
    assert_eq!(rt; SYMBOLS[39], "!");
}

#[test]
fn trees_hold_lists_of_themselves(rt: HostRuntime) -> Result<(), Fail> {
    let alloc = rt.alloc();
    let one = Expr {
        span: NOWHERE,
        kind: ExprKind::Literal(
            Ty {
                signed: false,
                width: 1,
            },
            Bits { raw: 1, width: 1 },
        ),
    };
    let empty = Stmt {
        span: NOWHERE,
        kind: StmtKind::Empty,
    };
    let mut items = List::new(alloc);
    items.push(Stmt {
        span: NOWHERE,
        kind: StmtKind::If(one, Box::new(alloc, empty)?, None),
    })?;
    let block = StmtKind::Block(items);
    match block {
        StmtKind::Block(items) => assert_eq!(rt; items.len(), 1),
        _ => assert!(rt; false),
    }
    Ok(())
}
