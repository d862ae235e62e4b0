use rv_core::{Blocks, Core, CoreKind, Plain, Predictor, Shape, shape_of};

/// A core of a user: one more `impl`, with the proof of its law.
pub(crate) struct Late;

impl Core for Late {
    const STAGES: u8 = 5;

    const RD: u8 = 2;

    const EX: u8 = 3;

    const MEM: u8 = 4;

    const FORWARD: bool = true;

    type Next = Plain;

    const TRAP: u32 = 64;

    ghost use Rattle.std.specs.Prelude.{true};
    ghost use Rattle.rv_core.specs.Stages.{late_lawful};

    ghost STAGES = { 5 };

    ghost RD = { 2 };

    ghost EX = { 3 };

    ghost MEM = { 4 };

    ghost FORWARD = { true };

    ghost TRAP = { 64 };

    ghost lawful = { late_lawful };
}

/// A core of a user with four stages, in which instructions execute where they read their operands.
pub(crate) struct Early;

impl Core for Early {
    const STAGES: u8 = 4;

    const RD: u8 = 1;

    const EX: u8 = 1;

    const MEM: u8 = 2;

    const FORWARD: bool = false;

    type Next = Plain;

    const TRAP: u32 = 16;

    ghost use Rattle.std.specs.Prelude.{false};
    ghost use Rattle.library_tests.specs.Stages.{early_lawful};

    ghost STAGES = { 4 };

    ghost RD = { 1 };

    ghost EX = { 1 };

    ghost MEM = { 2 };

    ghost FORWARD = { false };

    ghost TRAP = { 16 };

    ghost lawful = { early_lawful };
}

/// The core `Late` without forwarding.
pub(crate) struct Deep;

impl Core for Deep {
    const STAGES: u8 = 5;

    const RD: u8 = 2;

    const EX: u8 = 3;

    const MEM: u8 = 4;

    const FORWARD: bool = false;

    type Next = Plain;

    const TRAP: u32 = 64;

    ghost use Rattle.std.specs.Prelude.{false};
    ghost use Rattle.rv_core.specs.Stages.{late_lawful};

    ghost STAGES = { 5 };

    ghost RD = { 2 };

    ghost EX = { 3 };

    ghost MEM = { 4 };

    ghost FORWARD = { false };

    ghost TRAP = { 64 };

    ghost lawful = { late_lawful };
}

fn numbers(shape: Shape) -> (u8, u8, u8, u8) {
    (shape.stages, shape.rd, shape.ex, shape.mem)
}

#[test]
fn named_cores(rt: HostRuntime) {
    assert_eq!(rt; numbers(CoreKind::Three.shape()), (3, 1, 1, 2));
    assert_eq!(rt; numbers(CoreKind::Four.shape()), (4, 1, 2, 3));
    assert_eq!(rt; numbers(CoreKind::Five.shape()), (5, 1, 2, 3));
}

#[test]
fn cores_that_forward(rt: HostRuntime) {
    let three = CoreKind::ThreeF.shape();
    let five = CoreKind::FiveF.shape();
    assert_eq!(rt; numbers(three), (3, 1, 1, 2));
    assert_eq!(rt; numbers(five), (5, 1, 2, 3));
    assert!(rt; three.forward && three.predict && five.forward && five.predict);
    assert!(rt; !CoreKind::Five.shape().forward && !CoreKind::Five.shape().predict);
    assert_eq!(rt; five.trap, 16);
}

#[test]
fn guesses(rt: HostRuntime) {
    assert_eq!(rt; Blocks::guess(Some(12), 8), 12);
    assert_eq!(rt; Blocks::guess(None, 0xFFFF_FFFC), 0);
    assert_eq!(rt; Plain::guess(Some(16), 8), 12);
}

#[test]
fn cores_of_a_user(rt: HostRuntime) {
    assert_eq!(rt; numbers(shape_of::<Early>()), (4, 1, 1, 2));
    assert_eq!(rt; numbers(shape_of::<Deep>()), (5, 2, 3, 4));
    let late = shape_of::<Late>();
    assert_eq!(rt; numbers(late), (5, 2, 3, 4));
    assert!(rt; late.forward && !late.predict);
    assert_eq!(rt; late.trap, 64);
}
