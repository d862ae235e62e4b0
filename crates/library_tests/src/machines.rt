ghost use Rattle.std.specs.Prelude.{◌^◌, ◌<◌, IfOk, length};
ghost use Rattle.ix_sheet.specs.Sheets.{IsValidSheet};
ghost use Rattle.ix_standing.specs.Standing.{Stands};

use crate::cores::{Deep, Early, Late};
use ix_bits::List;
use ix_design::design;
use ix_elab::elaborate;
use ix_io::MemSink;
use ix_plan::Design;
use ix_schedules::name_law;
use ix_sheet::{Sheet, native_windows};
use rv_core::{Shape, shape_of};
use rv_isa::Image;
use rv_pipe::{Machine, write_design_run};
use rv_waits::{Lines, Waits};
use std::alloc::Global;
use std::test::Fail;

/// An instruction that doubles what it reads, and a block that goes on at 20 behind the instruction at 8.
const SOURCE: &[u8] = b"InstructionSet Twice extends RV32I {
  instructions {
    twice {
      encoding: 7'd0 :: 5'd0 :: rs1[4:0] :: 3'd0 :: rd[4:0] :: 7'b0001011;
      behavior: { X[rd] = (unsigned<32>)(X[rs1] + X[rs1]); }
    }
  }
  always { skip { if (PC == 8) PC = 20; } }
}";

/// `addi x1, x0, 5`, `twice x2, x1`, `add x3, x2, x1`, which goes on at 20, two words that are passed over, and `ebreak`.
const WORDS: [u32; 6] = [
    0x0050_0093,
    0x0000_810B,
    0x0011_01B3,
    0x0010_0193,
    0x0020_0193,
    0x0010_0073,
];

/// What `run` writes of 20 cycles: each sum waits in one row, in which what it reads is at EX, the jump of the block flushes what was
/// fetched behind it, and `ebreak` stops the run in EX.
const RUN: &str = "\
0 0@00000000 - - - -
1 1@00000004 0@00000000 - - -
2 2@00000008 1@00000004 0@00000000 - -
3 3@0000000c/Behind 2@00000008/Behind 1@00000004/Operand(x1,0) 0@00000000 -
4 3@0000000c 2@00000008 1@00000004 - 0@00000000 r0
= 0 00000000 00500093 x1=00000005
5 4@00000010/Behind 3@0000000c/Behind 2@00000008/Operand(x2,1) 1@00000004 -
6 4@00000010 3@0000000c 2@00000008 - 1@00000004 r1
= 1 00000004 0000810b x2=0000000a
7 5@00000014 4@00000010 3@0000000c 2@00000008 - f3 f4 f5 p00000014
8 6@00000014 - - - 2@00000008 r2
= 2 00000008 001101b3 x3=0000000f pc=00000014
9 - 6@00000014 - - -
10 - - 6@00000014 - -
11 - - - 6@00000014 - stop Ebreak
state
pc 00000014
x1 00000005
x2 0000000a
x3 0000000f
";

/// No instruction but those of the base set.
const NONE: &[u8] = b"InstructionSet None extends RV32I { }";

/// `addi x1, x0, 5`, `addi x2, x0, 7`, `add x3, x1, x2` and `ebreak`.
const ADDITION: [u32; 4] = [0x0050_0093, 0x0070_0113, 0x0020_81B3, 0x0010_0073];

/// `lui x1, 0x80000`, `lw x2, 0(x1)`, `addi x3, x2, 1` and `ebreak`.
const LOAD: [u32; 4] = [0x8000_00B7, 0x0000_A103, 0x0011_0193, 0x0010_0073];

/// The addition on the core `Early`: what it reads is written two stages on.
const ADDITION_ON_EARLY: &str = "\
0 0@00000000 - - -
1 1@00000004 0@00000000 - -
2 2@00000008 1@00000004 0@00000000 -
3 3@0000000c/Behind 2@00000008/Operand(x1,0) 1@00000004 0@00000000 r0
= 0 00000000 00500093 x1=00000005
4 3@0000000c/Behind 2@00000008/Operand(x2,1) - 1@00000004 r1
= 1 00000004 00700113 x2=00000007
5 3@0000000c 2@00000008 - -
6 - 3@0000000c/Drain(2) 2@00000008 -
7 - 3@0000000c - 2@00000008 r2 stop Ebreak
= 2 00000008 002081b3 x3=0000000c
state
pc 0000000c
x1 00000005
x2 00000007
x3 0000000c
";

/// The load on it, over a memory that waits for two rows.
const LOAD_ON_EARLY: &str = "\
0 0@00000000 - - -
1 1@00000004 0@00000000 - -
2 2@00000008/Behind 1@00000004/Operand(x1,0) 0@00000000 -
3 2@00000008/Behind 1@00000004/Operand(x1,0) - 0@00000000 r0
= 0 00000000 800000b7 x1=80000000
4 2@00000008 1@00000004 - -
5 3@0000000c/Behind 2@00000008/Operand(x2,1) 1@00000004/Wait(2) -
6 3@0000000c/Behind 2@00000008/Operand(x2,1) 1@00000004/Wait(1) -
7 3@0000000c/Behind 2@00000008/Operand(x2,1) 1@00000004 -
8 3@0000000c/Behind 2@00000008/Operand(x2,1) - 1@00000004 r1
= 1 00000004 0000a103 x2=00000000
9 3@0000000c 2@00000008 - -
10 - 3@0000000c/Drain(2) 2@00000008 -
11 - 3@0000000c - 2@00000008 r2 stop Ebreak
= 2 00000008 00110193 x3=00000001
state
pc 0000000c
x1 80000000
x3 00000001
";

/// The addition on the core `Deep`.
const ADDITION_ON_DEEP: &str = "\
0 0@00000000 - - - -
1 1@00000004 0@00000000 - - -
2 2@00000008 1@00000004 0@00000000 - -
3 3@0000000c 2@00000008 1@00000004 0@00000000 -
4 - 3@0000000c/Behind 2@00000008/Operand(x1,0) 1@00000004 0@00000000 r0
= 0 00000000 00500093 x1=00000005
5 - 3@0000000c/Behind 2@00000008/Operand(x2,1) - 1@00000004 r1
= 1 00000004 00700113 x2=00000007
6 - 3@0000000c 2@00000008 - -
7 - - 3@0000000c 2@00000008 -
8 - - - 3@0000000c 2@00000008 r2 stop Ebreak
= 2 00000008 002081b3 x3=0000000c
state
pc 0000000c
x1 00000005
x2 00000007
x3 0000000c
";

/// The load on it, over a memory that waits for two rows: it reads the memory in the last stage.
const LOAD_ON_DEEP: &str = "\
0 0@00000000 - - - -
1 1@00000004 0@00000000 - - -
2 2@00000008 1@00000004 0@00000000 - -
3 3@0000000c/Behind 2@00000008/Behind 1@00000004/Operand(x1,0) 0@00000000 -
4 3@0000000c/Behind 2@00000008/Behind 1@00000004/Operand(x1,0) - 0@00000000 r0
= 0 00000000 800000b7 x1=80000000
5 3@0000000c 2@00000008 1@00000004 - -
6 - 3@0000000c/Behind 2@00000008/Operand(x2,1) 1@00000004 -
7 - 3@0000000c/Behind 2@00000008/Operand(x2,1) - 1@00000004/Wait(2)
8 - 3@0000000c/Behind 2@00000008/Operand(x2,1) - 1@00000004/Wait(1)
9 - 3@0000000c/Behind 2@00000008/Operand(x2,1) - 1@00000004 r1
= 1 00000004 0000a103 x2=00000000
10 - 3@0000000c 2@00000008 - -
11 - - 3@0000000c 2@00000008 -
12 - - - 3@0000000c 2@00000008 r2 stop Ebreak
= 2 00000008 00110193 x3=00000001
state
pc 0000000c
x1 80000000
x3 00000001
";

/// The datasheet of a core of a user, which no text names: each operation at the widest window that the core has.
fn sheet_of(shape: Shape) -> Sheet
    ensures { IsValidSheet result }
{
    Sheet {
        shape,
        period: 10,
        weighted: false,
        delay: [1; 34],
        window: native_windows(shape),
    }
}

/// The design of an extension on such a core.
fn design_on(alloc: Global, shape: Shape, source: &[u8]) -> Result<Design, Fail>
    requires { length source.now < 2 ^ 32 }
    ensures { IfOk result Stands }
{
    name_law();
    let Ok(extension) = elaborate(alloc, source) else {
        return Err(Fail::from("an extension"));
    };
    match design(alloc, extension, sheet_of(shape)) {
        Ok(design) => Ok(design),
        Err(_) => Err(Fail::from("a design")),
    }
}

/// What `run` writes of 20 cycles of an image on such a core, with this extension and over a memory with these waits.
fn run_on(
    alloc: Global,
    shape: Shape,
    source: &[u8],
    image: &Image,
    waits: &Waits,
) -> Result<MemSink, Fail>
    requires { length source.now < 2 ^ 32 }
{
    let design = design_on(alloc, shape, source)?;
    let mut sink = MemSink::new(alloc, List::new(alloc), u32::MAX)?;
    match write_design_run(alloc, &design, image, waits, None, 20, &mut sink) {
        Ok(()) => Ok(sink),
        Err(_) => Err(Fail::from("a run")),
    }
}

#[test]
fn an_addition_on_cores_of_a_user(rt: HostRuntime) -> Result<(), Fail> {
    let alloc = rt.alloc();
    let waits = Waits::new(alloc);
    let image = Image::from_list(List::from_slice(alloc, &ADDITION)?);
    let early = run_on(alloc, shape_of::<Early>(), NONE, &image, &waits)?;
    assert_eq!(rt; str::from_utf8(early.bytes()), Ok(ADDITION_ON_EARLY));
    let deep = run_on(alloc, shape_of::<Deep>(), NONE, &image, &waits)?;
    assert_eq!(rt; str::from_utf8(deep.bytes()), Ok(ADDITION_ON_DEEP));
    Ok(())
}

#[test]
fn a_load_that_waits_on_cores_of_a_user(rt: HostRuntime) -> Result<(), Fail> {
    let alloc = rt.alloc();
    let mut waits = Waits::new(alloc);
    waits.push(2)?;
    let image = Image::from_list(List::from_slice(alloc, &LOAD)?);
    let early = run_on(alloc, shape_of::<Early>(), NONE, &image, &waits)?;
    assert_eq!(rt; str::from_utf8(early.bytes()), Ok(LOAD_ON_EARLY));
    let deep = run_on(alloc, shape_of::<Deep>(), NONE, &image, &waits)?;
    assert_eq!(rt; str::from_utf8(deep.bytes()), Ok(LOAD_ON_DEEP));
    Ok(())
}

/// A core that forwards and always guesses the next word.
#[test]
fn a_run_on_a_core_of_a_user_that_forwards(rt: HostRuntime) -> Result<(), Fail> {
    let alloc = rt.alloc();
    let waits = Waits::new(alloc);
    let image = Image::from_list(List::from_slice(alloc, &WORDS)?);
    let sink = run_on(alloc, shape_of::<Late>(), SOURCE, &image, &waits)?;
    assert_eq!(rt; str::from_utf8(sink.bytes()), Ok(RUN));
    Ok(())
}

/// A line that is raised in the first row: the handler of that core, at address 64, is entered in it.
#[test]
fn a_machine_with_an_interrupt_line(rt: HostRuntime) -> Result<(), Fail> {
    let alloc = rt.alloc();
    let design = design_on(alloc, shape_of::<Late>(), SOURCE)?;
    let image = Image::from_list(List::from_slice(alloc, &WORDS)?);
    let waits = Waits::new(alloc);
    let mut lines = Lines::new(alloc);
    lines.push(0)?;
    let mut machine = Machine::with_lines(alloc, &design, &image, &waits, &lines, 1)?;
    let row = machine.cycle();
    assert_eq!(rt; row.taken, Some(0));
    assert_eq!(rt; row.redirect, Some(64));
    Ok(())
}
