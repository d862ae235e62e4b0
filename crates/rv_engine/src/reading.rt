ghost use Rattle.std.specs.Prelude.{◌≡◌, ◌-◌, ◌<◌, ◌==◌, ◌&&◌, if◌then◌else◌, length, option_map, IfSome};
ghost use Rattle.rv_waits.specs.Waits.{wait_at};
ghost use Rattle.rv_holds.specs.Tokens.{makes_access};
ghost use Rattle.rv_unit.specs.Numbering.{lasts_of};
ghost use Rattle.rv_engine.specs.Owing.{paying, unpaid, oldest_serial, port_serial as specified_port_serial, beside_of as specified_beside_of};
ghost use Rattle.rv_engine.specs.Rows.{operand_pair, slot_operands, with_pair, read_with, reading};
ghost use Rattle.rv_engine.specs.Kept.{IsFittingSlot, AreFitting};

use crate::front::Front;
use crate::owing::Owing;
use crate::paying::{board_of, port_serial, retiring_hold};
use ix_eval::Inputs;
use ix_plan::Design;
use rv_asks::Asks;
use rv_core::Shape;
use rv_holds::{Beside, Token, access_of, is_last, operand_of};
use rv_seq::{rs1_of, rs2_of};
use rv_waits::Waits;

/// For how many rows the next access still waits.
pub fn owed_in(waits: &Waits, front: Front) -> u8
    ensures { result ≡ wait_at waits.now front.accesses - front.stood }
{
    let wait = u32::from(waits.wait(front.accesses));
    wait.saturating_sub(front.stood) as u8
}

/// For how many rows a token of this stage waits, where that of MEM is owed so many.
fn wait_of(shape: Shape, owed: u8, stage: usize, token: &Token) -> u8
    ensures { result ≡ (if (stage == shape.mem) && makes_access token.now then owed else 0) }
{
    if stage == usize::from(shape.mem) && access_of(token) {
        owed
    } else {
        0
    }
}

/// The x operands of a token.
#[derive(Clone, Copy)]
pub struct Operands {
    pub first: u32,
    pub second: u32,
}

/// The operands of a token before these, the first of them in this stage.
fn operands_of(
    shape: Shape,
    stage: usize,
    older: &[Option<Token>],
    file: &[u32; 32],
    word: u32,
) -> Operands
    requires { length older.now < 100 }
    ensures { result ≡ operand_pair shape stage older.now file.now word }
{
    Operands {
        first: operand_of(shape, false, stage, older, file, rs1_of(word)),
        second: operand_of(shape, false, stage, older, file, rs2_of(word)),
    }
}

/// The operands of the token of a slot of RD, where one is there.
fn operands_in(
    shape: Shape,
    stage: usize,
    slot: &Option<Token>,
    older: &[Option<Token>],
    file: &[u32; 32],
) -> Option<Operands>
    requires few { length older.now < 100 }
    requires inside { stage < 100 }
    ensures { result ≡ slot_operands shape stage slot.now older.now file.now }
{
    match slot {
        Some(token) if stage == usize::from(shape.rd) => Some(operands_of(
            shape,
            stage + 1,
            older,
            file,
            token.inputs.word,
        )),
        _ => None,
    }
}

/// Puts operands into inputs, where there are some.
fn put_operands(operands: Option<Operands>, inputs: &mut Inputs)
    ensures { inputs.new ≡ with_pair operands inputs.old }
{
    if let Some(operands) = operands {
        inputs.rs1 = operands.first;
        inputs.rs2 = operands.second;
    }
}

/// What tokens meet in a row of what is outstanding and of the interrupt line, found once.
#[derive(Clone, Copy)]
struct Met {
    left: Option<u32>,
    port: Option<u32>,
    trap: bool,
}

/// What is found of what is outstanding, where an interrupt is to be taken, or not.
fn met_in(interrupted: bool, owing: &Owing) -> Met
    ensures left { result.left ≡ oldest_serial (unpaid owing.now) }
    ensures port { result.port ≡ specified_port_serial (paying owing.now) }
    ensures trap { result.trap ≡ interrupted }
{
    Met {
        left: owing.left(),
        port: port_serial(owing.paying()),
        trap: interrupted,
    }
}

/// What a token of this stage meets.
fn beside_of(shape: Shape, owing: &Owing, met: Met, stage: usize, asks: &Asks) -> Beside
    requires left { met.left ≡ oldest_serial (unpaid owing.now) }
    requires port { met.port ≡ specified_port_serial (paying owing.now) }
    requires unit { IfSome asks.now.unit (λ unit. unit < length owing.now.lasts) }
    ensures { result ≡ specified_beside_of shape met.trap owing.now stage asks.now }
{
    let board = if stage == usize::from(shape.rd) {
        board_of(owing.owed(), asks)
    } else {
        None
    };
    let port = if is_last(shape, stage) {
        retiring_hold(owing, met.port, asks)
    } else {
        None
    };
    Beside {
        board,
        port,
        left: met.left,
        trap: met.trap,
    }
}

/// Gives a token these operands, where there are some, the rows for which it waits, where its stage is MEM, and what it meets beside the stages.
fn read_token(
    shape: Shape,
    operands: Option<Operands>,
    wait: u8,
    owing: &Owing,
    met: Met,
    stage: usize,
    token: &mut Token,
)
    requires left { met.left ≡ oldest_serial (unpaid owing.now) }
    requires port { met.port ≡ specified_port_serial (paying owing.now) }
    requires unit { IfSome token.old.asks.unit (λ unit. unit < length owing.now.lasts) }
    ensures { token.new ≡ read_with shape operands wait met.trap owing.now stage token.old }
{
    token.wait = wait_of(shape, wait, stage, token);
    token.beside = beside_of(shape, owing, met, stage, &token.asks);
    put_operands(operands, &mut token.inputs);
}

/// The same for the token of a slot, where one is there.
fn read_slot(
    design: &Design,
    operands: Option<Operands>,
    wait: u8,
    owing: &Owing,
    met: Met,
    stage: usize,
    slot: &mut Option<Token>,
)
    requires left { met.left ≡ oldest_serial (unpaid owing.now) }
    requires port { met.port ≡ specified_port_serial (paying owing.now) }
    requires lasts { owing.now.lasts ≡ lasts_of design.now.plans }
    requires fitting { IsFittingSlot design.now slot.old }
    ensures { slot.new ≡ option_map (read_with design.now.sheet.shape operands wait met.trap owing.now stage) slot.old }
{
    if let Some(token) = slot {
        read_token(design.sheet.shape, operands, wait, owing, met, stage, token);
    }
}

/// Gives the token of RD its operands, that of MEM the rows for which it waits, and each what it meets beside the stages.
pub fn read(
    design: &Design,
    file: &[u32; 32],
    wait: u8,
    interrupted: bool,
    owing: &Owing,
    slots: &mut [Option<Token>],
)
    requires lasts { owing.now.lasts ≡ lasts_of design.now.plans }
    requires fitting { AreFitting design.now slots.old }
    requires few { length slots.old < 100 }
    ensures { slots.new ≡ reading design.now.sheet.shape file.now wait interrupted owing.now 0 slots.old }
{
    let met = met_in(interrupted, owing);
    for stage in 0..slots.len() {
        let operands = operands_in(
            design.sheet.shape,
            stage,
            &slots[stage],
            &slots[stage + 1..],
            file,
        );
        read_slot(design, operands, wait, owing, met, stage, &mut slots[stage]);
    }
}
