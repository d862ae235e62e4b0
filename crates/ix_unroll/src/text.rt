ghost use Rattle.std.specs.Prelude.{◌≡◌, [], map, IfOk, OnOk, IfErr, IsOkUnless};
ghost use Rattle.ix_tree.specs.Trees.{TextTree};
ghost use Rattle.ix_tree.specs.View.{view_instr, view_block, view_section, view_tree};
ghost use Rattle.ix_tree.specs.Rows.{view_whole};
ghost use Rattle.ix_tree.specs.Unrolling.{alone_instr, alone_block, alone_section, met, met_instrs, met_blocks, met_kind, met_sections, first_refusal, outcome, IsWithoutLoops, without_loops, refused, bound_at, turns_at, assigned_at, size_at};
ghost use Rattle.ix_unroll.specs.Telling.{Passes, Refuses, ComesWhere};

use crate::UnrollErr;
use crate::room::{Room, whole_room};
use crate::scope::Scope;
use crate::statement::alone;
use ix_bits::{List, put};
use ix_tree::{BlockText, Instr, Section, SectionKind, Span, Stmt, Tree};
use std::alloc::Global;

/// The text with its loops unrolled: the body of each once for each value of its variable, every copy in a block of its own,
/// with an unsized literal for the variable, under a unary minus where the value is negative. In a block the copies stand in
/// the loop's place; as a branch of an `if`, a `spawn` body or a behaviour's outermost statement a loop becomes one block.
pub fn unroll(alloc: Global, tree: Tree) -> Result<Tree, UnrollErr>
    // The tree is the text's with its loops unrolled, and none is refused.
    ensures unrolled { IfOk result (λ t. outcome (view_tree tree) ≡ without_loops (view_tree t)) }
    // Where there is such a tree, only memory can fail.
    ensures only { (t : TextTree) → outcome (view_tree tree) ≡ without_loops t → IsOkUnless result UnrollErr.Memory }
    // Each refusal comes exactly where it is the first.
    ensures bound { (s : Span) → ComesWhere result (UnrollErr.Bound s) (outcome (view_tree tree) ≡ refused (bound_at s)) }
    ensures turns { (s : Span) → ComesWhere result (UnrollErr.Turns s) (outcome (view_tree tree) ≡ refused (turns_at s)) }
    ensures assigned { (s : Span) → ComesWhere result (UnrollErr.Assigned s) (outcome (view_tree tree) ≡ refused (assigned_at s)) }
    ensures size { (s : Span) → ComesWhere result (UnrollErr.Size s) (outcome (view_tree tree) ≡ refused (size_at s)) }
    // The result has no loop.
    ensures flat { IfOk result (λ t. IsWithoutLoops (view_tree t)) }
{
    let Tree {
        span,
        name,
        sections,
    } = tree;
    match unrolled_sections(alloc, sections) {
        Err(error) => Err(error),
        Ok(sections) => Ok(Tree {
            span,
            name,
            sections,
        }),
    }
}

// The sections of a text without loops.
fn unrolled_sections(alloc: Global, sections: List<Section>) -> Result<List<Section>, UnrollErr>
    ensures tree { IfOk result (λ xs. map view_section xs ≡ map alone_section (map view_section sections)) }
    ensures passed { OnOk result (first_refusal 0 (met_sections (map view_section sections)) ≡ None) }
    ensures refused { IfErr result (λ e. Refuses e 0 (met_sections (map view_section sections))) }
{
    let mut room = whole_room();
    let mut out = Vec::new(alloc);
    for section in sections.into_vec() {
        let section = unrolled_section(alloc, &mut room, section)?;
        put(&mut out, section)?;
    }
    Ok(List::from_vec(out))
}

// The section without loops.
fn unrolled_section(alloc: Global, room: &mut Room, section: Section) -> Result<Section, UnrollErr>
    ensures tree { IfOk result (λ s. view_section s ≡ alone_section (view_section section)) }
    ensures passed { OnOk result (Passes room.old.statements (met_kind (view_section section).kind) room.new.statements) }
    ensures refused { IfErr result (λ e. Refuses e room.old.statements (met_kind (view_section section).kind)) }
{
    let Section { span, kind } = section;
    match kind {
        SectionKind::States(states) => Ok(Section {
            span,
            kind: SectionKind::States(states),
        }),
        SectionKind::Instructions(all) => {
            let all = unrolled_instructions(alloc, room, all)?;
            Ok(Section {
                span,
                kind: SectionKind::Instructions(all),
            })
        }
        SectionKind::Always(all) => {
            let all = unrolled_blocks(alloc, room, all)?;
            Ok(Section {
                span,
                kind: SectionKind::Always(all),
            })
        }
    }
}

fn unrolled_instructions(
    alloc: Global,
    room: &mut Room,
    all: List<Instr>,
) -> Result<List<Instr>, UnrollErr>
    ensures tree { IfOk result (λ xs. map view_instr xs ≡ map alone_instr (map view_instr all)) }
    ensures passed { OnOk result (Passes room.old.statements (met_instrs (map view_instr all)) room.new.statements) }
    ensures refused { IfErr result (λ e. Refuses e room.old.statements (met_instrs (map view_instr all))) }
{
    let mut out = Vec::new(alloc);
    for instr in all.into_vec() {
        let instr = unrolled_instruction(alloc, room, instr)?;
        put(&mut out, instr)?;
    }
    Ok(List::from_vec(out))
}

fn unrolled_instruction(alloc: Global, room: &mut Room, instr: Instr) -> Result<Instr, UnrollErr>
    ensures tree { IfOk result (λ x. view_instr x ≡ alone_instr (view_instr instr)) }
    ensures passed { OnOk result (Passes room.old.statements (met (view_whole instr.body) []) room.new.statements) }
    ensures refused { IfErr result (λ e. Refuses e room.old.statements (met (view_whole instr.body) [])) }
{
    match alone(alloc, &Scope::Outside, room, &instr.body) {
        Err(error) => {
            drop(instr);
            Err(error)
        }
        Ok(body) => Ok(with_body(instr, body)),
    }
}

// The instruction with this behaviour.
fn with_body(instr: Instr, body: Stmt) -> Instr
    ensures { view_instr result ≡ record { span = instr.span; name = instr.name; pieces = instr.pieces; body = view_whole body } }
{
    let Instr {
        span,
        name,
        pieces,
        body: former,
    } = instr;
    drop(former);
    Instr {
        span,
        name,
        pieces,
        body,
    }
}

fn unrolled_blocks(
    alloc: Global,
    room: &mut Room,
    all: List<BlockText>,
) -> Result<List<BlockText>, UnrollErr>
    ensures tree { IfOk result (λ xs. map view_block xs ≡ map alone_block (map view_block all)) }
    ensures passed { OnOk result (Passes room.old.statements (met_blocks (map view_block all)) room.new.statements) }
    ensures refused { IfErr result (λ e. Refuses e room.old.statements (met_blocks (map view_block all))) }
{
    let mut out = Vec::new(alloc);
    for block in all.into_vec() {
        let block = unrolled_block(alloc, room, block)?;
        put(&mut out, block)?;
    }
    Ok(List::from_vec(out))
}

fn unrolled_block(alloc: Global, room: &mut Room, block: BlockText) -> Result<BlockText, UnrollErr>
    ensures tree { IfOk result (λ x. view_block x ≡ alone_block (view_block block)) }
    ensures passed { OnOk result (Passes room.old.statements (met (view_whole block.body) []) room.new.statements) }
    ensures refused { IfErr result (λ e. Refuses e room.old.statements (met (view_whole block.body) [])) }
{
    match alone(alloc, &Scope::Outside, room, &block.body) {
        Err(error) => {
            drop(block);
            Err(error)
        }
        Ok(body) => Ok(with_block_body(block, body)),
    }
}

// The always-block with this behaviour.
fn with_block_body(block: BlockText, body: Stmt) -> BlockText
    ensures { view_block result ≡ record { span = block.span; name = block.name; body = view_whole body } }
{
    let BlockText {
        span,
        name,
        body: former,
    } = block;
    drop(former);
    BlockText { span, name, body }
}
