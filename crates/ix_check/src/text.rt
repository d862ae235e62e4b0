ghost use Rattle.std.specs.Prelude.{◌≡◌, [], map, Ok, IfOk, OnOk, IsOkUnless};
ghost use Rattle.ix_tree.specs.TypedTrees.{TypedTextTree};
ghost use Rattle.ix_tree.specs.TypedView.{typed_tree};
ghost use Rattle.ix_tree.specs.View.{view_section, view_tree};
ghost use Rattle.ix_typing.specs.Refusals.{unknown, twice, narrow, too_wide, mixed, range, index, read_after_write, double_write, second_access, in_spawn, rom, refuse, each};
ghost use Rattle.ix_typing.specs.Texts.{global_state, globals, no_front, judged_section, judged_text};
ghost use Rattle.ix_check.specs.Telling.{TellsSections, TellsText, ComesWhere};

use crate::section::section;
use ix_bits::{List, put};
use ix_check_parts::{CheckErr, globals};
use ix_tree::{Section, Span, Tree, Typed, TypedSection};
use ix_typing::{Front, Names, State, TakenNames, Targets};
use std::alloc::Global;

/// The text with its types, or the first rule of the language that it breaks, in the order of the source, and where. A loop is
/// refused as `Unknown`: loops are unrolled before.
pub fn check(alloc: Global, tree: Tree) -> Result<Typed, CheckErr>
    // The tree has these types.
    ensures typed { IfOk result (λ t. judged_text (view_tree tree) ≡ Ok (typed_tree t)) }
    // Where it has types, only memory can fail.
    ensures only { (u : TypedTextTree) → judged_text (view_tree tree) ≡ Ok u → IsOkUnless result CheckErr.Memory }
    // Each refusal comes exactly where it is the first.
    ensures unknown { (s : Span) → ComesWhere result (CheckErr.Unknown s) (judged_text (view_tree tree) ≡ refuse unknown s) }
    ensures twice { (s : Span) → ComesWhere result (CheckErr.Twice s) (judged_text (view_tree tree) ≡ refuse twice s) }
    ensures narrow { (s : Span) → ComesWhere result (CheckErr.Narrow s) (judged_text (view_tree tree) ≡ refuse narrow s) }
    ensures too_wide { (s : Span) → ComesWhere result (CheckErr.TooWide s) (judged_text (view_tree tree) ≡ refuse too_wide s) }
    ensures mixed { (s : Span) → ComesWhere result (CheckErr.Mixed s) (judged_text (view_tree tree) ≡ refuse mixed s) }
    ensures range { (s : Span) → ComesWhere result (CheckErr.Range s) (judged_text (view_tree tree) ≡ refuse range s) }
    ensures index { (s : Span) → ComesWhere result (CheckErr.Index s) (judged_text (view_tree tree) ≡ refuse index s) }
    ensures read_after_write { (s : Span) → ComesWhere result (CheckErr.ReadAfterWrite s) (judged_text (view_tree tree) ≡ refuse read_after_write s) }
    ensures double_write { (s : Span) → ComesWhere result (CheckErr.DoubleWrite s) (judged_text (view_tree tree) ≡ refuse double_write s) }
    ensures second_access { (s : Span) → ComesWhere result (CheckErr.SecondAccess s) (judged_text (view_tree tree) ≡ refuse second_access s) }
    ensures in_spawn { (s : Span) → ComesWhere result (CheckErr.InSpawn s) (judged_text (view_tree tree) ≡ refuse in_spawn s) }
    ensures rom { (s : Span) → ComesWhere result (CheckErr.Rom s) (judged_text (view_tree tree) ≡ refuse rom s) }
{
    checked(alloc, tree)
}

fn checked(alloc: Global, tree: Tree) -> Result<Typed, CheckErr>
    ensures { TellsText result (judged_text (view_tree tree)) }
{
    let Tree {
        span,
        name,
        sections,
    } = tree;
    match with_globals(alloc, sections) {
        Err(error) => {
            drop(name);
            Err(error)
        }
        Ok(sections) => Ok(Typed {
            span,
            name,
            sections,
        }),
    }
}

// The sections of a text with their types.
fn with_globals(alloc: Global, all: List<Section>) -> Result<List<TypedSection>, CheckErr>
    ensures { TellsSections result (each (judged_section (global_state (globals [] (map view_section all)))) (map view_section all) no_front) }
{
    match globals(alloc, all.as_slice()) {
        Err(error) => {
            drop(all);
            Err(error)
        }
        Ok(names) => sections(alloc, names, all),
    }
}

// The sections with their types, where these registers and tables are visible.
fn sections(alloc: Global, names: Names, all: List<Section>) -> Result<List<TypedSection>, CheckErr>
    ensures { TellsSections result (each (judged_section (global_state names)) (map view_section all) no_front) }
{
    let mut state = State {
        names,
        written: Targets::new(alloc),
        accessed: false,
        spawned: false,
    };
    let mut front = Front {
        states: false,
        instructions: false,
        always: false,
        behaviours: TakenNames::new(alloc),
    };
    let mut out = Vec::new(alloc);
    for text in all.into_vec() {
        match section(alloc, &mut state, &mut front, text) {
            Err(error) => {
                drop(state);
                drop(front);
                drop(out);
                return Err(error);
            }
            Ok(typed) => match put(&mut out, typed) {
                Err(_) => {
                    drop(state);
                    drop(front);
                    drop(out);
                    return Err(CheckErr::Memory);
                }
                Ok(()) => {}
            },
        }
    }
    Ok(List::from_vec(out))
}
