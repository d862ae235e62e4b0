ghost use Rattle.std.specs.Prelude.{◌≡◌, ◌≤◌};
ghost use Rattle.ix_extension.specs.Extensions.{view_extension};
ghost use Rattle.ix_extension.specs.WellFormed.{IsWellFormed};
ghost use Rattle.ix_behaviour.specs.Behaviours.{HasBehaviour};
ghost use Rattle.ix_sheet.specs.Sheets.{IsValidSheet};

use crate::life::served;
use crate::module::{Why, module_of};
use crate::put::{put_head, put_lives};
use crate::token::tokens;
use effect_cases::has_behaviour;
use ix_behaviour::Which;
use ix_elab::elaborate;
use ix_sheet::{Sheet, read_sheet};
use ix_tree::Extension;
use std::alloc::{AllocError, Global};
use std::str::Split;

/// The byte between the parts of a case.
const MIDDLE: u8 = 31;

/// Past the greatest count of bytes that an extension or a datasheet may have.
const TOO_MANY: usize = 0x10_0001;

/// The byte behind the lives of each module.
const PART: &str = "\u{1d}";

/// How many tokens go through each module, and where their inputs come from.
#[derive(Clone, Copy)]
struct Draw {
    count: u32,
    seed: u64,
}

/// The count and the seed of `tokens COUNT SEED`.
fn draw_of(text: &str) -> Option<Draw> {
    let mut words = text.split_whitespace();
    if words.next()? != "tokens" {
        return None;
    }
    match (words.next()?.parse::<u32>(), words.next()?.parse::<u64>()) {
        (Ok(count), Ok(seed)) if count <= 10_000 => Some(Draw { count, seed }),
        _ => None,
    }
}

/// Puts what becomes of the tokens of a behaviour's module.
fn put_tokens(
    alloc: Global,
    out: &mut String,
    ext: &Extension,
    sheet: &Sheet,
    which: Which,
    draw: Draw,
) -> Result<(), Why>
    requires well_formed { IsWellFormed ext.now }
    requires in_range { HasBehaviour (view_extension ext.now) which }
    requires sheet { IsValidSheet sheet.now }
{
    let made = module_of(alloc, ext, sheet, which)?;
    let all = tokens(alloc, ext, which, draw.count, draw.seed)?;
    let count = served(alloc, &made, sheet.shape, &all, draw.seed)?;
    let name = made.net.name.as_str();
    writeln!(out, "{name} {count} tokens")?;
    Ok(())
}

/// Puts what a behaviour's module shows in its lives.
fn put_given(
    alloc: Global,
    out: &mut String,
    ext: &Extension,
    sheet: &Sheet,
    which: Which,
    lives: &str,
) -> Result<(), Why>
    requires well_formed { IsWellFormed ext.now }
    requires in_range { HasBehaviour (view_extension ext.now) which }
    requires sheet { IsValidSheet sheet.now }
{
    let made = module_of(alloc, ext, sheet, which)?;
    put_head(out, &made.net)?;
    put_lives(alloc, out, &made.net, lives)
}

/// Puts what a behaviour's module shows, if the extension has the behaviour.
fn put_behaviour(
    alloc: Global,
    out: &mut String,
    ext: &Extension,
    sheet: &Sheet,
    which: Which,
    put: &str,
) -> Result<(), Why>
    requires well_formed { IsWellFormed ext.now }
    requires sheet { IsValidSheet sheet.now }
{
    if !has_behaviour(ext, which) {
        return Err(Why::NoCase);
    }
    match draw_of(put) {
        Some(draw) => put_tokens(alloc, out, ext, sheet, which, draw),
        None => put_given(alloc, out, ext, sheet, which, put),
    }
}

/// What is put to the next module: the next part, or again the whole where it has one part.
fn next_part<'a>(whole: &'a str, parts: &mut Split<'a, &'a str>) -> &'a str {
    if whole.starts_with("tokens") {
        return whole;
    }
    parts.next().unwrap_or("")
}

fn put_all(
    alloc: Global,
    out: &mut String,
    ext: &Extension,
    sheet: &Sheet,
    put: &str,
) -> Result<(), Why>
    requires well_formed { IsWellFormed ext.now }
    requires sheet { IsValidSheet sheet.now }
{
    let mut parts = put.split(PART);
    for number in 0..ext.instructions.len().min(64) {
        let part = next_part(put, &mut parts);
        put_behaviour(
            alloc,
            out,
            ext,
            sheet,
            Which::Instruction(number as u8),
            part,
        )?;
    }
    for number in 0..ext.blocks.len().min(8) {
        let part = next_part(put, &mut parts);
        put_behaviour(alloc, out, ext, sheet, Which::Block(number as u8), part)?;
    }
    Ok(())
}

/// Puts what the modules of an extension show, on a datasheet.
fn put_modules(
    alloc: Global,
    out: &mut String,
    text: &[u8],
    sheet: &[u8],
    put: &[u8],
) -> Result<(), Why> {
    if text.len() >= TOO_MANY || sheet.len() >= TOO_MANY {
        return Err(Why::NoCase);
    }
    let Ok(extension) = elaborate(alloc, text) else {
        return Err(Why::NoExtension);
    };
    let Ok(sheet) = read_sheet(alloc, sheet) else {
        return Err(Why::NoSheet);
    };
    let Ok(put) = str::from_utf8(put) else {
        return Err(Why::NoCase);
    };
    put_all(alloc, out, &extension, &sheet, put)
}

/// Puts the answer to the text of an extension, a datasheet and what is put to the modules.
pub fn put_generated(out: &mut String, alloc: Global, case: &[u8]) -> Result<(), AllocError> {
    let mut parts = case.split(|byte| *byte == MIDDLE);
    let text = parts.next().unwrap_or(&[]);
    let sheet = parts.next().unwrap_or(&[]);
    let put = parts.next().unwrap_or(&[]);
    match put_modules(alloc, out, text, sheet, put) {
        Ok(()) => Ok(()),
        Err(why) => write!(out, "{why:?}\n"),
    }
}
