ghost use Rattle.std.specs.Prelude.{◌≤◌, length};

use crate::place::Place;
use crate::text::{byte_before, is_name_byte, name_before, text_at};

/// What is wrong with a byte at which no token begins.
pub(crate) fn bad_byte(bytes: &[u8], at: usize) -> &'static str {
    let Some(byte) = bytes.get(at) else {
        return "the text ends too early: write the rest of it";
    };
    match *byte {
        b'/' => {
            "there is no division: write `>>` for a division by a power of two, or a loop of shifts and subtractions"
        }
        b'%' => {
            "there is no remainder: write the low bits, as `a[3:0]` for the remainder by 16, or a loop of subtractions"
        }
        b'.' => "there are no members and no fractions: write plain names and whole numbers",
        b'\'' =>
            "a character in quotes is no number: write its code, or a width, a base and digits, as `8'd65`",
        b'#' => "a comment does not begin with `#` here: write `//` in its place",
        0x80..=0xff =>
            "this byte is no ASCII character: write such characters in comments and strings alone",
        other if is_name_byte(other) => "this name has more than 64 bytes: write a shorter one",
        _ => "no token begins with this character: remove it",
    }
}

/// What is wrong with a comment or a string without an end.
pub(crate) fn unclosed(bytes: &[u8], at: usize) -> &'static str {
    match bytes.get(at) {
        Some(b'"') => "this string has no end on its line: write a second `\"` behind it",
        _ => "this comment has no end: write `*/` behind it",
    }
}

/// What is wrong with a token that stands for something that the language lacks.
fn missing_part(token: &str) -> Option<&'static str> {
    match token {
        "import" => Some("there is no `import`: write all of the extension in this one file"),
        "Core" | "provides" => Some(
            "there is no `Core`: write one `InstructionSet NAME extends RV32I { .. }`, and describe the core in a datasheet",
        ),
        "functions" => Some("there are no functions: write the expression where it is used"),
        "const" => Some(
            "only a table is `const`: write a local without it, and a table as `const T NAME[N] = { .. };` in `architectural_state`",
        ),
        "else" => Some(
            "this `else` has no `if` right before it: put several statements of the `if` between `{` and `}`",
        ),
        _ => None,
    }
}

/// What is wrong with a token behind a name that the language lacks, or behind a word that wants
/// something else.
fn missing_before(word: &str) -> Option<&'static str> {
    match word {
        "while" | "do" => Some(
            "there is no `while`: write `for (int i = 0; i < N; i++)` with a literal N, and an `if` in it",
        ),
        "switch" | "case" | "default" => Some(
            "there is no `switch`: write `if` and `else`, or a table",
        ),
        "return" | "break" | "continue" | "goto" => Some(
            "there are no jumps in a behaviour: write an `if` around what is not always done",
        ),
        "char" | "short" | "long" | "void" | "float" | "double" => Some(
            "there is no such type: write `unsigned<W>` or `signed<W>` with a width, `int` or `bool`",
        ),
        "unsigned" | "signed" => Some("this type has no width: write it, as in `unsigned<32>`"),
        "extends" => Some("an extension extends the base set alone: write `extends RV32I`"),
        "encoding" | "assembly" | "behavior" => Some(
            "a colon is missing behind this word: write `encoding:`, `assembly:` or `behavior:`",
        ),
        _ => None,
    }
}

/// Whether the name before a place is that of a declaration, so that a type stands before it.
fn is_declared(bytes: &[u8], name: Place) -> bool
    requires { name.from ≤ length bytes.now }
{
    byte_before(bytes, name.from) == b'>'
        || matches!(
            text_at(bytes, name_before(bytes, name.from)),
            "int" | "bool"
        )
}

/// What is wrong with a square bracket that may not stand there.
fn bracket(bytes: &[u8], at: usize) -> &'static str
    requires { at ≤ length bytes.now }
{
    let next = bytes.get(at.saturating_add(1)).copied();
    let name = name_before(bytes, at);
    if next == Some(b'[') || byte_before(bytes, at) == b'[' {
        "there are no attributes: remove all from `[[` to `]]`"
    } else if is_declared(bytes, name) {
        "neither a local nor a register has elements: write one for each, or a table as `const T NAME[N] = { .. };` in `architectural_state`"
    } else {
        "bits of a name cannot be assigned: assign the whole of it, as `a = x :: a[7:0]` for its upper bits"
    }
}

/// What is wrong with a symbol, by what stands before it.
fn symbol(bytes: &[u8], at: usize) -> Option<&'static str>
    requires { at ≤ length bytes.now }
{
    let name = name_before(bytes, at);
    match bytes.get(at).copied() {
        Some(b'[') => Some(bracket(bytes, at)),
        Some(b'(') if name.from < name.to => {
            Some("there are no functions to call: write the expression in place of the call")
        }
        Some(b'=') => Some(
            "`=` stands in an assignment alone: write `==` to compare, and one assignment a statement",
        ),
        Some(b'{') if text_at(bytes, name_before(bytes, name.from)) == "InstructionSet" => {
            Some("the base set is missing: write `InstructionSet NAME extends RV32I {`")
        }
        _ => None,
    }
}

/// What is wrong where no text goes on with a token, or where it ends too early.
pub(crate) fn unexpected(bytes: &[u8], place: Place) -> &'static str {
    if place.from >= bytes.len() {
        return "the text ends too early: close each `{`, `(` and `[` that is open, and end the last statement with `;`";
    }
    let before = text_at(bytes, name_before(bytes, place.from));
    if let Some(sentence) = missing_before(before) {
        return sentence;
    }
    if let Some(sentence) = missing_part(text_at(bytes, place)) {
        return sentence;
    }
    if let Some(sentence) = symbol(bytes, place.from) {
        return sentence;
    }
    "the text cannot go on with this: finish what stands before it, mostly by a `;`, an operator or a closing bracket"
}
