ghost use Rattle.std.specs.Prelude.{◌≡◌, ◌<◌, length, map, slice_get, Some, IfSome};
ghost use Rattle.std.specs.List.{position};
ghost use Rattle.ix_tree.specs.Lexing.{same_bytes};
ghost use Rattle.rv_asm_text.specs.Names.{register_names, register_at, register_of, mnemonics, mnemonic_of};

/// The names of registers: x0 to x31, then by use from register 0 on, and `fp`.
static REGISTERS: [&str; 65] = [
    "x0", "x1", "x2", "x3", "x4", "x5", "x6", "x7", "x8", "x9", "x10", "x11", "x12", "x13", "x14",
    "x15", "x16", "x17", "x18", "x19", "x20", "x21", "x22", "x23", "x24", "x25", "x26", "x27",
    "x28", "x29", "x30", "x31", "zero", "ra", "sp", "gp", "tp", "t0", "t1", "t2", "s0", "s1", "a0",
    "a1", "a2", "a3", "a4", "a5", "a6", "a7", "s2", "s3", "s4", "s5", "s6", "s7", "s8", "s9",
    "s10", "s11", "t3", "t4", "t5", "t6", "fp",
];

/// The names of what a line may say: the 40 rows of the base table, and five short forms.
static MNEMONICS: [&str; 45] = [
    "lui", "auipc", "jal", "jalr", "beq", "bne", "blt", "bge", "bltu", "bgeu", "lb", "lh", "lw",
    "lbu", "lhu", "sb", "sh", "sw", "addi", "slti", "sltiu", "xori", "ori", "andi", "slli", "srli",
    "srai", "add", "sub", "sll", "slt", "sltu", "xor", "srl", "sra", "or", "and", "fence", "ecall",
    "ebreak", "nop", "mv", "j", "ret", ".word",
];

/// The bytes of an entry of a table of texts.
fn entry(table: &[&'static str], n: u8) -> &'static [u8]
    requires { n < length table.now }
    ensures { slice_get (map (λ text. text.now) table.now) n ≡ Some result.now }
{
    table[n as usize].as_bytes()
}

fn same(a: &[u8], b: &[u8]) -> bool
    ensures { result ≡ same_bytes a.now b.now }
{
    a == b
}

fn register_name(n: u8) -> &'static [u8]
    requires { n < 65 }
    ensures { slice_get register_names n ≡ Some result.now }
{
    entry(&REGISTERS, n)
}

fn mnemonic_name(n: u8) -> &'static [u8]
    requires { n < 45 }
    ensures { slice_get mnemonics n ≡ Some result.now }
{
    entry(&MNEMONICS, n)
}

/// The place of a register's name in the table.
fn register_place(word: &[u8]) -> Option<u8>
    ensures { result ≡ position (λ name. same_bytes name word.now) register_names }
{
    for n in 0u8..65 {
        if same(register_name(n), word) {
            return Some(n);
        }
    }
    None
}

/// The number of the register with this name, 0 to 31.
#[tactic(auto, unfolding(crate::specs::Names::register_of))]
pub fn register(word: &[u8]) -> Option<u8>
    ensures value { result ≡ register_of word.now }
    ensures below { IfSome result (λ number. number < 32) }
{
    match register_place(word) {
        None => None,
        Some(64) => Some(8),
        Some(place) => Some(place % 32),
    }
}

/// The place of a name among the mnemonics: those below 40 are the rows of the base table.
#[tactic(auto, unfolding(crate::specs::Names::mnemonic_of))]
pub fn mnemonic(word: &[u8]) -> Option<u8>
    ensures value { result ≡ mnemonic_of word.now }
    ensures below { IfSome result (λ place. place < 45) }
{
    for n in 0u8..45 {
        if same(mnemonic_name(n), word) {
            return Some(n);
        }
    }
    None
}
