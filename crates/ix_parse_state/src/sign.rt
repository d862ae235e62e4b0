//! The numbers of reserved words and of symbols, by name.

/// `InstructionSet`
pub const INSTRUCTION_SET: u8 = 0;
/// `extends`
pub const EXTENDS: u8 = 1;
/// `RV32I`
pub const RV32I: u8 = 2;
/// `architectural_state`
pub const ARCHITECTURAL_STATE: u8 = 3;
/// `instructions`
pub const INSTRUCTIONS: u8 = 4;
/// `always`
pub const ALWAYS: u8 = 5;
/// `register`
pub const REGISTER: u8 = 6;
/// `const`
pub const CONST: u8 = 7;
/// `encoding`
pub const ENCODING: u8 = 8;
/// `assembly`
pub const ASSEMBLY: u8 = 9;
/// `behavior`
pub const BEHAVIOR: u8 = 10;
/// `signed`
pub const SIGNED: u8 = 11;
/// `unsigned`
pub const UNSIGNED: u8 = 12;
/// `int`
pub const INT: u8 = 13;
/// `bool`
pub const BOOL: u8 = 14;
/// `if`
pub const IF: u8 = 15;
/// `else`
pub const ELSE: u8 = 16;
/// `for`
pub const FOR: u8 = 17;
/// `spawn`
pub const SPAWN: u8 = 18;
/// `PC`
pub const PC: u8 = 19;
/// `X`
pub const X: u8 = 20;
/// `MEM`
pub const MEM: u8 = 21;
/// `true`
pub const TRUE: u8 = 22;
/// `false`
pub const FALSE: u8 = 23;

/// `{`
pub const OPEN_BRACE: u8 = 0;
/// `}`
pub const CLOSE_BRACE: u8 = 1;
/// `[`
pub const OPEN_SQUARE: u8 = 2;
/// `]`
pub const CLOSE_SQUARE: u8 = 3;
/// `(`
pub const OPEN_ROUND: u8 = 4;
/// `)`
pub const CLOSE_ROUND: u8 = 5;
/// `;`
pub const SEMICOLON: u8 = 6;
/// `,`
pub const COMMA: u8 = 7;
/// `:`
pub const COLON: u8 = 8;
/// `::`
pub const DOUBLE_COLON: u8 = 9;
/// `=`
pub const EQUALS: u8 = 10;
/// `+=`
pub const PLUS_EQUALS: u8 = 11;
/// `-=`
pub const MINUS_EQUALS: u8 = 12;
/// `*=`
pub const TIMES_EQUALS: u8 = 13;
/// `&=`
pub const AND_EQUALS: u8 = 14;
/// `|=`
pub const OR_EQUALS: u8 = 15;
/// `^=`
pub const XOR_EQUALS: u8 = 16;
/// `<<=`
pub const LEFT_EQUALS: u8 = 17;
/// `>>=`
pub const RIGHT_EQUALS: u8 = 18;
/// `++`
pub const PLUS_PLUS: u8 = 19;
/// `--`
pub const MINUS_MINUS: u8 = 20;
/// `<`
pub const LESS: u8 = 29;
/// `>`
pub const GREATER: u8 = 31;
/// `-`
pub const MINUS: u8 = 36;
/// `~`
pub const TILDE: u8 = 38;
/// `!`
pub const BANG: u8 = 39;
