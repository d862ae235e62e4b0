//! The 40 rows of the base table, by name: the number of a row is its place in the table, from 0
//! (RISC-V Unprivileged ISA, RV32I Base Integer Instruction Set).

pub const LUI: u8 = 0;

pub const AUIPC: u8 = 1;

pub const JAL: u8 = 2;

pub const JALR: u8 = 3;

pub const BEQ: u8 = 4;

pub const BNE: u8 = 5;

pub const BLT: u8 = 6;

pub const BGE: u8 = 7;

pub const BLTU: u8 = 8;

pub const BGEU: u8 = 9;

pub const LB: u8 = 10;

pub const LH: u8 = 11;

pub const LW: u8 = 12;

pub const LBU: u8 = 13;

pub const LHU: u8 = 14;

pub const SB: u8 = 15;

pub const SH: u8 = 16;

pub const SW: u8 = 17;

pub const ADDI: u8 = 18;

pub const SLTI: u8 = 19;

pub const SLTIU: u8 = 20;

pub const XORI: u8 = 21;

pub const ORI: u8 = 22;

pub const ANDI: u8 = 23;

pub const SLLI: u8 = 24;

pub const SRLI: u8 = 25;

pub const SRAI: u8 = 26;

pub const ADD: u8 = 27;

pub const SUB: u8 = 28;

pub const SLL: u8 = 29;

pub const SLT: u8 = 30;

pub const SLTU: u8 = 31;

pub const XOR: u8 = 32;

pub const SRL: u8 = 33;

pub const SRA: u8 = 34;

pub const OR: u8 = 35;

pub const AND: u8 = 36;

pub const FENCE: u8 = 37;

pub const ECALL: u8 = 38;

pub const EBREAK: u8 = 39;

/// The count of rows.
pub const COUNT: u8 = 40;
