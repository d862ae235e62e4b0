use ix_bits::{List, Memory};
use rv_isa::{Base, Format, Image, base_format, base_pattern, decode, encode, rows};

/// Words that GNU as 2.40 made for RV32I, each with its row, rd, rs1, rs2 and immediate as its source line has them.
const WORDS: [(u32, u8, u8, u8, u8, i32); 159] = [
    (0x80000037, rows::LUI, 0, 0, 0, -2147483648), // lui x0, 0x80000
    (0x7ffffa37, rows::LUI, 20, 0, 0, 2147479552), // lui x20, 0x7ffff
    (0xfffff1b7, rows::LUI, 3, 0, 0, -4096), // lui x3, 0xfffff
    (0x00000bb7, rows::LUI, 23, 0, 0, 0), // lui x23, 0x0
    (0x00001517, rows::AUIPC, 10, 0, 0, 4096), // auipc x10, 0x1
    (0xaaaaa117, rows::AUIPC, 2, 0, 0, -1431658496), // auipc x2, 0xaaaaa
    (0x12345d17, rows::AUIPC, 26, 0, 0, 305418240), // auipc x26, 0x12345
    (0xfff00297, rows::AUIPC, 5, 0, 0, -1048576), // auipc x5, 0xfff00
    (0x8000006f, rows::JAL, 0, 0, 0, -1048576), // jal x0, .-1048576
    (0x7fffffef, rows::JAL, 31, 0, 0, 1048574), // jal x31, .+1048574
    (0xfffff0ef, rows::JAL, 1, 0, 0, -2), // jal x1, .-2
    (0x000002ef, rows::JAL, 5, 0, 0, 0), // jal x5, .+0
    (0x0020056f, rows::JAL, 10, 0, 0, 2), // jal x10, .+2
    (0x00100f6f, rows::JAL, 30, 0, 0, 2048), // jal x30, .+2048
    (0x0000186f, rows::JAL, 16, 0, 0, 4096), // jal x16, .+4096
    (0xaabaa06f, rows::JAL, 0, 0, 0, -349526), // jal x0, .-349526
    (0xaaa88567, rows::JALR, 10, 17, 0, -1366), // jalr x10, -1366(x17)
    (0x10048d67, rows::JALR, 26, 9, 0, 256), // jalr x26, 256(x9)
    (0x800589e7, rows::JALR, 19, 11, 0, -2048), // jalr x19, -2048(x11)
    (0x7ffb8667, rows::JALR, 12, 23, 0, 2047), // jalr x12, 2047(x23)
    (0x80000063, rows::BEQ, 0, 0, 0, -4096), // beq x0, x0, .-4096
    (0x7ed18fe3, rows::BEQ, 0, 3, 13, 4094), // beq x3, x13, .+4094
    (0xff4d8fe3, rows::BEQ, 0, 27, 20, -2), // beq x27, x20, .-2
    (0x017e8063, rows::BEQ, 0, 29, 23, 0), // beq x29, x23, .+0
    (0x00089163, rows::BNE, 0, 17, 0, 2), // bne x17, x0, .+2
    (0x00b790e3, rows::BNE, 0, 15, 11, 2048), // bne x15, x11, .+2048
    (0x813290e3, rows::BNE, 0, 5, 19, -2048), // bne x5, x19, .-2048
    (0x55ca9a63, rows::BNE, 0, 21, 28, 1364), // bne x21, x28, .+1364
    (0x80004063, rows::BLT, 0, 0, 0, -4096), // blt x0, x0, .-4096
    (0x7e724fe3, rows::BLT, 0, 4, 7, 4094), // blt x4, x7, .+4094
    (0xff554fe3, rows::BLT, 0, 10, 21, -2), // blt x10, x21, .-2
    (0x01afc063, rows::BLT, 0, 31, 26, 0), // blt x31, x26, .+0
    (0x0008d163, rows::BGE, 0, 17, 0, 2), // bge x17, x0, .+2
    (0x014250e3, rows::BGE, 0, 4, 20, 2048), // bge x4, x20, .+2048
    (0x81fb50e3, rows::BGE, 0, 22, 31, -2048), // bge x22, x31, .-2048
    (0x54525a63, rows::BGE, 0, 4, 5, 1364), // bge x4, x5, .+1364
    (0x80006063, rows::BLTU, 0, 0, 0, -4096), // bltu x0, x0, .-4096
    (0x7e4f6fe3, rows::BLTU, 0, 30, 4, 4094), // bltu x30, x4, .+4094
    (0xffc9efe3, rows::BLTU, 0, 19, 28, -2), // bltu x19, x28, .-2
    (0x016c6063, rows::BLTU, 0, 24, 22, 0), // bltu x24, x22, .+0
    (0x0008f163, rows::BGEU, 0, 17, 0, 2), // bgeu x17, x0, .+2
    (0x016ef0e3, rows::BGEU, 0, 29, 22, 2048), // bgeu x29, x22, .+2048
    (0x81f3f0e3, rows::BGEU, 0, 7, 31, -2048), // bgeu x7, x31, .-2048
    (0x5526fa63, rows::BGEU, 0, 13, 18, 1364), // bgeu x13, x18, .+1364
    (0x00100003, rows::LB, 0, 0, 0, 1), // lb x0, 1(x0)
    (0x55578403, rows::LB, 8, 15, 0, 1365), // lb x8, 1365(x15)
    (0xaaaf8c83, rows::LB, 25, 31, 0, -1366), // lb x25, -1366(x31)
    (0x100e0503, rows::LB, 10, 28, 0, 256), // lb x10, 256(x28)
    (0xaaa89503, rows::LH, 10, 17, 0, -1366), // lh x10, -1366(x17)
    (0x10041883, rows::LH, 17, 8, 0, 256), // lh x17, 256(x8)
    (0x800d1883, rows::LH, 17, 26, 0, -2048), // lh x17, -2048(x26)
    (0x7ff71c03, rows::LH, 24, 14, 0, 2047), // lh x24, 2047(x14)
    (0x80002003, rows::LW, 0, 0, 0, -2048), // lw x0, -2048(x0)
    (0x7ff5a283, rows::LW, 5, 11, 0, 2047), // lw x5, 2047(x11)
    (0xfff72703, rows::LW, 14, 14, 0, -1), // lw x14, -1(x14)
    (0x0005af83, rows::LW, 31, 11, 0, 0), // lw x31, 0(x11)
    (0xfff8c503, rows::LBU, 10, 17, 0, -1), // lbu x10, -1(x17)
    (0x00004903, rows::LBU, 18, 0, 0, 0), // lbu x18, 0(x0)
    (0x001bcd03, rows::LBU, 26, 23, 0, 1), // lbu x26, 1(x23)
    (0x5551c403, rows::LBU, 8, 3, 0, 1365), // lbu x8, 1365(x3)
    (0x00105003, rows::LHU, 0, 0, 0, 1), // lhu x0, 1(x0)
    (0x555cdc83, rows::LHU, 25, 25, 0, 1365), // lhu x25, 1365(x25)
    (0xaaa35c83, rows::LHU, 25, 6, 0, -1366), // lhu x25, -1366(x6)
    (0x1001dc83, rows::LHU, 25, 3, 0, 256), // lhu x25, 256(x3)
    (0x54088aa3, rows::SB, 0, 17, 0, 1365), // sb x0, 1365(x17)
    (0xabc68523, rows::SB, 0, 13, 28, -1366), // sb x28, -1366(x13)
    (0x11538023, rows::SB, 0, 7, 21, 256), // sb x21, 256(x7)
    (0x80030023, rows::SB, 0, 6, 0, -2048), // sb x0, -2048(x6)
    (0x80001023, rows::SH, 0, 0, 0, -2048), // sh x0, -2048(x0)
    (0x7f731fa3, rows::SH, 0, 6, 23, 2047), // sh x23, 2047(x6)
    (0xfed21fa3, rows::SH, 0, 4, 13, -1), // sh x13, -1(x4)
    (0x01049023, rows::SH, 0, 9, 16, 0), // sh x16, 0(x9)
    (0x0008a023, rows::SW, 0, 17, 0, 0), // sw x0, 0(x17)
    (0x01eba0a3, rows::SW, 0, 23, 30, 1), // sw x30, 1(x23)
    (0x55f3aaa3, rows::SW, 0, 7, 31, 1365), // sw x31, 1365(x7)
    (0xabef2523, rows::SW, 0, 30, 30, -1366), // sw x30, -1366(x30)
    (0x80000013, rows::ADDI, 0, 0, 0, -2048), // addi x0, x0, -2048
    (0x7ff28993, rows::ADDI, 19, 5, 0, 2047), // addi x19, x5, 2047
    (0xfffa8313, rows::ADDI, 6, 21, 0, -1), // addi x6, x21, -1
    (0x00050f13, rows::ADDI, 30, 10, 0, 0), // addi x30, x10, 0
    (0x0018a513, rows::SLTI, 10, 17, 0, 1), // slti x10, x17, 1
    (0x555ba693, rows::SLTI, 13, 23, 0, 1365), // slti x13, x23, 1365
    (0xaaa9a093, rows::SLTI, 1, 19, 0, -1366), // slti x1, x19, -1366
    (0x100ba813, rows::SLTI, 16, 23, 0, 256), // slti x16, x23, 256
    (0x80003013, rows::SLTIU, 0, 0, 0, -2048), // sltiu x0, x0, -2048
    (0x7ff73b13, rows::SLTIU, 22, 14, 0, 2047), // sltiu x22, x14, 2047
    (0xfff63713, rows::SLTIU, 14, 12, 0, -1), // sltiu x14, x12, -1
    (0x00073c93, rows::SLTIU, 25, 14, 0, 0), // sltiu x25, x14, 0
    (0x0018c513, rows::XORI, 10, 17, 0, 1), // xori x10, x17, 1
    (0x555b4f93, rows::XORI, 31, 22, 0, 1365), // xori x31, x22, 1365
    (0xaaa8c093, rows::XORI, 1, 17, 0, -1366), // xori x1, x17, -1366
    (0x10064813, rows::XORI, 16, 12, 0, 256), // xori x16, x12, 256
    (0x80006013, rows::ORI, 0, 0, 0, -2048), // ori x0, x0, -2048
    (0x7ffb6e13, rows::ORI, 28, 22, 0, 2047), // ori x28, x22, 2047
    (0xfff76293, rows::ORI, 5, 14, 0, -1), // ori x5, x14, -1
    (0x000f6713, rows::ORI, 14, 30, 0, 0), // ori x14, x30, 0
    (0x0018f513, rows::ANDI, 10, 17, 0, 1), // andi x10, x17, 1
    (0x5556fa93, rows::ANDI, 21, 13, 0, 1365), // andi x21, x13, 1365
    (0xaaaf7013, rows::ANDI, 0, 30, 0, -1366), // andi x0, x30, -1366
    (0x1003f293, rows::ANDI, 5, 7, 0, 256), // andi x5, x7, 256
    (0x00001013, rows::SLLI, 0, 0, 0, 0), // slli x0, x0, 0
    (0x01ff1613, rows::SLLI, 12, 30, 0, 31), // slli x12, x30, 31
    (0x001a9d93, rows::SLLI, 27, 21, 0, 1), // slli x27, x21, 1
    (0x010e9c93, rows::SLLI, 25, 29, 0, 16), // slli x25, x29, 16
    (0x0018d513, rows::SRLI, 10, 17, 0, 1), // srli x10, x17, 1
    (0x01055293, rows::SRLI, 5, 10, 0, 16), // srli x5, x10, 16
    (0x00f0d413, rows::SRLI, 8, 1, 0, 15), // srli x8, x1, 15
    (0x0154de93, rows::SRLI, 29, 9, 0, 21), // srli x29, x9, 21
    (0x40f05013, rows::SRAI, 0, 0, 0, 15), // srai x0, x0, 15
    (0x4154db13, rows::SRAI, 22, 9, 0, 21), // srai x22, x9, 21
    (0x40005093, rows::SRAI, 1, 0, 0, 0), // srai x1, x0, 0
    (0x41fdd413, rows::SRAI, 8, 27, 0, 31), // srai x8, x27, 31
    (0x00088533, rows::ADD, 10, 17, 0, 0), // add x10, x17, x0
    (0x010086b3, rows::ADD, 13, 1, 16, 0), // add x13, x1, x16
    (0x00f906b3, rows::ADD, 13, 18, 15, 0), // add x13, x18, x15
    (0x01a80a33, rows::ADD, 20, 16, 26, 0), // add x20, x16, x26
    (0x40000033, rows::SUB, 0, 0, 0, 0), // sub x0, x0, x0
    (0x41618433, rows::SUB, 8, 3, 22, 0), // sub x8, x3, x22
    (0x408d0eb3, rows::SUB, 29, 26, 8, 0), // sub x29, x26, x8
    (0x41c084b3, rows::SUB, 9, 1, 28, 0), // sub x9, x1, x28
    (0x00089533, rows::SLL, 10, 17, 0, 0), // sll x10, x17, x0
    (0x009015b3, rows::SLL, 11, 0, 9, 0), // sll x11, x0, x9
    (0x01e495b3, rows::SLL, 11, 9, 30, 0), // sll x11, x9, x30
    (0x014193b3, rows::SLL, 7, 3, 20, 0), // sll x7, x3, x20
    (0x00002033, rows::SLT, 0, 0, 0, 0), // slt x0, x0, x0
    (0x00332f33, rows::SLT, 30, 6, 3, 0), // slt x30, x6, x3
    (0x011627b3, rows::SLT, 15, 12, 17, 0), // slt x15, x12, x17
    (0x01c32133, rows::SLT, 2, 6, 28, 0), // slt x2, x6, x28
    (0x0008b533, rows::SLTU, 10, 17, 0, 0), // sltu x10, x17, x0
    (0x01c230b3, rows::SLTU, 1, 4, 28, 0), // sltu x1, x4, x28
    (0x01163a33, rows::SLTU, 20, 12, 17, 0), // sltu x20, x12, x17
    (0x00ff3e33, rows::SLTU, 28, 30, 15, 0), // sltu x28, x30, x15
    (0x00004033, rows::XOR, 0, 0, 0, 0), // xor x0, x0, x0
    (0x01c64833, rows::XOR, 16, 12, 28, 0), // xor x16, x12, x28
    (0x007d4433, rows::XOR, 8, 26, 7, 0), // xor x8, x26, x7
    (0x014e4cb3, rows::XOR, 25, 28, 20, 0), // xor x25, x28, x20
    (0x0008d533, rows::SRL, 10, 17, 0, 0), // srl x10, x17, x0
    (0x01b7d233, rows::SRL, 4, 15, 27, 0), // srl x4, x15, x27
    (0x0136d233, rows::SRL, 4, 13, 19, 0), // srl x4, x13, x19
    (0x0174d3b3, rows::SRL, 7, 9, 23, 0), // srl x7, x9, x23
    (0x40005033, rows::SRA, 0, 0, 0, 0), // sra x0, x0, x0
    (0x408854b3, rows::SRA, 9, 16, 8, 0), // sra x9, x16, x8
    (0x40675eb3, rows::SRA, 29, 14, 6, 0), // sra x29, x14, x6
    (0x40afdcb3, rows::SRA, 25, 31, 10, 0), // sra x25, x31, x10
    (0x0008e533, rows::OR, 10, 17, 0, 0), // or x10, x17, x0
    (0x01b56733, rows::OR, 14, 10, 27, 0), // or x14, x10, x27
    (0x01aaecb3, rows::OR, 25, 21, 26, 0), // or x25, x21, x26
    (0x014b6633, rows::OR, 12, 22, 20, 0), // or x12, x22, x20
    (0x00007033, rows::AND, 0, 0, 0, 0), // and x0, x0, x0
    (0x001bf2b3, rows::AND, 5, 23, 1, 0), // and x5, x23, x1
    (0x01cefab3, rows::AND, 21, 29, 28, 0), // and x21, x29, x28
    (0x015c70b3, rows::AND, 1, 24, 21, 0), // and x1, x24, x21
    (0x0ff0000f, rows::FENCE, 0, 0, 0, 255), // fence iorw, iorw
    (0x0210000f, rows::FENCE, 0, 0, 0, 33), // fence r, w
    (0x8330000f, rows::FENCE, 0, 0, 0, -1997), // fence.tso
    (0x7ff3028f, rows::FENCE, 5, 6, 0, 2047), // .insn i 0x0f, 0, x5, x6, 2047
    (0x800f8f8f, rows::FENCE, 31, 31, 0, -2048), // .insn i 0x0f, 0, x31, x31, -2048
    (0x00000073, rows::ECALL, 0, 0, 0, 0), // ecall
    (0x00100073, rows::EBREAK, 0, 0, 0, 0), // ebreak
];

/// Words that are none of RV32I.
const OTHERS: [u32; 342] = [
    // instructions of M, A, F, D, Zicsr, Zifencei, Zba, Zbb, Zbc, Zbs and of the privileged set
    0x027302b3, 0x023110b3, 0x03df2fb3, 0x02a4b433, 0x02d645b3, 0x0307d733, 0x033968b3, 0x036afa33,
    0x300110f3, 0x305221f3, 0x341332f3, 0x342453f3, 0x304564f3, 0x344675f3, 0xc00022f3, 0xc0102373,
    0xc02023f3, 0x0000100f, 0x30200073, 0x10200073, 0x10500073, 0x12208073, 0x100322af, 0x187322af,
    0x0821a0af, 0x0021a0af, 0x2021a0af, 0x6021a0af, 0x4021a0af, 0x8021a0af, 0xa021a0af, 0xc021a0af,
    0xe021a0af, 0x00412087, 0x00112427, 0x01023187, 0xfe323827, 0x203170c3, 0x203170c7, 0x203170cb,
    0x203170cf, 0x003170d3, 0x083170d3, 0x103170d3, 0x183170d3, 0x580170d3, 0x203100d3, 0x203110d3,
    0x203120d3, 0x283100d3, 0x283110d3, 0xc00170d3, 0xc01170d3, 0xe00100d3, 0xa03120d3, 0xa03110d3,
    0xa03100d3, 0xe00110d3, 0xd00170d3, 0xd01170d3, 0xf00100d3, 0x023170d3, 0x0a3170d3, 0x123170d3,
    0x1a3170d3, 0x5a0170d3, 0x401170d3, 0x420100d3, 0x223170c3, 0xa23120d3, 0xe20110d3, 0xc20170d3,
    0xd20100d3, 0x203120b3, 0x203140b3, 0x203160b3, 0x403170b3, 0x403160b3, 0x403140b3, 0x60011093,
    0x60111093, 0x60211093, 0x0a3160b3, 0x0a3170b3, 0x0a3140b3, 0x0a3150b3, 0x60411093, 0x60511093,
    0x080140b3, 0x603110b3, 0x603150b3, 0x60715093, 0x28715093, 0x69815093, 0x0a3110b3, 0x0a3130b3,
    0x0a3120b3, 0x483110b3, 0x48511093, 0x483150b3, 0x48515093, 0x683110b3, 0x68511093, 0x283110b3,
    0x28511093,
    // instructions of RV64I
    0x00813083, 0x00426183, 0x00533823, 0x0031009b, 0x0031109b, 0x0031509b, 0x4031509b, 0x003100bb,
    0x403100bb, 0x003110bb, 0x003150bb, 0x403150bb, 0x02011093, 0x02815093, 0x43f15093,
    // every other opcode, and each word whose low two bits are not 11
    0x00a50500, 0x00a50501, 0x00a50502, 0x00a50504, 0x00a50505, 0x00a50506, 0x00a50507, 0x00a50508,
    0x00a50509, 0x00a5050a, 0x00a5050b, 0x00a5050c, 0x00a5050d, 0x00a5050e, 0x00a50510, 0x00a50511,
    0x00a50512, 0x00a50514, 0x00a50515, 0x00a50516, 0x00a50518, 0x00a50519, 0x00a5051a, 0x00a5051b,
    0x00a5051c, 0x00a5051d, 0x00a5051e, 0x00a5051f, 0x00a50520, 0x00a50521, 0x00a50522, 0x00a50524,
    0x00a50525, 0x00a50526, 0x00a50527, 0x00a50528, 0x00a50529, 0x00a5052a, 0x00a5052b, 0x00a5052c,
    0x00a5052d, 0x00a5052e, 0x00a5052f, 0x00a50530, 0x00a50531, 0x00a50532, 0x00a50534, 0x00a50535,
    0x00a50536, 0x00a50538, 0x00a50539, 0x00a5053a, 0x00a5053b, 0x00a5053c, 0x00a5053d, 0x00a5053e,
    0x00a5053f, 0x00a50540, 0x00a50541, 0x00a50542, 0x00a50543, 0x00a50544, 0x00a50545, 0x00a50546,
    0x00a50547, 0x00a50548, 0x00a50549, 0x00a5054a, 0x00a5054b, 0x00a5054c, 0x00a5054d, 0x00a5054e,
    0x00a5054f, 0x00a50550, 0x00a50551, 0x00a50552, 0x00a50553, 0x00a50554, 0x00a50555, 0x00a50556,
    0x00a50557, 0x00a50558, 0x00a50559, 0x00a5055a, 0x00a5055b, 0x00a5055c, 0x00a5055d, 0x00a5055e,
    0x00a5055f, 0x00a50560, 0x00a50561, 0x00a50562, 0x00a50564, 0x00a50565, 0x00a50566, 0x00a50568,
    0x00a50569, 0x00a5056a, 0x00a5056b, 0x00a5056c, 0x00a5056d, 0x00a5056e, 0x00a50570, 0x00a50571,
    0x00a50572, 0x00a50574, 0x00a50575, 0x00a50576, 0x00a50577, 0x00a50578, 0x00a50579, 0x00a5057a,
    0x00a5057b, 0x00a5057c, 0x00a5057d, 0x00a5057e, 0x00a5057f,
    // funct3 that no row has
    0x00409067, 0x0040a067, 0x0040b067, 0x0040c067, 0x0040d067, 0x0040e067, 0x0040f067, 0x0020a463,
    0x0020b463, 0x00413083, 0x00416083, 0x00417083, 0x00113223, 0x00114223, 0x00115223, 0x00116223,
    0x00117223, 0x0ff0100f, 0x0ff0200f, 0x0ff0300f, 0x0ff0400f, 0x0ff0500f, 0x0ff0600f, 0x0ff0700f,
    // funct7 that no row has
    0x02311093, 0x04311093, 0x08311093, 0x10311093, 0x20311093, 0x40311093, 0x80311093, 0xfe311093,
    0x02315093, 0x04315093, 0x08315093, 0x10315093, 0x20315093, 0x42315093, 0x80315093, 0xfe315093,
    0x023100b3, 0x043100b3, 0x083100b3, 0x103100b3, 0x203100b3, 0x423100b3, 0x803100b3, 0x043110b3,
    0x083110b3, 0x103110b3, 0x203110b3, 0x403110b3, 0x803110b3, 0x023120b3, 0x043120b3, 0x083120b3,
    0x103120b3, 0x403120b3, 0x803120b3, 0x023130b3, 0x043130b3, 0x083130b3, 0x103130b3, 0x203130b3,
    0x403130b3, 0x803130b3, 0x023140b3, 0x043140b3, 0x083140b3, 0x103140b3, 0x803140b3, 0x023150b3,
    0x043150b3, 0x083150b3, 0x103150b3, 0x203150b3, 0x423150b3, 0x803150b3, 0x023160b3, 0x043160b3,
    0x083160b3, 0x103160b3, 0x803160b3, 0x023170b3, 0x043170b3, 0x083170b3, 0x103170b3, 0x203170b3,
    0x803170b3,
    // a system word with one more bit, custom opcodes, no bits, all bits
    0x000000f3, 0x00008073, 0x00001073, 0x00200073, 0x00300073, 0x001000f3, 0x00108073, 0x02000073,
    0x80000073, 0x40100073, 0x00000000, 0xffffffff, 0x0000000b, 0x0000002b, 0x0000005b, 0x0000007b,
];

#[test]
fn words_of_an_assembler(rt: HostRuntime) {
    for (word, row, rd, rs1, rs2, imm) in WORDS {
        let decoded = decode(word);
        assert_eq!(rt;
            decoded,
            Some(Base {
                row,
                rd,
                rs1,
                rs2,
                imm
            }),
            "at {word:08x}"
        );
        if let Some(b) = decoded {
            assert_eq!(rt; encode(b), word);
        }
    }
}

#[test]
fn other_words(rt: HostRuntime) {
    for word in OTHERS {
        assert_eq!(rt; decode(word), None, "at {word:08x}");
    }
}

#[test]
fn patterns(rt: HostRuntime) {
    assert_eq!(rt; base_pattern(rows::ADD), (0xfe00_707f, 0x0000_0033));
    assert_eq!(rt; base_pattern(rows::LUI), (0x0000_007f, 0x0000_0037));
    assert_eq!(rt; base_pattern(rows::EBREAK), (0xffff_ffff, 0x0010_0073));
    assert_eq!(rt; base_format(rows::SRAI), Format::Shift);
}

#[test]
fn image_of_words(rt: HostRuntime) -> Result<(), Memory> {
    let mut image = Image::new(rt.alloc());
    assert!(rt; image.is_empty());
    image.push(0x0050_0093)?;
    image.push(0x0010_0073)?;
    assert_eq!(rt; image.len(), 2);
    assert_eq!(rt; image.word(0), 0x0050_0093);
    let same = Image::from_list(List::from_slice(rt.alloc(), image.as_slice())?);
    assert_eq!(rt; same.as_slice(), [0x0050_0093, 0x0010_0073].as_slice());
    Ok(())
}
