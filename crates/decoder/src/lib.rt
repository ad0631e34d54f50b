// A word's base instruction (document 02, point 5). A table tells the operation by the word's fixed fields, and the encoder is asked for
// the word again: where it gives another one, or none, no instruction has the word.
#![tactic(auto)]

ghost use Rattle.std.specs.Prelude.{◌≡◌, cond, ◌+◌, ◌*◌, ◌-◌, ◌/◌, ◌%◌, ◌<◌, ◌≤◌, ltb, pos, negsuc};
ghost use Rattle.isa.specs.Decode.{cut, decode};
ghost use Rattle.encoder.specs.Instr.{instr_of};
ghost use Rattle.decoder.specs.Decoded.{instr_answer, Proper, ProperAnswer};
ghost use Rattle.decoder.specs.Inner.Operation.{place_of, operation_of, candidate_of};

use encoder::Instr;

// The opcodes that have more than one operation.
const OP: u32 = 0b0110011;

const OP_IMM: u32 = 0b0010011;

const BRANCH: u32 = 0b1100011;

const OP_FP: u32 = 0b1010011;

// Operations as numbers of three hexadecimal digits: what is to be added to the last (0 nothing, 1 funct3, 2 bit 5 of funct7, 3 half of
// rs2), the shape, and the operation's number there. 0 where there is none: `add`, whose word is then another.
const OPERATIONS: [u16; 88] = [
    // by the opcode's upper five bits
    0x055, // ld
    0x056, // fld
    0x000, 0x000, 0x000, 0x091, // auipc
    0x057, // addiw
    0x000, 0x070, // sd
    0x071, // fsd
    0x000, 0x000, 0x000, 0x090, // lui
    0x000, 0x000, 0x040, // fmadd.d
    0x041, // fmsub.d
    0x042, // fnmsub.d
    0x043, // fnmadd.d
    0x000, 0x000, 0x000, 0x000, 0x000, 0x054, // jalr
    0x000, 0x0a0, // jal
    0x000, 0x000, 0x000, 0x000,
    // OP, OP-IMM and BRANCH by funct3
    0x200, // add or the next by bit 5 of funct7
    0x002, // sll
    0x000, 0x000, 0x003, // xor
    0x204, // srl or the next by bit 5 of funct7
    0x006, // or
    0x007, // and
    0x050, // addi
    0x060, // slli
    0x000, 0x000, 0x051, // xori
    0x261, // srli or the next by bit 5 of funct7
    0x052, // ori
    0x053, // andi
    0x080, // beq
    0x081, // bne
    0x000, 0x000, 0x082, // blt
    0x083, // bge
    0x084, // bltu
    0x085, // bgeu
    // OP-FP by the upper five bits of funct7
    0x010, // fadd.d
    0x011, // fsub.d
    0x012, // fmul.d
    0x013, // fdiv.d
    0x108, // fsgnj.d and the next by funct3
    0x10b, // fmin.d and the next by funct3
    0x000, 0x000, 0x000, 0x000, 0x000, 0x020, // fsqrt.d
    0x000, 0x000, 0x000, 0x000, 0x000, 0x000, 0x000, 0x000, 0x10d, // fle.d and the next by funct3
    0x000, 0x000, 0x000, 0x321, // fcvt.w.d or the next by rs2
    0x000, 0x323, // fcvt.d.w or the next by rs2
    0x000, 0x030, // fmv.x.d
    0x000, 0x031, // fmv.d.x
    0x000,
];

// Where the operation stands in the table.
fn place(opcode: u32, funct3: u32, funct7: u32) -> usize
    requires { (opcode < 128) × (funct3 < 8) × (funct7 < 128) }
    ensures { (result ≡ place_of opcode funct3 funct7) × (result < 88) }
{
    let at = match opcode {
        OP => 32 + funct3,
        OP_IMM => 40 + funct3,
        BRANCH => 48 + funct3,
        OP_FP => 56 + funct7 / 4,
        _ => opcode / 4,
    };
    at as usize
}

// The operation that a word's fixed fields tell: 16 times its shape, and its number there.
#[tactic(auto, unfolding(isa::specs::Decode::cut))]
fn operation(word: u32) -> u32
    ensures { result ≡ operation_of (cut word) }
{
    let funct3 = word / 4096 % 8;
    let funct7 = word / 33554432;
    let entry = u32::from(OPERATIONS[place(word % 128, funct3, funct7)]);
    let more = [0, funct3, funct7 / 32 % 2, word / 1048576 % 32 / 2];
    entry % 256 + more[(entry / 256 % 4) as usize]
}

// The number whose two's complement is n, in a field of -half..half - 1.
fn signed(n: u32, half: u32) -> i32
    requires { (n < half + half) × (half ≤ 1048576) }
    ensures { result ≡ cond (ltb n half) (pos n) (negsuc (half + half - 1 - n)) }
{
    if n < half {
        n.cast_signed()
    } else {
        n.cast_signed() - (half + half).cast_signed()
    }
}

// An offset's bits 1 to 11, which branches and jumps have in the same two fields.
fn low_bits(field: u32, funct7: u32) -> u32
    requires { (field < 32) × (funct7 < 128) }
    ensures { (result ≡ field % 2 * 2048 + funct7 % 64 * 32 + field / 2 * 2) × (result < 4096) }
{
    field % 2 * 2048 + funct7 % 64 * 32 + field / 2 * 2
}

fn b_imm(rd: u32, funct7: u32) -> u32
    requires { (rd < 32) × (funct7 < 128) }
    ensures { (result ≡ funct7 / 64 * 4096 + rd % 2 * 2048 + funct7 % 64 * 32 + rd / 2 * 2) × (result < 8192) }
{
    funct7 / 64 * 4096 + low_bits(rd, funct7)
}

fn j_imm(funct3: u32, rs1: u32, rs2: u32, funct7: u32) -> u32
    requires { (funct3 < 8) × (rs1 < 32) × (rs2 < 32) × (funct7 < 128) }
    ensures { (result ≡ funct7 / 64 * 1048576 + rs1 * 32768 + funct3 * 4096 + rs2 % 2 * 2048 + funct7 % 64 * 32 + rs2 / 2 * 2) × (result < 2097152) }
{
    funct7 / 64 * 1048576 + rs1 * 32768 + funct3 * 4096 + low_bits(rs2, funct7)
}

// That operation with the operands that the word's other fields hold.
#[tactic(auto, unfolding(isa::specs::Decode::cut))]
fn candidate(operation: u32, word: u32) -> Instr
    ensures { (instr_of result ≡ candidate_of operation (cut word)) × Proper result }
{
    let op = (operation % 16) as usize;
    let rd = word / 128 % 32;
    let funct3 = word / 4096 % 8;
    let rs1 = word / 32768 % 32;
    let rs2 = word / 1048576 % 32;
    let funct7 = word / 33554432;
    match operation / 16 {
        0 => Instr::R(op, rd, rs1, rs2),
        1 => Instr::F(op % 4, rd, rs1, rs2, funct3),
        2 => Instr::C(op % 5, rd, rs1, funct3),
        3 => Instr::M(op % 2, rd, rs1),
        4 => Instr::R4(op % 4, rd, rs1, rs2, funct7 / 4, funct3),
        5 => Instr::I(op % 8, rd, rs1, signed(funct7 * 32 + rs2, 2048)),
        6 => Instr::Shift(op % 3, rd, rs1, (funct7 % 2 * 32 + rs2).cast_signed()),
        7 => Instr::S(op % 2, rs1, rs2, signed(funct7 * 32 + rd, 2048)),
        8 => Instr::B(op % 6, rs1, rs2, signed(b_imm(rd, funct7), 4096)),
        9 => Instr::U(
            op % 2,
            rd,
            (funct7 * 8192 + rs2 * 256 + rs1 * 8 + funct3).cast_signed(),
        ),
        _ => Instr::J(rd, signed(j_imm(funct3, rs1, rs2, funct7), 1048576)),
    }
}

// The instruction whose word this is, if any.
pub fn decode(word: u32) -> Option<Instr>
    ensures { (instr_answer result ≡ decode word) × ProperAnswer result }
{
    let i = candidate(operation(word), word);
    match encoder::encode(i) {
        Ok(w) if w == word => Some(i),
        _ => None,
    }
}
