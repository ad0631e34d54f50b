// macros.rs: the word of an instruction, or its refusal. `rvv!` becomes a function for each form, operands in its order;
// dots in a name become underscores, and `fadd.d` with a rounding mode is `fadd_d_rm`. `addiw`, which `rvv!` lacks, is document 02's.
#![tactic(auto)]

ghost use Rattle.std.specs.Prelude.{◌≡◌, ◌+◌, ◌*◌, ◌/◌, ◌%◌, cond, true, ◌≤◌, ◌<◌, T, pos, negsuc, get_or, [], ◌∷◌};
ghost use Rattle.refusal.specs.Answer.{answer_of_result, accepted, refused};
ghost use Rattle.refusal.specs.Number.{number_of};
ghost use Rattle.encoder.specs.Answer.{word_answer, encoded};
ghost use Rattle.encoder.specs.Table.{row_of};
ghost use Rattle.encoder.specs.Sign.{sign_of};
ghost use Rattle.encoder.specs.Inner.Field.{packed, register_answer, signed_field, even_field, unsigned_field};
ghost use Rattle.isa.specs.Instr.{R, F, C, M, R4, I, Shift, S, B, U, J, ADD, SUB, SLL, XOR, SRL, SRA, OR, AND, FSGNJ_D, FSGNJN_D, FSGNJX_D, FMIN_D, FMAX_D, FLE_D, FLT_D, FEQ_D, FADD_D, FSUB_D, FMUL_D, FDIV_D, FSQRT_D, FCVT_W_D, FCVT_L_D, FCVT_D_W, FCVT_D_L, FMV_X_D, FMV_D_X, FMADD_D, FMSUB_D, FNMSUB_D, FNMADD_D, ADDI, XORI, ORI, ANDI, JALR, LD, FLD, ADDIW, SLLI, SRLI, SRAI, SD, FSD, BEQ, BNE, BLT, BGE, BLTU, BGEU, LUI, AUIPC, JAL, rounding, free, holds, f_rounding, c_rounding, register, registers_hold};
ghost use Rattle.isa.specs.Immediate.{hi as hi_part, lo as lo_part};
ghost use Rattle.isa.specs.Encode.{encode};
ghost use Rattle.isa.specs.Decode.{r_ops, f_ops, c_ops, m_ops, r4_ops, i_ops, shift_ops, s_ops, b_ops, u_ops, j_ops};

use refusal::{Refusal, Refused};

mod value;

pub use value::{encode, row};

// Registers by their names in the calling convention.
pub const ZERO: u32 = 0;

pub const RA: u32 = 1;

pub const SP: u32 = 2;

pub const T0: u32 = 5;

pub const T1: u32 = 6;

pub const T2: u32 = 7;

pub const S0: u32 = 8;

pub const S1: u32 = 9;

pub const A0: u32 = 10;

pub const A1: u32 = 11;

pub const A2: u32 = 12;

pub const A3: u32 = 13;

pub const S2: u32 = 18;

pub const S3: u32 = 19;

pub const S4: u32 = 20;

pub const S5: u32 = 21;

// A float register.
pub const FA0: u32 = 10;

// What an encoder function answers: the instruction's word, or its refusal, which has place 0.
pub type Encoded = Result<u32, Refused>;

// A base instruction, by the shape of its operands: the operation's number there, and the operands in the order of the Manual's fields.
#[derive(Clone, Copy)]
pub enum Instr {
    // rd, rs1, rs2
    R(usize, u32, u32, u32),
    // rd, rs1, rs2, rounding
    F(usize, u32, u32, u32, u32),
    // rd, rs1, rounding
    C(usize, u32, u32, u32),
    // rd, rs1
    M(usize, u32, u32),
    // rd, rs1, rs2, rs3, rounding
    R4(usize, u32, u32, u32, u32, u32),
    // rd, rs1, immediate
    I(usize, u32, u32, i32),
    // rd, rs1, shift count
    Shift(usize, u32, u32, i32),
    // rs1 (the base), rs2 (what is stored), immediate
    S(usize, u32, u32, i32),
    // rs1, rs2, offset
    B(usize, u32, u32, i32),
    // rd, upper immediate
    U(usize, u32, i32),
    // rd, offset
    J(u32, i32),
}

// The base words: each instruction with every operand field zero.
const BASES: [u32; 53] = [
    0x00000033, // add
    0x40000033, // sub
    0x00001033, // sll
    0x00004033, // xor
    0x00005033, // srl
    0x40005033, // sra
    0x00006033, // or
    0x00007033, // and
    0x22000053, // fsgnj.d
    0x22001053, // fsgnjn.d
    0x22002053, // fsgnjx.d
    0x2a000053, // fmin.d
    0x2a001053, // fmax.d
    0xa2000053, // fle.d
    0xa2001053, // flt.d
    0xa2002053, // feq.d
    0x02000053, // fadd.d
    0x0a000053, // fsub.d
    0x12000053, // fmul.d
    0x1a000053, // fdiv.d
    0x5a000053, // fsqrt.d
    0xc2000053, // fcvt.w.d
    0xc2200053, // fcvt.l.d
    0xd2000053, // fcvt.d.w
    0xd2200053, // fcvt.d.l
    0xe2000053, // fmv.x.d
    0xf2000053, // fmv.d.x
    0x02000043, // fmadd.d
    0x02000047, // fmsub.d
    0x0200004b, // fnmsub.d
    0x0200004f, // fnmadd.d
    0x00000013, // addi
    0x00004013, // xori
    0x00006013, // ori
    0x00007013, // andi
    0x00000067, // jalr
    0x00003003, // ld
    0x00003007, // fld
    0x0000001b, // addiw
    0x00001013, // slli
    0x00005013, // srli
    0x40005013, // srai
    0x00003023, // sd
    0x00003027, // fsd
    0x00000063, // beq
    0x00001063, // bne
    0x00004063, // blt
    0x00005063, // bge
    0x00006063, // bltu
    0x00007063, // bgeu
    0x00000037, // lui
    0x00000017, // auipc
    0x0000006f, // jal
];

// Where each shape of instruction begins in the table, and its operations from there.
const F_ROWS: usize = 16;

const C_ROWS: usize = 20;

const M_ROWS: usize = 25;

const R4_ROWS: usize = 27;

const I_ROWS: usize = 31;

const SHIFT_ROWS: usize = 39;

const S_ROWS: usize = 42;

const B_ROWS: usize = 44;

const U_ROWS: usize = 50;

const J_ROWS: usize = 52;

const ADD_ROW: usize = 0;

const SUB_ROW: usize = 1;

const SLL_ROW: usize = 2;

const XOR_ROW: usize = 3;

const SRL_ROW: usize = 4;

const SRA_ROW: usize = 5;

const OR_ROW: usize = 6;

const AND_ROW: usize = 7;

const FSGNJ_D_ROW: usize = 8;

const FSGNJN_D_ROW: usize = 9;

const FSGNJX_D_ROW: usize = 10;

const FMIN_D_ROW: usize = 11;

const FMAX_D_ROW: usize = 12;

const FLE_D_ROW: usize = 13;

const FLT_D_ROW: usize = 14;

const FEQ_D_ROW: usize = 15;

const FADD_D_ROW: usize = 0;

const FSUB_D_ROW: usize = 1;

const FMUL_D_ROW: usize = 2;

const FDIV_D_ROW: usize = 3;

const FSQRT_D_ROW: usize = 0;

const FCVT_W_D_ROW: usize = 1;

const FCVT_L_D_ROW: usize = 2;

const FCVT_D_W_ROW: usize = 3;

const FCVT_D_L_ROW: usize = 4;

const FMV_X_D_ROW: usize = 0;

const FMV_D_X_ROW: usize = 1;

const FMADD_D_ROW: usize = 0;

const FMSUB_D_ROW: usize = 1;

const FNMSUB_D_ROW: usize = 2;

const FNMADD_D_ROW: usize = 3;

const ADDI_ROW: usize = 0;

const XORI_ROW: usize = 1;

const ORI_ROW: usize = 2;

const ANDI_ROW: usize = 3;

const JALR_ROW: usize = 4;

const LD_ROW: usize = 5;

const FLD_ROW: usize = 6;

const ADDIW_ROW: usize = 7;

const SLLI_ROW: usize = 0;

const SRLI_ROW: usize = 1;

const SRAI_ROW: usize = 2;

const SD_ROW: usize = 0;

const FSD_ROW: usize = 1;

const BEQ_ROW: usize = 0;

const BNE_ROW: usize = 1;

const BLT_ROW: usize = 2;

const BGE_ROW: usize = 3;

const BLTU_ROW: usize = 4;

const BGEU_ROW: usize = 5;

const LUI_ROW: usize = 0;

const AUIPC_ROW: usize = 1;

const JAL_ROW: usize = 0;

// The rounding field that means the current mode, and round to nearest even.
const DYN: u32 = 7;

const RNE: u32 = 0;

fn base(row: usize) -> u32
    requires { row < 53 }
    ensures { result ≡ encode (row_of row) }
{
    BASES[row]
}

// A base word and the operand fields.
fn pack(base: u32, rd: u32, funct3: u32, rs1: u32, rs2: u32, funct7: u32) -> u32
    requires { packed base rd funct3 rs1 rs2 funct7 < 4294967296 }
    ensures { result ≡ packed base rd funct3 rs1 rs2 funct7 }
{
    base + rd * 128 + funct3 * 4096 + rs1 * 32768 + rs2 * 1048576 + funct7 * 33554432
}

// Accepted where it holds, else refused for `why`.
fn demand(is_held: bool, why: Refusal) -> Result<(), Refused>
    ensures { answer_of_result result ≡ cond is_held (accepted tt) (refused (number_of why) 0) }
{
    if is_held {
        Ok(())
    } else {
        Err(Refused { why, place: 0 })
    }
}

// All four are register numbers.
fn registers(a: u32, b: u32, c: u32, d: u32) -> Result<(), Refused>
    ensures { answer_of_result result ≡ register_answer (register a ∷ register b ∷ register c ∷ register d ∷ []) }
{
    demand(a < 32 && b < 32 && c < 32 && d < 32, Refusal::Register)
}

// A rounding field that is free holds rm.
fn is_rounding(rm: u32) -> bool
    ensures { result ≡ holds (rounding free rm) }
{
    rm <= 4 || rm == DYN
}

// The rounding field of an operation of shape F holds rm.
fn f_rounding(op: usize, rm: u32) -> bool
    requires { op < 4 }
    ensures { result ≡ holds (rounding (f_rounding (get_or f_ops op FADD_D)) rm) }
{
    match op {
        FADD_D_ROW => is_rounding(rm),
        _ => rm == DYN,
    }
}

// The same of shape C.
fn c_rounding(op: usize, rm: u32) -> bool
    requires { op < 5 }
    ensures { result ≡ holds (rounding (c_rounding (get_or c_ops op FSQRT_D)) rm) }
{
    match op {
        FCVT_L_D_ROW => is_rounding(rm),
        FCVT_D_W_ROW => rm == RNE,
        _ => rm == DYN,
    }
}

// A signed number by its sign: n for NonNeg(n), -1 - n for Neg(n).
#[derive(Clone, Copy)]
pub enum Sign {
    NonNeg(u32),
    Neg(u32),
}

pub fn split(z: i32) -> Sign
    ensures { result ≡ sign_of z }
{
    if z >= 0 {
        Sign::NonNeg(z.unsigned_abs())
    } else {
        Sign::Neg(z.unsigned_abs() - 1)
    }
}

// An immediate's bits in a field of -half..half - 1, in two's complement; refused where the field does not hold it.
fn signed_field(imm: i32, half: u32) -> Encoded
    requires { half ≤ 1048576 }
    ensures { word_answer result ≡ signed_field half (sign_of imm) }
{
    match split(imm) {
        Sign::NonNeg(n) if n < half => Ok(n),
        Sign::Neg(n) if n < half => Ok(half + half - 1 - n),
        _ => Err(Refused {
            why: Refusal::Value,
            place: 0,
        }),
    }
}

// The same, and even.
fn offset_field(imm: i32, half: u32) -> Encoded
    requires { half ≤ 1048576 }
    ensures { word_answer result ≡ even_field (signed_field half (sign_of imm)) }
{
    let n = signed_field(imm, half)?;
    demand(n % 2 == 0, Refusal::Value)?;
    Ok(n)
}

// In a field of 0..limit - 1.
fn unsigned_field(imm: i32, limit: u32) -> Encoded
    ensures { word_answer result ≡ unsigned_field limit (sign_of imm) }
{
    let n = u32::try_from(imm).unwrap_or(limit);
    demand(n < limit, Refusal::Value)?;
    Ok(n)
}

// ---- the parts of a 32-bit number that `lui` or `auipc` and the word behind it take (mod.rs)

pub fn hi(x: u32) -> i32
    ensures { result ≡ pos (hi_part x) }
{
    ((x / 2048 + 1) / 2 % 1048576).cast_signed()
}

pub fn lo(x: u32) -> i32
    ensures { result ≡ lo_part x }
{
    let l = x % 4096;
    if l < 2048 {
        l.cast_signed()
    } else {
        l.cast_signed() - 4096
    }
}

// ---- formats

fn rtype(op: usize, rd: u32, rs1: u32, rs2: u32) -> Encoded
    requires { op < 16 }
    ensures { word_answer result ≡ encoded (R (get_or r_ops op ADD) rd rs1 rs2) }
{
    registers(rd, rs1, rs2, 0)?;
    Ok(pack(base(op), rd, 0, rs1, rs2, 0))
}

// R, with a rounding field in funct3's place.
fn ftype(op: usize, rd: u32, rs1: u32, rs2: u32, rm: u32) -> Encoded
    requires { op < 4 }
    ensures { word_answer result ≡ encoded (F (get_or f_ops op FADD_D) rd rs1 rs2 rm) }
{
    registers(rd, rs1, rs2, 0)?;
    demand(f_rounding(op, rm), Refusal::Value)?;
    Ok(pack(base(F_ROWS + op), rd, rm, rs1, rs2, 0))
}

// R with a rounding field and a fixed rs2: conversions and the square root.
fn ctype(op: usize, rd: u32, rs1: u32, rm: u32) -> Encoded
    requires { op < 5 }
    ensures { word_answer result ≡ encoded (C (get_or c_ops op FSQRT_D) rd rs1 rm) }
{
    registers(rd, rs1, 0, 0)?;
    demand(c_rounding(op, rm), Refusal::Value)?;
    Ok(pack(base(C_ROWS + op), rd, rm, rs1, 0, 0))
}

// R with nothing but rd and rs1: moves of bits.
fn mtype(op: usize, rd: u32, rs1: u32) -> Encoded
    requires { op < 2 }
    ensures { word_answer result ≡ encoded (M (get_or m_ops op FMV_X_D) rd rs1) }
{
    registers(rd, rs1, 0, 0)?;
    Ok(pack(base(M_ROWS + op), rd, 0, rs1, 0, 0))
}

fn r4type(op: usize, rd: u32, rs1: u32, rs2: u32, rs3: u32, rm: u32) -> Encoded
    requires { op < 4 }
    ensures { word_answer result ≡ encoded (R4 (get_or r4_ops op FMADD_D) rd rs1 rs2 rs3 rm) }
{
    registers(rd, rs1, rs2, rs3)?;
    demand(rm == DYN, Refusal::Value)?;
    Ok(pack(base(R4_ROWS + op), rd, rm, rs1, rs2, rs3 * 4))
}

fn itype(op: usize, rd: u32, rs1: u32, imm: i32) -> Encoded
    requires { op < 8 }
    ensures { word_answer result ≡ encoded (I (get_or i_ops op ADDI) rd rs1 imm) }
{
    registers(rd, rs1, 0, 0)?;
    let n = signed_field(imm, 2048)?;
    Ok(pack(base(I_ROWS + op), rd, 0, rs1, n % 32, n / 32))
}

// I, with a shift count for an immediate.
fn shift(op: usize, rd: u32, rs1: u32, shamt: i32) -> Encoded
    requires { op < 3 }
    ensures { word_answer result ≡ encoded (Shift (get_or shift_ops op SLLI) rd rs1 shamt) }
{
    registers(rd, rs1, 0, 0)?;
    let n = unsigned_field(shamt, 64)?;
    Ok(pack(base(SHIFT_ROWS + op), rd, 0, rs1, n % 32, n / 32))
}

fn stype(op: usize, rs1: u32, rs2: u32, imm: i32) -> Encoded
    requires { op < 2 }
    ensures { word_answer result ≡ encoded (S (get_or s_ops op SD) rs1 rs2 imm) }
{
    registers(rs1, rs2, 0, 0)?;
    let n = signed_field(imm, 2048)?;
    Ok(pack(base(S_ROWS + op), n % 32, 0, rs1, rs2, n / 32))
}

// An offset's bits 1 to 4 and 11, which branches and jumps have in one field.
fn low_field(n: u32) -> u32
    ensures { result ≡ n / 2 % 16 * 2 + n / 2048 % 2 }
{
    n / 2 % 16 * 2 + n / 2048 % 2
}

fn btype(op: usize, rs1: u32, rs2: u32, imm: i32) -> Encoded
    requires { op < 6 }
    ensures { word_answer result ≡ encoded (B (get_or b_ops op BEQ) rs1 rs2 imm) }
{
    registers(rs1, rs2, 0, 0)?;
    let n = offset_field(imm, 4096)?;
    let high = n / 4096 * 64 + n / 32 % 64;
    Ok(pack(base(B_ROWS + op), low_field(n), 0, rs1, rs2, high))
}

fn utype(op: usize, rd: u32, imm: i32) -> Encoded
    requires { op < 2 }
    ensures { word_answer result ≡ encoded (U (get_or u_ops op LUI) rd imm) }
{
    registers(rd, 0, 0, 0)?;
    let n = unsigned_field(imm, 1048576)?;
    Ok(pack(
        base(U_ROWS + op),
        rd,
        n % 8,
        n / 8 % 32,
        n / 256 % 32,
        n / 8192,
    ))
}

fn jtype(op: usize, rd: u32, imm: i32) -> Encoded
    requires { op < 1 }
    ensures { word_answer result ≡ encoded (J (get_or j_ops op JAL) rd imm) }
{
    registers(rd, 0, 0, 0)?;
    let n = offset_field(imm, 1048576)?;
    let high = n / 1048576 * 64 + n / 32 % 64;
    Ok(pack(
        base(J_ROWS + op),
        rd,
        n / 4096 % 8,
        n / 32768 % 32,
        low_field(n),
        high,
    ))
}

// ---- the forms of `rvv!`, each under its own name there: a port keeps its source's names, and the shape's function is what they share

pub fn add(rd: u32, rs1: u32, rs2: u32) -> Encoded
    ensures { word_answer result ≡ encoded (R ADD rd rs1 rs2) }
{
    rtype(ADD_ROW, rd, rs1, rs2)
}

pub fn mv(rd: u32, rs1: u32) -> Encoded
    ensures { word_answer result ≡ encoded (R ADD rd rs1 0) }
{
    rtype(ADD_ROW, rd, rs1, 0)
}

pub fn sub(rd: u32, rs1: u32, rs2: u32) -> Encoded
    ensures { word_answer result ≡ encoded (R SUB rd rs1 rs2) }
{
    rtype(SUB_ROW, rd, rs1, rs2)
}

pub fn neg(rd: u32, rs2: u32) -> Encoded
    ensures { word_answer result ≡ encoded (R SUB rd 0 rs2) }
{
    rtype(SUB_ROW, rd, 0, rs2)
}

pub fn and(rd: u32, rs1: u32, rs2: u32) -> Encoded
    ensures { word_answer result ≡ encoded (R AND rd rs1 rs2) }
{
    rtype(AND_ROW, rd, rs1, rs2)
}

pub fn or(rd: u32, rs1: u32, rs2: u32) -> Encoded
    ensures { word_answer result ≡ encoded (R OR rd rs1 rs2) }
{
    rtype(OR_ROW, rd, rs1, rs2)
}

pub fn xor(rd: u32, rs1: u32, rs2: u32) -> Encoded
    ensures { word_answer result ≡ encoded (R XOR rd rs1 rs2) }
{
    rtype(XOR_ROW, rd, rs1, rs2)
}

pub fn sll(rd: u32, rs1: u32, rs2: u32) -> Encoded
    ensures { word_answer result ≡ encoded (R SLL rd rs1 rs2) }
{
    rtype(SLL_ROW, rd, rs1, rs2)
}

pub fn srl(rd: u32, rs1: u32, rs2: u32) -> Encoded
    ensures { word_answer result ≡ encoded (R SRL rd rs1 rs2) }
{
    rtype(SRL_ROW, rd, rs1, rs2)
}

pub fn sra(rd: u32, rs1: u32, rs2: u32) -> Encoded
    ensures { word_answer result ≡ encoded (R SRA rd rs1 rs2) }
{
    rtype(SRA_ROW, rd, rs1, rs2)
}

pub fn addi(rd: u32, rs1: u32, imm: i32) -> Encoded
    ensures { word_answer result ≡ encoded (I ADDI rd rs1 imm) }
{
    itype(ADDI_ROW, rd, rs1, imm)
}

pub fn addiw(rd: u32, rs1: u32, imm: i32) -> Encoded
    ensures { word_answer result ≡ encoded (I ADDIW rd rs1 imm) }
{
    itype(ADDIW_ROW, rd, rs1, imm)
}

pub fn nop() -> Encoded
    ensures { word_answer result ≡ encoded (I ADDI 0 0 (pos 0)) }
{
    itype(ADDI_ROW, 0, 0, 0)
}

pub fn andi(rd: u32, rs1: u32, imm: i32) -> Encoded
    ensures { word_answer result ≡ encoded (I ANDI rd rs1 imm) }
{
    itype(ANDI_ROW, rd, rs1, imm)
}

pub fn ori(rd: u32, rs1: u32, imm: i32) -> Encoded
    ensures { word_answer result ≡ encoded (I ORI rd rs1 imm) }
{
    itype(ORI_ROW, rd, rs1, imm)
}

pub fn xori(rd: u32, rs1: u32, imm: i32) -> Encoded
    ensures { word_answer result ≡ encoded (I XORI rd rs1 imm) }
{
    itype(XORI_ROW, rd, rs1, imm)
}

pub fn not(rd: u32, rs1: u32) -> Encoded
    ensures { word_answer result ≡ encoded (I XORI rd rs1 (negsuc 0)) }
{
    itype(XORI_ROW, rd, rs1, -1)
}

pub fn slli(rd: u32, rs1: u32, shamt: i32) -> Encoded
    ensures { word_answer result ≡ encoded (Shift SLLI rd rs1 shamt) }
{
    shift(SLLI_ROW, rd, rs1, shamt)
}

pub fn srli(rd: u32, rs1: u32, shamt: i32) -> Encoded
    ensures { word_answer result ≡ encoded (Shift SRLI rd rs1 shamt) }
{
    shift(SRLI_ROW, rd, rs1, shamt)
}

pub fn srai(rd: u32, rs1: u32, shamt: i32) -> Encoded
    ensures { word_answer result ≡ encoded (Shift SRAI rd rs1 shamt) }
{
    shift(SRAI_ROW, rd, rs1, shamt)
}

pub fn ld(rd: u32, rs1: u32, imm: i32) -> Encoded
    ensures { word_answer result ≡ encoded (I LD rd rs1 imm) }
{
    itype(LD_ROW, rd, rs1, imm)
}

// What is stored comes first, then the base.
pub fn sd(rs2: u32, rs1: u32, imm: i32) -> Encoded
    ensures { word_answer result ≡ encoded (S SD rs1 rs2 imm) }
{
    stype(SD_ROW, rs1, rs2, imm)
}

pub fn beq(rs1: u32, rs2: u32, imm: i32) -> Encoded
    ensures { word_answer result ≡ encoded (B BEQ rs1 rs2 imm) }
{
    btype(BEQ_ROW, rs1, rs2, imm)
}

pub fn bne(rs1: u32, rs2: u32, imm: i32) -> Encoded
    ensures { word_answer result ≡ encoded (B BNE rs1 rs2 imm) }
{
    btype(BNE_ROW, rs1, rs2, imm)
}

pub fn blt(rs1: u32, rs2: u32, imm: i32) -> Encoded
    ensures { word_answer result ≡ encoded (B BLT rs1 rs2 imm) }
{
    btype(BLT_ROW, rs1, rs2, imm)
}

pub fn ble(rs1: u32, rs2: u32, imm: i32) -> Encoded
    ensures { word_answer result ≡ encoded (B BGE rs2 rs1 imm) }
{
    btype(BGE_ROW, rs2, rs1, imm)
}

pub fn bgt(rs1: u32, rs2: u32, imm: i32) -> Encoded
    ensures { word_answer result ≡ encoded (B BLT rs2 rs1 imm) }
{
    btype(BLT_ROW, rs2, rs1, imm)
}

pub fn bge(rs1: u32, rs2: u32, imm: i32) -> Encoded
    ensures { word_answer result ≡ encoded (B BGE rs1 rs2 imm) }
{
    btype(BGE_ROW, rs1, rs2, imm)
}

pub fn bltu(rs1: u32, rs2: u32, imm: i32) -> Encoded
    ensures { word_answer result ≡ encoded (B BLTU rs1 rs2 imm) }
{
    btype(BLTU_ROW, rs1, rs2, imm)
}

pub fn bgeu(rs1: u32, rs2: u32, imm: i32) -> Encoded
    ensures { word_answer result ≡ encoded (B BGEU rs1 rs2 imm) }
{
    btype(BGEU_ROW, rs1, rs2, imm)
}

pub fn jal(rd: u32, imm: i32) -> Encoded
    ensures { word_answer result ≡ encoded (J JAL rd imm) }
{
    jtype(JAL_ROW, rd, imm)
}

pub fn j(imm: i32) -> Encoded
    ensures { word_answer result ≡ encoded (J JAL 0 imm) }
{
    jtype(JAL_ROW, 0, imm)
}

pub fn jalr(rd: u32, rs1: u32, imm: i32) -> Encoded
    ensures { word_answer result ≡ encoded (I JALR rd rs1 imm) }
{
    itype(JALR_ROW, rd, rs1, imm)
}

pub fn jr(rs1: u32) -> Encoded
    ensures { word_answer result ≡ encoded (I JALR 0 rs1 (pos 0)) }
{
    itype(JALR_ROW, 0, rs1, 0)
}

pub fn ret() -> Encoded
    ensures { word_answer result ≡ encoded (I JALR 0 1 (pos 0)) }
{
    itype(JALR_ROW, 0, 1, 0)
}

pub fn lui(rd: u32, imm: i32) -> Encoded
    ensures { word_answer result ≡ encoded (U LUI rd imm) }
{
    utype(LUI_ROW, rd, imm)
}

pub fn auipc(rd: u32, imm: i32) -> Encoded
    ensures { word_answer result ≡ encoded (U AUIPC rd imm) }
{
    utype(AUIPC_ROW, rd, imm)
}

pub fn fadd_d(rd: u32, rs1: u32, rs2: u32) -> Encoded
    ensures { word_answer result ≡ encoded (F FADD_D rd rs1 rs2 7) }
{
    ftype(FADD_D_ROW, rd, rs1, rs2, DYN)
}

pub fn fadd_d_rm(rd: u32, rs1: u32, rs2: u32, rm: u32) -> Encoded
    ensures { word_answer result ≡ encoded (F FADD_D rd rs1 rs2 rm) }
{
    ftype(FADD_D_ROW, rd, rs1, rs2, rm)
}

pub fn fsub_d(rd: u32, rs1: u32, rs2: u32) -> Encoded
    ensures { word_answer result ≡ encoded (F FSUB_D rd rs1 rs2 7) }
{
    ftype(FSUB_D_ROW, rd, rs1, rs2, DYN)
}

pub fn fmul_d(rd: u32, rs1: u32, rs2: u32) -> Encoded
    ensures { word_answer result ≡ encoded (F FMUL_D rd rs1 rs2 7) }
{
    ftype(FMUL_D_ROW, rd, rs1, rs2, DYN)
}

pub fn fdiv_d(rd: u32, rs1: u32, rs2: u32) -> Encoded
    ensures { word_answer result ≡ encoded (F FDIV_D rd rs1 rs2 7) }
{
    ftype(FDIV_D_ROW, rd, rs1, rs2, DYN)
}

pub fn fsqrt_d(rd: u32, rs1: u32) -> Encoded
    ensures { word_answer result ≡ encoded (C FSQRT_D rd rs1 7) }
{
    ctype(FSQRT_D_ROW, rd, rs1, DYN)
}

pub fn fsgnj_d(rd: u32, rs1: u32, rs2: u32) -> Encoded
    ensures { word_answer result ≡ encoded (R FSGNJ_D rd rs1 rs2) }
{
    rtype(FSGNJ_D_ROW, rd, rs1, rs2)
}

pub fn fsgnjn_d(rd: u32, rs1: u32, rs2: u32) -> Encoded
    ensures { word_answer result ≡ encoded (R FSGNJN_D rd rs1 rs2) }
{
    rtype(FSGNJN_D_ROW, rd, rs1, rs2)
}

pub fn fsgnjx_d(rd: u32, rs1: u32, rs2: u32) -> Encoded
    ensures { word_answer result ≡ encoded (R FSGNJX_D rd rs1 rs2) }
{
    rtype(FSGNJX_D_ROW, rd, rs1, rs2)
}

pub fn fmin_d(rd: u32, rs1: u32, rs2: u32) -> Encoded
    ensures { word_answer result ≡ encoded (R FMIN_D rd rs1 rs2) }
{
    rtype(FMIN_D_ROW, rd, rs1, rs2)
}

pub fn fmax_d(rd: u32, rs1: u32, rs2: u32) -> Encoded
    ensures { word_answer result ≡ encoded (R FMAX_D rd rs1 rs2) }
{
    rtype(FMAX_D_ROW, rd, rs1, rs2)
}

pub fn feq_d(rd: u32, rs1: u32, rs2: u32) -> Encoded
    ensures { word_answer result ≡ encoded (R FEQ_D rd rs1 rs2) }
{
    rtype(FEQ_D_ROW, rd, rs1, rs2)
}

pub fn flt_d(rd: u32, rs1: u32, rs2: u32) -> Encoded
    ensures { word_answer result ≡ encoded (R FLT_D rd rs1 rs2) }
{
    rtype(FLT_D_ROW, rd, rs1, rs2)
}

pub fn fle_d(rd: u32, rs1: u32, rs2: u32) -> Encoded
    ensures { word_answer result ≡ encoded (R FLE_D rd rs1 rs2) }
{
    rtype(FLE_D_ROW, rd, rs1, rs2)
}

pub fn fgt_d(rd: u32, rs1: u32, rs2: u32) -> Encoded
    ensures { word_answer result ≡ encoded (R FLT_D rd rs2 rs1) }
{
    rtype(FLT_D_ROW, rd, rs2, rs1)
}

pub fn fge_d(rd: u32, rs1: u32, rs2: u32) -> Encoded
    ensures { word_answer result ≡ encoded (R FLE_D rd rs2 rs1) }
{
    rtype(FLE_D_ROW, rd, rs2, rs1)
}

pub fn fld(rd: u32, rs1: u32, imm: i32) -> Encoded
    ensures { word_answer result ≡ encoded (I FLD rd rs1 imm) }
{
    itype(FLD_ROW, rd, rs1, imm)
}

// What is stored comes first, then the base.
pub fn fsd(rs2: u32, rs1: u32, imm: i32) -> Encoded
    ensures { word_answer result ≡ encoded (S FSD rs1 rs2 imm) }
{
    stype(FSD_ROW, rs1, rs2, imm)
}

pub fn fabs_d(rd: u32, rs1: u32) -> Encoded
    ensures { word_answer result ≡ encoded (R FSGNJX_D rd rs1 rs1) }
{
    rtype(FSGNJX_D_ROW, rd, rs1, rs1)
}

pub fn fmv_d(rd: u32, rs1: u32) -> Encoded
    ensures { word_answer result ≡ encoded (R FSGNJ_D rd rs1 rs1) }
{
    rtype(FSGNJ_D_ROW, rd, rs1, rs1)
}

pub fn fneg_d(rd: u32, rs1: u32) -> Encoded
    ensures { word_answer result ≡ encoded (R FSGNJN_D rd rs1 rs1) }
{
    rtype(FSGNJN_D_ROW, rd, rs1, rs1)
}

pub fn fcvt_w_d(rd: u32, rs1: u32) -> Encoded
    ensures { word_answer result ≡ encoded (C FCVT_W_D rd rs1 7) }
{
    ctype(FCVT_W_D_ROW, rd, rs1, DYN)
}

pub fn fcvt_d_w(rd: u32, rs1: u32) -> Encoded
    ensures { word_answer result ≡ encoded (C FCVT_D_W rd rs1 0) }
{
    ctype(FCVT_D_W_ROW, rd, rs1, RNE)
}

pub fn fcvt_l_d(rd: u32, rs1: u32, rm: u32) -> Encoded
    ensures { word_answer result ≡ encoded (C FCVT_L_D rd rs1 rm) }
{
    ctype(FCVT_L_D_ROW, rd, rs1, rm)
}

pub fn fcvt_d_l(rd: u32, rs1: u32) -> Encoded
    ensures { word_answer result ≡ encoded (C FCVT_D_L rd rs1 7) }
{
    ctype(FCVT_D_L_ROW, rd, rs1, DYN)
}

pub fn fmv_x_d(rd: u32, rs1: u32) -> Encoded
    ensures { word_answer result ≡ encoded (M FMV_X_D rd rs1) }
{
    mtype(FMV_X_D_ROW, rd, rs1)
}

pub fn fmv_d_x(rd: u32, rs1: u32) -> Encoded
    ensures { word_answer result ≡ encoded (M FMV_D_X rd rs1) }
{
    mtype(FMV_D_X_ROW, rd, rs1)
}

pub fn fmadd_d(rd: u32, rs1: u32, rs2: u32, rs3: u32) -> Encoded
    ensures { word_answer result ≡ encoded (R4 FMADD_D rd rs1 rs2 rs3 7) }
{
    r4type(FMADD_D_ROW, rd, rs1, rs2, rs3, DYN)
}

pub fn fmsub_d(rd: u32, rs1: u32, rs2: u32, rs3: u32) -> Encoded
    ensures { word_answer result ≡ encoded (R4 FMSUB_D rd rs1 rs2 rs3 7) }
{
    r4type(FMSUB_D_ROW, rd, rs1, rs2, rs3, DYN)
}

pub fn fnmadd_d(rd: u32, rs1: u32, rs2: u32, rs3: u32) -> Encoded
    ensures { word_answer result ≡ encoded (R4 FNMADD_D rd rs1 rs2 rs3 7) }
{
    r4type(FNMADD_D_ROW, rd, rs1, rs2, rs3, DYN)
}

pub fn fnmsub_d(rd: u32, rs1: u32, rs2: u32, rs3: u32) -> Encoded
    ensures { word_answer result ≡ encoded (R4 FNMSUB_D rd rs1 rs2 rs3 7) }
{
    r4type(FNMSUB_D_ROW, rd, rs1, rs2, rs3, DYN)
}
