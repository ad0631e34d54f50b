// A base instruction as a value, its word, and its row in the table: what a decoder answers and asks the encoder for again.
ghost use Rattle.std.specs.Prelude.{◌≡◌, cond, ◌<◌, ltb};
ghost use Rattle.encoder.specs.Answer.{word_answer, encoded};
ghost use Rattle.encoder.specs.Instr.{instr_of};
ghost use Rattle.encoder.specs.Table.{row_of, bare};

use crate::{Encoded, Instr};

// An operation's number in a shape of n; 0 where it is beyond: `encode` and `row` answer for any number, as a narrower type's couldn't.
fn within(op: usize, n: usize) -> usize
    requires { 0 < n }
    ensures { (result < n) × (result ≡ cond (ltb op n) op 0) }
{
    if op < n { op } else { 0 }
}

// The word of an instruction, or its refusal.
pub fn encode(i: Instr) -> Encoded
    ensures { word_answer result ≡ encoded (instr_of i) }
{
    match i {
        Instr::R(op, rd, rs1, rs2) => crate::rtype(within(op, 16), rd, rs1, rs2),
        Instr::F(op, rd, rs1, rs2, rm) => crate::ftype(within(op, 4), rd, rs1, rs2, rm),
        Instr::C(op, rd, rs1, rm) => crate::ctype(within(op, 5), rd, rs1, rm),
        Instr::M(op, rd, rs1) => crate::mtype(within(op, 2), rd, rs1),
        Instr::R4(op, rd, rs1, rs2, rs3, rm) => crate::r4type(within(op, 4), rd, rs1, rs2, rs3, rm),
        Instr::I(op, rd, rs1, imm) => crate::itype(within(op, 8), rd, rs1, imm),
        Instr::Shift(op, rd, rs1, shamt) => crate::shift(within(op, 3), rd, rs1, shamt),
        Instr::S(op, rs1, rs2, imm) => crate::stype(within(op, 2), rs1, rs2, imm),
        Instr::B(op, rs1, rs2, offset) => crate::btype(within(op, 6), rs1, rs2, offset),
        Instr::U(op, rd, imm) => crate::utype(within(op, 2), rd, imm),
        Instr::J(rd, offset) => crate::jtype(crate::JAL_ROW, rd, offset),
    }
}

// Its row in the table of base words.
pub fn row(i: Instr) -> usize
    ensures { (result < 53) × (row_of result ≡ bare (instr_of i)) }
{
    match i {
        Instr::R(op, _, _, _) => within(op, 16),
        Instr::F(op, _, _, _, _) => crate::F_ROWS + within(op, 4),
        Instr::C(op, _, _, _) => crate::C_ROWS + within(op, 5),
        Instr::M(op, _, _) => crate::M_ROWS + within(op, 2),
        Instr::R4(op, _, _, _, _, _) => crate::R4_ROWS + within(op, 4),
        Instr::I(op, _, _, _) => crate::I_ROWS + within(op, 8),
        Instr::Shift(op, _, _, _) => crate::SHIFT_ROWS + within(op, 3),
        Instr::S(op, _, _, _) => crate::S_ROWS + within(op, 2),
        Instr::B(op, _, _, _) => crate::B_ROWS + within(op, 6),
        Instr::U(op, _, _) => crate::U_ROWS + within(op, 2),
        Instr::J(_, _) => crate::J_ROWS,
    }
}
