// Calls by the number of their row, with their operands in the Rust's order. Labels are document 01's numbers.
use crate::case::Case;
use crate::row::Row;
use assembler::{Assembler, JumpKind, Jumps, Labels, Plan, Tail};
use ast::Constant;
use refusal::{Refusal, Refused};

// What no row expects. It stays an answer: a row that names no call is told at the row of its answer, as every refusal is.
pub(crate) fn unknown() -> Result<(), Refused> {
    Err(Refused {
        why: Refusal::Line,
        place: 1,
    })
}

// ---- words, labels and jumps

// A plan with its jumps, n times over, up to one that is refused.
fn repeat(asm: &mut Assembler<'_>, n: u32, p: Plan, t: Tail) -> Result<(), Refused> {
    for _ in 0..n {
        asm.place(p, t, 0)?;
    }
    Ok(())
}

// How often: a pad and `jumps` say it.
fn times(r: Row) -> u32 {
    match r.kind {
        0x17 | 0x18 => r.a,
        _ => 1,
    }
}

// A pad is zero words.
fn plan(r: Row) -> Plan {
    match r.kind {
        0x17 => Plan {
            n: 1,
            ..Plan::new()
        },
        _ => Plan::new(),
    }
}

fn tail(r: Row) -> Tail {
    match r.kind {
        0x18 => Tail::One(JumpKind::Beq, 0, 0),
        0x19 => Tail::One(JumpKind::Beq, r.a, 0),
        0x1a => Tail::One(JumpKind::Bne, r.a, 0),
        0x1b => Tail::Pair(JumpKind::Ld, r.b, r.a),
        0x1c => Tail::Pair(JumpKind::Jalr, r.a, r.b),
        _ => Tail::Nothing,
    }
}

fn jump_kind(k: u32) -> JumpKind {
    JumpKind::try_from(k).unwrap_or(JumpKind::Bne)
}

fn finishing(asm: &mut Assembler<'_>) -> Result<(), Refused> {
    finish::apply_jumps(asm.buf, asm.labels, asm.jumps, &mut asm.asm).map_err(|u| u.refused)
}

// A number of 64 bits from its halves, the low one first.
pub(crate) fn quad(low: u32, high: u32) -> u64 {
    u64::from(high) << 32 | u64::from(low)
}

// A raw word, or a whole number as a float.
fn constant(r: Row) -> Constant {
    match r.kind {
        0x13 => Constant::Bits(quad(r.b, r.c)),
        _ => Constant::Float(test_rows::signed(r.b) as f64),
    }
}

fn assembling(asm: &mut Assembler<'_>, r: Row) -> Result<(), Refused> {
    let k = r.kind;
    match k {
        0x10 => asm.append_word(r.a),
        0x11 => asm.append_quad(quad(r.a, r.b)),
        0x12 => asm.set_label(r.a),
        0x13 | 0x14 => asm.append_const(r.a, constant(r)),
        0x15 => finishing(asm),
        0x1f => asm.jump(jump_kind(r.a), r.b, r.c, 0),
        _ => repeat(asm, times(r), plan(r), tail(r)),
    }
}

// ---- accesses, orders and frames

fn access(asm: &mut Assembler<'_>, r: Row) -> Result<(), Refused> {
    let k = r.kind;
    match k {
        0x20 => accesses::li(asm, r.a, test_rows::signed(r.b)),
        0x21 => accesses::load_float(asm, r.a, r.b, r.c),
        0x22 => accesses::save_float(asm, r.a, r.b, r.c),
        0x23 => accesses::load_int(asm, r.a, r.b, r.c),
        0x24 => accesses::load_complex(asm, r.a, r.b, r.c),
        0x25 => accesses::save_complex(asm, r.a, r.b, r.c),
        0x26 => accesses::sub_stack(asm, r.a),
        0x27 => accesses::add_stack(asm, r.a),
        _ => accesses::allocate_stack(asm, r.a),
    }
}

// Jumps have the tag 0 here.
fn framed(asm: &mut Assembler<'_>, r: Row) -> Result<(), Refused> {
    let k = r.kind;
    match k {
        0x80 => frames::prologue_fast(asm, r.a, r.b, r.c, r.d),
        0x81 => frames::prologue_indirect(asm, r.a, r.b, r.c, r.d, 0),
        0x82 => frames::epilogue_fast(asm, r.a, r.b, r.c, r.d),
        0x83 => frames::epilogue_indirect(asm, r.a, r.b, r.c, r.d, 0),
        0x84 => frames::save_used_registers(asm, r.a),
        _ => frames::load_used_registers(asm, r.a),
    }
}

fn answered(asm: &mut Assembler<'_>, r: Row) -> Result<(), Refused> {
    let k = r.kind;
    match k {
        0x10..=0x1f => assembling(asm, r),
        0x20..=0x28 => access(asm, r),
        0x74 => crate::named::load_in(asm, r),
        0x30..=0x7f => crate::named::ordered(asm, r),
        0x80..=0x85 => framed(asm, r),
        _ => unknown(),
    }
}

fn aligned(n: u32, c: Case) -> Case {
    match assembler::align_stack(n) {
        Ok(m) => c.valued(m),
        Err(e) => c.refused(e),
    }
}

// ---- what is lent

// Label l has had n jumps made to it: the high half of its entry. Its place stays.
fn lend_number(l: u32, n: u32, labels: &mut Labels) {
    if let Some(e) = labels.get_mut(l as usize) {
        *e = quad((*e % 4294967296) as u32, n);
    }
}

pub(crate) fn by_kind(
    r: Row,
    buf: &mut [u8; 65536],
    labels: &mut Labels,
    jumps: &mut Jumps,
    c: Case,
) -> Case {
    match r.kind {
        0x16 => aligned(r.a, c),
        0x1d => {
            lend_number(r.a, r.b, labels);
            c
        }
        0x1e => c.lent(crate::row::record(r)),
        _ => {
            let mut asm = Assembler {
                buf,
                labels,
                jumps,
                asm: c.asm,
            };
            let answer = answered(&mut asm, r);
            c.done(asm.asm, answer)
        }
    }
}
