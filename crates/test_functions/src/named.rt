// Orders by the number of their row, with their operands in the Rust's order. Jumps have the tag 0 here.
use crate::row::Row;
use assembler::Assembler;
use ast::{Binary, Frame, Fused, Head, Order, Place, Scratched, Unary};
use refusal::Refused;

// ---- numbers: each shape has a block of its own

fn unary_at(k: u32) -> Unary {
    match k {
        0x30 => Unary::Fmov,
        0x31 => Unary::Recip,
        0x32 => Unary::Round,
        0x33 => Unary::Floor,
        _ => Unary::Not,
    }
}

fn scratched_at(k: u32) -> Scratched {
    match k {
        0x40 => Scratched::Sign,
        _ => Scratched::Frac,
    }
}

fn binary_at(k: u32) -> Binary {
    match k {
        0x50 => Binary::Minus,
        0x51 => Binary::Times,
        0x52 => Binary::Divide,
        0x53 => Binary::Gt,
        0x54 => Binary::Neq,
        0x55 => Binary::And,
        0x56 => Binary::Andnot,
        0x57 => Binary::Or,
        _ => Binary::Xor,
    }
}

fn fused_at(k: u32) -> Fused {
    match k {
        0x60 => Fused::MulAdd,
        0x61 => Fused::MulSub,
        0x62 => Fused::NegMulAdd,
        _ => Fused::NegMulSub,
    }
}

fn place_at(k: u32) -> Place {
    match k {
        0x78 | 0x7b => Place::Mem,
        0x79 | 0x7c => Place::Stack,
        _ => Place::Param,
    }
}

fn order(r: Row) -> Option<Order> {
    let k = r.kind;
    Some(match k {
        0x30..=0x34 => Order::Unary(unary_at(k), r.a, r.b),
        0x40..=0x41 => Order::Scratched(scratched_at(k), r.a, r.b, r.c),
        0x50..=0x58 => Order::Binary(binary_at(k), r.a, r.b, r.c),
        0x60..=0x63 => Order::Fused(fused_at(k), r.a, r.b, r.c, r.d),
        0x70 => Order::Ifelse(r.a, r.b, r.c, r.d),
        0x71 => Order::LoadConst(r.a, r.b),
        0x72 => Order::BranchIf(r.a, r.b, r.c != 0),
        0x73 => Order::SetLabel(r.a),
        0x78..=0x7a => Order::Load(r.a, place_at(k), r.b),
        0x7b..=0x7d => Order::Save(r.a, place_at(k), r.b),
        _ => return None,
    })
}

// ---- by name

fn unary(asm: &mut Assembler<'_>, o: Unary, d: u32, s: u32) -> Result<(), Refused> {
    match o {
        Unary::Fmov => orders::named::fmov(asm, d, s),
        Unary::Recip => orders::named::recip(asm, d, s),
        Unary::Round => orders::named::round(asm, d, s),
        Unary::Floor => orders::named::floor(asm, d, s),
        Unary::Not => orders::named::not(asm, d, s),
    }
}

fn scratched(asm: &mut Assembler<'_>, o: Scratched, d: u32, s: u32, t: u32) -> Result<(), Refused> {
    match o {
        Scratched::Sign => orders::named::sign(asm, d, s, t),
        Scratched::Frac => orders::named::frac(asm, d, s, t),
    }
}

fn binary(asm: &mut Assembler<'_>, o: Binary, d: u32, a: u32, b: u32) -> Result<(), Refused> {
    match o {
        Binary::Minus => orders::named::minus(asm, d, a, b),
        Binary::Times => orders::named::times(asm, d, a, b),
        Binary::Divide => orders::named::divide(asm, d, a, b),
        Binary::Gt => orders::named::gt(asm, d, a, b),
        Binary::Neq => orders::named::neq(asm, d, a, b),
        Binary::And => orders::named::and(asm, d, a, b),
        Binary::Andnot => orders::named::andnot(asm, d, a, b),
        Binary::Or => orders::named::or(asm, d, a, b),
        Binary::Xor => orders::named::xor(asm, d, a, b),
    }
}

fn fused(asm: &mut Assembler<'_>, o: Fused, d: u32, a: u32, b: u32, c: u32) -> Result<(), Refused> {
    match o {
        Fused::MulAdd => orders::named::fused_mul_add(asm, d, a, b, c),
        Fused::MulSub => orders::named::fused_mul_sub(asm, d, a, b, c),
        Fused::NegMulAdd => orders::named::fused_neg_mul_add(asm, d, a, b, c),
        Fused::NegMulSub => orders::named::fused_neg_mul_sub(asm, d, a, b, c),
    }
}

// A cell of an odd index by its location.
fn load(asm: &mut Assembler<'_>, d: u32, p: Place, i: u32) -> Result<(), Refused> {
    if i % 2 != 0 {
        return orders::named::load_d_from_loc(asm, d, p, i);
    }
    match p {
        Place::Mem => orders::named::load_mem(asm, d, i),
        Place::Stack => orders::named::load_stack(asm, d, i),
        Place::Param => orders::named::load_param(asm, d, i),
    }
}

// Parameters are stored by their location.
fn save(asm: &mut Assembler<'_>, s: u32, p: Place, i: u32) -> Result<(), Refused> {
    if i % 2 != 0 {
        return orders::named::save_d_to_loc(asm, s, p, i);
    }
    match p {
        Place::Mem => orders::named::save_mem(asm, s, i),
        Place::Stack => orders::named::save_stack(asm, s, i),
        Place::Param => orders::named::save_d_to_loc(asm, s, p, i),
    }
}

fn by_name(asm: &mut Assembler<'_>, o: Order) -> Result<(), Refused> {
    match o {
        Order::Unary(u, d, s) => unary(asm, u, d, s),
        Order::Scratched(u, d, s, t) => scratched(asm, u, d, s, t),
        Order::Binary(u, d, a, b) => binary(asm, u, d, a, b),
        Order::Fused(u, d, a, b, c) => fused(asm, u, d, a, b, c),
        Order::Ifelse(d, a, b, i) => orders::named::ifelse(asm, d, a, b, i),
        Order::LoadConst(d, k) => orders::named::load_const(asm, d, k, 0),
        Order::Load(d, p, i) => load(asm, d, p, i),
        Order::Save(s, p, i) => save(asm, s, p, i),
        Order::BranchIf(c, l, e) => orders::named::branch_if(asm, c, l, e, 0),
        Order::SetLabel(l) => orders::named::set_label(asm, l),
    }
}

// By name where the first operand is even, else by `emit`.
pub(crate) fn ordered(asm: &mut Assembler<'_>, r: Row) -> Result<(), Refused> {
    let Some(o) = order(r) else {
        return crate::call::unknown();
    };
    if r.a % 2 == 0 {
        return by_name(asm, o);
    }
    orders::emit(asm, o, 0)
}

// A constant's load in a deck whose line 1 has the mask c.
pub(crate) fn load_in(asm: &mut Assembler<'_>, r: Row) -> Result<(), Refused> {
    let head = Head {
        frame: Frame::Indirect,
        cap: 16,
        states: 0,
        obs: 0,
        last: 0,
        mask: r.c,
    };
    orders::emit_in(asm, head, 0, Order::LoadConst(r.a, r.b))
}
