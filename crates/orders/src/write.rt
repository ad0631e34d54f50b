// The instructions of the orders, written into the buffer from numbers alone.
ghost use Rattle.std.specs.Prelude.{◌≡◌, cond, map, ◌+◌, ◌*◌, ◌≤◌, leb, length};
ghost use Rattle.isa.specs.Instr.{Instr, R4};
ghost use Rattle.assembler.specs.Bytes.{room};
ghost use Rattle.accesses.specs.Code.{load_float_code, save_float_code};
ghost use Rattle.accesses.specs.Plans.{word_of};
ghost use Rattle.accesses.specs.Inner.Plans.{one_code};
ghost use Rattle.orders.specs.Code.{base, unary_code, scratched_code, binary_code, fused_op, fused_code, choose_code, ifelse_code};
ghost use Rattle.orders.specs.Fault.{fault as fault_of};
ghost use Rattle.orders.specs.Inner.Parts.{instrs, skip_code};
ghost use Rattle.orders.specs.Wrote.{Wrote, offset};
ghost use Rattle.orders.specs.Inner.Wrote.{Is, Puts, PutCode, Fits, bits_code, far_code};

use accesses::Cell;
use assembler::ROOM;
use ast::{Binary, Fused, Order, Place, Scratched, Unary};
use encoder::{Encoded, S1, S4, S5, T0, T1, T2, ZERO};

// The float register of `recip`'s 1.
const F10: u32 = 10;

fn fused(k: Fused, d: u32, a: u32, b: u32, c: u32) -> Encoded
    ensures { Is result (R4 (fused_op k) d a b c 7) }
{
    match k {
        Fused::MulAdd => encoder::fmadd_d(d, a, b, c),
        Fused::MulSub => encoder::fmsub_d(d, a, b, c),
        Fused::NegMulAdd => encoder::fnmsub_d(d, a, b, c),
        Fused::NegMulSub => encoder::fnmadd_d(d, a, b, c),
    }
}

fn base_of(p: Place) -> u32
    ensures { result ≡ base p }
{
    match p {
        Place::Mem => S1,
        Place::Stack => S5,
        Place::Param => S4,
    }
}

// ---- words, from the encoder's answers for instructions

fn put(buf: &mut [u8], len: usize, es: &[Encoded]) -> usize
    requires { len + 4 * length es.now ≤ length buf.old }
    ensures { Puts (map word_of es.now) buf.old len buf.new result }
{
    for (i, e) in es.iter().enumerate() {
        let at = len + 4 * i;
        assembler::write_words(&mut buf[at..at + 4], 0, &[e.unwrap_or(0)]);
    }
    len + 4 * es.len()
}

// ---- the instructions of an order, where they have room

#[tactic(auto, unfolding(crate::specs::Code::unary_code))]
fn put_unary(k: Unary, d: u32, s: u32, buf: &mut [u8], len: usize) -> usize
    requires { Fits (unary_code k d s) len buf.old }
    ensures { PutCode (unary_code k d s) len buf result }
{
    match k {
        Unary::Fmov => {
            if d == s {
                len
            } else {
                put(buf, len, &[encoder::fmv_d(d, s)])
            }
        }
        Unary::Recip => put(
            buf,
            len,
            &[
                encoder::addi(T0, ZERO, 1),
                encoder::fcvt_d_w(F10, T0),
                encoder::fdiv_d(d, F10, s),
            ],
        ),
        Unary::Round => put(
            buf,
            len,
            &[encoder::fcvt_l_d(T0, s, 0), encoder::fcvt_d_l(d, T0)],
        ),
        Unary::Floor => put(
            buf,
            len,
            &[encoder::fcvt_l_d(T0, s, 2), encoder::fcvt_d_l(d, T0)],
        ),
        Unary::Not => put(
            buf,
            len,
            &[
                encoder::fmv_x_d(T0, s),
                encoder::not(T0, T0),
                encoder::fmv_d_x(d, T0),
            ],
        ),
    }
}

#[tactic(auto, unfolding(crate::specs::Code::scratched_code))]
fn put_scratched(k: Scratched, d: u32, s: u32, t: u32, buf: &mut [u8], len: usize) -> usize
    requires { Fits (scratched_code k d s t) len buf.old }
    ensures { PutCode (scratched_code k d s t) len buf result }
{
    match k {
        Scratched::Sign => put(
            buf,
            len,
            &[
                encoder::fmv_d_x(t, ZERO),
                encoder::flt_d(T0, t, s),
                encoder::flt_d(T1, s, t),
                encoder::sub(T0, T0, T1),
                encoder::fcvt_d_w(d, T0),
            ],
        ),
        Scratched::Frac => put(
            buf,
            len,
            &[
                encoder::fcvt_l_d(T0, s, 2),
                encoder::fcvt_d_l(t, T0),
                encoder::fsub_d(d, s, t),
            ],
        ),
    }
}

// The bits of a and b through t0 and t1, and `op` on them.
fn put_bits(op: Encoded, d: u32, a: u32, b: u32, buf: &mut [u8], len: usize) -> usize
    requires { len + 16 ≤ length buf.old }
    ensures { (i : Instr) → Is op i → PutCode (bits_code i d a b) len buf result }
{
    put(
        buf,
        len,
        &[
            encoder::fmv_x_d(T0, a),
            encoder::fmv_x_d(T1, b),
            op,
            encoder::fmv_d_x(d, T0),
        ],
    )
}

#[tactic(auto, unfolding(crate::specs::Code::binary_code))]
fn put_xor(d: u32, a: u32, b: u32, buf: &mut [u8], len: usize) -> usize
    requires { Fits (binary_code Binary.Xor d a b) len buf.old }
    ensures { PutCode (binary_code Binary.Xor d a b) len buf result }
{
    if a == b {
        put(buf, len, &[encoder::fmv_d_x(d, ZERO)])
    } else {
        put_bits(encoder::xor(T0, T0, T1), d, a, b, buf, len)
    }
}

#[tactic(auto, unfolding(crate::specs::Code::binary_code))]
fn put_binary(k: Binary, d: u32, a: u32, b: u32, buf: &mut [u8], len: usize) -> usize
    requires { Fits (binary_code k d a b) len buf.old }
    ensures { PutCode (binary_code k d a b) len buf result }
{
    match k {
        Binary::Minus => put(buf, len, &[encoder::fsub_d(d, a, b)]),
        Binary::Times => put(buf, len, &[encoder::fmul_d(d, a, b)]),
        Binary::Divide => put(buf, len, &[encoder::fdiv_d(d, a, b)]),
        Binary::Gt => put(
            buf,
            len,
            &[
                encoder::fgt_d(T0, a, b),
                encoder::neg(T0, T0),
                encoder::fmv_d_x(d, T0),
            ],
        ),
        Binary::Neq => put(
            buf,
            len,
            &[
                encoder::feq_d(T0, a, b),
                encoder::neg(T0, T0),
                encoder::not(T0, T0),
                encoder::fmv_d_x(d, T0),
            ],
        ),
        Binary::And => put_bits(encoder::and(T0, T0, T1), d, a, b, buf, len),
        Binary::Andnot => put(
            buf,
            len,
            &[
                encoder::fmv_x_d(T0, a),
                encoder::not(T0, T0),
                encoder::fmv_x_d(T1, b),
                encoder::and(T0, T0, T1),
                encoder::fmv_d_x(d, T0),
            ],
        ),
        Binary::Or => put_bits(encoder::or(T0, T0, T1), d, a, b, buf, len),
        Binary::Xor => put_xor(d, a, b, buf, len),
    }
}

fn put_fused(k: Fused, d: u32, a: u32, b: u32, c: u32, buf: &mut [u8], len: usize) -> usize
    requires { Fits (fused_code k d a b c) len buf.old }
    ensures { PutCode (fused_code k d a b c) len buf result }
{
    put(buf, len, &[fused(k, d, a, b, c)])
}

// The access `last` through t0 = base + n.
fn put_far(last: Encoded, base: u32, n: u32, buf: &mut [u8], len: usize) -> usize
    requires { len + 16 ≤ length buf.old }
    ensures { (i : Instr) → Is last i → PutCode (far_code i base n) len buf result }
{
    put(
        buf,
        len,
        &[
            encoder::lui(T0, encoder::hi(n)),
            accesses::low_word(T0, n),
            encoder::add(T0, T0, base),
            last,
        ],
    )
}

// An access of one cell: direct where the offset is near, else far. It is small, so that the compiler knows the kind at each caller.
fn put_access(k: Cell, r: u32, base: u32, n: u32, buf: &mut [u8], len: usize) -> usize
    requires { Fits (one_code k r base n) len buf.old }
    ensures { PutCode (one_code k r base n) len buf result }
{
    if n < 2048 {
        put(buf, len, &[accesses::access_at(k, r, base, n as i32)])
    } else {
        put_far(accesses::access_at(k, r, T0, 0), base, n, buf, len)
    }
}

// t0 holds the cell's bits.
fn put_choose(d: u32, a: u32, b: u32, buf: &mut [u8], len: usize) -> usize
    requires { Fits (choose_code d a b) len buf.old }
    ensures { PutCode (choose_code d a b) len buf result }
{
    put(
        buf,
        len,
        &[
            encoder::fmv_x_d(T1, a),
            encoder::fmv_x_d(T2, b),
            encoder::and(T1, T1, T0),
            encoder::not(T0, T0),
            encoder::and(T2, T2, T0),
            encoder::or(T0, T1, T2),
            encoder::fmv_d_x(d, T0),
        ],
    )
}

fn put_ifelse(d: u32, a: u32, b: u32, n: u32, buf: &mut [u8], len: usize) -> usize
    requires { Fits (ifelse_code d a b n) len buf.old }
    ensures { PutCode (ifelse_code d a b n) len buf result }
{
    let next = put_access(Cell::LoadInt, T0, S5, n, buf, len);
    put_choose(d, a, b, buf, next)
}

// The branch over a jump; `e` is the Rust's flag `is_else`.
fn put_skip(c: u32, e: bool, buf: &mut [u8], len: usize) -> usize
    requires { Fits (skip_code c e) len buf.old }
    ensures { PutCode (skip_code c e) len buf result }
{
    let branch = if e {
        encoder::beq(T0, ZERO, 12)
    } else {
        encoder::bne(T0, ZERO, 12)
    };
    put(buf, len, &[encoder::fmv_x_d(T0, c), branch])
}

// Of an order that is not refused.
pub(crate) fn put_instrs(o: Order, buf: &mut [u8], len: usize) -> usize
    requires { (fault_of o ≡ 0) × Fits (instrs o) len buf.old }
    ensures { PutCode (instrs o) len buf result }
{
    match o {
        Order::Unary(k, d, s) => put_unary(k, d, s, buf, len),
        Order::Scratched(k, d, s, t) => put_scratched(k, d, s, t, buf, len),
        Order::Binary(k, d, a, b) => put_binary(k, d, a, b, buf, len),
        Order::Fused(k, d, a, b, c) => put_fused(k, d, a, b, c, buf, len),
        Order::Ifelse(d, a, b, i) => put_ifelse(d, a, b, 8 * i, buf, len),
        Order::Load(d, p, i) => put_access(Cell::LoadFloat, d, base_of(p), 8 * i, buf, len),
        Order::Save(s, p, i) => put_access(Cell::SaveFloat, s, base_of(p), 8 * i, buf, len),
        Order::BranchIf(c, _, e) => put_skip(c, e, buf, len),
        Order::LoadConst(_, _) | Order::SetLabel(_) => len,
    }
}

// ---- room

// Whether the longest order, of eleven words, has room behind len in a buffer of n bytes.
pub fn is_roomy(n: usize, len: usize) -> bool
    ensures { result ≡ leb (len + 44) (room n) }
{
    len <= ROOM - 44 && len + 44 <= n
}

// How many instructions an order has, found by writing them elsewhere; 0 where the longest order has room, and no count is needed.
pub(crate) fn needed(o: Order, n: usize, len: usize) -> usize
    requires { fault_of o ≡ 0 }
    ensures { (result ≤ 11) × (result ≡ cond (leb (len + 44) (room n)) 0 (length (instrs o))) }
{
    if is_roomy(n, len) {
        return 0;
    }
    let mut own = [0u8; 44];
    put_instrs(o, &mut own, 0) / 4
}

// ---- the orders of instructions alone, written where the longest order has room

pub fn write_unary(k: Unary, d: u32, s: u32, buf: &mut [u8], len: usize) -> Option<usize>
    ensures { Wrote (unary_code k d s) len buf result }
{
    if is_roomy(buf.len(), len) {
        Some(put_unary(k, d, s, buf, len))
    } else {
        None
    }
}

pub fn write_scratched(
    k: Scratched,
    d: u32,
    s: u32,
    t: u32,
    buf: &mut [u8],
    len: usize,
) -> Option<usize>
    ensures { Wrote (scratched_code k d s t) len buf result }
{
    if is_roomy(buf.len(), len) {
        Some(put_scratched(k, d, s, t, buf, len))
    } else {
        None
    }
}

pub fn write_binary(k: Binary, d: u32, a: u32, b: u32, buf: &mut [u8], len: usize) -> Option<usize>
    ensures { Wrote (binary_code k d a b) len buf result }
{
    if is_roomy(buf.len(), len) {
        Some(put_binary(k, d, a, b, buf, len))
    } else {
        None
    }
}

pub fn write_fused(
    k: Fused,
    d: u32,
    a: u32,
    b: u32,
    c: u32,
    buf: &mut [u8],
    len: usize,
) -> Option<usize>
    ensures { Wrote (fused_code k d a b c) len buf result }
{
    if is_roomy(buf.len(), len) {
        Some(put_fused(k, d, a, b, c, buf, len))
    } else {
        None
    }
}

// 8 * i, of 32 bits
fn offset_of(i: u32) -> u32
    ensures { result ≡ offset i }
{
    8 * (i % 0x20000000)
}

pub fn write_ifelse(d: u32, a: u32, b: u32, i: u32, buf: &mut [u8], len: usize) -> Option<usize>
    ensures { Wrote (ifelse_code d a b (offset i)) len buf result }
{
    if is_roomy(buf.len(), len) {
        Some(put_ifelse(d, a, b, offset_of(i), buf, len))
    } else {
        None
    }
}

pub fn write_load(d: u32, p: Place, i: u32, buf: &mut [u8], len: usize) -> Option<usize>
    ensures { Wrote (load_float_code d (base p) (offset i)) len buf result }
{
    if is_roomy(buf.len(), len) {
        Some(put_access(Cell::LoadFloat, d, base_of(p), offset_of(i), buf, len))
    } else {
        None
    }
}

pub fn write_save(s: u32, p: Place, i: u32, buf: &mut [u8], len: usize) -> Option<usize>
    ensures { Wrote (save_float_code s (base p) (offset i)) len buf result }
{
    if is_roomy(buf.len(), len) {
        Some(put_access(Cell::SaveFloat, s, base_of(p), offset_of(i), buf, len))
    } else {
        None
    }
}
