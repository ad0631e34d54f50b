// assembler.rs, `apply_jumps`: finishing.
#![tactic(auto)]

ghost use Rattle.std.specs.Prelude.{◌≡◌, ◌↔◌, Bool, true, false, cond, not, ℕ, ◌+◌, ◌-◌, ◌*◌, ◌≤◌, ◌<◌, eqb, length, get_or, EachIndex, IsTrue, slice_index};
ghost use Rattle.std.proofs.Math.IntN.{sub_ℕ};
ghost use Rattle.isa.specs.Immediate.{lo as lo_part};
ghost use Rattle.isa.specs.Instr.{valid};
ghost use Rattle.isa.specs.Encode.{encode};
ghost use Rattle.encoder.specs.Answer.{word_answer, encoded};
ghost use Rattle.assembler.specs.Limit.{room_limit, label_limit, jump_limit};
ghost use Rattle.assembler.specs.Jump.{kind_of, jump_instr};
ghost use Rattle.assembler.specs.Label.{is_set, place_of};
ghost use Rattle.assembler.specs.Memory.{jump_at, tag_at, jumps_of};
ghost use Rattle.assembler.specs.State.{state};
ghost use Rattle.refusal.specs.Number.{number_of, fault_number};
ghost use Rattle.finish.specs.Finish.{first, label_good, labels_good, jump_good, jump_number, patched, finish, finish_outcome};
ghost use Rattle.finish.specs.Inner.Finish.{AllRight, Checked, Fit, IsFirst, has_fault, jump_of};

use assembler::{Asm, JumpKind, Jumps, LABELS, Labels};
use encoder::{Encoded, S2, T0, T2, ZERO};
use refusal::{Refusal, Refused};

// Why finishing is refused, and the caller's own number of the jump that 5 or 6 is about, else 0.
#[derive(Clone, Copy)]
pub struct Unfinished {
    pub refused: Refused,
    pub tag: u32,
}

// ---- labels

fn label_place(e: u64) -> u32
    ensures { result ≡ place_of e }
{
    ((e % 4294967296) as u32).saturating_sub(1)
}

fn is_unset(e: u64) -> bool
    ensures { result ≡ not (is_set e) }
{
    e % 4294967296 == 0
}

fn is_good(e: u64, len: usize) -> bool
    ensures { result ≡ label_good len e }
{
    if e == 0 {
        return true;
    }
    let p = label_place(e) as usize;
    e / 4294967296 <= 4096 && (is_unset(e) || p <= len && p % 4 == 0)
}

// A whole block in which nothing is set, and no jump counted. Without a branch for each, so that many are looked at together.
fn is_blank(block: &[u64]) -> bool
    ensures { result ≡ true → EachIndex block.now (λ k. slice_index block.now k ≡ 0) }
{
    let Ok(whole) = <&[u64; 64]>::try_from(block) else {
        return false;
    };
    let mut all = 0;
    for e in whole {
        all |= *e;
    }
    all == 0
}

fn are_good(block: &[u64], len: usize) -> bool
    ensures { IsTrue result ↔ EachIndex block.now (λ k. label_good len (slice_index block.now k) ≡ true) }
{
    is_blank(block) || block.iter().all(|e| is_good(*e, len))
}

// Most labels are blank.
fn labels_good(labels: &Labels, len: usize) -> bool
    ensures { result ≡ labels_good len labels.now }
{
    for block in labels.chunks(64) {
        if !are_good(block, len) {
            return false;
        }
    }
    true
}

// ---- a jump's word

// A jump in its memory, which holds five numbers for each.
#[derive(Clone, Copy)]
struct Jump {
    word: u32,
    label: u32,
    reg: u32,
    kind: u32,
    tag: u32,
}

fn jump_at(jumps: &Jumps, i: usize) -> Jump
    requires { i < jump_limit }
    ensures { (jump_of result ≡ jump_at jumps.now i) × (result.tag ≡ tag_at jumps.now i) }
{
    let b = 5 * i;
    Jump {
        word: jumps[b],
        label: jumps[b + 1],
        reg: jumps[b + 2],
        kind: jumps[b + 3],
        tag: jumps[b + 4],
    }
}

// The second word of a pair stands 4 further.
fn second(u: u32) -> i32
    ensures { result ≡ lo_part (u + 4) }
{
    encoder::lo(u % 4096 + 4)
}

// The instruction of a jump whose label is at place a.
fn jump_encoded(j: Jump, a: u32) -> Encoded
    requires { (a ≤ room_limit) × (j.word ≤ room_limit) }
    ensures { word_answer result ≡ encoded (jump_instr (kind_of j.kind) j.reg (sub_ℕ a j.word)) }
{
    let u = a.wrapping_sub(j.word);
    let z = a as i32 - j.word as i32;
    match JumpKind::try_from(j.kind).unwrap_or(JumpKind::Bne) {
        JumpKind::Auipc => encoder::auipc(T0, encoder::hi(u)),
        JumpKind::Ld => encoder::ld(j.reg, T0, second(u)),
        JumpKind::Jalr => encoder::jalr(j.reg, T0, second(u)),
        JumpKind::Fld => encoder::fld(j.reg, T0, second(u)),
        JumpKind::Beq => encoder::beq(S2, ZERO, z),
        JumpKind::Bne => encoder::bne(T2, ZERO, z),
    }
}

fn reaches(j: Jump, a: u32) -> bool
    requires { (a ≤ room_limit) × (j.word ≤ room_limit) }
    ensures { result ≡ valid (jump_instr (kind_of j.kind) j.reg (sub_ℕ a j.word)) }
{
    jump_encoded(j, a).is_ok()
}

fn word(j: Jump, a: u32) -> u32
    requires { (a ≤ room_limit) × (j.word ≤ room_limit) }
    ensures { valid (jump_instr (kind_of j.kind) j.reg (sub_ℕ a j.word)) ≡ true → result ≡ encode (jump_instr (kind_of j.kind) j.reg (sub_ℕ a j.word)) }
{
    jump_encoded(j, a).unwrap_or(0)
}

// ---- all jumps looked at

// Its word is in the code, and its numbers are such as there are.
fn is_good_jump(j: Jump, len: usize) -> bool
    ensures { result ≡ jump_good len (jump_of j) }
{
    let at = j.word as usize;
    at + 4 <= len && at % 4 == 0 && j.reg < 32 && (j.label as usize) < LABELS && j.kind < 6
}

// What is wrong with a jump.
fn fault(labels: &Labels, len: usize, j: Jump) -> Option<Refusal>
    requires { (len ≤ room_limit) × (labels_good len labels.now ≡ true) }
    ensures { fault_number result ≡ jump_number labels.now len (jump_of j) }
{
    if !is_good_jump(j, len) {
        return Some(Refusal::Value);
    }
    let e = labels[j.label as usize];
    if is_unset(e) {
        return Some(Refusal::Unset);
    }
    if reaches(j, label_place(e)) {
        None
    } else {
        Some(Refusal::Far)
    }
}

// The first of n jumps with this fault.
fn first_jump(want: Refusal, labels: &Labels, jumps: &Jumps, n: usize, len: usize) -> Option<usize>
    requires { (n ≤ jump_limit) × (len ≤ room_limit) × (labels_good len labels.now ≡ true) }
    ensures { IsFirst result (first (has_fault (number_of want) labels.now len jumps.now) 0 n) n }
{
    for i in 0..n {
        if fault(labels, len, jump_at(jumps, i)) == Some(want) {
            return Some(i);
        }
    }
    None
}

// Refused about a jump.
fn about(why: Refusal, j: Jump) -> Unfinished
    ensures { result ≡ record { refused = record { why = why; place = j.word }; tag = j.tag } }
{
    let refused = Refused { why, place: j.word };
    Unfinished {
        refused,
        tag: j.tag,
    }
}

// Refused as a whole.
fn at_none(why: Refusal) -> Unfinished
    ensures { result ≡ record { refused = record { why = why; place = 0 }; tag = 0 } }
{
    let refused = Refused { why, place: 0 };
    Unfinished { refused, tag: 0 }
}

// Whether nothing is wrong with any jump: a value, then a label that is not set, then a branch too far.
fn check_jumps(buf: &[u8], labels: &Labels, jumps: &Jumps, asm: Asm) -> Result<(), Unfinished>
    requires { Fit (state asm labels.now jumps.now buf.now) }
    ensures { Checked result (state asm labels.now jumps.now buf.now) }
{
    let n = asm.jumps;
    if first_jump(Refusal::Value, labels, jumps, n, asm.len).is_some() {
        return Err(at_none(Refusal::Value));
    }
    if let Some(i) = first_jump(Refusal::Unset, labels, jumps, n, asm.len) {
        return Err(about(Refusal::Unset, jump_at(jumps, i)));
    }
    if let Some(i) = first_jump(Refusal::Far, labels, jumps, n, asm.len) {
        return Err(about(Refusal::Far, jump_at(jumps, i)));
    }
    Ok(())
}

// Whether the state can be finished. Nothing is written before.
fn check(buf: &[u8], labels: &Labels, jumps: &Jumps, asm: Asm) -> Result<(), Unfinished>
    ensures { Checked result (state asm labels.now jumps.now buf.now) }
{
    if asm.closed {
        return Err(at_none(Refusal::Closed));
    }
    if !assembler::is_sound(buf.len(), asm) {
        return Err(at_none(Refusal::Value));
    }
    if !labels_good(labels, asm.len) {
        return Err(at_none(Refusal::Value));
    }
    check_jumps(buf, labels, jumps, asm)
}

// ---- and only then written

// Every jump's word.
fn write_jumps(buf: &mut [u8], labels: &Labels, jumps: &Jumps, n: usize, len: usize)
    requires { (n ≤ jump_limit)
        × (len ≤ length buf.old)
        × (len ≤ room_limit)
        × (labels_good len labels.now ≡ true)
        × AllRight labels.now len jumps.now n }
    ensures { buf.new ≡ patched labels.now buf.old (jumps_of jumps.now 0 n) }
{
    for i in 0..n {
        let j = jump_at(jumps, i);
        let a = label_place(labels[j.label as usize]);
        assembler::write_words(buf, j.word as usize, &[word(j, a)]);
    }
}

// The memory stays two parameters and the record one: C lends labels and jumps to be read only (include/handheld.h, `order_finish`).
pub fn apply_jumps(
    buf: &mut [u8],
    labels: &Labels,
    jumps: &Jumps,
    asm: &mut Asm,
) -> Result<(), Unfinished>
    ensures { finish_outcome result asm.new labels.now jumps.now buf.new ≡ finish (state asm.old labels.now jumps.now buf.old) }
{
    check(buf, labels, jumps, *asm)?;
    write_jumps(buf, labels, jumps, asm.jumps, asm.len);
    asm.closed = true;
    Ok(())
}
