// assembler.rs and utils.rs: words, labels and jumps in lent memory.
#![tactic(auto)]

ghost use Rattle.std.specs.Prelude.{◌≡◌, true, ◌&&◌, ◌||◌, [], ◌∷◌, ◌+◌, ◌*◌, ◌^◌, ◌≤◌, ◌<◌, length, get_or, eqb, OnOk};
ghost use Rattle.std.proofs.lemmas.List.Edits.{sets};
ghost use Rattle.refusal.specs.Number.{number_of};
ghost use Rattle.assembler.specs.Item.{raw, label, jump as jump_item};
ghost use Rattle.assembler.specs.Jump.{kind_number, kind_said};
ghost use Rattle.assembler.specs.Limit.{room_limit, label_limit, jump_limit};
ghost use Rattle.assembler.specs.Bytes.{written, fitted};
ghost use Rattle.assembler.specs.Label.{is_set, with_place, made};
ghost use Rattle.assembler.specs.State.{SameLent, sound, fits, before, after};
ghost use Rattle.assembler.specs.Inner.State.{Fits, Roomy, with_words};
ghost use Rattle.assembler.specs.Put.{targets, twice, times, number_holds, numbers_sound, numbers_fit};
ghost use Rattle.assembler.specs.Put.{verdict, prechecked, with_jump, with_label, placed, put};
ghost use Rattle.assembler.specs.Plan.{rank, earlier, operand_number, refusal_of, fault_number, first_of, refusal_fault, label_fault, jump_fault};
ghost use Rattle.assembler.specs.Plan.{tail_items, tail_fault, plan_items, plan_fault, no_words, faulty, pushed};
ghost use Rattle.assembler.specs.Plan.{all_labels, sets_fault};
ghost use Rattle.assembler.specs.Constant.{quad, constant_items, constant_fault, size_answer, aligned};
ghost use Rattle.ast.specs.Constant.{constant_bits};

use ast::Constant;
use encoder::Encoded;
use refusal::{Refusal, Refused};

// How many bytes of a buffer count at most.
pub const ROOM: usize = 65536;

// Label memory has an entry for each label, jump memory five numbers for each of at most 4,096 jumps.
pub const LABELS: usize = 2039;

pub const JUMP_LIMIT: usize = 4096;

pub const JUMPS: usize = 5 * JUMP_LIMIT;

pub type Labels = [u64; LABELS];

pub type Jumps = [u32; JUMPS];

// An entry of label memory: its low half has the label's place and 1, or 0; its high half the number of jumps to it.
pub const HALF: u64 = 0x100000000;

// What finishing writes for a jump: `auipc` t0; `ld`, `jalr` or `fld` through t0; `beq` s2, zero; `bne` t2, zero.
// The number is the one in jump memory.
#[derive(Clone, Copy)]
pub enum JumpKind {
    Auipc = 0,
    Ld = 1,
    Jalr = 2,
    Fld = 3,
    Beq = 4,
    Bne = 5,
}

impl TryFrom<u32> for JumpKind {
    type Error = Refusal;

    ghost try_from_gives = { λ n r. r ≡ kind_said n };

    fn try_from(n: u32) -> Result<JumpKind, Refusal> {
        match n {
            0 => Ok(JumpKind::Auipc),
            1 => Ok(JumpKind::Ld),
            2 => Ok(JumpKind::Jalr),
            3 => Ok(JumpKind::Fld),
            4 => Ok(JumpKind::Beq),
            5 => Ok(JumpKind::Bne),
            _ => Err(Refusal::Value),
        }
    }
}

// Written length, jump count and the closed mark.
#[derive(Clone, Copy)]
pub struct Asm {
    pub len: usize,
    pub jumps: usize,
    pub closed: bool,
}

// The lent memory and its record. A method that refuses changes nothing.
#[derive(Drop)]
pub struct Assembler<'a> {
    pub buf: &'a mut [u8],
    pub labels: &'a mut Labels,
    pub jumps: &'a mut Jumps,
    pub asm: Asm,
}

// Jumps behind the words of an order: none; one (label, register); or an `auipc` with its second word (label, register).
#[derive(Clone, Copy)]
pub enum Tail {
    Nothing,
    One(JumpKind, u32, u32),
    Pair(JumpKind, u32, u32),
}

// What can be wrong with an operand. The other refusals aren't an operand's.
#[derive(Clone, Copy, PartialEq, Eq)]
pub enum Fault {
    Register,
    Value,
    Label,
    Count,
    Base,
    Unsaved,
}

impl From<Fault> for Refusal {
    ghost from_gives = { λ f r. r ≡ refusal_of f };

    fn from(f: Fault) -> Refusal {
        match f {
            Fault::Register => Refusal::Register,
            Fault::Value => Refusal::Value,
            Fault::Label => Refusal::Label,
            Fault::Count => Refusal::Count,
            Fault::Base => Refusal::Base,
            Fault::Unsaved => Refusal::Unsaved,
        }
    }
}

// An order: the first n of w, then a tail. `fault` is what is wrong with an operand.
#[derive(Clone, Copy)]
pub struct Plan {
    pub n: usize,
    pub fault: Option<Fault>,
    pub w: [u32; 12],
}

// ---- words

// Four bytes, the lowest first.
fn put_word(buf: &mut [u8], at: usize, w: u32)
    requires { at + 4 ≤ length buf.old }
    ensures { buf.new ≡ written buf.old at (w ∷ []) }
{
    buf[at..at + 4].copy_from_slice(&w.to_le_bytes());
}

#[tactic(auto, using(crate::proofs::Writes::written_none, crate::proofs::Writes::written_next))]
fn put_words(buf: &mut [u8], at: usize, ws: &[u32])
    requires { at + 4 * length ws.now ≤ length buf.old }
    ensures { buf.new ≡ written buf.old at ws.now }
{
    for (i, w) in ws.iter().enumerate() {
        put_word(buf, at + 4 * i, *w);
    }
}

// Words from `at` on, if what counts of the buffer goes so far.
pub fn write_words(buf: &mut [u8], at: usize, ws: &[u32])
    ensures { buf.new ≡ fitted buf.old at ws.now }
{
    let room = buf.len().min(ROOM);
    if ws.len() <= room / 4 && at <= room - 4 * ws.len() {
        put_words(buf, at, ws);
    }
}

// ---- labels

fn is_set(e: u64) -> bool
    ensures { result ≡ is_set e }
{
    e % HALF != 0
}

fn label_at(e: u64, p: usize) -> u64
    requires { p ≤ room_limit }
    ensures { result ≡ with_place e p }
{
    e / HALF * HALF + (p as u64 + 1)
}

// Jump i's five numbers.
fn note(jumps: &mut Jumps, i: usize, numbers: [u32; 5])
    requires { i < jump_limit }
    ensures { jumps.new ≡ sets jumps.old (5 * i) numbers }
{
    jumps[5 * i..5 * i + 5].copy_from_slice(&numbers);
}

// How many of the jumps go to label l.
fn times(l: u32, goes: &[u32]) -> usize
    ensures { (result ≡ times l goes.now) × (result ≤ length goes.now) }
{
    let mut n = 0;
    for g in goes {
        if l == *g {
            n += 1;
        }
    }
    n
}

// Label l's entry, 0 where there is no such label.
fn entry(labels: &Labels, l: u32) -> u64
    ensures { result ≡ get_or labels.now l 0 }
{
    let i = l as usize;
    if i < LABELS { labels[i] } else { 0 }
}

// Label l's number with n jumps more is at most 4,096; false where there is no such label.
fn number_holds(labels: &Labels, n: usize, l: u32) -> bool
    requires { n < 2 ^ 62 }
    ensures { result ≡ number_holds labels.now n l }
{
    (l as usize) < LABELS && entry(labels, l) / HALF + n as u64 <= JUMP_LIMIT as u64
}

// Each is a label whose number is at most 4,096.
fn numbers_sound(labels: &Labels, goes: &[u32]) -> bool
    ensures { result ≡ numbers_sound labels.now goes.now }
{
    goes.iter().all(|l| number_holds(labels, 0, *l))
}

// Each is a label whose number, with these jumps, is at most 4,096.
fn numbers_fit(labels: &Labels, goes: &[u32]) -> bool
    ensures { result ≡ numbers_fit labels.now goes.now }
{
    goes.iter()
        .all(|l| number_holds(labels, times(*l, goes), *l))
}

// One of the labels is set, or comes twice.
#[tactic(auto, using(crate::proofs::Tests::twice_next), unfolding(crate::specs::Put::twice))]
fn taken(labels: &Labels, sets: &[u32]) -> bool
    ensures { result ≡ twice labels.now sets.now }
{
    let mut rest = sets;
    while let Some((l, behind)) = rest.split_first() {
        if is_set(entry(labels, *l)) || behind.contains(l) {
            return true;
        }
        rest = behind;
    }
    false
}

// ---- faults

// Where a fault stands in document 01's order; none is last.
fn rank(f: Option<Fault>) -> u8
    ensures { result ≡ rank (operand_number f) }
{
    match f {
        Some(Fault::Register) => 2,
        Some(Fault::Label) => 3,
        Some(Fault::Value) => 4,
        Some(Fault::Count) => 5,
        Some(Fault::Base) => 6,
        Some(Fault::Unsaved) => 7,
        None => 12,
    }
}

fn first_fault(a: Option<Fault>, b: Option<Fault>) -> Option<Fault>
    ensures { (result ≡ first_of a b) × (operand_number result ≡ earlier (operand_number a) (operand_number b)) }
{
    if rank(b) < rank(a) { b } else { a }
}

// The encoder refuses registers and values; a refusal that isn't an operand's counts as a value.
fn fault_for(r: Refusal) -> Option<Fault>
    ensures { result ≡ refusal_fault r }
{
    match r {
        Refusal::Register => Some(Fault::Register),
        Refusal::Label => Some(Fault::Label),
        Refusal::Count => Some(Fault::Count),
        Refusal::Base => Some(Fault::Base),
        Refusal::Unsaved => Some(Fault::Unsaved),
        _ => Some(Fault::Value),
    }
}

// A register or a label is refused before the record is looked at.
fn is_early(f: Fault) -> bool
    ensures { result ≡ eqb (number_of (refusal_of f)) 1 || eqb (number_of (refusal_of f)) 3 }
{
    matches!(f, Fault::Register | Fault::Label)
}

// A jump's register.
fn jump_fault(r: u32) -> Option<Fault>
    ensures { operand_number result ≡ jump_fault r }
{
    if r < 32 { None } else { Some(Fault::Register) }
}

fn tail_fault(t: Tail) -> Option<Fault>
    ensures { operand_number result ≡ tail_fault t }
{
    match t {
        Tail::Nothing => None,
        Tail::One(_, _, r) | Tail::Pair(_, _, r) => jump_fault(r),
    }
}

fn are_labels(sets: &[u32]) -> bool
    ensures { result ≡ all_labels sets.now }
{
    sets.iter().all(|l| (*l as usize) < LABELS)
}

fn sets_fault(sets: &[u32]) -> Option<Fault>
    ensures { operand_number result ≡ sets_fault sets.now }
{
    if are_labels(sets) {
        None
    } else {
        Some(Fault::Value)
    }
}

// ---- the record

// Whether the record is one that orders make, over a buffer of n bytes.
#[tactic(auto, unfolding(crate::specs::State::sound))]
pub fn is_sound(n: usize, asm: Asm) -> bool
    ensures { (result ≡ sound n asm) × (result ≡ true → (asm.len ≤ n) × (asm.len ≤ room_limit) × (asm.jumps ≤ jump_limit)) }
{
    asm.len <= n.min(ROOM) && asm.len % 4 == 0 && asm.jumps <= JUMP_LIMIT
}

impl Plan {
    pub fn new() -> Plan
        ensures { result ≡ no_words }
    {
        Plan {
            n: 0,
            fault: None,
            w: [0u32; 12],
        }
    }

    // With one fault more.
    fn with_fault(self, f: Option<Fault>) -> Plan
        ensures { result ≡ faulty self f }
    {
        let mut next = self;
        next.fault = first_fault(self.fault, f);
        next
    }

    // With one instruction more.
    #[tactic(auto, unfolding(crate::specs::Plan::pushed))]
    pub fn push(self, e: Encoded) -> Plan
        ensures { result ≡ pushed self e }
    {
        match e {
            Ok(x) => {
                if self.n < 12 {
                    let mut next = self;
                    next.w[self.n] = x;
                    next.n = self.n + 1;
                    return next;
                }
                self.with_fault(Some(Fault::Value))
            }
            Err(e) => self.with_fault(fault_for(e.why)),
        }
    }
}

impl Assembler<'_> {
    // ---- what is asked

    // So many words and jumps more have room.
    #[tactic(auto, unfolding(crate::specs::State::fits))]
    fn has_room(&self, words: usize, jumps: usize) -> bool
        ensures { result ≡ fits (length self.now.buf.now) self.now.asm words jumps }
    {
        let room = self.buf.len().min(ROOM);
        let asm = self.asm;
        asm.len <= room
            && words <= (room - asm.len) / 4
            && asm.jumps <= JUMP_LIMIT
            && jumps <= JUMP_LIMIT - asm.jumps
    }

    // The record and the numbers of these labels are sound.
    fn is_good(&self, goes: &[u32]) -> bool
        ensures { result ≡ numbers_sound self.now.labels.now goes.now && sound (length self.now.buf.now) self.now.asm }
    {
        numbers_sound(self.labels, goes) && is_sound(self.buf.len(), self.asm)
    }

    // So many words have room, and jumps to these labels.
    fn is_roomy(&self, goes: &[u32], words: usize) -> bool
        ensures { result ≡ numbers_fit self.now.labels.now goes.now && fits (length self.now.buf.now) self.now.asm words (length goes.now) }
    {
        numbers_fit(self.labels, goes) && self.has_room(words, goes.len())
    }

    // What a whole is refused for that sets these labels, has a jump to each of `goes`, and so many words.
    #[tactic(auto, unfolding(crate::specs::Put::ranked), using(crate::proofs::Tests::number_some))]
    fn refusal(
        &self,
        fault: Option<Fault>,
        sets: &[u32],
        goes: &[u32],
        words: usize,
    ) -> Option<Refusal>
        ensures { fault_number result ≡ verdict (earlier (operand_number fault) (sets_fault sets.now)) sets.now goes.now words (before self.now) }
    {
        if self.asm.closed {
            return Some(Refusal::Closed);
        }
        let good = self.is_good(goes);
        let first = first_fault(fault, sets_fault(sets));
        if let Some(f) = first {
            return if good || is_early(f) {
                Some(Refusal::from(f))
            } else {
                Some(Refusal::Value)
            };
        }
        if !good {
            return Some(Refusal::Value);
        }
        if taken(self.labels, sets) {
            return Some(Refusal::Twice);
        }
        if self.is_roomy(goes, words) {
            return None;
        }
        Some(Refusal::Full)
    }

    // Such a whole is refused, or it has room; nothing changes.
    pub fn check_whole(
        &self,
        fault: Option<Fault>,
        sets: &[u32],
        goes: &[u32],
        words: usize,
    ) -> Result<(), Refused>
        ensures whole { after result self.now ≡ prechecked (earlier (operand_number fault) (sets_fault sets.now)) sets.now goes.now words (before self.now) }
        ensures room { OnOk result (Roomy words goes.now (before self.now)) }
        ensures labels { OnOk result (all_labels sets.now ≡ true) }
    {
        match self.refusal(fault, sets, goes, words) {
            None => Ok(()),
            Some(why) => Err(Refused { why, place: 0 }),
        }
    }

    // The same of a tail behind so many words. More than ROOM have no room, however many they are.
    #[inline]
    pub fn check_tail(&self, fault: Option<Fault>, words: usize, t: Tail) -> Result<(), Refused>
        ensures whole { after result self.now
            ≡ prechecked (operand_number fault) [] (targets (tail_items t)) (words + length (targets (tail_items t))) (before self.now) }
        ensures room { OnOk result (Roomy (words + length (targets (tail_items t))) (targets (tail_items t)) (before self.now)) }
    {
        match t {
            Tail::Nothing => self.check_whole(fault, &[], &[], words),
            Tail::One(_, l, _) => self.check_whole(fault, &[], &[l], words.min(ROOM) + 1),
            Tail::Pair(_, l, _) => self.check_whole(fault, &[], &[l, l], words.min(ROOM) + 2),
        }
    }

    // ---- what is done

    // Words behind the others.
    fn lay(&mut self, ws: &[u32])
        requires { self.old.asm.len + 4 * length ws.now ≤ length self.old.buf.now }
        ensures whole { before self.new ≡ with_words ws.now (before self.old) }
        ensures lent { SameLent self.old self.new }
    {
        put_words(self.buf, self.asm.len, ws);
        self.asm.len += 4 * ws.len();
    }

    // Label l at the place reached.
    #[tactic(auto, unfolding(crate::specs::Put::with_label))]
    fn mark(&mut self, l: u32)
        requires { (l < label_limit) × (self.old.asm.len ≤ room_limit) }
        ensures whole { before self.new ≡ with_label l (before self.old) }
        ensures lent { SameLent self.old self.new }
    {
        let i = l as usize;
        self.labels[i] = label_at(self.labels[i], self.asm.len);
    }

    // A zero word, the jump's five numbers, and one jump more to its label.
    #[tactic(auto, unfolding(crate::specs::Put::with_jump))]
    fn reserve(&mut self, k: JumpKind, l: u32, r: u32, tag: u32)
        requires { Fits (length self.old.buf.now) self.old.asm 1 1 × (l < label_limit) × (made (get_or self.old.labels.now l 0) < jump_limit) }
        ensures whole { before self.new ≡ with_jump (kind_number k) l r tag (before self.old) }
        ensures lent { SameLent self.old self.new }
    {
        note(
            self.jumps,
            self.asm.jumps,
            [self.asm.len as u32, l, r, k as u32, tag],
        );
        self.labels[l as usize] += HALF;
        self.asm.jumps += 1;
        self.lay(&[0]);
    }

    fn reserve_tail(&mut self, t: Tail, tag: u32)
        requires { Roomy (length (targets (tail_items t))) (targets (tail_items t)) (before self.old) }
        ensures whole { before self.new ≡ placed tag (tail_items t) (before self.old) }
        ensures lent { SameLent self.old self.new }
    {
        match t {
            Tail::Nothing => {}
            Tail::One(k, l, r) => self.reserve(k, l, r, tag),
            Tail::Pair(k, l, r) => {
                self.reserve(JumpKind::Auipc, l, 0, tag);
                self.reserve(k, l, r, tag);
            }
        }
    }

    // ---- done, or refused

    pub fn append_word(&mut self, w: u32) -> Result<(), Refused>
        ensures whole { after result self.new ≡ put 0 0 (raw w ∷ []) (before self.old) }
        ensures lent { SameLent self.old self.new }
    {
        self.check_whole(None, &[], &[], 1)?;
        self.lay(&[w]);
        Ok(())
    }

    // The low word first.
    pub fn append_quad(&mut self, q: u64) -> Result<(), Refused>
        ensures whole { after result self.new ≡ put 0 0 (quad q) (before self.old) }
        ensures lent { SameLent self.old self.new }
    {
        self.check_whole(None, &[], &[], 2)?;
        self.lay(&[(q % HALF) as u32, (q / HALF) as u32]);
        Ok(())
    }

    pub fn set_label(&mut self, l: u32) -> Result<(), Refused>
        ensures whole { after result self.new ≡ put 0 (label_fault l) (label l ∷ []) (before self.old) }
        ensures lent { SameLent self.old self.new }
    {
        self.check_whole(None, &[l], &[], 0)?;
        self.mark(l);
        Ok(())
    }

    pub fn jump(&mut self, k: JumpKind, l: u32, r: u32, tag: u32) -> Result<(), Refused>
        ensures whole { after result self.new ≡ put tag (jump_fault r) (jump_item k l r ∷ []) (before self.old) }
        ensures lent { SameLent self.old self.new }
    {
        self.check_whole(jump_fault(r), &[], &[l], 1)?;
        self.reserve(k, l, r, tag);
        Ok(())
    }

    // The words of a plan and the jumps behind them, all or nothing.
    pub fn place(&mut self, p: Plan, t: Tail, tag: u32) -> Result<(), Refused>
        ensures whole { after result self.new ≡ put tag (plan_fault p t) (plan_items p t) (before self.old) }
        ensures lent { SameLent self.old self.new }
    {
        let n = p.n.min(12);
        self.check_tail(first_fault(p.fault, tail_fault(t)), n, t)?;
        self.lay(&p.w[..n]);
        self.reserve_tail(t, tag);
        Ok(())
    }

    // Constant k at its label.
    pub fn append_const(&mut self, k: u32, c: Constant) -> Result<(), Refused>
        ensures whole { after result self.new ≡ put 0 (constant_fault k) (constant_items k c) (before self.old) }
        ensures lent { SameLent self.old self.new }
    {
        if 1007 < k {
            return self.check_whole(Some(Fault::Count), &[], &[], 2);
        }
        let b = bits_of(c);
        self.check_whole(None, &[1024 + k], &[], 2)?;
        self.mark(1024 + k);
        self.lay(&[(b % HALF) as u32, (b / HALF) as u32]);
        Ok(())
    }
}

// ---- constants and stack sizes

// A NaN's bits are 0x7ff8000000000000.
fn bits_of(c: Constant) -> u64
    ensures { result ≡ constant_bits c }
{
    match c {
        Constant::Float(x) => if x.is_nan() {
            0x7FF8000000000000
        } else {
            x.to_bits()
        },
        Constant::Bits(b) => b,
    }
}

// The next multiple of 16 above n.
#[tactic(auto, unfolding(crate::specs::Constant::aligned))]
pub fn align_stack(n: u32) -> Result<u32, Refused>
    ensures { size_answer result ≡ aligned n }
{
    if n <= 0x7FFFF7FF {
        return Ok(n + 16 - n % 16);
    }
    Err(Refused {
        why: Refusal::Value,
        place: 0,
    })
}
