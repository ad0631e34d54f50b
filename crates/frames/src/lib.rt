// mod.rs, frames: prologues, epilogues, saves and reloads. Each is placed whole, or refused and nothing changes.
#![tactic(auto)]

ghost use Rattle.std.specs.Prelude.{◌≡◌, true, cond, [], ◌∷◌, ◌++◌, map, ℕ, ◌+◌, ◌*◌, ◌≤◌, ◌<◌, ltb, pos, length};
ghost use Rattle.ast.specs.Count.{cells};
ghost use Rattle.isa.specs.Register.{sp, s1, s5, fa0};
ghost use Rattle.isa.specs.Instr.{I, FLD};
ghost use Rattle.ast.specs.Align.{align16};
ghost use Rattle.assembler.specs.Limit.{label_limit};
ghost use Rattle.assembler.specs.State.{SameLent, before, after};
ghost use Rattle.assembler.specs.Put.{words, targets, put};
ghost use Rattle.assembler.specs.Plan.{sets_fault};
ghost use Rattle.accesses.specs.Code.{li_code, sub_stack_code, allocate_stack_code};
ghost use Rattle.accesses.specs.Plans.{answer_of, pushes_from, plan_of};
ghost use Rattle.ast.specs.Counts.{count_limit, result_limit, prologue_holds, epilogue_holds};
ghost use Rattle.ast.specs.Mask.{saved as saved_of};
ghost use Rattle.reading.specs.Size.{save_size};
ghost use Rattle.frame_code.specs.Items.{at_self, at_main, at_pro, at_epi, at_done};
ghost use Rattle.frame_code.specs.Items.{code, mv, kept, opening, closing, times_over, states_from, saves, reloads};
ghost use Rattle.frame_code.specs.Items.{prologue_fast, prologue_indirect, epilogue_fast, epilogue_indirect};
ghost use Rattle.frame_code.specs.Items.{prologue as prologue_items, epilogue as epilogue_items};
ghost use Rattle.frame_code.specs.Fault.{prologue_fault, epilogue_fault};
ghost use Rattle.frame_code.specs.Inner.Copies.{copy_first, copy_each, copy_label, copies as Copies_of};
ghost use Rattle.frames.specs.Whole.{head_of, prologue_put, epilogue_put};
ghost use Rattle.frames.specs.Inner.Whole.{is_out, moved, looped as looped_of, entry};

use accesses::Cell;
use assembler::{Assembler, Fault, JumpKind, Plan, Tail};
use ast::{Frame, Head};
use encoder::{A0, A1, A2, A3, Encoded, FA0, RA, SP, T0, T1, T2, ZERO};
use refusal::Refused;

// ---- registers by their part in a frame

const FP: u32 = encoder::S0;

const MEM: u32 = encoder::S1;

const STATES: u32 = encoder::S2;

const IDX: u32 = encoder::S3;

const PARAMS: u32 = encoder::S4;

const STACK: u32 = encoder::S5;

// ---- labels: `@self`, `@main`, `@pro`, `@epi`, `@done`, `@success`, `@epilogue`

const AT_SELF: u32 = 2032;

const AT_MAIN: u32 = 2033;

const AT_PRO: u32 = 2034;

const AT_EPI: u32 = 2035;

const AT_DONE: u32 = 2036;

const AT_SUCCESS: u32 = 2037;

const AT_EPILOGUE: u32 = 2038;

// ---- preserved float registers of a mask

// A preserved register's save, or its reload.
fn used_access(k: Cell, r: u32) -> Encoded
    requires { r ≤ 32 }
    ensures { result ≡ answer_of (moved k r) }
{
    accesses::access_at(k, r, STACK, (8 * ast::save_cell(r)) as i32)
}

// How many registers a mask saves: its ones among the bits of f8, f9 and f18..f27.
#[tactic(auto, using(crate::proofs::Ones::ones_saved, crate::proofs::Pushes::saved_few))]
fn used_count(mask: u32) -> usize
    ensures { (result ≡ length (saved_of mask)) × (result ≤ 12) }
{
    (u32::count_ones(mask / 256 % 4) + u32::count_ones(mask / 262144 % 1024)) as usize
}

// The saves of a mask or its reloads, upward from its lowest set bit: trailing zeros give the next register, ones count the saves.
// A `for` over the preserved registers is no plainer: it would test each of the twelve, and the ported walk goes from bit to bit.
fn used_plan(k: Cell, mask: u32) -> Plan
    ensures { result ≡ plan_of (map (moved k) (saved_of mask)) }
{
    let mut p = Plan::new();
    let mut left = used_count(mask);
    let mut bits = mask;
    let mut r: u32 = 0;
    while left > 0 {
        let t = u32::trailing_zeros(bits);
        r += t;
        if ast::is_preserved(r) {
            p = p.push(used_access(k, r));
            left -= 1;
        }
        bits = (bits >> t) / 2;
        r += 1;
    }
    p
}

pub fn save_used_registers(asm: &mut Assembler<'_>, mask: u32) -> Result<(), Refused>
    ensures whole { after result asm.new ≡ put 0 0 (saves mask) (before asm.old) }
    ensures lent { SameLent asm.old asm.new }
{
    asm.place(used_plan(Cell::SaveFloat, mask), Tail::Nothing, 0)
}

pub fn load_used_registers(asm: &mut Assembler<'_>, mask: u32) -> Result<(), Refused>
    ensures whole { after result asm.new ≡ put 0 0 (reloads mask) (before asm.old) }
    ensures lent { SameLent asm.old asm.new }
{
    let n = used_count(mask);
    asm.check_whole(None, &[AT_SUCCESS, AT_EPILOGUE], &[], 1 + n)?;
    asm.set_label(AT_SUCCESS)?;
    asm.place(
        accesses::plan([encoder::addi(A0, ZERO, 0)]),
        Tail::Nothing,
        0,
    )?;
    asm.set_label(AT_EPILOGUE)?;
    asm.place(used_plan(Cell::LoadFloat, mask), Tail::Nothing, 0)
}

// ---- words of the pieces

// The whole-number registers that a frame keeps, in the order of their places.
fn kept(frame: Frame) -> &'static [u32]
    ensures { result.now ≡ kept frame }
{
    match frame {
        Frame::Fast => &[RA, FP, MEM, STACK],
        Frame::Indirect => &[RA, FP, MEM, STATES, IDX, PARAMS, STACK],
    }
}

// Bytes for them.
fn save_size(frame: Frame) -> i32
    ensures { result ≡ pos (save_size frame) }
{
    match frame {
        Frame::Fast => 32,
        Frame::Indirect => 64,
    }
}

// Registers to their places; s0 is where those start.
fn opening_plan(frame: Frame) -> Plan
    ensures { result ≡ plan_of (opening frame) }
{
    let size = save_size(frame);
    let mut p = accesses::plan([encoder::addi(SP, SP, 0 - size)]);
    for (i, r) in kept(frame).iter().enumerate() {
        p = p.push(encoder::sd(*r, SP, (8 * i) as i32));
    }
    p.push(encoder::mv(FP, SP))
}

// Behind p's words: registers from their places, a0 = 0, and back to ra.
fn closing_plan(p: Plan, frame: Frame) -> Plan
    ensures { result ≡ pushes_from p (map answer_of (closing frame)) }
{
    let mut q = p.push(encoder::mv(SP, FP));
    for (i, r) in kept(frame).iter().enumerate() {
        q = q.push(encoder::ld(*r, SP, (8 * i) as i32));
    }
    q = q.push(encoder::addi(SP, SP, save_size(frame)));
    q = q.push(encoder::xor(A0, A0, A0));
    q.push(encoder::ret())
}

// The two ways of a copy: states into `mem`, or out of it to the observations.
#[derive(Clone, Copy)]
enum Way {
    In,
    Out,
}

// One state or observation by its pointer; s2 and t1 go on.
fn copy_plan(way: Way) -> Plan
    ensures { result ≡ plan_of (copy_each (is_out way)) }
{
    let (from, to) = match way {
        Way::In => (T0, T1),
        Way::Out => (T1, T0),
    };
    accesses::plan([
        encoder::ld(T0, STATES, 0),
        encoder::add(T0, T0, IDX),
        encoder::fld(FA0, from, 0),
        encoder::fsd(FA0, to, 0),
        encoder::addi(STATES, STATES, 16),
        encoder::addi(T1, T1, 8),
    ])
}

// t1 is the first cell.
fn first_plan(way: Way, states: u32) -> Plan
    requires { states ≤ count_limit }
    ensures { result ≡ plan_of (copy_first (is_out way) states) }
{
    match way {
        Way::In => accesses::plan([encoder::mv(T1, MEM)]),
        Way::Out => accesses::li_plan(T1, (8 * states) as i32).push(encoder::add(T1, T1, MEM)),
    }
}

// s5 is sp, and float registers f10 and up go to `mem`.
fn states_plan(states: u32) -> Plan
    requires { states ≤ 8 }
    ensures { result ≡ plan_of (mv s5 sp ∷ states_from 0 states) }
{
    let mut p = accesses::plan([encoder::mv(STACK, SP)]);
    for i in 0..states {
        p = p.push(encoder::fsd(FA0 + i, MEM, (8 * i) as i32));
    }
    p
}

// ---- how many words

#[tactic(auto, using(crate::proofs::Sizes::li_one, crate::proofs::Sizes::li_two))]
fn li_words(n: u32) -> usize
    ensures { ((d : ℕ) → result ≡ length (li_code d (pos n))) × (result ≤ 2) }
{
    if n < 2048 { 1 } else { 2 }
}

#[tactic(auto, using(crate::proofs::Sizes::sub_near, crate::proofs::Sizes::sub_edge, crate::proofs::Sizes::sub_far))]
fn sub_words(n: u32) -> usize
    ensures { (result ≡ length (sub_stack_code n)) × (result ≤ 3) }
{
    if n < 2048 {
        return 1;
    }
    if n == 2048 { 2 } else { 3 }
}

#[tactic(auto, using(crate::proofs::Sizes::allocate_near, crate::proofs::Sizes::allocate_far))]
fn allocate_words(n: u32) -> usize
    ensures { (result ≡ length (allocate_stack_code n)) × (result ≤ 4) }
{
    if n < 2048 { 2 } else { 4 }
}

fn first_words(way: Way, states: u32) -> usize
    requires { states ≤ count_limit }
    ensures { (result ≡ length (copy_first (is_out way) states)) × (result ≤ 3) }
{
    match way {
        Way::In => 1,
        Way::Out => li_words(8 * states) + 1,
    }
}

fn copy_words(way: Way, states: u32, n: u32) -> usize
    requires { states ≤ count_limit }
    ensures { (result ≡ length (words (Copies_of (is_out way) states n))) × (result ≤ 99) }
{
    match n {
        0 => 0,
        1..=16 => first_words(way, states) + 6 * n as usize,
        _ => first_words(way, states) + li_words(n) + 8,
    }
}

// A size in bytes for n cells: the next multiple of 16 above them.
fn size_of(n: u32) -> u32
    requires { n ≤ count_limit }
    ensures { (result ≡ align16 (8 * n)) × (result ≤ 32784) }
{
    8 * n + 16 - 8 * n % 16
}

// ---- copies of states and observations

// In a row.
fn straight(asm: &mut Assembler<'_>, way: Way, states: u32, n: u32) -> Result<(), Refused>
    requires { (states ≤ count_limit) × (n ≤ 16) }
    ensures whole { after result asm.new ≡ put 0 0 (code (copy_first (is_out way) states ++ times_over n (copy_each (is_out way)))) (before asm.old) }
    ensures lent { SameLent asm.old asm.new }
{
    let w = first_words(way, states) + 6 * n as usize;
    asm.check_whole(None, &[], &[], w)?;
    asm.place(first_plan(way, states), Tail::Nothing, 0)?;
    let p = copy_plan(way);
    for _ in 0..n {
        asm.place(p, Tail::Nothing, 0)?;
    }
    Ok(())
}

fn label_of(way: Way) -> u32
    ensures { (result ≡ copy_label (is_out way)) × (result < label_limit) }
{
    match way {
        Way::In => AT_PRO,
        Way::Out => AT_EPI,
    }
}

// By a loop that counts t2 down.
fn looped(asm: &mut Assembler<'_>, way: Way, states: u32, n: u32, tag: u32) -> Result<(), Refused>
    requires { (states ≤ count_limit) × (n ≤ count_limit) }
    ensures whole { after result asm.new ≡ put tag 0 (looped_of (is_out way) states n) (before asm.old) }
    ensures lent { SameLent asm.old asm.new }
{
    let l = label_of(way);
    let w = first_words(way, states) + li_words(n) + 8;
    asm.check_whole(None, &[l], &[l], w)?;
    asm.place(first_plan(way, states), Tail::Nothing, tag)?;
    asm.place(accesses::li_plan(T2, n as i32), Tail::Nothing, tag)?;
    asm.set_label(l)?;
    let p = copy_plan(way).push(encoder::addi(T2, T2, -1));
    asm.place(p, Tail::One(JumpKind::Bne, l, 0), tag)
}

// More than 16 by the loop.
fn copies(asm: &mut Assembler<'_>, way: Way, states: u32, n: u32, tag: u32) -> Result<(), Refused>
    requires { (states ≤ count_limit) × (n ≤ count_limit) }
    ensures whole { after result asm.new ≡ put tag 0 (Copies_of (is_out way) states n) (before asm.old) }
    ensures lent { SameLent asm.old asm.new }
{
    match n {
        0 => asm.place(Plan::new(), Tail::Nothing, 0),
        1..=16 => straight(asm, way, states, n),
        _ => looped(asm, way, states, n, tag),
    }
}

// ---- the fast frame

fn fast_start(asm: &mut Assembler<'_>, head: Head) -> Result<(), Refused>
    requires { (head.cap ≤ count_limit) × (cells head ≤ count_limit) × (head.states ≤ 8) }
    ensures whole { after result asm.new ≡ put 0 0 (prologue_fast head) (before asm.old) }
    ensures lent { SameLent asm.old asm.new }
{
    let mem = size_of(head.states + head.obs);
    let stack = size_of(head.cap);
    let w = sub_words(mem) + sub_words(stack) + 8 + head.states as usize;
    asm.check_whole(None, &[], &[], w)?;
    asm.place(opening_plan(Frame::Fast), Tail::Nothing, 0)?;
    accesses::sub_stack(asm, mem)?;
    asm.place(accesses::plan([encoder::mv(MEM, SP)]), Tail::Nothing, 0)?;
    accesses::sub_stack(asm, stack)?;
    asm.place(states_plan(head.states), Tail::Nothing, 0)
}

fn fast_end(asm: &mut Assembler<'_>, head: Head) -> Result<(), Refused>
    requires { head.last ≤ result_limit }
    ensures whole { after result asm.new ≡ put 0 0 (epilogue_fast head) (before asm.old) }
    ensures lent { SameLent asm.old asm.new }
{
    let p = accesses::plan([encoder::fld(FA0, MEM, (8 * head.last) as i32)]);
    asm.place(closing_plan(p, Frame::Fast), Tail::Nothing, 0)
}

// ---- the indirect frame

// Registers to their places, the arguments to theirs, and past the copies where there is no table.
fn enter(asm: &mut Assembler<'_>, tag: u32) -> Result<(), Refused>
    ensures whole { after result asm.new ≡ put tag 0 entry (before asm.old) }
    ensures lent { SameLent asm.old asm.new }
{
    asm.check_whole(None, &[AT_SELF], &[AT_MAIN], 14)?;
    asm.set_label(AT_SELF)?;
    asm.place(opening_plan(Frame::Indirect), Tail::Nothing, tag)?;
    let p = accesses::plan([
        encoder::mv(MEM, A0),
        encoder::mv(STATES, A1),
        encoder::mv(IDX, A2),
        encoder::mv(PARAMS, A3),
    ]);
    asm.place(p, Tail::One(JumpKind::Beq, AT_MAIN, 0), tag)
}

// The labels of an indirect prologue: the loop's comes with more than 16 states.
fn start_sets(states: u32) -> &'static [u32]
    ensures { (result.now ≡ at_self ∷ (cond (ltb 16 states) (at_pro ∷ []) [] ++ (at_main ∷ []))) × (sets_fault result.now ≡ 0) }
{
    if 16 < states {
        &[AT_SELF, AT_PRO, AT_MAIN]
    } else {
        &[AT_SELF, AT_MAIN]
    }
}

// Its jumps: past the copies, and the loop's.
fn start_goes(states: u32) -> &'static [u32]
    ensures { result.now ≡ at_main ∷ cond (ltb 16 states) (at_pro ∷ []) [] }
{
    if 16 < states {
        &[AT_MAIN, AT_PRO]
    } else {
        &[AT_MAIN]
    }
}

// Of its epilogue: the loop's comes with more than 16 observations.
fn end_sets(obs: u32) -> &'static [u32]
    ensures { (result.now ≡ cond (ltb 16 obs) (at_epi ∷ []) [] ++ (at_done ∷ [])) × (sets_fault result.now ≡ 0) }
{
    if 16 < obs {
        &[AT_EPI, AT_DONE]
    } else {
        &[AT_DONE]
    }
}

fn end_goes(obs: u32) -> &'static [u32]
    ensures { result.now ≡ at_done ∷ cond (ltb 16 obs) (at_epi ∷ []) [] }
{
    if 16 < obs {
        &[AT_DONE, AT_EPI]
    } else {
        &[AT_DONE]
    }
}

fn indirect_start(asm: &mut Assembler<'_>, head: Head, tag: u32) -> Result<(), Refused>
    requires { (head.cap ≤ count_limit) × (cells head ≤ count_limit) }
    ensures whole { after result asm.new ≡ put tag 0 (prologue_indirect head) (before asm.old) }
    ensures lent { SameLent asm.old asm.new }
{
    let mem = size_of(head.states + head.obs);
    let stack = size_of(head.cap);
    let w = 16
        + sub_words(mem)
        + copy_words(Way::In, head.states, head.states)
        + allocate_words(stack);
    let sets = start_sets(head.states);
    asm.check_whole(None, sets, start_goes(head.states), w)?;
    enter(asm, tag)?;
    accesses::sub_stack(asm, mem)?;
    let p = accesses::plan([encoder::mv(MEM, SP), encoder::slli(IDX, IDX, 3)]);
    asm.place(p, Tail::Nothing, tag)?;
    copies(asm, Way::In, head.states, head.states, tag)?;
    asm.set_label(AT_MAIN)?;
    accesses::allocate_stack(asm, stack)
}

fn indirect_end(asm: &mut Assembler<'_>, head: Head, tag: u32) -> Result<(), Refused>
    requires { cells head ≤ count_limit }
    ensures whole { after result asm.new ≡ put tag 0 (epilogue_indirect head) (before asm.old) }
    ensures lent { SameLent asm.old asm.new }
{
    let w = 12 + copy_words(Way::Out, head.states, head.obs);
    let sets = end_sets(head.obs);
    asm.check_whole(None, sets, end_goes(head.obs), w)?;
    asm.jump(JumpKind::Beq, AT_DONE, 0, tag)?;
    copies(asm, Way::Out, head.states, head.obs, tag)?;
    asm.set_label(AT_DONE)?;
    let p = closing_plan(Plan::new(), Frame::Indirect);
    asm.place(p, Tail::Nothing, tag)
}

// ---- by the frame of line 1

// Where the jumps go; a frame whose counts are refused looks at its labels all the same.
fn prologue_goes(head: Head) -> &'static [u32]
    ensures { result.now ≡ targets (prologue_items head) }
{
    match head.frame {
        Frame::Fast => &[],
        Frame::Indirect => start_goes(head.states),
    }
}

fn epilogue_goes(head: Head) -> &'static [u32]
    ensures { result.now ≡ targets (epilogue_items head) }
{
    match head.frame {
        Frame::Fast => &[],
        Frame::Indirect => end_goes(head.obs),
    }
}

pub fn prologue(asm: &mut Assembler<'_>, head: Head, tag: u32) -> Result<(), Refused>
    ensures whole { after result asm.new ≡ put tag (prologue_fault head) (prologue_items head) (before asm.old) }
    ensures lent { SameLent asm.old asm.new }
{
    if !ast::prologue_holds(head) {
        return asm.check_whole(Some(Fault::Count), &[], prologue_goes(head), 0);
    }
    match head.frame {
        Frame::Fast => fast_start(asm, head),
        Frame::Indirect => indirect_start(asm, head, tag),
    }
}

pub fn epilogue(asm: &mut Assembler<'_>, head: Head, tag: u32) -> Result<(), Refused>
    ensures whole { after result asm.new ≡ put tag (epilogue_fault head) (epilogue_items head) (before asm.old) }
    ensures lent { SameLent asm.old asm.new }
{
    if !ast::epilogue_holds(head) {
        return asm.check_whole(Some(Fault::Count), &[], epilogue_goes(head), 0);
    }
    match head.frame {
        Frame::Fast => fast_end(asm, head),
        Frame::Indirect => indirect_end(asm, head, tag),
    }
}

// ---- by the counts, as in the Rust

// A line 1 with these counts, and no register saved.
fn head_of(frame: Frame, cap: u32, states: u32, obs: u32, last: u32) -> Head
    ensures { result ≡ head_of frame cap states obs last }
{
    Head {
        frame,
        cap,
        states,
        obs,
        last,
        mask: 0,
    }
}

pub fn prologue_fast(
    asm: &mut Assembler<'_>,
    cap: u32,
    states: u32,
    obs: u32,
    last: u32,
) -> Result<(), Refused>
    ensures whole { after result asm.new ≡ prologue_put 0 (head_of Frame.Fast cap states obs last) (before asm.old) }
    ensures lent { SameLent asm.old asm.new }
{
    prologue(asm, head_of(Frame::Fast, cap, states, obs, last), 0)
}

pub fn epilogue_fast(
    asm: &mut Assembler<'_>,
    cap: u32,
    states: u32,
    obs: u32,
    last: u32,
) -> Result<(), Refused>
    ensures whole { after result asm.new ≡ epilogue_put 0 (head_of Frame.Fast cap states obs last) (before asm.old) }
    ensures lent { SameLent asm.old asm.new }
{
    epilogue(asm, head_of(Frame::Fast, cap, states, obs, last), 0)
}

pub fn prologue_indirect(
    asm: &mut Assembler<'_>,
    cap: u32,
    states: u32,
    obs: u32,
    last: u32,
    tag: u32,
) -> Result<(), Refused>
    ensures whole { after result asm.new ≡ prologue_put tag (head_of Frame.Indirect cap states obs last) (before asm.old) }
    ensures lent { SameLent asm.old asm.new }
{
    prologue(asm, head_of(Frame::Indirect, cap, states, obs, last), tag)
}

pub fn epilogue_indirect(
    asm: &mut Assembler<'_>,
    cap: u32,
    states: u32,
    obs: u32,
    last: u32,
    tag: u32,
) -> Result<(), Refused>
    ensures whole { after result asm.new ≡ epilogue_put tag (head_of Frame.Indirect cap states obs last) (before asm.old) }
    ensures lent { SameLent asm.old asm.new }
{
    epilogue(asm, head_of(Frame::Indirect, cap, states, obs, last), tag)
}
