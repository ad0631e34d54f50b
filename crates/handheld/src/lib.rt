// Deck files and single orders for a caller in C or Rust: numbers and lent memory (include/handheld.h).
#![tactic(auto)]

ghost use Rattle.std.specs.Prelude.{◌≡◌, List, [], ℕ};
ghost use Rattle.refusal.specs.Number.{number_of};
ghost use Rattle.form.specs.Grammar.{said};
ghost use Rattle.deck.specs.Inner.Forms.{form_judged};
ghost use Rattle.assembler.specs.State.{SameLent, emit_answer, before, after};
ghost use Rattle.assembler.specs.Put.{put};
ghost use Rattle.finish.specs.Finish.{finish};
ghost use Rattle.routine.specs.Answer.{routine_answer};
ghost use Rattle.print.specs.Text.{length_in, put_in};
ghost use Rattle.answer.specs.Answer.{deck_text};
ghost use Rattle.print.specs.Reason.{refusal_text};
ghost use Rattle.listing.specs.Listing.{code_answer, listed, deck_listing};
ghost use Rattle.listing.specs.Views.{deck_view};
ghost use Rattle.handheld.specs.Numbers.{number, place, frame_number, deck_numbers, Deck, DeckIn, text_number};
ghost use Rattle.handheld.specs.Numbers.{CodeTold, listing_numbers, DeckListed, view_of};
ghost use Rattle.handheld.specs.Single.{constant_of, says, line_put, constant_put};
ghost use Rattle.handheld.specs.Single.{asm_of, numbers_of, record_after, order_outcome, finish_outcome, finish_told};
ghost use Rattle.handheld.specs.Single.{single_before, single_after, finish_before, finish_after};
ghost use Rattle.unused.specs.Unused.{listed as unused_listed};
ghost use Rattle.handheld.specs.Single.{UnusedTold};
ghost use Rattle.handheld.specs.Inner.Forms.{field_of, form_says};

use assembler::{Asm, Assembler, Fault, Jumps, LABELS, Labels};
use ast::{Constant, Frame, Order};
use deck::Line;
use form::Form;
use listing::{CodeError, View};
use print::TooLong;
use refusal::{Refusal, Refused};
use routine::Outline;
use text::Number;

// ---- a deck file

fn frame_number(f: Frame) -> u32
    ensures { result ≡ frame_number f }
{
    match f {
        Frame::Fast => 0,
        Frame::Indirect => 1,
    }
}

// Number, line, length, the constants' offset and count, jump count, frame.
fn numbers(a: Result<Outline, Refused>) -> [u32; 7]
    ensures { result ≡ deck_numbers (routine_answer a) }
{
    match a {
        Ok(told) => {
            let f = frame_number(told.frame);
            [
                0,
                0,
                told.length,
                told.offset,
                told.constants,
                told.jumps,
                f,
            ]
        }
        Err(refused) => {
            let n = refusal::number(refused.why) as u32;
            [n, refused.place, 0, 0, 0, 0, 0]
        }
    }
}

fn answer_number(a: Result<Outline, Refused>) -> u32
    ensures { result ≡ number (routine_answer a) }
{
    match a {
        Ok(_) => 0,
        Err(refused) => refusal::number(refused.why) as u32,
    }
}

// The routine of a file in a buffer: 0, or the number of the refusal.
#[unsafe(no_mangle)]
pub extern "C" fn deck_emit(file: &[u8], buf: &mut [u8], told: &mut [u32; 7]) -> u32
    ensures { Deck file.now buf.old result told.new buf.new }
{
    let a = routine::routine(file, buf);
    *told = numbers(a);
    answer_number(a)
}

// The same in lent label and jump memory.
#[unsafe(no_mangle)]
pub extern "C" fn deck_emit_in(
    file: &[u8],
    buf: &mut [u8],
    labels: &mut Labels,
    jumps: &mut Jumps,
    told: &mut [u32; 7],
) -> u32
    ensures { DeckIn file.now result told labels jumps buf }
{
    let a = routine::routine_in(file, buf, labels, jumps).answer;
    *told = numbers(a);
    answer_number(a)
}

// What `deckwords` prints of a file: the text's length, or 0 and nothing written where `out` is too short.
#[unsafe(no_mangle)]
pub extern "C" fn deck_text(file: &[u8], out: &mut [u8]) -> usize
    ensures { (result ≡ text_number (length_in (deck_text file.now) 0 out.old))
        × (out.new ≡ put_in (deck_text file.now) 0 out.old) }
{
    answer::deck_text(file, out).unwrap_or(0)
}

// A refusal in words: the text's length, or 0 and nothing written where `out` is too short or there is no such number.
#[unsafe(no_mangle)]
pub extern "C" fn refusal_text(number: u32, out: &mut [u8]) -> usize
    ensures { (result ≡ text_number (length_in (refusal_text number) 0 out.old))
        × (out.new ≡ put_in (refusal_text number) 0 out.old) }
{
    print::refusal_text(number, out).unwrap_or(0)
}

// ---- a listing

fn text_number(t: Result<usize, TooLong>) -> u64
    ensures { result ≡ text_number t }
{
    t.unwrap_or(0) as u64
}

fn code_number(a: Result<(), CodeError>) -> u32
    ensures { (text : List ℕ) → result ≡ number (code_answer a text) }
{
    match a {
        Ok(()) => 0,
        Err(CodeError::Offset) => 2,
        Err(CodeError::Foreign(_)) => 14,
    }
}

fn code_place(a: Result<(), CodeError>) -> u64
    ensures { (text : List ℕ) → result ≡ place (code_answer a text) }
{
    match a {
        Ok(()) | Err(CodeError::Offset) => 0,
        Err(CodeError::Foreign(place)) => place as u64,
    }
}

// The listing of code whose constants start at `offset`: 0, or the number of the refusal.
#[unsafe(no_mangle)]
pub extern "C" fn code_listing(
    code: &[u8],
    offset: usize,
    out: &mut [u8],
    told: &mut [u64; 2],
) -> u32
    ensures { CodeTold (listed code.now offset) result told.new out.old out.new }
{
    let l = listing::code_listing(code, offset, out);
    let a = l.answer;
    let t = l.text;
    *told = [code_place(a), text_number(t)];
    code_number(a)
}

// The refusal's line, the code's length, the text's length.
fn listing_numbers(a: Result<Outline, Refused>, text: Result<usize, TooLong>) -> [u64; 3]
    ensures { result ≡ listing_numbers (routine_answer a) (text_number text) }
{
    let k = text_number(text);
    match a {
        Ok(told) => [0, told.length as u64, k],
        Err(refused) => [refused.place as u64, 0, k],
    }
}

// The listing of a deck file's routine, as its maintainer sees it: 0, or the number of the refusal.
#[unsafe(no_mangle)]
pub extern "C" fn deck_listing(file: &[u8], out: &mut [u8], told: &mut [u64; 3]) -> u32
    ensures { DeckListed file.now (deck_listing file.now) result told.new out.old out.new }
{
    let l = listing::deck_listing(file, out);
    let a = l.answer;
    let t = l.text;
    *told = listing_numbers(a, t);
    answer_number(a)
}

// A wrong number hides.
fn view_of(n: u32) -> View
    ensures { result ≡ view_of n }
{
    if n == 0 {
        return View::Maintainer;
    }
    View::Attendant
}

// The same in a view: 0 is the maintainer's, any other number the attendant's.
#[unsafe(no_mangle)]
pub extern "C" fn deck_view(file: &[u8], view: u32, out: &mut [u8], told: &mut [u64; 3]) -> u32
    ensures { DeckListed file.now (deck_view (view_of view) file.now) result
        told.new out.old out.new }
{
    let l = listing::deck_view(file, view_of(view), out);
    let a = l.answer;
    let t = l.text;
    *told = listing_numbers(a, t);
    answer_number(a)
}

// ---- single orders

// What a line says: an order, a constant, a float beyond 2^53, or none of these.
#[derive(Clone, Copy)]
pub enum Said {
    Order(Order),
    Constant(Constant),
    TooBig,
    Other,
}

// A number in 32 bits; their largest for any larger one, since no field of an order takes that.
fn field(n: Number) -> u32
    ensures { result ≡ field_of n }
{
    match n {
        Number::Value(v) => v.min(0xFFFFFFFF) as u32,
        Number::TooBig => 0xFFFFFFFF,
    }
}

// The constant of a `float` or `bits` line.
fn constant(form: Form) -> Said
    ensures { result ≡ constant_of (form_judged form) }
{
    match deck::judge(form) {
        Ok(Line::Constant(c)) => Said::Constant(c),
        Ok(Line::Order(_) | Line::Head(_)) => Said::Other,
        Err(_) => Said::TooBig,
    }
}

#[tactic(auto, using(crate::proofs::Forms::says_form, crate::proofs::Forms::says_none))]
fn says(line: &[u8]) -> Said
    ensures { result ≡ says (said line.now) }
{
    match form::read_form(line) {
        Some(form) => form_says(form),
        None => Said::Other,
    }
}

#[tactic(auto, unfolding(crate::specs::Inner::Forms::form_says))]
fn form_says(form: Form) -> Said
    ensures { result ≡ form_says form }
{
    match form {
        Form::Unary(u, d, s) => Said::Order(Order::Unary(u, field(d), field(s))),
        Form::Scratched(u, d, s, t) => {
            Said::Order(Order::Scratched(u, field(d), field(s), field(t)))
        }
        Form::Binary(u, d, s, t) => Said::Order(Order::Binary(u, field(d), field(s), field(t))),
        Form::Fused(u, d, s, t, v) => {
            Said::Order(Order::Fused(u, field(d), field(s), field(t), field(v)))
        }
        Form::Ifelse(d, s, t, i) => {
            Said::Order(Order::Ifelse(field(d), field(s), field(t), field(i)))
        }
        Form::LoadConst(d, k) => Said::Order(Order::LoadConst(field(d), field(k))),
        Form::Load(d, p, i) => Said::Order(Order::Load(field(d), p, field(i))),
        Form::Save(s, p, i) => Said::Order(Order::Save(field(s), p, field(i))),
        Form::BranchIf(c, l, e) => Said::Order(Order::BranchIf(field(c), field(l), e)),
        Form::SetLabel(l) => Said::Order(Order::SetLabel(field(l))),
        Form::Float(_, _) | Form::Bits(_) => constant(form),
        Form::Head(_, _, _, _, _, _) => Said::Other,
    }
}

// Neither an order nor a constant, where one is asked for.
const NO_SUCH: Refused = Refused {
    why: Refusal::Line,
    place: 0,
};

// A float beyond 2^53: 8, or else 2.
#[tactic(auto, unfolding(assembler::specs::Put::labels, assembler::specs::Put::targets, assembler::specs::Put::words, assembler::specs::Put::put, assembler::specs::Put::placed))]
fn too_big(asm: &Assembler<'_>) -> Result<(), Refused>
    ensures { after result asm.now ≡ put 0 (number_of Refusal.Value) [] (before asm.now) }
{
    asm.check_whole(Some(Fault::Value), &[], &[], 0)
}

// A line's order.
#[tactic(auto, unfolding(crate::specs::Single::line_put))]
fn put_line(asm: &mut Assembler<'_>, line: &[u8], tag: u32) -> Result<(), Refused>
    ensures whole { after result asm.new ≡ line_put tag (said line.now) (before asm.old) }
    ensures lent { SameLent asm.old asm.new }
{
    match says(line) {
        Said::Order(o) => orders::emit(asm, o, tag),
        Said::Constant(_) | Said::TooBig | Said::Other => Err(NO_SUCH),
    }
}

// A line's constant, as constant k.
#[tactic(auto, unfolding(crate::specs::Single::constant_put))]
fn put_constant(asm: &mut Assembler<'_>, line: &[u8], k: u32) -> Result<(), Refused>
    ensures whole { after result asm.new ≡ constant_put k (said line.now) (before asm.old) }
    ensures lent { SameLent asm.old asm.new }
{
    match says(line) {
        Said::Constant(c) => asm.append_const(k, c),
        Said::TooBig => too_big(asm),
        Said::Order(_) | Said::Other => Err(NO_SUCH),
    }
}

// ---- the record of three numbers

fn asm_of(rec: &[u64; 3]) -> Asm
    ensures { result ≡ asm_of rec.now }
{
    Asm {
        len: rec[0] as usize,
        jumps: rec[1] as usize,
        closed: rec[2] != 0,
    }
}

fn numbers_of(asm: Asm) -> [u64; 3]
    ensures { result ≡ numbers_of asm }
{
    [asm.len as u64, asm.jumps as u64, asm.closed as u64]
}

// The answer's number; the record's numbers anew, if it is no refusal.
fn kept(answer: Result<(), Refused>, asm: Asm, rec: &mut [u64; 3]) -> u32
    ensures { (result ≡ number (emit_answer answer))
        × (rec.new ≡ record_after (emit_answer answer) asm rec.old) }
{
    match answer {
        Ok(()) => {
            *rec = numbers_of(asm);
            0
        }
        Err(refused) => refusal::number(refused.why) as u32,
    }
}

// One order by its line, byte 10 included: 0, or the number of the refusal. `tag` is kept with each jump.
#[unsafe(no_mangle)]
pub extern "C" fn order_emit(
    line: &[u8],
    tag: u32,
    buf: &mut [u8],
    labels: &mut Labels,
    jumps: &mut Jumps,
    rec: &mut [u64; 3],
) -> u32
    ensures { single_after result rec labels jumps buf ≡ order_outcome (line_put tag (said line.now)) rec labels jumps buf }
{
    let asm = asm_of(rec);
    let mut a = Assembler {
        buf,
        labels,
        jumps,
        asm,
    };
    let answer = put_line(&mut a, line, tag);
    kept(answer, a.asm, rec)
}

// The constant of a `float` or `bits` line, byte 10 included, as constant k: 0, or the number of the refusal.
#[unsafe(no_mangle)]
pub extern "C" fn order_constant(
    line: &[u8],
    k: u32,
    buf: &mut [u8],
    labels: &mut Labels,
    jumps: &mut Jumps,
    rec: &mut [u64; 3],
) -> u32
    ensures { single_after result rec labels jumps buf ≡ order_outcome (constant_put k (said line.now)) rec labels jumps buf }
{
    let asm = asm_of(rec);
    let mut a = Assembler {
        buf,
        labels,
        jumps,
        asm,
    };
    let answer = put_constant(&mut a, line, k);
    kept(answer, a.asm, rec)
}

// Finishing: 0, or the number of the refusal, with its place and the jump's tag.
#[unsafe(no_mangle)]
pub extern "C" fn order_finish(
    buf: &mut [u8],
    labels: &Labels,
    jumps: &Jumps,
    rec: &mut [u64; 3],
    told: &mut [u32; 2],
) -> u32
    ensures { (finish_after result rec labels jumps buf ≡ finish_outcome rec (finish (finish_before rec labels jumps buf)))
        × (told.new ≡ finish_told (finish (finish_before rec labels jumps buf))) }
{
    let mut asm = asm_of(rec);
    match finish::apply_jumps(buf, labels, jumps, &mut asm) {
        Ok(()) => {
            *told = [0, 0];
            *rec = numbers_of(asm);
            0
        }
        Err(e) => {
            *told = [e.refused.place, e.tag];
            refusal::number(e.refused.why) as u32
        }
    }
}

// The labels that are set and that no jump goes to, behind an accepted finish: 0 and how many, or the number of the refusal.
#[unsafe(no_mangle)]
pub extern "C" fn label_unused(
    labels: &Labels,
    rec: &[u64; 3],
    out: &mut [u32; LABELS],
    told: &mut [u32; 1],
) -> u32
    ensures { UnusedTold (unused_listed labels.now (asm_of rec.now)) result
        told.old told.new out.old out.new }
{
    match unused::unused_labels(labels, asm_of(rec), out) {
        Ok(n) => {
            *told = [n];
            0
        }
        Err(refused) => refusal::number(refused.why) as u32,
    }
}
