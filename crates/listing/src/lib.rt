// The listing (document 02, points 5 and 10): code, and a deck file's routine, as text for the screen. It rests on what the routine promises.
#![tactic(auto)]

ghost use Rattle.std.specs.Prelude.{◌≡◌, ◌&&◌, ◌≤◌, ◌*◌, ◌/◌, ◌%◌, eqb, leb, length};
ghost use Rattle.std.proofs.Math.Option.{get_or};
ghost use Rattle.refusal.specs.Answer.{refused};
ghost use Rattle.print.specs.Text.{Puts, words_of};
ghost use Rattle.print.specs.Listing.{foreign_from};
ghost use Rattle.routine.specs.Routine.{program_of, summary_answer};
ghost use Rattle.routine.specs.Answer.{routine_answer};
ghost use Rattle.listing.specs.Listing.{text_of, listed, Lists, deck_listing};
ghost use Rattle.listing.specs.Views.{deck_view};
ghost use Rattle.listing.specs.Inner.Listing.{summary_view, Says};
ghost use Rattle.listing.specs.Inner.Marks.{hidden_by};

mod marks;

use print::TooLong;
use refusal::Refused;
use routine::Outline;

// Document 02's numbers for what isn't listed.
const VALUE: u8 = 2;

const FOREIGN: u8 = 14;

// The bytes of a buffer that count.
const ROOM: usize = 65536;

// Why code is not listed: 2 for the constants' offset, or 14 for the word at this place.
#[derive(Clone, Copy, Debug, PartialEq, Eq)]
pub enum CodeError {
    Offset,
    Foreign(usize),
}

// The answer, and how long the text is that was put into the buffer.
#[derive(Clone, Copy)]
pub struct CodeListing {
    pub answer: Result<(), CodeError>,
    pub text: Result<usize, TooLong>,
}

// Who looks at a deck file's listing.
#[derive(Clone, Copy)]
pub enum View {
    Maintainer,
    Attendant,
}

// The routine's answer to a file, and how long its listing is.
#[derive(Clone, Copy)]
pub struct DeckListing {
    pub answer: Result<Outline, Refused>,
    pub text: Result<usize, TooLong>,
}

// Constants may start at `constants` in n bytes of code.
fn is_offset(n: usize, constants: usize) -> bool
    ensures { result ≡ (leb constants n && eqb (constants % 4) 0) }
{
    if constants > n {
        return false;
    }
    constants % 4 == 0
}

fn bad_offset(out: &mut [u8]) -> CodeListing
    ensures { Lists (refused 2 0) out.old result out.new }
{
    let text = print::refusal_line(VALUE, 0, out);
    CodeListing {
        answer: Err(CodeError::Offset),
        text,
    }
}

fn foreign(place: usize, out: &mut [u8]) -> CodeListing
    ensures { Lists (refused 14 place) out.old result out.new }
{
    let text = print::refusal_line(FOREIGN, place as u64, out);
    CodeListing {
        answer: Err(CodeError::Foreign(place)),
        text,
    }
}

// Where the refused word stands in code whose last one is cut short.
fn cut_place(code: &[u8], constants: usize) -> usize
    ensures { result ≡ get_or (foreign_from constants 0 (words_of code.now)) (length code.now / 4 * 4) }
{
    let first = print::first_foreign(code, constants);
    match first {
        Some(place) => place,
        None => code.len() / 4 * 4,
    }
}

// The listing of code whose constants start at `constants`, or the refusal's line: a text whole in `out`, or not at all.
// 475,136 bytes are enough for 65,536 bytes of code.
pub fn code_listing(code: &[u8], constants: usize, out: &mut [u8]) -> CodeListing
    ensures { Lists (listed code.now constants) out.old result out.new
        × (length code.now ≤ 65536 → length (text_of (listed code.now constants)) ≤ 475136) }
{
    if !is_offset(code.len(), constants) {
        return bad_offset(out);
    }
    if code.len() % 4 != 0 {
        return foreign(cut_place(code, constants), out);
    }
    let first = print::first_foreign(code, constants);
    match first {
        Some(place) => foreign(place, out),
        None => {
            let text = print::lines_text(code, constants, out);
            CodeListing {
                answer: Ok(()),
                text,
            }
        }
    }
}

// The lines of the routine's code, which stands in the buffer, or the refusal. None of its words is foreign (`NeverRefused`).
fn answer_text(
    view: View,
    file: &[u8],
    answer: Result<Outline, Refused>,
    code: &[u8],
    out: &mut [u8],
) -> Result<usize, TooLong>
    ensures { Says (summary_view (hidden_by view file.now) (routine_answer answer) code.now)
        code.now out.old result out.new }
{
    match answer {
        Ok(told) => {
            let hidden = marks::hidden(view, file);
            let n = told.length as usize;
            if n > code.len() {
                return print::view_text(code, told.offset as usize, &hidden, out);
            }
            print::view_text(&code[..n], told.offset as usize, &hidden, out)
        }
        Err(refused) => print::refusal_line(
            refusal::number(refused.why),
            refused.place as u64,
            out,
        ),
    }
}

// What a view shows of a deck file: the listing of its routine, or the refusal; whole in `out`, or not at all.
pub fn deck_view(file: &[u8], view: View, out: &mut [u8]) -> DeckListing
    ensures { Puts (deck_view view file.now) 0 out.old result.text out.new
        × (routine_answer result.answer ≡ summary_answer (program_of 65536 file.now))
        × (length (deck_view view file.now) ≤ 475136) }
{
    let mut code = [0u8; ROOM];
    let answer = routine::routine(file, &mut code);
    let text = answer_text(view, file, answer, &code, out);
    DeckListing { answer, text }
}

// The listing of a deck file's routine, as its maintainer sees it, or the refusal.
pub fn deck_listing(file: &[u8], out: &mut [u8]) -> DeckListing
    ensures { Puts (deck_listing file.now) 0 out.old result.text out.new
        × (routine_answer result.answer ≡ summary_answer (program_of 65536 file.now))
        × (length (deck_listing file.now) ≤ 475136) }
{
    deck_view(file, View::Maintainer, out)
}
