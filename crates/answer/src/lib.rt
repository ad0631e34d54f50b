// The routine's answer as text.
#![tactic(auto)]

ghost use Rattle.std.specs.Prelude.{◌≤◌, length};
ghost use Rattle.print.specs.Text.{Puts};
ghost use Rattle.routine.specs.Answer.{routine_answer};
ghost use Rattle.answer.specs.Answer.{answer_text, deck_text, reason_of, deck_reason};

mod printed;

use print::TooLong;
pub use printed::{Messages, print_answer};
use refusal::Refused;
use routine::Outline;

// How long the two texts are that were made of a file.
#[derive(Clone, Copy)]
pub struct DeckAnswer {
    pub text: Result<usize, TooLong>,
    pub reason: Result<usize, TooLong>,
}

// The bytes of a buffer that count, and with them a file's.
const ROOM: usize = 65536;

// A line for each word of the code's length, or the refusal; whole, or not at all. 245,760 bytes are enough.
pub fn answer_text(
    answer: Result<Outline, Refused>,
    code: &[u8],
    out: &mut [u8],
) -> Result<usize, TooLong>
    ensures { Puts (answer_text (routine_answer answer) code.now) 0 out.old result out.new
        × (length code.now ≤ 65536 → length (answer_text (routine_answer answer) code.now) ≤ 245760) }
{
    match answer {
        Ok(told) => {
            let n = told.length as usize;
            if n > code.len() {
                return print::words_text(code, out);
            }
            print::words_text(&code[..n], out)
        }
        Err(refused) => print::refusal_line(
            refusal::number(refused.why),
            refused.place as u64,
            out,
        ),
    }
}

// All that is printed of a file: at most 16,384 lines of 15 bytes.
pub fn deck_text(file: &[u8], out: &mut [u8]) -> Result<usize, TooLong>
    ensures { Puts (deck_text file.now) 0 out.old result out.new
        × (length (deck_text file.now) ≤ 245760) }
{
    let mut code = [0u8; ROOM];
    let a = routine::routine(file, &mut code);
    answer_text(a, &code, out)
}

// A refusal in words, for standard error; nothing of an accepted routine. 128 bytes are enough.
pub fn reason_text(answer: Result<Outline, Refused>, out: &mut [u8]) -> Result<usize, TooLong>
    ensures { Puts (reason_of (routine_answer answer)) 0 out.old result out.new
        × (length (reason_of (routine_answer answer)) ≤ 128) }
{
    match answer {
        Ok(_) => Ok(0),
        Err(refused) => print::reason_line(refusal::number(refused.why), refused.place, out),
    }
}

// Both texts of a file: what goes to standard output into `out`, what goes to standard error into `err`.
pub fn deck_answer(file: &[u8], out: &mut [u8], err: &mut [u8]) -> DeckAnswer
    ensures { Puts (deck_text file.now) 0 out.old result.text out.new
        × Puts (deck_reason file.now) 0 err.old result.reason err.new
        × (length (deck_text file.now) ≤ 245760) × (length (deck_reason file.now) ≤ 128) }
{
    let mut code = [0u8; ROOM];
    let a = routine::routine(file, &mut code);
    let text = answer_text(a, &code, out);
    let reason = reason_text(a, err);
    DeckAnswer { text, reason }
}
