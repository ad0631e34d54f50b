// A refusal in words: the sentences of docs/DECK.md's table, and a refusal's line for standard error.
ghost use Rattle.std.specs.Prelude.{◌≤◌, [], ◌∷◌, ◌++◌, length};
ghost use Rattle.print.specs.Text.{Puts};
ghost use Rattle.print.specs.Writer.{HasRoom, Wrote};
ghost use Rattle.print.specs.Reason.{refusal_text, reason_front, reason_line};

use crate::{TooLong, Writer};

// s from the first byte on.
pub fn put_text(s: &[u8], out: &mut [u8]) -> Result<usize, TooLong>
    ensures { Puts s.now 0 out.old result out.new }
{
    let n = crate::room(out, 0, s.len())?;
    Writer { out, at: 0 }.bytes(s);
    Ok(n)
}

// The sentence of a number of refusal; no byte where there is no such number.
// Numbers, since the C interface asks by number, and 14 is none of `Refusal`.
pub fn refusal_text(number: u32, out: &mut [u8]) -> Result<usize, TooLong>
    ensures { Puts (refusal_text number) 0 out.old result out.new × (length (refusal_text number) ≤ 80) }
{
    match number {
        1 => put_text(
            b"register: a register is above 31, or a pair of them starts at 31",
            out,
        ),
        2 => put_text(
            b"value: a number is out of range, or record, labels or jumps are unsound",
            out,
        ),
        3 => put_text(b"label: a label is above 1023", out),
        4 => put_text(
            b"twice: this label is set already, or this constant is there already",
            out,
        ),
        5 => put_text(
            b"unset: a branch's label is not set, or a loaded constant is not there",
            out,
        ),
        6 => put_text(b"far: a short jump does not reach its label", out),
        7 => put_text(
            b"full: the code or its jumps do not fit, or the file exceeds 65536 bytes",
            out,
        ),
        8 => put_text(
            b"closed: the code is finished already, and takes no more orders",
            out,
        ),
        9 => put_text(
            b"count: a count is too large, or a cell or constant has no such number",
            out,
        ),
        10 => put_text(
            b"base: an access that computes its address in t0 has t0 as its base",
            out,
        ),
        11 => put_text(
            b"unsaved: line 1 must save the register, or the cell keeps a saved one",
            out,
        ),
        12 => put_text(
            b"line: the line is missing, has a wrong form or end, or cannot stand here",
            out,
        ),
        14 => put_text(
            b"foreign: no instruction here has the word, or the last word is cut short",
            out,
        ),
        _ => Ok(0),
    }
}

// What stands before a sentence.
#[tactic(auto, using(crate::proofs::Sentences::length_front))]
fn put_front(number: u64, line: u64, w: &mut Writer)
    requires { HasRoom (reason_front number line) w.old }
    ensures { Wrote (reason_front number line) w.old w.new }
{
    w.bytes(b"line ");
    w.decimal(line);
    w.bytes(b": ");
    w.decimal(number);
    w.bytes(b", ");
}

fn put_reason(number: u8, line: u32, text: &[u8], out: &mut [u8]) -> Result<usize, TooLong>
    requires { length text.now ≤ 80 }
    ensures { Puts (reason_front number line ++ (text.now ++ (10 ∷ []))) 0 out.old result out.new }
{
    let number = number as u64;
    let line = line as u64;
    let length = crate::decimal_length(line) + crate::decimal_length(number) + text.len() + 10;
    let k = crate::room(out, 0, length)?;
    let mut w = Writer { out, at: 0 };
    put_front(number, line, &mut w);
    w.bytes(text);
    w.byte(b'\n');
    Ok(k)
}

// A refusal's line, number and sentence, for standard error.
pub fn reason_line(number: u8, line: u32, out: &mut [u8]) -> Result<usize, TooLong>
    ensures { Puts (reason_line number line) 0 out.old result out.new }
{
    let mut text = [0u8; 80];
    // It is `Ok`: no sentence is longer than 80 bytes.
    let n = refusal_text(number as u32, &mut text)?;
    put_reason(number, line, &text[..n], out)
}
