// Numbers, words and refusals as text in a lent buffer.
#![tactic(auto)]

ghost use Rattle.std.specs.Prelude.{◌≡◌, List, ℕ, ◌+◌, ◌≤◌, ◌<◌, leb, length};
ghost use Rattle.text.specs.Digits.{digit_byte, decimal};
ghost use Rattle.print.specs.Text.{Puts, length_in, hex, word_line, code_lines, refusal_line};
ghost use Rattle.print.specs.Writer.{HasRoom, Wrote};
ghost use Rattle.print.specs.Inner.Text.{word_in};

mod listing;
mod reason;
mod writer;

pub use listing::{first_foreign, lines_text, view_text};
pub use reason::{put_text, reason_line, refusal_text};
pub use writer::Writer;

// A text has no room, and nothing of it is put.
#[derive(Clone, Copy, Debug, PartialEq, Eq)]
pub struct TooLong;

fn glyph(d: u64) -> u8
    requires { d < 16 }
    ensures { result ≡ digit_byte d }
{
    if d < 10 { 48 + d as u8 } else { 87 + d as u8 }
}

// How many decimal digits n has.
fn decimal_length(n: u64) -> usize
    ensures { (result ≡ length (decimal n)) × (result ≤ 20) }
{
    match n.checked_ilog10() {
        Some(k) => k as usize + 1,
        None => 1,
    }
}

// The length of a text of n bytes, if there is room for it behind at.
fn room(out: &[u8], at: usize, n: usize) -> Result<usize, TooLong>
    ensures { (text : List ℕ) → n ≡ length text → result ≡ length_in text at out.now }
{
    if at > out.len() || n > out.len() - at {
        return Err(TooLong);
    }
    Ok(n)
}

// n in decimal, from byte at on.
pub fn decimal(n: u64, out: &mut [u8], at: usize) -> Result<usize, TooLong>
    ensures { Puts (decimal n) at out.old result out.new }
{
    let k = room(out, at, decimal_length(n))?;
    Writer { out, at }.decimal(n);
    Ok(k)
}

// A word in 8 hexadecimal digits, from byte at on.
pub fn hex(word: u32, out: &mut [u8], at: usize) -> Result<usize, TooLong>
    ensures { Puts (hex word) at out.old result out.new }
{
    let k = room(out, at, 8)?;
    Writer { out, at }.hex(word);
    Ok(k)
}

// ---- all words of the code

#[tactic(auto, using(crate::proofs::Lines::length_word_line, crate::proofs::Lines::length_hex))]
fn put_word_line(offset: u64, word: u32, w: &mut Writer)
    requires { HasRoom (word_line offset word) w.old }
    ensures { Wrote (word_line offset word) w.old w.new }
{
    w.decimal(offset);
    w.byte(b',');
    w.hex(word);
    w.byte(b'\n');
}

fn word_at(code: &[u8], i: usize) -> u32
    requires { i + 4 ≤ length code.now }
    ensures { result ≡ word_in code.now i }
{
    u32::from_le_bytes([code[i], code[i + 1], code[i + 2], code[i + 3]])
}

// Whether the words' lines fit into room bytes.
fn words_fit(code: &[u8], room: usize) -> bool
    ensures { result ≡ leb (length (code_lines code.now)) room }
{
    let mut left = room;
    for j in 0..code.len() / 4 {
        let k = decimal_length(4 * j as u64) + 10;
        if left < k {
            return false;
        }
        left -= k;
    }
    true
}

fn put_words(code: &[u8], w: &mut Writer)
    requires { HasRoom (code_lines code.now) w.old }
    ensures { Wrote (code_lines code.now) w.old w.new }
{
    for j in 0..code.len() / 4 {
        put_word_line(4 * j as u64, word_at(code, 4 * j), w);
    }
}

// A line for each word of the code: its byte offset and the word.
pub fn words_text(code: &[u8], out: &mut [u8]) -> Result<usize, TooLong>
    ensures { Puts (code_lines code.now) 0 out.old result out.new }
{
    if !words_fit(code, out.len()) {
        return Err(TooLong);
    }
    let mut w = Writer { out, at: 0 };
    put_words(code, &mut w);
    Ok(w.at)
}

// ---- a refusal

#[tactic(auto, using(crate::proofs::Lines::length_refusal_line))]
fn put_refusal_line(number: u64, line: u64, w: &mut Writer)
    requires { HasRoom (refusal_line number line) w.old }
    ensures { Wrote (refusal_line number line) w.old w.new }
{
    w.bytes(b"refused,");
    w.decimal(number);
    w.byte(b',');
    w.decimal(line);
    w.byte(b'\n');
}

// A refusal's number and line, or place.
pub fn refusal_line(number: u8, line: u64, out: &mut [u8]) -> Result<usize, TooLong>
    ensures { Puts (refusal_line number line) 0 out.old result out.new }
{
    let number = number as u64;
    let k = room(out, 0, decimal_length(number) + decimal_length(line) + 10)?;
    put_refusal_line(number, line, &mut Writer { out, at: 0 });
    Ok(k)
}
