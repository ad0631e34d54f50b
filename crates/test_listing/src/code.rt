// A code, or a deck file, is put together piece by piece: a row's words or text, so many times, or one byte.
use crate::row::{column, columns};
use test_rows::Bytes;

// Bytes of the code's memory.
pub const CODE: usize = 131072;

// Words of a row, at most.
const WORDS: usize = 6;

// Where a row's text starts, behind two columns.
const TEXT: usize = 20;

pub type Code = Bytes<CODE>;

// A piece of so many bytes has room so many times.
fn fits(times: u32, bytes: usize, code: &Code) -> bool {
    (times as usize)
        .checked_mul(bytes)
        .is_some_and(|n| n <= code.room())
}

// The first so many words of a row, at most WORDS.
fn row_words(s: &[u8], count: usize) -> Option<[u32; WORDS]> {
    if count > WORDS {
        return None;
    }
    let mut words = [0; WORDS];
    for i in 0..count {
        words[i] = column(s, 2 + i)?;
    }
    Some(words)
}

// Words more, if the row can be read and there is room.
pub(crate) fn add_words(s: &[u8], code: &mut Code) -> Option<()> {
    let [times, count] = columns::<2>(s)?;
    let words = row_words(s, count as usize)?;
    let words = words.get(..count as usize)?;
    if !fits(times, 4 * words.len(), code) {
        return None;
    }
    for _ in 0..times {
        for w in words {
            for b in w.to_le_bytes() {
                code.push(b);
            }
        }
    }
    Some(())
}

// One byte more, if the row can be read and there is room.
pub(crate) fn add_byte(s: &[u8], code: &mut Code) -> Option<()> {
    let b = u8::try_from(column(s, 0)?).ok()?;
    if code.room() == 0 {
        return None;
    }
    code.push(b);
    Some(())
}

// A row's text, behind its times and its length.
pub(crate) fn text(s: &[u8], count: usize) -> Option<&[u8]> {
    s.get(TEXT..TEXT.checked_add(count)?)
}

// Text more, if the row can be read and there is room.
pub(crate) fn add_text(s: &[u8], code: &mut Code) -> Option<()> {
    let [times, count] = columns::<2>(s)?;
    let t = text(s, count as usize)?;
    if t.is_empty() || !fits(times, t.len(), code) {
        return None;
    }
    for _ in 0..times {
        code.push_text(t);
    }
    Some(())
}
