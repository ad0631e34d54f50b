// A deck is put together piece by piece: a row's text, or one byte, so many times.
use crate::row::column;
use test_rows::Bytes;

// Bytes of the lent memories: more than a file or a buffer that counts may have.
pub const ROOM: usize = 70016;

// A piece comes at most so often.
const TIMES: u32 = 70016;

// Where a row's text starts.
const TEXT: usize = 20;

pub type Deck = Bytes<ROOM>;

// How often a row's piece comes.
fn times(s: &[u8]) -> Option<u32> {
    column(s, 0).filter(|n| *n <= TIMES)
}

fn text(s: &[u8]) -> Option<&[u8]> {
    let count = column(s, 1)?;
    if count > 107 {
        return None;
    }
    s.get(TEXT..TEXT + count as usize)
}

// A row of text. What can't be read adds nothing.
pub(crate) fn add_text(s: &[u8], deck: &mut Deck) {
    if let Some(times) = times(s)
        && let Some(text) = text(s)
    {
        for _ in 0..times {
            deck.push_text(text);
        }
    }
}

// A row of one byte, whichever it is. What can't be read adds nothing.
pub(crate) fn add_byte(s: &[u8], deck: &mut Deck) {
    if let Some(times) = times(s)
        && let Some(value) = column(s, 1)
        && let Ok(b) = u8::try_from(value)
    {
        for _ in 0..times {
            deck.push(b);
        }
    }
}
