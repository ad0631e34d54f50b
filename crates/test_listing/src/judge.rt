// Rows, one by one: a code or a deck file is put together, listed, and its answer and text compared.
use crate::code::Code;
use crate::row::{column, columns};
use listing::{CodeError, CodeListing, DeckListing, View};
use print::TooLong;
use test_rows::Outcome;

// Bytes of the text's memory.
pub const ROOM: usize = 524288;

// Bytes of the memory for one word's text.
const ALONE: usize = 64;

// What stands in a buffer before the listing has it; no text has this byte.
const MARK: u8 = 165;

// Codes and files that were accepted.
#[derive(Clone, Copy, Default)]
pub struct Accepted {
    pub codes: u64,
    pub views: u64,
}

// ---- answers as numbers

// The number of refusal or 0, its place, and the text's length unless it is too long.
#[derive(Clone, Copy, PartialEq, Eq)]
struct Found {
    number: u32,
    place: usize,
    length: Result<usize, TooLong>,
}

fn number(a: Result<(), CodeError>) -> u32 {
    match a {
        Ok(()) => 0,
        Err(CodeError::Offset) => 2,
        Err(CodeError::Foreign(_)) => 14,
    }
}

fn place(a: Result<(), CodeError>) -> usize {
    match a {
        Err(CodeError::Foreign(at)) => at,
        _ => 0,
    }
}

fn told(l: CodeListing) -> Found {
    Found {
        number: number(l.answer),
        place: place(l.answer),
        length: l.text,
    }
}

fn deck_told(l: DeckListing) -> Found {
    let (number, place) = match l.answer {
        Ok(_) => (0, 0),
        Err(refused) => (refusal::number(refused.why) as u32, refused.place as usize),
    };
    Found {
        number,
        place,
        length: l.text,
    }
}

// ---- words

// The text is the row's with a line's end, and the bytes behind it are as they were.
fn word_stands(s: &[u8], count: usize, buf: &[u8; ALONE]) -> bool {
    if count >= ALONE {
        return false;
    }
    s.get(29..29 + count) == Some(&buf[..count])
        && buf[count] == b'\n'
        && test_rows::all(&buf[count + 1..], MARK)
}

// A word's row, judged: the word, the number of its refusal or 0, the length of its text.
fn word(s: &[u8]) -> Option<Outcome> {
    let [word, number, count] = columns::<3>(s)?;
    let mut buf = [MARK; ALONE];
    let t = told(listing::code_listing(&word.to_le_bytes(), 4, &mut buf));
    let good = t.number == number
        && t.place == 0
        && t.length == Ok(count as usize + 1)
        && word_stands(s, count as usize, &buf);
    if !good {
        return None;
    }
    Some(if number == 0 {
        Outcome::Accepted
    } else {
        Outcome::Refused
    })
}

// ---- codes and files

// What a row asks for: a code's listing, or a deck file's in a view.
#[derive(Clone, Copy)]
enum Asked {
    Code,
    Deck,
}

fn view(n: usize) -> View {
    if n == 0 {
        View::Maintainer
    } else {
        View::Attendant
    }
}

// `at` is the constants' offset, or the view. Where a row asks for more room than there is, a refusal that no listing gives.
fn handed(asked: Asked, code: &[u8], at: usize, text: &mut [u8], room: usize) -> Found {
    let Some(text) = text.get_mut(..room) else {
        return Found {
            number: 0xffffffff,
            place: 0,
            length: Err(TooLong),
        };
    };
    match asked {
        Asked::Code => told(listing::code_listing(code, at, text)),
        Asked::Deck => deck_told(listing::deck_view(code, view(at), text)),
    }
}

// The bytes from one on are as they were.
fn marked(text: &[u8; ROOM], from: usize) -> bool {
    text.get(from..).is_some_and(|b| test_rows::all(b, MARK))
}

// No text stands in the text's memory.
fn mark(text: &mut [u8; ROOM]) {
    *text = [MARK; ROOM];
}

// An answer's row, judged: the answer is the row's, and behind the text nothing was written.
fn answer(
    asked: Asked,
    s: &[u8],
    fits: bool,
    code: &[u8],
    text: &mut [u8; ROOM],
    accepted: &mut Accepted,
) -> Option<Outcome> {
    let [at, room, number, place] = columns::<4>(s)?;
    let length = if fits {
        Ok(column(s, 4)? as usize)
    } else {
        Err(TooLong)
    };
    mark(text);
    let wanted = Found {
        number,
        place: place as usize,
        length,
    };
    if handed(asked, code, at as usize, text, room as usize) != wanted
        || !marked(text, length.unwrap_or(0))
    {
        return None;
    }
    if number != 0 {
        return Some(Outcome::Refused);
    }
    let n = match asked {
        Asked::Code => &mut accepted.codes,
        Asked::Deck => &mut accepted.views,
    };
    *n = n.saturating_add(1);
    Some(Outcome::Other)
}

// The row's text stands in the text's memory.
fn stands(s: &[u8], text: &[u8; ROOM]) -> Option<Outcome> {
    let [from, count] = columns::<2>(s)?;
    let row = crate::code::text(s, count as usize)?;
    let written = text.get(from as usize..)?.get(..count as usize)?;
    let same = row
        .iter()
        .zip(written)
        .all(|(a, b)| test_rows::plain(*a) == *b);
    same.then_some(Outcome::Other)
}

// ---- rows

// A row, with a code or file at hand; none where it can't be read or doesn't hold.
fn judged(
    s: &[u8],
    code: &mut Code,
    text: &mut [u8; ROOM],
    accepted: &mut Accepted,
) -> Option<Outcome> {
    match s.first()? {
        b's' => {}
        b'w' => return word(s),
        b'n' => code.clear(),
        b'c' => crate::code::add_words(s, code)?,
        b'b' => crate::code::add_byte(s, code)?,
        b'd' => crate::code::add_text(s, code)?,
        b'r' => return answer(Asked::Code, s, true, code.as_slice(), text, accepted),
        b'x' => return answer(Asked::Code, s, false, code.as_slice(), text, accepted),
        b'v' => return answer(Asked::Deck, s, true, code.as_slice(), text, accepted),
        b'y' => return answer(Asked::Deck, s, false, code.as_slice(), text, accepted),
        b't' => return stands(s, text),
        _ => return None,
    }
    Some(Outcome::Other)
}

pub(crate) fn row(
    s: &[u8],
    code: &mut Code,
    text: &mut [u8; ROOM],
    accepted: &mut Accepted,
) -> Outcome {
    judged(s, code, text, accepted).unwrap_or(Outcome::Mismatch)
}
