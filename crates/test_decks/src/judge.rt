// Rows, one by one: a deck is put together, handed to the routine, and its answer and buffer compared.
ghost use Rattle.std.specs.Prelude.{◌≡◌};
ghost use Rattle.test_decks.specs.Inner.Bytes.{hash_of};

use crate::piece::{Deck, ROOM};
use crate::row::{column, compared, wide};
use ast::Frame;
use refusal::Refused;
use routine::Outline;
use test_rows::Outcome;

// What stands in a buffer before the routine has it.
const MARK: u8 = 165;

// And in label and jump memory: a label that is set, with more jumps than there are.
const SPOILED_LABEL: u64 = 0x123456789abcdef1;

const SPOILED_JUMP: u32 = 0xfedcba98;

// Bytes of a buffer that count.
const COUNTED: usize = 65536;

// ---- answers as a row's numbers

// Refused: 0, number, line. Accepted: 1 fast or 2 indirect, length, the constants' offset and count, jumps.
fn frame(f: Frame) -> u32 {
    match f {
        Frame::Fast => 1,
        Frame::Indirect => 2,
    }
}

fn told(answer: Result<Outline, Refused>) -> [u32; 5] {
    match answer {
        Ok(o) => [frame(o.frame), o.length, o.offset, o.constants, o.jumps],
        Err(refused) => [0, refusal::number(refused.why) as u32, refused.place, 0, 0],
    }
}

fn agrees(told: [u32; 5], s: &[u8]) -> bool {
    told.iter().zip(1..6).all(|(n, i)| compared(s, i) == *n)
}

// ---- the buffer

// A polynomial of the bytes at 257, modulo the prime 2^54 - 33.
pub(crate) fn hash(s: &[u8]) -> u64
    ensures { result ≡ hash_of 0 s.now }
{
    let mut h: u64 = 0;
    for b in s {
        h = (h * 257 + u64::from(*b) + 1) % 18014398509481951;
    }
    h
}

// Code up to `end` with the row's hash, zeros behind it, and what isn't lent or doesn't count as it was.
fn stands(buf: &[u8; ROOM], end: usize, size: usize, s: &[u8]) -> bool {
    let e = size.min(COUNTED);
    end <= e
        && wide(s, 6) == hash(&buf[..end])
        && test_rows::all(&buf[end..e], 0)
        && test_rows::all(&buf[e..], MARK)
}

// ---- rows

// The deck's answer, its buffer and its list are the row's.
fn answered(s: &[u8], file: &[u8], buf: &mut [u8; ROOM]) -> bool {
    *buf = [MARK; ROOM];
    let mut labels = [SPOILED_LABEL; assembler::LABELS];
    let mut jumps = [SPOILED_JUMP; assembler::JUMPS];
    let Some(size) = column(s, 0) else {
        return false;
    };
    let Some(lent) = buf.get_mut(..size as usize) else {
        return false;
    };
    let r = routine::routine_in(file, lent, &mut labels, &mut jumps);
    let t = told(r.answer);
    let accepted = t[0] != 0;
    let end = if accepted { t[1] as usize } else { 0 };
    agrees(t, s)
        && stands(buf, end, size as usize, s)
        && crate::list::agrees(&labels, r.asm, accepted, s)
}

// The row's words stand in the buffer.
fn spelled(s: &[u8], buf: &[u8; ROOM]) -> bool {
    let at = compared(s, 0) as usize;
    let count = compared(s, 1) as usize;
    count <= 12
        && (0..count).all(|i| at <= COUNTED
            && compared(s, 2 + i) == test_rows::word_at(buf, at + 4 * i))
}

// A row that only has to hold.
fn holds(good: bool) -> Outcome {
    if good {
        Outcome::Other
    } else {
        Outcome::Mismatch
    }
}

// An answer's row, judged.
fn judged(s: &[u8], good: bool) -> Outcome {
    if !good {
        Outcome::Mismatch
    } else if column(s, 1) == Some(0) {
        Outcome::Refused
    } else {
        Outcome::Accepted
    }
}

// A row, with a deck at hand. Behind an answer the next deck starts empty.
pub(crate) fn row(s: &[u8], deck: &mut Deck, buf: &mut [u8; ROOM]) -> Outcome {
    match s.first() {
        Some(b'd') => {
            crate::piece::add_text(s, deck);
            Outcome::Other
        }
        Some(b'b') => {
            crate::piece::add_byte(s, deck);
            Outcome::Other
        }
        Some(b's') => Outcome::Other,
        Some(b'r') => {
            let good = answered(s, deck.as_slice(), buf);
            deck.clear();
            judged(s, good)
        }
        Some(b'w') => holds(spelled(s, buf)),
        _ => Outcome::Mismatch,
    }
}
