// One row: the line it holds, what the reader answers, and what the row expects.
ghost use Rattle.std.specs.Prelude.{◌≤◌};

use ast::{Constant, Head, Order};
use deck::Line;
use refusal::Refusal;
use test_rows::Outcome;

// Bytes in front of a row's line, and room for the line.
const FRONT: usize = 48;

const ROOM: usize = 80;

// An answer as a row's numbers.
#[derive(Clone, Copy, PartialEq, Eq)]
struct Answer {
    tag: u32,
    numbers: [u32; 5],
    last: u64,
}

// ---- answers as numbers

fn told(tag: u32, numbers: [u32; 5]) -> Answer {
    Answer {
        tag,
        numbers,
        last: 0,
    }
}

fn order(o: Order) -> Answer {
    match o {
        Order::Unary(u, d, s) => told(2, [u as u32, d, s, 0, 0]),
        Order::Scratched(u, d, s, t) => told(3, [u as u32, d, s, t, 0]),
        Order::Binary(u, d, s, t) => told(4, [u as u32, d, s, t, 0]),
        Order::Fused(u, d, s, t, v) => told(5, [u as u32, d, s, t, v]),
        Order::Ifelse(d, s, t, i) => told(6, [d, s, t, i, 0]),
        Order::LoadConst(d, k) => told(7, [d, k, 0, 0, 0]),
        Order::Load(d, p, i) => told(8, [d, p as u32, i, 0, 0]),
        Order::Save(s, p, i) => told(9, [s, p as u32, i, 0, 0]),
        Order::BranchIf(c, l, e) => told(10, [c, l, e as u32, 0, 0]),
        Order::SetLabel(l) => told(11, [l, 0, 0, 0, 0]),
    }
}

fn head(h: Head) -> Answer {
    Answer {
        last: u64::from(h.mask),
        ..told(1, [h.frame as u32, h.cap, h.states, h.obs, h.last])
    }
}

// A NaN has no bits of its own; no line gives one.
fn bits(x: f64) -> u64 {
    if x.is_nan() {
        0x7ff8000000000000
    } else {
        x.to_bits()
    }
}

fn constant(c: Constant) -> Answer {
    let (tag, last) = match c {
        Constant::Float(x) => (12, bits(x)),
        Constant::Bits(n) => (13, n),
    };
    Answer {
        last,
        ..told(tag, [0; 5])
    }
}

fn line(s: &[u8]) -> Answer {
    let said = match form::read_form(s) {
        Some(form) => deck::judge(form),
        None => Err(Refusal::Line),
    };
    match said {
        Ok(Line::Head(h)) => head(h),
        Ok(Line::Order(o)) => order(o),
        Ok(Line::Constant(c)) => constant(c),
        Err(r) => told(0, [refusal::number(r) as u32, 0, 0, 0, 0]),
    }
}

// A head's line and an order's: is the cell within its count.
fn cell(s: &[u8]) -> Option<Answer> {
    let e = text::line_end(s, 0);
    let Ok(Line::Head(h)) = deck::read_line(true, s.get(..e)?) else {
        return None;
    };
    let Ok(Line::Order(o)) = deck::read_line(false, &s[e..]) else {
        return None;
    };
    Some(told(14, [ast::index_holds(h, o) as u32, 0, 0, 0, 0]))
}

// ---- rows

// The number in a column.
fn number(s: &[u8], a: usize, e: usize) -> Option<u32> {
    test_rows::column(s, a, e, b' ')
}

// What the row expects.
fn expected(s: &[u8]) -> Option<Answer> {
    let last = text::read_word(s.get(28..44)?)?;
    Some(Answer {
        tag: number(s, 0, 2)?,
        numbers: [
            number(s, 3, 7)?,
            number(s, 8, 12)?,
            number(s, 13, 17)?,
            number(s, 18, 22)?,
            number(s, 23, 27)?,
        ],
        last,
    })
}

// The byte at place i: its own, or the one that the two digits behind a backslash spell.
fn byte_at(s: &[u8], i: usize) -> u8 {
    match s.get(i) {
        Some(b'\\') => s
            .get(i + 1..i + 3)
            .and_then(|digits| test_rows::number(digits))
            .map_or(0, |n| (n % 256) as u8),
        Some(b) => *b,
        None => 0,
    }
}

// How many bytes of the row it takes.
fn width(b: u8) -> usize
    ensures { (1 ≤ result) × (result ≤ 3) }
{
    if b == b'\\' { 3 } else { 1 }
}

// The bytes of a row's line, as far as it has `count` of them; how many there are.
fn unescape(s: &[u8], count: usize, out: &mut [u8; ROOM]) -> usize {
    let mut i = 0;
    for n in 0..ROOM {
        if n == count {
            return n;
        }
        if i >= s.len() {
            return n;
        }
        out[n] = byte_at(s, i);
        i += width(s[i]);
    }
    ROOM
}

// What the reader answers for a row's line.
fn came(s: &[u8], tag: u32) -> Option<Answer> {
    let mut buf = [0u8; ROOM];
    let count = number(s, 45, 47)? as usize;
    if unescape(s.get(FRONT..)?, count, &mut buf) != count {
        return None;
    }
    let read = buf.get(..count)?;
    if tag == 14 {
        cell(read)
    } else {
        Some(line(read))
    }
}

// None where the row can't be read, or the reader's answer isn't the one that it expects. Rows of cells count as others.
fn agreed(s: &[u8]) -> Option<Outcome> {
    let want = expected(s.get(..FRONT)?)?;
    // a line that can't be read has a tag of its own
    if came(s, want.tag).unwrap_or(told(254, [0; 5])) != want {
        return None;
    }
    Some(match want.tag {
        0 => Outcome::Refused,
        14 => Outcome::Other,
        _ => Outcome::Accepted,
    })
}

pub(crate) fn outcome(s: &[u8]) -> Outcome {
    agreed(s).unwrap_or(Outcome::Mismatch)
}
