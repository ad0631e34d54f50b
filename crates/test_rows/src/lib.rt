// Recorded lists: the numbers in a row's columns (hexadecimal digits in full, negative numbers in two's complement), the bytes that a row
// is about, and the count of rows.
#![tactic(auto)]

ghost use Rattle.std.specs.Prelude.{◌≡◌, ◌+◌, ◌^◌, ◌<◌, ◌≤◌, [], ◌∷◌, ◌++◌, take, map};
ghost use Rattle.isa.specs.Immediate.{signed as signed_of};
ghost use Rattle.test_rows.specs.Bytes.{word_of, all_of, bytes_of, plain_of};
ghost use Rattle.test_rows.specs.Count.{none_yet, counted_of};
ghost use Rattle.test_rows.specs.Hex.{digit_of, number_from, column_of};

// ---- columns

// The value of a hexadecimal digit, 0..9 or a..f.
fn digit(b: u8) -> Option<u32>
    ensures { result ≡ digit_of b }
{
    match b {
        b'0'..=b'9' => Some(u32::from(b - b'0')),
        b'a'..=b'f' => Some(u32::from(b - b'a') + 10),
        _ => None,
    }
}

// The number that s spells in hexadecimal digits.
pub fn number(s: &[u8]) -> Option<u32>
    ensures { result ≡ number_from 0 s.now }
{
    let mut v: u32 = 0;
    for b in s {
        let d = digit(*b)?;
        v = v.checked_mul(16)? + d;
    }
    Some(v)
}

// The number in the column from a up to e, where the byte `end` stands behind it.
pub fn column(s: &[u8], a: usize, e: usize, end: u8) -> Option<u32>
    ensures { result ≡ column_of s.now a e end }
{
    if a > e || e >= s.len() || s[e] != end {
        return None;
    }
    number(&s[a..e])
}

// The signed number whose two's complement in 32 bits is n.
pub fn signed(n: u32) -> i32
    ensures { result ≡ signed_of 32 n }
{
    n.cast_signed()
}

// ---- bytes

// The word at a place, little-endian; 0 where there is none.
pub fn word_at(s: &[u8], at: usize) -> u32
    ensures { result ≡ word_of s.now at }
{
    match s.get(at..).and_then(|t| t.first_chunk()) {
        Some(word) => u32::from_le_bytes(*word),
        None => 0,
    }
}

// Every byte is b. Without a branch for each, so that many of half a mebibyte are looked at together.
pub fn all(s: &[u8], b: u8) -> bool
    ensures { result ≡ all_of b s.now }
{
    let mut same = true;
    for c in s {
        same &= *c == b;
    }
    same
}

// Bytes that are put together piece by piece, as far as there is room for N.
#[derive(Drop)]
pub struct Bytes<const N: usize> {
    memory: [u8; N],
    size: usize,
    ghost has_room: { size ≤ N },
}

impl<const N: usize> Bytes<N> {
    pub fn new() -> Bytes<N>
        ensures { bytes_of result.memory result.size ≡ [] }
    {
        Bytes {
            memory: [0; N],
            size: 0,
        }
    }

    pub fn clear(&mut self)
        ensures { bytes_of self.new.memory self.new.size ≡ [] }
    {
        self.size = 0;
    }

    pub fn as_slice(&self) -> &[u8]
        requires { N < 2 ^ 63 }
        ensures { result.now ≡ bytes_of self.now.memory self.now.size }
    {
        &self.memory[..self.size]
    }

    // How many bytes more there is room for.
    pub fn room(&self) -> usize
        ensures { result + self.now.size ≡ N }
    {
        N - self.size
    }

    pub fn push(&mut self, b: u8)
        ensures { bytes_of self.new.memory self.new.size ≡ take N (bytes_of self.old.memory self.old.size ++ b ∷ []) }
    {
        if self.size < N {
            self.memory[self.size] = b;
            self.size += 1;
        }
    }

    // The bytes that characters stand for.
    pub fn push_text(&mut self, s: &[u8])
        ensures { bytes_of self.new.memory self.new.size ≡ take N (bytes_of self.old.memory self.old.size ++ map plain_of s.now) }
    {
        for b in s {
            self.push(plain(*b));
        }
    }
}

// The byte that a character stands for: a tilde is a line's end.
pub fn plain(b: u8) -> u8
    ensures { result ≡ plain_of b }
{
    if b == b'~' { b'\n' } else { b }
}

// ---- counts

// Only the first mismatches are printed.
const SHOWN: u64 = 10;

// What a row comes to.
#[derive(Clone, Copy)]
pub enum Outcome {
    Accepted,
    Refused,
    Other,
    Mismatch,
}

// Rows so far.
#[derive(Clone, Copy, Default)]
pub struct Tally {
    pub rows: u64,
    pub accepted: u64,
    pub refused: u64,
    pub others: u64,
    pub mismatches: u64,
}

pub fn start() -> Tally
    ensures { result ≡ none_yet }
{
    Tally::default()
}

impl Tally {
    // One row more.
    fn count(&mut self, o: Outcome)
        ensures { self.new ≡ counted_of self.old o }
    {
        self.rows = self.rows.saturating_add(1);
        match o {
            Outcome::Accepted => self.accepted = self.accepted.saturating_add(1),
            Outcome::Refused => self.refused = self.refused.saturating_add(1),
            Outcome::Other => self.others = self.others.saturating_add(1),
            Outcome::Mismatch => self.mismatches = self.mismatches.saturating_add(1),
        }
    }
}

// One row more. A mismatch is printed: the row's number, and the row.
pub fn counted(rt: &impl Print, t: Tally, o: Outcome, s: &[u8]) -> Tally
    ensures { result ≡ counted_of t o }
{
    let mut u = t;
    u.count(o);
    if t.mismatches < u.mismatches && t.mismatches < SHOWN {
        let _ = print!(rt; "row {}: ", u.rows);
        let _ = rt.write_all(s);
    }
    u
}

// The tally of the rows on standard input, N bytes each, as `judge` has them. Nothing says that it ends, so the loop counts its turns.
pub fn replay<const N: usize, J: FnMut(&[u8]) -> Outcome>(
    rt: &(impl Print + Input),
    mut judge: J,
) -> Tally
    requires row { N < 2 ^ 63 }
    requires calls { J.IsAlwaysCallable judge }
{
    let mut list = rt.reader();
    let mut t = start();
    for _ in 0..u64::MAX {
        let mut row = [0u8; N];
        let n = input::read_full(&mut list, &mut row);
        if n == 0 {
            break;
        }
        let s = &row[..n];
        t = counted(rt, t, judge(s), s);
    }
    t
}
