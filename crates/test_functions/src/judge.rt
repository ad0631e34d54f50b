// Rows, one by one: calls are made, answers compared and counted.
use crate::case::Case;
use crate::row::Row;
use assembler::{Jumps, Labels};
use refusal::Refused;
use test_rows::Outcome;

// The row of the family, how many of its answers agreed, and the case at hand.
#[derive(Clone, Copy)]
pub struct State {
    family: Row,
    agreed: u64,
    case: Case,
}

// ---- what a row makes of the case

// The first n words of the row stand next.
fn words(c: Case, r: Row, n: u32, buf: &[u8; 65536]) -> Case {
    if crate::case::stand(buf, c.at, [r.a, r.b, r.c, r.d], n as usize) {
        return c.moved(n as usize);
    }
    c.checked(false)
}

fn zeros(c: Case, n: u32, buf: &[u8; 65536]) -> Case {
    let d = c.moved(n as usize);
    d.checked(crate::case::blank(buf, c.at, d.at))
}

// Behind the last words nothing stands.
fn last(c: Case, buf: &[u8; 65536]) -> Case {
    c.checked(c.at == c.asm.len && crate::case::blank(buf, c.at, 65536))
}

// What stands in the code.
fn code(c: Case, r: Row, buf: &[u8; 65536]) -> Case {
    match r.kind {
        0x01 => words(c, r, 4, buf),
        0x02 => zeros(c, r.a, buf),
        k @ 0x03..=0x07 => last(words(c, r, k - 3, buf), buf),
        _ => c.checked(false),
    }
}

// ---- labels and their numbers, the record, the list of unused labels

// What stands in the list's memory before it.
const MARK: u32 = 0xffffffff;

// Jumps made to label a, and its place plus 1 or 0.
fn entry(r: Row, labels: &Labels) -> bool {
    labels.get(r.a as usize).map_or(u64::MAX, |e| *e) == crate::call::quad(r.c, r.b)
}

// Length, jumps and the closed mark; and zeros behind the length, further than any call writes.
fn record(c: Case, r: Row, buf: &[u8; 65536]) -> bool {
    let a = c.asm.len.min(65536);
    let e = c.asm.len.saturating_add(1024).min(65536);
    crate::case::same(c.asm, crate::row::record(r)) && crate::case::blank(buf, a, e)
}

// Nothing is written at a place.
fn blank(out: &[u32; assembler::LABELS], i: usize) -> bool {
    out.get(i).is_none_or(|l| *l == MARK)
}

// So many labels are listed, the first three as the row has them, and nothing is written behind the last.
fn lists(r: Row, n: u32, out: &[u32; assembler::LABELS]) -> bool {
    n == r.a && out.starts_with(&[r.b, r.c, r.d]) && blank(out, n as usize)
}

// The list is refused so, and nothing is written.
fn refuses(r: Row, e: Refused, out: &[u32; assembler::LABELS]) -> bool {
    refusal::number(e.why) as u32 == r.a && e.place == r.b && blank(out, 0)
}

fn list(c: Case, r: Row, labels: &Labels) -> bool {
    let mut out = [MARK; assembler::LABELS];
    match unused::unused_labels(labels, c.asm, &mut out) {
        Ok(n) => r.kind == 0x0c && lists(r, n, &out),
        Err(e) => r.kind == 0x0d && refuses(r, e, &out),
    }
}

// A call; the first one behind an answer starts on fresh memory.
fn called(c: Case, r: Row, buf: &mut [u8; 65536], labels: &mut Labels, jumps: &mut Jumps) -> Case {
    if c.open {
        return crate::call::by_kind(r, buf, labels, jumps, c);
    }
    *buf = [0u8; 65536];
    *labels = [0u64; assembler::LABELS];
    crate::call::by_kind(r, buf, labels, jumps, Case::fresh())
}

fn next(c: Case, r: Row, buf: &mut [u8; 65536], labels: &mut Labels, jumps: &mut Jumps) -> Case {
    match r.kind {
        0x01..=0x07 => code(c, r, buf).checked(c.answer.is_ok()),
        0x08 => c.checked(c.answer.is_ok_and(|n| n == r.a)),
        0x09 => c.checked(c.refuses(r.a, r.b)),
        0x0a => c.checked(entry(r, labels)),
        0x0b => c.checked(record(c, r, buf)),
        0x0c..=0x0d => c.checked(list(c, r, labels)),
        _ => called(c, r, buf, labels, jumps),
    }
}

// ---- what is counted

impl State {
    pub(crate) fn start() -> State {
        State {
            family: Row {
                kind: 0,
                a: 0,
                b: 0,
                c: 0,
                d: 0,
            },
            agreed: 0,
            case: Case::fresh().closed(),
        }
    }

    // The family's name, the 16 bytes of its row, and how many of its answers agreed.
    pub(crate) fn print_family(&self, rt: &impl Print) {
        let f = self.family;
        if f.d == 0 {
            return;
        }
        for w in [f.a, f.b, f.c, f.d] {
            let _ = rt.write_all(&w.to_be_bytes());
        }
        let _ = println!(rt; ": {}", self.agreed);
    }

    // The case after a row. The first row that disagrees is a mismatch. The row that ends an answer counts for its family where no row
    // of the case disagreed.
    fn settle(&mut self, d: Case, over: bool) -> Outcome {
        let before = self.case;
        self.case = if over { d.closed() } else { d };
        if before.good && !d.good {
            return Outcome::Mismatch;
        }
        if over && d.good {
            self.agreed = self.agreed.saturating_add(1);
            return Outcome::Accepted;
        }
        Outcome::Other
    }

    pub(crate) fn row(
        &mut self,
        rt: &impl Print,
        s: &[u8],
        buf: &mut [u8; 65536],
        labels: &mut Labels,
        jumps: &mut Jumps,
    ) -> Outcome {
        let Some(r) = crate::row::of(s) else {
            return self.settle(self.case.checked(false), false);
        };
        if r.kind == 0x00 {
            self.print_family(rt);
            self.family = r;
            self.agreed = 0;
            return Outcome::Other;
        }
        let d = next(self.case, r, buf, labels, jumps);
        // rows of these kinds end an answer
        self.settle(d, matches!(r.kind, 0x03..=0x09))
    }
}
