// The list of labels that nobody jumps to, asked for behind a routine and compared with its row.
use assembler::{Asm, LABELS, Labels};
use refusal::{Refusal, Refused};

// What stands in the list's memory before it.
const MARK: u32 = 0xffffffff;

// Bytes of the longest list: two for each label.
const BYTES: usize = 4078;

type Out = [u32; LABELS];

// Nothing is written at a place.
fn blank(out: &Out, i: usize) -> bool {
    out.get(i).is_none_or(|l| *l == MARK)
}

// The hash of the first n labels as two bytes each, the high one first.
fn hash(out: &Out, n: usize) -> u64 {
    let mut bytes = [0u8; BYTES];
    let n = n.min(LABELS);
    for i in 0..n {
        let [_, _, high, low] = out[i].to_be_bytes();
        bytes[2 * i] = high;
        bytes[2 * i + 1] = low;
    }
    crate::judge::hash(&bytes[..2 * n])
}

// So many labels with the row's hash, and nothing written behind them.
fn stands(out: &Out, n: u32, s: &[u8]) -> bool {
    crate::row::compared(s, 8) == n
        && crate::row::wide(s, 9) == hash(out, n as usize)
        && blank(out, n as usize)
}

// Behind an accepted routine the list is the row's; behind a refused one it is refused with 2, place 0, and nothing is written.
pub(crate) fn agrees(labels: &Labels, asm: Asm, accepted: bool, s: &[u8]) -> bool {
    let mut out = [MARK; LABELS];
    match unused::unused_labels(labels, asm, &mut out) {
        Ok(n) => accepted && stands(&out, n, s),
        Err(Refused { why, place }) => {
            !accepted && why == Refusal::Value && place == 0 && blank(&out, 0)
        }
    }
}
