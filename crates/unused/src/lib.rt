// Labels nobody jumps to (document 02, point 2): the list of them, from label memory and the record.
#![tactic(auto)]

ghost use Rattle.std.specs.Prelude.{◌≡◌, length};
ghost use Rattle.std.proofs.lemmas.List.Edits.{sets};
ghost use Rattle.assembler.specs.Limit.{label_limit};
ghost use Rattle.unused.specs.Unused.{is_unused, unused_in, numbers_good, listed, unused_answer, counted, put_list};

use assembler::{Asm, HALF, JUMP_LIMIT, LABELS, Labels, ROOM};
use refusal::{Refusal, Refused};

// The label is set, and its number is 0.
fn is_unused(e: u64) -> bool
    ensures { result ≡ is_unused e }
{
    e % HALF != 0 && e / HALF == 0
}

// Whether every number is one that a finish accepts.
#[tactic(auto, using(crate::proofs::From::number_good, crate::proofs::From::number_bad, crate::proofs::From::numbers_end))]
fn numbers_good(labels: &Labels) -> bool
    ensures { result ≡ numbers_good labels.now 0 label_limit }
{
    for e in labels {
        if *e / HALF > JUMP_LIMIT as u64 {
            return false;
        }
    }
    true
}

// The list from the first entry of `out` on; answers how long it is.
fn put_list(labels: &Labels, out: &mut [u32; LABELS]) -> u32
    ensures { (out.new ≡ sets out.old 0 (unused_in labels.now))
        × (result ≡ length (unused_in labels.now)) }
{
    let mut k = 0;
    for (l, e) in labels.iter().enumerate() {
        if is_unused(*e) {
            out[k] = l as u32;
            k += 1;
        }
    }
    k as u32
}

// How many labels are set that no jump goes to; they go in rising order into `out`, whose entries behind them stay.
// Refused by 2 unless the record is closed, and it and the numbers are such as an accepted finish leaves.
#[tactic(auto, unfolding(crate::specs::Unused::listed))]
pub fn unused_labels(labels: &Labels, asm: Asm, out: &mut [u32; LABELS]) -> Result<u32, Refused>
    ensures { (unused_answer result ≡ counted (listed labels.now asm))
        × (out.new ≡ put_list (listed labels.now asm) out.old) }
{
    if !asm.closed || !assembler::is_sound(ROOM, asm) || !numbers_good(labels) {
        return Err(Refused {
            why: Refusal::Value,
            place: 0,
        });
    }
    Ok(put_list(labels, out))
}
