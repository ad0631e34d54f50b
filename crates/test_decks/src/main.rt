// Replays whole decks: the Rust's words, and document 01's refusals; and document 02's list of labels that nobody jumps to.
// tools/decks/record.py makes the list on standard input, and says what its rows are. A row that cannot be read counts as a mismatch.
#![tactic(auto)]

mod judge;
mod list;
mod piece;
mod row;

use piece::{Deck, ROOM};

// Bytes of a row.
const ROW: usize = 128;

fn main(rt: HostRuntime) {
    let mut deck = Deck::new();
    let mut buf = [0u8; ROOM];
    let t = test_rows::replay::<ROW, _>(&rt, |s| judge::row(s, &mut deck, &mut buf));
    let _ = println!(rt;
        "{} accepted, {} refused, {} mismatches",
        t.accepted, t.refused, t.mismatches
    );
}
