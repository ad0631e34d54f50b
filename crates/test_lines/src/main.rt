// Reads deck lines and compares what the reader answers. tools/decklines/decklines.py makes the list on standard input, and says what its
// rows are. A row that cannot be read counts as a mismatch.
#![tactic(auto)]

mod row;

// Bytes of a row.
const ROW: usize = 128;

fn main(rt: HostRuntime) {
    let t = test_rows::replay::<ROW, _>(&rt, row::outcome);
    let _ = println!(rt;
        "{} accepted, {} refused, {} cells, {} mismatches",
        t.accepted, t.refused, t.others, t.mismatches
    );
}
