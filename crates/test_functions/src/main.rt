// Replays recorded answers: the Rust's, GNU as's where the Rust isn't asked, the documents' refusals and numbers of jumps.
// tools/oracle/record.py makes the list on standard input, and says what its rows are. A row that cannot be read counts as a mismatch.
#![tactic(auto)]

mod call;
mod case;
mod judge;
mod named;
mod row;

use judge::State;

// Bytes of a row.
const ROW: usize = 39;

fn main(rt: HostRuntime) {
    let mut buf = [0u8; 65536];
    let mut labels = [0u64; assembler::LABELS];
    let mut jumps = [0u32; assembler::JUMPS];
    let mut state = State::start();
    let t = test_rows::replay::<ROW, _>(
        &rt,
        |s| state.row(&rt, s, &mut buf, &mut labels, &mut jumps),
    );
    state.print_family(&rt);
    let _ = println!(rt; "{} mismatches", t.mismatches);
}
