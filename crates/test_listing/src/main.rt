// Replays listings: words with GNU objdump's lines, document 02's refusals, codes with constants, and deck files as maintainer and
// attendant see them. tools/listings/record.py makes the list on standard input, and says what its rows are. A row that cannot be read
// counts as a mismatch.
#![tactic(auto)]

mod code;
mod judge;
mod row;

use code::Code;
use judge::{Accepted, ROOM};

// Bytes of a row.
const ROW: usize = 80;

fn main(rt: HostRuntime) {
    let mut code = Code::new();
    let mut text = [0u8; ROOM];
    let mut accepted = Accepted::default();
    let t = test_rows::replay::<ROW, _>(
        &rt,
        |s| judge::row(s, &mut code, &mut text, &mut accepted),
    );
    let _ = println!(rt;
        "{} words, {} refusals, {} codes, {} views, {} mismatches",
        t.accepted, t.refused, accepted.codes, accepted.views, t.mismatches
    );
}
