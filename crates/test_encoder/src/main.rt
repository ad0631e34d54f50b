// Replays published encodings against the encoder. tools/vectors/vectors.py makes the list on standard input: a row is form number,
// form name, four operands, `word` or `refused`, and the word or the refusal's number; all numbers have their hexadecimal digits
// in full, and an immediate is its two's complement in 32 bits. A row that cannot be read counts as a mismatch.
#![tactic(auto)]

mod form;

ghost use Rattle.std.specs.Prelude.{◌≡◌};
ghost use Rattle.test_encoder.specs.Inner.Row.{agreed};

use encoder::Encoded;
use test_rows::{Outcome, column};

// Bytes of a row.
const ROW: usize = 66;

// What a row expects of the encoder: a word, or a refusal's number. None where the row cannot be read.
fn expectation(s: &[u8]) -> Option<Result<u32, u32>> {
    if s.len() != ROW {
        return None;
    }
    let n = column(s, 57, 65, b'\n')?;
    match &s[49..57] {
        b"word    " => Some(Ok(n)),
        b"refused " => Some(Err(n)),
        _ => None,
    }
}

// The encoder's answer is the one that the row expects: the same word, or the same refusal at place 0.
fn agrees(got: Encoded, expected: Result<u32, u32>) -> bool
    ensures { result ≡ agreed expected got }
{
    match (expected, got) {
        (Ok(n), Ok(w)) => w == n,
        (Err(n), Err(e)) => e.place == 0 && u32::from(refusal::number(e.why)) == n,
        _ => false,
    }
}

// The encoder's answer to a row's form and operands, where there is such a form. (The name, with the space behind it, is compared whole.)
fn answer(s: &[u8]) -> Option<Encoded> {
    let form = column(s, 0, 2, b' ')?;
    let a = column(s, 13, 21, b' ')?;
    let b = column(s, 22, 30, b' ')?;
    let c = column(s, 31, 39, b' ')?;
    let d = column(s, 40, 48, b' ')?;
    form::encoded(form, s.get(3..13)?, a, b, c, d)
}

// None where the row can't be read, or the encoder's answer isn't the one that it expects.
fn outcome(s: &[u8]) -> Option<Outcome> {
    let got = answer(s)?;
    if !agrees(got, expectation(s)?) {
        return None;
    }
    Some(match got {
        Ok(_) => Outcome::Accepted,
        Err(_) => Outcome::Refused,
    })
}

fn main(rt: HostRuntime) {
    let t = test_rows::replay::<ROW, _>(&rt, |s| outcome(s).unwrap_or(Outcome::Mismatch));
    let _ = println!(rt;
        "{} words, {} refusals, {} mismatches",
        t.accepted, t.refused, t.mismatches
    );
}
