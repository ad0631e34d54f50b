// Reads a deck file on standard input and prints the listing of its routine, or its refusal (document 02, points 5 and 10):
// the maintainer's view, or with the argument `attendant` the attendant's. A refusal goes to standard error too, in words.
// Any other arguments get a usage line on standard error, and nothing on standard output.
// Where standard input can't be read, or standard output takes less than all, a message goes to standard error.
#![tactic(auto)]

ghost use Rattle.std.specs.Prelude.{◌≡◌};
ghost use Rattle.decklist.specs.Inner.Arguments.{asked_for};

use answer::{DeckAnswer, Messages};
use listing::View;
use std::env::{Env, FillError};

// 16,384 lines of at most 29 bytes.
const TEXT: usize = 475136;

// Enough for a refusal in words.
const REASON: usize = 128;

// Longer than any argument that is known.
const WORD: usize = 16;

const SAYS: Messages = Messages {
    unwritten: b"decklist: the answer was not written whole\n",
    too_long: b"decklist: the answer is too long\n",
};

// What is printed of a file.
fn print_view(rt: &HostRuntime, file: &[u8], view: View) {
    let mut out = [0u8; TEXT];
    let mut err = [0u8; REASON];
    let listing = listing::deck_view(file, view, &mut out);
    let told = DeckAnswer {
        text: listing.text,
        reason: answer::reason_text(listing.answer, &mut err),
    };
    answer::print_answer(rt, SAYS, told, &out, &err);
}

// What the arguments ask for, if it is known: `count` arguments, the program's own name among them, of which `word` is the first behind it.
fn asked_for(count: usize, word: &[u8]) -> Option<View>
    ensures { result ≡ asked_for count word.now }
{
    if count < 2 {
        return Some(View::Maintainer);
    }
    if count > 2 {
        return None;
    }
    if text::same(word, b"attendant") {
        return Some(View::Attendant);
    }
    None
}

// How many arguments there are, the program's own name among them. Whether there are more than three isn't asked.
fn count(rt: &impl Env) -> usize {
    let mut word = [0u8; 1];
    for i in 0..3 {
        if let Err(FillError::NotPresent) = rt.arg(i, &mut word) {
            return i;
        }
    }
    3
}

// An argument longer than WORD counts as empty: neither is known.
fn arguments(rt: &impl Env) -> Option<View> {
    let mut word = [0u8; WORD];
    match rt.arg(1, &mut word) {
        Ok(n) => asked_for(count(rt), &word[..n]),
        Err(_) => asked_for(count(rt), b""),
    }
}

fn main(rt: HostRuntime) {
    match arguments(&rt) {
        Some(view) => {
            input::with_file(
                &rt,
                b"decklist: standard input can't be read\n",
                |file| print_view(&rt, file, view),
            );
        }
        None => {
            let _ = rt
                .stderr()
                .write_all(b"usage: decklist [attendant] < FILE\n");
        }
    }
}
