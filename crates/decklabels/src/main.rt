// Reads a deck file on standard input and prints its labels that nobody jumps to, each with the line that sets it, or its refusal
// (document 02, point 2). A refusal goes to standard error too, in words.
// Any argument gets a usage line on standard error, and nothing on standard output.
// Where standard input can't be read, or standard output takes less than all, a message goes to standard error.
#![tactic(auto)]

use answer::{DeckAnswer, Messages};
use std::env::{Env, FillError};

// 1,024 lines of at most 11 bytes.
const TEXT: usize = 11264;

// Enough for a refusal in words.
const REASON: usize = 128;

const SAYS: Messages = Messages {
    unwritten: b"decklabels: the answer was not written whole\n",
    too_long: b"decklabels: the answer is too long\n",
};

// What is printed of a file.
fn print_labels(rt: &HostRuntime, file: &[u8]) {
    let mut out = [0u8; TEXT];
    let mut err = [0u8; REASON];
    let labels = stale::deck_labels(file, &mut out);
    let told = DeckAnswer {
        text: labels.text,
        reason: answer::reason_text(labels.answer, &mut err),
    };
    answer::print_answer(rt, SAYS, told, &out, &err);
}

// There is an argument behind the program's own name, whatever it is.
fn has_argument(rt: &impl Env) -> bool {
    let mut word = [0u8; 1];
    match rt.arg(1, &mut word) {
        Err(FillError::NotPresent) => false,
        _ => true,
    }
}

fn main(rt: HostRuntime) {
    if has_argument(&rt) {
        let _ = rt.stderr().write_all(b"usage: decklabels < FILE\n");
        return;
    }
    input::with_file(
        &rt,
        b"decklabels: standard input can't be read\n",
        |file| print_labels(&rt, file),
    );
}
