// Reads a deck file on standard input and prints its words with their byte offsets, or its refusal (document 01, "The deck file").
// A refusal goes to standard error too, in words.
// Where standard input can't be read, or standard output takes less than all, a message goes to standard error.
#![tactic(auto)]

use answer::Messages;

// 16,384 lines of at most 15 bytes.
const TEXT: usize = 245760;

// Enough for a refusal in words.
const REASON: usize = 128;

const SAYS: Messages = Messages {
    unwritten: b"deckwords: the answer was not written whole\n",
    too_long: b"deckwords: the answer is too long\n",
};

// What is printed of a file.
fn print_file(rt: &HostRuntime, file: &[u8]) {
    let mut out = [0u8; TEXT];
    let mut err = [0u8; REASON];
    let told = answer::deck_answer(file, &mut out, &mut err);
    answer::print_answer(rt, SAYS, told, &out, &err);
}

fn main(rt: HostRuntime) {
    input::with_file(
        &rt,
        b"deckwords: standard input can't be read\n",
        |file| print_file(&rt, file),
    );
}
