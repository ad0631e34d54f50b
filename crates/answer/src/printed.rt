// An answer on standard output, and a refusal in words on standard error, as the programs print them.
use crate::DeckAnswer;
use print::TooLong;

// What a program says on standard error where something goes wrong.
#[derive(Clone, Copy)]
pub struct Messages<'a> {
    pub unwritten: &'a [u8],
    pub too_long: &'a [u8],
}

// The text that stands in a buffer.
fn text_in(buf: &[u8], length: Result<usize, TooLong>) -> Option<&[u8]> {
    buf.get(..length.ok()?)
}

// The two texts of an answer, which stand in two buffers. Files have no contract, so there is nothing to promise.
pub fn print_answer(rt: &HostRuntime, says: Messages, told: DeckAnswer, out: &[u8], err: &[u8]) {
    match text_in(out, told.text) {
        Some(text) => {
            if rt.stdout().write_all(text).is_err() {
                let _ = rt.stderr().write_all(says.unwritten);
            }
        }
        // It can't be: the buffer is as long as the longest answer.
        None => {
            let _ = rt.stderr().write_all(says.too_long);
        }
    }
    if let Some(text) = text_in(err, told.reason) {
        let _ = rt.stderr().write_all(text);
    }
}
