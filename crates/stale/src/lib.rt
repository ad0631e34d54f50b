// A deck file's stale labels, each with the line that sets it, as text (document 02, point 2). It knows the routine by its promise.
#![tactic(auto)]

ghost use Rattle.std.specs.Prelude.{◌≡◌, ℕ, ◌+◌, ◌≤◌, ◌<◌, length, drop, get_or};
ghost use Rattle.ast.specs.Uses.{label_set};
ghost use Rattle.text.specs.Lines.{lines_of};
ghost use Rattle.print.specs.Text.{Puts};
ghost use Rattle.print.specs.Listing.{first_answer};
ghost use Rattle.print.specs.Writer.{HasRoom, Wrote};
ghost use Rattle.routine.specs.Routine.{program_of, summary_answer};
ghost use Rattle.routine.specs.Answer.{routine_answer};
ghost use Rattle.stale.specs.Deck.{label_text, own_text, labels_text, deck_labels};
ghost use Rattle.stale.specs.Inner.Scan.{label_of, with_line, set_line, file_line};
ghost use Rattle.stale.specs.Inner.Text.{line_in, memory_text, Within, summary_text, Says};

use assembler::{Asm, JUMPS, LABELS, Labels, ROOM};
use ast::Operand;
use deck::Line;
use print::{TooLong, Writer};
use refusal::Refused;
use routine::Outline;

// The routine's answer to a file, and how long the text of its labels is.
#[derive(Clone, Copy)]
pub struct DeckLabels {
    pub answer: Result<Outline, Refused>,
    pub text: Result<usize, TooLong>,
}

// A deck file's own labels are below this.
const OWN: usize = 1024;

// For each of them the line that sets it; 0 for none.
type SetLines = [u32; OWN];

// A line for each of them, of at most 11 bytes.
const TEXT: usize = 11264;

// ---- the lines that set labels

// The label that an operand sets.
fn operand_label(p: Operand) -> Option<u32>
    ensures { first_answer result ≡ label_set p }
{
    match p {
        Operand::Set(l) => Some(l),
        Operand::Nothing | Operand::Loaded(_, _) | Operand::Stored(_, _) => None,
        Operand::Constant(_) | Operand::GoneTo(_) => None,
    }
}

// The label that a line sets.
fn label_of(line: &[u8]) -> Option<u32>
    ensures { first_answer result ≡ label_of line.now }
{
    match deck::read_line(false, line) {
        Ok(Line::Order(o)) => operand_label(ast::uses(o).operand),
        Ok(Line::Head(_) | Line::Constant(_)) | Err(_) => None,
    }
}

// The first line that sets a label stays.
fn note(found: &mut SetLines, label: Option<u32>, line: u32)
    ensures { found.new ≡ with_line found.old (first_answer label) line }
{
    if let Some(l) = label {
        let i = l as usize;
        if i < OWN && found[i] == 0 {
            found[i] = line;
        }
    }
}

// The lines from byte `at` on, of which the first is line 2.
fn lines_from(file: &[u8], mut at: usize) -> SetLines
    requires { (length file.now ≤ 65536) × (at < length file.now → 0 < at) }
    ensures { (l : ℕ) → l < 1024
        → (get_or result l 0 ≡ set_line l (lines_of (drop at file.now))) × (get_or result l 0 ≤ 65536) }
{
    let mut found = [0u32; OWN];
    let mut next: u32 = 2;
    // No `for`: a line starts where the one before ends.
    while at < file.len() {
        let end = lines::line_end(file, at);
        note(&mut found, label_of(&file[at..end]), next);
        at = end;
        next += 1;
    }
    found
}

fn set_lines(file: &[u8]) -> SetLines
    requires { length file.now ≤ 65536 }
    ensures { (l : ℕ) → l < 1024 → (get_or result l 0 ≡ file_line file.now l) × (get_or result l 0 ≤ 65536) }
{
    lines_from(file, lines::line_end(file, 0))
}

// ---- as text

#[tactic(auto, using(crate::proofs::Texts::length_label_text))]
fn put_label(label: u64, line: u64, w: &mut Writer)
    requires { HasRoom (label_text label line) w.old }
    ensures { Wrote (label_text label line) w.old w.new }
{
    w.decimal(label);
    w.byte(b',');
    w.decimal(line);
    w.byte(b'\n');
}

// The same with the line that was found; nothing of a label that isn't the file's own.
fn put_own(label: u32, found: &SetLines, w: &mut Writer)
    requires { HasRoom (own_text (line_in found.now) label) w.old }
    ensures { Wrote (own_text (line_in found.now) label) w.old w.new }
{
    let i = label as usize;
    if i < OWN {
        put_label(label as u64, found[i] as u64, w);
    }
}

fn put_labels(list: &[u32], found: &SetLines, w: &mut Writer)
    requires { HasRoom (labels_text (line_in found.now) list.now) w.old }
    ensures { Wrote (labels_text (line_in found.now) list.now) w.old w.new }
{
    for label in list {
        put_own(*label, found, w);
    }
}

// The lines of the listed labels, of a file that isn't too long.
fn labels_text(file: &[u8], labels: &Labels, asm: Asm, out: &mut [u8]) -> Result<usize, TooLong>
    requires { length file.now ≤ 65536 }
    ensures { Says (memory_text file.now labels.now asm) out.old result out.new }
{
    let mut list = [0u32; LABELS];
    let n = unused::unused_labels(labels, asm, &mut list).unwrap_or(0) as usize;
    let found = set_lines(file);
    let mut text = [0u8; TEXT];
    let mut w = Writer {
        out: &mut text,
        at: 0,
    };
    put_labels(&list[..n], &found, &mut w);
    let k = w.at;
    print::put_text(&text[..k], out)
}

// ---- a deck file

// The text of the routine's answer, which left these labels and this record.
fn answer_text(
    file: &[u8],
    answer: Result<Outline, Refused>,
    labels: &Labels,
    asm: Asm,
    out: &mut [u8],
) -> Result<usize, TooLong>
    requires { Within (routine_answer answer) file.now }
    ensures { Says (summary_text (routine_answer answer) file.now labels.now asm)
        out.old result out.new }
{
    match answer {
        Ok(_) => labels_text(file, labels, asm, out),
        Err(refused) => print::refusal_line(
            refusal::number(refused.why),
            refused.place as u64,
            out,
        ),
    }
}

// A deck file's stale labels, a line for each: the label, and the line that sets it; or the refusal. Whole in `out`, or not at all.
// 11,264 bytes are enough.
pub fn deck_labels(file: &[u8], out: &mut [u8]) -> DeckLabels
    ensures { Puts (deck_labels file.now) 0 out.old result.text out.new
        × (routine_answer result.answer ≡ summary_answer (program_of 65536 file.now))
        × (length (deck_labels file.now) ≤ 11264) }
{
    let mut code = [0u8; ROOM];
    let mut labels = [0u64; LABELS];
    let mut jumps = [0u32; JUMPS];
    let left = routine::routine_in(file, &mut code, &mut labels, &mut jumps);
    let answer = left.answer;
    let asm = left.asm;
    let text = answer_text(file, answer, &labels, asm, out);
    DeckLabels { answer, text }
}
