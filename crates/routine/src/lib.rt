// Document 01, "Added: the routine".
#![tactic(auto)]

ghost use Rattle.std.specs.Prelude.{◌≡◌, [], Err, OnOk, ◌≤◌, length, drop, replicate};
ghost use Rattle.text.specs.Lines.{lines_of};
ghost use Rattle.assembler.specs.State.{SameLent, before, after};
ghost use Rattle.assembler.specs.Put.{put};
ghost use Rattle.ast.specs.Constant.{constant_limit};
ghost use Rattle.call.specs.Layout.{padding};
ghost use Rattle.routine.specs.Run.{cleared, enter_run, finish_run, leave_run, says, line_run};
ghost use Rattle.routine.specs.Run.{lines_run, file_run, whole_run, run};
ghost use Rattle.routine.specs.Routine.{Promise};
ghost use Rattle.routine.specs.Inner.Places.{constant_at, constants_at, is_constant, on_line, run_left, done, Waits, Placed, Unwound, Open, Entered};
ghost use Rattle.routine.specs.Answer.{routine_answer, run_after};

use assembler::{Asm, Assembler, JUMPS, Jumps, LABELS, Labels, ROOM};
use ast::{Constant, Frame, Head};
use deck::Line;
use refusal::{Refusal, Refused};

// At most so many constants.
const CONSTANTS: usize = 1008;

// What is told of an accepted file: the code's length, the constants' offset and count, the jump count, the frame.
#[derive(Clone, Copy)]
pub struct Outline {
    pub length: u32,
    pub offset: u32,
    pub constants: u32,
    pub jumps: u32,
    pub frame: Frame,
}

// The answer, a refusal with its line, and the record that is left.
#[derive(Clone, Copy)]
pub struct RoutineResult {
    pub asm: Asm,
    pub answer: Result<Outline, Refused>,
}

// The refusal gets its line.
fn on_line(r: Result<(), Refused>, line: u32) -> Result<(), Refused>
    ensures { result ≡ on_line r line }
{
    r.map_err(|e| Refused {
        why: e.why,
        place: line,
    })
}

// Refused at a line.
fn refused(why: Refusal, line: u32) -> Result<Outline, Refused>
    ensures { result ≡ Err (record { why = why; place = line }) }
{
    Err(Refused { why, place: line })
}

// ---- the lent memory

fn zero(bytes: &mut [u8])
    ensures { bytes.new ≡ replicate (length bytes.old) 0 }
{
    for b in bytes.iter_mut() {
        *b = 0;
    }
}

// Zeros in the room.
fn clear(buf: &mut [u8])
    ensures { buf.new ≡ cleared buf.old }
{
    let n = buf.len().min(ROOM);
    zero(&mut buf[..n]);
}

// ---- line 1

// Prologue and saves.
fn enter(asm: &mut Assembler<'_>, head: Head) -> Result<(), Refused>
    ensures whole { Entered head (before asm.old) (after result asm.new) }
    ensures lent { SameLent asm.old asm.new }
{
    frames::prologue(asm, head, 1)?;
    frames::save_used_registers(asm, head.mask)
}

// ---- behind the body

// Finishing; constants start at `at`, and there are n.
fn close(asm: &mut Assembler<'_>, head: Head, at: usize, n: usize) -> Result<Outline, Refused>
    requires { (at ≤ 65536) × (n ≤ constant_limit) }
    ensures whole { run_left result asm.new ≡ finish_run head at n (before asm.old) }
    ensures lent { SameLent asm.old asm.new }
{
    if let Err(e) = finish::apply_jumps(asm.buf, asm.labels, asm.jumps, &mut asm.asm) {
        return refused(e.refused.why, e.tag);
    }
    Ok(Outline {
        length: asm.asm.len as u32,
        offset: at as u32,
        constants: n as u32,
        jumps: asm.asm.jumps as u32,
        frame: head.frame,
    })
}

// Reloads and epilogue, at the last line.
fn unwind(asm: &mut Assembler<'_>, head: Head, line: u32) -> Result<(), Refused>
    ensures whole { Unwound head line (before asm.old) (after result asm.new) }
    ensures open { OnOk result (Open (before asm.new)) }
    ensures lent { SameLent asm.old asm.new }
{
    frames::load_used_registers(asm, head.mask)?;
    frames::epilogue(asm, head, line)
}

// A nop, if constants follow and the length is no multiple of 8.
fn pad(asm: &mut Assembler<'_>, n: usize) -> Result<(), Refused>
    requires { Open (before asm.old) }
    ensures whole { after result asm.new ≡ put 0 0 (padding asm.old.asm.len n) (before asm.old) }
    ensures lent { SameLent asm.old asm.new }
{
    if n == 0 {
        return Ok(());
    }
    if asm.asm.len % 8 == 0 {
        return Ok(());
    }
    asm.append_word(encoder::nop().unwrap_or(0))
}

// The constant of the line that starts at `place`; 0 where there is none.
fn constant_at(file: &[u8], place: u16) -> Constant
    ensures { result ≡ constant_at file.now place }
{
    let p = place as usize;
    if file.len() <= p {
        return Constant::Bits(0);
    }
    let e = lines::line_end(file, p);
    match deck::read_line(false, &file[p..e]) {
        Ok(Line::Constant(c)) => c,
        Ok(Line::Head(_)) => Constant::Bits(0),
        Ok(Line::Order(_)) => Constant::Bits(0),
        Err(_) => Constant::Bits(0),
    }
}

// The constants at these places.
fn constants(asm: &mut Assembler<'_>, file: &[u8], places: &[u16]) -> Result<(), Refused>
    requires { length places.now ≤ constant_limit }
    ensures whole { Placed (constants_at file.now places.now) (before asm.old) (after result asm.new) }
    ensures lent { SameLent asm.old asm.new }
{
    for (k, place) in places.iter().enumerate() {
        let c = constant_at(file, *place);
        asm.append_const(k as u32, c)?;
    }
    Ok(())
}

// All that comes behind the body: reloads, epilogue, a nop or none, the constants at these places, finishing.
fn leave(
    asm: &mut Assembler<'_>,
    file: &[u8],
    places: &[u16],
    head: Head,
    line: u32,
) -> Result<Outline, Refused>
    requires { length places.now ≤ constant_limit }
    ensures whole { run_left result asm.new ≡ leave_run head line (constants_at file.now places.now) (before asm.old) }
    ensures lent { SameLent asm.old asm.new }
{
    let n = places.len();
    on_line(unwind(asm, head, line), line)?;
    on_line(pad(asm, n), line)?;
    let at = asm.asm.len;
    on_line(constants(asm, file, places), line)?;
    close(asm, head, at, n)
}

// ---- the body

// A line by what it says, behind k constants: an order is emitted, a constant waits. Whether it is one that waits.
fn take_line(
    asm: &mut Assembler<'_>,
    head: Head,
    n: u32,
    k: usize,
    line: &[u8],
) -> Result<bool, Refused>
    ensures whole { after (done result) asm.new ≡ line_run head n k (says line.now) (before asm.old) }
    ensures waits { Waits result (is_constant (says line.now)) }
    ensures lent { SameLent asm.old asm.new }
{
    match deck::read_line(false, line) {
        Ok(Line::Order(o)) => {
            orders::emit_in(asm, head, n, o)?;
            Ok(false)
        }
        Ok(Line::Constant(_)) => {
            if k < CONSTANTS {
                Ok(true)
            } else {
                Err(Refused {
                    why: Refusal::Count,
                    place: 0,
                })
            }
        }
        Ok(Line::Head(_)) => Err(Refused {
            why: Refusal::Line,
            place: 0,
        }),
        Err(why) => Err(Refused { why, place: 0 }),
    }
}

// The lines from byte `at` on, behind line 1.
fn body(asm: &mut Assembler<'_>, file: &[u8], mut at: usize, head: Head) -> Result<Outline, Refused>
    requires { (length file.now ≤ 65536) × (at ≤ length file.now) }
    ensures whole { run_left result asm.new ≡ lines_run head 1 [] (lines_of (drop at file.now)) (before asm.old) }
    ensures lent { SameLent asm.old asm.new }
{
    let mut places = [0u16; CONSTANTS];
    let mut k = 0;
    let mut n: u32 = 1;
    // No `for`: a line starts where the one before ends, and a constant's place is kept.
    while at < file.len() {
        let place = at;
        at = lines::line_end(file, place);
        n += 1;
        if fast::line(head, n, &file[place..at], asm) {
            continue;
        }
        match take_line(asm, head, n, k, &file[place..at]) {
            Ok(false) => {}
            Ok(true) => {
                places[k] = place as u16;
                k += 1;
            }
            Err(e) => return refused(e.why, n),
        }
    }
    leave(asm, file, &places[..k], head, n)
}

// ---- the whole

// A file whose line 1 is the head, and ends at byte `at`.
fn read_headed(
    asm: &mut Assembler<'_>,
    file: &[u8],
    at: usize,
    head: Head,
) -> Result<Outline, Refused>
    requires { (length file.now ≤ 65536) × (at ≤ length file.now) }
    ensures whole { run_left result asm.new ≡ enter_run head (before asm.old) (lines_run head 1 [] (lines_of (drop at file.now))) }
    ensures lent { SameLent asm.old asm.new }
{
    on_line(enter(asm, head), 1)?;
    body(asm, file, at, head)
}

fn read_file(asm: &mut Assembler<'_>, file: &[u8]) -> Result<Outline, Refused>
    ensures whole { run_left result asm.new ≡ file_run file.now (before asm.old) }
    ensures lent { SameLent asm.old asm.new }
{
    if file.len() > 65536 {
        return refused(Refusal::Full, 1);
    }
    if file.len() == 0 {
        return refused(Refusal::Line, 1);
    }
    let e = lines::line_end(file, 0);
    match deck::read_line(true, &file[..e]) {
        Ok(Line::Head(h)) => read_headed(asm, file, e, h),
        Ok(Line::Order(_)) => refused(Refusal::Line, 1),
        Ok(Line::Constant(_)) => refused(Refusal::Line, 1),
        Err(why) => refused(why, 1),
    }
}

// A refused file leaves zeros.
fn read_whole(asm: &mut Assembler<'_>, file: &[u8]) -> Result<Outline, Refused>
    ensures whole { run_left result asm.new ≡ whole_run file.now (before asm.old) }
    ensures lent { SameLent asm.old asm.new }
{
    let answer = read_file(asm, file);
    if answer.is_err() {
        clear(asm.buf);
    }
    answer
}

// The routine in lent label and jump memory, for a caller that looks at them afterwards.
pub fn routine_in(
    file: &[u8],
    buf: &mut [u8],
    labels: &mut Labels,
    jumps: &mut Jumps,
) -> RoutineResult
    ensures { run_after result labels jumps buf ≡ run file.now jumps.old buf.old }
{
    clear(buf);
    *labels = [0u64; LABELS];
    let empty = Asm {
        len: 0,
        jumps: 0,
        closed: false,
    };
    let mut asm = Assembler {
        buf,
        labels,
        jumps,
        asm: empty,
    };
    let answer = read_whole(&mut asm, file);
    RoutineResult {
        asm: asm.asm,
        answer,
    }
}

// The routine: the code in the buffer with zeros behind it, or the refusal and zeros.
pub fn routine(file: &[u8], buf: &mut [u8]) -> Result<Outline, Refused>
    ensures { Promise file.now buf.old (routine_answer result) buf.new }
{
    let mut labels = [0u64; LABELS];
    let mut jumps = [0u32; JUMPS];
    routine_in(file, buf, &mut labels, &mut jumps).answer
}
