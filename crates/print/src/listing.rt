// The listing (document 02, points 5 and 10): the text of a word's line, and of all words of the code.
ghost use Rattle.std.specs.Prelude.{◌≡◌, [], ◌∷◌, map, pos, ◌+◌, ◌*◌, ◌-◌, ◌≤◌, ◌<◌, leb, length, take, get_or};
ghost use Rattle.text.specs.Digits.{integer_bytes};
ghost use Rattle.encoder.specs.Instr.{instr_of};
ghost use Rattle.print.specs.Text.{words_of, Puts};
ghost use Rattle.print.specs.Writer.{HasRoom, Wrote};
ghost use Rattle.print.specs.Listing.{operands_text, shown, instr_line, data_line, listing_line, listing_lines, foreign};
ghost use Rattle.print.specs.Listing.{foreign_from, first_answer, hidden_line, hidden_half, view_line, view_lines, marked};
ghost use Rattle.print.specs.Inner.Listing.{names, name_at, lengths, Sound, value_text, values_text};

use crate::{TooLong, Writer};
use encoder::{Instr, Sign};

// The instructions' names in the order of the table of base words, eight bytes each.
const NAMES: [u8; 424] =
    *b"add     sub     sll     xor     srl     sra     or      and     fsgnj.d fsgnjn.dfsgnjx.dfmin.d  \
    fmax.d  fle.d   flt.d   feq.d   fadd.d  fsub.d  fmul.d  fdiv.d  fsqrt.d fcvt.w.dfcvt.l.dfcvt.d.w\
    fcvt.d.lfmv.x.d fmv.d.x fmadd.d fmsub.d fnmsub.dfnmadd.daddi    xori    ori     andi    jalr    \
    ld      fld     addiw   slli    srli    srai    sd      fsd     beq     bne     blt     bge     \
    bltu    bgeu    lui     auipc   jal     ";

const LENGTHS: [u8; 53] = [
    3, // add
    3, // sub
    3, // sll
    3, // xor
    3, // srl
    3, // sra
    2, // or
    3, // and
    7, // fsgnj.d
    8, // fsgnjn.d
    8, // fsgnjx.d
    6, // fmin.d
    6, // fmax.d
    5, // fle.d
    5, // flt.d
    5, // feq.d
    6, // fadd.d
    6, // fsub.d
    6, // fmul.d
    6, // fdiv.d
    7, // fsqrt.d
    8, // fcvt.w.d
    8, // fcvt.l.d
    8, // fcvt.d.w
    8, // fcvt.d.l
    7, // fmv.x.d
    7, // fmv.d.x
    7, // fmadd.d
    7, // fmsub.d
    8, // fnmsub.d
    8, // fnmadd.d
    4, // addi
    4, // xori
    3, // ori
    4, // andi
    4, // jalr
    2, // ld
    3, // fld
    5, // addiw
    4, // slli
    4, // srli
    4, // srai
    2, // sd
    3, // fsd
    3, // beq
    3, // bne
    3, // blt
    3, // bge
    4, // bltu
    4, // bgeu
    3, // lui
    5, // auipc
    3, // jal
];

// What stands behind an instruction's name: n numbers, 2^32 more for one with a minus.
#[derive(Clone, Copy)]
struct Operands {
    n: usize,
    values: [u64; 5],
}

// ---- an instruction's line

fn name_length(row: usize) -> usize
    requires { row < 53 }
    ensures { result ≡ get_or lengths row 0 }
{
    LENGTHS[row] as usize
}

// The table is lent, since an indexed constant is built anew at each use.
fn put_name(table: &[u8], row: usize, w: &mut Writer)
    requires { (table.now ≡ names) × (row < 53) × HasRoom (name_at row) w.old }
    ensures { Wrote (name_at row) w.old w.new }
{
    let a = 8 * row;
    let e = a + name_length(row);
    w.bytes(&table[a..e]);
}

fn value(z: i32) -> u64
    ensures { value_text result ≡ integer_bytes z }
{
    let s = encoder::split(z);
    match s {
        Sign::NonNeg(n) => n as u64,
        Sign::Neg(n) => 4294967297 + n as u64,
    }
}

fn two(a: u32, z: i32) -> Operands
    ensures { Sound result × (values_text (take result.n result.values) ≡ operands_text (pos a ∷ z ∷ [])) }
{
    let v = value(z);
    Operands {
        n: 2,
        values: [a as u64, v, 0, 0, 0],
    }
}

fn three(a: u32, b: u32, z: i32) -> Operands
    ensures { Sound result × (values_text (take result.n result.values) ≡ operands_text (pos a ∷ pos b ∷ z ∷ [])) }
{
    let v = value(z);
    Operands {
        n: 3,
        values: [a as u64, b as u64, v, 0, 0],
    }
}

// Up to five numbers without a sign.
fn numbers(n: usize, a: u32, b: u32, c: u32, d: u32, e: u32) -> Operands
    requires { n ≤ 5 }
    ensures { Sound result × (values_text (take result.n result.values) ≡ operands_text (map pos (take n (a ∷ b ∷ c ∷ d ∷ e ∷ [])))) }
{
    Operands {
        n,
        values: [a as u64, b as u64, c as u64, d as u64, e as u64],
    }
}

// Its operands in the order of `rvv!`.
fn operands_of(i: Instr) -> Operands
    ensures { Sound result × (values_text (take result.n result.values) ≡ operands_text (shown (instr_of i))) }
{
    match i {
        Instr::R(_, rd, rs1, rs2) => numbers(3, rd, rs1, rs2, 0, 0),
        Instr::F(_, rd, rs1, rs2, rm) => numbers(4, rd, rs1, rs2, rm, 0),
        Instr::C(_, rd, rs1, rm) => numbers(3, rd, rs1, rm, 0, 0),
        Instr::M(_, rd, rs1) => numbers(2, rd, rs1, 0, 0, 0),
        Instr::R4(_, rd, rs1, rs2, rs3, rm) => numbers(5, rd, rs1, rs2, rs3, rm),
        Instr::I(_, rd, rs1, imm) => three(rd, rs1, imm),
        Instr::Shift(_, rd, rs1, shamt) => three(rd, rs1, shamt),
        Instr::S(_, rs1, rs2, imm) => three(rs2, rs1, imm),
        Instr::B(_, rs1, rs2, offset) => three(rs1, rs2, offset),
        Instr::U(_, rd, imm) => two(rd, imm),
        Instr::J(rd, offset) => two(rd, offset),
    }
}

// ---- how long a line is

fn value_length(v: u64) -> usize
    ensures { (result ≡ length (value_text v)) × (result ≤ 21) }
{
    if v < 4294967296 {
        return crate::decimal_length(v);
    }
    crate::decimal_length(v - 4294967296) + 1
}

fn values_length(s: Operands) -> usize
    requires { Sound s }
    ensures { (result ≡ length (values_text (take s.n s.values))) × (result ≤ 110) }
{
    let values = s.values;
    let mut k = 0;
    for v in &values[..s.n] {
        k += value_length(*v) + 1;
    }
    k
}

fn instr_length(offset: u64, i: Instr) -> usize
    ensures { (result ≡ length (instr_line offset (instr_of i))) × (result ≤ 140) }
{
    crate::decimal_length(offset) + name_length(encoder::row(i)) + values_length(operands_of(i)) + 2
}

fn line_length(constants: usize, offset: usize, word: u32) -> usize
    ensures { (result ≡ length (listing_line constants offset word)) × (result ≤ 140) }
{
    if offset >= constants {
        return crate::decimal_length(offset as u64) + 15;
    }
    match decoder::decode(word) {
        Some(i) => instr_length(offset as u64, i),
        None => 0,
    }
}

// ---- a line where there is room

fn put_value(v: u64, w: &mut Writer)
    requires { HasRoom (value_text v) w.old }
    ensures { Wrote (value_text v) w.old w.new }
{
    if v < 4294967296 {
        w.decimal(v);
        return;
    }
    w.byte(b'-');
    w.decimal(v - 4294967296);
}

// A number, and the comma before it.
fn put_next(v: u64, w: &mut Writer)
    requires { HasRoom (44 ∷ value_text v) w.old }
    ensures { Wrote (44 ∷ value_text v) w.old w.new }
{
    w.byte(b',');
    put_value(v, w);
}

fn put_values(s: Operands, w: &mut Writer)
    requires { Sound s × HasRoom (values_text (take s.n s.values)) w.old }
    ensures { Wrote (values_text (take s.n s.values)) w.old w.new }
{
    let values = s.values;
    for v in &values[..s.n] {
        put_next(*v, w);
    }
}

fn put_instr(table: &[u8], offset: u64, i: Instr, w: &mut Writer)
    requires { (table.now ≡ names) × HasRoom (instr_line offset (instr_of i)) w.old }
    ensures { Wrote (instr_line offset (instr_of i)) w.old w.new }
{
    w.decimal(offset);
    w.byte(b',');
    put_name(table, encoder::row(i), w);
    put_values(operands_of(i), w);
    w.byte(b'\n');
}

#[tactic(auto, using(crate::proofs::Listings::length_data_line, crate::proofs::Lines::length_hex))]
fn put_data(offset: u64, word: u32, w: &mut Writer)
    requires { HasRoom (data_line offset word) w.old }
    ensures { Wrote (data_line offset word) w.old w.new }
{
    w.decimal(offset);
    w.bytes(b",data,");
    w.hex(word);
    w.byte(b'\n');
}

fn put_line(table: &[u8], constants: usize, offset: usize, word: u32, w: &mut Writer)
    requires { (table.now ≡ names) × HasRoom (listing_line constants offset word) w.old }
    ensures { Wrote (listing_line constants offset word) w.old w.new }
{
    if offset >= constants {
        put_data(offset as u64, word, w);
        return;
    }
    match decoder::decode(word) {
        Some(i) => put_instr(table, offset as u64, i, w),
        None => {}
    }
}

// ---- a line that may be hidden

// The word at this offset is a half of a constant that has a mark.
fn is_hidden(marks: &[u8], constants: usize, offset: usize) -> bool
    ensures { result ≡ hidden_half (marked marks.now) constants offset }
{
    if offset < constants {
        return false;
    }
    let k = (offset - constants) / 8;
    if k >= marks.len() {
        return false;
    }
    marks[k] != 0
}

#[tactic(auto, using(crate::proofs::Listings::length_hidden_line))]
fn put_hidden(offset: u64, w: &mut Writer)
    requires { HasRoom (hidden_line offset) w.old }
    ensures { Wrote (hidden_line offset) w.old w.new }
{
    w.decimal(offset);
    w.bytes(b",data,--------\n");
}

// A hidden line is as long as one that shows.
fn put_view_line(
    table: &[u8],
    marks: &[u8],
    constants: usize,
    offset: usize,
    word: u32,
    w: &mut Writer,
)
    requires { (table.now ≡ names) × HasRoom (listing_line constants offset word) w.old }
    ensures { Wrote (view_line (marked marks.now) constants offset word) w.old w.new }
{
    if is_hidden(marks, constants, offset) {
        put_hidden(offset as u64, w);
        return;
    }
    put_line(table, constants, offset, word, w);
}

// ---- all lines

// Whether the lines fit into room bytes; a hidden one is as long as one that shows.
fn lines_fit(code: &[u8], constants: usize, room: usize) -> bool
    ensures { result ≡ leb (length (listing_lines constants 0 (words_of code.now))) room }
{
    let mut left = room;
    for j in 0..code.len() / 4 {
        let k = line_length(constants, 4 * j, crate::word_at(code, 4 * j));
        if left < k {
            return false;
        }
        left -= k;
    }
    true
}

// The same; room for the longest listing of 65,536 bytes needs no count.
fn have_room(code: &[u8], constants: usize, room: usize) -> bool
    ensures { result ≡ leb (length (listing_lines constants 0 (words_of code.now))) room }
{
    if code.len() > 65536 {
        return lines_fit(code, constants, room);
    }
    if room < 475136 {
        return lines_fit(code, constants, room);
    }
    true
}

fn put_lines(code: &[u8], constants: usize, marks: &[u8], w: &mut Writer)
    requires { HasRoom (listing_lines constants 0 (words_of code.now)) w.old }
    ensures { Wrote (view_lines (marked marks.now) constants 0 (words_of code.now)) w.old w.new }
{
    let table = NAMES;
    for j in 0..code.len() / 4 {
        put_view_line(
            &table,
            marks,
            constants,
            4 * j,
            crate::word_at(code, 4 * j),
            w,
        );
    }
}

// The lines of code whose constants start at `constants`, but for the digits of the constants that have a mark; a foreign word before
// them has no line.
pub fn view_text(
    code: &[u8],
    constants: usize,
    marks: &[u8],
    out: &mut [u8],
) -> Result<usize, TooLong>
    ensures { Puts (view_lines (marked marks.now) constants 0 (words_of code.now)) 0
        out.old result out.new }
{
    if !have_room(code, constants, out.len()) {
        return Err(TooLong);
    }
    let mut w = Writer { out, at: 0 };
    put_lines(code, constants, marks, &mut w);
    Ok(w.at)
}

// The same with nothing hidden.
pub fn lines_text(code: &[u8], constants: usize, out: &mut [u8]) -> Result<usize, TooLong>
    ensures { Puts (listing_lines constants 0 (words_of code.now)) 0 out.old result out.new }
{
    view_text(code, constants, &code[..0], out)
}

// ---- foreign words

fn is_foreign(constants: usize, offset: usize, word: u32) -> bool
    ensures { result ≡ foreign constants offset word }
{
    offset < constants && decoder::decode(word).is_none()
}

// Where the first word before the constants stands that no accepted instruction has.
pub fn first_foreign(code: &[u8], constants: usize) -> Option<usize>
    ensures { first_answer result ≡ foreign_from constants 0 (words_of code.now) }
{
    for j in 0..code.len() / 4 {
        if is_foreign(constants, 4 * j, crate::word_at(code, 4 * j)) {
            return Some(4 * j);
        }
    }
    None
}
