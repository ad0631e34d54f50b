// Document 01, "The deck file": a line's kind and fields. Ranges are judged above (`deck`).
#![tactic(auto)]

ghost use Rattle.std.specs.Prelude.{◌≡◌, [], ◌∷◌};
ghost use Rattle.text.specs.Readers.{split, fields_from, next_from};
ghost use Rattle.form.specs.Text.{place_name, flag_name};
ghost use Rattle.form.specs.Inner.Syntax.{number, place, flag};
ghost use Rattle.form.specs.Inner.Read.{first, all_places, all_flags, read_values, fields_say};
ghost use Rattle.form.specs.Form.{form_of, formed};
ghost use Rattle.form.specs.Inner.Parts.{placed, flagged, celled, shaped, only, read_numbers, first_of};

mod name;

use ast::{Binary, Frame, Fused, Place, Scratched, Unary};
pub use name::{binary_at, fused_at, read_name, scratched_at, unary_at};
use text::Number;

// What a line's first word says.
#[derive(Clone, Copy)]
pub enum Kind {
    Head(Frame),
    Unary(Unary),
    Scratched(Scratched),
    Binary(Binary),
    Fused(Fused),
    Ifelse,
    LoadConst,
    Load,
    Save,
    BranchIf,
    SetLabel,
    Float,
    Bits,
}

// A line's kind and fields, in document 01's order.
#[derive(Clone, Copy)]
pub enum Form {
    Head(Frame, Number, Number, Number, Number, Number),
    Unary(Unary, Number, Number),
    Scratched(Scratched, Number, Number, Number),
    Binary(Binary, Number, Number, Number),
    Fused(Fused, Number, Number, Number, Number),
    Ifelse(Number, Number, Number, Number),
    LoadConst(Number, Number),
    Load(Number, Place, Number),
    Save(Number, Place, Number),
    BranchIf(Number, Number, bool),
    SetLabel(Number),
    // a minus, and the magnitude
    Float(bool, Number),
    Bits(u64),
}

// ---- forms: the fields behind the name start at a

// N number fields, to the line's end.
fn read_numbers<const N: usize>(s: &[u8], a: usize) -> Option<[Number; N]>
    ensures { result ≡ read_numbers N (fields_from s.now a) }
{
    let mut at = a;
    let mut all = [Number::Value(0); N];
    for i in 0..N {
        let (n, next) = text::number_at(s, at);
        all[i] = n?;
        at = next;
    }
    if s.len() < at { Some(all) } else { None }
}

pub fn read_place(s: &[u8]) -> Option<Place>
    ensures { result ≡ placed (first place_name s.now all_places) }
{
    // `match s { b"mem" => ..` is tried byte by byte in the proof, which leaves a goal for each byte that may differ
    if text::same(s, b"mem") {
        Some(Place::Mem)
    } else if text::same(s, b"stack") {
        Some(Place::Stack)
    } else if text::same(s, b"param") {
        Some(Place::Param)
    } else {
        None
    }
}

// The place word in the field that starts at a, and where the next field starts.
fn place_at(s: &[u8], a: usize) -> (Option<Place>, usize)
    ensures { result ≡ (placed (first_of place (fields_from s.now a)), next_from s.now a) }
{
    if s.len() < a {
        return (None, a);
    }
    let e = text::field_end(s, a);
    (read_place(&s[a..e]), e + 1)
}

// A register, a place and an index, to the line's end.
fn read_cell(s: &[u8], a: usize) -> Option<(Number, Place, Number)>
    ensures { result ≡ celled (read_values (number ∷ place ∷ number ∷ []) (fields_from s.now a)) }
{
    let (d, a) = text::number_at(s, a);
    let (p, a) = place_at(s, a);
    let [i] = read_numbers::<1>(s, a)?;
    Some((d?, p?, i))
}

fn read_flag(s: &[u8]) -> Option<bool>
    ensures { result ≡ flagged (first flag_name s.now all_flags) }
{
    if text::same(s, b"0") {
        Some(false)
    } else if text::same(s, b"1") {
        Some(true)
    } else {
        None
    }
}

// 0 or 1, in the line's last field.
pub fn last_flag(s: &[u8], a: usize) -> Option<bool>
    ensures { result ≡ flagged (only flag (fields_from s.now a)) }
{
    let e = text::field_end(s, a);
    if e != s.len() {
        return None;
    }
    read_flag(&s[a..e])
}

fn form_branch(s: &[u8], a: usize) -> Option<Form>
    ensures { result ≡ shaped Kind.BranchIf (fields_from s.now a) }
{
    let (c, a) = text::number_at(s, a);
    let (l, a) = text::number_at(s, a);
    let e = last_flag(s, a)?;
    Some(Form::BranchIf(c?, l?, e))
}

fn form_float(s: &[u8], a: usize) -> Option<Form>
    ensures { result ≡ shaped Kind.Float (fields_from s.now a) }
{
    if s.len() < a {
        return None;
    }
    let n = text::read_integer(&s[a..])?;
    Some(Form::Float(n.minus, n.magnitude))
}

fn form_bits(s: &[u8], a: usize) -> Option<Form>
    ensures { result ≡ shaped Kind.Bits (fields_from s.now a) }
{
    if s.len() < a {
        return None;
    }
    let n = text::read_word(&s[a..])?;
    Some(Form::Bits(n))
}

// The form of a line of kind k.
fn form_kind(k: Kind, s: &[u8], a: usize) -> Option<Form>
    ensures { result ≡ shaped k (fields_from s.now a) }
{
    Some(match k {
        Kind::Head(f) => {
            let [cap, states, obs, last, mask] = read_numbers::<5>(s, a)?;
            Form::Head(f, cap, states, obs, last, mask)
        }
        Kind::Unary(u) => {
            let [d, s] = read_numbers::<2>(s, a)?;
            Form::Unary(u, d, s)
        }
        Kind::Scratched(u) => {
            let [d, s, t] = read_numbers::<3>(s, a)?;
            Form::Scratched(u, d, s, t)
        }
        Kind::Binary(u) => {
            let [d, a, b] = read_numbers::<3>(s, a)?;
            Form::Binary(u, d, a, b)
        }
        Kind::Fused(u) => {
            let [d, a, b, c] = read_numbers::<4>(s, a)?;
            Form::Fused(u, d, a, b, c)
        }
        Kind::Ifelse => {
            let [d, a, b, i] = read_numbers::<4>(s, a)?;
            Form::Ifelse(d, a, b, i)
        }
        Kind::LoadConst => {
            let [d, k] = read_numbers::<2>(s, a)?;
            Form::LoadConst(d, k)
        }
        Kind::Load => {
            let (d, p, i) = read_cell(s, a)?;
            Form::Load(d, p, i)
        }
        Kind::Save => {
            let (d, p, i) = read_cell(s, a)?;
            Form::Save(d, p, i)
        }
        Kind::BranchIf => form_branch(s, a)?,
        Kind::SetLabel => {
            let [l] = read_numbers::<1>(s, a)?;
            Form::SetLabel(l)
        }
        Kind::Float => form_float(s, a)?,
        Kind::Bits => form_bits(s, a)?,
    })
}

// The form of a line without its byte 10.
fn form_body(s: &[u8]) -> Option<Form>
    ensures { result ≡ formed (fields_say (split s.now)) }
{
    let e = text::field_end(s, 0);
    let k = name::kind_named(&s[..e])?;
    form_kind(k, s, e + 1)
}

// The form of a line: that of the one text that it is; none is malformed.
pub fn read_form(line: &[u8]) -> Option<Form>
    ensures { result ≡ form_of line.now }
{
    form_body(line.strip_suffix(b"\n")?)
}
