// Document 01, "The deck file" and "Numbers of refusal": what a line says, or why it is refused.
#![tactic(auto)]

ghost use Rattle.std.specs.Prelude.{◌≡◌, ◌^◌, ◌≤◌};
ghost use Rattle.refusal.specs.declared.Refusal.TheVariants.{Register, Label, Count};
ghost use Rattle.form.specs.Grammar.{said};
ghost use Rattle.deck.specs.Judge.{line_answer, line_judged};
ghost use Rattle.deck.specs.Inner.Forms.{form_judged, form_is_head};
ghost use Rattle.deck.specs.Inner.Parts.{Bounds};

use ast::{Constant, Frame, Head, Order};
use form::Form;
use refusal::Refusal;
use text::Number;

// What an accepted line says.
#[derive(Clone, Copy)]
pub enum Line {
    Head(Head),
    Order(Order),
    Constant(Constant),
}

// ---- numbers below their bounds

fn below(n: Number, bound: u64, why: Refusal) -> Result<u32, Refusal>
    requires { bound ≤ 2 ^ 32 }
    ensures { Bounds bound why n result }
{
    match n {
        Number::Value(v) if v < bound => Ok(v as u32),
        Number::Value(_) => Err(why),
        Number::TooBig => Err(why),
    }
}

fn register(n: Number) -> Result<u32, Refusal>
    ensures { Bounds 32 Register n result }
{
    below(n, 32, Refusal::Register)
}

// The index of a cell.
fn index(n: Number) -> Result<u32, Refusal>
    ensures { Bounds 4096 Count n result }
{
    below(n, 4096, Refusal::Count)
}

fn constant_index(n: Number) -> Result<u32, Refusal>
    ensures { Bounds 1008 Count n result }
{
    below(n, 1008, Refusal::Count)
}

// A user's label.
fn label(n: Number) -> Result<u32, Refusal>
    ensures { Bounds 1024 Label n result }
{
    below(n, 1024, Refusal::Label)
}

fn count(n: Number) -> Result<u32, Refusal>
    ensures { Bounds 4097 Count n result }
{
    below(n, 4097, Refusal::Count)
}

// ---- lines

#[tactic(auto, unfolding(crate::specs::Inner::Forms::form_judged))]
fn judge_head(
    frame: Frame,
    cap: Number,
    states: Number,
    obs: Number,
    last: Number,
    mask: Number,
) -> Result<Line, Refusal>
    ensures { line_answer result ≡ form_judged (Form.Head frame cap states obs last mask) }
{
    let mask = below(mask, 0x100000000, Refusal::Value)?;
    let h = Head {
        frame,
        cap: count(cap)?,
        states: count(states)?,
        obs: count(obs)?,
        last: count(last)?,
        mask,
    };
    if ast::counts_hold(h) {
        Ok(Line::Head(h))
    } else {
        Err(Refusal::Count)
    }
}

// A whole number of magnitude at most 2^53, as a float.
#[tactic(auto, unfolding(crate::specs::Inner::Forms::form_judged))]
fn judge_float(minus: bool, n: Number) -> Result<Line, Refusal>
    ensures { line_answer result ≡ form_judged (Form.Float minus n) }
{
    let Number::Value(v) = n else {
        return Err(Refusal::Value);
    };
    if v > 9007199254740992 {
        return Err(Refusal::Value);
    }
    let x = if minus {
        -(v as i64) as f64
    } else {
        v as i64 as f64
    };
    Ok(Line::Constant(Constant::Float(x)))
}

// What a form says, or its refusal.
#[tactic(auto, unfolding(crate::specs::Inner::Forms::form_judged))]
pub fn judge(form: Form) -> Result<Line, Refusal>
    ensures { line_answer result ≡ form_judged form }
{
    let order = match form {
        Form::Head(f, c, s, o, l, m) => return judge_head(f, c, s, o, l, m),
        Form::Unary(u, d, s) => Order::Unary(u, register(d)?, register(s)?),
        Form::Scratched(u, d, s, t) => Order::Scratched(
            u,
            register(d)?,
            register(s)?,
            register(t)?,
        ),
        Form::Binary(u, d, a, b) => Order::Binary(u, register(d)?, register(a)?, register(b)?),
        Form::Fused(u, d, a, b, c) => {
            Order::Fused(u, register(d)?, register(a)?, register(b)?, register(c)?)
        }
        Form::Ifelse(d, a, b, i) => {
            Order::Ifelse(register(d)?, register(a)?, register(b)?, index(i)?)
        }
        Form::LoadConst(d, k) => Order::LoadConst(register(d)?, constant_index(k)?),
        Form::Load(d, p, i) => Order::Load(register(d)?, p, index(i)?),
        Form::Save(s, p, i) => Order::Save(register(s)?, p, index(i)?),
        Form::BranchIf(c, l, e) => Order::BranchIf(register(c)?, label(l)?, e),
        Form::SetLabel(l) => Order::SetLabel(label(l)?),
        Form::Float(minus, n) => return judge_float(minus, n),
        Form::Bits(n) => return Ok(Line::Constant(Constant::Bits(n))),
    };
    Ok(Line::Order(order))
}

fn is_head(form: Form) -> bool
    ensures { result ≡ form_is_head form }
{
    matches!(form, Form::Head(..))
}

// A line of a file, with its byte 10. The first is a head, and no other is.
#[tactic(auto, using(crate::proofs::Forms::no_form, crate::proofs::Forms::has_form))]
pub fn read_line(first: bool, line: &[u8]) -> Result<Line, Refusal>
    ensures { line_answer result ≡ line_judged first (said line.now) }
{
    let form = form::read_form(line).ok_or(Refusal::Line)?;
    if is_head(form) == first {
        judge(form)
    } else {
        Err(Refusal::Line)
    }
}
