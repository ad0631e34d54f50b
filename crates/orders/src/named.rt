// Each order by its name, one function for each as the Rust has them; those that leave jumps take a tag.
ghost use Rattle.std.specs.Prelude.{◌≡◌};
ghost use Rattle.assembler.specs.State.{SameLent, before, after};
ghost use Rattle.orders.specs.Emitted.{emitted};

use assembler::Assembler;
use ast::{Binary, Fused, Order, Place, Scratched, Unary};
use refusal::Refused;

pub fn fmov(asm: &mut Assembler<'_>, d: u32, s: u32) -> Result<(), Refused>
    ensures whole { after result asm.new ≡ emitted 0 (Order.Unary Unary.Fmov d s) (before asm.old) }
    ensures lent { SameLent asm.old asm.new }
{
    crate::emit(asm, Order::Unary(Unary::Fmov, d, s), 0)
}

pub fn recip(asm: &mut Assembler<'_>, d: u32, s: u32) -> Result<(), Refused>
    ensures whole { after result asm.new ≡ emitted 0 (Order.Unary Unary.Recip d s) (before asm.old) }
    ensures lent { SameLent asm.old asm.new }
{
    crate::emit(asm, Order::Unary(Unary::Recip, d, s), 0)
}

pub fn round(asm: &mut Assembler<'_>, d: u32, s: u32) -> Result<(), Refused>
    ensures whole { after result asm.new ≡ emitted 0 (Order.Unary Unary.Round d s) (before asm.old) }
    ensures lent { SameLent asm.old asm.new }
{
    crate::emit(asm, Order::Unary(Unary::Round, d, s), 0)
}

pub fn floor(asm: &mut Assembler<'_>, d: u32, s: u32) -> Result<(), Refused>
    ensures whole { after result asm.new ≡ emitted 0 (Order.Unary Unary.Floor d s) (before asm.old) }
    ensures lent { SameLent asm.old asm.new }
{
    crate::emit(asm, Order::Unary(Unary::Floor, d, s), 0)
}

pub fn not(asm: &mut Assembler<'_>, d: u32, s: u32) -> Result<(), Refused>
    ensures whole { after result asm.new ≡ emitted 0 (Order.Unary Unary.Not d s) (before asm.old) }
    ensures lent { SameLent asm.old asm.new }
{
    crate::emit(asm, Order::Unary(Unary::Not, d, s), 0)
}

pub fn sign(asm: &mut Assembler<'_>, d: u32, s: u32, t: u32) -> Result<(), Refused>
    ensures whole { after result asm.new ≡ emitted 0 (Order.Scratched Scratched.Sign d s t) (before asm.old) }
    ensures lent { SameLent asm.old asm.new }
{
    crate::emit(asm, Order::Scratched(Scratched::Sign, d, s, t), 0)
}

pub fn frac(asm: &mut Assembler<'_>, d: u32, s: u32, t: u32) -> Result<(), Refused>
    ensures whole { after result asm.new ≡ emitted 0 (Order.Scratched Scratched.Frac d s t) (before asm.old) }
    ensures lent { SameLent asm.old asm.new }
{
    crate::emit(asm, Order::Scratched(Scratched::Frac, d, s, t), 0)
}

pub fn minus(asm: &mut Assembler<'_>, d: u32, a: u32, b: u32) -> Result<(), Refused>
    ensures whole { after result asm.new ≡ emitted 0 (Order.Binary Binary.Minus d a b) (before asm.old) }
    ensures lent { SameLent asm.old asm.new }
{
    crate::emit(asm, Order::Binary(Binary::Minus, d, a, b), 0)
}

pub fn times(asm: &mut Assembler<'_>, d: u32, a: u32, b: u32) -> Result<(), Refused>
    ensures whole { after result asm.new ≡ emitted 0 (Order.Binary Binary.Times d a b) (before asm.old) }
    ensures lent { SameLent asm.old asm.new }
{
    crate::emit(asm, Order::Binary(Binary::Times, d, a, b), 0)
}

pub fn divide(asm: &mut Assembler<'_>, d: u32, a: u32, b: u32) -> Result<(), Refused>
    ensures whole { after result asm.new ≡ emitted 0 (Order.Binary Binary.Divide d a b) (before asm.old) }
    ensures lent { SameLent asm.old asm.new }
{
    crate::emit(asm, Order::Binary(Binary::Divide, d, a, b), 0)
}

pub fn gt(asm: &mut Assembler<'_>, d: u32, a: u32, b: u32) -> Result<(), Refused>
    ensures whole { after result asm.new ≡ emitted 0 (Order.Binary Binary.Gt d a b) (before asm.old) }
    ensures lent { SameLent asm.old asm.new }
{
    crate::emit(asm, Order::Binary(Binary::Gt, d, a, b), 0)
}

pub fn neq(asm: &mut Assembler<'_>, d: u32, a: u32, b: u32) -> Result<(), Refused>
    ensures whole { after result asm.new ≡ emitted 0 (Order.Binary Binary.Neq d a b) (before asm.old) }
    ensures lent { SameLent asm.old asm.new }
{
    crate::emit(asm, Order::Binary(Binary::Neq, d, a, b), 0)
}

pub fn and(asm: &mut Assembler<'_>, d: u32, a: u32, b: u32) -> Result<(), Refused>
    ensures whole { after result asm.new ≡ emitted 0 (Order.Binary Binary.And d a b) (before asm.old) }
    ensures lent { SameLent asm.old asm.new }
{
    crate::emit(asm, Order::Binary(Binary::And, d, a, b), 0)
}

pub fn andnot(asm: &mut Assembler<'_>, d: u32, a: u32, b: u32) -> Result<(), Refused>
    ensures whole { after result asm.new ≡ emitted 0 (Order.Binary Binary.Andnot d a b) (before asm.old) }
    ensures lent { SameLent asm.old asm.new }
{
    crate::emit(asm, Order::Binary(Binary::Andnot, d, a, b), 0)
}

pub fn or(asm: &mut Assembler<'_>, d: u32, a: u32, b: u32) -> Result<(), Refused>
    ensures whole { after result asm.new ≡ emitted 0 (Order.Binary Binary.Or d a b) (before asm.old) }
    ensures lent { SameLent asm.old asm.new }
{
    crate::emit(asm, Order::Binary(Binary::Or, d, a, b), 0)
}

pub fn xor(asm: &mut Assembler<'_>, d: u32, a: u32, b: u32) -> Result<(), Refused>
    ensures whole { after result asm.new ≡ emitted 0 (Order.Binary Binary.Xor d a b) (before asm.old) }
    ensures lent { SameLent asm.old asm.new }
{
    crate::emit(asm, Order::Binary(Binary::Xor, d, a, b), 0)
}

pub fn fused_mul_add(asm: &mut Assembler<'_>, d: u32, a: u32, b: u32, c: u32) -> Result<(), Refused>
    ensures whole { after result asm.new ≡ emitted 0 (Order.Fused Fused.MulAdd d a b c) (before asm.old) }
    ensures lent { SameLent asm.old asm.new }
{
    crate::emit(asm, Order::Fused(Fused::MulAdd, d, a, b, c), 0)
}

pub fn fused_mul_sub(asm: &mut Assembler<'_>, d: u32, a: u32, b: u32, c: u32) -> Result<(), Refused>
    ensures whole { after result asm.new ≡ emitted 0 (Order.Fused Fused.MulSub d a b c) (before asm.old) }
    ensures lent { SameLent asm.old asm.new }
{
    crate::emit(asm, Order::Fused(Fused::MulSub, d, a, b, c), 0)
}

pub fn fused_neg_mul_add(
    asm: &mut Assembler<'_>,
    d: u32,
    a: u32,
    b: u32,
    c: u32,
) -> Result<(), Refused>
    ensures whole { after result asm.new ≡ emitted 0 (Order.Fused Fused.NegMulAdd d a b c) (before asm.old) }
    ensures lent { SameLent asm.old asm.new }
{
    crate::emit(asm, Order::Fused(Fused::NegMulAdd, d, a, b, c), 0)
}

pub fn fused_neg_mul_sub(
    asm: &mut Assembler<'_>,
    d: u32,
    a: u32,
    b: u32,
    c: u32,
) -> Result<(), Refused>
    ensures whole { after result asm.new ≡ emitted 0 (Order.Fused Fused.NegMulSub d a b c) (before asm.old) }
    ensures lent { SameLent asm.old asm.new }
{
    crate::emit(asm, Order::Fused(Fused::NegMulSub, d, a, b, c), 0)
}

pub fn ifelse(asm: &mut Assembler<'_>, d: u32, a: u32, b: u32, i: u32) -> Result<(), Refused>
    ensures whole { after result asm.new ≡ emitted 0 (Order.Ifelse d a b i) (before asm.old) }
    ensures lent { SameLent asm.old asm.new }
{
    crate::emit(asm, Order::Ifelse(d, a, b, i), 0)
}

pub fn load_const(asm: &mut Assembler<'_>, d: u32, k: u32, tag: u32) -> Result<(), Refused>
    ensures whole { after result asm.new ≡ emitted tag (Order.LoadConst d k) (before asm.old) }
    ensures lent { SameLent asm.old asm.new }
{
    crate::emit(asm, Order::LoadConst(d, k), tag)
}

pub fn branch_if(asm: &mut Assembler<'_>, c: u32, l: u32, e: bool, tag: u32) -> Result<(), Refused>
    ensures whole { after result asm.new ≡ emitted tag (Order.BranchIf c l e) (before asm.old) }
    ensures lent { SameLent asm.old asm.new }
{
    crate::emit(asm, Order::BranchIf(c, l, e), tag)
}

pub fn set_label(asm: &mut Assembler<'_>, l: u32) -> Result<(), Refused>
    ensures whole { after result asm.new ≡ emitted 0 (Order.SetLabel l) (before asm.old) }
    ensures lent { SameLent asm.old asm.new }
{
    crate::emit(asm, Order::SetLabel(l), 0)
}

pub fn load_d_from_loc(asm: &mut Assembler<'_>, d: u32, p: Place, i: u32) -> Result<(), Refused>
    ensures whole { after result asm.new ≡ emitted 0 (Order.Load d p i) (before asm.old) }
    ensures lent { SameLent asm.old asm.new }
{
    crate::emit(asm, Order::Load(d, p, i), 0)
}

pub fn save_d_to_loc(asm: &mut Assembler<'_>, s: u32, p: Place, i: u32) -> Result<(), Refused>
    ensures whole { after result asm.new ≡ emitted 0 (Order.Save s p i) (before asm.old) }
    ensures lent { SameLent asm.old asm.new }
{
    crate::emit(asm, Order::Save(s, p, i), 0)
}

pub fn load_mem(asm: &mut Assembler<'_>, d: u32, i: u32) -> Result<(), Refused>
    ensures whole { after result asm.new ≡ emitted 0 (Order.Load d Place.Mem i) (before asm.old) }
    ensures lent { SameLent asm.old asm.new }
{
    crate::emit(asm, Order::Load(d, Place::Mem, i), 0)
}

pub fn load_stack(asm: &mut Assembler<'_>, d: u32, i: u32) -> Result<(), Refused>
    ensures whole { after result asm.new ≡ emitted 0 (Order.Load d Place.Stack i) (before asm.old) }
    ensures lent { SameLent asm.old asm.new }
{
    crate::emit(asm, Order::Load(d, Place::Stack, i), 0)
}

pub fn load_param(asm: &mut Assembler<'_>, d: u32, i: u32) -> Result<(), Refused>
    ensures whole { after result asm.new ≡ emitted 0 (Order.Load d Place.Param i) (before asm.old) }
    ensures lent { SameLent asm.old asm.new }
{
    crate::emit(asm, Order::Load(d, Place::Param, i), 0)
}

pub fn save_mem(asm: &mut Assembler<'_>, s: u32, i: u32) -> Result<(), Refused>
    ensures whole { after result asm.new ≡ emitted 0 (Order.Save s Place.Mem i) (before asm.old) }
    ensures lent { SameLent asm.old asm.new }
{
    crate::emit(asm, Order::Save(s, Place::Mem, i), 0)
}

pub fn save_stack(asm: &mut Assembler<'_>, s: u32, i: u32) -> Result<(), Refused>
    ensures whole { after result asm.new ≡ emitted 0 (Order.Save s Place.Stack i) (before asm.old) }
    ensures lent { SameLent asm.old asm.new }
{
    crate::emit(asm, Order::Save(s, Place::Stack, i), 0)
}
