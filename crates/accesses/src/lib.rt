// mod.rs, accesses: li, loads, stores, pairs and stack sizes. Each is placed whole, or refused and nothing changes.
// A plan's words are the encoder's answers, collected.
#![tactic(auto)]

ghost use Rattle.std.specs.Prelude.{◌≡◌, [], ◌∷◌, map, ◌+◌, ◌≤◌, ◌<◌, min, ltb, pos, neg_ℤ};
ghost use Rattle.isa.specs.Immediate.{lo};
ghost use Rattle.isa.specs.Instr.{I};
ghost use Rattle.assembler.specs.Item.{instr};
ghost use Rattle.assembler.specs.State.{SameLent, before, after};
ghost use Rattle.assembler.specs.Put.{put};
ghost use Rattle.assembler.specs.Plan.{operand_number, pushed};
ghost use Rattle.accesses.specs.Code.{low_op, li_code, point_code, load_float_code, save_float_code, load_int_code};
ghost use Rattle.accesses.specs.Code.{load_complex_code, save_complex_code, sub_stack_code, add_stack_code, allocate_stack_code};
ghost use Rattle.accesses.specs.Fault.{offset_limit, li_fault, access_fault, one_fault, pair_fault, stack_fault};
ghost use Rattle.accesses.specs.Plans.{answer_of, pushes, plan_of, access_instr};
ghost use Rattle.accesses.specs.Accessed.{accessed};
ghost use Rattle.accesses.specs.Inner.Plans.{settled_plan, one_code, pair_code};

use assembler::{Assembler, Fault, Plan, Tail};
use encoder::{Encoded, S5, SP, Sign, T0, ZERO};
use refusal::Refused;

// Offsets and stack sizes go to this.
const LIMIT: u32 = 0x7FFFFFFF;

// The first number that `lui` and `addi` don't load.
const TOP: u32 = 0x7FFFF800;

// The last register that starts a pair.
const LAST_PAIR: u32 = 30;

// ---- plans of up to twelve words

pub fn one(a: Encoded) -> Plan
    ensures { result ≡ pushes (a ∷ []) }
{
    Plan::new().push(a)
}

#[tactic(auto, unfolding(assembler::specs::Plan::pushed))]
pub fn two(a: Encoded, b: Encoded) -> Plan
    ensures { result ≡ pushes (a ∷ b ∷ []) }
{
    if let (Ok(x), Ok(y)) = (a, b) {
        return Plan {
            n: 2,
            fault: None,
            w: [x, y, 0, 0, 0, 0, 0, 0, 0, 0, 0, 0],
        };
    }
    one(a).push(b)
}

#[tactic(auto, unfolding(assembler::specs::Plan::pushed))]
pub fn four(a: Encoded, b: Encoded, c: Encoded, d: Encoded) -> Plan
    ensures { result ≡ pushes (a ∷ b ∷ c ∷ d ∷ []) }
{
    if let (Ok(x), Ok(y), Ok(z), Ok(u)) = (a, b, c, d) {
        return Plan {
            n: 4,
            fault: None,
            w: [x, y, z, u, 0, 0, 0, 0, 0, 0, 0, 0],
        };
    }
    let p = two(a, b).push(c);
    p.push(d)
}

// Of these words.
pub fn plan<const N: usize>(words: [Encoded; N]) -> Plan
    ensures { result ≡ pushes words.entry }
{
    let mut p = Plan::new();
    for e in words {
        p = p.push(e);
    }
    p
}

// ---- li

// The second word of n in two words: the low part is added.
pub fn low_word(d: u32, n: u32) -> Encoded
    ensures { result ≡ answer_of (I (low_op (pos n)) d d (lo n)) }
{
    if n < TOP {
        return encoder::addi(d, d, encoder::lo(n));
    }
    encoder::addiw(d, d, encoder::lo(n))
}

// d = n
fn li_unsigned(d: u32, n: u32) -> Plan
    ensures { result ≡ plan_of (li_code d (pos n)) }
{
    if n < 2048 {
        return one(encoder::addi(d, ZERO, n as i32));
    }
    two(encoder::lui(d, encoder::hi(n)), low_word(d, n))
}

pub fn li_plan(d: u32, z: i32) -> Plan
    ensures { result ≡ plan_of (li_code d z) }
{
    let s = encoder::split(z);
    match s {
        Sign::NonNeg(n) => li_unsigned(d, n),
        Sign::Neg(n) => {
            if n < 2048 {
                return one(encoder::addi(d, ZERO, z));
            }
            let x = 4294967295 - n;
            two(
                encoder::lui(d, encoder::hi(x)),
                encoder::addi(d, d, encoder::lo(x)),
            )
        }
    }
}

// ---- accesses: direct where the offset is near, else through t0

// t0 = base + n
fn point(base: u32, n: u32) -> Plan
    ensures { result ≡ plan_of (point_code base n) }
{
    li_unsigned(T0, n).push(encoder::add(T0, T0, base))
}

// The access `last` through t0 = base + n.
fn far(base: u32, n: u32, last: Encoded) -> Plan
    requires { 2048 ≤ n }
    ensures { result ≡ pushed (plan_of (point_code base n)) last }
{
    four(
        encoder::lui(T0, encoder::hi(n)),
        low_word(T0, n),
        encoder::add(T0, T0, base),
        last,
    )
}

// What an access does with a cell.
#[derive(Clone, Copy)]
pub enum Cell {
    LoadFloat,
    SaveFloat,
    LoadInt,
}

// The access of register r to the cell at base + z.
pub fn access_at(k: Cell, r: u32, base: u32, z: i32) -> Encoded
    ensures { result ≡ answer_of (access_instr k r base z) }
{
    match k {
        Cell::LoadFloat => encoder::fld(r, base, z),
        Cell::SaveFloat => encoder::fsd(r, base, z),
        Cell::LoadInt => encoder::ld(r, base, z),
    }
}

fn one_plan(k: Cell, r: u32, base: u32, n: u32) -> Plan
    ensures { result ≡ plan_of (one_code k r base n) }
{
    if n < 2048 {
        return one(access_at(k, r, base, n as i32));
    }
    far(base, n, access_at(k, r, T0, 0))
}

// Pairs are placed only where r is below 31, so the sum fits.
fn pair_plan(k: Cell, r: u32, base: u32, n: u32) -> Plan
    requires { (r < 31) × (n ≤ offset_limit) }
    ensures { result ≡ plan_of (pair_code k r base n) }
{
    if n < 2040 {
        return two(
            access_at(k, r, base, n as i32),
            access_at(k, r + 1, base, (n + 8) as i32),
        );
    }
    let p = point(base, n).push(access_at(k, r, T0, 0));
    p.push(access_at(k, r + 1, T0, 8))
}

// ---- stack sizes

// -n
fn minus(n: u32) -> i32
    requires { n ≤ offset_limit }
    ensures { result ≡ neg_ℤ (pos n) }
{
    0 - (n as i32)
}

fn sub_stack_plan(n: u32) -> Plan
    requires { n ≤ offset_limit }
    ensures { result ≡ plan_of (sub_stack_code n) }
{
    if n < 2048 {
        return one(encoder::addi(SP, SP, minus(n)));
    }
    li_plan(T0, minus(n)).push(encoder::add(SP, SP, T0))
}

fn add_stack_plan(n: u32) -> Plan
    requires { n ≤ offset_limit }
    ensures { result ≡ plan_of (add_stack_code n) }
{
    if n < 2048 {
        return one(encoder::addi(SP, SP, n as i32));
    }
    li_unsigned(T0, n).push(encoder::add(SP, SP, T0))
}

fn allocate_stack_plan(n: u32) -> Plan
    requires { n ≤ offset_limit }
    ensures { result ≡ plan_of (allocate_stack_code n) }
{
    if n < 2048 {
        return two(encoder::addi(SP, SP, minus(n)), encoder::mv(S5, SP));
    }
    let p = li_unsigned(T0, n).push(encoder::sub(SP, SP, T0));
    p.push(encoder::mv(S5, SP))
}

// ---- placed: all words, or a refusal and nothing

// The plan placed; or, where there is a fault, refused for that.
#[tactic(auto, unfolding(crate::specs::Inner::Plans::settled_plan))]
fn settle(asm: &mut Assembler<'_>, fault: Option<Fault>, p: Plan) -> Result<(), Refused>
    ensures whole { after result asm.new ≡ settled_plan (operand_number fault) p (before asm.old) }
    ensures lent { SameLent asm.old asm.new }
{
    match fault {
        None => asm.place(p, Tail::Nothing, 0),
        Some(_) => asm.place(
            Plan {
                fault,
                ..Plan::new()
            },
            Tail::Nothing,
            0,
        ),
    }
}

// What is refused of `li`: its register.
fn li_refusal(d: u32) -> Option<Fault>
    ensures { operand_number result ≡ li_fault d }
{
    if d < 32 { None } else { Some(Fault::Register) }
}

// For an access of one cell.
fn one_refusal(r: u32, base: u32, n: u32) -> Option<Fault>
    ensures { operand_number result ≡ one_fault r base n }
{
    if r >= 32 {
        return Some(Fault::Register);
    }
    access_refusal(2048, base, n)
}

// For an access of two cells.
fn pair_refusal(r: u32, base: u32, n: u32) -> Option<Fault>
    ensures { operand_number result ≡ pair_fault r base n }
{
    if r > LAST_PAIR {
        return Some(Fault::Register);
    }
    access_refusal(2040, base, n)
}

// For the base and the offset of an access that is direct below `near`.
fn access_refusal(near: u32, base: u32, n: u32) -> Option<Fault>
    ensures { operand_number result ≡ access_fault near (ltb base 32) base n }
{
    if base >= 32 {
        return Some(Fault::Register);
    }
    if n > LIMIT {
        return Some(Fault::Value);
    }
    if n < near {
        return None;
    }
    if base == T0 { Some(Fault::Base) } else { None }
}

fn stack_refusal(n: u32) -> Option<Fault>
    ensures { operand_number result ≡ stack_fault n }
{
    if n <= LIMIT { None } else { Some(Fault::Value) }
}

pub fn li(asm: &mut Assembler<'_>, d: u32, z: i32) -> Result<(), Refused>
    ensures whole { after result asm.new ≡ put 0 (li_fault d) (map instr (li_code d z)) (before asm.old) }
    ensures lent { SameLent asm.old asm.new }
{
    let f = li_refusal(d);
    settle(asm, f, li_plan(d, z))
}

// An access of one cell.
fn place_one(asm: &mut Assembler<'_>, k: Cell, r: u32, base: u32, n: u32) -> Result<(), Refused>
    ensures whole { after result asm.new ≡ put 0 (one_fault r base n) (map instr (one_code k r base n)) (before asm.old) }
    ensures lent { SameLent asm.old asm.new }
{
    let f = one_refusal(r, base, n);
    settle(asm, f, one_plan(k, r, base, n))
}

// An access of two cells.
fn place_pair(asm: &mut Assembler<'_>, k: Cell, r: u32, base: u32, n: u32) -> Result<(), Refused>
    ensures whole { after result asm.new ≡ put 0 (pair_fault r base n) (map instr (pair_code k r base n)) (before asm.old) }
    ensures lent { SameLent asm.old asm.new }
{
    let f = pair_refusal(r, base, n);
    let p = pair_plan(k, r.min(LAST_PAIR), base, n.min(LIMIT));
    settle(asm, f, p)
}

pub fn load_float(asm: &mut Assembler<'_>, d: u32, base: u32, n: u32) -> Result<(), Refused>
    ensures whole { after result asm.new ≡ put 0 (one_fault d base n) (map instr (load_float_code d base n)) (before asm.old) }
    ensures lent { SameLent asm.old asm.new }
{
    place_one(asm, Cell::LoadFloat, d, base, n)
}

pub fn save_float(asm: &mut Assembler<'_>, s: u32, base: u32, n: u32) -> Result<(), Refused>
    ensures whole { after result asm.new ≡ put 0 (one_fault s base n) (map instr (save_float_code s base n)) (before asm.old) }
    ensures lent { SameLent asm.old asm.new }
{
    place_one(asm, Cell::SaveFloat, s, base, n)
}

pub fn load_int(asm: &mut Assembler<'_>, d: u32, base: u32, n: u32) -> Result<(), Refused>
    ensures whole { after result asm.new ≡ put 0 (one_fault d base n) (map instr (load_int_code d base n)) (before asm.old) }
    ensures lent { SameLent asm.old asm.new }
{
    place_one(asm, Cell::LoadInt, d, base, n)
}

pub fn load_complex(asm: &mut Assembler<'_>, r: u32, base: u32, n: u32) -> Result<(), Refused>
    ensures whole { after result asm.new ≡ put 0 (pair_fault r base n) (map instr (load_complex_code r base n)) (before asm.old) }
    ensures lent { SameLent asm.old asm.new }
{
    place_pair(asm, Cell::LoadFloat, r, base, n)
}

pub fn save_complex(asm: &mut Assembler<'_>, r: u32, base: u32, n: u32) -> Result<(), Refused>
    ensures whole { after result asm.new ≡ put 0 (pair_fault r base n) (map instr (save_complex_code r base n)) (before asm.old) }
    ensures lent { SameLent asm.old asm.new }
{
    place_pair(asm, Cell::SaveFloat, r, base, n)
}

pub fn sub_stack(asm: &mut Assembler<'_>, n: u32) -> Result<(), Refused>
    ensures whole { after result asm.new ≡ put 0 (stack_fault n) (map instr (sub_stack_code n)) (before asm.old) }
    ensures lent { SameLent asm.old asm.new }
{
    let f = stack_refusal(n);
    let p = sub_stack_plan(n.min(LIMIT));
    settle(asm, f, p)
}

pub fn add_stack(asm: &mut Assembler<'_>, n: u32) -> Result<(), Refused>
    ensures whole { after result asm.new ≡ put 0 (stack_fault n) (map instr (add_stack_code n)) (before asm.old) }
    ensures lent { SameLent asm.old asm.new }
{
    let f = stack_refusal(n);
    let p = add_stack_plan(n.min(LIMIT));
    settle(asm, f, p)
}

pub fn allocate_stack(asm: &mut Assembler<'_>, n: u32) -> Result<(), Refused>
    ensures whole { after result asm.new ≡ put 0 (stack_fault n) (map instr (allocate_stack_code n)) (before asm.old) }
    ensures lent { SameLent asm.old asm.new }
{
    let f = stack_refusal(n);
    let p = allocate_stack_plan(n.min(LIMIT));
    settle(asm, f, p)
}

// ---- any access

// Register and value; register, base and offset; a size.
#[derive(Clone, Copy)]
pub enum Access {
    Li(u32, i32),
    LoadFloat(u32, u32, u32),
    SaveFloat(u32, u32, u32),
    LoadInt(u32, u32, u32),
    LoadComplex(u32, u32, u32),
    SaveComplex(u32, u32, u32),
    SubStack(u32),
    AddStack(u32),
    AllocateStack(u32),
}

pub fn lay_access(asm: &mut Assembler<'_>, a: Access) -> Result<(), Refused>
    ensures whole { after result asm.new ≡ accessed a (before asm.old) }
    ensures lent { SameLent asm.old asm.new }
{
    match a {
        Access::Li(d, z) => li(asm, d, z),
        Access::LoadFloat(d, base, n) => load_float(asm, d, base, n),
        Access::SaveFloat(s, base, n) => save_float(asm, s, base, n),
        Access::LoadInt(d, base, n) => load_int(asm, d, base, n),
        Access::LoadComplex(r, base, n) => load_complex(asm, r, base, n),
        Access::SaveComplex(r, base, n) => save_complex(asm, r, base, n),
        Access::SubStack(n) => sub_stack(asm, n),
        Access::AddStack(n) => add_stack(asm, n),
        Access::AllocateStack(n) => allocate_stack(asm, n),
    }
}
