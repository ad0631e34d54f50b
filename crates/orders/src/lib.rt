// mod.rs, orders: the words of each order, all or nothing. Registers are physical.
#![tactic(auto)]

ghost use Rattle.std.specs.Prelude.{◌≡◌, cond, [], ◌++◌, map, ◌≤◌, leb, length};
ghost use Rattle.assembler.specs.Item.{instr};
ghost use Rattle.assembler.specs.State.{SameLent, before, after};
ghost use Rattle.assembler.specs.Put.{targets};
ghost use Rattle.assembler.specs.Plan.{operand_number, refusal_of, tail_items, tail_fault};
ghost use Rattle.refusal.specs.Number.{number_of};
ghost use Rattle.orders.specs.Code.{code};
ghost use Rattle.orders.specs.Fault.{fault as fault_of, operand_fault};
ghost use Rattle.orders.specs.Emitted.{items, emitted, count_fault, unsaved_fault, emitted_in};
ghost use Rattle.orders.specs.Inner.Parts.{instrs, tail_of};

pub mod named;
mod write;

use assembler::{Assembler, Fault, JumpKind, Plan, Tail};
use ast::{Head, Operand, Order};
use encoder::ZERO;
use refusal::Refused;
pub use write::{
    is_roomy, write_binary, write_fused, write_ifelse, write_load, write_save, write_scratched,
    write_unary,
};

// ---- refusals

// The last index of a cell: 8 times the next is above 0x7FFFFFFF.
const LAST_CELL: u32 = 0xFFFFFFF;

const LAST_CONSTANT: u32 = 1007;

const LAST_LABEL: u32 = 1023;

// A number that has a last.
fn up_to(n: u32, last: u32, above: Fault) -> Option<Fault>
    ensures { operand_number result ≡ cond (leb n last) 0 (number_of (refusal_of above)) }
{
    if n <= last { None } else { Some(above) }
}

fn operand_fault(x: Operand) -> Option<Fault>
    ensures { operand_number result ≡ operand_fault x }
{
    match x {
        Operand::Nothing => None,
        Operand::Loaded(_, i) | Operand::Stored(_, i) => up_to(i, LAST_CELL, Fault::Value),
        Operand::Constant(k) => up_to(k, LAST_CONSTANT, Fault::Count),
        Operand::GoneTo(l) | Operand::Set(l) => up_to(l, LAST_LABEL, Fault::Label),
    }
}

// What is refused of an order's operands.
pub fn fault(o: Order) -> Option<Fault>
    ensures { operand_number result ≡ fault_of o }
{
    if ast::registers_fit(o) {
        operand_fault(ast::uses(o).operand)
    } else {
        Some(Fault::Register)
    }
}

// ---- placed

// The jumps behind an order's instructions.
fn tail(o: Order) -> Tail
    requires { fault_of o ≡ 0 }
    ensures { result ≡ tail_of o }
{
    match o {
        Order::LoadConst(d, k) => Tail::Pair(JumpKind::Fld, 1024 + k, d),
        Order::BranchIf(_, l, _) => Tail::Pair(JumpKind::Jalr, l, ZERO),
        Order::Unary(_, _, _) | Order::Scratched(_, _, _, _) => Tail::Nothing,
        Order::Binary(_, _, _, _) | Order::Fused(_, _, _, _, _) => Tail::Nothing,
        Order::Ifelse(_, _, _, _) | Order::Load(_, _, _) => Tail::Nothing,
        Order::Save(_, _, _) | Order::SetLabel(_) => Tail::Nothing,
    }
}

// Instructions and the jumps behind them: asked for as a whole, then written.
fn place(asm: &mut Assembler<'_>, o: Order, t: Tail, tag: u32) -> Result<(), Refused>
    requires { (fault_of o ≡ 0) × (code o ≡ map instr (instrs o) ++ tail_items t) × (tail_fault t ≡ 0) }
    ensures whole { after result asm.new ≡ emitted tag o (before asm.old) }
    ensures lent { SameLent asm.old asm.new }
{
    let n = write::needed(o, asm.buf.len(), asm.asm.len);
    asm.check_tail(None, n, t)?;
    asm.asm.len = write::put_instrs(o, asm.buf, asm.asm.len);
    asm.place(Plan::new(), t, tag)
}

// Any order: done, or refused and nothing changes. `tag` is the caller's own number, kept with each jump.
pub fn emit(asm: &mut Assembler<'_>, o: Order, tag: u32) -> Result<(), Refused>
    ensures whole { after result asm.new ≡ emitted tag o (before asm.old) }
    ensures lent { SameLent asm.old asm.new }
{
    let f = fault(o);
    if f.is_some() {
        return asm.check_tail(f, 0, Tail::Nothing);
    }
    match o {
        Order::SetLabel(l) => asm.set_label(l),
        Order::LoadConst(_, _) => asm.place(Plan::new(), tail(o), tag),
        Order::Unary(_, _, _)
        | Order::Scratched(_, _, _, _)
        | Order::Binary(_, _, _, _)
        | Order::Fused(_, _, _, _, _)
        | Order::Ifelse(_, _, _, _)
        | Order::Load(_, _, _)
        | Order::Save(_, _, _)
        | Order::BranchIf(_, _, _) => place(asm, o, tail(o), tag),
    }
}

// Of an order whose cell is not below its count: 1, then 9.
fn count_fault(o: Order) -> Option<Fault>
    ensures { operand_number result ≡ count_fault o }
{
    if ast::registers_fit(o) {
        Some(Fault::Count)
    } else {
        Some(Fault::Register)
    }
}

// 11, behind what else is refused of the order.
fn unsaved(f: Option<Fault>) -> Option<Fault>
    ensures { operand_number result ≡ unsaved_fault (operand_number f) }
{
    f.or(Some(Fault::Unsaved))
}

// The jumps of an order, if it has no fault: the numbers of their labels are looked at.
fn goes(o: Order) -> Tail
    ensures { targets (tail_items result) ≡ targets (items o) }
{
    if fault(o).is_some() {
        Tail::Nothing
    } else {
        tail(o)
    }
}

// An order of a deck with this line 1.
pub fn emit_in(asm: &mut Assembler<'_>, head: Head, tag: u32, o: Order) -> Result<(), Refused>
    ensures whole { after result asm.new ≡ emitted_in head tag o (before asm.old) }
    ensures lent { SameLent asm.old asm.new }
{
    if !ast::index_holds(head, o) {
        return asm.check_tail(count_fault(o), 0, Tail::Nothing);
    }
    if !ast::saves_hold(head.mask, o) {
        return asm.check_tail(unsaved(fault(o)), 0, goes(o));
    }
    emit(asm, o, tag)
}
