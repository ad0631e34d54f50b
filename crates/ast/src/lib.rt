// The vocabulary that deck reader, orders, frames and routine share, and what they ask of an order, of a mask and of line 1.
#![tactic(auto)]

ghost use Rattle.std.specs.Prelude.{◌≡◌, ◌≤◌, ◌<◌, [], ◌∷◌};
ghost use Rattle.ast.specs.Count.{cell_count};
ghost use Rattle.ast.specs.Mask.{in_mask, is_preserved, save_cell, saves, free, open_cell};
ghost use Rattle.ast.specs.Counts.{prologue_holds, result_holds, epilogue_holds, cap_holds, counts_hold};
ghost use Rattle.ast.specs.Uses.{uses as uses_of, registers_fit, index_holds, operand_open, saves_hold, padded};

// Where a cell is: the block or frame at s1, the frame's cells at s5, the parameters at s4.
#[derive(Clone, Copy)]
pub enum Place {
    Mem,
    Stack,
    Param,
}

// d, s
#[derive(Clone, Copy)]
pub enum Unary {
    Fmov,
    Recip,
    Round,
    Floor,
    Not,
}

// d, s and a scratch register
#[derive(Clone, Copy)]
pub enum Scratched {
    Sign,
    Frac,
}

// d, s1, s2
#[derive(Clone, Copy)]
pub enum Binary {
    Minus,
    Times,
    Divide,
    Gt,
    Neq,
    And,
    Andnot,
    Or,
    Xor,
}

// d, s1, s2, s3
#[derive(Clone, Copy)]
pub enum Fused {
    MulAdd,
    MulSub,
    NegMulAdd,
    NegMulSub,
}

// One order of document 01. Registers are numbers of float registers.
#[derive(Clone, Copy)]
pub enum Order {
    Unary(Unary, u32, u32),
    Scratched(Scratched, u32, u32, u32),
    Binary(Binary, u32, u32, u32),
    Fused(Fused, u32, u32, u32, u32),
    // d, true, false, index of a stack cell
    Ifelse(u32, u32, u32, u32),
    // d, index of a constant
    LoadConst(u32, u32),
    // d, cell: `get`
    Load(u32, Place, u32),
    // s, cell: `put`
    Save(u32, Place, u32),
    // condition, user label, is_else
    BranchIf(u32, u32, bool),
    // user label
    SetLabel(u32),
}

// A constant, a float value or a raw word: turned into bits when it is appended.
#[derive(Clone, Copy)]
pub enum Constant {
    Float(f64),
    Bits(u64),
}

// The two frames.
#[derive(Clone, Copy)]
pub enum Frame {
    Fast,
    Indirect,
}

// Line 1: `last` is the result cell of a fast frame, the count of parameters of an indirect one.
#[derive(Clone, Copy)]
pub struct Head {
    pub frame: Frame,
    pub cap: u32,
    pub states: u32,
    pub obs: u32,
    pub last: u32,
    pub mask: u32,
}

// An order's operand that is no register: a cell, a constant, a label.
#[derive(Clone, Copy)]
pub enum Operand {
    Nothing,
    Loaded(Place, u32),
    Stored(Place, u32),
    Constant(u32),
    GoneTo(u32),
    Set(u32),
}

// What an order uses: its registers, 0 where it has fewer than four; those that it writes, at most two; its operand that is no register.
#[derive(Clone, Copy)]
pub struct View {
    pub registers: [u32; 4],
    pub writes: [Option<u32>; 2],
    pub operand: Operand,
}

// ---- preserved float registers and the mask

// The register's bit; those from 32 on have none.
pub fn in_mask(mask: u32, r: u32) -> bool
    ensures { result ≡ in_mask mask r }
{
    r < 32 && (mask >> r) % 2 == 1
}

pub fn is_preserved(r: u32) -> bool
    ensures { result ≡ is_preserved r }
{
    matches!(r, 8..=9 | 18..=27)
}

// f8, f9 go to stack cells 4, 5 and f18..f27 to 6..15.
pub fn save_cell(r: u32) -> u32
    ensures { (result ≡ save_cell r) × (result ≤ r) }
{
    if r < 18 { r.saturating_sub(4) } else { r - 12 }
}

// The mask has one of f8, f9, f18 to f27.
pub fn saves_any(mask: u32) -> bool
    ensures { result ≡ saves mask }
{
    mask / 0x100 % 4 != 0 || mask / 0x40000 % 0x400 != 0
}

// A register that isn't preserved, or is in the mask. The number has a bit for each that isn't.
pub fn is_free(mask: u32, r: u32) -> bool
    ensures { result ≡ free mask r }
{
    r >= 32 || (mask >> r) % 2 + (0xf003fcffu32 >> r) % 2 != 0
}

// No saved register's cell.
pub fn is_open(mask: u32, p: Place, i: u32) -> bool
    ensures { result ≡ open_cell mask p i }
{
    match p {
        Place::Stack => match i {
            4..=5 => !in_mask(mask, i + 4),
            6..=15 => !in_mask(mask, i + 12),
            _ => true,
        },
        Place::Mem | Place::Param => true,
    }
}

// ---- line 1

pub fn cell_count(head: Head, p: Place) -> u64
    ensures { result ≡ cell_count head p }
{
    match (p, head.frame) {
        (Place::Mem, _) => u64::from(head.states) + u64::from(head.obs),
        (Place::Stack, _) => u64::from(head.cap),
        (Place::Param, Frame::Fast) => 0,
        (Place::Param, Frame::Indirect) => u64::from(head.last),
    }
}

// Cap, cells and parameters at most 4,096 each, at most 8 states in a fast frame.
pub fn prologue_holds(head: Head) -> bool
    ensures { result ≡ prologue_holds head }
{
    head.cap <= 4096
        && cell_count(head, Place::Mem) <= 4096
        && match head.frame {
            Frame::Fast => head.states <= 8,
            Frame::Indirect => head.last <= 4096,
        }
}

// A fast result cell is at most 255, and one of the cells.
pub fn result_holds(head: Head) -> bool
    ensures { result ≡ result_holds head head.frame }
{
    match head.frame {
        Frame::Fast => head.last <= 255 && u64::from(head.last) < cell_count(head, Place::Mem),
        Frame::Indirect => true,
    }
}

pub fn epilogue_holds(head: Head) -> bool
    ensures { result ≡ epilogue_holds head }
{
    prologue_holds(head) && result_holds(head)
}

// Cap at least 16 if the mask has a preserved register.
pub fn cap_holds(head: Head) -> bool
    ensures { result ≡ cap_holds head }
{
    head.cap >= 16 || !saves_any(head.mask)
}

// All counts of line 1.
#[tactic(auto, unfolding(crate::specs::Counts::counts_hold))]
pub fn counts_hold(head: Head) -> bool
    ensures { result ≡ counts_hold head }
{
    epilogue_holds(head) && cap_holds(head)
}

// ---- what an order uses

fn viewed(registers: [u32; 4], writes: [Option<u32>; 2], operand: Operand) -> View
    ensures { result ≡ record { registers = registers; writes = writes; operand = operand } }
{
    View {
        registers,
        writes,
        operand,
    }
}

fn unary_uses(k: Unary, d: u32, s: u32) -> View
    ensures { result ≡ padded (uses_of (Order.Unary k d s)) }
{
    let writes = match k {
        Unary::Fmov if d == s => [None, None],
        Unary::Recip => [Some(10), Some(d)],
        Unary::Fmov | Unary::Round | Unary::Floor | Unary::Not => [Some(d), None],
    };
    viewed([d, s, 0, 0], writes, Operand::Nothing)
}

// The one place where the code goes by an order's kinds to say what it uses.
pub fn uses(o: Order) -> View
    ensures { result ≡ padded (uses_of o) }
{
    let none = Operand::Nothing;
    match o {
        Order::Unary(k, d, s) => unary_uses(k, d, s),
        Order::Scratched(_, d, s, t) => viewed([d, s, t, 0], [Some(t), Some(d)], none),
        Order::Binary(_, d, a, b) => viewed([d, a, b, 0], [Some(d), None], none),
        Order::Fused(_, d, a, b, c) => viewed([d, a, b, c], [Some(d), None], none),
        Order::Ifelse(d, a, b, i) => viewed(
            [d, a, b, 0],
            [Some(d), None],
            Operand::Loaded(Place::Stack, i),
        ),
        Order::LoadConst(d, k) => viewed([d, 0, 0, 0], [Some(d), None], Operand::Constant(k)),
        Order::Load(d, p, i) => viewed([d, 0, 0, 0], [Some(d), None], Operand::Loaded(p, i)),
        Order::Save(s, p, i) => viewed([s, 0, 0, 0], [None, None], Operand::Stored(p, i)),
        Order::BranchIf(c, l, _) => viewed([c, 0, 0, 0], [None, None], Operand::GoneTo(l)),
        Order::SetLabel(l) => viewed([0, 0, 0, 0], [None, None], Operand::Set(l)),
    }
}

// Its registers are below 32.
pub fn registers_fit(o: Order) -> bool
    ensures { result ≡ registers_fit (uses_of o).registers }
{
    let [a, b, c, d] = uses(o).registers;
    a < 32 && b < 32 && c < 32 && d < 32
}

// The index of the cell that an order names is below its count.
pub fn index_holds(head: Head, o: Order) -> bool
    ensures { result ≡ index_holds head o }
{
    match uses(o).operand {
        Operand::Loaded(p, i) | Operand::Stored(p, i) => u64::from(i) < cell_count(head, p),
        Operand::Nothing | Operand::Constant(_) | Operand::GoneTo(_) | Operand::Set(_) => true,
    }
}

// What an order stores to is no saved register's cell.
fn stores_open(mask: u32, x: Operand) -> bool
    ensures { result ≡ operand_open mask x }
{
    match x {
        Operand::Stored(p, i) => is_open(mask, p, i),
        Operand::Nothing | Operand::Loaded(_, _) | Operand::Constant(_) => true,
        Operand::GoneTo(_) | Operand::Set(_) => true,
    }
}

// The order writes no preserved register outside the mask, and no saved register's cell.
pub fn saves_hold(mask: u32, o: Order) -> bool
    ensures { result ≡ saves_hold mask o }
{
    let u = uses(o);
    let [first, second] = u.writes;
    first.is_none_or(|r| is_free(mask, r))
        && second.is_none_or(|r| is_free(mask, r))
        && stores_open(mask, u.operand)
}
