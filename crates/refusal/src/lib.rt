// Why an input is refused, with document 01's number for it, and where.
#![tactic(auto)]

ghost use Rattle.std.specs.Prelude.{◌≡◌};
ghost use Rattle.refusal.specs.Number.{number_of};

#[derive(Clone, Copy, PartialEq, Eq)]
pub enum Refusal {
    Register = 1,
    Value = 2,
    Label = 3,
    Twice = 4,
    Unset = 5,
    Far = 6,
    Full = 7,
    Closed = 8,
    Count = 9,
    Base = 10,
    Unsaved = 11,
    Line = 12,
}

// The error of what can be refused: why, and the place that document 01 names with it, else 0.
#[derive(Clone, Copy)]
pub struct Refused {
    pub why: Refusal,
    pub place: u32,
}

pub fn number(r: Refusal) -> u8
    ensures { result ≡ number_of r }
{
    r as u8
}
