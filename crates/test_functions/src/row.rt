// A row: its kind and four numbers, in hexadecimal digits.
use assembler::Asm;
use test_rows::column;

#[derive(Clone, Copy)]
pub struct Row {
    pub kind: u32,
    pub a: u32,
    pub b: u32,
    pub c: u32,
    pub d: u32,
}

pub(crate) fn of(s: &[u8]) -> Option<Row> {
    Some(Row {
        kind: column(s, 0, 2, b' ')?,
        a: column(s, 3, 11, b' ')?,
        b: column(s, 12, 20, b' ')?,
        c: column(s, 21, 29, b' ')?,
        d: column(s, 30, 38, b'\n')?,
    })
}

// Length, jumps and the closed mark of a row.
pub(crate) fn record(r: Row) -> Asm {
    Asm {
        len: r.a as usize,
        jumps: r.b as usize,
        closed: r.c != 0,
    }
}
