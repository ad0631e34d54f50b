// A row's columns: a letter, then numbers of eight hexadecimal digits, each behind a space.
ghost use Rattle.std.specs.Prelude.{◌≤◌};

// The number in a column. The last one ends the row.
pub(crate) fn column(s: &[u8], i: usize) -> Option<u32> {
    if i > 13 {
        return None;
    }
    let end = if i == 13 { b'\n' } else { b' ' };
    test_rows::column(s, 2 + 9 * i, 10 + 9 * i, end)
}

// The number that an answer's is compared with: where none can be read, the greatest.
pub(crate) fn compared(s: &[u8], i: usize) -> u32 {
    column(s, i).unwrap_or(u32::MAX)
}

// The number of 64 bits in two columns, the high half first.
pub(crate) fn wide(s: &[u8], i: usize) -> u64
    requires { i ≤ 12 }
{
    u64::from(compared(s, i)) * 0x100000000 + u64::from(compared(s, i + 1))
}
