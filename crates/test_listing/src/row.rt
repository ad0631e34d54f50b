// A row's columns: a letter, then numbers of eight hexadecimal digits, each between spaces.

// Columns of a row, at most.
const COLUMNS: usize = 8;

// The number in a column.
pub(crate) fn column(s: &[u8], i: usize) -> Option<u32> {
    if i >= COLUMNS {
        return None;
    }
    test_rows::column(s, 2 + 9 * i, 10 + 9 * i, b' ')
}

// The numbers in the first columns.
pub(crate) fn columns<const N: usize>(s: &[u8]) -> Option<[u32; N]> {
    let mut numbers = [0; N];
    for i in 0..N {
        numbers[i] = column(s, i)?;
    }
    Some(numbers)
}
