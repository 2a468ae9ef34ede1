// Rows of an archetype in the lent tables of row numbers, row counts and bytes. What has no place does nothing.
#![tactic(auto)]

ghost use Rattle.std.specs.Prelude.{◌≡◌, ◌+◌, get_or, set};
ghost use Rattle.row_step.specs.Tables.{tables_of, line_in, moved_of, row_removed};

use cells::Line;
use handle::{Number, Row};

// An archetype's part of the tables: its first row among the row numbers, its rows, and its first byte.
#[derive(Clone, Copy)]
pub struct Block {
    pub first: usize,
    pub rows: u32,
    pub base: usize,
}

impl Block {
    // A row of it across its columns.
    pub fn line(self, row: Row) -> Line
        ensures { result ≡ line_in self row.0 }
    {
        Line {
            start: self.base,
            rows: self.rows,
            row: row.0,
        }
    }
}

// The tables of rows, lent to be read: a number a row and a count an archetype, in archetype order, and the bytes of all
// columns.
#[derive(Clone, Copy)]
pub struct RowTables<'a> {
    pub numbers: &'a [u32],
    pub counts: &'a [u32],
    pub bytes: &'a [u8],
}

// The number in a row, or 0 where the table has none.
pub fn number_at(numbers: &[u32], first: usize, row: Row) -> Number
    ensures { result.0 ≡ get_or numbers.now (first + row.0) 0 }
{
    let place = first.saturating_add(row.0 as usize);
    Number(numbers.get(place).copied().unwrap_or(0))
}

// A number stored in a row, where the table has one.
pub fn set_number(numbers: &mut [u32], first: usize, row: Row, number: Number)
    ensures { numbers.new ≡ set numbers.old (first + row.0) number.0 }
{
    let place = first.saturating_add(row.0 as usize);
    if place < numbers.len() {
        numbers[place] = number.0;
    }
}

// The last row's number and cells, of columns of these sizes, copied over a row. Answers the number that was moved.
// The tables stay slices: the calls write twelve sets of them, and each clause on a struct of `&mut` would have to say that its references are the same as before.
pub fn remove(
    numbers: &mut [u32],
    counts: &mut [u32],
    bytes: &mut [u8],
    block: Block,
    sizes: &[u32],
    archetype: usize,
    row: Row,
) -> Option<Number>
    ensures { let lent = tables_of numbers.old counts.old bytes.old in
        let left = tables_of numbers.new counts.new bytes.new in
        (moved_of result, left) ≡ row_removed block sizes.now lent archetype row.0 }
{
    let count = counts.get(archetype).copied().unwrap_or(0);
    if count <= row.0 {
        return None;
    }
    let last = Row(count - 1);
    counts[archetype] = last.0;
    if row == last {
        return None;
    }
    let number = number_at(numbers, block.first, last);
    set_number(numbers, block.first, row, number);
    cells::carry(bytes, block.line(last), block.line(row), sizes);
    Some(number)
}
