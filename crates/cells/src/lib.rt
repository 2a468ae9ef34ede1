// Bytes of the one lent buffer: a cell written, read, copied, and a row's cells moved. What does not fit does nothing.
#![tactic(auto)]

ghost use Rattle.std.specs.Prelude.{◌≡◌, ◌+◌, ◌*◌, ◌≤◌, length};
ghost use Rattle.cells.specs.Cell.{cell, put, Copies, written, part_of, copied};
ghost use Rattle.cells.specs.Cell.{fits, copies as copying};
ghost use Rattle.cells.specs.Line.{cell_of, next_of, past_of, run_line, told, line_told, carried, transferred};

// A row of columns of `rows` rows each that follow each other, the first of them at `start`.
#[derive(Clone, Copy)]
pub struct Line {
    pub start: usize,
    pub rows: u32,
    pub row: u32,
}

// Whether `size` bytes at `at` end at `end` or before.
fn within(end: usize, at: usize, size: usize) -> bool
    ensures { result ≡ fits end at size }
{
    at <= end && size <= end - at
}

// Whether two runs of `size` bytes lie in a buffer of `len` and have no byte in common.
fn copies(len: usize, from: usize, to: usize, size: usize) -> bool
    ensures { result ≡ copying len from to size }
{
    if from < to {
        return within(to, from, size) && within(len, to, size);
    }
    within(from, to, size) && within(len, from, size)
}

// Byte by byte: the slice's own `copy_from_slice` calls `memmove`, a name that the archives for C would need from outside.
fn write_within(bytes: &mut [u8], at: usize, value: &[u8])
    requires { at + length value.now ≤ length bytes.old }
    ensures { bytes.new ≡ put bytes.old at value.now }
{
    for (i, byte) in value.iter().enumerate() {
        bytes[at + i] = *byte;
    }
}

// Byte by byte: the slice's own `copy_within` was tried, and makes a row of cells of 8 bytes a third slower.
fn copy_within(bytes: &mut [u8], from: usize, to: usize, size: usize)
    requires { Copies (length bytes.old) from to size }
    ensures { bytes.new ≡ put bytes.old to (cell bytes.old from size) }
{
    for i in 0..size {
        bytes[to + i] = bytes[from + i];
    }
}

pub fn write(bytes: &mut [u8], at: usize, value: &[u8])
    ensures { bytes.new ≡ written bytes.old at value.now }
{
    if within(bytes.len(), at, value.len()) {
        write_within(bytes, at, value);
    }
}

// The `size` bytes at `at`, or the empty part.
pub fn part(bytes: &[u8], at: usize, size: usize) -> &[u8]
    ensures { result.now ≡ part_of bytes.now at size }
{
    if within(bytes.len(), at, size) {
        return &bytes[at..at + size];
    }
    &bytes[0..0]
}

pub fn copy(bytes: &mut [u8], from: usize, to: usize, size: usize)
    ensures { bytes.new ≡ copied bytes.old from to size }
{
    if copies(bytes.len(), from, to, size) {
        copy_within(bytes, from, to, size);
    }
}

// The place `count` cells of `size` bytes past `start`, or, where 64 bits have no such place, the last that they have.
fn place(start: usize, count: u32, size: u32) -> usize
    ensures { result ≡ told (start + count * size) }
{
    start.saturating_add(count as usize * size as usize)
}

impl Line {
    // A run of bytes in column order, as a row of columns of one row.
    pub const RUN: Line = Line {
        start: 0,
        rows: 1,
        row: 0,
    };

    // Its cell in the first column.
    pub fn cell(self, size: u32) -> usize
        ensures { result ≡ told (cell_of self size) }
    {
        place(self.start, self.row, size)
    }

    // The same row from the next column on.
    pub fn next(self, size: u32) -> Line
        ensures { result ≡ line_told (next_of self size) }
    {
        Line {
            start: place(self.start, self.rows, size),
            rows: self.rows,
            row: self.row,
        }
    }

    // The same row past columns of these sizes.
    pub fn past(self, sizes: &[u32]) -> Line
        ensures { result ≡ line_told (past_of self sizes.now) }
    {
        let mut line = self;
        for &size in sizes {
            line = line.next(size);
        }
        line
    }
}

// The constant is what the rules say of it.
fn run() -> Line
    ensures { result ≡ run_line }
{
    Line::RUN
}

// Copies one row's cells over another's, in columns of the same sizes.
pub fn carry(bytes: &mut [u8], from: Line, to: Line, sizes: &[u32])
    ensures { bytes.new ≡ carried bytes.old from to sizes.now }
{
    let mut source = from;
    let mut target = to;
    for &size in sizes {
        copy(bytes, source.cell(size), target.cell(size), size as usize);
        source = source.next(size);
        target = target.next(size);
    }
}

// The same from one buffer to another. Two loops and not one over a step: a closure that writes what it captures tells its
// caller nothing of what it left, and the loop is shorter than what would tell it.
pub fn transfer(bytes: &[u8], from: Line, out: &mut [u8], to: Line, sizes: &[u32])
    ensures { out.new ≡ transferred bytes.now from out.old to sizes.now }
{
    let mut source = from;
    let mut target = to;
    for &size in sizes {
        write(
            out,
            target.cell(size),
            part(bytes, source.cell(size), size as usize),
        );
        source = source.next(size);
        target = target.next(size);
    }
}
