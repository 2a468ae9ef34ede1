// The tables of columns: told by a line, and digested.
use replay_line::{digest_bytes, digest_numbers, table};

#[derive(Clone, Copy)]
pub struct Tables {
    pub rows: [u32; 6],
    pub widths: [u32; 6],
    pub types: [u32; 9],
    pub sizes: [u32; 9],
    pub numbers: [u32; 16],
    pub counts: [u32; 6],
    pub bytes: [u8; 64],
}

impl Tables {
    pub(crate) fn told(line: &[u64]) -> Tables {
        Tables {
            rows: table(line, 1),
            widths: table(line, 7),
            types: table(line, 13),
            sizes: table(line, 22),
            numbers: table(line, 31),
            counts: table(line, 47),
            bytes: table(line, 53),
        }
    }

    // The digest, of the row counts and of the bytes as far as a call was lent them.
    pub(crate) fn digest(&self, counts: &[u32], bytes: &[u8]) -> u64 {
        let sum = digest_numbers(0, &self.rows);
        let sum = digest_numbers(sum, &self.widths);
        let sum = digest_numbers(sum, &self.types);
        let sum = digest_numbers(sum, &self.sizes);
        let sum = digest_numbers(sum, &self.numbers);
        let sum = digest_numbers(sum, counts);
        digest_bytes(sum, bytes)
    }
}
