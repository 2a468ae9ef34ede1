// The cache of candidates: its declaration, its tables, and where they stand at first.
use decl::Declaration;
use id_tables::{Head, IdTables};
use row_step::RowTables;
use store_tables::StoreTables;

pub const COST: u32 = 1;

pub const KEY: u32 = 2;

pub const VERDICT: u32 = 3;

// Archetypes 0 to 3 hold nothing; a cost; a cost and a key; a cost, a key and a verdict.
pub const ROWS: [u32; 4] = [4, 4, 6, 6];

pub const WIDTHS: [u32; 4] = [0, 1, 2, 3];

pub const TYPES: [u32; 6] = [COST, COST, KEY, COST, KEY, VERDICT];

pub const SIZES: [u32; 6] = [4, 4, 8, 4, 8, 1];

pub const DECLARATION: Declaration<'static> = Declaration {
    rows: &ROWS,
    widths: &WIDTHS,
    types: &TYPES,
    sizes: &SIZES,
};

// What the rows of all archetypes take: 4 × 4 + 6 × 12 + 6 × 13.
pub const BYTES: usize = 166;

#[derive(Clone, Copy)]
pub struct Cache {
    pub head: Head,
    pub generations: [u32; 8],
    pub archetypes: [u32; 8],
    pub indices: [u32; 8],
    pub pending: [u32; 8],
    pub numbers: [u32; 20],
    pub counts: [u32; 4],
    pub bytes: [u8; BYTES],
    pub words: [u64; 6],
}

impl Cache {
    pub(crate) fn empty() -> Cache {
        Cache {
            head: Head::flushed(0, 0, 0),
            generations: [0; 8],
            archetypes: [0; 8],
            indices: [0; 8],
            pending: [0; 8],
            numbers: [0; 20],
            counts: [0; 4],
            bytes: [0; BYTES],
            words: [0; 6],
        }
    }

    // All of it, to be read.
    pub(crate) fn tables(&self) -> StoreTables<'_> {
        StoreTables {
            declaration: DECLARATION,
            ids: IdTables {
                head: self.head,
                generations: &self.generations,
                archetypes: &self.archetypes,
                indices: &self.indices,
                pending: &self.pending,
            },
            rows: RowTables {
                numbers: &self.numbers,
                counts: &self.counts,
                bytes: &self.bytes,
            },
            words: &self.words,
        }
    }
}
