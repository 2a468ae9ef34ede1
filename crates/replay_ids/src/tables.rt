// The tables of ids: told by a line, and digested.
ghost use Rattle.std.specs.Prelude.{◌≤◌};

use replay_line::{digest_numbers, digest_words, fill, part, table};

// One more than the largest capacity.
#[derive(Drop)]
pub struct Tables {
    pub head: [u64; 4],
    pub generations: [u32; 4097],
    pub archetypes: [u32; 4097],
    pub indices: [u32; 4097],
    pub pending: [u32; 4097],
}

impl Tables {
    pub(crate) fn empty() -> Tables {
        Tables {
            head: [0; 4],
            generations: [0; 4097],
            archetypes: [0; 4097],
            indices: [0; 4097],
            pending: [0; 4097],
        }
    }

    // A line tells sixteen numbers of a table; the rest are zeros.
    pub(crate) fn tell(&mut self, line: &[u64]) {
        self.head = table(line, 1);
        tell(&mut self.generations, line, 5);
        tell(&mut self.archetypes, line, 21);
        tell(&mut self.indices, line, 37);
        tell(&mut self.pending, line, 53);
    }

    // The digest, as far as a call was lent the three tables and the pending list.
    pub(crate) fn digest(&self, n: usize, p: usize) -> u64
        requires { (n ≤ 4097) × (p ≤ 4097) }
    {
        let sum = digest_words(0, &self.head);
        let sum = digest_numbers(sum, &self.generations[..n]);
        let sum = digest_numbers(sum, &self.archetypes[..n]);
        let sum = digest_numbers(sum, &self.indices[..n]);
        digest_numbers(sum, &self.pending[..p])
    }
}

fn tell(table: &mut [u32], line: &[u64], at: usize) {
    table.fill(0);
    fill(table, part(line, at, 16));
}
