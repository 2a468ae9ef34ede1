// The id tables as lent to be read, and their entries: read and written past the end too, so that a caller need not know how long a table is.
ghost use Rattle.std.specs.Prelude.{◌≡◌, slice_index, slice_set};
ghost use Rattle.id_tables.specs.Ids.{ids_in, damaged, live, place_at};

use crate::head::Head;
use handle::{MAX, Number, Place, Row};

#[derive(Clone, Copy)]
pub struct IdTables<'a> {
    pub head: Head,
    pub generations: &'a [u32],
    pub archetypes: &'a [u32],
    pub indices: &'a [u32],
    pub pending: &'a [u32],
}

// What stands at a position, and 0 past the end.
pub fn at(table: &[u32], position: usize) -> u32
    ensures { result ≡ slice_index table.now position }
{
    table.get(position).copied().unwrap_or(0)
}

// Stores at a position, and nothing past the end. By `get_mut` the proof doesn't close: a slice's says nothing of the entries that are left.
pub fn put(table: &mut [u32], position: usize, value: u32)
    ensures { table.new ≡ slice_set table.old position value }
{
    if position < table.len() {
        table[position] = value;
    }
}

// Writes a number's place.
pub fn put_place(archetypes: &mut [u32], indices: &mut [u32], number: Number, place: Place)
    ensures { (archetypes.new ≡ slice_set archetypes.old number.0 place.archetype) × (indices.new ≡ slice_set indices.old number.0 place.index.0) }
{
    let n = number.0 as usize;
    put(archetypes, n, place.archetype);
    put(indices, n, place.index.0);
}

impl IdTables<'_> {
    // A pending number that a call is to use is damaged.
    pub fn is_damaged(&self, number: usize) -> bool
        ensures { result ≡ damaged (ids_in self.now) number }
    {
        if self.head.used <= number {
            return true;
        }
        if at(self.generations, number) == 0 {
            return true;
        }
        at(self.indices, number) != MAX
    }

    // A number below used has this generation and a place.
    pub fn is_live(&self, generation: u32, number: usize) -> bool
        ensures { result ≡ live (ids_in self.now) generation number }
    {
        if self.head.used <= number {
            return false;
        }
        if at(self.generations, number) != generation {
            return false;
        }
        at(self.indices, number) != MAX
    }

    // The place of a number, or that of zeros past the end.
    pub fn place_at(&self, number: usize) -> Place
        ensures { result ≡ place_at (ids_in self.now) number }
    {
        Place {
            archetype: at(self.archetypes, number),
            index: Row(at(self.indices, number)),
        }
    }
}
