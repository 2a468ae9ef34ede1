// The calls that look a handle up: contains and get.
ghost use Rattle.std.specs.Prelude.{◌≡◌};
ghost use Rattle.refusal.specs.Table.{answer_of};
ghost use Rattle.handle.specs.Bits.{generation_in, number_in};
ghost use Rattle.id_tables.specs.Ids.{ids_in, EntryOk};
ghost use Rattle.id_tables.specs.Lookup.{reserved_new, is_contained, containing, place_got, getting};

use crate::head::Head;
use crate::runs::has;
use crate::tables::{IdTables, at};
use handle::{Handle, MAX, Place};
use refusal::Refusal;

// A number that is handed out and not yet in the tables.
fn is_reserved_new(head: Head, generation: u32, number: usize) -> bool
    ensures { result ≡ reserved_new head generation number }
{
    if generation != 1 {
        return false;
    }
    if number < head.used {
        return false;
    }
    number - head.used < head.fresh()
}

impl IdTables<'_> {
    fn is_contained(&self, handle: Handle) -> bool
        requires { EntryOk (ids_in self.now) }
        ensures { result ≡ is_contained (ids_in self.now) (generation_in handle.0) (number_in handle.0) }
    {
        let generation = handle.generation();
        let id = handle.id();
        let number = id.0 as usize;
        if self.head.used <= number {
            return is_reserved_new(self.head, generation, number);
        }
        if at(self.generations, number) != generation {
            return false;
        }
        if at(self.indices, number) != MAX {
            return true;
        }
        has(&self.pending[self.head.free()..self.head.pending], id.0)
    }

    pub fn contains(&self, bits: u64) -> Result<bool, Refusal>
        ensures { answer_of result ≡ containing (ids_in self.now) bits }
    {
        self.tested(false)?;
        let Ok(handle) = Handle::from_bits(bits) else {
            return Err(Refusal::ZeroGeneration);
        };
        Ok(self.is_contained(handle))
    }

    // What `get` answers of a handle, past the first tests.
    pub fn got(&self, handle: Handle) -> Result<Place, Refusal>
        ensures { answer_of result ≡ place_got (ids_in self.now) (generation_in handle.0) (number_in handle.0) }
    {
        let generation = handle.generation();
        let number = handle.id().0 as usize;
        if self.is_live(generation, number) {
            return Ok(self.place_at(number));
        }
        if is_reserved_new(self.head, generation, number) {
            return Ok(Place::EMPTY);
        }
        Err(Refusal::NoSuchEntity)
    }

    pub fn get(&self, bits: u64) -> Result<Place, Refusal>
        ensures { answer_of result ≡ getting (ids_in self.now) bits }
    {
        self.tested(false)?;
        let Ok(handle) = Handle::from_bits(bits) else {
            return Err(Refusal::ZeroGeneration);
        };
        self.got(handle)
    }
}
