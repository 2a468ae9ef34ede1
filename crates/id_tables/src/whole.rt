// The calls that take no handle: a number resolved, the live count, clear.
ghost use Rattle.std.specs.Prelude.{◌≡◌, if◌then◌else◌, nat_lt};
ghost use Rattle.refusal.specs.Table.{Did, answer_of};
ghost use Rattle.handle.specs.Bits.{handle_of};
ghost use Rattle.id_tables.specs.Ids.{ids_in, generation_at};
ghost use Rattle.id_tables.specs.Lookup.{resolving, counting, clearing};

use crate::head::Head;
use crate::tables::{IdTables, at};
use handle::{Handle, Number};
use refusal::Refusal;

impl IdTables<'_> {
    // The stored generation below used, and 1 for a new number.
    fn generation_of(&self, number: usize) -> u32
        ensures { result ≡ (if nat_lt number self.now.head.used then generation_at (ids_in self.now) number else 1) }
    {
        if number < self.head.used {
            return at(self.generations, number);
        }
        1
    }

    pub fn resolve_unknown_gen(&self, number: Number) -> Result<Handle, Refusal>
        ensures { handle_of result ≡ resolving (ids_in self.now) number.0 }
    {
        self.tested(false)?;
        let n = number.0 as usize;
        if self.head.used + self.head.fresh() <= n {
            return Err(Refusal::NoSuchEntity);
        }
        let generation = self.generation_of(n);
        let Ok(handle) = Handle::new(number, generation) else {
            return Err(Refusal::Damaged);
        };
        Ok(handle)
    }

    pub fn len(&self) -> Result<usize, Refusal>
        ensures { answer_of result ≡ counting (ids_in self.now) }
    {
        self.tested(false)?;
        Ok(self.head.live)
    }

    pub fn clear(&mut self) -> Result<(), Refusal>
        ensures { Did (clearing (ids_in self.old)) (ids_in self.old) (answer_of result) (ids_in self.new) }
    {
        self.tested(false)?;
        self.head = Head::flushed(0, 0, 0);
        Ok(())
    }
}
