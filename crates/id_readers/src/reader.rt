// The reader of a reservation. Each function leaves the work to a function on the slice and the positions.
ghost use Rattle.std.specs.Prelude.{◌≡◌};
ghost use Rattle.refusal.specs.Table.{Did, answer_by};
ghost use Rattle.id_tables.specs.Ids.{ids_of};
ghost use Rattle.id_readers.specs.Reader.{reader_of, reserving_reader, stepping, handed_of, left_in};

use crate::spans::{reserve_len, reserve_next, reserve_span};
use handle::Handle;
use id_tables::{Head, IdTables};
use refusal::Refusal;

// Hands a reservation's handles out: the recycled numbers from `position` on, then the new ones from `number` to `end`.
#[derive(Clone, Copy)]
pub struct ReserveEntitiesIterator<'a> {
    pub recycled: &'a [u32],
    pub position: usize,
    pub number: u32,
    pub end: u32,
}

// hecs's `reserve_entities`: reserves n, and gives the reader of their handles. The tables stay slices: the reader holds the
// pending list alone, where a part of a view would hold the other tables too.
pub fn reserve_entities<'a>(
    head: &mut Head,
    generations: &[u32],
    archetypes: &[u32],
    indices: &[u32],
    pending: &'a [u32],
    n: usize,
) -> Result<ReserveEntitiesIterator<'a>, Refusal>
    ensures { let lent = ids_of head.old generations.now archetypes.now indices.now pending.now in
        let left = ids_of head.new generations.now archetypes.now indices.now pending.now in
        Did (reserving_reader lent n) lent (answer_by reader_of result) left }
{
    let mut ids = IdTables {
        head: *head,
        generations,
        archetypes,
        indices,
        pending,
    };
    let span = reserve_span(&mut ids, n)?;
    *head = ids.head;
    Ok(ReserveEntitiesIterator {
        recycled: &pending[span.from..span.to],
        position: 0,
        number: span.number,
        end: span.end,
    })
}

impl<'a> ReserveEntitiesIterator<'a> {
    // The next handle, with the reader one further; past the last, none, and the reader as it was. It is lent the generations, which std's `Iterator::next` has no parameter for, so the reader is none of its instances.
    pub fn next(&mut self, generations: &[u32]) -> Result<Option<Handle>, Refusal>
        ensures { Did (stepping (reader_of self.old) generations.now) (reader_of self.old) (answer_by handed_of result) (reader_of self.new) }
    {
        reserve_next(
            self.recycled,
            &mut self.position,
            &mut self.number,
            self.end,
            generations,
        )
    }

    // How many handles are left.
    pub fn len(&self) -> usize
        ensures { result ≡ left_in (reader_of self.now) }
    {
        reserve_len(self.recycled, self.position, self.number, self.end)
    }
}
