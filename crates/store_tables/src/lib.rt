// The view of all that a store call is lent, what every call tests first, and the tests of places and entities that several calls share.
#![tactic(auto)]

mod run;

ghost use Rattle.std.specs.Prelude.{◌≡◌, length};
ghost use Rattle.refusal.specs.Table.{answer_of, passing};
ghost use Rattle.handle.specs.Bits.{generation_in, number_in};
ghost use Rattle.decl.specs.Decl.{decl_in};
ghost use Rattle.id_tables.specs.Ids.{ids_in};
ghost use Rattle.store_tables.specs.Store.{store_in, lent_rules, entry};
ghost use Rattle.store_tables.specs.Seen.{own_seen, own_of, moved_seen, entity_seen};

use decl::{Declaration, Span};
use handle::{Handle, Number, Place, Row};
use id_tables::{IdTables, at};
use refusal::Refusal;
use row_step::RowTables;
pub use run::is_run_wrong;

// All that a store call is lent to read: the declaration, the id tables, the row tables and the borrow words.
#[derive(Clone, Copy)]
pub struct StoreTables<'a> {
    pub declaration: Declaration<'a>,
    pub ids: IdTables<'a>,
    pub rows: RowTables<'a>,
    pub words: &'a [u64],
}

impl StoreTables<'_> {
    // 13 for the other id tables, the words, and a value or an output.
    fn lent_tested(&self, short: bool) -> Result<(), Refusal>
        ensures { let ids = ids_in self.now.ids in
            let columns = length self.now.declaration.types.now in
            answer_of result ≡ passing (lent_rules (length ids.generations) (length ids.archetypes) (length ids.indices) (length ids.pending) columns (length self.now.words.now) short) }
    {
        let ids = self.ids;
        id_tables::lengths_tested(
            ids.generations.len(),
            ids.archetypes.len(),
            ids.indices.len(),
            ids.pending.len(),
        )?;
        if self.words.len() != self.declaration.types.len() {
            return Err(Refusal::BadLength);
        }
        if short {
            return Err(Refusal::BadLength);
        }
        Ok(())
    }

    // What every store call tests first. `short` says that it is lent a value or an output of a wrong length.
    pub fn tested(&self, short: bool) -> Result<(), Refusal>
        ensures { answer_of result ≡ passing (entry (store_in self.now) short) }
    {
        let capacity = self.ids.generations.len();
        id_tables::capacity_tested(capacity)?;
        column_entry::tables_tested(&self.declaration, &self.rows)?;
        self.lent_tested(short)?;
        id_tables::head_tested(self.ids.head, capacity)?;
        column_entry::counts_tested(self.declaration.rows, self.rows.counts)
    }

    // Where the row at a place holds the number: its archetype's part of the tables.
    pub fn own_place(&self, place: Place, number: Number) -> Option<Span>
        ensures { own_of result ≡ own_seen (decl_in self.now.declaration) self.now.rows.numbers.now self.now.rows.counts.now place.archetype place.index.0 number.0 }
    {
        let archetype = place.archetype as usize;
        if self.declaration.rows.len() <= archetype {
            return None;
        }
        if at(self.rows.counts, archetype) <= place.index.0 {
            return None;
        }
        let span = column_entry::span(&self.declaration, archetype);
        if row_step::number_at(self.rows.numbers, span.row, place.index) != number {
            return None;
        }
        Some(span)
    }

    // The entity of a handle, where its row may change or leave: its archetype's part of the tables, and its place.
    pub fn entity_at(&self, handle: Handle) -> Result<(Span, Place), Refusal>
        ensures { answer_of result ≡ entity_seen (decl_in self.now.declaration) (ids_in self.now.ids) self.now.rows.numbers.now self.now.rows.counts.now (generation_in handle.0) (number_in handle.0) }
    {
        if !self.ids.head.is_flushed() {
            return Err(Refusal::NotFlushed);
        }
        let id = handle.id();
        let number = id.0 as usize;
        if !self.ids.is_live(handle.generation(), number) {
            return Err(Refusal::NoSuchEntity);
        }
        let place = self.ids.place_at(number);
        let Some(span) = self.own_place(place, id) else {
            return Err(Refusal::Damaged);
        };
        Ok((span, place))
    }

    // Whether the number that a removal of a row moves is damaged, where the archetype's rows begin at `first`.
    pub fn is_moved_damaged(&self, first: usize, place: Place) -> bool
        ensures { result ≡ moved_seen first self.now.ids.head.used self.now.ids.archetypes.now self.now.ids.indices.now self.now.rows.numbers.now self.now.rows.counts.now place.archetype place.index.0 }
    {
        let last = at(self.rows.counts, place.archetype as usize).saturating_sub(1);
        if place.index.0 == last {
            return false;
        }
        let moved = row_step::number_at(self.rows.numbers, first, Row(last));
        let number = moved.0 as usize;
        if self.ids.head.used <= number {
            return true;
        }
        if at(self.ids.archetypes, number) != place.archetype {
            return true;
        }
        at(self.ids.indices, number) != last
    }
}
