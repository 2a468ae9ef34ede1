// Where the component of an entity is: its place, then the column of a type in its archetype.
ghost use Rattle.std.specs.Prelude.{◌≡◌, get_or};
ghost use Rattle.refusal.specs.Table.{answer_of};
ghost use Rattle.handle.specs.Bits.{generation_in, number_in};
ghost use Rattle.id_tables.specs.Ids.{ids_in};
ghost use Rattle.decl.specs.Decl.{decl_in, types_of};
ghost use Rattle.decl.specs.Lookup.{column_of};
ghost use Rattle.column_entry.specs.Kept.{Kept};
ghost use Rattle.store_reads.specs.Component.{column_cell};
ghost use Rattle.store_reads.specs.Steps.{place_seen, RowIn, PlacedIn, component_for};

use cells::Line;
use decl::{Declaration, Span};
use handle::{Handle, MAX, Place};
use refusal::Refusal;
use store_steps::part_of;
use store_tables::StoreTables;

// The position of a component's borrow word, where its bytes start, and how many they are.
#[derive(Clone, Copy)]
pub struct Cell {
    pub word: usize,
    pub start: usize,
    pub size: usize,
}

// Where the entity of a handle is: a row that holds it, in an archetype with this part of the tables, or no row yet.
pub(crate) fn find_place(
    store: &StoreTables<'_>,
    handle: Handle,
) -> Result<Option<(Place, Span)>, Refusal>
    ensures { answer_of result ≡ place_seen (decl_in store.now.declaration) (ids_in store.now.ids) store.now.rows.numbers.now store.now.rows.counts.now (generation_in handle.0) (number_in handle.0) }
{
    let place = store.ids.got(handle)?;
    if place.index.0 == MAX {
        return Ok(None);
    }
    let Some(span) = store.own_place(place, handle.id()) else {
        return Err(Refusal::Damaged);
    };
    Ok(Some((place, span)))
}

fn find_cell(
    declaration: &Declaration<'_>,
    place: Place,
    span: Span,
    kind: u32,
) -> Result<Cell, Refusal>
    requires kept { Kept (decl_in declaration.now) }
    requires row_in { RowIn (decl_in declaration.now) place span }
    ensures { let d = decl_in declaration.now in
        answer_of result ≡ column_cell d place.archetype place.index.0 (column_of (types_of d place.archetype) kind) }
{
    let Some(j) = decl::find(part_of(declaration.types, span), kind) else {
        return Err(Refusal::NoComponent);
    };
    let sizes = part_of(declaration.sizes, span);
    let size = sizes[j];
    let line = Line {
        start: span.base,
        rows: declaration.rows[place.archetype as usize],
        row: place.index.0,
    };
    let here = line.past(&sizes[..j]);
    Ok(Cell {
        word: span.column + j,
        start: here.cell(size),
        size: size as usize,
    })
}

// The component of a type where an entity is.
pub(crate) fn find_component(
    declaration: &Declaration<'_>,
    placed: Option<(Place, Span)>,
    kind: u32,
) -> Result<Cell, Refusal>
    requires kept { Kept (decl_in declaration.now) }
    requires placed_in { PlacedIn (decl_in declaration.now) placed }
    ensures { answer_of result ≡ component_for (decl_in declaration.now) kind placed }
{
    let (place, span) = placed.ok_or(Refusal::NoComponent)?;
    find_cell(declaration, place, span, kind)
}

// The borrow word at a position, and 0 past the end.
pub(crate) fn word_at(words: &[u64], position: usize) -> u64
    ensures { result ≡ get_or words.now position 0 }
{
    words.get(position).copied().unwrap_or(0)
}
