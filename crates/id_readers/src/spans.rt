// What the reader's functions leave to plain slices and positions: a reservation as a span of the pending list and of new numbers, and a step in it.
ghost use Rattle.std.specs.Prelude.{◌≡◌};
ghost use Rattle.refusal.specs.Table.{Did, answer_by};
ghost use Rattle.id_tables.specs.Ids.{ids_in, EntryOk};
ghost use Rattle.id_readers.specs.Reader.{reader_at, span_of, span_reserved, reserving_span, stepping, handed_of, left_in};

use handle::{Handle, Number};
use id_tables::IdTables;
use refusal::Refusal;

// The numbers of a reservation: those at `from` to `to` of the pending list, then the new ones from `number` to `end`.
#[derive(Clone, Copy, Debug, PartialEq, Eq)]
pub struct Span {
    pub from: usize,
    pub to: usize,
    pub number: u32,
    pub end: u32,
}

// What is left of a reservation once the first tests have passed.
fn span_reserved(ids: &mut IdTables<'_>, n: usize) -> Result<Span, Refusal>
    requires { EntryOk (ids_in ids.old) }
    ensures { let lent = ids_in ids.old in
        let left = ids_in ids.new in
        Did (span_reserved lent n) lent (answer_by span_of result) left }
{
    let free = ids.head.free();
    let next = ids.head.used + ids.head.fresh();
    if free + (ids.generations.len() - next) < n {
        return Err(Refusal::NoRoom);
    }
    let from = free.saturating_sub(n);
    if ids.any_damaged(&ids.pending[from..free]) {
        return Err(Refusal::Damaged);
    }
    ids.head = ids.head.fallen(n as u32);
    Ok(Span {
        from,
        to: free,
        number: next as u32,
        end: (next + n.saturating_sub(free)) as u32,
    })
}

// A reservation of n as a span, for whoever walks it without a reader: the cursor falls by n.
pub fn reserve_span(ids: &mut IdTables<'_>, n: usize) -> Result<Span, Refusal>
    ensures { let lent = ids_in ids.old in
        let left = ids_in ids.new in
        Did (reserving_span lent n) lent (answer_by span_of result) left }
{
    ids.tested(false)?;
    span_reserved(ids, n)
}

// A step of the reader of a part, at a position of it and then at the new range past it, for callers that hold the part and the positions themselves: C holds them in variables of its own, so they are lent one by one.
pub fn reserve_next(
    recycled: &[u32],
    position: &mut usize,
    number: &mut u32,
    end: u32,
    generations: &[u32],
) -> Result<Option<Handle>, Refusal>
    ensures { let lent = reader_at recycled.now position.old number.old end in
        let left = reader_at recycled.now position.new number.new end in
        Did (stepping lent generations.now) lent (answer_by handed_of result) left }
{
    if let Some(entry) = recycled.get(*position) {
        let Some(generation) = generations.get(*entry as usize) else {
            return Err(Refusal::BadLength);
        };
        let Ok(handle) = Handle::new(Number(*entry), *generation) else {
            return Err(Refusal::Damaged);
        };
        *position += 1;
        return Ok(Some(handle));
    }
    if *number < end {
        let handle = Handle::new(Number(*number), 1)?;
        *number += 1;
        return Ok(Some(handle));
    }
    Ok(None)
}

// How many handles the reader of a part has left, for callers that hold the part and the positions themselves.
pub fn reserve_len(recycled: &[u32], position: usize, number: u32, end: u32) -> usize
    ensures { result ≡ left_in (reader_at recycled.now position number end) }
{
    recycled.len().saturating_sub(position) + end.saturating_sub(number) as usize
}
