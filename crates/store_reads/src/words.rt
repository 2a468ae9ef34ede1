// Borrow and release a column, named by archetype and type.
ghost use Rattle.std.specs.Prelude.{◌≡◌, ℕ};
ghost use Rattle.refusal.specs.Table.{Answer, answer_of, Did};
ghost use Rattle.borrow_word.specs.Word.{shared_word, unique_word, released_word, unique_released_word};
ghost use Rattle.decl.specs.Decl.{decl_in};
ghost use Rattle.id_tables.specs.Ids.{ids_in};
ghost use Rattle.row_step.specs.Tables.{rows_in};
ghost use Rattle.column_entry.specs.Kept.{Kept};
ghost use Rattle.store_tables.specs.Store.{store_in, store_of};
ghost use Rattle.store_reads.specs.Words.{word_named, word_asked, holding};

use decl::Declaration;
use id_tables::IdTables;
use refusal::Refusal;
use row_step::RowTables;
use store_steps::part_of;
use store_tables::StoreTables;

fn find_word(declaration: &Declaration<'_>, archetype: usize, kind: u32) -> Result<usize, Refusal>
    requires { Kept (decl_in declaration.now) }
    ensures { answer_of result ≡ word_named (decl_in declaration.now) archetype kind }
{
    if declaration.rows.len() <= archetype {
        return Err(Refusal::BadPlace);
    }
    let span = column_entry::span(declaration, archetype);
    let Some(j) = decl::find(part_of(declaration.types, span), kind) else {
        return Err(Refusal::NoComponent);
    };
    Ok(span.column + j)
}

// The first tests of a call, then the position of the word of the column that it names.
fn ask_word(store: &StoreTables<'_>, archetype: usize, kind: u32) -> Result<usize, Refusal>
    ensures { answer_of result ≡ word_asked (store_in store.now) archetype kind }
{
    store.tested(false)?;
    find_word(&store.declaration, archetype, kind)
}

// A column's word as a step of borrow words leaves it. Whatever rule the step keeps, the call keeps for the column.
// The words stay a slice: C lends them alone to be written, so no view holds them beside the others.
fn hold<F: FnOnce(u64) -> Result<u64, Refusal>>(
    declaration: &Declaration<'_>,
    ids: &IdTables<'_>,
    rows: &RowTables<'_>,
    words: &mut [u64],
    archetype: usize,
    kind: u32,
    step: F,
) -> Result<(), Refusal>
    requires { F.IsAlwaysCallable step }
    ensures { let lent = store_of (decl_in declaration.now) (ids_in ids.now) (rows_in rows.now) words.old in
        let left = store_of (decl_in declaration.now) (ids_in ids.now) (rows_in rows.now) words.new in
        (rule : ℕ → Answer ℕ) → ((word : ℕ) (said : _) → F.post step word said → answer_of said ≡ rule word) → Did (holding rule lent archetype kind) lent (answer_of result) left }
{
    let store = StoreTables {
        declaration: *declaration,
        ids: *ids,
        rows: *rows,
        words,
    };
    let position = ask_word(&store, archetype, kind)?;
    words[position] = step(words[position])?;
    Ok(())
}

pub fn borrow(
    declaration: &Declaration<'_>,
    ids: &IdTables<'_>,
    rows: &RowTables<'_>,
    words: &mut [u64],
    archetype: usize,
    kind: u32,
) -> Result<(), Refusal>
    ensures { let lent = store_of (decl_in declaration.now) (ids_in ids.now) (rows_in rows.now) words.old in
        let left = store_of (decl_in declaration.now) (ids_in ids.now) (rows_in rows.now) words.new in
        Did (holding shared_word lent archetype kind) lent (answer_of result) left }
{
    hold(
        declaration,
        ids,
        rows,
        words,
        archetype,
        kind,
        borrow_word::shared,
    )
}

pub fn borrow_mut(
    declaration: &Declaration<'_>,
    ids: &IdTables<'_>,
    rows: &RowTables<'_>,
    words: &mut [u64],
    archetype: usize,
    kind: u32,
) -> Result<(), Refusal>
    ensures { let lent = store_of (decl_in declaration.now) (ids_in ids.now) (rows_in rows.now) words.old in
        let left = store_of (decl_in declaration.now) (ids_in ids.now) (rows_in rows.now) words.new in
        Did (holding unique_word lent archetype kind) lent (answer_of result) left }
{
    hold(
        declaration,
        ids,
        rows,
        words,
        archetype,
        kind,
        borrow_word::unique,
    )
}

pub fn release(
    declaration: &Declaration<'_>,
    ids: &IdTables<'_>,
    rows: &RowTables<'_>,
    words: &mut [u64],
    archetype: usize,
    kind: u32,
) -> Result<(), Refusal>
    ensures { let lent = store_of (decl_in declaration.now) (ids_in ids.now) (rows_in rows.now) words.old in
        let left = store_of (decl_in declaration.now) (ids_in ids.now) (rows_in rows.now) words.new in
        Did (holding released_word lent archetype kind) lent (answer_of result) left }
{
    hold(
        declaration,
        ids,
        rows,
        words,
        archetype,
        kind,
        borrow_word::release,
    )
}

pub fn release_mut(
    declaration: &Declaration<'_>,
    ids: &IdTables<'_>,
    rows: &RowTables<'_>,
    words: &mut [u64],
    archetype: usize,
    kind: u32,
) -> Result<(), Refusal>
    ensures { let lent = store_of (decl_in declaration.now) (ids_in ids.now) (rows_in rows.now) words.old in
        let left = store_of (decl_in declaration.now) (ids_in ids.now) (rows_in rows.now) words.new in
        Did (holding unique_released_word lent archetype kind) lent (answer_of result) left }
{
    hold(
        declaration,
        ids,
        rows,
        words,
        archetype,
        kind,
        borrow_word::unique_release,
    )
}
