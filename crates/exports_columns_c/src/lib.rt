// The exports of exports_columns, each of which only calls it: what another language links of columns.
#![tactic(auto)]

ghost use Rattle.decl.specs.Decl.{decl_of};
ghost use Rattle.decl.specs.Lookup.{looked_up};
ghost use Rattle.row_step.specs.Tables.{tables_of};
ghost use Rattle.columns.specs.Calls.{allocated_in, removed_in, moved_out, put_in, got_in, ids_in};
ghost use Rattle.crossing.specs.Answers.{Told, Crossed, Passed, number_four, maybe_four, part_four};

// hecs's `allocate`: the number goes into the first unused row. Out: the row.
#[unsafe(no_mangle)]
pub extern "C" fn verdict_columns_allocate(
    rows: &[u32],
    widths: &[u32],
    types: &[u32],
    sizes: &[u32],
    numbers: &mut [u32],
    counts: &mut [u32],
    bytes: &[u8],
    archetype: u32,
    number: u32,
    out: &mut [u64; 4],
) -> u32
    ensures { let d = decl_of rows.now widths.now types.now sizes.now in
        let lent = tables_of numbers.old counts.old bytes.now in
        let left = tables_of numbers.new counts.new bytes.now in
        Crossed number_four (allocated_in d lent archetype number) lent result out.new left }
{
    exports_columns::verdict_columns_allocate(
        rows, widths, types, sizes, numbers, counts, bytes, archetype, number, out,
    )
}

// hecs's `remove`: the last row takes the place of the one that is removed. Out: 0, or 1 and the number that moved.
#[unsafe(no_mangle)]
pub extern "C" fn verdict_columns_remove(
    rows: &[u32],
    widths: &[u32],
    types: &[u32],
    sizes: &[u32],
    numbers: &mut [u32],
    counts: &mut [u32],
    bytes: &mut [u8],
    archetype: u32,
    row: u32,
    out: &mut [u64; 4],
) -> u32
    ensures { let d = decl_of rows.now widths.now types.now sizes.now in
        let lent = tables_of numbers.old counts.old bytes.old in
        let left = tables_of numbers.new counts.new bytes.new in
        Crossed maybe_four (removed_in d lent archetype row) lent result out.new left }
{
    exports_columns::verdict_columns_remove(
        rows, widths, types, sizes, numbers, counts, bytes, archetype, row, out,
    )
}

// hecs's `move_to`: the row's bytes in column order into `taken`, then as `remove`. Out: 0, or 1 and the number that moved.
#[unsafe(no_mangle)]
pub extern "C" fn verdict_columns_move_out(
    rows: &[u32],
    widths: &[u32],
    types: &[u32],
    sizes: &[u32],
    numbers: &mut [u32],
    counts: &mut [u32],
    bytes: &mut [u8],
    taken: &mut [u8],
    archetype: u32,
    row: u32,
    out: &mut [u64; 4],
) -> u32
    ensures { let d = decl_of rows.now widths.now types.now sizes.now in
        let lent = tables_of numbers.old counts.old bytes.old in
        let left = tables_of numbers.new counts.new bytes.new in
        Crossed maybe_four (moved_out d lent taken.old archetype row) (lent, taken.old) result out.new (left, taken.new) }
{
    exports_columns::verdict_columns_move_out(
        rows, widths, types, sizes, numbers, counts, bytes, taken, archetype, row, out,
    )
}

// hecs's `put_dynamic`: component bytes stored in a row.
#[unsafe(no_mangle)]
pub extern "C" fn verdict_columns_put(
    rows: &[u32],
    widths: &[u32],
    types: &[u32],
    sizes: &[u32],
    numbers: &[u32],
    counts: &[u32],
    bytes: &mut [u8],
    archetype: u32,
    row: u32,
    kind: u32,
    value: &[u8],
) -> u32
    ensures { let d = decl_of rows.now widths.now types.now sizes.now in
        let lent = tables_of numbers.now counts.now bytes.old in
        let left = tables_of numbers.now counts.now bytes.new in
        Passed (put_in d lent archetype row kind value.now) lent result left }
{
    exports_columns::verdict_columns_put(
        rows, widths, types, sizes, numbers, counts, bytes, archetype, row, kind, value,
    )
}

// hecs's `get_dynamic`. Out: where the component's bytes are, start and length.
#[unsafe(no_mangle)]
pub extern "C" fn verdict_columns_get(
    rows: &[u32],
    widths: &[u32],
    types: &[u32],
    sizes: &[u32],
    numbers: &[u32],
    counts: &[u32],
    bytes: &[u8],
    archetype: u32,
    row: u32,
    kind: u32,
    out: &mut [u64; 4],
) -> u32
    ensures { let d = decl_of rows.now widths.now types.now sizes.now in
        let lent = tables_of numbers.now counts.now bytes.now in
        Told part_four (got_in d lent archetype row kind) result out.new }
{
    exports_columns::verdict_columns_get(
        rows, widths, types, sizes, numbers, counts, bytes, archetype, row, kind, out,
    )
}

// hecs's `ids`. Out: where the archetype's row numbers are, start and count.
#[unsafe(no_mangle)]
pub extern "C" fn verdict_columns_ids(
    rows: &[u32],
    widths: &[u32],
    types: &[u32],
    sizes: &[u32],
    numbers: &[u32],
    counts: &[u32],
    bytes: &[u8],
    archetype: u32,
    out: &mut [u64; 4],
) -> u32
    ensures { let d = decl_of rows.now widths.now types.now sizes.now in
        let lent = tables_of numbers.now counts.now bytes.now in
        Told part_four (ids_in d lent archetype) result out.new }
{
    exports_columns::verdict_columns_ids(
        rows, widths, types, sizes, numbers, counts, bytes, archetype, out,
    )
}

// Type lookup. Out: the column within the archetype.
#[unsafe(no_mangle)]
pub extern "C" fn verdict_columns_lookup(
    rows: &[u32],
    widths: &[u32],
    types: &[u32],
    sizes: &[u32],
    archetype: u32,
    kind: u32,
    out: &mut [u64; 4],
) -> u32
    ensures { let d = decl_of rows.now widths.now types.now sizes.now in
        Told number_four (looked_up d archetype kind) result out.new }
{
    exports_columns::verdict_columns_lookup(rows, widths, types, sizes, archetype, kind, out)
}
