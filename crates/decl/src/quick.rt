// One walk over a declaration: it settles most that keep the rules, and leaves the others open.
ghost use Rattle.std.specs.Prelude.{◌≡◌, true, false, ℕ, ◌*◌, ◌<◌, ◌≤◌, ◌%◌, ◌+◌, length, get_or};
ghost use Rattle.decl.specs.Limits.{max_archetypes, max_columns, max_size};
ghost use Rattle.decl.specs.Decl.{decl_in};
ghost use Rattle.decl.specs.Steps.{Noted, Ordered, Marked, Settled};

use crate::{ARCHETYPES, COLUMNS, Declaration, ROWS, SIZE, Totals};

// A mark of the types of an archetype whose columns plainly keep the rules, and the bytes of a row of them. Two marks
// tell two type sets apart.
#[derive(Clone, Copy)]
struct Mark {
    bits: u64,
    width: usize,
}

// The bytes of a row of the columns of the one archetype that has any: they are compared with no other's.
fn width_of(types: &[u32], sizes: &[u32]) -> Option<usize>
    requires { (length types.now ≤ max_columns) × (length sizes.now ≡ length types.now) }
    ensures { Ordered types.now sizes.now result }
{
    let mut width: usize = 0;
    let mut least: u64 = 0;
    for (&x, &s) in types.iter().zip(sizes) {
        if (x as u64) < least {
            return None;
        }
        if SIZE < s {
            return None;
        }
        least = x as u64 + 1;
        width += s as usize;
    }
    Some(width)
}

// Archetype 0 and one other.
fn alone(d: &Declaration<'_>) -> Option<Totals>
    requires { (length d.now.rows.now ≡ 2) × (length d.now.widths.now ≡ 2) × (get_or d.now.widths.now 0 0 ≡ 0) × (length d.now.sizes.now ≡ length d.now.types.now) }
    ensures { Settled (decl_in d.now) result }
{
    let Declaration {
        rows,
        widths,
        types,
        sizes,
    } = *d;
    if types.len() == 0 {
        return None;
    }
    if COLUMNS < widths[1] {
        return None;
    }
    if types.len() != widths[1] as usize {
        return None;
    }
    if ROWS < rows[0] {
        return None;
    }
    if ROWS < rows[1] {
        return None;
    }
    let width = width_of(types, sizes)?;
    let n = rows[1] as usize;
    Some(Totals {
        rows: rows[0] as usize + n,
        bytes: n * width,
    })
}

// Whether a type's size is not too large, and the one noted for it. `seen` and `sized` hold, at a type's low six bits,
// the first type with these and its size; a type with other low bits stands where none was seen. They are two arrays and
// not one value: that was tried, and the walk over 16 archetypes took a sixth longer.
fn is_known(
    seen: &mut [u32; 64],
    sized: &mut [u32; 64],
    types: &[u32],
    sizes: &[u32],
    p: usize,
) -> bool
    requires noted { Noted types.now sizes.now seen.old sized.old p }
    requires p_in_bounds { (p < length types.now) × (length sizes.now ≡ length types.now) }
    ensures { result ≡ true → Noted types.now sizes.now seen.new sized.new (p + 1) × (get_or sizes.now p 0 ≤ max_size) }
{
    let x = types[p];
    let s = sizes[p];
    let slot = (x % 64) as usize;
    let y = seen[slot];
    if y == x {
        return sized[slot] == s;
    }
    if y % 64 == x % 64 {
        return false;
    }
    if SIZE < s {
        return false;
    }
    seen[slot] = x;
    sized[slot] = s;
    true
}

// The mark of the columns from `from` up to, not including, `to`.
fn mark_of(
    seen: &mut [u32; 64],
    sized: &mut [u32; 64],
    types: &[u32],
    sizes: &[u32],
    from: usize,
    to: usize,
) -> Option<Mark>
    requires noted { Noted types.now sizes.now seen.old sized.old from }
    requires from_le_to { (from ≤ to) × (to ≤ length types.now) × (to ≤ from + max_columns) × (length sizes.now ≡ length types.now) }
    ensures { Marked types.now sizes.now seen.new sized.new from to result }
{
    let mut bits: u64 = 0;
    let mut width: usize = 0;
    let mut least: u64 = 0;
    for p in from..to {
        let x = types[p] as u64;
        if x < least {
            return None;
        }
        if !is_known(seen, sized, types, sizes, p) {
            return None;
        }
        bits |= 1 << (x % 64);
        least = x + 1;
        width += sizes[p] as usize;
    }
    Some(Mark { bits, width })
}

// Whether a mark is among the first n. A loop: with an iterator's `any` the walk over 16 archetypes took a twelfth longer,
// and with the slice's `contains` more.
fn is_among(marks: &[u64; ARCHETYPES], n: usize, mark: u64) -> bool
    requires { n ≤ max_archetypes }
    ensures { result ≡ false → (k : ℕ) → k < n → get_or marks.now k 0 ≡ mark → ⊥ }
{
    for i in 0..n {
        if marks[i] == mark {
            return true;
        }
    }
    false
}

// Several archetypes: each column is like the first with its low bits, and no two archetypes have one mark. That takes
// a step a column, where the pairs of archetypes take as many for each archetype; types that share their low bits leave
// it open. Out of line, for the registers of its inner loop.
#[inline(never)]
fn among(d: &Declaration<'_>) -> Option<Totals>
    requires { (0 < length d.now.rows.now) × (length d.now.rows.now ≤ max_archetypes) × (length d.now.widths.now ≡ length d.now.rows.now) × (get_or d.now.widths.now 0 0 ≡ 0) × (length d.now.sizes.now ≡ length d.now.types.now) }
    ensures { Settled (decl_in d.now) result }
{
    let Declaration {
        rows,
        widths,
        types,
        sizes,
    } = *d;
    let mut seen = [0u32; 64];
    seen[0] = 1;
    let mut sized = [0u32; 64];
    let mut marks = [0u64; ARCHETYPES];
    let mut row: usize = 0;
    let mut at: usize = 0;
    let mut base: usize = 0;
    for a in 0..rows.len() {
        if COLUMNS < widths[a] {
            return None;
        }
        let end = at + widths[a] as usize;
        if types.len() < end {
            return None;
        }
        if ROWS < rows[a] {
            return None;
        }
        let mark = mark_of(&mut seen, &mut sized, types, sizes, at, end)?;
        if is_among(&marks, a, mark.bits) {
            return None;
        }
        marks[a] = mark.bits;
        let n = rows[a] as usize;
        row += n;
        base += n * mark.width;
        at = end;
    }
    if at != types.len() {
        return None;
    }
    Some(Totals {
        rows: row,
        bytes: base,
    })
}

// What all archetypes take, of a declaration that keeps the rules; or one walk does not tell whether it keeps them.
pub(crate) fn looked_at(d: &Declaration<'_>) -> Option<Totals>
    ensures { Settled (decl_in d.now) result }
{
    let Declaration {
        rows,
        widths,
        types,
        sizes,
    } = *d;
    if rows.len() == 0 {
        return None;
    }
    if ARCHETYPES < rows.len() {
        return None;
    }
    if widths.len() != rows.len() {
        return None;
    }
    if widths[0] != 0 {
        return None;
    }
    if sizes.len() != types.len() {
        return None;
    }
    if rows.len() == 2 {
        return alone(d);
    }
    among(d)
}
