// The target of an insert or a remove: the archetype of just the types that the row then has.
ghost use Rattle.std.specs.Prelude.{◌≡◌, ℕ, ◌+◌, ◌≤◌, ◌++◌, min, get_or};
ghost use Rattle.decl.specs.Lists.{same};
ghost use Rattle.decl.specs.Decl.{decl_in};
ghost use Rattle.store_moves.specs.Target.{types_before, changed, target_of, target_found};

use decl::Declaration;
use id_tables::at;

// What becomes of a row's types: one is added, or one is taken. Two cases, and no closure in their place: of a closure
// `target_of` could say what it finds only by what that answers at every list of types.
#[derive(Clone, Copy, Debug, PartialEq, Eq)]
pub enum Change {
    Added(u32),
    Taken,
}

// How many of ascending types come before a type.
pub fn types_before(types: &[u32], kind: u32) -> usize
    ensures { result ≡ types_before kind types.now }
{
    types.iter().position(|x| kind <= *x).unwrap_or(types.len())
}

// Whether a list is three others, one after another.
fn is_joined(xs: &[u32], before: &[u32], middle: &[u32], after: &[u32]) -> bool
    ensures { result ≡ same xs.now (before.now ++ (middle.now ++ after.now)) }
{
    // Most archetypes already differ in how many types they have.
    if xs.len() != before.len() + middle.len() + after.len() {
        return false;
    }
    let Some(rest) = xs.strip_prefix(before) else {
        return false;
    };
    let Some(last) = rest.strip_prefix(middle) else {
        return false;
    };
    last == after
}

// Whether a list is another that is changed at a place: past its end, nothing is taken, and what is added comes last.
fn is_changed(xs: &[u32], place: usize, change: Change, ys: &[u32]) -> bool
    ensures { result ≡ same ys.now (changed change place xs.now) }
{
    let k = usize::min(place, xs.len());
    match change {
        Change::Added(x) => is_joined(ys, &xs[..k], &[x], &xs[k..]),
        Change::Taken => is_joined(ys, &xs[..k], &[], &xs[usize::min(k + 1, xs.len())..]),
    }
}

// Where columns that begin at `from` end, of `columns` in all; as `decl` has it, but cut where a declaration that breaks its rules goes past.
fn end_of(widths: &[u32], columns: usize, a: usize, from: usize) -> usize
    requires { from ≤ columns }
    ensures { (result ≡ min (from + get_or widths.now a 0) columns) × (from ≤ result) × (result ≤ columns) }
{
    from + usize::min(at(widths, a) as usize, columns - from)
}

// The archetype of just these types once they are changed at a place.
pub fn target_of(
    declaration: &Declaration<'_>,
    own: &[u32],
    place: usize,
    change: Change,
) -> Option<usize>
    ensures { target_found result ≡ target_of (decl_in declaration.now) (changed change place own.now) }
{
    let types = declaration.types;
    let mut from = 0;
    for a in 0..declaration.rows.len() {
        let to = end_of(declaration.widths, types.len(), a, from);
        if is_changed(own, place, change, &types[from..to]) {
            return Some(a);
        }
        from = to;
    }
    None
}
