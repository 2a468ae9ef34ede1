// The declaration's tests, rule by rule, for what the quick look leaves open.
ghost use Rattle.std.specs.Prelude.{◌≡◌, true, ◌<◌, ◌≤◌, length};
ghost use Rattle.refusal.specs.Table.{answer_of, passing};
ghost use Rattle.decl.specs.Lists.{sum, part_of, any_above, rising, any_below, any_pair};
ghost use Rattle.decl.specs.Decl.{decl_in};
ghost use Rattle.decl.specs.Rules.{shape_rules, decl_rules};
ghost use Rattle.decl.specs.Steps.{clashing, falls, clash_at, Risen};

use crate::{ARCHETYPES, COLUMNS, Declaration, ROWS, SIZE, end_of, total};
use refusal::Refusal;

// The types and the sizes of an archetype's columns.
#[derive(Clone, Copy)]
struct Columns<'a> {
    types: &'a [u32],
    sizes: &'a [u32],
}

fn any_above(xs: &[u32], max: u32) -> bool
    ensures { result ≡ any_above max xs.now }
{
    xs.iter().any(|&x| max < x)
}

// The tests on lengths and counts.
fn shape_tested(d: &Declaration<'_>) -> Result<(), Refusal>
    ensures { answer_of result ≡ passing (shape_rules (decl_in d.now)) }
{
    let Declaration {
        rows,
        widths,
        types,
        sizes,
    } = *d;
    if rows.len() == 0 {
        return Err(Refusal::BadDeclaration);
    }
    if ARCHETYPES < rows.len() {
        return Err(Refusal::BadDeclaration);
    }
    if widths.len() != rows.len() {
        return Err(Refusal::BadDeclaration);
    }
    if widths[0] != 0 {
        return Err(Refusal::BadDeclaration);
    }
    if any_above(widths, COLUMNS) {
        return Err(Refusal::BadDeclaration);
    }
    if any_above(rows, ROWS) {
        return Err(Refusal::BadDeclaration);
    }
    let columns = total(widths);
    if types.len() != columns {
        return Err(Refusal::BadDeclaration);
    }
    if sizes.len() != columns {
        return Err(Refusal::BadDeclaration);
    }
    Ok(())
}

fn is_rising(xs: &[u32]) -> bool
    ensures { result ≡ rising xs.now }
{
    xs.is_sorted_by(|x, y| x < y)
}

// Whether the types of some archetype do not ascend.
fn any_falls(widths: &[u32], types: &[u32]) -> bool
    requires { sum widths.now ≤ length types.now }
    ensures { result ≡ any_below (length widths.now) (falls widths.now types.now) }
{
    let mut at: usize = 0;
    for a in 0..widths.len() {
        let end = end_of(widths, a, at);
        if !is_rising(&types[at..end]) {
            return true;
        }
        at = end;
    }
    false
}

// Whether two archetypes have the same types, or a type in common with two sizes. Both ascend, so one walk in step,
// each time past the smaller type, meets every type that they share. A turn passes a type of the one, of the other or
// of both, so that neither's types are the sequence of a `for`.
fn clash(left: &Columns<'_>, right: &Columns<'_>) -> bool
    requires { (rising left.now.types.now ≡ true) × (rising right.now.types.now ≡ true) × (length left.now.sizes.now ≡ length left.now.types.now) × (length right.now.sizes.now ≡ length right.now.types.now) }
    ensures { result ≡ clashing left.now.types.now left.now.sizes.now right.now.types.now right.now.sizes.now }
{
    let Columns {
        types: xs,
        sizes: ss,
    } = *left;
    let Columns {
        types: ys,
        sizes: ts,
    } = *right;
    let mut differ = false;
    let mut i = 0;
    let mut j = 0;
    while i < xs.len() {
        if ys.len() <= j {
            return false;
        }
        let x = xs[i];
        let y = ys[j];
        if x == y {
            if ss[i] != ts[j] {
                return true;
            }
            i += 1;
            j += 1;
        } else {
            differ = true;
            if x < y {
                i += 1;
            } else {
                j += 1;
            }
        }
    }
    if differ {
        return false;
    }
    j == ys.len()
}

// Whether archetype b, with columns `own`, clashes with one before it.
fn clash_before(d: &Declaration<'_>, own: &Columns<'_>, b: usize) -> bool
    requires risen { Risen d.now.widths.now d.now.types.now d.now.sizes.now }
    requires b_in_bounds { (b < length d.now.widths.now) × (own.now.types.now ≡ part_of d.now.widths.now d.now.types.now b) × (own.now.sizes.now ≡ part_of d.now.widths.now d.now.sizes.now b) }
    ensures { result ≡ any_below b (λ a. clash_at d.now.widths.now d.now.types.now d.now.sizes.now a b) }
{
    let Declaration {
        rows: _,
        widths,
        types,
        sizes,
    } = *d;
    let mut at: usize = 0;
    for a in 0..b {
        let end = end_of(widths, a, at);
        let other = Columns {
            types: &types[at..end],
            sizes: &sizes[at..end],
        };
        if clash(&other, own) {
            return true;
        }
        at = end;
    }
    false
}

// Whether two archetypes clash: each is compared with those before it, so that no pair is walked twice.
fn any_clash(d: &Declaration<'_>) -> bool
    requires { Risen d.now.widths.now d.now.types.now d.now.sizes.now }
    ensures { result ≡ any_pair (length d.now.widths.now) (clash_at d.now.widths.now d.now.types.now d.now.sizes.now) }
{
    let Declaration {
        rows: _,
        widths,
        types,
        sizes,
    } = *d;
    let mut at: usize = 0;
    for b in 0..widths.len() {
        let end = end_of(widths, b, at);
        let own = Columns {
            types: &types[at..end],
            sizes: &sizes[at..end],
        };
        if clash_before(d, &own, b) {
            return true;
        }
        at = end;
    }
    false
}

// All the tests of a declaration. Out of line, so that the quick look has the registers to itself.
#[cold]
pub(crate) fn tested(d: &Declaration<'_>) -> Result<(), Refusal>
    ensures { answer_of result ≡ passing (decl_rules (decl_in d.now)) }
{
    shape_tested(d)?;
    if any_above(d.sizes, SIZE) {
        return Err(Refusal::BadDeclaration);
    }
    if any_falls(d.widths, d.types) {
        return Err(Refusal::BadDeclaration);
    }
    if any_clash(d) {
        return Err(Refusal::BadDeclaration);
    }
    Ok(())
}
