// The declaration of archetypes and columns: its check, where each part stands, and type lookup.
#![tactic(auto)]

mod exact;
mod quick;

ghost use Rattle.std.specs.Prelude.{◌≡◌, ℕ, ◌+◌, ◌-◌, ◌*◌, ◌^◌, ◌<◌, ◌≤◌, length, get_or};
ghost use Rattle.refusal.specs.Table.{answer_of, passing};
ghost use Rattle.decl.specs.Limits.{max_archetypes, max_columns};
ghost use Rattle.decl.specs.Lists.{sum, first_of};
ghost use Rattle.decl.specs.Decl.{decl_in};
ghost use Rattle.decl.specs.Rules.{decl_rules};
ghost use Rattle.decl.specs.Places.{spanned, measured};
ghost use Rattle.decl.specs.Lookup.{sought, searched, looked_up};
ghost use Rattle.decl.specs.Steps.{Parted};

use refusal::Refusal;

// What a caller lends: the rows and the columns of each archetype, and the type and the size of each column.
#[derive(Clone, Copy)]
pub struct Declaration<'a> {
    pub rows: &'a [u32],
    pub widths: &'a [u32],
    pub types: &'a [u32],
    pub sizes: &'a [u32],
}

// The part of each table that is an archetype's: its first row and how many, its first column and how many, its first
// byte, and the bytes of a row.
#[derive(Clone, Copy)]
pub struct Span {
    pub row: usize,
    pub rows: usize,
    pub column: usize,
    pub columns: usize,
    pub base: usize,
    pub bytes: usize,
}

// What all archetypes take: their rows, and their bytes.
#[derive(Clone, Copy)]
pub struct Totals {
    pub rows: usize,
    pub bytes: usize,
}

// An archetype's rows, columns and bytes of a row.
#[derive(Clone, Copy)]
struct Part {
    rows: usize,
    columns: usize,
    bytes: usize,
}

// The limits of a declaration: archetypes, columns an archetype, bytes a component, rows an archetype.
const ARCHETYPES: usize = 16;

const COLUMNS: u32 = 16;

const SIZE: u32 = 64;

const ROWS: u32 = 4096;

// The sum of a list that is short enough for it to fit.
fn total(xs: &[u32]) -> usize
    requires { length xs.now ≤ 65536 }
    ensures { (result ≡ sum xs.now) × (result ≤ 4294967295 * length xs.now) }
{
    xs.iter().map(|&x| x as usize).sum()
}

// The number there, or 0 past the end.
fn at(xs: &[u32], i: usize) -> usize
    ensures { result ≡ get_or xs.now i 0 }
{
    xs.get(i).copied().unwrap_or(0) as usize
}

// Where archetype a's columns end, of those that begin at `at`.
fn end_of(widths: &[u32], a: usize, at: usize) -> usize
    requires { (a < length widths.now) × (at ≡ first_of widths.now a) × (sum widths.now < 2 ^ 64) }
    ensures { (result ≡ first_of widths.now (a + 1)) × (at ≤ result) × (result ≤ sum widths.now) }
{
    at + widths[a] as usize
}

// A binary search from lo up to, not including, hi. It calls itself: document 01 demands type lookup in that form.
fn seek(types: &[u32], kind: u32, lo: usize, hi: usize) -> Option<usize>
    requires { (lo ≤ hi) × (hi ≤ length types.now) }
    ensures { (n : ℕ) → hi - lo ≤ n → result ≡ sought n types.now kind lo hi }
{
    if hi <= lo {
        return None;
    }
    let middle = lo + (hi - lo) / 2;
    let x = types[middle];
    if x == kind {
        return Some(middle);
    }
    if x < kind {
        return seek(types, kind, middle + 1, hi);
    }
    seek(types, kind, lo, middle)
}

// The column of a type, by its number, among ascending types.
pub fn find(types: &[u32], kind: u32) -> Option<usize>
    ensures { result ≡ searched types.now kind }
{
    seek(types, kind, 0, types.len())
}

impl<'a> Declaration<'a> {
    // Archetype a's part, where its columns begin at `column`; or it has more than there may be.
    fn part_of(&self, a: usize, column: usize) -> Option<Part>
        requires { column ≤ max_archetypes * max_columns }
        ensures { Parted self.now.rows.now self.now.widths.now self.now.sizes.now a column result }
    {
        let columns = at(self.widths, a);
        if (COLUMNS as usize) < columns {
            return None;
        }
        let rows = at(self.rows, a);
        if (ROWS as usize) < rows {
            return None;
        }
        let end = column + columns;
        if self.sizes.len() < end {
            return None;
        }
        let bytes = total(&self.sizes[column..end]);
        Some(Part {
            rows,
            columns,
            bytes,
        })
    }

    // The part of each table that is an archetype's; at the number of archetypes, what all of them take. Inlined: most
    // callers want one number of it, and the others are then not reckoned.
    #[inline(always)]
    pub fn span_of(&self, archetype: usize) -> Result<Span, Refusal>
        ensures { answer_of result ≡ spanned (decl_in self.now) archetype }
    {
        if self.rows.len() < archetype {
            return Err(Refusal::BadPlace);
        }
        if ARCHETYPES < archetype {
            return Err(Refusal::BadDeclaration);
        }
        let mut row: usize = 0;
        let mut column: usize = 0;
        let mut base: usize = 0;
        for a in 0..archetype {
            let Some(part) = self.part_of(a, column) else {
                return Err(Refusal::BadDeclaration);
            };
            row += part.rows;
            column += part.columns;
            base += part.rows * part.bytes;
        }
        let Some(part) = self.part_of(archetype, column) else {
            return Err(Refusal::BadDeclaration);
        };
        Ok(Span {
            row,
            rows: part.rows,
            column,
            columns: part.columns,
            base,
            bytes: part.bytes,
        })
    }

    // The tests of a declaration, and what all archetypes take. One walk is enough for most that keep the rules; else
    // each rule is tested.
    pub fn totals(&self) -> Result<Totals, Refusal>
        ensures { answer_of result ≡ measured (decl_in self.now) }
    {
        if let Some(totals) = quick::looked_at(self) {
            return Ok(totals);
        }
        exact::tested(self)?;
        let all = self.span_of(self.rows.len())?;
        Ok(Totals {
            rows: all.row,
            bytes: all.base,
        })
    }

    // All the tests of a declaration.
    pub fn tested(&self) -> Result<(), Refusal>
        ensures { answer_of result ≡ passing (decl_rules (decl_in self.now)) }
    {
        self.totals()?;
        Ok(())
    }

    // Type lookup in an archetype.
    pub fn column_of(&self, archetype: usize, kind: u32) -> Result<usize, Refusal>
        ensures { answer_of result ≡ looked_up (decl_in self.now) archetype kind }
    {
        self.tested()?;
        if self.rows.len() <= archetype {
            return Err(Refusal::BadPlace);
        }
        let at = total(&self.widths[..archetype]);
        let end = end_of(self.widths, archetype, at);
        find(&self.types[at..end], kind).ok_or(Refusal::NoComponent)
    }
}
