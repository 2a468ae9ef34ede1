// The id tables as another language lends them to be read.
ghost use Rattle.std.specs.Prelude.{◌≡◌};
ghost use Rattle.id_tables.specs.Ids.{ids_of, ids_in};
ghost use Rattle.crossing.specs.Words.{head_of};

use crossing::head_of;
use id_tables::IdTables;

pub(crate) fn lent<'a>(
    head: &[u64; 4],
    generations: &'a [u32],
    archetypes: &'a [u32],
    indices: &'a [u32],
    pending: &'a [u32],
) -> IdTables<'a>
    ensures { ids_in result ≡ ids_of (head_of head.now) generations.now archetypes.now indices.now pending.now }
{
    IdTables {
        head: head_of(head),
        generations,
        archetypes,
        indices,
        pending,
    }
}
