// The calls on one number: reserve it, allocate it, allocate a chosen one, free it.
#![tactic(auto)]

mod give_back;
mod reserve;
mod runs;
mod take_chosen;
mod take_next;

ghost use Rattle.std.specs.Prelude.{◌≡◌, set};

pub use give_back::free;
use handle::{Number, Place};
use id_tables::{put, put_place};
pub use reserve::reserve_entity;
pub use runs::is_pending;
pub use take_chosen::alloc_at;
pub use take_next::alloc;

// Writes a number's generation and place.
pub(crate) fn settle(
    generations: &mut [u32],
    archetypes: &mut [u32],
    indices: &mut [u32],
    number: Number,
    generation: u32,
    place: Place,
)
    ensures { (generations.new ≡ set generations.old number.0 generation) × (archetypes.new ≡ set archetypes.old number.0 place.archetype) × (indices.new ≡ set indices.old number.0 place.index.0) }
{
    put(generations, number.0 as usize, generation);
    put_place(archetypes, indices, number, place);
}
