// Runs of table entries: found, numbered.
ghost use Rattle.std.specs.Prelude.{◌≡◌, ◌+◌, ◌-◌, ◌^◌, ◌<◌, ◌≤◌, ◌==◌, ltb, length, take, position};
ghost use Rattle.std.proofs.lemmas.List.Edits.{sets};
ghost use Rattle.id_tables.specs.Runs.{up_from};
ghost use Rattle.ids.specs.AllocAt.{position_of};

use handle::Number;
use id_tables::Head;

// Where a number stands first.
pub(crate) fn position_of(entries: &[u32], number: u32) -> Option<usize>
    ensures { result ≡ position (λ entry. entry == number) entries.now }
{
    entries.iter().position(|entry| *entry == number)
}

// Whether a number stands in the pending list, as the rule of alloc at has it: of a list shorter than its count, any number.
pub fn is_pending(head: Head, pending: &[u32], number: Number) -> bool
    ensures { result ≡ ltb (position_of number.0 (take head.pending pending.now)) head.pending }
{
    let count = head.pending;
    if pending.len() < count {
        return true;
    }
    position_of(&pending[..count], number.0).is_some()
}

// The numbers from..to, ascending, after the first count entries.
pub(crate) fn queue(pending: &mut [u32], count: usize, from: usize, to: usize)
    requires { (count + (to - from) ≤ length pending.old) × (to < 2 ^ 32) }
    ensures { pending.new ≡ sets pending.old count (up_from from (to - from)) }
{
    for number in from..to {
        pending[count + (number - from)] = number as u32;
    }
}
