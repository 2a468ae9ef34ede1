// Numbers that stand in successive places of a table.
ghost use Rattle.std.specs.Prelude.{◌≡◌, ◌++◌, ◌+◌, ◌-◌, ◌≤◌, length};
ghost use Rattle.std.proofs.Math.Seq.{slice};
ghost use Rattle.handle.specs.Bits.{MAX};
ghost use Rattle.id_tables.specs.Head.{free_of, new_of};
ghost use Rattle.id_tables.specs.Runs.{up_from};
ghost use Rattle.store_flush.specs.Flush.{listed};

use id_tables::Head;

// New numbers.
fn list_new(numbers: &mut [u32], place: usize, from: u32, count: u32)
    requires { (from + count ≤ MAX) × (place + count ≤ length numbers.old) }
    ensures { numbers.new ≡ listed numbers.old place (up_from from count) }
{
    for i in 0..count {
        numbers[place + i as usize] = from + i;
    }
}

// Recycled numbers, one by one, for the same reason as `cells::write`.
fn list_old(numbers: &mut [u32], place: usize, old: &[u32])
    requires { place + length old.now ≤ length numbers.old }
    ensures { numbers.new ≡ listed numbers.old place old.now }
{
    for (i, number) in old.iter().enumerate() {
        numbers[place + i] = *number;
    }
}

// The reserved numbers of this head: the new ones first, then the pending ones that are not free.
pub(crate) fn list_reserved(head: Head, pending: &[u32], numbers: &mut [u32], place: usize)
    requires cursor_bound { (head.used + new_of head.cursor ≤ MAX) × (free_of head.cursor ≤ head.pending) × (head.pending ≤ length pending.now) }
    requires cursor_in_bounds { place + (new_of head.cursor + (head.pending - free_of head.cursor)) ≤ length numbers.old }
    ensures { numbers.new ≡ listed numbers.old place (up_from head.used (new_of head.cursor) ++ slice (free_of head.cursor) head.pending pending.now) }
{
    let fresh = head.fresh();
    let free = head.free();
    let count = head.pending;
    list_new(numbers, place, head.used as u32, fresh as u32);
    list_old(numbers, place + fresh, &pending[free..count]);
}
