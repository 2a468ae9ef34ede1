// What every call on the id tables tests first: 12 and 13 for the lengths, 13 for an output, 1 for the head.
ghost use Rattle.std.specs.Prelude.{◌≡◌};
ghost use Rattle.refusal.specs.Table.{answer_of, passing};
ghost use Rattle.id_tables.specs.Head.{head_rules};
ghost use Rattle.id_tables.specs.Ids.{ids_in, capacity_rules, length_rules, entry};

use crate::head::Head;
use crate::tables::IdTables;
use refusal::Refusal;

const MAX_CAPACITY: usize = 4096;

// 12: the capacity's limit.
pub fn capacity_tested(capacity: usize) -> Result<(), Refusal>
    ensures { answer_of result ≡ passing (capacity_rules capacity) }
{
    if MAX_CAPACITY < capacity {
        return Err(Refusal::BadDeclaration);
    }
    Ok(())
}

// 13: three tables as long as the capacity.
pub fn lengths_tested(
    capacity: usize,
    archetypes: usize,
    indices: usize,
    pending: usize,
) -> Result<(), Refusal>
    ensures { answer_of result ≡ passing (length_rules capacity archetypes indices pending) }
{
    if archetypes != capacity {
        return Err(Refusal::BadLength);
    }
    if indices != capacity {
        return Err(Refusal::BadLength);
    }
    if pending != capacity {
        return Err(Refusal::BadLength);
    }
    Ok(())
}

// 1: the head rule.
pub fn head_tested(head: Head, capacity: usize) -> Result<(), Refusal>
    ensures { answer_of result ≡ passing (head_rules head capacity) }
{
    if capacity < head.used {
        return Err(Refusal::Damaged);
    }
    if head.used < head.pending {
        return Err(Refusal::Damaged);
    }
    if !head.cursor_fits(capacity) {
        return Err(Refusal::Damaged);
    }
    if head.live != head.used - head.pending {
        return Err(Refusal::Damaged);
    }
    Ok(())
}

impl IdTables<'_> {
    // `short` says that the call is lent an output that is too short.
    pub fn tested(&self, short: bool) -> Result<(), Refusal>
        ensures { answer_of result ≡ passing (entry (ids_in self.now) short) }
    {
        let capacity = self.generations.len();
        capacity_tested(capacity)?;
        lengths_tested(
            capacity,
            self.archetypes.len(),
            self.indices.len(),
            self.pending.len(),
        )?;
        if short {
            return Err(Refusal::BadLength);
        }
        head_tested(self.head, capacity)
    }
}
