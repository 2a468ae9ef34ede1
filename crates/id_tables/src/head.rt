// The head: the counts of the id tables, and the signed cursor, which only these functions look into.
ghost use Rattle.std.specs.Prelude.{◌≡◌, ◌+◌, ◌-◌, ◌%◌, ◌^◌, ◌<◌, ◌≤◌, not, ◌||◌, nat_lt};
ghost use Rattle.id_tables.specs.Head.{free_of, new_of, flushed, flushed_head, fallen_fit};

// How far below 0 a cursor can be.
const DEPTH: usize = 0x8000_0000_0000_0000;

#[derive(Clone, Copy)]
pub struct Head {
    pub used: usize,
    pub pending: usize,
    pub cursor: i64,
    pub live: usize,
}

impl Head {
    // The head of these counts with nothing reserved. The pending count is narrow, so that it fits the cursor.
    pub fn flushed(used: usize, pending: u32, live: usize) -> Head
        ensures { result ≡ flushed_head used pending live }
    {
        Head {
            used,
            pending: pending as usize,
            cursor: i64::from(pending),
            live,
        }
    }

    // How many pending entries are free: the cursor, or 0 where it is negative.
    pub fn free(self) -> usize
        ensures { result ≡ free_of self.cursor }
    {
        self.cursor.max(0) as usize
    }

    // How many new numbers are reserved: how far the cursor is below 0.
    pub fn fresh(self) -> usize
        ensures { result ≡ new_of self.cursor }
    {
        self.cursor.min(0).unsigned_abs() as usize
    }

    // Nothing is reserved: the cursor is the pending count.
    pub fn is_flushed(self) -> bool
        ensures { result ≡ flushed self }
    {
        self.free() == self.pending && self.fresh() == 0
    }

    // The head rule for the cursor: at most the pending count, and no deeper below 0 than there are unused numbers. In 64 bits one test of the pending count less the cursor says both.
    pub(crate) fn cursor_fits(self, capacity: usize) -> bool
        requires { (self.used ≤ capacity) × (self.pending ≤ self.used) }
        ensures { result ≡ not (nat_lt self.pending (free_of self.cursor) || nat_lt (capacity - self.used) (new_of self.cursor)) }
    {
        let unused = capacity - self.used;
        if DEPTH <= capacity {
            if self.pending < self.free() {
                return false;
            }
            return self.fresh() <= unused;
        }
        self.pending.wrapping_sub(self.bits()) <= self.pending + unused
    }

    // The cursor in two's complement.
    fn bits(self) -> usize
        ensures { ((result + new_of self.cursor) % 2 ^ 64 ≡ free_of self.cursor) × (free_of self.cursor < 2 ^ 63) × (new_of self.cursor ≤ 2 ^ 63) }
    {
        self.cursor.cast_unsigned() as usize
    }

    // The head with its cursor fallen by n. A cursor that would leave its 64 bits stays.
    pub fn fallen(self, n: u32) -> Head
        ensures { result ≡ fallen_fit self n }
    {
        if DEPTH < self.fresh() + n as usize {
            return self;
        }
        Head {
            cursor: self.cursor - i64::from(n),
            ..self
        }
    }
}
