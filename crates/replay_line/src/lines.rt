// A list of numbers as lines: each begins with how many numbers follow in it.
ghost use Rattle.std.specs.Prelude.{◌≡◌, ◌+◌, ◌%◌, ◌^◌, ◌≤◌, min, length, get_or, take, drop};
ghost use Rattle.replay_line.specs.Lines.{line_at, next_at};

// The number's low half.
pub fn low(number: u64) -> u32
    ensures { result ≡ number % 2 ^ 32 }
{
    (number % 4294967296) as u32
}

// The number at a position, or 0 past the end.
pub fn number(list: &[u64], at: usize) -> u64
    ensures { result ≡ get_or list.now at 0 }
{
    list.get(at).copied().unwrap_or(0)
}

// A length that a list tells, where there is as much.
pub fn least(told: u64, length: usize) -> usize
    ensures upper_bound { result ≤ length }
    ensures value { result ≡ min told length }
{
    length.min(told as usize)
}

// So many numbers from a position on, or as many as there are.
pub fn part(list: &[u64], at: usize, count: usize) -> &[u64]
    ensures { result.now ≡ take count (drop at list.now) }
{
    let rest = &list[at.min(list.len())..];
    &rest[..count.min(rest.len())]
}

// The line at a position.
pub fn line(list: &[u64], at: usize) -> &[u64]
    ensures { result.now ≡ line_at list.now at }
{
    if list.len() <= at {
        return &list[0..0];
    }
    part(list, at + 1, list[at] as usize)
}

// Where the line after that at a position begins, or the list's end.
pub fn next(list: &[u64], at: usize) -> usize
    ensures { result ≡ next_at list.now at }
{
    if list.len() <= at {
        return list.len();
    }
    let count = list[at] as usize;
    let left = list.len() - at;
    if left <= count {
        return list.len();
    }
    at + 1 + count
}
