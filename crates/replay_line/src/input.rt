// What a program is told.
ghost use Rattle.std.specs.Prelude.{◌≤◌, IfOk, length};

use std::io::{self, ErrorKind, Read};

// The input's bytes to the text's front, as many as there are places; answers how many.
pub fn read_full(rt: &impl Input, text: &mut [u8]) -> io::Result<usize>
    ensures { IfOk result (λ n. n ≤ length text.old) }
{
    let mut input = rt.reader();
    let mut n = 0;
    for _ in 0..u64::MAX {
        match input.read(&mut text[n..]) {
            Ok(0) => break,
            Ok(count) => n += count,
            Err(e) if e.kind() == ErrorKind::Interrupted => {}
            Err(e) => return Err(e),
        }
    }
    Ok(n)
}
