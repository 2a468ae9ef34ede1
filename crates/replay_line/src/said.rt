// What is printed of a call.
use std::io;

// A line: the refusal's number or 0, the four numbers of the answer, and the digest of what is left, in hexadecimal.
pub fn say(rt: &impl Print, code: u32, out: &[u64; 4], digest: u64) -> io::Result<()> {
    let [a, b, c, d] = *out;
    println!(rt; "{code:x} {a:x} {b:x} {c:x} {d:x} {digest:x}")
}
