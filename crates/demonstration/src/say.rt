// What the program writes: handles, refusals, what a call answers.
use handle::Handle;
use refusal::Refusal;
use std::{fmt, io};

// A handle as 7v2: the number, then the generation.
#[derive(Clone, Copy)]
pub struct Name(pub Handle);

impl fmt::Display for Name {
    fn fmt<W: fmt::Write>(&self, f: &mut fmt::Formatter<W>) -> fmt::Result {
        let number = self.0.id().0;
        let generation = self.0.generation();
        write!(f, "{number}v{generation}")
    }
}

// A refusal by its number.
#[derive(Clone, Copy)]
pub struct Why(pub Refusal);

impl fmt::Display for Why {
    fn fmt<W: fmt::Write>(&self, f: &mut fmt::Formatter<W>) -> fmt::Result {
        let number = self.0.number();
        write!(f, "refused {number}")
    }
}

pub(crate) fn named(rt: &impl Print, bits: u64) -> io::Result<()> {
    match Handle::from_bits(bits) {
        Ok(handle) => rt.print(Name(handle)),
        Err(refusal) => rt.print(Why(refusal)),
    }
}

// The handle, or the refusal.
pub(crate) fn given(rt: &impl Print, answer: Result<Handle, Refusal>) -> io::Result<()> {
    match answer {
        Ok(handle) => rt.println(Name(handle)),
        Err(refusal) => rt.println(Why(refusal)),
    }
}

// That it was done, or the refusal.
pub(crate) fn done(rt: &impl Print, answer: Result<(), Refusal>) -> io::Result<()> {
    match answer {
        Ok(()) => rt.println("done"),
        Err(refusal) => rt.println(Why(refusal)),
    }
}
