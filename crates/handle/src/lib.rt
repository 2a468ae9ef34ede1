// Handles: a generation in the high half and a number in the low half of 64 bits. Numbers, rows and places.
#![tactic(auto)]

ghost use Rattle.std.specs.Prelude.{◌≡◌};
ghost use Rattle.handle.specs.Bits.{MAX, bits_of, number_in, generation_in, handle_of, from_bits, new_handle};

use refusal::Refusal;

// The largest 32-bit number: the index of a number that has no row.
pub const MAX: u32 = 0xffff_ffff;

// The number of an entity.
#[derive(Clone, Copy, Debug, PartialEq, Eq)]
pub struct Number(pub u32);

// A row of an archetype.
#[derive(Clone, Copy, Debug, PartialEq, Eq, PartialOrd, Ord)]
pub struct Row(pub u32);

// An entity as its user holds it. Its generation is never 0: the field is shut, and what makes a handle refuses that.
#[derive(Clone, Copy, Debug, PartialEq, Eq)]
pub struct Handle(u64);

// Where an entity's components are.
#[derive(Clone, Copy, Debug, PartialEq, Eq)]
pub struct Place {
    pub archetype: u32,
    pub index: Row,
}

impl Place {
    // The place of a number that has no row.
    pub const EMPTY: Place = Place {
        archetype: 0,
        index: Row(MAX),
    };
}

// The 64 bits of a generation and a number.
pub fn bits_of(generation: u32, number: Number) -> u64
    ensures { result ≡ bits_of generation number.0 }
{
    let n = number.0;
    (generation as u64) << 32 | n as u64
}

impl Handle {
    // A handle that need name no entity.
    pub const DANGLING: Handle = Handle(0xffff_ffff_ffff_ffff);

    pub fn new(number: Number, generation: u32) -> Result<Handle, Refusal>
        ensures { handle_of result ≡ new_handle number.0 generation }
    {
        if generation == 0 {
            return Err(Refusal::ZeroGeneration);
        }
        Ok(Handle(bits_of(generation, number)))
    }

    pub fn from_bits(bits: u64) -> Result<Handle, Refusal>
        ensures { handle_of result ≡ from_bits bits }
    {
        if bits >> 32 == 0 {
            return Err(Refusal::ZeroGeneration);
        }
        Ok(Handle(bits))
    }

    pub fn to_bits(self) -> u64
        ensures { result ≡ self.0 }
    {
        self.0
    }

    pub fn id(self) -> Number
        ensures { result.0 ≡ number_in self.0 }
    {
        let b = self.0;
        Number((b & 0xffff_ffff) as u32)
    }

    pub fn generation(self) -> u32
        ensures { result ≡ generation_in self.0 }
    {
        let b = self.0;
        (b >> 32) as u32
    }
}

// The two constants are what document 01 says of them.
fn dangling() -> Handle
    ensures { result.0 ≡ bits_of MAX MAX }
{
    Handle::DANGLING
}

fn empty() -> Place
    ensures { (result.archetype ≡ 0) × (result.index.0 ≡ MAX) }
{
    Place::EMPTY
}
