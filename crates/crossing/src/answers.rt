// What a call returns as it crosses: the refusal's number and zeros, or 0 and what is granted as four numbers.
ghost use Rattle.std.specs.Prelude.{◌≡◌};
ghost use Rattle.refusal.specs.Table.{answer_of};
ghost use Rattle.crossing.specs.Answers.{Told, code_of};

use handle::{Handle, Number, Place, Row};
use refusal::Refusal;

// What is granted, as four numbers.
pub trait Crossing {
    ghost use Rattle.std.specs.Prelude.{List, ℕ, ◌≡◌};

    ghost numbers: { Self → List ℕ };

    fn four(self) -> [u64; 4]
        ensures { result ≡ numbers self };
}

impl Crossing for bool {
    ghost use Rattle.crossing.specs.Answers.{yes_four};

    ghost numbers = { yes_four };

    fn four(self) -> [u64; 4] {
        [u64::from(self), 0, 0, 0]
    }
}

impl Crossing for usize {
    ghost use Rattle.crossing.specs.Answers.{number_four};

    ghost numbers = { number_four };

    fn four(self) -> [u64; 4] {
        [self as u64, 0, 0, 0]
    }
}

impl Crossing for u64 {
    ghost use Rattle.crossing.specs.Answers.{number_four};

    ghost numbers = { number_four };

    fn four(self) -> [u64; 4] {
        [self, 0, 0, 0]
    }
}

impl Crossing for Row {
    ghost use Rattle.crossing.specs.Answers.{number_four};

    ghost numbers = { λ row. number_four row.0 };

    fn four(self) -> [u64; 4] {
        [self.0 as u64, 0, 0, 0]
    }
}

impl Crossing for Handle {
    ghost use Rattle.crossing.specs.Answers.{number_four};

    ghost numbers = { λ handle. number_four handle.0 };

    fn four(self) -> [u64; 4] {
        [self.to_bits(), 0, 0, 0]
    }
}

impl Crossing for Place {
    ghost use Rattle.crossing.specs.Answers.{place_four};

    ghost numbers = { place_four };

    fn four(self) -> [u64; 4] {
        let row = self.index;
        [self.archetype as u64, row.0 as u64, 0, 0]
    }
}

// A part of a table: where it starts, and how long it is.
impl Crossing for (usize, usize) {
    ghost use Rattle.crossing.specs.Answers.{part_four};

    ghost numbers = { part_four };

    fn four(self) -> [u64; 4] {
        [self.0 as u64, self.1 as u64, 0, 0]
    }
}

// 0, or 1 and the number that there is.
impl Crossing for Option<Number> {
    ghost use Rattle.crossing.specs.Answers.{maybe_number_four};

    ghost numbers = { maybe_number_four };

    fn four(self) -> [u64; 4] {
        match self {
            None => [0; 4],
            Some(number) => [1, number.0 as u64, 0, 0],
        }
    }
}

// 0, or 1 and the place that there was.
impl Crossing for Option<Place> {
    ghost use Rattle.crossing.specs.Answers.{maybe_place_four};

    ghost numbers = { maybe_place_four };

    fn four(self) -> [u64; 4] {
        match self {
            None => [0; 4],
            Some(place) => {
                let row = place.index;
                [1, place.archetype as u64, row.0 as u64, 0]
            }
        }
    }
}

// What a call grants goes to `out`, zeros where it is refused; answers the refusal's number, or 0.
pub fn cross<T: Crossing>(out: &mut [u64; 4], answer: Result<T, Refusal>) -> u32
    ensures { Told T.numbers (answer_of answer) result out.new }
{
    match answer {
        Ok(granted) => {
            *out = granted.four();
            0
        }
        Err(refusal) => {
            *out = [0; 4];
            refusal.number()
        }
    }
}

// A call that grants nothing but what it leaves: the refusal's number, or 0.
pub fn code(answer: Result<(), Refusal>) -> u32
    ensures { result ≡ code_of (answer_of answer) }
{
    match answer {
        Ok(()) => 0,
        Err(refusal) => refusal.number(),
    }
}
