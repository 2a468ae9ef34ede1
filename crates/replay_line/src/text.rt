// The numbers of a text, in hexadecimal, each with one byte after it that is no digit.
ghost use Rattle.std.specs.Prelude.{◌≡◌, ◌<◌, IfSome};
ghost use Rattle.replay_line.specs.Text.{digit_in, digit_of, with_digit, Reading, reading, read, read_from};

// How many numbers are told, and the value of the digits since then.
#[derive(Clone, Copy)]
struct Told {
    count: usize,
    value: u64,
}

// A byte may be no digit.
fn digit(byte: u8) -> Option<u8>
    ensures value { digit_in result ≡ digit_of byte }
    ensures small { IfSome result (λ d. d < 16) }
{
    match byte {
        b'0'..=b'9' => Some(byte - 48),
        b'a'..=b'f' => Some(byte - 87),
        _ => None,
    }
}

fn with_digit(value: u64, digit: u8) -> u64
    requires { digit < 16 }
    ensures { result ≡ with_digit value digit }
{
    (value % 1152921504606846976) * 16 + digit as u64
}

// A digit goes to the value; any other byte ends a number, for which there may be a place.
fn step(out: &mut [u64], told: Told, byte: u8) -> Told
    ensures { reading out.new result.count result.value ≡ read (reading out.old told.count told.value) byte }
{
    let count = told.count;
    if let Some(digit) = digit(byte) {
        return Told {
            count,
            value: with_digit(told.value, digit),
        };
    }
    if count < out.len() {
        out[count] = told.value;
        return Told {
            count: count + 1,
            value: 0,
        };
    }
    Told { count, value: 0 }
}

// The text's numbers go to the output's front, as many as there are places; answers how many.
pub fn numbers(text: &[u8], out: &mut [u64]) -> usize
    ensures { (result ≡ (read_from text.now out.old).count) × (out.new ≡ (read_from text.now out.old).table) }
{
    let mut told = Told { count: 0, value: 0 };
    for byte in text {
        told = step(out, told, *byte);
    }
    told.count
}
