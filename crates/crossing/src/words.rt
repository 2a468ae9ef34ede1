// A head as four numbers: used, pending, the cursor in two's complement, live.
ghost use Rattle.std.specs.Prelude.{◌≡◌};
ghost use Rattle.crossing.specs.Words.{head_of};

use id_tables::Head;

pub fn head_of(words: &[u64; 4]) -> Head
    ensures { result ≡ head_of words.now }
{
    Head {
        used: words[0] as usize,
        pending: words[1] as usize,
        cursor: words[2].cast_signed(),
        live: words[3] as usize,
    }
}

pub fn put_head(words: &mut [u64; 4], head: Head)
    ensures { head_of words.new ≡ head }
{
    *words = [
        head.used as u64,
        head.pending as u64,
        head.cursor.cast_unsigned(),
        head.live as u64,
    ];
}
