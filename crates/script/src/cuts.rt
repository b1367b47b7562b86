// Cuts a text in two at a byte.
ghost use Rattle.std.specs.Prelude.{◌≡◌, ◌≤◌, ◌==◌, length};
ghost use Rattle.std.specs.List.{position_or_len, before_first, after_first};

// How many bytes of a text stand before the first `byte`: all of them where there is none.
fn place(text: &[u8], byte: u8) -> usize
    ensures within { result ≤ length text.now }
    ensures value { result ≡ position_or_len (λ c. c == byte) text.now }
{
    text.iter().take_while(|b| **b != byte).count()
}

// What stands before the first `byte` of a text, and what stands behind it. Where there is none, that is all and nothing.
pub(crate) fn cut(text: &[u8], byte: u8) -> (&[u8], &[u8])
    ensures before { result.0.now ≡ before_first (λ c. c == byte) text.now }
    ensures behind { result.1.now ≡ after_first (λ c. c == byte) text.now }
{
    let (before, rest) = text.split_at(place(text, byte));
    (before, rest.get(1..).unwrap_or(rest))
}
