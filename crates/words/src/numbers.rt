// Numbers: 0 to 2^64 - 1, without leading zeros.
ghost use Rattle.std.specs.Prelude.{◌+◌, ◌*◌, ◌^◌, ◌<◌, MatchResult};
ghost use Rattle.std.specs.Option.{SomeIff};
ghost use Rattle.std.specs.Char.{digit_value};
ghost use Rattle.grammar.specs.Languages.{Stops};
ghost use Rattle.grammar.specs.Slots.{In, number};
ghost use Rattle.grammar.specs.Spelling.{WritesNumber};
ghost use Rattle.std.proofs.Common.{rules};

use crate::Spelled;

impl Spelled for u64 {
    ghost slot = { number };

    ghost spells = { WritesNumber };

    ghost fits = { Prim.search rules };

    fn read(word: &[u8]) -> Result<u64, usize> {
        read_number(word)
    }
}

// The number with one more digit: none where the byte is no digit, or where the number passes the greatest.
fn longer(n: u64, byte: u8) -> Option<u64>
    ensures { SomeIff result ((digit_value byte < 10) × (n * 10 + digit_value byte < 2 ^ 64)) (n * 10 + digit_value byte) }
{
    let digit = char::from(byte).to_digit(10)?;
    n.checked_mul(10)?.checked_add(u64::from(digit))
}

// The number that `text` writes, or how many of its bytes begin one.
#[tactic(auto, using(grammar::proofs::Numbers::front_none, grammar::proofs::Numbers::front_zero, grammar::proofs::Numbers::front_whole, grammar::proofs::Numbers::empty_stops))]
fn read_number(text: &[u8]) -> Result<u64, usize>
    ensures { MatchResult result (λ n. WritesNumber n text.now) (λ far. Stops (In number) text.now far) }
{
    let mut n = 0;
    for (i, byte) in text.iter().enumerate() {
        if i > 0 && n == 0 {
            return Err(i);
        }
        n = longer(n, *byte).ok_or(i)?;
    }
    if text.is_empty() {
        return Err(0);
    }
    Ok(n)
}
