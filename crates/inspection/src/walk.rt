// The live pairs of a log, one after the other.
ghost use Rattle.std.specs.Prelude.{◌≡◌, ℕ, List, Some as Shown};
ghost use Rattle.std.specs.Iterator.{YieldsFirstBy, item_count};
ghost use Rattle.pairs.specs.Pairs.{Pair};
ghost use Rattle.store.specs.declared.value.Value.{Value as Words};
ghost use Rattle.log_theory.specs.Tape.{tape, pairs_of, Standing};
ghost use Rattle.inspection.specs.Text.{pair_line};
ghost use Rattle.inspection.specs.Left.{left_from};

use log_store::Log;
use std::fmt;
use std::marker::Model;
use store::Store;
use store::value::Value;

// A live pair, whose text is its line.
#[derive(Clone, Copy)]
pub(crate) struct Live {
    key: u64,
    value: Value,
}

impl fmt::Display for Live {
    ghost output = { λ p. Shown (pair_line p.key p.value) };

    fn fmt<W: fmt::Write>(&self, f: &mut fmt::Formatter<W>) -> fmt::Result {
        writeln!(f, "pair {} {} {}", self.key, self.value.a, self.value.b)
    }
}

// The pairs of a log that are still to come, by ascending key: those from a key on, or none. Clauses see their list.
#[derive(Drop)]
pub(crate) struct Pairs<'a> {
    log: &'a Log<'a>,
    from: Option<u64>,
}

impl<'a> Model for Pairs<'a> {
    ghost Value = { List (Pair Words) };

    ghost view = { λ p. left_from p.from (pairs_of (tape p.log.now.bytes.now p.log.now.used)) };

    ghost invariant = { λ p. Standing (tape p.log.now.bytes.now p.log.now.used) p.log.now.cap };
}

impl<'a> Pairs<'a> {
    // All the pairs of a log.
    #[tactic(auto, using(crate::proofs::Listing::from_zero))]
    pub(crate) fn of(log: &'a Log<'a>) -> Pairs<'a>
        requires { Standing (tape log.now.bytes.now log.now.used) log.now.cap }
        ensures { result ≡ pairs_of (tape log.now.bytes.now log.now.used) }
    {
        Pairs { log, from: Some(0) }
    }
}

impl<'a> Iterator for Pairs<'a> {
    type Item = Live;

    ghost next_gives = { YieldsFirstBy (λ p. record { key = p.key; value = p.value }) (λ m. m) };

    ghost remaining = { item_count (λ m. m) };

    #[tactic(auto, using(crate::proofs::Listing::from_none, crate::proofs::Listing::next_has))]
    fn next(&mut self) -> Option<Live> {
        let key = self.log.next(self.from?)?;
        let value = self.log.get(key)?;
        self.from = key.checked_add(1);
        Some(Live { key, value })
    }
}
