// A service in a change: step and close.
ghost use Rattle.std.specs.Prelude.{◌≡◌, ◌+◌};
ghost use Rattle.machine.specs.Books.{counted};
ghost use Rattle.machine.specs.Lent as lent;
ghost use Rattle.machine.specs.Statements.{cursor_of};
ghost use Rattle.serving.specs.Calls.{over, Gives};
ghost use Rattle.service.specs.Books.{move_of, moving_book, stepping, stepping_book, stepping_placement, book_after, moving_closed};

use crate::handed::{Closed, Kept, Stepped};
use crate::states::{Moving, Settled};
use bank::Bank;
use machine::answer::Moved;
use machine::fault::Fault;
use machine::statement::Cursor;
use placement::placing::Placement;
use placement::roster::Roster;
use serving::{Serving, all_lent};
use walks::{carry, lowest, outside, read};

// The cursor behind a key.
fn behind(key: u64) -> Cursor
    ensures { cursor_of result ≡ key + 1 }
{
    key.checked_add(1).map_or(Cursor::Past, Cursor::At)
}

// The count of copies after a move: one more where a store gained the key.
fn tally(copied: u64, gained: Option<usize>) -> u64
    ensures { result ≡ counted gained copied }
{
    copied.wrapping_add(gained.is_some() as u64)
}

impl<P: Placement> Serving for Moving<P> {
    ghost rule = { λ m. P.Placement.rule m.settled.placement };

    ghost book = { λ m. moving_book m };

    fn stores(&self) -> usize {
        self.settled.roster.stores()
    }

    // Under the target below the cursor, else under the roster.
    fn list(&self, key: u64) -> Roster {
        let roster = if Cursor::At(key) < self.change.cursor {
            &self.change.target
        } else {
            &self.settled.roster
        };
        self.settled
            .placement
            .list(key, roster, self.settled.copies)
    }
}

impl<P: Placement> Moving<P> {
    // Moves the next key, where there is one, and tells which.
    fn advance<B: Bank>(&self, bank: &mut B) -> Result<Option<Moved>, Fault>
        requires { B.Bank.standing bank.old }
        ensures stands { B.Bank.standing bank.new }
        ensures steps { Gives (lent.step (P.Placement.rule self.now.settled.placement) (over (B.Bank.stores bank.old) (moving_book self.now))) result (over (B.Bank.stores bank.new) (book_after (moving_book self.now) (move_of self.now) result)) }
        ensures beyond_untouched { B.Bank.beyond bank.new ≡ B.Bank.beyond bank.old }
    {
        let Moving { settled, change } = self;
        all_lent(self, bank)?;
        let Some(key) = lowest(bank, &settled.roster, &change.target, change.cursor) else {
            return Ok(None);
        };
        let old = settled.placement.list(key, &settled.roster, settled.copies);
        let new = settled.placement.list(key, &change.target, settled.copies);
        let value = read(bank, &old, key).ok_or(Fault::Lacks(key))?;
        let moved = Moved {
            key,
            gained: outside(&new, &old),
            lost: outside(&old, &new),
        };
        Ok(Some(carry(bank, moved, value)?))
    }

    // Moves the smallest key not below the cursor to its new place; where there is none left, the change is done.
    pub fn step<B: Bank>(self, bank: &mut B) -> Result<Stepped<P>, Kept<Moving<P>>>
        requires { B.Bank.standing bank.old }
        ensures stands { B.Bank.standing bank.new }
        ensures steps { Gives (lent.step (P.Placement.rule self.settled.placement) (over (B.Bank.stores bank.old) (moving_book self))) (stepping result) (over (B.Bank.stores bank.new) (stepping_book result)) }
        ensures placement_kept { stepping_placement result ≡ self.settled.placement }
        ensures beyond_untouched { B.Bank.beyond bank.new ≡ B.Bank.beyond bank.old }
    {
        // Each arm takes the service: a closure for `map_err` would take it from the other.
        match self.advance(bank) {
            Err(fault) => Err(Kept {
                fault,
                service: self,
            }),
            Ok(None) => {
                let Moving { settled, change } = self;
                Ok(Stepped::Done(Settled {
                    roster: change.target,
                    ..settled
                }))
            }
            Ok(Some(moved)) => {
                let Moving {
                    mut settled,
                    mut change,
                } = self;
                settled.copied = tally(settled.copied, moved.gained);
                change.cursor = behind(moved.key);
                Ok(Stepped::Onward(moved, Moving { settled, change }))
            }
        }
    }
}

impl<P> Moving<P> {
    // The store that joins or leaves.
    pub fn store(&self) -> usize
        ensures { result ≡ self.now.change.store }
    {
        self.change.store
    }

    // Ends the service in its change, which the statement names.
    pub fn close(self) -> Closed<P>
        ensures { result ≡ moving_closed self }
    {
        let Moving { settled, change } = self;
        let mut closed = settled.close();
        closed.statement.change = Some(change);
        closed
    }
}
