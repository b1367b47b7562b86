// Writes where the keys of a question live.
ghost use Rattle.std.specs.Prelude.{◌≡◌, ◌-◌, ◌≤◌, string_bytes, MatchResult, Some as Shown};
ghost use Rattle.lists.specs.Numbers.{without, count_up};
ghost use Rattle.placement.specs.Policies.{rule_of};
ghost use Rattle.placement.specs.Rosters.{members};
ghost use Rattle.locator.specs.Questions.{texts, Refuses};
ghost use Rattle.locator.specs.Lines.{joined, stores_of, line, lines, Answered, members_of};

use crate::reading::read_question;
use crate::words::LocateFault;
use placement::placing::Placement;
use placement::policies::Policy;
use placement::roster::Roster;
use std::alloc::Global;
use std::fmt;

// The stores of a list, joined by commas.
#[derive(Drop)]
struct Joined(Roster);

impl fmt::Display for Joined {
    ghost output = { λ s. Shown (joined (members s.0)) };

    fn fmt<W: fmt::Write>(&self, f: &mut fmt::Formatter<W>) -> fmt::Result {
        let mut stores = self.0.iter();
        let Some(first) = stores.next() else {
            return write!(f, "-");
        };
        write!(f, "{first}")?;
        for store in stores {
            write!(f, ",{store}")?;
        }
        Ok(())
    }
}

// The stores of a key, `-` where there is none.
#[derive(Drop)]
struct Stores(Option<Roster>);

impl fmt::Display for Stores {
    ghost output = { λ s. Shown (joined (members_of s.0)) };

    fn fmt<W: fmt::Write>(&self, f: &mut fmt::Formatter<W>) -> fmt::Result {
        match self.0 {
            Some(list) => write!(f, "{}", Joined(list)),
            None => write!(f, "-"),
        }
    }
}

// How keys are placed: under the roster of all members, and under the rest once the last of them has left, where some
// remain.
#[derive(Drop)]
struct Placing {
    policy: Policy,
    copies: usize,
    roster: Option<Roster>,
    rest: Option<Roster>,
}

impl Placing {
    // The first stores, 1 to 16, are the members.
    #[tactic(auto, using(crate::proofs::Written::left_over))]
    fn of_first(policy: Policy, copies: usize, members: usize) -> Placing
        requires { (1 ≤ members) × (members ≤ 16) }
        ensures rule { (result.policy ≡ policy) × (result.copies ≡ copies) }
        ensures all { members_of result.roster ≡ count_up 0 members }
        ensures others { members_of result.rest ≡ without (members - 1) (count_up 0 members) }
    {
        let all = Roster::first(members, members);
        Placing {
            policy,
            copies,
            roster: all.ok(),
            rest: all.and_then(|roster| roster.without(members - 1)).ok(),
        }
    }

    // The stores of a key under a roster.
    #[tactic(auto, using(crate::proofs::Written::stores_of_members))]
    fn stores(&self, key: u64, roster: Option<Roster>) -> Stores
        ensures { members_of result.0 ≡ stores_of (rule_of self.now.policy) self.now.copies key (members_of roster) }
    {
        Stores(roster.map(|list| self.policy.list(key, &list, self.copies)))
    }
}

// The line of a key.
#[derive(Drop)]
struct Line<'a> {
    placing: &'a Placing,
    key: u64,
}

impl<'a> fmt::Display for Line<'a> {
    ghost output = { λ l. Shown (line (rule_of l.placing.now.policy) l.placing.now.copies (members_of l.placing.now.roster) (members_of l.placing.now.rest) l.key) };

    fn fmt<W: fmt::Write>(&self, f: &mut fmt::Formatter<W>) -> fmt::Result {
        let key = self.key;
        let before = self.placing.stores(key, self.placing.roster);
        let after = self.placing.stores(key, self.placing.rest);
        writeln!(f, "{key} {before} {after}")
    }
}

// The lines of some keys.
#[derive(Drop)]
struct Lines<'a> {
    placing: Placing,
    keys: &'a [u64],
}

impl<'a> fmt::Display for Lines<'a> {
    ghost output = { λ l. Shown (lines (rule_of l.placing.policy) l.placing.copies (members_of l.placing.roster) (members_of l.placing.rest) l.keys.now) };

    fn fmt<W: fmt::Write>(&self, f: &mut fmt::Formatter<W>) -> fmt::Result {
        for key in self.keys {
            write!(
                f,
                "{}",
                Line {
                    placing: &self.placing,
                    key: *key
                }
            )?;
        }
        Ok(())
    }
}

// Where the keys of the question live that the words ask: a line for each key.
pub fn locate(heap: Global, words: &[String]) -> Result<String, LocateFault>
    ensures { MatchResult result (λ t. Answered (texts words.now) (string_bytes t)) (λ e. Refuses (texts words.now) e) }
{
    let question = read_question(heap, words)?;
    let lines = Lines {
        placing: Placing::of_first(question.policy, question.copies, question.members),
        keys: question.keys.as_slice(),
    };
    Ok(lines.to_string(heap)?)
}
