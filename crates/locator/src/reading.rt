// Reads the words of a question.
ghost use Rattle.std.specs.Prelude.{◌≡◌, ℕ, ◌+◌, ◌^◌, ◌<◌, ◌≤◌, List, [], map, length, drop, string_bytes, decimal, MatchOption, MatchResult, ◌≢◌, slice_index_or};
ghost use Rattle.placement.specs.declared.policies.Policy.{Policy as AnyPolicy};
ghost use Rattle.locator.specs.Questions.{policy_word, texts, Writes, BadNumber, BadMembers, NoKey, Wrong, Asks, Refuses};

use crate::words::{LocateFault, Question, Reason, WordFault};
use placement::policies::Policy;
use std::alloc::Global;

// The policy that a word names. `Policy` is of the crate `placement`, which knows no words: no `FromStr` stands there.
// The words of scripts have readers of their own, which tell besides how far a word is right.
pub fn read_policy(word: &str) -> Option<Policy>
    ensures { MatchOption result ((p : AnyPolicy) → word.now ≢ policy_word p) (λ p. word.now ≡ policy_word p) }
{
    // the two words as literal cases, here as in scripts
    match word {
        "rendezvous" => Some(Policy::Rendezvous),
        "jump" => Some(Policy::Jump),
        _ => None,
    }
}

// The number that a word writes, without leading zeros: `u64`'s own `parse` takes `+7` and `007` too.
#[tactic(auto, using(crate::proofs::Numbers::no_zero_first, crate::proofs::Numbers::no_plus_first, crate::proofs::Numbers::parsed))]
pub fn read_number(word: &str) -> Option<u64>
    ensures { MatchOption result ((n : ℕ) → Writes word.now n → ⊥) (λ n. Writes word.now n) }
{
    let bytes = word.as_bytes();
    if bytes.len() > 1 && bytes[0] == b'0' {
        return None;
    }
    if bytes.first() == Some(&b'+') {
        return None;
    }
    word.parse::<u64>().ok()
}

// The number that the word at a place writes.
fn number_at(words: &[String], place: usize) -> Result<u64, WordFault>
    requires { 1 ≤ place }
    ensures { MatchResult result (λ n. (place < length words.now) × Writes (slice_index_or (texts words.now) place []) n) (λ f. (f.place ≡ place) × BadNumber (texts words.now) place f.reason) }
{
    let word = words.get(place).ok_or(Reason::Missing.at(place))?;
    read_number(word.as_str()).ok_or(Reason::NotANumber.at(place))
}

// The policy that the first word names.
fn first_policy(words: &[String]) -> Result<Policy, WordFault>
    ensures { MatchResult result (λ p. (0 < length words.now) × (slice_index_or (texts words.now) 0 [] ≡ policy_word p)) (λ f. Wrong (texts words.now) f) }
{
    let word = words.first().ok_or(Reason::Missing.at(0))?;
    read_policy(word.as_str()).ok_or(Reason::NotAPolicy.at(0))
}

// The keys: all words from the fourth on.
fn read_keys(heap: Global, words: &[String]) -> Result<Vec<u64>, LocateFault>
    ensures { MatchResult result (λ v. map decimal v.items ≡ drop 3 (texts words.now)) (λ e. NoKey (texts words.now) e) }
{
    let mut keys = Vec::new(heap);
    let rest = words.get(3..).unwrap_or(&[]);
    for (i, word) in rest.iter().enumerate() {
        let key = read_number(word.as_str()).ok_or(Reason::NotANumber.at(3 + i))?;
        keys.push(key)?;
    }
    Ok(keys)
}

// The number of members, 1 to 16, that the second word writes.
fn member_count(words: &[String]) -> Result<usize, WordFault>
    ensures { MatchResult result (λ n. (1 < length words.now) × Writes (slice_index_or (texts words.now) 1 []) n × (1 ≤ n) × (n ≤ 16)) (λ f. (f.place ≡ 1) × BadMembers (texts words.now) f.reason) }
{
    let n = number_at(words, 1)?;
    if n < 1 || 16 < n {
        return Err(Reason::NotOneToSixteen.at(1));
    }
    Ok(n as usize)
}

// The question that the words ask, or the first word that is wrong.
pub fn read_question(heap: Global, words: &[String]) -> Result<Question, LocateFault>
    ensures { MatchResult result (λ q. Asks (texts words.now) q) (λ e. Refuses (texts words.now) e) }
{
    let policy = first_policy(words)?;
    let members = member_count(words)?;
    let copies = number_at(words, 2)?;
    if words.len() < 4 {
        return Err(LocateFault::Word(Reason::Missing.at(3)));
    }
    let keys = read_keys(heap, words)?;
    Ok(Question {
        policy,
        members,
        copies: copies as usize,
        keys,
    })
}
