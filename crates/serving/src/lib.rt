// The calls that a service takes in either state: they reach the stores of one key. Written once, for whatever serves.
//
// That the bank is standing is the one premise of each call, so each contract says it, and that a write leaves it so.
// A bank is lent to one call at a time and held by nothing, so service, bank and key come beside one another.
#![tactic(auto)]

ghost use Rattle.std.specs.Prelude.{◌≡◌, ◌↔◌, length, IsOk, IfErr};
ghost use Rattle.placement.specs.Laws.{Rule};
ghost use Rattle.placement.specs.Rosters.{members};
ghost use Rattle.machine.specs.Books.{Book, place};
ghost use Rattle.machine.specs.declared.fault.Fault.TheVariants.{OtherStores};
ghost use Rattle.machine.specs.Lent as lent;
ghost use Rattle.serving.specs.Calls.{over, Gives};

use bank::Bank;
use entry::Entry;
use machine::fault::Fault;
use placement::roster::Roster;
use store::Put;
use store::value::Value;

// A service has a placement rule and a book: what it knows beside the pairs, which lie in the stores that each call is
// lent. A call may be lent other stores than the last one; it is refused where they are not as many as the service has.
pub trait Serving {
    ghost rule: { Self → Rule };

    ghost book: { Self → Book };

    // The number of stores.
    fn stores(&self) -> usize
        ensures { result ≡ (book self.now).stores };

    // The stores of a key, in order.
    fn list(&self, key: u64) -> Roster
        ensures { members result ≡ place (rule self.now) (book self.now) key };
}

// Refused where a call is lent more stores than the service has, or fewer.
pub fn all_lent<S: Serving, B: Bank>(service: &S, bank: &B) -> Result<(), Fault>
    requires { B.Bank.standing bank.now }
    ensures decides { IsOk result ↔ (length (B.Bank.stores bank.now) ≡ (S.Serving.book service.now).stores) }
    ensures refuses { IfErr result (λ fault. fault ≡ OtherStores) }
{
    if bank.len() != service.stores() {
        return Err(Fault::OtherStores);
    }
    Ok(())
}

// The value at a key, or none.
pub fn get<S: Serving, B: Bank>(service: &S, bank: &B, key: u64) -> Result<Option<Value>, Fault>
    requires { B.Bank.standing bank.now }
    ensures { result ≡ (lent.get (S.Serving.rule service.now) (over (B.Bank.stores bank.now) (S.Serving.book service.now)) key).result }
{
    all_lent(service, bank)?;
    Ok(walks::read(bank, &service.list(key), key))
}

// Maps a key to a value on all of its stores, or on none where one is full.
pub fn put<S: Serving, B: Bank>(
    service: &S,
    bank: &mut B,
    key: u64,
    value: Value,
) -> Result<Put, Fault>
    requires { B.Bank.standing bank.old }
    ensures stands { B.Bank.standing bank.new }
    ensures puts { Gives (lent.put (S.Serving.rule service.now) (over (B.Bank.stores bank.old) (S.Serving.book service.now)) key value) result (over (B.Bank.stores bank.new) (S.Serving.book service.now)) }
    ensures beyond_untouched { B.Bank.beyond bank.new ≡ B.Bank.beyond bank.old }
{
    all_lent(service, bank)?;
    Ok(walks::put(bank, &service.list(key), key, value)?)
}

// Takes a key out of all of its stores, and tells whether it was there.
pub fn remove<S: Serving, B: Bank>(service: &S, bank: &mut B, key: u64) -> Result<bool, Fault>
    requires { B.Bank.standing bank.old }
    ensures stands { B.Bank.standing bank.new }
    ensures removes { Gives (lent.remove (S.Serving.rule service.now) (over (B.Bank.stores bank.old) (S.Serving.book service.now)) key) result (over (B.Bank.stores bank.new) (S.Serving.book service.now)) }
    ensures beyond_untouched { B.Bank.beyond bank.new ≡ B.Bank.beyond bank.old }
{
    all_lent(service, bank)?;
    Ok(walks::remove(bank, &service.list(key), key))
}

// Puts an entry of any kind.
pub fn put_entry<S: Serving, E: Entry, B: Bank>(
    service: &S,
    bank: &mut B,
    key: u64,
    entry: &E,
) -> Result<Put, Fault>
    requires { B.Bank.standing bank.old }
    ensures stands { B.Bank.standing bank.new }
    ensures puts_entry { Gives (lent.put_entry (S.Serving.rule service.now) E.Entry.kind (over (B.Bank.stores bank.old) (S.Serving.book service.now)) key entry.now) result (over (B.Bank.stores bank.new) (S.Serving.book service.now)) }
    ensures beyond_untouched { B.Bank.beyond bank.new ≡ B.Bank.beyond bank.old }
{
    let value = entry.encode()?;
    put(service, bank, key, value)
}

// The entry at a key, or none. Refused where the key's words are of another kind.
pub fn get_entry<S: Serving, E: Entry, B: Bank>(
    service: &S,
    bank: &B,
    key: u64,
) -> Result<Option<E>, Fault>
    requires { B.Bank.standing bank.now }
    ensures { result ≡ (lent.get_entry (S.Serving.rule service.now) E.Entry.kind (over (B.Bank.stores bank.now) (S.Serving.book service.now)) key).result }
{
    let Some(value) = get(service, bank, key)? else {
        return Ok(None);
    };
    Ok(Some(E::decode(value)?))
}
