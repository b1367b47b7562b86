// What the service does to the stores of a list: small functions over a bank and a list of store numbers.
//
// That the bank is standing is the one premise of each of them, so each contract says it, and that a write leaves it so.
// A bank is lent to one call at a time and held by nothing, so bank, list and key come beside one another.
#![tactic(auto)]

ghost use Rattle.std.specs.Prelude.{◌≡◌, ◌+◌, ◌<◌, ◌≤◌, ◌++◌, length, take};
ghost use Rattle.placement.specs.Rosters.{members};
ghost use Rattle.store.specs.Stores.{nth};
ghost use Rattle.machine.specs.Books.{first_outside};
ghost use Rattle.machine.specs.Lent.{full_for, first_full, first_holding, found_on, held_on, put_all, put_some, erase_all, erase_some, least};
ghost use Rattle.machine.specs.Statements.{cursor_of};
ghost use Rattle.walks.specs.Outcomes.{put_result, put_stores, carry_result, carry_stores};
ghost use Rattle.walks.specs.Keys.{listed, next_keys, smallest_of};

use bank::Bank;
use machine::answer::Moved;
use machine::fault::StoreRefusal;
use machine::statement::Cursor;
use order::select_first;
use placement::roster::Roster;
use store::Put;
use store::fault::StoreFault;
use store::value::Value;

// The first store of one list that does not stand in another.
pub fn outside(list: &Roster, other: &Roster) -> Option<usize>
    ensures { result ≡ first_outside (members list.now) (members other.now) }
{
    list.iter().find(|store| !other.contains(*store))
}

// What the first store of a list has at a key. A roster always has a first.
#[tactic(auto, using(crate::proofs::Lists::has_first))]
pub fn read<B: Bank>(bank: &B, list: &Roster, key: u64) -> Option<Value>
    requires { B.Bank.standing bank.now }
    ensures { result ≡ found_on (B.Bank.stores bank.now) (members list.now) key }
{
    bank.get(list.member(0)?, key)
}

// Whether a store lacks a key and has no room for it.
fn is_full<B: Bank>(bank: &B, store: usize, key: u64) -> bool
    requires { B.Bank.standing bank.now }
    ensures { result ≡ full_for (nth (B.Bank.stores bank.now) store) key }
{
    bank.get(store, key).is_none() && bank.count(store) >= bank.cap(store)
}

// The first store of a list that is full for a key.
fn full<B: Bank>(bank: &B, list: &Roster, key: u64) -> Option<usize>
    requires { B.Bank.standing bank.now }
    ensures { result ≡ first_full (members list.now) (B.Bank.stores bank.now) key }
{
    list.iter().find(|store| is_full(bank, *store, key))
}

// Puts into each store of a list that has room.
fn write<B: Bank>(bank: &mut B, list: &Roster, key: u64, value: Value)
    requires { B.Bank.standing bank.old }
    ensures stands { B.Bank.standing bank.new }
    ensures writes_all { B.Bank.stores bank.new ≡ put_all (members list.now) (B.Bank.stores bank.old) key value }
    ensures beyond_untouched { B.Bank.beyond bank.new ≡ B.Bank.beyond bank.old }
{
    for store in list.iter() {
        let _ = bank.put(store, key, value);
    }
}

// Puts into every store of a list, and answers for the first. Refused where one of them is full; none is written then.
pub fn put<B: Bank>(
    bank: &mut B,
    list: &Roster,
    key: u64,
    value: Value,
) -> Result<Put, StoreRefusal>
    requires { B.Bank.standing bank.old }
    ensures stands { B.Bank.standing bank.new }
    ensures answers_for_first { result ≡ put_result (members list.now) (B.Bank.stores bank.old) key }
    ensures writes_all_or_none { B.Bank.stores bank.new ≡ put_stores (members list.now) (B.Bank.stores bank.old) key value }
    ensures beyond_untouched { B.Bank.beyond bank.new ≡ B.Bank.beyond bank.old }
{
    if let Some(store) = full(bank, list, key) {
        return Err(StoreRefusal {
            store,
            fault: StoreFault::Full,
        });
    }
    let was = if read(bank, list, key).is_some() {
        Put::Replaced
    } else {
        Put::New
    };
    write(bank, list, key, value);
    Ok(was)
}

// Removes from every store of a list.
fn strike<B: Bank>(bank: &mut B, list: &Roster, key: u64)
    requires { B.Bank.standing bank.old }
    ensures stands { B.Bank.standing bank.new }
    ensures strikes_all { B.Bank.stores bank.new ≡ erase_all (members list.now) (B.Bank.stores bank.old) key }
    ensures beyond_untouched { B.Bank.beyond bank.new ≡ B.Bank.beyond bank.old }
{
    for store in list.iter() {
        let _ = bank.remove(store, key);
    }
}

// Removes from every store of a list, and tells whether the first had the key.
pub fn remove<B: Bank>(bank: &mut B, list: &Roster, key: u64) -> bool
    requires { B.Bank.standing bank.old }
    ensures stands { B.Bank.standing bank.new }
    ensures answers_for_first { result ≡ held_on (B.Bank.stores bank.old) (members list.now) key }
    ensures strikes_all { B.Bank.stores bank.new ≡ erase_all (members list.now) (B.Bank.stores bank.old) key }
    ensures beyond_untouched { B.Bank.beyond bank.new ≡ B.Bank.beyond bank.old }
{
    let held = read(bank, list, key).is_some();
    strike(bank, list, key);
    held
}

// Writes a key behind the others in a room, where there is one; answers where they end.
fn noted(room: &mut [u64], end: usize, key: Option<u64>) -> usize
    requires { end < length room.old }
    ensures appends { take result room.new ≡ take end room.old ++ listed key }
    ensures ends { result ≤ end + 1 }
{
    let Some(key) = key else {
        return end;
    };
    room[end] = key;
    end + 1
}

// Writes the next key of each store of a list, counted from a key, into a room from a place on; answers where they end.
fn gather<B: Bank>(bank: &B, list: &Roster, from: u64, room: &mut [u64], start: usize) -> usize
    requires standing { B.Bank.standing bank.now }
    requires room_enough { start + length (members list.now) ≤ length room.old }
    ensures gathers { take result room.new ≡ take start room.old ++ next_keys (members list.now) (B.Bank.stores bank.now) from }
    ensures ends { result ≤ start + length (members list.now) }
{
    let mut end = start;
    for store in list.iter() {
        let next = bank.next(store, from);
        end = noted(room, end, next);
    }
    end
}

// The smallest of some keys, which are left in another order: by the one selection function, which a step is to use.
fn smallest(keys: &mut [u64]) -> Option<u64>
    ensures { result ≡ smallest_of keys.old }
{
    if keys.len() == 0 {
        return None;
    }
    select_first(keys, 1);
    Some(keys[0])
}

// The least key that the stores of two lists hold, of those not below a cursor.
#[tactic(auto, using(crate::proofs::Lists::few, crate::proofs::Keys::least_of_both, crate::proofs::Keys::none_past))]
pub fn lowest<B: Bank>(bank: &B, roster: &Roster, target: &Roster, cursor: Cursor) -> Option<u64>
    requires { B.Bank.standing bank.now }
    ensures { result ≡ least (members roster.now ++ members target.now) (B.Bank.stores bank.now) (cursor_of cursor) }
{
    let Cursor::At(from) = cursor else {
        return None;
    };
    let mut room = [0; 32]; // fixed memory, no heap: as many next keys as two rosters have members
    let some = gather(bank, roster, from, &mut room, 0);
    let all = gather(bank, target, from, &mut room, some);
    smallest(&mut room[..all])
}

// Puts into the gained store.
fn give<B: Bank>(bank: &mut B, moved: Moved, value: Value) -> Result<Moved, StoreRefusal>
    requires { B.Bank.standing bank.old }
    ensures stands { B.Bank.standing bank.new }
    ensures refused_when_full { result ≡ carry_result moved (B.Bank.stores bank.old) }
    ensures writes_gained { B.Bank.stores bank.new ≡ put_some moved.gained (B.Bank.stores bank.old) moved.key value }
    ensures beyond_untouched { B.Bank.beyond bank.new ≡ B.Bank.beyond bank.old }
{
    if let Some(store) = moved.gained {
        bank.put(store, moved.key, value)
            .map_err(|fault| StoreRefusal { store, fault })?;
    }
    Ok(moved)
}

// Removes from the lost store.
fn lose<B: Bank>(bank: &mut B, lost: Option<usize>, key: u64)
    requires { B.Bank.standing bank.old }
    ensures stands { B.Bank.standing bank.new }
    ensures strikes_lost { B.Bank.stores bank.new ≡ erase_some lost (B.Bank.stores bank.old) key }
    ensures beyond_untouched { B.Bank.beyond bank.new ≡ B.Bank.beyond bank.old }
{
    if let Some(loser) = lost {
        let _ = bank.remove(loser, key);
    }
}

// Moves a key with its value: writes it to the gained store and strikes it from the lost one. Refused where the gained
// store is full; nothing is written or struck then.
#[tactic(auto, using(crate::proofs::Moves::refused_stays))]
pub fn carry<B: Bank>(bank: &mut B, moved: Moved, value: Value) -> Result<Moved, StoreRefusal>
    requires { B.Bank.standing bank.old }
    ensures stands { B.Bank.standing bank.new }
    ensures refused_when_full { result ≡ carry_result moved (B.Bank.stores bank.old) }
    ensures moves_or_leaves { B.Bank.stores bank.new ≡ carry_stores moved (B.Bank.stores bank.old) value }
    ensures beyond_untouched { B.Bank.beyond bank.new ≡ B.Bank.beyond bank.old }
{
    let moved = give(bank, moved, value)?;
    lose(bank, moved.lost, moved.key);
    Ok(moved)
}

// The first store of a bank that holds a pair.
pub fn holding<B: Bank>(bank: &B) -> Option<usize>
    requires { B.Bank.standing bank.now }
    ensures { result ≡ first_holding 0 (B.Bank.stores bank.now) }
{
    (0..bank.len()).find(|store| bank.count(*store) != 0)
}
