// A store over a lent slice of bytes: an append-only log of 32-byte records.
//
// An accepted put and a removal of a present key append one record in the first free slot, and the
// last record of a key decides. Where no slot is free the log is first compacted: the puts that are
// the last of their key move to the front, in order. A log can be closed into an image, its records
// with a trailer behind them, and opened again from one, wherever that was carried.
#![tactic(auto)]

ghost use Rattle.std.specs.Prelude.{◌≡◌, ◌+◌, ◌*◌, ◌<◌, ◌≤◌, true, false, not, ◌&&◌, [], length, ◌==◌, nat_le};
ghost use Rattle.std.specs.List.{find as first};
ghost use Rattle.pairs.specs.Pairs.{find};
ghost use Rattle.codec.specs.Records.{decoded};
ghost use Rattle.log_theory.specs.Tape.{tape, records, held, own, put_record, removal, pairs_of, legal, all_legal, slots, allowed, Standing};
ghost use Rattle.log_theory.specs.Rows.{row, in_row, newest_first, any_has, superseded_in, stays_in, superseded_total, staying_total, least_held};
ghost use Rattle.log_theory.specs.Moves.{superseded_count, compacted, roomed, appended, put_tape, remove_tape};
ghost use Rattle.log_theory.specs.Image.{image_length, closed_bytes, trailer_at, is_image, opened_cap, fresh_answer, image_answer};
ghost use Rattle.log_theory.specs.Laws.{LegalImage, OpensAnywhere};
ghost use Rattle.log_store.specs.Laws.{log_lawful};

use codec::{Kind, Record, Trailer, write_over};
use store::fault::StoreFault;
use store::value::Value;
use store::{Put, Store};

// The greatest cap.
const GREATEST_CAP: u64 = 4095;

// The first `used` slots of `bytes` hold the records.
#[derive(Drop)]
pub struct Log<'a> {
    bytes: &'a mut [u8],
    // beside the bytes, which are lent and have free slots behind the records: fixed memory, no heap
    used: usize,
    cap: usize,
}

// The first slots of some bytes, which a log and a check of an image lend alike: the two share no struct.
#[tactic(auto, using(log_theory::proofs::Rows::take_row, log_theory::proofs::Rows::newest_is_records))]
fn row(bytes: &[u8], used: usize) -> &[[u8; 32]]
    requires { 32 * used ≤ length bytes.now }
    ensures slots { result.now ≡ row bytes.now used }
    ensures records { newest_first result.now ≡ records bytes.now used }
{
    &bytes.as_chunks::<32>().0[..used]
}

// The record in a slot.
fn read(slot: &[u8; 32]) -> Record
    ensures { result ≡ decoded slot.now }
{
    Record::from_bytes(*slot)
}

// Whether one of some slots has the key. By index: where a compaction asks it, a chain took up to twice as long.
fn any_has(slots: &[[u8; 32]], key: u64) -> bool
    ensures { result ≡ any_has (in_row slots.now) key }
{
    for i in 0..slots.len() {
        if read(&slots[i]).key == key {
            return true;
        }
    }
    false
}

// Whether a later slot has the key of slot `i`.
fn is_superseded(slots: &[[u8; 32]], i: usize) -> bool
    requires { i < length slots.now }
    ensures { result ≡ superseded_in slots.now i }
{
    any_has(&slots[i + 1..], read(&slots[i]).key)
}

// Whether slot `i` stays in a compaction: a put that is the last record of its key.
fn is_last_put(slots: &[[u8; 32]], i: usize) -> bool
    requires { i < length slots.now }
    ensures { result ≡ stays_in slots.now i }
{
    read(&slots[i]).kind == Kind::Put as u64 && !is_superseded(slots, i)
}

// How many of some slots are superseded.
fn count_superseded(slots: &[[u8; 32]]) -> usize
    ensures { result ≡ superseded_total slots.now }
{
    (0..slots.len())
        .filter(|i| is_superseded(slots, *i))
        .count()
}

// Moves the slots that stay to the front, in order, and tells how many they are. Like `make_room` and `seal` it takes
// the bytes and `used` apart: a method of `Log` would have to say of the cap and the lent slice that they stay.
#[tactic(auto, using(log_theory::proofs::Packs::stay_count_most))]
fn compact(bytes: &mut [u8], used: usize) -> usize
    requires { 32 * used ≤ length bytes.old }
    ensures { tape bytes.new result ≡ compacted (tape bytes.old used) }
{
    let mut front: usize = 0;
    // by index, in place: the loop writes into the bytes that it reads, and no iterator may lend them then
    for i in 0..used {
        if is_last_put(row(bytes, used), i) {
            bytes.copy_within(32 * i..32 * i + 32, 32 * front);
            front += 1;
        }
    }
    front
}

// What a record says of its key: a put its value, any other that there is none.
fn own(rec: Record) -> Option<Value>
    ensures { result ≡ own rec }
{
    (rec.kind == Kind::Put as u64).then_some(Value { a: rec.a, b: rec.b })
}

// The newest record, of those in some slots, that has the key.
fn newest_of(slots: &[[u8; 32]], key: u64) -> Option<Record>
    ensures { result ≡ first (λ r. r.key == key) (newest_first slots.now) }
{
    slots.iter().rev().map(read).find(|rec| rec.key == key)
}

// What the records in some slots say of a key: the newest that has it decides.
#[tactic(auto, using(log_theory::proofs::Rows::found))]
fn look_up(slots: &[[u8; 32]], key: u64) -> Option<Value>
    ensures { result ≡ find (held (newest_first slots.now)) key }
{
    newest_of(slots, key).and_then(own)
}

// How many keys the records in some slots leave live: one for each slot that stays. Told from each record back to the
// newest before it with its key: a key put once and long ago is then not sought among all that came after.
fn count_live(slots: &[[u8; 32]]) -> usize
    ensures { result ≡ staying_total slots.now }
{
    let mut live: usize = 0;
    for (i, slot) in slots.iter().enumerate() {
        let rec = read(slot);
        let is_put = rec.kind == Kind::Put as u64;
        let was_live = look_up(&slots[..i], rec.key).is_some();
        live = live + is_put as usize - was_live as usize;
    }
    live
}

// The smallest key that the records in some slots leave live and that is not below `from`.
fn least_key(slots: &[[u8; 32]], from: u64) -> Option<u64>
    ensures { result ≡ least_held (held (newest_first slots.now)) (newest_first slots.now) from }
{
    slots
        .iter()
        .rev()
        .map(read)
        .map(|rec| rec.key)
        .filter(|key| *key >= from && look_up(slots, *key).is_some())
        .min()
}

// How many slots a slice of this length has.
fn slots_in(len: usize) -> usize
    ensures { result ≡ slots len }
{
    if len < 16 { 0 } else { (len - 16) / 32 }
}

// The first free slot. Where there is none the log is compacted, which frees one.
fn make_room(bytes: &mut [u8], used: usize) -> usize
    requires { 32 * used ≤ length bytes.old }
    ensures { tape bytes.new result ≡ roomed (tape bytes.old used) }
{
    if used < slots_in(bytes.len()) {
        return used;
    }
    compact(bytes, used)
}

// The record of a put.
fn put_record(key: u64, value: Value) -> Record
    ensures { result ≡ put_record key value }
{
    Record {
        key,
        a: value.a,
        b: value.b,
        kind: Kind::Put as u64,
    }
}

// The record of a removal.
fn removal(key: u64) -> Record
    ensures { result ≡ removal key }
{
    Record {
        key,
        a: 0,
        b: 0,
        kind: Kind::Removal as u64,
    }
}

// Whether a record is a put, or a removal without a value.
fn is_legal(rec: Record) -> bool
    ensures { result ≡ legal rec }
{
    match Kind::try_from(rec.kind) {
        Ok(Kind::Put) => true,
        Ok(Kind::Removal) => rec.a == 0 && rec.b == 0,
        Err(_) => false,
    }
}

// Whether the records in some slots are legal.
fn are_legal(slots: &[[u8; 32]]) -> bool
    ensures { result ≡ all_legal (newest_first slots.now) }
{
    slots.iter().rev().map(read).all(is_legal)
}

// Whether a log on a slice of this length may have this cap.
fn is_allowed(len: usize, cap: u64) -> bool
    ensures { result ≡ allowed len cap }
{
    cap >= 1 && cap <= GREATEST_CAP && cap + 1 <= slots_in(len) as u64
}

// The trailer at the end of the first `n` bytes.
fn trailer(bytes: &[u8], n: usize) -> Trailer
    requires { (16 ≤ n) × (n ≤ length bytes.now) }
    ensures { result ≡ trailer_at bytes.now n }
{
    Trailer::from_bytes(bytes[n - 16..n].as_chunks::<16>().0[0])
}

// Writes the trailer behind the records in use, and tells the image's length.
fn seal(bytes: &mut [u8], used: usize, cap: usize) -> usize
    requires { 32 * used + 16 ≤ length bytes.old }
    ensures trailer_is_written { bytes.new ≡ closed_bytes (tape bytes.old used) cap }
    ensures answers_length { result ≡ image_length used }
{
    let end = 32 * used;
    let trailer = Trailer {
        distance: end as u64,
        cap: cap as u64,
    };
    write_over(bytes, end, &trailer.to_bytes());
    end + 16
}

// Whether the first `n` bytes are an image. Here and where a log is opened `n` stands beside the bytes, since an image's
// limits speak of the whole slice too.
#[tactic(auto, using(log_theory::proofs::Rows::live_row_total))]
fn holds_image(bytes: &[u8], n: usize) -> bool
    ensures { result ≡ is_image bytes.now n }
{
    if n < 16 || n > bytes.len() {
        return false;
    }
    let Trailer { distance, cap } = trailer(bytes, n);
    if distance != (n - 16) as u64 || (n - 16) % 32 != 0 {
        return false;
    }
    if !is_allowed(bytes.len(), cap) {
        return false;
    }
    let slots = row(bytes, (n - 16) / 32);
    are_legal(slots) && count_live(slots) as u64 <= cap
}

impl<'a> Log<'a> {
    // The slots in use. That the log stands is the one premise of what it does, so each contract says it.
    fn slots(&self) -> &[[u8; 32]]
        requires standing { Standing (tape self.now.bytes.now self.now.used) self.now.cap }
        ensures slots { result.now ≡ row self.now.bytes.now self.now.used }
        ensures records { newest_first result.now ≡ records self.now.bytes.now self.now.used }
    {
        row(self.bytes, self.used)
    }

    // Whether a put is refused, given whether its key is present: refused where the key is new and the log full.
    #[tactic(auto, using(log_theory::proofs::Rows::live_row_total))]
    fn refuses(&self, present: bool) -> bool
        requires standing { Standing (tape self.now.bytes.now self.now.used) self.now.cap }
        ensures { result ≡ (not present && nat_le self.now.cap (length (pairs_of (tape self.now.bytes.now self.now.used)))) }
    {
        !present && count_live(self.slots()) >= self.cap
    }

    // Writes a record into the first free slot.
    fn append(&mut self, rec: Record)
        requires standing { Standing (tape self.old.bytes.now self.old.used) self.old.cap }
        ensures appends { tape self.new.bytes.now self.new.used ≡ appended (tape self.old.bytes.now self.old.used) rec }
        ensures cap_stays { self.new.cap ≡ self.old.cap }
        ensures same_bytes { self.new.bytes.ghost_name ≡ self.old.bytes.ghost_name }
    {
        let bytes = &mut *self.bytes;
        let free = make_room(bytes, self.used);
        write_over(bytes, 32 * free, &rec.to_bytes());
        self.used = free + 1;
    }

    // Whether a fresh log of this cap may be made on these bytes: a cap of 1 to 4,095, and one slot
    // more than the cap, at least.
    pub fn check(bytes: &[u8], cap: usize) -> Result<(), StoreFault>
        ensures { result ≡ fresh_answer (length bytes.now) cap }
    {
        if is_allowed(bytes.len(), cap as u64) {
            Ok(())
        } else {
            Err(StoreFault::BeyondLimit)
        }
    }

    // A log with no record in use. It stands exactly where the check accepts.
    #[tactic(auto, using(log_theory::proofs::Images::fresh_stands))]
    pub fn make(bytes: &'a mut [u8], cap: usize) -> Self
        ensures bytes_stay { result.bytes.now ≡ bytes.old }
        ensures no_record_in_use { result.used ≡ 0 }
        ensures cap_is_chosen { result.cap ≡ cap }
        ensures holds_nothing { pairs_of (tape result.bytes.now result.used) ≡ [] }
        ensures stands_where_allowed { allowed (length bytes.old) cap ≡ true → Standing (tape result.bytes.now result.used) result.cap }
        ensures falls_where_refused { allowed (length bytes.old) cap ≡ false → Standing (tape result.bytes.now result.used) result.cap → ⊥ }
        ensures same_bytes { result.bytes.ghost_name ≡ bytes.entry.ghost_name }
    {
        Log {
            bytes,
            used: 0,
            cap,
        }
    }

    // Whether the first `n` bytes are an image from which a log on these bytes may be opened.
    pub fn check_image(bytes: &[u8], n: usize) -> Result<(), StoreFault>
        ensures { result ≡ image_answer bytes.now n }
    {
        if holds_image(bytes, n) {
            Ok(())
        } else {
            Err(StoreFault::BadImage)
        }
    }

    // The log whose image the first `n` bytes are, whoever wrote it. It stands exactly where the
    // check accepts: elsewhere its cap is 0, which no standing log has, since a making is never refused.
    pub fn open(bytes: &'a mut [u8], n: usize) -> Self
        ensures bytes_stay { result.bytes.now ≡ bytes.old }
        ensures records_in_use { result.used ≡ slots n }
        ensures cap_is_read { result.cap ≡ opened_cap bytes.old n }
        ensures holds_what_the_records_say { pairs_of (tape result.bytes.now result.used) ≡ held (records bytes.old (slots n)) }
        ensures legal_image_stands { LegalImage bytes.old n → Standing (tape result.bytes.now result.used) result.cap }
        ensures stands_where_accepted { is_image bytes.old n ≡ true → Standing (tape result.bytes.now result.used) result.cap }
        ensures falls_where_refused { is_image bytes.old n ≡ false → Standing (tape result.bytes.now result.used) result.cap → ⊥ }
        ensures same_bytes { result.bytes.ghost_name ≡ bytes.entry.ghost_name }
    {
        let cap = if holds_image(bytes, n) {
            trailer(bytes, n).cap as usize
        } else {
            0
        };
        Log {
            bytes,
            used: slots_in(n),
            cap,
        }
    }

    // How many records are superseded: a later record has their key.
    #[tactic(auto, using(log_theory::proofs::Rows::superseded_row_total))]
    pub fn superseded(&self) -> usize
        requires standing { Standing (tape self.now.bytes.now self.now.used) self.now.cap }
        ensures { result ≡ superseded_count self.now.bytes.now self.now.used self.now.used }
    {
        count_superseded(self.slots())
    }

    // Writes the trailer behind the records in use, and tells the image's length. The image, carried
    // into any slice that is as long or longer, opens to the same pairs and cap.
    pub fn close(self) -> usize
        requires standing { Standing (tape self.bytes.now self.used) self.cap }
        ensures answers_length { result ≡ image_length self.entry.used }
        ensures trailer_is_written { self.exit.0.now ≡ closed_bytes (tape self.entry.bytes.now self.entry.used) self.entry.cap }
        ensures opens_again { OpensAnywhere self.exit.0.now result (pairs_of (tape self.entry.bytes.now self.entry.used)) self.entry.cap }
    {
        let Log { bytes, used, cap } = self;
        seal(bytes, used, cap)
    }
}

// The bytes, all of them, and the records in use after a put and a removal: `put_tape` and
// `remove_tape` of those before.
impl<'a> Store for Log<'a> {
    ghost pairs = { λ t. pairs_of (tape t.bytes.now t.used) };

    ghost cap = { λ t. t.cap };

    ghost standing = { λ t. Standing (tape t.bytes.now t.used) t.cap };

    ghost lawful = { λ t h. log_lawful (tape t.bytes.now t.used) t.cap h };

    ghost placed = { λ t k v u. (tape u.bytes.now u.used ≡ put_tape (tape t.bytes.now t.used) t.cap k v) × (u.bytes.ghost_name ≡ t.bytes.ghost_name) };

    ghost struck = { λ t k u. (tape u.bytes.now u.used ≡ remove_tape (tape t.bytes.now t.used) k) × (u.bytes.ghost_name ≡ t.bytes.ghost_name) };

    fn get(&self, key: u64) -> Option<Value> {
        look_up(self.slots(), key)
    }

    fn put(&mut self, key: u64, value: Value) -> Result<Put, StoreFault> {
        let present = look_up(self.slots(), key).is_some();
        if self.refuses(present) {
            return Err(StoreFault::Full);
        }
        let answer = if present { Put::Replaced } else { Put::New };
        self.append(put_record(key, value));
        Ok(answer)
    }

    fn remove(&mut self, key: u64) -> bool {
        let present = look_up(self.slots(), key).is_some();
        if present {
            self.append(removal(key));
        }
        present
    }

    #[tactic(auto, using(log_theory::proofs::Nexts::least_is_next))]
    fn next(&self, key: u64) -> Option<u64> {
        least_key(self.slots(), key)
    }

    #[tactic(auto, using(log_theory::proofs::Rows::live_row_total))]
    fn count(&self) -> usize {
        count_live(self.slots())
    }

    fn cap(&self) -> usize {
        self.cap
    }
}
