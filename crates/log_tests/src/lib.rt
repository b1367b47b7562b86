// The log on examples. The crate has tests alone: what images mean is worked out in them once more,
// from the format's rules, with none of the log's functions.
#![tactic(auto)]

ghost use Rattle.log_theory.specs.Tape.{tape, Standing};

#[cfg(test)]
mod tests {
    use codec::Record;
    use log_store::Log;
    use std::alloc::{AllocError, Global};
    use std::collections::BTreeMap;
    use std::process::Abort;
    use std::test::Fail;
    use store::fault::StoreFault;
    use store::value::Value;
    use store::{Put, Store};

    // The cap and the live pairs of an image.
    #[derive(Drop)]
    struct Model {
        cap: u64,
        live: BTreeMap<u64, Value>,
    }

    // The word at a place.
    fn word(bytes: &[u8], at: usize) -> u64 {
        let chunk = bytes.get(at..).and_then(|rest| rest.first_chunk());
        chunk.map_or(0, |word| u64::from_le_bytes(*word))
    }

    // The numbers of the format, on purpose: they are worked out once more here.
    fn is_legal(rec: Record) -> bool {
        rec.kind == 1 || (rec.kind == 2 && rec.a == 0 && rec.b == 0)
    }

    // What a slot says.
    fn record(slot: &[u8]) -> Record {
        Record {
            key: word(slot, 0),
            a: word(slot, 8),
            b: word(slot, 16),
            kind: word(slot, 24),
        }
    }

    // The pairs that slots leave, the oldest first, or none if one of them is not legal.
    fn pairs(heap: Global, slots: &[u8]) -> Result<Option<BTreeMap<u64, Value>>, AllocError> {
        let mut live = BTreeMap::new(heap);
        for slot in slots.chunks_exact(32) {
            let rec = record(slot);
            if !is_legal(rec) {
                return Ok(None);
            }
            if rec.kind == 1 {
                live.insert(rec.key, Value { a: rec.a, b: rec.b })?;
            } else {
                live.remove(&rec.key);
            }
        }
        Ok(Some(live))
    }

    // What the first n bytes say, or none if they are no image. Room for the cap lies behind them: n stands beside the
    // bytes, as it does for the log.
    fn reading(heap: Global, bytes: &[u8], n: usize) -> Result<Option<Model>, AllocError> {
        if n < 16 || n > bytes.len() {
            return Ok(None);
        }
        let cap = word(bytes, n - 8);
        let fitting = (bytes.len() - 16) / 32;
        if cap == 0 || cap > 4095 || cap >= fitting as u64 {
            return Ok(None);
        }
        if word(bytes, n - 16) != (n - 16) as u64 || (n - 16) % 32 != 0 {
            return Ok(None);
        }
        let live = pairs(heap, &bytes[..n - 16])?;
        Ok(
            live.filter(|live| live.len() as u64 <= cap)
                .map(|live| Model { cap, live }),
        )
    }

    // Whether a log has this cap and these pairs, and no others.
    fn has_all(log: &Log, model: &Model) -> bool
        requires { Standing (tape log.now.bytes.now log.now.used) log.now.cap }
    {
        if log.cap() as u64 != model.cap || log.count() != model.live.len() {
            return false;
        }
        for (key, value) in &model.live {
            if log.get(*key) != Some(*value) {
                return false;
            }
        }
        true
    }

    // Whether the check accepts the first n bytes exactly where the rules do, and the log opened
    // from them then has what its records say.
    fn agrees(heap: Global, bytes: &mut [u8], n: usize) -> Result<bool, AllocError> {
        let expected = reading(heap, bytes, n)?;
        match (Log::check_image(bytes, n), expected) {
            (Ok(()), Some(model)) => Ok(has_all(&Log::open(bytes, n), &model)),
            (Err(fault), None) => Ok(fault == StoreFault::BadImage),
            (_, _) => Ok(false),
        }
    }

    // Put 7 (70, 71), put 9 (90, 91), put 7 (72, 73), remove 9, cap 2: the first 144 of 176 bytes.
    fn worked() -> [u8; 176] {
        let mut bytes = [0; 176];
        bytes[0] = 7;
        bytes[8] = 70;
        bytes[16] = 71;
        bytes[24] = 1;
        bytes[32] = 9;
        bytes[40] = 90;
        bytes[48] = 91;
        bytes[56] = 1;
        bytes[64] = 7;
        bytes[72] = 72;
        bytes[80] = 73;
        bytes[88] = 1;
        bytes[96] = 9;
        bytes[120] = 2;
        bytes[128] = 128;
        bytes[136] = 2;
        bytes
    }

    // Whether a log holds what the worked image says.
    fn check_worked(rt: &impl Abort, log: &Log) -> Result<(), Fail>
        requires { Standing (tape log.now.bytes.now log.now.used) log.now.cap }
    {
        assert_eq!(rt; log.get(7), Some(Value { a: 72, b: 73 }));
        assert_eq!(rt; log.get(9), None);
        assert_eq!(rt; log.next(0), Some(7));
        assert_eq!(rt; log.next(8), None);
        assert_eq!(rt; log.count(), 1);
        assert_eq!(rt; log.cap(), 2);
        assert_eq!(rt; log.superseded(), 2);
        Ok(())
    }

    #[test]
    fn worked_image_opens(rt: HostRuntime) -> Result<(), Fail> {
        let mut bytes = worked();
        Log::check_image(&bytes, 144)?;
        let log = Log::open(&mut bytes, 144);
        check_worked(&rt, &log)
    }

    #[test]
    fn every_changed_byte_is_refused_or_read(rt: HostRuntime) -> Result<(), Fail> {
        let masks = [1u8, 2, 3, 6, 8, 128, 255];
        // Each place has a fresh copy, of which this one byte is changed.
        for i in 0..144 {
            for mask in masks.iter() {
                let mut bytes = worked();
                bytes[i] ^= *mask;
                assert!(rt; agrees(rt.alloc(), &mut bytes, 144)?);
            }
        }
        Ok(())
    }

    #[test]
    fn every_other_length_is_refused(rt: HostRuntime) -> Result<(), Fail> {
        // Every length of the slice, and lengths past it.
        for n in 0..200 {
            let mut bytes = worked();
            assert_eq!(rt; Log::check_image(&bytes, n).is_ok(), n == 144);
            assert!(rt; agrees(rt.alloc(), &mut bytes, n)?);
        }
        Ok(())
    }

    #[test]
    fn image_of_a_trailer_alone(rt: HostRuntime) -> Result<(), Fail> {
        let mut bytes = [0; 80];
        bytes[8] = 1;
        assert_eq!(rt;
            Log::check_image(&bytes[0..79], 16),
            Err(StoreFault::BadImage)
        );
        Log::check_image(&bytes, 16)?;
        let log = Log::open(&mut bytes, 16);
        assert_eq!(rt; log.count(), 0);
        assert_eq!(rt; log.cap(), 1);
        assert_eq!(rt; log.next(0), None);
        Ok(())
    }

    #[test]
    fn image_of_no_live_key(rt: HostRuntime) {
        let mut bytes = [0; 112];
        let mut log = Log::make(&mut bytes, 2);
        assert_eq!(rt; log.put(5, Value { a: 1, b: 2 }), Ok(Put::New));
        assert!(rt; log.remove(5));
        let n = log.close();
        assert_eq!(rt; n, 80);
        let again = Log::open(&mut bytes, n);
        assert_eq!(rt; again.count(), 0);
        assert_eq!(rt; again.get(5), None);
        assert_eq!(rt; again.superseded(), 1);
    }

    #[test]
    fn image_of_cap_live_keys(rt: HostRuntime) {
        let mut bytes = [0; 112];
        let mut log = Log::make(&mut bytes, 2);
        assert_eq!(rt; log.put(5, Value { a: 1, b: 2 }), Ok(Put::New));
        assert_eq!(rt; log.put(0, Value { a: 3, b: 4 }), Ok(Put::New));
        assert_eq!(rt; log.put(6, Value { a: 5, b: 6 }), Err(StoreFault::Full));
        let n = log.close();
        assert_eq!(rt; n, 80);
        assert_eq!(rt; Log::check_image(&bytes, n), Ok(()));
        bytes[72] = 1;
        assert_eq!(rt; Log::check_image(&bytes, n), Err(StoreFault::BadImage));
    }

    #[test]
    fn full_log_is_compacted(rt: HostRuntime) {
        let mut bytes = [255; 112];
        let mut log = Log::make(&mut bytes, 2);
        assert_eq!(rt; log.put(1, Value { a: 10, b: 11 }), Ok(Put::New));
        assert_eq!(rt; log.put(2, Value { a: 20, b: 21 }), Ok(Put::New));
        assert!(rt; log.remove(1));
        assert_eq!(rt; log.put(3, Value { a: 30, b: 31 }), Ok(Put::New));
        assert_eq!(rt; log.count(), 2);
        assert_eq!(rt; log.get(1), None);
        assert_eq!(rt; log.get(2), Some(Value { a: 20, b: 21 }));
        let n = log.close();
        assert_eq!(rt; n, 80);
        assert_eq!(rt; word(&bytes, 0), 2);
        assert_eq!(rt; word(&bytes, 32), 3);
        assert_eq!(rt; word(&bytes, 64), 64);
        assert_eq!(rt; word(&bytes, 80), 0);
        assert_eq!(rt; bytes[111], 255);
    }

    #[test]
    fn limits_of_a_fresh_log(rt: HostRuntime) {
        let bytes = [0; 80];
        assert_eq!(rt; Log::check(&bytes, 1), Ok(()));
        assert_eq!(rt; Log::check(&bytes, 0), Err(StoreFault::BeyondLimit));
        assert_eq!(rt; Log::check(&bytes, 2), Err(StoreFault::BeyondLimit));
        assert_eq!(rt; Log::check(&bytes[0..79], 1), Err(StoreFault::BeyondLimit));
        assert_eq!(rt; Log::check(&bytes[0..15], 1), Err(StoreFault::BeyondLimit));
    }
}
