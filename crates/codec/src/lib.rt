// The bytes of a log: a record of four words and a trailer of two, each word 8 bytes, lowest first.
#![tactic(auto)]

ghost use Rattle.std.specs.Prelude.{◌≡◌, ◌+◌, ◌≤◌, length};
ghost use Rattle.codec.specs.Words.{word_at, le, over};
ghost use Rattle.codec.specs.Records.{encoded, decoded, trailer_encoded, trailer_decoded};
ghost use Rattle.codec.specs.Kinds.{IsKindOf};
ghost use Rattle.codec.specs.Laws.{CodecLaws};

// The kinds of records that a log writes: a put, whose value is a and b, and a removal.
#[derive(Clone, Copy, PartialEq, Eq, Debug)]
pub enum Kind {
    Put = 1,
    Removal = 2,
}

// A word that stands for no kind.
#[derive(Clone, Copy, PartialEq, Eq, Debug)]
pub struct UnknownKind(pub u64);

impl TryFrom<u64> for Kind {
    type Error = UnknownKind;

    ghost try_from_gives = { IsKindOf };

    fn try_from(word: u64) -> Result<Self, UnknownKind> {
        match word {
            1 => Ok(Kind::Put),
            2 => Ok(Kind::Removal),
            _ => Err(UnknownKind(word)),
        }
    }
}

// What a log writes for one change of a key. Any four words are a record; which of them are legal in
// a log is said by the log.
#[derive(Clone, Copy, PartialEq, Eq, Debug)]
pub struct Record {
    pub key: u64,
    pub a: u64,
    pub b: u64,
    // a word and no `Kind`: every 32 bytes are a record, which is written back as it was read
    pub kind: u64,
}

// What stands behind the records of a closed log: how many bytes they take, and the log's cap.
#[derive(Clone, Copy, PartialEq, Eq, Debug)]
pub struct Trailer {
    pub distance: u64,
    pub cap: u64,
}

// The word at a place.
#[tactic(auto, unfolding(crate::specs::Words::word_at))]
fn word(bytes: &[u8], at: usize) -> u64
    requires { at + 8 ≤ length bytes.now }
    ensures { result ≡ word_at bytes.now at }
{
    // copied into an array: over a chunk lent from the slice the proof did not close
    let mut part = [0; 8];
    part.copy_from_slice(&bytes[at..at + 8]);
    u64::from_le_bytes(part)
}

// Writes bytes over others, from a place on.
#[tactic(auto, unfolding(crate::specs::Words::over), using(crate::proofs::Overs::put_mid_over))]
pub fn write_over(bytes: &mut [u8], at: usize, part: &[u8])
    requires { at + length part.now ≤ length bytes.old }
    ensures { bytes.new ≡ over bytes.old at part.now }
{
    bytes[at..at + part.len()].copy_from_slice(part);
}

// Writes a word at a place.
#[tactic(auto, unfolding(crate::specs::Words::le))]
fn set_word(bytes: &mut [u8], at: usize, x: u64)
    requires { at + 8 ≤ length bytes.old }
    ensures { bytes.new ≡ over bytes.old at (le x) }
{
    write_over(bytes, at, &x.to_le_bytes());
}

impl Record {
    // The record that 32 bytes are. Written, it is those bytes again.
    pub fn from_bytes(bytes: [u8; 32]) -> Self
        ensures record_is_decoded { result ≡ decoded bytes }
        ensures writes_back { encoded result ≡ bytes }
    {
        Record {
            key: word(&bytes, 0),
            a: word(&bytes, 8),
            b: word(&bytes, 16),
            kind: word(&bytes, 24),
        }
    }

    // The 32 bytes of a record. Read, they are that record again.
    pub fn to_bytes(self) -> [u8; 32]
        ensures bytes_are_encoded { result ≡ encoded self }
        ensures reads_back { decoded result ≡ self }
    {
        let mut bytes = [0; 32]; // fixed memory, no heap
        set_word(&mut bytes, 0, self.key);
        set_word(&mut bytes, 8, self.a);
        set_word(&mut bytes, 16, self.b);
        set_word(&mut bytes, 24, self.kind);
        bytes
    }
}

// No trait over records and trailers: nothing reads or writes a value that may be either, and each
// `impl` of a trait with a length would write its clauses again.
impl Trailer {
    // The trailer that 16 bytes are. Written, it is those bytes again.
    pub fn from_bytes(bytes: [u8; 16]) -> Self
        ensures trailer_is_decoded { result ≡ trailer_decoded bytes }
        ensures writes_back { trailer_encoded result ≡ bytes }
    {
        Trailer {
            distance: word(&bytes, 0),
            cap: word(&bytes, 8),
        }
    }

    // The 16 bytes of a trailer. Read, they are that trailer again.
    pub fn to_bytes(self) -> [u8; 16]
        ensures bytes_are_encoded { result ≡ trailer_encoded self }
        ensures reads_back { trailer_decoded result ≡ self }
    {
        let mut bytes = [0; 16]; // fixed memory, no heap
        set_word(&mut bytes, 0, self.distance);
        set_word(&mut bytes, 8, self.cap);
        bytes
    }
}

// Reading and writing undo each other, both ways. The function does nothing: its contract is the
// statement.
#[tactic(auto, using(crate::proofs::Digits::codec_laws))]
pub fn codecs_are_inverse()
    ensures { CodecLaws }
{
    // The statement is the contract: there is nothing to do.
}
