// The record of 32 bytes (document 01, "The record"): reading and encoding.
#![tactic(auto)]

pub mod fields; // fields.rt: the 32 bytes with fields given as numbers

ghost use Rattle.std.specs.Prelude.{◌≡◌, ◌≤◌, SomeIff, eqb, length};
ghost use Rattle.records.specs.Records.{words_of, within, read_as, reading_words, reading, encoding};

pub use fields::field_bytes;
use ledgers::{Kind, Ledger};
use wire::BigEndian;

// A record that was read.
#[derive(Clone, Copy)]
pub struct Record {
    pub kind: Kind,
    pub sender: u16,
    pub receiver: u16,
    // The number of the transfer.
    pub number: u64,
    pub amount: u64,
    // Document 01: verdict. Whether the host found the signature good.
    pub verified: bool,
}

// A record's 32 bytes as four words of eight bytes, highest byte first.
#[derive(Clone, Copy)]
pub struct Words {
    // Bytes 0-7: kind, ledger, sender, receiver and two zero bytes.
    pub head: u64,
    pub number: u64,
    pub amount: u64,
    // Bytes 24-31: the verdict and zero bytes.
    pub tail: u64,
}

// What a word is divided by for its first byte alone, and for its first two.
pub const FIRST_BYTE: u64 = 72057594037927936;

pub const FIRST_TWO_BYTES: u64 = 281474976710656;

// The verdict in bytes 24-31, where it is 0 or 1 and zero bytes follow it.
fn verdict(tail: u64) -> Option<bool>
    ensures { SomeIff result ((within 0 1 tail ≤ 1) × (within 1 7 tail ≡ 0)) (eqb (within 0 1 tail) 1) }
{
    match tail {
        0 => Some(false),
        FIRST_BYTE => Some(true),
        _ => None,
    }
}

impl Words {
    // The words of 32 bytes.
    // Kept: a slice of 32 bytes and no From of an array, which would ask more of those who call it.
    pub fn of(s: &[u8]) -> Words
        requires { length s.now ≡ 32 }
        ensures { result ≡ words_of s.now }
    {
        Words {
            head: u64::at(s, 0),
            number: u64::at(s, 8),
            amount: u64::at(s, 16),
            tail: u64::at(s, 24),
        }
    }

    // The record that the words read as.
    pub fn read(self) -> Option<Record>
        ensures { read_as result ≡ reading_words self }
    {
        let [kind, ledger, s0, s1, r0, r1, 0, 0] = self.head.to_be_bytes() else {
            return None;
        };
        let ledger = Ledger::try_from(ledger).ok()?;
        let kind = Kind::read(kind, ledger)?;
        let verified = verdict(self.tail)?;
        if !(1..=Record::MAX_AMOUNT).contains(&self.amount) {
            return None;
        }
        Some(Record {
            kind,
            sender: u16::from_be_bytes([s0, s1]),
            receiver: u16::from_be_bytes([r0, r1]),
            number: self.number,
            amount: self.amount,
            verified,
        })
    }
}

impl Record {
    // The bytes of a record.
    pub const SIZE: usize = 32;

    // The greatest amount.
    pub const MAX_AMOUNT: u64 = 9223372036854775807;

    // The record that bytes read as.
    // Kept: README names `read` and `encode`, and a TryFrom with an error type of its own and a From would say no more.
    #[tactic(auto, unfolding(crate::specs::Records::reading))]
    pub fn read(s: &[u8]) -> Option<Record>
        ensures { read_as result ≡ reading s.now }
    {
        if s.len() != Record::SIZE {
            return None;
        }
        Words::of(s).read()
    }

    // The 32 bytes of a record, also where its amount is 0 or above 2^63-1; such bytes do not read.
    #[tactic(auto, unfolding(crate::specs::Records::encoding))]
    pub fn encode(self) -> [u8; 32]
        ensures { result ≡ encoding self }
    {
        field_bytes(
            u8::from(self.kind),
            u8::from(self.kind.ledger()),
            self.sender,
            self.receiver,
            self.number,
            self.amount,
            u8::from(self.verified),
        )
    }
}
