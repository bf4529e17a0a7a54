// The 32 bytes with the fields of a record given as numbers.
ghost use Rattle.std.specs.Prelude.{◌≡◌};
ghost use Rattle.records.specs.Fields.{field_bytes};

use wire::BigEndian;

// The bytes with these fields, whether they read as a record or not.
// Kept: moatbetony_record_encode takes these numbers one by one, in C's interface, and hands them on.
#[tactic(auto, unfolding(crate::specs::Fields::field_bytes, wire::specs::BigEndian::bytes_of))]
pub fn field_bytes(
    kind: u8,
    ledger: u8,
    sender: u16,
    receiver: u16,
    number: u64,
    amount: u64,
    verdict: u8,
) -> [u8; 32]
    ensures { result ≡ field_bytes kind ledger sender receiver number amount verdict }
{
    let mut b = [0u8; 32];
    b[0] = kind;
    b[1] = ledger;
    b[2..4].copy_from_slice(&sender.bytes());
    b[4..6].copy_from_slice(&receiver.bytes());
    b[8..16].copy_from_slice(&number.bytes());
    b[16..24].copy_from_slice(&amount.bytes());
    b[24] = verdict;
    b
}
