// The documents' refusals (document 01, "Refusals"; document 02), each with its number, and a refusal with its place.
ghost use Rattle.std.specs.Prelude.{◌≡◌};
ghost use Rattle.answers.specs.Refusals.{refusal_number};

// Why a call, an opening, a block, a record or a certificate is refused.
#[derive(Clone, Copy, PartialEq, Eq)]
pub enum Refusal {
    // 1: an opening's number of accounts.
    AccountCount,
    // 2: opening balances above the greatest supply.
    SupplyTooGreat,
    // 3: a state.
    StateNotAccepted,
    // 4: a write, or a place or a kind of item that is asked for.
    NotAllowed,
    // 11: a block missing or not 512 bytes long, or a block number that is too great.
    BlockSize,
    // 12: a block's check.
    BlockCheck,
    // 13: a block's number.
    BlockNumber,
    // 14: a block's kind, count, zero bytes or place after the block before.
    BlockForm,
    // 21: bytes that do not read as a record.
    RecordForm,
    // 22: the sender's account, or one that is asked for.
    AccountNotOpen,
    // 23: a record's verdict.
    Unverified,
    // 24: a record's number.
    NumberUsed,
    // 25: a balance below what is taken.
    FundsTooLow,
    // 31: an arrival with no sending.
    NotSent,
    // 32: an arrival above the far pool.
    PoolTooLow,
    // 33: a far record at the home validator.
    FarRecord,
    // 41: no place left.
    TableFull,
    // 51: the receiver's account.
    ReceiverNotOpen,
    // 52: a rate or a charge account.
    TariffNotAllowed,
    // 53: a certificate's number, or no committee.
    CertificateNumber,
    // 54: the keys that a certificate was checked under.
    KeysNotInForce,
    // 55: a certificate's signers.
    SignersTooFew,
}

// A refusal and its place.
#[derive(Clone, Copy, PartialEq, Eq)]
pub struct Refused {
    pub refusal: Refusal,
    pub place: u64,
}

// The documents' number of a refusal.
impl From<Refusal> for u32 {
    ghost from_gives = { λ refusal number. number ≡ refusal_number refusal };

    // A call of its own, so that a state that is handed back by value is not copied once more around its cases.
    #[inline(never)]
    fn from(refusal: Refusal) -> u32 {
        match refusal {
            Refusal::AccountCount => 1,
            Refusal::SupplyTooGreat => 2,
            Refusal::StateNotAccepted => 3,
            Refusal::NotAllowed => 4,
            Refusal::BlockSize => 11,
            Refusal::BlockCheck => 12,
            Refusal::BlockNumber => 13,
            Refusal::BlockForm => 14,
            Refusal::RecordForm => 21,
            Refusal::AccountNotOpen => 22,
            Refusal::Unverified => 23,
            Refusal::NumberUsed => 24,
            Refusal::FundsTooLow => 25,
            Refusal::NotSent => 31,
            Refusal::PoolTooLow => 32,
            Refusal::FarRecord => 33,
            Refusal::TableFull => 41,
            Refusal::ReceiverNotOpen => 51,
            Refusal::TariffNotAllowed => 52,
            Refusal::CertificateNumber => 53,
            Refusal::KeysNotInForce => 54,
            Refusal::SignersTooFew => 55,
        }
    }
}
