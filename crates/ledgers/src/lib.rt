// The two ledgers and the three kinds of record (document 01, "The record").
#![tactic(auto)]

ghost use Rattle.std.specs.Prelude.{◌≡◌, ◌<◌, ◌≤◌, SomeIff};
ghost use Rattle.ledgers.specs.Ledgers.{counterpart, ledger_byte, LedgerRead, kind_byte, kind_at, ledger_of};
ghost use Rattle.ledgers.specs.Ledgers.{sender_ledger, receiver_ledger};

// The two linked ledgers.
#[derive(Clone, Copy, PartialEq, Eq)]
pub enum Ledger {
    Home,
    Far,
}

impl Ledger {
    // The byte of a record that says which ledger holds it.
    pub const HOME: u8 = 0;

    pub const FAR: u8 = 1;
    // The most accounts of a ledger.
    pub const ACCOUNTS: usize = 56;
    // The passed records that a validator holds of a ledger (document 01: places).
    pub const CAPACITY: usize = 512;

    // The other ledger.
    pub fn counterpart(self) -> Ledger
        ensures { result ≡ counterpart self }
    {
        match self {
            Ledger::Home => Ledger::Far,
            Ledger::Far => Ledger::Home,
        }
    }
}

// The byte of a record that the ledger holds.
impl From<Ledger> for u8 {
    ghost from_gives = { λ ledger byte. byte ≡ ledger_byte ledger };

    fn from(ledger: Ledger) -> u8 {
        match ledger {
            Ledger::Home => Ledger::HOME,
            Ledger::Far => Ledger::FAR,
        }
    }
}

// A byte that is no ledger's.
#[derive(Clone, Copy, PartialEq, Eq)]
pub struct NoLedger(pub u8);

// The ledger with a byte.
impl TryFrom<u8> for Ledger {
    type Error = NoLedger;

    ghost try_from_gives = { LedgerRead };

    fn try_from(byte: u8) -> Result<Ledger, NoLedger> {
        match byte {
            Ledger::HOME => Ok(Ledger::Home),
            Ledger::FAR => Ok(Ledger::Far),
            _ => Err(NoLedger(byte)),
        }
    }
}

// What a record does, with the ledger that holds it.
#[derive(Clone, Copy, PartialEq, Eq)]
pub enum Kind {
    Local(Ledger),
    Sending(Ledger),
    // Document 01: arrival.
    Receiving(Ledger),
}

impl Kind {
    // The byte of a record that says its kind.
    pub const LOCAL: u8 = 1;

    pub const SENDING: u8 = 2;

    pub const RECEIVING: u8 = 3;

    // The kind with a byte, of a record that the ledger holds; none where it is no kind's.
    // Kept: README names read, and a TryFrom takes one value, where a kind needs its byte and its ledger.
    pub fn read(byte: u8, ledger: Ledger) -> Option<Kind>
        ensures { SomeIff result ((0 < byte) × (byte ≤ 3)) (kind_at byte ledger) }
    {
        match byte {
            Kind::LOCAL => Some(Kind::Local(ledger)),
            Kind::SENDING => Some(Kind::Sending(ledger)),
            Kind::RECEIVING => Some(Kind::Receiving(ledger)),
            _ => None,
        }
    }

    // The ledger that holds the record.
    pub fn ledger(self) -> Ledger
        ensures { result ≡ ledger_of self }
    {
        match self {
            Kind::Local(l) | Kind::Sending(l) | Kind::Receiving(l) => l,
        }
    }

    // The ledger of the sender's account.
    // Kept: README names this and receiver_ledger; they differ in the kind that crosses, and one of a flag would say less.
    pub fn sender_ledger(self) -> Ledger
        ensures { result ≡ sender_ledger self }
    {
        match self {
            Kind::Local(l) | Kind::Sending(l) => l,
            Kind::Receiving(l) => l.counterpart(),
        }
    }

    // The ledger of the receiver's account.
    pub fn receiver_ledger(self) -> Ledger
        ensures { result ≡ receiver_ledger self }
    {
        match self {
            Kind::Local(l) | Kind::Receiving(l) => l,
            Kind::Sending(l) => l.counterpart(),
        }
    }
}

// The byte of a record of the kind.
impl From<Kind> for u8 {
    ghost from_gives = { λ kind byte. byte ≡ kind_byte kind };

    fn from(kind: Kind) -> u8 {
        match kind {
            Kind::Local(_) => Kind::LOCAL,
            Kind::Sending(_) => Kind::SENDING,
            Kind::Receiving(_) => Kind::RECEIVING,
        }
    }
}
