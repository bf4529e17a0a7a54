// Runs document 01's cases 1 to 14 on the validators, and as case 0 charges, forged states and lists, and prints for each call the case,
// the answer's number and the figures of the state that came back.
#![tactic(auto)]

use answers::Outcome;
use home_validator::HomeValidator;
use home_validator::asked::HomeFigures;
use ledgers::{Kind, Ledger};
use pair_validator::PairValidator;
use pair_validator::asked::PairFigures;
use records::Record;
use std::io;
use tariffs::Tariff;

// The kinds of the cases' records.
const LOCAL: Kind = Kind::Local(Ledger::Home);

const SENDING: Kind = Kind::Sending(Ledger::Home);

const ARRIVAL: Kind = Kind::Receiving(Ledger::Home);

const FAR_LOCAL: Kind = Kind::Local(Ledger::Far);

const FAR_SENDING: Kind = Kind::Sending(Ledger::Far);

const FAR_ARRIVAL: Kind = Kind::Receiving(Ledger::Far);

// No charge.
const FREE: Tariff = Tariff {
    rate: 0,
    account: 0,
};

// A validator, as the cases open, call and show it.
trait Validator: Copy {
    // An opening with home 100 and 50, far 20, and a charge.
    fn charged(tariff: Tariff) -> Self;

    // A call with one record.
    fn take(self, bytes: &[u8]) -> Outcome<Self>;

    // The line of a call that left this state: case, number and figures.
    fn print(self, rt: &HostRuntime, case: u64, number: u32) -> io::Result<()>;
}

impl Validator for PairValidator {
    fn charged(tariff: Tariff) -> PairValidator {
        PairValidator::open(&[100, 50], &[20], tariff).state
    }

    fn take(self, bytes: &[u8]) -> Outcome<PairValidator> {
        self.check_record(bytes)
    }

    // Home, far and in flight; zeros where the state is refused.
    fn print(self, rt: &HostRuntime, case: u64, number: u32) -> io::Result<()> {
        let none = PairFigures {
            home: 0,
            far: 0,
            flight: 0,
        };
        let PairFigures { home, far, flight } = pair_validator::figures(self).unwrap_or(none);
        println!(rt; "pair {case} {number} {home} {far} {flight}")
    }
}

impl Validator for HomeValidator {
    fn charged(tariff: Tariff) -> HomeValidator {
        HomeValidator::open(&[100, 50], 1, 20, tariff).state
    }

    fn take(self, bytes: &[u8]) -> Outcome<HomeValidator> {
        self.check_record(bytes)
    }

    // Home and far pool; zeros where the state is refused.
    fn print(self, rt: &HostRuntime, case: u64, number: u32) -> io::Result<()> {
        let none = HomeFigures { home: 0, pool: 0 };
        let HomeFigures { home, pool } = home_validator::figures(self).unwrap_or(none);
        println!(rt; "home {case} {number} {home} {pool}")
    }
}

// An opening with no charge.
fn opened<V: Validator>() -> V {
    V::charged(FREE)
}

// The line of a call, and the state that it left.
fn show<V: Validator>(rt: &HostRuntime, case: u64, outcome: Outcome<V>) -> io::Result<V> {
    let state = outcome.state;
    state.print(rt, case, answers::number(outcome.answer))?;
    Ok(state)
}

// One record handed to a state: its line, and the state.
fn hand<V: Validator>(rt: &HostRuntime, case: u64, state: V, record: Record) -> io::Result<V> {
    show(rt, case, state.take(&record.encode()))
}

// Records handed to one state each: their lines.
fn hand_each<V: Validator>(
    rt: &HostRuntime,
    case: u64,
    state: V,
    records: &[Record],
) -> io::Result<()> {
    for &record in records {
        hand(rt, case, state, record)?;
    }
    Ok(())
}

// A record with a good signature.
fn record(kind: Kind, sender: u16, receiver: u16, number: u64, amount: u64) -> Record {
    Record {
        kind,
        sender,
        receiver,
        number,
        amount,
        verified: true,
    }
}

// Cases 1 to 4: a sending, its arrival, the arrival once more, and one of another amount.
fn crossings(rt: &HostRuntime) -> io::Result<()> {
    let pair: PairValidator = opened();
    let arrival = record(FAR_ARRIVAL, 0, 0, 7, 30);
    let sent = hand(rt, 1, pair, record(SENDING, 0, 0, 7, 30))?;
    let arrived = hand(rt, 2, sent, arrival)?;
    hand(rt, 3, arrived, arrival)?;
    hand(rt, 4, sent, record(FAR_ARRIVAL, 0, 0, 7, 31))?;
    Ok(())
}

// Cases 5 to 8: locals to account 0.
fn locals(rt: &HostRuntime) -> io::Result<()> {
    let pair: PairValidator = opened();
    let rows = [
        (5, 1, 50),
        (5, 1, 51),
        (6, 0, 100),
        (6, 0, 101),
        (7, 2, 1),
        (8, 0, 0),
        (8, 0, 9223372036854775807),
        (8, 0, 9223372036854775808),
    ];
    for (case, sender, amount) in rows {
        hand(rt, case, pair, record(LOCAL, sender, 0, 0, amount))?;
    }
    Ok(())
}

// Case 9: arrivals at the home validator.
fn arrivals(rt: &HostRuntime) -> io::Result<()> {
    let home: HomeValidator = opened();
    let first = [record(ARRIVAL, 0, 0, 1, 20), record(ARRIVAL, 0, 0, 1, 21)];
    hand_each(rt, 9, home, &first)?;
    let sent = hand(rt, 9, home, record(SENDING, 0, 0, 1, 30))?;
    let later = [
        record(ARRIVAL, 0, 0, 2, 50),
        record(ARRIVAL, 0, 0, 2, 51),
        record(FAR_LOCAL, 0, 0, 2, 1),
    ];
    hand_each(rt, 9, sent, &later)
}

// Cases 10 and 11: a bad signature with a used number, and a verdict byte that is none.
fn signatures(rt: &HostRuntime) -> io::Result<()> {
    let pair: PairValidator = opened();
    let mut bytes = record(LOCAL, 0, 1, 3, 1).encode();
    let used = show(rt, 10, pair.take(&bytes))?;
    for (case, verdict) in [(10, 0), (11, 2)] {
        bytes[24] = verdict;
        show(rt, case, used.take(&bytes))?;
    }
    Ok(())
}

// The lines of an opening with home balances, one far balance and a charge.
fn opening(rt: &HostRuntime, case: u64, homes: &[u64], far: u64, tariff: Tariff) -> io::Result<()> {
    show(rt, case, PairValidator::open(homes, &[far], tariff))?;
    show(rt, case, HomeValidator::open(homes, 1, far, tariff))?;
    Ok(())
}

// Cases 12 and 14: openings.
fn openings(rt: &HostRuntime) -> io::Result<()> {
    let greatest = [9223372036854775807];
    let more = [1; 57];
    let rows = [
        (12, &greatest[..], 0),
        (12, &greatest[..], 1),
        (14, &more[..56], 0),
        (14, &more[..], 0),
        (14, &more[..0], 0),
    ];
    for (case, homes, far) in rows {
        opening(rt, case, homes, far, FREE)?;
    }
    Ok(())
}

// 52 after 1 and 2: a rate above 10,000, an account that is not open, also at rate 0, and numbers beyond 16 bits.
fn tariffs_judged(rt: &HostRuntime) -> io::Result<()> {
    for (rate, account) in [(10000, 1), (10001, 1), (0, 2), (65586, 65536)] {
        opening(rt, 0, &[100, 50], 20, Tariff { rate, account })?;
    }
    let above = Tariff {
        rate: 10001,
        account: 1,
    };
    opening(rt, 0, &[9223372036854775807], 1, above)
}

// A home sending at rate 10,000, which costs twice its amount: by another account than the one that is paid, by that one, one that is too
// much with the charge; then a local, a far sending and an arrival, which cost nothing more.
fn charges(rt: &HostRuntime) -> io::Result<()> {
    let pair = PairValidator::charged(Tariff {
        rate: 10000,
        account: 1,
    });
    let sent = hand(rt, 0, pair, record(SENDING, 0, 0, 7, 50))?;
    let sendings = [record(SENDING, 0, 0, 7, 51), record(SENDING, 1, 0, 7, 25)];
    hand_each(rt, 0, pair, &sendings)?;
    let others = [
        record(LOCAL, 1, 0, 8, 100),
        record(FAR_SENDING, 0, 0, 8, 20),
        record(FAR_ARRIVAL, 0, 0, 7, 50),
    ];
    hand_each(rt, 0, sent, &others)?;
    let home = HomeValidator::charged(Tariff {
        rate: 10000,
        account: 0,
    });
    let own = hand(rt, 0, home, record(SENDING, 0, 0, 7, 50))?;
    hand(rt, 0, home, record(SENDING, 0, 0, 7, 51))?;
    let arrivals = [record(ARRIVAL, 0, 0, 8, 70), record(ARRIVAL, 0, 0, 8, 71)];
    hand_each(rt, 0, own, &arrivals)
}

// A state after 511 locals that pass.
fn filled<V: Validator>() -> V {
    let mut state: V = opened();
    for number in 0..511u64 {
        let sender = (number % 2) as u16;
        let bytes = record(LOCAL, sender, 1 - sender, number, 1).encode();
        state = state.take(&bytes).state;
    }
    state
}

// The 512th passed record of a ledger passes, the next is 41, and one with a used number is 24.
fn full_table<V: Validator>(rt: &HostRuntime) -> io::Result<V> {
    let full = hand(rt, 13, filled(), record(LOCAL, 1, 0, 511, 1))?;
    let refused = [record(LOCAL, 0, 1, 512, 1), record(LOCAL, 0, 1, 0, 1)];
    hand_each(rt, 13, full, &refused)?;
    Ok(full)
}

// Case 13: a full table of each validator; the other ledger's has room.
fn full_tables(rt: &HostRuntime) -> io::Result<()> {
    let full: PairValidator = full_table(rt)?;
    hand(rt, 13, full, record(FAR_LOCAL, 0, 0, 0, 1))?;
    full_table::<HomeValidator>(rt)?;
    Ok(())
}

// A forged state is refused with 3; two balances exchanged are not seen.
fn forged(rt: &HostRuntime) -> io::Result<()> {
    let local = record(LOCAL, 0, 1, 1, 1);
    let pair: PairValidator = opened();
    let home: HomeValidator = opened();
    let mut one_changed = pair;
    one_changed.words[pair_core::BALANCES_WORD] = 101;
    hand(rt, 0, one_changed, local)?;
    let mut exchanged = pair;
    exchanged.words[pair_core::BALANCES_WORD] = 50;
    exchanged.words[pair_core::BALANCES_WORD + 1] = 100;
    hand(rt, 0, exchanged, local)?;
    let mut pool = home;
    pool.words[home_core::POOL_WORD] = 21;
    hand(rt, 0, pool, local)?;
    let mut rate = pair;
    rate.words[pair_core::RATE_WORD] = 10001;
    hand(rt, 0, rate, local)?;
    let mut account = home;
    account.words[home_core::CHARGE_ACCOUNT_WORD] = 2;
    hand(rt, 0, account, local)?;
    Ok(())
}

// The bytes of a sending and its arrival.
fn both() -> [u8; 64] {
    let mut bytes = [0u8; 64];
    bytes[..32].copy_from_slice(&record(SENDING, 0, 0, 7, 30).encode());
    bytes[32..].copy_from_slice(&record(FAR_ARRIVAL, 0, 0, 7, 30).encode());
    bytes
}

// A list of two records and a short rest, whose place of refusal follows; without the rest, empty, and as one record.
fn lists(rt: &HostRuntime) -> io::Result<()> {
    let pair: PairValidator = opened();
    let both = both();
    let mut longer = [0u8; 95];
    longer[..64].copy_from_slice(&both);
    let refused = pair.check_list(&longer);
    show(rt, 0, refused)?;
    println!(rt; " {}", answers::place(refused.answer))?;
    show(rt, 0, pair.check_list(&both))?;
    show(rt, 0, pair.check_list(&[]))?;
    show(rt, 0, pair.check_record(&both))?;
    Ok(())
}

fn main(rt: HostRuntime) -> io::Result<()> {
    crossings(&rt)?;
    locals(&rt)?;
    arrivals(&rt)?;
    signatures(&rt)?;
    openings(&rt)?;
    tariffs_judged(&rt)?;
    charges(&rt)?;
    full_tables(&rt)?;
    forged(&rt)?;
    lists(&rt)?;
    Ok(())
}
