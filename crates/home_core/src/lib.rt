// The home validator (document 01: guard) over the words of its state, in place: whether a state is accepted, a record judged, a passed
// record stored, the opening, and the calls with one record and with a list.
#![tactic(auto)]

ghost use Rattle.std.specs.Prelude.{ℕ, ◌+◌, true, ◌≡◌, eqb, get_or, length};
ghost use Rattle.answers.specs.Answers.{answer_of, unless_refused};
ghost use Rattle.answers.specs.Refusals.{refused_by};
ghost use Rattle.home_core.specs.Layout.{HomeReady, accepts_home, home_balances_word, home_bounds, home_view_of, home_with};
ghost use Rattle.home_core.specs.Layout.{home_opened_words, home_words_checker, home_zero_words, home_accounts_of, pool_of};
ghost use Rattle.home_core.specs.Layout.{home_count_of, home_supply_of, home_tariff_of};
ghost use Rattle.ledgers.specs.Limits.{capacity};
ghost use Rattle.places.specs.OverPlaces.{sum_at};
ghost use Rattle.records.specs.Records.{formed, record_in};
ghost use Rattle.rules.specs.Rules.{Read};
ghost use Rattle.rules.specs.Calls.{call, list, one};
ghost use Rattle.rules.specs.HomeValidator.{home_accounts, home_judge, home_last_refusal, home_opening_refusal};
ghost use Rattle.std.proofs.Props.{props};
ghost use Rattle.table.specs.Table.{EmptyIndex, index_length};

use answers::{Answer, Refusal, first_refusal, refuse_if};
use calls::Core;
use ledgers::Ledger;
use places::{
    Wide, add_balances, are_zero, copy_numbers, given_by, is_count_allowed, is_receiving, taken_by,
};
use records::{Record, Words};
use refusals::{first_refusals, funds_refusal, home_opening};
use table::{HeadLimits, Held, INDEX, add_number, hold_indexed, store};
use tariffs::Tariff;

// ## The layout
// Kept: one array of words and no fields: it is what C stores and home_view_of reads (docs/DECISIONS.md, 35).

// The first word of the balances; the records stand before them.
pub const BALANCES_WORD: usize = 4 * Ledger::CAPACITY;

// The words of the supply, the far pool, the numbers of home and of far accounts, the number of held records, the rate and the charge
// account.
pub const SUPPLY_WORD: usize = BALANCES_WORD + Ledger::ACCOUNTS;

pub const POOL_WORD: usize = SUPPLY_WORD + 1;

pub const HOME_ACCOUNTS_WORD: usize = SUPPLY_WORD + 2;

pub const FAR_ACCOUNTS_WORD: usize = SUPPLY_WORD + 3;

pub const COUNT_WORD: usize = SUPPLY_WORD + 4;

pub const RATE_WORD: usize = SUPPLY_WORD + 5;

pub const CHARGE_ACCOUNT_WORD: usize = SUPPLY_WORD + 6;

// All words of a state.
pub const WORDS: usize = SUPPLY_WORD + 7;

// The tariff.
fn tariff_of(s: &[u64; WORDS]) -> Tariff
    ensures { result ≡ home_tariff_of s.now }
{
    Tariff {
        rate: s[RATE_WORD],
        account: s[CHARGE_ACCOUNT_WORD],
    }
}

// ## 3

// Counts of accounts and of held records, the supply and the tariff.
#[tactic(auto, unfolding(crate::specs::Layout::home_bounds, rules::specs::PairValidator::supply_allowed, wire::specs::BigEndian::every))]
fn is_bounded(s: &[u64; WORDS]) -> bool
    ensures { result ≡ home_bounds s.now }
{
    is_count_allowed(s[HOME_ACCOUNTS_WORD] as usize)
        && is_count_allowed(s[FAR_ACCOUNTS_WORD] as usize)
        && s[COUNT_WORD] as usize <= Ledger::CAPACITY
        && s[SUPPLY_WORD] <= Record::MAX_AMOUNT
        && tariff_of(s).is_allowed(s[HOME_ACCOUNTS_WORD])
}

// Balances and the far pool, against the supply.
fn adds_up(s: &[u64; WORDS]) -> bool
    requires { home_bounds s.now ≡ true }
    ensures { result ≡ eqb (sum_at (λ (i : ℕ). get_or s.now i 0) home_balances_word (home_accounts_of s.now)
        + pool_of s.now) (home_supply_of s.now) }
{
    let zero = Wide::default();
    let sum = add_balances(s, BALANCES_WORD, s[HOME_ACCOUNTS_WORD] as usize, zero).add(
        s[POOL_WORD],
    );
    sum.high == 0 && sum.low == s[SUPPLY_WORD]
}

// All that 3 asks of a state; where it holds, the index of its numbers is made in place of an empty one.
pub fn is_accepted(s: &[u64], index: &mut [u16]) -> bool
    requires { (length index.old ≡ index_length) × EmptyIndex index.old 0 }
    ensures accepts { result ≡ accepts_home s.now }
    ensures ready { result ≡ true → HomeReady s.now index.new }
    ensures long { length index.new ≡ length index.old }
{
    let Some(words) = s.as_array::<WORDS>() else {
        return false;
    };
    if !is_bounded(words) {
        return false;
    }
    let accounts = words[HOME_ACCOUNTS_WORD] as usize;
    if !are_zero(s, BALANCES_WORD + accounts, Ledger::ACCOUNTS - accounts) {
        return false;
    }
    let limits = HeadLimits::new(
        Ledger::Home,
        words[HOME_ACCOUNTS_WORD],
        words[FAR_ACCOUNTS_WORD],
    );
    if !hold_indexed(s, 0, words[COUNT_WORD] as usize, index, 0, limits) {
        return false;
    }
    adds_up(words)
}

// ## Judging a record

// The words of an accepted state, with the index of their numbers.
// Kept: a type in each core, and none of calls for both: its methods are the core's, and a crate adds none to another's type.
#[derive(Clone, Copy)]
struct Accepted<'a> {
    words: &'a [u64],
    index: &'a [u16],
    ghost ready: { HomeReady words.now index.now } by { Prim.hlevel props },
}

impl<'a> Accepted<'a> {
    // The number of accounts of a ledger.
    fn accounts_on(self, l: Ledger) -> usize
        ensures { result ≡ home_accounts (home_view_of self.entry.words.now) l }
    {
        match l {
            Ledger::Home => self.words[HOME_ACCOUNTS_WORD] as usize,
            Ledger::Far => self.words[FAR_ACCOUNTS_WORD] as usize,
        }
    }

    // 25 or 32.
    #[tactic(auto, using(crate::proofs::Judging::last_pooled, crate::proofs::Judging::last_paid), unfolding(rules::specs::HomeValidator::pool_refusal))]
    fn last_refusal(self, r: Record) -> Result<(), Refusal>
        ensures { refused_by result ≡ home_last_refusal (home_view_of self.entry.words.now) r r.kind }
    {
        if is_receiving(r.kind) {
            return refuse_if(self.words[POOL_WORD] < r.amount, Refusal::PoolTooLow);
        }
        funds_refusal(
            self.words,
            BALANCES_WORD,
            self.words[HOME_ACCOUNTS_WORD] as usize,
            self.words[RATE_WORD],
            r,
        )
    }

    // Its held records.
    fn held(self) -> Held<'a>
        ensures { (result.words.now ≡ self.entry.words.now) × (result.from ≡ 0)
            × (result.count ≡ home_count_of self.entry.words.now) }
    {
        Held {
            words: self.words,
            from: 0,
            count: self.words[COUNT_WORD] as usize,
            index: self.index,
            base: 0,
        }
    }
}

// The refusals of a record that was read, 33, 22, 51 and 23 to 41 in order.
// Kept: slices with HomeReady, and not an Accepted, since this is public and asks no more of callers than it did.
pub fn judge(s: &[u64], index: &[u16], r: Record) -> Result<(), Refusal>
    requires { HomeReady s.now index.now }
    ensures { refused_by result ≡ home_judge capacity (home_view_of s.now) (Read r) }
{
    let home = Accepted { words: s, index };
    let held = home.held();
    let kind = r.kind;
    let far = refuse_if(matches!(kind.ledger(), Ledger::Far), Refusal::FarRecord);
    let senders = home.accounts_on(kind.sender_ledger());
    let receivers = home.accounts_on(kind.receiver_ledger());
    let last = home.last_refusal(r);
    let full = refuse_if(Ledger::CAPACITY <= held.count, Refusal::TableFull);
    let used = held.is_used(is_receiving(kind), r.number);
    let rest = first_refusals(senders, receivers, r, used, first_refusal(last, full));
    first_refusal(far, rest)
}

// ## A passed record

// All stores of a passed record.
fn pass(state: &mut [u64; WORDS], w: Words, r: Record)
    requires { (accepts_home state.old ≡ true) × (formed w ≡ true) × (record_in w ≡ r)
        × (home_judge capacity (home_view_of state.old) (Read r) ≡ 0) }
    ensures { state.new ≡ home_with state.old w r }
{
    let kind = r.kind;
    let count = state[COUNT_WORD];
    let pool = state[POOL_WORD];
    let tariff = tariff_of(state);
    store(state, BALANCES_WORD, 4 * count as usize, tariff, w, r);
    state[POOL_WORD] = pool + taken_by(kind, r.amount) - given_by(kind, r.amount); // a sending enters it, an arrival leaves it
    state[COUNT_WORD] = count + 1;
}

// ## The opening

// An opening with the home balances, the number of far accounts, the far total and the tariff, in words of zeros: 1, 2 or 52, and no word
// is stored.
pub fn open(
    balances: &[u64],
    far_accounts: usize,
    far_total: u64,
    tariff: Tariff,
    state: &mut [u64; WORDS],
) -> Result<(), Refusal>
    requires { state.old ≡ home_zero_words }
    ensures answers { refused_by result ≡ home_opening_refusal tariff balances.now far_accounts far_total }
    ensures leaves { state.new ≡ unless_refused (home_opening_refusal tariff balances.now far_accounts far_total)
        (home_opened_words tariff balances.now far_accounts far_total) home_zero_words }
{
    let supply = home_opening(balances, far_accounts, far_total, tariff)?;
    copy_numbers(balances, BALANCES_WORD, state);
    state[SUPPLY_WORD] = supply;
    state[POOL_WORD] = far_total;
    state[HOME_ACCOUNTS_WORD] = balances.len() as u64;
    state[FAR_ACCOUNTS_WORD] = far_accounts as u64;
    state[RATE_WORD] = tariff.rate;
    state[CHARGE_ACCOUNT_WORD] = tariff.account;
    Ok(())
}

// ## The calls

// The home validator, as calls take it.
pub struct HomeCore;

impl Core for HomeCore {
    type Words = [u64; WORDS];

    type Index = [u16; INDEX];

    ghost checker = { home_words_checker };

    ghost Empty = { λ index. (length index ≡ index_length) × EmptyIndex index 0 };

    ghost Ready = { HomeReady };

    // Laid where it is called, so that the index is made in place.
    #[inline(always)]
    fn empty_index() -> [u16; INDEX] {
        [0; INDEX]
    }

    fn is_accepted(words: &[u64; WORDS], index: &mut [u16; INDEX]) -> bool {
        is_accepted(words, index)
    }

    // 21 first.
    fn step(
        words: &mut [u64; WORDS],
        index: &mut [u16; INDEX],
        bytes: &[u8],
    ) -> Result<(), Refusal> {
        let Some(r) = Record::read(bytes) else {
            return Err(Refusal::RecordForm);
        };
        judge(words, index, r)?;
        let count = words[COUNT_WORD] as usize;
        pass(words, Words::of(bytes), r);
        add_number(index, 0, count, r.number);
        Ok(())
    }
}

// A call with one record, on a state lent: 3, 21, 33, 22, 51 and 23 to 41. A refusal leaves every word as it was.
// Kept: docs/DECISIONS.md (33) and the exports have take and take_list of each core by these names, one line each over calls.
pub fn take(state: &mut [u64; WORDS], bytes: &[u8]) -> Answer
    ensures answers { answer_of result ≡ (call home_words_checker state.old (one bytes.now)).answer }
    ensures leaves { state.new ≡ (call home_words_checker state.old (one bytes.now)).state }
{
    calls::take::<HomeCore>(state, bytes)
}

// A call with a list of records, on a state lent: 3, then of each record 21, 33, 22, 51 and 23 to 41. A refusal has its record's index, and
// leaves every word as it was.
pub fn take_list(state: &mut [u64; WORDS], bytes: &[u8]) -> Answer
    ensures answers { answer_of result ≡ (call home_words_checker state.old (list bytes.now)).answer }
    ensures leaves { state.new ≡ (call home_words_checker state.old (list bytes.now)).state }
{
    calls::take_list::<HomeCore>(state, bytes)
}
