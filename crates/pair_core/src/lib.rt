// The pair validator (document 01: pair book) over the words of its state, in place: whether a state is accepted, a record judged, a
// passed record stored, the opening, and the calls with one record and with a list.
#![tactic(auto)]

ghost use Rattle.std.specs.Prelude.{ℕ, ◌+◌, ◌*◌, ◌-◌, ◌^◌, ◌<◌, ◌≤◌, true, ◌≡◌, is_some, get_or, length, IfSome};
ghost use Rattle.answers.specs.Answers.{answer_of, unless_refused};
ghost use Rattle.answers.specs.Refusals.{refused_by};
ghost use Rattle.ledgers.specs.Ledgers.{counterpart, ledger_byte, ledger_of};
ghost use Rattle.ledgers.specs.Limits.{account_limit, capacity};
ghost use Rattle.pair_core.specs.Layout.{InBounds, PairReady, accepts_pair, accounts_on, balances_start, count_on, index_on, pair_bounds};
ghost use Rattle.pair_core.specs.Layout.{pair_opened_words, pair_view_of, pair_with, pair_words_checker, pair_zero_words, records_start};
ghost use Rattle.pair_core.specs.Layout.{tariff_on, zero_beyond};
ghost use Rattle.pair_core.specs.Testing.{backed_on, held_on, sums_agree};
ghost use Rattle.places.specs.NumberIndex.{Kept};
ghost use Rattle.records.specs.Records.{formed, record_in};
ghost use Rattle.records.specs.Records.{Read};
ghost use Rattle.rules.specs.Calls.{call, list, one};
ghost use Rattle.rules.specs.PairValidator.{pair_judge, pair_opening_refusal};
ghost use Rattle.rules.specs.Rules.{last_refusal};
ghost use Rattle.std.proofs.Props.{props};
ghost use Rattle.table.specs.Table.{EmptyIndex, FlowsAt, IndexOf, index_length};

use answers::{Answer, Refusal, first_refusal, refuse_if};
use calls::Core;
use ledgers::Ledger;
use places::{Flows, Wide, add_balances, are_zero, copy_numbers, is_count_allowed, is_receiving};
use records::{Record, Words};
use refusals::{first_refusals, funds_refusal, pair_opening};
use table::{HeadLimits, Held, INDEX, add_number, hold_indexed, store};
use tariffs::Tariff;

// ## The layout
// Kept: one array of words and no fields: it is what C stores and pair_view_of reads (docs/DECISIONS.md, 35).

// The words of a ledger's records, which stand first, home's before far's.
pub const RECORD_WORDS: usize = 4 * Ledger::CAPACITY;

// The first word of the balances, home's before far's.
pub const BALANCES_WORD: usize = 2 * RECORD_WORDS;

// The words of the supply, of the numbers of accounts and of the numbers of held records, and of home's rate and charge account.
pub const SUPPLY_WORD: usize = BALANCES_WORD + 2 * Ledger::ACCOUNTS;

pub const ACCOUNTS_WORD: usize = SUPPLY_WORD + 1;

pub const COUNTS_WORD: usize = SUPPLY_WORD + 3;

pub const RATE_WORD: usize = SUPPLY_WORD + 5;

pub const CHARGE_ACCOUNT_WORD: usize = SUPPLY_WORD + 6;

// All words of a state.
pub const WORDS: usize = SUPPLY_WORD + 7;

// The elements of the indexes of both ledgers' numbers.
pub const INDEXES: usize = 2 * INDEX;

// A ledger's index among both.
// Kept: an index of this layout, by the library's conversions; a From for usize in ledgers would know nothing of it.
#[tactic(auto, using(crate::proofs::Ledgers::byte_below))]
pub fn ledger_index(l: Ledger) -> usize
    ensures { (result ≡ ledger_byte l) × (result < 2) }
{
    usize::from(u8::from(l))
}

// The first word of a ledger's records.
fn records_word(l: Ledger) -> usize
    ensures { (result ≡ records_start (ledger_byte l)) × (result ≤ 4 * capacity) }
{
    ledger_index(l) * RECORD_WORDS
}

// Of its balances.
fn balances_word(l: Ledger) -> usize
    ensures { (result ≡ balances_start (ledger_byte l)) × (result ≤ 8 * capacity + account_limit) }
{
    BALANCES_WORD + ledger_index(l) * Ledger::ACCOUNTS
}

// The first element of its index.
fn index_start(l: Ledger) -> usize
    ensures { (result ≡ index_on (ledger_byte l)) × (result ≤ index_length) }
{
    ledger_index(l) * INDEX
}

// The number of its accounts.
// Kept: of words not yet known to be in bounds, as is_bounded and pass have them; a Bounded needs that known.
fn accounts_on(s: &[u64; WORDS], l: Ledger) -> usize
    ensures { result ≡ accounts_on s.now (ledger_byte l) }
{
    s[ACCOUNTS_WORD + ledger_index(l)] as usize
}

// Of its held records.
fn count_on(s: &[u64; WORDS], l: Ledger) -> usize
    ensures { result ≡ count_on s.now (ledger_byte l) }
{
    s[COUNTS_WORD + ledger_index(l)] as usize
}

// Its tariff: nothing is taken on far's sendings.
fn tariff_on(s: &[u64; WORDS], l: Ledger) -> Tariff
    ensures { result ≡ tariff_on s.now (ledger_byte l) }
{
    match l {
        Ledger::Home => Tariff {
            rate: s[RATE_WORD],
            account: s[CHARGE_ACCOUNT_WORD],
        },
        Ledger::Far => Tariff {
            rate: 0,
            account: 0,
        },
    }
}

// ## 3

// Whether the counts of accounts and of held records, the supply and home's tariff are in bounds.
#[tactic(auto, unfolding(crate::specs::Layout::pair_bounds, rules::specs::PairValidator::supply_allowed, wire::specs::BigEndian::every))]
fn is_bounded(s: &[u64; WORDS]) -> bool
    ensures { result ≡ pair_bounds s.now }
{
    is_count_allowed(accounts_on(s, Ledger::Home))
        && is_count_allowed(accounts_on(s, Ledger::Far))
        && count_on(s, Ledger::Home) <= Ledger::CAPACITY
        && count_on(s, Ledger::Far) <= Ledger::CAPACITY
        && s[SUPPLY_WORD] <= Record::MAX_AMOUNT
        && tariff_on(s, Ledger::Home).is_allowed(s[ACCOUNTS_WORD])
}

// The words of a state that are in bounds.
#[derive(Clone, Copy)]
struct Bounded<'a> {
    words: &'a [u64; WORDS],
    ghost in_bounds: { InBounds words.now } by { Prim.hlevel props },
}

impl<'a> Bounded<'a> {
    // The words where they are.
    // Kept: an Option, as of Record::read: a TryFrom would need an error type that says no more than none does.
    fn of(words: &'a [u64; WORDS]) -> Option<Bounded<'a>>
        ensures answers { is_some result ≡ pair_bounds words.now }
        ensures keeps { IfSome result (λ b. b.words.now ≡ words.now) }
    {
        if !is_bounded(words) {
            return None;
        }
        Some(Bounded { words })
    }

    // Whether the balances of a ledger beyond its accounts are zero.
    fn is_zero_beyond(self, l: Ledger) -> bool
        ensures { result ≡ zero_beyond self.entry.words.now (ledger_byte l) }
    {
        let s = self.words;
        let accounts = accounts_on(s, l);
        are_zero(s, balances_word(l) + accounts, Ledger::ACCOUNTS - accounts)
    }

    // Each held record of a ledger by itself, and their numbers; where they hold, their index is made in place of an empty one.
    fn is_held<'b>(self, l: Ledger, index: &'b mut [u16; INDEXES]) -> bool
        requires { EmptyIndex index.old (index_on (ledger_byte l)) }
        ensures holds { result ≡ held_on self.entry.words.now (ledger_byte l) }
        ensures indexed { result ≡ true → IndexOf self.entry.words.now (records_start (ledger_byte l)) index.new
            (index_on (ledger_byte l)) (count_on self.entry.words.now (ledger_byte l)) }
        ensures others { Kept (index_on (ledger_byte l)) (index_on (ledger_byte l) + index_length) index.old index.new }
    {
        let s = self.words;
        let own = accounts_on(s, l) as u64;
        let other = accounts_on(s, l.counterpart()) as u64;
        let limits = HeadLimits::new(l, own, other);
        hold_indexed(
            s,
            records_word(l),
            count_on(s, l),
            index,
            index_start(l),
            limits,
        )
    }

    // The held records of a ledger, with the index of their numbers.
    fn held(self, l: Ledger, index: &'a [u16; INDEXES]) -> Held<'a>
        requires { IndexOf self.words.now (records_start (ledger_byte l)) index.now (index_on (ledger_byte l))
            (count_on self.words.now (ledger_byte l)) }
        ensures words { result.words.now ≡ self.entry.words.now }
        ensures records { (result.from ≡ records_start (ledger_byte l)) × (result.count ≡ count_on self.entry.words.now (ledger_byte l)) }
    {
        let words = self.words;
        Held {
            words,
            from: records_word(l),
            count: count_on(words, l),
            index,
            base: index_start(l),
        }
    }

    // What its records sent and received, where each of its arrivals has its sending on the other ledger.
    fn crossings(self, l: Ledger, index: &'a [u16; INDEXES]) -> Option<Flows>
        requires { IndexOf self.words.now (records_start (ledger_byte (counterpart l))) index.now (index_on (ledger_byte (counterpart l)))
            (count_on self.words.now (ledger_byte (counterpart l))) }
        ensures backed { is_some result ≡ backed_on self.entry.words.now (ledger_byte l) }
        ensures sums { IfSome result (λ flows. FlowsAt self.entry.words.now (records_start (ledger_byte l))
            (count_on self.entry.words.now (ledger_byte l)) flows) }
    {
        let o = l.counterpart();
        let others = self.held(o, index);
        others.crossings(o, records_word(l), count_on(self.words, l))
    }

    // Balances and what was sent, against the supply and what arrived.
    fn adds_up(self, home: Flows, far: Flows) -> bool
        requires { FlowsAt self.words.now (records_start 0) (count_on self.words.now 0) home
            × FlowsAt self.words.now (records_start 1) (count_on self.words.now 1) far }
        ensures { result ≡ sums_agree self.entry.words.now }
    {
        let s = self.words;
        let zero = Wide::default();
        let home_total = add_balances(
            s,
            balances_word(Ledger::Home),
            accounts_on(s, Ledger::Home),
            zero,
        );
        let balances = add_balances(
            s,
            balances_word(Ledger::Far),
            accounts_on(s, Ledger::Far),
            home_total,
        );
        let sent = balances.add_halves(
            home.sent.high + far.sent.high,
            home.sent.low + far.sent.low,
        );
        let received = zero.add(s[SUPPLY_WORD]).add_halves(
            home.received.high + far.received.high,
            home.received.low + far.received.low,
        );
        sent.high == received.high && sent.low == received.low
    }

    // All else that 3 asks of a state; where it holds, the indexes of its numbers are made in place of empty ones.
    fn is_accepted<'b>(self, index: &'b mut [u16; INDEXES]) -> bool
        requires { (l : ℕ) → l < 2 → EmptyIndex index.old (index_on l) }
        ensures accepts { result ≡ accepts_pair self.entry.words.now }
        ensures ready { result ≡ true → PairReady self.entry.words.now index.new }
    {
        if !self.is_zero_beyond(Ledger::Home) {
            return false;
        }
        if !self.is_zero_beyond(Ledger::Far) {
            return false;
        }
        if !self.is_held(Ledger::Home, index) {
            return false;
        }
        if !self.is_held(Ledger::Far, index) {
            return false;
        }
        let Some(home) = self.crossings(Ledger::Home, index) else {
            return false;
        };
        let Some(far) = self.crossings(Ledger::Far, index) else {
            return false;
        };
        self.adds_up(home, far)
    }
}

// All that 3 asks of a state; where it holds, the indexes of its numbers are made in place of empty ones.
pub fn is_accepted<'a, 'b>(s: &'a [u64], index: &'b mut [u16; INDEXES]) -> bool
    requires { (l : ℕ) → l < 2 → EmptyIndex index.old (index_on l) }
    ensures accepts { result ≡ accepts_pair s.now }
    ensures ready { result ≡ true → PairReady s.now index.new }
{
    let Some(words) = s.as_array::<WORDS>() else {
        return false;
    };
    let Some(bounded) = Bounded::of(words) else {
        return false;
    };
    bounded.is_accepted(index)
}

// ## Judging a record

// A record that was read, with its words.
#[derive(Clone, Copy)]
struct Item {
    words: Words,
    fields: Record,
    ghost read: { (formed words ≡ true) × (record_in words ≡ fields) } by { Prim.hlevel props },
}

// An accepted state, with the indexes of its numbers.
// Kept: a type in each core, and none of calls for both: its methods are the core's, and a crate adds none to another's type.
#[derive(Clone, Copy)]
struct Accepted<'a> {
    words: &'a [u64; WORDS],
    index: &'a [u16; INDEXES],
    ghost ready: { PairReady words.now index.now × InBounds words.now } by { Prim.hlevel props },
}

impl<'a> Accepted<'a> {
    // The held records of a ledger, with the index of their numbers.
    fn held(self, l: Ledger) -> Held<'a>
        ensures words { result.words.now ≡ self.entry.words.now }
        ensures records { (result.from ≡ records_start (ledger_byte l)) × (result.count ≡ count_on self.entry.words.now (ledger_byte l)) }
    {
        let bounded = Bounded { words: self.words };
        bounded.held(l, self.index)
    }

    // 25 or 31.
    fn last_refusal(self, item: Item) -> Result<(), Refusal>
        ensures { refused_by result ≡ last_refusal (pair_view_of self.entry.words.now).pair item.fields item.fields.kind }
    {
        let r = item.fields;
        let l = r.kind.ledger();
        if is_receiving(r.kind) {
            let o = l.counterpart();
            let backed = self.held(o).is_backed(o, item.words);
            return refuse_if(!backed, Refusal::NotSent);
        }
        let s = self.words;
        funds_refusal(
            s,
            balances_word(l),
            accounts_on(s, l),
            tariff_on(s, l).rate,
            r,
        )
    }

    // 22, 51 and 23 to 41 in order.
    fn judge(self, item: Item) -> Result<(), Refusal>
        ensures { refused_by result ≡ pair_judge capacity (pair_view_of self.entry.words.now).pair (Read item.fields) }
    {
        let r = item.fields;
        let kind = r.kind;
        let held = self.held(kind.ledger());
        let senders = accounts_on(self.words, kind.sender_ledger());
        let receivers = accounts_on(self.words, kind.receiver_ledger());
        let last = self.last_refusal(item);
        let full = refuse_if(Ledger::CAPACITY <= held.count, Refusal::TableFull);
        let arrival = is_receiving(kind);
        let used = held.is_used(arrival, r.number);
        first_refusals(senders, receivers, r, used, first_refusal(last, full))
    }
}

// The refusals of a record that was read, 22, 51 and 23 to 41 in order.
// Kept: words, record and index side by side, as its requires asked; Accepted and Item are its own types, which no caller can make.
pub fn judge<'a>(
    s: &'a [u64; WORDS],
    index: &'a [u16; INDEXES],
    w: Words,
    r: Record,
) -> Result<(), Refusal>
    requires { PairReady s.now index.now × (formed w ≡ true) × (record_in w ≡ r) }
    ensures { refused_by result ≡ pair_judge capacity (pair_view_of s.now).pair (Read r) }
{
    let accepted = Accepted { words: s, index };
    accepted.judge(Item {
        words: w,
        fields: r,
    })
}

// ## A passed record

// All stores of a passed record.
fn pass(state: &mut [u64; WORDS], item: Item)
    requires { (accepts_pair state.old ≡ true) × (pair_judge capacity (pair_view_of state.old).pair (Read item.fields) ≡ 0) }
    ensures { state.new ≡ pair_with state.old item.words item.fields (ledger_byte (ledger_of item.fields.kind)) }
{
    let l = item.fields.kind.ledger();
    let count = count_on(state, l);
    let tariff = tariff_on(state, l);
    store(
        state,
        balances_word(l),
        records_word(l) + 4 * count,
        tariff,
        item.words,
        item.fields,
    );
    state[COUNTS_WORD + ledger_index(l)] = count as u64 + 1;
}

// ## The opening

// An opening with the balances of each ledger and home's tariff, in words of zeros: 1, 2 or 52, and no word is stored.
pub fn open<'a, 'b>(
    homes: &'a [u64],
    fars: &'a [u64],
    tariff: Tariff,
    state: &'b mut [u64; WORDS],
) -> Result<(), Refusal>
    requires { state.old ≡ pair_zero_words }
    ensures answers { refused_by result ≡ pair_opening_refusal tariff homes.now fars.now }
    ensures leaves { state.new ≡ unless_refused (pair_opening_refusal tariff homes.now fars.now)
        (pair_opened_words tariff homes.now fars.now) pair_zero_words }
{
    let supply = pair_opening(homes, fars, tariff)?;
    copy_numbers(homes, BALANCES_WORD, state);
    copy_numbers(fars, balances_word(Ledger::Far), state);
    state[SUPPLY_WORD] = supply;
    state[ACCOUNTS_WORD] = homes.len() as u64;
    state[ACCOUNTS_WORD + ledger_index(Ledger::Far)] = fars.len() as u64;
    state[RATE_WORD] = tariff.rate;
    state[CHARGE_ACCOUNT_WORD] = tariff.account;
    Ok(())
}

// ## The calls

// The pair validator, for the calls.
pub struct PairCore;

impl Core for PairCore {
    type Words = [u64; WORDS];

    type Index = [u16; INDEXES];

    ghost checker = { pair_words_checker };

    ghost Empty = { λ index. (length index ≡ 2 * index_length) × ((l : ℕ) → l < 2 → EmptyIndex index (index_on l)) };

    ghost Ready = { PairReady };

    // Laid where it is called, so that the indexes are made in place.
    #[inline(always)]
    fn empty_index() -> [u16; INDEXES] {
        [0; INDEXES]
    }

    fn is_accepted(words: &[u64; WORDS], index: &mut [u16; INDEXES]) -> bool {
        is_accepted(words, index)
    }

    // Its refusal, 21 first.
    fn step(
        words: &mut [u64; WORDS],
        index: &mut [u16; INDEXES],
        bytes: &[u8],
    ) -> Result<(), Refusal> {
        let Some(fields) = Record::read(bytes) else {
            return Err(Refusal::RecordForm);
        };
        let item = Item {
            words: Words::of(bytes),
            fields,
        };
        let accepted = Accepted {
            words: &*words,
            index: &*index,
        };
        accepted.judge(item)?;
        let l = fields.kind.ledger();
        let count = count_on(words, l);
        pass(words, item);
        add_number(index, index_start(l), count, fields.number);
        Ok(())
    }
}

// A call with one record, on a state lent: 3, 21, 22, 51 and 23 to 41. A refusal leaves every word as it was.
// Kept: docs/DECISIONS.md (33) and the exports have take and take_list of each core by these names, one line each over calls.
pub fn take(state: &mut [u64; WORDS], bytes: &[u8]) -> Answer
    ensures answers { answer_of result ≡ (call pair_words_checker state.old (one bytes.now)).answer }
    ensures leaves { state.new ≡ (call pair_words_checker state.old (one bytes.now)).state }
{
    calls::take::<PairCore>(state, bytes)
}

// A call with a list of records, on a state lent: 3, then of each record 21, 22, 51 and 23 to 41. A refusal has its record's index, and
// leaves every word as it was.
pub fn take_list(state: &mut [u64; WORDS], bytes: &[u8]) -> Answer
    ensures answers { answer_of result ≡ (call pair_words_checker state.old (list bytes.now)).answer }
    ensures leaves { state.new ≡ (call pair_words_checker state.old (list bytes.now)).state }
{
    calls::take_list::<PairCore>(state, bytes)
}
