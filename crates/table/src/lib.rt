// A ledger's table: held records of four words each, from a word of the state on, and the index of their numbers.
// Kept: words, a start and a count, and no slices: the layouts and PairReady cite records_from and IndexOf over a state's words.
#![tactic(auto)]

ghost use Rattle.std.specs.Prelude.{◌≡◌, ◌+◌, ◌-◌, ◌*◌, ◌/◌, ◌%◌, ◌^◌, ◌<◌, ◌≤◌, ℕ, Bool, List, true, not, ◌&&◌, length, if◌then◌else◌};
ghost use Rattle.std.specs.Prelude.{slice_index, slice_index_or, is_some, IfSome};
ghost use Rattle.ledgers.specs.Ledgers.{ledger_byte};
ghost use Rattle.ledgers.specs.Limits.{account_limit, capacity, max_amount};
ghost use Rattle.places.specs.Amounts.{credit_by, debit_by, payee_by};
ghost use Rattle.places.specs.NumberIndex.{Kept, chain_count};
ghost use Rattle.places.specs.OverPlaces.{all_at, any_at, apart_at};
ghost use Rattle.records.specs.Records.{reading_words};
ghost use Rattle.rules.specs.Lists.{lowered, raised};
ghost use Rattle.std.proofs.Props.{props};
ghost use Rattle.table.specs.Table.{accounts_by, may_hold, may_hold_at, number_at, words_at};
ghost use Rattle.table.specs.Table.{Indexed, LimitsOf};
ghost use Rattle.table.specs.Sought.{sent_numbered, used_numbered};
ghost use Rattle.table.specs.Table.{EmptyIndex, FlowsAt, IndexOf, amount_at, arrival_in, backed_at, backed_by, flow_at, numbered_at};
ghost use Rattle.table.specs.Table.{sending_head, sent_at, shared_at, stored, used_at, with_number, with_words};
ghost use Rattle.tariffs.specs.Tariffs.{parts};

use ledgers::{Kind, Ledger};
use places::{CHAINS, Flows, HALF, charge_by, given_by, low_bits, next_place, payee_by, taken_by};
use records::{FIRST_BYTE, FIRST_TWO_BYTES, Record, Words};
use tariffs::Tariff;

// The bytes of the kinds, as a head has them.
// Kept: a head's kind is told as a number: arrival_in, flow_by and backed_by speak of any word, and no Kind has another byte.
const LOCAL: u64 = Kind::LOCAL as u64;

const SENDING: u64 = Kind::SENDING as u64;

const RECEIVING: u64 = Kind::RECEIVING as u64;

// ## Refusal 3 of one record

// The words of the record at a place.
pub fn words_at(words: &[u64], from: usize, i: usize) -> Words
    requires { from + 4 * i + 4 ≤ length words.now }
    ensures { result ≡ words_at words.now from i }
{
    let at = from + 4 * i;
    Words {
        head: words[at],
        number: words[at + 1],
        amount: words[at + 2],
        tail: words[at + 3],
    }
}

// The kind of a head, of four.
fn kind_in(head: u64) -> usize
    ensures { result ≡ head / 72057594037927936 % 4 }
{
    (head / FIRST_BYTE % 4) as usize
}

// The receiver of a head, with its zero bytes before it.
fn receiver_in(head: u64) -> u64
    ensures { result ≡ head % 65536 * 65536 + head / 65536 % 65536 }
{
    head % 65536 * 65536 + head / 65536 % 65536
}

// Of each kind the limits of a head of a ledger, by its own number of accounts and by the other ledger's.
#[derive(Clone, Copy)]
pub struct HeadLimits {
    pub ledger: Ledger,
    pub own: u64,
    pub other: u64,
    // Kept: three arrays by kind, which only new and may_hold see; a struct of three for each kind has the same twelve numbers.
    // The head with no accounts yet.
    bases: [u64; 4],
    // How far above it a head is whose sender is the first account that is not open.
    senders: [u64; 4],
    // The first receiver's account that is not open.
    receivers: [u64; 4],
    ghost made: { LimitsOf ledger own other bases senders receivers } by { Prim.hlevel props },
}

impl HeadLimits {
    // Those of a ledger, where it and the other one have so many accounts.
    pub fn new(ledger: Ledger, own: u64, other: u64) -> HeadLimits
        requires { (own ≤ account_limit) × (other ≤ account_limit) }
        ensures { (result.ledger ≡ ledger) × (result.own ≡ own) × (result.other ≡ other) }
    {
        let byte = u64::from(u8::from(ledger)) * FIRST_TWO_BYTES;
        HeadLimits {
            ledger,
            own,
            other,
            bases: [
                0,
                LOCAL * FIRST_BYTE + byte,
                SENDING * FIRST_BYTE + byte,
                RECEIVING * FIRST_BYTE + byte,
            ],
            senders: [0, own * HALF, own * HALF, other * HALF],
            receivers: [0, own, other, own],
        }
    }

    // Whether the ledger may hold the record in words. A head below the limit above the base of its kind, counted round 2^64, has a right
    // kind, the ledger's byte and an open sender; below the other limit it has an open receiver and zero bytes.
    fn may_hold(&self, w: Words) -> bool
        ensures { result ≡ may_hold self.now.ledger (accounts_by self.now.ledger self.now.own self.now.other) (reading_words w) }
    {
        let head = w.head;
        let kind = kind_in(head);
        if self.senders[kind] <= head.wrapping_sub(self.bases[kind]) {
            return false;
        }
        if self.receivers[kind] <= receiver_in(head) {
            return false;
        }
        if w.amount == 0 {
            return false;
        }
        if Record::MAX_AMOUNT < w.amount {
            return false;
        }
        w.tail == FIRST_BYTE
    }
}

// ## Numbers

// The elements of the index of a ledger's numbers: the heads of the chains, then the places.
pub const INDEX: usize = CHAINS + Ledger::CAPACITY;

// The places of a chain that are looked at before all records are scanned instead.
const LOOKS: usize = 4;

// Whether the record with a head is an arrival: of a kind that is neither a local's nor a sending's, in a held record an arrival's.
fn is_arrival(head: u64) -> bool
    ensures { result ≡ arrival_in head }
{
    let kind = head / FIRST_BYTE % 256;
    kind != LOCAL && kind != SENDING
}

// What is looked for among records, which only those with the number looked for have.
trait Sought: Copy {
    // The number, and whether the record at a place has what is looked for.
    ghost number: { Self → ℕ };

    ghost has: { Self → List ℕ → ℕ → ℕ → Bool };

    // The number.
    fn number(self) -> u64
        ensures { result ≡ number self };

    // Whether the record at a place has it.
    fn is_at(self, words: &[u64], from: usize, i: usize) -> bool
        requires { from + 4 * i + 4 ≤ length words.now }
        ensures { result ≡ has self words.now from i };

    // What has it has the number.
    ghost numbered: { (x : Self) (s : List ℕ) (from i : ℕ) → has x s from i ≡ true → number x ≡ number_at s from i };
}

// A number, of an arrival or of none: the numbers of arrivals are counted apart.
#[derive(Clone, Copy)]
struct Used {
    arrival: bool,
    number: u64,
}

impl Sought for Used {
    ghost number = { λ x. x.number };

    ghost has = { λ x. used_at x.arrival x.number };

    ghost numbered = { λ x. used_numbered x.arrival x.number };

    // Kept: number is a line in each impl, since a trait has no fields.
    fn number(self) -> u64 {
        self.number
    }

    fn is_at(self, words: &[u64], from: usize, i: usize) -> bool {
        let at = from + 4 * i;
        self.number == words[at + 1] && self.arrival == is_arrival(words[at])
    }
}

// The number, the head and the amount of a record.
#[derive(Clone, Copy)]
struct Sent {
    number: u64,
    head: u64,
    amount: u64,
}

impl Sought for Sent {
    ghost number = { λ x. x.number };

    ghost has = { λ x. sent_at x.number x.head x.amount };

    ghost numbered = { λ x. sent_numbered x.number x.head x.amount };

    fn number(self) -> u64 {
        self.number
    }

    fn is_at(self, words: &[u64], from: usize, i: usize) -> bool {
        let at = from + 4 * i;
        self.number == words[at + 1] && self.head == words[at] && self.amount == words[at + 2]
    }
}

// Whether one of four records from place i on has the number, in whichever class.
// Kept: four comparisons and no loop: with a branch for each place the scan's time missed its bar (docs/SPEED.md).
fn numbered_in_four(words: &[u64], from: usize, i: usize, x: u64) -> bool
    requires { from + 4 * i + 16 ≤ length words.now }
    ensures { result ≡ any_at (numbered_at x words.now from) i 4 }
{
    let at = from + 4 * i;
    let first = (x == words[at + 1]) | (x == words[at + 5]);
    let last = (x == words[at + 9]) | (x == words[at + 13]);
    first | last
}

// Whether one of the records from place k on, before place n, has what is looked for.
fn scanned_from<S: Sought>(words: &[u64], from: usize, k: usize, n: usize, sought: S) -> bool
    requires { (from + 4 * n ≤ length words.now) × (k ≤ n) }
    ensures { result ≡ any_at (S.has sought words.now from) k (n - k) }
{
    for i in k..n {
        if sought.is_at(words, from, i) {
            return true;
        }
    }
    false
}

// Whether one of four records from place i on has it: most often none has even the number.
fn is_in_four<S: Sought>(words: &[u64], from: usize, i: usize, sought: S) -> bool
    requires { from + 4 * i + 16 ≤ length words.now }
    ensures { result ≡ any_at (S.has sought words.now from) i 4 }
{
    if !numbered_in_four(words, from, i, sought.number()) {
        return false;
    }
    scanned_from(words, from, i, i + 4, sought)
}

// Whether one of n records has it, by a scan of four places at a time.
fn scanned<S: Sought>(words: &[u64], from: usize, n: usize, sought: S) -> bool
    requires { from + 4 * n ≤ length words.now }
    ensures { result ≡ any_at (S.has sought words.now from) 0 n }
{
    // Kept: a for over n / 4 was tried: 1.4 of this time (the bar is 1.05) where all numbers share their low bits.
    let mut i = 0;
    while i + 3 < n {
        if is_in_four(words, from, i, sought) {
            return true;
        }
        i += 4;
    }
    scanned_from(words, from, i, n, sought)
}

// Whether one of so many records has what is looked for, by a walk down the chain of its number.
// Kept: five values and no Held, in a call of its own: laid into loops that seldom need it, it took up to 1.4 of the time (the bar is 1.05).
#[inline(never)]
fn walk<S: Sought>(
    words: &[u64],
    from: usize,
    count: usize,
    index: &[u16],
    base: usize,
    sought: S,
) -> bool
    requires { Indexed words.now from count index.now base }
    ensures { result ≡ any_at (S.has sought words.now from) 0 count }
{
    let mut at = usize::from(index[base + low_bits(sought.number())]);
    for _ in 0..LOOKS {
        if at == 0 {
            return false;
        }
        let j = at - 1;
        if sought.is_at(words, from, j) {
            return true;
        }
        at = usize::from(index[base + CHAINS + j]);
    }
    scanned(words, from, count, sought)
}

// The same walk, told to the compiler as one that is seldom made, so that the loops around it keep what they need in registers; it is not
// told so of the walk itself, whose scan would then be laid out for size.
#[cold]
#[inline(never)]
fn seldom_walk<S: Sought>(
    words: &[u64],
    from: usize,
    count: usize,
    index: &[u16],
    base: usize,
    sought: S,
) -> bool
    requires { Indexed words.now from count index.now base }
    ensures { result ≡ any_at (S.has sought words.now from) 0 count }
{
    walk(words, from, count, index, base, sought)
}

// The records that a ledger holds, so many from a word on, and the index of their numbers from an element on. Its methods are laid where
// they are called: a pointer to it in memory would have a state that is handed in by value copied once more.
#[derive(Clone, Copy)]
pub struct Held<'a> {
    pub words: &'a [u64],
    pub from: usize,
    pub count: usize,
    pub index: &'a [u16],
    pub base: usize,
    pub ghost indexed: { Indexed words.now from count index.now base } by { Prim.hlevel props },
}

impl<'a> Held<'a> {
    // Whether one of the records has what is looked for, by a walk down the chain of its number.
    #[inline(always)]
    fn walked<S: Sought>(self, sought: S) -> bool
        ensures { result ≡ any_at (S.has sought self.entry.words.now self.entry.from) 0 self.entry.count }
    {
        seldom_walk(
            self.words, self.from, self.count, self.index, self.base, sought,
        )
    }

    // Whether one of the records has the number, among arrivals or among locals and sendings. Most often its chain is empty.
    #[inline(always)]
    pub fn is_used(self, arrival: bool, number: u64) -> bool
        ensures { result ≡ any_at (used_at arrival number self.entry.words.now self.entry.from) 0 self.entry.count }
    {
        if self.index[self.base + low_bits(number)] == 0 {
            return false;
        }
        self.walked(Used { arrival, number })
    }
}

// The number of the record at place n joins the index of those before it.
pub fn add_number(index: &mut [u16], base: usize, n: usize, x: u64)
    requires { (base + chain_count + n < length index.old) × (n < capacity) }
    ensures { index.new ≡ with_number index.old base n x }
{
    let h = base + low_bits(x);
    index[base + CHAINS + n] = index[h];
    index[h] = next_place(n);
}

// Whether none of n records has the number; where so, it joins their index as that of the next place, whose element is still zero.
fn add_if_unused<'a, 'b>(
    words: &'a [u64],
    from: usize,
    n: usize,
    index: &'b mut [u16],
    base: usize,
    used: Used,
) -> bool
    requires { Indexed words.now from n index.old base × (base + chain_count + n < length index.old) × (n < capacity)
        × (slice_index index.old (base + chain_count + n) ≡ 0) }
    ensures answers { result ≡ not (any_at (used_at used.arrival used.number words.now from) 0 n) }
    ensures leaves { index.new ≡ (if result then with_number index.old base n used.number else index.old) }
{
    let h = base + low_bits(used.number);
    if index[h] == 0 {
        index[h] = next_place(n); // the first of its chain
        return true;
    }
    let held = Held {
        words,
        from,
        count: n,
        index: &*index,
        base,
    };
    if held.walked(used) {
        return false;
    }
    add_number(index, base, n, used.number);
    true
}

// Whether a ledger with these limits may hold each of n records and no two of a class share a number; where so, their index is made in
// place of an empty one.
pub fn hold_indexed<'a, 'b>(
    words: &'a [u64],
    from: usize,
    n: usize,
    index: &'b mut [u16],
    base: usize,
    limits: HeadLimits,
) -> bool
    requires { (from + 4 * n ≤ length words.now) × (base + chain_count + n ≤ length index.old) × (n ≤ capacity)
        × EmptyIndex index.old base }
    ensures holds { result ≡ (all_at (may_hold_at words.now from limits.ledger
        (accounts_by limits.ledger limits.own limits.other)) 0 n && apart_at (shared_at words.now from) 0 n) }
    ensures indexed { result ≡ true → IndexOf words.now from index.new base n }
    ensures others { Kept base (base + chain_count + n) index.old index.new }
{
    for i in 0..n {
        let w = words_at(words, from, i);
        if !limits.may_hold(w) {
            return false;
        }
        let used = Used {
            arrival: is_arrival(w.head),
            number: w.number,
        };
        if !add_if_unused(words, from, i, index, base, used) {
            return false;
        }
    }
    true
}

// ## Arrivals and their sendings

// The head of an arrival's sending, by the ledger that holds the sending and the arrival's own head.
pub fn sending_head(o: Ledger, head: u64) -> u64
    ensures { result ≡ sending_head (ledger_byte o) head }
{
    SENDING * FIRST_BYTE + u64::from(u8::from(o)) * FIRST_TWO_BYTES + head % FIRST_TWO_BYTES
}

// Arrivals among other records, and their sendings among these.
impl<'a> Held<'a> {
    // Whether one of the records has a number, a head and an amount.
    #[inline(always)]
    pub fn is_sent(self, number: u64, head: u64, amount: u64) -> bool
        ensures { result ≡ any_at (sent_at number head amount self.entry.words.now self.entry.from) 0 self.entry.count }
    {
        self.walked(Sent {
            number,
            head,
            amount,
        })
    }

    // Whether words are of no arrival, or its sending is among the records.
    #[inline(always)]
    pub fn is_backed(self, o: Ledger, w: Words) -> bool
        ensures { result ≡ backed_by self.entry.words.now (ledger_byte o) self.entry.from self.entry.count w }
    {
        if w.head / FIRST_BYTE % 256 != RECEIVING {
            return true;
        }
        let head = sending_head(o, w.head);
        self.is_sent(w.number, head, w.amount)
    }

    // Whether words are at once seen to be of no arrival, or its sending to be the first of its number's chain, as it is most often.
    #[inline(always)]
    fn is_backed_first(self, o: Ledger, w: Words) -> bool
        ensures { result ≡ true → backed_by self.entry.words.now (ledger_byte o) self.entry.from self.entry.count w ≡ true }
    {
        let kind = w.head / FIRST_BYTE % 256;
        if kind != RECEIVING {
            return true;
        }
        let at = usize::from(self.index[self.base + low_bits(w.number)]);
        if at == 0 {
            return false;
        }
        let sent = Sent {
            number: w.number,
            head: sending_head(o, w.head),
            amount: w.amount,
        };
        sent.is_at(self.words, self.from, at - 1)
    }

    // What was sent and received with the record at a place of others too, where it is no arrival or has its sending among these. Each kind
    // leaves by itself, so that it is told once.
    #[inline(always)]
    fn crossed(self, o: Ledger, from: usize, i: usize, flows: Flows) -> Option<Flows>
        requires { (from + 4 * i + 4 ≤ length self.words.now) × (flows.sent.high < 2 ^ 63) × (flows.sent.low < 2 ^ 63)
            × (flows.received.high < 2 ^ 63) × (flows.received.low < 2 ^ 63) }
        ensures backed { is_some result ≡ backed_at self.entry.words.now from (ledger_byte o) self.entry.from self.entry.count i }
        ensures fits { amount_at self.entry.words.now from i < 2 ^ 64 }
        ensures sent { IfSome result (λ more. (more.sent.high ≡ flows.sent.high + flow_at 2 self.entry.words.now from i / 2 ^ 32)
            × (more.sent.low ≡ flows.sent.low + flow_at 2 self.entry.words.now from i % 2 ^ 32)) }
        ensures received { IfSome result (λ more. (more.received.high ≡ flows.received.high + flow_at 3 self.entry.words.now from i / 2 ^ 32)
            × (more.received.low ≡ flows.received.low + flow_at 3 self.entry.words.now from i % 2 ^ 32)) }
    {
        let w = words_at(self.words, from, i);
        let byte = w.head / FIRST_BYTE % 256;
        if byte == SENDING {
            return Some(Flows {
                sent: flows.sent.add(w.amount),
                received: flows.received,
            });
        }
        if byte != RECEIVING {
            return Some(flows);
        }
        if !self.is_backed_first(o, w) {
            let v = words_at(self.words, from, i); // read again, so that w need not stand in memory for a rare case
            if !self.is_backed(o, v) {
                return None;
            }
        }
        Some(Flows {
            sent: flows.sent,
            received: flows.received.add(w.amount),
        })
    }

    // What m other records, from a word on, sent and received, where each arrival among them has its sending among these.
    #[inline(always)]
    pub fn crossings(self, o: Ledger, from: usize, m: usize) -> Option<Flows>
        requires { (from + 4 * m ≤ length self.words.now) × (m ≤ capacity) }
        ensures backed { is_some result
            ≡ all_at (backed_at self.entry.words.now from (ledger_byte o) self.entry.from self.entry.count) 0 m }
        ensures sums { IfSome result (λ flows. FlowsAt self.entry.words.now from m flows) }
    {
        let mut flows = Flows::default();
        for i in 0..m {
            flows = self.crossed(o, from, i, flows)?;
        }
        Some(flows)
    }
}

// ## A passed record

// An amount taken from one word, and one given to another.
#[tactic(auto, unfolding(rules::specs::Lists::lowered, rules::specs::Lists::raised))]
fn move_amounts(words: &mut [u64], from: usize, to: usize, taken: u64, given: u64)
    requires { (from < length words.old) × (to < length words.old) × (taken ≤ slice_index words.old from)
        × (slice_index (lowered words.old from taken) to + given < 2 ^ 64) }
    ensures { words.new ≡ raised (lowered words.old from taken) to given }
{
    words[from] = words[from] - taken;
    words[to] = words[to] + given;
}

// A record's words from word `at` on.
fn put_words(words: &mut [u64], at: usize, w: Words)
    requires { at + 4 ≤ length words.old }
    ensures { words.new ≡ with_words words.old at w }
{
    words[at] = w.head;
    words[at + 1] = w.number;
    words[at + 2] = w.amount;
    words[at + 3] = w.tail;
}

// All that a passed record writes to its ledger: what it takes and gives in the balances, a sending's charge too, and its own words
// from word `at` on.
pub fn store(words: &mut [u64], balances: usize, at: usize, tariff: Tariff, w: Words, r: Record)
    requires { (balances + r.sender < length words.old)
        × (balances + payee_by tariff.account r.kind r.receiver < length words.old) × (at + 4 ≤ length words.old)
        × (debit_by tariff.rate r.kind r.amount ≤ slice_index words.old (balances + r.sender))
        × (slice_index_or (lowered words.old (balances + r.sender) (debit_by tariff.rate r.kind r.amount))
        (balances + payee_by tariff.account r.kind r.receiver) 0 + credit_by tariff.rate r.kind r.amount < 2 ^ 64)
        × (tariff.rate ≤ parts) × (r.amount ≤ max_amount) }
    ensures { words.new ≡ stored tariff words.old balances at w r }
{
    let kind = r.kind;
    let charge = charge_by(tariff.rate, kind, r.amount);
    let from = balances + usize::from(r.sender);
    let to = balances + payee_by(tariff.account, kind, r.receiver);
    let taken = taken_by(kind, r.amount) + charge;
    let given = given_by(kind, r.amount) + charge;
    move_amounts(words, from, to, taken, given);
    put_words(words, at, w);
}
