// The library that makers link from C, Rust and what can call C: the published calls, and those of both cores in place, under the C calling
// convention. Nothing is judged here. An enum does not cross, so that an answer goes as its number, whether it passed, and its place.
// The crate moatbetony_c exports each function under its name, and include/moatbetony.h declares all of it.
// Kept: no enum, list or generic crosses to C (include/moatbetony.h): numbers, counts and one of each for each validator stand here.
#![tactic(auto)]

ghost use Rattle.std.specs.Prelude.{◌+◌, ◌*◌, ◌≡◌, MatchResult, drop, length, take};
ghost use Rattle.answers.specs.Answers.{answer, answer_of, unless_refused, Passed, Refused as RefusedWith};
ghost use Rattle.answers.specs.Balances.{balance_told};
ghost use Rattle.answers.specs.Refusals.{refusal_number};
ghost use Rattle.home_core.specs.Layout.{accepts_home, home_words_checker};
ghost use Rattle.home_validator.specs.Figures.{home_balance_of, home_figures_of, home_places_of};
ghost use Rattle.home_validator.specs.Figures.{figures_told as home_figures_told, places_told as home_places_told};
ghost use Rattle.home_validator.specs.State.{home_checker, home_opened_state, home_zero_state};
ghost use Rattle.journal_blocks.specs.Checked.{block_refusal};
ghost use Rattle.journal_reader.specs.Judged.{record_refusal, part_of, count_of, count_told, opening_of, opening_told};
ghost use Rattle.journal_writer.specs.Written.{write_refusal, written};
ghost use Rattle.moatbetony.specs.Plain.{library_version, state_version, plain_answer, plain_pair_outcome, plain_pair_figures};
ghost use Rattle.moatbetony.specs.Plain.{plain_home_outcome, plain_home_figures, plain_balance, plain_record, plain_encoded, plain_part};
ghost use Rattle.moatbetony.specs.Plain.{plain_count, plain_balances, plain_pair_places, plain_home_places, plain_tariff};
ghost use Rattle.moatbetony.specs.Plain.{plain_charge};
ghost use Rattle.tariffs.specs.Tariffs.{charge_told, told};
ghost use Rattle.pair_core.specs.Layout.{accepts_pair, pair_words_checker};
ghost use Rattle.pair_validator.specs.Figures.{pair_balance_of, pair_figures_of, pair_places_of};
ghost use Rattle.pair_validator.specs.Figures.{figures_told as pair_figures_told, places_told as pair_places_told};
ghost use Rattle.pair_validator.specs.State.{pair_checker, pair_opened_state, pair_zero_state};
ghost use Rattle.records.specs.Fields.{field_bytes};
ghost use Rattle.records.specs.Records.{reading};
ghost use Rattle.records.specs.Records.{Read};
ghost use Rattle.rules.specs.Calls.{call, one, list};
ghost use Rattle.rules.specs.HomeValidator.{home_opening_refusal};
ghost use Rattle.rules.specs.PairValidator.{pair_opening_refusal};
ghost use Rattle.sha256.specs.Sha256.{sha256};

use answers::{Answer, Outcome, Refusal, Refused};
use home_validator::HomeValidator;
use home_validator::asked::HomeFigures;
use journal_reader::Opening;
use ledgers::Ledger;
use pair_validator::PairValidator;
use pair_validator::asked::{PairFigures, PairPlaces};
use records::{Record, field_bytes};
use tariffs::Tariff;

// ## Versions

// The library's version: major times 10,000, minor times 100 and patch.
#[unsafe(no_mangle)]
pub extern "C" fn moatbetony_version() -> u32
    ensures { result ≡ library_version }
{
    601
}

// The version of the layout of both states. A stored state is taken up only under the version that it was stored with.
#[unsafe(no_mangle)]
pub extern "C" fn moatbetony_state_version() -> u32
    ensures { result ≡ state_version }
{
    3 // of the states
}

// ## Answers

// An answer: 0 for passed or a refusal's number; 1 for passed, which a struct of zeros does not have, and 0 for a refusal; its place.
#[repr(C)]
#[derive(Clone, Copy)]
pub struct PlainAnswer {
    pub number: u32,
    pub passed: u32,
    pub place: u64,
}

// A refusal and its place, as they cross.
impl From<Refused> for PlainAnswer {
    ghost from_gives = { λ r p. p ≡ plain_answer (RefusedWith (refusal_number r.refusal) r.place) };

    fn from(refused: Refused) -> PlainAnswer {
        PlainAnswer {
            number: refused.refusal.into(),
            passed: 0,
            place: refused.place,
        }
    }
}

// A refusal of a call that has no place but 0.
impl From<Refusal> for PlainAnswer {
    ghost from_gives = { λ r p. p ≡ plain_answer (answer (refusal_number r) 0) };

    fn from(refusal: Refusal) -> PlainAnswer {
        Refused { refusal, place: 0 }.into()
    }
}

// An answer, as it crosses.
impl From<Answer> for PlainAnswer {
    ghost from_gives = { λ a p. p ≡ plain_answer (answer_of a) };

    fn from(answer: Answer) -> PlainAnswer {
        match answer {
            Ok(()) => PlainAnswer {
                number: 0,
                passed: 1,
                place: 0,
            },
            Err(refused) => refused.into(),
        }
    }
}

// What a call came to, taken apart: its answer, and beside it what it hands out, or what stands beside a refusal instead.
fn apart<T: Copy, E: Into<PlainAnswer>>(called: Result<T, E>, instead: T) -> (PlainAnswer, T)
    ensures answers { MatchResult called (λ _. result.0 ≡ plain_answer Passed) (λ e. E.converts e result.0) }
    ensures hands_out { MatchResult called (λ x. result.1 ≡ x) (λ _. result.1 ≡ instead) }
{
    match called {
        Ok(value) => (Ok(()).into(), value),
        Err(refused) => (refused.into(), instead),
    }
}

// ## The pair validator

// An answer, and the state to go on with.
#[repr(C)]
#[derive(Clone, Copy)]
pub struct PlainPairOutcome {
    pub answer: PlainAnswer,
    pub state: PairValidator,
}

// An outcome of the pair validator, as it crosses.
impl From<Outcome<PairValidator>> for PlainPairOutcome {
    ghost from_gives = { λ o p. p ≡ plain_pair_outcome (answer_of o.answer) o.state };

    fn from(pair: Outcome<PairValidator>) -> PlainPairOutcome {
        PlainPairOutcome {
            answer: pair.answer.into(),
            state: pair.state,
        }
    }
}

// An answer, the totals of both ledgers and what is in flight.
#[repr(C)]
#[derive(Clone, Copy)]
pub struct PlainPairFigures {
    pub answer: PlainAnswer,
    pub home: u64,
    pub far: u64,
    pub flight: u64,
}

// Its figures, zeros beside a refusal.
impl From<Result<PairFigures, Refusal>> for PlainPairFigures {
    ghost from_gives = { λ r p. p ≡ plain_pair_figures (pair_figures_told r) };

    fn from(told: Result<PairFigures, Refusal>) -> PlainPairFigures {
        let none = PairFigures {
            home: 0,
            far: 0,
            flight: 0,
        };
        let (answer, both) = apart(told, none);
        PlainPairFigures {
            answer,
            home: both.home,
            far: both.far,
            flight: both.flight,
        }
    }
}

// An answer, and the places left on both ledgers.
#[repr(C)]
#[derive(Clone, Copy)]
pub struct PlainPairPlaces {
    pub answer: PlainAnswer,
    pub home: u64,
    pub far: u64,
}

// Its places left, zeros beside a refusal.
impl From<Result<PairPlaces, Refusal>> for PlainPairPlaces {
    ghost from_gives = { λ r p. p ≡ plain_pair_places (pair_places_told r) };

    fn from(told: Result<PairPlaces, Refusal>) -> PlainPairPlaces {
        let (answer, left) = apart(told, PairPlaces { home: 0, far: 0 });
        PlainPairPlaces {
            answer,
            home: left.home,
            far: left.far,
        }
    }
}

// An answer, and the balance of an account.
#[repr(C)]
#[derive(Clone, Copy)]
pub struct PlainBalance {
    pub answer: PlainAnswer,
    pub balance: u64,
}

// A balance, 0 beside a refusal.
impl From<Result<u64, Refusal>> for PlainBalance {
    ghost from_gives = { λ r p. p ≡ plain_balance (balance_told r) };

    fn from(told: Result<u64, Refusal>) -> PlainBalance {
        let (answer, balance) = apart(told, 0);
        PlainBalance { answer, balance }
    }
}

// An opening, with the rate and the account of the charge on home's sendings.
#[unsafe(no_mangle)]
pub extern "C" fn moatbetony_pair_open<'a>(
    home_balances: &'a [u64],
    far_balances: &'a [u64],
    rate: u64,
    charge_account: u64,
) -> PlainPairOutcome
    ensures { result ≡ plain_pair_outcome (answer (pair_opening_refusal (plain_tariff rate charge_account)
        home_balances.now far_balances.now) 0)
        (unless_refused (pair_opening_refusal (plain_tariff rate charge_account) home_balances.now far_balances.now)
        (pair_opened_state (plain_tariff rate charge_account) home_balances.now far_balances.now)
        pair_zero_state) }
{
    let tariff = Tariff {
        rate,
        account: charge_account,
    };
    PairValidator::open(home_balances, far_balances, tariff).into()
}

// A call with one record.
#[tactic(auto, using(pair_validator::proofs::Words::state_called))]
#[unsafe(no_mangle)]
pub extern "C" fn moatbetony_pair_check_record(
    mut state: PairValidator,
    bytes: &[u8],
) -> PlainPairOutcome
    ensures { result ≡ plain_pair_outcome (call pair_checker state (one bytes.now)).answer
        (call pair_checker state (one bytes.now)).state }
{
    let answer = PlainAnswer::from(pair_core::take(&mut state.words, bytes));
    PlainPairOutcome {
        answer,
        state, // after the record of the pair validator
    }
}

// A call with a list.
#[tactic(auto, using(pair_validator::proofs::Words::state_called))]
#[unsafe(no_mangle)]
pub extern "C" fn moatbetony_pair_check_list(
    mut state: PairValidator,
    bytes: &[u8],
) -> PlainPairOutcome
    ensures { result ≡ plain_pair_outcome (call pair_checker state (list bytes.now)).answer
        (call pair_checker state (list bytes.now)).state }
{
    let answer = PlainAnswer::from(pair_core::take_list(&mut state.words, bytes));
    PlainPairOutcome {
        answer,
        state, // after the list of the pair validator
    }
}

// A call with one record, on a state lent. A refusal leaves every word as it was.
#[unsafe(no_mangle)]
pub extern "C" fn moatbetony_pair_take(
    state: &mut [u64; pair_core::WORDS],
    bytes: &[u8],
) -> PlainAnswer
    ensures answers { result ≡ plain_answer (call pair_words_checker state.old (one bytes.now)).answer }
    ensures leaves { state.new ≡ (call pair_words_checker state.old (one bytes.now)).state }
{
    pair_core::take(state, bytes).into()
}

// A call with a list, on a state lent. A refusal leaves every word as it was.
#[unsafe(no_mangle)]
pub extern "C" fn moatbetony_pair_take_list(
    state: &mut [u64; pair_core::WORDS],
    bytes: &[u8],
) -> PlainAnswer
    ensures answers { result ≡ plain_answer (call pair_words_checker state.old (list bytes.now)).answer }
    ensures leaves { state.new ≡ (call pair_words_checker state.old (list bytes.now)).state }
{
    pair_core::take_list(state, bytes).into()
}

// The figures of a state.
#[unsafe(no_mangle)]
pub extern "C" fn moatbetony_pair_figures(state: PairValidator) -> PlainPairFigures
    ensures { result ≡ plain_pair_figures (pair_figures_of (accepts_pair state.words) state.words) }
{
    pair_validator::figures(state).into()
}

// The balance of an account of a ledger.
#[unsafe(no_mangle)]
pub extern "C" fn moatbetony_pair_balance(
    state: PairValidator,
    ledger: u8,
    account: u16,
) -> PlainBalance
    ensures { result ≡ plain_balance (pair_balance_of (accepts_pair state.words) state.words ledger account) }
{
    pair_validator::balance(state, ledger, account).into()
}

// The places left on both ledgers.
#[unsafe(no_mangle)]
pub extern "C" fn moatbetony_pair_places_left(state: PairValidator) -> PlainPairPlaces
    ensures { result ≡ plain_pair_places (pair_places_of (accepts_pair state.words) state.words) }
{
    pair_validator::places_left(state).into()
}

// ## The home validator

// An answer, and the state to go on with.
#[repr(C)]
#[derive(Clone, Copy)]
pub struct PlainHomeOutcome {
    pub answer: PlainAnswer,
    pub state: HomeValidator,
}

// An outcome of the home validator, as it crosses.
impl From<Outcome<HomeValidator>> for PlainHomeOutcome {
    ghost from_gives = { λ o p. p ≡ plain_home_outcome (answer_of o.answer) o.state };

    fn from(home: Outcome<HomeValidator>) -> PlainHomeOutcome {
        PlainHomeOutcome {
            answer: home.answer.into(),
            state: home.state,
        }
    }
}

// An answer, the home total and the far pool.
#[repr(C)]
#[derive(Clone, Copy)]
pub struct PlainHomeFigures {
    pub answer: PlainAnswer,
    pub home: u64,
    pub pool: u64,
}

// Its figures, zeros beside a refusal.
impl From<Result<HomeFigures, Refusal>> for PlainHomeFigures {
    ghost from_gives = { λ r p. p ≡ plain_home_figures (home_figures_told r) };

    fn from(told: Result<HomeFigures, Refusal>) -> PlainHomeFigures {
        let (answer, own) = apart(told, HomeFigures { home: 0, pool: 0 });
        PlainHomeFigures {
            answer,
            home: own.home,
            pool: own.pool,
        }
    }
}

// An answer, and the places left on the home ledger.
#[repr(C)]
#[derive(Clone, Copy)]
pub struct PlainHomePlaces {
    pub answer: PlainAnswer,
    pub home: u64,
}

// Its places left, 0 beside a refusal.
impl From<Result<u64, Refusal>> for PlainHomePlaces {
    ghost from_gives = { λ r p. p ≡ plain_home_places (home_places_told r) };

    fn from(told: Result<u64, Refusal>) -> PlainHomePlaces {
        let (answer, home) = apart(told, 0);
        PlainHomePlaces { answer, home }
    }
}

// An opening, with the rate and the account of the charge on home's sendings.
#[unsafe(no_mangle)]
pub extern "C" fn moatbetony_home_open(
    home_balances: &[u64],
    far_accounts: usize,
    far_total: u64,
    rate: u64,
    charge_account: u64,
) -> PlainHomeOutcome
    ensures { result ≡ plain_home_outcome (answer (home_opening_refusal (plain_tariff rate charge_account)
        home_balances.now far_accounts far_total) 0)
        (unless_refused (home_opening_refusal (plain_tariff rate charge_account) home_balances.now far_accounts far_total)
        (home_opened_state (plain_tariff rate charge_account) home_balances.now far_accounts far_total) home_zero_state) }
{
    let tariff = Tariff {
        rate,
        account: charge_account,
    };
    HomeValidator::open(home_balances, far_accounts, far_total, tariff).into()
}

// A call with one record.
#[tactic(auto, using(home_validator::proofs::Words::state_called))]
#[unsafe(no_mangle)]
pub extern "C" fn moatbetony_home_check_record(
    mut state: HomeValidator,
    bytes: &[u8],
) -> PlainHomeOutcome
    ensures { result ≡ plain_home_outcome (call home_checker state (one bytes.now)).answer
        (call home_checker state (one bytes.now)).state }
{
    let answer = PlainAnswer::from(home_core::take(&mut state.words, bytes));
    PlainHomeOutcome {
        answer,
        state, // after the record of the home validator
    }
}

// A call with a list.
#[tactic(auto, using(home_validator::proofs::Words::state_called))]
#[unsafe(no_mangle)]
pub extern "C" fn moatbetony_home_check_list(
    mut state: HomeValidator,
    bytes: &[u8],
) -> PlainHomeOutcome
    ensures { result ≡ plain_home_outcome (call home_checker state (list bytes.now)).answer
        (call home_checker state (list bytes.now)).state }
{
    let answer = PlainAnswer::from(home_core::take_list(&mut state.words, bytes));
    PlainHomeOutcome {
        answer,
        state, // after the list of the home validator
    }
}

// A call with one record, on a state lent. A refusal leaves every word as it was.
#[unsafe(no_mangle)]
pub extern "C" fn moatbetony_home_take(
    state: &mut [u64; home_core::WORDS],
    bytes: &[u8],
) -> PlainAnswer
    ensures answers { result ≡ plain_answer (call home_words_checker state.old (one bytes.now)).answer }
    ensures leaves { state.new ≡ (call home_words_checker state.old (one bytes.now)).state }
{
    home_core::take(state, bytes).into()
}

// A call with a list, on a state lent. A refusal leaves every word as it was.
#[unsafe(no_mangle)]
pub extern "C" fn moatbetony_home_take_list(
    state: &mut [u64; home_core::WORDS],
    bytes: &[u8],
) -> PlainAnswer
    ensures answers { result ≡ plain_answer (call home_words_checker state.old (list bytes.now)).answer }
    ensures leaves { state.new ≡ (call home_words_checker state.old (list bytes.now)).state }
{
    home_core::take_list(state, bytes).into()
}

// The figures of a state.
#[unsafe(no_mangle)]
pub extern "C" fn moatbetony_home_figures(state: HomeValidator) -> PlainHomeFigures
    ensures { result ≡ plain_home_figures (home_figures_of (accepts_home state.words) state.words) }
{
    home_validator::figures(state).into()
}

// The balance of a home account.
#[unsafe(no_mangle)]
pub extern "C" fn moatbetony_home_balance(state: HomeValidator, account: u16) -> PlainBalance
    ensures { result ≡ plain_balance (home_balance_of (accepts_home state.words) state.words account) }
{
    home_validator::balance(state, account).into()
}

// The places left on the home ledger.
#[unsafe(no_mangle)]
pub extern "C" fn moatbetony_home_places_left(state: HomeValidator) -> PlainHomePlaces
    ensures { result ≡ plain_home_places (home_places_of (accepts_home state.words) state.words) }
{
    home_validator::places_left(state).into()
}

// ## Records

// The fields of a record that was read, as numbers; zeros where it does not read.
#[repr(C)]
#[derive(Clone, Copy)]
pub struct PlainRecord {
    pub answer: PlainAnswer,
    pub kind: u8,
    pub ledger: u8,
    pub sender: u16,
    pub receiver: u16,
    pub number: u64,
    pub amount: u64,
    pub verdict: u8,
}

// The 32 bytes of a record; zeros where they would not read.
#[repr(C)]
#[derive(Clone, Copy)]
pub struct PlainEncoded {
    pub answer: PlainAnswer,
    pub bytes: [u8; 32],
}

// The fields of a record that was read.
impl From<Record> for PlainRecord {
    ghost from_gives = { λ r p. p ≡ plain_record (Read r) };

    fn from(record: Record) -> PlainRecord {
        PlainRecord {
            answer: Ok(()).into(),
            kind: record.kind.into(),
            ledger: record.kind.ledger().into(),
            sender: record.sender,
            receiver: record.receiver,
            number: record.number,
            amount: record.amount,
            verdict: record.verified.into(),
        }
    }
}

// The fields of a record: 21 where the bytes do not read.
#[unsafe(no_mangle)]
pub extern "C" fn moatbetony_record_read(bytes: &[u8]) -> PlainRecord
    ensures { result ≡ plain_record (reading bytes.now) }
{
    let Some(record) = Record::read(bytes) else {
        return PlainRecord {
            answer: Refusal::RecordForm.into(),
            kind: 0,
            ledger: 0,
            sender: 0,
            receiver: 0,
            number: 0,
            amount: 0,
            verdict: 0,
        };
    };
    record.into()
}

// The bytes of a record with these fields: 21 where they would not read.
#[unsafe(no_mangle)]
pub extern "C" fn moatbetony_record_encode(
    kind: u8,
    ledger: u8,
    sender: u16,
    receiver: u16,
    number: u64,
    amount: u64,
    verdict: u8,
) -> PlainEncoded
    ensures { result ≡ plain_encoded (reading (field_bytes kind ledger sender receiver number amount verdict))
        (field_bytes kind ledger sender receiver number amount verdict) }
{
    let bytes = field_bytes(kind, ledger, sender, receiver, number, amount, verdict);
    let Some(_) = Record::read(&bytes) else {
        return PlainEncoded {
            answer: Refusal::RecordForm.into(),
            bytes: [0; 32],
        };
    };
    PlainEncoded {
        answer: Ok(()).into(),
        bytes,
    }
}

// ## The charge

// An answer, and the charge on an amount.
#[repr(C)]
#[derive(Clone, Copy)]
pub struct PlainCharge {
    pub answer: PlainAnswer,
    pub charge: u64,
}

// A charge, 0 beside a refusal.
impl From<Result<u64, Refusal>> for PlainCharge {
    ghost from_gives = { λ r p. p ≡ plain_charge (told r) };

    fn from(told: Result<u64, Refusal>) -> PlainCharge {
        let (answer, charge) = apart(told, 0);
        PlainCharge { answer, charge }
    }
}

// The charge on an amount that leaves home.
#[unsafe(no_mangle)]
pub extern "C" fn moatbetony_charge(rate: u64, amount: u64) -> PlainCharge
    ensures { result ≡ plain_charge (charge_told rate amount) }
{
    tariffs::tell_charge(rate, amount).into()
}

// ## The journal

// Where a record stands in its block.
#[repr(C)]
#[derive(Clone, Copy)]
pub struct PlainPart {
    pub answer: PlainAnswer,
    pub start: usize,
    pub length: usize,
}

// The count of a block's items.
#[repr(C)]
#[derive(Clone, Copy)]
pub struct PlainCount {
    pub answer: PlainAnswer,
    pub count: u64,
}

// A count, 0 beside a refusal.
impl From<Result<u64, Refused>> for PlainCount {
    ghost from_gives = { λ r p. p ≡ plain_count (count_told r) };

    fn from(told: Result<u64, Refused>) -> PlainCount {
        let (answer, count) = apart(told, 0);
        PlainCount { answer, count }
    }
}

// The opening balances of a block, zeros after them, and beside those of block 0 the rate and the account of the charge.
#[repr(C)]
#[derive(Clone, Copy)]
pub struct PlainBalances {
    pub answer: PlainAnswer,
    pub count: u64,
    pub rate: u64,
    pub charge_account: u64,
    pub balances: [u64; Ledger::ACCOUNTS],
}

// Opening balances, zeros beside a refusal.
impl From<Result<Opening, Refused>> for PlainBalances {
    ghost from_gives = { λ r p. p ≡ plain_balances (opening_told r) };

    fn from(told: Result<Opening, Refused>) -> PlainBalances {
        match told {
            Ok(opening) => {
                let tariff = opening.tariff;
                let balances = opening.balances.table;
                PlainBalances {
                    answer: Ok(()).into(),
                    count: opening.balances.count,
                    rate: tariff.rate,
                    charge_account: tariff.account,
                    balances,
                }
            }
            Err(refused) => PlainBalances {
                answer: refused.into(),
                count: 0,
                rate: 0,
                charge_account: 0,
                balances: [0; Ledger::ACCOUNTS],
            },
        }
    }
}

// Judges a block.
#[unsafe(no_mangle)]
pub extern "C" fn moatbetony_block_judge(block: &[u8], number: u64, before: u64) -> PlainAnswer
    ensures { result ≡ plain_answer (answer (block_refusal block.now number before) number) }
{
    journal_reader::judge(block, number, before).into()
}

// Judges a block and a place.
#[unsafe(no_mangle)]
pub extern "C" fn moatbetony_block_judge_record(
    block: &[u8],
    number: u64,
    before: u64,
    place: u64,
) -> PlainAnswer
    ensures { result ≡ plain_answer (answer (record_refusal block.now number before place) number) }
{
    journal_reader::judge_record(block, number, before, place).into()
}

// Where the record at a place stands in its block: the bytes there are the part that is handed out within the language.
#[tactic(auto, using(answers::proofs::Answers::passed_zero, journal_reader::proofs::Judging::place_facts))]
#[unsafe(no_mangle)]
pub extern "C" fn moatbetony_block_record(
    block: &[u8],
    number: u64,
    before: u64,
    place: u64,
) -> PlainPart
    ensures stands { result ≡ plain_part (record_refusal block.now number before place) number place }
    ensures holds { take result.length (drop result.start block.now) ≡ part_of block.now number before place }
{
    if let Err(refused) = journal_reader::judge_record(block, number, before, place) {
        return PlainPart {
            answer: refused.into(),
            start: 0,
            length: 0,
        };
    }
    PlainPart {
        answer: Ok(()).into(),
        start: 32 + 32 * (place as usize),
        length: 32,
    }
}

// The count of a block's items.
#[unsafe(no_mangle)]
pub extern "C" fn moatbetony_block_count(block: &[u8], number: u64, before: u64) -> PlainCount
    ensures { result ≡ plain_count (count_of block.now number before) }
{
    journal_reader::item_count(block, number, before).into()
}

// The opening balances of a block.
#[unsafe(no_mangle)]
pub extern "C" fn moatbetony_block_balances(block: &[u8], number: u64, before: u64) -> PlainBalances
    ensures { result ≡ plain_balances (opening_of block.now number before) }
{
    journal_reader::opening_balances(block, number, before).into()
}

// Writes a block, block 0 with the rate and the account of the charge.
#[unsafe(no_mangle)]
pub extern "C" fn moatbetony_block_write(
    out: &mut [u8],
    number: u64,
    kind: u8,
    rate: u64,
    charge_account: u64,
    items: &[u8],
) -> PlainAnswer
    ensures answers { result ≡ plain_answer (answer (write_refusal (length out.old) number kind (plain_tariff rate charge_account)
        (length items.now)) number) }
    ensures leaves { out.new ≡ written out.old number kind (plain_tariff rate charge_account)
        items.now }
{
    let tariff = Tariff {
        rate,
        account: charge_account,
    };
    journal_writer::write(out, number, kind, tariff, items).into()
}

// ## SHA-256

// The 32 bytes of a digest.
#[repr(C)]
#[derive(Clone, Copy)]
pub struct PlainDigest {
    pub bytes: [u8; 32],
}

// The digest of a message.
#[unsafe(no_mangle)]
pub extern "C" fn moatbetony_sha256(message: &[u8]) -> PlainDigest
    ensures { result.bytes ≡ sha256 message.now }
{
    let bytes = sha256::digest(message);
    PlainDigest { bytes }
}
