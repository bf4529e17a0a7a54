// The exports that makers link from C, Rust and what can call C: each is one call of the library's function of its name, with the same
// clauses. include/moatbetony.h declares all of it.
// Kept: a crate is a library for Rattle or an archive for C, and an archive exports its own functions alone, so that each is here again.
#![tactic(auto)]

ghost use Rattle.std.specs.Prelude.{◌≡◌, drop, length, take};
ghost use Rattle.answers.specs.Answers.{answer, unless_refused};
ghost use Rattle.home_core.specs.Layout.{accepts_home, home_words_checker};
ghost use Rattle.home_validator.specs.Figures.{home_figures_of, home_balance_of, home_places_of};
ghost use Rattle.home_validator.specs.State.{home_checker, home_opened_state, home_zero_state};
ghost use Rattle.journal_blocks.specs.Checked.{block_refusal};
ghost use Rattle.journal_reader.specs.Judged.{record_refusal, part_of, count_of, opening_of};
ghost use Rattle.journal_writer.specs.Written.{write_refusal, written};
ghost use Rattle.moatbetony.specs.Plain.{library_version, state_version, plain_answer, plain_pair_outcome, plain_pair_figures};
ghost use Rattle.moatbetony.specs.Plain.{plain_home_outcome, plain_home_figures, plain_balance, plain_record, plain_encoded, plain_part};
ghost use Rattle.moatbetony.specs.Plain.{plain_count, plain_balances, plain_pair_places, plain_home_places, plain_tariff};
ghost use Rattle.moatbetony.specs.Plain.{plain_charge};
ghost use Rattle.tariffs.specs.Tariffs.{charge_told};
ghost use Rattle.pair_core.specs.Layout.{accepts_pair, pair_words_checker};
ghost use Rattle.pair_validator.specs.Figures.{pair_balance_of, pair_figures_of, pair_places_of};
ghost use Rattle.pair_validator.specs.State.{pair_checker, pair_opened_state, pair_zero_state};
ghost use Rattle.records.specs.Fields.{field_bytes};
ghost use Rattle.records.specs.Records.{reading};
ghost use Rattle.rules.specs.Calls.{call, one, list};
ghost use Rattle.rules.specs.HomeValidator.{home_opening_refusal};
ghost use Rattle.rules.specs.PairValidator.{pair_opening_refusal};
ghost use Rattle.sha256.specs.Sha256.{sha256};

use home_validator::HomeValidator;
use moatbetony::{
    PlainAnswer, PlainBalance, PlainBalances, PlainCharge, PlainCount, PlainDigest, PlainEncoded,
    PlainHomeFigures, PlainHomeOutcome, PlainHomePlaces, PlainPairFigures, PlainPairOutcome,
    PlainPairPlaces, PlainPart, PlainRecord,
};
use pair_validator::PairValidator;

// ## Versions

// The library's version: major times 10,000, minor times 100 and patch.
#[unsafe(no_mangle)]
pub extern "C" fn moatbetony_version() -> u32
    ensures { result ≡ library_version }
{
    moatbetony::moatbetony_version()
}

// The version of the layout of both states. A stored state is taken up only under the version that it was stored with.
#[unsafe(no_mangle)]
pub extern "C" fn moatbetony_state_version() -> u32
    ensures { result ≡ state_version }
{
    moatbetony::moatbetony_state_version()
}

// ## The pair validator

// An opening, with the rate and the account of the charge on home's sendings.
#[unsafe(no_mangle)]
pub extern "C" fn moatbetony_pair_open<'a>(
    home_balances: &'a [u64],
    far_balances: &'a [u64],
    rate: u64,
    charge_account: u64,
) -> PlainPairOutcome
    ensures { result ≡ plain_pair_outcome (answer (pair_opening_refusal (plain_tariff rate charge_account)
        home_balances.now far_balances.now) 0)
        (unless_refused (pair_opening_refusal (plain_tariff rate charge_account) home_balances.now far_balances.now)
        (pair_opened_state (plain_tariff rate charge_account) home_balances.now far_balances.now)
        pair_zero_state) }
{
    moatbetony::moatbetony_pair_open(home_balances, far_balances, rate, charge_account)
}

// A call with one record.
#[unsafe(no_mangle)]
pub extern "C" fn moatbetony_pair_check_record(
    state: PairValidator,
    bytes: &[u8],
) -> PlainPairOutcome
    ensures { result ≡ plain_pair_outcome (call pair_checker state (one bytes.now)).answer
        (call pair_checker state (one bytes.now)).state }
{
    moatbetony::moatbetony_pair_check_record(state, bytes)
}

// A call with a list.
#[unsafe(no_mangle)]
pub extern "C" fn moatbetony_pair_check_list(state: PairValidator, bytes: &[u8]) -> PlainPairOutcome
    ensures { result ≡ plain_pair_outcome (call pair_checker state (list bytes.now)).answer
        (call pair_checker state (list bytes.now)).state }
{
    moatbetony::moatbetony_pair_check_list(state, bytes)
}

// A call with one record, on a state lent. A refusal leaves every word as it was.
#[unsafe(no_mangle)]
pub extern "C" fn moatbetony_pair_take(
    state: &mut [u64; pair_core::WORDS],
    bytes: &[u8],
) -> PlainAnswer
    ensures answers { result ≡ plain_answer (call pair_words_checker state.old (one bytes.now)).answer }
    ensures leaves { state.new ≡ (call pair_words_checker state.old (one bytes.now)).state }
{
    moatbetony::moatbetony_pair_take(state, bytes)
}

// A call with a list, on a state lent. A refusal leaves every word as it was.
#[unsafe(no_mangle)]
pub extern "C" fn moatbetony_pair_take_list(
    state: &mut [u64; pair_core::WORDS],
    bytes: &[u8],
) -> PlainAnswer
    ensures answers { result ≡ plain_answer (call pair_words_checker state.old (list bytes.now)).answer }
    ensures leaves { state.new ≡ (call pair_words_checker state.old (list bytes.now)).state }
{
    moatbetony::moatbetony_pair_take_list(state, bytes)
}

// The figures of a state.
#[unsafe(no_mangle)]
pub extern "C" fn moatbetony_pair_figures(state: PairValidator) -> PlainPairFigures
    ensures { result ≡ plain_pair_figures (pair_figures_of (accepts_pair state.words) state.words) }
{
    moatbetony::moatbetony_pair_figures(state)
}

// The balance of an account of a ledger.
#[unsafe(no_mangle)]
pub extern "C" fn moatbetony_pair_balance(
    state: PairValidator,
    ledger: u8,
    account: u16,
) -> PlainBalance
    ensures { result ≡ plain_balance (pair_balance_of (accepts_pair state.words) state.words ledger account) }
{
    moatbetony::moatbetony_pair_balance(state, ledger, account)
}

// The places left on both ledgers.
#[unsafe(no_mangle)]
pub extern "C" fn moatbetony_pair_places_left(state: PairValidator) -> PlainPairPlaces
    ensures { result ≡ plain_pair_places (pair_places_of (accepts_pair state.words) state.words) }
{
    moatbetony::moatbetony_pair_places_left(state)
}

// ## The home validator

// An opening, with the rate and the account of the charge on home's sendings.
#[unsafe(no_mangle)]
pub extern "C" fn moatbetony_home_open(
    home_balances: &[u64],
    far_accounts: usize,
    far_total: u64,
    rate: u64,
    charge_account: u64,
) -> PlainHomeOutcome
    ensures { result ≡ plain_home_outcome (answer (home_opening_refusal (plain_tariff rate charge_account)
        home_balances.now far_accounts far_total) 0)
        (unless_refused (home_opening_refusal (plain_tariff rate charge_account) home_balances.now far_accounts far_total)
        (home_opened_state (plain_tariff rate charge_account) home_balances.now far_accounts far_total) home_zero_state) }
{
    moatbetony::moatbetony_home_open(home_balances, far_accounts, far_total, rate, charge_account)
}

// A call with one record.
#[unsafe(no_mangle)]
pub extern "C" fn moatbetony_home_check_record(
    state: HomeValidator,
    bytes: &[u8],
) -> PlainHomeOutcome
    ensures { result ≡ plain_home_outcome (call home_checker state (one bytes.now)).answer
        (call home_checker state (one bytes.now)).state }
{
    moatbetony::moatbetony_home_check_record(state, bytes)
}

// A call with a list.
#[unsafe(no_mangle)]
pub extern "C" fn moatbetony_home_check_list(state: HomeValidator, bytes: &[u8]) -> PlainHomeOutcome
    ensures { result ≡ plain_home_outcome (call home_checker state (list bytes.now)).answer
        (call home_checker state (list bytes.now)).state }
{
    moatbetony::moatbetony_home_check_list(state, bytes)
}

// A call with one record, on a state lent. A refusal leaves every word as it was.
#[unsafe(no_mangle)]
pub extern "C" fn moatbetony_home_take(
    state: &mut [u64; home_core::WORDS],
    bytes: &[u8],
) -> PlainAnswer
    ensures answers { result ≡ plain_answer (call home_words_checker state.old (one bytes.now)).answer }
    ensures leaves { state.new ≡ (call home_words_checker state.old (one bytes.now)).state }
{
    moatbetony::moatbetony_home_take(state, bytes)
}

// A call with a list, on a state lent. A refusal leaves every word as it was.
#[unsafe(no_mangle)]
pub extern "C" fn moatbetony_home_take_list(
    state: &mut [u64; home_core::WORDS],
    bytes: &[u8],
) -> PlainAnswer
    ensures answers { result ≡ plain_answer (call home_words_checker state.old (list bytes.now)).answer }
    ensures leaves { state.new ≡ (call home_words_checker state.old (list bytes.now)).state }
{
    moatbetony::moatbetony_home_take_list(state, bytes)
}

// The figures of a state.
#[unsafe(no_mangle)]
pub extern "C" fn moatbetony_home_figures(state: HomeValidator) -> PlainHomeFigures
    ensures { result ≡ plain_home_figures (home_figures_of (accepts_home state.words) state.words) }
{
    moatbetony::moatbetony_home_figures(state)
}

// The balance of a home account.
#[unsafe(no_mangle)]
pub extern "C" fn moatbetony_home_balance(state: HomeValidator, account: u16) -> PlainBalance
    ensures { result ≡ plain_balance (home_balance_of (accepts_home state.words) state.words account) }
{
    moatbetony::moatbetony_home_balance(state, account)
}

// The places left on the home ledger.
#[unsafe(no_mangle)]
pub extern "C" fn moatbetony_home_places_left(state: HomeValidator) -> PlainHomePlaces
    ensures { result ≡ plain_home_places (home_places_of (accepts_home state.words) state.words) }
{
    moatbetony::moatbetony_home_places_left(state)
}

// ## Records

// The fields of a record: 21 where the bytes do not read.
#[unsafe(no_mangle)]
pub extern "C" fn moatbetony_record_read(bytes: &[u8]) -> PlainRecord
    ensures { result ≡ plain_record (reading bytes.now) }
{
    moatbetony::moatbetony_record_read(bytes)
}

// The bytes of a record with these fields: 21 where they would not read.
#[unsafe(no_mangle)]
pub extern "C" fn moatbetony_record_encode(
    kind: u8,
    ledger: u8,
    sender: u16,
    receiver: u16,
    number: u64,
    amount: u64,
    verdict: u8,
) -> PlainEncoded
    ensures { result ≡ plain_encoded (reading (field_bytes kind ledger sender receiver number amount verdict))
        (field_bytes kind ledger sender receiver number amount verdict) }
{
    moatbetony::moatbetony_record_encode(kind, ledger, sender, receiver, number, amount, verdict)
}

// ## The charge

// The charge on an amount that leaves home.
#[unsafe(no_mangle)]
pub extern "C" fn moatbetony_charge(rate: u64, amount: u64) -> PlainCharge
    ensures { result ≡ plain_charge (charge_told rate amount) }
{
    moatbetony::moatbetony_charge(rate, amount)
}

// ## The journal

// Judges a block.
#[unsafe(no_mangle)]
pub extern "C" fn moatbetony_block_judge(block: &[u8], number: u64, before: u64) -> PlainAnswer
    ensures { result ≡ plain_answer (answer (block_refusal block.now number before) number) }
{
    moatbetony::moatbetony_block_judge(block, number, before)
}

// Judges a block and a place.
#[unsafe(no_mangle)]
pub extern "C" fn moatbetony_block_judge_record(
    block: &[u8],
    number: u64,
    before: u64,
    place: u64,
) -> PlainAnswer
    ensures { result ≡ plain_answer (answer (record_refusal block.now number before place) number) }
{
    moatbetony::moatbetony_block_judge_record(block, number, before, place)
}

// Where the record at a place stands in its block: the bytes there are the part that is handed out within the language.
#[unsafe(no_mangle)]
pub extern "C" fn moatbetony_block_record(
    block: &[u8],
    number: u64,
    before: u64,
    place: u64,
) -> PlainPart
    ensures stands { result ≡ plain_part (record_refusal block.now number before place) number place }
    ensures holds { take result.length (drop result.start block.now) ≡ part_of block.now number before place }
{
    moatbetony::moatbetony_block_record(block, number, before, place)
}

// The count of a block's items.
#[unsafe(no_mangle)]
pub extern "C" fn moatbetony_block_count(block: &[u8], number: u64, before: u64) -> PlainCount
    ensures { result ≡ plain_count (count_of block.now number before) }
{
    moatbetony::moatbetony_block_count(block, number, before)
}

// The opening balances of a block.
#[unsafe(no_mangle)]
pub extern "C" fn moatbetony_block_balances(block: &[u8], number: u64, before: u64) -> PlainBalances
    ensures { result ≡ plain_balances (opening_of block.now number before) }
{
    moatbetony::moatbetony_block_balances(block, number, before)
}

// Writes a block, block 0 with the rate and the account of the charge.
#[unsafe(no_mangle)]
pub extern "C" fn moatbetony_block_write(
    out: &mut [u8],
    number: u64,
    kind: u8,
    rate: u64,
    charge_account: u64,
    items: &[u8],
) -> PlainAnswer
    ensures answers { result ≡ plain_answer (answer (write_refusal (length out.old) number kind (plain_tariff rate charge_account)
        (length items.now)) number) }
    ensures leaves { out.new ≡ written out.old number kind (plain_tariff rate charge_account)
        items.now }
{
    moatbetony::moatbetony_block_write(out, number, kind, rate, charge_account, items)
}

// ## SHA-256

// The digest of a message.
#[unsafe(no_mangle)]
pub extern "C" fn moatbetony_sha256(message: &[u8]) -> PlainDigest
    ensures { result.bytes ≡ sha256 message.now }
{
    moatbetony::moatbetony_sha256(message)
}
