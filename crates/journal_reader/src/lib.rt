// The journal's block reader: judging a block, handing out its count, its opening balances and the part of a record.
// The functions named judged_.. are for a block that `judge` has passed: they do not hash it again.
#![tactic(auto)]

pub mod balances; // balances.rt: opening balances

ghost use Rattle.std.specs.Prelude.{◌≡◌, ◌<◌, length};
ghost use Rattle.answers.specs.Answers.{answer, answer_of};
ghost use Rattle.answers.specs.Refusals.{refused_by};
ghost use Rattle.journal_blocks.specs.Blocks.{records_per_block, record_part};
ghost use Rattle.journal_blocks.specs.Checked.{block_refusal};
ghost use Rattle.journal_reader.specs.Judged.{balances_refusal, place_refusal, record_refusal};
ghost use Rattle.journal_reader.specs.Judged.{count_of, count_told, opening_of, opening_told, part_of};

use answers::{Answer, Refusal, Refused, answer_at, refuse_if};
pub use balances::{Opening, OpeningBalances, judged_balances};
use journal_blocks::{block_refusal, stated_count, tariff_in};

// The refusal of a place at which a record of the block is wanted.
// Kept: block, number and before stand side by side in each function, since README's calls take them so and hand them on.
#[tactic(auto, unfolding(crate::specs::Judged::place_refusal))]
fn place_refusal(block: &[u8], k: u64, place: u64) -> Result<(), Refusal>
    ensures { refused_by result ≡ place_refusal block.now k place }
{
    refuse_if(k < 2, Refusal::NotAllowed)?;
    refuse_if(stated_count(block) <= place, Refusal::NotAllowed)
}

// The refusal of the block, and then of such a place.
#[tactic(auto, unfolding(crate::specs::Judged::record_refusal))]
fn record_refusal(block: &[u8], k: u64, before: u64, place: u64) -> Result<(), Refusal>
    ensures { refused_by result ≡ record_refusal block.now k before place }
{
    block_refusal(block, k, before)?; // before a place's 4
    place_refusal(block, k, place)
}

// The refusal of the block, and then 4 where it holds no opening balances.
#[tactic(auto, unfolding(crate::specs::Judged::balances_refusal))]
fn balances_refusal(block: &[u8], k: u64, before: u64) -> Result<(), Refusal>
    ensures { refused_by result ≡ balances_refusal block.now k before }
{
    block_refusal(block, k, before)?; // before a kind's 4
    refuse_if(2 <= k, Refusal::NotAllowed)
}

// Judges the block that is wanted as number k, after a block of `before` items.
pub fn judge(block: &[u8], k: u64, before: u64) -> Answer
    ensures { answer_of result ≡ answer (block_refusal block.now k before) k }
{
    answer_at(block_refusal(block, k, before), k)
}

// Judges the block, and then a place that a record is wanted at.
pub fn judge_record(block: &[u8], k: u64, before: u64, place: u64) -> Answer
    ensures { answer_of result ≡ answer (record_refusal block.now k before place) k }
{
    answer_at(record_refusal(block, k, before, place), k)
}

// The 32 bytes of the record at a place of a judged block.
// Kept: a slice of 512 bytes, since an array would ask more of those who call it.
#[tactic(auto, unfolding(journal_blocks::specs::Blocks::record_part))]
pub fn judged_part(block: &[u8], place: u64) -> &[u8]
    requires { (length block.now ≡ 512) × (place < records_per_block) }
    ensures { result.now ≡ record_part block.now place }
{
    let start = 32 + 32 * (place as usize);
    &block[start..start + 32]
}

// The 32 bytes of the record at a place of the block, or nothing wherever `judge_record` refuses.
pub fn record_part(block: &[u8], k: u64, before: u64, place: u64) -> &[u8]
    ensures { result.now ≡ part_of block.now k before place }
{
    match judge_record(block, k, before, place) {
        Ok(()) => judged_part(block, place),
        Err(_) => &[],
    }
}

// Judges the block, and hands out the count of its items.
pub fn item_count(block: &[u8], k: u64, before: u64) -> Result<u64, Refused>
    ensures { count_told result ≡ count_of block.now k before }
{
    judge(block, k, before)?;
    Ok(stated_count(block))
}

// Judges the block, and hands out its opening balances.
pub fn opening_balances(block: &[u8], k: u64, before: u64) -> Result<Opening, Refused>
    ensures { opening_told result ≡ opening_of block.now k before }
{
    answer_at(balances_refusal(block, k, before), k)?;
    Ok(Opening {
        tariff: tariff_in(block),
        balances: judged_balances(block),
    })
}
