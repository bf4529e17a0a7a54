// Judging a block of the journal: refusals 11 to 14 and 52 in order.
ghost use Rattle.std.specs.Prelude.{◌≡◌};
ghost use Rattle.answers.specs.Refusals.{refused_by};
ghost use Rattle.journal_blocks.specs.Checked.{checked, tariff_refusal, block_refusal};

use super::format::{BLOCK_SIZE, MAX_BLOCK, is_block_formed, stated_count, tariff_in};
use answers::{Refusal, refuse_if};
use wire::BigEndian;

// Whether refusal 12 has nothing against the block.
#[tactic(auto, unfolding(crate::specs::Checked::checked))]
fn is_checked(block: &[u8; BLOCK_SIZE]) -> bool
    ensures { result ≡ checked block.now }
{
    let d = sha256::digest(&block[..480]);
    wire::equal(&d, &block[480..])
}

// The refusal of the rate and the charge account of block 0: every other block passes.
#[tactic(auto, unfolding(crate::specs::Checked::tariff_refusal))]
fn tariff_refusal(block: &[u8; BLOCK_SIZE], k: u64) -> Result<(), Refusal>
    ensures { refused_by result ≡ tariff_refusal block.now k }
{
    if k != 0 {
        return Ok(());
    }
    let tariff = tariff_in(block);
    refuse_if(
        !tariff.is_allowed(stated_count(block)),
        Refusal::TariffNotAllowed,
    )
}

// The refusal of the block that is wanted as number k, after a block of `before` items.
// Kept: block, number and before stand side by side, since the calls of journal_reader that README names take them so.
#[tactic(auto, unfolding(crate::specs::Checked::block_refusal))]
pub fn block_refusal(block: &[u8], k: u64, before: u64) -> Result<(), Refusal>
    ensures { refused_by result ≡ block_refusal block.now k before }
{
    let Ok(block) = <&[u8; BLOCK_SIZE]>::try_from(block) else {
        return Err(Refusal::BlockSize);
    };
    refuse_if(MAX_BLOCK < k, Refusal::BlockSize)?;
    refuse_if(!is_checked(block), Refusal::BlockCheck)?;
    refuse_if(u64::from(u32::at(block, 0)) != k, Refusal::BlockNumber)?;
    refuse_if(!is_block_formed(block, k, before), Refusal::BlockForm)?;
    tariff_refusal(block, k)
}
