// The journal's block of 512 bytes (document 01, "The journal"): its form, and judging it.
#![tactic(auto)]

pub mod format; // format.rt: kinds, sizes and limits, the count, rate and charge account, and what refusal 14 asks
pub mod checks; // checks.rt: refusals 11 to 14 and 52 in order

pub use checks::block_refusal;
pub use format::{
    BLOCK_SIZE, BlockKind, MAX_BLOCK, RECORDS_PER_BLOCK, item_limit, item_size, kind_of_block,
    stated_count, tariff_in,
};
