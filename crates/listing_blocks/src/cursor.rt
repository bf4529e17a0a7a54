// Where a listing stands between two blocks.
ghost use Rattle.std.specs.Prelude.{◌+◌, ◌*◌, ◌≤◌};
ghost use Rattle.journal_blocks.specs.Blocks.{max_block, records_per_block};

use pair_rows::Figures;

// The index of the next record, the number of the next block and the count of the one before it, and the figures. The next block is one
// of records, and its number and the next record's index are in bounds.
#[derive(Clone, Copy)]
pub struct Cursor {
    pub index: u64,
    pub block: u64,
    pub before: u64,
    pub figures: Figures,
    pub ghost records: { 2 ≤ block },
    pub ghost block_fits: { block ≤ max_block + 1 },
    pub ghost index_fits: { index ≤ records_per_block * block },
}
