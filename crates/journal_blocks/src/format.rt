// The journal's block of 512 bytes (document 01, "The journal"): kinds, sizes and limits by a block's number, the count that
// a block states, the rate and the charge account, and the form that refusal 14 asks for.
ghost use Rattle.std.specs.Prelude.{◌≡◌, ◌||◌, ◌+◌, ◌*◌, ◌≤◌, leb, length};
ghost use Rattle.journal_blocks.specs.Blocks.{stated_count, tariff_in, kind_of_block, item_size, item_limit, head_end};
ghost use Rattle.journal_blocks.specs.Blocks.{block_formed, records_per_block};
ghost use Rattle.journal_blocks.specs.Kinds.{kind_byte};

use ledgers::Ledger;
use tariffs::Tariff;
use wire::{BigEndian, all_zero};

// The bytes of a block.
pub const BLOCK_SIZE: usize = 512;
// The greatest block number.
pub const MAX_BLOCK: u64 = 65535;
// The most records of a block; all record blocks but the last have as many.
pub const RECORDS_PER_BLOCK: usize = 14;

// What the items of a block are.
#[derive(Clone, Copy, PartialEq, Eq)]
pub enum BlockKind {
    HomeBalances,
    FarBalances,
    Records,
}

// The byte of a block that says its kind.
impl From<BlockKind> for u8 {
    ghost from_gives = { λ kind byte. byte ≡ kind_byte kind };

    fn from(kind: BlockKind) -> u8 {
        match kind {
            BlockKind::HomeBalances => 1,
            BlockKind::FarBalances => 2,
            BlockKind::Records => 3,
        }
    }
}

// The kind of the block with number k.
pub fn kind_of_block(k: u64) -> BlockKind
    ensures { kind_byte result ≡ kind_of_block k }
{
    match k {
        0 => BlockKind::HomeBalances,
        1 => BlockKind::FarBalances,
        _ => BlockKind::Records,
    }
}

// The bytes of an item in the block with number k.
// Kept: this and item_limit match one kind for two facts of document 01; a function of both numbers would say less.
pub fn item_size(k: u64) -> usize
    ensures { result ≡ item_size k }
{
    match kind_of_block(k) {
        BlockKind::HomeBalances | BlockKind::FarBalances => 8,
        BlockKind::Records => 32,
    }
}

// The most items in the block with number k.
pub fn item_limit(k: u64) -> usize
    ensures { result ≡ item_limit k }
{
    match kind_of_block(k) {
        BlockKind::HomeBalances | BlockKind::FarBalances => Ledger::ACCOUNTS,
        BlockKind::Records => RECORDS_PER_BLOCK,
    }
}

// The count that a block states: its byte 5, and 0 where it has none.
pub fn stated_count(block: &[u8]) -> u64
    ensures { result ≡ stated_count block.now }
{
    u64::from(block.get(5).copied().unwrap_or(0))
}

// The rate and the charge account, which block 0 carries.
// Kept: a slice of 512 bytes, since an array would ask more of those who call it.
pub fn tariff_in(block: &[u8]) -> Tariff
    requires { length block.now ≡ 512 }
    ensures { result ≡ tariff_in block.now }
{
    let rate = u64::from(u16::at(block, 6));
    let account = u64::from(u16::at(block, 8));
    Tariff { rate, account }
}

// The start of the zero bytes in the header of the block with number k.
fn head_end(k: u64) -> usize
    ensures { (result ≡ head_end k) × (result ≤ 10) }
{
    if k == 0 { 10 } else { 6 }
}

// The end of the items in the block with number k and a count that it can have.
fn items_end(k: u64, count: usize) -> usize
    requires { count ≤ item_limit k }
    ensures { (result ≡ 32 + count * item_size k) × (result ≤ 480) }
{
    32 + count * item_size(k)
}

// Whether the block with number k may come after a block of `before` items.
fn follows(k: u64, before: u64) -> bool
    ensures { result ≡ (leb k 2 || leb records_per_block before) }
{
    k <= 2 || RECORDS_PER_BLOCK as u64 <= before
}

// Whether refusal 14 has nothing against the block with number k after a block of `before` items.
// Kept: a slice of 512 bytes, since an array would ask more of those who call it.
pub fn is_block_formed(block: &[u8], k: u64, before: u64) -> bool
    requires { length block.now ≡ 512 }
    ensures { result ≡ block_formed block.now k before }
{
    let count = usize::from(block[5]);
    if block[4] != u8::from(kind_of_block(k)) || count == 0 || item_limit(k) < count {
        return false;
    }
    all_zero(block, head_end(k), 32)
        && all_zero(block, items_end(k, count), 480)
        && follows(k, before)
}
