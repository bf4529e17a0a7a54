// An index of a ledger's numbers beside its table, so that the place of a number is found mostly without a scan: the chain of a number,
// and a place as the index keeps it. What walks the chains is in crates/table.
// Kept: chains of places in an array and no map: the library allocates nothing (docs/DECISIONS.md, 55).
ghost use Rattle.std.specs.Prelude.{◌+◌, ◌%◌, ◌<◌, ◌≡◌};
ghost use Rattle.ledgers.specs.Limits.{capacity};
ghost use Rattle.places.specs.NumberIndex.{chain_count};

// The number of chains.
pub const CHAINS: usize = 4096;

// The chain of a number.
pub fn low_bits(x: u64) -> usize
    ensures { result ≡ x % chain_count }
{
    x as usize % CHAINS
}

// Place i as an index keeps it.
pub fn next_place(i: usize) -> u16
    requires { i < capacity }
    ensures { result ≡ i + 1 }
{
    (i + 1) as u16
}
