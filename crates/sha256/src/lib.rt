// SHA-256 (FIPS 180-4) of a byte string of any length.
#![tactic(auto)]

pub mod compression; // compression.rt: the compression function

ghost use Rattle.std.specs.Prelude.{◌≡◌, ◌+◌, ◌/◌, ◌%◌, ◌++◌, length, take};
ghost use Rattle.sha256.specs.Sha256.{zero_count, padding, padded, hashed, hash_bytes, sha256};

use compression::{Hash, compress, initial_hash};
use wire::BigEndian;

// Where the length stands in the last block.
const LENGTH_AT: usize = 56;

// The hash value after the whole blocks of a message.
fn whole_blocks(message: &[u8]) -> Hash
    ensures { result ≡ hashed (padded message.now) (length message.now / 64) }
{
    let mut s = initial_hash();
    for block in message.chunks_exact(64) {
        s = compress(s, block);
    }
    s
}

// What is left of a message of n bytes after its whole blocks, with its padding: one block or two, and zeros after them.
// The length stands at index 56, or at 120 where it does not fit there.
fn last_bytes(rest: &[u8], n: usize) -> [u8; 128]
    requires { length rest.now ≡ n % 64 }
    ensures { take (n % 64 + zero_count n + 9) result ≡ rest.now ++ padding n }
{
    let mut b = [0u8; 128];
    let r = rest.len();
    b[..r].copy_from_slice(rest);
    b[r] = 0x80;
    let at = r + 1 + (119 - r) % 64;
    let bits = (n as u64).wrapping_mul(8);
    b[at..at + 8].copy_from_slice(&bits.bytes());
    b
}

// The bytes of a hash value.
// Kept: a private function named as its definition, called twice; a From would say no more.
#[tactic(auto, unfolding(crate::specs::Sha256::hash_bytes))]
fn hash_bytes(s: Hash) -> [u8; 32]
    ensures { result ≡ hash_bytes s }
{
    let words = [
        s.a.bytes(),
        s.b.bytes(),
        s.c.bytes(),
        s.d.bytes(),
        s.e.bytes(),
        s.f.bytes(),
        s.g.bytes(),
        s.h.bytes(),
    ];
    words.as_flattened().try_into().unwrap()
}

// The digest of a message.
pub fn digest(message: &[u8]) -> [u8; 32]
    ensures { result ≡ sha256 message.now }
{
    let n = message.len();
    let s = whole_blocks(message);
    let b = last_bytes(message.chunks_exact(64).remainder(), n);
    let t = compress(s, &b[..64]);
    if n % 64 < LENGTH_AT {
        return hash_bytes(t);
    }
    hash_bytes(compress(t, &b[64..]))
}
