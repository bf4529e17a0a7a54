// Numbers of 2, 4 and 8 bytes, highest byte first, as bytes and in byte slices, runs of zero bytes, and where the parts of bytes stand:
// what records, journal blocks, lists of records and SHA-256 share. A number is read from bytes that lie within the slice.
#![tactic(auto)]

pub mod parts; // parts.rt: where a part of bytes ends

ghost use Rattle.std.specs.Prelude.{◌≡◌, ℕ, ◌+◌, ◌-◌, ◌≤◌, length, take, drop};
ghost use Rattle.wire.specs.BigEndian.{field, bytes_of, value, zeros, same};

pub use parts::part_end;

// A number that N bytes write, highest byte first.
pub trait BigEndian<const N: usize>: Sized {
    // The number that a value is.
    ghost number: { Self → ℕ };

    // The number that N bytes write.
    fn of(bytes: [u8; N]) -> Self
        ensures { number result ≡ value bytes.entry };

    // The number's bytes.
    fn bytes(self) -> [u8; N]
        ensures { result ≡ bytes_of N (number self) };

    // The number in the N bytes from index i.
    #[tactic(auto, unfolding(crate::specs::BigEndian::field))]
    final fn at(s: &[u8], i: usize) -> Self
        requires { i + N ≤ length s.now }
        ensures { number result ≡ field i N s.now }
    {
        Self::of(s[i..i + N].try_into().unwrap())
    }
}

// Kept: an impl for each width: from_be_bytes is each number's own method, and the gate refuses an impl by a macro of ours.
impl BigEndian<2> for u16 {
    ghost number = { λ x. x };

    fn of(bytes: [u8; 2]) -> u16
        ensures { result ≡ value bytes }
    {
        u16::from_be_bytes(bytes)
    }

    #[tactic(auto, unfolding(crate::specs::BigEndian::bytes_of))]
    fn bytes(self) -> [u8; 2]
        ensures { result ≡ bytes_of 2 self }
    {
        u16::to_be_bytes(self)
    }
}

impl BigEndian<4> for u32 {
    ghost number = { λ x. x };

    fn of(bytes: [u8; 4]) -> u32
        ensures { result ≡ value bytes }
    {
        u32::from_be_bytes(bytes)
    }

    #[tactic(auto, unfolding(crate::specs::BigEndian::bytes_of))]
    fn bytes(self) -> [u8; 4]
        ensures { result ≡ bytes_of 4 self }
    {
        u32::to_be_bytes(self)
    }
}

impl BigEndian<8> for u64 {
    ghost number = { λ x. x };

    fn of(bytes: [u8; 8]) -> u64
        ensures { result ≡ value bytes }
    {
        u64::from_be_bytes(bytes)
    }

    #[tactic(auto, unfolding(crate::specs::BigEndian::bytes_of))]
    fn bytes(self) -> [u8; 8]
        ensures { result ≡ bytes_of 8 self }
    {
        u64::to_be_bytes(self)
    }
}

// Whether the bytes from index a up to index e are zero.
// Kept: one all over bytes, as places::are_zero is over words; a function generic in the number would be longer than both.
pub fn all_zero(s: &[u8], a: usize, e: usize) -> bool
    requires { (a ≤ e) × (e ≤ length s.now) }
    ensures { result ≡ zeros (take (e - a) (drop a s.now)) }
{
    s[a..e].iter().all(|x| *x == 0)
}

// Whether two slices of one length hold the same bytes.
// Kept: same, which checked cites, is promised here; inside it is the library's ==.
#[tactic(auto, using(crate::proofs::Lists::same_pointwise))]
pub fn equal(a: &[u8], b: &[u8]) -> bool
    requires { length a.now ≡ length b.now }
    ensures { result ≡ same a.now b.now }
{
    a == b
}
