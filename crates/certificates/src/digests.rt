// A digest of 32 bytes as four words of eight, highest byte first: so it is held in a state and compared.
ghost use Rattle.std.specs.Prelude.{◌≡◌};
ghost use Rattle.certificates.specs.Digests.{digest_bytes, digest_of, same_digest};

use wire::BigEndian;

// The numbers of bytes 0-7, 8-15, 16-23 and 24-31.
#[derive(Clone, Copy, PartialEq, Eq)]
pub struct Digest {
    pub first: u64,
    pub second: u64,
    pub third: u64,
    pub fourth: u64,
}

impl Digest {
    // Whether it is the same as another.
    // Kept: same_digest, which refusal 54 cites, is promised here; inside it is the derived ==.
    #[tactic(auto, unfolding(crate::specs::Digests::same_digest, wire::specs::BigEndian::every))]
    pub fn is(self, other: Digest) -> bool
        ensures { result ≡ same_digest self other }
    {
        self == other
    }
}

// The digest with these bytes.
impl From<[u8; 32]> for Digest {
    ghost from_gives = { λ bytes digest. digest ≡ digest_of bytes };

    fn from(bytes: [u8; 32]) -> Digest {
        Digest {
            first: u64::at(&bytes, 0),
            second: u64::at(&bytes, 8),
            third: u64::at(&bytes, 16),
            fourth: u64::at(&bytes, 24),
        }
    }
}

// Its bytes.
impl From<Digest> for [u8; 32] {
    ghost from_gives = { λ digest bytes. bytes ≡ digest_bytes digest };

    #[tactic(auto, unfolding(crate::specs::Digests::digest_bytes))]
    fn from(digest: Digest) -> [u8; 32] {
        let words = [
            digest.first.bytes(),
            digest.second.bytes(),
            digest.third.bytes(),
            digest.fourth.bytes(),
        ];
        words.as_flattened().try_into().unwrap()
    }
}
