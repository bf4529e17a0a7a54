// The far committee and its certificates (document 02, U5): whether the mask of signers has enough bits, in which order a certificate is
// refused, and the digests of keys. Signatures are the host's: the mask says whose it found good.
#![tactic(auto)]

pub mod digests; // digests.rt: a digest's 32 bytes as four words

ghost use Rattle.std.specs.Prelude.{◌≡◌};
ghost use Rattle.answers.specs.Refusals.{refused_by};
ghost use Rattle.certificates.specs.Certificates.{certificate_refusal, committee_refusal, enough_signers, follows, half_allowed};
ghost use Rattle.certificates.specs.Certificates.{leaves_allowed, refusal_by};

use answers::{Refusal, refuse_if};
pub use digests::Digest;

// What a far committee certifies, as it is handed in.
#[derive(Clone, Copy)]
pub struct Certificate {
    pub number: u64,
    // The root of the tree of the pending sendings, and the number of its leaves.
    pub root: Digest,
    pub leaves: u64,
    // The keys of the next committee.
    pub next_keys: Digest,
    // The keys that it was checked under.
    pub keys: Digest,
    // The members whose signature the host found good, member 0 the lowest bit.
    pub signers: u64,
}

// A committee of 2k members.
#[derive(Clone, Copy)]
pub struct Committee {
    // Document 02: k.
    pub half: u64,
    // The number of the last passed certificate; 0 before the first.
    pub last: u64,
    // The keys in force.
    pub keys: Digest,
}

impl Committee {
    // The greatest k.
    pub const MAX_HALF: u64 = 32;
}

// Whether a committee may have twice as many members.
// Kept: this and are_leaves are one contains each; a function of the limit would be no shorter, nor say more.
#[tactic(auto, unfolding(crate::specs::Certificates::half_allowed, wire::specs::BigEndian::every))]
pub fn is_half(half: u64) -> bool
    ensures { result ≡ half_allowed half }
{
    (1..=Committee::MAX_HALF).contains(&half)
}

impl Certificate {
    // The most leaves.
    pub const MAX_LEAVES: u64 = 4096;

    // The refusal of a certificate by the far ledger's committee, where it has one: 21, 53, 54 and 55 in order.
    #[tactic(auto, unfolding(crate::specs::Certificates::certificate_refusal))]
    pub fn refusal(self, far: Option<Committee>) -> Result<(), Refusal>
        ensures { refused_by result ≡ certificate_refusal far self }
    {
        refuse_if(!are_leaves(self.leaves), Refusal::RecordForm)?;
        committee_refusal(far, self)
    }
}

// Whether a tree may have so many leaves.
#[tactic(auto, unfolding(crate::specs::Certificates::leaves_allowed, wire::specs::BigEndian::every))]
fn are_leaves(leaves: u64) -> bool
    ensures { result ≡ leaves_allowed leaves }
{
    (1..=Certificate::MAX_LEAVES).contains(&leaves)
}

// Whether a number is the one after the last; none is after 2^64-1.
#[tactic(auto, unfolding(crate::specs::Certificates::follows, wire::specs::BigEndian::every))]
fn is_next(last: u64, number: u64) -> bool
    ensures { result ≡ follows last number }
{
    last < u64::MAX && number == last + 1
}

// Whether more than half of the committee's bits are set, and none beyond them.
fn are_enough(half: u64, signers: u64) -> bool
    ensures { result ≡ enough_signers half signers }
{
    // as many zeros above as there are bits beyond, at least
    half < u64::from(signers.count_ones()) && 64 <= u64::from(signers.leading_zeros()) + 2 * half
}

// The refusal of a certificate by a committee, 53, 54 and 55 in order.
#[tactic(auto, unfolding(crate::specs::Certificates::refusal_by))]
fn refusal_by(c: Committee, x: Certificate) -> Result<(), Refusal>
    ensures { refused_by result ≡ refusal_by c x }
{
    let in_force = c.keys;
    refuse_if(!is_next(c.last, x.number), Refusal::CertificateNumber)?;
    refuse_if(!in_force.is(x.keys), Refusal::KeysNotInForce)?;
    refuse_if(!are_enough(c.half, x.signers), Refusal::SignersTooFew)
}

// The same where there may be no committee: then 53.
fn committee_refusal(far: Option<Committee>, x: Certificate) -> Result<(), Refusal>
    ensures { refused_by result ≡ committee_refusal far x }
{
    let committee = far.ok_or(Refusal::CertificateNumber)?;
    refusal_by(committee, x)
}
