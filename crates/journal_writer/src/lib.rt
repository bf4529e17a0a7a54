// The journal's block writer, for all three kinds of block. It copies records without judging them.
#![tactic(auto)]

ghost use Rattle.std.specs.Prelude.{◌≡◌, ◌++◌, ◌-◌, ◌≤◌, length, take, replicate};
ghost use Rattle.answers.specs.Answers.{answer, answer_of};
ghost use Rattle.journal_writer.specs.Written.{tariff_bytes, header, tariff_fits, allowed, write_refusal, written};
ghost use Rattle.ledgers.specs.Limits.{account_limit};
ghost use Rattle.sha256.specs.Sha256.{sha256};
ghost use Rattle.tariffs.specs.Tariffs.{parts};

use answers::{Answer, Refusal, Refused};
use journal_blocks::{BLOCK_SIZE, MAX_BLOCK, item_limit, item_size, kind_of_block};
use tariffs::Tariff;
use wire::BigEndian;

// Whether rate and charge account may stand in block k beside so many balances: looked at for block 0 only.
fn tariff_fits(k: u64, tariff: Tariff, count: u64) -> bool
    ensures { result ≡ tariff_fits k tariff count }
{
    k != 0 || tariff.is_allowed(count)
}

// Refusal 4 has nothing against a write.
// Kept: the kind is a byte, as README's write takes it: 4 answers a byte that is no kind's, which no BlockKind can be.
#[tactic(auto, unfolding(crate::specs::Written::allowed, wire::specs::BigEndian::every))]
fn is_allowed(size: usize, k: u64, kind: u8, tariff: Tariff, n: usize) -> bool
    ensures { result ≡ allowed size k kind tariff n }
{
    if size != BLOCK_SIZE || MAX_BLOCK < k || kind != u8::from(kind_of_block(k)) {
        return false;
    }
    let item = item_size(k);
    let count = n / item;
    if n % item != 0 || count == 0 || item_limit(k) < count {
        return false;
    }
    tariff_fits(k, tariff, count as u64)
}

// Bytes 6-9 of block k: rate and charge account in block 0, zeros in all others.
fn tariff_bytes(k: u32, tariff: Tariff) -> [u8; 4]
    requires { k ≡ 0 → (tariff.rate ≤ parts) × (tariff.account ≤ account_limit) }
    ensures { result ≡ tariff_bytes k tariff }
{
    if k != 0 {
        return [0, 0, 0, 0];
    }
    let rate = (tariff.rate as u16).bytes();
    let account = (tariff.account as u16).bytes();
    [rate[0], rate[1], account[0], account[1]]
}

// The first 32 bytes of block k.
fn header_of(k: u32, tariff: Tariff, count: u8) -> [u8; 32]
    requires { k ≡ 0 → (tariff.rate ≤ parts) × (tariff.account ≤ account_limit) }
    ensures { result ≡ header k tariff count }
{
    let mut head = [0; 32];
    head[..4].copy_from_slice(&k.bytes());
    head[4] = u8::from(kind_of_block(u64::from(k)));
    head[5] = count;
    head[6..10].copy_from_slice(&tariff_bytes(k, tariff));
    head
}

// Puts bytes in the place of as many.
// Kept: one by one: into a lent list, copy_from_slice of no fixed length asks for memmove, beyond docs/DECISIONS.md, 55.
fn put(s: &mut [u8], from: &[u8])
    requires { length s.old ≡ length from.now }
    ensures { s.new ≡ from.now }
{
    for i in 0..s.len() {
        s[i] = from[i];
    }
}

// The header, the items and zeros into the first 480 bytes.
fn lay(out: &mut [u8], head: [u8; 32], items: &[u8])
    requires { (length out.old ≡ 512) × (length items.now ≤ 448) }
    ensures { take 480 out.new ≡ head ++ (items.now ++ replicate (448 - length items.now) 0) }
{
    let end = 32 + items.len();
    out[..32].copy_from_slice(&head);
    put(&mut out[32..end], items);
    out[end..480].fill(0);
}

// The check of the first 480 bytes into the last 32.
fn seal(out: &mut [u8])
    requires { length out.old ≡ 512 }
    ensures { out.new ≡ take 480 out.old ++ sha256 (take 480 out.old) }
{
    let d = sha256::digest(&out[..480]);
    out[480..].copy_from_slice(&d);
}

// Writes items as block k of a kind into 512 bytes of output, into block 0 rate and charge account too: for every other block they are
// not looked at. A write that is refused leaves the output as it came.
// Kept: the kind is a byte, as README says of write: 4 answers a byte that is no kind's, which no BlockKind can be.
pub fn write(out: &mut [u8], k: u64, kind: u8, tariff: Tariff, items: &[u8]) -> Answer
    ensures answers { answer_of result ≡ answer (write_refusal (length out.old) k kind tariff (length items.now)) k }
    ensures leaves { out.new ≡ written out.old k kind tariff items.now }
{
    if !is_allowed(out.len(), k, kind, tariff, items.len()) {
        return Err(Refused {
            refusal: Refusal::NotAllowed,
            place: k,
        });
    }
    let count = (items.len() / item_size(k)) as u8;
    let head = header_of(k as u32, tariff, count);
    lay(out, head, items);
    seal(out);
    Ok(())
}
