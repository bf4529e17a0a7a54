// Prints the SHA-256 digests of known messages, each on a line after its label.
#![tactic(auto)]

use std::fmt::{self, Display, Formatter};
use std::io::{self, Print};

// A digest, shown in hexadecimal digits.
#[derive(Clone, Copy)]
struct Hex([u8; 32]);

impl Display for Hex {
    fn fmt<W: fmt::Write>(&self, f: &mut Formatter<W>) -> fmt::Result {
        for byte in &self.0 {
            write!(f, "{byte:02x}")?;
        }
        Ok(())
    }
}

// One line: a label, a space and the digest of a message.
fn line(rt: &HostRuntime, label: &str, message: &[u8]) -> io::Result<()> {
    let digest = Hex(sha256::digest(message));
    println!(rt; "{label} {digest}")
}

// Short messages whose digests are published.
fn published(rt: &HostRuntime) -> io::Result<()> {
    line(rt, "empty", b"")?;
    line(rt, "abc", b"abc")?;
    line(
        rt,
        "448-bits",
        b"abcdbcdecdefdefgefghfghighijhijkijkljklmklmnlmnomnopnopq",
    )?;
    line(
        rt,
        "896-bits",
        b"abcdefghbcdefghicdefghijdefghijkefghijklfghijklmghijklmnhijklmnoijklmnopjklmnopqklmnopqrlmnopqrsmnopqrstnopqrstu",
    )?;
    line(rt, "bd", &[0xbd])?;
    line(rt, "c98c8e55", &[0xc9, 0x8c, 0x8e, 0x55])
}

// One byte, many times.
fn repeated(rt: &HostRuntime) -> io::Result<()> {
    let zeros = [0u8; 1000];
    line(rt, "zeros-55", &zeros[..55])?;
    line(rt, "zeros-56", &zeros[..56])?;
    line(rt, "zeros-57", &zeros[..57])?;
    line(rt, "zeros-64", &zeros[..64])?;
    line(rt, "zeros-1000", &zeros)?;
    line(rt, "41-1000-times", &[0x41; 1000])?;
    line(rt, "55-1005-times", &[0x55; 1005])
}

// One million bytes.
fn million(rt: &HostRuntime) -> io::Result<()> {
    line(rt, "million-a", &[b'a'; 1000000])
}

// The bytes (7 * i + 3) % 256.
fn pattern() -> [u8; 130] {
    let mut p = [0u8; 130];
    for (i, byte) in p.iter_mut().enumerate() {
        *byte = ((7 * i + 3) % 256) as u8;
    }
    p
}

// Every length up to two blocks and two bytes.
fn lengths(rt: &HostRuntime) -> io::Result<()> {
    let p = pattern();
    for n in 0..=p.len() {
        let digest = Hex(sha256::digest(&p[..n]));
        println!(rt; "length-{n:03} {digest}")?;
    }
    Ok(())
}

fn main(rt: HostRuntime) -> io::Result<()> {
    published(&rt)?;
    repeated(&rt)?;
    million(&rt)?;
    lengths(&rt)
}
