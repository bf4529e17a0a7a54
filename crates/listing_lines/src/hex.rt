// The lower-case hexadecimal digits of a number of 64 bits, each worked out from its four bits; eight at a time, one in each byte of a
// word.
ghost use Rattle.std.specs.Prelude.{◌≤◌, map, ◌≡◌};
ghost use Rattle.std.specs.Int.Bits.{bit_and};
ghost use Rattle.listing_lines.specs.Hex.{high_digit, low_digit};
ghost use Rattle.listing_lines.specs.Lines.{hexadecimal};
ghost use Rattle.wire.specs.BigEndian.{bytes_of};

use wire::BigEndian;

// 1 in each byte.
const ONES: u64 = 0x0101_0101_0101_0101;

// The bits of a number that a mask has too; no more than the mask.
fn masked(x: u64, mask: u64) -> u64
    ensures { (result ≡ bit_and x mask) × (result ≤ mask) }
{
    x & mask
}

// The second digit of each byte: '0' and its lower four bits, and from 10 on 39 more, the way from the character after '9' to 'a'. A letter
// is told by 6 more: 10 then reaches 16.
fn low_digits(x: u64) -> u64
    ensures { bytes_of 8 result ≡ map low_digit (bytes_of 8 x) }
{
    let bits = masked(x, 15 * ONES);
    let letters = masked((bits + 6 * ONES) / 16, ONES);
    bits + 48 * ONES + letters * 39
}

// The first digit of each byte: the second one, after a shift by four bits.
fn high_digits(x: u64) -> u64
    ensures { bytes_of 8 result ≡ map high_digit (bytes_of 8 x) }
{
    low_digits(x / 16)
}

// The 16 digits of a number.
pub fn digits(x: u64) -> [u8; 16]
    ensures { result ≡ hexadecimal (bytes_of 8 x) }
{
    let h = high_digits(x).bytes();
    let l = low_digits(x).bytes();
    [
        h[0], l[0], h[1], l[1], h[2], l[2], h[3], l[3], h[4], l[4], h[5], l[5], h[6], l[6], h[7],
        l[7],
    ]
}
