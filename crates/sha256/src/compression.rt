// The compression function of SHA-256 (FIPS 180-4, 6.2.2): 16 words of the message schedule and 16 rounds at a time, in
// structs by value.
ghost use Rattle.std.specs.Prelude.{◌≡◌, ◌≤◌, length};
ghost use Rattle.sha256.specs.Sha256.{Ch, Maj, Σ₀, Σ₁, σ₀, σ₁, K, T₁, T₂, round, sums, compressed, initial};
ghost use Rattle.sha256.specs.Sixteen.{next_of, sixteen_words_of, NextSixteen, words_from, sixteen_rounds};

use wire::BigEndian;

// Sixteen words of the message schedule, or sixteen constants.
// Kept: in arrays, with loops over them, they take 1.14 to 1.2 times as long (measured; the bar is 1.05).
#[derive(Clone, Copy)]
pub struct SixteenWords {
    pub w0: u32,
    pub w1: u32,
    pub w2: u32,
    pub w3: u32,
    pub w4: u32,
    pub w5: u32,
    pub w6: u32,
    pub w7: u32,
    pub w8: u32,
    pub w9: u32,
    pub w10: u32,
    pub w11: u32,
    pub w12: u32,
    pub w13: u32,
    pub w14: u32,
    pub w15: u32,
}

// A hash value, or the working variables.
#[derive(Clone, Copy)]
pub struct Hash {
    pub a: u32,
    pub b: u32,
    pub c: u32,
    pub d: u32,
    pub e: u32,
    pub f: u32,
    pub g: u32,
    pub h: u32,
}

// The constants K (FIPS 180-4, 4.2.2).
const CONSTANTS: [u32; 64] = [
    0x428a2f98, 0x71374491, 0xb5c0fbcf, 0xe9b5dba5, 0x3956c25b, 0x59f111f1, 0x923f82a4, 0xab1c5ed5,
    0xd807aa98, 0x12835b01, 0x243185be, 0x550c7dc3, 0x72be5d74, 0x80deb1fe, 0x9bdc06a7, 0xc19bf174,
    0xe49b69c1, 0xefbe4786, 0x0fc19dc6, 0x240ca1cc, 0x2de92c6f, 0x4a7484aa, 0x5cb0a9dc, 0x76f988da,
    0x983e5152, 0xa831c66d, 0xb00327c8, 0xbf597fc7, 0xc6e00bf3, 0xd5a79147, 0x06ca6351, 0x14292967,
    0x27b70a85, 0x2e1b2138, 0x4d2c6dfc, 0x53380d13, 0x650a7354, 0x766a0abb, 0x81c2c92e, 0x92722c85,
    0xa2bfe8a1, 0xa81a664b, 0xc24b8b70, 0xc76c51a3, 0xd192e819, 0xd6990624, 0xf40e3585, 0x106aa070,
    0x19a4c116, 0x1e376c08, 0x2748774c, 0x34b0bcb5, 0x391c0cb3, 0x4ed8aa4a, 0x5b9cca4f, 0x682e6ff3,
    0x748f82ee, 0x78a5636f, 0x84c87814, 0x8cc70208, 0x90befffa, 0xa4506ceb, 0xbef9a3f7, 0xc67178f2,
];

// The initial hash value.
pub fn initial_hash() -> Hash
    ensures { result ≡ initial }
{
    Hash {
        a: 0x6a09e667,
        b: 0xbb67ae85,
        c: 0x3c6ef372,
        d: 0xa54ff53a,
        e: 0x510e527f,
        f: 0x9b05688c,
        g: 0x1f83d9ab,
        h: 0x5be0cd19,
    }
}

// Ch: z where a bit of x is 0, y where it is 1.
#[tactic(auto, unfolding(crate::specs::Sha256::Ch))]
fn ch(x: u32, y: u32, z: u32) -> u32
    ensures { result ≡ Ch x y z }
{
    (x & y) ^ (!x & z)
}

// Maj: what most of three bits are.
#[tactic(auto, unfolding(crate::specs::Sha256::Maj))]
fn maj(x: u32, y: u32, z: u32) -> u32
    ensures { result ≡ Maj x y z }
{
    (x & y) ^ (x & z) ^ (y & z)
}

// Kept: Σ₀, Σ₁, σ₀ and σ₁ stand as FIPS 180-4 names them; one function of their constants would only be called by four such lines.
// Σ₀: three rotations, joined by exclusive or.
fn big_sigma0(x: u32) -> u32
    ensures { result ≡ Σ₀ x }
{
    x.rotate_right(2) ^ x.rotate_right(13) ^ x.rotate_right(22)
}

// Σ₁: three rotations, joined by exclusive or.
fn big_sigma1(x: u32) -> u32
    ensures { result ≡ Σ₁ x }
{
    x.rotate_right(6) ^ x.rotate_right(11) ^ x.rotate_right(25)
}

// σ₀: two rotations and a shift, joined by exclusive or.
fn small_sigma0(x: u32) -> u32
    ensures { result ≡ σ₀ x }
{
    x.rotate_right(7) ^ x.rotate_right(18) ^ (x >> 3)
}

// σ₁: two rotations and a shift, joined by exclusive or.
fn small_sigma1(x: u32) -> u32
    ensures { result ≡ σ₁ x }
{
    x.rotate_right(17) ^ x.rotate_right(19) ^ (x >> 10)
}

// The words of a block of 64 bytes.
fn load(block: &[u8]) -> SixteenWords
    requires { length block.now ≡ 64 }
    ensures { result ≡ sixteen_words_of block.now }
{
    SixteenWords {
        w0: u32::at(block, 0),
        w1: u32::at(block, 4),
        w2: u32::at(block, 8),
        w3: u32::at(block, 12),
        w4: u32::at(block, 16),
        w5: u32::at(block, 20),
        w6: u32::at(block, 24),
        w7: u32::at(block, 28),
        w8: u32::at(block, 32),
        w9: u32::at(block, 36),
        w10: u32::at(block, 40),
        w11: u32::at(block, 44),
        w12: u32::at(block, 48),
        w13: u32::at(block, 52),
        w14: u32::at(block, 56),
        w15: u32::at(block, 60),
    }
}

// The schedule's next word, from those 2, 7, 15 and 16 places before it.
#[tactic(auto, unfolding(crate::specs::Sixteen::next_of))]
fn next_word(x2: u32, x7: u32, x15: u32, x16: u32) -> u32
    ensures { result ≡ next_of x2 x7 x15 x16 }
{
    small_sigma1(x2)
        .wrapping_add(x7)
        .wrapping_add(small_sigma0(x15))
        .wrapping_add(x16)
}

// The sixteen words of the schedule that follow w.
fn next_words(w: SixteenWords) -> SixteenWords
    ensures { NextSixteen w result }
{
    let n0 = next_word(w.w14, w.w9, w.w1, w.w0);
    let n1 = next_word(w.w15, w.w10, w.w2, w.w1);
    let n2 = next_word(n0, w.w11, w.w3, w.w2);
    let n3 = next_word(n1, w.w12, w.w4, w.w3);
    let n4 = next_word(n2, w.w13, w.w5, w.w4);
    let n5 = next_word(n3, w.w14, w.w6, w.w5);
    let n6 = next_word(n4, w.w15, w.w7, w.w6);
    let n7 = next_word(n5, n0, w.w8, w.w7);
    let n8 = next_word(n6, n1, w.w9, w.w8);
    let n9 = next_word(n7, n2, w.w10, w.w9);
    let n10 = next_word(n8, n3, w.w11, w.w10);
    let n11 = next_word(n9, n4, w.w12, w.w11);
    let n12 = next_word(n10, n5, w.w13, w.w12);
    let n13 = next_word(n11, n6, w.w14, w.w13);
    let n14 = next_word(n12, n7, w.w15, w.w14);
    let n15 = next_word(n13, n8, n0, w.w15);
    SixteenWords {
        w0: n0,
        w1: n1,
        w2: n2,
        w3: n3,
        w4: n4,
        w5: n5,
        w6: n6,
        w7: n7,
        w8: n8,
        w9: n9,
        w10: n10,
        w11: n11,
        w12: n12,
        w13: n13,
        w14: n14,
        w15: n15,
    }
}

// T₁ of a round with the constant k and the word w.
fn first_sum(s: Hash, k: u32, w: u32) -> u32
    ensures { result ≡ T₁ s k w }
{
    s.h.wrapping_add(big_sigma1(s.e))
        .wrapping_add(ch(s.e, s.f, s.g))
        .wrapping_add(k)
        .wrapping_add(w)
}

// T₂ of a round.
fn second_sum(s: Hash) -> u32
    ensures { result ≡ T₂ s }
{
    big_sigma0(s.a).wrapping_add(maj(s.a, s.b, s.c))
}

// The working variables after a round with the constant k and the word w.
#[tactic(auto, unfolding(crate::specs::Sha256::round))]
fn one_round(s: Hash, k: u32, w: u32) -> Hash
    ensures { result ≡ round s k w }
{
    let t1 = first_sum(s, k, w);
    let t2 = second_sum(s);
    Hash {
        a: t1.wrapping_add(t2),
        b: s.a,
        c: s.b,
        d: s.c,
        e: s.d.wrapping_add(t1),
        f: s.e,
        g: s.f,
        h: s.g,
    }
}

// Sixteen of the constants from index i on.
#[tactic(auto, unfolding(crate::specs::Sha256::K))]
fn constants_from(i: usize) -> SixteenWords
    requires { i ≤ 48 }
    ensures { result ≡ words_from K i }
{
    SixteenWords {
        w0: CONSTANTS[i],
        w1: CONSTANTS[i + 1],
        w2: CONSTANTS[i + 2],
        w3: CONSTANTS[i + 3],
        w4: CONSTANTS[i + 4],
        w5: CONSTANTS[i + 5],
        w6: CONSTANTS[i + 6],
        w7: CONSTANTS[i + 7],
        w8: CONSTANTS[i + 8],
        w9: CONSTANTS[i + 9],
        w10: CONSTANTS[i + 10],
        w11: CONSTANTS[i + 11],
        w12: CONSTANTS[i + 12],
        w13: CONSTANTS[i + 13],
        w14: CONSTANTS[i + 14],
        w15: CONSTANTS[i + 15],
    }
}

// Sixteen rounds with the words w and the constants k.
fn sixteen(s: Hash, w: SixteenWords, k: SixteenWords) -> Hash
    ensures { result ≡ sixteen_rounds s k w }
{
    let s1 = one_round(s, k.w0, w.w0);
    let s2 = one_round(s1, k.w1, w.w1);
    let s3 = one_round(s2, k.w2, w.w2);
    let s4 = one_round(s3, k.w3, w.w3);
    let s5 = one_round(s4, k.w4, w.w4);
    let s6 = one_round(s5, k.w5, w.w5);
    let s7 = one_round(s6, k.w6, w.w6);
    let s8 = one_round(s7, k.w7, w.w7);
    let s9 = one_round(s8, k.w8, w.w8);
    let s10 = one_round(s9, k.w9, w.w9);
    let s11 = one_round(s10, k.w10, w.w10);
    let s12 = one_round(s11, k.w11, w.w11);
    let s13 = one_round(s12, k.w12, w.w12);
    let s14 = one_round(s13, k.w13, w.w13);
    let s15 = one_round(s14, k.w14, w.w14);
    one_round(s15, k.w15, w.w15)
}

// The sums of a hash value and the working variables, word by word.
#[tactic(auto, unfolding(crate::specs::Sha256::sums))]
fn add_words(s: Hash, v: Hash) -> Hash
    ensures { result ≡ sums s v }
{
    Hash {
        a: s.a.wrapping_add(v.a),
        b: s.b.wrapping_add(v.b),
        c: s.c.wrapping_add(v.c),
        d: s.d.wrapping_add(v.d),
        e: s.e.wrapping_add(v.e),
        f: s.f.wrapping_add(v.f),
        g: s.g.wrapping_add(v.g),
        h: s.h.wrapping_add(v.h),
    }
}

// The hash value after one block of 64 bytes.
pub fn compress(s: Hash, block: &[u8]) -> Hash
    requires { length block.now ≡ 64 }
    ensures { result ≡ compressed s block.now }
{
    let w0 = load(block);
    let s0 = sixteen(s, w0, constants_from(0));
    let w1 = next_words(w0);
    let s1 = sixteen(s0, w1, constants_from(16));
    let w2 = next_words(w1);
    let s2 = sixteen(s1, w2, constants_from(32));
    let w3 = next_words(w2);
    add_words(s, sixteen(s2, w3, constants_from(48)))
}
