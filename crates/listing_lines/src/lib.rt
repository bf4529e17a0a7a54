// The lines of a listing, each put at the end of a text in fixed memory that has room for it.
#![tactic(auto)]

pub mod hex; // hex.rt: the hexadecimal digits of a number

ghost use Rattle.std.specs.Prelude.{◌+◌, ◌≤◌, ◌++◌, ◌≡◌, length};
ghost use Rattle.listing_lines.specs.Lines.{decimal, fault_line, figures_room, figures_text, header_line, line_room, number_text};
ghost use Rattle.listing_lines.specs.Lines.{open_line, record_line};

use arrayvec::ArrayVec;
use hex::digits;
use itoa::Buffer;
use wire::BigEndian;

// The room for a line of a record, in characters.
pub const LINE: usize = 128;
// The room for the figures with the blanks and the line feed.
pub const FIGURES: usize = 64;

// ## Fields

fn put<const N: usize>(out: &mut ArrayVec<u8, N>, text: &[u8])
    requires { length out.old.items + length text.now ≤ N }
    ensures { out.new.items ≡ out.old.items ++ text.now }
{
    let _fits = out.try_extend_from_slice(text);
}

fn put_decimal<const N: usize>(out: &mut ArrayVec<u8, N>, x: u64)
    requires { length out.old.items + 20 ≤ N }
    ensures puts { out.new.items ≡ out.old.items ++ decimal x }
    ensures fits { length out.new.items ≤ length out.old.items + 20 }
{
    let mut text = Buffer::new();
    put(out, text.format(x).as_bytes());
}

fn put_number<const N: usize>(out: &mut ArrayVec<u8, N>, bytes: &[u8])
    requires { (length out.old.items + 16 ≤ N) × (length bytes.now ≡ 32) }
    ensures puts { out.new.items ≡ out.old.items ++ number_text bytes.now }
    ensures fits { length out.new.items ≤ length out.old.items + 16 }
{
    put(out, &digits(u64::at(bytes, 8)));
}

// The figures: home total, far total and in flight.
#[tactic(auto, using(std::proofs::Common::append_assoc), unfolding(crate::specs::Lines::figures_text))]
pub fn put_figures<const N: usize>(text: &mut ArrayVec<u8, N>, home: u64, far: u64, flight: u64)
    requires { length text.old.items + figures_room ≤ N }
    ensures puts { text.new.items ≡ text.old.items ++ figures_text home far flight }
    ensures fits { length text.new.items ≤ length text.old.items + figures_room }
{
    text.push(b' ');
    put_decimal(text, home);
    text.push(b' ');
    put_decimal(text, far);
    text.push(b' ');
    put_decimal(text, flight);
    text.push(b'\n');
}

// ## Lines
// Kept: each line asks for its room, which no type of the text can say: a full text is one too.
// Kept: answers, refusals and figures are numbers: docs/PROVED.md names listing_lines::put_.., so none takes a narrower type.

// The first line.
#[tactic(auto, unfolding(crate::specs::Lines::header_line))]
pub fn put_header<const N: usize>(out: &mut ArrayVec<u8, N>)
    requires { length out.old.items + line_room ≤ N }
    ensures puts { out.new.items ≡ out.old.items ++ header_line }
    ensures fits { length out.new.items ≤ length out.old.items + line_room }
{
    put(out, b"record number answer home far flight\n");
}

// The line of an accepted opening.
#[tactic(auto, using(std::proofs::Common::append_assoc), unfolding(crate::specs::Lines::open_line))]
pub fn put_open<const N: usize>(out: &mut ArrayVec<u8, N>, home: u64, far: u64)
    requires { length out.old.items + line_room ≤ N }
    ensures puts { out.new.items ≡ out.old.items ++ open_line (figures_text home far 0) }
    ensures fits { length out.new.items ≤ length out.old.items + line_room }
{
    put(out, b"open - 0");
    put_figures(out, home, far, 0);
}

// The line of a record, with the text of the figures.
#[tactic(auto, using(std::proofs::Common::append_assoc), unfolding(crate::specs::Lines::record_line))]
pub fn put_record<const N: usize>(
    out: &mut ArrayVec<u8, N>,
    index: u64,
    bytes: &[u8],
    answer: u64,
    figures: &[u8],
)
    requires { (length out.old.items + line_room ≤ N) × (length bytes.now ≡ 32) × (length figures.now ≤ figures_room) }
    ensures puts { out.new.items ≡ out.old.items ++ record_line index bytes.now answer figures.now }
    ensures fits { length out.new.items ≤ length out.old.items + line_room }
{
    put_decimal(out, index);
    out.push(b' ');
    put_number(out, bytes);
    out.push(b' ');
    put_decimal(out, answer);
    put(out, figures);
}

// The line of a bad block.
#[tactic(auto, using(std::proofs::Common::append_assoc), unfolding(crate::specs::Lines::fault_line))]
pub fn put_fault<const N: usize>(out: &mut ArrayVec<u8, N>, refusal: u64, block: u64)
    requires { length out.old.items + line_room ≤ N }
    ensures puts { out.new.items ≡ out.old.items ++ fault_line refusal block }
    ensures fits { length out.new.items ≤ length out.old.items + line_room }
{
    put(out, b"fault ");
    put_decimal(out, refusal);
    out.push(b' ');
    put_decimal(out, block);
    out.push(b'\n');
}
