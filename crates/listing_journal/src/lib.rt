// Lists a journal: reads it from a reader and prints its lines to a writer, in chunks of 64 blocks. That the chunks' texts are the
// listing is proved (crates listing, listing_opening, listing_blocks), and so is what is made of the bytes that were handed over, from the
// opening to a turn after which the listing does not go on. What is read and written is read off the code (docs/DECISIONS.md, 47).
#![tactic(auto)]

ghost use Rattle.std.specs.Prelude.{List, ℕ, ◌*◌, ◌≡◌, ◌≤◌, length, replicate, take, true};
ghost use Rattle.std.specs.ControlFlow.{MatchControlFlow};
ghost use Rattle.listing.specs.Chunks.{chunk_size};
ghost use Rattle.listing.specs.Listing.{opened_progress};
ghost use Rattle.listing_blocks.specs.Cursors.{progress_of};
ghost use Rattle.listing_journal.specs.Turns.{LastTurnFrom, JournalListed, SomeLastTurn, TurnGoesOn, TurnStops, goes_on};
ghost use Rattle.pair_rows.specs.Rows.{FiguresReady};
ghost use Rattle.table.specs.Table.{index_length};

use arrayvec::ArrayVec;
use journal_blocks::{BLOCK_SIZE, RECORDS_PER_BLOCK};
use listing_blocks::{Cursor, list_chunk};
use listing_lines::LINE;
use listing_opening::{Start, list_start};
use pair_core::{INDEXES, WORDS};
use pair_rows::Figures;
use std::io::{Read, Write};
use std::ops::ControlFlow;

// The bytes of blocks 0 and 1.
const OPENING: usize = 2 * BLOCK_SIZE;
// The blocks of a chunk.
const CHUNK_BLOCKS: usize = 64;
// The bytes of a chunk.
const CHUNK: usize = CHUNK_BLOCKS * BLOCK_SIZE;
// The room that a chunk's lines take.
const TEXT: usize = CHUNK_BLOCKS * RECORDS_PER_BLOCK * LINE;
// The most chunks after blocks 0 and 1.
const CHUNKS: u64 = 1024;

// Kept: printed, opened and last, and a turn's written, stand side by side: JournalListed and TurnFrom speak of each.
// What a turn leaves: where the listing stands, the bytes that it read, the length of the text that it handed on, and whether that was
// written.
#[derive(Clone, Copy)]
pub struct TurnResult {
    pub cursor: Cursor,
    pub read: usize,
    pub text: usize,
    pub written: bool,
}

// What a listing leaves: the bytes that it read first, the end of the text that it handed on first, whether that was written and the
// opening accepted, and the last turn after it, where there was one.
#[derive(Clone, Copy)]
pub struct ListResult {
    pub first: usize,
    pub end: usize,
    pub printed: bool,
    pub opened: bool,
    pub last: Option<TurnResult>,
}

// Reads until the buffer is full, the input ends or a read fails: how many bytes stand at its start.
fn read_full<R: Read>(source: &mut R, buffer: &mut [u8]) -> usize
    ensures fits { result ≤ length buffer.new }
    ensures part { result ≡ length (take result buffer.new) }
{
    let mut done = 0;
    // Kept: each read says how far it came, so that no `for` fits, and after an error `read_exact` does not tell how much it read.
    while done < buffer.len() {
        match source.read(&mut buffer[done..]) {
            Ok(0) | Err(_) => return done,
            Ok(n) => done += n,
        }
    }
    done
}

// Writes all of the bytes, up to a write that takes none or fails: whether all were written.
// Kept: the library's write_all tries a write again that was broken off, without end where each is: a write that fails ends the listing.
fn write_all<W: Write>(target: &mut W, bytes: &[u8]) -> bool {
    let mut done = 0;
    while done < bytes.len() {
        match target.write(&bytes[done..]) {
            Ok(0) | Err(_) => return false,
            Ok(n) => done += n,
        }
    }
    true
}

// The cursor after an accepted opening, with the count of block 1 and the opening's figures.
fn first_cursor(before: u64, figures: Figures) -> Cursor
    ensures stands { (s : List ℕ) → progress_of result true s ≡ opened_progress s before }
    ensures figures { result.figures ≡ figures }
{
    Cursor {
        index: 0,
        block: 2,
        before,
        figures,
    }
}

// Whether the listing goes on after a chunk: its text was written, it was full and had no bad block.
#[tactic(auto, unfolding(crate::specs::Turns::goes_on, wire::specs::BigEndian::every))]
fn goes_on(written: bool, n: usize, going: bool) -> bool
    ensures { result ≡ goes_on written n going }
{
    written && n == CHUNK && going
}

// One chunk: read, listed and written, after which the listing goes on or stops.
// Kept: reader, writer, words and index are lent side by side: a value of four loans would say in each contract that they stay the same.
fn turn<R: Read, W: Write>(
    source: &mut R,
    target: &mut W,
    cursor: Cursor,
    input: &mut [u8],
    out: &mut ArrayVec<u8, TEXT>,
    state: &mut [u64; WORDS],
    index: &mut [u16; INDEXES],
) -> ControlFlow<TurnResult, TurnResult>
    requires { (length input.old ≡ chunk_size) × FiguresReady state.old index.old cursor.figures }
    ensures { MatchControlFlow result
        (λ told. TurnGoesOn (progress_of cursor true state.old) input.new out.new.items told state.new index.new)
        (λ told. TurnStops (progress_of cursor true state.old) input.new out.new.items told state.new) }
{
    let mut cursor = cursor;
    let read = read_full(source, input);
    out.clear();
    let listed = list_chunk(&mut cursor, &input[..read], out, state, index);
    let text = out.len();
    let written = write_all(target, out.as_slice());
    let told = TurnResult {
        cursor,
        read,
        text,
        written,
    };
    if goes_on(written, read, listed.is_continue()) {
        ControlFlow::Continue(told)
    } else {
        ControlFlow::Break(told)
    }
}

// The blocks after an accepted opening, chunk by chunk, up to a bad block, the end of the journal or a text that could not be written:
// the last turn. As many turns as there are chunks get there from every journal.
fn list_rest<R: Read, W: Write>(
    source: &mut R,
    target: &mut W,
    start: Start,
    input: &mut [u8],
    out: &mut ArrayVec<u8, TEXT>,
    state: &mut [u64; WORDS],
    index: &mut [u16; INDEXES],
) -> TurnResult
    requires { (length input.old ≡ chunk_size) × FiguresReady state.old index.old start.figures }
    ensures { LastTurnFrom (opened_progress state.old start.before) input.new out.new.items result state.new }
{
    let mut cursor = first_cursor(start.before, start.figures);
    for _ in 0..CHUNKS {
        match turn(source, target, cursor, input, out, state, index) {
            ControlFlow::Continue(told) => cursor = told.cursor,
            ControlFlow::Break(last) => return last,
        }
    }
    unreachable!()
}

// The rest of a journal after an accepted opening, with a state that holds no record yet: the last turn.
fn list_opened<R: Read, W: Write>(
    source: &mut R,
    target: &mut W,
    start: Start,
    out: &mut ArrayVec<u8, TEXT>,
    state: &mut [u64; WORDS],
) -> TurnResult
    requires { FiguresReady state.old (replicate (2 * index_length) 0) start.figures }
    ensures { SomeLastTurn (opened_progress state.old start.before) result }
{
    let mut input = [0u8; CHUNK];
    let mut index = [0u16; INDEXES];
    list_rest(source, target, start, &mut input, out, state, &mut index)
}

// The listing of the journal that `source` reads, to `target`: the opening, and where it was written and accepted the rest. Not published:
// a contract cannot say what is read or written (docs/DECISIONS.md, 47).
pub fn list<R: Read, W: Write>(source: &mut R, target: &mut W) -> ListResult
    ensures { JournalListed result }
{
    let mut out = ArrayVec::new();
    let mut state = [0u64; WORDS];
    let mut opening = [0u8; OPENING];
    let first = read_full(source, &mut opening);
    let start = list_start(&opening[..first], &mut out, &mut state);
    let end = out.len();
    let printed = write_all(target, out.as_slice());
    let last = match start {
        Some(start) if printed => Some(list_opened(source, target, start, &mut out, &mut state)),
        _ => None,
    };
    ListResult {
        first,
        end,
        printed,
        opened: start.is_some(),
        last,
    }
}
