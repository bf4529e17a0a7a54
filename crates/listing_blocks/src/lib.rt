// A listing's text, chunk by chunk, in fixed memory: the state stands in lent words and is known to be accepted, each block is hashed
// once, and nothing of the state is copied.
#![tactic(auto)]

pub mod cursor; // cursor.rt: where a listing stands

ghost use Rattle.std.specs.Prelude.{◌+◌, ◌*◌, ◌++◌, ◌≤◌, ◌≡◌, length, true, OnErr, OnOk};
ghost use Rattle.answers.specs.Refusals.{refused_by};
ghost use Rattle.journal_blocks.specs.Blocks.{max_block, first_records, records_per_block};
ghost use Rattle.listing.specs.Chunks.{after_chunk, chunk_room, chunk_size, chunk_text, state_figures};
ghost use Rattle.listing.specs.Listing.{after_block, block_text, record_lines, state_listed};
ghost use Rattle.listing_blocks.specs.Cursors.{goes, progress_of, progress_after};
ghost use Rattle.listing_lines.specs.Lines.{figures_text, line_room};
ghost use Rattle.pair_core.specs.Layout.{pair_words_checker};
ghost use Rattle.pair_rows.specs.Rows.{FiguresReady};

use answers::Refusal;
use arrayvec::ArrayVec;
pub use cursor::Cursor;
use journal_blocks::{BLOCK_SIZE, stated_count};
use journal_reader::{judge, judged_part};
use listing_lines::{FIGURES, put_fault, put_figures, put_record};
use pair_core::{INDEXES, WORDS};
use pair_rows::{Figures, next_figures};
use std::ops::ControlFlow;

// ## A block of records

// The text of the figures, put anew where a record has passed and else as it stands.
fn put_figures_if(text: &mut ArrayVec<u8, FIGURES>, judged: Result<(), Refusal>, figures: Figures)
    ensures passed { OnOk judged (text.new.items ≡ figures_text figures.home figures.far figures.flight) }
    ensures refused { OnErr judged (text.new.items ≡ text.old.items) }
{
    if judged.is_err() {
        return;
    }
    text.clear();
    put_figures(text, figures.home, figures.far, figures.flight);
}

// The answer in a record's line: 0, or the refusal's number.
// Kept: answers::number asks for an answer with a place, which a record's line has not; this is its match without one.
fn answer_number(judged: Result<(), Refusal>) -> u64
    ensures { result ≡ refused_by judged }
{
    match judged {
        Ok(()) => 0,
        Err(refusal) => u64::from(u32::from(refusal)),
    }
}

// The lines of a block's first records.
// Kept: words and index are lent side by side: one value would have to copy them in, or say in each contract that its loans stay the same.
fn list_records<const N: usize>(
    cursor: Cursor,
    block: &[u8],
    count: u64,
    out: &mut ArrayVec<u8, N>,
    state: &mut [u64; WORDS],
    index: &mut [u16; INDEXES],
) -> Cursor
    requires { (cursor.block ≤ max_block) × (length block.now ≡ 512) × (count ≤ records_per_block)
        × (length out.old.items + records_per_block * line_room ≤ N) × FiguresReady state.old index.old cursor.figures }
    ensures puts { out.new.items ≡ out.old.items ++ record_lines pair_words_checker state_figures state.old cursor.index
        (first_records count block.now) }
    ensures stands { progress_of result true state.new ≡ progress_after cursor count (state_listed pair_words_checker state.old
        (first_records count block.now)) }
    ensures keeps { FiguresReady state.new index.new result.figures
        × (length out.new.items ≤ length out.old.items + records_per_block * line_room) }
{
    let mut text = ArrayVec::new();
    let mut figures = cursor.figures;
    put_figures(&mut text, figures.home, figures.far, figures.flight);
    for i in 0..count {
        let bytes = judged_part(block, i);
        let judged = next_figures(state, index, &mut figures, bytes);
        put_figures_if(&mut text, judged, figures);
        put_record(
            out,
            cursor.index + i,
            bytes,
            answer_number(judged),
            text.as_slice(),
        );
    }
    Cursor {
        index: cursor.index + count,
        block: cursor.block + 1,
        before: count,
        figures,
    }
}

// A block: its lines, or its fault, after which the listing does not go on.
fn list_block<const N: usize>(
    cursor: &mut Cursor,
    block: &[u8],
    out: &mut ArrayVec<u8, N>,
    state: &mut [u64; WORDS],
    index: &mut [u16; INDEXES],
) -> ControlFlow<()>
    requires { (length out.old.items + records_per_block * line_room ≤ N)
        × FiguresReady state.old index.old cursor.old.figures }
    ensures puts { out.new.items ≡ out.old.items ++ block_text pair_words_checker state_figures
        (progress_of cursor.old true state.old) block.now }
    ensures stands { progress_of cursor.new (goes result) state.new ≡ after_block pair_words_checker
        (progress_of cursor.old true state.old) block.now }
    ensures keeps { FiguresReady state.new index.new cursor.new.figures
        × (length out.new.items ≤ length out.old.items + records_per_block * line_room) }
{
    match judge(block, cursor.block, cursor.before) {
        Ok(()) => {
            let count = stated_count(block);
            *cursor = list_records(*cursor, block, count, out, state, index);
            ControlFlow::Continue(())
        }
        Err(refused) => {
            put_fault(out, u64::from(u32::from(refused.refusal)), cursor.block);
            ControlFlow::Break(())
        }
    }
}

// ## A chunk

// The text of a chunk of at most 64 blocks, up to a bad one, after which the listing does not go on.
pub fn list_chunk<const N: usize>(
    cursor: &mut Cursor,
    chunk: &[u8],
    out: &mut ArrayVec<u8, N>,
    state: &mut [u64; WORDS],
    index: &mut [u16; INDEXES],
) -> ControlFlow<()>
    requires { (length chunk.now ≤ chunk_size) × (length out.old.items + chunk_room ≤ N)
        × FiguresReady state.old index.old cursor.old.figures }
    ensures puts { out.new.items ≡ out.old.items ++ chunk_text (progress_of cursor.old true state.old) chunk.now }
    ensures stands { progress_of cursor.new (goes result) state.new ≡ after_chunk (progress_of cursor.old true state.old) chunk.now }
    ensures keeps { FiguresReady state.new index.new cursor.new.figures }
{
    for block in chunk.chunks(BLOCK_SIZE) {
        list_block(cursor, block, out, state, index)?;
    }
    ControlFlow::Continue(())
}
