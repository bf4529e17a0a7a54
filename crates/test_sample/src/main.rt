// Reads the journals that its arguments name and lists their blocks: the number, the answer, and of a block that passes
// the count and whether writing its items anew gives the same block. The journals in data/ and the lines in stdout were
// made by another implementation of document 01.
#![tactic(auto)]

ghost use Rattle.std.specs.Prelude.{IfOk, length, ◌≤◌};

use journal_blocks::{BLOCK_SIZE, item_size, kind_of_block, stated_count, tariff_in};
use std::io::{self, Read};

// The items of a block.
fn items(block: &[u8], k: u64) -> Option<&[u8]> {
    let size = item_size(k).saturating_mul(stated_count(block) as usize);
    block.get(32..)?.get(..size)
}

// Whether the items of a block, written anew, give the block.
fn same_again(block: &[u8], k: u64) -> bool {
    if block.len() != BLOCK_SIZE {
        return false;
    }
    let Some(items) = items(block, k) else {
        return false;
    };
    let mut out = [0u8; BLOCK_SIZE];
    let kind = u8::from(kind_of_block(k));
    let written = journal_writer::write(&mut out, k, kind, tariff_in(block), items);
    written.is_ok() && out.as_slice() == block
}

// The line of a block, and the count of one that passes, which another may follow.
fn line(rt: &HostRuntime, block: &[u8], k: u64, before: u64) -> io::Result<Option<u64>> {
    let answer = journal_reader::judge(block, k, before);
    print!(rt; "{k} {}", answers::number(answer))?;
    if answer.is_err() {
        println!(rt)?;
        return Ok(None);
    }
    let count = stated_count(block);
    let written = if same_again(block, k) {
        "same"
    } else {
        "other"
    };
    println!(rt; " {count} {written}")?;
    Ok(Some(count))
}

// Reads until the buffer is full or the input ends: how many bytes stand at its start.
fn read_full<R: Read>(source: &mut R, buffer: &mut [u8]) -> io::Result<usize>
    ensures fits { IfOk result (λ n. n ≤ length buffer.new) }
{
    let mut done = 0;
    // Kept: as in listing_journal, each read says how far it came; that one ends at a failed read, and this hands the error on.
    while done < buffer.len() {
        match source.read(&mut buffer[done..])? {
            0 => return Ok(done),
            n => done += n,
        }
    }
    Ok(done)
}

// The lines of a journal's blocks, up to one that is refused.
fn list<R: Read>(rt: &HostRuntime, source: &mut R) -> io::Result<()> {
    let mut block = [0u8; BLOCK_SIZE];
    let mut before = 0;
    for k in 0..=65536 {
        let n = read_full(source, &mut block)?;
        if n == 0 {
            return Ok(());
        }
        let Some(count) = line(rt, &block[..n], k, before)? else {
            return Ok(());
        };
        before = count;
    }
    Ok(())
}

fn main(rt: HostRuntime) -> io::Result<()> {
    test_files::each(&rt, |mut file| list(&rt, &mut file))
}
