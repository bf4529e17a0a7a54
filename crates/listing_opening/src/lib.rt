// The first lines of a listing: the header, and the opening of blocks 0 and 1 or the fault of one of them.
#![tactic(auto)]

ghost use Rattle.std.specs.Prelude.{◌+◌, ℕ, ◌≤◌, List, [], ◌++◌, ◌≡◌, drop, length, replicate, take, IfErr, IfNone, IfOk, IfSome};
ghost use Rattle.answers.specs.Refusals.{refusal_number};
ghost use Rattle.listing.specs.Listing.{opening_text};
ghost use Rattle.listing_lines.specs.Lines.{fault_line, figures_text, header_line, line_room, open_line};
ghost use Rattle.listing_opening.specs.Opened.{OpenedIn};
ghost use Rattle.pair_core.specs.Layout.{pair_words};

use answers::Refused;
use arrayvec::ArrayVec;
use journal_blocks::BLOCK_SIZE;
use journal_reader::opening_balances;
use listing_lines::{put_fault, put_header, put_open};
use pair_core::WORDS;
use pair_rows::{Figures, first_figures};
use wire::part_end;

// What an accepted opening leaves: its figures, and the count of block 1.
#[derive(Clone, Copy)]
pub struct Start {
    pub figures: Figures,
    pub before: u64,
}

// Kept: the words are zeros only as they come: as they go they hold the opened state, so that no type of them says it.
// The opening of blocks 0 and 1, or why they are refused and at which block it is told: the opening's own refusal at block 1.
fn opening(home: &[u8], far: &[u8], state: &mut [u64; WORDS]) -> Result<Start, Refused>
    requires { state.old ≡ replicate pair_words 0 }
    ensures opens { IfOk result (λ start. OpenedIn home.now far.now start state.new) }
    ensures tells { IfOk result (λ start. (rest : List ℕ) → opening_text home.now far.now rest
        ≡ open_line (figures_text start.figures.home start.figures.far 0) ++ rest) }
    ensures refuses { IfErr result (λ refused. (rest : List ℕ) → opening_text home.now far.now rest
        ≡ fault_line (refusal_number refused.refusal) refused.place) }
{
    let first = opening_balances(home, 0, 0)?;
    let second = opening_balances(far, 1, first.balances.count)?;
    let homes = first.balances.as_slice();
    let fars = second.balances.as_slice();
    let figures = first_figures(homes, fars, first.tariff, state).map_err(|refusal| Refused {
        refusal,
        place: 1,
    })?;
    Ok(Start {
        figures,
        before: second.balances.count,
    })
}

// The header line, and the line of the opening of blocks 0 and 1 or the fault of one of them.
fn list_opening<const N: usize>(
    home: &[u8],
    far: &[u8],
    out: &mut ArrayVec<u8, N>,
    state: &mut [u64; WORDS],
) -> Option<Start>
    requires { (length out.old.items + 256 ≤ N) × (state.old ≡ replicate pair_words 0) }
    ensures puts { out.new.items ≡ out.old.items ++ (header_line ++ opening_text home.now far.now []) }
    ensures opens { IfSome result (λ start. OpenedIn home.now far.now start state.new) }
    ensures stops { IfNone result ((rest : List ℕ) → opening_text home.now far.now rest
        ≡ opening_text home.now far.now []) }
    ensures fits { length out.new.items ≤ length out.old.items + 256 }
{
    put_header(out);
    match opening(home, far, state) {
        Ok(start) => {
            put_open(out, start.figures.home, start.figures.far);
            Some(start)
        }
        Err(refused) => {
            put_fault(out, u64::from(u32::from(refused.refusal)), refused.place);
            None
        }
    }
}

// The same of a journal's first bytes, which are blocks 0 and 1 or what there is of them.
pub fn list_start<const N: usize>(
    bytes: &[u8],
    out: &mut ArrayVec<u8, N>,
    state: &mut [u64; WORDS],
) -> Option<Start>
    requires { (length out.old.items + 256 ≤ N) × (state.old ≡ replicate pair_words 0) }
    ensures puts { out.new.items ≡ out.old.items ++ (header_line ++ opening_text (take 512 bytes.now)
        (take 512 (drop 512 bytes.now)) []) }
    ensures opens { IfSome result (λ start. OpenedIn (take 512 bytes.now) (take 512 (drop 512 bytes.now)) start
        state.new) }
    ensures stops { IfNone result ((rest : List ℕ) → opening_text (take 512 bytes.now) (take 512 (drop 512 bytes.now)) rest
        ≡ opening_text (take 512 bytes.now) (take 512 (drop 512 bytes.now)) []) }
    ensures fits { length out.new.items ≤ length out.old.items + 256 }
{
    let (home, rest) = bytes.split_at(part_end(BLOCK_SIZE, 0, bytes.len()));
    let far = &rest[..part_end(BLOCK_SIZE, 0, rest.len())];
    list_opening(home, far, out, state)
}
