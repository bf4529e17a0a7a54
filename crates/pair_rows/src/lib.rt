// The figures of a run of the pair validator: the opening gives the first, each record the next, by its refusal or by what it moves. They
// are kept and not summed anew.
#![tactic(auto)]

ghost use Rattle.std.specs.Prelude.{◌+◌, ◌≤◌, ◌≡◌, replicate, IfOk, OnErr};
ghost use Rattle.answers.specs.Refusals.{refused_by};
ghost use Rattle.pair_core.specs.Layout.{pair_opened_words, pair_view_of, pair_words, pair_words_checker, pair_zero_words};
ghost use Rattle.pair_rows.specs.Rows.{FiguresReady, moved_row, row_of, row_told, row_with, total_in};
ghost use Rattle.rules.specs.Calls.{call_one};
ghost use Rattle.rules.specs.PairValidator.{pair_opened, pair_opening_refusal};

use answers::Refusal;
use calls::Core;
use ledgers::Ledger;
use pair_core::{INDEXES, PairCore, SUPPLY_WORD, WORDS, open};
use places::{Wide, add_balances, given_by, taken_by};
use records::Record;
use tariffs::Tariff;

// The totals of both ledgers and what is in flight.
#[derive(Clone, Copy)]
pub struct Figures {
    pub home: u64,
    pub far: u64,
    pub flight: u64,
}

impl Figures {
    // The total of a ledger.
    fn total(self, l: Ledger) -> u64
        ensures { result ≡ total_in (row_with 0 self) l }
    {
        match l {
            Ledger::Home => self.home,
            Ledger::Far => self.far,
        }
    }
}

// ## The opening

// The figures of an opening, in words of zeros: its refusal, and the words stay zeros, or the totals with nothing in flight, and the opened
// state in the words.
pub fn first_figures<'a, 'b>(
    homes: &'a [u64],
    fars: &'a [u64],
    tariff: Tariff,
    state: &'b mut [u64; WORDS],
) -> Result<Figures, Refusal>
    requires { state.old ≡ replicate pair_words 0 }
    ensures refuses { refused_by result ≡ pair_opening_refusal tariff homes.now fars.now }
    ensures opens { IfOk result (λ figures. (row_with 0 figures ≡ row_of 0 (pair_opened tariff homes.now fars.now))
        × (state.new ≡ pair_opened_words tariff homes.now fars.now)) }
    ensures closes { OnErr result (state.new ≡ pair_zero_words) }
{
    open(homes, fars, tariff, state)?;
    let home = add_balances(homes, 0, homes.len(), Wide::default());
    Ok(Figures {
        home: home.low,
        far: state[SUPPLY_WORD] - home.low,
        flight: 0,
    })
}

// ## A record

// A passed record of a ledger, by what it takes from all its accounts together and gives to them, which leaves a charge out. In flight is
// the supply less both totals.
fn move_figures(figures: &mut Figures, supply: u64, l: Ledger, taken: u64, given: u64)
    requires { (taken ≤ total_in (row_with 0 figures.old) l) × (figures.old.home + figures.old.far + given ≤ supply + taken) }
    ensures { row_with 0 figures.new ≡ moved_row supply (row_with 0 figures.old) l taken given }
{
    let total = figures.total(l) - taken + given;
    match l {
        Ledger::Home => figures.home = total,
        Ledger::Far => figures.far = total,
    }
    figures.flight = supply - figures.home - figures.far;
}

// A record after figures, by a call in an accepted state: its refusal, with the figures as they were, or the figures moved, and the state
// and the indexes of its numbers with the record.
pub fn next_figures<'a, 'b, 'c>(
    state: &'a mut [u64; WORDS],
    index: &'b mut [u16; INDEXES],
    figures: &'c mut Figures,
    bytes: &[u8],
) -> Result<(), Refusal>
    requires { FiguresReady state.old index.old figures.old }
    ensures tells { row_told result figures.new ≡ row_of (pair_words_checker.judge state.old bytes.now) (pair_view_of (call_one
        pair_words_checker state.old bytes.now).state) }
    ensures leaves { state.new ≡ (call_one pair_words_checker state.old bytes.now).state }
    ensures keeps { FiguresReady state.new index.new figures.new }
    ensures refused { OnErr result (figures.new ≡ figures.old) }
{
    let supply = state[SUPPLY_WORD];
    PairCore::step(state, index, bytes)?;
    let Some(r) = Record::read(bytes) else {
        return Ok(()); // it would have been refused
    };
    let kind = r.kind;
    move_figures(
        figures,
        supply,
        kind.ledger(),
        taken_by(kind, r.amount),
        given_by(kind, r.amount),
    );
    Ok(())
}
