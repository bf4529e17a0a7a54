// Lists a journal: reads it on standard input and prints a line for each record on standard output (document 01, Cases).
#![tactic(auto)]

fn main(rt: HostRuntime) {
    listing_journal::list(&mut rt.stdin(), &mut rt.stdout());
}
