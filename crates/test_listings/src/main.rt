// Lists the journals that its arguments name, each after its name. The journals in data/ and the lines in stdout were made by the
// second validator (validator/, `store`), which was written from documents 01 and 02 alone.
#![tactic(auto)]

use std::io;

fn main(rt: HostRuntime) -> io::Result<()> {
    test_files::each(&rt, |mut file| {
        listing_journal::list(&mut file, &mut rt.stdout());
        Ok(())
    })
}
