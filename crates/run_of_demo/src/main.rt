//! The program `pol`, run on the five words of a demo: it writes the summary of the journal of seed 0.
#![tactic(auto)]

use pol_file::{FileDisk, FileToRead, Unknown};
use std::process::ExitCode;

fn main(rt: HostRuntime) -> ExitCode {
    let disk = FileDisk::new(&rt, "pol.journal", ".", Unknown);
    let ledger = FileDisk::new(&rt, "pol.plant", ".", Unknown);
    let file = FileToRead::unless(&rt, "pol.plant", "pol.journal");
    pol_cli::run(&rt, disk, ledger, &|ledger| ledger.is_in_use(), file)
}
