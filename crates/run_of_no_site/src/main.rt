//! The program `pol`, run as a plant on a site without modules, which is none: it ends with status 7.
#![tactic(auto)]

use pol_file::{FileDisk, FileToRead, Unknown};
use std::process::ExitCode;

fn main(rt: HostRuntime) -> ExitCode {
    let disk = FileDisk::new(&rt, "pol.journal", ".", Unknown);
    let ledger = FileDisk::new(&rt, "pol.plant", ".", Unknown);
    let file = FileToRead::unless(&rt, "pol.plant", "pol.journal");
    pol_cli::run(&rt, disk, ledger, &|ledger| ledger.is_in_use(), file)
}
