//! The program `pol`: a process orchestration layer for modular plants. All that it does is in `pol_cli::run`.
#![tactic(auto)]

use pol_file::{FileDisk, FileToRead, Unknown};
use std::process::ExitCode;

fn main(rt: HostRuntime) -> ExitCode {
    let disk = FileDisk::new(&rt, "pol.journal", ".", Unknown);
    let ledger = FileDisk::new(&rt, "pol.plant", ".", Unknown);
    // A journal is written of an operated plant, where the folder has no kept one.
    let file = FileToRead::unless(&rt, "pol.plant", "pol.journal");
    pol_cli::run(&rt, disk, ledger, &|ledger| ledger.is_in_use(), file)
}
