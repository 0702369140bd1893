//! The chronicle of an image.
ghost use Rattle.std.specs.Prelude.{◌≡◌, ◌≢◌, ◌++◌, ◌∷◌, ◌<◌, [], IfOk, IfErr, OnOk, length};
ghost use Rattle.pol_kept.specs.Opens.{Breaks, IsReplayed};

use crate::chronicle::Chronicle;
use crate::opening::OpenFault;
use crate::records::{GATE_AND_LENGTH, Next, next_record};
use std::alloc::{AllocError, Global};

// Has an item happen in a chronicle that has room for it.
fn take_item<C: Chronicle>(chronicle: &mut C, item: C::Item, text: &[u8]) -> Result<(), AllocError>
    requires sound { C.IsSound (C.plain item) }
    requires text { C.work.IsTextOf (C.work.items (C.state chronicle.old)) (C.plain item) text.now }
    requires room { length (C.work.items (C.state chronicle.old)) < C.work.most }
    ensures { OnOk result (C.work.items (C.state chronicle.new)
        ≡ C.work.items (C.state chronicle.old) ++ C.plain item ∷ []) }
{
    match chronicle.apply(item, text) {
        Ok(_answer) => Ok(()),
        Err((_item, error)) => Err(error),
    }
}

/// The chronicle in which the items of an image happened, and the place of the closed gate behind their records.
pub fn replay<C: Chronicle>(alloc: Global, bytes: &[u8]) -> Result<(C, usize), OpenFault>
    ensures replayed { IfOk result (λ done. IsReplayed C.work bytes.now done.1 (C.work.items (C.state done.0))) }
    ensures breaks { IfErr result (Breaks C.work bytes.now) }
    ensures no_disk { IfErr result (λ fault. fault ≢ OpenFault.Disk) }
{
    let mut chronicle = C::new(alloc);
    let mut room = Vec::new(alloc);
    let mut at = 0;
    'record: loop {
        match next_record(alloc, &chronicle, &bytes[at..], &mut room)? {
            Next::Closed => return Ok((chronicle, at)),
            Next::Broken => return Err(OpenFault::NotAStore { place: at as u64 }),
            Next::Record(item, text) => {
                take_item(&mut chronicle, item, text)?;
                at += GATE_AND_LENGTH + text.len();
            }
        }
    }
}
