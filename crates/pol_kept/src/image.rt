//! An image that is only read, such as a copy of a disk.
ghost use Rattle.std.specs.Prelude.{IfErr, IfOk};
ghost use Rattle.pol_kept.specs.Opens.{IsUnread};
ghost use Rattle.pol_kept.specs.Stands.{StandsFor};

use crate::chronicle::Chronicle;
use crate::opening::OpenFault;
use crate::replaying::replay;
use std::alloc::Global;

/// The chronicle of the items that an image stands for.
///
/// # Errors
///
/// NotAStore names the place of the first record that isn't one; no disk is called.
pub fn read_image<C: Chronicle>(alloc: Global, image: &[u8]) -> Result<C, OpenFault>
    ensures items { IfOk result (λ chronicle. StandsFor C.work (C.work.items (C.state chronicle)) image.now) }
    ensures unread { IfErr result (IsUnread C.work image.now) }
{
    if image.len() <= 1 {
        return Ok(C::new(alloc));
    }
    let (chronicle, _end) = replay(alloc, image)?;
    Ok(chronicle)
}
