//! The list of who watches what.
ghost use Rattle.std.specs.Prelude.{◌≡◌, ◌++◌, not, filter, slice_get, OnOk, OnErr};
ghost use Rattle.std.specs.Str.{bytes_eq};
ghost use Rattle.pol_table.specs.Watches.{watchers_in, watches_of};

use super::watch::Watch;
use mtp_codes::Name;
use std::alloc::AllocError;

/// The batch that watches the tag at this place among those that do.
pub(crate) fn watcher_at(watches: &[Watch], tag: Name, place: u32) -> Option<Name>
    ensures { result ≡ slice_get (watchers_in tag watches.now) place }
{
    let mut left = place;
    for watch in watches {
        if watch.tag != tag {
            continue;
        }
        if left == 0 {
            return Some(watch.batch);
        }
        left -= 1;
    }
    None
}

/// The batch watches these tags too, behind all others; where there is no memory nothing has changed.
pub(crate) fn add_each(
    watches: &mut Vec<Watch>,
    tags: &[Name],
    batch: Name,
) -> Result<(), AllocError>
    ensures added { OnOk result (watches.new.items ≡ watches.old.items ++ watches_of batch tags.now) }
    ensures unchanged { OnErr result (watches.new.items ≡ watches.old.items) }
{
    watches.reserve(tags.len())?;
    for tag in tags {
        watches.push_reserved(Watch { tag: *tag, batch });
    }
    Ok(())
}

/// The batch watches nothing any more.
pub(crate) fn end_each(watches: &mut Vec<Watch>, batch: Name)
    ensures { watches.new.items ≡ filter (λ watch. not (bytes_eq watch.batch batch)) watches.old.items }
{
    watches.retain(|watch| watch.batch != batch);
}
