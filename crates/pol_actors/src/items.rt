//! The item of a list at a place.
ghost use Rattle.std.specs.Prelude.{◌≡◌, option_map, slice_get};

/// The item at a place, if there is one.
pub(crate) fn item_at<T>(items: &[T], place: usize) -> Option<&T>
    ensures { option_map (λ item. item.now) result ≡ slice_get items.now place }
{
    items.get(place)
}
