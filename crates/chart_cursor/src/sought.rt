//! What is looked for by its place.
ghost use Rattle.std.specs.Prelude.{◌≡◌, None};
ghost use Rattle.chart_cursor.specs.Sought.{met};

/// What is looked for by its place in a list, whose items are met one after another: how many are to be met before it,
/// and what was found.
#[derive(Clone, Copy)]
pub struct Sought<T: Copy> {
    pub left: u32,
    pub found: Option<T>,
}

impl<T: Copy> Sought<T> {
    /// A search for the item at this place, from 0.
    pub fn at(place: u32) -> Sought<T>
        ensures { result ≡ record { left = place; found = None } }
    {
        Sought {
            left: place,
            found: None,
        }
    }

    /// Meets one thing more, if that is an item of the list.
    #[tactic(auto, using(crate::proofs::Listed::met_later))]
    pub fn meet(&mut self, item: Option<T>)
        ensures { self.new ≡ met item self.old }
    {
        if self.found.is_some() || item.is_none() {
            return;
        }
        if self.left == 0 {
            self.found = item;
        } else {
            self.left -= 1;
        }
    }
}
