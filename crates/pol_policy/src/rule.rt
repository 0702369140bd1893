//! What the rules of every kind have.
ghost use Rattle.std.specs.Prelude.{◌≡◌, ℕ, Bool, List, Option};
ghost use Rattle.std.specs.Option.{option_map};

use mtp_codes::Name;

/// A rule: it has a name, it allows or denies what it matches, and it is for some people or for everybody.
pub trait Rule {
    ghost Plain: { Type 0 };

    ghost plain: { Self → Plain };

    ghost named: { Plain → List ℕ };

    ghost allows: { Plain → Bool };

    ghost people: { Plain → Option (List (List ℕ)) };

    /// Its name.
    fn name(&self) -> Name
        ensures { result ≡ named (plain self.now) };

    /// Whether it allows what it matches, or denies it.
    fn allows(&self) -> bool
        ensures { result ≡ allows (plain self.now) };

    /// The people whom it is for, by their names or by those of groups; it is for everybody where there is no list.
    fn who(&self) -> Option<&[Name]>
        ensures { option_map (λ list. list.now) result ≡ people (plain self.now) };
}
