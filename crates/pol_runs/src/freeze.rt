//! How a batch is frozen.
ghost use Rattle.std.specs.Prelude.{◌≡◌};
ghost use Rattle.pol_runs.specs.Freezes.{is_frozen, is_holding, frozen_as};

/// How a batch is frozen: not at all; so that it only waits; or so that its services are held.
#[derive(Clone, Copy, Debug, PartialEq, Eq)]
pub enum Freeze {
    Thawed,
    Waiting,
    Holding,
}

impl Freeze {
    /// A freeze that holds the services or doesn't.
    pub fn new(hold: bool) -> Freeze
        ensures { result ≡ frozen_as hold }
    {
        if hold {
            Freeze::Holding
        } else {
            Freeze::Waiting
        }
    }

    /// Whether the batch is frozen.
    pub fn is_frozen(self) -> bool
        ensures { result ≡ is_frozen self }
    {
        !matches!(self, Freeze::Thawed)
    }

    /// Whether the batch is frozen and its services are held.
    pub fn is_holding(self) -> bool
        ensures { result ≡ is_holding self }
    {
        matches!(self, Freeze::Holding)
    }
}
