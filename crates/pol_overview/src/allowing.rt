//! Who may send commands.

use mtp_codes::{Command, Name};

/// Whether commands may be sent, whoever sends them and whatever a policy says of it.
pub trait Allowing {
    ghost use Rattle.std.specs.Prelude.{◌≡◌};
    ghost use Rattle.pol_overview.specs.May.{Allows};

    ghost allows: { Self → Allows };

    /// Whether the command may be sent to the service of the module.
    fn allows(&self, tag: Name, service: Name, command: Command) -> bool
        ensures { result ≡ allows self.now tag service command };
}
