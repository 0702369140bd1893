//! Roles of a chart.
ghost use Rattle.chart_core.specs.Requirements.{IsReadTo};

use mtp_codes::{Name, Short};
use semver::VersionReq;

/// A role of a chart: which type of module may play it, and in which versions. `req` is what the text `wants` reads to,
/// as `semver` reads a requirement.
#[derive(Drop)]
pub struct Role {
    /// Its name in the chart.
    pub role: Name,
    /// The type that a module must have to play it.
    pub type_name: Name,
    /// The requirement on the version, as the recipe writes it.
    pub wants: Short,
    /// The requirement that the text `wants` reads to.
    pub req: VersionReq,
    pub ghost reads: { IsReadTo wants req },
}
