//! What is known of a service when a command is to go to it.
use mtp_assembly::ServiceControl;

/// What a service last reported, and whether its current procedure completes by itself.
#[derive(Clone, Copy, Debug, PartialEq, Eq)]
pub struct ServiceView {
    /// What the service last reported.
    pub control: ServiceControl,
    /// Whether its current procedure goes from Execute to Completing by itself.
    pub self_completes: bool,
}
