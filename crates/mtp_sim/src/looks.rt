//! Looks over the services and the drifts of a simulated module.
ghost use Rattle.std.specs.Prelude.{◌≡◌, slice_get, slice_set};
ghost use Rattle.std.specs.List.{list_any};
ghost use Rattle.mtp_desc.specs.PlainDescription.{plain_description};
ghost use Rattle.mtp_sim.specs.Ticks.{changes, is_executing, is_left, is_silent, is_untold, place_after};

use super::drift::SimDrift;
use super::service::SimService;
use mtp_desc::Description;

/// The service at a place, if there is one.
pub(crate) fn service_at(services: &[SimService], place: usize) -> Option<SimService>
    ensures { result ≡ slice_get services.now place }
{
    services.get(place).copied()
}

/// The drift at a place, if there is one.
pub(crate) fn drift_at(drifts: &[SimDrift], place: usize) -> Option<SimDrift>
    ensures { result ≡ slice_get drifts.now place }
{
    drifts.get(place).copied()
}

/// Puts a service at a place, if there is one.
pub(crate) fn put_service(services: &mut Vec<SimService>, place: usize, service: SimService)
    ensures { services.new.items ≡ slice_set services.old.items place service }
{
    if place < services.len() {
        services[place] = service;
    }
}

/// Puts a drift at a place, if there is one.
pub(crate) fn put_drift(drifts: &mut Vec<SimDrift>, place: usize, drift: SimDrift)
    ensures { drifts.new.items ≡ slice_set drifts.old.items place drift }
{
    if place < drifts.len() {
        drifts[place] = drift;
    }
}

/// Whether some service executes.
pub(crate) fn is_executing(services: &[SimService]) -> bool
    ensures { result ≡ is_executing services.now }
{
    services.iter().any(SimService::executes)
}

/// Whether the state of some service is still to be reported.
pub(crate) fn any_untold(services: &[SimService]) -> bool
    ensures { result ≡ list_any is_untold services.now }
{
    services.iter().any(SimService::is_untold)
}

/// Whether some service changes by itself.
pub(crate) fn any_changes(services: &[SimService], description: &Description) -> bool
    ensures { result ≡ list_any (changes (plain_description description.now)) services.now }
{
    services.iter().any(|service| service.changes(description))
}

/// Whether the first value of some drift is still to be reported.
pub(crate) fn any_silent(drifts: &[SimDrift]) -> bool
    ensures { result ≡ list_any is_silent drifts.now }
{
    drifts.iter().any(SimDrift::is_silent)
}

/// Whether some drift has values left.
pub(crate) fn any_left(drifts: &[SimDrift]) -> bool
    ensures { result ≡ list_any is_left drifts.now }
{
    drifts.iter().any(SimDrift::is_left)
}

/// The place after this one of so many, in a circle.
pub(crate) fn place_after(count: usize, place: usize) -> usize
    ensures { result ≡ place_after count place }
{
    let next = place.saturating_add(1);
    if next < count { next } else { 0 }
}
