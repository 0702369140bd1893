//! A worked doser: what it tells, and its exchange.
use chart_cursor::Sight;
use desc_json::read_description;
use given::named;
use mtp_assembly::ServiceControl;
use mtp_codes::{Mode, Origin, State, Value};
use mtp_desc::Description;
use mtp_json::{JsonRefusal, parse};
use mtp_modes::ServiceView;
use pol_events::Rule;
use pol_slots::Slot;
use std::alloc::Global;
use std::sync::Arc;
use std::test::*;

const DOSER: &str =
    "{\"type\":\"Doser\",\"version\":\"1.0.0\",\"services\":[{\"name\":\"dose\",\"procedures\":[{\"number\":1,\"default\":true,\"self_completing\":true}]}],\"variables\":[{\"name\":\"level\",\"kind\":\"AnaView\"},{\"name\":\"temp\",\"kind\":\"DIntView\"}]}";

fn doser(alloc: Global) -> Result<Description, JsonRefusal> {
    let value = parse(alloc, DOSER.as_bytes())?;
    read_description(alloc, &value)
}

fn described(alloc: Global) -> Result<Arc<Description>, Fail> {
    let description = doser(alloc).ok().ok_or("no description")?;
    Ok(Arc::new(alloc, description)?)
}

fn docked(alloc: Global) -> Result<Slot, Fail> {
    Ok(Slot::new(alloc, described(alloc)?, named("M")?)?)
}

// What the doser answers to a value of a variable.
fn answer(slot: &mut Slot, name: &str, value: Value) -> Result<Result<(), Rule>, Fail> {
    Ok(slot.variable(named(name)?, value))
}

#[test]
fn variables_are_checked_by_kind_and_name(rt: HostRuntime) -> Result<(), Fail> {
    let mut slot = docked(rt.alloc())?;
    let (five, large) = (Value::Whole(5), Value::Whole(2_147_483_648));
    let rows = [
        ("level", five, Ok(())),
        ("level", Value::Bit(true), Err(Rule::WrongKind)),
        ("mass", five, Err(Rule::NoVariable)),
        ("temp", large, Err(Rule::OutOfRange)),
    ];
    for (name, value, told) in rows {
        assert_eq!(rt; answer(&mut slot, name, value)?, told);
    }
    Ok(())
}

#[test]
fn a_report_is_seen_with_what_the_description_says_of_its_procedure(
    rt: HostRuntime,
) -> Result<(), Fail> {
    let mut slot = docked(rt.alloc())?;
    let dose = named("dose")?;
    let control = ServiceControl {
        state: State::Idle,
        mask: 4,
        mode: Mode::Automatic,
        origin: Origin::External,
        procedure: 1,
    };
    assert_eq!(rt; slot.report(dose, control), Ok(()));
    let view = ServiceView {
        control,
        self_completes: true,
    };
    assert_eq!(rt; slot.view(dose), Sight::Is(view));
    Ok(())
}

#[test]
fn another_module_is_docked_by_its_ticket(rt: HostRuntime) -> Result<(), Fail> {
    let alloc = rt.alloc();
    let another = described(alloc)?;
    let mut slot = Slot::new(alloc, described(alloc)?, named("M")?)?;
    let ticket = slot.begin();
    assert_eq!(rt; slot.finish(ticket, another), Ok(()));
    Ok(())
}
