//! The run of a chart of one step, from its start to its end, and a batch that is frozen and stopped.

ghost use Rattle.std.specs.Prelude.{Some, IfOk};
ghost use Rattle.pol_events.specs.Bound.{ArePaired};
ghost use Rattle.chart_cursor.specs.declared.sight.Sight.TheVariants as sight;
ghost use Rattle.chart_cursor.specs.declared.sight.ReadingSight.TheVariants as reading_sight;

use chart_core::{LogEntry, Next, Outcome, Why};
use chart_cursor::{ReadingSight, Seen, Sight};
use chart_json::read_chart;
use given::{named, reset, start};
use mtp_assembly::ServiceControl;
use mtp_codes::{Command, Mode, Name, Origin, State};
use mtp_json::parse;
use mtp_modes::ServiceView;
use pol_events::{Bind, Rule};
use pol_runs::Run;
use std::alloc::Global;
use std::sync::Arc;
use std::test::*;

const ROLES: &str = r#"[{"role":"A","type":"Doser","version":"^1.0"}]"#;

const DOSING: &str = r#"{"step":"s1","role":"A","service":"dose","procedure":1}"#;

// One module, which plays each role; nothing is read of it.
#[derive(Clone, Copy)]
struct OneModule {
    tag: Name,
    view: ServiceView,
}

impl Seen for OneModule {
    ghost sights = { λ seen. record {
      tag = λ role. Some seen.tag;
      view = λ role service. sight.Is seen.view;
      reading = λ role var. reading_sight.Unreported;
    } };

    fn tag(&self, _role: Name) -> Option<Name> {
        Some(self.tag)
    }

    fn view(&self, _role: Name, _service: Name) -> Sight {
        Sight::Is(self.view)
    }

    fn reading(&self, _role: Name, _var: Name) -> ReadingSight {
        ReadingSight::Unreported
    }
}

// What the module T1 shows of its service, whose procedure completes by itself and which may be started, stopped or
// reset.
fn module(state: State) -> Result<OneModule, Fail> {
    let control = ServiceControl {
        state,
        mask: Command::Start.code() + Command::Stop.code() + Command::Reset.code(),
        mode: Mode::Automatic,
        origin: Origin::External,
        procedure: 1,
    };
    Ok(OneModule {
        tag: named("T1")?,
        view: ServiceView {
            control,
            self_completes: true,
        },
    })
}

// The module T1 plays the role A.
#[tactic(auto, using(crate::proofs::Paired::one_paired))]
fn binds(alloc: Global) -> Result<Vec<Bind>, Fail>
    ensures { IfOk result (λ binds. ArePaired binds.items) }
{
    let bind = Bind {
        role: named("A")?,
        tag: named("T1")?,
    };
    Ok(vec![in alloc; bind]?)
}

// The batch b1 of the chart, on the module T1.
fn dosing(alloc: Global) -> Result<Run, Fail> {
    let roles = parse(alloc, ROLES.as_bytes()).ok().ok_or("no value")?;
    let chart = parse(alloc, DOSING.as_bytes()).ok().ok_or("no value")?;
    let chart = read_chart(alloc, &roles, &chart).ok().ok_or("no chart")?;
    chart.valid().ok().ok_or("not valid")?;
    Ok(Run::new(alloc, named("b1")?, Arc::new(alloc, chart)?, binds(alloc)?)?)
}

// What the batch did next, where it is open.
fn advanced(run: &mut Run, seen: &OneModule) -> Result<Next, Fail> {
    match run.closed() {
        Some(_) => Err("closed".into()),
        None => Ok(run.advance(seen)),
    }
}

fn stop() -> Result<LogEntry, Fail> {
    Ok(LogEntry::Stop {
        step: named("s1")?,
        tag: named("T1")?,
        service: named("dose")?,
    })
}

#[test]
fn a_batch_runs_its_chart_to_the_end(rt: HostRuntime) -> Result<(), Fail> {
    let mut run = dosing(rt.alloc())?;
    let step = named("s1")?;
    let rows = [
        (State::Idle, Next::Did(start()?), Some(step)),
        (
            State::Execute,
            Next::Waiting(Why::InState {
                step,
                state: State::Execute,
            }),
            Some(step),
        ),
        (State::Completed, Next::Did(reset()?), Some(step)),
        (State::Idle, Next::Did(LogEntry::End { step }), None),
    ];
    for (state, next, active) in rows {
        let seen = module(state)?;
        assert_eq!(rt; run.would(&seen), next);
        assert_eq!(rt; advanced(&mut run, &seen)?, next);
        assert_eq!(rt; run.active_on(named("T1")?), active);
    }
    Ok(())
}

#[test]
fn a_stopped_batch_is_closed_once_its_step_was_stopped(rt: HostRuntime) -> Result<(), Fail> {
    let mut run = dosing(rt.alloc())?;
    let idle = module(State::Idle)?;
    let busy = module(State::Execute)?;
    advanced(&mut run, &idle)?;
    assert_eq!(rt; run.freeze(false), Ok(()));
    assert_eq!(rt; run.freeze(false), Err(Rule::AlreadyFrozen));
    assert_eq!(rt; run.would(&busy), Next::Waiting(Why::Frozen));
    assert_eq!(rt; run.stop(), true);
    assert_eq!(rt; run.is_frozen(), false);
    assert_eq!(rt; run.stop(), false);
    assert_eq!(rt; advanced(&mut run, &busy)?, Next::Did(stop()?));
    let closed = Next::Closed(Outcome::Stopped);
    assert_eq!(rt; advanced(&mut run, &busy)?, closed);
    assert_eq!(rt; run.closed(), Some(Outcome::Stopped));
    Ok(())
}
