//! The next entry of a worked chart: a step that is run again until the level is 7.

ghost use Rattle.std.specs.Prelude.{Some};
ghost use Rattle.chart_cursor.specs.declared.sight.Sight.TheVariants as sight;
ghost use Rattle.chart_cursor.specs.declared.sight.ReadingSight.TheVariants as reading;

use chart_core::{Chart, LogEntry, Readings, Why};
use chart_cursor::{Cursor, CursorNext, ReadingSight, Seen, Sight};
use chart_json::read_chart;
use given::{named, reset, start};
use mtp_assembly::ServiceControl;
use mtp_codes::{Command, Forbid, Mode, Name, Origin, Reading, State};
use mtp_json::parse;
use mtp_modes::ServiceView;
use std::alloc::Global;
use std::sync::Arc;
use std::test::*;

const ROLES: &str = r#"[{"role":"A","type":"Doser","version":"^1.0"}]"#;

const DOSING: &str = r#"{
    "loop":{"step":"s1","role":"A","service":"dose","procedure":1},
    "until":{"test":"level","role":"A","op":"eq","value":7}
}"#;

// One module, which plays each role.
#[derive(Clone, Copy)]
struct OneModule {
    tag: Name,
    view: ServiceView,
    level: Reading,
}

impl Seen for OneModule {
    ghost sights = { λ seen. record { tag = λ role. Some seen.tag; view = λ role service. sight.Is seen.view; reading = λ role var. reading.Is seen.level } };

    fn tag(&self, role: Name) -> Option<Name> {
        Some(self.tag)
    }

    fn view(&self, role: Name, service: Name) -> Sight {
        Sight::Is(self.view)
    }

    fn reading(&self, role: Name, var: Name) -> ReadingSight {
        ReadingSight::Is(self.level)
    }
}

fn dosing(alloc: Global) -> Result<Chart, Fail> {
    let roles = parse(alloc, ROLES.as_bytes()).ok().ok_or("no value")?;
    let chart = parse(alloc, DOSING.as_bytes()).ok().ok_or("no value")?;
    Ok(read_chart(alloc, &roles, &chart).ok().ok_or("no chart")?)
}

// What the module T1 shows: its service's state and mode, and its level.
fn module(state: State, mode: Mode, level: i64) -> Result<OneModule, Fail> {
    let control = ServiceControl {
        state,
        mask: Command::Start.code(),
        mode,
        origin: Origin::External,
        procedure: 0,
    };
    Ok(OneModule {
        tag: named("T1")?,
        view: ServiceView {
            control,
            self_completes: true,
        },
        level: Reading::Whole(level),
    })
}

fn level(level: i64) -> Result<Readings, Fail> {
    Ok(Readings::of_list(&[Reading::Whole(level)]).ok_or("too many")?)
}

#[test]
fn a_run_begins_where_its_module_can_start(rt: HostRuntime) -> Result<(), Fail> {
    let alloc = rt.alloc();
    let chart = dosing(alloc)?;
    chart.valid().ok().ok_or("not valid")?;
    let chart = Arc::new(alloc, chart)?;
    let cursor = Cursor::new(alloc, chart.clone()?)?;
    let step = named("s1")?;
    let by = Forbid::ModeForbids;
    let forbidden = CursorNext::Wait(Why::Forbidden { step, by });
    let state = State::Execute;
    let busy = CursorNext::Wait(Why::InState { step, state });
    let rows = [
        (State::Idle, Mode::Automatic, CursorNext::Entry(start()?)),
        (State::Idle, Mode::Operator, forbidden),
        (State::Execute, Mode::Automatic, busy),
    ];
    for (state, mode, next) in rows {
        let module = module(state, mode, 7)?;
        assert_eq!(rt; cursor.first_ready(&module), next);
        assert_eq!(rt; cursor.next_of_log(&module), next);
    }
    assert_eq!(rt; cursor.next_active(0), None);
    Ok(())
}

#[test]
fn a_loop_is_left_where_its_condition_holds(rt: HostRuntime) -> Result<(), Fail> {
    let alloc = rt.alloc();
    let chart = dosing(alloc)?;
    chart.valid().ok().ok_or("not valid")?;
    let chart = Arc::new(alloc, chart)?;
    let step = named("s1")?;
    let log = [start()?, reset()?, LogEntry::End { step }];
    let state = State::Idle;
    let waits = CursorNext::Wait(Why::InState { step, state });
    let turn = CursorNext::Entry(LogEntry::Turn {
        node: 0,
        values: level(5)?,
    });
    let leave = CursorNext::Entry(LogEntry::Leave {
        node: 0,
        values: level(7)?,
    });
    let rows: [(&[LogEntry], i64, CursorNext); 3] = [
        (&log[..1], 7, waits),
        (&log, 5, turn),
        (&log, 7, leave),
    ];
    for (log, level, next) in rows {
        let module = module(State::Idle, Mode::Automatic, level)?;
        let mut cursor = Cursor::new(alloc, chart.clone()?)?;
        // An entry that may not come is passed over.
        cursor.go_along(&LogEntry::End { step });
        for entry in log {
            cursor.go_along(entry);
        }
        assert_eq!(rt; cursor.next_of_log(&module), next);
    }
    Ok(())
}
