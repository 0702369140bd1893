//! A plant with ample memory: a worked journal, room that is taken first, and a full history.
use chart_core::LogEntry;
use event_json::read_event;
use given::named;
use pol_core::{Docking, Plant};
use pol_events::{Answer, Event, Rule};
use std::test::*;

const PLUG_M: &str =
    r#"{"at":1,"ev":"plug","tag":"M","desc":{"type":"Doser","version":"1.0.0","services":[{"name":"dose","procedures":[{"number":1,"default":true,"self_completing":true}]}]}}"#;

const PLUG_N: &str =
    r#"{"at":2,"ev":"plug","tag":"N","desc":{"type":"Doser","version":"1.0.0","services":[{"name":"dose","procedures":[{"number":1,"default":true,"self_completing":true}]}]}}"#;

const PLUG_P: &str =
    r#"{"at":3,"ev":"plug","tag":"P","desc":{"type":"Doser","version":"1.0.0","services":[{"name":"dose"}]}}"#;

const IDLE_M: &str =
    r#"{"at":4,"ev":"report","tag":"M","service":"dose","StateCur":16,"CommandEn":4,"Mode":"Automatic","Src":"External","ProcedureCur":0}"#;

const STARTING_M: &str =
    r#"{"at":5,"ev":"report","tag":"M","service":"dose","StateCur":8,"CommandEn":0,"Mode":"Automatic","Src":"External","ProcedureCur":0}"#;

const IDLE_N: &str =
    r#"{"at":6,"ev":"report","tag":"N","service":"dose","StateCur":16,"CommandEn":4,"Mode":"Automatic","Src":"External","ProcedureCur":0}"#;

const RECIPE: &str =
    r#"{"at":7,"ev":"recipe","recipe":"one","roles":[{"role":"A","type":"Doser","version":"^1"}],"chart":{"step":"s1","role":"A","service":"dose","procedure":1}}"#;

const START_B: &str = r#"{"at":8,"ev":"start","batch":"b","recipe":"one","bind":{"A":"N"}}"#;

const START_C: &str = r#"{"at":9,"ev":"start","batch":"c","recipe":"one","bind":{"A":"M"}}"#;

const END_M: &str =
    r#"{"at":10,"ev":"exchange_end","tag":"M","ticket":1,"desc":{"type":"Doser","version":"1.1.0","services":[{"name":"dose","procedures":[{"number":1,"default":true,"self_completing":true}]}]}}"#;

// What the plant answers to a line.
fn answered(rt: &HostRuntime, plant: &mut Plant, line: &str) -> Result<Answer, Fail> {
    let event = read_event(rt.alloc(), line.as_bytes())
        .ok()
        .ok_or("no event")?;
    Ok(plant.apply(event).ok().ok_or("no memory")?)
}

#[test]
fn a_free_place_is_used_again(rt: HostRuntime) -> Result<(), Fail> {
    let mut plant = Plant::new(rt.alloc());
    let (batch, step, tag, service) = (named("b")?, named("s1")?, named("N")?, named("dose")?);
    let started = LogEntry::Start {
        step,
        tag,
        service,
        procedure: 1,
    };
    let rows = [
        (PLUG_M, Answer::Done),
        (PLUG_N, Answer::Done),
        (IDLE_N, Answer::Done),
        (RECIPE, Answer::Done),
        (START_B, Answer::Done),
        (r#"{"at":11,"ev":"unplug","tag":"M"}"#, Answer::Done),
        (PLUG_P, Answer::Done),
        (
            r#"{"at":12,"ev":"unplug","tag":"N"}"#,
            Answer::Refused(Rule::Held { batch }),
        ),
        (
            r#"{"at":13,"ev":"advance","batch":"b"}"#,
            Answer::Did(started),
        ),
        (r#"{"at":14,"ev":"unplug","tag":"P"}"#, Answer::Done),
        (PLUG_M, Answer::Done),
        (IDLE_M, Answer::Done),
        (START_C, Answer::Done),
        (
            r#"{"at":15,"ev":"exchange_begin","tag":"M"}"#,
            Answer::Ticket(1),
        ),
        (END_M, Answer::Done),
    ];
    for (line, answer) in rows {
        assert_eq!(rt; answered(&rt, &mut plant, line)?, answer);
    }
    assert_eq!(rt; plant.docking(named("M")?), Docking::Docked(2));
    let tags = plant.tags(rt.alloc())?;
    let wanted = [named("M")?, named("N")?];
    assert_eq!(rt; &tags[..], &wanted[..]);
    Ok(())
}

// Whether the plant does what a line says.
fn is_done(rt: &HostRuntime, plant: &mut Plant, line: &str) -> Result<bool, Fail> {
    let event = read_event(rt.alloc(), line.as_bytes())
        .ok()
        .ok_or("no event")?;
    Ok(plant.apply(event).ok() == Some(Answer::Done))
}

#[test]
fn reports_need_no_memory_where_room_was_taken(rt: HostRuntime) -> Result<(), Fail> {
    let mut plant = Plant::new(rt.alloc());
    assert!(rt; is_done(&rt, &mut plant, PLUG_M)?);
    plant.reserve(2)?;
    for line in [IDLE_M, STARTING_M] {
        assert!(rt; is_done(&rt, &mut plant, line)?);
    }
    Ok(())
}

#[test]
fn room_is_taken_again_after_a_plug(rt: HostRuntime) -> Result<(), Fail> {
    let mut plant = Plant::new(rt.alloc());
    plant.reserve(1)?;
    assert!(rt; is_done(&rt, &mut plant, PLUG_M)?);
    plant.reserve(1)?;
    assert!(rt; is_done(&rt, &mut plant, IDLE_M)?);
    Ok(())
}

#[test]
fn history_full_keeps_its_entries(rt: HostRuntime) -> Result<(), Fail> {
    let mut plant = Plant::new(rt.alloc());
    let batch = named("b")?;
    for at in 0..200_000 {
        let answer = plant.apply(Event::Advance { at, batch });
        assert_eq!(rt; answer.ok(), Some(Answer::Refused(Rule::NoBatch)));
    }
    for at in 200_000..200_002 {
        let answer = plant.apply(Event::Advance { at, batch });
        assert_eq!(rt; answer.ok(), Some(Answer::Refused(Rule::HistoryFull)));
    }
    assert_eq!(rt; plant.history().len(), 200_000);
    Ok(())
}
