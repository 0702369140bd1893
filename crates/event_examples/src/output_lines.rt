//! Output lines, byte for byte.

use chart_core::{ChartFault, LogEntry, Readings, Why};
use event_json::LineFault;
use given::named;
use mtp_codes::{Command, Forbid, Name, Reading, State};
use mtp_json::{FaultKind, JsonFault, Path, PathPart};
use pol_events::{Answer, Bind, Entry, Event, Outcome, Rule};
use pol_record::{
    answer_line, batch_line, batch_log, end_line, entry_line, fault_line, gather, gathered_line,
    put_answer_line, put_fault_line,
};
use std::alloc::Global;
use std::test::*;

/// The lines of these answers, one after another.
fn answer_lines(alloc: Global, answers: &[Answer]) -> Result<Vec<u8>, Fail> {
    let mut lines = Vec::new(alloc);
    for answer in answers {
        lines.extend_from_slice(answer_line(alloc, answer)?.as_slice())?;
    }
    Ok(lines)
}

/// The lines of refusals by these rules.
fn refusal_lines(alloc: Global, rules: &[Rule]) -> Result<Vec<u8>, Fail> {
    let mut lines = Vec::new(alloc);
    for rule in rules {
        lines.extend_from_slice(answer_line(alloc, &Answer::Refused(*rule))?.as_slice())?;
    }
    Ok(lines)
}

/// The lines of answers that tell these entries.
fn entry_lines(alloc: Global, entries: &[LogEntry]) -> Result<Vec<u8>, Fail> {
    let mut lines = Vec::new(alloc);
    for entry in entries {
        lines.extend_from_slice(answer_line(alloc, &Answer::Did(*entry))?.as_slice())?;
    }
    Ok(lines)
}

/// The lines of these faults.
fn fault_lines(alloc: Global, faults: &[LineFault]) -> Result<Vec<u8>, Fail> {
    let mut lines = Vec::new(alloc);
    for fault in faults {
        lines.extend_from_slice(fault_line(alloc, fault)?.as_slice())?;
    }
    Ok(lines)
}

// The lines of the rules without fields.
const PLAIN_RULES: &[u8] = br#"{"refused":1,"rule":"TagTaken"}
{"refused":3,"rule":"PlantFull"}
{"refused":6,"rule":"NotInExchange"}
{"refused":8,"rule":"NoService"}
{"refused":10,"rule":"NoVariable"}
{"refused":11,"rule":"WrongKind"}
{"refused":12,"rule":"RecipeKnown"}
{"refused":13,"rule":"NoRecipe"}
{"refused":14,"rule":"BatchKnown"}
{"refused":15,"rule":"NoBatch"}
{"refused":16,"rule":"BatchClosed"}
{"refused":26,"rule":"BatchesFull"}
{"refused":30,"rule":"ModeForbids"}
{"refused":31,"rule":"StateForbids"}
{"refused":32,"rule":"NotEnabled"}
{"refused":33,"rule":"OutOfRange"}
{"refused":34,"rule":"NotFrozen"}
{"refused":35,"rule":"AlreadyFrozen"}
{"refused":36,"rule":"SelfCompletes"}
{"refused":37,"rule":"RecipesFull"}
{"refused":38,"rule":"HistoryFull"}
"#;

#[test]
fn a_rule_without_fields_has_its_number_and_its_name(rt: HostRuntime) -> Result<(), Fail> {
    let rules = [
        Rule::TagTaken,
        Rule::PlantFull,
        Rule::NotInExchange,
        Rule::NoService,
        Rule::NoVariable,
        Rule::WrongKind,
        Rule::RecipeKnown,
        Rule::NoRecipe,
        Rule::BatchKnown,
        Rule::NoBatch,
        Rule::BatchClosed,
        Rule::BatchesFull,
        Rule::ModeForbids,
        Rule::StateForbids,
        Rule::NotEnabled,
        Rule::OutOfRange,
        Rule::NotFrozen,
        Rule::AlreadyFrozen,
        Rule::SelfCompletes,
        Rule::RecipesFull,
        Rule::HistoryFull,
    ];
    assert_eq!(rt; refusal_lines(rt.alloc(), &rules)?.as_slice(), PLAIN_RULES);
    Ok(())
}

#[test]
fn a_rule_of_a_module_has_its_fields_in_byte_order(rt: HostRuntime) -> Result<(), Fail> {
    let tag = named("M")?;
    let service = named("dose")?;
    let rules = [
        Rule::NoModule { tag },
        Rule::InExchange { tag, ticket: 1 },
        Rule::WrongTicket { kept: 1, given: 2 },
        Rule::NotAnEdge {
            from: State::Idle,
            to: State::Execute,
        },
        Rule::OneModuleTwice { tag },
        Rule::NotReported { tag, name: service },
        Rule::NotIdle {
            tag,
            service,
            state: State::Stopping,
        },
        Rule::NotAtRest {
            service,
            state: State::Stopping,
        },
    ];
    let lines = br#"{"refused":2,"rule":"NoModule","tag":"M"}
{"refused":5,"rule":"InExchange","tag":"M","ticket":1}
{"given":2,"kept":1,"refused":7,"rule":"WrongTicket"}
{"from":16,"refused":9,"rule":"NotAnEdge","to":64}
{"refused":19,"rule":"OneModuleTwice","tag":"M"}
{"name":"dose","refused":23,"rule":"NotReported","tag":"M"}
{"refused":24,"rule":"NotIdle","service":"dose","state":128,"tag":"M"}
{"refused":27,"rule":"NotAtRest","service":"dose","state":128}
"#;
    assert_eq!(rt;
        refusal_lines(rt.alloc(), &rules)?.as_slice(),
        lines.as_slice()
    );
    Ok(())
}

#[test]
fn a_rule_of_a_batch_or_a_role_has_its_fields_in_byte_order(rt: HostRuntime) -> Result<(), Fail> {
    let batch = named("b")?;
    let tag = named("N")?;
    let step = named("s1")?;
    let role = named("A")?;
    let missing = step;
    let rules = [
        Rule::Held { batch },
        Rule::RoleUnbound { role },
        Rule::RoleUnknown { role },
        Rule::WrongType { role },
        Rule::WrongVersion { role },
        Rule::NotCovered { missing },
        Rule::Busy { tag, batch },
        Rule::ActiveStep { batch, step },
        Rule::HeldBack { batch, missing },
    ];
    let lines = br#"{"batch":"b","refused":4,"rule":"Held"}
{"refused":17,"role":"A","rule":"RoleUnbound"}
{"refused":18,"role":"A","rule":"RoleUnknown"}
{"refused":20,"role":"A","rule":"WrongType"}
{"refused":21,"role":"A","rule":"WrongVersion"}
{"missing":"s1","refused":22,"rule":"NotCovered"}
{"batch":"b","refused":25,"rule":"Busy","tag":"N"}
{"batch":"b","refused":28,"rule":"ActiveStep","step":"s1"}
{"batch":"b","missing":"s1","refused":29,"rule":"HeldBack"}
"#;
    assert_eq!(rt;
        refusal_lines(rt.alloc(), &rules)?.as_slice(),
        lines.as_slice()
    );
    Ok(())
}

#[test]
fn an_entry_of_a_step_tells_its_service_and_its_module(rt: HostRuntime) -> Result<(), Fail> {
    let step = named("s1")?;
    let tag = named("M")?;
    let service = named("dose")?;
    let entries = [
        LogEntry::Start {
            step,
            tag,
            service,
            procedure: 1,
        },
        LogEntry::Finish { step, tag, service },
        LogEntry::Reset { step, tag, service },
        LogEntry::Stop { step, tag, service },
        LogEntry::Asked {
            tag,
            service,
            command: Command::Abort,
        },
    ];
    let lines = br#"{"did":{"do":"start","procedure":1,"service":"dose","step":"s1","tag":"M"}}
{"did":{"do":"finish","service":"dose","step":"s1","tag":"M"}}
{"did":{"do":"reset","service":"dose","step":"s1","tag":"M"}}
{"did":{"do":"stop","service":"dose","step":"s1","tag":"M"}}
{"did":{"command":256,"do":"asked","service":"dose","tag":"M"}}
"#;
    assert_eq!(rt;
        entry_lines(rt.alloc(), &entries)?.as_slice(),
        lines.as_slice()
    );
    Ok(())
}

#[test]
fn an_entry_without_a_service_has_what_was_read_or_found(rt: HostRuntime) -> Result<(), Fail> {
    let values = Readings::of_list(&[Reading::Whole(-600), Reading::Bit(true)]).ok_or("too many")?;
    let step = named("d")?;
    let entries = [
        LogEntry::Chose {
            node: 7,
            arm: 1,
            values,
        },
        LogEntry::Turn { node: 1, values },
        LogEntry::Leave {
            node: 1,
            values: Readings::new(),
        },
        LogEntry::End { step },
        LogEntry::Broke {
            step,
            state: State::Aborted,
        },
        LogEntry::Left {
            step,
            state: State::Stopped,
        },
        LogEntry::StopAsked,
    ];
    let lines = br#"{"did":{"arm":1,"do":"chose","node":7,"values":[-600,true]}}
{"did":{"do":"turn","node":1,"values":[-600,true]}}
{"did":{"do":"leave","node":1,"values":[]}}
{"did":{"do":"end","step":"d"}}
{"did":{"do":"broke","state":512,"step":"d"}}
{"did":{"do":"left","state":4,"step":"d"}}
{"did":{"do":"stop_asked"}}
"#;
    assert_eq!(rt;
        entry_lines(rt.alloc(), &entries)?.as_slice(),
        lines.as_slice()
    );
    Ok(())
}

#[test]
fn an_obstacle_has_its_fields_and_its_name(rt: HostRuntime) -> Result<(), Fail> {
    let step = named("stir")?;
    let tag = named("M")?;
    let name = named("level")?;
    let state = State::Idle;
    let answers = [
        Answer::Waiting(Why::Frozen),
        Answer::Waiting(Why::Away { tag }),
        Answer::Waiting(Why::NotReported { tag, name }),
        Answer::Waiting(Why::InState { step, state }),
        Answer::Waiting(Why::Unmet { step }),
        Answer::Waiting(Why::NoArm { node: 0 }),
    ];
    let lines = br#"{"wait":"Frozen"}
{"tag":"M","wait":"Away"}
{"name":"level","tag":"M","wait":"NotReported"}
{"state":16,"step":"stir","wait":"InState"}
{"step":"stir","wait":"Unmet"}
{"node":0,"wait":"NoArm"}
"#;
    assert_eq!(rt;
        answer_lines(rt.alloc(), &answers)?.as_slice(),
        lines.as_slice()
    );
    Ok(())
}

#[test]
fn a_forbidden_command_tells_why(rt: HostRuntime) -> Result<(), Fail> {
    let step = named("s1")?;
    let reasons = [
        (Forbid::ModeForbids, "ModeForbids"),
        (Forbid::SelfCompletes, "SelfCompletes"),
        (Forbid::StateForbids, "StateForbids"),
        (Forbid::NotEnabled, "NotEnabled"),
    ];
    for (by, name) in reasons {
        let answer = Answer::Waiting(Why::Forbidden { step, by });
        let line = format!(in rt.alloc();
            "{{\"by\":\"{name}\",\"step\":\"s1\",\"wait\":\"Forbidden\"}}\n"
        )?;
        assert_eq!(rt;
            answer_line(rt.alloc(), &answer)?.as_slice(),
            line.as_bytes()
        );
    }
    Ok(())
}

#[test]
fn what_was_done_has_one_key(rt: HostRuntime) -> Result<(), Fail> {
    let answers = [
        Answer::Done,
        Answer::Ticket(4294967295),
        Answer::Closed(Outcome::Completed),
        Answer::Closed(Outcome::Broken),
        Answer::Closed(Outcome::Stopped),
        Answer::Closed(Outcome::Abandoned),
    ];
    let lines = br#"{"done":true}
{"ticket":4294967295}
{"closed":"Completed"}
{"closed":"Broken"}
{"closed":"Stopped"}
{"closed":"Abandoned"}
"#;
    assert_eq!(rt;
        answer_lines(rt.alloc(), &answers)?.as_slice(),
        lines.as_slice()
    );
    Ok(())
}

/// The line of a fault of this kind at the member `on` of the second of the units.
fn line_of(alloc: Global, kind: FaultKind) -> Result<Vec<u8>, Fail> {
    let mut path = Path::new(alloc);
    path.add(PathPart::Key(named("units")?))?;
    path.add(PathPart::Place(1))?;
    path.add(PathPart::Key(named("on")?))?;
    Ok(fault_line(alloc, &LineFault::Json(JsonFault { kind, path }))?)
}

#[test]
fn a_fault_has_its_kind_and_the_text_of_its_path(rt: HostRuntime) -> Result<(), Fail> {
    let kinds = [
        (FaultKind::NotJson, "NotJson"),
        (FaultKind::Missing, "Missing"),
        (FaultKind::WrongKind, "WrongKind"),
        (FaultKind::OutOfRange, "OutOfRange"),
        (FaultKind::Unknown, "Unknown"),
        (FaultKind::Repeated, "Repeated"),
        (FaultKind::Unsound, "Unsound"),
    ];
    for (kind, name) in kinds {
        let line = format!(in rt.alloc(); "{{\"bad\":\"{name}\",\"path\":\"units.1.on\"}}\n")?;
        assert_eq!(rt; line_of(rt.alloc(), kind)?.as_slice(), line.as_bytes());
    }
    Ok(())
}

#[test]
fn a_fault_of_a_chart_has_its_name_and_its_node(rt: HostRuntime) -> Result<(), Fail> {
    let node = 2;
    let faults = [
        LineFault::Chart(ChartFault::TooDeep { node }),
        LineFault::Chart(ChartFault::TooManySteps { node }),
        LineFault::Chart(ChartFault::StepTwice { node }),
        LineFault::Chart(ChartFault::UnknownRole { node }),
        LineFault::Chart(ChartFault::SameService { node }),
        LineFault::Chart(ChartFault::TooManyReads { node }),
        LineFault::TooLong,
    ];
    let lines = br#"{"bad":"BadChart","fault":"TooDeep","node":2}
{"bad":"BadChart","fault":"TooManySteps","node":2}
{"bad":"BadChart","fault":"StepTwice","node":2}
{"bad":"BadChart","fault":"UnknownRole","node":2}
{"bad":"BadChart","fault":"SameService","node":2}
{"bad":"BadChart","fault":"TooManyReads","node":2}
{"bad":"TooLong","path":""}
"#;
    assert_eq!(rt;
        fault_lines(rt.alloc(), &faults)?.as_slice(),
        lines.as_slice()
    );
    Ok(())
}

#[test]
fn a_whole_line_at_fault_and_the_last_line(rt: HostRuntime) -> Result<(), Fail> {
    let alloc = rt.alloc();
    let not_json = LineFault::Json(JsonFault {
        kind: FaultKind::NotJson,
        path: Path::new(alloc),
    });
    let line = br#"{"bad":"NotJson","path":""}
"#;
    assert_eq!(rt; fault_line(alloc, &not_json)?.as_slice(), line.as_slice());
    assert_eq!(rt; end_line(alloc)?.as_slice(), b"{\"end\":true}\n".as_slice());
    Ok(())
}

#[test]
fn lines_stand_one_behind_the_other_in_a_kept_buffer(rt: HostRuntime) -> Result<(), Fail> {
    let alloc = rt.alloc();
    let mut buffer = Vec::new(alloc);
    put_answer_line(alloc, &mut buffer, &Answer::Done)?;
    put_answer_line(alloc, &mut buffer, &Answer::Ticket(3))?;
    put_fault_line(alloc, &mut buffer, &LineFault::TooLong)?;
    let lines = br#"{"done":true}
{"ticket":3}
{"bad":"TooLong","path":""}
"#;
    assert_eq!(rt; buffer.as_slice(), lines.as_slice());
    Ok(())
}

#[test]
fn an_entry_of_a_history_has_its_answer_and_its_event(rt: HostRuntime) -> Result<(), Fail> {
    let entry = Entry {
        event: Event::ExchangeBegin {
            at: 5,
            tag: named("M")?,
        },
        answer: Answer::Ticket(1),
    };
    assert_eq!(rt;
        entry_line(rt.alloc(), &entry)?.as_slice(),
        br#"{"answer":{"ticket":1},"event":{"at":5,"ev":"exchange_begin","tag":"M"}}
"#
            .as_slice()
    );
    Ok(())
}

/// An accepted start of the batch with the module in the role A.
fn started(alloc: Global, batch: Name, tag: Name) -> Result<Entry, Fail> {
    let mut bind = Vec::new(alloc);
    bind.push(Bind {
        role: named("A")?,
        tag,
    })?;
    let recipe = named("one")?;
    Ok(Entry {
        event: Event::Start {
            at: 7,
            batch,
            recipe,
            bind,
            watch: Vec::new(alloc),
        },
        answer: Answer::Done,
    })
}

fn advanced(batch: Name, answer: Answer) -> Entry {
    Entry {
        event: Event::Advance { at: 8, batch },
        answer,
    }
}

#[test]
fn a_batch_that_is_not_closed_is_running(rt: HostRuntime) -> Result<(), Fail> {
    let alloc = rt.alloc();
    let batch = named("r1")?;
    let other = named("r3")?;
    let start = started(alloc, batch, named("N")?)?;
    let next = started(alloc, other, named("M")?)?;
    let history = [
        start,
        next,
        advanced(other, Answer::Closed(Outcome::Stopped)),
    ];
    assert_eq!(rt;
        batch_line(alloc, &history, batch)?.as_slice(),
        br#"{"batch":"r1","bind":{"A":"N"},"log":[],"outcome":"Running","recipe":"one"}
"#
            .as_slice()
    );
    assert!(rt; batch_line(alloc, &history, named("r2")?)?.is_empty());
    Ok(())
}

#[test]
fn each_batch_that_was_started_has_its_line_in_the_order_of_the_starts(
    rt: HostRuntime,
) -> Result<(), Fail> {
    let alloc = rt.alloc();
    let first = named("r3")?;
    let second = named("r1")?;
    let history = [
        started(alloc, first, named("M")?)?,
        started(alloc, second, named("N")?)?,
        advanced(first, Answer::Closed(Outcome::Stopped)),
    ];
    let gathered = gather(alloc, &history)?;
    assert!(rt; gathered.started.as_slice() == [first, second].as_slice());
    let mut lines = Vec::new(alloc);
    for batch in [first, second, named("r2")?] {
        lines.extend_from_slice(gathered_line(alloc, &gathered, batch)?.as_slice())?;
    }
    assert_eq!(rt;
        lines.as_slice(),
        br#"{"batch":"r3","bind":{"A":"M"},"log":[],"outcome":"Stopped","recipe":"one"}
{"batch":"r1","bind":{"A":"N"},"log":[],"outcome":"Running","recipe":"one"}
"#
            .as_slice()
    );
    Ok(())
}

#[test]
fn a_batch_that_is_closed_has_its_log_and_its_outcome(rt: HostRuntime) -> Result<(), Fail> {
    let alloc = rt.alloc();
    let batch = named("r3")?;
    let entry = LogEntry::End { step: named("s1")? };
    let start = started(alloc, batch, named("M")?)?;
    let history = [
        start,
        advanced(batch, Answer::Did(entry)),
        advanced(batch, Answer::Closed(Outcome::Completed)),
    ];
    assert_eq!(rt;
        batch_line(alloc, &history, batch)?.as_slice(),
        br#"{"batch":"r3","bind":{"A":"M"},"log":[{"do":"end","step":"s1"}],"outcome":"Completed","recipe":"one"}
"#
            .as_slice()
    );
    assert!(rt; batch_log(alloc, &history, batch)?.as_slice() == [entry].as_slice());
    Ok(())
}
