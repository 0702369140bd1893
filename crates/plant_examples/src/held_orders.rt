//! A batch of three parallel steps is frozen, held, thawed, stopped and broken in every order of these, and advanced
//! twice after each. Its module obeys each command at once.
use chart_core::{LogEntry, Why};
use event_json::read_event;
use given::named;
use mtp_assembly::ServiceControl;
use mtp_codes::{Mode, Name, Origin, State};
use pol_core::Plant;
use pol_events::{Answer, Event, Outcome, Rule};
use std::alloc::AllocError;
use std::test::*;

// A module with a service for each step, and the batch.
const OPENING: [&str; 9] = [
    r#"{"ev":"plug","at":1,"tag":"M","desc":{"type":"Doser","version":"1.0.0","services":[{"name":"1","procedures":[{"number":1,"default":true,"self_completing":true}]},{"name":"2","procedures":[{"number":1,"default":true,"self_completing":true}]},{"name":"3","procedures":[{"number":1,"default":true,"self_completing":true}]}]}}"#,
    r#"{"ev":"report","at":2,"tag":"M","service":"1","StateCur":16,"CommandEn":4,"Mode":"Automatic","Src":"External","ProcedureCur":0}"#,
    r#"{"ev":"report","at":3,"tag":"M","service":"2","StateCur":16,"CommandEn":4,"Mode":"Automatic","Src":"External","ProcedureCur":0}"#,
    r#"{"ev":"report","at":4,"tag":"M","service":"3","StateCur":16,"CommandEn":4,"Mode":"Automatic","Src":"External","ProcedureCur":0}"#,
    r#"{"ev":"recipe","at":5,"recipe":"three","roles":[{"role":"A","type":"Doser","version":"^1"}],"chart":{"par":[{"step":"1","role":"A","service":"1","procedure":1},{"step":"2","role":"A","service":"2","procedure":1},{"step":"3","role":"A","service":"3","procedure":1}]}}"#,
    r#"{"ev":"start","at":6,"batch":"b","recipe":"three","bind":{"A":"M"}}"#,
    r#"{"ev":"advance","at":7,"batch":"b"}"#,
    r#"{"ev":"advance","at":8,"batch":"b"}"#,
    r#"{"ev":"advance","at":9,"batch":"b"}"#,
];

// A row for each order, with its answers. In an order F is a freeze, H one that holds, T a thaw, S a stop, and B that the
// service of the first step is aborted. Of the answers: `.` done, `?` stop_asked, `r` refused; then each advance: h hold,
// u unhold, s stop, l left, k broke, i waits for another state, each with the step; f frozen; B closed as Broken, S as
// Stopped; n refused, since it is closed.
const ORDERS: &str = "
FHTSB .ff .h1h2 .u1u2 ?s1s2 s3S nnnnnn
FHTBS .ff .h1h2 .u1u2 k1l1 .s2s3 Bnnnnn
FHSTB .ff .h1h2 ?s1s2 rs3S nn nnnnnn
FHSBT .ff .h1h2 ?s1s2 s3S nnn nnnnnn
FHBTS .ff .h1h2 h3f .k1l1 .s2s3 Bnnnnn
FHBST .ff .h1h2 h3f ?l1s2 rs3S nnnnnn
FTHSB .ff .i1i1 .h1h2 ?s1s2 s3S nnnnnn
FTHBS .ff .i1i1 .h1h2 h3f ?l1s2 s3Snnnn
FTSHB .ff .i1i1 ?s1s2 .h3f ff ffffff
FTSBH .ff .i1i1 ?s1s2 s3S nnn nnnnnn
FTBHS .ff .i1i1 k1l1 .h2h3 .s2s3 Bnnnnn
FTBSH .ff .i1i1 k1l1 .s2s3 .ff ffffff
FSHTB .ff ?s1s2 .h3f .s3S nn nnnnnn
FSHBT .ff ?s1s2 .h3f ff .s3S nnnnnn
FSTHB .ff ?s1s2 rs3S nnn nn nnnnnn
FSTBH .ff ?s1s2 rs3S nn nnn nnnnnn
FSBHT .ff ?s1s2 s3S nnn nnn nnnnnn
FSBTH .ff ?s1s2 s3S nnn nnn nnnnnn
FBHTS .ff ff .h2h3 .k1l1 .s2s3 Bnnnnn
FBHST .ff ff .h2h3 ?l1s2 rs3S nnnnnn
FBTHS .ff ff .k1l1 .h2h3 .s2s3 Bnnnnn
FBTSH .ff ff .k1l1 .s2s3 .ff ffffff
FBSHT .ff ff ?l1s2 .h3f .s3S nnnnnn
FBSTH .ff ff ?l1s2 rs3S nnn nnnnnn
HFTSB .h1h2 rh3f .u1u2 ?s1s2 s3S nnnnnn
HFTBS .h1h2 rh3f .u1u2 k1l1 .s2s3 Bnnnnn
HFSTB .h1h2 rh3f ?s1s2 rs3S nn nnnnnn
HFSBT .h1h2 rh3f ?s1s2 s3S nnn nnnnnn
HFBTS .h1h2 rh3f ff .k1l1 .s2s3 Bnnnnn
HFBST .h1h2 rh3f ff ?l1s2 rs3S nnnnnn
HTFSB .h1h2 .u1u2 .ff ?s1s2 s3S nnnnnn
HTFBS .h1h2 .u1u2 .ff ff ?l1s2 s3Snnnn
HTSFB .h1h2 .u1u2 ?s1s2 .ff ff ffffff
HTSBF .h1h2 .u1u2 ?s1s2 s3S nnn nnnnnn
HTBFS .h1h2 .u1u2 k1l1 .ff .s2s3 Bnnnnn
HTBSF .h1h2 .u1u2 k1l1 .s2s3 .ff ffffff
HSFTB .h1h2 ?s1s2 .ff .s3S nn nnnnnn
HSFBT .h1h2 ?s1s2 .ff ff .s3S nnnnnn
HSTFB .h1h2 ?s1s2 rs3S nnn nn nnnnnn
HSTBF .h1h2 ?s1s2 rs3S nn nnn nnnnnn
HSBFT .h1h2 ?s1s2 s3S nnn nnn nnnnnn
HSBTF .h1h2 ?s1s2 s3S nnn nnn nnnnnn
HBFTS .h1h2 h3f rff .k1l1 .s2s3 Bnnnnn
HBFST .h1h2 h3f rff ?l1s2 rs3S nnnnnn
HBTFS .h1h2 h3f .k1l1 .ff .s2s3 Bnnnnn
HBTSF .h1h2 h3f .k1l1 .s2s3 .ff ffffff
HBSFT .h1h2 h3f ?l1s2 .ff .s3S nnnnnn
HBSTF .h1h2 h3f ?l1s2 rs3S nnn nnnnnn
TFHSB ri1i1 .ff .h1h2 ?s1s2 s3S nnnnnn
TFHBS ri1i1 .ff .h1h2 h3f ?l1s2 s3Snnnn
TFSHB ri1i1 .ff ?s1s2 .h3f ff ffffff
TFSBH ri1i1 .ff ?s1s2 s3S nnn nnnnnn
TFBHS ri1i1 .ff ff .h2h3 ?l1s2 s3Snnnn
TFBSH ri1i1 .ff ff ?l1s2 .h3f ffffff
THFSB ri1i1 .h1h2 rh3f ?s1s2 s3S nnnnnn
THFBS ri1i1 .h1h2 rh3f ff ?l1s2 s3Snnnn
THSFB ri1i1 .h1h2 ?s1s2 .ff ff ffffff
THSBF ri1i1 .h1h2 ?s1s2 s3S nnn nnnnnn
THBFS ri1i1 .h1h2 h3f rff ?l1s2 s3Snnnn
THBSF ri1i1 .h1h2 h3f ?l1s2 .ff ffffff
TSFHB ri1i1 ?s1s2 .ff .h3f ff ffffff
TSFBH ri1i1 ?s1s2 .ff ff .h3f ffffff
TSHFB ri1i1 ?s1s2 .h3f rff ff ffffff
TSHBF ri1i1 ?s1s2 .h3f ff rff ffffff
TSBFH ri1i1 ?s1s2 s3S nnn nnn nnnnnn
TSBHF ri1i1 ?s1s2 s3S nnn nnn nnnnnn
TBFHS ri1i1 k1l1 .ff .h2h3 .s2s3 Bnnnnn
TBFSH ri1i1 k1l1 .ff .s2s3 .ff ffffff
TBHFS ri1i1 k1l1 .h2h3 rff .s2s3 Bnnnnn
TBHSF ri1i1 k1l1 .h2h3 .s2s3 .ff ffffff
TBSFH ri1i1 k1l1 .s2s3 .ff .ff ffffff
TBSHF ri1i1 k1l1 .s2s3 .ff rff ffffff
SFHTB ?s1s2 .ff .h3f .s3S nn nnnnnn
SFHBT ?s1s2 .ff .h3f ff .s3S nnnnnn
SFTHB ?s1s2 .ff .s3S nnn nn nnnnnn
SFTBH ?s1s2 .ff .s3S nn nnn nnnnnn
SFBHT ?s1s2 .ff ff .h3f .s3S nnnnnn
SFBTH ?s1s2 .ff ff .s3S nnn nnnnnn
SHFTB ?s1s2 .h3f rff .s3S nn nnnnnn
SHFBT ?s1s2 .h3f rff ff .s3S nnnnnn
SHTFB ?s1s2 .h3f .s3S nnn nn nnnnnn
SHTBF ?s1s2 .h3f .s3S nn nnn nnnnnn
SHBFT ?s1s2 .h3f ff rff .s3S nnnnnn
SHBTF ?s1s2 .h3f ff .s3S nnn nnnnnn
STFHB ?s1s2 rs3S nnn nnn nn nnnnnn
STFBH ?s1s2 rs3S nnn nn nnn nnnnnn
STHFB ?s1s2 rs3S nnn nnn nn nnnnnn
STHBF ?s1s2 rs3S nnn nn nnn nnnnnn
STBFH ?s1s2 rs3S nn nnn nnn nnnnnn
STBHF ?s1s2 rs3S nn nnn nnn nnnnnn
SBFHT ?s1s2 s3S nnn nnn nnn nnnnnn
SBFTH ?s1s2 s3S nnn nnn nnn nnnnnn
SBHFT ?s1s2 s3S nnn nnn nnn nnnnnn
SBHTF ?s1s2 s3S nnn nnn nnn nnnnnn
SBTFH ?s1s2 s3S nnn nnn nnn nnnnnn
SBTHF ?s1s2 s3S nnn nnn nnn nnnnnn
BFHTS k1l1 .ff .h2h3 .s2s3 .Bn nnnnnn
BFHST k1l1 .ff .h2h3 .s2s3 rBn nnnnnn
BFTHS k1l1 .ff .s2s3 .ff .Bn nnnnnn
BFTSH k1l1 .ff .s2s3 .Bn nnn nnnnnn
BFSHT k1l1 .ff .s2s3 .ff .Bn nnnnnn
BFSTH k1l1 .ff .s2s3 rBn nnn nnnnnn
BHFTS k1l1 .h2h3 rff .s2s3 .Bn nnnnnn
BHFST k1l1 .h2h3 rff .s2s3 rBn nnnnnn
BHTFS k1l1 .h2h3 .s2s3 .ff .Bn nnnnnn
BHTSF k1l1 .h2h3 .s2s3 .Bn nnn nnnnnn
BHSFT k1l1 .h2h3 .s2s3 .ff .Bn nnnnnn
BHSTF k1l1 .h2h3 .s2s3 rBn nnn nnnnnn
BTFHS k1l1 rs2s3 .ff .ff .Bn nnnnnn
BTFSH k1l1 rs2s3 .ff .Bn nnn nnnnnn
BTHFS k1l1 rs2s3 .ff rff .Bn nnnnnn
BTHSF k1l1 rs2s3 .ff .Bn nnn nnnnnn
BTSFH k1l1 rs2s3 .Bn nnn nnn nnnnnn
BTSHF k1l1 rs2s3 .Bn nnn nnn nnnnnn
BSFHT k1l1 .s2s3 .ff .ff .Bn nnnnnn
BSFTH k1l1 .s2s3 .ff .Bn nnn nnnnnn
BSHFT k1l1 .s2s3 .ff rff .Bn nnnnnn
BSHTF k1l1 .s2s3 .ff .Bn nnn nnnnnn
BSTFH k1l1 .s2s3 rBn nnn nnn nnnnnn
BSTHF k1l1 .s2s3 rBn nnn nnn nnnnnn
";

// A service reports that it is in a state and enables these commands.
fn report(plant: &mut Plant, service: Name, state: State, mask: u32) -> Result<(), Fail> {
    let control = ServiceControl {
        state,
        mask,
        mode: Mode::Automatic,
        origin: Origin::External,
        procedure: 1,
    };
    let tag = named("M")?;
    let answer = plant.apply(Event::Report {
        at: 0,
        tag,
        service,
        control,
    });
    answer.ok().ok_or("no memory")?;
    Ok(())
}

// What a line says happens.
fn enter(rt: &HostRuntime, plant: &mut Plant, line: &str) -> Result<(), Fail> {
    let event = read_event(rt.alloc(), line.as_bytes())
        .ok()
        .ok_or("no event")?;
    plant.apply(event).ok().ok_or("no memory")?;
    Ok(())
}

// The three steps of the batch are started, and their services execute.
fn open(rt: &HostRuntime, plant: &mut Plant) -> Result<(), Fail> {
    for line in OPENING {
        enter(rt, plant, line)?;
    }
    for service in ["1", "2", "3"] {
        report(plant, named(service)?, State::Starting, 8)?;
        report(plant, named(service)?, State::Execute, 24)?;
    }
    Ok(())
}

// The letter of an answer, and the step that it names.
fn letter_of(answer: &Answer) -> (u8, Option<Name>) {
    match answer {
        Answer::Done => (b'.', None),
        Answer::Did(LogEntry::StopAsked) => (b'?', None),
        Answer::Did(LogEntry::Hold { step, .. }) => (b'h', Some(*step)),
        Answer::Did(LogEntry::Unhold { step, .. }) => (b'u', Some(*step)),
        Answer::Did(LogEntry::Stop { step, .. }) => (b's', Some(*step)),
        Answer::Did(LogEntry::Left { step, .. }) => (b'l', Some(*step)),
        Answer::Did(LogEntry::Broke { step, .. }) => (b'k', Some(*step)),
        Answer::Waiting(Why::Frozen) => (b'f', None),
        Answer::Waiting(Why::InState { step, .. }) => (b'i', Some(*step)),
        Answer::Closed(Outcome::Broken) => (b'B', None),
        Answer::Closed(Outcome::Stopped) => (b'S', None),
        Answer::Refused(Rule::BatchClosed) => (b'n', None),
        Answer::Refused(Rule::AlreadyFrozen) => (b'r', None),
        Answer::Refused(Rule::NotFrozen) => (b'r', None),
        _ => (b'!', None),
    }
}

// Puts the letter of an answer, and the step that it names, behind the others.
fn put(word: &mut Vec<u8>, answer: &Answer) -> Result<(), AllocError> {
    let (letter, step) = letter_of(answer);
    word.push(letter)?;
    if let Some(step) = step {
        word.extend_from_slice(step.as_bytes())?;
    }
    Ok(())
}

// The module does at once what an answer asks of it.
fn obey(plant: &mut Plant, answer: &Answer) -> Result<(), Fail> {
    match answer {
        Answer::Did(LogEntry::Hold { service, .. }) => {
            report(plant, *service, State::Holding, 8)?;
            report(plant, *service, State::Held, 40)
        }
        Answer::Did(LogEntry::Unhold { service, .. }) => {
            report(plant, *service, State::Unholding, 8)?;
            report(plant, *service, State::Execute, 24)
        }
        Answer::Did(LogEntry::Stop { service, .. }) => {
            report(plant, *service, State::Stopping, 0)?;
            report(plant, *service, State::Stopped, 2)
        }
        _ => Ok(()),
    }
}

// The batch is advanced so many times.
fn advance(plant: &mut Plant, times: u32, word: &mut Vec<u8>) -> Result<(), Fail> {
    let batch = named("b")?;
    for _ in 0..times {
        let answer = plant.apply(Event::Advance { at: 0, batch });
        let answer = answer.ok().ok_or("no memory")?;
        put(word, &answer)?;
        obey(plant, &answer)?;
    }
    Ok(())
}

// What a letter of an order stands for happens.
fn happen(plant: &mut Plant, letter: u8, word: &mut Vec<u8>) -> Result<(), Fail> {
    let (at, batch) = (0, named("b")?);
    let answer = match letter {
        b'F' => plant.apply(Event::Freeze {
            at,
            batch,
            hold: false,
        }),
        b'H' => plant.apply(Event::Freeze {
            at,
            batch,
            hold: true,
        }),
        b'T' => plant.apply(Event::Thaw { at, batch }),
        b'S' => plant.apply(Event::StopBatch { at, batch }),
        _ => {
            report(plant, named("1")?, State::Aborting, 0)?;
            return report(plant, named("1")?, State::Aborted, 2);
        }
    };
    put(word, &answer.ok().ok_or("no memory")?)?;
    Ok(())
}

// Each letter of an order happens, and after each the batch is advanced.
fn play(plant: &mut Plant, order: &str, word: &mut Vec<u8>) -> Result<(), Fail> {
    for letter in order.bytes() {
        happen(plant, letter, word)?;
        advance(plant, 2, word)?;
        word.push(b' ')?;
    }
    advance(plant, 6, word)
}

// What is answered in an order.
fn answers_in(rt: &HostRuntime, order: &str) -> Result<Vec<u8>, Fail> {
    let mut plant = Plant::new(rt.alloc());
    let mut word = Vec::new(rt.alloc());
    open(rt, &mut plant)?;
    play(&mut plant, order, &mut word)?;
    Ok(word)
}

#[test]
fn freezes_holds_thaws_stops_and_breaks_come_in_any_order(rt: HostRuntime) -> Result<(), Fail> {
    for row in ORDERS.trim().lines() {
        let (order, answers) = row.split_once(" ").ok_or("no order")?;
        assert!(rt;
            answers_in(&rt, order)?.as_slice() == answers.as_bytes(),
            "{order}"
        );
    }
    Ok(())
}
