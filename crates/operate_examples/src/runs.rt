//! A plant that is operated, run after run on one disk: what is answered, denied and kept, and what is refused.
use mtp_json::FaultKind;
use pol_disk::MemoryDisk;
use pol_io::{SureSink, SureSource};
use pol_operate::{OperateFault, operate};
use std::alloc::Global;
use std::test::*;

// What came of a run: how it ended, what was written, and the disk.
#[derive(Drop)]
struct Operated {
    ended: Result<(), OperateFault>,
    output: Vec<u8>,
    disk: MemoryDisk,
}

fn empty_disk(alloc: Global) -> Result<MemoryDisk, Fail> {
    Ok(MemoryDisk::new(alloc, b"", u32::MAX, u32::MAX)?)
}

fn operate_on(alloc: Global, input: &str, disk: MemoryDisk) -> Result<Operated, Fail> {
    let mut source = SureSource::new(input.as_bytes().to_vec(alloc)?);
    let mut sink = SureSink::new(alloc);
    let (ended, disk) = operate(alloc, &mut source, &mut sink, disk);
    Ok(Operated {
        ended,
        output: sink.bytes().to_vec(alloc)?,
        disk,
    })
}

// ---- one run after another

// A policy, a plant with one batch, and who may give what: each line of the first run. Bob may start nothing, nobody
// who isn't named may, and a step's settings are told where it starts.
const FIRST: &str =
    r#"{"groups":[{"group":"leads","members":["ann"]}],"rules":[{"name":"leads-command","allow":true,"who":["leads"]}],"lines":[{"name":"machines","allow":true,"kinds":["plug","report","variable","recipe","advance"]},{"name":"leads-run","allow":true,"who":["leads"],"kinds":["start","freeze","thaw","stop"]},{"name":"bob-starts-nothing","allow":false,"who":["bob"],"kinds":["start"]}]}
{"at":1,"desc":{"services":[{"name":"dose","procedures":[{"default":true,"number":1,"params":[{"kind":"DIntServParam","max":5000,"min":0,"name":"amount"}],"self_completing":true}]}],"type":"Doser","variables":[],"version":"1.0.0"},"ev":"plug","tag":"M"}
{"CommandEn":4,"Mode":"Automatic","ProcedureCur":0,"Src":"External","StateCur":16,"at":2,"ev":"report","service":"dose","tag":"M"}
{"at":3,"chart":{"procedure":1,"role":"A","service":"dose","settings":[{"name":"amount","value":1500}],"step":"s1"},"ev":"recipe","recipe":"one","roles":[{"role":"A","type":"Doser","version":"^1"}]}
{"at":4,"batch":"b","bind":{"A":"M"},"by":"bob","ev":"start","recipe":"one"}
{"at":4,"batch":"b","bind":{"A":"M"},"ev":"start","recipe":"one"}
{"at":4,"batch":"b","bind":{"A":"M"},"by":"ann","ev":"start","recipe":"one"}
{"at":5,"batch":"b","ev":"advance"}
{"CommandOp":8,"at":6,"by":"ann","ev":"desk","service":"dose","tag":"M"}
{"CommandOp":8,"at":6,"by":"eve","ev":"desk","service":"dose","tag":"M"}
{"CommandOp":8,"at":6,"ev":"desk","service":"dose","tag":"M"}
{"ev":"stop","at":7,"by":"","batch":"b"}
"#;

const FIRST_ANSWERS: &str =
    r#"{"kept":0,"sum":"d238d9dd85b92fb7e6b9e43308e1d8e1b13f9d464d5f02cb0c48a07fa2d640e9"}
{"done":true}
{"done":true}
{"done":true}
{"denied":true,"policy":"bob-starts-nothing"}
{"denied":true}
{"done":true}
{"did":{"do":"start","procedure":1,"service":"dose","step":"s1","tag":"M"},"settings":[{"name":"amount","value":1500}]}
{"refused":30,"rule":"ModeForbids"}
{"denied":true}
{"bad":"Missing","path":"by"}
{"bad":"OutOfRange","path":"by"}
{"batch":"b","bind":{"A":"M"},"log":[{"do":"start","procedure":1,"service":"dose","step":"s1","tag":"M"}],"outcome":"Running","recipe":"one"}
{"end":true,"sum":"9017adcdb7fb66e82a79bc20edcd7d68735969bc0b1198a67422a5872c0f17a4"}
"#;

// A policy of the job guard: it judges no line but commands of the desk.
const SECOND: &str = r#"{"groups":[],"rules":[]}
{"at":8,"batch":"b","by":"bob","ev":"freeze","hold":false}
"#;

const SECOND_ANSWERS: &str =
    r#"{"kept":6,"sum":"9017adcdb7fb66e82a79bc20edcd7d68735969bc0b1198a67422a5872c0f17a4"}
{"done":true}
{"batch":"b","bind":{"A":"M"},"log":[{"do":"start","procedure":1,"service":"dose","step":"s1","tag":"M"}],"outcome":"Running","recipe":"one"}
{"end":true,"sum":"f1eecb0bec066aa1680a42dd8b5f7a56a6ec09b5bc6c9b82e84776644dfc7767"}
"#;

// The sums are SHA-256 over the records as their definition has them, by another program.
#[test]
fn a_plant_goes_on_where_its_run_ended(rt: HostRuntime) -> Result<(), Fail> {
    let alloc = rt.alloc();
    let mut disk = empty_disk(alloc)?;
    for (input, output) in [(FIRST, FIRST_ANSWERS), (SECOND, SECOND_ANSWERS)] {
        let run = operate_on(alloc, input, disk)?;
        assert!(rt; run.ended.is_ok());
        assert!(rt; run.output.as_slice() == output.as_bytes(), "{output}");
        disk = run.disk;
    }
    Ok(())
}

// ---- questions

// Behind which line of the first run, counted from 0, a question is put, and what it is told.
const QUESTIONS: [(usize, &str, &str); 19] = [
    (
        0,
        r#"{"ask":"plant"}"#,
        r#"{"plant":{"batches":[],"begun":"pol 1.0.0","entries":0,"modules":[],"near":[],"recipes":[],"sum":"d238d9dd85b92fb7e6b9e43308e1d8e1b13f9d464d5f02cb0c48a07fa2d640e9"}}"#,
    ),
    (
        1,
        r#"{"ask":"would","event":{"at":2,"ev":"exchange_begin","tag":"M"}}"#,
        r#"{"would":{"denied":true}}"#,
    ),
    (
        3,
        r#"{"ask":"would","event":{"at":4,"batch":"b","bind":{"A":"M"},"by":"ann","ev":"start","recipe":"one"}}"#,
        r#"{"would":{"done":true}}"#,
    ),
    (
        3,
        r#"{"ask":"would","event":{"at":4,"batch":"b","bind":{"A":"M"},"by":"bob","ev":"start","recipe":"one"}}"#,
        r#"{"would":{"denied":true,"policy":"bob-starts-nothing"}}"#,
    ),
    (
        3,
        r#"{"ask":"bindings"}"#,
        r#"{"bindings":[{"bind":{"A":"M"},"recipe":"one"}]}"#,
    ),
    (
        6,
        r#"{"ask":"bindings"}"#,
        r#"{"bindings":[{"recipe":"one","short":["A"],"tags":[]}]}"#,
    ),
    (
        6,
        r#" { "ask" : "would", "event" : {"at":5,"batch":"b","ev":"advance"} } "#,
        r#"{"would":{"did":{"do":"start","procedure":1,"service":"dose","step":"s1","tag":"M"},"settings":[{"name":"amount","value":1500}]}}"#,
    ),
    (
        7,
        r#"{"ask":"would","event":{"at":5,"batch":"b","ev":"advance"}}"#,
        r#"{"would":{"state":16,"step":"s1","wait":"InState"}}"#,
    ),
    (
        7,
        r#"{"ask":"would","event":{"CommandOp":8,"at":6,"by":"ann","ev":"desk","service":"dose","tag":"M"}}"#,
        r#"{"would":{"refused":30,"rule":"ModeForbids"}}"#,
    ),
    (
        8,
        r#"{"ask":"would","event":{"CommandOp":8,"at":6,"ev":"desk","service":"dose","tag":"M"}}"#,
        r#"{"would":{"bad":"Missing","path":"by"}}"#,
    ),
    (
        9,
        r#"{"ask":"would"}"#,
        r#"{"bad":"Missing","path":"event"}"#,
    ),
    (
        9,
        r#"{"ask":"how"}"#,
        r#"{"bad":"OutOfRange","path":"ask"}"#,
    ),
    (
        10,
        r#"{"ask":"would","event":{},"more":1}"#,
        r#"{"bad":"Unknown","path":""}"#,
    ),
    (
        10,
        r#"{"ask":"plant","by":""}"#,
        r#"{"bad":"OutOfRange","path":"by"}"#,
    ),
    (
        10,
        r#"{"ask":"entries","from":200001}"#,
        r#"{"bad":"OutOfRange","path":"from"}"#,
    ),
    (10, r#"{"ask":"entries","from":6}"#, r#"{"entries":[]}"#),
    (
        11,
        r#"{"ask":"plant","by":"ann"}"#,
        r#"{"plant":{"batches":[{"active":[{"service":"dose","step":"s1","tag":"M","view":{"CommandEn":4,"Mode":"Automatic","ProcedureCur":0,"Src":"External","StateCur":16}}],"batch":"b","bind":{"A":"M"},"hold":null,"next":{"state":16,"step":"s1","wait":"InState"},"outcome":"Running","recipe":"one","stopping":false,"unheld":[],"waits":[{"node":0,"obstacle":{"state":16,"step":"s1","wait":"InState"}}],"watch":{}}],"begun":"pol 1.0.0","entries":6,"modules":[{"holder":"b","services":[{"may":0,"name":"dose","view":{"CommandEn":4,"Mode":"Automatic","ProcedureCur":0,"Src":"External","StateCur":16}}],"tag":"M","ticket":null,"type":"Doser","values":[],"version":"1.0.0","watchers":[]}],"near":[],"recipes":["one"],"sum":"9017adcdb7fb66e82a79bc20edcd7d68735969bc0b1198a67422a5872c0f17a4"}}"#,
    ),
    (
        11,
        r#"{"ask":"entries","from":4,"most":1}"#,
        r#"{"entries":[{"answer":{"did":{"do":"start","procedure":1,"service":"dose","step":"s1","tag":"M"}},"event":{"at":5,"batch":"b","ev":"advance"}}]}"#,
    ),
    (
        11,
        r#"{"ask":"entries","from":5}"#,
        r#"{"entries":[{"answer":{"refused":30,"rule":"ModeForbids"},"by":"ann","event":{"CommandOp":8,"at":6,"ev":"desk","service":"dose","tag":"M"}}]}"#,
    ),
];

fn put_line(text: &mut Vec<u8>, line: &str) -> Result<(), Fail> {
    text.extend_from_slice(line.as_bytes())?;
    text.push(b'\n')?;
    Ok(())
}

// The first run, or its answers, with what these have of the questions behind their lines.
fn with_questions(alloc: Global, lines: &str, is_input: bool) -> Result<Vec<u8>, Fail> {
    let mut text = Vec::new(alloc);
    for (index, line) in lines.lines().enumerate() {
        put_line(&mut text, line)?;
        for (place, question, told) in &QUESTIONS {
            if *place == index {
                put_line(&mut text, if is_input { question } else { told })?;
            }
        }
    }
    Ok(text)
}

// Each question is told what the line of its event would get just then, and all else is as without questions: the
// answers, and the sum, which tells what is kept.
#[test]
fn questions_change_nothing(rt: HostRuntime) -> Result<(), Fail> {
    let alloc = rt.alloc();
    let input = String::from_utf8(with_questions(alloc, FIRST, true)?)
        .ok()
        .ok_or("no text")?;
    let output = with_questions(alloc, FIRST_ANSWERS, false)?;
    let run = operate_on(alloc, input.as_str(), empty_disk(alloc)?)?;
    assert!(rt; run.ended.is_ok());
    assert!(rt; run.output == output);
    Ok(())
}

// A policy that lets ann command, and a service by hand that enables Start and Abort: what it tells everybody, ann and eve.
const BY_HAND: &str = r#"{"groups":[],"rules":[{"name":"ann-commands","allow":true,"who":["ann"]}]}
{"at":1,"desc":{"services":[{"name":"dose","procedures":[{"default":true,"number":1,"self_completing":true}]}],"type":"Doser","variables":[],"version":"1.0.0"},"ev":"plug","tag":"M"}
{"CommandEn":260,"Mode":"Operator","ProcedureCur":0,"Src":"External","StateCur":16,"at":2,"ev":"report","service":"dose","tag":"M"}
{"ask":"plant"}
{"ask":"plant","by":"ann"}
{"ask":"plant","by":"eve"}
"#;

const BY_HAND_ANSWERS: &str =
    r#"{"kept":0,"sum":"d238d9dd85b92fb7e6b9e43308e1d8e1b13f9d464d5f02cb0c48a07fa2d640e9"}
{"done":true}
{"done":true}
{"plant":{"batches":[],"begun":"pol 1.0.0","entries":2,"modules":[{"holder":null,"services":[{"may":260,"name":"dose","view":{"CommandEn":260,"Mode":"Operator","ProcedureCur":0,"Src":"External","StateCur":16}}],"tag":"M","ticket":null,"type":"Doser","values":[],"version":"1.0.0","watchers":[]}],"near":[],"recipes":[],"sum":"615a2e0e11c9972cd69d7ab3550ec96036a4a2999e90d7561e40ec38383f3e54"}}
{"plant":{"batches":[],"begun":"pol 1.0.0","entries":2,"modules":[{"holder":null,"services":[{"may":260,"name":"dose","view":{"CommandEn":260,"Mode":"Operator","ProcedureCur":0,"Src":"External","StateCur":16}}],"tag":"M","ticket":null,"type":"Doser","values":[],"version":"1.0.0","watchers":[]}],"near":[],"recipes":[],"sum":"615a2e0e11c9972cd69d7ab3550ec96036a4a2999e90d7561e40ec38383f3e54"}}
{"plant":{"batches":[],"begun":"pol 1.0.0","entries":2,"modules":[{"holder":null,"services":[{"may":0,"name":"dose","view":{"CommandEn":260,"Mode":"Operator","ProcedureCur":0,"Src":"External","StateCur":16}}],"tag":"M","ticket":null,"type":"Doser","values":[],"version":"1.0.0","watchers":[]}],"near":[],"recipes":[],"sum":"615a2e0e11c9972cd69d7ab3550ec96036a4a2999e90d7561e40ec38383f3e54"}}
"#;

// Which commands would go out is told by the policy, where a person is named.
#[test]
fn a_mask_is_that_of_a_person(rt: HostRuntime) -> Result<(), Fail> {
    let alloc = rt.alloc();
    let run = operate_on(alloc, BY_HAND, empty_disk(alloc)?)?;
    assert!(rt; run.ended.is_ok());
    assert!(rt; run.output.starts_with(BY_HAND_ANSWERS.as_bytes()));
    Ok(())
}

// ---- what an open batch does and waits for

// Two doses at once. Both may start; both started and wait; the first is to be held and went to mode Operator, while the
// second may be held; and then that doesn't enable Hold any more.
const AT_ONCE: &str = r#"{"groups":[],"rules":[]}
{"at":1,"desc":{"services":[{"name":"dose","procedures":[{"default":true,"number":1,"params":[],"self_completing":true}]}],"type":"Doser","variables":[],"version":"1.0.0"},"ev":"plug","tag":"M"}
{"at":1,"desc":{"services":[{"name":"dose","procedures":[{"default":true,"number":1,"params":[],"self_completing":true}]}],"type":"Doser","variables":[],"version":"1.0.0"},"ev":"plug","tag":"N"}
{"CommandEn":4,"Mode":"Automatic","ProcedureCur":0,"Src":"External","StateCur":16,"at":2,"ev":"report","service":"dose","tag":"M"}
{"CommandEn":4,"Mode":"Automatic","ProcedureCur":0,"Src":"External","StateCur":16,"at":2,"ev":"report","service":"dose","tag":"N"}
{"at":3,"chart":{"par":[{"procedure":1,"role":"A","service":"dose","settings":[],"step":"s1"},{"procedure":1,"role":"B","service":"dose","settings":[],"step":"s2"}]},"ev":"recipe","recipe":"two","roles":[{"role":"A","type":"Doser","version":"^1"},{"role":"B","type":"Doser","version":"^1"}]}
{"at":4,"batch":"b","bind":{"A":"M","B":"N"},"ev":"start","recipe":"two"}
{"ask":"plant"}
{"at":5,"batch":"b","ev":"advance"}
{"at":5,"batch":"b","ev":"advance"}
{"CommandEn":24,"Mode":"Automatic","ProcedureCur":1,"Src":"External","StateCur":8,"at":6,"ev":"report","service":"dose","tag":"M"}
{"CommandEn":24,"Mode":"Automatic","ProcedureCur":1,"Src":"External","StateCur":64,"at":6,"ev":"report","service":"dose","tag":"M"}
{"CommandEn":24,"Mode":"Automatic","ProcedureCur":1,"Src":"External","StateCur":8,"at":6,"ev":"report","service":"dose","tag":"N"}
{"ask":"plant"}
{"at":7,"batch":"b","ev":"freeze","hold":true}
{"CommandEn":24,"Mode":"Operator","ProcedureCur":1,"Src":"External","StateCur":64,"at":8,"ev":"report","service":"dose","tag":"M"}
{"ask":"plant"}
{"CommandEn":8,"Mode":"Automatic","ProcedureCur":1,"Src":"External","StateCur":8,"at":9,"ev":"report","service":"dose","tag":"N"}
{"ask":"plant"}
"#;

// The lines that tell the plant: how each begins, up to its modules, and how it ends, behind them.
const TOLD_AT_ONCE: [(&str, &str); 4] = [
    (
        r#"{"plant":{"batches":[{"active":[],"batch":"b","bind":{"A":"M","B":"N"},"hold":null,"next":{"did":{"do":"start","procedure":1,"service":"dose","step":"s1","tag":"M"}},"outcome":"Running","recipe":"two","stopping":false,"unheld":[],"waits":[],"watch":{}}],"begun":"pol 1.0.0","entries":6,"modules":["#,
        r#"],"near":[],"recipes":["two"],"sum":"da3ea9017ef98df7d454483b731adc5e9505a2843c5c9fe61b7af88bb078c1f4"}}"#,
    ),
    (
        r#"{"plant":{"batches":[{"active":[{"service":"dose","step":"s1","tag":"M","view":{"CommandEn":24,"Mode":"Automatic","ProcedureCur":1,"Src":"External","StateCur":64}},{"service":"dose","step":"s2","tag":"N","view":{"CommandEn":24,"Mode":"Automatic","ProcedureCur":1,"Src":"External","StateCur":8}}],"batch":"b","bind":{"A":"M","B":"N"},"hold":null,"next":{"state":64,"step":"s1","wait":"InState"},"outcome":"Running","recipe":"two","stopping":false,"unheld":[],"waits":[{"node":1,"obstacle":{"state":64,"step":"s1","wait":"InState"}},{"node":2,"obstacle":{"state":8,"step":"s2","wait":"InState"}}],"watch":{}}],"begun":"pol 1.0.0","entries":11,"modules":["#,
        r#"],"near":[],"recipes":["two"],"sum":"fc31687198d00a3298d94f67d3e4caf0d8dd82f3cacaead1a19ffdd9dac7245a"}}"#,
    ),
    (
        r#"{"plant":{"batches":[{"active":[{"service":"dose","step":"s1","tag":"M","view":{"CommandEn":24,"Mode":"Operator","ProcedureCur":1,"Src":"External","StateCur":64}},{"service":"dose","step":"s2","tag":"N","view":{"CommandEn":24,"Mode":"Automatic","ProcedureCur":1,"Src":"External","StateCur":8}}],"batch":"b","bind":{"A":"M","B":"N"},"hold":true,"next":{"did":{"do":"hold","service":"dose","step":"s2","tag":"N"}},"outcome":"Running","recipe":"two","stopping":false,"unheld":[{"by":"ModeForbids","step":"s1","tag":"M"}],"waits":[{"node":1,"obstacle":{"state":64,"step":"s1","wait":"InState"}},{"node":2,"obstacle":{"state":8,"step":"s2","wait":"InState"}}],"watch":{}}],"begun":"pol 1.0.0","entries":13,"modules":["#,
        r#"],"near":[],"recipes":["two"],"sum":"c360d4c3fb44639813970257a433cd3d11465833c3383cd0e6595958d2259540"}}"#,
    ),
    (
        r#"{"plant":{"batches":[{"active":[{"service":"dose","step":"s1","tag":"M","view":{"CommandEn":24,"Mode":"Operator","ProcedureCur":1,"Src":"External","StateCur":64}},{"service":"dose","step":"s2","tag":"N","view":{"CommandEn":8,"Mode":"Automatic","ProcedureCur":1,"Src":"External","StateCur":8}}],"batch":"b","bind":{"A":"M","B":"N"},"hold":true,"next":{"wait":"Frozen"},"outcome":"Running","recipe":"two","stopping":false,"unheld":[{"by":"ModeForbids","step":"s1","tag":"M"},{"by":"NotEnabled","step":"s2","tag":"N"}],"waits":[{"node":1,"obstacle":{"state":64,"step":"s1","wait":"InState"}},{"node":2,"obstacle":{"state":8,"step":"s2","wait":"InState"}}],"watch":{}}],"begun":"pol 1.0.0","entries":14,"modules":["#,
        r#"],"near":[],"recipes":["two"],"sum":"0ac2204e576fc365464f718b39c9ace5022fc69df692986c2d454111912d5235"}}"#,
    ),
];

// An open batch tells its active steps, what comes next, what each branch waits for, and the steps that a hold doesn't
// reach. The sums are SHA-256 over the records, by another program.
#[test]
fn an_open_batch_tells_what_it_waits_for(rt: HostRuntime) -> Result<(), Fail> {
    let alloc = rt.alloc();
    let run = operate_on(alloc, AT_ONCE, empty_disk(alloc)?)?;
    assert!(rt; run.ended.is_ok());
    let output = String::from_utf8(run.output).ok().ok_or("no text")?;
    let mut told = 0;
    for line in output.as_str().lines() {
        if line.starts_with("{\"plant\":") {
            let (front, back) = *TOLD_AT_ONCE.get(told).ok_or("a line more")?;
            assert!(rt; line.starts_with(front), "{line}");
            assert!(rt; line.ends_with(back), "{line}");
            told += 1;
        }
    }
    assert_eq!(rt; told, TOLD_AT_ONCE.len());
    Ok(())
}

// ---- limits that are near

// Puts the line of one more recipe behind an input.
fn put_recipe(alloc: Global, input: &mut Vec<u8>, number: u32) -> Result<(), Fail> {
    let name = format!(in alloc; "r{number}")?;
    input.extend_from_slice(b"{\"ev\":\"recipe\",\"at\":1,\"recipe\":\"")?;
    input.extend_from_slice(name.as_bytes())?;
    put_line(
        input,
        r#"","roles":[{"role":"A","type":"Doser","version":"^1"}],"chart":{"step":"s","role":"A","service":"dose","procedure":1}}"#,
    )
}

// The plant is asked at 57 recipes and at 58, of which six are left.
fn many_recipes(alloc: Global) -> Result<Vec<u8>, Fail> {
    let mut input = Vec::new(alloc);
    put_line(&mut input, r#"{"groups":[],"rules":[]}"#)?;
    for number in 0..57 {
        put_recipe(alloc, &mut input, number)?;
    }
    put_line(&mut input, r#"{"ask":"plant"}"#)?;
    put_recipe(alloc, &mut input, 57)?;
    put_line(&mut input, r#"{"ask":"plant"}"#)?;
    Ok(input)
}

// What the two lines that tell the plant have in front of the recipes.
const NEAR: [&str; 2] = [
    r#""modules":[],"near":[],"recipes":["r0","r1","#,
    r#""modules":[],"near":["RecipesFull"],"recipes":["r0","r1","#,
];

// Where at most a tenth of a limit is left, the plant tells it, and so does the answer to the policy.
#[test]
fn a_limit_that_is_near_is_told(rt: HostRuntime) -> Result<(), Fail> {
    let alloc = rt.alloc();
    let input = String::from_utf8(many_recipes(alloc)?)
        .ok()
        .ok_or("no text")?;
    let run = operate_on(alloc, input.as_str(), empty_disk(alloc)?)?;
    assert!(rt; run.output.starts_with(br#"{"kept":0,"sum":"#));
    let output = String::from_utf8(run.output).ok().ok_or("no text")?;
    let mut told = 0;
    for line in output.as_str().lines() {
        if line.starts_with("{\"plant\":") {
            let near = *NEAR.get(told).ok_or("a line more")?;
            assert!(rt; line.contains(near), "{line}");
            told += 1;
        }
    }
    assert_eq!(rt; told, NEAR.len());
    let again = operate_on(alloc, "{\"groups\":[],\"rules\":[]}\n", run.disk)?;
    assert!(rt;
        again
            .output
            .starts_with(br#"{"kept":58,"near":["RecipesFull"],"sum":"#)
    );
    Ok(())
}

// ---- what is refused

// A first line that is no policy, and its fault.
const NO_POLICIES: [(&str, FaultKind); 3] = [
    ("", FaultKind::Missing),
    (
        "{\"ev\":\"unplug\",\"at\":1,\"tag\":\"M\"}\n",
        FaultKind::Missing,
    ),
    ("no policy\n", FaultKind::NotJson),
];

#[test]
fn an_input_without_a_policy_is_refused_and_nothing_is_written(
    rt: HostRuntime,
) -> Result<(), Fail> {
    let alloc = rt.alloc();
    for (input, kind) in &NO_POLICIES {
        let Operated { ended, output, .. } = operate_on(alloc, input, empty_disk(alloc)?)?;
        assert!(rt; output.is_empty());
        match ended {
            Err(OperateFault::BadPolicy(fault)) => assert_eq!(rt; fault.kind, *kind),
            _ => return Err(Fail::from("it isn't refused")),
        }
    }
    Ok(())
}

// A byte of the first record's sum is another one.
#[test]
fn a_record_that_was_changed_doesnt_follow(rt: HostRuntime) -> Result<(), Fail> {
    let alloc = rt.alloc();
    let run = operate_on(alloc, FIRST, empty_disk(alloc)?)?;
    let mut bytes = run.disk.bytes().to_vec(alloc)?;
    if let Some(byte) = bytes.get_mut(20) {
        *byte ^= 1;
    }
    let disk = MemoryDisk::new(alloc, &bytes, u32::MAX, u32::MAX)?;
    let Operated { ended, output, .. } = operate_on(alloc, SECOND, disk)?;
    assert!(rt; output.is_empty());
    assert!(rt; matches!(ended, Err(OperateFault::NotALedger { place: 0 })));
    Ok(())
}
