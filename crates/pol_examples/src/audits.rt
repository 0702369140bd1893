//! Histories that the jobs audit and attest are given: true ones, and what is told of the others.
use super::plants::{entry_in, run_site};
use super::runs::{Journal, run, run_each};
use given::SITE;
use std::alloc::{AllocError, Global};
use std::test::Fail;

// Histories, with the verdict over each.
const HISTORIES: [Journal; 9] = [
    Journal {
        title: "the end line alone is a true history of no entries",
        input: "{\"end\":true}\n",
        output: "{\"audit\":\"good\",\"entries\":0}\n",
    },
    Journal {
        title: "no input lacks its end line",
        input: "",
        output: "{\"audit\":\"bad\",\"place\":0,\"why\":\"Tail\"}\n",
    },
    Journal {
        title: "a plug that is answered by a ticket",
        input: r#"{"answer":{"ticket":1},"event":{"at":1,"desc":{"services":[{"name":"dose"}],"type":"Doser","version":"1.0.0"},"ev":"plug","tag":"M"}}
{"end":true}
"#,
        output: "{\"audit\":\"bad\",\"place\":0,\"says\":{\"done\":true},\"why\":\"Answer\"}\n",
    },
    Journal {
        title: "blank lines aren't counted, and the last line may lack its line feed",
        input: " \r\n{\"answer\":{\"done\":true},\"event\":{\"at\":1,\"desc\":{\"services\":[{\"name\":\"dose\"}],\"type\":\"Doser\",\"version\":\"1.0.0\"},\"ev\":\"plug\",\"tag\":\"M\"}}\n\n{\"end\":true}",
        output: "{\"audit\":\"good\",\"entries\":1}\n",
    },
    Journal {
        title: "a wrong answer is told before what is wrong behind the entries",
        input: r#"{"answer":{"done":true},"event":{"at":1,"desc":{"services":[{"name":"dose"}],"type":"Doser","version":"1.0.0"},"ev":"plug","tag":"M"}}
{"answer":{"done":true},"event":{"at":2,"desc":{"services":[{"name":"dose"}],"type":"Doser","version":"1.0.0"},"ev":"plug","tag":"M"}}
"#,
        output: "{\"audit\":\"bad\",\"place\":1,\"says\":{\"refused\":1,\"rule\":\"TagTaken\"},\"why\":\"Answer\"}\n",
    },
    Journal {
        title: "the end line is missing",
        input: r#"{"answer":{"done":true},"event":{"at":1,"desc":{"services":[{"name":"dose"}],"type":"Doser","version":"1.0.0"},"ev":"plug","tag":"M"}}
"#,
        output: "{\"audit\":\"bad\",\"place\":1,\"why\":\"Tail\"}\n",
    },
    Journal {
        title: "a line stands before the end line",
        input: r#"{"answer":{"done":true},"event":{"at":1,"desc":{"services":[{"name":"dose"}],"type":"Doser","version":"1.0.0"},"ev":"plug","tag":"M"}}
{}
{"end":true}
"#,
        output: "{\"audit\":\"bad\",\"place\":1,\"why\":\"Tail\"}\n",
    },
    Journal {
        title: "a line stands behind the end line",
        input: r#"{"answer":{"done":true},"event":{"at":1,"desc":{"services":[{"name":"dose"}],"type":"Doser","version":"1.0.0"},"ev":"plug","tag":"M"}}
{"end":true}
{"end":true}
"#,
        output: "{\"audit\":\"bad\",\"place\":2,\"why\":\"Tail\"}\n",
    },
    Journal {
        title: "an entry behind another line is none",
        input: r#"{"end":true}
{"answer":{"done":true},"event":{"at":1,"desc":{"services":[{"name":"dose"}],"type":"Doser","version":"1.0.0"},"ev":"plug","tag":"M"}}
"#,
        output: "{\"audit\":\"bad\",\"place\":1,\"why\":\"Tail\"}\n",
    },
];

// Histories with the verdict over each, and behind it how many bytes were read and their checksum as `sha256sum` tells it.
const ATTESTED: [Journal; 3] = [
    Journal {
        title: "no input at all",
        input: "",
        output: "{\"audit\":\"bad\",\"place\":0,\"why\":\"Tail\"}\n{\"bytes\":0,\"sha256\":\"e3b0c44298fc1c149afbf4c8996fb92427ae41e4649b934ca495991b7852b855\"}\n",
    },
    Journal {
        title: "the end line alone",
        input: "{\"end\":true}\n",
        output: "{\"audit\":\"good\",\"entries\":0}\n{\"bytes\":13,\"sha256\":\"0a69ec21c6ed0af2eb33dba46a3662118201fc07c75aed9ea0b0973d6342d65b\"}\n",
    },
    Journal {
        title: "the end line without its line feed is another file",
        input: "{\"end\":true}",
        output: "{\"audit\":\"good\",\"entries\":0}\n{\"bytes\":12,\"sha256\":\"0b641b9e6de44e51a395c24f29db49268a044dd4b61c57f89e540bff697cee44\"}\n",
    },
];

#[test]
fn the_verdict_tells_the_first_thing_that_is_wrong(rt: HostRuntime) -> Result<(), Fail> {
    run_each(&rt, rt.alloc(), "pol --job audit", &HISTORIES)
}

#[test]
fn an_attested_verdict_tells_which_bytes_were_read(rt: HostRuntime) -> Result<(), Fail> {
    run_each(&rt, rt.alloc(), "pol --job attest", &ATTESTED)
}

// How many of the lines are entries.
fn entry_count(output: &str) -> u32 {
    let mut count = 0u32;
    for line in output.lines() {
        if entry_in(line).is_some() {
            count = count.saturating_add(1);
        }
    }
    count
}

// The verdict over a true history of so many entries.
fn good_line(alloc: Global, entries: u32) -> Result<String, AllocError> {
    let mut line = String::from_str(alloc, "{\"audit\":\"good\",\"entries\":")?;
    line.push_str(entries.to_string(alloc)?.as_str())?;
    line.push_str("}\n")?;
    Ok(line)
}

// The site `examples/site.json`.
const EXAMPLE: &str =
    r#"{"modules":[{"tag":"D101","desc":{"type":"Doser","version":"1.4.0","services":[{"name":"dose","procedures":[{"number":1,"default":true,"self_completing":true,"params":[{"name":"amount","kind":"AnaServParam","min":0,"max":5000000}]},{"number":2,"self_completing":true}]}],"variables":[{"name":"weight","kind":"AnaView"}]},"sim":{"ticks":2,"run":5,"drift":[{"name":"weight","from":0,"by":250000,"to":2000000}]}},{"tag":"X201","desc":{"type":"Mixer","version":"2.1.3","services":[{"name":"stir","procedures":[{"number":1,"default":true,"params":[{"name":"speed","kind":"DIntServParam","min":0,"max":1500}]}]},{"name":"drain","procedures":[{"number":1,"default":true,"self_completing":true}]}],"variables":[{"name":"viscosity","kind":"DIntView"},{"name":"full","kind":"BinView"}]},"sim":{"ticks":1,"run":3,"drift":[{"name":"viscosity","from":10,"by":5,"to":40}]}},{"tag":"R301","desc":{"type":"Reactor","version":"0.9.2","services":[{"name":"heat","procedures":[{"number":1,"default":true},{"number":2,"self_completing":true}]},{"name":"purge","procedures":[{"number":1,"default":true,"self_completing":true}]}],"variables":[{"name":"temperature","kind":"AnaView"},{"name":"pressure","kind":"AnaView"}]},"sim":{"ticks":3,"run":4,"drift":[{"name":"temperature","from":20000,"by":15000,"to":95000},{"name":"pressure","from":1000,"by":100,"to":1500}]}}],"recipes":[{"recipe":"charge","roles":[{"role":"source","type":"Doser","version":"^1"}],"chart":{"loop":{"step":"fill","role":"source","service":"dose","procedure":1,"settings":[{"name":"amount","value":400000}]},"until":{"test":"weight","role":"source","op":"ge","value":1000000}}},{"recipe":"blend","roles":[{"role":"mixer","type":"Mixer","version":"^2"},{"role":"kettle","type":"Reactor","version":">=0.9, <2"}],"chart":{"par":[{"step":"stir","role":"mixer","service":"stir","procedure":1,"settings":[{"name":"speed","value":600}],"finish":{"test":"viscosity","role":"mixer","op":"ge","value":30}},{"seq":[{"step":"warm","role":"kettle","service":"heat","procedure":1,"finish":{"test":"temperature","role":"kettle","op":"ge","value":65000}},{"step":"vent","role":"kettle","service":"purge","procedure":1}]}]}},{"recipe":"settle","roles":[{"role":"kettle","type":"Reactor","version":">=0.9, <2"},{"role":"source","type":"Doser","version":"^1"}],"chart":{"sel":[{"when":{"all":[{"test":"pressure","role":"kettle","op":"gt","value":1200},{"not":{"test":"temperature","role":"kettle","op":"lt","value":50000}}]},"then":{"step":"release","role":"kettle","service":"purge","procedure":1}},{"when":{"const":true},"then":{"seq":[{"step":"rinse","role":"source","service":"dose","procedure":2},{"step":"dry","role":"kettle","service":"heat","procedure":2}]}}]}}],"batches":[{"batch":"morning","recipe":"charge","bind":{"source":"D101"}},{"batch":"noon","recipe":"blend","bind":{"kettle":"R301","mixer":"X201"}},{"batch":"evening","recipe":"settle","bind":{"kettle":"R301","source":"D101"}},{"batch":"night","recipe":"charge","bind":{"source":"D101"}}],"exchanges":[{"tag":"X201","after":40,"desc":{"type":"Mixer","version":"2.2.0","services":[{"name":"stir","procedures":[{"number":1,"default":true,"params":[{"name":"speed","kind":"DIntServParam","min":0,"max":1800}]}]}],"variables":[{"name":"viscosity","kind":"DIntView"}]},"sim":{"ticks":1,"run":2,"drift":[{"name":"viscosity","from":0,"by":20,"to":60}]}}],"desk":[{"tag":"R301","service":"heat","CommandOp":8,"after":10},{"tag":"D101","service":"dose","CommandOp":4,"after":25},{"tag":"X201","service":"stir","CommandOp":1024,"after":60}]}
"#;

#[test]
fn what_a_plant_prints_is_a_true_history(rt: HostRuntime) -> Result<(), Fail> {
    let alloc = rt.alloc();
    for site in [SITE, EXAMPLE] {
        let printed = run_site(&rt, alloc, "pol --job plant", site)?;
        let output = printed.output.as_str();
        let verdict = good_line(alloc, entry_count(output))?;
        let (status, same) = run(&rt, alloc, "pol --job audit", output, verdict.as_str())?;
        assert_eq!(rt; status, 0);
        assert!(rt; same);
    }
    Ok(())
}

// A module at rest, and a recipe for it.
const BEFORE_BATCHES: &str =
    r#"{"answer":{"done":true},"event":{"at":1,"desc":{"services":[{"name":"dose","procedures":[{"default":true,"number":1,"params":[{"kind":"DIntServParam","max":5000,"min":0,"name":"amount"}],"self_completing":true}]}],"type":"Doser","variables":[{"kind":"AnaView","name":"level"}],"version":"1.0.0"},"ev":"plug","tag":"M"}}
{"answer":{"done":true},"event":{"CommandEn":4,"Mode":"Automatic","ProcedureCur":0,"Src":"External","StateCur":16,"at":2,"ev":"report","service":"dose","tag":"M"}}
{"answer":{"done":true},"event":{"at":3,"chart":{"procedure":1,"role":"A","service":"dose","settings":[{"name":"amount","value":1500}],"step":"s1"},"ev":"recipe","recipe":"one","roles":[{"role":"A","type":"Doser","version":"^1"}]}}
"#;

// A history of so many batches, each of which is started and abandoned, and the lines behind its entries.
fn abandoned(alloc: Global, batches: u32) -> Result<(String, String), AllocError> {
    let mut entries = String::from_str(alloc, BEFORE_BATCHES)?;
    let mut tail = String::new(alloc);
    for n in 1..=batches {
        let events = format!(in alloc;
            r#"{{"answer":{{"done":true}},"event":{{"at":4,"batch":"b{n}","bind":{{"A":"M"}},"ev":"start","recipe":"one"}}}}
{{"answer":{{"closed":"Abandoned"}},"event":{{"at":5,"batch":"b{n}","ev":"abandon"}}}}
"#
        )?;
        entries.push_str(events.as_str())?;
        let line = format!(in alloc;
            r#"{{"batch":"b{n}","bind":{{"A":"M"}},"log":[],"outcome":"Abandoned","recipe":"one"}}
"#
        )?;
        tail.push_str(line.as_str())?;
    }
    tail.push_str("{\"end\":true}\n")?;
    Ok((entries, tail))
}

#[test]
fn twenty_lines_behind_the_entries_are_all_compared(rt: HostRuntime) -> Result<(), Fail> {
    let alloc = rt.alloc();
    let (entries, tail) = abandoned(alloc, 19)?;
    let changed = tail.replace(alloc, "\"batch\":\"b19\"", "\"batch\":\"b91\"")?;
    let cases = [
        (tail.as_str(), "{\"audit\":\"good\",\"entries\":41}\n"),
        (
            changed.as_str(),
            "{\"audit\":\"bad\",\"place\":59,\"why\":\"Tail\"}\n",
        ),
    ];
    for (tail, verdict) in cases {
        let mut history = entries.clone()?;
        history.push_str(tail)?;
        let (status, same) = run(&rt, alloc, "pol --job audit", history.as_str(), verdict)?;
        assert_eq!(rt; status, 0);
        assert!(rt; same, "{verdict}");
    }
    Ok(())
}

#[test]
fn a_changed_outcome_is_told_by_the_number_of_its_line(rt: HostRuntime) -> Result<(), Fail> {
    let alloc = rt.alloc();
    let printed = run_site(&rt, alloc, "pol --job plant", SITE)?;
    let output = printed.output.as_str();
    let changed = output.replace(
        alloc,
        "\"outcome\":\"Completed\"",
        "\"outcome\":\"Stopped\"",
    )?;
    let mut verdict = String::from_str(alloc, "{\"audit\":\"bad\",\"place\":")?;
    verdict.push_str(entry_count(output).to_string(alloc)?.as_str())?;
    verdict.push_str(",\"why\":\"Tail\"}\n")?;
    let (status, same) = run(
        &rt,
        alloc,
        "pol --job audit",
        changed.as_str(),
        verdict.as_str(),
    )?;
    assert_eq!(rt; status, 0);
    assert!(rt; same);
    Ok(())
}
