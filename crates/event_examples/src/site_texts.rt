//! A whole site, and what is wrong with others.

use given::refusal_text;
use pol_site::Site;
use site_json::read_site;
use std::alloc::Global;
use std::test::*;

/// The site of `examples/site.json`, there on one line.
const EXAMPLE: &str = r#"{"modules":[
{"tag":"D101","desc":{"type":"Doser","version":"1.4.0","services":[
{"name":"dose","procedures":[{"number":1,"default":true,"self_completing":true,"params":[{"name":"amount","kind":"AnaServParam","min":0,"max":5000000}]},{"number":2,"self_completing":true}]}],
"variables":[{"name":"weight","kind":"AnaView"}]},
"sim":{"ticks":2,"run":5,"drift":[{"name":"weight","from":0,"by":250000,"to":2000000}]}},
{"tag":"X201","desc":{"type":"Mixer","version":"2.1.3","services":[
{"name":"stir","procedures":[{"number":1,"default":true,"params":[{"name":"speed","kind":"DIntServParam","min":0,"max":1500}]}]},
{"name":"drain","procedures":[{"number":1,"default":true,"self_completing":true}]}],
"variables":[{"name":"viscosity","kind":"DIntView"},{"name":"full","kind":"BinView"}]},
"sim":{"ticks":1,"run":3,"drift":[{"name":"viscosity","from":10,"by":5,"to":40}]}},
{"tag":"R301","desc":{"type":"Reactor","version":"0.9.2","services":[
{"name":"heat","procedures":[{"number":1,"default":true},{"number":2,"self_completing":true}]},
{"name":"purge","procedures":[{"number":1,"default":true,"self_completing":true}]}],
"variables":[{"name":"temperature","kind":"AnaView"},{"name":"pressure","kind":"AnaView"}]},
"sim":{"ticks":3,"run":4,"drift":[{"name":"temperature","from":20000,"by":15000,"to":95000},{"name":"pressure","from":1000,"by":100,"to":1500}]}}],
"recipes":[
{"recipe":"charge","roles":[{"role":"source","type":"Doser","version":"^1"}],
"chart":{"loop":{"step":"fill","role":"source","service":"dose","procedure":1,"settings":[{"name":"amount","value":400000}]},
"until":{"test":"weight","role":"source","op":"ge","value":1000000}}},
{"recipe":"blend","roles":[{"role":"mixer","type":"Mixer","version":"^2"},{"role":"kettle","type":"Reactor","version":">=0.9, <2"}],
"chart":{"par":[
{"step":"stir","role":"mixer","service":"stir","procedure":1,"settings":[{"name":"speed","value":600}],"finish":{"test":"viscosity","role":"mixer","op":"ge","value":30}},
{"seq":[{"step":"warm","role":"kettle","service":"heat","procedure":1,"finish":{"test":"temperature","role":"kettle","op":"ge","value":65000}},
{"step":"vent","role":"kettle","service":"purge","procedure":1}]}]}},
{"recipe":"settle","roles":[{"role":"kettle","type":"Reactor","version":">=0.9, <2"},{"role":"source","type":"Doser","version":"^1"}],
"chart":{"sel":[
{"when":{"all":[{"test":"pressure","role":"kettle","op":"gt","value":1200},{"not":{"test":"temperature","role":"kettle","op":"lt","value":50000}}]},
"then":{"step":"release","role":"kettle","service":"purge","procedure":1}},
{"when":{"const":true},
"then":{"seq":[{"step":"rinse","role":"source","service":"dose","procedure":2},{"step":"dry","role":"kettle","service":"heat","procedure":2}]}}]}}],
"batches":[
{"batch":"morning","recipe":"charge","bind":{"source":"D101"}},
{"batch":"noon","recipe":"blend","bind":{"kettle":"R301","mixer":"X201"}},
{"batch":"evening","recipe":"settle","bind":{"kettle":"R301","source":"D101"}},
{"batch":"night","recipe":"charge","bind":{"source":"D101"}}],
"exchanges":[
{"tag":"X201","after":40,"desc":{"type":"Mixer","version":"2.2.0","services":[
{"name":"stir","procedures":[{"number":1,"default":true,"params":[{"name":"speed","kind":"DIntServParam","min":0,"max":1800}]}]}],
"variables":[{"name":"viscosity","kind":"DIntView"}]},
"sim":{"ticks":1,"run":2,"drift":[{"name":"viscosity","from":0,"by":20,"to":60}]}}],
"desk":[
{"tag":"R301","service":"heat","CommandOp":8,"after":10},
{"tag":"D101","service":"dose","CommandOp":4,"after":25},
{"tag":"X201","service":"stir","CommandOp":1024,"after":60}]}"#;

/// A small site.
const SMALL: &str =
    r#"{"modules":[{"tag":"M1","desc":{"type":"Doser","version":"1.0.0","services":[{"name":"dose"}],"variables":[{"name":"level","kind":"AnaView"},{"name":"full","kind":"BinView"}]},"sim":{"ticks":1,"run":2,"drift":[{"name":"level","from":0,"by":5,"to":30}]}}],"recipes":[{"recipe":"one","roles":[{"role":"A","type":"Doser","version":"^1"}],"chart":{"step":"s1","role":"A","service":"dose","procedure":1}}],"batches":[{"batch":"b1","recipe":"one","bind":{"A":"M1"}}],"exchanges":[{"tag":"M1","after":3,"desc":{"type":"Doser","version":"1.1.0","services":[{"name":"dose"}]},"sim":{"ticks":1,"run":1,"drift":[]}}],"desk":[{"tag":"M1","service":"dose","CommandOp":4,"after":7}]}"#;

/// Lines that say no site, each with its first fault.
const LINES: &str = r#"
[] => WrongKind ""
{"modules":[] => NotJson ""
{"recipes":[],"batches":[],"exchanges":[],"desk":[]} => Missing "modules"
{"modules":[],"recipes":[],"batches":[],"exchanges":[],"desk":[]} => OutOfRange "modules"
"#;

/// What is put into the small site in place of a part of it, and the first fault of the site that this makes.
const CHANGES: &str = r#"
"ticks":1,"run":2 -> "run":2 => Missing "modules.0.sim.ticks"
"ticks":1,"run":2 -> "ticks":0,"run":2 => OutOfRange "modules.0.sim.ticks"
"ticks":1,"run":2 -> "ticks":1,"run":1001 => OutOfRange "modules.0.sim.run"
"from":0 -> "from":0.5 => WrongKind "modules.0.sim.drift.0.from"
"from":0 -> "from":-2147483649 => OutOfRange "modules.0.sim.drift.0.from"
"to":30 -> "to":30,"x":1 => Unknown "modules.0.sim.drift.0"
"from":0 -> "from":31 => Unsound "modules.0.sim.drift.0"
"by":5 -> "by":0 => Unsound "modules.0.sim.drift.0"
"name":"level","from" -> "name":"full","from" => Unsound "modules.0.sim.drift.0"
"name":"level","from" -> "name":"none","from" => Unsound "modules.0.sim.drift.0"
"to":30} -> "to":30},{"name":"level","from":5,"by":0,"to":1} => Repeated "modules.0.sim.drift"
"drift":[] -> "drift":[{"name":"level","from":0,"by":1,"to":9}] => Unsound "exchanges.0.sim.drift.0"
"drift":[] -> "drift":7 => WrongKind "exchanges.0.sim.drift"
"role":"A","type" -> "role":"A","type":"Mixer","version":"^1"},{"role":"A","type" => Repeated "recipes.0.roles"
"role":"A","service" -> "role":"B","service" => BadChart "recipes.0.chart"
"chart":{ -> "chart":{"finish":{}, => Missing "recipes.0.chart.finish.const"
"bind":{"A":"M1"} -> "bind":{"A":7} => WrongKind "batches.0.bind"
"bind":{"A":"M1"} -> "bind":{"A":"M1"},"watch":7 => WrongKind "batches.0.watch"
"bind":{"A":"M1"} -> "bind":{"A":"M1"},"watch":{"A":"M2"} => Repeated "batches.0.watch"
"bind":{"A":"M1"} -> "bind":{},"watch":{"A":"M1"} => none
"batches":[ -> "batches":[{"batch":"b1","recipe":"two","bind":{}}, => Repeated "batches"
"exchanges":[{"tag":"M1" -> "exchanges":[{"tag":"M2" => Unsound "exchanges.0"
"after":3 -> "after":200001 => OutOfRange "exchanges.0.after"
"CommandOp":4 -> "CommandOp":3 => OutOfRange "desk.0.CommandOp"
"CommandOp":4, ->  => Missing "desk.0.CommandOp"
"after":7 -> "after":7,"x":1 => Unknown "desk.0"
"desk":[ -> "y":1,"desk":[ => Unknown ""
"modules":[{"tag":"M1" -> "modules":[{"tag":"M1","desc":{"type":"D","version":"1.0.0","services":[{"name":"s"}]},"sim":{"ticks":1,"run":1,"drift":[{"name":"v","from":0,"by":0,"to":0}]}},{"tag":"M1" => Repeated "modules"
"#;

/// The first fault of the site that a line says, or `none`.
fn told(alloc: Global, line: &str) -> Result<String, Fail> {
    match read_site(alloc, line.as_bytes()) {
        Ok(_) => Ok(String::from_str(alloc, "none")?),
        Err(refusal) => refusal_text(alloc, refusal),
    }
}

fn sizes(site: &Site) -> [usize; 5] {
    [
        site.modules.len(),
        site.recipes.len(),
        site.batches.len(),
        site.exchanges.len(),
        site.desk.len(),
    ]
}

#[test]
fn a_whole_site_is_read(rt: HostRuntime) -> Result<(), Fail> {
    let alloc = rt.alloc();
    let site = read_site(alloc, EXAMPLE.as_bytes()).ok().ok_or("no site")?;
    assert_eq!(rt; sizes(&site), [3, 3, 4, 1, 3]);
    let exchange = site.exchanges.first().ok_or("no exchange")?;
    assert_eq!(rt; exchange.after, 40);
    assert_eq!(rt; exchange.tag.as_bytes(), b"X201".as_slice());
    let batch = site.batches.get(1).ok_or("no batch")?;
    let bind = batch.bind.first().ok_or("no bind")?;
    assert_eq!(rt; bind.role.as_bytes(), b"kettle".as_slice());
    let reactor = site.modules.get(2).ok_or("no reactor")?;
    let drift = reactor.sim.drifts.get(1).ok_or("no drift")?;
    assert_eq!(rt; drift.to, 1500);
    Ok(())
}

#[test]
fn the_first_fault_of_a_site_is_told(rt: HostRuntime) -> Result<(), Fail> {
    let alloc = rt.alloc();
    assert_eq!(rt; told(alloc, SMALL)?.as_str(), "none");
    for case in LINES.trim().lines() {
        let (line, fault) = case.split_once(" => ").ok_or("no case")?;
        assert_eq!(rt; told(alloc, line)?.as_str(), fault, "of {line}");
    }
    for case in CHANGES.trim().lines() {
        let (part, rest) = case.split_once(" -> ").ok_or("no case")?;
        let (put, fault) = rest.split_once(" => ").ok_or("no change")?;
        let (before, after) = SMALL.split_once(part).ok_or("no part")?;
        let line = format!(in alloc; "{before}{put}{after}")?;
        assert_eq!(rt;
            told(alloc, line.as_str())?.as_str(),
            fault,
            "with {put} for {part}"
        );
    }
    Ok(())
}
