//! Lines that are read without a tree, and lines that are not.

ghost use Rattle.std.specs.Prelude.{Ok};

use crate::event_lines::line_of;
use pol_lines::{read_line, read_quick};
use std::alloc::{AllocError, Global};
use std::process::Abort;
use std::test::*;

/// The written form of what a line says, or nothing.
fn told(alloc: Global, line: &[u8]) -> Result<Vec<u8>, AllocError> {
    match read_line(alloc, line) {
        Ok(event) => line_of(alloc, &event),
        Err(_) => Ok(Vec::new(alloc)),
    }
}

/// Flat lines in several orders of keys, each with the event's written form.
const QUICK: &str = r#"
{"ev":"variable","at":3,"tag":"M1","name":"level","value":-250} => {"at":3,"ev":"variable","name":"level","tag":"M1","value":-250}
{"tag":"M1","name":"level","value":1500,"ev":"variable","at":7} => {"at":7,"ev":"variable","name":"level","tag":"M1","value":1500}
{"at":3,"ev":"variable","name":"open","tag":"M1","value":true} => {"at":3,"ev":"variable","name":"open","tag":"M1","value":true}
{"value":false,"tag":"M1","name":"open","ev":"variable","at":999999999999999999} => {"at":999999999999999999,"ev":"variable","name":"open","tag":"M1","value":false}
{"ev":"variable","at":0,"tag":"M1","name":"phase","value":"läuft, 5 °C"} => {"at":0,"ev":"variable","name":"phase","tag":"M1","value":"läuft, 5 °C"}
{"ev":"variable","at":0,"tag":"M1","name":"phase","value":""} => {"at":0,"ev":"variable","name":"phase","tag":"M1","value":""}
{"tag":"M-2","service":"stir","StateCur":131072,"CommandEn":4294967295,"Mode":"Operator","Src":"Internal","ProcedureCur":65535,"ev":"report","at":4} => {"CommandEn":4294967295,"Mode":"Operator","ProcedureCur":65535,"Src":"Internal","StateCur":131072,"at":4,"ev":"report","service":"stir","tag":"M-2"}
{"CommandEn":4,"Mode":"Automatic","ProcedureCur":0,"Src":"External","StateCur":16,"at":2,"ev":"report","service":"dose","tag":"M1"} => {"CommandEn":4,"Mode":"Automatic","ProcedureCur":0,"Src":"External","StateCur":16,"at":2,"ev":"report","service":"dose","tag":"M1"}
{"ev":"desk","at":9,"tag":"M1","service":"dose","CommandOp":512} => {"CommandOp":512,"at":9,"ev":"desk","service":"dose","tag":"M1"}
{"tag":"M1","ticket":4294967295,"ev":"exchange_cancel","at":9} => {"at":9,"ev":"exchange_cancel","tag":"M1","ticket":4294967295}
{"tag":"M1","ev":"exchange_begin","at":9} => {"at":9,"ev":"exchange_begin","tag":"M1"}
{"ev":"unplug","at":2,"tag":"M1"} => {"at":2,"ev":"unplug","tag":"M1"}
{"batch":"b1","ev":"advance","at":6} => {"at":6,"batch":"b1","ev":"advance"}
{"ev":"thaw","at":6,"batch":"b1"} => {"at":6,"batch":"b1","ev":"thaw"}
{"ev":"stop","at":6,"batch":"b1"} => {"at":6,"batch":"b1","ev":"stop"}
{"ev":"abandon","at":6,"batch":"b1"} => {"at":6,"batch":"b1","ev":"abandon"}
{"tag":"M2","ev":"unplug","at":2,"tag":"M1"} => {"at":2,"ev":"unplug","tag":"M1"}
"#;

/// Modules with descriptions in several orders of keys, each with the event's written form.
const DESCRIBED: &str = r#"
{"ev":"plug","at":1,"tag":"M1","desc":{"type":"Doser","version":"1.0.0","services":[{"name":"dose","procedures":[{"number":1,"default":true,"self_completing":true,"params":[{"name":"amount","kind":"DIntServParam","min":0,"max":5000}]}]}],"variables":[{"name":"level","kind":"AnaView"}]}} => {"at":1,"desc":{"services":[{"name":"dose","procedures":[{"default":true,"number":1,"params":[{"kind":"DIntServParam","max":5000,"min":0,"name":"amount"}],"self_completing":true}]}],"type":"Doser","variables":[{"kind":"AnaView","name":"level"}],"version":"1.0.0"},"ev":"plug","tag":"M1"}
{"ev":"plug","at":1,"tag":"M1","desc":{"type":"Type0","version":"1.2.0-rc.1","services":[{"name":"fill","procedures":[{"number":1,"default":true,"self_completing":false,"params":[{"name":"rate","kind":"AnaServParam","min":-1000000,"max":-5},{"name":"label","kind":"StringServParam"},{"name":"fast","kind":"BinServParam"},{"name":"low","kind":"DIntServParam","min":-2147483648,"max":2147483647}]},{"number":65535}]},{"name":"drain"}],"variables":[{"name":"a","kind":"BinView"},{"name":"b","kind":"DIntView"},{"name":"c","kind":"StringView"}]}} => {"at":1,"desc":{"services":[{"name":"fill","procedures":[{"default":true,"number":1,"params":[{"kind":"AnaServParam","max":-5,"min":-1000000,"name":"rate"},{"kind":"StringServParam","name":"label"},{"kind":"BinServParam","name":"fast"},{"kind":"DIntServParam","max":2147483647,"min":-2147483648,"name":"low"}],"self_completing":false},{"default":false,"number":65535,"params":[],"self_completing":false}]},{"name":"drain","procedures":[{"default":true,"number":1,"params":[],"self_completing":false}]}],"type":"Type0","variables":[{"kind":"BinView","name":"a"},{"kind":"DIntView","name":"b"},{"kind":"StringView","name":"c"}],"version":"1.2.0-rc.1"},"ev":"plug","tag":"M1"}
{"ev":"plug","at":1,"tag":"M1","desc":{"services":[{"name":"stir","procedures":[{"default":true,"number":2,"params":[],"self_completing":false}]}],"type":"Mixer","variables":[],"version":"2.0.0"}} => {"at":1,"desc":{"services":[{"name":"stir","procedures":[{"default":true,"number":2,"params":[],"self_completing":false}]}],"type":"Mixer","variables":[],"version":"2.0.0"},"ev":"plug","tag":"M1"}
{"ev":"plug","at":1,"tag":"M1","desc":{"type":"Mixer","version":"2.0.0","services":[{"name":"stir"}]}} => {"at":1,"desc":{"services":[{"name":"stir","procedures":[{"default":true,"number":1,"params":[],"self_completing":false}]}],"type":"Mixer","variables":[],"version":"2.0.0"},"ev":"plug","tag":"M1"}
{"tag":"M1","desc":{"type":"Doser","version":"1.0.0","services":[{"name":"dose","procedures":[{"number":1,"default":true,"self_completing":true,"params":[{"name":"amount","kind":"DIntServParam","min":0,"max":5000}]}]}],"variables":[{"name":"level","kind":"AnaView"}]},"ev":"plug","at":1} => {"at":1,"desc":{"services":[{"name":"dose","procedures":[{"default":true,"number":1,"params":[{"kind":"DIntServParam","max":5000,"min":0,"name":"amount"}],"self_completing":true}]}],"type":"Doser","variables":[{"kind":"AnaView","name":"level"}],"version":"1.0.0"},"ev":"plug","tag":"M1"}
{"desc":{"type":"Mixer","version":"2.0.0","services":[{"name":"stir"}]},"at":1,"ev":"plug","tag":"M1"} => {"at":1,"desc":{"services":[{"name":"stir","procedures":[{"default":true,"number":1,"params":[],"self_completing":false}]}],"type":"Mixer","variables":[],"version":"2.0.0"},"ev":"plug","tag":"M1"}
{"at":1,"desc":{"services":[{"name":"stir","procedures":[{"default":true,"number":2,"params":[],"self_completing":false}]}],"type":"Mixer","variables":[],"version":"2.0.0"},"ev":"plug","tag":"M1"} => {"at":1,"desc":{"services":[{"name":"stir","procedures":[{"default":true,"number":2,"params":[],"self_completing":false}]}],"type":"Mixer","variables":[],"version":"2.0.0"},"ev":"plug","tag":"M1"}
{"ev":"exchange_end","at":9,"tag":"M1","ticket":4294967295,"desc":{"type":"Mixer","version":"2.0.0","services":[{"name":"stir"}]}} => {"at":9,"desc":{"services":[{"name":"stir","procedures":[{"default":true,"number":1,"params":[],"self_completing":false}]}],"type":"Mixer","variables":[],"version":"2.0.0"},"ev":"exchange_end","tag":"M1","ticket":4294967295}
{"tag":"M1","ticket":0,"desc":{"type":"Doser","version":"1.0.0","services":[{"name":"dose","procedures":[{"number":1,"default":true,"self_completing":true,"params":[{"name":"amount","kind":"DIntServParam","min":0,"max":5000}]}]}],"variables":[{"name":"level","kind":"AnaView"}]},"ev":"exchange_end","at":9} => {"at":9,"desc":{"services":[{"name":"dose","procedures":[{"default":true,"number":1,"params":[{"kind":"DIntServParam","max":5000,"min":0,"name":"amount"}],"self_completing":true}]}],"type":"Doser","variables":[{"kind":"AnaView","name":"level"}],"version":"1.0.0"},"ev":"exchange_end","tag":"M1","ticket":0}
"#;

/// Recipes without conditions, each with the event's written form.
const RECIPES: &str = r#"
{"ev":"recipe","at":4,"recipe":"mix","roles":[{"role":"A","type":"Doser","version":"^1"}],"chart":{"step":"s1","role":"A","service":"dose","procedure":1,"settings":[]}} => {"at":4,"chart":{"procedure":1,"role":"A","service":"dose","settings":[],"step":"s1"},"ev":"recipe","recipe":"mix","roles":[{"role":"A","type":"Doser","version":"^1"}]}
{"ev":"recipe","at":4,"recipe":"mix","roles":[{"role":"A","type":"Doser","version":"^1"}],"chart":{"seq":[{"step":"s1","role":"A","service":"dose","procedure":1,"settings":[{"name":"amount","value":-1500},{"name":"note","value":"läuft"},{"name":"fast","value":true}]},{"par":[{"step":"s2","role":"A","service":"dose","procedure":1,"settings":[]},{"step":"s3","role":"A","service":"stir","procedure":1,"settings":[]}]}]}} => {"at":4,"chart":{"seq":[{"procedure":1,"role":"A","service":"dose","settings":[{"name":"amount","value":-1500},{"name":"note","value":"läuft"},{"name":"fast","value":true}],"step":"s1"},{"par":[{"procedure":1,"role":"A","service":"dose","settings":[],"step":"s2"},{"procedure":1,"role":"A","service":"stir","settings":[],"step":"s3"}]}]},"ev":"recipe","recipe":"mix","roles":[{"role":"A","type":"Doser","version":"^1"}]}
{"recipe":"mix","at":4,"ev":"recipe","roles":[{"version":"^1","type":"Doser","role":"A"}],"chart":{"step":"s1","role":"A","service":"dose","procedure":1,"settings":[]}} => {"at":4,"chart":{"procedure":1,"role":"A","service":"dose","settings":[],"step":"s1"},"ev":"recipe","recipe":"mix","roles":[{"role":"A","type":"Doser","version":"^1"}]}
{"recipe":"mix","roles":[{"role":"A","type":"Doser","version":"^1"}],"chart":{"step":"s1","role":"A","service":"dose","procedure":1,"settings":[]},"ev":"recipe","at":4} => {"at":4,"chart":{"procedure":1,"role":"A","service":"dose","settings":[],"step":"s1"},"ev":"recipe","recipe":"mix","roles":[{"role":"A","type":"Doser","version":"^1"}]}
"#;

/// A recipe with a step's finish, a selection and a loop, `@` for each condition, in the order of the documents.
const DOCUMENTED: &str = r#"
{"ev":"recipe","at":4,"recipe":"mix","roles":[{"role":"A","type":"Doser","version":"^1"}],"chart":{"seq":[
{"step":"s1","role":"A","service":"dose","procedure":1,"settings":[],"finish":@},
{"sel":[{"when":@,"then":{"loop":{"step":"s2","role":"A","service":"dose","procedure":1},"until":@}}]}]}}
"#;

/// The same with the keys of its chart sorted.
const SORTED: &str = r#"
{"ev":"recipe","at":4,"recipe":"mix","roles":[{"role":"A","type":"Doser","version":"^1"}],"chart":{"seq":[
{"finish":@,"procedure":1,"role":"A","service":"dose","settings":[],"step":"s1"},
{"sel":[{"then":{"loop":{"procedure":1,"role":"A","service":"dose","settings":[],"step":"s2"},"until":@},"when":@}]}]}}
"#;

/// Its written form.
const WRITTEN: &str = r#"
{"at":4,"chart":{"seq":[
{"finish":@,"procedure":1,"role":"A","service":"dose","settings":[],"step":"s1"},
{"sel":[{"then":{"loop":{"procedure":1,"role":"A","service":"dose","settings":[],"step":"s2"},"until":@},"when":@}]}]},
"ev":"recipe","recipe":"mix","roles":[{"role":"A","type":"Doser","version":"^1"}]}
"#;

/// Conditions, `@` for a test, each with its written form.
const CONDITIONS: &str = r#"
{"const":true} => {"const":true}
{"const":false} => {"const":false}
@ => @
{"test":"level","op":"lt","value":-5,"role":"A"} => {"op":"lt","role":"A","test":"level","value":-5}
{"value":true,"op":"ne","test":"open","role":"A"} => {"op":"ne","role":"A","test":"open","value":true}
{"all":[{"not":@},{"any":[{"const":true},@]}]} => {"all":[{"not":@},{"any":[{"const":true},@]}]}
{"not":{"not":{"all":[{"not":{"any":[{"not":{"not":@}}]}}]}}} => {"not":{"not":{"all":[{"not":{"any":[{"not":{"not":@}}]}}]}}}
{"any":[@,@,@,@,@,@,@,@,@,@,@,@,@,@,@,@]} => {"any":[@,@,@,@,@,@,@,@,@,@,@,@,@,@,@,@]}
"#;

/// Conditions that a recipe may not have, `@` for a test.
const REFUSED: &str = r#"
{"test":"open","role":"A","op":"lt","value":true}
{"test":"open","role":"A","op":"is","value":1}
{"test":"open","role":"A","op":"eq","value":"x"}
{"test":"open","role":"A","op":"eq"}
{"test":"open","role":"A","op":"eq","value":1,"name":"x"}
{"const":1}
{"const":true,"not":{"const":true}}
{"all":[]}
{"any":[@,]}
{"not":{"not":{"not":{"all":[{"not":{"any":[{"not":{"not":@}}]}}]}}}}
{"all":[{"any":[@,@,@,@,@,@,@,@]},{"any":[@,@,@,@,@,@,@,@,@]}]}
{"all":[{"const":true},@,@,@,@,@,@,@,@,@,@,@,@,@,@,@,@]}
"#;

/// Lines that say an event and take the slow way, each with the event's written form.
const SLOW: &str = r#"
{"ev": "unplug", "at": 2, "tag": "M1"} => {"at":2,"ev":"unplug","tag":"M1"}
 {"ev":"unplug","at":2,"tag":"M1"} => {"at":2,"ev":"unplug","tag":"M1"}
{"ev":"unplug","at":1000000000000000000,"tag":"M1"} => {"at":1000000000000000000,"ev":"unplug","tag":"M1"}
{"ev":"unplug","at":2,"tag":"\u004d1"} => {"at":2,"ev":"unplug","tag":"M1"}
{"ev":"variable","at":3,"tag":"M1","name":"note","value":"a \"b\""} => {"at":3,"ev":"variable","name":"note","tag":"M1","value":"a \"b\""}
{"ev":"start","at":5,"batch":"b1","recipe":"mix","bind":{"B":"M2","A":"M1"}} => {"at":5,"batch":"b1","bind":{"A":"M1","B":"M2"},"ev":"start","recipe":"mix"}
{"ev":"freeze","at":6,"batch":"b1","hold":true} => {"at":6,"batch":"b1","ev":"freeze","hold":true}
{"ev":"start","at":5,"batch":"b1","recipe":"mix","bind":{}} => {"at":5,"batch":"b1","bind":{},"ev":"start","recipe":"mix"}
{"ev":"recipe","at":4,"recipe":"mix","roles":[{"role":"A","type":"Doser","version":"^1"}],"chart":{"until":{"const":true},"loop":{"step":"s1","role":"A","service":"dose","procedure":1,"settings":[]}}} => {"at":4,"chart":{"loop":{"procedure":1,"role":"A","service":"dose","settings":[],"step":"s1"},"until":{"const":true}},"ev":"recipe","recipe":"mix","roles":[{"role":"A","type":"Doser","version":"^1"}]}
"#;

/// Lines that say no event.
const NONE: &str = r#"
{"ev":"freeze","at":6,"batch":"b1"}
{"ev":"unplug","at":2,"tag":"M1"}}
{"ev":"unplug","at":2,"tag":"M1",}
{"ev":"unplug","at":2,"tag":"M1"
{"ev":"unplug","at":02,"tag":"M1"}
{"ev":"unplug","at":-2,"tag":"M1"}
{"ev":"unplug","at":2.0,"tag":"M1"}
{"ev":"unplug","at":2,"tag":"M 1"}
{"ev":"unplug","at":2}
{"ev":"unplug","at":2,"tag":"M1","name":"level"}
{"ev":"jump","at":2,"tag":"M1"}
{"ev":"variable","at":3,"tag":"M1","name":"level","value":-0}
{"ev":"report","at":2,"tag":"M1","service":"dose","StateCur":17,"CommandEn":4,"Mode":"Automatic","Src":"External","ProcedureCur":0}
{"ev":"report","at":2,"tag":"M1","service":"dose","StateCur":16,"CommandEn":4,"Mode":"Auto","Src":"External","ProcedureCur":0}
{"ev":"report","at":2,"tag":"M1","service":"dose","StateCur":16,"CommandEn":4,"Mode":"Automatic","Src":"External","ProcedureCur":65536}
{}
{"ev":"recipe","at":4,"recipe":"mix","roles":[{"role":"A","type":"Doser","version":"^1"}],"chart":{"seq":[{"step":"s1","role":"A","service":"dose","procedure":1,"settings":[]},{"step":"s1","role":"A","service":"dose","procedure":1,"settings":[]}]}}
{"ev":"recipe","at":4,"recipe":"mix","roles":[{"role":"A","type":"Doser","version":"^1"}],"chart":{"seq":[]}}
{"ev":"recipe","at":4,"recipe":"mix","roles":[{"role":"A","type":"Doser","version":"^1"}],"chart":{"par":[{"step":"s1","role":"A","service":"dose","procedure":1,"settings":[]}]}}
{"ev":"recipe","at":4,"recipe":"mix","roles":[{"role":"A","type":"Doser","version":"^1"}],"chart":{"step":"s1","role":"A","service":"dose","procedure":1,"settings":[{"name":"amount","value":1},{"name":"amount","value":2}]}}
{"ev":"recipe","at":4,"recipe":"mix","roles":[],"chart":{"step":"s1","role":"A","service":"dose","procedure":1,"settings":[]}}
{"ev":"recipe","at":4,"recipe":"mix","roles":[{"role":"A","type":"Doser","version":"^1"},{"role":"A","type":"Mixer","version":"^1"}],"chart":{"step":"s1","role":"A","service":"dose","procedure":1,"settings":[]}}
{"ev":"recipe","at":4,"recipe":"mix","roles":[{"role":"A","type":"Doser","version":"1.x.1"}],"chart":{"step":"s1","role":"A","service":"dose","procedure":1,"settings":[]}}
{"ev":"recipe","at":4,"recipe":"mix","roles":[{"role":"A","type":"Doser","version":"^1"}],"chart":{"step":"s1","role":"A","service":"dose","procedure":1,"settings":[]}}}
{"ev":"plug","at":1,"tag":"M1","desc":{"type":"Mixer","version":"2.0","services":[{"name":"stir"}]}}
{"ev":"plug","at":1,"tag":"M1","desc":{"version":"2.0.0","services":[{"name":"stir"}]}}
{"ev":"plug","at":1,"tag":"M1","desc":{"type":"Mixer","version":"2.0.0","services":[]}}
{"ev":"plug","at":1,"tag":"M1","desc":{"type":"Mixer","version":"2.0.0","services":[{"name":"stir"},{"name":"stir"}]}}
{"ev":"plug","at":1,"tag":"M1","desc":{"type":"Mixer","version":"2.0.0","services":[{"name":"stir","procedures":[]}]}}
{"ev":"plug","at":1,"tag":"M1","desc":{"type":"Doser","version":"1.0.0","services":[{"name":"dose","procedures":[{"number":1,"default":false,"self_completing":true,"params":[{"name":"amount","kind":"DIntServParam","min":0,"max":5000}]}]}],"variables":[{"name":"level","kind":"AnaView"}]}}
{"ev":"plug","at":1,"tag":"M1","desc":{"type":"Doser","version":"1.0.0","services":[{"name":"dose","procedures":[{"number":1,"default":true,"self_completing":true,"params":[{"name":"amount","kind":"DIntServParam","min":0,"max":-1}]}]}],"variables":[{"name":"level","kind":"AnaView"}]}}
{"ev":"plug","at":1,"tag":"M1","desc":{"type":"Doser","version":"1.0.0","services":[{"name":"dose","procedures":[{"number":1,"default":true,"self_completing":true,"params":[{"name":"amount","kind":"DIntServParam","min":0,"max":2147483648}]}]}],"variables":[{"name":"level","kind":"AnaView"}]}}
{"ev":"plug","at":1,"tag":"M1","desc":{"type":"Doser","version":"1.0.0","services":[{"name":"dose","procedures":[{"number":1,"default":true,"self_completing":true,"params":[{"name":"amount","kind":"DIntServParam","min":0}]}]}],"variables":[{"name":"level","kind":"AnaView"}]}}
{"ev":"plug","at":1,"tag":"M1","desc":{"type":"Doser","version":"1.0.0","services":[{"name":"dose","procedures":[{"number":1,"default":true,"self_completing":true,"params":[{"name":"amount","kind":"BinServParam","min":0,"max":5000}]}]}],"variables":[{"name":"level","kind":"AnaView"}]}}
{"ev":"plug","at":1,"tag":"M1","desc":{"type":"Doser","version":"1.0.0","services":[{"name":"dose","procedures":[{"number":0,"default":true,"self_completing":true,"params":[{"name":"amount","kind":"DIntServParam","min":0,"max":5000}]}]}],"variables":[{"name":"level","kind":"AnaView"}]}}
{"ev":"plug","at":1,"tag":"M1","desc":{"type":"Doser","version":"1.0.0","services":[{"name":"dose","procedures":[{"number":1,"default":true,"self_completing":true,"params":[{"name":"amount","kind":"DIntServParam","min":0,"max":5000}]}]}],"variables":[{"name":"level","kind":"AnaView"},{"name":"level","kind":"BinView"}]}}
{"ev":"plug","at":1,"tag":"M1","desc":{"type":"Doser","version":"1.0.0","services":[{"name":"dose","procedures":[{"number":1,"default":true,"self_completing":true,"params":[{"name":"amount","kind":"DIntServParam","min":0,"max":5000}]}]}],"variables":[{"name":"level","kind":"AnaServParam"}]}}
{"ev":"plug","at":1,"tag":"M1","desc":{"type":"Doser","version":"1.0.0","services":[{"name":"dose","procedures":[{"number":1,"default":true,"self_completing":true,"params":[{"name":"amount","kind":"DIntServParam","min":0,"max":5000}]}]}],"variables":[{"name":"level","kind":"AnaView"}]}}}
{"ev":"plug","at":1,"tag":"M1","ticket":1,"desc":{"type":"Doser","version":"1.0.0","services":[{"name":"dose","procedures":[{"number":1,"default":true,"self_completing":true,"params":[{"name":"amount","kind":"DIntServParam","min":0,"max":5000}]}]}],"variables":[{"name":"level","kind":"AnaView"}]}}
{"ev":"exchange_end","at":9,"tag":"M1","desc":{"type":"Mixer","version":"2.0.0","services":[{"name":"stir"}]}}
{"ev":"unplug","at":9,"tag":"M1","desc":{"type":"Mixer","version":"2.0.0","services":[{"name":"stir"}]}}
{"ev":"start","at":5,"batch":"b1","recipe":"mix","bind":{"A":1}}
{"ev":"start","at":5,"batch":"b1","recipe":"mix","bind":{"A":"M 1"}}
{"ev":"start","at":5,"batch":"b1","recipe":"mix","bind":{"A B":"M1"}}
{"ev":"start","at":5,"batch":"b1","recipe":"mix","bind":{"A":"M1",}}
{"ev":"start","at":5,"batch":"b1","recipe":"mix","bind":{"A":"M1"}}}
{"ev":"start","at":5,"recipe":"mix","bind":{"A":"M1"}}
{"ev":"start","at":5,"batch":"b1","recipe":"mix","tag":"M1","bind":{"A":"M1"}}
"#;

/// Reads each row's line, which is read without a tree or is not, and compares what it says.
fn read_rows(rt: &impl Abort, alloc: Global, rows: &str, is_quick: bool) -> Result<(), Fail> {
    for row in rows.trim().lines() {
        let (line, written) = row.split_once(" => ").ok_or("no row")?;
        let quick = read_quick(alloc, line.as_bytes());
        assert!(rt; quick.is_some() == is_quick, "at {line}");
        let told = told(alloc, line.as_bytes())?;
        assert!(rt; told.as_slice() == written.as_bytes(), "at {line}");
    }
    Ok(())
}

#[test]
fn flat_lines_are_read_without_a_tree(rt: HostRuntime) -> Result<(), Fail> {
    read_rows(&rt, rt.alloc(), QUICK, true)
}

#[test]
fn descriptions_are_read_without_a_tree(rt: HostRuntime) -> Result<(), Fail> {
    read_rows(&rt, rt.alloc(), DESCRIBED, true)
}

#[test]
fn recipes_without_conditions_are_read_without_a_tree(rt: HostRuntime) -> Result<(), Fail> {
    read_rows(&rt, rt.alloc(), RECIPES, true)
}

/// The lines of a text as one line, with this for each `@`.
fn filled(alloc: Global, frame: &str, with: &str) -> Result<String, AllocError> {
    let mut line = String::new(alloc);
    for part in frame.trim().lines() {
        for (i, piece) in part.split('@').enumerate() {
            if i > 0 {
                line.push_str(with)?;
            }
            line.push_str(piece)?;
        }
    }
    Ok(line)
}

/// The recipe with this condition, of which `@` is a test.
fn with_condition(alloc: Global, frame: &str, condition: &str) -> Result<String, AllocError> {
    let test = r#"{"op":"ge","role":"A","test":"level","value":250}"#;
    let condition = filled(alloc, condition, test)?;
    filled(alloc, frame, condition.as_str())
}

#[test]
fn recipes_with_conditions_are_read_without_a_tree(rt: HostRuntime) -> Result<(), Fail> {
    let alloc = rt.alloc();
    for row in CONDITIONS.trim().lines() {
        let (condition, written) = row.split_once(" => ").ok_or("no row")?;
        let wanted = with_condition(alloc, WRITTEN, written)?;
        for frame in [DOCUMENTED, SORTED] {
            let line = with_condition(alloc, frame, condition)?;
            assert!(rt; read_quick(alloc, line.as_bytes()).is_some(), "at {line}");
            let told = told(alloc, line.as_bytes())?;
            assert!(rt; told.as_slice() == wanted.as_bytes(), "at {line}");
        }
    }
    Ok(())
}

#[test]
fn recipes_with_other_conditions_are_refused(rt: HostRuntime) -> Result<(), Fail> {
    let alloc = rt.alloc();
    for condition in REFUSED.trim().lines() {
        let line = with_condition(alloc, DOCUMENTED, condition)?;
        assert!(rt; read_quick(alloc, line.as_bytes()).is_none(), "at {line}");
        assert!(rt; read_line(alloc, line.as_bytes()).is_err(), "at {line}");
    }
    Ok(())
}

#[test]
fn other_lines_are_read_by_their_trees(rt: HostRuntime) -> Result<(), Fail> {
    read_rows(&rt, rt.alloc(), SLOW, false)
}

#[test]
fn lines_that_say_no_event_are_refused(rt: HostRuntime) -> Result<(), Fail> {
    for line in NONE.trim().lines() {
        assert!(rt;
            read_line(rt.alloc(), line.as_bytes()).is_err(),
            "at {line}"
        );
    }
    Ok(())
}
