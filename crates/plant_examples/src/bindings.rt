//! The line of the bindings of a plant.
use event_json::read_event;
use pol_core::Plant;
use pol_find::put_bindings_line;
use std::alloc::Global;
use std::test::*;

// What is told to a plant, and the line of its bindings then.
type Told = (&'static [&'static str], &'static str);

const SHORT: [Told; 2] = [
    (&[], "{\"bindings\":[]}\n"),
    (
        &[
            r#"{"at":1,"ev":"plug","tag":"M","desc":{"type":"Doser","version":"1.0.0","services":[{"name":"dose","procedures":[{"number":1,"default":true,"self_completing":true}]}]}}"#,
            r#"{"at":2,"ev":"plug","tag":"N","desc":{"type":"Doser","version":"1.0.0","services":[{"name":"dose","procedures":[{"number":1,"default":true,"self_completing":true}]}]}}"#,
            r#"{"at":3,"ev":"report","tag":"N","service":"dose","StateCur":16,"CommandEn":4,"Mode":"Automatic","Src":"External","ProcedureCur":0}"#,
            r#"{"at":4,"ev":"recipe","recipe":"two","roles":[{"role":"A","type":"Doser","version":"^1"},{"role":"B","type":"Doser","version":"^1"}],"chart":{"seq":[{"step":"s1","role":"A","service":"dose","procedure":1},{"step":"s2","role":"B","service":"dose","procedure":1}]}}"#,
            r#"{"at":5,"ev":"recipe","recipe":"one","roles":[{"role":"A","type":"Doser","version":"^1"}],"chart":{"step":"s1","role":"A","service":"dose","procedure":1}}"#,
        ],
        "{\"bindings\":[{\"recipe\":\"two\",\"short\":[\"A\",\"B\"],\"tags\":[\"N\"]},{\"bind\":{\"A\":\"N\"},\"recipe\":\"one\"}]}\n",
    ),
];

// The chart of peek has a step of role A, and only reads B's level: so B may be played by a module that isn't idle (M at
// first), and by one that another batch holds (N at last). A needs one that is idle and free.
const WATCHED: [Told; 3] = [
    (
        &[
            r#"{"at":1,"ev":"plug","tag":"M","desc":{"type":"Doser","version":"1.0.0","services":[{"name":"dose","procedures":[{"number":1,"default":true,"self_completing":true}]}],"variables":[{"name":"level","kind":"AnaView"}]}}"#,
            r#"{"at":2,"ev":"plug","tag":"N","desc":{"type":"Doser","version":"1.0.0","services":[{"name":"dose","procedures":[{"number":1,"default":true,"self_completing":true}]}],"variables":[{"name":"level","kind":"AnaView"}]}}"#,
            r#"{"at":3,"ev":"report","tag":"N","service":"dose","StateCur":16,"CommandEn":4,"Mode":"Automatic","Src":"External","ProcedureCur":0}"#,
            r#"{"at":4,"ev":"recipe","recipe":"peek","roles":[{"role":"A","type":"Doser","version":"^1"},{"role":"B","type":"Doser","version":"^1"}],"chart":{"sel":[{"when":{"test":"level","role":"B","op":"ge","value":500},"then":{"step":"s1","role":"A","service":"dose","procedure":1}}]}}"#,
        ],
        "{\"bindings\":[{\"bind\":{\"A\":\"N\"},\"recipe\":\"peek\",\"watch\":{\"B\":\"M\"}}]}\n",
    ),
    (
        &[
            r#"{"at":5,"ev":"start","batch":"b","recipe":"peek","bind":{"A":"N"},"watch":{"B":"M"}}"#,
        ],
        "{\"bindings\":[{\"recipe\":\"peek\",\"short\":[\"A\"],\"tags\":[]}]}\n",
    ),
    (
        &[
            r#"{"at":6,"ev":"report","tag":"M","service":"dose","StateCur":16,"CommandEn":4,"Mode":"Automatic","Src":"External","ProcedureCur":0}"#,
        ],
        "{\"bindings\":[{\"bind\":{\"A\":\"M\"},\"recipe\":\"peek\",\"watch\":{\"B\":\"N\"}}]}\n",
    ),
];

// What is written of a plant that is told the lines of each row and asked then, and what should be.
fn told(alloc: Global, rows: &[Told]) -> Result<(Vec<u8>, String), Fail> {
    let mut plant = Plant::new(alloc);
    let mut out = Vec::new(alloc);
    let mut want = String::new(alloc);
    for (lines, line) in rows {
        for text in *lines {
            let event = read_event(alloc, text.as_bytes()).ok().ok_or("no event")?;
            plant.apply(event).ok().ok_or("no memory")?;
        }
        put_bindings_line(alloc, &mut out, &plant)?;
        want.push_str(line)?;
    }
    Ok((out, want))
}

#[test]
fn each_recipe_is_told_behind_what_the_buffer_holds(rt: HostRuntime) -> Result<(), Fail> {
    let (out, want) = told(rt.alloc(), &SHORT)?;
    assert_eq!(rt; out.as_slice(), want.as_bytes());
    Ok(())
}

#[test]
fn a_role_that_is_only_read_is_watched_by_any_docked_module(rt: HostRuntime) -> Result<(), Fail> {
    let (out, want) = told(rt.alloc(), &WATCHED)?;
    assert_eq!(rt; out.as_slice(), want.as_bytes());
    Ok(())
}
