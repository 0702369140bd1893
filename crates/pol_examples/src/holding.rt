//! Batches that are held, and journals that were written before batches could be.
use super::batches::FROZEN_AND_STOPPED_LINES;
use super::runs::{Journal, replay_each, run_each};
use std::test::Fail;

const HOLDS: [Journal; 3] = [
    Journal {
        title: "a held batch holds and unholds its step",
        input: r#"{"at":1,"desc":{"services":[{"name":"dose","procedures":[{"default":true,"number":1,"params":[{"kind":"DIntServParam","max":5000,"min":0,"name":"amount"}],"self_completing":true}]}],"type":"Doser","variables":[{"kind":"AnaView","name":"level"}],"version":"1.0.0"},"ev":"plug","tag":"M"}
{"CommandEn":4,"Mode":"Automatic","ProcedureCur":0,"Src":"External","StateCur":16,"at":2,"ev":"report","service":"dose","tag":"M"}
{"at":3,"chart":{"procedure":1,"role":"A","service":"dose","settings":[{"name":"amount","value":1500}],"step":"s1"},"ev":"recipe","recipe":"one","roles":[{"role":"A","type":"Doser","version":"^1"}]}
{"at":4,"batch":"b","bind":{"A":"M"},"ev":"start","recipe":"one"}
{"at":5,"batch":"b","ev":"advance"}
{"CommandEn":0,"Mode":"Automatic","ProcedureCur":0,"Src":"External","StateCur":8,"at":6,"ev":"report","service":"dose","tag":"M"}
{"CommandEn":16,"Mode":"Automatic","ProcedureCur":0,"Src":"External","StateCur":64,"at":7,"ev":"report","service":"dose","tag":"M"}
{"at":8,"batch":"b","ev":"freeze","hold":true}
{"at":9,"batch":"b","ev":"advance"}
{"at":10,"batch":"b","ev":"advance"}
{"CommandEn":0,"Mode":"Automatic","ProcedureCur":0,"Src":"External","StateCur":1024,"at":11,"ev":"report","service":"dose","tag":"M"}
{"at":12,"batch":"b","ev":"thaw"}
{"at":13,"batch":"b","ev":"advance"}
{"CommandEn":32,"Mode":"Automatic","ProcedureCur":0,"Src":"External","StateCur":2048,"at":14,"ev":"report","service":"dose","tag":"M"}
{"at":15,"batch":"b","ev":"advance"}
{"at":16,"batch":"b","ev":"advance"}
{"CommandEn":0,"Mode":"Automatic","ProcedureCur":0,"Src":"External","StateCur":4096,"at":17,"ev":"report","service":"dose","tag":"M"}
{"CommandEn":0,"Mode":"Automatic","ProcedureCur":0,"Src":"External","StateCur":64,"at":18,"ev":"report","service":"dose","tag":"M"}
{"CommandEn":0,"Mode":"Automatic","ProcedureCur":0,"Src":"External","StateCur":65536,"at":19,"ev":"report","service":"dose","tag":"M"}
{"CommandEn":2,"Mode":"Automatic","ProcedureCur":0,"Src":"External","StateCur":131072,"at":20,"ev":"report","service":"dose","tag":"M"}
{"at":21,"batch":"b","ev":"advance"}
"#,
        output: r#"{"done":true}
{"done":true}
{"done":true}
{"done":true}
{"did":{"do":"start","procedure":1,"service":"dose","step":"s1","tag":"M"}}
{"done":true}
{"done":true}
{"done":true}
{"did":{"do":"hold","service":"dose","step":"s1","tag":"M"}}
{"wait":"Frozen"}
{"done":true}
{"done":true}
{"state":1024,"step":"s1","wait":"InState"}
{"done":true}
{"did":{"do":"unhold","service":"dose","step":"s1","tag":"M"}}
{"state":2048,"step":"s1","wait":"InState"}
{"done":true}
{"done":true}
{"done":true}
{"done":true}
{"did":{"do":"reset","service":"dose","step":"s1","tag":"M"}}
{"batch":"b","bind":{"A":"M"},"log":[{"do":"start","procedure":1,"service":"dose","step":"s1","tag":"M"},{"do":"hold","service":"dose","step":"s1","tag":"M"},{"do":"unhold","service":"dose","step":"s1","tag":"M"},{"do":"reset","service":"dose","step":"s1","tag":"M"}],"outcome":"Running","recipe":"one"}
{"end":true}
"#,
    },
    Journal {
        title: "a waiting freeze can be raised to a holding one",
        input: r#"{"at":1,"desc":{"services":[{"name":"dose","procedures":[{"default":true,"number":1,"params":[{"kind":"DIntServParam","max":5000,"min":0,"name":"amount"}],"self_completing":true}]}],"type":"Doser","variables":[{"kind":"AnaView","name":"level"}],"version":"1.0.0"},"ev":"plug","tag":"M"}
{"CommandEn":4,"Mode":"Automatic","ProcedureCur":0,"Src":"External","StateCur":16,"at":2,"ev":"report","service":"dose","tag":"M"}
{"at":3,"chart":{"procedure":1,"role":"A","service":"dose","settings":[{"name":"amount","value":1500}],"step":"s1"},"ev":"recipe","recipe":"one","roles":[{"role":"A","type":"Doser","version":"^1"}]}
{"at":4,"batch":"b","bind":{"A":"M"},"ev":"start","recipe":"one"}
{"at":5,"batch":"b","ev":"freeze","hold":false}
{"at":6,"batch":"b","ev":"freeze","hold":true}
{"at":7,"batch":"b","ev":"freeze","hold":true}
{"at":8,"batch":"b","ev":"freeze","hold":false}
"#,
        output: r#"{"done":true}
{"done":true}
{"done":true}
{"done":true}
{"done":true}
{"done":true}
{"refused":35,"rule":"AlreadyFrozen"}
{"refused":35,"rule":"AlreadyFrozen"}
{"batch":"b","bind":{"A":"M"},"log":[],"outcome":"Running","recipe":"one"}
{"end":true}
"#,
    },
    Journal {
        title: "a freeze line that was written before batches could be held lacks its hold",
        input: r#"{"at":1,"batch":"b","ev":"freeze"}
"#,
        output: r#"{"bad":"Missing","path":"hold"}
{"end":true}
"#,
    },
];

#[test]
fn batches_are_held_and_go_on(rt: HostRuntime) -> Result<(), Fail> {
    replay_each(&rt, rt.alloc(), &HOLDS)
}

const OLD_JOURNALS: [Journal; 2] = [
    Journal {
        title: "a freeze between a blank line and one that is no event",
        input: r#"{"ev":"freeze","at":3,"batch":"b"}
   
[]
"#,
        output: r#"{"at":3,"batch":"b","ev":"freeze","hold":false}
"#,
    },
    Journal {
        title: "a journal with freezes",
        input: r#"{"at":1,"desc":{"services":[{"name":"dose","procedures":[{"default":true,"number":1,"params":[{"kind":"DIntServParam","max":5000,"min":0,"name":"amount"}],"self_completing":true}]}],"type":"Doser","variables":[{"kind":"AnaView","name":"level"}],"version":"1.0.0"},"ev":"plug","tag":"M"}
{"CommandEn":4,"Mode":"Automatic","ProcedureCur":0,"Src":"External","StateCur":16,"at":2,"ev":"report","service":"dose","tag":"M"}
{"at":3,"chart":{"procedure":1,"role":"A","service":"dose","settings":[{"name":"amount","value":1500}],"step":"s1"},"ev":"recipe","recipe":"one","roles":[{"role":"A","type":"Doser","version":"^1"}]}
{"at":4,"batch":"b","bind":{"A":"M"},"ev":"start","recipe":"one"}
{"at":5,"batch":"b","ev":"freeze"}
{"at":6,"batch":"b","ev":"advance"}
{"at":7,"batch":"b","ev":"freeze"}
{"at":8,"batch":"b","ev":"thaw"}
{"at":9,"batch":"b","ev":"thaw"}
{"at":10,"batch":"b","ev":"advance"}
{"at":11,"batch":"b","ev":"stop"}
{"CommandEn":8,"Mode":"Automatic","ProcedureCur":0,"Src":"External","StateCur":8,"at":12,"ev":"report","service":"dose","tag":"M"}
{"at":13,"batch":"b","ev":"advance"}
{"at":14,"batch":"b","ev":"advance"}
"#,
        output: FROZEN_AND_STOPPED_LINES,
    },
];

#[test]
fn an_old_journal_is_migrated(rt: HostRuntime) -> Result<(), Fail> {
    run_each(&rt, rt.alloc(), "pol --job migrate", &OLD_JOURNALS)
}
