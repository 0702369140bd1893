//! Modules: the states that they report, when they may come and go, and what an operator may command.
use super::runs::{Journal, replay_each};
use std::test::Fail;

const MODULES: [Journal; 9] = [
    Journal {
        title: "a skipped state is refused",
        input: r#"{"at":1,"desc":{"services":[{"name":"dose"}],"type":"Doser","version":"1.0.0"},"ev":"plug","tag":"M"}
{"CommandEn":4,"Mode":"Automatic","ProcedureCur":0,"Src":"External","StateCur":16,"at":2,"ev":"report","service":"dose","tag":"M"}
{"CommandEn":0,"Mode":"Automatic","ProcedureCur":0,"Src":"External","StateCur":64,"at":3,"ev":"report","service":"dose","tag":"M"}
{"CommandEn":0,"Mode":"Automatic","ProcedureCur":0,"Src":"External","StateCur":8,"at":4,"ev":"report","service":"dose","tag":"M"}
"#,
        output: r#"{"done":true}
{"done":true}
{"from":16,"refused":9,"rule":"NotAnEdge","to":64}
{"done":true}
{"end":true}
"#,
    },
    Journal {
        title: "any first state and a repeated state are accepted",
        input: r#"{"at":1,"desc":{"services":[{"name":"dose"}],"type":"Doser","version":"1.0.0"},"ev":"plug","tag":"M"}
{"CommandEn":32,"Mode":"Automatic","ProcedureCur":0,"Src":"External","StateCur":2048,"at":2,"ev":"report","service":"dose","tag":"M"}
{"CommandEn":32,"Mode":"Automatic","ProcedureCur":0,"Src":"External","StateCur":2048,"at":3,"ev":"report","service":"dose","tag":"M"}
{"CommandEn":0,"Mode":"Automatic","ProcedureCur":0,"Src":"External","StateCur":64,"at":4,"ev":"report","service":"dose","tag":"M"}
{"CommandEn":0,"Mode":"Automatic","ProcedureCur":0,"Src":"External","StateCur":4096,"at":5,"ev":"report","service":"dose","tag":"M"}
"#,
        output: r#"{"done":true}
{"done":true}
{"done":true}
{"from":2048,"refused":9,"rule":"NotAnEdge","to":64}
{"done":true}
{"end":true}
"#,
    },
    Journal {
        title: "a held module stays plugged",
        input: r#"{"at":1,"desc":{"services":[{"name":"dose","procedures":[{"default":true,"number":1,"params":[{"kind":"DIntServParam","max":5000,"min":0,"name":"amount"}],"self_completing":true}]}],"type":"Doser","variables":[{"kind":"AnaView","name":"level"}],"version":"1.0.0"},"ev":"plug","tag":"M"}
{"at":2,"desc":{"services":[{"name":"dose","procedures":[{"default":true,"number":1,"params":[{"kind":"DIntServParam","max":5000,"min":0,"name":"amount"}],"self_completing":true}]}],"type":"Doser","variables":[{"kind":"AnaView","name":"level"}],"version":"1.0.0"},"ev":"plug","tag":"N"}
{"CommandEn":4,"Mode":"Automatic","ProcedureCur":0,"Src":"External","StateCur":16,"at":3,"ev":"report","service":"dose","tag":"N"}
{"at":4,"chart":{"procedure":1,"role":"A","service":"dose","settings":[{"name":"amount","value":1500}],"step":"s1"},"ev":"recipe","recipe":"one","roles":[{"role":"A","type":"Doser","version":"^1"}]}
{"at":5,"batch":"b","bind":{"A":"N"},"ev":"start","recipe":"one"}
{"at":6,"ev":"unplug","tag":"M"}
{"at":7,"desc":{"services":[{"name":"dose"}],"type":"Doser","version":"1.0.0"},"ev":"plug","tag":"P"}
{"at":8,"ev":"unplug","tag":"N"}
{"at":9,"batch":"b","ev":"advance"}
"#,
        output: r#"{"done":true}
{"done":true}
{"done":true}
{"done":true}
{"done":true}
{"done":true}
{"done":true}
{"batch":"b","refused":4,"rule":"Held"}
{"did":{"do":"start","procedure":1,"service":"dose","step":"s1","tag":"N"}}
{"batch":"b","bind":{"A":"N"},"log":[{"do":"start","procedure":1,"service":"dose","step":"s1","tag":"N"}],"outcome":"Running","recipe":"one"}
{"end":true}
"#,
    },
    Journal {
        title: "a held module stays plugged, without the first module",
        input: r#"{"at":2,"desc":{"services":[{"name":"dose","procedures":[{"default":true,"number":1,"params":[{"kind":"DIntServParam","max":5000,"min":0,"name":"amount"}],"self_completing":true}]}],"type":"Doser","variables":[{"kind":"AnaView","name":"level"}],"version":"1.0.0"},"ev":"plug","tag":"N"}
{"CommandEn":4,"Mode":"Automatic","ProcedureCur":0,"Src":"External","StateCur":16,"at":3,"ev":"report","service":"dose","tag":"N"}
{"at":4,"chart":{"procedure":1,"role":"A","service":"dose","settings":[{"name":"amount","value":1500}],"step":"s1"},"ev":"recipe","recipe":"one","roles":[{"role":"A","type":"Doser","version":"^1"}]}
{"at":5,"batch":"b","bind":{"A":"N"},"ev":"start","recipe":"one"}
{"at":7,"desc":{"services":[{"name":"dose"}],"type":"Doser","version":"1.0.0"},"ev":"plug","tag":"P"}
{"at":8,"ev":"unplug","tag":"N"}
{"at":9,"batch":"b","ev":"advance"}
"#,
        output: r#"{"done":true}
{"done":true}
{"done":true}
{"done":true}
{"done":true}
{"batch":"b","refused":4,"rule":"Held"}
{"did":{"do":"start","procedure":1,"service":"dose","step":"s1","tag":"N"}}
{"batch":"b","bind":{"A":"N"},"log":[{"do":"start","procedure":1,"service":"dose","step":"s1","tag":"N"}],"outcome":"Running","recipe":"one"}
{"end":true}
"#,
    },
    Journal {
        title: "a held module stays plugged, without the last module",
        input: r#"{"at":1,"desc":{"services":[{"name":"dose","procedures":[{"default":true,"number":1,"params":[{"kind":"DIntServParam","max":5000,"min":0,"name":"amount"}],"self_completing":true}]}],"type":"Doser","variables":[{"kind":"AnaView","name":"level"}],"version":"1.0.0"},"ev":"plug","tag":"M"}
{"at":2,"desc":{"services":[{"name":"dose","procedures":[{"default":true,"number":1,"params":[{"kind":"DIntServParam","max":5000,"min":0,"name":"amount"}],"self_completing":true}]}],"type":"Doser","variables":[{"kind":"AnaView","name":"level"}],"version":"1.0.0"},"ev":"plug","tag":"N"}
{"CommandEn":4,"Mode":"Automatic","ProcedureCur":0,"Src":"External","StateCur":16,"at":3,"ev":"report","service":"dose","tag":"N"}
{"at":4,"chart":{"procedure":1,"role":"A","service":"dose","settings":[{"name":"amount","value":1500}],"step":"s1"},"ev":"recipe","recipe":"one","roles":[{"role":"A","type":"Doser","version":"^1"}]}
{"at":5,"batch":"b","bind":{"A":"N"},"ev":"start","recipe":"one"}
{"at":6,"ev":"unplug","tag":"M"}
{"at":8,"ev":"unplug","tag":"N"}
{"at":9,"batch":"b","ev":"advance"}
"#,
        output: r#"{"done":true}
{"done":true}
{"done":true}
{"done":true}
{"done":true}
{"done":true}
{"batch":"b","refused":4,"rule":"Held"}
{"did":{"do":"start","procedure":1,"service":"dose","step":"s1","tag":"N"}}
{"batch":"b","bind":{"A":"N"},"log":[{"do":"start","procedure":1,"service":"dose","step":"s1","tag":"N"}],"outcome":"Running","recipe":"one"}
{"end":true}
"#,
    },
    Journal {
        title: "a held module stays plugged, with the first module removed",
        input: r#"{"at":2,"desc":{"services":[{"name":"dose","procedures":[{"default":true,"number":1,"params":[{"kind":"DIntServParam","max":5000,"min":0,"name":"amount"}],"self_completing":true}]}],"type":"Doser","variables":[{"kind":"AnaView","name":"level"}],"version":"1.0.0"},"ev":"plug","tag":"N"}
{"CommandEn":4,"Mode":"Automatic","ProcedureCur":0,"Src":"External","StateCur":16,"at":3,"ev":"report","service":"dose","tag":"N"}
{"at":4,"chart":{"procedure":1,"role":"A","service":"dose","settings":[{"name":"amount","value":1500}],"step":"s1"},"ev":"recipe","recipe":"one","roles":[{"role":"A","type":"Doser","version":"^1"}]}
{"at":5,"batch":"b","bind":{"A":"N"},"ev":"start","recipe":"one"}
{"at":7,"desc":{"services":[{"name":"dose"}],"type":"Doser","version":"1.0.0"},"ev":"plug","tag":"P"}
{"at":9,"batch":"b","ev":"advance"}
"#,
        output: r#"{"done":true}
{"done":true}
{"done":true}
{"done":true}
{"done":true}
{"did":{"do":"start","procedure":1,"service":"dose","step":"s1","tag":"N"}}
{"batch":"b","bind":{"A":"N"},"log":[{"do":"start","procedure":1,"service":"dose","step":"s1","tag":"N"}],"outcome":"Running","recipe":"one"}
{"end":true}
"#,
    },
    Journal {
        title: "a held module stays plugged, with the last module removed",
        input: r#"{"at":1,"desc":{"services":[{"name":"dose","procedures":[{"default":true,"number":1,"params":[{"kind":"DIntServParam","max":5000,"min":0,"name":"amount"}],"self_completing":true}]}],"type":"Doser","variables":[{"kind":"AnaView","name":"level"}],"version":"1.0.0"},"ev":"plug","tag":"M"}
{"at":2,"desc":{"services":[{"name":"dose","procedures":[{"default":true,"number":1,"params":[{"kind":"DIntServParam","max":5000,"min":0,"name":"amount"}],"self_completing":true}]}],"type":"Doser","variables":[{"kind":"AnaView","name":"level"}],"version":"1.0.0"},"ev":"plug","tag":"N"}
{"CommandEn":4,"Mode":"Automatic","ProcedureCur":0,"Src":"External","StateCur":16,"at":3,"ev":"report","service":"dose","tag":"N"}
{"at":4,"chart":{"procedure":1,"role":"A","service":"dose","settings":[{"name":"amount","value":1500}],"step":"s1"},"ev":"recipe","recipe":"one","roles":[{"role":"A","type":"Doser","version":"^1"}]}
{"at":5,"batch":"b","bind":{"A":"N"},"ev":"start","recipe":"one"}
{"at":6,"ev":"unplug","tag":"M"}
{"at":9,"batch":"b","ev":"advance"}
"#,
        output: r#"{"done":true}
{"done":true}
{"done":true}
{"done":true}
{"done":true}
{"done":true}
{"did":{"do":"start","procedure":1,"service":"dose","step":"s1","tag":"N"}}
{"batch":"b","bind":{"A":"N"},"log":[{"do":"start","procedure":1,"service":"dose","step":"s1","tag":"N"}],"outcome":"Running","recipe":"one"}
{"end":true}
"#,
    },
    Journal {
        title: "a free place is used again",
        input: r#"{"at":1,"desc":{"services":[{"name":"dose","procedures":[{"default":true,"number":1,"params":[{"kind":"DIntServParam","max":5000,"min":0,"name":"amount"}],"self_completing":true}]}],"type":"Doser","variables":[{"kind":"AnaView","name":"level"}],"version":"1.0.0"},"ev":"plug","tag":"M"}
{"at":2,"desc":{"services":[{"name":"dose","procedures":[{"default":true,"number":1,"params":[{"kind":"DIntServParam","max":5000,"min":0,"name":"amount"}],"self_completing":true}]}],"type":"Doser","variables":[{"kind":"AnaView","name":"level"}],"version":"1.0.0"},"ev":"plug","tag":"N"}
{"CommandEn":4,"Mode":"Automatic","ProcedureCur":0,"Src":"External","StateCur":16,"at":3,"ev":"report","service":"dose","tag":"N"}
{"at":4,"chart":{"procedure":1,"role":"A","service":"dose","settings":[{"name":"amount","value":1500}],"step":"s1"},"ev":"recipe","recipe":"one","roles":[{"role":"A","type":"Doser","version":"^1"}]}
{"at":5,"batch":"b","bind":{"A":"N"},"ev":"start","recipe":"one"}
{"at":6,"ev":"unplug","tag":"M"}
{"at":7,"desc":{"services":[{"name":"dose"}],"type":"Doser","version":"1.0.0"},"ev":"plug","tag":"P"}
{"at":8,"ev":"unplug","tag":"N"}
{"at":9,"batch":"b","ev":"advance"}
{"at":10,"ev":"unplug","tag":"P"}
{"at":11,"desc":{"services":[{"name":"dose","procedures":[{"default":true,"number":1,"params":[{"kind":"DIntServParam","max":5000,"min":0,"name":"amount"}],"self_completing":true}]}],"type":"Doser","variables":[{"kind":"AnaView","name":"level"}],"version":"1.0.0"},"ev":"plug","tag":"M"}
{"CommandEn":4,"Mode":"Automatic","ProcedureCur":0,"Src":"External","StateCur":16,"at":12,"ev":"report","service":"dose","tag":"M"}
{"at":13,"batch":"c","bind":{"A":"M"},"ev":"start","recipe":"one"}
"#,
        output: r#"{"done":true}
{"done":true}
{"done":true}
{"done":true}
{"done":true}
{"done":true}
{"done":true}
{"batch":"b","refused":4,"rule":"Held"}
{"did":{"do":"start","procedure":1,"service":"dose","step":"s1","tag":"N"}}
{"done":true}
{"done":true}
{"done":true}
{"done":true}
{"batch":"b","bind":{"A":"N"},"log":[{"do":"start","procedure":1,"service":"dose","step":"s1","tag":"N"}],"outcome":"Running","recipe":"one"}
{"batch":"c","bind":{"A":"M"},"log":[],"outcome":"Running","recipe":"one"}
{"end":true}
"#,
    },
    Journal {
        title: "operator commands and their refusals",
        input: r#"{"at":1,"desc":{"services":[{"name":"dose","procedures":[{"default":true,"number":1,"params":[{"kind":"DIntServParam","max":5000,"min":0,"name":"amount"}],"self_completing":true}]}],"type":"Doser","variables":[{"kind":"AnaView","name":"level"}],"version":"1.0.0"},"ev":"plug","tag":"M"}
{"CommandOp":4,"at":2,"ev":"desk","service":"dose","tag":"M"}
{"CommandEn":4,"Mode":"Automatic","ProcedureCur":0,"Src":"External","StateCur":16,"at":3,"ev":"report","service":"dose","tag":"M"}
{"CommandOp":4,"at":4,"ev":"desk","service":"dose","tag":"M"}
{"CommandEn":0,"Mode":"Operator","ProcedureCur":0,"Src":"Internal","StateCur":16,"at":5,"ev":"report","service":"dose","tag":"M"}
{"CommandOp":4,"at":6,"ev":"desk","service":"dose","tag":"M"}
{"CommandEn":0,"Mode":"Operator","ProcedureCur":0,"Src":"Internal","StateCur":128,"at":7,"ev":"report","service":"dose","tag":"M"}
{"CommandEn":4,"Mode":"Operator","ProcedureCur":0,"Src":"Internal","StateCur":4,"at":8,"ev":"report","service":"dose","tag":"M"}
{"CommandOp":4,"at":9,"ev":"desk","service":"dose","tag":"M"}
"#,
        output: r#"{"done":true}
{"name":"dose","refused":23,"rule":"NotReported","tag":"M"}
{"done":true}
{"refused":30,"rule":"ModeForbids"}
{"done":true}
{"refused":32,"rule":"NotEnabled"}
{"done":true}
{"done":true}
{"refused":31,"rule":"StateForbids"}
{"end":true}
"#,
    },
];

#[test]
fn each_module_report_and_change_has_its_answer(rt: HostRuntime) -> Result<(), Fail> {
    replay_each(&rt, rt.alloc(), &MODULES)
}
