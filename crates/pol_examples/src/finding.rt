//! Bindings that the job find tells, and shortages.
use super::runs::{Journal, run_each};
use std::test::Fail;

const FINDS: [Journal; 3] = [
    Journal {
        title: "find the least bindings",
        input: r#"{"at":1,"desc":{"services":[{"name":"dose","procedures":[{"default":true,"number":1,"params":[{"kind":"DIntServParam","max":5000,"min":0,"name":"amount"}],"self_completing":true}]}],"type":"Doser","variables":[{"kind":"AnaView","name":"level"}],"version":"1.0.0"},"ev":"plug","tag":"M"}
{"at":2,"desc":{"services":[{"name":"dose","procedures":[{"default":true,"number":1,"params":[{"kind":"DIntServParam","max":5000,"min":0,"name":"amount"}],"self_completing":true}]}],"type":"Doser","variables":[{"kind":"AnaView","name":"level"}],"version":"1.0.0"},"ev":"plug","tag":"N"}
{"CommandEn":4,"Mode":"Automatic","ProcedureCur":0,"Src":"External","StateCur":16,"at":3,"ev":"report","service":"dose","tag":"M"}
{"CommandEn":4,"Mode":"Automatic","ProcedureCur":0,"Src":"External","StateCur":16,"at":4,"ev":"report","service":"dose","tag":"N"}
{"at":5,"chart":{"procedure":1,"role":"A","service":"dose","settings":[{"name":"amount","value":1500}],"step":"s1"},"ev":"recipe","recipe":"one","roles":[{"role":"A","type":"Doser","version":"^1"}]}
{"at":6,"chart":{"seq":[{"procedure":1,"role":"A","service":"dose","step":"s1"},{"procedure":1,"role":"B","service":"dose","step":"s2"}]},"ev":"recipe","recipe":"two","roles":[{"role":"A","type":"Doser","version":"^1"},{"role":"B","type":"Doser","version":"^1"}]}
"#,
        output: r#"{"bind":{"A":"M"},"recipe":"one"}
{"bind":{"A":"M","B":"N"},"recipe":"two"}
{"bad":0,"end":true}
"#,
    },
    Journal {
        title: "find a shortage",
        input: r#"{"at":1,"desc":{"services":[{"name":"dose","procedures":[{"default":true,"number":1,"params":[{"kind":"DIntServParam","max":5000,"min":0,"name":"amount"}],"self_completing":true}]}],"type":"Doser","variables":[{"kind":"AnaView","name":"level"}],"version":"1.0.0"},"ev":"plug","tag":"M"}
{"CommandEn":4,"Mode":"Automatic","ProcedureCur":0,"Src":"External","StateCur":16,"at":3,"ev":"report","service":"dose","tag":"M"}
{"at":5,"chart":{"procedure":1,"role":"A","service":"dose","settings":[{"name":"amount","value":1500}],"step":"s1"},"ev":"recipe","recipe":"one","roles":[{"role":"A","type":"Doser","version":"^1"}]}
{"at":6,"chart":{"seq":[{"procedure":1,"role":"A","service":"dose","step":"s1"},{"procedure":1,"role":"B","service":"dose","step":"s2"}]},"ev":"recipe","recipe":"two","roles":[{"role":"A","type":"Doser","version":"^1"},{"role":"B","type":"Doser","version":"^1"}]}
"#,
        output: r#"{"bind":{"A":"M"},"recipe":"one"}
{"recipe":"two","short":["A","B"],"tags":["M"]}
{"bad":0,"end":true}
"#,
    },
    Journal {
        title: "find leaves a module to the role that needs it",
        input: r#"{"at":1,"desc":{"services":[{"name":"dose","procedures":[{"default":true,"number":1,"params":[{"kind":"DIntServParam","max":5000,"min":0,"name":"amount"}],"self_completing":true}]}],"type":"Doser","variables":[{"kind":"AnaView","name":"level"}],"version":"1.0.0"},"ev":"plug","tag":"M"}
{"at":2,"desc":{"services":[{"name":"dose","procedures":[{"default":true,"number":1,"params":[{"kind":"DIntServParam","max":5000,"min":0,"name":"amount"}],"self_completing":true}]}],"type":"Doser","variables":[{"kind":"AnaView","name":"level"}],"version":"1.1.0"},"ev":"plug","tag":"N"}
{"CommandEn":4,"Mode":"Automatic","ProcedureCur":0,"Src":"External","StateCur":16,"at":3,"ev":"report","service":"dose","tag":"M"}
{"CommandEn":4,"Mode":"Automatic","ProcedureCur":0,"Src":"External","StateCur":16,"at":4,"ev":"report","service":"dose","tag":"N"}
{"at":5,"chart":{"seq":[{"procedure":1,"role":"A","service":"dose","step":"s1"},{"procedure":1,"role":"B","service":"dose","step":"s2"}]},"ev":"recipe","recipe":"two","roles":[{"role":"A","type":"Doser","version":"^1"},{"role":"B","type":"Doser","version":"=1.0.0"}]}
"#,
        output: r#"{"bind":{"A":"N","B":"M"},"recipe":"two"}
{"bad":0,"end":true}
"#,
    },
];

#[test]
fn a_recipe_has_its_least_binding_or_a_shortage(rt: HostRuntime) -> Result<(), Fail> {
    run_each(&rt, rt.alloc(), "pol --job find", &FINDS)
}
