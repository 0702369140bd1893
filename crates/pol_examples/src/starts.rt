//! Recipes and starts, and why they are refused.
use super::runs::{Journal, replay_each};
use std::test::Fail;

const STARTS: [Journal; 6] = [
    Journal {
        title: "two steps of one name are a bad chart",
        input: r#"{"at":1,"chart":{"seq":[{"procedure":1,"role":"A","service":"dose","step":"s1"},{"procedure":1,"role":"B","service":"dose","step":"s1"}]},"ev":"recipe","recipe":"two","roles":[{"role":"A","type":"Doser","version":"^1"},{"role":"B","type":"Doser","version":"^1"}]}
"#,
        output: r#"{"bad":"BadChart","fault":"StepTwice","node":2}
{"end":true}
"#,
    },
    Journal {
        title: "charts that are not valid",
        input: r#"{"at":1,"chart":{"seq":[{"loop":{"procedure":1,"role":"A","service":"dose","settings":[{"name":"amount","value":1500}],"step":"fill"},"until":{"op":"ge","role":"A","test":"level","value":1500}},{"par":[{"finish":{"op":"ge","role":"B","test":"temp","value":60},"procedure":1,"role":"B","service":"stir","step":"stir"},{"procedure":1,"role":"B","service":"heat","step":"heat"}]}]},"ev":"recipe","recipe":"mix","roles":[{"role":"A","type":"Doser","version":"^1"},{"role":"B","type":"Mixer","version":"^2"}]}
{"at":2,"chart":{"seq":[{"procedure":1,"role":"A","service":"dose","step":"s1"},{"procedure":1,"role":"B","service":"dose","step":"s1"}]},"ev":"recipe","recipe":"twice","roles":[{"role":"A","type":"Doser","version":"^1"},{"role":"B","type":"Doser","version":"^1"}]}
{"at":3,"chart":{"par":[{"procedure":1,"role":"A","service":"dose","step":"s1"},{"procedure":1,"role":"A","service":"dose","step":"s2"}]},"ev":"recipe","recipe":"branches","roles":[{"role":"A","type":"Doser","version":"^1"}]}
{"at":4,"chart":{"seq":[{"seq":[{"seq":[{"seq":[{"seq":[{"seq":[{"seq":[{"seq":[{"seq":[{"seq":[{"seq":[{"seq":[{"seq":[{"seq":[{"seq":[{"seq":[{"procedure":1,"role":"A","service":"dose","step":"s1"}]}]}]}]}]}]}]}]}]}]}]}]}]}]}]}]},"ev":"recipe","recipe":"deep","roles":[{"role":"A","type":"Doser","version":"^1"}]}
"#,
        output: r#"{"done":true}
{"bad":"BadChart","fault":"StepTwice","node":2}
{"bad":"BadChart","fault":"SameService","node":2}
{"bad":"BadChart","fault":"TooDeep","node":16}
{"end":true}
"#,
    },
    Journal {
        title: "refused starts without an advance",
        input: r#"{"at":1,"desc":{"services":[{"name":"dose","procedures":[{"default":true,"number":1,"params":[{"kind":"DIntServParam","max":5000,"min":0,"name":"amount"}],"self_completing":true}]}],"type":"Doser","variables":[{"kind":"AnaView","name":"level"}],"version":"1.0.0"},"ev":"plug","tag":"M"}
{"at":2,"desc":{"services":[{"name":"stir"},{"name":"heat","procedures":[{"default":true,"number":1,"self_completing":true}]}],"type":"Mixer","variables":[{"kind":"DIntView","name":"temp"}],"version":"2.0.0"},"ev":"plug","tag":"N"}
{"at":3,"desc":{"services":[{"name":"dose","procedures":[{"default":true,"number":2,"params":[{"kind":"DIntServParam","max":5000,"min":0,"name":"amount"}],"self_completing":true}]}],"type":"Doser","variables":[{"kind":"AnaView","name":"level"}],"version":"1.2.0"},"ev":"plug","tag":"P"}
{"at":4,"chart":{"procedure":1,"role":"A","service":"dose","settings":[{"name":"amount","value":1500}],"step":"s1"},"ev":"recipe","recipe":"one","roles":[{"role":"A","type":"Doser","version":"^1"}]}
{"at":5,"chart":{"seq":[{"procedure":1,"role":"A","service":"dose","step":"s1"},{"procedure":1,"role":"B","service":"dose","step":"s2"}]},"ev":"recipe","recipe":"two","roles":[{"role":"A","type":"Doser","version":"^1"},{"role":"B","type":"Doser","version":"^1"}]}
{"at":6,"batch":"b","bind":{"A":"M"},"ev":"start","recipe":"nope"}
{"at":7,"batch":"b","bind":{},"ev":"start","recipe":"one"}
{"at":8,"batch":"b","bind":{"A":"M","Z":"N"},"ev":"start","recipe":"one"}
{"at":9,"batch":"b","bind":{"A":"M","B":"M"},"ev":"start","recipe":"two"}
{"at":10,"batch":"b","bind":{"A":"Q"},"ev":"start","recipe":"one"}
{"at":11,"batch":"b","bind":{"A":"N"},"ev":"start","recipe":"one"}
{"at":12,"batch":"b","bind":{"A":"P"},"ev":"start","recipe":"one"}
{"at":13,"batch":"b","bind":{"A":"M"},"ev":"start","recipe":"one"}
{"CommandEn":0,"Mode":"Automatic","ProcedureCur":0,"Src":"External","StateCur":8,"at":14,"ev":"report","service":"dose","tag":"M"}
{"at":15,"batch":"b","bind":{"A":"M"},"ev":"start","recipe":"one"}
{"at":17,"chart":{"procedure":1,"role":"A","service":"dose","settings":[{"name":"amount","value":1500}],"step":"s1"},"ev":"recipe","recipe":"one","roles":[{"role":"A","type":"Doser","version":"^1"}]}
"#,
        output: r#"{"done":true}
{"done":true}
{"done":true}
{"done":true}
{"done":true}
{"refused":13,"rule":"NoRecipe"}
{"refused":17,"role":"A","rule":"RoleUnbound"}
{"refused":18,"role":"Z","rule":"RoleUnknown"}
{"refused":19,"rule":"OneModuleTwice","tag":"M"}
{"refused":2,"rule":"NoModule","tag":"Q"}
{"refused":20,"role":"A","rule":"WrongType"}
{"missing":"s1","refused":22,"rule":"NotCovered"}
{"name":"dose","refused":23,"rule":"NotReported","tag":"M"}
{"done":true}
{"refused":24,"rule":"NotIdle","service":"dose","state":8,"tag":"M"}
{"refused":12,"rule":"RecipeKnown"}
{"end":true}
"#,
    },
    Journal {
        title: "refused starts",
        input: r#"{"at":1,"desc":{"services":[{"name":"dose","procedures":[{"default":true,"number":1,"params":[{"kind":"DIntServParam","max":5000,"min":0,"name":"amount"}],"self_completing":true}]}],"type":"Doser","variables":[{"kind":"AnaView","name":"level"}],"version":"1.0.0"},"ev":"plug","tag":"M"}
{"at":2,"desc":{"services":[{"name":"stir"},{"name":"heat","procedures":[{"default":true,"number":1,"self_completing":true}]}],"type":"Mixer","variables":[{"kind":"DIntView","name":"temp"}],"version":"2.0.0"},"ev":"plug","tag":"N"}
{"at":3,"desc":{"services":[{"name":"dose","procedures":[{"default":true,"number":2,"params":[{"kind":"DIntServParam","max":5000,"min":0,"name":"amount"}],"self_completing":true}]}],"type":"Doser","variables":[{"kind":"AnaView","name":"level"}],"version":"1.2.0"},"ev":"plug","tag":"P"}
{"at":4,"chart":{"procedure":1,"role":"A","service":"dose","settings":[{"name":"amount","value":1500}],"step":"s1"},"ev":"recipe","recipe":"one","roles":[{"role":"A","type":"Doser","version":"^1"}]}
{"at":5,"chart":{"seq":[{"procedure":1,"role":"A","service":"dose","step":"s1"},{"procedure":1,"role":"B","service":"dose","step":"s2"}]},"ev":"recipe","recipe":"two","roles":[{"role":"A","type":"Doser","version":"^1"},{"role":"B","type":"Doser","version":"^1"}]}
{"at":6,"batch":"b","bind":{"A":"M"},"ev":"start","recipe":"nope"}
{"at":7,"batch":"b","bind":{},"ev":"start","recipe":"one"}
{"at":8,"batch":"b","bind":{"A":"M","Z":"N"},"ev":"start","recipe":"one"}
{"at":9,"batch":"b","bind":{"A":"M","B":"M"},"ev":"start","recipe":"two"}
{"at":10,"batch":"b","bind":{"A":"Q"},"ev":"start","recipe":"one"}
{"at":11,"batch":"b","bind":{"A":"N"},"ev":"start","recipe":"one"}
{"at":12,"batch":"b","bind":{"A":"P"},"ev":"start","recipe":"one"}
{"at":13,"batch":"b","bind":{"A":"M"},"ev":"start","recipe":"one"}
{"CommandEn":0,"Mode":"Automatic","ProcedureCur":0,"Src":"External","StateCur":8,"at":14,"ev":"report","service":"dose","tag":"M"}
{"at":15,"batch":"b","bind":{"A":"M"},"ev":"start","recipe":"one"}
{"at":16,"batch":"b","ev":"advance"}
{"at":17,"chart":{"procedure":1,"role":"A","service":"dose","settings":[{"name":"amount","value":1500}],"step":"s1"},"ev":"recipe","recipe":"one","roles":[{"role":"A","type":"Doser","version":"^1"}]}
"#,
        output: r#"{"done":true}
{"done":true}
{"done":true}
{"done":true}
{"done":true}
{"refused":13,"rule":"NoRecipe"}
{"refused":17,"role":"A","rule":"RoleUnbound"}
{"refused":18,"role":"Z","rule":"RoleUnknown"}
{"refused":19,"rule":"OneModuleTwice","tag":"M"}
{"refused":2,"rule":"NoModule","tag":"Q"}
{"refused":20,"role":"A","rule":"WrongType"}
{"missing":"s1","refused":22,"rule":"NotCovered"}
{"name":"dose","refused":23,"rule":"NotReported","tag":"M"}
{"done":true}
{"refused":24,"rule":"NotIdle","service":"dose","state":8,"tag":"M"}
{"refused":15,"rule":"NoBatch"}
{"refused":12,"rule":"RecipeKnown"}
{"end":true}
"#,
    },
    Journal {
        title: "a start holds all modules or none",
        input: r#"{"at":1,"desc":{"services":[{"name":"dose","procedures":[{"default":true,"number":1,"params":[{"kind":"DIntServParam","max":5000,"min":0,"name":"amount"}],"self_completing":true}]}],"type":"Doser","variables":[{"kind":"AnaView","name":"level"}],"version":"1.0.0"},"ev":"plug","tag":"M"}
{"at":2,"desc":{"services":[{"name":"dose","procedures":[{"default":true,"number":1,"params":[{"kind":"DIntServParam","max":5000,"min":0,"name":"amount"}],"self_completing":true}]}],"type":"Doser","variables":[{"kind":"AnaView","name":"level"}],"version":"1.0.0"},"ev":"plug","tag":"N"}
{"CommandEn":4,"Mode":"Automatic","ProcedureCur":0,"Src":"External","StateCur":16,"at":3,"ev":"report","service":"dose","tag":"M"}
{"CommandEn":4,"Mode":"Automatic","ProcedureCur":0,"Src":"External","StateCur":16,"at":4,"ev":"report","service":"dose","tag":"N"}
{"at":5,"chart":{"procedure":1,"role":"A","service":"dose","settings":[{"name":"amount","value":1500}],"step":"s1"},"ev":"recipe","recipe":"one","roles":[{"role":"A","type":"Doser","version":"^1"}]}
{"at":6,"chart":{"seq":[{"procedure":1,"role":"A","service":"dose","step":"s1"},{"procedure":1,"role":"B","service":"dose","step":"s2"}]},"ev":"recipe","recipe":"two","roles":[{"role":"A","type":"Doser","version":"^1"},{"role":"B","type":"Doser","version":"^1"}]}
{"at":7,"batch":"r1","bind":{"A":"N"},"ev":"start","recipe":"one"}
{"at":8,"batch":"r2","bind":{"A":"M","B":"N"},"ev":"start","recipe":"two"}
{"at":9,"batch":"r3","bind":{"A":"M"},"ev":"start","recipe":"one"}
"#,
        output: r#"{"done":true}
{"done":true}
{"done":true}
{"done":true}
{"done":true}
{"done":true}
{"done":true}
{"batch":"r1","refused":25,"rule":"Busy","tag":"N"}
{"done":true}
{"batch":"r1","bind":{"A":"N"},"log":[],"outcome":"Running","recipe":"one"}
{"batch":"r3","bind":{"A":"M"},"log":[],"outcome":"Running","recipe":"one"}
{"end":true}
"#,
    },
    Journal {
        title: "a start holds all modules or none, without one module",
        input: r#"{"at":2,"desc":{"services":[{"name":"dose","procedures":[{"default":true,"number":1,"params":[{"kind":"DIntServParam","max":5000,"min":0,"name":"amount"}],"self_completing":true}]}],"type":"Doser","variables":[{"kind":"AnaView","name":"level"}],"version":"1.0.0"},"ev":"plug","tag":"N"}
{"CommandEn":4,"Mode":"Automatic","ProcedureCur":0,"Src":"External","StateCur":16,"at":4,"ev":"report","service":"dose","tag":"N"}
{"at":5,"chart":{"procedure":1,"role":"A","service":"dose","settings":[{"name":"amount","value":1500}],"step":"s1"},"ev":"recipe","recipe":"one","roles":[{"role":"A","type":"Doser","version":"^1"}]}
{"at":6,"chart":{"seq":[{"procedure":1,"role":"A","service":"dose","step":"s1"},{"procedure":1,"role":"B","service":"dose","step":"s2"}]},"ev":"recipe","recipe":"two","roles":[{"role":"A","type":"Doser","version":"^1"},{"role":"B","type":"Doser","version":"^1"}]}
{"at":7,"batch":"r1","bind":{"A":"N"},"ev":"start","recipe":"one"}
"#,
        output: r#"{"done":true}
{"done":true}
{"done":true}
{"done":true}
{"done":true}
{"batch":"r1","bind":{"A":"N"},"log":[],"outcome":"Running","recipe":"one"}
{"end":true}
"#,
    },
];

#[test]
fn each_recipe_and_start_has_its_answer(rt: HostRuntime) -> Result<(), Fail> {
    replay_each(&rt, rt.alloc(), &STARTS)
}
