//! Batches that read modules which they don't hold, and what is left without one of them.
use super::runs::{Journal, replay_each};
use std::test::Fail;

const WATCHES: [Journal; 5] = [
    Journal {
        title: "a watched module is read and not held",
        input: r#"{"at":1,"desc":{"services":[{"name":"dose","procedures":[{"default":true,"number":1,"params":[{"kind":"DIntServParam","max":5000,"min":0,"name":"amount"}],"self_completing":true}]}],"type":"Doser","variables":[{"kind":"AnaView","name":"level"}],"version":"1.0.0"},"ev":"plug","tag":"M"}
{"at":2,"desc":{"services":[{"name":"dose","procedures":[{"default":true,"number":1,"params":[{"kind":"DIntServParam","max":5000,"min":0,"name":"amount"}],"self_completing":true}]}],"type":"Doser","variables":[{"kind":"AnaView","name":"level"}],"version":"1.0.0"},"ev":"plug","tag":"W"}
{"CommandEn":4,"Mode":"Automatic","ProcedureCur":0,"Src":"External","StateCur":16,"at":3,"ev":"report","service":"dose","tag":"M"}
{"at":4,"chart":{"sel":[{"then":{"procedure":1,"role":"A","service":"dose","step":"s1"},"when":{"op":"ge","role":"B","test":"level","value":500}}]},"ev":"recipe","recipe":"peek","roles":[{"role":"A","type":"Doser","version":"^1"},{"role":"B","type":"Doser","version":"^1"}]}
{"at":5,"batch":"b","bind":{"A":"M"},"ev":"start","recipe":"peek","watch":{"B":"W"}}
{"at":6,"ev":"unplug","tag":"W"}
{"at":7,"ev":"variable","name":"level","tag":"W","value":600}
{"at":8,"batch":"b","ev":"advance"}
{"at":9,"ev":"exchange_begin","tag":"W"}
{"at":10,"batch":"b","ev":"advance"}
{"at":11,"desc":{"services":[{"name":"dose"}],"type":"Doser","version":"1.0.0"},"ev":"exchange_end","tag":"W","ticket":1}
{"at":12,"ev":"exchange_cancel","tag":"W","ticket":1}
{"at":13,"batch":"b","ev":"abandon"}
{"at":14,"ev":"unplug","tag":"W"}
"#,
        output: r#"{"done":true}
{"done":true}
{"done":true}
{"done":true}
{"done":true}
{"batch":"b","refused":39,"rule":"Watched"}
{"done":true}
{"did":{"arm":0,"do":"chose","node":0,"values":[600]}}
{"ticket":1}
{"did":{"do":"start","procedure":1,"service":"dose","step":"s1","tag":"M"}}
{"batch":"b","missing":"level","refused":29,"rule":"HeldBack"}
{"done":true}
{"closed":"Abandoned"}
{"done":true}
{"batch":"b","bind":{"A":"M"},"log":[{"arm":0,"do":"chose","node":0,"values":[600]},{"do":"start","procedure":1,"service":"dose","step":"s1","tag":"M"}],"outcome":"Abandoned","recipe":"peek","watch":{"B":"W"}}
{"end":true}
"#,
    },
    Journal {
        title: "what is left without a watched module",
        input: r#"{"at":1,"desc":{"services":[{"name":"dose","procedures":[{"default":true,"number":1,"params":[{"kind":"DIntServParam","max":5000,"min":0,"name":"amount"}],"self_completing":true}]}],"type":"Doser","variables":[{"kind":"AnaView","name":"level"}],"version":"1.0.0"},"ev":"plug","tag":"M"}
{"CommandEn":4,"Mode":"Automatic","ProcedureCur":0,"Src":"External","StateCur":16,"at":3,"ev":"report","service":"dose","tag":"M"}
{"at":4,"chart":{"sel":[{"then":{"procedure":1,"role":"A","service":"dose","step":"s1"},"when":{"op":"ge","role":"B","test":"level","value":500}}]},"ev":"recipe","recipe":"peek","roles":[{"role":"A","type":"Doser","version":"^1"},{"role":"B","type":"Doser","version":"^1"}]}
"#,
        output: r#"{"done":true}
{"done":true}
{"done":true}
{"end":true}
"#,
    },
    Journal {
        title: "a watched role with a step is refused",
        input: r#"{"at":1,"desc":{"services":[{"name":"dose","procedures":[{"default":true,"number":1,"params":[{"kind":"DIntServParam","max":5000,"min":0,"name":"amount"}],"self_completing":true}]}],"type":"Doser","variables":[{"kind":"AnaView","name":"level"}],"version":"1.0.0"},"ev":"plug","tag":"M"}
{"at":2,"desc":{"services":[{"name":"dose","procedures":[{"default":true,"number":1,"params":[{"kind":"DIntServParam","max":5000,"min":0,"name":"amount"}],"self_completing":true}]}],"type":"Doser","variables":[{"kind":"AnaView","name":"level"}],"version":"1.0.0"},"ev":"plug","tag":"W"}
{"at":3,"chart":{"seq":[{"procedure":1,"role":"A","service":"dose","step":"s1"},{"procedure":1,"role":"B","service":"dose","step":"s2"}]},"ev":"recipe","recipe":"two","roles":[{"role":"A","type":"Doser","version":"^1"},{"role":"B","type":"Doser","version":"^1"}]}
{"at":4,"batch":"b","bind":{"A":"M"},"ev":"start","recipe":"two","watch":{"B":"W"}}
"#,
        output: r#"{"done":true}
{"done":true}
{"done":true}
{"refused":40,"role":"B","rule":"WatchedStep"}
{"end":true}
"#,
    },
    Journal {
        title: "two batches read a tank that a third fills",
        input: r#"{"at":1,"desc":{"services":[{"name":"dose","procedures":[{"default":true,"number":1,"params":[{"kind":"DIntServParam","max":5000,"min":0,"name":"amount"}],"self_completing":true}]}],"type":"Doser","variables":[{"kind":"AnaView","name":"level"}],"version":"1.0.0"},"ev":"plug","tag":"P"}
{"at":2,"desc":{"services":[{"name":"dose","procedures":[{"default":true,"number":1,"params":[{"kind":"DIntServParam","max":5000,"min":0,"name":"amount"}],"self_completing":true}]}],"type":"Doser","variables":[{"kind":"AnaView","name":"level"}],"version":"1.0.0"},"ev":"plug","tag":"Q"}
{"at":3,"desc":{"services":[{"name":"dose","procedures":[{"default":true,"number":1,"params":[{"kind":"DIntServParam","max":5000,"min":0,"name":"amount"}],"self_completing":true}]}],"type":"Doser","variables":[{"kind":"AnaView","name":"level"}],"version":"1.0.0"},"ev":"plug","tag":"T"}
{"CommandEn":4,"Mode":"Automatic","ProcedureCur":0,"Src":"External","StateCur":16,"at":4,"ev":"report","service":"dose","tag":"P"}
{"CommandEn":4,"Mode":"Automatic","ProcedureCur":0,"Src":"External","StateCur":16,"at":5,"ev":"report","service":"dose","tag":"Q"}
{"CommandEn":4,"Mode":"Automatic","ProcedureCur":0,"Src":"External","StateCur":16,"at":6,"ev":"report","service":"dose","tag":"T"}
{"at":7,"chart":{"procedure":1,"role":"A","service":"dose","settings":[{"name":"amount","value":1500}],"step":"s1"},"ev":"recipe","recipe":"one","roles":[{"role":"A","type":"Doser","version":"^1"}]}
{"at":8,"chart":{"sel":[{"then":{"procedure":1,"role":"A","service":"dose","step":"s1"},"when":{"op":"ge","role":"B","test":"level","value":500}}]},"ev":"recipe","recipe":"peek","roles":[{"role":"A","type":"Doser","version":"^1"},{"role":"B","type":"Doser","version":"^1"}]}
{"at":9,"batch":"p","bind":{"A":"P"},"ev":"start","recipe":"peek","watch":{"B":"T"}}
{"at":10,"batch":"q","bind":{"A":"Q"},"ev":"start","recipe":"peek","watch":{"B":"T"}}
{"at":11,"batch":"f","bind":{"A":"T"},"ev":"start","recipe":"one"}
{"at":12,"ev":"variable","name":"level","tag":"T","value":400}
{"at":13,"batch":"p","ev":"advance"}
{"at":14,"ev":"variable","name":"level","tag":"T","value":600}
{"at":15,"batch":"p","ev":"advance"}
{"at":16,"batch":"q","ev":"advance"}
{"at":17,"ev":"unplug","tag":"T"}
{"at":18,"ev":"exchange_begin","tag":"T"}
{"at":19,"desc":{"services":[{"name":"dose"}],"type":"Doser","version":"1.1.0"},"ev":"exchange_end","tag":"T","ticket":1}
{"at":20,"desc":{"services":[{"name":"dose","procedures":[{"default":true,"number":1,"params":[{"kind":"DIntServParam","max":5000,"min":0,"name":"amount"}],"self_completing":true}]}],"type":"Doser","version":"1.1.0"},"ev":"exchange_end","tag":"T","ticket":1}
{"at":21,"batch":"p","ev":"abandon"}
{"at":22,"desc":{"services":[{"name":"dose","procedures":[{"default":true,"number":1,"params":[{"kind":"DIntServParam","max":5000,"min":0,"name":"amount"}],"self_completing":true}]}],"type":"Doser","version":"1.1.0"},"ev":"exchange_end","tag":"T","ticket":1}
{"at":23,"ev":"exchange_cancel","tag":"T","ticket":1}
{"at":24,"batch":"f","ev":"abandon"}
{"at":25,"ev":"unplug","tag":"T"}
{"at":26,"batch":"q","ev":"abandon"}
{"at":27,"ev":"unplug","tag":"T"}
"#,
        output: r#"{"done":true}
{"done":true}
{"done":true}
{"done":true}
{"done":true}
{"done":true}
{"done":true}
{"done":true}
{"done":true}
{"done":true}
{"done":true}
{"done":true}
{"node":0,"wait":"NoArm"}
{"done":true}
{"did":{"arm":0,"do":"chose","node":0,"values":[600]}}
{"did":{"arm":0,"do":"chose","node":0,"values":[600]}}
{"batch":"f","refused":4,"rule":"Held"}
{"ticket":1}
{"batch":"f","missing":"s1","refused":29,"rule":"HeldBack"}
{"batch":"p","missing":"level","refused":29,"rule":"HeldBack"}
{"closed":"Abandoned"}
{"batch":"q","missing":"level","refused":29,"rule":"HeldBack"}
{"done":true}
{"closed":"Abandoned"}
{"batch":"q","refused":39,"rule":"Watched"}
{"closed":"Abandoned"}
{"done":true}
{"batch":"p","bind":{"A":"P"},"log":[{"arm":0,"do":"chose","node":0,"values":[600]}],"outcome":"Abandoned","recipe":"peek","watch":{"B":"T"}}
{"batch":"q","bind":{"A":"Q"},"log":[{"arm":0,"do":"chose","node":0,"values":[600]}],"outcome":"Abandoned","recipe":"peek","watch":{"B":"T"}}
{"batch":"f","bind":{"A":"T"},"log":[],"outcome":"Abandoned","recipe":"one"}
{"end":true}
"#,
    },
    Journal {
        title: "the same without one reader's module",
        input: r#"{"at":1,"desc":{"services":[{"name":"dose","procedures":[{"default":true,"number":1,"params":[{"kind":"DIntServParam","max":5000,"min":0,"name":"amount"}],"self_completing":true}]}],"type":"Doser","variables":[{"kind":"AnaView","name":"level"}],"version":"1.0.0"},"ev":"plug","tag":"P"}
{"at":3,"desc":{"services":[{"name":"dose","procedures":[{"default":true,"number":1,"params":[{"kind":"DIntServParam","max":5000,"min":0,"name":"amount"}],"self_completing":true}]}],"type":"Doser","variables":[{"kind":"AnaView","name":"level"}],"version":"1.0.0"},"ev":"plug","tag":"T"}
{"CommandEn":4,"Mode":"Automatic","ProcedureCur":0,"Src":"External","StateCur":16,"at":4,"ev":"report","service":"dose","tag":"P"}
{"CommandEn":4,"Mode":"Automatic","ProcedureCur":0,"Src":"External","StateCur":16,"at":6,"ev":"report","service":"dose","tag":"T"}
{"at":7,"chart":{"procedure":1,"role":"A","service":"dose","settings":[{"name":"amount","value":1500}],"step":"s1"},"ev":"recipe","recipe":"one","roles":[{"role":"A","type":"Doser","version":"^1"}]}
{"at":8,"chart":{"sel":[{"then":{"procedure":1,"role":"A","service":"dose","step":"s1"},"when":{"op":"ge","role":"B","test":"level","value":500}}]},"ev":"recipe","recipe":"peek","roles":[{"role":"A","type":"Doser","version":"^1"},{"role":"B","type":"Doser","version":"^1"}]}
{"at":9,"batch":"p","bind":{"A":"P"},"ev":"start","recipe":"peek","watch":{"B":"T"}}
{"at":11,"batch":"f","bind":{"A":"T"},"ev":"start","recipe":"one"}
{"at":12,"ev":"variable","name":"level","tag":"T","value":400}
{"at":13,"batch":"p","ev":"advance"}
{"at":14,"ev":"variable","name":"level","tag":"T","value":600}
{"at":15,"batch":"p","ev":"advance"}
{"at":18,"ev":"exchange_begin","tag":"T"}
{"at":21,"batch":"p","ev":"abandon"}
{"at":23,"ev":"exchange_cancel","tag":"T","ticket":1}
{"at":24,"batch":"f","ev":"abandon"}
{"at":27,"ev":"unplug","tag":"T"}
"#,
        output: r#"{"done":true}
{"done":true}
{"done":true}
{"done":true}
{"done":true}
{"done":true}
{"done":true}
{"done":true}
{"done":true}
{"node":0,"wait":"NoArm"}
{"done":true}
{"did":{"arm":0,"do":"chose","node":0,"values":[600]}}
{"ticket":1}
{"closed":"Abandoned"}
{"done":true}
{"closed":"Abandoned"}
{"done":true}
{"batch":"p","bind":{"A":"P"},"log":[{"arm":0,"do":"chose","node":0,"values":[600]}],"outcome":"Abandoned","recipe":"peek","watch":{"B":"T"}}
{"batch":"f","bind":{"A":"T"},"log":[],"outcome":"Abandoned","recipe":"one"}
{"end":true}
"#,
    },
];

#[test]
fn each_batch_that_watches_has_its_answers(rt: HostRuntime) -> Result<(), Fail> {
    replay_each(&rt, rt.alloc(), &WATCHES)
}
