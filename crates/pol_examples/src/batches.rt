//! Batches on their way from start to end.
use super::runs::{Journal, replay_each};
use std::test::Fail;

/// A batch of dosing and mixing: a loop that turns once, then two parallel steps.
pub const DOSING_AND_MIXING: Journal = Journal {
    title: "dosing and mixing",
    input: r#"{"at":1,"desc":{"services":[{"name":"dose","procedures":[{"default":true,"number":1,"params":[{"kind":"DIntServParam","max":5000,"min":0,"name":"amount"}],"self_completing":true}]}],"type":"Doser","variables":[{"kind":"AnaView","name":"level"}],"version":"1.0.0"},"ev":"plug","tag":"M1"}
{"at":2,"desc":{"services":[{"name":"stir"},{"name":"heat","procedures":[{"default":true,"number":1,"self_completing":true}]}],"type":"Mixer","variables":[{"kind":"DIntView","name":"temp"}],"version":"2.0.0"},"ev":"plug","tag":"M2"}
{"CommandEn":4,"Mode":"Automatic","ProcedureCur":0,"Src":"External","StateCur":16,"at":3,"ev":"report","service":"dose","tag":"M1"}
{"CommandEn":4,"Mode":"Automatic","ProcedureCur":0,"Src":"External","StateCur":16,"at":4,"ev":"report","service":"stir","tag":"M2"}
{"CommandEn":4,"Mode":"Automatic","ProcedureCur":0,"Src":"External","StateCur":16,"at":5,"ev":"report","service":"heat","tag":"M2"}
{"at":6,"chart":{"seq":[{"loop":{"procedure":1,"role":"A","service":"dose","settings":[{"name":"amount","value":1500}],"step":"fill"},"until":{"op":"ge","role":"A","test":"level","value":1500}},{"par":[{"finish":{"op":"ge","role":"B","test":"temp","value":60},"procedure":1,"role":"B","service":"stir","step":"stir"},{"procedure":1,"role":"B","service":"heat","step":"heat"}]}]},"ev":"recipe","recipe":"mix","roles":[{"role":"A","type":"Doser","version":"^1"},{"role":"B","type":"Mixer","version":"^2"}]}
{"at":7,"batch":"b1","bind":{"A":"M1","B":"M2"},"ev":"start","recipe":"mix"}
{"at":8,"batch":"b1","ev":"advance"}
{"CommandEn":0,"Mode":"Automatic","ProcedureCur":0,"Src":"External","StateCur":8,"at":9,"ev":"report","service":"dose","tag":"M1"}
{"CommandEn":0,"Mode":"Automatic","ProcedureCur":0,"Src":"External","StateCur":64,"at":10,"ev":"report","service":"dose","tag":"M1"}
{"CommandEn":0,"Mode":"Automatic","ProcedureCur":0,"Src":"External","StateCur":65536,"at":11,"ev":"report","service":"dose","tag":"M1"}
{"CommandEn":2,"Mode":"Automatic","ProcedureCur":0,"Src":"External","StateCur":131072,"at":12,"ev":"report","service":"dose","tag":"M1"}
{"at":13,"batch":"b1","ev":"advance"}
{"CommandEn":0,"Mode":"Automatic","ProcedureCur":0,"Src":"External","StateCur":32768,"at":14,"ev":"report","service":"dose","tag":"M1"}
{"CommandEn":4,"Mode":"Automatic","ProcedureCur":0,"Src":"External","StateCur":16,"at":15,"ev":"report","service":"dose","tag":"M1"}
{"at":16,"batch":"b1","ev":"advance"}
{"at":17,"batch":"b1","ev":"advance"}
{"at":18,"ev":"variable","name":"level","tag":"M1","value":800}
{"at":19,"batch":"b1","ev":"advance"}
{"at":20,"batch":"b1","ev":"advance"}
{"CommandEn":0,"Mode":"Automatic","ProcedureCur":0,"Src":"External","StateCur":8,"at":21,"ev":"report","service":"dose","tag":"M1"}
{"CommandEn":0,"Mode":"Automatic","ProcedureCur":0,"Src":"External","StateCur":64,"at":22,"ev":"report","service":"dose","tag":"M1"}
{"CommandEn":0,"Mode":"Automatic","ProcedureCur":0,"Src":"External","StateCur":65536,"at":23,"ev":"report","service":"dose","tag":"M1"}
{"CommandEn":2,"Mode":"Automatic","ProcedureCur":0,"Src":"External","StateCur":131072,"at":24,"ev":"report","service":"dose","tag":"M1"}
{"at":25,"batch":"b1","ev":"advance"}
{"CommandEn":0,"Mode":"Automatic","ProcedureCur":0,"Src":"External","StateCur":32768,"at":26,"ev":"report","service":"dose","tag":"M1"}
{"CommandEn":4,"Mode":"Automatic","ProcedureCur":0,"Src":"External","StateCur":16,"at":27,"ev":"report","service":"dose","tag":"M1"}
{"at":28,"batch":"b1","ev":"advance"}
{"at":29,"ev":"variable","name":"level","tag":"M1","value":1500}
{"at":30,"batch":"b1","ev":"advance"}
{"at":31,"batch":"b1","ev":"advance"}
{"at":32,"batch":"b1","ev":"advance"}
{"at":33,"batch":"b1","ev":"advance"}
{"CommandEn":0,"Mode":"Automatic","ProcedureCur":0,"Src":"External","StateCur":8,"at":34,"ev":"report","service":"stir","tag":"M2"}
{"CommandEn":1024,"Mode":"Automatic","ProcedureCur":0,"Src":"External","StateCur":64,"at":35,"ev":"report","service":"stir","tag":"M2"}
{"at":36,"ev":"variable","name":"temp","tag":"M2","value":59}
{"at":37,"batch":"b1","ev":"advance"}
{"CommandEn":0,"Mode":"Automatic","ProcedureCur":0,"Src":"External","StateCur":8,"at":38,"ev":"report","service":"heat","tag":"M2"}
{"CommandEn":0,"Mode":"Automatic","ProcedureCur":0,"Src":"External","StateCur":64,"at":39,"ev":"report","service":"heat","tag":"M2"}
{"CommandEn":0,"Mode":"Automatic","ProcedureCur":0,"Src":"External","StateCur":65536,"at":40,"ev":"report","service":"heat","tag":"M2"}
{"CommandEn":2,"Mode":"Automatic","ProcedureCur":0,"Src":"External","StateCur":131072,"at":41,"ev":"report","service":"heat","tag":"M2"}
{"at":42,"batch":"b1","ev":"advance"}
{"at":43,"ev":"variable","name":"temp","tag":"M2","value":60}
{"at":44,"batch":"b1","ev":"advance"}
{"CommandEn":0,"Mode":"Automatic","ProcedureCur":0,"Src":"External","StateCur":65536,"at":45,"ev":"report","service":"stir","tag":"M2"}
{"CommandEn":2,"Mode":"Automatic","ProcedureCur":0,"Src":"External","StateCur":131072,"at":46,"ev":"report","service":"stir","tag":"M2"}
{"at":47,"batch":"b1","ev":"advance"}
{"CommandEn":0,"Mode":"Automatic","ProcedureCur":0,"Src":"External","StateCur":32768,"at":48,"ev":"report","service":"stir","tag":"M2"}
{"CommandEn":4,"Mode":"Automatic","ProcedureCur":0,"Src":"External","StateCur":16,"at":49,"ev":"report","service":"stir","tag":"M2"}
{"CommandEn":0,"Mode":"Automatic","ProcedureCur":0,"Src":"External","StateCur":32768,"at":50,"ev":"report","service":"heat","tag":"M2"}
{"CommandEn":4,"Mode":"Automatic","ProcedureCur":0,"Src":"External","StateCur":16,"at":51,"ev":"report","service":"heat","tag":"M2"}
{"at":52,"batch":"b1","ev":"advance"}
{"at":53,"batch":"b1","ev":"advance"}
{"at":54,"batch":"b1","ev":"advance"}
"#,
    output: r#"{"done":true}
{"done":true}
{"done":true}
{"done":true}
{"done":true}
{"done":true}
{"done":true}
{"did":{"do":"start","procedure":1,"service":"dose","step":"fill","tag":"M1"}}
{"done":true}
{"done":true}
{"done":true}
{"done":true}
{"did":{"do":"reset","service":"dose","step":"fill","tag":"M1"}}
{"done":true}
{"done":true}
{"did":{"do":"end","step":"fill"}}
{"name":"level","tag":"M1","wait":"NotReported"}
{"done":true}
{"did":{"do":"turn","node":1,"values":[800]}}
{"did":{"do":"start","procedure":1,"service":"dose","step":"fill","tag":"M1"}}
{"done":true}
{"done":true}
{"done":true}
{"done":true}
{"did":{"do":"reset","service":"dose","step":"fill","tag":"M1"}}
{"done":true}
{"done":true}
{"did":{"do":"end","step":"fill"}}
{"done":true}
{"did":{"do":"leave","node":1,"values":[1500]}}
{"did":{"do":"start","procedure":1,"service":"stir","step":"stir","tag":"M2"}}
{"did":{"do":"start","procedure":1,"service":"heat","step":"heat","tag":"M2"}}
{"state":16,"step":"stir","wait":"InState"}
{"done":true}
{"done":true}
{"done":true}
{"step":"stir","wait":"Unmet"}
{"done":true}
{"done":true}
{"done":true}
{"done":true}
{"did":{"do":"reset","service":"heat","step":"heat","tag":"M2"}}
{"done":true}
{"did":{"do":"finish","service":"stir","step":"stir","tag":"M2"}}
{"done":true}
{"done":true}
{"did":{"do":"reset","service":"stir","step":"stir","tag":"M2"}}
{"done":true}
{"done":true}
{"done":true}
{"done":true}
{"did":{"do":"end","step":"stir"}}
{"did":{"do":"end","step":"heat"}}
{"closed":"Completed"}
{"batch":"b1","bind":{"A":"M1","B":"M2"},"log":[{"do":"start","procedure":1,"service":"dose","step":"fill","tag":"M1"},{"do":"reset","service":"dose","step":"fill","tag":"M1"},{"do":"end","step":"fill"},{"do":"turn","node":1,"values":[800]},{"do":"start","procedure":1,"service":"dose","step":"fill","tag":"M1"},{"do":"reset","service":"dose","step":"fill","tag":"M1"},{"do":"end","step":"fill"},{"do":"leave","node":1,"values":[1500]},{"do":"start","procedure":1,"service":"stir","step":"stir","tag":"M2"},{"do":"start","procedure":1,"service":"heat","step":"heat","tag":"M2"},{"do":"reset","service":"heat","step":"heat","tag":"M2"},{"do":"finish","service":"stir","step":"stir","tag":"M2"},{"do":"reset","service":"stir","step":"stir","tag":"M2"},{"do":"end","step":"stir"},{"do":"end","step":"heat"}],"outcome":"Completed","recipe":"mix"}
{"end":true}
"#,
};

/// A journal that freezes a batch, and stops one.
pub const FROZEN_AND_STOPPED_LINES: &str =
    r#"{"at":1,"desc":{"services":[{"name":"dose","procedures":[{"default":true,"number":1,"params":[{"kind":"DIntServParam","max":5000,"min":0,"name":"amount"}],"self_completing":true}]}],"type":"Doser","variables":[{"kind":"AnaView","name":"level"}],"version":"1.0.0"},"ev":"plug","tag":"M"}
{"CommandEn":4,"Mode":"Automatic","ProcedureCur":0,"Src":"External","StateCur":16,"at":2,"ev":"report","service":"dose","tag":"M"}
{"at":3,"chart":{"procedure":1,"role":"A","service":"dose","settings":[{"name":"amount","value":1500}],"step":"s1"},"ev":"recipe","recipe":"one","roles":[{"role":"A","type":"Doser","version":"^1"}]}
{"at":4,"batch":"b","bind":{"A":"M"},"ev":"start","recipe":"one"}
{"at":5,"batch":"b","ev":"freeze","hold":false}
{"at":6,"batch":"b","ev":"advance"}
{"at":7,"batch":"b","ev":"freeze","hold":false}
{"at":8,"batch":"b","ev":"thaw"}
{"at":9,"batch":"b","ev":"thaw"}
{"at":10,"batch":"b","ev":"advance"}
{"at":11,"batch":"b","ev":"stop"}
{"CommandEn":8,"Mode":"Automatic","ProcedureCur":0,"Src":"External","StateCur":8,"at":12,"ev":"report","service":"dose","tag":"M"}
{"at":13,"batch":"b","ev":"advance"}
{"at":14,"batch":"b","ev":"advance"}
"#;

/// A batch that is frozen, thawed and stopped.
const FROZEN_AND_STOPPED: Journal = Journal {
    title: "a frozen batch waits and a stopped one closes",
    input: FROZEN_AND_STOPPED_LINES,
    output: r#"{"done":true}
{"done":true}
{"done":true}
{"done":true}
{"done":true}
{"wait":"Frozen"}
{"refused":35,"rule":"AlreadyFrozen"}
{"done":true}
{"refused":34,"rule":"NotFrozen"}
{"did":{"do":"start","procedure":1,"service":"dose","step":"s1","tag":"M"}}
{"did":{"do":"stop_asked"}}
{"done":true}
{"did":{"do":"stop","service":"dose","step":"s1","tag":"M"}}
{"closed":"Stopped"}
{"batch":"b","bind":{"A":"M"},"log":[{"do":"start","procedure":1,"service":"dose","step":"s1","tag":"M"},{"do":"stop_asked"},{"do":"stop","service":"dose","step":"s1","tag":"M"}],"outcome":"Stopped","recipe":"one"}
{"end":true}
"#,
};

const BATCHES: [Journal; 8] = [
    DOSING_AND_MIXING,
    Journal {
        title: "a selection that no arm fits waits",
        input: r#"{"at":1,"desc":{"services":[{"name":"dose","procedures":[{"default":true,"number":1,"params":[{"kind":"DIntServParam","max":5000,"min":0,"name":"amount"}],"self_completing":true}]}],"type":"Doser","variables":[{"kind":"AnaView","name":"level"}],"version":"1.0.0"},"ev":"plug","tag":"M"}
{"CommandEn":4,"Mode":"Automatic","ProcedureCur":0,"Src":"External","StateCur":16,"at":2,"ev":"report","service":"dose","tag":"M"}
{"at":3,"chart":{"sel":[{"then":{"procedure":1,"role":"A","service":"dose","step":"s1"},"when":{"const":false}}]},"ev":"recipe","recipe":"x","roles":[{"role":"A","type":"Doser","version":"^1"}]}
{"at":4,"batch":"b","bind":{"A":"M"},"ev":"start","recipe":"x"}
{"at":5,"batch":"b","ev":"advance"}
"#,
        output: r#"{"done":true}
{"done":true}
{"done":true}
{"done":true}
{"node":0,"wait":"NoArm"}
{"batch":"b","bind":{"A":"M"},"log":[],"outcome":"Running","recipe":"x"}
{"end":true}
"#,
    },
    Journal {
        title: "a loop that is never left turns",
        input: r#"{"at":1,"desc":{"services":[{"name":"dose","procedures":[{"default":true,"number":1,"params":[{"kind":"DIntServParam","max":5000,"min":0,"name":"amount"}],"self_completing":true}]}],"type":"Doser","variables":[{"kind":"AnaView","name":"level"}],"version":"1.0.0"},"ev":"plug","tag":"M"}
{"CommandEn":4,"Mode":"Automatic","ProcedureCur":0,"Src":"External","StateCur":16,"at":2,"ev":"report","service":"dose","tag":"M"}
{"at":3,"chart":{"loop":{"procedure":1,"role":"A","service":"dose","step":"s1"},"until":{"const":false}},"ev":"recipe","recipe":"x","roles":[{"role":"A","type":"Doser","version":"^1"}]}
{"at":4,"batch":"b","bind":{"A":"M"},"ev":"start","recipe":"x"}
{"at":5,"batch":"b","ev":"advance"}
{"CommandEn":0,"Mode":"Automatic","ProcedureCur":0,"Src":"External","StateCur":8,"at":6,"ev":"report","service":"dose","tag":"M"}
{"CommandEn":0,"Mode":"Automatic","ProcedureCur":0,"Src":"External","StateCur":64,"at":7,"ev":"report","service":"dose","tag":"M"}
{"CommandEn":0,"Mode":"Automatic","ProcedureCur":0,"Src":"External","StateCur":65536,"at":8,"ev":"report","service":"dose","tag":"M"}
{"CommandEn":2,"Mode":"Automatic","ProcedureCur":0,"Src":"External","StateCur":131072,"at":9,"ev":"report","service":"dose","tag":"M"}
{"at":10,"batch":"b","ev":"advance"}
{"CommandEn":0,"Mode":"Automatic","ProcedureCur":0,"Src":"External","StateCur":32768,"at":11,"ev":"report","service":"dose","tag":"M"}
{"CommandEn":4,"Mode":"Automatic","ProcedureCur":0,"Src":"External","StateCur":16,"at":12,"ev":"report","service":"dose","tag":"M"}
{"at":13,"batch":"b","ev":"advance"}
{"at":14,"batch":"b","ev":"advance"}
"#,
        output: r#"{"done":true}
{"done":true}
{"done":true}
{"done":true}
{"did":{"do":"start","procedure":1,"service":"dose","step":"s1","tag":"M"}}
{"done":true}
{"done":true}
{"done":true}
{"done":true}
{"did":{"do":"reset","service":"dose","step":"s1","tag":"M"}}
{"done":true}
{"done":true}
{"did":{"do":"end","step":"s1"}}
{"did":{"do":"turn","node":0,"values":[]}}
{"batch":"b","bind":{"A":"M"},"log":[{"do":"start","procedure":1,"service":"dose","step":"s1","tag":"M"},{"do":"reset","service":"dose","step":"s1","tag":"M"},{"do":"end","step":"s1"},{"do":"turn","node":0,"values":[]}],"outcome":"Running","recipe":"x"}
{"end":true}
"#,
    },
    Journal {
        title: "an abandoned batch frees its modules",
        input: r#"{"at":1,"desc":{"services":[{"name":"dose","procedures":[{"default":true,"number":1,"params":[{"kind":"DIntServParam","max":5000,"min":0,"name":"amount"}],"self_completing":true}]}],"type":"Doser","variables":[{"kind":"AnaView","name":"level"}],"version":"1.0.0"},"ev":"plug","tag":"M"}
{"at":2,"desc":{"services":[{"name":"dose","procedures":[{"default":true,"number":1,"params":[{"kind":"DIntServParam","max":5000,"min":0,"name":"amount"}],"self_completing":true}]}],"type":"Doser","variables":[{"kind":"AnaView","name":"level"}],"version":"1.0.0"},"ev":"plug","tag":"N"}
{"CommandEn":4,"Mode":"Automatic","ProcedureCur":0,"Src":"External","StateCur":16,"at":3,"ev":"report","service":"dose","tag":"M"}
{"CommandEn":4,"Mode":"Automatic","ProcedureCur":0,"Src":"External","StateCur":16,"at":4,"ev":"report","service":"dose","tag":"N"}
{"at":5,"chart":{"procedure":1,"role":"A","service":"dose","settings":[{"name":"amount","value":1500}],"step":"s1"},"ev":"recipe","recipe":"one","roles":[{"role":"A","type":"Doser","version":"^1"}]}
{"at":6,"chart":{"seq":[{"procedure":1,"role":"A","service":"dose","step":"s1"},{"procedure":1,"role":"B","service":"dose","step":"s2"}]},"ev":"recipe","recipe":"two","roles":[{"role":"A","type":"Doser","version":"^1"},{"role":"B","type":"Doser","version":"^1"}]}
{"at":7,"batch":"r1","bind":{"A":"M","B":"N"},"ev":"start","recipe":"two"}
{"at":8,"batch":"r2","bind":{"A":"N"},"ev":"start","recipe":"one"}
{"at":9,"batch":"r1","ev":"abandon"}
{"at":10,"batch":"r3","bind":{"A":"N"},"ev":"start","recipe":"one"}
{"at":11,"batch":"r3","ev":"advance"}
"#,
        output: r#"{"done":true}
{"done":true}
{"done":true}
{"done":true}
{"done":true}
{"done":true}
{"done":true}
{"batch":"r1","refused":25,"rule":"Busy","tag":"N"}
{"closed":"Abandoned"}
{"done":true}
{"did":{"do":"start","procedure":1,"service":"dose","step":"s1","tag":"N"}}
{"batch":"r1","bind":{"A":"M","B":"N"},"log":[],"outcome":"Abandoned","recipe":"two"}
{"batch":"r3","bind":{"A":"N"},"log":[{"do":"start","procedure":1,"service":"dose","step":"s1","tag":"N"}],"outcome":"Running","recipe":"one"}
{"end":true}
"#,
    },
    Journal {
        title: "an abandoned batch frees its modules, without one module",
        input: r#"{"at":2,"desc":{"services":[{"name":"dose","procedures":[{"default":true,"number":1,"params":[{"kind":"DIntServParam","max":5000,"min":0,"name":"amount"}],"self_completing":true}]}],"type":"Doser","variables":[{"kind":"AnaView","name":"level"}],"version":"1.0.0"},"ev":"plug","tag":"N"}
{"CommandEn":4,"Mode":"Automatic","ProcedureCur":0,"Src":"External","StateCur":16,"at":4,"ev":"report","service":"dose","tag":"N"}
{"at":5,"chart":{"procedure":1,"role":"A","service":"dose","settings":[{"name":"amount","value":1500}],"step":"s1"},"ev":"recipe","recipe":"one","roles":[{"role":"A","type":"Doser","version":"^1"}]}
{"at":6,"chart":{"seq":[{"procedure":1,"role":"A","service":"dose","step":"s1"},{"procedure":1,"role":"B","service":"dose","step":"s2"}]},"ev":"recipe","recipe":"two","roles":[{"role":"A","type":"Doser","version":"^1"},{"role":"B","type":"Doser","version":"^1"}]}
{"at":10,"batch":"r3","bind":{"A":"N"},"ev":"start","recipe":"one"}
{"at":11,"batch":"r3","ev":"advance"}
"#,
        output: r#"{"done":true}
{"done":true}
{"done":true}
{"done":true}
{"done":true}
{"did":{"do":"start","procedure":1,"service":"dose","step":"s1","tag":"N"}}
{"batch":"r3","bind":{"A":"N"},"log":[{"do":"start","procedure":1,"service":"dose","step":"s1","tag":"N"}],"outcome":"Running","recipe":"one"}
{"end":true}
"#,
    },
    Journal {
        title: "a broken batch is stopped step by step",
        input: r#"{"at":1,"desc":{"services":[{"name":"dose","procedures":[{"default":true,"number":1,"params":[{"kind":"DIntServParam","max":5000,"min":0,"name":"amount"}],"self_completing":true}]}],"type":"Doser","variables":[{"kind":"AnaView","name":"level"}],"version":"1.0.0"},"ev":"plug","tag":"M"}
{"at":2,"desc":{"services":[{"name":"stir"},{"name":"heat","procedures":[{"default":true,"number":1,"self_completing":true}]}],"type":"Mixer","variables":[{"kind":"DIntView","name":"temp"}],"version":"2.0.0"},"ev":"plug","tag":"N"}
{"CommandEn":4,"Mode":"Automatic","ProcedureCur":0,"Src":"External","StateCur":16,"at":3,"ev":"report","service":"dose","tag":"M"}
{"CommandEn":4,"Mode":"Automatic","ProcedureCur":0,"Src":"External","StateCur":16,"at":4,"ev":"report","service":"stir","tag":"N"}
{"CommandEn":4,"Mode":"Automatic","ProcedureCur":0,"Src":"External","StateCur":16,"at":5,"ev":"report","service":"heat","tag":"N"}
{"at":6,"chart":{"par":[{"procedure":1,"role":"A","service":"dose","step":"d"},{"finish":{"op":"ge","role":"B","test":"temp","value":60},"procedure":1,"role":"B","service":"stir","step":"stir"},{"procedure":1,"role":"B","service":"heat","step":"heat"}]},"ev":"recipe","recipe":"tri","roles":[{"role":"A","type":"Doser","version":"^1"},{"role":"B","type":"Mixer","version":"^2"}]}
{"at":7,"batch":"b","bind":{"A":"M","B":"N"},"ev":"start","recipe":"tri"}
{"at":8,"batch":"b","ev":"advance"}
{"at":9,"batch":"b","ev":"advance"}
{"at":10,"batch":"b","ev":"advance"}
{"CommandEn":256,"Mode":"Operator","ProcedureCur":0,"Src":"Internal","StateCur":8,"at":11,"ev":"report","service":"dose","tag":"M"}
{"CommandOp":256,"at":12,"ev":"desk","service":"dose","tag":"M"}
{"CommandEn":0,"Mode":"Operator","ProcedureCur":0,"Src":"Internal","StateCur":256,"at":13,"ev":"report","service":"dose","tag":"M"}
{"CommandEn":2,"Mode":"Operator","ProcedureCur":0,"Src":"Internal","StateCur":512,"at":14,"ev":"report","service":"dose","tag":"M"}
{"CommandEn":8,"Mode":"Automatic","ProcedureCur":0,"Src":"External","StateCur":8,"at":15,"ev":"report","service":"stir","tag":"N"}
{"CommandEn":0,"Mode":"Automatic","ProcedureCur":0,"Src":"External","StateCur":8,"at":16,"ev":"report","service":"heat","tag":"N"}
{"CommandEn":8,"Mode":"Operator","ProcedureCur":0,"Src":"Internal","StateCur":8,"at":17,"ev":"report","service":"heat","tag":"N"}
{"at":18,"batch":"b","ev":"advance"}
{"at":19,"batch":"b","ev":"advance"}
{"at":20,"batch":"b","ev":"advance"}
{"at":21,"batch":"b","ev":"advance"}
{"at":22,"batch":"b","ev":"advance"}
{"at":23,"batch":"b","ev":"advance"}
"#,
        output: r#"{"done":true}
{"done":true}
{"done":true}
{"done":true}
{"done":true}
{"done":true}
{"done":true}
{"did":{"do":"start","procedure":1,"service":"dose","step":"d","tag":"M"}}
{"did":{"do":"start","procedure":1,"service":"stir","step":"stir","tag":"N"}}
{"did":{"do":"start","procedure":1,"service":"heat","step":"heat","tag":"N"}}
{"done":true}
{"did":{"command":256,"do":"asked","service":"dose","tag":"M"}}
{"done":true}
{"done":true}
{"done":true}
{"done":true}
{"done":true}
{"did":{"do":"broke","state":512,"step":"d"}}
{"did":{"do":"left","state":512,"step":"d"}}
{"did":{"do":"stop","service":"stir","step":"stir","tag":"N"}}
{"did":{"do":"left","state":8,"step":"heat"}}
{"closed":"Broken"}
{"refused":16,"rule":"BatchClosed"}
{"batch":"b","bind":{"A":"M","B":"N"},"log":[{"do":"start","procedure":1,"service":"dose","step":"d","tag":"M"},{"do":"start","procedure":1,"service":"stir","step":"stir","tag":"N"},{"do":"start","procedure":1,"service":"heat","step":"heat","tag":"N"},{"do":"broke","state":512,"step":"d"},{"do":"left","state":512,"step":"d"},{"do":"stop","service":"stir","step":"stir","tag":"N"},{"do":"left","state":8,"step":"heat"}],"outcome":"Broken","recipe":"tri"}
{"end":true}
"#,
    },
    Journal {
        title: "the first true arm is chosen",
        input: r#"{"at":1,"desc":{"services":[{"name":"dose","procedures":[{"default":true,"number":1,"params":[{"kind":"DIntServParam","max":5000,"min":0,"name":"amount"}],"self_completing":true}]}],"type":"Doser","variables":[{"kind":"AnaView","name":"level"}],"version":"1.0.0"},"ev":"plug","tag":"M"}
{"CommandEn":4,"Mode":"Automatic","ProcedureCur":0,"Src":"External","StateCur":16,"at":2,"ev":"report","service":"dose","tag":"M"}
{"at":3,"chart":{"sel":[{"then":{"procedure":1,"role":"A","service":"dose","step":"hi"},"when":{"op":"ge","role":"A","test":"level","value":1000}},{"then":{"procedure":1,"role":"A","service":"dose","step":"lo"},"when":{"op":"ge","role":"A","test":"level","value":500}}]},"ev":"recipe","recipe":"pick","roles":[{"role":"A","type":"Doser","version":"^1"}]}
{"at":4,"batch":"b","bind":{"A":"M"},"ev":"start","recipe":"pick"}
{"at":5,"batch":"b","ev":"advance"}
{"at":6,"ev":"variable","name":"level","tag":"M","value":400}
{"at":7,"batch":"b","ev":"advance"}
{"at":8,"ev":"variable","name":"level","tag":"M","value":1200}
{"at":9,"batch":"b","ev":"advance"}
{"at":10,"batch":"b","ev":"advance"}
"#,
        output: r#"{"done":true}
{"done":true}
{"done":true}
{"done":true}
{"name":"level","tag":"M","wait":"NotReported"}
{"done":true}
{"node":0,"wait":"NoArm"}
{"done":true}
{"did":{"arm":0,"do":"chose","node":0,"values":[1200]}}
{"did":{"do":"start","procedure":1,"service":"dose","step":"hi","tag":"M"}}
{"batch":"b","bind":{"A":"M"},"log":[{"arm":0,"do":"chose","node":0,"values":[1200]},{"do":"start","procedure":1,"service":"dose","step":"hi","tag":"M"}],"outcome":"Running","recipe":"pick"}
{"end":true}
"#,
    },
    FROZEN_AND_STOPPED,
];

#[test]
fn each_batch_goes_its_way(rt: HostRuntime) -> Result<(), Fail> {
    replay_each(&rt, rt.alloc(), &BATCHES)
}
