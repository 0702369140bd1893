//! Exchanges of modules.
use super::runs::{Journal, replay_each};
use std::test::Fail;

const EXCHANGES: [Journal; 2] = [
    Journal {
        title: "a module is exchanged under a batch",
        input: r#"{"at":1,"desc":{"services":[{"name":"dose","procedures":[{"default":true,"number":1,"params":[{"kind":"DIntServParam","max":5000,"min":0,"name":"amount"}],"self_completing":true}]}],"type":"Doser","variables":[{"kind":"AnaView","name":"level"}],"version":"1.0.0"},"ev":"plug","tag":"M"}
{"CommandEn":4,"Mode":"Automatic","ProcedureCur":0,"Src":"External","StateCur":16,"at":2,"ev":"report","service":"dose","tag":"M"}
{"at":3,"chart":{"procedure":1,"role":"A","service":"dose","settings":[{"name":"amount","value":1500}],"step":"s1"},"ev":"recipe","recipe":"one","roles":[{"role":"A","type":"Doser","version":"^1"}]}
{"at":4,"batch":"b","bind":{"A":"M"},"ev":"start","recipe":"one"}
{"at":5,"ev":"exchange_begin","tag":"M"}
{"at":6,"batch":"b","ev":"advance"}
{"CommandEn":4,"Mode":"Automatic","ProcedureCur":0,"Src":"External","StateCur":16,"at":7,"ev":"report","service":"dose","tag":"M"}
{"at":8,"desc":{"services":[{"name":"dose","procedures":[{"default":true,"number":1,"params":[{"kind":"DIntServParam","max":5000,"min":0,"name":"amount"}],"self_completing":true}]}],"type":"Doser","variables":[{"kind":"AnaView","name":"level"}],"version":"1.1.0"},"ev":"exchange_end","tag":"M","ticket":1}
{"at":9,"batch":"b","ev":"advance"}
{"CommandEn":4,"Mode":"Automatic","ProcedureCur":0,"Src":"External","StateCur":16,"at":10,"ev":"report","service":"dose","tag":"M"}
{"at":11,"batch":"b","ev":"advance"}
"#,
        output: r#"{"done":true}
{"done":true}
{"done":true}
{"done":true}
{"ticket":1}
{"tag":"M","wait":"Away"}
{"refused":5,"rule":"InExchange","tag":"M","ticket":1}
{"done":true}
{"name":"dose","tag":"M","wait":"NotReported"}
{"done":true}
{"did":{"do":"start","procedure":1,"service":"dose","step":"s1","tag":"M"}}
{"batch":"b","bind":{"A":"M"},"log":[{"do":"start","procedure":1,"service":"dose","step":"s1","tag":"M"}],"outcome":"Running","recipe":"one"}
{"end":true}
"#,
    },
    Journal {
        title: "an exchange and its refusals",
        input: r#"{"at":1,"desc":{"services":[{"name":"dose","procedures":[{"default":true,"number":1,"params":[{"kind":"DIntServParam","max":5000,"min":0,"name":"amount"}],"self_completing":true}]}],"type":"Doser","variables":[{"kind":"AnaView","name":"level"}],"version":"1.0.0"},"ev":"plug","tag":"M"}
{"CommandEn":4,"Mode":"Automatic","ProcedureCur":0,"Src":"External","StateCur":16,"at":2,"ev":"report","service":"dose","tag":"M"}
{"at":3,"chart":{"procedure":1,"role":"A","service":"dose","settings":[{"name":"amount","value":1500}],"step":"s1"},"ev":"recipe","recipe":"one","roles":[{"role":"A","type":"Doser","version":"^1"}]}
{"at":4,"batch":"b","bind":{"A":"M"},"ev":"start","recipe":"one"}
{"at":5,"ev":"exchange_begin","tag":"M"}
{"at":6,"desc":{"services":[{"name":"dose","procedures":[{"default":true,"number":1,"params":[{"kind":"DIntServParam","max":5000,"min":0,"name":"amount"}],"self_completing":true}]}],"type":"Doser","variables":[{"kind":"AnaView","name":"level"}],"version":"1.1.0"},"ev":"exchange_end","tag":"M","ticket":2}
{"at":7,"desc":{"services":[{"name":"dose","procedures":[{"default":true,"number":2,"params":[{"kind":"DIntServParam","max":5000,"min":0,"name":"amount"}],"self_completing":true}]}],"type":"Doser","variables":[{"kind":"AnaView","name":"level"}],"version":"1.2.0"},"ev":"exchange_end","tag":"M","ticket":1}
{"at":8,"ev":"exchange_cancel","tag":"M","ticket":1}
{"at":9,"desc":{"services":[{"name":"dose","procedures":[{"default":true,"number":1,"params":[{"kind":"DIntServParam","max":5000,"min":0,"name":"amount"}],"self_completing":true}]}],"type":"Doser","variables":[{"kind":"AnaView","name":"level"}],"version":"1.1.0"},"ev":"exchange_end","tag":"M","ticket":1}
{"CommandEn":4,"Mode":"Automatic","ProcedureCur":0,"Src":"External","StateCur":16,"at":10,"ev":"report","service":"dose","tag":"M"}
{"at":11,"batch":"b","ev":"advance"}
{"at":12,"ev":"exchange_begin","tag":"M"}
{"CommandEn":0,"Mode":"Automatic","ProcedureCur":0,"Src":"External","StateCur":8,"at":13,"ev":"report","service":"dose","tag":"M"}
{"at":14,"batch":"b","ev":"abandon"}
{"at":15,"ev":"exchange_begin","tag":"M"}
"#,
        output: r#"{"done":true}
{"done":true}
{"done":true}
{"done":true}
{"ticket":1}
{"given":2,"kept":1,"refused":7,"rule":"WrongTicket"}
{"batch":"b","missing":"s1","refused":29,"rule":"HeldBack"}
{"done":true}
{"refused":6,"rule":"NotInExchange"}
{"done":true}
{"did":{"do":"start","procedure":1,"service":"dose","step":"s1","tag":"M"}}
{"batch":"b","refused":28,"rule":"ActiveStep","step":"s1"}
{"done":true}
{"closed":"Abandoned"}
{"refused":27,"rule":"NotAtRest","service":"dose","state":8}
{"batch":"b","bind":{"A":"M"},"log":[{"do":"start","procedure":1,"service":"dose","step":"s1","tag":"M"}],"outcome":"Abandoned","recipe":"one"}
{"end":true}
"#,
    },
];

#[test]
fn each_exchange_has_its_answer(rt: HostRuntime) -> Result<(), Fail> {
    replay_each(&rt, rt.alloc(), &EXCHANGES)
}
