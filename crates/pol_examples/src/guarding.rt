//! Journals under an operator policy.
use super::runs::{Journal, end_of, run_each};
use given::words_of;
use pol_io::{SureSink, SureSource};
use std::test::Fail;

const GUARDED: [Journal; 2] = [
    Journal {
        title: "guard asks the policy for each command",
        input: r#"{"groups":[{"group":"shift","members":["ann"]}],"rules":[{"name":"r1","allow":true,"who":["shift"]},{"name":"r2","allow":false,"commands":[256]}]}
{"at":2,"desc":{"services":[{"name":"dose","procedures":[{"default":true,"number":1,"params":[{"kind":"DIntServParam","max":5000,"min":0,"name":"amount"}],"self_completing":true}]}],"type":"Doser","variables":[{"kind":"AnaView","name":"level"}],"version":"1.0.0"},"ev":"plug","tag":"M"}
{"CommandEn":4,"Mode":"Operator","ProcedureCur":0,"Src":"Internal","StateCur":16,"at":3,"ev":"report","service":"dose","tag":"M"}
{"CommandOp":4,"at":4,"by":"ann","ev":"desk","service":"dose","tag":"M"}
{"CommandOp":256,"at":5,"by":"ann","ev":"desk","service":"dose","tag":"M"}
{"CommandOp":4,"at":6,"by":"bob","ev":"desk","service":"dose","tag":"M"}
"#,
        output: r#"{"done":true}
{"done":true}
{"did":{"command":4,"do":"asked","service":"dose","tag":"M"}}
{"denied":true,"policy":"r2"}
{"denied":true}
{"end":true}
"#,
    },
    Journal {
        title: "guard follows groups in a circle",
        input: r#"{"groups":[{"group":"a","members":["b"]},{"group":"b","members":["a"]}],"rules":[{"name":"r","allow":true,"who":["a"]}]}
{"at":2,"desc":{"services":[{"name":"dose","procedures":[{"default":true,"number":1,"params":[{"kind":"DIntServParam","max":5000,"min":0,"name":"amount"}],"self_completing":true}]}],"type":"Doser","variables":[{"kind":"AnaView","name":"level"}],"version":"1.0.0"},"ev":"plug","tag":"M"}
{"CommandEn":4,"Mode":"Operator","ProcedureCur":0,"Src":"Internal","StateCur":16,"at":3,"ev":"report","service":"dose","tag":"M"}
{"CommandOp":4,"at":4,"by":"b","ev":"desk","service":"dose","tag":"M"}
{"CommandOp":4,"at":5,"by":"c","ev":"desk","service":"dose","tag":"M"}
"#,
        output: r#"{"done":true}
{"done":true}
{"did":{"command":4,"do":"asked","service":"dose","tag":"M"}}
{"denied":true}
{"end":true}
"#,
    },
];

#[test]
fn a_denied_command_names_its_rule(rt: HostRuntime) -> Result<(), Fail> {
    run_each(&rt, rt.alloc(), "pol --job guard", &GUARDED)
}

// Inputs without a policy, each with what is told of it.
const NO_POLICIES: [(&str, &str); 4] = [
    ("", "pol: bad policy: Missing at "),
    (" \r\n\n", "pol: bad policy: Missing at "),
    ("{\"end\":true}\n", "pol: bad policy: Missing at groups"),
    (
        "{\"groups\":[],\"rules\":[{\"name\":\"r\"}]}\n",
        "pol: bad policy: Missing at rules.0.allow",
    ),
];

#[test]
fn an_input_without_a_policy_is_refused(rt: HostRuntime) -> Result<(), Fail> {
    let alloc = rt.alloc();
    let words = words_of(alloc, "pol --job guard")?;
    for (input, text) in NO_POLICIES {
        let mut source = SureSource::new(input.as_bytes().to_vec(alloc)?);
        let mut sink = SureSink::new(alloc);
        let status = end_of(&rt, alloc, &words, &mut source, &mut sink);
        assert_eq!(rt; status.number(), 9, "{text}");
        assert!(rt; status.text(alloc)?.as_slice() == text.as_bytes(), "{text}");
        assert!(rt; sink.bytes().is_empty(), "{text}");
    }
    Ok(())
}
