//! One row for each rule, whose answer names it: the shortest journal whose last line it refuses, by the program and by
//! looking back. The rules of full tables (PlantFull, BatchesFull, RecipesFull) stand in `limits.rt`.
use super::looking_back::output_of;
use super::runs::begins;
use std::alloc::{AllocError, Global};
use std::test::Fail;

const DONE: &str = r#"{"done":true}"#;

/// What an advance says of the step that it started.
const STARTED: &str =
    r#"{"did":{"do":"start","procedure":1,"service":"dose","step":"s1","tag":"M"}}"#;

const TICKET: &str = r#"{"ticket":1}"#;

/// A doser whose procedure completes by itself, with an analog and a whole variable.
const PLUG: &str =
    r#"{"ev":"plug","at":1,"tag":"M","desc":{"type":"Doser","version":"1.0.0","services":[{"name":"dose","procedures":[{"number":1,"default":true,"self_completing":true,"params":[{"name":"amount","kind":"DIntServParam","min":0,"max":5000}]}]}],"variables":[{"name":"level","kind":"AnaView"},{"name":"count","kind":"DIntView"}]}}"#;

/// The same type with a service that has no parameter.
const BARE_PLUG: &str =
    r#"{"ev":"plug","at":1,"tag":"M","desc":{"type":"Doser","version":"1.0.0","services":[{"name":"dose"}]}}"#;

const IDLE: &str =
    r#"{"ev":"report","at":2,"tag":"M","service":"dose","StateCur":16,"CommandEn":4,"Mode":"Automatic","Src":"External","ProcedureCur":0}"#;

const STARTING: &str =
    r#"{"ev":"report","at":2,"tag":"M","service":"dose","StateCur":8,"CommandEn":0,"Mode":"Automatic","Src":"External","ProcedureCur":1}"#;

const RECIPE: &str =
    r#"{"ev":"recipe","at":3,"recipe":"one","roles":[{"role":"A","type":"Doser","version":"^1"}],"chart":{"step":"s1","role":"A","service":"dose","procedure":1,"settings":[{"name":"amount","value":1500}]}}"#;

const START: &str = r#"{"ev":"start","at":4,"batch":"b","recipe":"one","bind":{"A":"M"}}"#;

/// A recipe that reads a module and steps on another.
const PEEK: &str =
    r#"{"ev":"recipe","at":3,"recipe":"peek","roles":[{"role":"A","type":"Doser","version":"^1"},{"role":"B","type":"Doser","version":"^1"}],"chart":{"sel":[{"when":{"test":"level","role":"B","op":"ge","value":500},"then":{"step":"s1","role":"A","service":"dose","procedure":1}}]}}"#;

/// A second doser.
const PLUG_N: &str =
    r#"{"ev":"plug","at":1,"tag":"N","desc":{"type":"Doser","version":"1.0.0","services":[{"name":"dose","procedures":[{"number":1,"default":true,"self_completing":true}]}]}}"#;

const IDLE_N: &str =
    r#"{"ev":"report","at":2,"tag":"N","service":"dose","StateCur":16,"CommandEn":4,"Mode":"Automatic","Src":"External","ProcedureCur":0}"#;

const ADVANCE: &str = r#"{"ev":"advance","at":5,"batch":"b"}"#;

const BEGIN: &str = r#"{"ev":"exchange_begin","at":6,"tag":"M"}"#;

const UNPLUG: &str = r#"{"ev":"unplug","at":7,"tag":"M"}"#;

const FREEZE: &str = r#"{"ev":"freeze","at":8,"batch":"b","hold":false}"#;

const ABANDON: &str = r#"{"ev":"abandon","at":9,"batch":"b"}"#;

const DESK_START: &str = r#"{"ev":"desk","at":10,"tag":"M","service":"dose","CommandOp":4}"#;

const DESK_COMPLETE: &str = r#"{"ev":"desk","at":10,"tag":"M","service":"dose","CommandOp":1024}"#;

// A line that a rule refuses, behind lines with their answers.
struct Refusal {
    before: &'static [(&'static str, &'static str)],
    line: &'static str,
    answer: &'static str,
}

const REFUSALS: [Refusal; 36] = [
    Refusal {
        before: &[(PLUG, DONE)],
        line: PLUG,
        answer: r#"{"refused":1,"rule":"TagTaken"}"#,
    },
    Refusal {
        before: &[],
        line: UNPLUG,
        answer: r#"{"refused":2,"rule":"NoModule","tag":"M"}"#,
    },
    Refusal {
        before: &[(PLUG, DONE), (IDLE, DONE), (RECIPE, DONE), (START, DONE)],
        line: UNPLUG,
        answer: r#"{"batch":"b","refused":4,"rule":"Held"}"#,
    },
    Refusal {
        before: &[(PLUG, DONE), (BEGIN, TICKET)],
        line: IDLE,
        answer: r#"{"refused":5,"rule":"InExchange","tag":"M","ticket":1}"#,
    },
    Refusal {
        before: &[(PLUG, DONE)],
        line: r#"{"ev":"exchange_cancel","at":7,"tag":"M","ticket":1}"#,
        answer: r#"{"refused":6,"rule":"NotInExchange"}"#,
    },
    Refusal {
        before: &[(PLUG, DONE), (BEGIN, TICKET)],
        line: r#"{"ev":"exchange_cancel","at":7,"tag":"M","ticket":2}"#,
        answer: r#"{"given":2,"kept":1,"refused":7,"rule":"WrongTicket"}"#,
    },
    Refusal {
        before: &[(PLUG, DONE)],
        line: r#"{"ev":"desk","at":7,"tag":"M","service":"stir","CommandOp":4}"#,
        answer: r#"{"refused":8,"rule":"NoService"}"#,
    },
    Refusal {
        before: &[(PLUG, DONE), (IDLE, DONE)],
        line: r#"{"ev":"report","at":7,"tag":"M","service":"dose","StateCur":64,"CommandEn":0,"Mode":"Automatic","Src":"External","ProcedureCur":1}"#,
        answer: r#"{"from":16,"refused":9,"rule":"NotAnEdge","to":64}"#,
    },
    Refusal {
        before: &[(PLUG, DONE)],
        line: r#"{"ev":"variable","at":7,"tag":"M","name":"mass","value":5}"#,
        answer: r#"{"refused":10,"rule":"NoVariable"}"#,
    },
    Refusal {
        before: &[(PLUG, DONE)],
        line: r#"{"ev":"variable","at":7,"tag":"M","name":"level","value":true}"#,
        answer: r#"{"refused":11,"rule":"WrongKind"}"#,
    },
    Refusal {
        before: &[(RECIPE, DONE)],
        line: RECIPE,
        answer: r#"{"refused":12,"rule":"RecipeKnown"}"#,
    },
    Refusal {
        before: &[],
        line: START,
        answer: r#"{"refused":13,"rule":"NoRecipe"}"#,
    },
    Refusal {
        before: &[(PLUG, DONE), (IDLE, DONE), (RECIPE, DONE), (START, DONE)],
        line: START,
        answer: r#"{"refused":14,"rule":"BatchKnown"}"#,
    },
    Refusal {
        before: &[],
        line: ADVANCE,
        answer: r#"{"refused":15,"rule":"NoBatch"}"#,
    },
    Refusal {
        before: &[
            (PLUG, DONE),
            (IDLE, DONE),
            (RECIPE, DONE),
            (START, DONE),
            (ABANDON, r#"{"closed":"Abandoned"}"#),
        ],
        line: ABANDON,
        answer: r#"{"refused":16,"rule":"BatchClosed"}"#,
    },
    Refusal {
        before: &[(RECIPE, DONE)],
        line: r#"{"ev":"start","at":4,"batch":"b","recipe":"one","bind":{"B":"M"}}"#,
        answer: r#"{"refused":17,"role":"A","rule":"RoleUnbound"}"#,
    },
    Refusal {
        before: &[(RECIPE, DONE)],
        line: r#"{"ev":"start","at":4,"batch":"b","recipe":"one","bind":{"A":"M","B":"N"}}"#,
        answer: r#"{"refused":18,"role":"B","rule":"RoleUnknown"}"#,
    },
    Refusal {
        before: &[(
            r#"{"ev":"recipe","at":3,"recipe":"one","roles":[{"role":"A","type":"Doser","version":"^1"},{"role":"B","type":"Doser","version":"^1"}],"chart":{"step":"s1","role":"A","service":"dose","procedure":1}}"#,
            DONE,
        )],
        line: r#"{"ev":"start","at":4,"batch":"b","recipe":"one","bind":{"A":"M","B":"M"}}"#,
        answer: r#"{"refused":19,"rule":"OneModuleTwice","tag":"M"}"#,
    },
    Refusal {
        before: &[
            (
                r#"{"ev":"plug","at":1,"tag":"M","desc":{"type":"Mixer","version":"1.0.0","services":[{"name":"dose"}]}}"#,
                DONE,
            ),
            (RECIPE, DONE),
        ],
        line: START,
        answer: r#"{"refused":20,"role":"A","rule":"WrongType"}"#,
    },
    Refusal {
        before: &[
            (
                r#"{"ev":"plug","at":1,"tag":"M","desc":{"type":"Doser","version":"2.0.0","services":[{"name":"dose"}]}}"#,
                DONE,
            ),
            (RECIPE, DONE),
        ],
        line: START,
        answer: r#"{"refused":21,"role":"A","rule":"WrongVersion"}"#,
    },
    Refusal {
        before: &[(BARE_PLUG, DONE), (RECIPE, DONE)],
        line: START,
        answer: r#"{"missing":"s1","refused":22,"rule":"NotCovered"}"#,
    },
    Refusal {
        before: &[(PLUG, DONE), (RECIPE, DONE)],
        line: START,
        answer: r#"{"name":"dose","refused":23,"rule":"NotReported","tag":"M"}"#,
    },
    Refusal {
        before: &[(PLUG, DONE), (STARTING, DONE), (RECIPE, DONE)],
        line: START,
        answer: r#"{"refused":24,"rule":"NotIdle","service":"dose","state":8,"tag":"M"}"#,
    },
    Refusal {
        before: &[(PLUG, DONE), (IDLE, DONE), (RECIPE, DONE), (START, DONE)],
        line: r#"{"ev":"start","at":5,"batch":"c","recipe":"one","bind":{"A":"M"}}"#,
        answer: r#"{"batch":"b","refused":25,"rule":"Busy","tag":"M"}"#,
    },
    Refusal {
        before: &[(PLUG, DONE), (STARTING, DONE)],
        line: BEGIN,
        answer: r#"{"refused":27,"rule":"NotAtRest","service":"dose","state":8}"#,
    },
    Refusal {
        before: &[
            (PLUG, DONE),
            (IDLE, DONE),
            (RECIPE, DONE),
            (START, DONE),
            (ADVANCE, STARTED),
        ],
        line: BEGIN,
        answer: r#"{"batch":"b","refused":28,"rule":"ActiveStep","step":"s1"}"#,
    },
    Refusal {
        before: &[
            (PLUG, DONE),
            (IDLE, DONE),
            (RECIPE, DONE),
            (START, DONE),
            (BEGIN, TICKET),
        ],
        line: r#"{"ev":"exchange_end","at":7,"tag":"M","ticket":1,"desc":{"type":"Doser","version":"1.1.0","services":[{"name":"dose"}]}}"#,
        answer: r#"{"batch":"b","missing":"s1","refused":29,"rule":"HeldBack"}"#,
    },
    Refusal {
        before: &[(PLUG, DONE), (IDLE, DONE)],
        line: DESK_START,
        answer: r#"{"refused":30,"rule":"ModeForbids"}"#,
    },
    Refusal {
        before: &[
            (PLUG, DONE),
            (
                r#"{"ev":"report","at":2,"tag":"M","service":"dose","StateCur":4,"CommandEn":4,"Mode":"Operator","Src":"Internal","ProcedureCur":0}"#,
                DONE,
            ),
        ],
        line: DESK_START,
        answer: r#"{"refused":31,"rule":"StateForbids"}"#,
    },
    Refusal {
        before: &[
            (PLUG, DONE),
            (
                r#"{"ev":"report","at":2,"tag":"M","service":"dose","StateCur":16,"CommandEn":0,"Mode":"Operator","Src":"Internal","ProcedureCur":0}"#,
                DONE,
            ),
        ],
        line: DESK_START,
        answer: r#"{"refused":32,"rule":"NotEnabled"}"#,
    },
    Refusal {
        before: &[(PLUG, DONE)],
        line: r#"{"ev":"variable","at":7,"tag":"M","name":"count","value":2147483648}"#,
        answer: r#"{"refused":33,"rule":"OutOfRange"}"#,
    },
    Refusal {
        before: &[(PLUG, DONE), (IDLE, DONE), (RECIPE, DONE), (START, DONE)],
        line: r#"{"ev":"thaw","at":9,"batch":"b"}"#,
        answer: r#"{"refused":34,"rule":"NotFrozen"}"#,
    },
    Refusal {
        before: &[
            (PLUG, DONE),
            (IDLE, DONE),
            (RECIPE, DONE),
            (START, DONE),
            (FREEZE, DONE),
        ],
        line: FREEZE,
        answer: r#"{"refused":35,"rule":"AlreadyFrozen"}"#,
    },
    Refusal {
        before: &[
            (PLUG, DONE),
            (
                r#"{"ev":"report","at":2,"tag":"M","service":"dose","StateCur":64,"CommandEn":1024,"Mode":"Operator","Src":"Internal","ProcedureCur":1}"#,
                DONE,
            ),
        ],
        line: DESK_COMPLETE,
        answer: r#"{"refused":36,"rule":"SelfCompletes"}"#,
    },
    Refusal {
        before: &[
            (PLUG, DONE),
            (PLUG_N, DONE),
            (IDLE_N, DONE),
            (PEEK, DONE),
            (
                r#"{"ev":"start","at":4,"batch":"b","recipe":"peek","bind":{"A":"N"},"watch":{"B":"M"}}"#,
                DONE,
            ),
        ],
        line: UNPLUG,
        answer: r#"{"batch":"b","refused":39,"rule":"Watched"}"#,
    },
    Refusal {
        before: &[(RECIPE, DONE)],
        line: r#"{"ev":"start","at":4,"batch":"b","recipe":"one","bind":{},"watch":{"A":"M"}}"#,
        answer: r#"{"refused":40,"role":"A","rule":"WatchedStep"}"#,
    },
];

// A journal of these lines, the last one without its line feed, and the answers to them.
fn journal_of(alloc: Global, refusal: &Refusal) -> Result<(String, String), AllocError> {
    let mut input = String::new(alloc);
    let mut output = String::new(alloc);
    for (line, answer) in refusal.before {
        input.push_str(line)?;
        input.push_str("\n")?;
        output.push_str(answer)?;
        output.push_str("\n")?;
    }
    input.push_str(refusal.line)?;
    output.push_str(refusal.answer)?;
    output.push_str("\n")?;
    Ok((input, output))
}

#[test]
fn each_rule_refuses_its_line(rt: HostRuntime) -> Result<(), Fail> {
    let alloc = rt.alloc();
    for refusal in &REFUSALS {
        let (input, output) = journal_of(alloc, refusal)?;
        let is_refused = begins(&rt, alloc, input.as_str(), output.as_str())?;
        assert!(rt; is_refused, "{}", refusal.answer);
        let looked_back = output_of(alloc, input.as_str())?;
        assert!(rt;
            looked_back.as_slice().starts_with(output.as_bytes()),
            "{}, by looking back",
            refusal.answer
        );
    }
    Ok(())
}
