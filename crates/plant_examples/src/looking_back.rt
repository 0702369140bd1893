//! A worked batch, answered event by event.
use chart_core::LogEntry;
use event_json::read_event;
use given::named;
use pol_audit::says;
use pol_events::{Answer, Entry};
use std::test::*;

const PLUG: &str =
    "{\"ev\":\"plug\",\"at\":1,\"tag\":\"M1\",\"desc\":{\"services\":[{\"name\":\"dose\",\"procedures\":[{\"number\":1,\"default\":true,\"self_completing\":true}]}],\"type\":\"Doser\",\"version\":\"1.0.0\"}}";

const REPORT: &str =
    "{\"ev\":\"report\",\"at\":2,\"tag\":\"M1\",\"service\":\"dose\",\"StateCur\":16,\"CommandEn\":4,\"Mode\":\"Automatic\",\"Src\":\"External\",\"ProcedureCur\":1}";

const RECIPE: &str =
    "{\"ev\":\"recipe\",\"at\":3,\"recipe\":\"r\",\"roles\":[{\"role\":\"A\",\"type\":\"Doser\",\"version\":\"^1\"}],\"chart\":{\"procedure\":1,\"role\":\"A\",\"service\":\"dose\",\"step\":\"s1\"}}";

const START: &str =
    "{\"ev\":\"start\",\"at\":4,\"batch\":\"b1\",\"recipe\":\"r\",\"bind\":{\"A\":\"M1\"}}";

const ADVANCE: &str = "{\"ev\":\"advance\",\"at\":5,\"batch\":\"b1\"}";

#[test]
fn a_batch_starts_the_first_step_on_the_module_that_it_was_bound_to(
    rt: HostRuntime,
) -> Result<(), Fail> {
    let alloc = rt.alloc();
    let begun = LogEntry::Start {
        step: named("s1")?,
        tag: named("M1")?,
        service: named("dose")?,
        procedure: 1,
    };
    let rows = [
        (PLUG, Answer::Done),
        (REPORT, Answer::Done),
        (RECIPE, Answer::Done),
        (START, Answer::Done),
        (ADVANCE, Answer::Did(begun)),
    ];
    let mut history = Vec::new(alloc);
    for (line, wanted) in rows {
        let event = read_event(alloc, line.as_bytes()).ok().ok_or("no event")?;
        let answer = says(alloc, &history, &event)?;
        assert_eq!(rt; answer, wanted);
        history.push(Entry { event, answer })?;
    }
    Ok(())
}
