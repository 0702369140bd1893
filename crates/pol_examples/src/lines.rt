//! Lines of the input: how they end, and lines that say no event.
use super::runs::{Journal, replay_each};
use std::test::Fail;

const LINES: [Journal; 7] = [
    Journal {
        title: "one module and one report",
        input: r#"{"at":1,"desc":{"services":[{"name":"dose"}],"type":"Doser","version":"1.0.0"},"ev":"plug","tag":"M1"}
{"CommandEn":4,"Mode":"Automatic","ProcedureCur":0,"Src":"External","StateCur":16,"at":2,"ev":"report","service":"dose","tag":"M1"}
"#,
        output: r#"{"done":true}
{"done":true}
{"end":true}
"#,
    },
    Journal {
        title: "an empty input",
        input: "",
        output: r#"{"end":true}
"#,
    },
    Journal {
        title: "carriage returns, a blank line and no last line feed",
        input: "{\"at\":1,\"desc\":{\"services\":[{\"name\":\"dose\"}],\"type\":\"Doser\",\"version\":\"1.0.0\"},\"ev\":\"plug\",\"tag\":\"M1\"}\r\n   \r\n{\"CommandEn\":4,\"Mode\":\"Automatic\",\"ProcedureCur\":0,\"Src\":\"External\",\"StateCur\":16,\"at\":2,\"ev\":\"report\",\"service\":\"dose\",\"tag\":\"M1\"}\r",
        output: r#"{"done":true}
{"done":true}
{"end":true}
"#,
    },
    Journal {
        title: "a last line without any line end",
        input: "{\"at\":1,\"desc\":{\"services\":[{\"name\":\"dose\"}],\"type\":\"Doser\",\"version\":\"1.0.0\"},\"ev\":\"plug\",\"tag\":\"M1\"}\r\n   \r\n{\"CommandEn\":4,\"Mode\":\"Automatic\",\"ProcedureCur\":0,\"Src\":\"External\",\"StateCur\":16,\"at\":2,\"ev\":\"report\",\"service\":\"dose\",\"tag\":\"M1\"}",
        output: r#"{"done":true}
{"done":true}
{"end":true}
"#,
    },
    Journal {
        title: "zip bytes are not JSON",
        input: "PK\x03\x04\n{\"at\":1,\"desc\":{\"services\":[{\"name\":\"dose\"}],\"type\":\"Doser\",\"version\":\"1.0.0\"},\"ev\":\"plug\",\"tag\":\"M1\"}\n{\"CommandEn\":4,\"Mode\":\"Automatic\",\"ProcedureCur\":0,\"Src\":\"External\",\"StateCur\":16,\"at\":2,\"ev\":\"report\",\"service\":\"dose\",\"tag\":\"M1\"}\n",
        output: r#"{"bad":"NotJson","path":""}
{"done":true}
{"done":true}
{"end":true}
"#,
    },
    Journal {
        title: "bad lines of six kinds",
        input: r#"[]
{"at":1,"ev":"unplug"}
{"at":1,"ev":"jump"}
{"at":1.5,"ev":"unplug","tag":"M"}
{"at":1,"ev":"unplug","tag":"M","x":1}
{"at":1,"desc":{"services":[{"name":"dose"}],"version":"1.0.0"},"ev":"plug","tag":"M1"}
"#,
        output: r#"{"bad":"WrongKind","path":""}
{"bad":"Missing","path":"tag"}
{"bad":"OutOfRange","path":"ev"}
{"bad":"WrongKind","path":"at"}
{"bad":"Unknown","path":""}
{"bad":"Missing","path":"desc.type"}
{"end":true}
"#,
    },
    Journal {
        title: "brackets nested too deep are not JSON",
        input: "[[[[[[[[[[[[[[[[[[[[[[[[[[[[[[[[[[[[[[[[[[[[[[[[[[[[[[[[[[[[[[[[[[[[[[[[[[[[[[[[[[[[[[[[[[[[[[[[[[[[[[[[[[[[[[[[[[[[[[[[[[[[[[[[]]]]]]]]]]]]]]]]]]]]]]]]]]]]]]]]]]]]]]]]]]]]]]]]]]]]]]]]]]]]]]]]]]]]]]]]]]]]]]]]]]]]]]]]]]]]]]]]]]]]]]]]]]]]]]]]]]]]]]]]]]]]]]]]\n",
        output: r#"{"bad":"NotJson","path":""}
{"end":true}
"#,
    },
];

#[test]
fn each_line_has_its_answer(rt: HostRuntime) -> Result<(), Fail> {
    replay_each(&rt, rt.alloc(), &LINES)
}
