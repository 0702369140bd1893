//! The numbers of modules, recipes and batches that a plant takes.
use super::runs::run;
use std::test::Fail;

const DONE: &str = "{\"done\":true}\n";

const END: &str = "{\"end\":true}\n";

/// After 65 plugs of other tags: a tag goes, comes again, and may not come twice.
const LAST_PLUGS: &str = r#"{"at":66,"ev":"unplug","tag":"T1"}
{"at":67,"desc":{"services":[{"name":"dose","procedures":[{"default":true,"number":1,"params":[{"kind":"DIntServParam","max":5000,"min":0,"name":"amount"}],"self_completing":true}]}],"type":"Doser","variables":[{"kind":"AnaView","name":"level"}],"version":"1.0.0"},"ev":"plug","tag":"T1"}
{"at":68,"desc":{"services":[{"name":"dose","procedures":[{"default":true,"number":1,"params":[{"kind":"DIntServParam","max":5000,"min":0,"name":"amount"}],"self_completing":true}]}],"type":"Doser","variables":[{"kind":"AnaView","name":"level"}],"version":"1.0.0"},"ev":"plug","tag":"T1"}
"#;

/// A module at rest, and a recipe for it.
const DOSER_AND_RECIPE: &str =
    r#"{"at":1,"desc":{"services":[{"name":"dose","procedures":[{"default":true,"number":1,"params":[{"kind":"DIntServParam","max":5000,"min":0,"name":"amount"}],"self_completing":true}]}],"type":"Doser","variables":[{"kind":"AnaView","name":"level"}],"version":"1.0.0"},"ev":"plug","tag":"M"}
{"CommandEn":4,"Mode":"Automatic","ProcedureCur":0,"Src":"External","StateCur":16,"at":2,"ev":"report","service":"dose","tag":"M"}
{"at":3,"chart":{"procedure":1,"role":"A","service":"dose","settings":[{"name":"amount","value":1500}],"step":"s1"},"ev":"recipe","recipe":"one","roles":[{"role":"A","type":"Doser","version":"^1"}]}
"#;

#[test]
fn plant_full_at_64_modules(rt: HostRuntime) -> Result<(), Fail> {
    let alloc = rt.alloc();
    let mut input = String::new(alloc);
    for n in 1..=65u32 {
        let plug = format!(in alloc;
            r#"{{"at":{n},"desc":{{"services":[{{"name":"dose"}}],"type":"Doser","version":"1.0.0"}},"ev":"plug","tag":"T{n}"}}"#
        )?;
        input.push_str(plug.as_str())?;
        input.push_str("\n")?;
    }
    input.push_str(LAST_PLUGS)?;
    let mut output = DONE.repeat(alloc, 64)?;
    output.push_str("{\"refused\":3,\"rule\":\"PlantFull\"}\n")?;
    output.push_str(DONE)?;
    output.push_str(DONE)?;
    output.push_str("{\"refused\":1,\"rule\":\"TagTaken\"}\n")?;
    output.push_str(END)?;
    let (status, same) = run(
        &rt,
        alloc,
        "pol --job replay",
        input.as_str(),
        output.as_str(),
    )?;
    assert_eq!(rt; status, 0);
    assert!(rt; same);
    Ok(())
}

#[test]
fn recipes_full_at_64_recipes(rt: HostRuntime) -> Result<(), Fail> {
    let alloc = rt.alloc();
    let mut input = String::new(alloc);
    for n in 1..=65u32 {
        let recipe = format!(in alloc;
            r#"{{"at":{n},"chart":{{"procedure":1,"role":"A","service":"dose","settings":[{{"name":"amount","value":1500}}],"step":"s1"}},"ev":"recipe","recipe":"N{n}","roles":[{{"role":"A","type":"Doser","version":"^1"}}]}}"#
        )?;
        input.push_str(recipe.as_str())?;
        input.push_str("\n")?;
    }
    let mut output = DONE.repeat(alloc, 64)?;
    output.push_str("{\"refused\":37,\"rule\":\"RecipesFull\"}\n")?;
    output.push_str(END)?;
    let (status, same) = run(
        &rt,
        alloc,
        "pol --job replay",
        input.as_str(),
        output.as_str(),
    )?;
    assert_eq!(rt; status, 0);
    assert!(rt; same);
    Ok(())
}

#[test]
fn batches_full_at_128_batches(rt: HostRuntime) -> Result<(), Fail> {
    let alloc = rt.alloc();
    let mut input = String::from_str(alloc, DOSER_AND_RECIPE)?;
    let mut output = DONE.repeat(alloc, 3)?;
    let mut batches = String::new(alloc);
    for n in 1..=128u32 {
        let start = 2 * n + 2;
        let abandon = 2 * n + 3;
        let line = format!(in alloc;
            r#"{{"at":{start},"batch":"B{n}","bind":{{"A":"M"}},"ev":"start","recipe":"one"}}"#
        )?;
        input.push_str(line.as_str())?;
        let line = format!(in alloc;
            "\n{{\"at\":{abandon},\"batch\":\"B{n}\",\"ev\":\"abandon\"}}\n"
        )?;
        input.push_str(line.as_str())?;
        output.push_str("{\"done\":true}\n{\"closed\":\"Abandoned\"}\n")?;
        let line = format!(in alloc;
            r#"{{"batch":"B{n}","bind":{{"A":"M"}},"log":[],"outcome":"Abandoned","recipe":"one"}}"#
        )?;
        batches.push_str(line.as_str())?;
        batches.push_str("\n")?;
    }
    input.push_str(
        "{\"at\":260,\"batch\":\"B129\",\"bind\":{\"A\":\"M\"},\"ev\":\"start\",\"recipe\":\"one\"}\n",
    )?;
    output.push_str("{\"refused\":26,\"rule\":\"BatchesFull\"}\n")?;
    output.push_str(batches.as_str())?;
    output.push_str(END)?;
    let (status, same) = run(
        &rt,
        alloc,
        "pol --job replay",
        input.as_str(),
        output.as_str(),
    )?;
    assert_eq!(rt; status, 0);
    assert!(rt; same);
    Ok(())
}
