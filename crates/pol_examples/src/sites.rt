//! Twenty sites that are made from few numbers, each run to its end by the job plant.
use super::plants::{accepted_with, lines_with, run_site};
use mtp_codes::LONGEST_HISTORY;
use std::alloc::{AllocError, Global};
use std::test::Fail;

/// A site of modules that are alike, each with a doser's services and a level that drifts. Batch i runs on module i, or
/// on module i and the one behind it; exchange i is of module i, and command i of the desk goes to it. They count
/// around where there are fewer modules.
#[derive(Clone, Copy)]
struct Numbers {
    modules: u32,
    /// The services of a module.
    services: u32,
    /// After how many ticks a service changes by itself.
    ticks: u32,
    /// The same in Execute.
    run: u32,
    /// To which number the level drifts, from 0 by 500.
    to: u32,
    batches: u32,
    /// How many modules a batch has.
    each: u32,
    exchanges: u32,
    orders: u32,
    /// Exchange i, and command i of the desk, waits for i times as many entries.
    apart: u32,
}

/// Each site with what it has more than one module with one service and one batch on it, how many of its exchanges are
/// made, and how many commands its desk sends.
///
/// All are, but where one waits for more entries than the run comes to: the second exchange of the site "an exchange at
/// once and one that never comes", and the seventeenth command of "the desk under a batch", which waits for 32 entries.
/// That run has 31: two openings, the first reports of a service and of a level, five entries of the batch, six reports
/// of its step, and sixteen commands.
const SITES: [(&str, &str, u32, u32); 20] = [
    ("one module and one batch", "", 0, 0),
    ("no batch", "batches 0", 0, 0),
    ("slow services", "ticks 5, run 9", 0, 0),
    ("a long drift", "run 4, to 20000", 0, 0),
    ("batches in turn on one module", "batches 5", 0, 0),
    ("one module with 32 services", "services 32", 0, 0),
    (
        "many services and batches",
        "services 32, batches 8, to 3000",
        0,
        0,
    ),
    (
        "two modules, two each",
        "modules 2, batches 4, each 2",
        0,
        0,
    ),
    ("pairs compete", "modules 3, batches 9, each 2, run 3", 0, 0),
    ("an exchange at once", "exchanges 1", 1, 0),
    (
        "an exchange in the middle of a batch",
        "exchanges 2, apart 9, run 5, to 3000",
        2,
        0,
    ),
    (
        "exchanges between batches",
        "batches 6, exchanges 4, apart 25",
        4,
        0,
    ),
    (
        "exchanges under pairs",
        "modules 3, batches 6, each 2, exchanges 6, apart 20",
        6,
        0,
    ),
    (
        "an exchange at once and one that never comes",
        "exchanges 2, apart 100000",
        1,
        0,
    ),
    ("the desk", "orders 8", 0, 8),
    ("the desk under a batch", "orders 20, apart 2, run 6", 0, 16),
    (
        "all at once",
        "modules 4, batches 8, each 2, exchanges 5, apart 15, orders 12",
        5,
        12,
    ),
    ("sixteen modules", "modules 16, batches 16, to 1500", 0, 0),
    ("64 modules", "modules 64, batches 64", 0, 0),
    (
        "64 modules and 128 batches",
        "modules 64, batches 128, exchanges 8, apart 40, orders 8",
        8,
        8,
    ),
];

// The numbers that a text changes.
fn numbers_of(text: &str) -> Result<Numbers, Fail> {
    let mut numbers = Numbers {
        modules: 1,
        services: 1,
        ticks: 1,
        run: 1,
        to: 0,
        batches: 1,
        each: 1,
        exchanges: 0,
        orders: 0,
        apart: 0,
    };
    for part in text.split(", ") {
        let Some((key, number)) = part.split_once(" ") else {
            continue;
        };
        let number: u32 = number.parse().ok().ok_or("no number")?;
        match key {
            "modules" => numbers.modules = number,
            "services" => numbers.services = number,
            "ticks" => numbers.ticks = number,
            "run" => numbers.run = number,
            "to" => numbers.to = number,
            "batches" => numbers.batches = number,
            "each" => numbers.each = number,
            "exchanges" => numbers.exchanges = number,
            "orders" => numbers.orders = number,
            "apart" => numbers.apart = number,
            _ => return Err(Fail::from("no key")),
        }
    }
    Ok(numbers)
}

// A comma before all but the first.
fn comma(text: &mut String, place: u32) -> Result<(), AllocError> {
    if place == 0 {
        return Ok(());
    }
    text.push_str(",")
}

// The description of a module, with this version.
fn description(alloc: Global, numbers: &Numbers, version: &str) -> Result<String, AllocError> {
    let mut text = format!(in alloc; r#"{{"type":"Doser","version":"{version}","services":["#)?;
    for place in 0..numbers.services {
        comma(&mut text, place)?;
        let service = format!(in alloc;
            r#"{{"name":"s{place}","procedures":[{{"number":1,"default":true,"self_completing":true}}]}}"#
        )?;
        text.push_str(service.as_str())?;
    }
    text.push_str(r#"],"variables":[{"name":"level","kind":"AnaView"}]}"#)?;
    Ok(text)
}

// How a module is simulated.
fn plan(alloc: Global, numbers: &Numbers) -> Result<String, AllocError> {
    let Numbers { ticks, run, to, .. } = *numbers;
    format!(in alloc;
        r#"{{"ticks":{ticks},"run":{run},"drift":[{{"name":"level","from":0,"by":500,"to":{to}}}]}}"#
    )
}

// The modules, each with its description and its simulation.
fn modules(alloc: Global, numbers: &Numbers, site: &mut String) -> Result<(), AllocError> {
    let plan = plan(alloc, numbers)?;
    let first = description(alloc, numbers, "1.0.0")?;
    site.push_str(r#"{"modules":["#)?;
    for place in 0..numbers.modules {
        comma(site, place)?;
        let module = format!(in alloc; r#"{{"tag":"M{place}","desc":{first},"sim":{plan}}}"#)?;
        site.push_str(module.as_str())?;
    }
    site.push_str("]")
}

// How many entries the exchange or the command of the desk at this place waits for.
fn waited(numbers: &Numbers, place: u32) -> u32 {
    place
        .saturating_mul(numbers.apart)
        .min(LONGEST_HISTORY as u32)
}

// The exchanges, each with what takes the module's place.
fn exchanges(alloc: Global, numbers: &Numbers, site: &mut String) -> Result<(), AllocError> {
    let plan = plan(alloc, numbers)?;
    let next = description(alloc, numbers, "1.1.0")?;
    site.push_str(r#","exchanges":["#)?;
    for place in 0..numbers.exchanges {
        comma(site, place)?;
        let tag = place % numbers.modules.max(1);
        let after = waited(numbers, place);
        let exchange = format!(in alloc;
            r#"{{"tag":"M{tag}","after":{after},"desc":{next},"sim":{plan}}}"#
        )?;
        site.push_str(exchange.as_str())?;
    }
    site.push_str("]")
}

// The recipe: a step on each of its modules, all at once where there are more.
fn recipe(alloc: Global, numbers: &Numbers, site: &mut String) -> Result<(), AllocError> {
    let mut roles = String::new(alloc);
    let mut steps = String::new(alloc);
    for place in 0..numbers.each {
        comma(&mut roles, place)?;
        comma(&mut steps, place)?;
        let role = format!(in alloc; r#"{{"role":"R{place}","type":"Doser","version":"^1"}}"#)?;
        roles.push_str(role.as_str())?;
        let service = place % numbers.services.max(1);
        let step = format!(in alloc;
            r#"{{"step":"s{place}","role":"R{place}","service":"s{service}","procedure":1}}"#
        )?;
        steps.push_str(step.as_str())?;
    }
    let kind = if numbers.each > 1 { "par" } else { "seq" };
    let recipe = format!(in alloc;
        r#","recipes":[{{"recipe":"one","roles":[{roles}],"chart":{{"{kind}":[{steps}]}}}}]"#
    )?;
    site.push_str(recipe.as_str())
}

// Which modules a batch runs on.
fn binds(alloc: Global, numbers: &Numbers, batch: u32) -> Result<String, AllocError> {
    let mut text = String::new(alloc);
    for place in 0..numbers.each {
        comma(&mut text, place)?;
        let tag = batch.saturating_add(place) % numbers.modules.max(1);
        let bind = format!(in alloc; r#""R{place}":"M{tag}""#)?;
        text.push_str(bind.as_str())?;
    }
    Ok(text)
}

// The batches.
fn batches(alloc: Global, numbers: &Numbers, site: &mut String) -> Result<(), AllocError> {
    site.push_str(r#","batches":["#)?;
    for place in 0..numbers.batches {
        comma(site, place)?;
        let binds = binds(alloc, numbers, place)?;
        let batch = format!(in alloc;
            r#"{{"batch":"B{place}","recipe":"one","bind":{{{binds}}}}}"#
        )?;
        site.push_str(batch.as_str())?;
    }
    site.push_str("]")
}

// The commands of the desk.
fn orders(alloc: Global, numbers: &Numbers, site: &mut String) -> Result<(), AllocError> {
    site.push_str(r#","desk":["#)?;
    for place in 0..numbers.orders {
        comma(site, place)?;
        let tag = place % numbers.modules.max(1);
        let after = waited(numbers, place);
        let order = format!(in alloc;
            r#"{{"tag":"M{tag}","service":"s0","CommandOp":4,"after":{after}}}"#
        )?;
        site.push_str(order.as_str())?;
    }
    site.push_str("]}\n")
}

// A site of so many things.
fn site_of(alloc: Global, numbers: &Numbers) -> Result<String, AllocError> {
    let mut site = String::new(alloc);
    modules(alloc, numbers, &mut site)?;
    exchanges(alloc, numbers, &mut site)?;
    recipe(alloc, numbers, &mut site)?;
    batches(alloc, numbers, &mut site)?;
    orders(alloc, numbers, &mut site)?;
    Ok(site)
}

#[test]
fn twenty_sites_come_to_their_end(rt: HostRuntime) -> Result<(), Fail> {
    let alloc = rt.alloc();
    for (title, text, exchanges, orders) in SITES {
        let numbers = numbers_of(text)?;
        let site = site_of(alloc, &numbers)?;
        let printed = run_site(&rt, alloc, "pol --job plant", site.as_str())?;
        let output = printed.output.as_str();
        let completed = lines_with(output, "\"outcome\":\"Completed\"");
        assert_eq!(rt; completed, numbers.batches, "{title}");
        let begun = lines_with(output, "\"ev\":\"exchange_begin\"");
        assert_eq!(rt; begun, exchanges, "{title}");
        let ended = accepted_with(output, "\"ev\":\"exchange_end\"");
        assert_eq!(rt; ended, exchanges, "{title}");
        assert_eq!(rt; lines_with(output, "\"ev\":\"desk\""), orders, "{title}");
        assert_eq!(rt; accepted_with(output, "\"ev\":\"desk\""), 0, "{title}");
    }
    Ok(())
}
