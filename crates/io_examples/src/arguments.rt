//! The words of the command line.
use given::words_of;
use pol_arguments::{LiveTask, SerialTask, Task, WordFault, read_words};
use std::test::Fail;

/// Words that ask for a task.
const TASKS: [(&str, Task); 17] = [
    ("pol --job replay", Task::Serial(SerialTask::Replay)),
    ("pol --job=replay", Task::Serial(SerialTask::Replay)),
    ("pol --job=demo --seed 0", Task::Serial(SerialTask::Demo(0))),
    (
        "pol --seed=4294967295 --job demo",
        Task::Serial(SerialTask::Demo(4_294_967_295)),
    ),
    ("pol --job plant", Task::Live(LiveTask { watchers: 0 })),
    (
        "pol --job plant --watchers 0",
        Task::Live(LiveTask { watchers: 0 }),
    ),
    (
        "pol --watchers=16 --job plant",
        Task::Live(LiveTask { watchers: 16 }),
    ),
    ("pol --job audit", Task::Serial(SerialTask::Audit)),
    ("pol --job=audit", Task::Serial(SerialTask::Audit)),
    ("pol --job attest", Task::Serial(SerialTask::Attest)),
    ("pol --job find", Task::Serial(SerialTask::Find)),
    ("pol --job guard", Task::Serial(SerialTask::Guard)),
    ("pol --job migrate", Task::Serial(SerialTask::Migrate)),
    ("pol --job keep", Task::Keep),
    ("pol --job export", Task::Export),
    ("pol --job compact", Task::Compact),
    ("pol --job operate", Task::Operate),
];

/// Words that ask for none.
const REFUSED: [&str; 24] = [
    "pol",
    "pol replay",
    "pol --job",
    "pol --job fly",
    "pol --job demo",
    "pol --job demo --seed",
    "pol --job demo --seed 4294967296",
    "pol --job demo --seed -1",
    "pol --job demo --seed one",
    "pol --seed 1",
    "pol --job replay --seed 1",
    "pol --job replay --job replay",
    "pol --job plant --watchers 17",
    "pol --job plant --watchers -1",
    "pol --job plant --seed 1",
    "pol --job replay --watchers 0",
    "pol --job audit --seed 1",
    "pol --job audit --watchers 0",
    "pol --job attest --seed 1",
    "pol --job guard --seed 1",
    "pol --job find --watchers 1",
    "pol --job keep --seed 1",
    "pol --job keep --watchers 0",
    "pol --help",
];

#[test]
fn only_the_words_of_a_job_give_a_task(rt: HostRuntime) -> Result<(), Fail> {
    for (line, task) in TASKS {
        let words = words_of(rt.alloc(), line)?;
        assert_eq!(rt; read_words(rt.alloc(), &words), Ok(task), "{line}");
    }
    for line in REFUSED {
        let words = words_of(rt.alloc(), line)?;
        assert_eq!(rt;
            read_words(rt.alloc(), &words),
            Err(WordFault::Refused),
            "{line}"
        );
    }
    Ok(())
}
