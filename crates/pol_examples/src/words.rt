//! Words of the command line that the program refuses.
use super::runs::run;
use std::test::Fail;

#[test]
fn bad_words_are_a_status_and_read_nothing(rt: HostRuntime) -> Result<(), Fail> {
    let lines = [
        "pol --job fly",
        "pol --job guard --seed 1",
        "pol --job find --watchers 1",
    ];
    for line in lines {
        let (status, same) = run(&rt, rt.alloc(), line, "[]\n", "")?;
        assert_eq!(rt; status, 2, "{line}");
        assert!(rt; same, "{line}");
    }
    Ok(())
}
