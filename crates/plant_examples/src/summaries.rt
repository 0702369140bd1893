//! Summary lines of some seeds.
use pol_demo::demo_line;
use std::test::Fail;

#[test]
fn each_tenth_batch_has_a_busy_start(rt: HostRuntime) -> Result<(), Fail> {
    for (seed, want) in [
        (0, "{\"answers\":1028,\"closed\":1,\"refused\":0}\n"),
        (9, "{\"answers\":10128,\"closed\":10,\"refused\":1}\n"),
        (
            4_294_967_295,
            "{\"answers\":16194,\"closed\":16,\"refused\":1}\n",
        ),
    ] {
        let line = demo_line(rt.alloc(), seed)?;
        assert_eq!(rt; line.as_slice(), want.as_bytes(), "of {seed}");
    }
    Ok(())
}
