//! A sink that only counts.
use super::words_of;
use eb_base::OpenGate;
use eb_io::{CountSink, MemSource};
use eb_lines::Status;
use eb_run::run;
use std::test::Fail;

#[test]
fn a_sink_that_counts_takes_the_whole_text(rt: HostRuntime) -> Result<(), Fail> {
    let alloc = rt.alloc();
    let words = words_of(alloc, "run --segments=1 --terms 1024")?;
    let input = b"?5 a\n{\"id\":1,\"text\":\"a\"}\n?5 a\n";
    let mut source = MemSource::new(alloc, input, 5, &[])?;
    let mut out = CountSink::new();
    let mut err = CountSink::new();
    let status = run(
        &rt,
        alloc,
        &words,
        &mut source,
        &mut out,
        &mut err,
        &OpenGate,
    );
    assert_eq!(rt; (status, out.count(), err.count()), (Status::Done, 61, 0));
    Ok(())
}
