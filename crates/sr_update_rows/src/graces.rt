//! A grace over two pipes.
use sr_update::{Grace, Saw};

#[test]
fn a_grace_waits_for_each_pipe(rt: HostRuntime) {
    let mut grace = Grace::new(10, 2);
    assert_eq!(rt; grace.saw(0), Saw::Passed, "at rest");
    let behind = Saw::NotYet {
        pipe: 1,
        entered: 9,
    };
    assert_eq!(rt; grace.saw(9), behind, "taken up before the tick");
    assert_eq!(rt; grace.saw(9), behind, "the same pipe again");
    match grace.finish() {
        Ok(_passed) => assert!(rt; false, "a pipe hasn't passed"),
        Err(mut grace) => {
            assert_eq!(rt; grace.saw(11), Saw::Passed, "taken up after it");
            assert!(rt; grace.finish().is_ok());
        }
    }
}
