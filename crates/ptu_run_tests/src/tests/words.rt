//! The words whose lines of output are waited for.

use ptu_run::waits_for_lines;
use std::test::Fail;

// Refuses a program that keeps a daemon's lines back in blocks, or those at a terminal.
#[test]
fn lines_of_daemons_are_waited_for(rt: HostRuntime) -> Result<(), Fail> {
    for (words, waits) in [
        (["serve"].as_slice(), true),
        (["slave"].as_slice(), true),
        (["replay"].as_slice(), false),
        ([].as_slice(), false),
    ] {
        assert_eq!(rt; waits_for_lines(false, words), waits);
        assert!(rt; waits_for_lines(true, words));
    }
    Ok(())
}
