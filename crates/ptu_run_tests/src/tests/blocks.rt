//! Runs whose output is handed on in blocks.

use crate::tests::pieces::{ONE_ASK, no_judges, shut};
use ptu_run::{BLOCK, run_in_blocks};
use std::io::{self, ErrorKind, Write};
use std::test::Fail;

// An output that is lost: whatever is written to it, it fails.
#[derive(Drop)]
struct Lost;

impl Write for Lost {
    fn write(&mut self, _: &[u8]) -> io::Result<usize> {
        Err(ErrorKind::BrokenPipe.into())
    }

    fn flush(&mut self) -> io::Result<()> {
        Ok(())
    }
}

// Refuses a program that ends with the status of its run whatever becomes of the last block, or of
// a line that is not kept for one.
#[test]
fn a_last_block_that_is_lost_is_a_fault_of_the_output(rt: HostRuntime) -> Result<(), Fail> {
    let alloc = rt.alloc();
    for (word, input) in [("replay", ONE_ASK), ("show", "0c1\n"), ("show", "")] {
        for block in [BLOCK, 0] {
            let mut host = shut(alloc);
            let stock = no_judges(alloc);
            let input = input.as_bytes();
            let status = run_in_blocks(&rt, &[word], block, input, Lost, &mut host, stock);
            drop(host);
            assert_eq!(rt; status, 67);
        }
    }
    Ok(())
}
