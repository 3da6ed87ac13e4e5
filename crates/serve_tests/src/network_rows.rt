//! The examples that stand in `examples/` as lines: the small network of the README, and two claims of one network.

use crate::checks::check_runs;
use std::test::Fail;

#[test]
fn answers_the_examples(rt: HostRuntime) -> Result<(), Fail> {
    check_runs(&rt, rt.alloc(), "SMALL_NETWORK\n\nCLAIMS")
}
