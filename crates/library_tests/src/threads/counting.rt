//! Sixteen processors that count one word up, all at once.
use super::runs::{Came, run_under};
use memory_lock::FreeGate;
use tag_memory::Word;

const SIXTEEN: &str =
    ".slim 1\n.entry 0\n.entry 0\n.entry 0\n.entry 0\n.entry 0\n.entry 0\n.entry 0\n\
    .entry 0\n.entry 0\n.entry 0\n.entry 0\n.entry 0\n.entry 0\n.entry 0\n.entry 0\n.entry 0\n";

/// Each adds 1 to word 1 a hundred times, in 302 steps.
const COUNT: &str =
    "LIT r2, 100\nLIT r1, 1\nFADD.N r1, r0, 1 | SUB.T r2, r2, 1\nSKIP NE, 0, -3\nQUIT\n\
    .data 0\n.data 0\n";

fn are_all_counted(came: Came) -> bool {
    (came.requests, came.steps) == (1_600, 4_832) && came.second == Word::from_number(1_600, 1)
}

#[test]
fn sixteen_processors_count_one_word_up(rt: HostRuntime) {
    let came = run_under(&rt, SIXTEEN, COUNT, 400, &FreeGate);
    let are_counted = match came {
        Some(came) => are_all_counted(came),
        None => false,
    };
    assert!(rt; are_counted);
}
