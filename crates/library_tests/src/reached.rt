//! Which words of a program streams come to. That few words are found is in no clause.

use crate::sources::image_of;
use reachable_places::{reachable_places, unreached_rows};
use std::alloc::Global;

/// The words of a call and its return, of a skip and of a trap handler: no stream can reach 4, after a QUIT, 6, after a
/// JUMP that always goes, 8, which is skipped, nor 10 and 11, after a QUIT again.
const SOURCE: &str = ".slim 1
.entry 0
.trap handler
TLIT t1, called
SKIP EQ, 0, other
CALL t1, t2
QUIT
ADD r1, r1, 1
called: JUMP ALWAYS, 0, t2
ADD r1, r1, 2
other: SKIP ALWAYS, 0, end
ADD r1, r1, 3
end: QUIT
ADD r1, r1, 4
ADD r1, r1, 5
handler: XCHG t0
QUIT
.data 0
";

/// Whether these are the marks of a program's words.
fn are_marks(alloc: Global, source: &str, marks: &[bool]) -> Option<bool> {
    let image = image_of(alloc, source)?;
    let places = reachable_places(alloc, &image).ok()?;
    Some(places.as_slice() == marks)
}

/// Whether these are the first words of the rows to which no way leads.
fn are_rows(alloc: Global, source: &str, expected: &[usize]) -> Option<bool> {
    let image = image_of(alloc, source)?;
    let rows = unreached_rows(alloc, &image).ok()?;
    Some(rows.as_slice() == expected)
}

#[test]
fn words_to_which_ways_lead(rt: HostRuntime) {
    let marks = [
        true, true, true, true, false, true, false, true, false, true, false, false, true, true,
    ];
    assert!(rt; are_marks(rt.alloc(), SOURCE, &marks) == Some(true));
    assert!(rt; are_rows(rt.alloc(), SOURCE, &[4, 6, 8, 10]) == Some(true));
}

#[test]
fn a_target_that_may_be_any_leads_to_all(rt: HostRuntime) {
    let open = ".slim 1\n.entry 0\nTSET t1, r1\nQUIT\nADD r1, r1, 1\n.data 0\n";
    assert!(rt; are_marks(rt.alloc(), open, &[true, true, true]) == Some(true));
    let closed = ".slim 1\n.entry 0\nQUIT\nTSET t1, r1\nADD r1, r1, 1\n.data 0\n";
    assert!(rt; are_marks(rt.alloc(), closed, &[true, false, false]) == Some(true));
}
