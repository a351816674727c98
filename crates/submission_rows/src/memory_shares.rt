//! The megabytes that searches share which go on side by side.

use lab_requests::GradeRequest;
use search_texts::searches::USUAL_MEGABYTES;

/// The megabytes that the search of a submission has at least, where it is not said how many are judged side by side.
const LEAST_MEGABYTES: usize = 200;

/// How many searches have their megabytes side by side, one at least.
pub fn most_searches(request: &GradeRequest) -> usize {
    if request.explored.is_none() {
        return usize::MAX;
    }
    (shared_megabytes(megabytes_in_all(request)) / LEAST_MEGABYTES).max(1)
}

/// How many megabytes all searches of a call may hold.
pub(crate) fn megabytes_in_all(request: &GradeRequest) -> usize {
    request.megabytes_in_all.unwrap_or(USUAL_MEGABYTES)
}

/// How many of so many megabytes each search may hold, if there are so many at a time; one alone may hold all.
pub(crate) fn megabytes_of_each(in_all: usize, searches: usize) -> usize {
    match searches {
        0 | 1 => in_all,
        _ => (shared_megabytes(in_all) / searches).max(1),
    }
}

/// How many of so many megabytes the searches hold that go on side by side. A third is for what no search counts, and for
/// what the process keeps of those that are over.
fn shared_megabytes(in_all: usize) -> usize {
    in_all - in_all / 3
}
