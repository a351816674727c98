//! Why no session could begin.

use machine::LoadFault;
use processor::Step;

/// Why a session could not begin, with the schedule that was given for it.
#[derive(Debug, Drop)]
pub struct BeginFault {
    /// `Streams` where the image's processors have more streams than there is room for, or `NoMemory`.
    pub kind: LoadFault,
    /// The schedule, as it was given.
    pub schedule: Vec<Step>,
}
