//! What a command line of `mta_lab` can ask for.
#![tactic(auto)]

mod file_requests;
mod requests;

pub use file_requests::{
    CheckRequest, ExerciseRequest, ExerciseTask, FileKind, GalleryRequest, Idiom, LayoutRequest,
};
pub use requests::{
    Bounds, Colours, ExploreRequest, GradeCases, GradeFormat, GradeRequest, LabCall, LabCommand,
    MOST_PLAYED, Maker, MergeRequest, PageRequest, PlayRequest, RunChoice, Shown, SurveyRequest,
    Undecided, ViewRequest,
};
