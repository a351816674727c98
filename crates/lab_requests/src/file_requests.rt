//! What the commands are asked that read and write files of a student.

/// The kinds of files that `check` judges.
#[derive(Clone, Copy, Debug, PartialEq, Eq)]
pub enum FileKind {
    /// A source text.
    Source,
    /// An image's bytes.
    Image,
    /// A schedule's text.
    Schedule,
    /// A file of expectations.
    Expectations,
}

/// What `check` is asked.
#[derive(Drop)]
pub struct CheckRequest<'a> {
    /// The files, one at least.
    pub files: Vec<&'a str>,
    /// The kind of all of them; None if the kind of each is known by its beginning and its name.
    pub kind: Option<FileKind>,
    /// The program whose schedules these are, and of which the expectations are.
    pub program: Option<&'a str>,
    /// Warnings count as errors.
    pub strict: bool,
    /// Messages are JSON, an object a line.
    pub json: bool,
}

/// What is done with an exercise.
#[derive(Clone, Copy, Debug)]
pub enum ExerciseTask<'a> {
    /// Its program is judged.
    Judge,
    /// This hint of it is shown, from 1.
    Hint(usize),
    /// Its program is judged, and a page of the run that is not right is written to this file.
    Page(&'a str),
    /// The same with a page of all schedules, on which the reader is the scheduler.
    Play(&'a str),
    /// Its program becomes what it was before the first edit.
    Reset,
    /// Its program is judged again each time that its file changes.
    Watch,
}

/// What `exercise` is asked.
#[derive(Clone, Copy, Debug)]
pub struct ExerciseRequest<'a> {
    /// The folder of the exercises.
    pub folder: &'a str,
    /// The number of an exercise, or its name; None: all are listed.
    pub which: Option<&'a str>,
    /// What is done with it.
    pub task: ExerciseTask<'a>,
}

/// What `gallery` is asked.
#[derive(Clone, Copy, Debug)]
pub struct GalleryRequest<'a> {
    /// The folder that it is written into.
    pub folder: &'a str,
    /// The folder of the exercises.
    pub exercises: &'a str,
    /// The folder of the examples.
    pub examples: &'a str,
}

/// What `fmt` is asked.
#[derive(Drop)]
pub struct LayoutRequest<'a> {
    /// The source texts; none, or `-` alone, is standard input.
    pub files: Vec<&'a str>,
    /// Nothing is written: it is only reported which files would change.
    pub checks: bool,
}

/// A way of working together, of which `new` writes a program to begin with.
#[derive(Clone, Copy, Debug, PartialEq, Eq)]
pub enum Idiom {
    /// One stream at a time is inside.
    Lock,
    /// So many streams at a time are inside.
    Semaphore,
    /// One stream hands values over to another.
    Mailbox,
    /// Streams are served in the order of arrival.
    Ticket,
    /// Nobody goes on before all have come.
    Barrier,
    /// The first stream of a group locks for all of them, and the last one unlocks.
    Switch,
}
