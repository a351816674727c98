//! What a command line of `mta_lab` asks for.

use crate::file_requests::{CheckRequest, ExerciseRequest, GalleryRequest, Idiom, LayoutRequest};

/// A rule that makes schedules.
#[derive(Clone, Copy, Debug, PartialEq, Eq)]
pub enum Maker {
    /// The running streams in the order of processor and stream, again and again.
    Rounds,
    /// The processors in turn, and within each its running streams in turn.
    Fair,
    /// One of the running streams at each step, by a generator with this seed.
    Random { seed: u64 },
}

/// By which schedule a program runs.
#[derive(Clone, Copy, Debug)]
pub enum RunChoice<'a> {
    /// By that of a file.
    File(&'a str),
    /// By a rule, for so many steps at most.
    Made { maker: Maker, most: usize },
}

/// How answers are printed.
#[derive(Clone, Copy, Debug)]
pub struct Shown {
    /// Numbers are hexadecimal.
    pub hexadecimal: bool,
    /// Answers are JSON, an object a line.
    pub json: bool,
}

/// What `view` is asked.
#[derive(Clone, Copy, Debug)]
pub struct ViewRequest<'a> {
    /// The program: a source text or an image.
    pub program: &'a str,
    /// The file of the words of a case, which take the place of the program's own; None: its own.
    pub given: Option<&'a str>,
    /// Its schedule.
    pub run: RunChoice<'a>,
    /// The first step that is shown, from 1.
    pub from: usize,
    /// The last step that is shown.
    pub to: usize,
    /// The only stream that is shown, as it was given.
    pub only: Option<&'a str>,
    /// The only word whose steps are shown, as it was given: its byte address or its name.
    pub word: Option<&'a str>,
    /// The register or word of which the steps alone are shown that its value comes from, as it was given; None: as above.
    pub why: Option<&'a str>,
    /// A column a stream.
    pub columns: bool,
    /// Whether each step has a line, also where a loop repeats.
    pub are_all: bool,
    /// How many of the last steps are shown as a round, at least 1; None: none is marked.
    pub round: Option<usize>,
    /// How it is printed.
    pub shown: Shown,
}

/// What `page` or `picture` is asked.
#[derive(Clone, Copy, Debug)]
pub struct PageRequest<'a> {
    /// The program: a source text or an image.
    pub program: &'a str,
    /// The file of the words of a case, which take the place of the program's own; None: its own.
    pub given: Option<&'a str>,
    /// Its schedule.
    pub run: RunChoice<'a>,
    /// The schedule of a second run, which a page shows beside the first; None where it shows one run.
    pub other: Option<RunChoice<'a>>,
    /// The first step that a picture shows, from 1.
    pub from: usize,
    /// The last step that a picture shows.
    pub to: usize,
    /// How many of the last steps a page of one run shows as a round, at least 1; None: none is marked.
    pub round: Option<usize>,
    /// What the program is called; None where its file's name says it.
    pub title: Option<&'a str>,
    /// The file that is written.
    pub out: &'a str,
}

/// The most states of a page of `play`, and how many it has at most, where none are said.
pub const MOST_PLAYED: usize = 100_000;

/// What `play` is asked.
#[derive(Clone, Copy, Debug)]
pub struct PlayRequest<'a> {
    /// The program: a source text or an image.
    pub program: &'a str,
    /// The file of the words of a case, which take the place of the program's own; None: its own.
    pub given: Option<&'a str>,
    /// The file of what each end has to be, and what is claimed of each world.
    pub expected: Option<&'a str>,
    /// The file of the schedule that all schedules begin with.
    pub from: Option<&'a str>,
    /// The most states, at least 1 and at most [`MOST_PLAYED`].
    pub states: usize,
    /// What the program is called; None where its file's name says it.
    pub title: Option<&'a str>,
    /// The kind or the number of the end that is the reader's first goal.
    pub goal: Option<&'a str>,
    /// The file that is written.
    pub out: &'a str,
}

/// How far a search among all schedules goes.
#[derive(Clone, Copy, Debug)]
pub struct Bounds {
    /// The most worlds that are looked for, at least 1.
    pub worlds: usize,
    /// The most seconds that it takes.
    pub seconds: Option<u64>,
    /// The most megabytes, of 1,000,000 bytes, that what it holds takes, with its machines.
    pub megabytes: Option<usize>,
    /// The most megabytes that the process takes, other searches among it; None: as many as this one.
    pub megabytes_in_all: Option<usize>,
}

/// What `survey` is asked.
#[derive(Clone, Copy, Debug)]
pub struct SurveyRequest<'a> {
    /// The program: a source text or an image.
    pub program: &'a str,
    /// The file of the words of a case, which take the place of the program's own; None: its own.
    pub given: Option<&'a str>,
    /// How many seeds, at least 1.
    pub seeds: usize,
    /// The first of them.
    pub first: u64,
    /// The most steps of each schedule.
    pub most: usize,
    /// The file of what each end has to be.
    pub expected: Option<&'a str>,
    /// Beside it all schedules, to say how many of their ends were met, and how far they are looked for.
    pub explored: Option<Bounds>,
    /// How it is printed.
    pub shown: Shown,
}

/// What `explore` is asked.
#[derive(Clone, Copy, Debug)]
pub struct ExploreRequest<'a> {
    /// The program: a source text or an image.
    pub program: &'a str,
    /// The file of the words of a case, which take the place of the program's own; None: its own.
    pub given: Option<&'a str>,
    /// The file of what each end has to be, and what is claimed of each world.
    pub expected: Option<&'a str>,
    /// The file of the schedule that all schedules begin with.
    pub from: Option<&'a str>,
    /// How far the search goes.
    pub bounds: Bounds,
    /// Whether all worlds are looked for, also where the ends need fewer.
    pub is_plain: bool,
    /// Whether it is asked who can wait forever, among all worlds.
    pub asks_who_waits: bool,
    /// The folder for the shortest schedules.
    pub keep: Option<&'a str>,
    /// The folder for the pages of their runs.
    pub pages: Option<&'a str>,
    /// The file for the graph of the worlds.
    pub dot: Option<&'a str>,
    /// How it is printed.
    pub shown: Shown,
}

/// How the answer of `grade` is written.
#[derive(Clone, Copy, Debug, PartialEq, Eq)]
pub enum GradeFormat {
    /// A line a submission, for people.
    Text,
    /// A line a submission, of fields that are apart by tabs.
    Tsv,
    /// JSON, an object a line.
    Json,
    /// The XML of JUnit's reports.
    Junit,
    /// The JSON of Gradescope's results.
    Gradescope,
    /// Moodle's grading table, as CSV.
    Moodle,
}

/// How a case counts that is not decided.
#[derive(Clone, Copy, Debug, PartialEq, Eq)]
pub enum Undecided {
    /// As one without a score.
    Unscored,
    /// As if it were right.
    Right,
    /// As if it were wrong.
    Wrong,
}

/// What submissions are judged by.
#[derive(Clone, Copy, Debug)]
pub enum GradeCases<'a> {
    /// By one file of what each end has to be.
    One {
        /// That file.
        expected: &'a str,
        /// The file of the cells that take the place of a submission's own.
        given: Option<&'a str>,
    },
    /// By the cases of a folder.
    Folder(&'a str),
}

/// What `grade` is asked.
#[derive(Drop)]
pub struct GradeRequest<'a> {
    /// What submissions are judged by.
    pub cases: GradeCases<'a>,
    /// How many seeds, at least 1.
    pub seeds: usize,
    /// The most steps of each schedule.
    pub most: usize,
    /// Whether the ends of all seeds are counted too.
    pub counts_all: bool,
    /// All schedules before seeds, and how far they are looked for, of each submission and case.
    pub explored: Option<Bounds>,
    /// Whether seeds come before them, and each search is made again with more megabytes while these end it.
    pub is_thorough: bool,
    /// Whether a submission that lacks a name of a case's words is refused.
    pub needs_names: bool,
    /// The most megabytes that the searches of submissions which are judged side by side take together.
    pub megabytes_in_all: Option<usize>,
    /// How many submissions are judged side by side, at least 1; None: as many as there are processors.
    pub jobs: Option<usize>,
    /// Whether a submission that is a symbolic link is not read.
    pub refuses_links: bool,
    /// The folder for the page of each submission that is not right.
    pub pages: Option<&'a str>,
    /// The submissions, one at least: source texts or images.
    pub submissions: Vec<&'a str>,
    /// Which part of them is judged, as `I/N`; None: all.
    pub part: Option<&'a str>,
    /// The file in which the results are kept, and from which those that are there are taken.
    pub results: Option<&'a str>,
    /// The version of the program, which kept results depend on.
    pub version: &'a str,
    /// The folder for a text for each student.
    pub feedback: Option<&'a str>,
    /// How the answer is written.
    pub format: GradeFormat,
    /// How a case counts that is not decided.
    pub undecided: Undecided,
    /// Numbers of words are hexadecimal.
    pub hexadecimal: bool,
}

/// What `grade --merge` is asked.
#[derive(Drop)]
pub struct MergeRequest<'a> {
    /// The files of results, one at least.
    pub results: Vec<&'a str>,
    /// How the answer is written.
    pub format: GradeFormat,
    /// How a case counts that is not decided.
    pub undecided: Undecided,
}

/// When lines for people have colours.
#[derive(Clone, Copy, Debug, PartialEq, Eq)]
pub enum Colours {
    /// On a terminal, unless the environment says no.
    Auto,
    /// Always.
    Always,
    /// Never.
    Never,
}

/// A command, and how its lines are shown.
#[derive(Drop)]
pub struct LabCall<'a> {
    /// The command.
    pub command: LabCommand<'a>,
    /// When its lines have colours.
    pub colours: Colours,
}

/// What a command line asks for. Files are named by their paths, `-` being standard input.
#[derive(Drop)]
pub enum LabCommand<'a> {
    /// Judges files.
    Check(CheckRequest<'a>),
    /// Makes a schedule.
    Schedule {
        program: &'a str,
        maker: Maker,
        most: usize,
    },
    /// Shows a run.
    View(ViewRequest<'a>),
    /// Goes forward and back in a run, by the lines of standard input.
    Debug {
        program: &'a str,
        given: Option<&'a str>,
        run: RunChoice<'a>,
    },
    /// Answers the requests of an editor that debugs.
    Adapt,
    /// Answers what an editor asks of source texts.
    ServeLanguage,
    /// Shows where two schedules of a program part.
    Compare {
        program: &'a str,
        given: Option<&'a str>,
        one: RunChoice<'a>,
        other: RunChoice<'a>,
        shown: Shown,
    },
    /// Runs many random schedules, and counts their ends.
    Survey(SurveyRequest<'a>),
    /// Shows every end that schedules of a program come to.
    Explore(ExploreRequest<'a>),
    /// Judges submissions.
    Grade(GradeRequest<'a>),
    /// Makes one table of results that were kept.
    Merge(MergeRequest<'a>),
    /// Lists exercises, judges the program of one, or shows a hint of it.
    Exercise(ExerciseRequest<'a>),
    /// Writes a page that shows a run, or two.
    Page(PageRequest<'a>),
    /// Writes a picture of a run's lanes.
    Picture(PageRequest<'a>),
    /// Writes a page on which the reader is the scheduler.
    Play(PlayRequest<'a>),
    /// Writes pages of examples and exercises, and a page with a card of each.
    Gallery(GalleryRequest<'a>),
    /// Says what a word means, or a name of several words; without one, which words have a page.
    Explain {
        words: Vec<&'a str>,
    },
    /// Says what an instruction word says, by its digits or its text, whose words these are.
    Word {
        words: Vec<&'a str>,
    },
    /// Lays source texts out.
    LayOut(LayoutRequest<'a>),
    /// Writes a program to begin with, of this name.
    New {
        name: &'a str,
        idiom: Option<Idiom>,
    },
    /// Assembles a source text.
    Assemble {
        source: &'a str,
        image: Option<&'a str>,
    },
}
