//! Standard input as a file that a command reads: it can be read once, and has no name.

use lab_requests::{
    CheckRequest, ExploreRequest, GradeCases, GradeRequest, LabCommand, PageRequest, PlayRequest,
    RunChoice, SurveyRequest, ViewRequest,
};

/// The paths by which standard input is named.
const STANDARD_INPUTS: [&str; 4] = ["-", "/dev/stdin", "/dev/fd/0", "/proc/self/fd/0"];

/// Why a command can't be done with standard input as it is named: it would read it twice, or call a file by its name.
pub(crate) fn misused_input(command: &LabCommand) -> Option<&'static str> {
    let count = standard_inputs(command);
    if makes_its_image(command) && count > 0 {
        Some("standard input has no name to call the image by: --out IMAGE says where it goes")
    } else if reads_lines(command) && count > 0 {
        Some("debug reads its lines from standard input, so - can be none of its files")
    } else if count > 1 {
        Some("standard input, -, is named twice, and can be read once")
    } else {
        None
    }
}

/// Whether a command makes an image that is called as its source.
fn makes_its_image(command: &LabCommand) -> bool {
    matches!(command, LabCommand::Assemble { image: None, .. })
}

/// Whether a command reads lines from standard input, beside its files.
fn reads_lines(command: &LabCommand) -> bool {
    matches!(command, LabCommand::Debug { .. })
}

/// How many of the files that a command reads are standard input.
fn standard_inputs(command: &LabCommand) -> usize {
    match command {
        LabCommand::Check(request) => of_check(request),
        LabCommand::Schedule { program, .. } => count_of(&[Some(*program)]),
        LabCommand::View(request) => of_view(request),
        LabCommand::Debug {
            program,
            given,
            run,
        } => count_of(&[Some(*program), *given, file_of(*run)]),
        LabCommand::Compare {
            program,
            given,
            one,
            other,
            ..
        } => count_of(&[Some(*program), *given, file_of(*one), file_of(*other)]),
        LabCommand::Survey(request) => of_survey(request),
        LabCommand::Explore(request) => of_explore(request),
        LabCommand::Grade(request) => of_grade(request),
        LabCommand::Merge(request) => count_in(&request.results),
        LabCommand::Page(request) | LabCommand::Picture(request) => of_page(request),
        LabCommand::Play(request) => of_play(request),
        LabCommand::LayOut(request) => count_in(&request.files),
        LabCommand::Assemble { source, .. } => count_of(&[Some(*source)]),
        LabCommand::Adapt
        | LabCommand::ServeLanguage
        | LabCommand::Exercise(_)
        | LabCommand::Gallery(_)
        | LabCommand::Explain { .. }
        | LabCommand::Word { .. }
        | LabCommand::New { .. } => 0,
    }
}

/// The same of `view`.
fn of_view(request: &ViewRequest) -> usize {
    count_of(&[Some(request.program), request.given, file_of(request.run)])
}

/// The same of `survey`.
fn of_survey(request: &SurveyRequest) -> usize {
    count_of(&[Some(request.program), request.given, request.expected])
}

/// The same of `explore`.
fn of_explore(request: &ExploreRequest) -> usize {
    count_of(&[
        Some(request.program),
        request.given,
        request.expected,
        request.from,
    ])
}

/// The same of `page` and `picture`.
fn of_page(request: &PageRequest) -> usize {
    count_of(&[
        Some(request.program),
        request.given,
        file_of(request.run),
        request.other.and_then(file_of),
    ])
}

/// The same of `play`.
fn of_play(request: &PlayRequest) -> usize {
    count_of(&[
        Some(request.program),
        request.given,
        request.expected,
        request.from,
    ])
}

/// The same of `check`.
fn of_check(request: &CheckRequest) -> usize {
    count_in(&request.files).saturating_add(count_of(&[request.program]))
}

/// The same of `grade`.
fn of_grade(request: &GradeRequest) -> usize {
    let cases = match request.cases {
        GradeCases::One { expected, given } => count_of(&[Some(expected), given]),
        GradeCases::Folder(_) => 0,
    };
    count_in(&request.submissions).saturating_add(cases)
}

/// The file of a schedule, if it is not made by a rule.
fn file_of(run: RunChoice<'_>) -> Option<&str> {
    match run {
        RunChoice::File(path) => Some(path),
        RunChoice::Made { .. } => None,
    }
}

/// How many of these paths, as far as they are given, are standard input.
fn count_of(paths: &[Option<&str>]) -> usize {
    let mut count: usize = 0;
    for path in paths {
        if let Some(path) = path
            && is_standard_input(path)
        {
            count = count.saturating_add(1);
        }
    }
    count
}

/// How many of these paths are standard input.
fn count_in(paths: &[&str]) -> usize {
    let mut count: usize = 0;
    for path in paths {
        if is_standard_input(path) {
            count = count.saturating_add(1);
        }
    }
    count
}

fn is_standard_input(path: &str) -> bool {
    STANDARD_INPUTS.iter().any(|name| *name == path)
}
