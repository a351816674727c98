//! Which lines have colours.

use crate::lab::Terminals;
use lab_requests::{Colours, GradeFormat, LabCall, LabCommand};

/// Which of the streams get lines with colours.
#[derive(Clone, Copy)]
pub(crate) struct Painting {
    /// Standard output does.
    pub output: bool,
    /// Standard error does.
    pub errors: bool,
}

impl Painting {
    /// None.
    pub(crate) const NONE: Painting = Painting {
        output: false,
        errors: false,
    };

    /// Those of a call: of what is printed, answers for people alone.
    pub(crate) fn of(call: &LabCall, terminals: Terminals) -> Painting {
        let asked = Painting::by(call.colours, terminals);
        Painting {
            output: asked.output && is_for_people(&call.command),
            errors: asked.errors,
        }
    }

    /// Those on which lines for people get them.
    pub(crate) fn by(colours: Colours, terminals: Terminals) -> Painting {
        match colours {
            Colours::Always => Painting {
                output: true,
                errors: true,
            },
            Colours::Never => Painting::NONE,
            Colours::Auto => Painting {
                output: terminals.output && !terminals.refuse_colours,
                errors: terminals.errors && !terminals.refuse_colours,
            },
        }
    }
}

/// Whether the answer of a command has outcomes, for people: no JSON, no schedule and no source text.
fn is_for_people(command: &LabCommand) -> bool {
    match command {
        LabCommand::View(request) => !request.shown.json,
        LabCommand::Compare { shown, .. } => !shown.json,
        LabCommand::Survey(request) => !request.shown.json,
        LabCommand::Explore(request) => !request.shown.json,
        LabCommand::Grade(request) => request.format == GradeFormat::Text,
        LabCommand::Merge(request) => request.format == GradeFormat::Text,
        LabCommand::Exercise(_) | LabCommand::Debug { .. } => true,
        LabCommand::Check(_)
        | LabCommand::Schedule { .. }
        | LabCommand::Adapt
        | LabCommand::ServeLanguage
        | LabCommand::Page(_)
        | LabCommand::Picture(_)
        | LabCommand::Play(_)
        | LabCommand::Gallery(_)
        | LabCommand::Explain { .. }
        | LabCommand::Word { .. }
        | LabCommand::LayOut(_)
        | LabCommand::New { .. }
        | LabCommand::Assemble { .. } => false,
    }
}
