//! Findings of runs.

use image_file::Image;
use image_machines::loaded;
use lab_texts::{
    FindingTexts, FindingsOfRun, MOST_STEPS_OF_TORN, Notation, NumberStyle, ProgramNames,
    TextWriter, WordRange, push_first_finding, put_findings,
};
use processor::Step;
use run_findings::Action;
use std::alloc::{AllocError, Global};
use whole_runs::run_actions;

/// What the steps of a run did.
fn actions_of<const S: usize>(
    alloc: Global,
    image: &Image,
    steps: &[Step],
) -> Result<Vec<Action>, AllocError> {
    let mut machine = loaded::<S>(alloc, image)?;
    run_actions(alloc, &mut machine, steps)
}

/// The findings of a run, and what its steps did.
#[derive(Drop)]
pub struct RunFindings {
    found: FindingsOfRun,
    actions: Vec<Action>,
}

impl RunFindings {
    /// The findings of an image's run by these steps.
    pub fn of<const S: usize>(
        alloc: Global,
        image: &Image,
        steps: &[Step],
    ) -> Result<RunFindings, AllocError> {
        let actions = actions_of::<S>(alloc, image, steps)?;
        let found = FindingsOfRun::of(alloc, &actions)?;
        Ok(RunFindings { found, actions })
    }

    /// The numbers of the steps, from 1, that the lines of [`RunFindings::push`] name.
    pub fn numbers_named(&self, alloc: Global) -> Result<Vec<usize>, AllocError> {
        self.found.numbers_named(alloc)
    }

    /// Adds the findings, a line each, and where torn reads were not looked for that.
    pub fn push(
        &self,
        out: &mut String,
        names: &ProgramNames<'_>,
        style: NumberStyle,
    ) -> Result<(), AllocError> {
        let mut text = TextWriter::take(out);
        self.put(&mut text, names, style);
        text.give_back(out)
    }

    /// Adds what [`RunFindings::push`] does.
    pub fn put(&self, out: &mut TextWriter, names: &ProgramNames<'_>, style: NumberStyle) {
        let texts = FindingTexts {
            names,
            style,
            actions: &self.actions,
        };
        put_findings(out, &texts, &self.found);
        if !self.found.is_torn_sought {
            out.put("torn reads are looked for in runs of at most ");
            out.put_number(MOST_STEPS_OF_TORN as u64);
            out.put(" steps\n");
        }
    }
}

/// Adds the findings of an image's run by these steps, a line each, and where torn reads were not looked for that.
pub fn push_findings_of_run<const S: usize>(
    alloc: Global,
    out: &mut String,
    names: &ProgramNames<'_>,
    style: NumberStyle,
    image: &Image,
    steps: &[Step],
) -> Result<(), AllocError> {
    RunFindings::of::<S>(alloc, image, steps)?.push(out, names, style)
}

/// The first finding of an image's run by these steps that is about one of these words, else the first of all, and how many
/// more there are; empty where there is none.
pub fn first_finding<const S: usize>(
    alloc: Global,
    notation: Notation<'_, '_>,
    image: &Image,
    steps: &[Step],
    words: &[WordRange],
) -> Result<String, AllocError> {
    let mut out = String::new(alloc);
    let actions = actions_of::<S>(alloc, image, steps)?;
    let found = FindingsOfRun::of(alloc, &actions)?;
    let texts = FindingTexts {
        names: notation.names,
        style: notation.style,
        actions: &actions,
    };
    push_first_finding(&mut out, &texts, &found, words)?;
    Ok(out)
}
