//! The command `compare`.

use crate::run_ends::{push_end_object, status_of_run};
use asked_programs::read_asked_program;
use command_parts::texts::{
    Notation, ProgramNames, RunEnd, end_of, push_differences, push_differing_words, push_end,
    push_stream,
};
use command_parts::{
    CommandAnswer, Inputs, LabFault, Program, Status, push_object, steps_of, style_of,
};
use image_machines::{by_room, loaded};
use lab_ends::push_findings_of_run;
use lab_json::{difference_value, parting_value};
use lab_requests::{RunChoice, Shown};
use machine::{LoadFault, Machine};
use processor::Step;
use std::alloc::{AllocError, Global};
use std::io::Read;
use std::rt::Files;
use step_views::StepView;
use stream_core::Outcome;
use whole_runs::{Difference, first_difference, run_views};

/// Shows where two schedules of a program part, where the worlds first differ, and both ends. With the file of a case's words
/// the program has these.
pub fn compare<F: Files, R: Read>(
    alloc: Global,
    inputs: &mut Inputs<'_, F, R>,
    path: &str,
    given: Option<&str>,
    one: RunChoice,
    other: RunChoice,
    shown: Shown,
) -> Result<CommandAnswer, LabFault> {
    let program = read_asked_program(alloc, inputs, path, given)?;
    let first = steps_of(alloc, inputs, &program, one)?;
    let second = steps_of(alloc, inputs, &program, other)?;
    compare_runs(alloc, &program, &first, &second, shown)
}

/// Compares the runs of a program by two schedules.
fn compare_runs(
    alloc: Global,
    program: &Program,
    first: &[Step],
    second: &[Step],
    shown: Shown,
) -> Result<CommandAnswer, LabFault> {
    let (output, status) = by_room!(
        program.image,
        compare_on(alloc, program, first, second, shown)
    )?;
    Ok(CommandAnswer::printed(alloc, output, status))
}

/// The comparison on machines with room for `S` streams a processor.
fn compare_on<const S: usize>(
    alloc: Global,
    program: &Program,
    first: &[Step],
    second: &[Step],
    shown: Shown,
) -> Result<(String, Status), AllocError> {
    let names = ProgramNames::of(alloc, &program.text)?;
    let one = Run::<S>::of(alloc, program, first)?;
    let other = Run::<S>::of(alloc, program, second)?;
    let runs = ComparedRuns {
        one: &one,
        other: &other,
        shown,
        names: &names,
    };
    let mut out = String::new(alloc);
    let status = runs.push_all(alloc, &mut out, program, first, second)?;
    Ok((out, status))
}

/// The first position at which the runs differ, and in what.
fn difference_of<const S: usize>(
    alloc: Global,
    program: &Program,
    first: &[Step],
    second: &[Step],
) -> Result<Option<Difference>, AllocError> {
    match first_difference::<S>(alloc, &program.image, first, second) {
        Ok(difference) => Ok(difference),
        Err(LoadFault::NoMemory | LoadFault::Streams) => Err(AllocError),
    }
}

/// The longest beginning that two schedules share, in steps.
fn shared_steps(first: &[Step], second: &[Step]) -> usize {
    first
        .iter()
        .zip(second.iter())
        .take_while(|(step, twin)| **step == **twin)
        .count()
}

/// The steps of a run, by what they did.
fn steps_taken(alloc: Global, views: &[StepView]) -> Result<Vec<Step>, AllocError> {
    let mut steps = Vec::with_capacity(alloc, views.len())?;
    for view in views {
        steps.push(view.step)?;
    }
    Ok(steps)
}

/// A run, and what its steps did.
#[derive(Drop)]
struct Run<'i, const S: usize> {
    machine: Machine<'i, S>,
    views: Vec<StepView>,
}

impl<'i, const S: usize> Run<'i, S> {
    /// The run of a program by a schedule.
    fn of(
        alloc: Global,
        program: &'i Program,
        schedule: &[Step],
    ) -> Result<Run<'i, S>, AllocError> {
        let mut machine = loaded(alloc, &program.image)?;
        let views = run_views(alloc, &mut machine, schedule)?;
        Ok(Run { machine, views })
    }

    /// Adds the step of this place in words, where it took one.
    fn push_step(
        &self,
        out: &mut String,
        names: &ProgramNames,
        place: usize,
    ) -> Result<(), AllocError> {
        match self.views.get(place) {
            Some(view) => push_step_words(out, names, view),
            None => out.push_str("it has ended"),
        }
    }
}

/// Adds the stream of a step, and the instruction at which it stood; of one that does not run, that it does not.
fn push_step_words(
    words: &mut String,
    names: &ProgramNames,
    view: &StepView,
) -> Result<(), AllocError> {
    push_stream(words, view.step.p, view.step.s)?;
    match view.outcome {
        Outcome::Skipped => words.push_str(" does not run"),
        Outcome::Done | Outcome::Blocked | Outcome::Trapped(_) | Outcome::Stopped(_) => {
            words.push_str(" at ")?;
            names.push_place(words, view.pc)?;
            words.push_str(" ")?;
            names.push_statement(words, view.pc)
        }
    }
}

/// Two runs of a program, and how they are shown.
#[derive(Drop)]
struct ComparedRuns<'i, 'n, 't, const S: usize> {
    one: &'n Run<'i, S>,
    other: &'n Run<'i, S>,
    shown: Shown,
    names: &'n ProgramNames<'t>,
}

impl<'n, 't, const S: usize> ComparedRuns<'_, 'n, 't, S> {
    /// Adds the comparison of the runs, which are those of a program by these schedules, and gives the exit status.
    fn push_all(
        &self,
        alloc: Global,
        out: &mut String,
        program: &Program,
        first: &[Step],
        second: &[Step],
    ) -> Result<Status, AllocError> {
        let shared = shared_steps(first, second);
        if shared < first.len().max(second.len()) {
            self.push_parting(alloc, out, shared)?;
        }
        let difference = difference_of::<S>(alloc, program, first, second)?;
        if let Some(difference) = &difference {
            self.push_difference(alloc, out, difference)?;
        }
        self.push_ends(alloc, out)
    }

    /// Adds the step at which they part, which is that of this place; each says whether it took one.
    fn push_parting(
        &self,
        alloc: Global,
        out: &mut String,
        place: usize,
    ) -> Result<(), AllocError> {
        let number = place.saturating_add(1);
        if self.shown.json {
            let one = self.one.views.get(place);
            let other = self.other.views.get(place);
            let value = parting_value(alloc, self.names, number, one, other)?;
            return push_object(alloc, out, &value);
        }
        write!(out, "step {number}: ")?;
        self.one.push_step(out, self.names, place)?;
        out.push_str(" | ")?;
        self.other.push_step(out, self.names, place)?;
        out.push_str("\n")
    }

    /// Adds the first position at which the worlds differ, and in what.
    fn push_difference(
        &self,
        alloc: Global,
        out: &mut String,
        difference: &Difference,
    ) -> Result<(), AllocError> {
        let position = difference.position;
        if self.shown.json {
            let value = difference_value(alloc, position, &difference.places)?;
            return push_object(alloc, out, &value);
        }
        write!(out, "position {position}: ")?;
        push_differences(out, self.notation(), &difference.places)?;
        out.push_str("\n")
    }

    /// How the runs are written.
    fn notation(&self) -> Notation<'n, 't> {
        Notation {
            names: self.names,
            style: style_of(self.shown),
        }
    }

    /// Adds how both ended. The exit status is the worse of theirs.
    fn push_ends(&self, alloc: Global, out: &mut String) -> Result<Status, AllocError> {
        let one = self.push_end_of(alloc, out, "one: ", self.one)?;
        let other = self.push_end_of(alloc, out, "other: ", self.other)?;
        Ok(Status::Done.worse(one).worse(other))
    }

    /// Adds how a run ended, in words after its name, and gives its exit status.
    fn push_end_of(
        &self,
        alloc: Global,
        out: &mut String,
        name: &str,
        run: &Run<'_, S>,
    ) -> Result<Status, AllocError> {
        let end = end_of(alloc, &run.machine, &run.views)?;
        let steps = steps_taken(alloc, &run.views)?;
        if self.shown.json {
            push_end_object(alloc, out, &end, &run.machine, &steps)?;
        } else {
            out.push_str(name)?;
            self.push_end_words(alloc, out, run, &end, &steps)?;
        }
        Ok(status_of_run(&end))
    }

    /// Adds how the run of these steps ended, in words, and its findings.
    fn push_end_words(
        &self,
        alloc: Global,
        out: &mut String,
        run: &Run<'_, S>,
        end: &RunEnd,
        steps: &[Step],
    ) -> Result<(), AllocError> {
        push_end(out, self.names, run.views.len(), end)?;
        let style = style_of(self.shown);
        push_differing_words(out, self.names, style, &run.machine)?;
        let image = run.machine.image();
        push_findings_of_run::<S>(alloc, out, self.names, style, image, steps)
    }
}
