//! The command `view`.

use crate::folding::StepLines;
use crate::reasons::view_reason;
use crate::round_marks::{RunPart, parts_of, push_mark, push_return, round_value};
use crate::run_ends::{push_end_object, status_of_run};
use crate::shown_steps::{
    Only, check_range, is_shown, lanes_of, only_asked, push_no_step, stream_asked,
};
use asked_programs::{EndRound, read_asked_program, round_asked};
use command_parts::texts::{
    Columns, Notation, ProgramNames, RunEnd, end_of, push_differing_words, push_end,
    push_lane_head, push_lane_text, push_step_head, push_step_text,
};
use command_parts::{
    CommandAnswer, Inputs, LabFault, Program, Status, push_object, steps_of, style_of,
};
use image_machines::{by_room, loaded};
use lab_ends::RunFindings;
use lab_json::{RunTitle, head_value, step_value};
use lab_requests::{RunChoice, ViewRequest};
use machine::Machine;
use processor::Step;
use std::alloc::{AllocError, Global};
use std::io::Read;
use std::rt::Files;
use step_views::{StepView, take_step};
use whole_runs::run_views;

/// Shows a run.
pub fn view<F: Files, R: Read>(
    alloc: Global,
    inputs: &mut Inputs<'_, F, R>,
    request: &ViewRequest,
) -> Result<CommandAnswer, LabFault> {
    if let Some(text) = request.why {
        return view_reason(alloc, inputs, request, text);
    }
    let stream = stream_asked(alloc, request)?;
    check_range(alloc, request)?;
    let program = read_asked_program(alloc, inputs, request.program, request.given)?;
    let only = only_asked(alloc, request, stream, &program)?;
    let steps = steps_of(alloc, inputs, &program, request.run)?;
    view_program(alloc, &program, &steps, request, only)
}

/// Shows a run of a program by these steps.
fn view_program(
    alloc: Global,
    program: &Program,
    steps: &[Step],
    request: &ViewRequest,
    only: Only,
) -> Result<CommandAnswer, LabFault> {
    let (output, status) = by_room!(program.image, view_on(alloc, program, steps, request, only))?;
    Ok(CommandAnswer::printed(alloc, output, status))
}

/// The text of a run on a machine with room for `S` streams a processor, and how it ended.
fn view_on<const S: usize>(
    alloc: Global,
    program: &Program,
    steps: &[Step],
    request: &ViewRequest,
    only: Only,
) -> Result<(String, Status), LabFault> {
    let names = ProgramNames::of(alloc, &program.text)?;
    let round = round_of_request(alloc, program, &names, steps, request)?;
    let lanes = lanes_of(alloc, request, steps)?;
    let layout = Layout {
        names: &names,
        request: *request,
        only,
        columns: Columns::of(&names, steps.len()),
        lanes: &lanes,
        round,
    };
    let mut out = String::new(alloc);
    let status = layout.push_run::<S>(alloc, &mut out, program, steps)?;
    Ok((out, status))
}

/// The round at the end of the run that is to be marked, where one is.
fn round_of_request(
    alloc: Global,
    program: &Program,
    names: &ProgramNames<'_>,
    steps: &[Step],
    request: &ViewRequest,
) -> Result<Option<EndRound>, LabFault> {
    let Some(size) = request.round else {
        return Ok(None);
    };
    let notation = Notation {
        names,
        style: style_of(request.shown),
    };
    Ok(Some(round_asked(alloc, program, notation, steps, size)?))
}

/// What a run is by, as its title says.
fn schedule_name<'a>(run: RunChoice<'a>) -> &'a str {
    match run {
        RunChoice::File(path) => path,
        RunChoice::Made { .. } => "made",
    }
}

/// The steps, from 1, that the words of an end name: since when streams wait, and who filled or emptied a word.
fn steps_of_end(alloc: Global, end: &RunEnd) -> Result<Vec<usize>, AllocError> {
    let mut steps = Vec::new(alloc);
    for wait in &end.waits {
        steps.push(wait.since)?;
        if let Some(turn) = wait.turn {
            steps.push(turn.number)?;
        }
    }
    Ok(steps)
}

/// The lines of the steps that the words of an end or of findings name are never folded.
fn keep_named(
    alloc: Global,
    shown: &mut Vec<ShownPart>,
    end: &RunEnd,
    found: &RunFindings,
) -> Result<(), AllocError> {
    let named = steps_named(alloc, end, found)?;
    for part in shown.iter_mut() {
        part.lines.keep(&named)?;
    }
    Ok(())
}

/// The steps, from 1, that the words of an end or of findings name.
fn steps_named(alloc: Global, end: &RunEnd, found: &RunFindings) -> Result<Vec<usize>, AllocError> {
    let mut named = steps_of_end(alloc, end)?;
    named.extend_from_slice(&found.numbers_named(alloc)?)?;
    Ok(named)
}

/// Adds a step as JSON.
fn push_step_object(alloc: Global, out: &mut String, view: &StepView) -> Result<(), AllocError> {
    let value = step_value(alloc, view)?;
    push_object(alloc, out, &value)
}

/// A part of a run, and the lines of its steps that are shown.
#[derive(Drop)]
struct ShownPart {
    part: RunPart,
    lines: StepLines,
}

/// How a run is shown.
#[derive(Clone, Copy)]
struct Layout<'a, 't> {
    names: &'a ProgramNames<'t>,
    request: ViewRequest<'a>,
    only: Only,
    columns: Columns,
    lanes: &'a [Step],
    round: Option<EndRound>,
}

impl Layout<'_, '_> {
    /// Adds a run on a machine with room for `S` streams a processor, and says how it ended.
    fn push_run<const S: usize>(
        &self,
        alloc: Global,
        out: &mut String,
        program: &Program,
        steps: &[Step],
    ) -> Result<Status, AllocError> {
        if self.request.shown.json {
            self.push_objects::<S>(alloc, out, program, steps)
        } else {
            self.push_words::<S>(alloc, out, program, steps)
        }
    }

    /// Adds a run on a machine with room for `S` streams a processor as JSON, and says how it ended.
    fn push_objects<const S: usize>(
        &self,
        alloc: Global,
        out: &mut String,
        program: &Program,
        steps: &[Step],
    ) -> Result<Status, AllocError> {
        let mut machine = loaded::<S>(alloc, &program.image)?;
        self.push_head_object(alloc, out, &program.text, &machine)?;
        let views = run_views(alloc, &mut machine, steps)?;
        self.push_step_objects(alloc, out, &views)?;
        let end = end_of(alloc, &machine, &views)?;
        push_end_object(alloc, out, &end, &machine, steps)?;
        Ok(status_of_run(&end))
    }

    /// Adds the head of a run of a program with this text, whose machine has taken no step, as JSON.
    fn push_head_object<const S: usize>(
        &self,
        alloc: Global,
        out: &mut String,
        text: &[u8],
        machine: &Machine<'_, S>,
    ) -> Result<(), AllocError> {
        let title = RunTitle {
            object: "run",
            program: self.request.program,
            schedule: schedule_name(self.request.run),
        };
        let head = head_value(alloc, title, text, self.names, machine)?;
        push_object(alloc, out, &head)
    }

    /// Adds the round as JSON, where one is marked.
    fn push_round_object(&self, alloc: Global, out: &mut String) -> Result<(), AllocError> {
        let Some(round) = self.round else {
            return Ok(());
        };
        let value = round_value(alloc, round)?;
        push_object(alloc, out, &value)
    }

    /// Adds the steps that are shown as JSON, and the round.
    fn push_step_objects(
        &self,
        alloc: Global,
        out: &mut String,
        views: &[StepView],
    ) -> Result<(), AllocError> {
        for (index, view) in views.iter().enumerate() {
            let number = index.saturating_add(1);
            if is_shown(&self.request, self.only, number, view) {
                push_step_object(alloc, out, view)?;
            }
        }
        self.push_round_object(alloc, out)
    }

    /// Adds a run on a machine with room for `S` streams a processor in words, and says how it ended.
    fn push_words<const S: usize>(
        &self,
        alloc: Global,
        out: &mut String,
        program: &Program,
        steps: &[Step],
    ) -> Result<Status, AllocError> {
        let mut machine = loaded::<S>(alloc, &program.image)?;
        let mut views = Vec::with_capacity(alloc, steps.len())?;
        let mut shown = self.note_parts(&mut views, &mut machine, steps)?;
        let end = end_of(alloc, &machine, &views)?;
        let found = RunFindings::of::<S>(alloc, &program.image, steps)?;
        keep_named(alloc, &mut shown, &end, &found)?;
        self.push_parts(out, &shown, steps.len())?;
        self.push_ending(out, &machine, views.len(), &end, &found)?;
        Ok(status_of_run(&end))
    }

    /// Takes the steps, adds what each did, and gives the lines of those that are shown, by parts of the run.
    fn note_parts<const S: usize>(
        &self,
        views: &mut Vec<StepView>,
        machine: &mut Machine<'_, S>,
        steps: &[Step],
    ) -> Result<Vec<ShownPart>, AllocError> {
        let mut shown = Vec::new(*views.allocator());
        for part in parts_of(self.round, steps.len()) {
            shown.push(self.note_steps(views, machine, steps, part)?)?;
        }
        Ok(shown)
    }

    /// Adds how a run of so many steps ended in the world of this machine, and its findings.
    fn push_ending<const S: usize>(
        &self,
        out: &mut String,
        machine: &Machine<'_, S>,
        steps: usize,
        end: &RunEnd,
        found: &RunFindings,
    ) -> Result<(), AllocError> {
        let style = style_of(self.request.shown);
        push_end(out, self.names, steps, end)?;
        push_differing_words(out, self.names, style, machine)?;
        found.push(out, self.names, style)
    }

    /// Takes the steps of a part, adds what each did, and gives the lines of those that are shown.
    fn note_steps<const S: usize>(
        &self,
        views: &mut Vec<StepView>,
        machine: &mut Machine<'_, S>,
        steps: &[Step],
        part: RunPart,
    ) -> Result<ShownPart, AllocError> {
        let alloc = *views.allocator();
        let mut lines = StepLines::new(alloc);
        for index in part.from..part.to {
            let Some(step) = steps.get(index) else {
                break;
            };
            let view = take_step(alloc, machine, *step)?;
            self.note_line(&mut lines, index.saturating_add(1), &view, machine)?;
            views.push(view)?;
        }
        Ok(ShownPart { part, lines })
    }

    /// Adds the line of the step of this number, where it is shown.
    fn note_line<const S: usize>(
        &self,
        lines: &mut StepLines,
        number: usize,
        view: &StepView,
        machine: &Machine<'_, S>,
    ) -> Result<(), AllocError> {
        if is_shown(&self.request, self.only, number, view) {
            self.push_step(lines.next_text(), view, machine)?;
            lines.end_line(number)?;
        }
        Ok(())
    }

    /// Adds the line of a step after its number.
    fn push_step<const S: usize>(
        &self,
        out: &mut String,
        view: &StepView,
        machine: &Machine<'_, S>,
    ) -> Result<(), AllocError> {
        let notation = Notation {
            names: self.names,
            style: style_of(self.request.shown),
        };
        let (columns, lanes) = (self.columns, self.lanes);
        if lanes.is_empty() {
            push_step_text(out, notation, columns, view, machine)
        } else {
            push_lane_text(out, notation, columns, lanes, view, machine)
        }
    }

    /// Adds the lines of the parts of a run of so many steps, after the heads of their columns, and the marks of its round.
    fn push_parts(
        &self,
        out: &mut String,
        shown: &[ShownPart],
        steps: usize,
    ) -> Result<(), AllocError> {
        if !shown.iter().all(|part| part.lines.is_empty()) {
            self.push_heads(out)?;
        } else if steps > 0 {
            push_no_step(out, self.names, &self.request, self.only, steps)?;
        }
        for part in shown {
            self.push_part(out, part)?;
        }
        match self.round {
            Some(round) => push_return(out, round, steps),
            None => Ok(()),
        }
    }

    /// Adds the heads of the columns of steps.
    fn push_heads(&self, out: &mut String) -> Result<(), AllocError> {
        if self.lanes.is_empty() {
            push_step_head(out, self.names, self.columns)
        } else {
            push_lane_head(out, self.columns, self.lanes)
        }
    }

    /// Adds the lines of a part of a run, below the mark of the round if that begins there.
    fn push_part(&self, out: &mut String, shown: &ShownPart) -> Result<(), AllocError> {
        let RunPart { from, to } = shown.part;
        let lines = &shown.lines;
        if let Some(round) = self.round
            && from >= round.begin
            && from < to
        {
            push_mark(out, round, from)?;
        }
        if self.request.are_all {
            return lines.push_all(out, self.columns);
        }
        let is_each = self.only.stream.is_none() && self.only.word.is_none();
        lines.push_folded(out, self.columns, is_each)
    }
}
