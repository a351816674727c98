//! The submissions of a class on their way: read, judged, and written in their order.

use crate::class_stages::{Desk, Graded, Job, Next, Outcome, Slot, Stage};
use crate::kept_results::{KeptResults, NO_TEXT};
use crate::option_sums::sum_of;
use crate::page_folder::PageFolder;
use crate::progress::{Progress, Reached};
use class_results::Checksum;
use result_lines::judges::VerdictKind;
use result_lines::reports::{GradeRow, ReportedRow, head_of, lines_of};
use std::alloc::{AllocError, Global};
use std::collections::HashMap;
use std::io::{Read, Write};
use std::mem;
use std::rt::Files;
use std::time::Clock;
use submission_rows::parts::{LabFault, Program};
use submission_rows::{Grading, ReadSubmission, program_or_row, read_submission};

/// How many bytes the texts and images have at a time that are read and not yet written, beside the last one.
const MOST_BYTES: usize = 16_777_216;

/// How many submissions wait to be judged at a time, for each job.
const WAITING_EACH: usize = 4;

/// The submissions of a class on their way.
#[derive(Drop)]
pub(crate) struct ClassFlow<'f, 'g, 'r, T> {
    grading: &'f Grading<'g, 'r>,
    /// The pages, and what is said beside the rows.
    pub pages: PageFolder<'r>,
    kept: Option<KeptResults<'r, T>>,
    /// What is known of those that were read.
    slots: Vec<Slot>,
    /// The rows that were written.
    pub rows: Vec<GradeRow>,
    /// The place of the first submission of each text that is judged by this call.
    first_of: HashMap<Checksum, usize>,
    waiting: usize,
    bytes: usize,
    undecided: usize,
    progress: Progress,
}

impl<'f, 'g, 'r, T> ClassFlow<'f, 'g, 'r, T> {
    /// A class of which nothing was read.
    pub(crate) fn new(
        alloc: Global,
        grading: &'f Grading<'g, 'r>,
        pages: PageFolder<'r>,
        kept: Option<KeptResults<'r, T>>,
        progress: Progress,
    ) -> ClassFlow<'f, 'g, 'r, T> {
        ClassFlow {
            grading,
            pages,
            kept,
            slots: Vec::new(alloc),
            rows: Vec::new(alloc),
            first_of: HashMap::new(alloc),
            waiting: 0,
            bytes: 0,
            undecided: 0,
            progress,
        }
    }

    /// Whether each submission has its row.
    pub(crate) fn is_done(&self) -> bool {
        self.rows.len() >= self.grading.submissions.len()
    }

    /// Whether there is one more to be read, and room for it.
    pub(crate) fn may_read(&self) -> bool {
        self.slots.len() < self.grading.submissions.len()
            && self.waiting < self.most_waiting()
            && self.bytes <= MOST_BYTES
    }

    /// How many submissions wait to be judged, or were judged and not yet taken, at most.
    pub(crate) fn most_waiting(&self) -> usize {
        self.grading.jobs.max(1).saturating_mul(WAITING_EACH)
    }

    /// Whether its progress is shown.
    pub(crate) fn is_shown(&self) -> bool {
        self.progress.is_on()
    }

    /// Reads the next submission.
    pub(crate) fn read_next<F: Files<File = T>, R: Read, W, X, E>(
        &mut self,
        alloc: Global,
        desk: &mut Desk<'_, '_, '_, '_, '_, '_, F, R, W, X, E>,
    ) -> Result<Next, LabFault> {
        let place = self.slots.len();
        let request = self.grading.request;
        let path = self.grading.submissions.get(place).copied().unwrap_or("");
        let read = read_submission(alloc, desk.inputs, path, request.refuses_links)?;
        let ReadSubmission { bytes, link } = read;
        if let Some(link) = &link {
            self.pages.notes.note_link(place, path, link)?;
        }
        match bytes {
            Ok(bytes) => self.take_bytes(alloc, desk, place, bytes),
            Err(row) => self.know(alloc, desk, NO_TEXT, Graded { program: None, row }),
        }
    }

    /// Takes the bytes of the next submission.
    fn take_bytes<F: Files<File = T>, R: Read, W, X, E>(
        &mut self,
        alloc: Global,
        desk: &mut Desk<'_, '_, '_, '_, '_, '_, F, R, W, X, E>,
        place: usize,
        bytes: Vec<u8>,
    ) -> Result<Next, LabFault> {
        let text = sum_of(&bytes);
        if let Some(row) = self.kept_row(&text)? {
            let program = self.page_program(alloc, bytes)?;
            return self.know(alloc, desk, text, Graded { program, row });
        }
        if let Some(first) = self.first_with(&text) {
            let program = self.page_program(alloc, bytes)?;
            self.push(Stage::Same { first, program }, text)?;
            return Ok(Next::Known);
        }
        match program_or_row(alloc, bytes)? {
            Ok(program) => {
                self.first_of.insert(text, place)?;
                self.waiting = self.waiting.saturating_add(1);
                let size = size_of(&program);
                self.slots.push(Slot {
                    stage: Stage::Waiting,
                    text,
                    bytes: size,
                })?;
                self.bytes = self.bytes.saturating_add(size);
                Ok(Next::Judge(Job { place, program }))
            }
            Err(row) => self.know(alloc, desk, text, Graded { program: None, row }),
        }
    }

    /// The row of a text that was kept; None where there is none.
    fn kept_row(&self, text: &Checksum) -> Result<Option<GradeRow>, AllocError> {
        let Some(kept) = &self.kept else {
            return Ok(None);
        };
        match kept.row_of(text) {
            Some(row) => Ok(Some(row.copy()?)),
            None => Ok(None),
        }
    }

    /// The place of the first submission of a text that this call judges; None where there is none.
    fn first_with(&self, text: &Checksum) -> Option<usize> {
        self.first_of.get(text).copied()
    }

    /// Whether pages are written: with texts for students they stand beside these.
    fn has_pages(&self) -> bool {
        let request = self.grading.request;
        request.pages.is_some() || request.feedback.is_some()
    }

    /// The program of these bytes, if pages are written, which need it.
    fn page_program(&self, alloc: Global, bytes: Vec<u8>) -> Result<Option<Program>, LabFault> {
        if !self.has_pages() {
            return Ok(None);
        }
        Ok(program_or_row(alloc, bytes)?.ok())
    }

    /// Takes the row of the next submission, which is known without its being judged.
    fn know<F: Files<File = T>, R: Read, W, X, E>(
        &mut self,
        alloc: Global,
        desk: &mut Desk<'_, '_, '_, '_, '_, '_, F, R, W, X, E>,
        text: Checksum,
        graded: Graded,
    ) -> Result<Next, LabFault> {
        let place = self.slots.len();
        self.keep(alloc, desk, place, text, &graded.row)?;
        self.push(Stage::Judged(graded), text)?;
        Ok(Next::Known)
    }

    /// Adds a submission that was read and is not to be judged.
    fn push(&mut self, stage: Stage, text: Checksum) -> Result<(), LabFault> {
        self.slots.push(Slot {
            stage,
            text,
            bytes: 0,
        })?;
        Ok(())
    }

    /// Keeps the row of the submission of a place, where results are kept.
    fn keep<F: Files<File = T>, R: Read, W, X, E>(
        &mut self,
        alloc: Global,
        desk: &Desk<'_, '_, '_, '_, '_, '_, F, R, W, X, E>,
        place: usize,
        text: Checksum,
        row: &GradeRow,
    ) -> Result<(), LabFault> {
        let path = self.grading.submissions.get(place).copied().unwrap_or("");
        match &mut self.kept {
            Some(kept) => kept.keep(alloc, desk.inputs, path, text, row),
            None => Ok(()),
        }
    }

    /// Takes what was said of a submission that was judged.
    pub(crate) fn take<F: Files<File = T>, R: Read, W, X, E>(
        &mut self,
        alloc: Global,
        desk: &mut Desk<'_, '_, '_, '_, '_, '_, F, R, W, X, E>,
        outcome: Outcome,
    ) -> Result<(), LabFault> {
        let Outcome {
            place,
            program,
            row,
        } = outcome;
        let row = row?;
        self.waiting = self.waiting.saturating_sub(1);
        let text = match self.slots.get(place) {
            Some(slot) => slot.text,
            None => NO_TEXT,
        };
        self.keep(alloc, desk, place, text, &row)?;
        self.judged(place, program, row);
        Ok(())
    }

    /// Notes that the submission of a place is judged.
    fn judged(&mut self, place: usize, program: Program, row: GradeRow) {
        let program = if self.has_pages() {
            Some(program)
        } else {
            None
        };
        if let Some(slot) = self.slots.get_mut(place) {
            if program.is_none() {
                self.bytes = self.bytes.saturating_sub(slot.bytes);
                slot.bytes = 0;
            }
            slot.stage = Stage::Judged(Graded { program, row });
        }
    }

    /// Writes the rows that are known, up to the first that is not.
    pub(crate) fn write_ready<F: Files<File = T>, R: Read, W: Write, X: Clock, E: Write>(
        &mut self,
        alloc: Global,
        desk: &mut Desk<'_, '_, '_, '_, '_, '_, F, R, W, X, E>,
    ) -> Result<(), LabFault> {
        for place in self.rows.len()..self.slots.len() {
            match self.graded_at(place)? {
                Some(graded) => self.write(alloc, desk, place, graded)?,
                None => return Ok(()),
            }
        }
        Ok(())
    }

    /// What is said of the submission of a place, if that is known; it is taken out.
    fn graded_at(&mut self, place: usize) -> Result<Option<Graded>, LabFault> {
        let stage = match self.slots.get_mut(place) {
            Some(slot) => mem::replace(&mut slot.stage, Stage::Written),
            None => return Ok(None),
        };
        match stage {
            Stage::Judged(graded) => Ok(Some(graded)),
            Stage::Same { first, program } => match self.row_again(first)? {
                Some(row) => Ok(Some(Graded { program, row })),
                None => Ok(None),
            },
            Stage::Waiting => {
                self.wait_again(place);
                Ok(None)
            }
            Stage::Written => Ok(None),
        }
    }

    /// Notes that the submission of a place is still being judged.
    fn wait_again(&mut self, place: usize) {
        if let Some(slot) = self.slots.get_mut(place) {
            slot.stage = Stage::Waiting;
        }
    }

    /// The row that was written of an earlier submission, without its page.
    fn row_again(&self, first: usize) -> Result<Option<GradeRow>, AllocError> {
        let Some(row) = self.rows.get(first) else {
            return Ok(None);
        };
        let mut row = row.copy()?;
        row.page = None;
        Ok(Some(row))
    }

    /// Writes the row of a submission, with its page.
    fn write<F: Files<File = T>, R: Read, W: Write, X: Clock, E: Write>(
        &mut self,
        alloc: Global,
        desk: &mut Desk<'_, '_, '_, '_, '_, '_, F, R, W, X, E>,
        place: usize,
        graded: Graded,
    ) -> Result<(), LabFault> {
        let (text, bytes) = match self.slots.get(place) {
            Some(slot) => (slot.text, slot.bytes),
            None => (NO_TEXT, 0),
        };
        self.bytes = self.bytes.saturating_sub(bytes);
        if text != NO_TEXT {
            self.keep(alloc, desk, place, text, &graded.row)?;
        }
        self.progress.wipe(desk.console);
        let row = self
            .pages
            .next_row(alloc, desk.inputs, self.grading, graded, desk.console)?;
        self.print_row(alloc, desk, place, &row)?;
        if row.kind == VerdictKind::NotDecided {
            self.undecided = self.undecided.saturating_add(1);
        }
        self.rows.push(row)?;
        Ok(())
    }

    /// Prints the lines of the row of the submission of a place.
    fn print_row<F, R, W: Write, X, E>(
        &self,
        alloc: Global,
        desk: &mut Desk<'_, '_, '_, '_, '_, '_, F, R, W, X, E>,
        place: usize,
        row: &GradeRow,
    ) -> Result<(), LabFault> {
        let path = self.grading.submissions.get(place).copied().unwrap_or("");
        let lines = self.lines_for(alloc, path, row)?;
        if lines.is_empty() {
            return Ok(());
        }
        desk.printer.print(&lines)
    }

    /// The lines of the row of a submission; those of the first one after the names of the columns.
    fn lines_for(&self, alloc: Global, path: &str, row: &GradeRow) -> Result<String, AllocError> {
        let form = self.grading.form;
        let head = if self.rows.is_empty() {
            head_of(form.format)
        } else {
            ""
        };
        let mut lines = String::from_str(alloc, head)?;
        let reported = ReportedRow {
            submission: path,
            row,
            form,
        };
        lines.push_str(&lines_of(alloc, &reported)?)?;
        Ok(lines)
    }

    /// Shows how far it is, on a terminal.
    pub(crate) fn show<F, R, W, X: Clock, E: Write>(
        &mut self,
        desk: &mut Desk<'_, '_, '_, '_, '_, '_, F, R, W, X, E>,
    ) {
        let reached = Reached {
            done: self.rows.len(),
            undecided: self.undecided,
            count: self.grading.submissions.len(),
            jobs: self.grading.jobs,
        };
        self.progress.show(desk.console, reached);
    }

    /// Wipes what is shown.
    pub(crate) fn wipe<F, R, W, X, E: Write>(
        &mut self,
        desk: &mut Desk<'_, '_, '_, '_, '_, '_, F, R, W, X, E>,
    ) {
        self.progress.wipe(desk.console);
    }
}

/// How many bytes a program's text and image have, about.
fn size_of(program: &Program) -> usize {
    let words = program
        .image
        .program()
        .len()
        .saturating_add(program.image.cells().len());
    program.text.len().saturating_add(words.saturating_mul(16))
}
