//! The folders into which the pages of submissions, and the texts for their students, are written.

use crate::class_stages::Graded;
use crate::grade_notes::GradeNotes;
use crate::page_names::page_names;
use crate::verdict_pages::page_of_row;
use class_results::{ClassPart, is_judged};
use lab_requests::GradeRequest;
use plain_text::{file_name, stem_of};
use program_pages::searches::Console;
use result_lines::reports::{GradeRow, StudentFile, feedback_of};
use std::alloc::{AllocError, Global};
use std::io::{Read, Write};
use std::rt::Files;
use std::time::Clock;
use submission_rows::Grading;
use submission_rows::parts::{Inputs, LabFault, slash_after};

/// The folder for pages, where one is asked for, and that for texts.
#[derive(Drop)]
pub(crate) struct PageFolder<'a> {
    /// Its path; None if no page is written.
    folder: Option<&'a str>,
    /// The path of the folder for the texts for students; None if none is written.
    feedback: Option<&'a str>,
    /// What the page and the text of each submission are called, in their order.
    names: Vec<String>,
    /// The place of the submission of the next row.
    next: usize,
    /// What is said of submissions beside their rows.
    pub notes: GradeNotes,
    /// Why a page, or all of them, was not written: the first reason.
    pub fault: Option<LabFault>,
}

impl<'a> PageFolder<'a> {
    /// The folders that are asked for, which are made where nothing has their names, for the pages and texts of a part of a
    /// class. With texts alone the pages stand beside them. Nothing is written over a submission.
    pub(crate) fn open<F: Files, R: Read>(
        alloc: Global,
        inputs: &mut Inputs<'_, F, R>,
        request: &GradeRequest<'a>,
        class: &[&str],
        part: Option<ClassPart>,
    ) -> Result<PageFolder<'a>, LabFault> {
        let mut pages = PageFolder {
            folder: request.pages.or(request.feedback),
            feedback: request.feedback,
            names: Vec::new(alloc),
            next: 0,
            notes: GradeNotes::new(alloc),
            fault: None,
        };
        if pages.folder.is_some() {
            pages.prepare(alloc, inputs, class, part)?;
        }
        Ok(pages)
    }

    /// Takes the names of pages and texts, and makes the folders.
    fn prepare<F: Files, R: Read>(
        &mut self,
        alloc: Global,
        inputs: &mut Inputs<'_, F, R>,
        class: &[&str],
        part: Option<ClassPart>,
    ) -> Result<(), LabFault> {
        self.add_names(alloc, class, part)?;
        reserve_all(alloc, inputs, class)?;
        let (folder, feedback) = (self.folder, self.feedback);
        let made = self.made(alloc, inputs, folder)?;
        self.folder = made;
        let made = self.made(alloc, inputs, feedback)?;
        self.feedback = made;
        Ok(())
    }

    /// Takes what the pages and the texts of a part of a class are called.
    fn add_names(
        &mut self,
        alloc: Global,
        class: &[&str],
        part: Option<ClassPart>,
    ) -> Result<(), AllocError> {
        for (place, name) in page_names(alloc, class)?.into_iter().enumerate() {
            if is_judged(part, place) {
                self.names.push(name)?;
            }
        }
        Ok(())
    }

    /// A folder, which is made where nothing has its name; None where it can't be made.
    fn made<F: Files, R: Read>(
        &mut self,
        alloc: Global,
        inputs: &Inputs<'_, F, R>,
        folder: Option<&'a str>,
    ) -> Result<Option<&'a str>, LabFault> {
        let Some(path) = folder else {
            return Ok(None);
        };
        match inputs.make_folder(alloc, path) {
            Ok(()) => Ok(folder),
            Err(LabFault::NoMemory) => Err(LabFault::NoMemory),
            Err(fault) => {
                self.keep(fault);
                Ok(None)
            }
        }
    }

    /// The row of the next submission, with its page, which is written, and so is the text for its student.
    pub(crate) fn next_row<F: Files, R: Read, C: Clock, E: Write>(
        &mut self,
        alloc: Global,
        inputs: &Inputs<'_, F, R>,
        grading: &Grading<'_, '_>,
        graded: Graded,
        console: &mut Console<'_, C, E>,
    ) -> Result<GradeRow, LabFault> {
        let mut graded = graded;
        let place = self.next;
        self.next = place.saturating_add(1);
        self.add_page(alloc, inputs, grading, place, &mut graded, console)?;
        self.add_feedback(alloc, inputs, grading, place, &graded.row)?;
        Ok(graded.row)
    }

    /// Writes the text for the student of the submission of a place, where texts are asked for.
    fn add_feedback<F: Files, R: Read>(
        &mut self,
        alloc: Global,
        inputs: &Inputs<'_, F, R>,
        grading: &Grading<'_, '_>,
        place: usize,
        row: &GradeRow,
    ) -> Result<(), LabFault> {
        let Some(folder) = self.feedback else {
            return Ok(());
        };
        let file = StudentFile {
            path: called_at(grading, place),
            page: row.page.as_ref().map(|page| file_name(page)),
            points: grading.form.points,
            undecided: grading.request.undecided,
            most: grading.request.most,
        };
        let text = feedback_of(alloc, file, row, grading.cases)?;
        let path = self.path_of(alloc, folder, place, "txt")?;
        self.written(alloc, inputs, path, text)?;
        Ok(())
    }

    /// Writes the page of the submission of a place, if it has one, and takes its path into the row.
    fn add_page<F: Files, R: Read, C: Clock, E: Write>(
        &mut self,
        alloc: Global,
        inputs: &Inputs<'_, F, R>,
        grading: &Grading<'_, '_>,
        place: usize,
        graded: &mut Graded,
        console: &mut Console<'_, C, E>,
    ) -> Result<(), LabFault> {
        let Some(folder) = self.folder else {
            return Ok(());
        };
        let path = self.path_of(alloc, folder, place, "html")?;
        let called = called_at(grading, place);
        let page = match &graded.program {
            Some(program) if self.notes.may_have_page(place) => page_of_row(
                alloc,
                grading,
                stem_of(called),
                program,
                &graded.row,
                console,
            )?,
            _ => None,
        };
        match page {
            Some(page) => graded.row.page = self.written(alloc, inputs, path, page)?,
            None if inputs.files.symlink_metadata(&path).is_ok() => {
                self.notes.note_old_page(&path, called)?
            }
            None => {}
        }
        Ok(())
    }

    /// The path of the file of this kind of the submission of a place.
    fn path_of(
        &self,
        alloc: Global,
        folder: &str,
        place: usize,
        kind: &str,
    ) -> Result<String, AllocError> {
        let slash = slash_after(folder);
        let name = self.names.get(place).map_or("", |name| name.as_str());
        format!(in alloc; "{folder}{slash}{name}.{kind}")
    }

    /// Writes a page or a text, and gives its path; None where it can't be written, which costs this file alone.
    fn written<F: Files, R: Read>(
        &mut self,
        alloc: Global,
        inputs: &Inputs<'_, F, R>,
        path: String,
        page: String,
    ) -> Result<Option<String>, LabFault> {
        match inputs.write_derived(alloc, &path, page.as_bytes()) {
            Ok(()) => Ok(Some(path)),
            Err(LabFault::NoMemory) => Err(LabFault::NoMemory),
            Err(fault) => {
                self.keep(fault);
                Ok(None)
            }
        }
    }

    /// Keeps why a page was not written, unless there is a reason already.
    fn keep(&mut self, fault: LabFault) {
        if self.fault.is_none() {
            self.fault = Some(fault);
        }
    }
}

/// The path of the submission of a place.
fn called_at<'r>(grading: &Grading<'_, 'r>, place: usize) -> &'r str {
    grading.submissions.get(place).copied().unwrap_or("")
}

/// Notes that nothing is written over what these paths lead to.
pub(crate) fn reserve_all<F: Files, R: Read>(
    alloc: Global,
    inputs: &mut Inputs<'_, F, R>,
    paths: &[&str],
) -> Result<(), AllocError> {
    for path in paths {
        inputs.reserve(alloc, path)?;
    }
    Ok(())
}
