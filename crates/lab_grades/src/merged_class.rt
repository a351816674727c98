//! The command `grade --merge`.

use crate::grading::{note_rows, whole_report};
use crate::kept_results::{line_in, no_results, note_damaged};
use class_results::{KeptPlace, MergeFault, MergedTable, class_of, merged_places, merged_table};
use lab_requests::MergeRequest;
use plain_text::push_plain;
use printed_lines::Printer;
use result_lines::reports::{GradeRow, ReportForm, ReportedRow, head_of, lines_of, worst_status};
use result_lines::{ClassHead, KeptResult, ResultLine, row_checksum};
use std::alloc::{AllocError, Global};
use std::io::{Read, Write};
use std::rt::Files;
use submission_rows::parts::{CommandAnswer, Inputs, LabFault, Status};

/// What a file of results has.
#[derive(Drop)]
struct PartFile<'r> {
    /// Its path.
    path: &'r str,
    /// What its last call was to judge.
    head: ClassHead,
    /// All its results.
    results: Vec<KeptResult>,
}

/// The results of all files that hold by the cases and options of their last calls.
#[derive(Drop)]
struct Gathered<'p> {
    /// By place and checksums.
    places: Vec<KeptPlace>,
    /// The results themselves.
    results: Vec<&'p KeptResult>,
    /// The paths of their files.
    paths: Vec<&'p str>,
}

/// Makes one table of results that were kept: of each submission of the class that of a file which has it. Those that no
/// file has are named on standard error, and the status is then that of a fault.
pub fn merge<F: Files, R: Read, W: Write>(
    alloc: Global,
    inputs: &mut Inputs<'_, F, R>,
    request: &MergeRequest,
    printer: &mut Printer<'_, W>,
) -> Result<CommandAnswer, LabFault> {
    let mut notes = String::new(alloc);
    let parts = read_parts(alloc, inputs, request, &mut notes)?;
    let table = table_for(alloc, &parts, &mut notes)?;
    let form = form_of(request, &parts);
    note_rows(alloc, &mut notes, form.format, &table.paths)?;
    print_table(alloc, form, &table, printer)?;
    let output = whole_report(alloc, form, &table.paths, &table.rows)?;
    Ok(CommandAnswer {
        output,
        errors: notes,
        status: table.status(),
        fault: None,
    })
}

/// Reads the files of results that are asked for.
fn read_parts<'r, F: Files, R: Read>(
    alloc: Global,
    inputs: &mut Inputs<'_, F, R>,
    request: &MergeRequest<'r>,
    notes: &mut String,
) -> Result<Vec<PartFile<'r>>, LabFault> {
    let mut parts = Vec::new(alloc);
    for path in &request.results {
        parts.push(read_part(alloc, inputs, *path, notes)?)?;
    }
    Ok(parts)
}

/// The table of these files.
fn table_for<'p>(
    alloc: Global,
    parts: &'p [PartFile<'_>],
    notes: &mut String,
) -> Result<Table<'p>, LabFault> {
    check_alike(alloc, parts)?;
    let class = class_in(alloc, parts)?;
    let gathered = gather(alloc, parts, &class)?;
    let places = places_in(alloc, &class, &gathered)?;
    let merged = merged_table(alloc, &class, &places)?;
    Ok(table_of(alloc, &merged, &gathered.results, notes)?)
}

/// Which of the results is of each submission of a class, if one is.
fn places_in(
    alloc: Global,
    class: &[&str],
    gathered: &Gathered<'_>,
) -> Result<Vec<Option<usize>>, LabFault> {
    match merged_places(alloc, class.len(), &gathered.places) {
        Ok(places) => Ok(places),
        Err(MergeFault::NoMemory) => Err(LabFault::NoMemory),
        Err(MergeFault::Differ { one, other }) => Err(differ(alloc, gathered, one, other)?),
    }
}

/// The rows of a merged table.
#[derive(Drop)]
struct Table<'p> {
    /// The paths of the submissions.
    paths: Vec<&'p str>,
    /// Their rows.
    rows: Vec<GradeRow>,
    /// Whether no file has one of the submissions.
    lacks_some: bool,
}

impl<'p> Table<'p> {
    /// Adds the rows of a merged table.
    fn add_rows(
        &mut self,
        merged: &MergedTable<'p>,
        results: &[&KeptResult],
    ) -> Result<(), AllocError> {
        for row in merged.rows.iter() {
            if let Some(result) = results.get(row.kept) {
                self.paths.push(row.submission)?;
                self.rows.push(result.row.copy()?)?;
            }
        }
        Ok(())
    }

    /// What it comes to.
    fn status(&self) -> Status {
        if self.lacks_some {
            worst_status(&self.rows).worse(Status::Fault)
        } else {
            worst_status(&self.rows)
        }
    }
}

/// Reads a file of results.
fn read_part<'r, F: Files, R: Read>(
    alloc: Global,
    inputs: &mut Inputs<'_, F, R>,
    path: &'r str,
    notes: &mut String,
) -> Result<PartFile<'r>, LabFault> {
    let text = inputs.read(alloc, path)?;
    let mut said = SaidInFile {
        head: None,
        results: Vec::new(alloc),
    };
    for (index, line) in text.split(|byte| *byte == b'\n').enumerate() {
        if !line.is_empty() {
            said.take(alloc, path, index, line, notes)?;
        }
    }
    let SaidInFile { head, results } = said;
    match head {
        Some(head) => Ok(PartFile {
            path,
            head,
            results,
        }),
        None => Err(no_results(alloc, path)?),
    }
}

/// What the lines of a file of results say so far.
#[derive(Drop)]
struct SaidInFile {
    /// What its last call was to judge.
    head: Option<ClassHead>,
    /// All its results.
    results: Vec<KeptResult>,
}

impl SaidInFile {
    /// Takes what the line of an index says.
    fn take(
        &mut self,
        alloc: Global,
        path: &str,
        index: usize,
        line: &[u8],
        notes: &mut String,
    ) -> Result<(), LabFault> {
        match line_in(alloc, line)? {
            ResultLine::Head(found) => self.head = Some(found),
            ResultLine::Result(_) | ResultLine::Damaged if self.head.is_none() => {
                return Err(no_results(alloc, path)?);
            }
            ResultLine::Result(kept) => self.results.push(kept)?,
            ResultLine::Damaged => note_damaged(notes, path, index)?,
        }
        Ok(())
    }
}

/// How a table of these files is reported, which were judged by the same cases.
fn form_of(request: &MergeRequest<'_>, parts: &[PartFile<'_>]) -> ReportForm {
    let (named, points) = match parts.first() {
        Some(first) => (first.head.named_cases, first.head.points),
        None => (0, 0),
    };
    ReportForm {
        format: request.format,
        undecided: request.undecided,
        named,
        points,
    }
}

/// A fault where not all files were judged by the same cases and options.
fn check_alike(alloc: Global, parts: &[PartFile<'_>]) -> Result<(), LabFault> {
    let Some(first) = parts.first() else {
        return Ok(());
    };
    for part in parts {
        let what = if part.head.cases != first.head.cases {
            "cases"
        } else if part.head.options != first.head.options {
            "options, or by different versions of mta_lab"
        } else {
            continue;
        };
        let (one, other) = (first.path, part.path);
        return Err(LabFault::Words(format!(in alloc;
            "{one} and {other}: judged by different {what}, so they make no table"
        )?));
    }
    Ok(())
}

/// The submissions that the lists of all files name: sorted, each once.
fn class_in<'p>(alloc: Global, parts: &'p [PartFile<'_>]) -> Result<Vec<&'p str>, AllocError> {
    let mut paths = Vec::new(alloc);
    for part in parts {
        for path in &part.head.submissions {
            paths.push(path.as_str())?;
        }
    }
    class_of(alloc, &paths)
}

/// The last result of each submission in each file that holds by the cases and options of the file's last call.
fn gather<'p>(
    alloc: Global,
    parts: &'p [PartFile<'_>],
    class: &[&str],
) -> Result<Gathered<'p>, AllocError> {
    let mut gathered = Gathered {
        places: Vec::new(alloc),
        results: Vec::new(alloc),
        paths: Vec::new(alloc),
    };
    for part in parts {
        gathered.add(alloc, part, class)?;
    }
    Ok(gathered)
}

impl<'p> Gathered<'p> {
    /// Adds the last result of each submission in a file.
    fn add(
        &mut self,
        alloc: Global,
        part: &'p PartFile<'_>,
        class: &[&str],
    ) -> Result<(), AllocError> {
        for (place, result) in last_results(alloc, part, class)?.into_iter().enumerate() {
            if let Some(result) = result {
                let row = row_checksum(alloc, &result.row)?;
                self.places.push(KeptPlace {
                    place,
                    basis: result.basis,
                    row,
                })?;
                self.results.push(result)?;
                self.paths.push(part.path)?;
            }
        }
        Ok(())
    }
}

/// Of each submission of a class the last result in a file that holds by the cases and options of the file's last call.
fn last_results<'p>(
    alloc: Global,
    part: &'p PartFile<'_>,
    class: &[&str],
) -> Result<Vec<Option<&'p KeptResult>>, AllocError> {
    let mut last = vec![in alloc; None; class.len()]?;
    for result in &part.results {
        if result.basis.cases == part.head.cases
            && result.basis.options == part.head.options
            && let Ok(place) = (&*class).binary_search(&result.submission.as_str())
            && let Some(known) = last.get_mut(place)
        {
            *known = Some(result);
        }
    }
    Ok(last)
}

/// What is said of two results of one submission that are not the same.
fn differ(
    alloc: Global,
    gathered: &Gathered<'_>,
    one: usize,
    other: usize,
) -> Result<LabFault, AllocError> {
    let path = gathered
        .results
        .get(one)
        .map_or("", |kept| kept.submission.as_str());
    let one = gathered.paths.get(one).copied().unwrap_or("");
    let other = gathered.paths.get(other).copied().unwrap_or("");
    Ok(LabFault::Words(format!(in alloc;
        "{one} and {other}: different results for {path}, so they make no table"
    )?))
}

/// The rows of the submissions that some file has; the others are noted.
fn table_of<'p>(
    alloc: Global,
    merged: &MergedTable<'p>,
    results: &[&KeptResult],
    notes: &mut String,
) -> Result<Table<'p>, AllocError> {
    let mut table = Table {
        paths: Vec::new(alloc),
        rows: Vec::new(alloc),
        lacks_some: !merged.missing.is_empty(),
    };
    table.add_rows(merged, results)?;
    note_missing(notes, &merged.missing)?;
    Ok(table)
}

/// Notes the submissions that no file has.
fn note_missing(notes: &mut String, missing: &[&str]) -> Result<(), AllocError> {
    for path in missing {
        notes.push_str("mta_lab: ")?;
        push_plain(notes, path)?;
        notes.push_str(": no file of results has it\n")?;
    }
    Ok(())
}

/// Prints the rows.
fn print_table<W: Write>(
    alloc: Global,
    form: ReportForm,
    table: &Table<'_>,
    printer: &mut Printer<'_, W>,
) -> Result<(), LabFault> {
    let mut lines = String::from_str(alloc, head_of(form.format))?;
    for (path, row) in table.paths.iter().zip(table.rows.iter()) {
        let reported = ReportedRow {
            submission: *path,
            row,
            form,
        };
        lines.push_str(&lines_of(alloc, &reported)?)?;
    }
    if lines.is_empty() {
        return Ok(());
    }
    printer.print(&lines)
}
