//! The file in which the results of a call are kept.

use class_results::{Checksum, ResultBasis};
use plain_text::{TextWriter, push_plain};
use rayon::prelude::*;
use result_lines::judges::VerdictKind;
use result_lines::reports::GradeRow;
use result_lines::{ClassHead, KeptResult, ResultLine, head_line, read_line, result_line};
use std::alloc::{AllocError, Global};
use std::collections::HashMap;
use std::io::Read;
use std::rt::Files;
use std::str;
use std::thread::Threads;
use submission_rows::parts::{Inputs, LabFault};

/// The checksum that stands for the text of a submission that can't be read.
pub(crate) const NO_TEXT: Checksum = [0; 32];

/// How many lines a core reads at least, if another one is to read too.
const FEWEST_LINES: usize = 64;

/// The results that a file has, and the file, to which those of this call are added.
#[derive(Drop)]
pub(crate) struct KeptResults<'a, T> {
    /// The path of the file.
    path: &'a str,
    /// The file, open to add to its end.
    file: T,
    /// What this call was to judge, and by what.
    head: ClassHead,
    /// The results that hold by the cases and options of this call: which is that of a text.
    by_text: HashMap<Checksum, usize>,
    /// Their rows.
    rows: Vec<GradeRow>,
    /// Of each submission of the class the text of its last line that holds so.
    latest: Vec<Option<Checksum>>,
}

/// What is read of a file of results before it is opened to be added to.
#[derive(Drop)]
struct Found {
    by_text: HashMap<Checksum, usize>,
    rows: Vec<GradeRow>,
    latest: Vec<Option<Checksum>>,
    /// Whether the last head is that of this call.
    has_head: bool,
    /// Whether its last line has an end.
    is_ended: bool,
}

impl<'a, T> KeptResults<'a, T> {
    /// The file of this path for the results of a class, which is made where nothing is. The notes report the lines
    /// that are not whole. A file that has no results is refused, and nothing of it changes.
    pub(crate) fn open<X: Threads + Sync, F: Files<File = T>, R: Read>(
        rt: &X,
        alloc: Global,
        inputs: &Inputs<'_, F, R>,
        path: &'a str,
        head: ClassHead,
        notes: &mut String,
    ) -> Result<KeptResults<'a, T>, LabFault> {
        let opened = open_results(rt, alloc, inputs, path, &head, notes)?;
        let Opened { file, found } = opened;
        Ok(KeptResults {
            path,
            file,
            head,
            by_text: found.by_text,
            rows: found.rows,
            latest: found.latest,
        })
    }

    /// What a result on this text depends on in this call.
    fn basis_of(&self, text: Checksum) -> ResultBasis {
        basis_by(&self.head, text)
    }

    /// The row of a text that was judged by all that this call judges by; None where there is none.
    pub(crate) fn row_of(&self, text: &Checksum) -> Option<&GradeRow> {
        self.rows.get(*self.by_text.get(text)?)
    }

    /// Keeps the row of the submission of a path, unless its last line says the same.
    pub(crate) fn keep<F: Files<File = T>, R: Read>(
        &mut self,
        alloc: Global,
        inputs: &Inputs<'_, F, R>,
        path: &str,
        text: Checksum,
        row: &GradeRow,
    ) -> Result<(), LabFault> {
        let place = place_of(&self.head, path);
        if text != NO_TEXT && latest_of(&self.latest, place) == Some(text) {
            return Ok(());
        }
        let line = result_line(alloc, path, &self.basis_of(text), row)?;
        inputs.append(alloc, self.path, &mut self.file, line.as_bytes())?;
        if let Some(place) = place
            && let Some(latest) = self.latest.get_mut(place)
        {
            *latest = Some(text);
        }
        Ok(())
    }
}

/// What a result on this text depends on in a call.
fn basis_by(head: &ClassHead, text: Checksum) -> ResultBasis {
    ResultBasis {
        submission: text,
        cases: head.cases,
        options: head.options,
    }
}

/// The place of a path in the sorted list of a class; None where it is none of it.
fn place_of(head: &ClassHead, path: &str) -> Option<usize> {
    head.submissions
        .binary_search_by(|known| known.as_str().cmp(path))
        .ok()
}

/// The text of the last line of a place.
fn latest_of(latest: &[Option<Checksum>], place: Option<usize>) -> Option<Checksum> {
    latest.get(place?).copied()?
}

/// A file of results, and what it has for a call.
#[derive(Drop)]
struct Opened<T> {
    /// The file, open to add to its end.
    file: T,
    /// What it has.
    found: Found,
}

/// Opens the file of a path for the results of a call, which is made where nothing is, with what the call is to judge as its
/// last head.
fn open_results<X: Threads + Sync, F: Files, R: Read>(
    rt: &X,
    alloc: Global,
    inputs: &Inputs<'_, F, R>,
    path: &str,
    head: &ClassHead,
    notes: &mut String,
) -> Result<Opened<F::File>, LabFault> {
    let first = head_line(alloc, head)?;
    if inputs.files.metadata(path).is_err() {
        inputs.write(alloc, path, first.as_bytes())?;
    }
    let mut file = inputs.open_to_append(alloc, path)?;
    let found = found_in(rt, alloc, inputs, path, head, notes)?;
    let added = found.lacking(alloc, &first)?;
    if !added.is_empty() {
        inputs.append(alloc, path, &mut file, added.as_bytes())?;
    }
    Ok(Opened { file, found })
}

/// What a file of results has for a call.
fn found_in<X: Threads + Sync, F: Files, R: Read>(
    rt: &X,
    alloc: Global,
    inputs: &Inputs<'_, F, R>,
    path: &str,
    head: &ClassHead,
    notes: &mut String,
) -> Result<Found, LabFault> {
    let text = inputs.read_again(alloc, path)?;
    let mut found = Found {
        by_text: HashMap::new(alloc),
        rows: Vec::new(alloc),
        latest: vec![in alloc; None; head.submissions.len()]?,
        has_head: false,
        is_ended: text.is_empty() || text.ends_with(b"\n"),
    };
    found.read(rt, alloc, path, &text, head, notes)?;
    Ok(found)
}

impl Found {
    /// What the file lacks: the end of its last line, or this line as its last head.
    fn lacking(&self, alloc: Global, first: &str) -> Result<String, AllocError> {
        let mut added = TextWriter::new(alloc);
        if !self.is_ended {
            added.put("\n");
        }
        if !self.has_head {
            added.put(first);
        }
        added.take_text()
    }

    /// Reads the text of the file of a path.
    fn read<X: Threads + Sync>(
        &mut self,
        rt: &X,
        alloc: Global,
        path: &str,
        text: &[u8],
        head: &ClassHead,
        notes: &mut String,
    ) -> Result<(), LabFault> {
        let wanted = head_line(alloc, head)?;
        let lines = lines_in(alloc, text)?;
        for (index, said) in read_lines(rt, alloc, &lines)?.into_iter().enumerate() {
            let line = lines.get(index).copied().unwrap_or(b"");
            if line.is_empty() && (index > 0 || text.is_empty()) {
                continue;
            }
            if let ResultLine::Head(_) = &said {
                self.has_head = wanted.as_bytes().strip_suffix(b"\n") == Some(line);
            }
            self.take(alloc, path, index, head, said, notes)?;
        }
        Ok(())
    }

    /// Takes what the line of an index says.
    fn take(
        &mut self,
        alloc: Global,
        path: &str,
        index: usize,
        head: &ClassHead,
        said: ResultLine,
        notes: &mut String,
    ) -> Result<(), LabFault> {
        match said {
            ResultLine::Head(_) => Ok(()),
            ResultLine::Result(_) | ResultLine::Damaged if index == 0 => {
                Err(no_results(alloc, path)?)
            }
            ResultLine::Result(kept) => Ok(self.add(head, kept)?),
            ResultLine::Damaged => Ok(note_damaged(notes, path, index)?),
        }
    }

    /// Adds a result, if it holds by the cases and options of a call.
    fn add(&mut self, head: &ClassHead, kept: KeptResult) -> Result<(), AllocError> {
        let KeptResult {
            submission,
            basis,
            row,
        } = kept;
        let text = basis.submission;
        if !basis.holds_by(&basis_by(head, text)) {
            return Ok(());
        }
        if let Some(place) = place_of(head, &submission)
            && let Some(latest) = self.latest.get_mut(place)
        {
            *latest = Some(text);
        }
        if row.kind != VerdictKind::NotRead {
            self.by_text.insert(text, self.rows.len())?;
            self.rows.push(row)?;
        }
        Ok(())
    }
}

/// The lines of a text, without their ends.
fn lines_in(alloc: Global, text: &[u8]) -> Result<Vec<&[u8]>, AllocError> {
    let mut lines = Vec::new(alloc);
    for line in text.split(|byte| *byte == b'\n') {
        lines.push(line)?;
    }
    Ok(lines)
}

/// What each of these lines says, read over all cores: half of what a call takes that finds all results kept.
fn read_lines<X: Threads + Sync>(
    rt: &X,
    alloc: Global,
    lines: &[&[u8]],
) -> Result<Vec<ResultLine>, AllocError> {
    let said = (0..lines.len())
        .into_par_iter()
        .map(|place: usize| -> Result<ResultLine, AllocError> {
            let line = lines.get(place).copied().ok_or(AllocError)?;
            line_in(alloc, line)
        })
        .with_min_len(FEWEST_LINES)
        .collect::<Result<Vec<ResultLine>, AllocError>>(rt, alloc);
    let Ok(Ok(said)) = said else {
        return Err(AllocError);
    };
    Ok(said)
}

/// What the bytes of a line say.
pub(crate) fn line_in(alloc: Global, line: &[u8]) -> Result<ResultLine, AllocError> {
    match str::from_utf8(line) {
        Ok(line) => read_line(alloc, line),
        Err(_) => Ok(ResultLine::Damaged),
    }
}

/// Notes that the line of an index, from 0, is passed over.
pub(crate) fn note_damaged(notes: &mut String, path: &str, index: usize) -> Result<(), AllocError> {
    let number = index.saturating_add(1);
    notes.push_str("mta_lab: warning: ")?;
    push_plain(notes, path)?;
    write!(
        notes,
        ":{number}: not a whole result, so it is passed over\n"
    )
}

/// What is said of a file that does not begin as a file of results.
pub(crate) fn no_results(alloc: Global, path: &str) -> Result<LabFault, AllocError> {
    Ok(LabFault::Words(format!(in alloc;
        "{path}: not a file of results of grade, so it is left as it is"
    )?))
}
