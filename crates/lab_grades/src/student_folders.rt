//! The folders that Moodle makes for what students hand in.

use plain_text::push_plain;
use result_lines::reports::MOODLE_FOLDER_MARK;
use std::alloc::{AllocError, Global};

/// The folder of a path that Moodle made for a student; None where none of its folders is one.
pub(crate) fn moodle_folder(path: &str) -> Option<&str> {
    let (folders, _) = path.rsplit_once('/')?;
    folders
        .split('/')
        .find(|folder: &&str| folder.contains(MOODLE_FOLDER_MARK))
}

/// The name and the number of the student of a path, as Moodle writes them; None where no folder says them.
fn student_of(path: &str) -> Option<&str> {
    let (student, _) = moodle_folder(path)?.split_once(MOODLE_FOLDER_MARK)?;
    Some(student)
}

/// Notes each student who has several of these submissions: Moodle's table has a row for each, and one grade a student.
pub(crate) fn note_several(
    alloc: Global,
    notes: &mut String,
    paths: &[&str],
) -> Result<(), AllocError> {
    let mut students = Vec::new(alloc);
    for path in paths {
        if let Some(student) = student_of(path) {
            students.push(student)?;
        }
    }
    students.sort()?;
    let mut last = "";
    let mut count: usize = 0;
    for student in students.iter() {
        if *student != last {
            note_student(notes, last, count)?;
            last = *student;
            count = 0;
        }
        count = count.saturating_add(1);
    }
    note_student(notes, last, count)
}

/// Notes a student who has so many submissions, if these are several.
fn note_student(notes: &mut String, student: &str, count: usize) -> Result<(), AllocError> {
    if count < 2 {
        return Ok(());
    }
    notes.push_str("mta_lab: warning: ")?;
    push_plain(notes, student)?;
    write!(
        notes,
        ": {count} submissions of one student, so the table has {count} rows, of which Moodle takes one\n"
    )
}
