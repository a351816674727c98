//! Copies of rows: each begins without what is owned, which is added to it piece by piece.

use crate::rows::{CaseRow, CountedEnd, GradeRow};
use judgements::Witness;
use std::alloc::AllocError;

impl GradeRow {
    /// A copy of a row.
    pub fn copy(&self) -> Result<GradeRow, AllocError> {
        let mut row = GradeRow::plain(*self.words.allocator(), self.kind, self.known);
        row.place = self.place;
        row.status = self.status;
        self.copy_texts(&mut row)?;
        self.copy_lists(&mut row)?;
        Ok(row)
    }

    /// Copies what is said into another row.
    fn copy_texts(&self, row: &mut GradeRow) -> Result<(), AllocError> {
        row.case = self.case.clone()?;
        row.witness = self.witness.clone()?;
        row.missed = self.missed.clone()?;
        row.page = self.page.clone()?;
        row.words.push_str(&self.words)?;
        row.finding.push_str(&self.finding)
    }

    /// Copies what is said by each case, and the ends, into another row, which has none.
    fn copy_lists(&self, row: &mut GradeRow) -> Result<(), AllocError> {
        for case in &self.cases {
            row.cases.push(case.copy()?)?;
        }
        for end in &self.ends {
            row.ends.push(end.copy()?)?;
        }
        Ok(())
    }
}

impl CaseRow {
    /// A copy of what is said by a case.
    fn copy(&self) -> Result<CaseRow, AllocError> {
        let alloc = *self.words.allocator();
        let mut row = CaseRow {
            name: None,
            is_hidden: self.is_hidden,
            points: self.points,
            kind: self.kind,
            known: self.known,
            witness: Witness::None,
            missed: None,
            words: String::new(alloc),
            finding: String::new(alloc),
            status: self.status,
        };
        self.copy_texts(&mut row)?;
        Ok(row)
    }

    /// Copies what is said into another row.
    fn copy_texts(&self, row: &mut CaseRow) -> Result<(), AllocError> {
        row.name = self.name.clone()?;
        row.witness = self.witness.clone()?;
        row.missed = self.missed.clone()?;
        row.words.push_str(&self.words)?;
        row.finding.push_str(&self.finding)
    }
}

impl CountedEnd {
    /// A copy of ends that are counted as one.
    fn copy(&self) -> Result<CountedEnd, AllocError> {
        let mut end = CountedEnd {
            kind: self.kind,
            count: self.count,
            witness: Witness::None,
            text: String::new(*self.text.allocator()),
            missed: None,
        };
        self.copy_parts(&mut end)?;
        Ok(end)
    }

    /// Copies what they are into others.
    fn copy_parts(&self, end: &mut CountedEnd) -> Result<(), AllocError> {
        end.witness = self.witness.clone()?;
        end.missed = self.missed.clone()?;
        end.text.push_str(&self.text)
    }
}
