//! A picture of a run: a lane a stream and a lane a word over time, as SVG. Colours and shapes are those of the page.

use crate::end_texts::{end_texts, push_caption};
use crate::lanes::Lanes;
use crate::marks::{STYLE, push_legend};
use crate::pages::push_escaped;
use crate::runs::RunNames;
use crate::streams_drawn::push_streams;
use crate::whole_run::WholeRun;
use crate::words_drawn::push_words;
use lab_json::texts::{FindingsOfRun, ProgramNames};
use machine::Machine;
use processor::Step;
use run_findings::LostUpdate;
use std::alloc::{AllocError, Global};
use tag_memory::Word;

/// The picture of a run of the program with this text, whose machine has taken no step, without so many steps at its
/// beginning.
pub fn picture_of<const S: usize>(
    alloc: Global,
    names: RunNames,
    text: &[u8],
    start: &Machine<'_, S>,
    schedule: &[Step],
    before: usize,
) -> Result<String, AllocError> {
    let run = WholeRun::of(alloc, start, schedule)?;
    whole_picture(alloc, names, text, &run, start.image().cells(), before)
}

/// The picture of a whole run, whose memory has these words at the start.
fn whole_picture(
    alloc: Global,
    names: RunNames,
    text: &[u8],
    run: &WholeRun,
    cells: &[Word],
    before: usize,
) -> Result<String, AllocError> {
    let places = ProgramNames::of(alloc, text)?;
    let lanes = Lanes::of(alloc, run, before)?;
    let drawn = DrawnRun {
        names,
        places: &places,
        run,
        lanes: &lanes,
        cells,
    };
    let mut out = String::new(alloc);
    drawn.push_all(alloc, &mut out)?;
    Ok(out)
}

/// A run, and where its picture shows what.
#[derive(Clone, Copy)]
struct DrawnRun<'a, 't> {
    /// What it is called.
    names: RunNames<'a>,
    /// The names of the program's places.
    places: &'a ProgramNames<'t>,
    /// The run.
    run: &'a WholeRun,
    /// Where the lanes lie.
    lanes: &'a Lanes,
    /// The words of the memory at the start.
    cells: &'a [Word],
}

impl DrawnRun<'_, '_> {
    /// Adds the whole picture.
    fn push_all(&self, alloc: Global, out: &mut String) -> Result<(), AllocError> {
        let found = FindingsOfRun::of(alloc, &self.run.actions)?;
        let ended = end_texts(alloc, self.places, self.run, &found)?;
        self.push_sheet(out, &ended)?;
        self.push_lanes(out, &found.lost)?;
        self.push_foot(out, &ended)
    }

    /// Adds what stands before the lanes.
    fn push_sheet(&self, out: &mut String, ended: &str) -> Result<(), AllocError> {
        push_frame(out, self.lanes)?;
        push_title(out, self.names, ended)?;
        push_paper(out, self.lanes)?;
        push_numbers(out, self.lanes)
    }

    /// Adds the lanes of the words and of the streams.
    fn push_lanes(&self, out: &mut String, lost: &[LostUpdate]) -> Result<(), AllocError> {
        push_words(out, self.lanes, self.run, lost, self.places, self.cells)?;
        push_streams(out, self.lanes, self.run, self.places)
    }

    /// Adds what stands below the lanes.
    fn push_foot(&self, out: &mut String, ended: &str) -> Result<(), AllocError> {
        push_legend(out, self.lanes.legend_y())?;
        push_caption(out, self.lanes, self.names, ended)?;
        out.push_str("</svg>\n")
    }
}

/// Adds the beginning, with the picture's size.
fn push_frame(out: &mut String, lanes: &Lanes) -> Result<(), AllocError> {
    let width = lanes.width();
    let height = lanes.height();
    out.push_str("<svg xmlns=\"http://www.w3.org/2000/svg\"")?;
    write!(out, " width=\"{width}\" height=\"{height}\"")?;
    write!(out, " viewBox=\"0 0 {width} {height}\" role=\"img\">\n")
}

/// Adds what the picture is called, and how the run ended, for those who can't see it.
fn push_title(out: &mut String, names: RunNames, ended: &str) -> Result<(), AllocError> {
    out.push_str("<title>")?;
    push_escaped(out, names.program)?;
    out.push_str(", ")?;
    push_escaped(out, names.schedule)?;
    out.push_str("</title>\n<desc>")?;
    push_escaped(out, ended)?;
    out.push_str("</desc>\n")
}

/// Adds the style, and a sheet of paper on which all else is drawn.
fn push_paper(out: &mut String, lanes: &Lanes) -> Result<(), AllocError> {
    let width = lanes.width();
    let height = lanes.height();
    out.push_str(STYLE)?;
    write!(
        out,
        "<rect class=\"paper\" width=\"{width}\" height=\"{height}\"/>\n"
    )
}

/// Adds the numbers of the steps, as many as have room.
fn push_numbers(out: &mut String, lanes: &Lanes) -> Result<(), AllocError> {
    for place in 1..lanes.steps().saturating_add(1) {
        let number = lanes.before().saturating_add(place);
        if number.checked_rem(lanes.numbered()) == Some(0) {
            let x = lanes.x(number);
            write!(
                out,
                "<text class=\"number\" x=\"{x}\" y=\"15\">{number}</text>\n"
            )?;
        }
    }
    Ok(())
}
