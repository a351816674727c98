//! How a run ended, in words, on its picture.

use crate::lanes::Lanes;
use crate::pages::{push_cut, push_escaped};
use crate::runs::RunNames;
use crate::whole_run::WholeRun;
use lab_json::texts::{
    FindingTexts, FindingsOfRun, NumberStyle, ProgramNames, push_end, push_first_finding,
};
use std::alloc::{AllocError, Global};

/// How many pixels a letter of the caption takes at most.
const LETTER: usize = 7;

/// How a run ended, and the first of its findings.
pub(crate) fn end_texts(
    alloc: Global,
    places: &ProgramNames,
    run: &WholeRun,
    found: &FindingsOfRun,
) -> Result<String, AllocError> {
    let mut words = String::new(alloc);
    let texts = FindingTexts {
        names: places,
        style: NumberStyle::Decimal,
        actions: &run.actions,
    };
    push_end(&mut words, places, run.views.len(), &run.end)?;
    // (it ends its line)
    words.pop();
    if found.count() > 0 {
        words.push_str("; ")?;
        push_first_finding(&mut words, &texts, found, &[])?;
    }
    Ok(words)
}

/// Adds below the legend what the picture is of, and how the run ended, as far as there is room.
pub(crate) fn push_caption(
    out: &mut String,
    lanes: &Lanes,
    names: RunNames,
    ended: &str,
) -> Result<(), AllocError> {
    let y = lanes.legend_y().saturating_add(64);
    let room = lanes.width() / LETTER;
    write!(out, "<text x=\"10\" y=\"{y}\"><tspan class=\"name\">")?;
    push_escaped(out, names.program)?;
    out.push_str("</tspan> ")?;
    let taken = names.program.len().saturating_add(2);
    push_cut(out, ended, room.saturating_sub(taken))?;
    out.push_str("</text>\n")
}
