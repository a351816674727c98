//! The signs of a picture, their colours, and the legend.

use std::alloc::AllocError;
use stream_core::Outcome;
use tag_memory::MemOp;

/// The style of a picture.
pub(crate) const STYLE: &str = r##"<style>
text { font: 11px sans-serif; fill: #1a2027; }
.paper { fill: #ffffff; }
.number { font: 10.5px monospace; text-anchor: middle; fill: #57626d; }
.name { font: 600 12px monospace; }
.note { fill: #57626d; }
.in { font: 600 10.5px monospace; text-anchor: middle; fill: #ffffff; }
.value { font: 600 11px monospace; }
.life { stroke: #d9dfe5; stroke-width: 2; }
.wait { fill: #fdebc6; stroke: #f2b441; stroke-dasharray: 2, 2; }
.done { fill: #1f6fb2; }
.blocked { fill: #ffffff; stroke: #7a4b00; stroke-width: 1.5; }
.bars { fill: #7a4b00; }
.trapped { fill: #8d4fa8; }
.stopped { fill: #c2361f; }
.cross { stroke: #ffffff; stroke-width: 2; fill: none; }
.skipped { stroke: #7b8691; stroke-width: 2; }
.full { fill: #b5dfd0; stroke: #0b6b50; }
.empty { fill: #ffffff; stroke: #0b6b50; }
.tick { stroke: #0b6b50; stroke-width: 2.5; }
.stem { stroke: #1f6fb2; opacity: 0.35; }
.read { fill: #ffffff; stroke: #1f6fb2; stroke-width: 1.5; }
.written { fill: #1f6fb2; }
.frees { fill: none; stroke: #0b6b50; stroke-width: 1.5; }
.causes { fill: none; stroke: #7a4b00; stroke-width: 1.5; stroke-dasharray: 4, 3; }
.lost { fill: none; stroke: #c2361f; stroke-width: 1.5; }
text.lost { fill: #c2361f; stroke: none; font-weight: 600; }
</style>
<defs>
<marker id="f" viewBox="0 0 8 8" refX="8" refY="4" markerWidth="7" markerHeight="7" orient="auto"><path d="M0 0L8 4L0 8z" fill="#0b6b50"/></marker>
<marker id="c" viewBox="0 0 8 8" refX="8" refY="4" markerWidth="7" markerHeight="7" orient="auto"><path d="M0 0L8 4L0 8z" fill="#7a4b00"/></marker>
</defs>
"##;

/// Adds the sign of a step's outcome around a point, so wide.
pub(crate) fn push_outcome(
    out: &mut String,
    x: usize,
    y: usize,
    width: usize,
    outcome: Outcome,
) -> Result<(), AllocError> {
    let left = x.saturating_sub(width / 2);
    let top = y.saturating_sub(11);
    match outcome {
        Outcome::Done => write!(
            out,
            "<rect class=\"done\" x=\"{left}\" y=\"{top}\" width=\"{width}\" height=\"22\" rx=\"3\"/>\n"
        ),
        Outcome::Blocked => {
            write!(
                out,
                "<rect class=\"blocked\" x=\"{left}\" y=\"{top}\" width=\"{width}\" height=\"22\" rx=\"3\"/>"
            )?;
            push_bars(out, x, y)
        }
        Outcome::Trapped(_) => {
            write!(out, "<path class=\"trapped\" d=\"M{x} {top}l10 20h-20z\"/>")?;
            write!(
                out,
                "<text class=\"in\" x=\"{x}\" y=\"{y}\" dy=\"6\">!</text>\n"
            )
        }
        Outcome::Stopped(_) => {
            write!(
                out,
                "<path class=\"stopped\" d=\"M{x} {y}m-3.3 -8h6.6l4.7 4.7v6.6l-4.7 4.7h-6.6l-4.7 -4.7v-6.6z\"/>"
            )?;
            write!(
                out,
                "<path class=\"cross\" d=\"M{x} {y}m-3 -3l6 6m0 -6l-6 6\"/>\n"
            )
        }
        Outcome::Skipped => write!(out, "<path class=\"skipped\" d=\"M{x} {y}m-4 0h8\"/>\n"),
    }
}

/// Adds two bars around a point: a step that was blocked.
pub(crate) fn push_bars(out: &mut String, x: usize, y: usize) -> Result<(), AllocError> {
    write!(
        out,
        "<path class=\"bars\" d=\"M{x} {y}m-3.5 -5h2.5v10h-2.5zm4.5 0h2.5v10h-2.5z\"/>\n"
    )
}

/// Adds a ring where a step read a word, a wedge where it wrote it.
pub(crate) fn push_meeting(
    out: &mut String,
    x: usize,
    y: usize,
    op: MemOp,
) -> Result<(), AllocError> {
    match op {
        MemOp::Load | MemOp::TagGet => {
            write!(
                out,
                "<circle class=\"read\" cx=\"{x}\" cy=\"{y}\" r=\"3.2\"/>\n"
            )
        }
        MemOp::Store | MemOp::Fadd | MemOp::TagSet | MemOp::Purge => {
            write!(
                out,
                "<path class=\"written\" d=\"M{x} {y}m-4.5 4h9l-4.5 -8z\"/>\n"
            )
        }
    }
}

/// Adds the legend.
pub(crate) fn push_legend(out: &mut String, y: usize) -> Result<(), AllocError> {
    let line = y.saturating_add(20);
    let text = y.saturating_add(24);
    push_outcome(out, 20, line, 18, Outcome::Done)?;
    push_outcome(out, 90, line, 18, Outcome::Blocked)?;
    write!(
        out,
        "<text x=\"34\" y=\"{text}\">done</text><text x=\"104\" y=\"{text}\">blocked</text>\
         <path class=\"trapped\" d=\"M166 {line}m0 -11l10 20h-20z\"/><text x=\"180\" y=\"{text}\">trapped</text>\
         <path class=\"wait\" d=\"M236 {line}m0 -8h24v16h-24z\"/><text x=\"266\" y=\"{text}\">waits</text>\
         <path class=\"full\" d=\"M310 {line}m0 -9h24v18h-24z\"/><text x=\"340\" y=\"{text}\">word full</text>\
         <path class=\"empty\" d=\"M402 {line}m0 5h24v4h-24z\"/><text x=\"432\" y=\"{text}\">word empty</text>\
         <circle class=\"read\" cx=\"512\" cy=\"{line}\" r=\"3.2\"/><text x=\"520\" y=\"{text}\">read</text>\
         <path class=\"written\" d=\"M560 {line}m-4.5 4h9l-4.5 -8z\"/><text x=\"570\" y=\"{text}\">written</text>\n"
    )?;
    let line = y.saturating_add(40);
    let text = y.saturating_add(44);
    write!(
        out,
        "<path class=\"frees\" marker-end=\"url(#f)\" d=\"M10 {line}h24\"/><text x=\"42\" y=\"{text}\">lets it go on</text>\
         <path class=\"causes\" marker-end=\"url(#c)\" d=\"M130 {line}h24\"/><text x=\"162\" y=\"{text}\">makes it wait</text>\
         <path class=\"lost\" d=\"M250 {line}m0 -5v5h24v-5\"/><path class=\"lost\" d=\"M262 {line}m-4 -4l8 8m0 -8l-8 8\"/>\
         <text x=\"282\" y=\"{text}\">lost between a read and the store made of it</text>\n"
    )
}
