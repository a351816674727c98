//! What is shown of an answer while an exercise is watched.

use exercise_advice::searches::Console;
use exercise_files::parts::{CommandAnswer, LabFault};
use plain_text::TextWriter;
use printed_lines::Printer;
use std::alloc::Global;
use std::io::Write;
use std::time::Clock;

/// Shows an answer, or why there is none; a fault that is no reason in words ends the watching.
pub(crate) fn show<W: Write, C: Clock, E: Write>(
    alloc: Global,
    answered: Result<CommandAnswer, LabFault>,
    printer: &mut Printer<'_, W>,
    console: &mut Console<'_, C, E>,
) -> Result<(), LabFault> {
    let CommandAnswer {
        output,
        errors,
        status: _status,
        fault,
    } = match answered {
        Ok(answer) => answer,
        Err(fault) => return show_fault(alloc, fault, console),
    };
    printer.print(&output)?;
    let _ = console.errors.write_all(errors.as_bytes());
    match fault {
        Some(fault) => show_fault(alloc, fault, console),
        None => Ok(()),
    }
}

/// Shows a reason in words.
fn show_fault<C: Clock, E: Write>(
    alloc: Global,
    fault: LabFault,
    console: &mut Console<'_, C, E>,
) -> Result<(), LabFault> {
    match fault {
        LabFault::Words(words) => show_words(alloc, &words, console),
        LabFault::Lines(lines) => {
            let _ = console.errors.write_all(lines.as_bytes());
            Ok(())
        }
        LabFault::NoMemory => Err(LabFault::NoMemory),
        LabFault::Write => Err(LabFault::Write),
        LabFault::Closed => Err(LabFault::Closed),
    }
}

/// Shows a reason in words on a line of its own.
fn show_words<C: Clock, E: Write>(
    alloc: Global,
    words: &str,
    console: &mut Console<'_, C, E>,
) -> Result<(), LabFault> {
    let mut out = TextWriter::new(alloc);
    out.put("mta_lab: ");
    out.put_plain(words);
    out.put("\n");
    let line = out.take_text()?;
    let _ = console.errors.write_all(line.as_bytes());
    Ok(())
}
