//! The engine of the command `words`.
ghost use Rattle.std.specs.Prelude.{◌≡◌, ◌≢◌, ◌≤◌, length, OnOk, IfOk, IfErr, IfSome, string_bytes};
ghost use Rattle.std.specs.Io.KnownBytes.{Keeps};
ghost use Rattle.image_file.specs.ImageValue.{most_program_words};
ghost use Rattle.mta_engines.specs.Faults.{IsFaultOf};
ghost use Rattle.mta_engines.specs.InputOutput.{HasInput, HasOutput};
ghost use Rattle.mta_engines.specs.ProgramLines.{program_of};
ghost use Rattle.mta_engines.specs.WordsOutput.{IsWordsOutput, program_text, text_or_fault, words_output};

use crate::input::read_input;
use crate::loading::loaded;
use crate::output::write_output;
use crate::program_lines::read_program;
use crate::tool_fault::ToolFault;
use crate::words_image::words_image;
use processor::Step;
use std::alloc::Global;
use std::io::{Read, Write};
use stream_core::stream_text;

/// A step of the only stream.
const ONLY_STEP: Step = Step { p: 0, s: 0 };

/// Reads a program of one word a line, runs it on one stream for as many steps as it has words, and writes the
/// stream's text ("What `words` runs", docs/MACHINE.md; "Lines of `words`", docs/FORMATS.md).
///
/// The output is composed before the writer is first touched.
pub fn words_engine<R: Read, W: Write>(
    alloc: Global,
    reader: &mut R,
    writer: &mut W,
) -> Result<(), ToolFault>
    ensures output { OnOk result (HasInput (R.remaining reader.old) (λ input.
        HasOutput (W.contents writer.old) (W.contents writer.new) (IsWordsOutput input))) }
    ensures fault { IfErr result (λ fault. IfSome (R.remaining reader.old) (λ input.
        IsFaultOf (words_output input) fault)) }
    ensures writer_as_before { IfErr result (λ fault. fault ≢ ToolFault.Write
        → Keeps (W.contents writer.old) (W.contents writer.new)) }
{
    let input = read_input(alloc, reader)?;
    let text = compose_text(alloc, &input)?;
    write_output(writer, text.as_bytes())
}

/// The text that the words of an input come to.
fn compose_text(alloc: Global, input: &[u8]) -> Result<String, ToolFault>
    ensures text { IfOk result (λ text. text_or_fault (program_of input.now) ≡ Ok (string_bytes text)) }
    ensures fault { IfErr result (λ fault. fault ≢ ToolFault.NoMemory
        → text_or_fault (program_of input.now) ≡ Err fault) }
{
    let program = read_program(alloc, input)?;
    run_program(alloc, program)
}

/// The text of the stream after a run from the start of as many steps as the program has words.
#[tactic(auto, unfolding(crate::specs::WordsMachine::words_world, crate::specs::WordsOutput::program_text))]
fn run_program(alloc: Global, program: Vec<u64>) -> Result<String, ToolFault>
    requires some { 1 ≤ length program.items }
    requires few { length program.items ≤ most_program_words }
    ensures text { IfOk result (λ text. string_bytes text ≡ program_text program.items) }
    ensures fault { IfErr result (λ fault. fault ≡ ToolFault.NoMemory) }
{
    let steps = vec![in alloc; ONLY_STEP; program.len()]?;
    let image = words_image(alloc, program)?;
    let mut machine = loaded::<1>(alloc, &image)?;
    machine.run(&steps);
    let text = match machine.stream(0, 0) {
        Some(stream) => stream_text(alloc, stream)?,
        None => String::new(alloc),
    };
    Ok(text)
}
