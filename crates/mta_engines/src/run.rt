//! The engine of the command `run`.
ghost use Rattle.std.specs.Prelude.{◌≡◌, ◌≢◌, ◌≤◌, ◌++◌, OnOk, IfOk, IfErr, IsErrAnd, IfSome, string_bytes};
ghost use Rattle.std.specs.Option.{option_copied};
ghost use Rattle.std.specs.Io.KnownBytes.{Keeps};
ghost use Rattle.processor.specs.World.{steps};
ghost use Rattle.mta_engines.specs.Faults.{IsFaultBy};
ghost use Rattle.mta_engines.specs.InputOutput.{HasInput, HasOutput};
ghost use Rattle.mta_engines.specs.Images.{HasImageFault};
ghost use Rattle.mta_engines.specs.RunOutput.{run_output, trace_from, pc_of, IsRunOutput, HasRunFault};
ghost use Rattle.mta_engines.specs.RunOutput.{HasScheduleFault};
ghost use Rattle.image_file.specs.declared.fault.ImageFault.{ImageFault};
ghost use Rattle.trace_text.specs.declared.schedule_fault.ScheduleFault.{ScheduleFault};

use crate::image_and_schedule::{read_image_input, read_schedule_input};
use crate::loading::loaded;
use crate::output::write_output;
use crate::stream_room::StreamRoom;
use crate::tool_fault::ToolFault;
use image_file::Image;
use machine::Machine;
use processor::Step;
use std::alloc::{AllocError, Global};
use std::io::{Read, Write};
use trace_text::{TRACE_LINE, push_trace_line, world_text};

/// Reads an image and a schedule, runs the image by it, and writes a trace line for each step, then what the machine
/// came to ("Traces", docs/FORMATS.md).
///
/// The image is read first, and its fault answered before the schedule is read. The output is composed before the
/// writer is first touched.
pub fn run_engine<I: Read, R: Read, W: Write>(
    alloc: Global,
    image: &mut I,
    schedule: &mut R,
    writer: &mut W,
) -> Result<(), ToolFault>
    ensures output { OnOk result (HasInput (I.remaining image.old) (λ image_bytes.
        HasInput (R.remaining schedule.old) (λ schedule_bytes.
        HasOutput (W.contents writer.old) (W.contents writer.new) (IsRunOutput image_bytes schedule_bytes)))) }
    ensures fault { IfErr result (λ fault. IfSome (I.remaining image.old) (λ image_bytes.
        IfSome (R.remaining schedule.old) (λ schedule_bytes.
        IsFaultBy (HasRunFault image_bytes schedule_bytes) fault))) }
    // a fault of one input goes by that input's bytes, whatever is known of the other's
    ensures image_fault { (found : ImageFault) → result ≡ Err (ToolFault.Image found)
        → IfSome (I.remaining image.old) (λ image_bytes. HasImageFault image_bytes (ToolFault.Image found)) }
    ensures schedule_fault { (found : ScheduleFault) → result ≡ Err (ToolFault.Schedule found)
        → IfSome (R.remaining schedule.old) (λ schedule_bytes.
        HasScheduleFault schedule_bytes (ToolFault.Schedule found)) }
    // bytes that are no image are refused, and then the schedule's reader is as it was, whatever the answer
    ensures no_image { (found : ToolFault) → IfSome (I.remaining image.old) (λ image_bytes.
        HasImageFault image_bytes found
        → IsErrAnd result (λ fault. (fault ≢ ToolFault.Write) × IsFaultBy (HasImageFault image_bytes) fault)) }
    ensures schedule_as_before { (found : ToolFault) → IfSome (I.remaining image.old) (λ image_bytes.
        HasImageFault image_bytes found → Keeps (R.remaining schedule.old) (R.remaining schedule.new)) }
    ensures writer_as_before { IfErr result (λ fault. fault ≢ ToolFault.Write
        → Keeps (W.contents writer.old) (W.contents writer.new)) }
{
    let image = read_image_input(alloc, image)?;
    let steps = read_schedule_input(alloc, schedule)?;
    let text = compose_text(alloc, &image, &steps)?;
    write_output(writer, text.as_bytes())
}

/// The text of a run.
fn compose_text(alloc: Global, image: &Image, steps: &[Step]) -> Result<String, AllocError>
    ensures { IfOk result (λ text. string_bytes text ≡ run_output image.now steps.now) }
{
    match StreamRoom::of(image) {
        StreamRoom::Small => run_machine::<8>(alloc, image, steps),
        StreamRoom::Large => run_machine::<128>(alloc, image, steps),
    }
}

/// The text of a run on a machine with room for `S` streams a processor.
#[tactic(auto, unfolding(crate::specs::RunOutput::run_output))]
fn run_machine<const S: usize>(
    alloc: Global,
    image: &Image,
    steps: &[Step],
) -> Result<String, AllocError>
    requires room { image.now.slim ≤ S }
    ensures { IfOk result (λ text. string_bytes text ≡ run_output image.now steps.now) }
{
    let mut machine = loaded::<S>(alloc, image)?;
    let mut text = String::with_capacity(alloc, steps.len().saturating_mul(TRACE_LINE))?;
    push_trace(&mut text, &mut machine, steps)?;
    let world = world_text(alloc, &machine, image)?;
    text.push_str(&world)?;
    Ok(text)
}

/// Adds a line for each step, which the machine takes.
fn push_trace<const S: usize>(
    text: &mut String,
    machine: &mut Machine<S>,
    schedule: &[Step],
) -> Result<(), AllocError>
    ensures text { OnOk result (string_bytes text.new
        ≡ string_bytes text.old ++ trace_from machine.old.image machine.old.world 1 schedule.now) }
    ensures world { OnOk result (machine.new
        ≡ record machine.old { world = steps machine.old.image machine.old.world schedule.now }) }
{
    for (index, step) in schedule.iter().enumerate() {
        let pc = pc(machine, *step);
        let outcome = machine.step(step.p, step.s);
        push_trace_line(text, index as u64 + 1, *step, pc, outcome)?;
    }
    Ok(())
}

/// The pc of the stream that a step names; 0 where there is none.
fn pc<const S: usize>(machine: &Machine<S>, step: Step) -> u32
    ensures { result ≡ pc_of machine.now.world step }
{
    // the clauses of `image` say that no stream is past the machine's room
    let _ = machine.image();
    let Some(stream) = machine.stream(step.p, step.s) else {
        return 0;
    };
    stream.ssw().pc
}
