//! The engine of the command `debug`.
ghost use Rattle.std.specs.Prelude.{◌≡◌, ◌≢◌, ◌≤◌, ◌⊎◌, OnOk, IfErr, IsErrAnd, IfSome};
ghost use Rattle.std.specs.Io.KnownBytes.{Keeps};
ghost use Rattle.replay_debugger.specs.Sessions.{session_at_start};
ghost use Rattle.mta_engines.specs.Faults.{IsFaultBy};
ghost use Rattle.mta_engines.specs.InputOutput.{HasInput, HasOutput};
ghost use Rattle.mta_engines.specs.Images.{HasImageFault};
ghost use Rattle.mta_engines.specs.RunOutput.{HasScheduleFault};
ghost use Rattle.mta_engines.specs.DebugOutput.{IsDebugOutput, HasDebugFault, AreFirstAnswers};
ghost use Rattle.mta_engines.specs.DebugAnswers.{AreAllAnswers, IsLaterFault};
ghost use Rattle.image_file.specs.declared.fault.ImageFault.{ImageFault};
ghost use Rattle.trace_text.specs.declared.schedule_fault.ScheduleFault.{ScheduleFault};

use crate::debug_answers::answer_lines;
use crate::image_and_schedule::{read_image_input, read_schedule_input};
use crate::loading::begun;
use crate::stream_room::StreamRoom;
use crate::tool_fault::ToolFault;
use image_file::Image;
use processor::Step;
use std::alloc::Global;
use std::io::{Read, Write};

/// Reads an image and a schedule, and answers the lines of commands over them, one after another ("Debugger",
/// docs/FORMATS.md).
///
/// The image is read first, and its fault answered before the schedule is read; then the schedule, before the first
/// command. A line is answered, and its answer written and flushed, before the next is read. A command that is refused
/// is answered by a line with its fault, and the session goes on, also where memory was refused.
///
/// A fault that ends the session leaves the answers so far written: after `Read` and `TooLarge` those of all lines that
/// were read to their line feed, after `NoMemory` those of some first lines. Of the writer after `Write` nothing is
/// said.
pub fn debug_engine<I: Read, R: Read, C: Read, W: Write>(
    alloc: Global,
    image: &mut I,
    schedule: &mut R,
    commands: &mut C,
    writer: &mut W,
) -> Result<(), ToolFault>
    ensures output { OnOk result (HasInput (I.remaining image.old) (λ image_bytes.
        HasInput (R.remaining schedule.old) (λ schedule_bytes. HasInput (C.remaining commands.old) (λ command_bytes.
        HasOutput (W.contents writer.old) (W.contents writer.new)
        (IsDebugOutput image_bytes schedule_bytes command_bytes))))) }
    ensures fault { IfErr result (λ fault. IfSome (I.remaining image.old) (λ image_bytes.
        IfSome (R.remaining schedule.old) (λ schedule_bytes. IfSome (C.remaining commands.old) (λ command_bytes.
        IsFaultBy (HasDebugFault image_bytes schedule_bytes command_bytes) fault)))) }
    // what was written before a fault: nothing, and no command was read; or the answers to some first lines
    ensures answered { IfErr result (λ fault. fault ≢ ToolFault.Write
        → (Keeps (W.contents writer.old) (W.contents writer.new)
        × Keeps (C.remaining commands.old) (C.remaining commands.new))
        ⊎ HasInput (I.remaining image.old) (λ image_bytes. HasInput (R.remaining schedule.old) (λ schedule_bytes.
        HasOutput (W.contents writer.old) (W.contents writer.new) (AreFirstAnswers image_bytes schedule_bytes
        (C.remaining commands.old) (C.remaining commands.new) fault)))) }
    // a fault of one input goes by that input's bytes, whatever is known of the others'
    ensures image_fault { (found : ImageFault) → result ≡ Err (ToolFault.Image found)
        → IfSome (I.remaining image.old) (λ image_bytes. HasImageFault image_bytes (ToolFault.Image found)) }
    ensures schedule_fault { (found : ScheduleFault) → result ≡ Err (ToolFault.Schedule found)
        → IfSome (R.remaining schedule.old) (λ schedule_bytes.
        HasScheduleFault schedule_bytes (ToolFault.Schedule found)) }
    // bytes that are no image are refused, and then the other readers and the writer are as they were
    ensures no_image { (found : ToolFault) → IfSome (I.remaining image.old) (λ image_bytes.
        HasImageFault image_bytes found
        → IsErrAnd result (λ fault. (fault ≢ ToolFault.Write) × IsFaultBy (HasImageFault image_bytes) fault)) }
    ensures schedule_as_before { (found : ToolFault) → IfSome (I.remaining image.old) (λ image_bytes.
        HasImageFault image_bytes found → Keeps (R.remaining schedule.old) (R.remaining schedule.new)) }
    ensures commands_as_before { (found : ToolFault) → IfSome (I.remaining image.old) (λ image_bytes.
        HasImageFault image_bytes found → Keeps (C.remaining commands.old) (C.remaining commands.new)) }
    ensures writer_as_before { (found : ToolFault) → IfSome (I.remaining image.old) (λ image_bytes.
        HasImageFault image_bytes found → Keeps (W.contents writer.old) (W.contents writer.new)) }
{
    let image = read_image_input(alloc, image)?;
    let steps = read_schedule_input(alloc, schedule)?;
    match StreamRoom::of(&image) {
        StreamRoom::Small => debug_image::<8, C, W>(alloc, &image, steps, commands, writer),
        StreamRoom::Large => debug_image::<128, C, W>(alloc, &image, steps, commands, writer),
    }
}

/// Answers the lines of commands over an image and a schedule, in a session with room for `S` streams a processor.
fn debug_image<const S: usize, C: Read, W: Write>(
    alloc: Global,
    image: &Image,
    steps: Vec<Step>,
    commands: &mut C,
    writer: &mut W,
) -> Result<(), ToolFault>
    requires room { image.now.slim ≤ S }
    ensures output { OnOk result (AreAllAnswers (session_at_start image.now steps.items)
        (C.remaining commands.old) (W.contents writer.old) (W.contents writer.new)) }
    ensures fault { IfErr result (IsLaterFault (session_at_start image.now steps.items)
        (C.remaining commands.old) (C.remaining commands.new) (W.contents writer.old) (W.contents writer.new)) }
{
    let mut session = match begun::<S>(alloc, image, steps) {
        Ok(session) => session,
        Err(_) => return Err(ToolFault::NoMemory),
    };
    answer_lines(alloc, &mut session, commands, writer)
}
