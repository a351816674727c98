//! The engine of the command `threads`.
ghost use Rattle.std.specs.Prelude.{◌≡◌, ◌≢◌, ◌≤◌, ◌++◌, OnOk, IfOk, IfErr, IsErrAnd, IfSome, ◌⊎◌};
ghost use Rattle.std.specs.Prelude.{string_bytes};
ghost use Rattle.std.specs.Io.KnownBytes.{Keeps};
ghost use Rattle.image_file.specs.ImageValue.{ImageValue};
ghost use Rattle.shared_history.specs.declared.parts.PartsFault.TheVariants.{TooLong};
ghost use Rattle.mta_engines.specs.Faults.{IsFaultBy};
ghost use Rattle.mta_engines.specs.InputOutput.{HasInput, HasOutput, HasOutputs};
ghost use Rattle.mta_engines.specs.Images.{IsImageOf, HasImageFault};
ghost use Rattle.mta_engines.specs.ThreadsOutput.{history_text, threads_output, AreThreadsTexts, IsThreadsOutput};
ghost use Rattle.mta_engines.specs.ThreadsOutput.{IsTooLong, HasRefusal, HasThreadsFault, IsThreadsSchedule};

use crate::image_and_schedule::read_image_input;
use crate::output::write_output;
use crate::stream_room::StreamRoom;
use crate::tool_fault::ToolFault;
use crate::woven_readers::WovenReaders;
use image_file::Image;
use memory_lock::{Gate, threaded};
use processor::Entry;
use std::alloc::{AllocError, Global};
use std::io::{Read, Write};
use std::sync::Wait;
use std::thread::Threads;
use trace_text::{push_history_line, world_text_of_readers, write_schedule};

/// The most bytes of a history line.
const HISTORY_LINE: usize = 83;

/// Reads an image and runs its processors at once, each for `fuel` steps or until no stream of it runs. Writes a
/// schedule that does the same to one writer, and to the other a line for each entry of its history, then what a
/// machine comes to by it ("Schedules", "Histories", docs/FORMATS.md).
///
/// The gate is called around the steps, with no lock held. Which schedule it is goes by how the threads ran. Both
/// outputs are composed before either writer is first touched, and the schedule is written first.
pub fn threads_engine<X: Threads + Wait + Sync, I: Read, G: Gate + Sync, V: Write, W: Write>(
    rt: &X,
    alloc: Global,
    image: &mut I,
    fuel: usize,
    gate: &G,
    schedule: &mut V,
    writer: &mut W,
) -> Result<(), ToolFault>
    ensures output { OnOk result (HasInput (I.remaining image.old) (λ bytes.
        HasOutputs (V.contents schedule.old) (V.contents schedule.new) (W.contents writer.old) (W.contents writer.new)
        (IsThreadsOutput bytes fuel))) }
    ensures fault { IfErr result (λ fault. IfSome (I.remaining image.old) (λ bytes.
        IsFaultBy (HasThreadsFault bytes fuel) fault)) }
    // bytes that are no image are refused, and so is a run that is too long
    ensures no_image { (found : ToolFault) → IfSome (I.remaining image.old) (λ bytes. HasImageFault bytes found
        → IsErrAnd result (λ fault. (fault ≢ ToolFault.Write) × IsFaultBy (HasImageFault bytes) fault)) }
    ensures too_long { (asked : ImageValue) → IfSome (I.remaining image.old) (λ bytes. IsImageOf bytes asked
        → IsTooLong asked fuel
        → IsErrAnd result (λ fault. (fault ≢ ToolFault.Write) × IsFaultBy (λ f. f ≡ ToolFault.Build TooLong) fault)) }
    // the report is begun once the whole schedule is written
    ensures schedule_first { IfErr result (λ _. Keeps (W.contents writer.old) (W.contents writer.new)
        ⊎ HasInput (I.remaining image.old) (λ bytes. HasOutput (V.contents schedule.old) (V.contents schedule.new)
        (IsThreadsSchedule bytes fuel))) }
    ensures schedule_as_before { IfErr result (λ fault. fault ≢ ToolFault.Write
        → Keeps (V.contents schedule.old) (V.contents schedule.new)) }
    ensures writer_as_before { IfErr result (λ fault. fault ≢ ToolFault.Write
        → Keeps (W.contents writer.old) (W.contents writer.new)) }
{
    let image = read_image_input(alloc, image)?;
    let texts = run_image(rt, alloc, &image, fuel, gate)?;
    write_output(schedule, texts.schedule.as_bytes())?;
    write_output(writer, texts.report.as_bytes())
}

/// What a run on threads prints: its schedule, and its history with what a machine comes to.
#[derive(Drop)]
struct ThreadsTexts {
    schedule: String,
    report: String,
}

/// The texts of a run of the image's processors at once.
fn run_image<X: Threads + Wait + Sync, G: Gate + Sync>(
    rt: &X,
    alloc: Global,
    image: &Image,
    fuel: usize,
    gate: &G,
) -> Result<ThreadsTexts, ToolFault>
    ensures texts { IfOk result (λ texts.
        AreThreadsTexts image.now fuel (string_bytes texts.schedule) (string_bytes texts.report)) }
    ensures fault { IfErr result (λ fault. (fault ≡ ToolFault.NoMemory) ⊎ HasRefusal image.now fuel fault) }
    ensures too_long { IsTooLong image.now fuel
        → IsErrAnd result (λ fault. (fault ≡ ToolFault.NoMemory) ⊎ (fault ≡ ToolFault.Build TooLong)) }
{
    match StreamRoom::of(image) {
        StreamRoom::Small => run_with_room::<X, G, 8>(rt, alloc, image, fuel, gate),
        StreamRoom::Large => run_with_room::<X, G, 128>(rt, alloc, image, fuel, gate),
    }
}

/// The same with room for `S` streams a processor.
fn run_with_room<X: Threads + Wait + Sync, G: Gate + Sync, const S: usize>(
    rt: &X,
    alloc: Global,
    image: &Image,
    fuel: usize,
    gate: &G,
) -> Result<ThreadsTexts, ToolFault>
    requires room { image.now.slim ≤ S }
    ensures texts { IfOk result (λ texts.
        AreThreadsTexts image.now fuel (string_bytes texts.schedule) (string_bytes texts.report)) }
    ensures fault { IfErr result (λ fault. (fault ≡ ToolFault.NoMemory) ⊎ HasRefusal image.now fuel fault) }
    ensures too_long { IsTooLong image.now fuel
        → IsErrAnd result (λ fault. (fault ≡ ToolFault.NoMemory) ⊎ (fault ≡ ToolFault.Build TooLong)) }
{
    let woven = threaded::<X, G, S>(rt, alloc, image, fuel, gate)?;
    let world = world_text_of_readers(alloc, &WovenReaders { woven: &woven }, image)?;
    let report = report_text(alloc, woven.history(), &world)?;
    let schedule = write_schedule(alloc, &woven.into_schedule())?;
    Ok(ThreadsTexts { schedule, report })
}

/// A line for each entry of a history, then a machine's text.
fn report_text(alloc: Global, history: &[Entry], world: &str) -> Result<String, AllocError>
    ensures { IfOk result (λ text. string_bytes text ≡ history_text 1 history.now ++ world.now) }
{
    let lines = history.len().saturating_mul(HISTORY_LINE);
    let mut text = String::with_capacity(alloc, lines.saturating_add(world.len()))?;
    push_history(&mut text, history)?;
    text.push_str(world)?;
    Ok(text)
}

/// Adds a line for each entry.
fn push_history(text: &mut String, history: &[Entry]) -> Result<(), AllocError>
    ensures { OnOk result (string_bytes text.new ≡ string_bytes text.old ++ history_text 1 history.now) }
{
    for (index, entry) in history.iter().enumerate() {
        push_history_line(text, index as u64 + 1, entry)?;
    }
    Ok(())
}
