//! Inputs that are images and schedules.
ghost use Rattle.std.specs.Prelude.{◌≢◌, IfOk, IfErr, IfSome, IsErrAnd};
ghost use Rattle.mta_engines.specs.Faults.{IsFaultBy};
ghost use Rattle.mta_engines.specs.InputOutput.{HasInput};
ghost use Rattle.mta_engines.specs.Images.{IsImageOf, HasImageFault};
ghost use Rattle.mta_engines.specs.RunOutput.{IsScheduleOf, HasScheduleFault};
ghost use Rattle.image_file.specs.declared.fault.ImageFault.{ImageFault};
ghost use Rattle.trace_text.specs.declared.schedule_fault.ScheduleFault.{ScheduleFault};

use crate::input::read_input;
use crate::tool_fault::ToolFault;
use image_file::{Image, read_image};
use processor::Step;
use std::alloc::Global;
use std::io::Read;
use trace_text::read_schedule;

/// The image that a reader's bytes stand for, or their fault.
pub(crate) fn read_image_input<R: Read>(alloc: Global, reader: &mut R) -> Result<Image, ToolFault>
    ensures image { IfOk result (λ image. HasInput (R.remaining reader.old) (λ bytes. IsImageOf bytes image)) }
    ensures fault { IfErr result (λ fault. IfSome (R.remaining reader.old) (λ bytes.
        IsFaultBy (HasImageFault bytes) fault)) }
    ensures no_image { (found : ToolFault) → IfSome (R.remaining reader.old) (λ bytes. HasImageFault bytes found
        → IsErrAnd result (λ fault. (fault ≢ ToolFault.Write) × IsFaultBy (HasImageFault bytes) fault)) }
    ensures no_schedule_fault { (found : ScheduleFault) → result ≢ Err (ToolFault.Schedule found) }
    ensures no_write { result ≢ Err ToolFault.Write }
{
    let bytes = read_input(alloc, reader)?;
    Ok(read_image(alloc, &bytes)?)
}

/// The schedule that a reader's bytes say, or their fault.
pub(crate) fn read_schedule_input<R: Read>(
    alloc: Global,
    reader: &mut R,
) -> Result<Vec<Step>, ToolFault>
    ensures schedule { IfOk result (λ steps. HasInput (R.remaining reader.old) (λ bytes.
        IsScheduleOf bytes steps.items)) }
    ensures fault { IfErr result (λ fault. IfSome (R.remaining reader.old) (λ bytes.
        IsFaultBy (HasScheduleFault bytes) fault)) }
    ensures no_image_fault { (found : ImageFault) → result ≢ Err (ToolFault.Image found) }
{
    let bytes = read_input(alloc, reader)?;
    Ok(read_schedule(alloc, &bytes)?)
}
