//! A line of a schedule: a step, and how often it is taken.

ghost use Rattle.std.specs.Prelude.{◌≡◌};
ghost use Rattle.std.specs.Option.{option_map, option_copied};
ghost use Rattle.text_parts.specs.Numbers.{number_from};
ghost use Rattle.trace_text.specs.ScheduleLines.{LineValues, values_of};
ghost use Rattle.trace_text.specs.Fields.{times_in};
ghost use Rattle.trace_text.specs.LineNumbers.{numbers_from, run_within};

use crate::runs::StepRun;
use processor::{MAX_STEPS, Step};
use text_parts::{Base, Number, cut, read_digits};

/// The numbers of a line, of any size.
#[derive(Clone, Copy, Debug, PartialEq, Eq)]
pub(crate) struct LineNumbers {
    processor: Number,
    stream: Number,
    times: Number,
}

impl LineNumbers {
    /// The numbers that a line spells, and None where it has another form.
    pub(crate) fn read(line: &[u8]) -> Option<LineNumbers>
        ensures { result ≡ option_map numbers_from (values_of line.now) }
    {
        let (processor, rest) = cut(line, b' ');
        let (stream, rest) = cut(rest?, b' ');
        let processor = read_digits(Base::Decimal, processor)?;
        let stream = read_digits(Base::Decimal, stream)?;
        let times = read_times(rest)?;
        Some(LineNumbers {
            processor,
            stream,
            times,
        })
    }

    /// The run that the numbers say, and None where one of them is out of its limits.
    pub(crate) fn run(self) -> Option<StepRun>
        ensures { (v : LineValues) → self ≡ numbers_from v → result ≡ run_within v }
    {
        let processor = self.processor.up_to(255)?;
        let stream = self.stream.up_to(255)?;
        let times = self.times.up_to(MAX_STEPS as u64)?;
        if times == 0 {
            return None;
        }
        let step = Step {
            p: u8::try_from(processor).ok()?,
            s: u8::try_from(stream).ok()?,
        };
        Some(StepRun {
            step,
            times: times as usize,
        })
    }
}

/// The number in a line's third field, and 1 where there is none.
fn read_times(field: Option<&[u8]>) -> Option<Number>
    ensures { result ≡ option_map number_from (times_in (option_copied field.entry)) }
{
    match field {
        Some(digits) => read_digits(Base::Decimal, digits),
        None => Some(Number::Word(1)),
    }
}
