//! What is written is read back.

ghost use Rattle.trace_text.specs.Laws.{ScheduleReadsBack};

use text_parts::decimal_numbers_read_back;

/// The law of writing and reading: the text that is written of at most 1,000,000 steps is read as the same steps.
/// There is nothing to run.
pub fn written_schedules_are_read_back()
    ensures { ScheduleReadsBack }
{
    decimal_numbers_read_back();
}
