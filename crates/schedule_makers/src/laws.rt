//! The laws of made schedules. The functions are laws: there is nothing to run.

ghost use Rattle.schedule_makers.specs.Laws.{IsOneMade, SeedsTakeFree};

/// What a rule makes of a machine is one schedule, with one end, which leads to one machine. There is nothing to run.
pub fn made_schedules_are_one()
    ensures { IsOneMade }
{}

/// By the rule of a seed that is not uniform, each step is of a stream that is not blocked, wherever there is one. There
/// is nothing to run.
pub fn seeds_take_free_streams()
    ensures { SeedsTakeFree }
{}
