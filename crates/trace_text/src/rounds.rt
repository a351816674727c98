//! Schedules of rounds over all streams.

ghost use Rattle.std.specs.Prelude.{◌≡◌, ◌++◌, ◌*◌, ◌≤◌, ◌<◌, IfOk, OnOk};
ghost use Rattle.image_file.specs.ImageValue.{most_processors};
ghost use Rattle.processor.specs.World.{most_steps};
ghost use Rattle.trace_text.specs.Rounds.{turns, round, rounds};

use processor::Step;
use std::alloc::{AllocError, Global};

/// So many rounds: each has processors 0 to `processors` - 1, and within each streams 0 to `streams` - 1.
pub fn round_schedule(
    alloc: Global,
    processors: u8,
    streams: u8,
    count: u32,
) -> Result<Vec<Step>, AllocError>
    requires processors { processors ≤ most_processors }
    requires streams { streams ≤ 128 }
    requires steps { processors * streams * count ≤ most_steps }
    ensures { IfOk result (λ steps. steps.items ≡ rounds processors streams count) }
{
    let round = usize::from(processors) * usize::from(streams);
    let mut steps = Vec::with_capacity(alloc, round * count as usize)?;
    if round == 0 {
        return Ok(steps);
    }
    for _turn in 0..count {
        append_round(&mut steps, processors, streams)?;
    }
    Ok(steps)
}

fn append_round(steps: &mut Vec<Step>, processors: u8, streams: u8) -> Result<(), AllocError>
    ensures { OnOk result (steps.new.items ≡ steps.old.items ++ round processors streams) }
{
    for p in 0..processors {
        append_turns(steps, p, streams)?;
    }
    Ok(())
}

fn append_turns(steps: &mut Vec<Step>, p: u8, streams: u8) -> Result<(), AllocError>
    ensures { OnOk result (steps.new.items ≡ steps.old.items ++ turns streams p) }
{
    for s in 0..streams {
        steps.push(Step { p, s })?;
    }
    Ok(())
}
