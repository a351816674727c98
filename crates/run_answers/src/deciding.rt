//! Whether the runs of a program keep conditions.

ghost use Rattle.std.specs.Prelude.{◌≡◌, ◌<◌, Err, List, IfOk};
ghost use Rattle.starving_streams.specs.ClaimsTypes.Rest.{Rest};
ghost use Rattle.starving_streams.specs.Reports.{HasAllStates};
ghost use Rattle.starving_streams.specs.Graphs.{IsGraph};
ghost use Rattle.fair_rounds.specs.Lassos.{IsLassoAnswer};
ghost use Rattle.run_answers.specs.Answers.{IsAnswer, IsLeadsAnswer, AreAnswers};
ghost use Rattle.run_answers.specs.Marks.{standings_for};

use crate::answers::RunAnswer;
use crate::evading::evading_run;
use crate::marks::condition_marks;
use crate::overtaking::overtaken;
use fair_rounds::{LassoAnswer, SoughtWays, Standing, find_lasso, standings_at_rest};
use machine::LoadFault;
use starving_streams::claims::{Fairness, LeadsTo, Rest, RunCondition};
use starving_streams::space::Space;
use starving_streams::{Graph, graph_of};
use std::alloc::{AllocError, Global};

/// Whether all runs keep each of these conditions, where these streams may rest, in the conditions' order, by a space
/// that has all worlds and all steps between them. `Streams` only where the image's slim is above `S`.
pub fn answers_of<const S: usize>(
    alloc: Global,
    space: &Space<'_>,
    rests: &[Rest],
    asked: &[RunCondition],
) -> Result<Vec<RunAnswer>, LoadFault>
    ensures are { IfOk result (λ v. HasAllStates space.now
        → AreAnswers space.now.image space.now.begin rests.now asked.now v.items) }
    ensures streams { result ≡ Err LoadFault.Streams → S < space.now.image.slim }
{
    let graph = graph_of::<S>(alloc, space, rests)?;
    let mut answers = Vec::new(alloc);
    for number in 0..asked.len() {
        answers.push(answer_of::<S>(alloc, space, &graph, &asked[number])?)?;
    }
    Ok(answers)
}

/// Whether all runs keep a condition, by a space that has all worlds and all steps between them, and its graph. If a run
/// evades it, one is shown, by a shortest schedule to a state where the first condition holds, or the stream waits. `Streams`
/// only where the image's slim is above `S`.
pub fn answer_of<const S: usize>(
    alloc: Global,
    space: &Space<'_>,
    graph: &Graph,
    asked: &RunCondition,
) -> Result<RunAnswer, LoadFault>
    ensures is { IfOk result (λ a. HasAllStates space.now → (rests : List Rest) → IsGraph space.now rests graph.now
        → IsAnswer space.now.image space.now.begin rests asked.now a) }
    ensures streams { result ≡ Err LoadFault.Streams → S < space.now.image.slim }
{
    match asked {
        RunCondition::Leads { leads, fairness } => {
            leads_to::<S>(alloc, space, graph, leads, *fairness)
        }
        RunCondition::Overtaken(asked) => overtaken::<S>(alloc, space, graph, asked),
    }
}

/// Whether a condition leads to another.
fn leads_to<const S: usize>(
    alloc: Global,
    space: &Space<'_>,
    graph: &Graph,
    asked: &LeadsTo,
    fairness: Fairness,
) -> Result<RunAnswer, LoadFault>
    ensures is { IfOk result (λ a. HasAllStates space.now → (rests : List Rest) → IsGraph space.now rests graph.now
        → IsLeadsAnswer space.now.image space.now.begin rests fairness asked.now a) }
    ensures streams { result ≡ Err LoadFault.Streams → S < space.now.image.slim }
{
    let marks = condition_marks::<S>(alloc, space, asked)?;
    let ways = SoughtWays {
        edges: &graph.edges,
        within: &marks.within,
        begins: &marks.begins,
    };
    match fair_lasso(alloc, ways, &graph.dues, fairness)? {
        LassoAnswer::Found(lasso) => Ok(evading_run(alloc, space, &lasso)?),
        LassoAnswer::Absent => Ok(RunAnswer::Kept),
        LassoAnswer::Undecided => Ok(RunAnswer::Undecided),
    }
}

/// A way that ends where no stream runs, or in a round that is fair as is asked, if there is one.
fn fair_lasso(
    alloc: Global,
    ways: SoughtWays<'_>,
    standings: &[Standing],
    fairness: Fairness,
) -> Result<LassoAnswer, AllocError>
    ensures { IfOk result (λ a. IsLassoAnswer ways.entry.edges.now (standings_for fairness standings.now)
        ways.entry.within.now ways.entry.begins.now a) }
{
    match fairness {
        Fairness::ByWords => find_lasso(alloc, ways, standings),
        Fairness::BySteps => {
            let resting = standings_at_rest(alloc, standings)?;
            find_lasso(alloc, ways, &resting)
        }
    }
}
