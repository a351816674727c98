//! The streams of a program that can wait forever.

ghost use Rattle.std.specs.Prelude.{◌≡◌, ◌<◌, Err, List, map, IfOk, OnOk};
ghost use Rattle.claims.specs.declared.run_conditions.Rest.{Rest};
ghost use Rattle.starving_streams.specs.Reports.{HasAllStates, TellsWhoStarves};
ghost use Rattle.starving_streams.specs.Graphs.{IsGraph, IsStreamAnswer, IsAdded, IsShownAs, step_of};

use crate::graphs::{Graph, graph_of};
use crate::places::places_of;
use crate::reports::{Starving, StarvingStreams};
use claims::Rest;
use fair_rounds::{Answer, Edge, Round, starving_round};
use machine::LoadFault;
use processor::Step;
use schedule_space::Space;
use std::alloc::{AllocError, Global};

/// The streams that can wait forever, where these may rest: some schedule leads to a round that is fair by words, in which
/// steps of the stream are due throughout and each that it has is Blocked. That is so of a space that has all worlds and all steps between them:
/// of each such stream a shortest schedule to the world of its round and the round are shown, and if none is shown or
/// left undecided, no stream can wait forever. `Streams` only where the image's slim is above `S`.
pub fn starving_streams<const S: usize>(
    alloc: Global,
    space: &Space<'_>,
    rests: &[Rest],
) -> Result<StarvingStreams, LoadFault>
    ensures tells { IfOk result (λ r. HasAllStates space.now
        → TellsWhoStarves space.now.image space.now.begin rests.now r) }
    ensures streams { result ≡ Err LoadFault.Streams → S < space.now.image.slim }
{
    let graph = graph_of::<S>(alloc, space, rests)?;
    let mut report = StarvingStreams {
        starving: Vec::new(alloc),
        undecided: Vec::new(alloc),
    };
    for number in 0..graph.streams.len() {
        let who = graph.streams[number];
        let answer = answer_of(alloc, space, &graph, who)?;
        add_answer(&mut report, who, answer)?;
    }
    Ok(report)
}

/// Adds what was found of a stream.
fn add_answer(
    report: &mut StarvingStreams,
    who: Step,
    answer: StreamAnswer,
) -> Result<(), AllocError>
    ensures { OnOk result (IsAdded who answer report.old report.new) }
{
    match answer {
        StreamAnswer::Starves(found) => report.starving.push(found)?,
        StreamAnswer::Never => {}
        StreamAnswer::Undecided => report.undecided.push(who)?,
    }
    Ok(())
}

/// What is found of a stream.
#[derive(Drop)]
pub(crate) enum StreamAnswer {
    /// It starves in this round.
    Starves(Starving),
    /// It can't wait forever.
    Never,
    /// It is not known whether it can.
    Undecided,
}

/// What is found of a stream of a graph.
fn answer_of(
    alloc: Global,
    space: &Space<'_>,
    graph: &Graph,
    who: Step,
) -> Result<StreamAnswer, AllocError>
    ensures { IfOk result (λ a. HasAllStates space.now → (rests : List Rest) → IsGraph space.now rests graph.now
        → IsStreamAnswer space.now.image space.now.begin rests who a) }
{
    let within = places_of(alloc, &graph.dues, space.len(), who)?;
    match starving_round(alloc, &graph.edges, &graph.dues, &within, who)? {
        Answer::Found(round) => starving_in(alloc, space, who, &round),
        Answer::Absent => Ok(StreamAnswer::Never),
        Answer::Undecided => Ok(StreamAnswer::Undecided),
    }
}

/// That a stream starves in a round, if that is at a place of the space.
fn starving_in(
    alloc: Global,
    space: &Space<'_>,
    who: Step,
    round: &Round,
) -> Result<StreamAnswer, AllocError>
    ensures { IfOk result (λ a. IsShownAs space.now who round.now a) }
{
    if round.place >= space.len() {
        return Ok(StreamAnswer::Undecided);
    }
    let stem = space.schedule(alloc, round.place)?;
    let round = steps_of(alloc, &round.edges)?;
    Ok(StreamAnswer::Starves(Starving {
        stream: who,
        stem,
        round,
    }))
}

/// The steps of edges.
pub fn steps_of(alloc: Global, edges: &[Edge]) -> Result<Vec<Step>, AllocError>
    ensures { IfOk result (λ v. v.items ≡ map step_of edges.now) }
{
    edges.iter().map(|edge| step_of(*edge)).collect(alloc)
}

/// The step of an edge.
fn step_of(edge: Edge) -> Step
    ensures { result ≡ step_of edge }
{
    edge.step
}
