//! Submissions judged side by side.

use crate::class_flow::ClassFlow;
use crate::class_stages::{Desk, Job, Next, Outcome};
use crossbeam_channel::{Receiver, Sender, bounded};
use lab_requests::GradeRequest;
use program_pages::searches::Console;
use rayon::current_num_threads;
use std::alloc::Global;
use std::fs::File;
use std::io::{Read, Write, sink};
use std::rt::Files;
use std::sync::Wait;
use std::thread;
use std::thread::Threads;
use std::time::{Clock, Duration};
use submission_rows::parts::LabFault;
use submission_rows::{Grading, most_searches, row_on};

/// How many milliseconds pass at most before progress is shown again.
const SHOWN_EACH: u64 = 1_000;

/// How many of so many submissions are judged side by side: as many as are asked for, else as there are processors, and
/// no more than there are.
pub(crate) fn jobs_of<X: Threads>(rt: &X, request: &GradeRequest, submissions: usize) -> usize {
    let jobs = match request.jobs {
        Some(jobs) => jobs,
        None => current_num_threads(rt).min(most_searches(request)),
    };
    jobs.min(submissions)
}

/// Where submissions that are to be judged wait.
type Jobs = Receiver<Job, Global>;

/// Where those that were judged go.
type Outcomes = Sender<Outcome, Global>;

/// Judges all submissions of a class, and writes their rows in their order, each as soon as it and those before it are
/// known. Each job takes the next submission when it is free.
pub(crate) fn judge_class<X: Threads + Wait + Sync + Clock, F: Files, R: Read, W: Write, E: Write>(
    rt: &X,
    alloc: Global,
    grading: &Grading<'_, '_>,
    flow: &mut ClassFlow<'_, '_, '_, F::File>,
    desk: &mut Desk<'_, '_, '_, '_, '_, '_, F, R, W, X, E>,
) -> Result<(), LabFault> {
    // (one job has a thread of its own where progress is shown, unless its searches show theirs)
    let is_watched = flow.is_shown() && grading.request.explored.is_none();
    let judged = if grading.jobs > 1 || is_watched {
        judge_side_by_side(rt, alloc, grading, flow, desk)
    } else {
        judge_in_turn(rt, alloc, grading, flow, desk)
    };
    flow.wipe(desk);
    judged
}

/// Judges them one after the other.
fn judge_in_turn<X: Threads + Wait + Sync + Clock, F: Files, R: Read, W: Write, E: Write>(
    rt: &X,
    alloc: Global,
    grading: &Grading<'_, '_>,
    flow: &mut ClassFlow<'_, '_, '_, F::File>,
    desk: &mut Desk<'_, '_, '_, '_, '_, '_, F, R, W, X, E>,
) -> Result<(), LabFault> {
    for _ in 0..grading.submissions.len() {
        if flow.may_read() {
            if let Next::Judge(job) = flow.read_next(alloc, desk)? {
                flow.show(desk);
                let outcome = judged(rt, alloc, grading, job, desk.console);
                flow.take(alloc, desk, outcome)?;
            }
        }
        flow.write_ready(alloc, desk)?;
    }
    Ok(())
}

/// A submission, judged. It has no clause, so what [`row_on`] promises burdens no proof above it.
fn judged<X: Threads + Sync, C: Clock, E: Write>(
    rt: &X,
    alloc: Global,
    grading: &Grading<'_, '_>,
    job: Job,
    console: &mut Console<'_, C, E>,
) -> Outcome {
    let Job { place, program } = job;
    let row = row_on(rt, alloc, grading, &program, console);
    Outcome {
        place,
        program,
        row,
    }
}

/// Judges them on threads, as many as there are jobs, and where the system has none one after the other.
fn judge_side_by_side<X: Threads + Wait + Sync + Clock, F: Files, R: Read, W: Write, E: Write>(
    rt: &X,
    alloc: Global,
    grading: &Grading<'_, '_>,
    flow: &mut ClassFlow<'_, '_, '_, F::File>,
    desk: &mut Desk<'_, '_, '_, '_, '_, '_, F, R, W, X, E>,
) -> Result<(), LabFault> {
    // (with room for all that are on their way, nothing that is sent takes memory, and so none is lost)
    let room = flow.most_waiting();
    let (sender, jobs) = bounded(alloc, room)?;
    let (outcomes, receiver) = bounded(alloc, room)?;
    thread::scope(thread::scope_env(), rt, |scope| {
        let mut started: usize = 0;
        for _ in 0..grading.jobs {
            let (jobs, outcomes) = (jobs.clone()?, outcomes.clone()?);
            if scope
                .spawn(move || work(rt, alloc, grading, jobs, outcomes))
                .is_ok()
            {
                started = started.saturating_add(1);
            }
        }
        if started == 0 {
            return judge_in_turn(rt, alloc, grading, flow, desk);
        }
        share_out(rt, alloc, flow, desk, sender, receiver)
    })
}

/// What a job does: it judges one of the submissions that wait, and then the next, until there are no more.
fn work<X: Threads + Wait + Sync + Clock>(
    rt: &X,
    alloc: Global,
    grading: &Grading<'_, '_>,
    jobs: Jobs,
    outcomes: Outcomes,
) {
    let mut nowhere = sink();
    let mut console = Console {
        clock: rt,
        errors: &mut nowhere,
        is_terminal: false,
        memory: unread_memory(rt),
    };
    for job in jobs.iter(rt) {
        let outcome = judged(rt, alloc, grading, job, &mut console);
        if outcomes.send(rt, outcome).is_err() {
            return;
        }
    }
}

/// That the system is not asked how much memory the process takes.
fn unread_memory<X>(_rt: &X) -> Option<&File> {
    None
}

/// Reads submissions, hands them to the jobs, and writes the rows that come back.
fn share_out<X: Threads + Wait + Sync + Clock, F: Files, R: Read, W: Write, E: Write>(
    rt: &X,
    alloc: Global,
    flow: &mut ClassFlow<'_, '_, '_, F::File>,
    desk: &mut Desk<'_, '_, '_, '_, '_, '_, F, R, W, X, E>,
    sender: Sender<Job, Global>,
    receiver: Receiver<Outcome, Global>,
) -> Result<(), LabFault> {
    for _ in rt.forever() {
        flow.write_ready(alloc, desk)?;
        if flow.is_done() {
            return Ok(());
        }
        let came = if flow.may_read() {
            if let Next::Judge(job) = flow.read_next(alloc, desk)? {
                hand_on(rt, &sender, job)?;
            }
            receiver.try_recv(rt).ok()
        } else {
            next_outcome(rt, flow, &receiver)
        };
        if let Some(outcome) = came {
            flow.take(alloc, desk, outcome)?;
        }
        flow.show(desk);
    }
    unreachable!()
}

/// Hands a submission to the jobs.
fn hand_on<X: Wait>(rt: &X, sender: &Sender<Job, Global>, job: Job) -> Result<(), LabFault> {
    match sender.send(rt, job) {
        Ok(()) => Ok(()),
        Err(_) => Err(LabFault::NoMemory),
    }
}

/// Waits for a submission that was judged, for as long as progress may wait where it is shown.
fn next_outcome<X: Wait + Clock, T>(
    rt: &X,
    flow: &ClassFlow<'_, '_, '_, T>,
    receiver: &Receiver<Outcome, Global>,
) -> Option<Outcome> {
    if flow.is_shown() {
        receiver
            .recv_timeout(rt, Duration::from_millis(SHOWN_EACH))
            .ok()
    } else {
        receiver.recv(rt).ok()
    }
}
