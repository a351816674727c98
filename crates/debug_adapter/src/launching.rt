//! What a request to launch asks for.

use adapter_messages::DapRequest;
use processor::MAX_STEPS;

/// How many steps a made schedule has at most, where none are said.
const USUAL_STEPS: u64 = 10_000;

/// By which schedule a program is to run.
#[derive(Clone, Copy)]
pub enum ScheduleChoice<'r> {
    /// By that of a file.
    File(&'r str),
    /// The processors in turn, and within each its streams.
    Fair,
    /// The running streams in the order of processor and stream.
    Rounds,
    /// One of the running streams at each step, by a generator with this seed.
    Random(u64),
}

/// What is to be launched.
#[derive(Clone, Copy)]
pub struct LaunchRequest<'r> {
    /// The request's number.
    pub seq: u64,
    /// The program's path.
    pub program: &'r str,
    /// Its schedule.
    pub schedule: ScheduleChoice<'r>,
    /// The most steps of a made schedule.
    pub steps: usize,
    /// Whether to stop at the start.
    pub stops_on_entry: bool,
}

/// What a request to launch asks for; or why that can't be launched.
pub fn launch_of(request: &DapRequest) -> Result<LaunchRequest<'_>, &'static str> {
    let Some(program) = request.text("program") else {
        return Err("launch takes a program: the path of a source text or an image");
    };
    let schedule = schedule_asked(request)?;
    let steps = steps_asked(request)?;
    match request.is_true("stopOnEntry") {
        Some(stops_on_entry) => Ok(LaunchRequest {
            seq: request.seq,
            program,
            schedule,
            steps,
            stops_on_entry,
        }),
        None => Err("stopOnEntry takes true or false"),
    }
}

/// By which schedule the program is to run.
fn schedule_asked(request: &DapRequest) -> Result<ScheduleChoice<'_>, &'static str> {
    match request.text_or("schedule", "fair") {
        Some("fair" | "") => Ok(ScheduleChoice::Fair),
        Some("rounds") => Ok(ScheduleChoice::Rounds),
        Some(text) => named_schedule(text),
        None => Err("schedule takes a text: fair, rounds, random:SEED, or the path of a schedule"),
    }
}

/// A random schedule by its seed, or that of a file.
fn named_schedule(text: &str) -> Result<ScheduleChoice<'_>, &'static str> {
    let Some(seed) = text.strip_prefix("random:") else {
        return Ok(ScheduleChoice::File(text));
    };
    match seed.parse::<u64>() {
        Ok(seed) => Ok(ScheduleChoice::Random(seed)),
        Err(_) => Err("random: takes a seed, as random:7"),
    }
}

/// How many steps a made schedule has at most.
fn steps_asked(request: &DapRequest) -> Result<usize, &'static str> {
    match request.number_or("steps", USUAL_STEPS) {
        Some(steps) if steps >= 1 && steps <= MAX_STEPS as u64 => Ok(steps as usize),
        _ => Err("steps takes a number from 1 to 1000000"),
    }
}
