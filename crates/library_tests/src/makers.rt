//! Schedules that are made: their steps, and why they end. The choices of `random` are worked out by an implementation of
//! splitmix64 and xoshiro256++ in another language, those of `seeded` by tests/runner/seed_rules.py.
use crate::sources::image_of;
use machine::Machine;
use processor::Step;
use schedule_makers::{MadeEnd, MadeSchedule, fair, fair_length, random, rounds, seeded};
use std::alloc::Global;

/// The program of examples/lock.asm.
const LOCK: &str =
    ".slim 1\n.entry locked\n.entry locked\n.entry bare\n.entry bare\n.data 0\n.data 0\n\
    locked: LOAD.S r1, r0, 0\nLOAD.N r2, r0, 1\nADD r2, r2, 1\nSTORE.N r2, r0, 1\nSTORE.S r1, r0, 0\nQUIT\n\
    bare: LOAD.N r2, r0, 1\nADD r2, r2, 1\nSTORE.N r2, r0, 1\nQUIT\n";

/// Stream 0 of processor 0 starts stream 1 with its fourth step. All go on forever then, as does processor 1.
const STARTING: &str =
    ".slim 2\n.entry 0\n.entry loop\nLIT r1, 1\nRESERVE r2, r1\nTLIT t1, loop\nCREATE t1, r0\n\
    loop: SKIP ALWAYS, 0, -1\n.data 0\n";

/// Three streams that go on forever.
const LOOPING: &str = ".slim 1\n.entry 0\n.entry 0\n.entry 0\nSKIP ALWAYS, 0, -1\n.data 0\n";

/// Two streams that mask BLOCKED, and wait forever after one block that is counted.
const DEADLOCK: &str =
    ".slim 1\n.retry 1\n.entry 0\n.entry 0\nMASK 4\nLOAD.S r1, r0, 0\nQUIT\n.data 0, 0\n";

/// Which rule makes the schedule.
#[derive(Clone, Copy)]
enum Rule {
    Rounds,
    Fair,
    Random(u64),
    /// The rule that this seed's number says.
    OfSeed(u64),
}

use Rule::{Fair, OfSeed, Random, Rounds};

fn made(alloc: Global, source: &str, rule: Rule, most: usize) -> Option<MadeSchedule> {
    let image = image_of(alloc, source)?;
    let mut machine: Machine<8> = Machine::load(alloc, &image).ok()?;
    made_of(alloc, &mut machine, rule, most)
}

/// The schedule that the rule makes on a machine.
fn made_of(
    alloc: Global,
    machine: &mut Machine<8>,
    rule: Rule,
    most: usize,
) -> Option<MadeSchedule> {
    match rule {
        Rounds => rounds(alloc, machine, most).ok(),
        Fair => fair(alloc, machine, most).ok(),
        Random(seed) => random(alloc, machine, seed, most).ok(),
        OfSeed(seed) => {
            let fair_steps = fair_length(alloc, machine).ok()?;
            seeded(alloc, machine, seed, fair_steps, most).ok()
        }
    }
}

/// The steps of a schedule: each the number of its processor, and 10 more where it is of stream 1.
type Steps = &'static [u8];

/// Whether this is what is made, and why no more is.
fn makes(alloc: Global, source: &str, rule: Rule, most: usize, steps: &[u8], end: MadeEnd) -> bool {
    match made(alloc, source, rule, most) {
        Some(made) => made.end == end && are_steps(&made.steps, steps),
        None => false,
    }
}

fn are_steps(made: &[Step], steps: &[u8]) -> bool {
    for (made, step) in made.iter().zip(steps) {
        if (made.p, made.s) != (*step % 10, *step / 10) {
            return false;
        }
    }
    made.len() == steps.len()
}

/// The lock in turn.
const IN_TURN: [u8; 24] = [
    0, 1, 2, 3, 0, 1, 2, 3, 0, 1, 2, 3, 0, 1, 2, 3, 0, 1, 0, 1, 1, 1, 1, 1,
];
/// The lock at random by seed 0, and by seed 3.
const OF_SEED_0: [u8; 22] = [
    1, 1, 1, 0, 1, 0, 3, 3, 1, 0, 1, 0, 0, 0, 0, 2, 2, 0, 2, 2, 3, 3,
];

const OF_SEED_3: [u8; 21] = [
    0, 2, 3, 3, 2, 0, 0, 2, 2, 0, 1, 0, 1, 1, 0, 1, 1, 3, 3, 1, 1,
];
/// The lock by the rules that seeds say.
const IN_TURNS_OF_8: [u8; 20] = [3, 3, 0, 0, 0, 0, 0, 0, 1, 1, 1, 1, 1, 1, 2, 2, 2, 2, 3, 3];

const IN_TURNS_OF_32: [u8; 20] = [3, 3, 3, 3, 1, 1, 1, 1, 1, 1, 2, 2, 2, 2, 0, 0, 0, 0, 0, 0];

const ONE_LEFT_OUT: [u8; 20] = [2, 2, 0, 0, 0, 2, 2, 0, 0, 0, 1, 1, 1, 1, 1, 1, 3, 3, 3, 3];

const BY_PRIORITIES: [u8; 20] = [0, 0, 3, 3, 3, 2, 2, 2, 2, 0, 0, 0, 1, 1, 1, 1, 1, 1, 0, 3];
/// Rounds take each stream, and the fair rule each processor.
const EACH_STREAM: [u8; 13] = [0, 1, 0, 1, 0, 1, 0, 10, 1, 0, 10, 1, 0];

const EACH_PROCESSOR: [u8; 13] = [0, 1, 0, 1, 0, 1, 0, 1, 10, 1, 0, 1, 10];
/// The choices of the generator at four seeds.
const CHOICES_OF_0: [u8; 16] = [0, 1, 1, 0, 1, 0, 2, 2, 0, 0, 0, 0, 0, 0, 0, 1];

const CHOICES_OF_1: [u8; 16] = [2, 2, 0, 2, 0, 1, 2, 1, 0, 0, 2, 1, 0, 1, 0, 0];

const CHOICES_OF_2024: [u8; 16] = [1, 0, 0, 1, 2, 2, 2, 1, 0, 1, 1, 2, 1, 1, 1, 2];

const CHOICES_OF_MAX: [u8; 16] = [1, 2, 2, 0, 1, 1, 2, 1, 1, 2, 1, 1, 2, 0, 0, 0];
/// A standstill ends a schedule.
const STOPPING: [u8; 4] = [0, 1, 0, 1];

/// A source, the rule, how many steps there may be, which there are, and why no more.
type Row = (&'static str, Rule, usize, Steps, MadeEnd);

const ROWS: [Row; 18] = [
    (LOCK, Rounds, 100, &IN_TURN, MadeEnd::NobodyRuns),
    (LOCK, Fair, 100, &IN_TURN, MadeEnd::NobodyRuns),
    (LOCK, Random(0), 100, &OF_SEED_0, MadeEnd::NobodyRuns),
    (LOCK, Random(3), 100, &OF_SEED_3, MadeEnd::NobodyRuns),
    (LOCK, OfSeed(1), 100, &IN_TURNS_OF_8, MadeEnd::NobodyRuns),
    (LOCK, OfSeed(2), 100, &IN_TURNS_OF_32, MadeEnd::NobodyRuns),
    (LOCK, OfSeed(4), 100, &ONE_LEFT_OUT, MadeEnd::NobodyRuns),
    (LOCK, OfSeed(7), 100, &BY_PRIORITIES, MadeEnd::NobodyRuns),
    (STARTING, Rounds, 13, &EACH_STREAM, MadeEnd::OutOfSteps),
    (STARTING, Fair, 13, &EACH_PROCESSOR, MadeEnd::OutOfSteps),
    (LOOPING, Random(0), 16, &CHOICES_OF_0, MadeEnd::OutOfSteps),
    (LOOPING, Random(1), 16, &CHOICES_OF_1, MadeEnd::OutOfSteps),
    (
        LOOPING,
        Random(2024),
        16,
        &CHOICES_OF_2024,
        MadeEnd::OutOfSteps,
    ),
    (
        LOOPING,
        Random(u64::MAX),
        16,
        &CHOICES_OF_MAX,
        MadeEnd::OutOfSteps,
    ),
    (DEADLOCK, Fair, 0, &[], MadeEnd::OutOfSteps),
    (DEADLOCK, Fair, 3, &[0, 1, 0], MadeEnd::OutOfSteps),
    (DEADLOCK, Fair, 4, &STOPPING, MadeEnd::Standstill),
    (DEADLOCK, Fair, 100, &STOPPING, MadeEnd::Standstill),
];

/// The first of the rows that is made otherwise.
fn first_made_otherwise(alloc: Global, rows: &[Row]) -> Option<usize> {
    for (number, (source, rule, most, steps, end)) in rows.iter().enumerate() {
        if !makes(alloc, source, *rule, *most, steps, *end) {
            return Some(number);
        }
    }
    None
}

#[test]
fn schedules_are_made_by_their_rules(rt: HostRuntime) {
    assert!(rt; first_made_otherwise(rt.alloc(), &ROWS).is_none());
}
