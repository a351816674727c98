//! What a verdict shows.

use crate::observations::{Observation, ObservationKind};
use crate::run_observations::push_run;
use expectation_files::Requirements;
use expectations::Expectation;
use image_file::Image;
use image_machines::by_room;
use insn_word::{Insn, MemoryOp, decode_as};
use judgements::states::EndState;
use judgements::{CaseJudgement, MissedLine, Reason};
use processor::Step;
use std::alloc::{AllocError, Global};

/// The trap entry that names no handler.
const NO_HANDLER: u32 = u32::MAX;

/// A program that is not right, and what shows it.
#[derive(Clone, Copy)]
pub struct ShownMistake<'a> {
    /// The program, with the cells of the case that decides.
    pub image: &'a Image,
    /// What the case requires of it.
    pub required: &'a Requirements,
    /// What is known of it by the case.
    pub judgement: &'a CaseJudgement,
    /// The steps of the run that shows it; none where no run does.
    pub steps: &'a [Step],
}

impl<'a> ShownMistake<'a> {
    /// What the end of the run shows; None where no run decides.
    pub(crate) fn end(self) -> Option<&'a EndState> {
        match &self.judgement.reason {
            Reason::Run(run) => Some(&run.end.state),
            Reason::End(place) => match self.judgement.ends.get(*place) {
                Some(end) => Some(&end.state),
                None => None,
            },
            Reason::Looked
            | Reason::NoSchedule { .. }
            | Reason::NoRun { .. }
            | Reason::NoRunCan
            | Reason::Starved(_)
            | Reason::Evaded(_)
            | Reason::OpenWaits
            | Reason::OpenConditions
            | Reason::Rule(_)
            | Reason::Work(_)
            | Reason::Absent { .. }
            | Reason::Lacking { .. }
            | Reason::NotGiven { .. } => None,
        }
    }
}

/// All that a verdict shows: the program's instructions, what is missed, and of the run that decides each step, the findings
/// and the end.
pub fn observations_of(
    alloc: Global,
    shown: ShownMistake<'_>,
) -> Result<Vec<Observation>, AllocError> {
    let mut seen = Vec::new(alloc);
    push_program(&mut seen, shown.image)?;
    push_missed(&mut seen, shown)?;
    if let Some(end) = shown.end() {
        by_room!(shown.image, push_run(alloc, &mut seen, shown, end))?;
    }
    Ok(seen)
}

/// Adds the instructions of a program, and whether it names a handler.
fn push_program(seen: &mut Vec<Observation>, image: &Image) -> Result<(), AllocError> {
    if image.trap_entry() != NO_HANDLER {
        seen.push(Observation::of(ObservationKind::Handler))?;
    }
    for word in image.program() {
        if let Some(insn) = decode_as(image.profile(), *word) {
            let mut one = Observation::of(ObservationKind::Has);
            one.insn = Some(insn);
            one.address = named_address(insn);
            seen.push(one)?;
        }
    }
    Ok(())
}

/// The byte address that the reference of an instruction names, if its pointer is r0, which is 0 always.
fn named_address(insn: Insn) -> Option<u64> {
    match insn {
        Insn::Normal { m, .. } => {
            if matches!(m.op, MemoryOp::Nop) || m.base != 0 {
                return None;
            }
            match u64::try_from(m.disp) {
                Ok(words) => Some(words.saturating_mul(8)),
                Err(_) => None,
            }
        }
        Insn::Wide { .. } => None,
    }
}

/// Adds what the deciding line asks for that is not so.
fn push_missed(seen: &mut Vec<Observation>, shown: ShownMistake<'_>) -> Result<(), AllocError> {
    match shown.judgement.missed() {
        None => Ok(()),
        Some(MissedLine::End(place)) => match shown.required.ends().get(place) {
            Some(expectation) => push_words_of(seen, shown.image, *expectation),
            None => Ok(()),
        },
        Some(
            MissedLine::Claim(_)
            | MissedLine::Busy
            | MissedLine::Starved
            | MissedLine::Condition(_),
        ) => Ok(seen.push(Observation::of(ObservationKind::Claim))?),
        Some(MissedLine::Rule(_)) => Ok(seen.push(Observation::of(ObservationKind::Rule))?),
        Some(MissedLine::Work(_)) => Ok(seen.push(Observation::of(ObservationKind::Missed))?),
        Some(MissedLine::Absent { .. }) => {
            Ok(seen.push(Observation::of(ObservationKind::Absent))?)
        }
    }
}

/// Adds each word of which a missed expectation speaks; one without a word where it speaks of none.
fn push_words_of(
    seen: &mut Vec<Observation>,
    image: &Image,
    expectation: Expectation,
) -> Result<(), AllocError> {
    match expectation {
        Expectation::Word { address, .. } => push_missed_word(seen, address),
        Expectation::Words { first, last, .. } | Expectation::Sum { first, last, .. } => {
            for index in 0..image.cells().len() {
                let address = (index as u64).saturating_mul(8);
                if first <= address && address <= last {
                    push_missed_word(seen, address)?;
                }
            }
            Ok(())
        }
        Expectation::Compared { address, other, .. } => {
            push_missed_word(seen, address)?;
            push_missed_word(seen, other)
        }
        Expectation::Register { .. }
        | Expectation::Finished
        | Expectation::Stopped { .. }
        | Expectation::Waits { .. }
        | Expectation::Loops => Ok(seen.push(Observation::of(ObservationKind::Missed))?),
    }
}

/// Adds that an expectation of a word is missed.
fn push_missed_word(seen: &mut Vec<Observation>, address: u64) -> Result<(), AllocError> {
    Ok(seen.push(Observation::at(ObservationKind::Missed, address))?)
}
