//! The outcomes of a survey in words.

use crate::survey_objects::SurveyInput;
use expectation_messages::parts::texts::Notation;
use image_file::Image;
use image_machines::by_room;
use lab_requests::Maker;
use processor::Step;
use rayon::prelude::*;
use search_texts::ends_in_words::{first_finding, state_text};
use search_texts::parts::made_by;
use seed_outcomes::SeedOutcome;
use std::alloc::{AllocError, Global};
use std::thread::Threads;

/// An outcome in words.
#[derive(Drop)]
pub(crate) struct OutcomeWords {
    /// Who was stopped, who waits, and the words that changed.
    pub text: String,
    /// The first finding of the run of its first seed, and how many more there are; empty where there is none.
    pub finding: String,
}

/// Each of these outcomes in words, made over all cores. What an outcome's finding is is said of the run of its seed, which
/// is taken once more.
pub(crate) fn words_of_outcomes<X: Threads + Sync>(
    rt: &X,
    alloc: Global,
    surveyed: SurveyInput,
    notation: Notation<'_, '_>,
    outcomes: &[SeedOutcome],
) -> Result<Vec<OutcomeWords>, AllocError> {
    let words = (0..outcomes.len())
        .into_par_iter()
        .map(|place: usize| -> Result<OutcomeWords, AllocError> {
            let outcome = outcomes.get(place).ok_or(AllocError)?;
            words_of_outcome(alloc, surveyed, notation, outcome)
        })
        .with_min_len(1)
        .collect::<Result<Vec<OutcomeWords>, AllocError>>(rt, alloc);
    let Ok(Ok(words)) = words else {
        return Err(AllocError);
    };
    Ok(words)
}

/// An outcome in words.
fn words_of_outcome(
    alloc: Global,
    surveyed: SurveyInput,
    notation: Notation<'_, '_>,
    outcome: &SeedOutcome,
) -> Result<OutcomeWords, AllocError> {
    let image = &surveyed.program.image;
    let maker = Maker::Random { seed: outcome.seed };
    let made = made_by(alloc, image, maker, surveyed.most)?;
    Ok(OutcomeWords {
        text: state_text(alloc, notation, image, &outcome.state)?,
        finding: by_room!(image, finding_of(alloc, notation, image, &made.steps))?,
    })
}

/// The first finding of a run, on machines with room for `S` streams a processor.
fn finding_of<const S: usize>(
    alloc: Global,
    notation: Notation<'_, '_>,
    image: &Image,
    steps: &[Step],
) -> Result<String, AllocError> {
    first_finding::<S>(alloc, notation, image, steps, &[])
}
