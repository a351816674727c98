//! Of each step of a run, the last step before it that met its word.

ghost use Rattle.std.specs.Prelude.{◌≡◌, ℕ, ◌<◌, Option, length, IfOk, IfSome};
ghost use Rattle.run_findings.specs.Links.{AreLinksOfRun, AreLinksSoFar, AreLastWrites, last_write_at};
ghost use Rattle.run_findings.specs.Links.{link_to, same_to, word_of, is_met, meets_its_word};

use crate::actions::{Access, Action, op_reads};
use crate::parting::Meeting;
use std::alloc::{AllocError, Global};
use std::collections::HashMap;

/// The last step so far that had each word.
#[derive(Drop)]
pub(crate) struct Latest {
    steps: HashMap<u64, usize>,
}

impl Latest {
    ghost use Rattle.std.specs.Prelude.{ℕ, None, OnOk};
    ghost use Rattle.run_findings.specs.Links.{latest_of, latest_in, with_step};

    /// None had any.
    #[tactic(auto, unfolding(crate::specs::Links::latest_of))]
    pub(crate) fn new(alloc: Global) -> Latest
        ensures { (a : ℕ) → latest_of result a ≡ None }
    {
        Latest {
            steps: HashMap::new(alloc),
        }
    }

    /// The last step that had a word, where there is one.
    #[tactic(auto, unfolding(crate::specs::Links::latest_of))]
    fn before(&self, word: Option<u64>) -> Option<usize>
        ensures { result ≡ latest_in self.now word }
    {
        match word {
            Some(address) => self.steps.get(&address).copied(),
            None => None,
        }
    }

    /// Notes the word of a step, if it has one, and gives the last step before it that had it.
    #[tactic(auto, unfolding(crate::specs::Links::latest_of))]
    pub(crate) fn note(
        &mut self,
        word: Option<u64>,
        step: usize,
    ) -> Result<Option<usize>, AllocError>
        ensures before { IfOk result (λ before. before ≡ latest_in self.old word) }
        ensures noted { OnOk result ((a : ℕ) → latest_of self.new a ≡ with_step a word step (latest_of self.old a)) }
    {
        match word {
            Some(address) => {
                let before = self.steps.insert(address, step)?;
                Ok(before)
            }
            None => Ok(None),
        }
    }
}

/// What is known of each step of a run from its word. It is made once for all that is looked for in the run.
#[derive(Drop)]
pub(crate) struct Links {
    /// The last step before it that wrote its word.
    pub(crate) writes: Vec<Option<usize>>,
    /// The last step before it that read its word.
    pub(crate) reads: Vec<Option<usize>>,
    /// The last step of the run that has each word.
    pub(crate) latest: Latest,
}

impl Links {
    /// Those of a run with these steps.
    pub(crate) fn of(alloc: Global, actions: &[Action]) -> Result<Links, AllocError>
        ensures { IfOk result (λ links. AreLinksOfRun actions.now links) }
    {
        let mut latest = Latest::new(alloc);
        let mut writes = Vec::new(alloc);
        let mut reads = Vec::new(alloc);
        for step in 0..actions.len() {
            let same = latest.note(word_of(&actions[step].access), step)?;
            let write = link_by(actions, &writes, Meeting::Writes, same);
            writes.push(write)?;
            let read = link_by(actions, &reads, Meeting::Reads, same);
            reads.push(read)?;
        }
        Ok(Links {
            writes,
            reads,
            latest,
        })
    }

    /// Of each step of the run, the last step of the run that writes its word.
    pub(crate) fn last_writes(
        &self,
        alloc: Global,
        actions: &[Action],
    ) -> Result<Vec<Option<usize>>, AllocError>
        requires linked { AreLinksOfRun actions.now self.now }
        ensures { IfOk result (λ lasts. AreLastWrites actions.now lasts.items) }
    {
        let mut lasts = Vec::new(alloc);
        for step in 0..actions.len() {
            let last = self.last_write(actions, step);
            lasts.push(last)?;
        }
        Ok(lasts)
    }

    /// The last step of the run that writes the word of this step.
    fn last_write(&self, actions: &[Action], step: usize) -> Option<usize>
        requires linked { AreLinksOfRun actions.now self.now }
        requires step_in { step < length actions.now }
        ensures { result ≡ last_write_at actions.now step }
    {
        let last = self.latest.before(word_of(&actions[step].access));
        link_by(actions, &self.writes, Meeting::Writes, last)
    }
}

/// The last step before some step that met its word in a way, by the last one before it that had the word at all.
fn link_by(
    actions: &[Action],
    links: &[Option<usize>],
    way: Meeting,
    same: Option<usize>,
) -> Option<usize>
    requires within { IfSome same (λ k. k < length links.now) }
    requires links { AreLinksSoFar way actions.now links.now }
    ensures { (n : ℕ) (word : Option ℕ) → same ≡ same_to actions.now n word → result ≡ link_to way actions.now n word }
{
    match same {
        Some(before) => {
            if meets_its_word(way, &actions[before].access) {
                Some(before)
            } else {
                links[before]
            }
        }
        None => None,
    }
}

/// The word of an access, where there is one.
fn word_of(access: &Option<Access>) -> Option<u64>
    ensures { result ≡ word_of access.now }
{
    match access {
        Some(access) => Some(access.address),
        None => None,
    }
}

/// Whether a step with this access meets its word in a way.
fn meets_its_word(way: Meeting, access: &Option<Access>) -> bool
    ensures { result ≡ meets_its_word way access.now }
{
    match access {
        Some(access) => is_met(way, access),
        None => false,
    }
}

/// Whether an access meets its word in a way.
fn is_met(way: Meeting, access: &Access) -> bool
    ensures { result ≡ is_met way access.now }
{
    match way {
        Meeting::Reads => op_reads(access.op),
        Meeting::Writes => access.is_change(),
        Meeting::News => false,
    }
}
