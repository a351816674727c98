//! What is required of a program.

ghost use Rattle.std.specs.Prelude.{◌≡◌, ◌↔◌, map, OnOk, IsTrue};
ghost use Rattle.expectation_files.specs.Judged.{IsJudged, are_rules_kept};
ghost use Rattle.program_rules.specs.Keeping.{is_kept};
ghost use Rattle.expectation_files.specs.Files.{nothing_said, said_on, joined, is_nothing};
ghost use Rattle.expectation_files.specs.Seen.{requirements_seen, meaning_seen, condition_seen};
ghost use Rattle.expectation_files.specs.Lines.{OfRuns, Rules, Work};

use crate::lines::LineMeaning;
use crate::written_lines::{push_rule_lines, written};
use claims::{Claim, Rest, RunCondition};
use expectations::Expectation;
use image_file::Image;
use program_rules::{ProgramRule, is_kept};
use std::alloc::{AllocError, Global};
use work_rules::WorkRule;

/// The words of the line that says that no stream ever loops alone.
pub const NEVER_BUSY: &str = "never busy";

/// The words of the line that says that no stream can wait forever.
pub const NEVER_STARVED: &str = "never starved";

/// A line of a file, as it was written.
#[derive(Drop)]
pub struct WrittenLine {
    /// The line, counted from 1.
    pub number: usize,
    /// Its words, with a space between them.
    pub words: String,
}

/// What is required of a program: of the ends of its runs, of the states on the way, of who does the work in a run, and of its
/// program alone.
#[derive(Drop)]
pub struct Requirements {
    ends: Vec<Expectation>,
    end_lines: Vec<WrittenLine>,
    claims: Vec<Claim>,
    claim_lines: Vec<WrittenLine>,
    run_conditions: Vec<RunCondition>,
    condition_lines: Vec<WrittenLine>,
    rests: Vec<Rest>,
    rules: Vec<ProgramRule>,
    rule_lines: Vec<WrittenLine>,
    work: Vec<WorkRule>,
    work_lines: Vec<WrittenLine>,
    never_busy: Option<usize>,
    never_starved: Option<usize>,
}

impl Requirements {
    /// Nothing is required.
    pub fn none(alloc: Global) -> Requirements
        ensures { requirements_seen result ≡ nothing_said }
    {
        Requirements {
            ends: Vec::new(alloc),
            end_lines: Vec::new(alloc),
            claims: Vec::new(alloc),
            claim_lines: Vec::new(alloc),
            run_conditions: Vec::new(alloc),
            condition_lines: Vec::new(alloc),
            rests: Vec::new(alloc),
            rules: Vec::new(alloc),
            rule_lines: Vec::new(alloc),
            work: Vec::new(alloc),
            work_lines: Vec::new(alloc),
            never_busy: None,
            never_starved: None,
        }
    }

    /// Whether nothing is required.
    pub fn is_nothing(&self) -> bool
        ensures { result ≡ is_nothing (requirements_seen self.now) }
    {
        self.ends.is_empty()
            && self.claims.is_empty()
            && self.run_conditions.is_empty()
            && self.rests.is_empty()
            && self.rules.is_empty()
            && self.work.is_empty()
            && self.never_busy.is_none()
            && self.never_starved.is_none()
    }

    /// What each end has to be, in the order of the lines.
    pub fn ends(&self) -> &[Expectation]
        ensures { result.now ≡ self.now.ends.items }
    {
        &self.ends
    }

    /// The lines that say them, one each.
    pub fn end_lines(&self) -> &[WrittenLine]
        ensures { result.now ≡ self.now.end_lines.items }
    {
        &self.end_lines
    }

    /// What has to hold of each state, of none, or of one at least, in the order of the lines.
    pub fn claims(&self) -> &[Claim]
        ensures { result.now ≡ self.now.claims.items }
    {
        &self.claims
    }

    /// The lines that say them, one each.
    pub fn claim_lines(&self) -> &[WrittenLine]
        ensures { result.now ≡ self.now.claim_lines.items }
    {
        &self.claim_lines
    }

    /// What the runs have to be, in the order of the lines, and of the streams of a line.
    pub fn run_conditions(&self) -> &[RunCondition]
        ensures { result.now ≡ self.now.run_conditions.items }
    {
        &self.run_conditions
    }

    /// The lines that say it, one each.
    pub fn condition_lines(&self) -> &[WrittenLine]
        ensures { result.now ≡ self.now.condition_lines.items }
    {
        &self.condition_lines
    }

    /// The streams that may rest, in the order of the lines.
    pub fn rests(&self) -> &[Rest]
        ensures { result.now ≡ self.now.rests.items }
    {
        &self.rests
    }

    /// What the program itself has to be, in the order of the lines, and of the operations of a line.
    pub fn rules(&self) -> &[ProgramRule]
        ensures { result.now ≡ self.now.rules.items }
    {
        &self.rules
    }

    /// The lines that say them, one each; of a line with several operations the words are those of this one.
    pub fn rule_lines(&self) -> &[WrittenLine]
        ensures { result.now ≡ self.now.rule_lines.items }
    {
        &self.rule_lines
    }

    /// What streams have to do in each run, in the order of the lines, and of the streams of a line.
    pub fn work(&self) -> &[WorkRule]
        ensures { result.now ≡ self.now.work.items }
    {
        &self.work
    }

    /// The lines that say it, one each.
    pub fn work_lines(&self) -> &[WrittenLine]
        ensures { result.now ≡ self.now.work_lines.items }
    {
        &self.work_lines
    }

    /// Whether something is required, and the program of an image keeps the rules.
    pub fn is_judged(&self, image: &Image) -> bool
        ensures { IsTrue result ↔ IsJudged image.now self.now }
    {
        !self.is_nothing() && are_rules_kept(image, &self.rules)
    }

    /// The first line, counted from 1, that says that no stream ever loops alone; None where none does.
    pub fn never_busy(&self) -> Option<usize>
        ensures { result ≡ self.now.never_busy }
    {
        self.never_busy
    }

    /// The first line, counted from 1, that says that no stream can wait forever; None where none does.
    pub fn never_starved(&self) -> Option<usize>
        ensures { result ≡ self.now.never_starved }
    {
        self.never_starved
    }

    /// Adds what the line of this number says.
    #[tactic(auto, using(crate::proofs::Joined::joined_nothing, crate::proofs::Joined::joined_end, crate::proofs::Joined::joined_claim, crate::proofs::Joined::joined_rest, crate::proofs::Joined::joined_busy, crate::proofs::Joined::joined_starved))]
    pub(crate) fn add(
        &mut self,
        alloc: Global,
        number: usize,
        line: &[u8],
        meaning: LineMeaning,
    ) -> Result<(), AllocError>
        ensures { OnOk result (requirements_seen self.new
            ≡ joined (requirements_seen self.old) (said_on number line.now (meaning_seen meaning))) }
    {
        match meaning {
            LineMeaning::Nothing | LineMeaning::Mark(_) => Ok(()),
            LineMeaning::End(expectation) => {
                self.ends.push(expectation)?;
                Ok(self.end_lines.push(written(alloc, number, line)?)?)
            }
            LineMeaning::Claim(claim) => {
                self.claims.push(claim)?;
                Ok(self.claim_lines.push(written(alloc, number, line)?)?)
            }
            LineMeaning::Runs(conditions) => self.add_conditions(alloc, number, line, conditions),
            LineMeaning::Rest(rest) => Ok(self.rests.push(rest)?),
            LineMeaning::Rules(rules) => self.add_rules(alloc, number, line, &rules),
            LineMeaning::Work(rules) => self.add_work(alloc, number, line, &rules),
            LineMeaning::NeverBusy => {
                self.never_busy = self.never_busy.or(Some(number));
                Ok(())
            }
            LineMeaning::NeverStarved => {
                self.never_starved = self.never_starved.or(Some(number));
                Ok(())
            }
        }
    }

    /// Adds what the line of this number says of runs.
    #[tactic(auto, using(crate::proofs::Joined::joined_conditions))]
    fn add_conditions(
        &mut self,
        alloc: Global,
        number: usize,
        line: &[u8],
        mut conditions: Vec<RunCondition>,
    ) -> Result<(), AllocError>
        ensures { OnOk result (requirements_seen self.new
            ≡ joined (requirements_seen self.old) (said_on number line.now (OfRuns (map condition_seen conditions.items)))) }
    {
        let count = conditions.len();
        self.run_conditions.append(&mut conditions)?;
        push_rule_lines(alloc, &mut self.condition_lines, number, line, count)
    }

    /// Adds the rules that the line of this number says.
    #[tactic(auto, using(crate::proofs::Joined::joined_rules))]
    fn add_rules(
        &mut self,
        alloc: Global,
        number: usize,
        line: &[u8],
        rules: &[ProgramRule],
    ) -> Result<(), AllocError>
        ensures { OnOk result (requirements_seen self.new
            ≡ joined (requirements_seen self.old) (said_on number line.now (Rules rules.now))) }
    {
        self.rules.extend_from_slice(rules)?;
        push_rule_lines(alloc, &mut self.rule_lines, number, line, rules.len())
    }

    /// Adds what the line of this number says of who does the work.
    #[tactic(auto, using(crate::proofs::Joined::joined_work))]
    fn add_work(
        &mut self,
        alloc: Global,
        number: usize,
        line: &[u8],
        rules: &[WorkRule],
    ) -> Result<(), AllocError>
        ensures { OnOk result (requirements_seen self.new
            ≡ joined (requirements_seen self.old) (said_on number line.now (Work rules.now))) }
    {
        self.work.extend_from_slice(rules)?;
        push_rule_lines(alloc, &mut self.work_lines, number, line, rules.len())
    }
}

/// Whether the program of an image keeps some rules.
pub fn are_rules_kept(image: &Image, rules: &[ProgramRule]) -> bool
    ensures { result ≡ are_rules_kept image.now rules.now }
{
    rules.iter().all(
        |rule: &ProgramRule| -> bool
            ensures { result ≡ is_kept image.entry.now rule.now }
        { is_kept(image, *rule) },
    )
}
