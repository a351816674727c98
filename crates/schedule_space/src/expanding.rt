//! All steps from a world of a space in the making, or one that can be taken before all others.

ghost use Rattle.std.specs.Prelude.{◌≡◌, ◌<◌, ◌⊎◌, ◌++◌, ℕ, [], ◌∷◌, true, false, Err, Contains, IfOk, OnOk};
ghost use Rattle.processor.specs.declared.steps.Step.{Step};
ghost use Rattle.agreeing_ends.specs.LocalSteps.SettledEndings.{AreSettled};
ghost use Rattle.schedule_space.specs.declared.links.Edge.{Edge};
ghost use Rattle.schedule_space.specs.Spaces.{world_of, AreAllDifferent};
ghost use Rattle.schedule_space.specs.Kept.{AreKept, AreKeptAt};
ghost use Rattle.schedule_space.specs.Finding.{IsGrown, IsTaken, IsTakenTo, IsExpanded, IsExpanding, HasRunning};
ghost use Rattle.schedule_space.specs.Finding.{HasNoEdge, HaveNoEdges, IsFullAt};
ghost use Rattle.schedule_space.specs.Quiet.{IsTakenQuietly, IsFollowedQuietly, IsSomeTakenLater};
ghost use Rattle.tag_memory.specs.Unforwarded.{IsUnforwarded};
ghost use Rattle.schedule_space.specs.Tables.{AreTablesOf};

use crate::finding::{Found, Stop};
use crate::kept_machines::KeptMachines;
use crate::links::{Edge, Link};
use crate::observations::Observation;
use crate::quiet::is_quiet_step;
use crate::together::is_in;
use agreeing_ends::local::is_free_step;
use processor::Step;
use touched_words::TouchTable;

/// What a search looks for.
#[derive(Clone, Copy, Debug, PartialEq, Eq)]
pub(crate) enum Wanted {
    /// All worlds.
    Worlds,
    /// All ends: fewer worlds will do.
    Ends,
}

/// What a search for ends knows of its image, by which steps of a world may wait for others.
#[derive(Clone, Copy)]
pub(crate) struct Shortcuts<'a> {
    /// The places from which no stream comes to a RESERVE or CREATE.
    pub(crate) settled: &'a [bool],
    /// What its caller looks at.
    pub(crate) observation: Observation<'a>,
    /// Whether it takes sets of steps: where no word may forward.
    pub(crate) by_sets: bool,
    /// By processor what its streams may still ask for, where it does.
    pub(crate) tables: &'a [TouchTable],
}

impl<'i> Found<'i> {
    /// Takes steps of the world at a place, unless there would be more than `most` worlds: each one,
    /// or where ends are wanted and a step that can be taken before all others (`is_free_step`, by the settled places),
    /// and that nobody sees who looks at the places in `looked_at` alone (`is_quiet_step`), leads to a later place, that
    /// one. Where sets are taken it may be those of a set (`take_set_or_all`).
    pub(crate) fn expand<const S: usize>(
        &mut self,
        machines: &mut KeptMachines<'i, S>,
        from: u32,
        wanted: Wanted,
        shortcuts: Shortcuts<'_>,
        most: u32,
    ) -> Result<(), Stop>
        requires expanding { IsExpanding self.old from most }
        requires edges { (e : Edge) → Contains self.old.edges e → e.from < from }
        requires machines { AreKept self.old machines.old }
        requires settled { AreSettled self.old.image shortcuts.settled.now }
        requires tables { shortcuts.by_sets ≡ true → AreTablesOf self.old.image self.old.live shortcuts.tables.now }
        requires unforwarded { shortcuts.by_sets ≡ true → IsUnforwarded (world_of self.old from).memory }
        ensures grown { IsGrown self.old self.new }
        ensures expanding { IsExpanding self.new from most }
        ensures full { result ≡ Err Stop.Full → IsFullAt self.new from most }
        ensures machines { OnOk result (AreKept self.new machines.new) }
        ensures quiet { OnOk result (IsFollowedQuietly shortcuts.entry.observation.places.now shortcuts.entry.observation.words.now self.new from) }
        ensures expanded { wanted ≡ Wanted.Worlds → OnOk result (IsExpanded self.new from) }
    {
        machines.go_to(from);
        let running = self.running_at(from)?;
        match wanted {
            Wanted::Worlds => self.take_all(machines, from, &running, most),
            Wanted::Ends => self.take_enough(machines, from, &running, shortcuts, most),
        }
    }

    /// Takes steps of the streams that run, first the quiet ones that can be taken before all others: if one of these
    /// leads to a later place, the others wait. A cycle of such steps has one that leads back, so no stream waits
    /// forever.
    fn take_enough<const S: usize>(
        &mut self,
        machines: &mut KeptMachines<'i, S>,
        from: u32,
        running: &[Step],
        shortcuts: Shortcuts<'_>,
        most: u32,
    ) -> Result<(), Stop>
        requires expanding { IsExpanding self.old from most }
        requires machines { AreKeptAt self.old machines.old from }
        requires running { HasRunning (world_of self.old from) running.now }
        requires once { AreAllDifferent running.now }
        requires new { HaveNoEdges self.old from running.now }
        requires settled { AreSettled self.old.image shortcuts.settled.now }
        requires tables { shortcuts.by_sets ≡ true → AreTablesOf self.old.image self.old.live shortcuts.tables.now }
        requires unforwarded { shortcuts.by_sets ≡ true → IsUnforwarded (world_of self.old from).memory }
        ensures grown { IsGrown self.old self.new }
        ensures expanding { IsExpanding self.new from most }
        ensures full { result ≡ Err Stop.Full → IsFullAt self.new from most }
        ensures machines { OnOk result (AreKeptAt self.new machines.new from) }
        ensures quiet { OnOk result (IsFollowedQuietly shortcuts.entry.observation.places.now shortcuts.entry.observation.words.now self.new from) }
    {
        let mut others = Vec::new(self.alloc);
        for step in running {
            let link = Link { from, step: *step };
            let is_later = self.take_free(machines, link, &mut others, shortcuts, most)?;
            if is_later {
                return Ok(());
            }
        }
        if shortcuts.by_sets {
            return self.take_set_or_all(machines, from, running, &others, shortcuts, most);
        }
        self.take_all(machines, from, &others, most)
    }

    /// Takes one step if it is quiet and can be taken before all others, and says whether it is so and leads to a later
    /// place; else adds it to the others.
    fn take_free<const S: usize>(
        &mut self,
        machines: &mut KeptMachines<'i, S>,
        link: Link,
        others: &mut Vec<Step>,
        shortcuts: Shortcuts<'_>,
        most: u32,
    ) -> Result<bool, Stop>
        requires expanding { IsExpanding self.old link.from most }
        requires machines { AreKeptAt self.old machines.old link.from }
        requires new { HasNoEdge self.old link.from link.step }
        requires settled { AreSettled self.old.image shortcuts.settled.now }
        ensures grown { IsGrown self.old self.new }
        ensures edges { (t : Step) → ¬ (t ≡ link.step) → HasNoEdge self.old link.from t → HasNoEdge self.new link.from t }
        ensures expanding { IsExpanding self.new link.from most }
        ensures full { result ≡ Err Stop.Full → IsFullAt self.new link.from most }
        ensures machines { OnOk result (AreKeptAt self.new machines.new link.from) }
        ensures alone { IfOk result (λ b. b ≡ true → IsTakenQuietly shortcuts.entry.observation.places.now shortcuts.entry.observation.words.now self.new link.from) }
        ensures left { IfOk result (λ b. b ≡ false
            → IsTaken self.new link.from link.step ⊎ Contains others.new.items link.step) }
        ensures others { (t : Step) → Contains others.old.items t → Contains others.new.items t }
        ensures waits { IfOk result (λ b. (others.new.items ≡ others.old.items)
            ⊎ ((others.new.items ≡ others.old.items ++ link.step ∷ []) × (self.new ≡ self.old))) }
    {
        let step = link.step;
        self.make_here(machines, link.from)?;
        let here = machines.here().unwrap();
        if !is_free_step(here, step, shortcuts.settled)
            || !is_quiet_step(here, step, shortcuts.observation.places)
        {
            others.push(step)?;
            return Ok(false);
        }
        let to = self.take(machines, link, true, most)?;
        Ok(to > link.from)
    }

    /// Takes each of these steps; the last one may take the machine of the place itself.
    pub(crate) fn take_all<const S: usize>(
        &mut self,
        machines: &mut KeptMachines<'i, S>,
        from: u32,
        steps: &[Step],
        most: u32,
    ) -> Result<(), Stop>
        requires expanding { IsExpanding self.old from most }
        requires machines { AreKeptAt self.old machines.old from }
        requires once { AreAllDifferent steps.now }
        requires new { HaveNoEdges self.old from steps.now }
        ensures grown { IsGrown self.old self.new }
        ensures expanding { IsExpanding self.new from most }
        ensures full { result ≡ Err Stop.Full → IsFullAt self.new from most }
        ensures machines { OnOk result (AreKeptAt self.new machines.new from) }
        ensures taken { OnOk result ((t : Step) → Contains steps.now t → IsTaken self.new from t) }
    {
        self.take_each(machines, from, steps, &[], true, most)?;
        Ok(())
    }

    /// Takes each of these steps, and says whether one that is unseen leads to a later place. The last one may take the machine
    /// of the place itself, where it is let go.
    pub(crate) fn take_each<const S: usize>(
        &mut self,
        machines: &mut KeptMachines<'i, S>,
        from: u32,
        steps: &[Step],
        unseen: &[Step],
        is_let_go: bool,
        most: u32,
    ) -> Result<bool, Stop>
        requires expanding { IsExpanding self.old from most }
        requires machines { AreKeptAt self.old machines.old from }
        requires once { AreAllDifferent steps.now }
        requires new { HaveNoEdges self.old from steps.now }
        ensures grown { IsGrown self.old self.new }
        ensures expanding { IsExpanding self.new from most }
        ensures full { result ≡ Err Stop.Full → IsFullAt self.new from most }
        ensures machines { OnOk result (AreKeptAt self.new machines.new from) }
        ensures taken { OnOk result ((t : Step) → Contains steps.now t → IsTaken self.new from t) }
        ensures edges { OnOk result ((t : Step) → ¬ (Contains steps.now t) → HasNoEdge self.old from t
            → HasNoEdge self.new from t) }
        ensures later { IfOk result (λ b. b ≡ true → IsSomeTakenLater self.new from unseen.now) }
    {
        let mut is_later = false;
        for place in 0..steps.len() {
            let link = Link {
                from,
                step: steps[place],
            };
            let is_last = is_let_go && place + 1 == steps.len();
            let to = self.take(machines, link, is_last, most)?;
            is_later = is_later || to > from && is_in(unseen, link.step);
        }
        Ok(is_later)
    }

    /// Takes one step, and says to which place it leads. Where the machine is let go it is still there unless that is a
    /// later place.
    fn take<const S: usize>(
        &mut self,
        machines: &mut KeptMachines<'i, S>,
        link: Link,
        is_let_go: bool,
        most: u32,
    ) -> Result<u32, Stop>
        requires expanding { IsExpanding self.old link.from most }
        requires machines { AreKeptAt self.old machines.old link.from }
        requires new { HasNoEdge self.old link.from link.step }
        ensures grown { IsGrown self.old self.new }
        ensures edges { (t : Step) → ¬ (t ≡ link.step) → HasNoEdge self.old link.from t → HasNoEdge self.new link.from t }
        ensures expanding { IsExpanding self.new link.from most }
        ensures full { result ≡ Err Stop.Full → IsFullAt self.new link.from most }
        ensures machines { OnOk result (AreKeptAt self.new machines.new link.from) }
        ensures taken { OnOk result (IsTaken self.new link.from link.step) }
        ensures to { IfOk result (λ to. IsTakenTo self.new link.from link.step to) }
    {
        let to = self.place(machines, link, is_let_go, most)?;
        if to == link.from {
            return Ok(to);
        }
        self.add_edge(Edge {
            from: link.from,
            step: link.step,
            to,
        })?;
        Ok(to)
    }
}
