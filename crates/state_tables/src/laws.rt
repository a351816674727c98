//! What rows and targets are good for.

ghost use Rattle.std.specs.Prelude.{◌≡◌, ◌+◌, ◌<◌, ℕ, List, Some, false, length, slice_get, slice_index_or};
ghost use Rattle.image_file.specs.ImageValue.{ImageValue};
ghost use Rattle.stream_core.specs.Streams.{idle};
ghost use Rattle.processor.specs.Processors.{is_idle};
ghost use Rattle.processor.specs.World.{World};
ghost use Rattle.processor.specs.declared.steps.Step.{Step};
ghost use Rattle.world_keys.specs.Tables.{place_in};
ghost use Rattle.world_keys.specs.StreamNumbers.{stream_numbers};
ghost use Rattle.world_keys.specs.MemoryNumbers.{memory_numbers};
ghost use Rattle.world_keys.specs.WorldKeys.{processor_in, processor_numbers};
ghost use Rattle.schedule_space.specs.Spaces.{SpaceValue, count, HasEarlierLinks, IsComplete, HasAllEdges};
ghost use Rattle.state_tables.specs.Rows.{IsRow};
ghost use Rattle.state_tables.specs.Targets.{AreTargets, IsLedTo};

/// The numbers of a row name what stands in its state: the first one in what its memory differs from the image's words, each
/// other one what a processor holds, and there each stream that is not idle what it holds. States of one image that have the
/// same row are the same. Where a space is complete and has all edges, the targets of a stream are where its steps lead.
pub fn rows_and_targets_give_the_space()
    ensures memory { (image : ImageValue) (table : List (List ℕ)) (w : World) (row : List ℕ) → IsRow image table w row
        → slice_get table (slice_index_or row 0 0) ≡ Some (memory_numbers image w.memory) }
    ensures processor { (image : ImageValue) (table : List (List ℕ)) (w : World) (row : List ℕ) (p : ℕ)
        → IsRow image table w row → p < length w.processors
        → slice_get table (slice_index_or row (p + 1) 0) ≡ Some (processor_numbers table (processor_in w p)) }
    ensures stream { (image : ImageValue) (table : List (List ℕ)) (w : World) (row : List ℕ) (p s : ℕ)
        → IsRow image table w row → p < length w.processors → s < length (processor_in w p).streams
        → is_idle (slice_index_or (processor_in w p).streams s idle) ≡ false
        → slice_get table (place_in table (stream_numbers (slice_index_or (processor_in w p).streams s idle)))
        ≡ Some (stream_numbers (slice_index_or (processor_in w p).streams s idle)) }
    ensures same { (image : ImageValue) (table : List (List ℕ)) (w x : World) (row : List ℕ) → IsRow image table w row
        → IsRow image table x row → w ≡ x }
    ensures leads { (v : SpaceValue) (t : Step) (targets : List ℕ) (k : ℕ) → HasEarlierLinks v → IsComplete v
        → HasAllEdges v → AreTargets (count v) v.edges t targets → k < count v
        → IsLedTo v k t (slice_index_or targets k 0) }
{}
