//! What holds of streams that stand at closed places.

ghost use Rattle.std.specs.Prelude.{◌≡◌, ℕ, true, Option};
ghost use Rattle.insn_word.specs.declared.insn.Insn.{Insn};
ghost use Rattle.tag_memory.specs.declared.requests.Reply.{Reply};
ghost use Rattle.image_file.specs.ImageValue.{ImageValue};
ghost use Rattle.stream_core.specs.Streams.{StreamValue};
ghost use Rattle.stream_core.specs.StreamRow.{fetch_of};
ghost use Rattle.stream_core.specs.declared.steps.Fetch.TheVariants as fetch;
ghost use Rattle.processor.specs.Records.{is_running};
ghost use Rattle.local_steps.specs.NeverAsking.{own_step, NeverAsks};
ghost use Rattle.touched_words.specs.TouchTables.{TouchValue};
ghost use Rattle.touched_words.specs.ClosedTables.{IsClosedAt, IsClosedTable};
ghost use Rattle.touched_words.specs.Standing.{IsStanding, IsHeldFrom};

/// A stream that stands at a closed place finds an instruction there that is so. After a step of its own, whatever the
/// memory replies, it no longer runs, or stands at a closed place again, from which it may ask for no more. It never asks
/// for a stream.
pub fn standing_streams_stay()
    ensures finds { (image : ImageValue) (v : TouchValue) (s : StreamValue)
        → IsClosedTable image.profile image.program v → IsStanding v s → is_running s ≡ true
        → (i : Insn) × ((fetch_of image.profile image.program s ≡ fetch.Instruction i) × IsClosedAt v s.ssw.pc i) }
    ensures stays { (image : ImageValue) (v : TouchValue) (k : ℕ) (s : StreamValue) (r : Option Reply)
        → IsClosedTable image.profile image.program v → IsHeldFrom v k s → IsHeldFrom v k (own_step image s r) }
    ensures never { (image : ImageValue) (v : TouchValue) (k : ℕ) (s : StreamValue)
        → IsClosedTable image.profile image.program v → IsHeldFrom v k s → NeverAsks image s }
{}
