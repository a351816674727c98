//! What holds of worlds in which registers and condition codes that do not matter hold 0.

ghost use Rattle.std.specs.Prelude.{◌≡◌, ◌↔◌, ℕ, true, false, IsTrue, length};
ghost use Rattle.stream_core.specs.Registers.{register_at};
ghost use Rattle.stream_core.specs.Streams.{StreamValue};
ghost use Rattle.processor.specs.Processors.{is_idle};
ghost use Rattle.processor.specs.World.{World};
ghost use Rattle.program_flow.specs.Codes.{SameCodes};
ghost use Rattle.program_flow.specs.Tables.{is_named_by, is_asked_at};
ghost use Rattle.same_futures.specs.Agreeing.{stream_in};
ghost use Rattle.dead_registers.specs.Clearing.{LiveValue, matters, kept_registers, kept_codes, cleared_stream};
ghost use Rattle.dead_registers.specs.Clearing.{cleared, AgreeBy};

/// Clearing keeps each register of a stream that matters, and leaves 0 in each other one of a stream that is not idle; it
/// keeps each condition code that may be asked for from the stream's place on. An idle stream it leaves as it is. There are as many registers as before. In a world that is done to each stream, and done
/// twice it is the same as once.
pub fn registers_are_cleared()
    ensures sizes { (l : LiveValue) (s : StreamValue) → length (kept_registers l s) ≡ length s.registers }
    ensures kept { (l : LiveValue) (s : StreamValue) (r : ℕ) → matters l s r ≡ true
        → register_at (kept_registers l s) r ≡ register_at s.registers r }
    ensures zero { (l : LiveValue) (s : StreamValue) (r : ℕ) → is_idle s ≡ false → matters l s r ≡ false
        → register_at (kept_registers l s) r ≡ 0 }
    ensures codes { (l : LiveValue) (s : StreamValue)
        → SameCodes (λ c. IsTrue (is_asked_at l.codes s.ssw.pc c)) s.ssw.codes (kept_codes l s) }
    ensures idle { (l : LiveValue) (s : StreamValue) → is_idle s ≡ true → cleared_stream l s ≡ s }
    ensures each { (l : LiveValue) (w : World) (p k : ℕ)
        → stream_in (cleared l w) p k ≡ cleared_stream l (stream_in w p k) }
    ensures twice { (l : LiveValue) (w : World) → cleared l (cleared l w) ≡ cleared l w }
{}

/// Each world agrees with its cleared one: the memory, the counts, the places and all registers and codes that matter are
/// the same, registers that are named in each stream. Two worlds agree exactly where they are one when they are cleared.
pub fn cleared_worlds_agree()
    ensures agrees { (l : LiveValue) (w : World) → AgreeBy l w (cleared l w) }
    ensures named { (l : LiveValue) (w : World) (p k r : ℕ) → IsTrue (is_named_by l.names r)
        → register_at (stream_in (cleared l w) p k).registers r ≡ register_at (stream_in w p k).registers r }
    ensures same { (l : LiveValue) (a b : World) → AgreeBy l a b ↔ (cleared l a ≡ cleared l b) }
{}
