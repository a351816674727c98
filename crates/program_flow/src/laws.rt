//! What holds of the registers that instructions read and write, and of the condition codes that they ask for.

ghost use Rattle.std.specs.Prelude.{◌≡◌, ℕ, Bool, false, IsTrue, List, Option, length};
ghost use Rattle.insn_word.specs.declared.profiles.Profile.{Profile};
ghost use Rattle.tag_memory.specs.declared.requests.Reply.{Reply};
ghost use Rattle.stream_core.specs.declared.steps.Status.TheVariants.{Running};
ghost use Rattle.insn_word.specs.declared.insn.Insn.{Insn};
ghost use Rattle.stream_core.specs.Registers.{register_at};
ghost use Rattle.stream_core.specs.Streams.{StreamValue, cannot_trap};
ghost use Rattle.program_flow.specs.Agreement.{RowSeesReads, registers_over};
ghost use Rattle.program_flow.specs.Operands.{registers_written};
ghost use Rattle.program_flow.specs.Flow.{IsOneOf};
ghost use Rattle.program_flow.specs.Agreeing.{StreamsAgree, TellsFlow, KeepsAgreement};

/// A step of a stream sees no register that its instruction does not read: with other values there it does the same, and
/// what it writes lands on these.
pub fn row_sees_reads()
    ensures { RowSeesReads }
{}

/// What an instruction writes is the same, whatever the registers held before.
pub fn writes_agree()
    ensures { (s : StreamValue) (value grant : ℕ) (rs qs : List ℕ) (sizes : length rs ≡ length qs) (i : Insn)
        → register_at rs 0 ≡ register_at qs 0 → (r : ℕ) → IsOneOf (registers_written i) r
        → register_at (registers_over s i value grant rs) r ≡ register_at (registers_over s i value grant qs) r }
{}

/// Two running streams that agree in what matters do the same in a step, and agree in what matters then. What is live has
/// to be all that may be read from each place on, and what is asked for each condition code that may be asked for; where a
/// trap of the stream has a handler, `handled` has to say so.
pub fn agreement_is_kept()
    ensures { (profile : Profile) (program : List ℕ) (handled : Bool) (named : ℕ → Bool) (live asked : ℕ → ℕ → Bool)
        → TellsFlow profile program (IsTrue handled) (λ r. IsTrue (named r)) (λ k r. IsTrue (live k r)) (λ k c. IsTrue (asked k c))
        → (limit : ℕ) (s t : StreamValue) (grant : ℕ) (reply : Option Reply)
        → s.status ≡ Running → (cannot_trap s ≡ false → IsTrue handled)
        → StreamsAgree (λ r. IsTrue (named r)) (λ k r. IsTrue (live k r)) (λ k c. IsTrue (asked k c)) s t
        → KeepsAgreement profile program (IsTrue handled) (λ r. IsTrue (named r)) (λ k r. IsTrue (live k r))
        (λ k c. IsTrue (asked k c)) limit s t grant reply }
{}
