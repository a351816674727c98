//! Which word spells which instruction, in both directions.

ghost use Rattle.std.specs.Prelude.{◌≡◌, ◌<◌, ◌≤◌, ◌^◌, ◌↔◌, ℕ, IsTrue, IfSome, IsNone};
ghost use Rattle.insn_word.specs.Fields.{number_of_fields, AreInRange};
ghost use Rattle.insn_word.specs.Words.{fields, AreApart, WriteApart, Spells, SpellsIn, IsValid, IsValidIn};
ghost use Rattle.insn_word.specs.Reading.{instruction, instruction_in};
ghost use Rattle.insn_word.specs.ShortInsns.{short_instruction, reference_instruction};
ghost use Rattle.insn_word.specs.Parts.{Holds};
ghost use Rattle.insn_word.specs.declared.insn.Insn.{Insn};
ghost use Rattle.insn_word.specs.declared.profiles.Profile.{Profile};
ghost use Rattle.insn_word.specs.declared.profiles.Profile.TheVariants.{Two};

use crate::fields::{field, small_field, with_field};
use crate::insn::{APart, CPart, Insn, MPart};
use crate::operations::WideOp;
use crate::parts::REGISTER_WIDTH;
use crate::profiles::Profile;
use crate::short_insns::{ReferenceInsn, ReferencePart, ShortControl, ShortInsn};

/// Bit 63: whether the word is wide.
const WIDE_PLACE: u32 = 63;
/// Bits 60 to 62: the lookahead.
const LOOKAHEAD_PLACE: u32 = 60;

const LOOKAHEAD_WIDTH: u32 = 3;
/// Bits 57 to 59 of a wide word: the operation.
const OPERATION_PLACE: u32 = 57;

const OPERATION_WIDTH: u32 = 3;
/// Bits 52 to 56 of a wide word: the register.
const REGISTER_PLACE: u32 = 52;
/// Bits 32 to 51 of a wide word: zero.
const UNUSED_PLACE: u32 = 32;

const UNUSED_WIDTH: u32 = 20;
/// Bits 0 to 31 of a wide word: the immediate.
const IMMEDIATE_WIDTH: u32 = 32;
/// Bits 39 to 59 of a normal word: the memory part.
const MEMORY_PLACE: u32 = 39;

const MEMORY_WIDTH: u32 = 21;
/// Bits 18 to 38 of a normal word: the arithmetic part.
const ARITHMETIC_PLACE: u32 = 18;

const ARITHMETIC_WIDTH: u32 = 21;
/// Bits 0 to 17 of a normal word: the control part.
const CONTROL_WIDTH: u32 = 18;

impl Insn {
    /// Whether some word spells the instruction in Profile 1: each field is in its range, each unused field is
    /// zero, no two operations write the same register other than r0, and the profile has each of them.
    pub fn is_valid(&self) -> bool
        ensures { IsTrue result ↔ IsValid self.now }
    {
        self.is_valid_as(Profile::One)
    }

    /// The same in any profile.
    pub fn is_valid_as(&self, profile: Profile) -> bool
        ensures { IsTrue result ↔ IsValidIn profile self.now }
    {
        match decode_as(profile, self.bits()) {
            Some(insn) => insn == *self,
            None => false,
        }
    }

    /// The word that the fields make, where each is in its range.
    fn bits(&self) -> u64
        ensures { AreInRange (fields self.now) → result ≡ number_of_fields (fields self.now) }
    {
        match self {
            Insn::Wide { look, op, reg, imm } => {
                let bits = with_field(1, LOOKAHEAD_WIDTH, u64::from(*look));
                let bits = with_field(bits, OPERATION_WIDTH, op.number());
                let bits = with_field(bits, REGISTER_WIDTH, u64::from(*reg));
                with_field(bits, REGISTER_PLACE, u64::from(*imm))
            }
            Insn::Normal { look, m, a, c } => {
                let bits = with_field(u64::from(*look), MEMORY_WIDTH, m.bits());
                let bits = with_field(bits, ARITHMETIC_WIDTH, a.bits());
                with_field(bits, CONTROL_WIDTH, c.bits())
            }
        }
    }
}

/// The word that spells the instruction ("Instruction words", docs/FORMATS.md). Profile 2 has all instructions.
pub fn encode(insn: &Insn) -> u64
    requires valid { IsValidIn Two insn.now }
    ensures spelt { SpellsIn Two result insn.now }
    // It does so in Profile 1 too, where that has the instruction.
    ensures first { IsValid insn.now → Spells result insn.now }
    // No other word does.
    ensures only { (word : ℕ) → SpellsIn Two word insn.now → word ≡ result }
{
    insn.bits()
}

/// The instruction that the word spells in Profile 1 ("Instruction words", docs/FORMATS.md); None where it spells none.
pub fn decode(word: u64) -> Option<Insn>
    ensures some { (i : Insn) → (result ≡ Some i) ↔ Spells word i }
    ensures is { result ≡ instruction word }
    ensures spelt { IfSome result (Spells word) }
    ensures valid { IfSome result IsValid }
    ensures none { IsNone result ↔ ((i : Insn) → Spells word i → ⊥) }
{
    decode_as(Profile::One, word)
}

/// The instruction that the word spells in this profile ("Profile 2", docs/FORMATS.md); None where it spells none.
pub fn decode_as(profile: Profile, word: u64) -> Option<Insn>
    ensures some { (i : Insn) → (result ≡ Some i) ↔ SpellsIn profile word i }
    ensures is { result ≡ instruction_in profile word }
    ensures spelt { IfSome result (SpellsIn profile word) }
    ensures valid { IfSome result (IsValidIn profile) }
    ensures none { IsNone result ↔ ((i : Insn) → SpellsIn profile word i → ⊥) }
{
    read_parts(profile, word)
}

fn read_parts(profile: Profile, word: u64) -> Option<Insn>
    ensures { (i : Insn) → (result ≡ Some i) ↔ Holds profile word i }
{
    if word < 1 << WIDE_PLACE {
        decode_normal(profile, word)
    } else {
        decode_wide(word)
    }
}

/// The instruction that the word spells, where it has no memory operation and no control operation but SKIP; None for
/// all other words. It says what `decode_as` says in each profile, in fewer steps.
#[inline(always)]
pub fn decode_short(word: u64) -> Option<ShortInsn>
    ensures { (p : Profile) → IfSome result (λ s. instruction_in p word ≡ Some (short_instruction s)) }
{
    if word >= 1 << WIDE_PLACE || field(word, MEMORY_PLACE, MEMORY_WIDTH) != 0 {
        return None;
    }
    let a = APart::read(field(word, ARITHMETIC_PLACE, ARITHMETIC_WIDTH))?;
    let c = ShortControl::from_bits(field(word, 0, CONTROL_WIDTH))?;
    Some(ShortInsn {
        look: small_field(word, LOOKAHEAD_PLACE, LOOKAHEAD_WIDTH),
        a,
        c,
    })
}

/// The instruction that the word spells, where it asks the memory for an operation of Profile 1, and has no arithmetic
/// operation and no control operation but SKIP; None for all other words. It says what `decode_as` says in each
/// profile, in fewer steps.
#[inline(always)]
pub fn decode_reference(word: u64) -> Option<ReferenceInsn>
    ensures { (p : Profile) → IfSome result (λ r. instruction_in p word ≡ Some (reference_instruction r)) }
{
    if word >= 1 << WIDE_PLACE || field(word, ARITHMETIC_PLACE, ARITHMETIC_WIDTH) != 0 {
        return None;
    }
    let m = ReferencePart::from_bits(field(word, MEMORY_PLACE, MEMORY_WIDTH))?;
    let c = ShortControl::from_bits(field(word, 0, CONTROL_WIDTH))?;
    Some(ReferenceInsn {
        look: small_field(word, LOOKAHEAD_PLACE, LOOKAHEAD_WIDTH),
        m,
        c,
    })
}

fn decode_wide(word: u64) -> Option<Insn>
    requires { 2 ^ 63 ≤ word }
    ensures { (p : Profile) (i : Insn) → (result ≡ Some i) ↔ Holds p word i }
{
    let op = WideOp::from_number(field(word, OPERATION_PLACE, OPERATION_WIDTH))?;
    let reg = small_field(word, REGISTER_PLACE, REGISTER_WIDTH);
    let register_count = match op {
        WideOp::Literal | WideOp::LiteralHigh => 32,
        WideOp::TargetLiteral => 8,
    };
    if field(word, UNUSED_PLACE, UNUSED_WIDTH) != 0 || reg >= register_count {
        return None;
    }
    Some(Insn::Wide {
        look: small_field(word, LOOKAHEAD_PLACE, LOOKAHEAD_WIDTH),
        op,
        reg,
        imm: field(word, 0, IMMEDIATE_WIDTH) as u32,
    })
}

fn decode_normal(profile: Profile, word: u64) -> Option<Insn>
    requires { word < 2 ^ 63 }
    ensures { (i : Insn) → (result ≡ Some i) ↔ Holds profile word i }
{
    let m = MPart::from_bits(field(word, MEMORY_PLACE, MEMORY_WIDTH))?;
    let a = APart::from_bits(field(word, ARITHMETIC_PLACE, ARITHMETIC_WIDTH))?;
    let c = CPart::from_bits(field(word, 0, CONTROL_WIDTH))?;
    if profile.has(m.op) && write_apart(&m, &a, &c) {
        Some(Insn::Normal {
            look: small_field(word, LOOKAHEAD_PLACE, LOOKAHEAD_WIDTH),
            m,
            a,
            c,
        })
    } else {
        None
    }
}

/// Whether no two parts write the same register other than r0.
fn write_apart(m: &MPart, a: &APart, c: &CPart) -> bool
    ensures { IsTrue result ↔ WriteApart m.now a.now c.now }
{
    are_apart(m.destination(), a.destination())
        && are_apart(m.destination(), c.destination())
        && are_apart(a.destination(), c.destination())
}

fn are_apart(x: u8, y: u8) -> bool
    ensures { IsTrue result ↔ AreApart x y }
{
    x != y || x == 0
}
