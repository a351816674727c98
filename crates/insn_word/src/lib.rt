//! Instruction words: which 64-bit word spells which instruction (docs/FORMATS.md, "Instruction words").
#![tactic(auto)]

mod fields;
mod insn;
mod laws;
mod operations;
mod parts;
mod profiles;
mod short_insns;
mod words;

pub use insn::{APart, CPart, Insn, MPart};
pub use laws::spelling_is_one_to_one;
pub use operations::{Access, ArithmeticOp, Condition, ControlOp, MemoryOp, WideOp};
pub use profiles::Profile;
pub use short_insns::{ReferenceInsn, ReferenceOp, ReferencePart, ShortControl, ShortInsn};
pub use words::{decode, decode_as, decode_reference, decode_short, encode};
