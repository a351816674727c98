//! The word that spells an instruction.

ghost use Rattle.std.specs.Prelude.{◌≡◌};
ghost use Rattle.insn_word.specs.Fields.{number_of_fields};
ghost use Rattle.insn_word.specs.Words.{fields, IsValidIn};
ghost use Rattle.insn_word.specs.declared.profiles.Profile.{Profile};

use insn_word::{Insn, encode, spelling_is_one_to_one};

/// The word that the instruction's fields make, which spells it.
pub(crate) fn spelling_of(insn: &Insn) -> u64
    requires { (p : Profile) × IsValidIn p insn.now }
    ensures { result ≡ number_of_fields (fields insn.now) }
{
    spelling_is_one_to_one();
    encode(insn)
}
