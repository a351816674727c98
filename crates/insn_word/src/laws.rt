//! The laws of spelling: the contract of a function that does nothing.

ghost use Rattle.insn_word.specs.Laws.{OneInstruction, OneWord, IsValidByFields, ProfileTwoHasProfileOne};
ghost use Rattle.insn_word.specs.Reading.{InstructionIsSpelt};

/// The laws that tie words and instructions to each other, one to one.
pub fn spelling_is_one_to_one()
    ensures one_instruction { OneInstruction }
    ensures one_word { OneWord }
    ensures valid { IsValidByFields }
    ensures computed { InstructionIsSpelt }
    ensures wider { ProfileTwoHasProfileOne }
{}
