//! Why a source text means no image.

ghost use Rattle.std.specs.Prelude.{◌≡◌, ◌≢◌};
ghost use Rattle.asm_line.specs.declared.fault.Fault.TheVariants as fault;
ghost use Rattle.asm_text.specs.Faults.{asm_no_memory};

use asm_line::Fault;
use std::alloc::AllocError;

/// The fault of a source text (docs/WRITING_PROGRAMS.md): the least kind on the least line that has one.
#[derive(Clone, Copy, Debug, PartialEq, Eq)]
pub struct AsmFault {
    /// The line, from 1; 0 for a fault of no line.
    pub line: usize,
    /// The kind.
    pub kind: Fault,
}

impl AsmFault {
    /// The text lacks an entry, a program word or a cell.
    pub(crate) const INCOMPLETE: AsmFault = AsmFault {
        line: 0,
        kind: Fault::Directive,
    };

    /// Memory ran out.
    const NO_MEMORY: AsmFault = AsmFault {
        line: 0,
        kind: Fault::NoMemory,
    };

    /// A fault on a line; a refusal of memory is of no line.
    pub(crate) fn on_line(line: usize, kind: Fault) -> AsmFault
        ensures told { kind ≢ fault.NoMemory → result ≡ record { line = line; kind = kind } }
        ensures no_memory { kind ≡ fault.NoMemory → result ≡ asm_no_memory }
        ensures kind { result.kind ≡ kind }
    {
        if kind == Fault::NoMemory {
            return AsmFault::NO_MEMORY;
        }
        AsmFault { line, kind }
    }
}

impl From<AllocError> for AsmFault {
    ghost from_gives = { λ _ fault. fault ≡ asm_no_memory };

    fn from(_error: AllocError) -> AsmFault {
        AsmFault::NO_MEMORY
    }
}
