//! The program that the calls are about.
use asm_text::assemble;
use image_file::Image;
use processor::{Entry, Step};
use std::alloc::Global;
use tag_memory::{Acc, MemOp, Pointer, Reply, Request, RequestMask};

/// Processor 0 adds 3 to word 0, processor 1 stores 7 in word 1.
pub(crate) const SOURCE: &str =
    ".slim 2\n.entry 0\n.entry 3\nLIT r1, 3\nFADD.N r1, r0, 0\nQUIT\nLIT r2, 7\nSTORE.N r2, r0, 1\n\
     QUIT\n.data 5\n.data 6\n";

/// Its steps, one processor after the other.
pub(crate) const SCHEDULE: &str = "0 0 3\n1 0 3\n";

/// The same, step by step.
pub(crate) const STEPS: [Step; 6] = [
    Step { p: 0, s: 0 },
    Step { p: 0, s: 0 },
    Step { p: 0, s: 0 },
    Step { p: 1, s: 0 },
    Step { p: 1, s: 0 },
    Step { p: 1, s: 0 },
];

/// The first of them.
pub(crate) const FIRST: Step = Step { p: 0, s: 0 };

/// What it comes to.
pub(crate) const END: &str = "processor 0 scur 0 sres 0\nprocessor 1 scur 0 sres 0\n\
     cell 000000000000 0000000000000008 1\ncell 000000000008 0000000000000007 1\n";

/// The most steps that a processor takes where both run at once; it takes three.
pub(crate) const FUEL: usize = 9;

/// Its image.
pub fn image_of_program(alloc: Global) -> Option<Image> {
    match assemble(alloc, SOURCE.as_bytes()) {
        Ok(image) => Some(image),
        Err(_) => None,
    }
}

/// Its steps, in a list of their own.
pub(crate) fn steps(alloc: Global) -> Option<Vec<Step>> {
    match Vec::from_slice(alloc, &STEPS) {
        Ok(steps) => Some(steps),
        Err(_) => None,
    }
}

/// Its first request of the memory.
pub(crate) fn first_entry() -> Entry {
    let masked = RequestMask {
        trap0: false,
        trap1: false,
    };
    Entry {
        p: 0,
        s: 0,
        request: Request {
            op: MemOp::Fadd,
            pointer: Pointer::new(0),
            acc: Acc::Normal,
            value: 3,
            masked,
        },
        reply: Reply::Done(5),
    }
}
