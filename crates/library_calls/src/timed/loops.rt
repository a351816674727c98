//! The loops that are timed, and their images.
use image_file::Image;
use std::alloc::Global;
use tag_memory::{Tags, Word};

/// The processors of a loop, which all run it.
pub(crate) const PROCESSORS: usize = 16;

/// The steps of a round, of all processors together.
pub(crate) const STEPS: usize = 1_000_000;

/// ADD r1, r1, 1
const ADD: u64 = 0x0000_000A_1084_0000;

/// ADD r1, r1, 1 / SUB.T r0, r1, 11 | SKIP ALWAYS, 0, -2
pub(crate) const ARITHMETIC: [u64; 2] = [ADD, 0x0000_0016_00AC_80FE];

/// FADD.N r1, r0, 0 | SKIP ALWAYS, 0, -1
pub(crate) const FETCH_ADD: [u64; 1] = [0x0684_0000_0000_80FF];

/// Two ADD, and FADD.N r1, r0, 0 | SKIP ALWAYS, 0, -3
pub(crate) const EACH_THIRD: [u64; 3] = [ADD, ADD, 0x0684_0000_0000_80FD];

/// 49 ADD, and FADD.N r1, r0, 0 | SKIP ALWAYS, 0, -50
pub(crate) const EACH_FIFTIETH: [u64; 50] = [
    ADD,
    ADD,
    ADD,
    ADD,
    ADD,
    ADD,
    ADD,
    ADD,
    ADD,
    ADD,
    ADD,
    ADD,
    ADD,
    ADD,
    ADD,
    ADD,
    ADD,
    ADD,
    ADD,
    ADD,
    ADD,
    ADD,
    ADD,
    ADD,
    ADD,
    ADD,
    ADD,
    ADD,
    ADD,
    ADD,
    ADD,
    ADD,
    ADD,
    ADD,
    ADD,
    ADD,
    ADD,
    ADD,
    ADD,
    ADD,
    ADD,
    ADD,
    ADD,
    ADD,
    ADD,
    ADD,
    ADD,
    ADD,
    ADD,
    0x0684_0000_0000_80CE,
];

/// LIT r2, 1 / RESERVE r3, r2 / TLIT t1, 4 / CREATE t1, r2, and from word 4 on the loop of [`EACH_THIRD`], in two streams
pub(crate) const TWO_STREAMS: [u64; 7] = [
    0x8020_0000_0000_0001,
    0x0000_0000_0002_00C4,
    0x8410_0000_0000_0004,
    0x0000_0000_0002_4880,
    ADD,
    ADD,
    0x0684_0000_0000_80FD,
];

/// The loop of this name.
pub(crate) fn loop_of(name: &str) -> &'static [u64] {
    match name {
        "arithmetic" => &ARITHMETIC,
        "fetch_add" => &FETCH_ADD,
        "each_third_asks" => &EACH_THIRD,
        _ => &EACH_FIFTIETH,
    }
}

/// So many processors of so many streams, which all begin at word 0 of a program, over so many full words.
pub(crate) fn image_of(
    alloc: Global,
    processors: usize,
    slim: u16,
    program: &[u64],
    words: usize,
) -> Option<Image> {
    let Ok(mut program) = program.to_vec(alloc) else {
        return None;
    };
    let Ok(mut entries) = vec![in alloc; 0; processors] else {
        return None;
    };
    let Ok(mut cells) = vec![in alloc; Word::new(0, Tags::FULL); words] else {
        return None;
    };
    match Image::from_parts(&mut entries, slim, 0, u32::MAX, &mut program, &mut cells) {
        Ok(image) => Some(image),
        Err(_) => None,
    }
}

/// Sixteen processors that run a loop over one word.
pub(crate) fn sixteen_with(alloc: Global, program: &[u64]) -> Option<Image> {
    image_of(alloc, PROCESSORS, 1, program, 1)
}

/// Two that do.
pub(crate) fn two_with(alloc: Global, program: &[u64]) -> Option<Image> {
    image_of(alloc, 2, 1, program, 1)
}
