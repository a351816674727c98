//! Whether the worlds of two machines are the same.

ghost use Rattle.std.specs.Prelude.{◌≡◌, ◌↔◌, ◌<◌, length, IsTrue};
ghost use Rattle.processor.specs.World.{counts_of};
ghost use Rattle.whole_runs.specs.Differences.{AreOfOneImage};
ghost use Rattle.whole_runs.specs.SameWorlds.{processor_in};

use machine::Machine;
use step_views::{is_same_status, is_same_status_word};
use stream_core::Stream;
use tag_memory::Word;

/// Whether the worlds of two machines over one image are the same.
pub(crate) fn is_same_world<const S: usize>(one: &Machine<'_, S>, other: &Machine<'_, S>) -> bool
    requires { AreOfOneImage one.now other.now }
    ensures { IsTrue result ↔ (one.now.world ≡ other.now.world) }
{
    are_same_processors(one, other) && are_same_words(one, other)
}

/// Whether the processors of both are the same.
fn are_same_processors<const S: usize>(one: &Machine<'_, S>, other: &Machine<'_, S>) -> bool
    requires { AreOfOneImage one.now other.now }
    ensures { IsTrue result ↔ (one.now.world.processors ≡ other.now.world.processors) }
{
    // their images' clauses say how many processors and streams there are
    let _sizes = (one.image().slim(), other.image().slim());
    for p in 0..one.image().processors() {
        if !is_same_processor(one, other, p as u8) {
            return false;
        }
    }
    true
}

/// Whether the processor of this number is the same in both.
fn is_same_processor<const S: usize>(one: &Machine<'_, S>, other: &Machine<'_, S>, p: u8) -> bool
    requires image { AreOfOneImage one.now other.now }
    requires there { p < length one.now.image.entries }
    ensures { IsTrue result ↔ (processor_in one.now.world p ≡ processor_in other.now.world p) }
{
    // their images' clauses say how many processors and streams there are
    let _sizes = (one.image().slim(), other.image().slim());
    if !are_same_counts(one, other, p) {
        return false;
    }
    are_same_streams(one, other, p)
}

/// Whether as many streams of a processor are current in both, and as many are reserved.
fn are_same_counts<const S: usize>(one: &Machine<'_, S>, other: &Machine<'_, S>, p: u8) -> bool
    ensures { IsTrue result ↔ (counts_of one.now.world p ≡ counts_of other.now.world p) }
{
    match (one.counts(p), other.counts(p)) {
        (Some(counts), Some(twins)) => counts.0 == twins.0 && counts.1 == twins.1,
        (None, None) => true,
        _ => false,
    }
}

/// Whether the streams of a processor are the same in both.
fn are_same_streams<const S: usize>(one: &Machine<'_, S>, other: &Machine<'_, S>, p: u8) -> bool
    requires image { AreOfOneImage one.now other.now }
    requires there { p < length one.now.image.entries }
    ensures { IsTrue result
        ↔ ((processor_in one.now.world p).streams ≡ (processor_in other.now.world p).streams) }
{
    // their images' clauses say how many processors and streams there are
    let _sizes = (one.image().slim(), other.image().slim());
    for s in 0..one.image().slim() {
        let a = one.stream(p, s as u8).unwrap();
        let b = other.stream(p, s as u8).unwrap();
        if !is_same_stream(a, b) {
            return false;
        }
    }
    true
}

/// Whether two streams hold the same.
fn is_same_stream(a: &Stream, b: &Stream) -> bool
    ensures { IsTrue result ↔ (a.now ≡ b.now) }
{
    is_same_status_word(&a.ssw(), &b.ssw())
        && a.xr() == b.xr()
        && a.retries() == b.retries()
        && is_same_status(&a.status(), &b.status())
        && are_same_registers(a, b)
        && are_same_targets(a, b)
}

/// Whether the general registers of two streams hold the same.
fn are_same_registers(a: &Stream, b: &Stream) -> bool
    ensures { IsTrue result ↔ (a.now.registers ≡ b.now.registers) }
{
    // their clauses say that there are 32
    let _ends = (a.reg(31), a.reg(32), b.reg(31), b.reg(32));
    for number in 0..32u8 {
        let value = a.reg(number).unwrap();
        let twin = b.reg(number).unwrap();
        if value != twin {
            return false;
        }
    }
    true
}

/// Whether the target registers of two streams hold the same.
fn are_same_targets(a: &Stream, b: &Stream) -> bool
    ensures { IsTrue result ↔ (a.now.targets ≡ b.now.targets) }
{
    // their clauses say that there are 8
    let _ends = (a.target(7), a.target(8), b.target(7), b.target(8));
    for number in 0..8u8 {
        let word = a.target(number).unwrap();
        let twin = b.target(number).unwrap();
        if !is_same_status_word(&word, &twin) {
            return false;
        }
    }
    true
}

/// Whether the words of both memories are the same.
fn are_same_words<const S: usize>(one: &Machine<'_, S>, other: &Machine<'_, S>) -> bool
    requires { AreOfOneImage one.now other.now }
    ensures { IsTrue result ↔ (one.now.world.memory ≡ other.now.world.memory) }
{
    for index in 0..one.image().cells().len() {
        let word = one.word(index as u64 * 8).unwrap();
        let twin = other.word(index as u64 * 8).unwrap();
        if !is_same_cell(word, twin) {
            return false;
        }
    }
    true
}

/// Whether two words have the same value and the same tags.
fn is_same_cell(a: Word, b: Word) -> bool
    ensures { IsTrue result ↔ (a ≡ b) }
{
    a.value() == b.value() && a.tag_number() == b.tag_number()
}
