//! A clone begins as what it was made of, stays as it is while that goes on, and then goes on alike.
use crate::sources::{WAITING, image_of};
use image_file::Image;
use machine::Machine;
use std::alloc::Global;
use stream_core::{Outcome, Stream, TrapKind};
use tag_memory::{Acc, MAX_WORDS, MemOp, Memory, Pointer, Reply, Request, RequestMask, Word};

/// A machine whose next step is its third: the trap of a load that was tried twice again.
fn waiting_machine(alloc: Global, image: &Image) -> Option<Machine<8>> {
    let mut machine = Machine::load(alloc, image).ok()?;
    machine.step(0, 0);
    machine.step(0, 0);
    Some(machine)
}

fn clone_of_machine<'i>(machine: &Machine<'i, 8>) -> Option<Machine<'i, 8>> {
    machine.try_clone().ok()
}

/// Whether the next step traps.
fn traps(machine: &mut Machine<8>) -> bool {
    machine.step(0, 0) == Outcome::Trapped(TrapKind::Blocked)
}

/// The stream that waits.
fn stream(machine: &Machine<8>) -> Option<Stream> {
    machine.stream(0, 0).copied()
}

fn have_same_parts(one: &Machine<8>, other: &Machine<8>) -> bool {
    one.counts(0) == other.counts(0) && one.word(8) == other.word(8)
}

fn are_machines_same(one: &Machine<8>, other: &Machine<8>) -> bool {
    stream(one) == stream(other) && have_same_parts(one, other)
}

fn do_machines_go(machine: &mut Machine<8>, clone: &mut Machine<8>) -> bool {
    are_machines_same(machine, clone)
        && traps(machine)
        && !are_machines_same(machine, clone)
        && traps(clone)
        && are_machines_same(machine, clone)
}

fn does_a_machine_go(alloc: Global, image: &Image) -> Option<bool> {
    let mut machine = waiting_machine(alloc, image)?;
    let mut clone = clone_of_machine(&machine)?;
    Some(do_machines_go(&mut machine, &mut clone))
}

#[test]
fn of_a_machine(rt: HostRuntime) {
    let image = image_of(rt.alloc(), WAITING);
    let goes = match &image {
        Some(image) => does_a_machine_go(rt.alloc(), image),
        None => None,
    };
    assert!(rt; goes == Some(true));
}

/// A word that forwards to the next one, which holds 40.
fn memory_of_two(alloc: Global) -> Option<Memory> {
    let words = [Word::from_number(8, 3)?, Word::from_number(40, 1)?];
    if words.len() > MAX_WORDS {
        return None;
    }
    Memory::new(alloc, &words).ok()
}

fn clone_of_memory(memory: &Memory) -> Option<Memory> {
    memory.try_clone().ok()
}

/// What is replied where 2 is added.
fn add(memory: &mut Memory) -> Reply {
    memory.serve(&Request {
        op: MemOp::Fadd,
        pointer: Pointer::new(0),
        acc: Acc::Sync,
        value: 2,
        masked: RequestMask {
            trap0: false,
            trap1: false,
        },
    })
}

fn are_memories_same(one: &Memory, other: &Memory) -> bool {
    one.len() == other.len() && one.word(0) == other.word(0) && one.word(8) == other.word(8)
}

fn do_memories_go(memory: &mut Memory, clone: &mut Memory) -> bool {
    are_memories_same(memory, clone)
        && add(memory) == Reply::Done(40)
        && !are_memories_same(memory, clone)
        && add(clone) == Reply::Done(40)
        && are_memories_same(memory, clone)
        && add(clone) == Reply::Done(42)
}

fn does_a_memory_go(alloc: Global) -> Option<bool> {
    let mut memory = memory_of_two(alloc)?;
    let mut clone = clone_of_memory(&memory)?;
    Some(do_memories_go(&mut memory, &mut clone))
}

#[test]
fn of_a_memory(rt: HostRuntime) {
    assert!(rt; does_a_memory_go(rt.alloc()) == Some(true));
}
