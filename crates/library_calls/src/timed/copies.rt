//! Copies of the largest memory, and of as many bytes in one list.
use std::alloc::Global;
use tag_memory::{MAX_WORDS, Memory, Tags, Word};

/// The largest memory.
fn largest_memory(alloc: Global) -> Option<Memory> {
    let Ok(words) = vec![in alloc; Word::new(7, Tags::FULL); MAX_WORDS] else {
        return None;
    };
    match Memory::new(alloc, &words) {
        Ok(memory) => Some(memory),
        Err(_) => None,
    }
}

/// Whether there is memory for one more copy, which is kept.
fn is_memory_kept(copies: &mut Vec<Memory>, memory: &Memory) -> bool {
    match memory.try_clone() {
        Ok(copy) => copies.push(copy).is_ok(),
        Err(_) => false,
    }
}

/// Keeps so many copies of the largest memory, and gives the number of its words.
pub(crate) fn copy_memories(alloc: Global, rounds: u32) -> Option<usize> {
    let Some(memory) = largest_memory(alloc) else {
        return None;
    };
    let mut copies = Vec::new(alloc);
    for _ in 0..rounds {
        if !is_memory_kept(&mut copies, &memory) {
            return None;
        }
    }
    Some(memory.len())
}

/// Whether there is memory for one more copy, which is kept.
fn are_numbers_kept(alloc: Global, copies: &mut Vec<Vec<u64>>, numbers: &[u64]) -> bool {
    match Vec::from_slice(alloc, numbers) {
        Ok(copy) => copies.push(copy).is_ok(),
        Err(_) => false,
    }
}

/// Keeps so many copies of numbers that take as many bytes, and gives how many numbers they are.
pub(crate) fn copy_numbers(alloc: Global, rounds: u32) -> Option<usize> {
    let Ok(numbers) = vec![in alloc; 7u64; MAX_WORDS + MAX_WORDS / 16] else {
        return None;
    };
    let mut copies = Vec::new(alloc);
    for _ in 0..rounds {
        if !are_numbers_kept(alloc, &mut copies, &numbers) {
            return None;
        }
    }
    Some(numbers.len())
}
