//! Calls of runs, sessions and engines, with their names in the code. Each is made of one program, and its answer
//! compared.

use crate::calls::print_lines;
use crate::runs::{alternating, debugging, engines, kept, one_machine, sessions, threads, turns};
use image_file::Image;
use std::io;
use std::sync::Wait;
use std::thread::Threads;
use std::time::Clock;

/// Makes those that run processors at once, and what they need.
pub fn make_runs<R: AllocGlobal + Clock + Print + Threads + Wait + Sync>(
    rt: &R,
    image: &Image,
) -> io::Result<()> {
    let lines = [
        ("gather", threads::of_gather(rt, image)),
        ("threaded", threads::of_threaded(rt, image)),
        (
            "open_table, close_table",
            turns::of_open_table(rt.alloc(), image),
        ),
        ("run_two", turns::of_run_two(rt, image)),
        ("run_threads", turns::of_run_threads(rt, image)),
        ("run_by_lock", turns::of_run_through_lock(rt, image)),
        ("threaded, alternating", alternating::of_threaded(rt)),
        (
            "run_threads twice, gather of exchanged records",
            alternating::of_exchanged(rt),
        ),
        (
            "Session::begin of Woven::into_schedule",
            alternating::of_session(rt),
        ),
    ];
    print_lines(rt, &lines)
}

/// Makes those of the debugger.
pub fn make_sessions<R: AllocGlobal + Print>(rt: &R, image: &Image) -> io::Result<()> {
    let alloc = rt.alloc();
    let lines = [
        ("Session::begin", sessions::of_begin(alloc, image)),
        (
            "Session::command, answer_text",
            sessions::of_commands(alloc, image),
        ),
        ("Session::command, 9,005 steps", kept::of_commands(alloc)),
    ];
    print_lines(rt, &lines)
}

/// Makes those of the commands' engines, and the one that takes every way, along two programs.
pub fn make_engines<R: AllocGlobal + Print + Threads + Wait + Sync>(
    rt: &R,
    image: &Image,
) -> io::Result<()> {
    let alloc = rt.alloc();
    let lines = [
        ("words_engine", engines::of_words_engine(alloc)),
        ("asm_engine", engines::of_asm_engine(alloc, image)),
        ("list_engine", engines::of_list_engine(alloc, image)),
        ("run_engine", engines::of_run_engine(alloc, image)),
        ("threads_engine", engines::of_threads_engine(rt, image)),
        ("debug_engine", debugging::of_debug_engine(alloc, image)),
        ("one_machine", one_machine::of_program(alloc)),
        ("one_machine of Profile 2", one_machine::of_purge(alloc)),
    ];
    print_lines(rt, &lines)
}
