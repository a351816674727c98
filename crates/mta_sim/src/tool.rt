//! The tool, from its command line to its status.
ghost use Rattle.std.specs.Prelude.{◌≡◌, ◌≢◌, List, ℕ, Some, IfSome, IfErr, OnOk, MatchResult, map};
ghost use Rattle.std.specs.Io.KnownBytes.{Keeps};
ghost use Rattle.clap.specs.Words.{Text};
ghost use Rattle.mta_engines.specs.DebugOutput.{IsDebugOutput};
ghost use Rattle.mta_engines.specs.Faults.{IsFaultOf};
ghost use Rattle.mta_engines.specs.InputOutput.{HasInput, HasOutput};
ghost use Rattle.mta_engines.specs.ListOutput.{IsListOutput};
ghost use Rattle.mta_engines.specs.RunOutput.{IsRunOutput};
ghost use Rattle.mta_engines.specs.ThreadsOutput.{IsThreadsOutput};
ghost use Rattle.mta_engines.specs.WordsOutput.{IsWordsOutput, words_output};
ghost use Rattle.command_line.specs.CommandLine.{IsCommand, command_of_line, value_of_command};
ghost use Rattle.command_line.specs.CommandLine.{assemble_source, debug_image, list_image, run_image, run_threads};
ghost use Rattle.command_line.specs.CommandLine.{run_words};

use crate::files::{create_output, open_input};
use crate::status::ExitStatus;
use command_line::{ToolCommand, read_command_line};
use memory_lock::FreeGate;
use mta_engines::{
    ToolFault, asm_engine, debug_engine, list_engine, run_engine, threads_engine, words_engine,
};
use std::alloc::Global;
use std::convert::AsStr;
use std::io::{Read, Write};
use std::rt::Files;
use std::sync::Wait;
use std::thread::Threads;

/// Runs the command of a command line, whose first word is the program's name, on these files and standard streams
/// ("The command line", docs/FORMATS.md).
///
/// Standard error gets a fault's line, or where there is no command the text of the command line's parser; no clause
/// says anything of that text. `NoCommand` also comes where memory was refused while the command line was read, so no
/// clause says that a command is run. Which file a path stands for, and what it holds, is in none: of `list`, `run` and
/// `threads` they say that what was written is the listing of some image, the run of some image by some schedule, or
/// the history and the end of some schedule that does the same as a run of some image's processors at once; of `debug`,
/// that it is the answers over some image and schedule to the commands of standard input.
pub fn run_tool<X: Threads + Wait + Sync, S: AsStr, F: Files, R: Read, W: Write, E: Write>(
    rt: &X,
    alloc: Global,
    words: &[S],
    files: &F,
    input: &mut R,
    output: &mut W,
    errors: &mut E,
) -> ExitStatus
    ensures errors_as_before { result ≡ ExitStatus.Done → Keeps (E.contents errors.old) (E.contents errors.new) }
    ensures output_as_before { result ≡ ExitStatus.NoCommand
        → Keeps (W.contents output.old) (W.contents output.new) }
    ensures is_command { result ≢ ExitStatus.NoCommand → IsCommand (map S.text words.now) }
    ensures words { command_of_line (map S.text words.now) ≡ Some run_words → result ≡ ExitStatus.Done
        → HasInput (R.remaining input.old) (λ bytes.
        HasOutput (W.contents output.old) (W.contents output.new) (IsWordsOutput bytes)) }
    ensures asm { (source image : Text) → command_of_line (map S.text words.now) ≡ Some (assemble_source source image)
        → Keeps (W.contents output.old) (W.contents output.new) }
    ensures list { (image : Text) → command_of_line (map S.text words.now) ≡ Some (list_image image)
        → result ≡ ExitStatus.Done → (bytes : List ℕ)
        × HasOutput (W.contents output.old) (W.contents output.new) (IsListOutput bytes) }
    ensures run { (image schedule : Text) → command_of_line (map S.text words.now) ≡ Some (run_image image schedule)
        → result ≡ ExitStatus.Done → (image_bytes schedule_bytes : List ℕ)
        × HasOutput (W.contents output.old) (W.contents output.new) (IsRunOutput image_bytes schedule_bytes) }
    ensures threads { (image schedule : Text) (fuel : ℕ)
        → command_of_line (map S.text words.now) ≡ Some (run_threads image fuel schedule)
        → result ≡ ExitStatus.Done → (image_bytes schedule_bytes : List ℕ)
        × HasOutput (W.contents output.old) (W.contents output.new) (IsThreadsOutput image_bytes fuel schedule_bytes) }
    ensures debug { (image schedule : Text) → command_of_line (map S.text words.now) ≡ Some (debug_image image schedule)
        → result ≡ ExitStatus.Done → (image_bytes schedule_bytes : List ℕ)
        × HasInput (R.remaining input.old) (λ command_bytes. HasOutput (W.contents output.old) (W.contents output.new)
        (IsDebugOutput image_bytes schedule_bytes command_bytes)) }
{
    match read_command_line(alloc, words) {
        Ok(command) => report(
            run_command(rt, alloc, command, files, input, output),
            errors,
        ),
        Err(error) => {
            let _ = write!(errors, "{error}");
            ExitStatus::NoCommand
        }
    }
}

/// Runs one command. Its files are opened in the order of its arguments, up to the first that can't be; what they
/// hold stands in no clause.
fn run_command<X: Threads + Wait + Sync, F: Files, R: Read, W: Write>(
    rt: &X,
    alloc: Global,
    command: ToolCommand,
    files: &F,
    input: &mut R,
    output: &mut W,
) -> Result<(), ToolFault>
    ensures words { value_of_command command.entry ≡ run_words → OnOk result (HasInput (R.remaining input.old) (λ bytes.
        HasOutput (W.contents output.old) (W.contents output.new) (IsWordsOutput bytes))) }
    ensures words_fault { value_of_command command.entry ≡ run_words → IfErr result (λ fault.
        IfSome (R.remaining input.old) (λ bytes. IsFaultOf (words_output bytes) fault)) }
    ensures asm { (source image : Text) → value_of_command command.entry ≡ assemble_source source image
        → Keeps (W.contents output.old) (W.contents output.new) }
    ensures list { (image : Text) → value_of_command command.entry ≡ list_image image → OnOk result ((bytes : List ℕ)
        × HasOutput (W.contents output.old) (W.contents output.new) (IsListOutput bytes)) }
    ensures run { (image schedule : Text) → value_of_command command.entry ≡ run_image image schedule
        → OnOk result ((image_bytes schedule_bytes : List ℕ)
        × HasOutput (W.contents output.old) (W.contents output.new) (IsRunOutput image_bytes schedule_bytes)) }
    ensures threads { (image schedule : Text) (fuel : ℕ) → value_of_command command.entry ≡ run_threads image fuel schedule
        → OnOk result ((image_bytes schedule_bytes : List ℕ)
        × HasOutput (W.contents output.old) (W.contents output.new) (IsThreadsOutput image_bytes fuel schedule_bytes)) }
    ensures debug { (image schedule : Text) → value_of_command command.entry ≡ debug_image image schedule
        → OnOk result ((image_bytes schedule_bytes : List ℕ) × HasInput (R.remaining input.old) (λ command_bytes.
        HasOutput (W.contents output.old) (W.contents output.new)
        (IsDebugOutput image_bytes schedule_bytes command_bytes))) }
    // the debugger's answers are written as its commands come; all other outputs are composed first
    ensures output_as_before { ((image schedule : Text) → value_of_command command.entry ≢ debug_image image schedule)
        → IfErr result (λ fault. fault ≢ ToolFault.Write → Keeps (W.contents output.old) (W.contents output.new)) }
{
    match command {
        ToolCommand::Words => words_engine(alloc, input, output),
        ToolCommand::Assemble { source, image } => {
            let mut source = open_input(files, source)?;
            let mut image = create_output(files, image)?;
            asm_engine(alloc, &mut source, &mut image)
        }
        ToolCommand::List { image } => {
            let mut image = open_input(files, image)?;
            list_engine(alloc, &mut image, output)
        }
        ToolCommand::Run { image, schedule } => {
            let mut image = open_input(files, image)?;
            let mut schedule = open_input(files, schedule)?;
            run_engine(alloc, &mut image, &mut schedule, output)
        }
        ToolCommand::Threads {
            image,
            fuel,
            schedule,
        } => {
            let mut image = open_input(files, image)?;
            let mut schedule = create_output(files, schedule)?;
            threads_engine(
                rt,
                alloc,
                &mut image,
                fuel,
                &FreeGate,
                &mut schedule,
                output,
            )
        }
        ToolCommand::Debug { image, schedule } => {
            let mut image = open_input(files, image)?;
            let mut schedule = open_input(files, schedule)?;
            debug_engine(alloc, &mut image, &mut schedule, input, output)
        }
    }
}

/// The status of a command, whose fault is printed.
fn report<E: Write>(done: Result<(), ToolFault>, errors: &mut E) -> ExitStatus
    ensures status { MatchResult done (λ _. result ≡ ExitStatus.Done) (λ _. result ≡ ExitStatus.Fault) }
    ensures errors_as_before { OnOk done (Keeps (E.contents errors.old) (E.contents errors.new)) }
{
    match done {
        Ok(()) => ExitStatus::Done,
        Err(fault) => {
            let _ = writeln!(errors, "mta_sim: {fault}");
            ExitStatus::Fault
        }
    }
}
