//! The lines of commands, answered by a session.
ghost use Rattle.std.specs.Prelude.{◌≡◌, ◌≢◌, ◌⊎◌, OnOk, IfErr};
ghost use Rattle.std.specs.Io.KnownBytes.{Keeps, Appends};
ghost use Rattle.debug_commands.specs.Commands.{command_of};
ghost use Rattle.mta_engines.specs.InputOutput.{HasOutput};
ghost use Rattle.mta_engines.specs.DebugOutput.{IsReply, refusal_line};
ghost use Rattle.mta_engines.specs.DebugAnswers.{AreAllAnswers, IsLaterFault};

use crate::line_reader::LineReader;
use crate::output::write_output;
use crate::tool_fault::ToolFault;
use debug_commands::{DebugFault, answer_text, read_command};
use replay_debugger::Session;
use std::alloc::Global;
use std::io::{Read, Write};

/// Does the command of each line, and writes what the session says, before the next line is read.
pub(crate) fn answer_lines<const S: usize, C: Read, W: Write>(
    alloc: Global,
    session: &mut Session<S>,
    commands: &mut C,
    writer: &mut W,
) -> Result<(), ToolFault>
    ensures output { OnOk result (AreAllAnswers session.old
        (C.remaining commands.old) (W.contents writer.old) (W.contents writer.new)) }
    ensures fault { IfErr result (IsLaterFault session.old
        (C.remaining commands.old) (C.remaining commands.new) (W.contents writer.old) (W.contents writer.new)) }
{
    let mut lines = LineReader::new(alloc)?;
    while lines.next(commands)? {
        answer_line(alloc, session, lines.line(), writer)?;
    }
    Ok(())
}

/// Does the command of a line, and writes what the session says.
fn answer_line<const S: usize, W: Write>(
    alloc: Global,
    session: &mut Session<S>,
    line: &[u8],
    writer: &mut W,
) -> Result<(), ToolFault>
    ensures reply { OnOk result (HasOutput (W.contents writer.old) (W.contents writer.new)
        (λ text. IsReply session.old (command_of line.now) text session.new)) }
    ensures fault { IfErr result (λ fault. (fault ≡ ToolFault.Write) ⊎ ((fault ≡ ToolFault.NoMemory)
        × Keeps (W.contents writer.old) (W.contents writer.new))) }
{
    let answered = match read_command(line) {
        Ok(command) => session.command(&command),
        Err(fault) => Err(fault),
    };
    match answered {
        Ok(answer) => {
            let text = answer_text(alloc, &answer)?;
            write_output(writer, text.as_bytes())
        }
        Err(fault) => write_refusal(writer, fault),
    }
}

/// Writes the line of a refused command, and flushes the writer. It takes no memory, so it can say that memory was
/// refused.
#[tactic(auto, unfolding(crate::specs::DebugOutput::refusal_line))]
fn write_refusal<W: Write>(writer: &mut W, fault: DebugFault) -> Result<(), ToolFault>
    ensures output { OnOk result (Appends (W.contents writer.old) (W.contents writer.new) (refusal_line fault)) }
    ensures fault { IfErr result (λ fault. fault ≡ ToolFault.Write) }
{
    if writeln!(writer, "fault {}", fault.number()).is_err() || writer.flush().is_err() {
        return Err(ToolFault::Write);
    }
    Ok(())
}
