//! What requests ask for.

/// What a request asks for.
#[derive(Clone, Copy, PartialEq, Eq)]
pub enum DapCommand {
    /// What can be asked for here, and what the client says of itself.
    Initialize,
    /// A program, and its schedule.
    Launch,
    /// The end of the session.
    Disconnect,
    /// Something of breakpoints.
    Points(PointCommand),
    /// A look at the world.
    View(ViewCommand),
    /// Another position.
    Move(MoveCommand),
}

/// What a request asks for of breakpoints.
#[derive(Clone, Copy, PartialEq, Eq)]
pub enum PointCommand {
    /// Those on lines.
    SetBreakpoints,
    /// Those on places by name.
    SetFunctionBreakpoints,
    /// Those on words of the memory.
    SetDataBreakpoints,
    /// Those on traps and blocked steps.
    SetExceptionBreakpoints,
    /// Whether a word can have one.
    DataBreakpointInfo,
}

/// What a request asks for of the world.
#[derive(Clone, Copy, PartialEq, Eq)]
pub enum ViewCommand {
    /// The streams.
    Threads,
    /// The frame of a stream.
    StackTrace,
    /// The groups of places of a frame.
    Scopes,
    /// The places of a group.
    Variables,
    /// What is at a name.
    Evaluate,
    /// What the last step's trap was.
    ExceptionInfo,
    /// The text of a listing.
    Source,
    /// Program words.
    Disassemble,
    /// Bytes of the memory.
    ReadMemory,
    /// The places that a line has.
    GotoTargets,
}

/// To which position a request asks to go.
#[derive(Clone, Copy, PartialEq, Eq)]
pub enum MoveCommand {
    /// To the begin of the run.
    ConfigurationDone,
    /// Back to the start.
    Restart,
    /// On to the next stop.
    Continue,
    /// Back to the last stop.
    ReverseContinue,
    /// On until a stream has stepped.
    Next,
    /// On by one step.
    StepIn,
    /// On until a stream no longer runs.
    StepOut,
    /// Back to before a stream's last step.
    StepBack,
    /// To where a stream is at a program word.
    Goto,
    /// To where what is under way is now.
    Pause,
    /// To no other one: what is under way ends.
    Terminate,
}

/// The commands by their names.
const COMMANDS: [(&str, DapCommand); 29] = [
    ("initialize", DapCommand::Initialize),
    ("launch", DapCommand::Launch),
    ("disconnect", DapCommand::Disconnect),
    (
        "setBreakpoints",
        DapCommand::Points(PointCommand::SetBreakpoints),
    ),
    (
        "setFunctionBreakpoints",
        DapCommand::Points(PointCommand::SetFunctionBreakpoints),
    ),
    (
        "setDataBreakpoints",
        DapCommand::Points(PointCommand::SetDataBreakpoints),
    ),
    (
        "setExceptionBreakpoints",
        DapCommand::Points(PointCommand::SetExceptionBreakpoints),
    ),
    (
        "dataBreakpointInfo",
        DapCommand::Points(PointCommand::DataBreakpointInfo),
    ),
    ("threads", DapCommand::View(ViewCommand::Threads)),
    ("stackTrace", DapCommand::View(ViewCommand::StackTrace)),
    ("scopes", DapCommand::View(ViewCommand::Scopes)),
    ("variables", DapCommand::View(ViewCommand::Variables)),
    ("evaluate", DapCommand::View(ViewCommand::Evaluate)),
    (
        "exceptionInfo",
        DapCommand::View(ViewCommand::ExceptionInfo),
    ),
    ("source", DapCommand::View(ViewCommand::Source)),
    ("disassemble", DapCommand::View(ViewCommand::Disassemble)),
    ("readMemory", DapCommand::View(ViewCommand::ReadMemory)),
    ("gotoTargets", DapCommand::View(ViewCommand::GotoTargets)),
    (
        "configurationDone",
        DapCommand::Move(MoveCommand::ConfigurationDone),
    ),
    ("restart", DapCommand::Move(MoveCommand::Restart)),
    ("continue", DapCommand::Move(MoveCommand::Continue)),
    (
        "reverseContinue",
        DapCommand::Move(MoveCommand::ReverseContinue),
    ),
    ("next", DapCommand::Move(MoveCommand::Next)),
    ("stepIn", DapCommand::Move(MoveCommand::StepIn)),
    ("stepOut", DapCommand::Move(MoveCommand::StepOut)),
    ("stepBack", DapCommand::Move(MoveCommand::StepBack)),
    ("goto", DapCommand::Move(MoveCommand::Goto)),
    ("pause", DapCommand::Move(MoveCommand::Pause)),
    ("terminate", DapCommand::Move(MoveCommand::Terminate)),
];

/// The command of a name; None where nothing is called so here.
pub(crate) fn dap_command(name: &str) -> Option<DapCommand> {
    command_called(&COMMANDS, name)
}

/// The command that one of these names calls.
fn command_called(commands: &[(&str, DapCommand)], name: &str) -> Option<DapCommand> {
    for (known, command) in commands {
        if *known == name {
            return Some(*command);
        }
    }
    None
}

impl MoveCommand {
    /// Whether it begins a move, so that nothing else may be under way.
    pub fn begins(self) -> bool {
        match self {
            MoveCommand::Continue
            | MoveCommand::ReverseContinue
            | MoveCommand::Next
            | MoveCommand::StepIn
            | MoveCommand::StepOut
            | MoveCommand::StepBack
            | MoveCommand::Goto => true,
            MoveCommand::ConfigurationDone
            | MoveCommand::Restart
            | MoveCommand::Pause
            | MoveCommand::Terminate => false,
        }
    }
}
