//! A launched program, and which of its requests does what.

ghost use Rattle.std.specs.Prelude.{OnOk, string_bytes};
ghost use Rattle.adapter_messages.specs.Responses.{SendsResponse, SendsNoResponse};

use crate::breaking::KnownPoint;
use crate::refusals::Refusal;
use crate::searching::OngoingMove;
use crate::stop_conditions::StopConditions;
use adapter_messages::{
    Client, Connection, DapCommand, DapRequest, Events, Flow, MoveCommand, PointCommand,
    ViewCommand, no_command,
};
use editor_wire::Json;
use lab_texts::{Columns, ProgramNames};
use named_session::NamedSession;
use processor::Step;
use std::alloc::{AllocError, Global};

/// The room for streams of each processor.
pub(crate) const STREAMS: usize = 128;

/// What a launch says beside the program itself.
#[derive(Clone, Copy)]
pub struct Origin<'a> {
    /// The program's path.
    pub path: &'a str,
    /// The text that names its places, where that is no file: the listing of an image.
    pub listing: Option<&'a str>,
    /// Whether it stops at the start.
    pub stops_on_entry: bool,
    /// What the client says of itself.
    pub client: Client,
}

/// A session of a client over a launched program.
#[derive(Drop)]
pub struct Adapter<'a, 'i, 't> {
    pub(crate) alloc: Global,
    pub(crate) named: NamedSession<'i, 't, 128>,
    pub(crate) names: &'a ProgramNames<'t>,
    pub(crate) columns: Columns,
    pub(crate) origin: Origin<'a>,
    /// The client's breakpoints, each with its points in the session.
    pub(crate) points: Vec<KnownPoint>,
    /// The number of the breakpoint that is made next.
    pub(crate) next_breakpoint: u64,
    /// At what the session stops beside its points.
    pub(crate) conditions: StopConditions,
    /// What is under way.
    pub(crate) search: Option<OngoingMove>,
    /// The stream of the last stop.
    pub(crate) last_stream: Step,
}

impl<'a, 'i, 't> Adapter<'a, 'i, 't> {
    /// An adapter over a session.
    pub fn new(
        alloc: Global,
        named: NamedSession<'i, 't, 128>,
        names: &'a ProgramNames<'t>,
        origin: Origin<'a>,
    ) -> Adapter<'a, 'i, 't> {
        let columns = Columns::of(names, named.session.schedule().len());
        Adapter {
            alloc,
            named,
            names,
            columns,
            origin,
            points: Vec::new(alloc),
            next_breakpoint: 1,
            conditions: StopConditions::nothing(),
            search: None,
            last_stream: Step { p: 0, s: 0 },
        }
    }

    /// Whether a search is under way, so that [`Adapter::go_on`] has something to do.
    pub fn is_under_way(&self) -> bool {
        self.search.is_some()
    }

    /// Answers a request: by one response, which has its number and its command, and the events that come after.
    #[tactic(auto, using(adapter_messages::proofs::Sending::response_then_events))]
    pub fn handle(
        &mut self,
        connection: &mut Connection,
        request: &DapRequest,
    ) -> Result<Flow, AllocError>
        ensures one { OnOk result (SendsResponse connection.old.outbox connection.new.outbox
            request.now.seq (string_bytes request.now.command)) }
    {
        let alloc = self.alloc;
        let mut body = Json::new(alloc);
        let mut events = Events::new(alloc);
        let outcome = self.answer(request, &mut body, &mut events);
        let command = request.command.as_str();
        let turn = match outcome {
            Ok(turn) => {
                connection.respond(alloc, request.seq, command, &body)?;
                turn
            }
            Err(refusal) => {
                connection.refuse(alloc, request.seq, command, refusal.words())?;
                Flow::On
            }
        };
        connection.report_all(alloc, &events)?;
        Ok(turn)
    }

    /// Goes on with what is under way for a slice of steps, and reports by events where it stops.
    #[tactic(auto, using(adapter_messages::proofs::Sending::nothing_sent))]
    pub fn go_on(&mut self, connection: &mut Connection) -> Result<(), AllocError>
        ensures none { SendsNoResponse connection.old.outbox connection.new.outbox }
    {
        let alloc = self.alloc;
        let mut events = Events::new(alloc);
        if self.search_on(&mut events).is_err() {
            return Err(AllocError);
        }
        connection.report_all(alloc, &events)
    }

    /// Does what a request asks for, and writes the body of its response and the events after it.
    fn answer(
        &mut self,
        request: &DapRequest,
        body: &mut Json,
        events: &mut Events,
    ) -> Result<Flow, Refusal> {
        match request.kind {
            None => return Err(Refusal::Words(no_command(request.command.as_str()))),
            Some(DapCommand::Initialize | DapCommand::Launch) => {
                return Err(Refusal::Words("a program is launched already"));
            }
            Some(DapCommand::Disconnect) => return Ok(Flow::End),
            Some(DapCommand::Points(command)) => self.answer_points(command, request, body)?,
            Some(DapCommand::View(command)) => self.answer_view(command, request, body)?,
            Some(DapCommand::Move(command)) => self.answer_move(command, request, body, events)?,
        }
        let _ = body.whole()?;
        Ok(Flow::On)
    }

    /// Answers what is asked of breakpoints.
    fn answer_points(
        &mut self,
        command: PointCommand,
        request: &DapRequest,
        body: &mut Json,
    ) -> Result<(), Refusal> {
        match command {
            PointCommand::SetBreakpoints => self.set_breakpoints(request, body),
            PointCommand::SetFunctionBreakpoints => self.set_function_breakpoints(request, body),
            PointCommand::SetDataBreakpoints => self.set_data_breakpoints(request, body),
            PointCommand::SetExceptionBreakpoints => self.set_exception_breakpoints(request, body),
            PointCommand::DataBreakpointInfo => self.data_breakpoint_info(request, body),
        }
    }

    /// Answers what looks at the world.
    fn answer_view(
        &mut self,
        command: ViewCommand,
        request: &DapRequest,
        body: &mut Json,
    ) -> Result<(), Refusal> {
        match command {
            ViewCommand::Threads => self.threads(body),
            ViewCommand::StackTrace => self.stack_trace(request, body),
            ViewCommand::Scopes => self.scopes(request, body),
            ViewCommand::Variables => self.variables(request, body),
            ViewCommand::Evaluate => self.evaluate(request, body),
            ViewCommand::ExceptionInfo => self.exception_info(body),
            ViewCommand::Source => self.source(body),
            ViewCommand::Disassemble => self.disassemble(request, body),
            ViewCommand::ReadMemory => self.read_memory(request, body),
            ViewCommand::GotoTargets => self.goto_targets(request, body),
        }
    }

    /// Answers what goes to another position.
    fn answer_move(
        &mut self,
        command: MoveCommand,
        request: &DapRequest,
        body: &mut Json,
        events: &mut Events,
    ) -> Result<(), Refusal> {
        if command.begins() && self.search.is_some() {
            return Err(Refusal::Words("a search is under way: pause it first"));
        }
        match command {
            MoveCommand::ConfigurationDone => self.begin(events),
            MoveCommand::Restart => self.restart(events),
            MoveCommand::Continue => self.go_forward(body),
            MoveCommand::ReverseContinue => self.go_backward(body),
            MoveCommand::Next => self.step_stream(request),
            MoveCommand::StepIn => self.step_once(),
            MoveCommand::StepOut => self.step_out(request),
            MoveCommand::StepBack => self.step_back(request),
            MoveCommand::Goto => self.go_to(request, events),
            MoveCommand::Pause => self.pause(events),
            MoveCommand::Terminate => self.terminate(events),
        }
    }
}
