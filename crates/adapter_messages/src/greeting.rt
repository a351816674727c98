//! Requests before a program is launched.

ghost use Rattle.std.specs.Prelude.{◌≡◌, ◌≢◌, IfOk, OnOk, string_bytes};
ghost use Rattle.adapter_messages.specs.Responses.{SendsResponse, SendsOne, next_number};
ghost use Rattle.adapter_messages.specs.Greetings.{no_command_words, flow_after, greeting_head};

use crate::commands::DapCommand;
use crate::connection::Connection;
use crate::requests::DapRequest;
use editor_wire::Json;
use std::alloc::{AllocError, Global};

/// What comes after a request.
#[derive(Clone, Copy, PartialEq, Eq)]
pub enum Flow {
    /// The next request.
    On,
    /// The end.
    End,
}

/// What the client says of itself.
#[derive(Clone, Copy)]
pub struct Client {
    /// The number of the first line.
    pub first_line: u64,
    /// The number of the first column.
    pub first_column: u64,
}

impl Client {
    /// A client that says nothing of itself.
    pub fn usual() -> Client
        ensures line { result.first_line ≡ 1 }
        ensures column { result.first_column ≡ 1 }
    {
        Client {
            first_line: 1,
            first_column: 1,
        }
    }
}

/// Answers a request before a program is launched, which is none to launch: by one response, which has its number and its
/// command.
pub fn greet(
    alloc: Global,
    connection: &mut Connection,
    client: &mut Client,
    request: &DapRequest,
) -> Result<Flow, AllocError>
    ensures one { OnOk result (SendsResponse connection.old.outbox connection.new.outbox
        request.now.seq (string_bytes request.now.command)) }
    ensures says { OnOk result (SendsOne connection.old.outbox connection.new.outbox
        (greeting_head connection.new.sent request.now.seq (string_bytes request.now.command) request.now.kind)) }
    ensures number { connection.new.sent ≡ next_number connection.old.sent }
    ensures flow { IfOk result (λ flow. flow ≡ flow_after request.now.kind) }
    ensures client { request.now.kind ≢ Some DapCommand.Initialize → client.new ≡ client.old }
{
    let command = request.command.as_str();
    match request.kind {
        Some(DapCommand::Initialize) => {
            *client = client_of(request);
            let body = capabilities(alloc);
            connection.respond(alloc, request.seq, command, &body)?;
            Ok(Flow::On)
        }
        Some(DapCommand::Disconnect) => {
            connection.respond(alloc, request.seq, command, &Json::new(alloc))?;
            Ok(Flow::End)
        }
        Some(
            DapCommand::Launch | DapCommand::Points(_) | DapCommand::View(_) | DapCommand::Move(_),
        ) => {
            connection.refuse(alloc, request.seq, command, "no program is launched")?;
            Ok(Flow::On)
        }
        None => {
            connection.refuse(alloc, request.seq, command, no_command(command))?;
            Ok(Flow::On)
        }
    }
}

/// Why a command that is none is refused.
pub fn no_command(command: &str) -> &'static str
    ensures { result.now ≡ no_command_words command.now }
{
    match command {
        "" => "this is no request",
        "setVariable" | "setExpression" | "writeMemory" =>
            "what a schedule comes to is not changed by hand",
        "attach" => "there is nothing to attach to: launch a program",
        _ => "there is no such request here",
    }
}

/// What a client says of itself.
fn client_of(request: &DapRequest) -> Client {
    let first = |name: &str| -> u64 {
        if request.truth(name) == Some(false) {
            0
        } else {
            1
        }
    };
    Client {
        first_line: first("linesStartAt1"),
        first_column: first("columnsStartAt1"),
    }
}

/// What can be asked for here.
const CAPABILITIES: [&str; 12] = [
    "supportsConfigurationDoneRequest",
    "supportsFunctionBreakpoints",
    "supportsDataBreakpoints",
    "supportsEvaluateForHovers",
    "supportsStepBack",
    "supportsGotoTargetsRequest",
    "supportsRestartRequest",
    "supportsExceptionInfoRequest",
    "supportsTerminateRequest",
    "supportsDisassembleRequest",
    "supportsReadMemoryRequest",
    "supportsValueFormattingOptions",
];

/// The body that says what can be asked for.
fn capabilities(alloc: Global) -> Json {
    let mut body = Json::new(alloc);
    body.open();
    push_all_true(&mut body, &CAPABILITIES);
    body.open_list("exceptionBreakpointFilters");
    push_filter(
        &mut body,
        "traps",
        "Traps",
        "stops after a step that trapped",
    );
    push_filter(
        &mut body,
        "blocked",
        "Blocked steps",
        "stops after a step that was blocked",
    );
    body.close_list();
    body.close();
    body
}

/// Adds members that are true.
fn push_all_true(body: &mut Json, names: &[&str]) {
    for name in names {
        body.truth_of(name, true);
    }
}

/// Adds a filter of exceptions.
fn push_filter(body: &mut Json, filter: &str, label: &str, description: &str) {
    body.open();
    body.text_of("filter", filter);
    body.text_of("label", label);
    body.text_of("description", description);
    body.truth_of("default", false);
    body.close();
}
