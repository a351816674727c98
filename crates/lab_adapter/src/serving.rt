//! The command `dap`: requests of an editor from standard input, answers on standard output.

use crate::loading::{Loaded, load};
use crate::transport::Transport;
use adapter_messages::{Client, DapCommand, DapRequest, Flow, greet, say_launched};
use command_parts::texts::ProgramNames;
use command_parts::{LabFault, Status};
use debug_adapter::{Adapter, LaunchRequest, Origin, launch_of};
use editor_wire::{EndMark, Inbox, bounded_inbox, has_begun, has_second_thread, read_if_first};
use lab_debugger::named_of;
use std::alloc::Global;
use std::io::{Read, Write};
use std::marker::Send;
use std::rt::Files;
use std::sync::Wait;
use std::sync::atomic::AtomicBool;
use std::thread;
use std::thread::Threads;
use std::time::Clock;

/// Why nothing is answered where the system starts no thread.
const NO_THREAD: &str = "dap takes a second thread, and the system starts none";

/// By what a request asks for the end.
const END: EndMark = EndMark {
    members: &[("type", "request"), ("command", "disconnect")],
};

/// Answers the requests on standard input. A thread reads them, so that one is seen while a search is under way.
pub fn adapt<X: Threads + Wait + Clock + Sync, F: Files, R: Read + Send, W: Write>(
    rt: &X,
    alloc: Global,
    files: &F,
    input: &mut R,
    output: &mut W,
) -> Result<Status, LabFault> {
    if !has_second_thread(rt) {
        return Err(no_thread(alloc));
    }
    let (sender, inbox) = bounded_inbox(alloc)?;
    let is_begun = AtomicBool::new(false);
    let (_, served) = thread::join(
        rt,
        || read_if_first(rt, alloc, &is_begun, END, input, sender),
        || serve_if_begun(rt, alloc, &is_begun, files, inbox, output),
    );
    served
}

/// That the system starts no thread.
fn no_thread(alloc: Global) -> LabFault {
    match String::from_str(alloc, NO_THREAD) {
        Ok(words) => LabFault::Words(words),
        Err(_) => LabFault::NoMemory,
    }
}

/// Answers messages, if the thread that reads them begins.
fn serve_if_begun<X: Wait + Clock, F: Files, W: Write>(
    rt: &X,
    alloc: Global,
    is_begun: &AtomicBool,
    files: &F,
    inbox: Inbox,
    output: &mut W,
) -> Result<Status, LabFault> {
    if !has_begun(rt, is_begun) {
        return Err(no_thread(alloc));
    }
    let mut transport = Transport::new(alloc, inbox, output);
    serve(rt, alloc, files, &mut transport)
}

/// Answers the messages that come, up to one that asks for the end, or to the last.
fn serve<X: Wait, F: Files, W: Write>(
    rt: &X,
    alloc: Global,
    files: &F,
    transport: &mut Transport<'_, W>,
) -> Result<Status, LabFault> {
    let mut client = Client::usual();
    for _ in rt.forever() {
        let Some(request) = transport.next(rt)? else {
            return Ok(Status::Done);
        };
        let flow = if request.kind == Some(DapCommand::Launch) {
            launch_by(rt, alloc, files, &request, client, transport)?
        } else {
            greet(alloc, &mut transport.connection, &mut client, &request)?
        };
        if flow == Flow::End {
            transport.flush()?;
            return Ok(Status::Done);
        }
    }
    unreachable!()
}

/// Answers a request to launch a program, and where it can be launched all requests up to the end.
fn launch_by<X: Wait, F: Files, W: Write>(
    rt: &X,
    alloc: Global,
    files: &F,
    request: &DapRequest,
    client: Client,
    transport: &mut Transport<'_, W>,
) -> Result<Flow, LabFault> {
    let launch = match launch_of(request) {
        Ok(launch) => launch,
        Err(words) => {
            transport
                .connection
                .refuse(alloc, request.seq, "launch", words)?;
            return Ok(Flow::On);
        }
    };
    match load(alloc, files, &launch) {
        Ok(loaded) => {
            launch_on(rt, alloc, &loaded, &launch, client, transport)?;
            Ok(Flow::End)
        }
        Err(LabFault::Words(words) | LabFault::Lines(words)) => {
            transport
                .connection
                .refuse(alloc, launch.seq, "launch", words.trim())?;
            Ok(Flow::On)
        }
        Err(fault) => Err(fault),
    }
}

/// Launches a program, and answers requests up to the end.
fn launch_on<X: Wait, W: Write>(
    rt: &X,
    alloc: Global,
    loaded: &Loaded,
    launch: &LaunchRequest<'_>,
    client: Client,
    transport: &mut Transport<'_, W>,
) -> Result<(), LabFault> {
    let names = ProgramNames::of(alloc, &loaded.program.text)?;
    let steps = Vec::from_slice(alloc, &loaded.steps)?;
    let named = named_of::<128>(alloc, &loaded.program, steps)?;
    let origin = origin_of(loaded, launch, client);
    let mut adapter = Adapter::new(alloc, named, &names, origin);
    say_launched(alloc, &mut transport.connection, launch.seq)?;
    answer_all(rt, alloc, &mut adapter, transport)
}

/// Where a launched program came from, and how its session begins.
fn origin_of<'a>(loaded: &'a Loaded, launch: &LaunchRequest<'a>, client: Client) -> Origin<'a> {
    Origin {
        path: launch.program,
        listing: if loaded.is_image {
            Some(std::str::from_utf8(&loaded.program.text).unwrap_or(""))
        } else {
            None
        },
        stops_on_entry: launch.stops_on_entry,
        client,
    }
}

/// Answers messages over a launched program, and goes on with what is under way between them.
fn answer_all<X: Wait, W: Write>(
    rt: &X,
    alloc: Global,
    adapter: &mut Adapter<'_, '_, '_>,
    transport: &mut Transport<'_, W>,
) -> Result<(), LabFault> {
    for _ in rt.forever() {
        let request = if adapter.is_under_way() {
            transport.next_there(rt)?
        } else {
            match transport.next(rt)? {
                Some(request) => Some(request),
                None => return Ok(()),
            }
        };
        match request {
            Some(request) => {
                if adapter.handle(&mut transport.connection, &request)? == Flow::End {
                    return transport.flush();
                }
            }
            None => adapter.go_on(&mut transport.connection)?,
        }
    }
    unreachable!()
}
