//! What is sent to the client.

ghost use Rattle.std.specs.Prelude.{◌≡◌, ℕ, List, [], ◌∷◌, ◌++◌, IfOk, OnOk, OnErr, codes, length, map, string_bytes};
ghost use Rattle.std.specs.Fmt.{decimal};
ghost use Rattle.adapter_messages.specs.Responses.{SendsResponse, SendsNoResponse, SendsOne, SendsTwo, SendsEvents};
ghost use Rattle.adapter_messages.specs.Responses.{BeginsWith, response_head, answer_head, refusal_head, event_head};
ghost use Rattle.adapter_messages.specs.Responses.{next_number, number_after};

use editor_wire::{Json, Outbox, push_quoted};
use std::alloc::{AllocError, Global};
use std::marker::Model;

/// What is sent to the client.
#[derive(Drop)]
pub struct Connection {
    /// The messages that are not yet written.
    pub outbox: Outbox,
    /// How many messages were sent.
    sent: u64,
}

/// An event for the client.
#[derive(Drop)]
struct Event {
    name: &'static str,
    body: Json,
}

/// Events for the client, in their order: their names, in a clause.
#[derive(Drop)]
pub struct Events {
    list: Vec<Event>,
}

impl Model for Events {
    ghost Value = { List (List ℕ) };

    ghost view = { λ e. map (λ event. event.name.now) e.list.items };
}

impl Events {
    /// No events.
    pub fn new(alloc: Global) -> Events
        ensures { result ≡ [] }
    {
        Events {
            list: Vec::new(alloc),
        }
    }

    /// Adds an event, unless memory was refused for its body.
    pub fn push(&mut self, name: &'static str, body: Json) -> Result<(), AllocError>
        ensures adds { OnOk result (self.new ≡ self.old ++ name.now ∷ []) }
        ensures err { OnErr result (self.new ≡ self.old) }
    {
        let _ = body.whole()?;
        Ok(self.list.push(Event { name, body })?)
    }
}

impl Connection {
    /// Nothing was sent.
    pub fn new(alloc: Global) -> Connection
        ensures empty { result.outbox ≡ [] }
        ensures number { result.sent ≡ 0 }
    {
        Connection {
            outbox: Outbox::new(alloc),
            sent: 0,
        }
    }

    /// Answers the request of this number, which asked for this command, by a body, which may be empty.
    #[tactic(auto, using(crate::proofs::Sending::one_sent))]
    pub fn respond(
        &mut self,
        alloc: Global,
        request: u64,
        command: &str,
        body: &Json,
    ) -> Result<(), AllocError>
        ensures one { OnOk result (SendsResponse self.old.outbox self.new.outbox request command.now) }
        ensures says { OnOk result (SendsOne self.old.outbox self.new.outbox
            (answer_head self.new.sent request command.now)) }
        ensures number { self.new.sent ≡ next_number self.old.sent }
        ensures err { OnErr result (self.new.outbox ≡ self.old.outbox) }
    {
        self.sent = self.sent.saturating_add(1);
        let text = answer_text(alloc, self.sent, request, command, body)?;
        self.outbox.send(text)
    }

    /// Refuses the request of this number, which asked for this command, for a reason in words.
    #[tactic(auto, using(crate::proofs::Sending::one_sent))]
    pub fn refuse(
        &mut self,
        alloc: Global,
        request: u64,
        command: &str,
        words: &str,
    ) -> Result<(), AllocError>
        ensures one { OnOk result (SendsResponse self.old.outbox self.new.outbox request command.now) }
        ensures says { OnOk result (SendsOne self.old.outbox self.new.outbox
            (refusal_head self.new.sent request command.now words.now)) }
        ensures number { self.new.sent ≡ next_number self.old.sent }
        ensures err { OnErr result (self.new.outbox ≡ self.old.outbox) }
    {
        self.sent = self.sent.saturating_add(1);
        let text = refusal_text(alloc, self.sent, request, command, words)?;
        self.outbox.send(text)
    }

    /// Sends events in their order.
    #[tactic(auto, using(crate::proofs::Sending::events_then_events, crate::proofs::Sending::nothing_sent))]
    pub fn report_all(&mut self, alloc: Global, events: &Events) -> Result<(), AllocError>
        ensures none { SendsNoResponse self.old.outbox self.new.outbox }
        ensures says { OnOk result (SendsEvents self.old.outbox self.new.outbox self.old.sent events.now) }
        ensures number { OnOk result (self.new.sent ≡ number_after self.old.sent (length events.now)) }
    {
        for event in &events.list {
            self.send_event(alloc, event.name, &event.body)?;
        }
        Ok(())
    }

    /// Sends an event.
    #[tactic(auto, using(crate::proofs::Sending::one_sent, crate::proofs::Sending::event_is_none, crate::proofs::Sending::nothing_sent))]
    pub fn send_event(&mut self, alloc: Global, name: &str, body: &Json) -> Result<(), AllocError>
        ensures none { SendsNoResponse self.old.outbox self.new.outbox }
        ensures says { OnOk result (SendsOne self.old.outbox self.new.outbox (event_head self.new.sent name.now)) }
        ensures number { self.new.sent ≡ next_number self.old.sent }
        ensures err { OnErr result (self.new.outbox ≡ self.old.outbox) }
    {
        self.sent = self.sent.saturating_add(1);
        let text = event_text(alloc, self.sent, name, body)?;
        self.outbox.send(text)
    }
}

/// Says that a program is launched, as the request of this number asked, and that breakpoints can be set.
#[tactic(auto, using(crate::proofs::Sending::response_then_events))]
pub fn say_launched(
    alloc: Global,
    connection: &mut Connection,
    request: u64,
) -> Result<(), AllocError>
    ensures one { OnOk result (SendsResponse connection.old.outbox connection.new.outbox request (codes "launch")) }
    ensures says { OnOk result (SendsTwo connection.old.outbox connection.new.outbox
        (answer_head (next_number connection.old.sent) request (codes "launch"))
        (event_head connection.new.sent (codes "initialized"))) }
    ensures number { OnOk result (connection.new.sent ≡ number_after connection.old.sent 2) }
{
    let empty = Json::new(alloc);
    connection.respond(alloc, request, "launch", &empty)?;
    connection.send_event(alloc, "initialized", &empty)
}

/// The text of an answer of this number, to the request of another one, which asked for this command.
fn answer_text(
    alloc: Global,
    seq: u64,
    request: u64,
    command: &str,
    body: &Json,
) -> Result<String, AllocError>
    ensures { IfOk result (λ text. BeginsWith (answer_head seq request command.now) (string_bytes text)) }
{
    let mut text = begun_response(alloc, seq, request, command)?;
    text.push_str(",\"success\":true")?;
    push_body(&mut text, body)?;
    Ok(text)
}

/// The text of a refusal of this number, to the request of another one, which asked for this command.
fn refusal_text(
    alloc: Global,
    seq: u64,
    request: u64,
    command: &str,
    words: &str,
) -> Result<String, AllocError>
    ensures { IfOk result (λ text. BeginsWith (refusal_head seq request command.now words.now) (string_bytes text)) }
{
    let mut text = begun_response(alloc, seq, request, command)?;
    text.push_str(",\"success\":false,\"message\":")?;
    push_quoted(&mut text, words)?;
    push_body(&mut text, &error_body(alloc, words))?;
    Ok(text)
}

/// The text of a response of this number, up to whether it is an answer or a refusal.
fn begun_response(
    alloc: Global,
    seq: u64,
    request: u64,
    command: &str,
) -> Result<String, AllocError>
    ensures { IfOk result (λ text. string_bytes text
        ≡ response_head request command.now ++ codes "\"seq\":" ++ decimal seq) }
{
    let mut text = String::new(alloc);
    write!(
        text,
        "{{\"type\":\"response\",\"request_seq\":{request},\"command\":"
    )?;
    push_quoted(&mut text, command)?;
    write!(text, ",\"seq\":{seq}")?;
    Ok(text)
}

/// The text of an event of this number and this name.
fn event_text(alloc: Global, seq: u64, name: &str, body: &Json) -> Result<String, AllocError>
    ensures { IfOk result (λ text. BeginsWith (event_head seq name.now) (string_bytes text)) }
{
    let mut text = String::new(alloc);
    write!(text, "{{\"type\":\"event\",\"seq\":{seq},\"event\":")?;
    push_quoted(&mut text, name)?;
    push_body(&mut text, body)?;
    Ok(text)
}

/// Adds a body, unless it is empty, and the end of the message. Fails too where memory was refused for a piece of it.
fn push_body(text: &mut String, body: &Json) -> Result<(), AllocError>
    ensures { OnOk result (BeginsWith (string_bytes text.old) (string_bytes text.new)) }
{
    let body = body.whole()?;
    if !body.is_empty() {
        text.push_str(",\"body\":")?;
        text.push_str(body)?;
    }
    text.push_str("}")
}

/// The body of a refusal: the words as an error for the user.
fn error_body(alloc: Global, words: &str) -> Json {
    let mut error = Json::new(alloc);
    error.open();
    error.number_of("id", 1);
    error.text_of("format", "{words}");
    error.key("variables");
    error.open();
    error.text_of("words", words);
    error.close();
    error.truth_of("showUser", true);
    error.close();
    let mut body = Json::new(alloc);
    body.open();
    body.value_of("error", &error);
    body.close();
    body
}
