//! What is sent to the client.

ghost use Rattle.std.specs.Prelude.{◌≡◌, [], ◌∷◌, ◌++◌, IfOk, OnOk, OnErr, string_bytes};
ghost use Rattle.language_messages.specs.Numbers.{error_number};
ghost use Rattle.language_messages.specs.Responses.{SendsResponse, SendsNoResponse, SendsOne, BeginsWith};
ghost use Rattle.language_messages.specs.Responses.{response_head, result_head, error_text, notification_head};

use crate::refusals::RefusalKind;
use editor_wire::{Json, Outbox, push_quoted};
use std::alloc::{AllocError, Global};

/// What is sent to the client.
#[derive(Drop)]
pub struct Connection {
    /// The messages that are not yet written.
    pub outbox: Outbox,
}

impl Connection {
    /// Nothing was sent.
    pub fn new(alloc: Global) -> Connection
        ensures { result.outbox ≡ [] }
    {
        Connection {
            outbox: Outbox::new(alloc),
        }
    }

    /// Answers the request of this id by a value, null where that is empty.
    #[tactic(auto, using(crate::proofs::Sending::one_sent, crate::proofs::Sending::answer_responds))]
    pub fn respond(&mut self, alloc: Global, id: &str, value: &Json) -> Result<(), AllocError>
        ensures one { OnOk result (SendsResponse self.old.outbox self.new.outbox id.now) }
        ensures says { OnOk result (SendsOne self.old.outbox self.new.outbox (result_head id.now)) }
        ensures err { OnErr result (self.new.outbox ≡ self.old.outbox) }
    {
        let text = answer_text(alloc, id, value)?;
        self.outbox.send(text)
    }

    /// Refuses the request of this id by an error of a kind, for a reason in words.
    pub fn refuse(
        &mut self,
        alloc: Global,
        id: &str,
        kind: RefusalKind,
        words: &str,
    ) -> Result<(), AllocError>
        ensures one { OnOk result (SendsResponse self.old.outbox self.new.outbox id.now) }
        ensures says { OnOk result (self.new.outbox
            ≡ self.old.outbox ++ error_text id.now (error_number kind) words.now ∷ []) }
        ensures err { OnErr result (self.new.outbox ≡ self.old.outbox) }
    {
        let text = refusal_text(alloc, id, kind.number(), words)?;
        self.outbox.send(text)
    }

    /// Sends a notification.
    #[tactic(auto, using(crate::proofs::Sending::one_sent, crate::proofs::Sending::notification_is_none, crate::proofs::Sending::nothing_sent))]
    pub fn notify(
        &mut self,
        alloc: Global,
        method: &str,
        parameters: &Json,
    ) -> Result<(), AllocError>
        ensures none { SendsNoResponse self.old.outbox self.new.outbox }
        ensures says { OnOk result (SendsOne self.old.outbox self.new.outbox (notification_head method.now)) }
        ensures err { OnErr result (self.new.outbox ≡ self.old.outbox) }
    {
        let text = notification_text(alloc, method, parameters)?;
        self.outbox.send(text)
    }
}

/// The text of an answer to the request of this id, unless memory was refused for a piece of its value.
fn answer_text(alloc: Global, id: &str, value: &Json) -> Result<String, AllocError>
    ensures { IfOk result (λ text. BeginsWith (result_head id.now) (string_bytes text)) }
{
    let mut text = begun_response(alloc, id)?;
    text.push_str("\"result\":")?;
    push_value(&mut text, value)?;
    Ok(text)
}

/// Adds a value, null where it is empty, and the end of the message.
fn push_value(text: &mut String, value: &Json) -> Result<(), AllocError>
    ensures { OnOk result (BeginsWith (string_bytes text.old) (string_bytes text.new)) }
{
    let value = value.whole()?;
    text.push_str(if value.is_empty() { "null" } else { value })?;
    text.push_str("}")
}

/// The text of the refusal of the request of this id, by the number of an error without its sign.
fn refusal_text(alloc: Global, id: &str, number: u64, words: &str) -> Result<String, AllocError>
    ensures { IfOk result (λ text. string_bytes text ≡ error_text id.now number words.now) }
{
    let mut text = begun_response(alloc, id)?;
    write!(text, "\"error\":{{\"code\":-{number},\"message\":")?;
    push_quoted(&mut text, words)?;
    text.push_str("}}")?;
    Ok(text)
}

/// The text of a response to the request of this id, up to its result or its error.
fn begun_response(alloc: Global, id: &str) -> Result<String, AllocError>
    ensures { IfOk result (λ text. string_bytes text ≡ response_head id.now) }
{
    let mut text = String::new(alloc);
    text.push_str("{\"jsonrpc\":\"2.0\",\"id\":")?;
    text.push_str(id)?;
    text.push_str(",")?;
    Ok(text)
}

/// The text of a notification, unless memory was refused for a piece of its parameters.
fn notification_text(alloc: Global, method: &str, parameters: &Json) -> Result<String, AllocError>
    ensures { IfOk result (λ text. BeginsWith (notification_head method.now) (string_bytes text)) }
{
    let mut text = String::new(alloc);
    text.push_str("{\"jsonrpc\":\"2.0\",\"method\":")?;
    push_quoted(&mut text, method)?;
    text.push_str(",\"params\":")?;
    push_parameters(&mut text, parameters)?;
    Ok(text)
}

/// Adds parameters, and the end of the message.
fn push_parameters(text: &mut String, parameters: &Json) -> Result<(), AllocError>
    ensures { OnOk result (BeginsWith (string_bytes text.old) (string_bytes text.new)) }
{
    text.push_str(parameters.whole()?)?;
    text.push_str("}")
}
