//! What is to be written, message by message.

ghost use Rattle.std.specs.Prelude.{◌≡◌, ℕ, List, [], ◌∷◌, ◌++◌, IfOk, OnOk, OnErr, map, string_bytes};
ghost use Rattle.editor_wire.specs.Wire.{framed, framed_all};

use std::alloc::{AllocError, Global};
use std::marker::Model;

/// The texts of messages that are not yet written, in the order in which they were sent.
#[derive(Drop)]
pub struct Outbox {
    texts: Vec<String>,
}

impl Model for Outbox {
    ghost Value = { List (List ℕ) };

    ghost view = { λ o. map string_bytes o.texts.items };
}

impl Outbox {
    /// Nothing was sent.
    pub fn new(alloc: Global) -> Outbox
        ensures { result ≡ [] }
    {
        Outbox {
            texts: Vec::new(alloc),
        }
    }

    /// Sends a message: it is written after all that were sent before.
    pub fn send(&mut self, text: String) -> Result<(), AllocError>
        ensures sent { OnOk result (self.new ≡ self.old ++ string_bytes text ∷ []) }
        ensures err { OnErr result (self.new ≡ self.old) }
    {
        Ok(self.texts.push(text)?)
    }

    /// The bytes to write: each message with its head, in their order. Nothing waits to be written then.
    pub fn take_bytes(&mut self, alloc: Global) -> Result<String, AllocError>
        ensures bytes { IfOk result (λ bytes. string_bytes bytes ≡ framed_all self.old) }
        ensures empty { OnOk result (self.new ≡ []) }
        ensures err { OnErr result (self.new ≡ self.old) }
    {
        let bytes = framed_texts(alloc, &self.texts)?;
        self.texts.clear();
        Ok(bytes)
    }
}

/// Texts with their heads, in their order.
fn framed_texts(alloc: Global, texts: &[String]) -> Result<String, AllocError>
    ensures { IfOk result (λ bytes. string_bytes bytes ≡ framed_all (map string_bytes texts.now)) }
{
    let mut out = String::new(alloc);
    for text in texts {
        push_framed(&mut out, text)?;
    }
    Ok(out)
}

/// Adds a text with its head: its length in bytes, and an empty line.
fn push_framed(out: &mut String, text: &str) -> Result<(), AllocError>
    ensures { OnOk result (string_bytes out.new ≡ string_bytes out.old ++ framed text.now) }
{
    let length = text.len();
    write!(out, "Content-Length: {length}\r\n\r\n")?;
    out.push_str(text)
}
