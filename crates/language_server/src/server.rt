//! A session of a client, and which of its messages does what.

ghost use Rattle.std.specs.Prelude.{OnOk, string_bytes};
ghost use Rattle.language_messages.specs.Responses.{SendsResponse, SendsNoResponse};

use crate::actions::actions;
use crate::capabilities::capabilities;
use crate::completing::completion;
use crate::diagnostics::{diagnostics_of, no_diagnostics, not_kept};
use crate::documents::{Document, Documents, LinePlace};
use crate::hovering::hover;
use crate::labels::{definition, references, renamed};
use crate::laying_out::layout;
use crate::symbols::symbols;
use editor_wire::Json;
use language_messages::{
    Connection, LanguageNotice, LanguageQuestion, Notification, Parameters, Refusal, RefusalKind,
    Request, TextQuestion,
};
use std::alloc::{AllocError, Global};

/// The notification that reports diagnostics.
const PUBLISH: &str = "textDocument/publishDiagnostics";

/// What comes after a message.
#[derive(Clone, Copy, Debug, PartialEq, Eq)]
pub enum LanguageFlow {
    /// The next one.
    On,
    /// The end.
    End,
}

/// How far a session is.
#[derive(Clone, Copy, Debug, PartialEq, Eq)]
enum Stage {
    /// `initialize` has not come.
    Begun,
    /// Anything may be asked.
    Running,
    /// `shutdown` has come.
    ShutDown,
}

/// A session of a client.
#[derive(Drop)]
pub struct LanguageServer {
    alloc: Global,
    stage: Stage,
    documents: Documents,
}

impl LanguageServer {
    /// A session in which nothing has come.
    pub fn new(alloc: Global) -> LanguageServer {
        LanguageServer {
            alloc,
            stage: Stage::Begun,
            documents: Documents::new(alloc),
        }
    }

    /// Whether the client has asked to be asked nothing more, before it ends.
    pub fn is_shut_down(&self) -> bool {
        self.stage == Stage::ShutDown
    }

    /// Whether texts have changed whose diagnostics are still to be sent.
    pub fn has_due(&self) -> bool {
        self.documents.has_due()
    }

    /// Answers a request: by one response, which has its id.
    pub fn answer(
        &mut self,
        connection: &mut Connection,
        request: &Request,
    ) -> Result<(), AllocError>
        ensures one { OnOk result (SendsResponse connection.old.outbox connection.new.outbox (string_bytes request.now.id)) }
    {
        let alloc = self.alloc;
        let id = request.id.as_str();
        match self.result_of(request) {
            Ok(result) => connection.respond(alloc, id, &result),
            Err(Refusal { kind, words }) => connection.refuse(alloc, id, kind, words),
        }
    }

    /// Takes a notification in, and answers nothing to it.
    #[tactic(auto, using(language_messages::proofs::Sending::nothing_sent))]
    pub fn note(
        &mut self,
        connection: &mut Connection,
        notification: &Notification,
    ) -> Result<LanguageFlow, AllocError>
        ensures none { SendsNoResponse connection.old.outbox connection.new.outbox }
    {
        let told = match notification.notice {
            Some(LanguageNotice::Exit) => return Ok(LanguageFlow::End),
            Some(notice) if self.stage == Stage::Running => {
                self.noted(notice, &notification.parameters)?
            }
            Some(_) | None => None,
        };
        report_some(self.alloc, connection, told.as_ref())?;
        Ok(LanguageFlow::On)
    }

    /// Sends the diagnostics of a text that has changed, if there is one.
    #[tactic(auto, using(language_messages::proofs::Sending::nothing_sent))]
    pub fn check_one(&mut self, connection: &mut Connection) -> Result<(), AllocError>
        ensures none { SendsNoResponse connection.old.outbox connection.new.outbox }
    {
        let alloc = self.alloc;
        match self.documents.take_due() {
            Some(document) => {
                let messages = document.checked(alloc)?;
                let parameters = diagnostics_of(alloc, document, &messages)?;
                document.messages = Some(messages);
                connection.notify(alloc, PUBLISH, &parameters)
            }
            None => Ok(()),
        }
    }

    /// The result of a request, or why it is refused.
    fn result_of(&mut self, request: &Request) -> Result<Json, Refusal> {
        match (request.question, self.stage) {
            (Err(RefusalKind::NotJson), _) => Err(refusal(RefusalKind::NotJson)),
            (Err(RefusalKind::NotNow), _) => Err(refusal(RefusalKind::NotNow)),
            (Ok(LanguageQuestion::Initialize), Stage::Begun) => {
                self.stage = Stage::Running;
                Ok(capabilities(self.alloc))
            }
            (_, Stage::Begun) => Err(refusal(RefusalKind::NotInitialized)),
            (_, Stage::ShutDown) => Err(refusal(RefusalKind::NotNow)),
            (Ok(LanguageQuestion::Initialize), Stage::Running) => {
                Err(refusal(RefusalKind::NotNow))
            }
            (Ok(LanguageQuestion::Shutdown), Stage::Running) => {
                self.stage = Stage::ShutDown;
                Ok(Json::new(self.alloc))
            }
            (Ok(LanguageQuestion::Text(question)), Stage::Running) => {
                self.of_text(question, &request.parameters)
            }
            (Err(kind), Stage::Running) => Err(refusal(kind)),
        }
    }

    /// What is answered of a text.
    fn of_text(&self, question: TextQuestion, parameters: &Parameters) -> Result<Json, Refusal> {
        let alloc = self.alloc;
        let Some(document) = parameters.uri().and_then(|uri| self.documents.called(uri)) else {
            return Err(Refusal::of_parameters("no such text is open"));
        };
        match question {
            TextQuestion::DocumentSymbol => Ok(symbols(alloc, document)?),
            TextQuestion::Formatting => Ok(layout(alloc, document)?),
            TextQuestion::CodeAction => match parameters.lines() {
                Some(lines) => Ok(actions(alloc, document, lines, parameters.takes_quick_fixes())?),
                None => Err(refusal(RefusalKind::Parameters)),
            },
            TextQuestion::Hover
            | TextQuestion::Completion
            | TextQuestion::Definition
            | TextQuestion::References
            | TextQuestion::Rename => {
                let place = place_asked(document, parameters)?;
                of_place(alloc, question, document, place, parameters)
            }
        }
    }

    /// Takes in what a notification says of a text. The parameters of the diagnostics that are sent at once, if there are
    /// some. Wrong parameters change nothing.
    fn noted(
        &mut self,
        notice: LanguageNotice,
        parameters: &Parameters,
    ) -> Result<Option<Json>, AllocError> {
        let alloc = self.alloc;
        let Some(uri) = parameters.uri() else {
            return Ok(None);
        };
        match notice {
            LanguageNotice::DidOpen => match parameters.opened() {
                Some(text) => self.opened(uri, parameters.version(), text),
                None => Ok(None),
            },
            LanguageNotice::DidChange => match parameters.changed() {
                Some(text) if self.documents.called(uri).is_some() => {
                    self.opened(uri, parameters.version(), text)
                }
                Some(_) | None => Ok(None),
            },
            LanguageNotice::DidClose => {
                self.documents.close(uri);
                Ok(Some(no_diagnostics(alloc, uri)))
            }
            LanguageNotice::Exit => Ok(None),
        }
    }

    /// Takes a text in. What is said where it is not kept.
    fn opened(
        &mut self,
        uri: &str,
        version: Option<i64>,
        text: &str,
    ) -> Result<Option<Json>, AllocError> {
        let alloc = self.alloc;
        if self
            .documents
            .put(Document::of(alloc, uri, version, text)?)?
        {
            Ok(None)
        } else {
            Ok(Some(not_kept(alloc, uri, version)?))
        }
    }
}

/// Sends diagnostics, where there are some.
#[tactic(auto, using(language_messages::proofs::Sending::nothing_sent))]
fn report_some(
    alloc: Global,
    connection: &mut Connection,
    parameters: Option<&Json>,
) -> Result<(), AllocError>
    ensures none { SendsNoResponse connection.old.outbox connection.new.outbox }
{
    match parameters {
        Some(parameters) => connection.notify(alloc, PUBLISH, parameters),
        None => Ok(()),
    }
}

/// A refusal of a kind, in fixed words.
fn refusal(kind: RefusalKind) -> Refusal {
    let words = match kind {
        RefusalKind::NotJson => "this is no JSON, or is longer than is taken",
        RefusalKind::NotNow => "this is no request, or it may not come now",
        RefusalKind::NoMethod => "there is no such method here",
        RefusalKind::Parameters => "these are not the parameters of this method",
        RefusalKind::NotInitialized => "initialize comes first",
        RefusalKind::NoMemory => "no memory",
    };
    Refusal { kind, words }
}

/// The place that a request asks of.
fn place_asked<'t>(
    document: &'t Document,
    parameters: &Parameters,
) -> Result<LinePlace<'t>, Refusal> {
    let Some(position) = parameters.position() else {
        return Err(refusal(RefusalKind::Parameters));
    };
    document
        .place(position)
        .ok_or(Refusal::of_parameters("the text has no such line"))
}

/// What is answered of a place.
fn of_place(
    alloc: Global,
    question: TextQuestion,
    document: &Document,
    place: LinePlace,
    parameters: &Parameters,
) -> Result<Json, Refusal> {
    match question {
        TextQuestion::Completion => Ok(completion(alloc, document, place)?),
        TextQuestion::Definition => Ok(definition(alloc, document, place)?),
        TextQuestion::References => {
            let wanted = parameters.wants_declaration();
            Ok(references(alloc, document, place, wanted)?)
        }
        TextQuestion::Rename => match parameters.text("newName") {
            Some(new) => renamed(alloc, document, place, new),
            None => Err(refusal(RefusalKind::Parameters)),
        },
        TextQuestion::Hover
        | TextQuestion::DocumentSymbol
        | TextQuestion::Formatting
        | TextQuestion::CodeAction => Ok(hover(alloc, document, place)?),
    }
}
