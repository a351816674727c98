//! What requests and notifications are called.

/// What a request asks for.
#[derive(Clone, Copy, Debug, PartialEq, Eq)]
pub enum LanguageQuestion {
    /// What can be asked for here.
    Initialize,
    /// To be asked nothing more.
    Shutdown,
    /// Something of a text.
    Text(TextQuestion),
}

/// What a request asks for of a text.
#[derive(Clone, Copy, Debug, PartialEq, Eq)]
pub enum TextQuestion {
    /// What stands at a place.
    Hover,
    /// What may be written at a place.
    Completion,
    /// Where the label of a place stands.
    Definition,
    /// Where it stands and is used.
    References,
    /// All labels and named words.
    DocumentSymbol,
    /// Another name for a label.
    Rename,
    /// The one layout.
    Formatting,
    /// How messages may be mended.
    CodeAction,
}

/// What a notification says.
#[derive(Clone, Copy, Debug, PartialEq, Eq)]
pub enum LanguageNotice {
    /// That the program may end.
    Exit,
    /// That a text is opened.
    DidOpen,
    /// That it has changed.
    DidChange,
    /// That it is closed.
    DidClose,
}

/// What requests are called.
const QUESTIONS: [(&str, LanguageQuestion); 10] = [
    ("initialize", LanguageQuestion::Initialize),
    ("shutdown", LanguageQuestion::Shutdown),
    (
        "textDocument/hover",
        LanguageQuestion::Text(TextQuestion::Hover),
    ),
    (
        "textDocument/completion",
        LanguageQuestion::Text(TextQuestion::Completion),
    ),
    (
        "textDocument/definition",
        LanguageQuestion::Text(TextQuestion::Definition),
    ),
    (
        "textDocument/references",
        LanguageQuestion::Text(TextQuestion::References),
    ),
    (
        "textDocument/documentSymbol",
        LanguageQuestion::Text(TextQuestion::DocumentSymbol),
    ),
    (
        "textDocument/rename",
        LanguageQuestion::Text(TextQuestion::Rename),
    ),
    (
        "textDocument/formatting",
        LanguageQuestion::Text(TextQuestion::Formatting),
    ),
    (
        "textDocument/codeAction",
        LanguageQuestion::Text(TextQuestion::CodeAction),
    ),
];

/// What notifications are called.
const NOTICES: [(&str, LanguageNotice); 4] = [
    ("exit", LanguageNotice::Exit),
    ("textDocument/didOpen", LanguageNotice::DidOpen),
    ("textDocument/didChange", LanguageNotice::DidChange),
    ("textDocument/didClose", LanguageNotice::DidClose),
];

/// What a request of this name asks for; None where nothing is called so here.
pub(crate) fn question_called(name: &str) -> Option<LanguageQuestion> {
    question_among(&QUESTIONS, name)
}

/// The question among these that is called so.
fn question_among(questions: &[(&str, LanguageQuestion)], name: &str) -> Option<LanguageQuestion> {
    for (known, question) in questions {
        if *known == name {
            return Some(*question);
        }
    }
    None
}

/// What a notification of this name says; None where nothing is called so here.
pub(crate) fn notice_called(name: &str) -> Option<LanguageNotice> {
    notice_among(&NOTICES, name)
}

/// The notice among these that is called so.
fn notice_among(notices: &[(&str, LanguageNotice)], name: &str) -> Option<LanguageNotice> {
    for (known, notice) in notices {
        if *known == name {
            return Some(*notice);
        }
    }
    None
}
