//! What can be asked for.

use editor_wire::Json;
use std::alloc::Global;

/// What can be asked for of a text, and needs nothing else to be said.
const PROVIDERS: [&str; 6] = [
    "hoverProvider",
    "definitionProvider",
    "referencesProvider",
    "documentSymbolProvider",
    "renameProvider",
    "documentFormattingProvider",
];

/// The result that says what can be asked for. Whole texts are sent at each change.
pub(crate) fn capabilities(alloc: Global) -> Json {
    let mut json = Json::new(alloc);
    json.open();
    json.key("capabilities");
    json.open();
    json.key("textDocumentSync");
    json.open();
    json.truth_of("openClose", true);
    json.number_of("change", 1);
    json.close();
    for provider in &PROVIDERS {
        json.truth_of(provider, true);
    }
    put_list_in(&mut json, "completionProvider", "triggerCharacters", ".");
    put_list_in(
        &mut json,
        "codeActionProvider",
        "codeActionKinds",
        "quickfix",
    );
    json.close();
    json.key("serverInfo");
    json.open();
    json.text_of("name", "mta_lab");
    json.close();
    json.close();
    json
}

/// Writes a member that is an object with a list of one text.
fn put_list_in(json: &mut Json, name: &str, list: &str, text: &str) {
    json.key(name);
    json.open();
    json.open_list(list);
    json.text(text);
    json.close_list();
    json.close();
}
