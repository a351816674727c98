//! A text of the page: `page/start.js`. Made by `page/embed.py`.

pub(crate) const TEXT: &str =
    r#"// ---------------------------------------------------------------- the page of one run begins

makeRun();
byId("heads").replaceChildren(...makeHeads());
begin();
if (!followLink()) goTo(stepThatMatters());
"#;
