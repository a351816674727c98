//! A text of the page: `page/play/play.html.template`. Made by `page/embed.py`.

pub(crate) const TEXT: &str = r#"</title>
<style>"#;
