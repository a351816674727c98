//! A text of the page: `page/page.html.template`. Made by `page/embed.py`.

pub(crate) const TEXT: &str = r#"</script>
<script>"#;
