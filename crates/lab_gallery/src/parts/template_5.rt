//! A text of the page: `page/gallery/gallery.html.template`. Made by `page/embed.py`.

pub(crate) const TEXT: &str = r#"</script>
</body>
</html>
"#;
