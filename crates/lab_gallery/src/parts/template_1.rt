//! A text of the page: `page/gallery/gallery.html.template`. Made by `page/embed.py`.

pub(crate) const TEXT: &str = r#"<!doctype html>
<html lang="en">
<head>
<meta charset="utf-8">
<meta http-equiv="Content-Security-Policy"
 content="default-src 'none'; script-src 'sha256-b5bUULOf9z/O9oCb8Rmz1lJ3xD83hA0Vvlv3fC9lgJ0='; style-src 'sha256-OrYBDNYxp0JEeCTbfQiCA1iJmiSryVfjUljqLv6lxDA=';
 base-uri 'none'; form-action 'none'">
<meta name="viewport" content="width=device-width, initial-scale=1">
<meta name="color-scheme" content="light dark">
<title>"#;
