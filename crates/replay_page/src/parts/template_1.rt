//! A text of the page: `page/page.html.template`. Made by `page/embed.py`.

pub(crate) const TEXT: &str = r#"<!doctype html>
<html lang="en">
<head>
<meta charset="utf-8">
<meta http-equiv="Content-Security-Policy"
 content="default-src 'none'; script-src 'sha256-mHNzUmDfHmSUmteqm8N/uCH2BI1oOJAW3JBGBet4McQ='; style-src 'sha256-rrOT+5P5hXXGAIq7zARiEOHMf/WXX0TcVp/1qj2+aRQ=';
 base-uri 'none'; form-action 'none'">
<meta name="viewport" content="width=device-width, initial-scale=1">
<meta name="color-scheme" content="light dark">
<title>"#;
