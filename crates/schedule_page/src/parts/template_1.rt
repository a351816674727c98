//! A text of the page: `page/play/play.html.template`. Made by `page/embed.py`.

pub(crate) const TEXT: &str = r#"<!doctype html>
<html lang="en">
<head>
<meta charset="utf-8">
<meta http-equiv="Content-Security-Policy"
 content="default-src 'none'; script-src 'sha256-6lyZeyvCePRCZST3OEisTagI/pHOeGDjq+bu0O2NZL4='; style-src 'sha256-PenuSv2Wnl7lmlt5cVbIwO1lkCsqzqJ/PapnhXsUgqM=';
 base-uri 'none'; form-action 'none'">
<meta name="viewport" content="width=device-width, initial-scale=1">
<meta name="color-scheme" content="light dark">
<title>"#;
