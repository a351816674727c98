//! A text of the page: `page/page.html.template`. Made by `page/embed.py`.

pub(crate) const TEXT: &str = r#"<!doctype html>
<html lang="en">
<head>
<meta charset="utf-8">
<meta http-equiv="Content-Security-Policy"
 content="default-src 'none'; script-src 'sha256-+i9o5tZIFTCxSYqTnyWHZ3oWKdYQVNT6c0H9jJ3CtYQ='; style-src 'sha256-ymwDNMQeiOihZWG4Bgea9yaxtuzcEspZsFdh81HE2Pc=';
 base-uri 'none'; form-action 'none'">
<meta name="viewport" content="width=device-width, initial-scale=1">
<meta name="color-scheme" content="light dark">
<title>"#;
