//! A text of the page: `page/elements.js`. Made by `page/embed.py`.

pub(crate) const TEXT: &str = r#""use strict";
// What all pages are made of: elements, and names of several things. Text becomes text nodes, never markup.

const byId = (id) => document.getElementById(id);

const maker = (create) => (tag, attributes = {}, ...children) => {
  const node = create(tag);
  for (const [name, value] of Object.entries(attributes)) {
    if (value != null && value !== false) node.setAttribute(name, value);
  }
  node.append(...children);
  return node;
};
const html = maker((tag) => document.createElement(tag));
const svg = maker((tag) => document.createElementNS("http://www.w3.org/2000/svg", tag));
const code = (text) => html("code", {}, text);
const cut = (text, limit) => (text.length > limit ? `${text.slice(0, limit - 1)}…` : text);
const and = (names) => (names.length < 2 ? names.join("") : `${names.slice(0, -1).join(", ")} and ${names.at(-1)}`);
"#;
