//! A text of the page: `page/gallery/cards.js`. Made by `page/embed.py`.

pub(crate) const TEXT: &str =
    r#"// ---------------------------------------------------------------- the cards

/** The file of a page, as a link. */
const fileOf = (card, kind) => `${encodeURIComponent(card.name)}.${kind}.html`;
const linkTo = (href, text, card) => html("a", { href, "aria-label": `${text}: ${card.title}` }, text);

/** What a card's picture shows. */
function runText({ drawn, steps, fails, schedule }) {
  const all = `${steps} ${steps === 1 ? "step" : "steps"}`;
  const which = drawn.length < steps ? `The last ${drawn.length} of ${all}` : all;
  return `${which} of ${fails ? "a run that goes wrong" : `the run ${schedule}`}`;
}

/** A sentence, in which signs of code stand around code. */
const sentence = (text) => text.split("`").map((part, i) => (i % 2 ? code(part) : part));

function cardOf(card) {
  const links = [];
  if (card.play) links.push(linkTo(fileOf(card, "play"), "Play", card));
  if (card.shows) links.push(linkTo(fileOf(card, "run"), card.run.fails ? "Watch it fail" : "Watch a run", card));
  if (card.play) links.push(linkTo(`${fileOf(card, "play")}#ends`, "All ends", card));
  const notes = [...(card.program ? ["Shown: ", code(card.program), ". "] : []),
    ...(card.play ? [] : ["It has too many states for a page to play on."])];
  const picture = card.run ? [drawRun(card.run.drawn, runText(card.run))] : [];
  return html("li", { class: "card", id: `card-${card.name}` }, ...picture, html("h3", {}, card.title),
    html("p", {}, ...sentence(card.teaches)),
    ...(notes.length ? [html("p", { class: "ends" }, ...notes)] : []), html("p", { class: "links" }, ...links));
}

function showCards(kind, section, list) {
  const cards = data.cards.filter((card) => card.kind === kind);
  byId(section).hidden = !cards.length;
  byId(list).replaceChildren(...cards.map(cardOf));
}
showCards("exercise", "exercises", "exercise-cards");
showCards("example", "examples", "example-cards");
"#;
