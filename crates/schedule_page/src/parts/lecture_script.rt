//! A text of the page: `page/play/lecture.js`. Made by `page/embed.py`.

pub(crate) const TEXT: &str =
    r#"// ---------------------------------------------------------------- in a lecture: large, and by votes

/** How much larger the lanes and the map are drawn. */
const scale = () => (view.lecture ? 1.5 : 1);

/** A picture of so many units, as large as the page shows it. */
const picture = (kind, width, height, ...parts) => svg("svg", { class: kind, width: width * scale(),
  height: height * scale(), viewBox: `0 0 ${width} ${height}` }, ...parts);

function setLecture() {
  view.lecture = !view.lecture;
  if (!view.lecture) view.vote = null;
  show();
}

const votesCast = () => view.vote.reduce((sum, votes) => sum + votes, 0);
const votesFor = (k) => html("span", { class: "votes" }, count(view.vote[k], "vote", "votes"));

/** Begins a vote on the next step, or ends it. */
function vote() {
  if (view.vote) return closeVote();
  if (!ableIn(here()).length) return say([html("b", {}, "No step here changes anything,"), " so there is no vote."]);
  stop();
  view.vote = names.map(() => 0);
  view.ballots = [];
  return say([html("b", {}, "Vote."), " For each vote press the number of its stream. ", html("kbd", {}, "v"),
    " takes the step with the most votes; ", html("kbd", {}, "Backspace"), " takes a vote back, ",
    html("kbd", {}, "Esc"), " ends the vote without a step."]);
}

/** Counts a vote for the step of a stream. */
function castVote(k) {
  if (!names[k] || !canStep(here(), k)) return;
  view.vote[k]++;
  view.ballots.push(k);
  sayVotes();
}

function takeVoteBack() {
  const k = view.ballots.pop();
  if (k !== undefined) view.vote[k]--;
  sayVotes();
}

function stopVote() {
  view.vote = null;
  show();
}

const votedText = () => and(view.vote.flatMap((votes, k) => (votes ? [`${votes} for ${names[k]}`] : []))) || "none yet";
const sayVotes = () => say([html("b", {}, `${count(votesCast(), "vote", "votes")}: `), `${votedText()}.`]);

/** Takes the step that has the most votes, if one has. */
function closeVote() {
  const most = Math.max(...view.vote);
  const first = view.vote.indexOf(most);
  if (most === 0) return stopVote();
  if (view.vote.lastIndexOf(most) !== first) {
    return say([html("b", {}, "A tie: "), `${votedText()}. Vote on, or press `, html("kbd", {}, "Esc"), "."]);
  }
  view.voted = `By ${most} of ${count(votesCast(), "vote", "votes")}: `;
  view.vote = null;
  return take(first);
}

/** What a vote decided, before the step that it chose. */
const votedParts = () => (view.voted ? [html("b", {}, view.voted)] : []);
"#;
