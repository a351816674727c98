//! A text of the page: `page/play/graph.js`. Made by `page/embed.py`.

pub(crate) const TEXT: &str =
    r#"// The page on which the reader is the scheduler. #graph-data holds every state that any schedule of the program reaches
// (docs/PLAY.md has its form), and the page goes from state to state along recorded steps. It computes nothing of the
// machine.

const data = JSON.parse(byId("graph-data").textContent);
const head = data; // the program, its source and data, for what all pages name by it
const view = { at: 0, hex: false, ahead: true, goal: null, waiter: null, hints: 0, hinted: null, told: null, timer: 0,
  shown: null, lecture: false, vote: null, ballots: [], voted: "" };

const count = (n, one, many) => (n === 1 ? `1 ${one}` : `${n.toLocaleString("en")} ${many}`);
const steps = (n) => count(n, "step", "steps");
const words = (nodes) => nodes.map((node) => node.textContent ?? node).join("");

// ---------------------------------------------------------------- the graph

const DIGITS = "0123456789ABCDEFGHIJKLMNOPQRSTUVWXYZabcdefghijklmnopqrstuvwxyz-_";
const digitOf = new Uint8Array(128);
for (let i = 0; i < 64; i++) digitOf[DIGITS.charCodeAt(i)] = i;

function unpack([width, text]) {
  const out = new Int32Array(text.length / width);
  for (let i = 0, at = 0; i < out.length; i++) {
    let n = 0;
    for (const end = at + width; at < end; at++) n = n * 64 + digitOf[text.charCodeAt(at)];
    out[i] = n;
  }
  return out;
}

const N = data.counted.states;
/** How many steps of the program come before state 0, and how the sentences about all schedules say so. */
const begunSteps = data.begin.split("\n").reduce((sum, line) => sum + Number(line.split(" ")[2] ?? 0), 0);
const begins = begunSteps ? " that begins so" : "";
const names = data.streams;
const sharedOf = unpack(data.states.shared); // of each state, what is shared
const held = data.states.streams.map(unpack); // of each stream, what it holds in each state
const leads = data.states.to.map(unpack); // of each stream, the state that its step leads to
const depthOf = unpack(data.states.depth); // the fewest steps from the start
const aheadOf = unpack(data.states.ahead); // which set of ends is still to come

const content = (w, k) => data.contents[held[k][w]];
const runs = (w, k) => content(w, k).status === "running";
const shared = (w) => data.shared[sharedOf[w]];
const endsAhead = (w) => data.sets[aheadOf[w]];

const shownWords = data.start.memory.flatMap(([many, value, tags]) => Array(many).fill([value, tags]));
const wordMaps = new Map();

/** The words of a state that differ from the start, by address. */
function wordMap(w) {
  const at = sharedOf[w];
  if (!wordMaps.has(at)) wordMaps.set(at, new Map(data.shared[at].words.map(([a, value, tags]) =>
    [a, [value, tags]])));
  return wordMaps.get(at);
}
const startWord = (a) => shownWords[a / 8] ?? ["0", 0];
const wordAt = (w, a) => wordMap(w).get(a) ?? startWord(a);

/** What a stream's step here does that the two states don't say: outcome, operation, control, word, given, reply. */
function recordOf(w, k) {
  const row = data.does[held[k][w]];
  if (!Array.isArray(row)) return data.steps[row];
  for (let i = 0; i < row.length; i += 2) if (row[i] === sharedOf[w]) return data.steps[row[i + 1]];
  return undefined;
}

const endIn = new Map(); // state: the first end that it is, or that it is in
data.ends.forEach((end, e) => end.states.forEach((w) => endIn.has(w) || endIn.set(w, e)));

/** Of each state the fewest steps to each end, -1 if none leads there: from the ends backwards along the steps. */
function distances() {
  const first = new Int32Array(N + 1);
  for (const to of leads) for (let w = 0; w < N; w++) if (to[w] !== w) first[to[w] + 1]++;
  for (let w = 0; w < N; w++) first[w + 1] += first[w];
  const from = new Int32Array(first[N]);
  const next = first.slice();
  for (const to of leads) for (let w = 0; w < N; w++) if (to[w] !== w) from[next[to[w]]++] = w;
  const queue = new Int32Array(N);
  return data.ends.map((end) => {
    const out = new Int32Array(N).fill(-1);
    let last = 0;
    for (const w of end.states) {
      out[w] = 0;
      queue[last++] = w;
    }
    for (let i = 0; i < last; i++) {
      for (let at = first[queue[i]]; at < first[queue[i] + 1]; at++) {
        if (out[from[at]] >= 0) continue;
        out[from[at]] = out[queue[i]] + 1;
        queue[last++] = from[at];
      }
    }
    return out;
  });
}
const toGo = distances();

let isEndless = null; // once it is known

/** Whether a schedule may go on forever: steps lead through some state again and again, or one that is done leads to
  its own state. Tries that are blocked are not steps that go on. */
function runsForever() {
  isEndless ??= hasLoop();
  return isEndless;
}

function hasLoop() {
  const entries = new Int32Array(N);
  for (const to of leads) for (let w = 0; w < N; w++) if (to[w] !== w) entries[to[w]]++;
  const order = []; // the states that no cycle leads to
  for (let w = 0; w < N; w++) if (!entries[w]) order.push(w);
  for (let i = 0; i < order.length; i++) {
    for (const to of leads) {
      const v = to[order[i]];
      if (v !== order[i] && --entries[v] === 0) order.push(v);
    }
  }
  const isLoop = (w) => names.some((_, k) => leads[k][w] === w && runs(w, k) && recordOf(w, k)[0] !== "blocked");
  return order.length < N || order.some(isLoop);
}

/** The streams of a shortest way from a state to an end. */
function shortestWay(w, e) {
  const way = [];
  while (toGo[e][w] > 0) {
    const k = leads.findIndex((to) => toGo[e][to[w]] === toGo[e][w] - 1);
    way.push(k);
    w = leads[k][w];
  }
  return way;
}
"#;
