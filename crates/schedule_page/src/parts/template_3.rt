//! A text of the page: `page/play/play.html.template`. Made by `page/embed.py`.

pub(crate) const TEXT: &str = r##"</style>
</head>
<body>
<a class="skip" href="#" id="skip">To the steps you can choose</a>
<header id="top">
  <p class="name"><b id="program"></b> <span id="counted"></span></p>
  <h1>You are the scheduler</h1>
  <p id="lead"></p>
</header>

<div id="goals" role="group" aria-label="What you try to reach"></div>

<div id="controls" role="toolbar" aria-label="Your schedule">
  <div class="group">
    <button id="reset" title="Start again (Home)"><svg viewBox="0 0 16 16" aria-hidden="true"><path
      d="M3 3h2v10H3zM13 3v10L6 8z"/></svg><span>Start again</span></button>
    <button id="undo" title="Undo (&larr;)"><svg viewBox="0 0 16 16" aria-hidden="true"><path
      d="M11 3v10L4 8z"/></svg><span>Undo</span></button>
    <button id="redo" title="Redo (&rarr;)"><span>Redo</span><svg viewBox="0 0 16 16" aria-hidden="true"><path
      d="M5 3v10l7-5z"/></svg></button>
  </div>
  <output id="where"></output>
  <button id="hint" title="A next step on a shortest way to the goal (h)">Hint</button>
  <button id="vote" aria-pressed="false" title="Vote on the next step (v)" hidden>Vote</button>
  <button id="ahead" aria-pressed="true" title="Show which ends can still be reached (b)">What can still come</button>
  <div class="group">
    <button id="lecture" aria-pressed="false" title="Large, for a lecture (l)">Lecture</button>
    <button id="hex" aria-pressed="false" title="Hexadecimal numbers (x)">hex</button>
    <button id="copy" title="This way as a link and as a schedule (c)">Copy</button>
    <button id="help" aria-label="Keys and signs" title="Keys and signs (?)">?</button>
  </div>
</div>

<main>
  <section id="play" aria-label="Your schedule">
    <div id="happened" aria-live="polite"><p id="told"></p><div id="result" hidden></div></div>
    <div class="row"><h2 id="choices-title">Who takes the next step?</h2><p id="only"></p></div>
    <div id="choices" role="group" aria-labelledby="choices-title"></div>
    <p id="skipping" hidden><span id="quiet" class="muted"></span> <button type="button" id="skip-on" class="show"
      title="Take steps until a choice changes what can still come (n)"></button></p>
    <p id="others" class="muted"></p>
    <div id="way">
      <h2 id="way-title">Your way so far</h2>
      <div id="lanes"><div id="heads" aria-hidden="true"></div>
        <div id="scroll" tabindex="0" role="img" aria-labelledby="way-title"><div id="track"></div></div></div>
      <ol id="spoken" class="unseen" aria-label="The steps of your way"></ol>
    </div>
  </section>
  <section id="source" aria-labelledby="source-title">
    <h2 id="source-title">Source</h2>
    <div id="lines" class="pane" role="group" aria-labelledby="source-title" tabindex="0"></div>
  </section>
  <section id="state" aria-label="The state of the machine here">
    <div class="pane" tabindex="0" role="region" aria-label="Ends, map, words and streams">
      <div id="ends"></div>
    <div id="map">
      <h2 id="map-title"></h2>
      <div id="graph" role="img" aria-labelledby="map-title"></div>
      <div id="legend"></div>
      <p id="explored" class="muted"></p>
    </div>
      <div id="words"></div><div id="streams"></div></div>
  </section>
</main>

<dialog id="keys" aria-labelledby="keys-title">
  <h2 id="keys-title">Keys</h2>
  <table><tbody>
    <tr><td><kbd>1</kbd> .. <kbd>9</kbd></td><td>take a step of this stream</td></tr>
    <tr><td><kbd>&larr;</kbd> <kbd>&rarr;</kbd></td><td>undo a step, do it again</td></tr>
    <tr><td><kbd>Home</kbd> <kbd>End</kbd></td><td>start again; do all again that was undone</td></tr>
    <tr><td><kbd>h</kbd></td><td>a hint: the next step on a shortest way to the goal</td></tr>
    <tr><td><kbd>b</kbd></td><td>show or hide what can still come</td></tr>
    <tr><td><kbd>n</kbd></td><td>skip to the next choice, where none changes what can still come</td></tr>
    <tr><td><kbd>l</kbd></td><td>large, for a lecture: the choices, the lanes and the map</td></tr>
    <tr><td><kbd>v</kbd></td><td>vote: the numbers count votes, and <kbd>v</kbd> takes the step that has most of
      them</td></tr>
    <tr><td><kbd>Space</kbd></td><td>pause or go on, while a way is shown</td></tr>
    <tr><td><kbd>c</kbd></td><td>this way as a link and as a schedule</td></tr>
    <tr><td><kbd>x</kbd></td><td>hexadecimal or decimal numbers</td></tr>
    <tr><td><kbd>?</kbd></td><td>these keys</td></tr>
  </tbody></table>
  <p>A click on a step of your way goes back to it; one on a state of the map goes there. Every schedule of the page
    leads only to places of the map, and what is crossed out can&rsquo;t be reached by any schedule from there on.</p>
  <form method="dialog"><button>Close</button></form>
</dialog>
<dialog id="texts" aria-labelledby="texts-title">
  <h2 id="texts-title">Your schedule</h2>
  <p><label for="as-schedule">For <code>mta_sim run</code> and <code>mta_lab view</code>, a line <code>processor stream
    steps</code> each:</label></p>
  <textarea id="as-schedule" readonly rows="7"></textarea>
  <p><label for="as-link">A link that opens this position:</label></p>
  <textarea id="as-link" readonly rows="3"></textarea>
  <p><label for="as-result">The result, for a mail or a form:</label></p>
  <textarea id="as-result" readonly rows="5"></textarea>
  <p id="copied" role="status"></p>
  <form method="dialog"><button type="button" id="copy-schedule">Copy the schedule</button>
    <button type="button" id="copy-link">Copy the link</button>
    <button type="button" id="copy-result">Copy the result</button> <button>Close</button></form>
</dialog>
<script type="application/json" id="graph-data">"##;
