//! A text of the page: `page/page.html.template`. Made by `page/embed.py`.

pub(crate) const TEXT: &str = r##"</style>
</head>
<body>
<a class="skip" href="#trace">To the steps as a table</a>
<header id="end" aria-label="How the run ended"></header>

<div id="controls" role="toolbar" aria-label="Position in the run">
  <div class="group">
    <button id="first" aria-label="First position" title="First (Home)">
      <svg viewBox="0 0 16 16" aria-hidden="true"><path d="M3 3h2v10H3zM13 3v10L6 8z"/></svg></button>
    <button id="back" aria-label="One step back" title="Back (&larr;)">
      <svg viewBox="0 0 16 16" aria-hidden="true"><path d="M11 3v10L4 8z"/></svg></button>
    <button id="play" aria-label="Play" aria-pressed="false" title="Play (space)">
      <svg viewBox="0 0 16 16" aria-hidden="true"><path class="go" d="M4 2.5v11l9-5.5z"/><path class="halt"
        d="M4 3h3v10H4zM9 3h3v10H9z"/></svg></button>
    <button id="on" aria-label="One step on" title="On (&rarr;)">
      <svg viewBox="0 0 16 16" aria-hidden="true"><path d="M5 3v10l7-5z"/></svg></button>
    <button id="last" aria-label="Last position" title="Last (End)">
      <svg viewBox="0 0 16 16" aria-hidden="true"><path d="M11 3h2v10h-2zM3 3v10l7-5z"/></svg></button>
  </div>
  <input id="slider" type="range" min="0" aria-label="Position">
  <output id="where" for="slider"></output>
  <div class="group">
    <button id="narrower" aria-label="Narrower steps" title="Narrower (-)">&minus;</button>
    <button id="wider" aria-label="Wider steps" title="Wider (+)">+</button>
  </div>
  <div class="group">
    <button id="hex" aria-pressed="false" title="Hexadecimal numbers (x)">hex</button>
    <button id="fold" hidden title="Fold alike steps again (f)">fold</button>
    <button id="export" title="Save the lanes as a picture (s)">SVG</button>
    <button id="help" aria-label="Keys" title="Keys (?)">?</button>
  </div>
</div>

<main>
  <section id="lanes" aria-labelledby="lanes-title">
    <h2 id="lanes-title" class="unseen">Streams and words over time</h2>
    <p id="told" aria-live="polite"></p>
    <div id="timeline">
      <div id="ruler"><div id="corner">step</div><div id="numbers"></div></div>
      <div id="chart">
        <div id="heads" role="group" aria-label="Streams and words"></div>
        <div id="scroll" tabindex="0" role="group" aria-label="Lanes; the tables below have the same in words">
          <div id="track"><svg id="span" height="1" aria-hidden="true"></svg><div id="picture"></div></div>
        </div>
      </div>
    </div>
    <div id="legend" role="group" aria-label="What the signs mean"></div>
    <div id="why" tabindex="-1" role="region" aria-labelledby="why-title" hidden></div>
    <div id="trace" tabindex="0" role="region" aria-label="Steps, waits and streams as tables">
      <button id="earlier" class="more" hidden></button>
      <table id="steps"></table>
      <button id="later" class="more" hidden></button>
      <table id="waits"></table>
      <table id="streams"></table>
    </div>
  </section>
  <section id="source" aria-labelledby="source-title">
    <h2 id="source-title">Source</h2>
    <div id="lines" class="pane" role="group" aria-labelledby="source-title"></div>
  </section>
  <section id="state" aria-label="State at this position">
    <div class="pane"><div id="stream"></div><div id="words"></div></div>
  </section>
</main>

<div id="paper" aria-hidden="true"></div>

<dialog id="keys" aria-labelledby="keys-title">
  <h2 id="keys-title">Keys</h2>
  <table><tbody>
    <tr><td><kbd>&larr;</kbd> <kbd>&rarr;</kbd></td><td>one step back, one step on</td></tr>
    <tr><td><kbd>Shift</kbd> <kbd>&larr;</kbd> <kbd>&rarr;</kbd></td><td>this stream's last or next step</td></tr>
    <tr><td><kbd>&uarr;</kbd> <kbd>&darr;</kbd></td><td>choose the stream above or below</td></tr>
    <tr><td><kbd>Esc</kbd></td><td>let the chosen stream, word and line go, and the chain of a value</td></tr>
    <tr><td><kbd>Home</kbd> <kbd>End</kbd></td><td>the start, the end</td></tr>
    <tr><td><kbd>,</kbd> <kbd>.</kbd></td><td>last or next step that touches the chosen word or is of the chosen line;
      else that waits, traps or is part of a finding</td></tr>
    <tr><td><kbd>Space</kbd></td><td>play, pause</td></tr>
    <tr><td><kbd>+</kbd> <kbd>-</kbd> <kbd>0</kbd></td><td>wider, narrower, fitting steps</td></tr>
    <tr><td><kbd>Enter</kbd></td><td>open the folded steps here; <kbd>f</kbd> folds all again</td></tr>
    <tr><td><kbd>w</kbd></td><td>why: the steps that the chosen word's value comes from, else what this step
      wrote</td></tr>
    <tr><td><kbd>x</kbd></td><td>hexadecimal or decimal numbers</td></tr>
    <tr><td><kbd>s</kbd></td><td>save the lanes as a picture</td></tr>
    <tr><td><kbd>?</kbd></td><td>these keys</td></tr>
  </tbody></table>
  <p>Click a step to go there, a stream to keep it at the right, a word or a line to mark its steps, a value to see the
    steps that it comes from. A link to a
    position ends in <code>#17</code>, and with a stream kept in <code>#17.2.0</code>.</p>
  <form method="dialog"><button>Close</button></form>
</dialog>
<script type="application/json" id="run">"##;
