//! A text of the page: `page/gallery/gallery.html.template`. Made by `page/embed.py`.

pub(crate) const TEXT: &str = r#"</style>
</head>
<body>
<header>
  <h1>You are the scheduler</h1>
  <p>Several streams run at once, and nothing says whose instruction comes next: on these pages you do. Find out how
    programs go wrong.</p>
</header>
<main>
  <section id="levels" aria-labelledby="levels-title" hidden>
    <h2 id="levels-title">Break it</h2>
    <p><span id="done"></span> <button type="button" id="forget" hidden>Begin again</button></p>
    <ol id="level-list"></ol>
  </section>
  <section id="exercises" aria-labelledby="exercises-title" hidden>
    <h2 id="exercises-title">Exercises</h2>
    <p>Of each exercise a wrong program, as one may write it.</p>
    <ul class="cards" id="exercise-cards"></ul>
  </section>
  <section id="examples" aria-labelledby="examples-title" hidden>
    <h2 id="examples-title">Examples</h2>
    <ul class="cards" id="example-cards"></ul>
  </section>
  <section aria-labelledby="signs-title">
    <h2 id="signs-title">The pictures</h2>
    <p>Each has the last steps of a run: a lane a stream, a column a step. <span id="signs"></span></p>
  </section>
</main>
<noscript>The cards of this page are made by its script. The pages stand beside it.</noscript>
<script type="application/json" id="gallery-data">"#;
