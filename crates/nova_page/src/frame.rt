//! The frame of a page, written by page/make.

use nv_lines::Message;

/// Appends the elements that the script fills.
pub fn push_frame(out: &mut Message) {
    out.put(FRAME)
}

const FRAME: &str = r#"</style>
</head>
<body>
<div id="page">
<header><h1 id="title"></h1><span id="summary-line"></span><span id="trust" role="status"></span><span id="runs" role="tablist" aria-label="memory texts" hidden></span></header>
<main>
<section aria-label="Source"><h2>Source <span class="aside" id="source-aside"></span></h2><div class="scroll" tabindex="0"><div class="code" id="source-rows"></div></div></section>
<section aria-label="Code"><h2>Code <span class="aside" id="code-aside"></span>
<label class="switch"><input type="checkbox" id="with-form">single-use form</label></h2><div class="scroll" tabindex="0"><div class="code" id="code-rows"></div></div></section>
<section aria-label="Packet" id="packet"><h2>Packet <span class="aside">before and after</span><span id="memories-choice" class="switch"></span></h2>
<div class="scroll" tabindex="0"><div id="given"></div><div id="bytes"></div><table id="fields"></table>
<div id="layout-choice"><label>Layout <select id="layout"></select></label> <label>at word <input id="layout-at" type="number" min="0" value="0"></label></div>
<table id="layout-fields"></table></div></section>
</main>
<section aria-label="Time" id="time"><h2>Registers over time <span class="aside">a column is a step; bright where a register is written, pale while it is live</span></h2>
<div class="bar"><button id="back" aria-label="one step back">&#9664;</button><button id="on" aria-label="one step on">&#9654;</button>
<input id="step" type="range" min="0" value="0" aria-label="step"><span id="where"></span></div>
<canvas id="chart" role="img" aria-label="registers over time"></canvas><div id="key" class="key"></div></section>
<div class="more">
<details open id="labels"><summary>Labels</summary><div class="wide" id="graph"></div></details>
<details open><summary>Values and their banks</summary><p class="note" id="values-note"></p><div id="values"></div></details>
<details open class="sizes"><summary>Sizes</summary><pre id="sizes-text"></pre></details>
<details open id="ran"><summary>Outcome and profile</summary><pre id="outcome-text"></pre><pre id="profile-text"></pre></details>
<details open class="legend"><summary>How to read this page</summary><dl>
<dt>Code</dt><dd>Each instruction has its place, how often it ran, and a bar for that count.
<span class="mark between">moves between banks</span>, <span class="mark within">moves within a bank</span>, <span class="mark literal">literals</span> and
<span class="mark spill">spills</span> have a colour each. Point at one to read what it does, why a move is there, and what is live. A click goes to its first step and its line.</dd>
<dt>Source</dt><dd>A line with a coloured edge has an access, a <code>raise</code> or an end, and the instructions of its colour come from it. Its number is how often the code did that.
What ran is tied to the line where the interpreter of <code>nova</code> did it, if all accesses are the same: memory, address and count.
What no run came to is tied where one line alone may do such a thing. A dotted edge is one of several such lines. A click on a line or an instruction shows the other side.</dd>
<dt>Labels and values</dt><dd>A label has the name of the function that was in progress whenever a run came to it; <code>with f</code> says that what is tied in it comes from <code>f</code>. A value has a name where
<code>main</code> gets it, a <code>let</code> reads it, or it is written or raised by that name, in a line that is tied. Others have numbers.</dd>
<dt>Packet</dt><dd>Bytes before the run stand left, those after it right, and what differs is red. Point at a byte to read which steps read or wrote it. A click on a byte at the left changes it, and
runs the code again, by the engine of this page alone; so does a change of an argument. A click on one at the right goes to the step that wrote it.
A layout of the source or a header can be laid over any word: a click on a byte chooses it.</dd>
<dt>Registers</dt><dd><span class="r A">A</span> and <span class="r B">B</span> have 15 registers each for values. <span class="r L">L</span> and <span class="r LD">LD</span> hold what was read,
<span class="r S">S</span> and <span class="r SD">SD</span> what will be written. The strip above them shows how many values of A and B are live, and the band below it which label each step is in.</dd>
<dt>Links</dt><dd><code>#L42</code> is a line of the source, <code>#i27</code> an instruction.</dd>
<dt>Trust</dt><dd>Outcome, counts of labels, banks and sizes are texts of the program <code>nova</code>. The count of each instruction, the steps, the registers, and what is said of values and moves
are worked out by this page. They are shown where its outcome and its counts of labels are those of <code>nova</code>.</dd>
</dl></details>
</div>
<div id="tip" role="tooltip" hidden></div>
</div>
"#;
