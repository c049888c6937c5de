//! What stands around the rows of a page.

/// What stands before the table, up to what tells that there are more rows.
pub(crate) const MIDDLE: &[u8] = br##"<section id="targets"><h2>Targets</h2>
<form role="search" hidden>
<label>Search <input name="word" type="search" autocomplete="off" spellcheck="false"></label>
<label><input name="deep" type="checkbox"> in records too</label>
<div class="words" role="group" aria-label="Outcomes"></div>
</form>
<p><output>"##;

/// From there on up to the rows.
pub(crate) const HEADS: &[u8] = br##"</output> <button type="button" id="only" hidden></button></p>
<div id="scroll" role="region" aria-label="Table of targets" tabindex="0">
<table>
<thead><tr><th scope="col">Path<th scope="col">Outcome<th scope="col">Bytes<th scope="col">Why begun
<tbody>
"##;

/// What stands behind the rows: the frame of the graph.
pub(crate) const FRAME: &[u8] = br##"</table>
</div>
</section>
<section id="graph" hidden><h2>Graph</h2>
<p class="hint">Each box stands left of what it needs. Click one to see what it needs and what needs it, two steps far,
and its rows in the table; <b>+</b> opens a box of many. Drag to move, Ctrl and the wheel to zoom. With keys: arrows,
<kbd>Enter</kbd> picks, <kbd>o</kbd> opens, <kbd>c</kbd> closes, <kbd>+</kbd> <kbd>-</kbd> <kbd>0</kbd> zoom.</p>
<div class="tools">
<button type="button" name="in" aria-label="Zoom in">+</button>
<button type="button" name="out" aria-label="Zoom out">&minus;</button>
<button type="button" name="fit">Fit</button>
<button type="button" name="back">Start over</button>
<output></output>
</div>
<figure></figure>
<div class="told"></div>
</section>
"##;

/// The same of the page of a list.
pub(crate) const LIST_FORM: &[u8] = br##"</div>
</dl>
</header>
<section id="targets">
<form role="search" hidden>
<label>Search <input name="word" type="search" autocomplete="off" spellcheck="false"></label>
<div class="words" role="group" aria-label="States"></div>
</form>
<p><output>"##;

pub(crate) const LIST_HEADS: &[u8] = br##"</output></p>
<div id="scroll" role="region" aria-label="Table of targets" tabindex="0">
<table class="list">
<thead><tr><th scope="col">Path<th scope="col">State<th scope="col">Why
<tbody>
"##;

/// What stands behind the rows, up to the data.
pub(crate) const LIST_END: &[u8] = br##"</table>
</div>
</section>
</main>
<script type="application/json" id="list">"##;
