//! The style of a page.
//! `bin/dev/page` writes its digest into the policy of the head.

pub(crate) const STYLE: &[u8] = br##"
:root { color-scheme: light; --paper: #fff; --ink: #1b1b1b; --dim: #5f6368; --rule: #dcdcd8; --soft: #f4f4f0;
  --link: #0a55a3; --failed: #b00020; --blocked: #9c4058; --cyclic: #9a4d00; --built: #0a6b3b; --same: #0a6070 }
@media screen and (prefers-color-scheme: dark) {
  :root { color-scheme: dark; --paper: #16181b; --ink: #dededa; --dim: #a2a6aa; --rule: #3a3d42; --soft: #202327;
    --link: #86b7f0; --failed: #ff8279; --blocked: #dc96a2; --cyclic: #f0a54e; --built: #63c98f; --same: #5cc3d2 }
}
* { box-sizing: border-box }
html { overflow-anchor: none }
body { margin: 0; background: var(--paper); color: var(--ink); font: 1rem/1.5 system-ui, sans-serif }
main { max-width: 80rem; margin: auto; padding: 1.25rem 1.5rem 4rem }
h1 { margin: 0; font-size: 1.6rem; line-height: 1.25 }
h2 { margin: 2rem 0 .5rem; font-size: 1.15rem }
h3 { margin: 0; font-size: 1rem; font-weight: 600 }
p { margin: .25rem 0 }
a { color: var(--link) }
a, bdi, pre, dd, summary { overflow-wrap: anywhere; unicode-bidi: isolate; white-space: pre-wrap; font-size: .875rem;
  font-family: ui-monospace, Menlo, Consolas, "DejaVu Sans Mono", monospace }
.go a, td a, .sum dd, .told p a { font: inherit }
:focus-visible { outline: 2px solid var(--link); outline-offset: 1px }
[hidden] { display: none !important }

/* What happened, and to how many. */
.failed, .lost, .unknown { color: var(--failed) } .blocked { color: var(--blocked) }
.cyclic, .ring { color: var(--cyclic) } .built, .new { color: var(--built) } .same, .stale { color: var(--same) }
.kept, .maybe, .source, .none { color: var(--dim) }
.sign { display: inline-block; width: 1.1em; text-align: center }
.bar { display: flex; gap: 2px; height: 10px; margin: .6rem 0 .4rem; print-color-adjust: exact }
.bar i { min-width: 6px; background: currentColor; border-radius: 2px }
.bar .kept, .bar .maybe, .bar .source { color: var(--rule) }
.run { display: flex; flex-wrap: wrap; gap: .1rem 1.25rem; color: var(--dim) }
.run bdi { color: var(--ink) }
.request bdi:not(:last-of-type)::after { content: "," }
.sum { display: flex; flex-wrap: wrap; gap: .1rem 1.25rem; margin: .4rem 0 }
.sum div { display: flex; gap: .4em }
.sum dt { color: inherit }
.sum dt, .sum dd { font-size: inherit }
.sum dd { font-weight: 700 }
.sum .none { display: none }
.go a { margin-right: 1rem }

/* Failures, cycles. */
article { margin: .5rem 0 1.25rem; padding-left: .75rem; border-left: 3px solid var(--failed) }
article:target, p:has(> :target) { background: var(--soft) }
pre { margin: .25rem 0; padding: .25rem .75rem; background: var(--soft); tab-size: 8 }
pre i { padding-right: 1.5ch; color: var(--dim); font-style: normal; user-select: none }
mark { background: none; color: inherit; font-weight: 700; text-decoration: underline 2px var(--failed) }
mark:empty::before { content: "\a0" }
ol.ring { position: relative; margin: .75rem 0 .25rem; padding: 0 0 0 2rem; list-style: none;
  color: inherit }
ol.ring::before { content: ""; position: absolute; inset: .7rem auto .7rem .25rem; width: 1.25rem; color: var(--cyclic);
  border: 2px solid; border-right: 0; border-radius: .75rem 0 0 .75rem }
ol.ring::after { content: "\25b8" / ""; position: absolute; top: 0; left: 1.25rem; color: var(--cyclic) }
ol.ring li:not(:last-child)::after { content: "\2193" / "needs"; display: block; line-height: 1.1;
  color: var(--cyclic) }
ol.ring > :only-child { padding-bottom: 1rem }

/* The table: as it stands, and as the script makes it, with rows of one height. */
button, input { color: inherit; font: inherit }
button { cursor: pointer }
form, .words, .tools { display: flex; flex-wrap: wrap; align-items: center; gap: .4rem 1rem }
.words, .tools { gap: .4rem }
.words label, .tools button, .more, .told button, #only, .record button { padding: .1rem .7rem;
  background: var(--soft); border: 1px solid var(--rule); border-radius: 1rem }
.words label { cursor: pointer }
.words :checked ~ b { text-decoration: underline 2px }
.words label:has(:checked) { border-color: var(--ink) }
input[type=search] { width: 18rem; max-width: 100%; padding: .25rem .5rem; background: var(--paper);
  border: 1px solid var(--dim); border-radius: .3rem }
output, .hint, .told dt { color: var(--dim) }
table { width: 100%; border-spacing: 0; table-layout: fixed }
th, td { padding: .2rem .75rem; border-bottom: 1px solid var(--rule); text-align: left; vertical-align: top;
  font-weight: 400; overflow-wrap: anywhere }
thead th { position: sticky; top: 0; z-index: 1; background: var(--soft); font-weight: 600 }
thead th:first-child { width: 38% }
thead th:nth-child(2) { width: 25% }
thead th:nth-child(3) { width: 6.5rem }
tr > :nth-child(3) { text-align: right; font-variant-numeric: tabular-nums }
.list thead th:first-child { width: 34% }
.list thead th:nth-child(2) { width: 7.5rem }
.list thead th:nth-child(3) { width: auto }
.list tr > :nth-child(3) { text-align: left }
.list td { line-height: 1.5rem }
.list td:nth-child(3) { font-size: .9rem }
tbody th { color: var(--ink) }
td:nth-child(n + 3), small { color: var(--dim) }
small { font-size: .85em }
summary, thead button { cursor: pointer }
thead button, th button { padding: 0; border: 0; background: none }
thead button { font-weight: 600 }
[aria-sort=ascending] button::after { content: " \25b4" / "" }
[aria-sort=descending] button::after { content: " \25be" / "" }
@media (scripting: enabled) {
  #scroll { max-height: 72vh; border: 1px solid var(--rule); border-radius: .4rem; overflow: auto;
    overflow-anchor: none }
}
.ready tr > * { height: 2rem; padding: 0 .75rem; line-height: 1.9rem; overflow: hidden; text-overflow: ellipsis;
  white-space: nowrap }
.ready tbody tr[id]:hover > * { background: var(--soft) }
.ready td a { white-space: inherit }
.gap td { padding: 0 !important; border: 0; height: 0 }
tbody th button { display: flex; max-width: 100%; color: var(--ink) }
th button bdi { overflow: hidden; text-overflow: ellipsis; white-space: pre; color: var(--dim) }
th button bdi + bdi { flex: none; max-width: 100%; color: var(--ink) }
tbody th button::before { content: "\25b8" / ""; width: 1.1em; flex: none; color: var(--dim) }
tbody th [aria-expanded=true]::before { content: "\25be" / "" }
.ready .record td { height: auto; padding: .25rem .75rem; background: var(--soft); color: var(--ink); line-height: 1.5;
  text-align: left; white-space: normal }
dl { display: grid; grid-template-columns: max-content 1fr; align-items: baseline; gap: .15rem 1rem;
  margin: .25rem 0 .5rem }
dt { color: var(--dim); font-size: .9rem }
dd { grid-column: 2; margin: 0 }
.record dl { align-items: start }
.record dd > *, .by a { display: inline-block; margin-right: .75rem; white-space: pre-wrap }

/* The graph. */
.hint { max-width: 60rem; font-size: .9rem }
kbd { padding: 0 .25em; border: 1px solid var(--rule); border-radius: .2rem; font: .9em ui-monospace, monospace }
.tools { margin: .5rem 0 }
figure { max-height: 62vh; margin: 0; border: 1px solid var(--rule); border-radius: .4rem; overflow: auto;
  cursor: grab }
figure:active { cursor: grabbing }
svg { display: block; margin: auto; user-select: none }
svg text { font: 12px ui-monospace, Menlo, Consolas, "DejaVu Sans Mono", monospace; fill: var(--ink); white-space: pre }
svg g { cursor: pointer; outline: none }
svg rect { fill: var(--paper); stroke: currentColor }
svg .failed > rect, svg .cyclic > rect { stroke-width: 2 }
svg .cyclic > rect { stroke-dasharray: 5 3 }
svg .blocked > rect { stroke-width: 1.5; stroke-dasharray: 3 2 }
svg .built > rect, svg .same > rect { stroke-width: 1.6 }
svg g > text:first-of-type { fill: currentColor }
svg .plus rect { fill: var(--soft); stroke: none }
svg .plus:hover rect { fill: var(--rule) }
svg [aria-pressed=true] > rect { fill: var(--soft); stroke-width: 3 }
svg :focus-visible > rect:not(.stack) { stroke: var(--link); stroke-width: 3; stroke-dasharray: none }
svg path { fill: none; stroke: var(--dim); opacity: .45 }
svg path.cyclic { stroke: var(--cyclic); opacity: 1 }
.some path { opacity: .12 !important }
.some path[data-step="1"] { opacity: 1 !important; stroke: var(--link); stroke-width: 2.5 }
.some path[data-step="2"] { opacity: .7 !important; stroke: var(--link) }
svg .off > rect { stroke: var(--rule) }
svg .off text { fill: var(--dim) }
.told { padding-top: .5rem }
.told button { margin: 0 .3rem .3rem 0; font-size: .875rem; text-align: left }
.told dd a { display: inline-block; margin-right: .75rem }
@media (prefers-reduced-motion: no-preference) {
  svg path { transition: opacity .15s }
}
@media (max-width: 44rem) {
  main { padding: .75rem }
  h1 { font-size: 1.3rem }
  th, td { padding: .2rem .4rem }
  .ready tr > * { padding: 0 .4rem }
  table:not(.list) tr > :nth-child(n + 3) { display: none }
  thead th:first-child { width: 58% }
  thead th:nth-child(2) { width: 42% }
  .list thead th:first-child { width: 36% }
  .list thead th:nth-child(2) { width: 6.5rem }
  .ready .list thead th:first-child { width: 40% }
  .ready .list thead th:nth-child(2) { width: 3.2rem }
  .ready .list th:nth-child(2) button { font-size: .75rem }
  .ready .list td:nth-child(2) { font-size: 0 }  /* for eyes the sign alone */
  .ready .list .sign { font-size: 1rem; vertical-align: top }
  label:has([type=search]), input[type=search] { width: 100% }
}
@media print {
  form, .go, .tools, .hint, #only, .told, .plus, .record button, tbody th button::before { display: none !important }
  .more { padding: 0; border: 0; background: none }
  main { max-width: none; padding: 0 }
  body { font-size: 10pt }
  a { color: inherit; text-decoration: none }
  h2, h3 { break-after: avoid }
  figure { max-height: none; overflow: visible }
  svg { width: 100% !important; height: auto; max-height: 24cm }
  #scroll { max-height: none; border: 0; overflow: visible }
  .ready tr > * { height: auto; padding: .15rem .75rem; line-height: 1.4; white-space: normal; overflow: visible }
  .gap td { height: auto !important }
  .gap td::before { content: "\2026 rows that aren't in view" }
  tbody th button { display: block }
  th button bdi { white-space: pre-wrap }
  thead th { position: static }
  article, figure, tr { break-inside: avoid }
  details::details-content { content-visibility: visible; block-size: auto }
}
"##;
