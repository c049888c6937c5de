//! The script of tables, for both kinds of pages: what stands above a table, and its rows, from the data.
//! `bin/dev/page` writes its digest into the policy of the head.

pub(crate) const TABLE: &[u8] = br##"
'use strict';
// A table of targets, of which only the rows in view are there, and the head above it. The script of a page says what
// is in it: `paths` and `words` of targets, `signs` of words, the worst first, and cells of a target by number.
const find = (what, from = document) => from.querySelector(what);
const all = (what, from = document) => [...from.querySelectorAll(what)];
const nameOf = word => word === 'same' ? 'built the same' : word;
const figures = number => number.toLocaleString('en');
const many = (number, what) => `${figures(number)} ${what}${number === 1 ? '' : 's'}`;
function make(name, attributes = {}, ...children) {
  const isDrawn = /^(svg|g|rect|path|text|title)$/.test(name);
  const made = isDrawn ? document.createElementNS('http://www.w3.org/2000/svg', name) : document.createElement(name);
  for (const [key, value] of Object.entries(attributes)) made.setAttribute(key, value);
  made.append(...children);
  return made;
}
const button = (onclick, ...children) => Object.assign(make('button', { type: 'button' }, ...children), { onclick });
const styled = (node, style) => (Object.assign(node.style, style), node);
const isolated = text => make('bdi', {}, text);
const cell = text => make('td', { title: text }, text);
const term = (name, ...nodes) => [make('dt', {}, ...[name].flat()), make('dd', {}, ...nodes)];
const sign = word => make('span', { class: 'sign ' + word, 'aria-hidden': 'true' }, page.signs[word]);
const signed = word => [sign(word), ` ${nameOf(word)} `];

const form = find('form'), table = find('table'), body = table.tBodies[0], frame = find('#scroll');
const heads = all('th', table.tHead);
const open = new Set(), made = new Map();  // targets whose records are shown, and by target the rows in the page
let page, counts, present;  // how many targets there are of each word, and the words that there are
let shown, place;  // the targets that the form lets through, in order, and where a target is among these; else -1
let order, column = 0, ascending = 1;

// Shows what the form lets through.
function show() {
  const isFound = page.finder(form.elements.word.value.toLowerCase()), count = order.length;
  const chosen = all('.words :checked').map(({ value }) => value);
  shown = order.filter(one => (!chosen.length || chosen.includes(page.words[one])) && isFound(one));
  place.fill(-1);
  shown.forEach((one, at) => place[one] = at);
  find('output').textContent = (shown.length < count ? `${figures(shown.length)} of ` : '') + many(count, 'target');
  table.setAttribute('aria-rowcount', shown.length + 1);
  frame.scrollTop = 0;
  render();
  page.onshow?.();
}
// Makes the rows in view, or all of few, and gaps. Those that are open, wanted or have the focus are always there.
function render(wanted, limit = 400) {
  const height = 2 * parseFloat(getComputedStyle(document.documentElement).fontSize), isWhole = shown.length <= limit;
  const above = ({ offsetTop, offsetHeight }) => Math.max(0, Math.min(offsetHeight, frame.scrollTop - offsetTop));
  const top = all('.record', body).reduce((top, record) => top - above(record), frame.scrollTop);
  const visible = Math.floor(top / height), first = isWhole ? 0 : Math.max(0, visible - 10);
  const last = isWhole ? shown.length : Math.min(shown.length, first + 20 + Math.ceil(innerHeight / height));
  const held = document.activeElement?.closest('tbody tr')?.number, nodes = [];
  let next = 0;
  const always = [...open, held, wanted].map(one => place[one]).filter(at => at >= 0);
  const spots = new Set([...Array.from({ length: last - first }, (_, at) => first + at), ...always]);
  for (const at of [...spots].sort((a, b) => a - b)) {
    if (at > next) nodes.push(gap((at - next) * height));
    const one = shown[at], row = made.get(one) ?? rowOf(one);
    made.set(one, row);
    row[0].setAttribute('aria-rowindex', at + 2);
    find('button', row[0]).tabIndex = at === (place[held] >= 0 ? place[held] : visible) ? 0 : -1;
    nodes.push(...row);
    next = at + 1;
  }
  if (next < shown.length) nodes.push(gap((shown.length - next) * height));
  put(nodes);
}
const gap = height => make('tr', { class: 'gap', 'aria-hidden': 'true' },
  styled(make('td', { colspan: heads.length }), { height: height + 'px' }));
// Puts rows into the table. Those that are there aren't moved, so that the focus stays.
function put(nodes) {
  const kept = new Set(nodes);
  for (const tr of [...body.rows]) if (!kept.has(tr)) tr.remove();
  for (const [one, [tr]] of made) if (!kept.has(tr)) made.delete(one);
  nodes.forEach((tr, at) => tr === body.children[at] || body.insertBefore(tr, body.children[at]));
}
function rowOf(one) {
  const path = page.paths[one], name = path.lastIndexOf('/') + 1, isOpen = open.has(one);
  const fold = button(() => toggle(one), isolated(path.slice(0, name)), isolated(path.slice(name)));
  Object.assign(fold, { title: path, ariaLabel: path, ariaExpanded: isOpen });
  const head = make('th', { scope: 'row' }, fold);
  const tr = make('tr', { class: page.words[one], id: 't' + one }, head, ...page.cells(one));
  const record = () => make('td', { colspan: heads.length }, make('dl', {}, ...page.record(one)));
  const trs = isOpen ? [tr, make('tr', { class: 'record' }, record())] : [tr];
  return trs.map(tr => Object.assign(tr, { number: one }));
}
function toggle(one) {
  if (!open.delete(one)) open.add(one);
  made.delete(one);
  focusRow(one);
}
function focusRow(one) {
  render(one);
  const trs = made.get(one), highest = trs[0].offsetTop - table.tHead.offsetHeight;
  const lowest = trs.at(-1).offsetTop + trs.at(-1).offsetHeight - frame.clientHeight;
  frame.scrollTop = Math.min(highest, Math.max(frame.scrollTop, lowest));
  find('button', trs[0]).focus({ preventScroll: true });
  render();
}
function sort(number) {
  const keys = [one => one, one => present.indexOf(page.words[one]), ...page.keys];
  const key = page.words.map((_, one) => keys[number](one));
  [ascending, column] = [column === number ? -ascending : 1, number];
  heads.forEach((head, at) => head.ariaSort = at !== column ? null : ascending > 0 ? 'ascending' : 'descending');
  order.sort((a, b) => ascending * ((key[a] > key[b]) - (key[a] < key[b])) || a - b);
  show();
}
function fillHead() {
  const bar = make('div', { class: 'bar', 'aria-hidden': 'true' }), text = page.headline(counts);
  document.title = text + ' \u2013 redo';
  find('h1').replaceChildren(sign(present[0] ?? 'kept'), ' ', text);
  find('h1').after(bar);
  for (const word of present) {
    const count = figures(counts[word]), input = make('input', { type: 'checkbox', value: word });
    bar.append(styled(make('i', { class: word }), { flexGrow: counts[word] }));
    find(`.sum .${word}`)?.remove();
    find('.sum').append(make('div', { class: word }, ...term(signed(word), count)));
    find('.words').append(make('label', {}, input, ...signed(word), make('b', {}, count)));
  }
}
function startTable(of) {
  page = of;
  counts = Object.fromEntries(Object.keys(page.signs).map(word => [word, page.words.filter(it => it === word).length]));
  present = Object.keys(counts).filter(word => counts[word]);
  order = [...page.words.keys()];
  place = new Int32Array(order.length);
  fillHead();
  form.oninput = show;
  form.onsubmit = event => event.preventDefault();
  form.hidden = false;
  heads.forEach((head, number) => head.append(button(() => sort(number), ...head.childNodes)));
  heads[0].ariaSort = 'ascending';
  frame.classList.add('ready');
  frame.onscroll = () => requestAnimationFrame(() => render());
  body.onkeydown = event => {
    const steps = { ArrowDown: 1, ArrowUp: -1, PageDown: 20, PageUp: -20, Home: -Infinity, End: Infinity }[event.key];
    const at = place[event.target.closest('tr[id]')?.number];
    if (!steps || at === undefined) return;
    event.preventDefault();
    focusRow(shown[Math.max(0, Math.min(shown.length - 1, at + steps))]);
  };
  onresize = onafterprint = () => render();
  onbeforeprint = () => render(undefined, 1000);
  show();
}
"##;
