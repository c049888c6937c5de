//! The script of the page of a report: what its table tells, and its graph, from the data.
//! `bin/dev/page` writes its digest into the policy of the head.

pub(crate) const SCRIPT: &[u8] = br##"
'use strict';
// The page of a report: what its table has, its failures, and its graph.
const report = JSON.parse(find('#report').textContent), { count, paths, rows } = report;
const graph = readGraph(report), { words } = graph;
const BYTES = 1, CHANGES = 4, CREATES = 5, ALWAYS = 6, WHY = 7, REASON = 8;  // where a row has what
const SIGNS = { failed: '\u2715', blocked: '\u2937', cyclic: '\u21bb', built: '\u25cf', same: '\u25d0',
  kept: '\u25cb', source: '\u25c7' };
// Of what is blocked the report knows only which line asked: the page says for which target.
for (const [one, row] of rows.entries()) if (/^depends \d+$/.test(row[REASON])) {
  const need = graph.needs[one].find(to => /failed|blocked|cyclic/.test(words[to]));
  if (need !== undefined) row[REASON] = `needs ${paths[need]}`;
}
const linkTo = one => make('a', { href: '#t' + one }, paths[one]);
// Some of many nodes, and a button for more of the others.
function some(list, limit, node = one => one) {
  const rest = list.length > limit + 1 ? list.slice(limit) : [];
  const nodes = list.slice(0, list.length - rest.length).flatMap(one => [node(one), ' ']);
  if (!rest.length) return nodes;
  const more = button(() => {
    const others = some(rest, Math.min(limit * 10, 4000), node);
    holder.replaceWith(...others);
    const inside = others.flatMap(one => one.matches ? [one, ...all('a', one)] : []);
    inside.find(one => one.matches('a, button'))?.focus({ preventScroll: true });
  }, `and ${many(rest.length, 'other')}`), holder = rest[0].localName === 'li' ? make('li', {}, more) : more;
  more.className = 'more';
  return [...nodes, holder];
}
// Cuts a list that stands in the page.
function cut(list, limit) {
  for (const one of list.slice(1)) one.remove();
  list[0]?.replaceWith(...some(list, limit));
}

// The head.
const explained = new Map();  // what explains a failure, by its id
function headline({ failed, blocked, cyclic, built, same, kept, source }) {
  const bad = failed + blocked + cyclic, made = built + same;
  if (bad) return `${figures(bad)} of ${many(count - source, 'target')} couldn\u2019t be built`;
  if (!made) return kept ? `Nothing to do: ${many(kept, 'target')} kept` : 'Nothing to do';
  const unchanged = same ? `, ${same === made ? 'all' : figures(same)} with the same bytes as before` : '';
  return `${many(made, 'target')} built${unchanged}${kept ? `; ${figures(kept)} kept` : ''}`;
}
// Failures of one statement are one entry, and so are those that are told in the same words.
function joinFailures() {
  const firsts = new Map();
  for (const article of all('#failures article')) {
    const [{ firstChild: link }, { textContent: words }] = article.children;
    const cause = /^.*?:\d+:\d+: /.exec(words)?.[0] ?? words, first = firsts.get(cause) ?? article;
    firsts.set(cause, first);
    if (first === article) continue;
    const isSame = words === find('p', first).textContent;
    first.append(make('p', { class: 'also' }, 'also ', link, isSame ? '' : ': ' + words.slice(cause.length)));
    link.id = article.id;
    article.remove();
  }
  for (const one of all('#failures [id]')) explained.set(one.id, one);
}
function cutLists() {
  joinFailures();
  cut(all('.request bdi'), 6);
  for (const article of all('#failures article')) cut(all('.also', article), 4);
  cut(all('#failures article'), 8);
  for (const { children } of all('.ring')) if (children.length > 10) cut([...children].slice(0, -2), 6);
  cut(all('#notes li'), 12);
}

// The table.
let lower, drawn, picked;  // paths in lower case, and the graph, when it is there, and a box of it
// What a word and the picked box let through.
function finder(word) {
  const isDeep = form.elements.deep.checked, members = picked && new Set(picked.members);
  lower ??= paths.map(path => path.toLowerCase());
  const found = lower.map(path => path.includes(word)), isFound = one => found[one];
  const isInRecord = row => [...row[CHANGES], ...row[CREATES]].some(isFound)
    || (row[WHY] + '\n' + row[REASON]).toLowerCase().includes(word);
  return one => (!members || members.has(one)) && (found[one] || isDeep && isInRecord(rows[one]));
}
const bytesOf = one => figures(rows[one][BYTES] ?? (/built|same|kept/.test(words[one]) ? 'none' : ''));
function cellsOf(one) {
  const row = rows[one], reason = explained.has('f' + one) ? make('a', { href: '#f' + one }) : make('small');
  reason.append(row[REASON]);
  const outcome = make('td', { title: row[REASON] }, ...signed(words[one]), reason);
  return [outcome, make('td', {}, bytesOf(one)), cell(row[WHY])];
}
const part = (name, list, node, limit = 40) => list.length ? term(name, ...some(list, limit, node)) : [];
function recordOf(one) {
  const row = rows[one], word = nameOf(words[one]), toPath = to => to < count ? linkTo(to) : isolated(paths[to]);
  const text = (name, it) => part(name, it ? [it] : [], isolated);
  return [...text('outcome', row[REASON] ? `${word}: ${row[REASON]}` : word),
    ...text('bytes', bytesOf(one)), ...text('begun', row[WHY]), ...part('rule', row[CHANGES].slice(0, 1), toPath),
    ...part('needs', row[CHANGES].slice(1), toPath), ...part('needs missing', row[CREATES], toPath),
    ...text('always', row[ALWAYS] && 'made in each run'), ...part('needed by', graph.users[one], linkTo),
    ...count > 1 ? [make('dd', {}, button(() => isolate(one), 'Show in the graph'))] : []];
}
// What the address names: a target, or a failure that may be cut away.
function reveal() {
  const name = location.hash.slice(1), one = +/^t(\d+)$/.exec(name)?.[1], failure = explained.get(name);
  while (failure && !failure.isConnected) find('#failures .more').click();
  failure?.scrollIntoView({ block: 'nearest' });
  if (!(one < count)) return;
  if (place[one] < 0) {
    form.reset();
    pick();
  }
  open.delete(one);
  toggle(one);
  frame.scrollIntoView({ block: 'nearest' });
}

// The graph.
const figure = find('figure'), said = find('#graph output'), told = find('.told');
let boxes, svg, zoom = 1;
const fullName = box => `${labelOf(graph, box)}, ${nameOf(box.word)}`;
const shortLabel = box => labelOf(graph, box).replace(/^(.{8}).{2,}(.{21})$/su, '$1\u2026$2');
const widthOf = box => // of letters that are as wide as two, too
  Math.ceil(shortLabel(box).replace(/[^\0-\u2fff]/gu, 'xx').length * 7.3) + (box.members.length > 1 ? 56 : 34);
function drawBox(box) {
  const { x, y, width } = drawn.cells.get(box), isMany = box.members.length > 1, name = fullName(box);
  const rect = attributes => make('rect', { width, height: 24, rx: 4, ...attributes });
  const text = (x, words) => make('text', { x, y: 16 }, words), stack = rect({ x: 3, y: 3, class: 'stack' });
  const at = { class: box.word, role: 'button', 'aria-label': name, transform: `translate(${x} ${y - 12})` };
  const node = make('g', at, make('title', {}, name), ...isMany ? [stack] : [], rect(), text(9, SIGNS[box.word]),
    text(25, shortLabel(box)));
  if (isMany) node.append(make('g', { class: 'plus' }, rect({ x: width - 24, width: 24 }), text(width - 16, '+')));
  node.onclick = event => event.target.closest('.plus') ? unfold(box) : pick(picked === box ? undefined : box);
  return node;
}
function drawEdge(edge) {
  const style = edge.from.word === 'cyclic' && edge.to.word === 'cyclic' ? 'cyclic' : '';
  return make('path', { d: lineOf(edge), class: style, 'stroke-width': 1 + Math.min(2, Math.log10(edge.weight)) });
}
function draw() {
  const edges = edgesOf(graph, boxes);
  drawn = { edges, ...layout(boxes, edges, widthOf) };
  const nodes = [...edges.map(edge => edge.line = drawEdge(edge)), ...boxes.map(box => box.node = drawBox(box))];
  const viewBox = `-16 -16 ${drawn.width + 32} ${drawn.height + 32}`;
  svg = make('svg', { role: 'group', 'aria-label': 'Graph of targets', viewBox }, ...nodes);
  figure.replaceChildren(svg);
  reach(picked ?? boxes[0]);
}
// Makes a box the one that Tab goes to.
const reach = box => boxes.forEach(({ node }) => node.setAttribute('tabindex', node === box.node ? 0 : -1));
// What is picked or searched stands out.
function mark() {
  find('#only').hidden = !picked;
  find('#only').replaceChildren(...picked ? ['only ', isolated(labelOf(graph, picked)), ' \u2715'] : []);
  if (!drawn) return;
  const steps = picked ? near(drawn.edges, picked) : new Map(), isSearched = shown.length < count;
  svg.classList.toggle('some', !!picked);
  for (const edge of drawn.edges) edge.line.dataset.step = steps.get(edge);
  for (const box of boxes) {
    const isOff = picked ? !steps.has(box) : isSearched && !box.members.some(one => place[one] >= 0);
    box.node.classList.toggle('off', isOff);
    box.node.ariaPressed = box === picked;
  }
}
function pick(box) {
  const { top } = figure.getBoundingClientRect();
  picked = box;
  show();
  if (!drawn) return;
  if (box) reach(box);
  tell();
  scrollBy(0, figure.getBoundingClientRect().top - top);  // the table above it has become longer or shorter
}
// Tells of the box that is picked, and what is beside it.
function tell() {
  const box = picked, beside = (a, b) => drawn.edges.filter(edge => edge[a] === box).map(edge => edge[b]);
  const needs = beside('from', 'to'), users = beside('to', 'from');
  said.textContent = box ? `${fullName(box)}: needs ${needs.length}, and is needed by ${users.length} of the boxes`
    : `${many(count, 'target')} in ${boxes.length} boxes`;
  if (!box) return told.replaceChildren();
  const { members, parent } = box, isMany = members.length > 1, href = isMany ? '#targets' : '#t' + members[0];
  const title = box => [sign(box.word), ' ', isolated(labelOf(graph, box)), ' ' + nameOf(box.word)];
  const toBox = box => button(() => go(box), ...title(box));
  told.replaceChildren(make('h3', {}, ...title(box)), make('p', {},
    ...isMany ? [button(() => unfold(box), 'Open this box'), ' '] : [],
    ...parent.level >= 0 ? [button(() => close(box), 'Close to ', isolated(labelOf(graph, parent))), ' '] : [],
    make('a', { href }, isMany ? 'Its rows in the table' : 'Its row in the table')),
  make('dl', {}, ...part('needs', needs, toBox, 12), ...part('needed by', users, toBox, 12),
    ...part('members', isMany ? members : [], linkTo, 12)));
}
// Puts boxes in place of others: the first one comes to where the first of the others was.
function change(old, parts) {
  const { left, top } = old[0].node.getBoundingClientRect();
  boxes = boxes.flatMap(box => box === old[0] ? parts : old.includes(box) ? [] : [box]);
  picked = parts[0];
  draw();
  zoomTo(zoom);
  const now = picked.node.getBoundingClientRect();
  figure.scrollBy(now.left - left, now.top - top);
  go(picked);
}
function go(box) {
  pick(box);
  box.node.focus();
  box.node.scrollIntoView({ block: 'nearest', inline: 'nearest' });
}
function unfold(box) {
  if (box.members.length > 1) change([box], openBox(graph, box));
}
function close({ parent }) {
  const isInside = box => box && (box === parent || isInside(box.parent));
  if (parent.level >= 0) change(boxes.filter(isInside), [parent]);
}
function isolate(one) {
  const box = boxes.find(({ members }) => members.includes(one));
  change([box], takeOut(graph, box, one));
}
// The point under the pointer stays where it is.
function zoomTo(wanted, x = figure.clientWidth / 2, y = figure.clientHeight / 2) {
  const next = Math.max(.05, Math.min(3, wanted)), by = next / zoom;
  const left = (figure.scrollLeft + x) * by - x, top = (figure.scrollTop + y) * by - y;
  zoom = next;
  svg.style.width = (drawn.width + 32) * zoom + 'px';
  figure.scrollTo(left, top);
}
function fit(least = 0) {
  const wide = figure.clientWidth / (drawn.width + 32), high = innerHeight * .6 / (drawn.height + 32);
  zoomTo(Math.max(least, Math.min(1, wide, high)));
}
function start() {
  for (const one of all('#graph, .go a')) one.hidden = false;
  boxes = firstBoxes(graph, 40);
  picked = undefined;
  draw();
  fit(.8);
  tell();  // before `pick`, which keeps the picture where it is
  pick();
  const worst = boxes.find(({ word }) => word === 'failed') ?? boxes.find(({ word }) => word === 'cyclic');
  const { x, y } = drawn.cells.get(worst) ?? { x: 0, y: 0 };
  figure.scrollTo(x * zoom - figure.clientWidth / 2, y * zoom - figure.clientHeight / 2);
}
function startGraph() {
  const tools = { in: () => zoomTo(zoom * 1.3), out: () => zoomTo(zoom / 1.3), fit: () => fit(), back: start };
  for (const tool of all('.tools button')) tool.onclick = tools[tool.name];
  figure.addEventListener('wheel', event => {
    if (!event.ctrlKey) return;
    event.preventDefault();
    const { left, top } = figure.getBoundingClientRect();
    zoomTo(zoom * Math.exp(-event.deltaY / 200), event.clientX - left, event.clientY - top);
  }, { passive: false });
  let dragged = 0;
  figure.onpointerdown = () => dragged = 0;
  figure.onpointermove = event => {
    if (event.pointerType !== 'mouse' || !(event.buttons & 1)) return;
    dragged += Math.hypot(event.movementX, event.movementY);
    if (dragged <= 4) return;
    figure.setPointerCapture(event.pointerId);
    figure.scrollBy(-event.movementX, -event.movementY);
  };
  figure.addEventListener('click', event => dragged > 4 && event.stopPropagation(), true);
  figure.onkeydown = event => {
    const box = boxes.find(({ node }) => node === document.activeElement), next = box && beside(box, event.key);
    const zooms = { '+': tools.in, '-': tools.out, 0: tools.fit, Escape: () => pick() };
    const acts = { Enter: () => pick(box), ' ': () => pick(box), o: () => unfold(box), c: () => close(box) };
    const act = next ? () => reach(next) : zooms[event.key] ?? (box && acts[event.key]);
    if (!act || event.ctrlKey || event.metaKey || event.altKey) return;
    event.preventDefault();
    act();
    next?.node.focus();
  };
}
// The box that an arrow leads to: the nearest in the next column with boxes, or in the same one.
function beside(box, key) {
  const side = { ArrowRight: 1, ArrowLeft: -1 }[key], down = { ArrowDown: 1, ArrowUp: -1 }[key];
  const here = drawn.cells.get(box);
  const far = ([, { column, y }]) => Math.abs(column - here.column) * 1e6 + Math.abs(y - here.y);
  const others = [...drawn.cells].filter(([, { column, y }]) =>
    side ? (column - here.column) * side > 0 : column === here.column && (y - here.y) * down > 0);
  return others.sort((a, b) => far(a) - far(b))[0]?.[0];
}
onhashchange = reveal;
onclick = ({ target }) => {
  if (target.closest('a')?.hash === location.hash) reveal();
};
find('#only').onclick = () => { pick(); frame.focus({ preventScroll: true }); };  // the button has gone
cutLists();
startTable({
  paths, words, signs: SIGNS, headline, finder, cells: cellsOf, record: recordOf, onshow: mark,
  keys: [one => rows[one][BYTES] ?? -1, one => rows[one][WHY] || '\uffff'],
});
startGraph();
requestAnimationFrame(() => setTimeout(() => {  // after the browser has gone to what the address names
  if (count > 1) start();
  reveal();
}));
"##;
