//! The script that groups and places what a graph has. It knows nothing of a page.
//! `bin/dev/page` writes its digest into the policy of the head.

pub(crate) const GRAPH: &[u8] = br##"
'use strict';
// What is drawn of a report, and where: functions that know nothing of a page.
const WORDS = ['built', 'same', 'kept', 'failed', 'blocked', 'cyclic', 'source'];  // by the number of an outcome
const BANDS = 8;    // so many columns at first: neighbouring heights share one
const FEW = 12;     // so many requested or cyclic targets have boxes of their own
const PIECES = 16;  // what has too many parts is opened in so many ranges of names
const HEIGHT = 4, ALIKE = 5, SINGLE = 6;  // levels of boxes
const directory = path => path.slice(0, path.lastIndexOf('/') + 1);
const ending = path => /(\.[^./]*)?$/.exec(path)[0];
const isDefault = rule => /(^|\/)default\.[^/]*$/.test(rule);
const most = numbers => numbers.reduce((a, b) => Math.max(a, b), 0);

// A report by columns: of each target its path, word, height, group, rule, what it needs and what needs it.
function readGraph({ count, requested, paths, rows }) {
  const changes = rows.map(row => row[4]), words = rows.map(([outcome]) => WORDS[outcome]);
  const cyclic = [...words.keys()].filter(one => words[one] === 'cyclic');
  const graph = {
    words, paths: paths.slice(0, count), heights: rows.map(row => row[2]), groups: rows.map(row => row[3]),
    rules: changes.map(([rule]) => paths[rule] ?? ''), needs: changes.map(list => list.filter(to => to < count)),
    users: rows.map(() => []), alone: new Set([requested, cyclic].filter(list => list.length <= FEW).flat()),
  };
  graph.needs.forEach((needs, one) => needs.forEach(to => graph.users[to].push(one)));
  graph.steps = 1 + most(graph.heights);
  return graph;
}
const kindOf = ({ rules, paths }, one) =>
  isDefault(rules[one]) ? rules[one].slice(directory(rules[one]).length) : ending(paths[one]);

// Joins neighbouring heights to at most so many bands, those first that together have the fewest kinds of targets.
function joinHeights(graph, bandsAtMost) {
  const size = Math.ceil(graph.steps / 128), bands = Array.from({ length: Math.ceil(graph.steps / size) }, (_, at) =>
    ({ low: at * size, high: Math.min((at + 1) * size, graph.steps) - 1, kinds: new Set() }));
  graph.heights.forEach((height, one) => {
    if (!graph.alone.has(one)) bands[Math.floor(height / size)].kinds.add(graph.words[one] + kindOf(graph, one));
  });
  const joined = at => new Set([...bands[at - 1].kinds, ...bands[at].kinds]);
  const cost = at => joined(at).size + (bands[at].high - bands[at - 1].low) / 1e6;
  while (bands.length > bandsAtMost) {
    const costs = bands.slice(1).map((_, at) => cost(at + 1)), best = 1 + costs.indexOf(Math.min(...costs));
    const kinds = joined(best), [{ low }, { high }] = bands.splice(best - 1, 2);
    bands.splice(best - 1, 0, { low, high, kinds });
  }
  graph.low = bands.flatMap(({ low, high }) => Array(high - low + 1).fill(low));
  graph.high = bands.flatMap(({ low, high }) => Array(high - low + 1).fill(high));
}

// What the members of a box of a level have in common, beyond what those of the level above have. No level puts
// targets of different words together.
const levels = [
  ({ alone, words, heights, low }, one) => alone.has(one) ? one : words[one] + low[heights[one]],
  kindOf,
  ({ paths }, one) => paths[one].slice(0, paths[one].indexOf('/') + 1),
  ({ paths }, one) => directory(paths[one]),
  ({ heights }, one) => heights[one],
  ({ groups }, one) => groups[one],
  (graph, one) => one,
];
function boxOf(graph, members, level, parent) {
  const first = members[0], height = most(members.map(one => graph.heights[one]));
  const top = level < HEIGHT && !graph.alone.has(first) ? graph.low[height] : height;
  return { members, level, parent, top, word: graph.words[first] };
}

// The boxes that a box falls into, by the next level that has more than one.
function partsOf(graph, box) {
  for (let level = box.level + 1; !box.parts && level <= SINGLE; level++) {
    const parts = Map.groupBy(box.members, one => levels[level](graph, one));
    if (parts.size < 2 && level < SINGLE) continue;
    box.parts = [...parts.values()].map(members => boxOf(graph, members, level, box));
  }
  return box.parts;
}
// What a click on a box opens: its parts, or ranges of names where they are too many.
function openBox(graph, box) {
  const parts = partsOf(graph, box), size = Math.ceil(box.members.length / PIECES);
  if (parts.length <= PIECES * 1.5) return parts;
  return Array.from({ length: Math.ceil(box.members.length / size) }, (_, number) => {
    const members = box.members.slice(number * size, (number + 1) * size);
    return Object.assign(boxOf(graph, members, box.level, box), { isRange: true });
  });
}
// One target of a box, and the others.
function takeOut(graph, box, one) {
  const others = box.members.filter(other => other !== one);
  return [boxOf(graph, [one], SINGLE, box), ...others.length ? [boxOf(graph, others, box.level, box)] : []];
}
// At most so many boxes of all targets: again and again the box whose parts differ most, and of these the one with the
// fewest parts, is opened. Those alike stay together, unless they are very few; bands aren't opened.
function firstBoxes(graph, boxesAtMost) {
  let boxes;
  for (let bands = BANDS; !boxes || boxes.length > boxesAtMost && bands; bands >>= 1) {
    joinHeights(graph, Math.max(1, bands));
    boxes = partsOf(graph, { members: [...graph.paths.keys()], level: -1 });
  }
  const isBand = ({ members: [one] }) => graph.low[graph.heights[one]] < graph.high[graph.heights[one]];
  const areFew = ({ members, word }) => members.length <= (word === 'failed' || word === 'cyclic' ? 6 : 2);
  const rank = ({ parts }) => parts[0].level * 1000 + parts.length;
  const mayOpen = box => {
    if (box.members.length < 2 || box.level >= ALIKE && !areFew(box)) return false;
    const [{ level }] = partsOf(graph, box), fits = boxes.length - 1 + box.parts.length <= boxesAtMost;
    return fits && (level < SINGLE || areFew(box)) && (level < HEIGHT || !isBand(box));
  };
  for (;;) {
    const best = boxes.filter(mayOpen).sort((a, b) => rank(a) - rank(b))[0];
    if (!best) return boxes;
    boxes = boxes.flatMap(box => box === best ? best.parts : [box]);
  }
}

// What is written on a box of many.
function sharedName(graph, { members, isRange, level }) {
  const paths = members.map(one => graph.paths[one]), [first] = paths, last = paths.at(-1);
  if (isRange) return `${first} \u2026 ${last.slice(directory(last).length)}`;
  let shared = directory(first);
  const tail = paths.every(path => path.endsWith(ending(first))) ? ending(first) : '';
  const inside = paths.every(path => directory(path) === shared) ? '' : '\u2026/';
  while (shared && !paths.every(path => path.startsWith(shared))) shared = directory(shared.slice(0, -1));
  return `${shared}${inside}*${tail}${stepsOf(graph, graph.heights[members[0]], level, graph.rules[members[0]])}`;
}
// Names don't tell how far up a box stands, where scripts are for single targets.
function stepsOf({ steps, low, high }, height, level, rule) {
  if (steps <= BANDS || isDefault(rule)) return '';
  const isBand = level < HEIGHT && low[height] < high[height];
  return isBand ? `, steps ${low[height] + 1}\u2013${high[height] + 1}` : `, step ${height + 1}`;
}
function labelOf(graph, box) {
  const { members } = box, count = members.length.toLocaleString('en');
  return box.label ??= members.length > 1 ? `${count} \u00d7 ${sharedName(graph, box)}` : graph.paths[members[0]];
}

// The edges between boxes, each once; `weight` is how many needs it stands for. One within a box is drawn for a cycle.
function edgesOf(graph, boxes) {
  const owner = new Map(boxes.flatMap(box => box.members.map(one => [one, box])));
  return boxes.flatMap(from => {
    const needs = from.members.flatMap(one => graph.needs[one]).map(one => owner.get(one));
    const outside = needs.filter(to => to !== from || from.word === 'cyclic');
    return [...Map.groupBy(outside, to => to)].map(([to, { length }]) => ({ from, to, weight: length }));
  });
}
// The boxes and edges within two steps of a box, one way and the other, with their steps.
function near(edges, box) {
  const steps = new Map([[box, 0]]);
  for (const [start, end] of [['from', 'to'], ['to', 'from']]) {
    let last = new Set([box]);
    for (const step of [1, 2]) {
      const reached = edges.filter(edge => last.has(edge[start]));
      for (const one of reached.flatMap(edge => [edge, edge[end]])) if (!steps.has(one)) steps.set(one, step);
      last = new Set(reached.map(edge => edge[end]));
    }
  }
  return steps;
}

// Places boxes in columns, each left of what it needs.
function layout(boxes, edges, widthOf) {
  const tops = [...new Set(boxes.map(({ top }) => top))].sort((a, b) => b - a), columns = tops.map(() => []);
  const cells = new Map(boxes.map(box => [box, addCell(columns, tops.indexOf(box.top), widthOf(box), 34)]));
  leadEdges(columns, edges, cells);
  const ordered = orderColumns(columns);
  spread(ordered);
  let x = 0, y = -27, above = -Infinity;
  for (const column of ordered) {
    const width = most(column.map(cell => cell.width));
    for (const cell of column) Object.assign(cell, { x, end: x + width });
    x += width + 64;
  }
  for (const cell of ordered.flat().sort((a, b) => a.y - b.y)) {  // bands without boxes are closed
    y += Math.min(cell.y - above, 44);
    above = cell.y;
    cell.y = y;
  }
  return { cells, width: x - 64, height: y + (edges.some(edge => edge.isBack) ? 37 : 17) };
}
function addCell(columns, column, width, size) {
  columns[column].push({ column, width, size, at: columns[column].length, left: [], right: [] });
  return columns[column].at(-1);
}
// The way of each edge. One that passes columns has a bend in each, which all edges to the same box share.
function leadEdges(columns, edges, cells) {
  for (const edge of edges) {
    const from = cells.get(edge.from), to = cells.get(edge.to), bends = to.bends ??= [];
    edge.isBack = from.column >= to.column;
    edge.way = edge.isBack ? [from, to] : [to];
    if (from === to || from.column > to.column) from.size = to.size = 60;
    for (let column = to.column - 1; column >= from.column; column--) {
      const [right] = edge.way;
      const cell = column === from.column ? from : bends[column] ??= addCell(columns, column, 0, 12);
      if (!cell.right.includes(right)) {
        cell.right.push(right);
        right.left.push(cell);
      }
      edge.way.unshift(cell);
    }
  }
}
// How many edges cross between a column and the next: those that end above one that begins higher.
function crossingsOf(column) {
  const ends = new Uint32Array(column.length && 1 + most(column.flatMap(cell => cell.right.map(({ at }) => at))));
  let count = 0;
  for (const { right } of column) {
    for (const { at } of right) for (let below = at + 1; below < ends.length; below++) count += ends[below];
    for (const { at } of right) ends[at]++;
  }
  return count;
}
const mean = (near, what, other) => near.length ? near.reduce((sum, cell) => sum + cell[what], 0) / near.length : other;
// The orders of columns with the fewest crossings, of some that are found by going to and fro.
function orderColumns(columns) {
  let best, crossings = Infinity;
  for (let turn = 0; turn < 12 && crossings; turn++) {
    const count = columns.reduce((sum, column) => sum + crossingsOf(column), 0), side = turn % 2 ? 'left' : 'right';
    if (count < crossings) [crossings, best] = [count, columns.map(column => column.slice())];
    for (const column of turn % 2 ? columns : columns.toReversed()) {
      for (const cell of column) cell.want = mean(cell[side], 'at', cell.at);
      column.sort((a, b) => a.want - b.want);
      column.forEach((cell, at) => cell.at = at);
    }
  }
  return best;
}
// Draws each cell towards its neighbours, from one side, the other and at last both; none lies over the next.
function spread(columns) {
  for (const column of columns) column.reduce((y, cell) => (cell.y = y + cell.size / 2, y + cell.size), 0);
  for (let turn = 0; turn < 16; turn++) for (const column of turn % 2 ? columns : columns.toReversed()) {
    for (const cell of column) {
      const close = turn > 11 ? [...cell.left, ...cell.right] : turn % 2 ? cell.left : cell.right;
      cell.want = mean(close, 'y', cell.y);
    }
    let low = -Infinity, high = Infinity;
    for (const cell of column) {
      cell.y = Math.max(cell.want, low + cell.size / 2);
      low = cell.y + cell.size / 2;
    }
    for (const cell of column.toReversed()) {
      const y = Math.min(cell.want, high - cell.size / 2);
      high = y - cell.size / 2;
      cell.y = (cell.y + y) / 2;
    }
  }
}

// An edge as the data of a path. One that doesn't go to the right goes beside or below its boxes, and has an arrow.
function lineOf({ way: [from, ...rest], isBack }) {
  const [to] = rest, side = from.end + 20, low = Math.max(from.y, to.y) + 36;
  const start = from.x + from.width * .4, end = to.x + to.width * .6, out = from.x + from.width;
  if (isBack && from !== to && from.column === to.column) {
    return `M${out} ${from.y}C${side} ${from.y} ${side} ${to.y} ${to.x + to.width + 1} ${to.y}m6 -4l-6 4l6 4`;
  }
  if (isBack) return `M${start} ${from.y + 12}C${start} ${low} ${end} ${low} ${end} ${to.y + 13}m-4 6l4 -6l4 6`;
  const curves = rest.map((to, at) => {
    const last = at ? rest[at - 1] : from, line = `C${last.end + 32} ${last.y} ${to.x - 32} ${to.y} ${to.x} ${to.y}`;
    return to.width ? line : `${line}H${to.end}`;
  });
  return `M${out} ${from.y}H${from.end}` + curves.join('');
}
"##;
