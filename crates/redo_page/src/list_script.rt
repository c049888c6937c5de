//! The script of the page of a list: what its table tells, from the data.
//! `bin/dev/page` writes its digest into the policy of the head.

pub(crate) const LIST_SCRIPT: &[u8] = br##"
'use strict';
// The page of a list of targets that are out of date.
const rows = JSON.parse(find('#list').textContent);  // of each its path, state and why
const texts = rows.map(([path, , why]) => `${path}\n${why}`.toLowerCase());
find('.sum').lastElementChild.remove();  // how many there are: the heading says so
startTable({
  paths: rows.map(([path]) => path), words: rows.map(([, state]) => state),
  signs: { unknown: '?', lost: '\u2715', ring: '\u21bb', stale: '\u25cf', new: '+', maybe: '\u25d0', kept: '\u25cb' },
  headline: () => rows.length ? `${many(rows.length, 'target')} out of date` : 'Nothing is out of date',
  finder: word => one => texts[one].includes(word),
  keys: [one => rows[one][2]],
  cells: one => [make('td', { title: rows[one][1] }, ...signed(rows[one][1])), cell(rows[one][2])],
  record: one => [...term('state', rows[one][1]), ...term('why', isolated(rows[one][2]))],
});
"##;
