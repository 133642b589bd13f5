// What a page does: it draws what its JSON says. Whatever is shown is put in as text, never as HTML.

// What both kinds of pages have. `told` writes a number as 47,176,870, however long it is; `make` makes an element; `part` adds
// a part of the page and the link to it; `runPanel` shows a run, and asks for its steps and its zoom; `listing` is a table that
// is searched, sorted and filtered, and shows some rows at a time: a row has its table, the text that is searched, what it
// is sorted and filtered by, and makes its cells when it is first shown. A link is searched as the table that it ends with.
pub(crate) const TOOLS: &[u8] = br#"
const kinds = {
  'H': ['halting', 'The run from the blank tape comes to a pair without an entry after so many steps, with so many '
    + 'ones on its tape.'],
  'L': ['halting late', 'The same after more than 100,000,000 steps.'],
  'C': ['cycler', 'The run comes to one and the same configuration at two times, and so again and again.'],
  'T': ['translated cycler', 'From a time on the run repeats itself, each time moved along the tape by the same number '
    + 'of cells.'],
  'B': ['backward reasoning', 'So many steps before a halt no configuration is possible: each path backwards from a '
    + 'halting pair contradicts itself.'],
  'N': ['n-gram CPS', 'Whatever short words stand beside the head and on the half tapes, they are among finitely many, '
    + 'and no halting pair is met among them.'],
  'F': ['finite automata reduction (FAR)', 'A finite automaton that reads the whole tape accepts each configuration '
    + 'that comes to a halt, and not the blank tape.'],
  'A': ['finite automata reduction, edges listed', 'The same as in a record of F, where the edges of the second '
    + 'automaton are listed, so that the first one can be large.'],
  'W': ['counted automata', 'Two automata read the half tapes and count some of their transitions; what they read and '
    + 'count is never that of a halt.'],
  'R': ['rules with induction', 'By rules between forms of tape, proved by steps or by induction, the run comes to the '
    + 'forms of a family again and again.'],
  'P': ['proof of its own', 'One of eight tables of five states, for each of which there is a proof of its own.'],
  'U': ['holdout', 'No certificate was found, and nothing is claimed.'],
};
const told = number => BigInt(number).toLocaleString('en'), some = 500;
function make(name, attributes, ...children) {
  const made = document.createElement(name);
  for (const [key, value] of Object.entries(attributes)) made.setAttribute(key, value);
  made.append(...children);
  return made;
}
function part(id, head, ...children) {
  document.querySelector('main').append(make('section', {id}, make('h2', {}, head), ...children));
  document.querySelector('nav').append(make('a', {href: '#' + id}, head));
}
function button(act, attributes, ...children) {
  const made = make('button', {type: 'button', ...attributes}, ...children);
  made.addEventListener('click', () => act(made));
  return made;
}
function choice(label, options, act) {
  const made = make('select', {'aria-label': label}, ...options.map(([value, text]) => make('option', {value}, text)));
  made.addEventListener('change', act);
  return made;
}
function wordsOf({last, every, share, from, to, halts}) {
  const rows = every === 1 ? 'a row each' : `a row every ${told(every)}`;
  const columns = share === 1 ? '' : `, a column for each ${told(share)}`;
  return `Steps 0 to ${told(last)}, ${rows}; ${told(to - from + 1)} cells${columns}`
    + (halts ? '; it halts with the next step' : '');
}
function runPanel(table, most) {
  const field = (name, value, max) =>
    make('input', {type: 'number', min: 1, max, value, 'aria-label': `${name} of the run of ${table}`});
  const steps = field('Steps', most, 100000000), zoom = field('Zoom', 1, 300), view = make('div', {class: 'view'});
  const words = make('p', {}), canvas = make('canvas', {role: 'img'});
  const size = () => { canvas.style.width = canvas.width * zoom.value + 'px'; };
  const draw = () => {
    const picture = drawRun(canvas, table, Math.min(Math.max(Number(steps.value), 1), steps.max), 1);
    zoom.value = Math.max(1, Math.floor(300 / Math.max(picture.width, picture.height)));
    size();
    view.replaceChildren(canvas);
    words.textContent = wordsOf(picture);
    canvas.setAttribute('aria-label', `Run of ${table}. ${words.textContent}`);
  };
  steps.addEventListener('change', draw);
  zoom.addEventListener('input', () => zoom.value > 0 && size());
  setTimeout(draw);
  const fields = make('div', {class: 'tools'}, make('label', {}, 'Steps ', steps), make('label', {}, 'Zoom ', zoom));
  return make('div', {class: 'run'}, fields, view, words);
}
function tableLink(table) {
  return make('a', {href: 'https://bbchallenge.org/' + table}, table);
}
function runButton(table) {
  return button(opener => {
    const row = opener.closest('tr'), shown = row.panel;
    row.panel = shown ? null : make('tr', {}, make('td', {colspan: row.cells.length}, runPanel(table, 1000)));
    if (shown) shown.remove();
    else row.after(row.panel);
    opener.setAttribute('aria-expanded', !shown);
  }, {'aria-label': 'Run of ' + table, 'aria-expanded': false}, 'Run');
}
function listing(id, head, columns, rows, choices = []) {
  const body = make('tbody', {}), found = make('output', {for: 'search'});
  const field = make('input', {type: 'search', id: 'search', autocomplete: 'off', spellcheck: 'false',
    placeholder: 'part of a table, a text, or a link'});
  let room = some;
  const show = () => {
    const words = field.value.replace(/\S*\/|[?&#]\S*/g, '').toUpperCase().split(/\s+/);
    const matches = rows.filter(({text, marks}) => words.every(word => text.includes(word))
      && filters.every(({value}, place) => value === '' || value === marks[place]));
    body.replaceChildren(...matches.slice(0, room).flatMap(row => {
      row.shown ??= make('tr', {id: row.table ?? ''}, ...row.cells().map(cell => make('td', {}, ...cell)));
      return row.shown.panel ? [row.shown, row.shown.panel] : [row.shown];
    }));
    found.value = `${told(matches.length)} of ${told(rows.length)}`;
    more.hidden = matches.length <= room;
  };
  const again = () => { room = some; show(); };
  const filters = choices.map(([label, options]) => choice(label, options, again));
  const more = button(() => { room += some; show(); }, {class: 'more'}, `Show ${some} more`);
  const heads = columns.map((name, column) => make('th', {scope: 'col'}, button(sorter => {
    const sign = sorter.parentNode.getAttribute('aria-sort') === 'ascending' ? -1 : 1;
    for (const other of heads) other.removeAttribute('aria-sort');
    sorter.parentNode.setAttribute('aria-sort', sign > 0 ? 'ascending' : 'descending');
    rows.sort((a, b) => sign * (a.keys[column] - b.keys[column]) || a.keys[0] - b.keys[0]);
    show();
  }, {}, name)));
  heads[0].setAttribute('aria-sort', 'ascending');
  field.addEventListener('input', again);
  const named = location.hash.slice(1);
  if (rows.some(({table}) => table === named)) field.value = named;
  part(id, head, make('div', {class: 'tools'}, make('label', {for: 'search'}, 'Search'), field, ...filters, found),
    make('table', {class: 'listing'}, make('thead', {}, make('tr', {}, ...heads)), body), more);
  show();
}
</script>
<title>"#;

// The page of a report. Its numbers stay exact: one that a float might round is read as a text.
pub(crate) const REPORT_SCRIPT: &[u8] = br#"</script>
<script>
const read = id => JSON.parse(document.getElementById(id).textContent.replace(/(?<=[:,[])\d{16,}/g, '"$&"'));
const report = read('report'), counts = read('counts'), {root, best, ones} = report;
const code = text => make('code', {}, text);
const row = (name, value) => make('tr', {}, make('th', {scope: 'row'}, ...name), make('td', {}, value));
const heads = (...names) => make('tr', {}, ...names.map(name => make('th', {scope: 'col'}, name)));
const greatest = number => number === null ? 'none' : told(number);
const entriesIn = table => table.split('_').join('').match(/[01][LR]./g)?.length ?? 0;
const standing = {
  working: ['Working.', ' There are open tables.'],
  holdouts: ['Holdouts.', ' No table is open, and not all have a verdict.'],
  complete: ['Complete.', ' Each table of the tree has a verdict.'],
}[report.status];
function sentence() {
  if (report.status !== 'complete') return [];
  if (best === null) return [make('p', {}, 'Of the tables below ', code(root), ' none halts.')];
  const states = root.split('_').length;
  const shown = `So S(${states}) = ${told(best)} and \u03a3(${states}) = ${told(ones)}.`;
  if (entriesIn(root) === 0) return [make('p', {}, shown)];
  return [make('p', {}, 'Of the tables below ', code(root),
    ` that halt, the most steps are ${told(best)} and the most ones ${told(ones)}.`)];
}
part('status', 'Status', make('p', {}, make('strong', {}, standing[0]), standing[1]), ...sentence(),
  ...counts.left === null ? [] : [make('p', {class: 'left'}, `From line ${counts.left} on, the ledger isn't kept.`)],
  make('p', {}, 'Root ', code(root)), make('table', {}, row(['Tables'], told(report.nodes)),
    row(['Halting'], told(report.halting)), row(['Never halting'], told(report.never)),
    row(['Holdouts'], told(report.holdouts)), row(['Open'], told(report.open)),
    row(['Most steps'], greatest(best)), row(['Most ones'], greatest(ones))));
const letters = Object.keys(kinds).filter(letter => counts[letter] != 0);
if (letters.length) {
  const all = letters.reduce((sum, letter) => sum + Number(counts[letter]), 0);
  part('kinds', 'Records by kind of certificate', make('table', {}, ...letters.flatMap(letter => [
    row([code(letter), ' ' + kinds[letter][0]], told(counts[letter])),
    make('tr', {}, make('td', {class: 'means', colspan: 2},
      make('meter', {max: all, value: counts[letter], 'aria-label': 'Share of ' + letter}), kinds[letter][1]))])));
  part('entries', 'Records by filled entries', make('table', {}, ...counts.entries.flatMap((count, entries) =>
    count == 0 ? [] : [row([String(entries)], told(count))])));
}
if (best !== null) {
  const doublings = number => number == 0 ? 0 : BigInt(number).toString(2).length;
  const within = counts.steps.slice(0, doublings(best)), longest = Math.max(...within.map(doublings));
  const bar = number => {
    const made = make('span', {class: 'bar'});
    made.style.width = 10 * doublings(number) / longest + 'em';
    return made;
  };
  part('steps', 'Halting tables by steps', make('table', {class: 'plot'}, heads('Steps from', 'Tables'),
    ...within.map((count, power) => row([told(2n ** BigInt(power))], make('span', {}, bar(count), told(count))))),
  make('p', {}, 'A bar has the tables that halt in as many steps as stand before it or more, and in fewer than before '
    + 'the next. Both scales are logarithmic: a bar is longer by the same length whenever its number has doubled.'));
  const transitions = table => make('table', {class: 'transitions'}, heads('', '0', '1'),
    ...table.split('_').map((pair, state) => make('tr', {}, make('th', {scope: 'row'}, 'ABCDEFG'[state]),
      make('td', {}, pair.slice(0, 3)), make('td', {}, pair.slice(3)))));
  const figures = report.champions.map((table, place) => make('figure', {},
    ...place < 8 ? [runPanel(table, best)] : [], transitions(table),
    make('figcaption', {}, code(table), make('br', {}), greatest(best) + ' steps')));
  part('champions', 'Champions', make('h3', {}, 'Most steps'), make('div', {class: 'figures'}, ...figures),
    make('h3', {}, 'Most ones'), make('ul', {}, ...report.ones_champions.map(table => make('li', {}, code(table)))));
}
if (report.holdout_tables.length) {
  listing('holdouts', 'Holdouts', ['Table', 'Filled entries'], report.holdout_tables.map((table, place) => ({
    table, text: table, marks: [], keys: [place, entriesIn(table)],
    cells: () => [[tableLink(table), ' ', runButton(table)], [entriesIn(table)]],
  })));
}
</script>
</body>
</html>
"#;

// The page of records. Texts come a character for each byte. What is longer than two lines is folded.
pub(crate) const RECORDS_SCRIPT: &[u8] = br#"</pre></noscript>
<script>
const bytes = text => Uint8Array.from(text, character => character.charCodeAt(0));
const plain = text => new TextDecoder().decode(bytes(text ?? ''));
const verdicts = ['halts', 'never', 'undecided', 'refused'], letters = Object.keys(kinds);
const lines = document.querySelector('noscript').textContent.split('\n').filter(line => line.startsWith('{'));
const rows = lines.map(line => JSON.parse(line)).map(object => {
  const {line, table, kind, verdict, steps, ones, code, meaning, text, words} = object, given = plain(text);
  const counts = steps === null ? '' : ` ${told(steps)}` + (ones === null ? '' : `, ones ${told(ones)}`);
  const shown = verdict + (code === null ? counts : ` ${code}`), said = plain(words ?? meaning).trim();
  const name = kind === null ? '' : kinds[kind][0];
  const certificate = table === null ? given : given.slice(given.indexOf(' ') + 1);
  const folded = () => certificate.length <= 120 ? make('code', {}, certificate)
    : make('details', {}, make('summary', {}, told(certificate.length) + ' bytes'), make('code', {}, certificate));
  const rank = verdict === 'halts' ? steps : 1e12 * (1 + verdicts.indexOf(verdict));
  return {
    table, text: `${given} ${shown} ${name} ${said}`.toUpperCase(), marks: [verdict, kind ?? ''],
    keys: [line, rank, letters.indexOf(kind), line],
    cells: () => [table === null ? [] : [tableLink(table), ' ', runButton(table)], [shown],
      kind === null ? [] : [make('code', {}, kind), ' ' + name], [said, make('div', {}, folded())]],
  };
});
const counted = (place, value) => rows.filter(({marks}) => marks[place] === value).length;
const options = (all, place, values, name) => [['', all], ...values.filter(value => counted(place, value) > 0)
  .map(value => [value, `${name(value)}: ${told(counted(place, value))}`])];
listing('records', 'Records', ['Table', 'Verdict', 'Kind', 'Words'], rows, [
  ['Verdict', options('All verdicts', 0, verdicts, value => value)],
  ['Kind', options('All kinds', 1, letters, value => `${value} ${kinds[value][0]}`)],
]);
document.getElementById('verdicts').textContent = verdicts.filter(verdict => counted(0, verdict) > 0)
  .map(verdict => `${verdict} ${told(counted(0, verdict))}`).join(', ');
</script>
</body>
</html>
"#;
