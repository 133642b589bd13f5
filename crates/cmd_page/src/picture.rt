// What draws the run of a table, in a browser: the text of judge/web/picture.js, which docs/judge.html has too (stress/pages.py
// compares both).
pub(crate) const PICTURE: &[u8] = br#"
// Pictures of runs. Time goes downwards, cells to the right; ones are dark, and the head has its state's colour. The file stands by
// itself: docs/judge.html has it, and any other page can take it over as it is.

const STATE_COLOURS = ['#e66950', '#195feb', '#696400', '#d76ebe', '#2391fa', '#a52daa', '#c3870f'];

// What a pixel shows: a column of blanks, one with ones in up to half of its cells, one with more, or the head in a state.
const BLANK = 0, SOME = 1, MOST = 2, HEAD = 3;

// A run from the blank tape. The tape grows as the head comes to new cells; `origin` is where the run began.
class Run {
  constructor(table) {
    const entries = table.split('_').flatMap(row => [row.slice(0, 3), row.slice(3)]);
    this.writes = Uint8Array.from(entries, entry => Number(entry[0] === '1'));
    this.moves = Int8Array.from(entries, entry => (entry[1] === 'R' ? 1 : -1));
    this.nexts = Int8Array.from(entries, entry => (/[A-G]/.test(entry[2]) ? entry.charCodeAt(2) - 65 : -1));
    this.tape = new Uint8Array(1024);
    this.origin = this.head = this.low = this.high = 512;
    this.state = this.step = this.ones = 0;
  }

  // Whether the entry is undefined, so that the next step halts.
  isAtEnd() {
    return this.nexts[2 * this.state + this.tape[this.head]] < 0;
  }

  // Takes a step; answers false where that would halt.
  go() {
    const symbol = this.tape[this.head], entry = 2 * this.state + symbol;
    if (this.nexts[entry] < 0) return false;
    this.tape[this.head] = this.writes[entry];
    this.ones += this.writes[entry] - symbol;
    this.head += this.moves[entry];
    this.state = this.nexts[entry];
    this.step++;
    if (this.head < this.low) this.low = this.head;
    if (this.head > this.high) this.high = this.head;
    if (this.head < 1 || this.head > this.tape.length - 2) this.grow();
    return true;
  }

  grow() {
    const more = this.tape.length / 2, tape = new Uint8Array(4 * more);
    tape.set(this.tape, more);
    this.tape = tape;
    for (const place of ['origin', 'head', 'low', 'high']) this[place] += more;
  }
}

// The picture of so many steps of a table's run, or up to its halt: how many pixels it has, and what each shows; the time of its
// last row or later, up to which it was run; whether the table halts with the next step, and how many ones it leaves then; which
// times have a row, how many cells share a column, and the first and the last cell that the head visits. It has so many rows and
// columns at most, and one row more where the run halts.
function pictureOf(table, steps, rows = 2000, columns = 1200) {
  const whole = new Run(table);
  while (whole.step < steps && whole.go());
  const last = whole.step, halts = whole.isAtEnd(), from = whole.low - whole.origin, to = whole.high - whole.origin;
  const every = Math.floor(last / rows) + 1, share = Math.ceil((to - from + 1) / columns);
  const width = Math.ceil((to - from + 1) / share);
  const height = Math.floor(last / every) + 1 + Number(halts && last % every > 0);
  const picture = {width, height, cells: new Uint8Array(width * height), last, halts, every, share, from, to};
  fill(picture, new Run(table));
  return {...picture, ones: whole.ones + Number(whole.tape[whole.head] === 0)};
}

// Follows a run once more, with how many cells of each column hold a one, and fills in the rows.
function fill({width, cells, last, halts, every, share, from, to}, run) {
  const ones = new Uint32Array(width);
  const columnOf = place => Math.floor((place - run.origin - from) / share);
  const fillRow = offset => {
    for (let column = 0; column < width; column++) {
      const size = Math.min(share, to - from + 1 - column * share);
      cells[offset + column] = ones[column] === 0 ? BLANK : 2 * ones[column] > size ? MOST : SOME;
    }
    cells[offset + columnOf(run.head)] = HEAD + run.state;
  };
  for (let offset = 0; ; ) {
    if (run.step % every === 0 || (halts && run.step === last)) {
      fillRow(offset);
      offset += width;
    }
    if (run.step === last) return;
    const column = columnOf(run.head), before = run.ones;
    run.go();
    ones[column] += run.ones - before;
  }
}

// Red, green, blue and opacity of what a pixel shows, where the text of the page has the colour `ink`, as `rgb(27, 31, 36)`.
function paletteOf(ink) {
  const dark = ink.match(/\d+/g).slice(0, 3).map(Number);
  const colours = STATE_COLOURS.map(text => [1, 3, 5].map(place => parseInt(text.slice(place, place + 2), 16)));
  const shown = [[0, 0, 0, 0], [...dark, 90], [...dark, 255], ...colours.map(colour => [...colour, 255])];
  return new Uint32Array(Uint8Array.from(shown.flat()).buffer);
}

// Paints a picture on a canvas, so many pixels of the page wide for each of its own.
function paint(canvas, {width, height, cells}, zoom, ink) {
  const palette = paletteOf(ink), pen = canvas.getContext('2d');
  canvas.width = width;
  canvas.height = height;
  canvas.style.width = width * zoom + 'px';
  const image = pen.createImageData(width, height), pixels = new Uint32Array(image.data.buffer);
  cells.forEach((pixel, place) => {
    pixels[place] = palette[pixel];
  });
  pen.putImageData(image, 0, 0);
}

// Draws so many steps of a table's run on a canvas; answers the picture.
function drawRun(canvas, table, steps, zoom) {
  const picture = pictureOf(table, steps);
  paint(canvas, picture, zoom, getComputedStyle(document.body).color);
  return picture;
}
"#;
