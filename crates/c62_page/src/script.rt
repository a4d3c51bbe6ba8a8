//! The script of the page.

/// Marks what belongs to the instruction that is pointed at, and tells of it what the table of causes has. All else that the page
/// has is there without it.
pub const SCRIPT: &str = "\
(function () {
'use strict';
var told = document.getElementById('told');
var text = document.querySelector('aside');
var causes = new Map();
var waiting = new Map();
var bars = new Map();
var marked = [];
var held = false;
var keyed = false;

function add(map, key, value) {
  if (map.has(key)) { map.get(key).push(value); } else { map.set(key, [value]); }
}
document.querySelectorAll('.causes tr[data-line]').forEach(function (row) {
  causes.set(row.dataset.line, row);
  if (row.dataset.after) { add(waiting, row.dataset.after, row.dataset.line); }
});
document.querySelectorAll('.flight tr[data-line]').forEach(function (row) {
  add(bars, row.dataset.line, row);
});

function put(element, name) {
  if (element) { element.classList.add(name); marked.push([element, name]); }
}
function put_line(line, name) {
  put(document.getElementById('cell-' + line), name);
  put(document.getElementById('line-' + line), name);
}
function clear() {
  marked.forEach(function (pair) { pair[0].classList.remove(pair[1]); });
  marked = [];
}
function distance(needs) {
  var count = Math.abs(needs);
  var cycles = count === 1 ? ' cycle' : ' cycles';
  return needs < 0 ? 'at most ' + count + cycles + ' before it' : 'at least ' + count + cycles + ' behind it';
}
function sentence(line, row) {
  var cell = document.getElementById('cell-' + line);
  var words = 'line ' + line + (cell ? ' ' + cell.lastChild.textContent.replace('*', '').replace('/', 'stage ').trim() : '');
  if (!row) { return words; }
  words += ' in cycle ' + row.cells[1].textContent + ', slack ' + row.cells[2].textContent;
  if (row.dataset.needs) {
    words += '; waits for line ' + row.dataset.after + ', ' + distance(Number(row.dataset.needs));
  } else if (row.dataset.after) {
    words += '; waits for what line ' + row.dataset.after + ' has taken';
  }
  return words + '; not a cycle earlier: ' + row.cells[3].textContent;
}
function mark(line) {
  var row = causes.get(line);
  clear();
  if (row && row.dataset.after) { put_line(row.dataset.after, 'before'); }
  (waiting.get(line) || []).forEach(function (other) { put_line(other, 'behind'); });
  put_line(line, 'at');
  (bars.get(line) || []).forEach(function (bar) { put(bar, 'at'); });
  put(row, 'at');
  told.textContent = sentence(line, row);
}
function show_line(line) {
  var item = document.getElementById('line-' + line);
  if (!item || text.scrollHeight <= text.clientHeight) { return; }
  var frame = text.getBoundingClientRect();
  var place = item.getBoundingClientRect();
  if (place.top < frame.top || place.bottom > frame.bottom) {
    text.scrollTop += place.top - frame.top - text.clientHeight / 2;
  }
}
function line_of(target) {
  var element = target.closest ? target.closest('[data-line]') : null;
  return element ? element.dataset.line : null;
}
function tell(event) {
  var line = line_of(event.target);
  if (line === null) { return; }
  mark(line);
  if (!event.target.closest('aside')) { show_line(line); }
}
function rest() {
  clear();
  held = false;
  told.textContent = 'Point at an instruction, or go to one by Tab and the arrow keys. Escape clears.';
}
function step(cell, key) {
  var across = key === 'ArrowLeft' ? 'previousElementSibling' : key === 'ArrowRight' ? 'nextElementSibling' : null;
  var down = key === 'ArrowUp' ? 'previousElementSibling' : key === 'ArrowDown' ? 'nextElementSibling' : null;
  var next = cell;
  var row = cell.parentNode;
  while (across && (next = next[across])) {
    if (next.dataset.line) { return next; }
  }
  while (down && (row = row[down])) {
    if (row.cells[cell.cellIndex].dataset.line) { return row.cells[cell.cellIndex]; }
  }
  return null;
}

document.addEventListener('pointerover', function (event) {
  if (!held && !keyed) { tell(event); }
});
document.addEventListener('pointermove', function (event) {
  if (keyed && !held) { tell(event); }
  keyed = false;
});
document.addEventListener('focusin', tell);
document.addEventListener('click', function (event) {
  if (line_of(event.target) === null) { held = false; return; }
  held = true;
  tell(event);
});
document.addEventListener('keydown', function (event) {
  keyed = true;
  var cell = event.target.closest ? event.target.closest('.grid td[data-line]') : null;
  if (event.key === 'Escape') { rest(); return; }
  var next = cell && event.key.indexOf('Arrow') === 0 ? step(cell, event.key) : null;
  if (next) { event.preventDefault(); next.focus(); }
});
rest();
}());
";
