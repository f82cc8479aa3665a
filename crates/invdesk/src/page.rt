//! The page that a browser is given, and what it may do with it. This file is written by `tools/make_page.py` from
//! the files of `page/`.

/// The page, in parts that follow one another.
pub const PAGE: [&str; 4] = [
    r#"<!doctype html>
<html lang="en">
<head>
<meta charset="utf-8">
<meta name="viewport" content="width=device-width, initial-scale=1">
<meta name="color-scheme" content="light dark">
<title>invdesk</title>
<link rel="icon" href="data:,">
<style>
:root { --ground: #fbfbf9; --panel: #fff; --ink: #1c1f23; --soft: #5a626b; --line: #d5d9dd; --link: #0b5394;
  --tint: #eef2f5; --good: #14683a; --bad: #a61b1b; --warn: #8a5a00 }
@media screen and (prefers-color-scheme: dark) {
  :root { --ground: #14171a; --panel: #1d2125; --ink: #e8eaec; --soft: #a5adb5; --line: #3a4148; --link: #8cc4ff;
    --tint: #262c32; --good: #7fd6a0; --bad: #ff9c92; --warn: #ffcb6b }
}
* { box-sizing: border-box }
[hidden] { display: none !important }
body { margin: 0; background: var(--ground); color: var(--ink); font: 15px/1.45 sans-serif; overflow-wrap: anywhere }
a { color: var(--link) }
:focus-visible { outline: 3px solid #c2680d; outline-offset: 1px }
h1 { font-size: 1.5rem; margin: 0 0 .5rem }
h1:focus { outline: none }
h2 { font-size: 1.1rem; margin: 1.6rem 0 .5rem }
header { padding: .5rem 1rem; background: var(--panel); border-bottom: 1px solid var(--line) }
header, nav, .row { display: flex; flex-wrap: wrap; gap: .4rem 1rem; align-items: center }
nav { margin-right: auto }
[aria-current] { font-weight: 600; color: var(--ink) }
main, .notice { max-width: 78rem; margin: 0 auto; padding: 1rem }
.notice { padding: 0 1rem; position: sticky; top: 0; z-index: 5 }
input, select, textarea, button, .button { font: inherit; color: inherit; background: var(--panel); max-width: 100%;
  border: 1px solid var(--soft); border-radius: 6px; padding: .2rem .6rem }
button, .button { cursor: pointer; text-decoration: none; background: var(--tint) }
button.main { background: var(--link); color: var(--ground); font-weight: 600 }
button:disabled { opacity: .5; cursor: default }
input[inputmode=numeric] { width: 7rem }
input[aria-invalid=true] { border-color: var(--bad); box-shadow: 0 0 0 2px var(--bad) }
label { display: inline-flex; gap: .4rem; align-items: center }
.row { margin: .5rem 0 }
.soft { color: var(--soft) }
.good { color: var(--good) }
.bad { color: var(--bad) }
.warn { color: var(--warn) }
.unseen { position: absolute; width: 1px; height: 1px; overflow: hidden; clip-path: inset(50%) }
.chip { border: 1px solid; border-radius: 99px; padding: 0 .5rem; background: var(--tint); margin-right: .2rem }
table { border-collapse: collapse; width: 100%; background: var(--panel) }
th, td { text-align: left; font-weight: normal; padding: .3rem .6rem; border-bottom: 1px solid var(--line);
  vertical-align: top }
thead *, dt { font-weight: 600 }
thead button { border: 0; background: none; padding: 0 }
.n { text-align: right; white-space: nowrap }
.short { white-space: nowrap }
thead { overflow-wrap: normal }
.wide { width: 30% }
.wrap { overflow-x: auto }
.wrap:focus-within { overflow: visible }
.lists { float: right; margin: .3rem 0 0 }
.tools { margin: .2rem 0; justify-content: flex-end; font-size: .85rem }
.sorter { display: none }
.tools button { background: none; border-color: var(--line) }
.changed { background: color-mix(in srgb, var(--warn) 18%, var(--panel)) }
.bar, .stack { display: flex; height: 1.1rem; min-width: 3px; background: var(--tint) }
.stack { height: 2.6rem }
i { min-width: 2px; overflow: hidden; white-space: nowrap; font: .82rem sans-serif; color: #14171a }
.stack i { border-right: 1px solid; padding: .2rem }
.free { background: #8ecb9d }
.held { background: #f1c66b }
.stuck { background: #e59a8f }
.inner { background: #a9b7e8 }
.key i { padding: 0 .5rem; margin: 0 .3rem 0 1rem }
.two { display: grid; grid-template-columns: minmax(14rem, 22rem) minmax(0, 1fr); gap: 1.5rem }
@media (max-width: 50rem) { .two { display: block } }
.tree, .time { list-style: none; margin: 0; padding-left: 1.1rem }
.tree .tree, .time { border-left: 2px solid var(--line) }
.time .chip { margin-left: -2rem }
dl { display: grid; grid-template-columns: max-content 1fr; gap: .2rem 1rem; margin: .5rem 0 }
dd, dd.row { margin: 0 }
.card, .panel { background: var(--panel); border: 1px solid var(--line); padding: 1rem; margin: 0 0 1rem }
.card h2 { margin-top: 0 }
.panel:not([open]) { border: 0; background: none; padding: 0 }
summary.button { width: fit-content; margin: .5rem 0 }
form.card { max-width: 46rem }
.field { margin: 0 0 .8rem; position: relative }
.field > label, legend { display: block; font-weight: 600; padding: 0 }
.field input:not([type=checkbox]), .field select, textarea { width: 100% }
td .field { margin: 0; min-width: 12rem }
.flag { display: grid; grid-template-columns: max-content 1fr; gap: .2rem .6rem; padding: .2rem 0 }
fieldset { border: 0; margin: 0; padding: 0; min-width: 0 }
[role=listbox] { position: absolute; z-index: 4; left: 0; right: 0; margin: 0; padding: .2rem; list-style: none;
  background: var(--panel); border: 1px solid var(--soft); max-height: 17rem; overflow: auto }
[role=option] { padding: .2rem .5rem; cursor: pointer }
[aria-selected=true], [aria-selected=true] .soft { background: var(--link); color: var(--ground) }
.said { border-left: 5px solid; background: var(--panel); padding: .6rem 1rem; margin: 1rem 0 }
.said ul { margin: .2rem 0 .4rem }
.panel dl { gap: .6rem 1rem }
@media screen and (max-width: 40rem) {
  body { font-size: 16px }
  header { padding: .3rem .6rem; gap: .3rem .5rem }
  main { padding: .6rem }
  nav { flex-wrap: nowrap; overflow-x: auto; width: 100%; gap: .2rem .3rem }
  nav a { padding: .65rem .5rem; white-space: nowrap }
  header form { flex: 1 1 8rem }
  header form input { width: 100% }
  input:not([type=checkbox]), select, button, summary { min-height: 44px }
  input[type=checkbox] { width: 26px; height: 26px; margin: 9px }
  .button, td a, th a, dd a, .lists a { display: inline-flex; align-items: center; min-height: 44px }
  td a, th a { min-width: 44px }
  table, tbody, tr, tbody th, td { display: block; background: none }
  thead, .late, td:empty, td:has(> span:empty:only-child), #again, #print { display: none !important }
  tbody tr { background: var(--panel); border: 1px solid var(--line); border-radius: 8px; margin: 0 0 .6rem;
    padding: .3rem .7rem }
  tbody th, td { border: 0; padding: .15rem 0; width: auto; white-space: normal }
  tbody th { font-weight: 600; font-size: 1.08rem }
  td { display: flex; gap: .8rem; justify-content: space-between; align-items: center }
  td::before { content: attr(data-title); color: var(--soft); flex: none; max-width: 45% }
  td > .field, td > div { flex: 1; min-width: 0 }
  .short { white-space: normal }
  .lists { float: none; margin: 0 }
  .tools { justify-content: flex-start }
  .sorter { display: inline-block }
  .tree { padding-left: .7rem }
  .tree a { padding: .55rem 0; display: inline-block }
  [role=option] { padding: .7rem .5rem }
  dl { grid-template-columns: minmax(5rem, max-content) minmax(0, 1fr) }
}
@media print {
  header, .acts, .more, .notice, .card, .panel, .tools, .unprinted, summary.button, td button, td .button {
    display: none !important }
  figure.card { display: block !important }
  body { font-size: 11px }
  tr, li { break-inside: avoid }
  thead { display: table-header-group }
  i { print-color-adjust: exact }
}
</style>
</head>
<body>
<header>
  <nav id="views" aria-label="Views"></nav>
  <form id="find" role="search">
    <input type="search" name="text" aria-label="Find (key /)" placeholder="Find (key /)" autocomplete="off">
  </form>
  <label>Day <input type="date" id="day" min="2000-01-01" max="2099-12-31" required></label>
  <span id="byhand" class="warn" role="status" hidden></span>
  <button type="button" id="again">Refresh</button>
  <button type="button" id="print">Print</button>
</header>
<div id="notices" class="notice"></div>
<main id="main"></main>
<p id="status" class="unseen" role="status"></p>
<noscript>This page needs JavaScript.</noscript>
<script>
'use strict';

const COMMANDS = `
add_category name:text parent:category? | bdz | a category
add_location name:text parent:location? | bdz | a location
add_part name:text category? template:part? flags:words | bdefxz | a part
retire_part part | bf | the part is retired
add_line assembly:part component:part quantity:number optional:yes consumable:yes inherited:yes variants:yes | bcefjkz | a line
drop_line line | bj | the line and its substitutes go
add_substitute line part | befjkz | a substitute
drop_substitute substitute | bj | it goes
found part location quantity:number batch:text? serials:list? | bcefvwz | without serials a new item at the location, else one of a single piece for each, in their order; all Okay
add item quantity:number | bcnoyz | the item is larger
remove item quantity:number | bcnqstz | one with a serial goes off as removed; else it is smaller, and gone at 0
count item quantity:number | bcnotz | one with a serial that is counted 0 goes off as counted, with its content, and a 'written' entry for each node; else the difference is a 'found' entry or a 'written' entry, and nothing where there is none
transfer item location quantity:number | bcnstz | less than the whole is cut off first, as a new item; that, or the whole, goes to the location, with its content
split item quantity:number | bcnostz | a new item beside it
merge into:item items | bchnotyz | each is poured into 'into', in the order of the list
serialise item quantity:number serials:list | bcenostvwz | a piece is cut off for each serial, in their order
set_status item status:word | bntz | the item has that status
install item parent:item quantity:number | bclmnprstxz | less than the whole is cut off first, as a new item; that, or the whole with its content, lies in the parent
uninstall item location | bgnz | it comes out to the location, with its content
disassemble item location | bnptz | what lies directly in it comes out to the location, in order of number, each with its own content; then the item goes off as disassembled
reinstate item location | bgz | it comes back to the location, with its content
order side:word partner:text | z | an order, pending
order_line order part quantity:number | bcefgz | a line, of which nothing is done
issue_order order | bg | it is in progress
receive line:order_line location quantity:number batch:text? serials:list? | bceghuvwz | new items as by 'found', of the line's part; so much more of the line is done
allocate_sale line:order_line item quantity:number | bcghmnrtuz | an allocation
ship order | bghsz | for each of its allocations, in order of number: less than the item has then is cut off first, as a new item; that, or the whole with its content, is sent
return_item item location | bgz | it comes back to the location, with its content, and is itself marked as returned
close_order order | bgs | it is complete
cancel_order order | bg | it is cancelled, and its allocations go
build part quantity:number | bcefz | a build, pending, of which nothing is done
issue_build build | bg | it is in production
hold_build build | bg | it is on hold
cancel_build build | bg | it is cancelled, its allocations go and what was spent on it, and each of its outputs is gone, in order of number
outputs build quantity:number batch:text? serials:list? | bcegpuvwz | new items as by 'found', of the build's part, as its outputs
complete_output output:item location | bgsxz | it comes to the location. For each of its allocations, in order of number: less than the item has then is cut off first, as a new item; that, or the whole with its content, lies in it
cancel_output output:item | bg | its allocations go, and it is gone
scrap_output output:item | bgz | its allocations go, and it goes off as scrapped; 'built' entry, with its place until then, and 'written' entry
allocate_build build line item quantity:number output:item? | bcgmnrtuz | an allocation
auto_allocate build substitutes:yes optional:yes | bgz | what untracked lines lack is allocated from what is free, as above: for optional lines too where 'optional' is said, and from substitutes too where 'substitutes' is; an allocation for each amount that isn't 0
complete_build build | bgisz | for each of its allocations, in order of number: less than the item has then is cut off first, as a new item; that, or the whole with its content, is used up
consume allocation | bghz | less than the item has is cut off first, as a new item; that, or the whole with its content, is used up
release allocation | b | the allocation goes
`;
const WORDS = `
KeyTaken | Another request was done under this key.
NoSuch | A number, or a key, says no row of the kind that belongs in that field; or there is nothing to report of.
BadNumber | A quantity is 0 or above 1,000,000,000, or items to merge are none or more than 100. Only a count may be 0.
NameTaken | Another part has the name, or another category or location under the same parent.
WrongFlag | A part's flags don't allow it: it is to be bought and isn't purchaseable, has serials and isn't trackable, is virtual and to be stocked.
Retired | The part is retired, and stays so.
WrongState | The order, the build or the item isn't in the state that this is for: an order isn't issued yet or is complete, a build is on hold, an item that is to come back isn't away.
Mismatch | The order is a purchase and a sale is asked for, or the other way round; the allocation to be consumed is an order's or an output's; or items to merge differ in part, batch or status, or one stands there twice.
OpenOutputs | The build has an output that isn't finished.
InUse | An open build goes by this bill; or the line takes the part already, without a substitute.
Cycle | A part would be made of itself, by one step or many.
SelfInside | The item would lie in itself, as what it is to go into lies in it.
Unfit | No line of the bill takes this part in there, or the line that was named doesn't take it. Or it is for a build: a line whose component is trackable needs an 'output', and any other has none.
NotLoose | The item isn't at a location by itself: it lies in another, was sent, was used or is off the books. Or what it is to go into isn't at a location.
Serialised | The item has a serial, and this is for items without.
NotSerialised | The item has no serial, and this is for pieces with one; or outputs are begun without serials and have to have them.
HasContent | Something lies in the item.
Unavailable | The item's status isn't OK, Attention, Damaged or Returned.
Short | There is less than that; of what is to be split there has to be more. To ship, nothing is allocated; to close or complete, something is still missing.
Allocated | Too much of the item is allocated to orders or builds.
OverNeed | The order's line or the build doesn't want as much any more.
SerialCount | There are more or fewer serials than pieces.
SerialTaken | A serial stands twice in the list, or a piece of this part, of its template or of another variant has it. A piece that was sent, used or written off keeps its own.
TooDeep | A chain of templates would have more than four parts, or items would lie in one another more than sixteen deep.
TooLarge | The item would have more than 1,000,000,000 pieces.
Full | The numbers for rows, or for entries of the history, are used up: there are 10,000,000,000 of each.
BadText | A name, a batch or a partner isn't 1 to 200 bytes, or has a tab or another control character in it.
BadSerials | The serials can't be read: one is empty, has a wrong character or more than 24, a range doesn't rise, or there are more than 1,000.
`;
const COLUMNS = `
categories id name parent
locations id name parent
parts id name category template flags retired
lines id assembly component quantity flags
substitutes id line part
items id part batch serial status quantity place ref
orders id side partner state
order_lines id owner part quantity done
builds id part quantity state done
allocations id item quantity side owner line output
spent id build line quantity
history n day kind item part quantity place ref
`;
const [FLAGS, LINE_FLAGS, STATUSES, SIDES, PLACES, REASONS, KINDS, ORDER_STATES, BUILD_STATES] = `
template,assembly,component,trackable,purchaseable,salable,virtual
optional,consumable,inherited,variants
OK,Attention,Damaged,Destroyed,Rejected,Lost,Quarantined,Returned
purchase,sale
at,in,output,sent,used,off,gone
removed,counted,disassembled,scrapped
received,found,built,consumed,shipped,returned,written,moved,cut,poured,installed,taken_out,marked
pending,in progress,complete,cancelled
pending,production,on hold,cancelled,complete
`.trim().split('\n').map(row => row.split(','));


const TITLES = { found: 'Found stock', order: 'New order', order_line: 'New line of an order', build: 'New build',
  add: 'Add to an item', remove: 'Take out', count: 'Count', outputs: 'Begin outputs', consume: 'Use up' };
const GROUPS = { add_category: 'Parts, places and bills', found: 'Stock', order: 'Orders', build: 'Builds' };
const FLAG_WORDS = {
  template: 'Other parts can be variants of it.', assembly: 'It has a bill of other parts and can be built.',
  component: 'It can stand in the bill of another part.', trackable: 'Its pieces can have serials.',
  purchaseable: 'It can be bought, on a purchase.', salable: 'It can be sold, on a sale.',
  virtual: 'It is never in stock, as an hour of work; no other flag but component goes with it.',
};
const [AT, IN, OUTPUT, SENT, USED, OFF, GONE] = [0, 1, 2, 3, 4, 5, 6], ALLOCATABLE = [0, 1, 2, 7];
const [PENDING, PROGRESS] = [0, 1], ON_HOLD = 2;
const capital = text => text.charAt(0).toUpperCase() + text.slice(1), plain = word => word.replace(/[_/]/g, ' ');
const rowsOf = text => text.trim().split('\n').map(row => row.split(' | '));
const FORMS = new Map(rowsOf(COMMANDS).map(([said, refusals, effect]) => {
  const [command, ...fields] = said.split(' ');
  return [command, { command, title: TITLES[command] || capital(plain(command)), refusals,
    does: /^(an?|new) /.test(effect) ? `It makes ${effect}.` : `${capital(effect)}.`, fields: fields.map(field => {
      const [name, kind = name] = field.replace('?', '').split(':');
      return { name, kind, isOptional: field.endsWith('?') };
    }) }];
}));
const MEANINGS = new Map(rowsOf(WORDS));


function node(tag, ...inner) {
  const [name, look] = tag.split('.'), made = document.createElement(name);
  if (look) made.className = look;
  for (const it of inner.flat(9)) {
    if (it?.constructor === Object) for (const [key, value] of Object.entries(it)) {
      if (typeof value === 'function') made.addEventListener(key, value);
      else if (value != null && value !== false) made.setAttribute(key, value === true ? '' : value);
    } else if (it) made.append(it);
  }
  return made;
}
const byId = id => document.getElementById(id), main = byId('main');
const name = text => node('bdi', text), soft = (...inner) => node('span.soft', inner);
const link = (to, ...inner) => node('a', { href: '#/' + to }, inner);
const digits = n => String(n).replace(/\B(?=(\d{3})+$)/g, '\u202f');
const signed = n => (n > 0 ? '+' : n < 0 ? '\u2212' : '') + digits(Math.abs(n));
const chip = (text, look = '') => node('span.chip ' + look, text);
const button = (text, click, look = '') => node('button.' + look, { type: 'button', click }, text);
const acts = (...inner) => node('div.row acts', inner);
const tick = (text, checked, change) =>
  node('label', node('input', { type: 'checkbox', checked, change: event => change(event.target.checked) }), text);
const section = (title, ...inner) => node('section', node('h2', title), inner);
function opening(look, words, make, open) {
  const made = node('details.' + look, { open, toggle: () => made.children[1] || made.append(make()) },
    node(look ? 'summary.button' : 'summary', words), open && make());
  return made;
}
const panel = (title, make, isOpen) => opening('panel acts', title, () => node('div', make()), isOpen);
const facts = pairs => node('dl', Object.entries(pairs).map(([word, it]) => it && [node('dt', word), node('dd', it)]));
const list = rows => node('ul', rows.map(it => node('li', it))), each = (rows, made) => rows.map(it => [made(it), ' ']);
const says = (look, ...inner) =>
  node('div.said ' + look, { role: look === 'good' ? 'status' : 'alert', tabindex: -1 }, inner);

const numberBox = (label, more = {}) => node('input', { type: 'text', inputmode: 'numeric', autocomplete: 'off',
  'aria-label': label, ...more });
const NUMBER = ' *([0-9]{1,15}|[0-9]{1,3}([ ,\u00a0\u202f][0-9]{3}){1,4}) *';
const numberIn = text => RegExp(`^${NUMBER}$`).test(text) ? Number(text.replace(/\D/g, '')) : NaN;

function piece(look, share, title, ...inner) {
  const made = node('i.' + look, { title }, inner);
  made.style.flex = `${share} 0 0`;
  return made;
}
function bar(pieces, whole = 0) {
  const there = pieces.filter(it => it[1] > 0), rest = whole - sum(there, 1);
  const told = there.map(([, amount, word]) => `${word} ${digits(amount)}`);
  return node('span.bar', { role: 'img', 'aria-label': told.join(', ') || 'none' },
    there.map(([look, amount], at) => piece(look, amount, told[at])), rest > 0 && piece('', rest, 'left'));
}

let printing = [];   // what draws more of itself before it is printed
addEventListener('beforeprint', () => printing.forEach(it => it()));

function slices(parent, drawn) {
  let rows = [], at = 0;
  const more = button('', () => draw(1000), 'more');
  const watch = new IntersectionObserver(seen => seen.some(it => it.isIntersecting) && draw(100));
  const draw = count => {
    parent.append(...rows.slice(at, at + count).map(drawn));
    at = Math.min(rows.length, at + count);
    more.hidden = at >= rows.length;
    more.textContent = `Show more (${digits(at)} of ${digits(rows.length)} are shown)`;
    watch.unobserve(more);
    if (!more.hidden) watch.observe(more);
  };
  printing.push(() => draw(Math.max(0, 3000 - at)));
  return { more, next: () => draw(100),
    renew: fresh => { [rows, at] = [fresh, 0]; parent.replaceChildren(); draw(25); } };
}

function column(title, of, show, look = '') {
  const by = typeof of === 'string' ? row => row[of] : of;
  return { title, by, show: show || by, look };
}
const cell = (title, show, look) => column(title, null, show, look);
function numbers(title, of, look = 'n') {
  const { by } = column(title, of);
  return { ...column(title, by, row => digits(by(row)), look), told: by };
}
function parts(title, of) {
  const { by } = column(title, of);
  return column(title, row => partName(by(row)).toLowerCase(), row => partLink(by(row)), 'head');
}
const rowNumbers = view => column(capital(view), 'id', row => link(`${view}/${row.id}`, row.id), 'n');
const states = words => column('State', 'state', row => chip(words[row.state]));

const sortings = new Map();
function table(caption, columns, rows, save) {
  const word = `${here().split('?')[0]} ${caption}`;
  let [by, isDown] = sortings.get(word) ?? [], shown = rows;
  by = columns.find(it => it.by && it.title === by);
  const sort = (column, down) => {
    [by, isDown] = [column, down];
    sortings.set(word, [by?.title, isDown]);
    renew(rows);
  };
  const body = node('tbody'), none = soft('None.'), drawn = slices(body, row => node('tr', columns.map(it =>
    it.look === 'head' ? node('th', { scope: 'row' }, it.show(row)) :
      node('td.' + it.look, { 'data-title': it.title }, it.show(row)))));
  const heads = columns.map(it => node('th.' + it.look, { scope: 'col' },
    it.by ? button(it.title, () => sort(it, by === it && !isDown)) : it.title));
  const sorter = columns.some(it => it.by) && node('select.sorter', { 'aria-label': 'Sort by', 'data-view': true,
    change: () => sort(columns[sorter.value.slice(1)], sorter.value[0] === 'd') }, node('option', { value: '' },
    'Sort by'), columns.map((it, at) => it.by && ['up', 'down'].map(way =>
    node('option', { value: way[0] + at }, `${it.title}, ${way}`))));
  const grid = node('table', node('caption.unseen', caption), node('thead', node('tr', heads)), body);
  const tools = node('div.row tools', sorter, button('CSV', save ?? (() => saveTable(caption, columns, shown))),
    button('Print this', () => printOnly(whole)));
  const whole = node('div.table', tools, node('div.wrap', grid, none, drawn.more));
  const renew = fresh => {
    rows = fresh;
    heads.forEach((it, at) => it.ariaSort = columns[at] !== by ? 'none' : isDown ? 'descending' : 'ascending');
    const order = ([a], [b]) => (a < b ? -1 : a > b ? 1 : 0) * (isDown ? -1 : 1);
    if (sorter) sorter.value = by ? (isDown ? 'd' : 'u') + columns.indexOf(by) : '';
    shown = by ? rows.map(row => [by.by(row), row]).sort(order).map(it => it[1]) : rows;
    drawn.renew(shown);
    grid.hidden = tools.hidden = !rows.length;
    none.hidden = !grid.hidden;
  };
  renew(rows);
  return Object.assign(whole, { renew, next: drawn.next });
}
const listed = (title, columns, rows) => section(title, table(title, columns, rows));

function csvOf(rows) {
  const cellOf = it => {
    const text = String(it ?? '').replace(/^[=+\-@\t\r]/, "'$&");
    return /[",\r\n;]/.test(text) ? `"${text.replaceAll('"', '""')}"` : text;
  };
  return '\ufeff' + rows.map(row => row.map(cellOf).join(',') + '\r\n').join('');
}
function textOf(it) {
  if (Array.isArray(it)) return it.map(textOf).join('');
  if (!(it instanceof Node)) return it ? String(it) : '';
  const box = it.matches?.('input') ? it : it.querySelector?.('input:not([type=checkbox])');
  return [it.textContent, box?.value, it.ariaLabel].filter(Boolean).join(' ').replace(/\u202f/g, '');
}
function saveTable(caption, columns, rows) {
  const good = columns.filter(it => !it.isAct);
  const told = rows.map(row => good.map(it => it.told ? it.told(row) : textOf(it.show(row)).trim()));
  const text = csvOf([good.map(it => it.title), ...told]);
  const word = `${document.title.replace(/ - invdesk$/, '')} ${caption}`.replace(/[^\w.-]+/g, '-').slice(0, 60);
  saveFile(`${word}-${today()}.csv`, text);
}
function saveFile(download, text, type = 'text/csv;charset=utf-8') {
  const href = URL.createObjectURL(new Blob([text], { type }));
  node('a', { href, download }).click();
  setTimeout(() => URL.revokeObjectURL(href), 10000);
}
function printOnly(made) {
  const hidden = [];
  for (let it = made; it !== main; it = it.parentElement)
    hidden.push(...[...it.parentElement.children].filter(other => other !== it && !/H1|H2/.test(other.tagName)));
  hidden.forEach(it => it.classList.add('unprinted'));
  addEventListener('afterprint', () => hidden.forEach(it => it.classList.remove('unprinted')), { once: true });
  print();
}


const day = byId('day');
let isByHand = false;
function today() {
  const now = new Date();
  return new Date(now - 60000 * now.getTimezoneOffset()).toISOString().slice(0, 10);
}
function keepDay() {
  isByHand &&= day.value !== today();
  if (!isByHand && day.value !== today()) day.value = today();
  byId('byhand').hidden = !isByHand;
}
byId('byhand').append('Set by hand. ', button('Today', () => { isByHand = false; keepDay(); }));
day.addEventListener('input', () => { isByHand = true; });
day.addEventListener('change', keepDay);


let token = '', turn = Promise.resolve(), provenAt = null;
const setToken = text => { [token, provenAt] = [text, null]; };
const hexOf = bytes => [...new Uint8Array(bytes)].map(it => it.toString(16).padStart(2, '0')).join('');
const bytesOf = text => new TextEncoder().encode(text);
const fetchNow = (path, options) => fetch(path, { ...options, cache: 'no-store', signal: AbortSignal.timeout(120000) });

const PROOF_HOLDS = 5000;
const isProven = () => provenAt !== null && Math.abs(Date.now() - provenAt) < PROOF_HOLDS;
const unproven = why => Object.assign(new Error(`${why} Nothing was sent`), { isUnproven: true });
async function prove() {
  await dismissWorkers();
  const nonce = hexOf(crypto.getRandomValues(new Uint8Array(16)));
  const reply = await fetchNow(`/prove/${nonce}`), told = await reply.text();
  const key = await crypto.subtle.importKey('raw', bytesOf(token), { name: 'HMAC', hash: 'SHA-256' }, false, ['sign']);
  const right = await crypto.subtle.sign('HMAC', key, bytesOf(`${location.port || 80}:${nonce}`));
  if (reply.status !== 200 || told !== hexOf(right))
    throw unproven("What listens at this port doesn't know the token: it is another program, or the token is wrong.");
  provenAt = Date.now();
}
async function dismissWorkers() {
  const workers = await navigator.serviceWorker?.getRegistrations() ?? [];
  await Promise.all(workers.map(it => it.unregister()));
  if (navigator.serviceWorker?.controller)
    throw unproven('Another program at this port had left a worker in the browser. Load the page again.');
}

function ask(path, options) {
  const answer = turn.then(() => askNow(path, options));
  turn = answer.catch(() => {});
  return answer;
}
async function askNow(path, { headers, ...options } = {}) {
  if (token && !isProven()) await prove();
  const all = { ...headers, ...token && { Authorization: `Bearer ${token}` } };
  try {
    const reply = await fetchNow(path, { ...options, headers: all }), text = await reply.text();
    if (reply.status === 401) askForToken();
    return { status: reply.status, tag: reply.headers.get('ETag'), text };
  } catch (fault) {
    provenAt = null;
    throw fault;
  }
}
const statusWords = status => `The program answered ${status}${status === 500 ? ': its file failed' : ''}.`;
async function get(path, headers) {
  const answer = await ask(path, { headers });
  if (answer.status !== 200 && answer.status !== 304) throw new Error(statusWords(answer.status));
  return answer;
}
const report = async (which, id) =>
  (await get(`/report/${which}/${id}`)).text.split('\n').filter(Boolean).map(line => line.split('\t'));

function newKey() {
  keepDay();
  return `${day.value}/page-${hexOf(crypto.getRandomValues(new Uint8Array(12)))}`;
}
function lineOf(command, fields, key = newKey()) {
  keepDay();
  return JSON.stringify({ day: day.value, do: command, key, ...fields });
}
const store = {
  get: key => JSON.parse(sessionStorage.getItem(key) ?? 'null'),
  set(key, value) { try { sessionStorage.setItem(key, JSON.stringify(value)); } catch { /* there is no room */ } },
  drop: key => sessionStorage.removeItem(key),
  keys: begin => Object.keys(sessionStorage).filter(it => it.startsWith(begin)),
};
const OPEN = 'open:', RUN = '/run', LINES = '/lines';
const UNKNOWN = "It isn't known whether this was done. Send it again: it is done once. ";
async function send(line, path = RUN, key = path === RUN ? JSON.parse(line).key : path) {
  store.set(OPEN + key, openAt(key) ?? { line, path, books: marksOf(), was: factsIn(line, path) });
  for (let tries = 1; ; tries++) {
    try {
      const { status, text } = await ask(path, { method: 'POST', body: line });
      const faults = text.split('\n').filter(Boolean), said = path !== RUN && status === 200 ? { report: text } :
        JSON.parse(faults[0]);
      const word = said.refused || said.fault;
      if (status >= 500) return { isOpen: true, why: statusWords(status) };
      store.drop(OPEN + key);
      if (status === 200) return { isDone: true, tries, ...said };
      return word ? { word, said, faults, why: [MEANINGS.get(word) ?? word, soft(` (${word}. Nothing has changed.)`)]
      } : { why: statusWords(status) };
    } catch (fault) {
      if (tries === 3) return { isOpen: true, why: fault.message };
      await new Promise(go => setTimeout(go, 400 * tries));
    }
  }
}
const SETTLE = { isHeld: true, why: 'The same was sent before and not answered. Settle that first, above.' };
function sendText(text, path, key = path) {
  const open = openAt(key);
  if (!open || open.line === text || !areThese(open.books)) return send(text, path, key);
  offerOpen(true);
  return SETTLE;
}
const openAt = key => {
  const kept = store.get(OPEN + key);
  return typeof kept === 'string' ? { line: kept, path: RUN, books: [], was: [] } : kept;
};
const factsIn = (line, path) => path !== RUN ? [] : (({ do: command, ...fields }) =>
  namedIn(command, fields).map(([kind, id]) => [kind, id, factOf(kind, id)]))(JSON.parse(line));
const AMOUNTS = ['do', 'day', 'key', 'location', 'quantity', 'batch', 'serials', 'status'];
const openLike = (command, fields, key) => store.keys(OPEN).map(it => it.slice(OPEN.length)).find(other => {
  const { line, path, books } = openAt(other);
  if (path !== RUN || other === key || !areThese(books)) return false;
  const was = JSON.parse(line), names = Object.keys({ ...was, ...fields }).filter(it => !AMOUNTS.includes(it));
  return was.do === command && names.every(it => String(was[it] ?? '') === String(fields[it] ?? ''));
});
let calm = 0;
const hush = () => { calm = performance.now() + 500; };
const isEarly = go => go?.disabled || performance.now() < calm || !day.reportValidity();


const books = {}, TEXTS = ['name', 'batch', 'serial', 'partner', 'day'];
let find = null, stock = null, choices = null, entries = 0, tag = null, reading = null, isOther = false, readAt = 0;
const READERS = rowsOf(COLUMNS).map(([row]) => row.split(' ')).map(([table, ...columns]) => {
  const isText = columns.map(it => TEXTS.includes(it));
  return [table, texts => {
    const row = {};
    for (let at = 0; at < columns.length; at++)
      row[columns[at]] = texts[at] === '' ? null : isText[at] ? texts[at] : Number(texts[at]);
    return row;
  }];
});
const entryIn = READERS.pop()[1];

async function read() {
  const answer = await get('/books', tag && { 'If-None-Match': tag });
  readAt = performance.now();
  if (answer.status === 304) return false;
  const told = JSON.parse(answer.text), marks = find ? marksOf() : [];
  for (const [table, rowIn] of READERS) {
    const rows = books[table] = new Map();
    for (const texts of told[table]) {
      const row = rowIn(texts);
      rows.set(row.id, row);
    }
  }
  [tag, entries] = [answer.tag, Number(told.meta[0][3])];
  if (!areThese(marks)) {
    [isOther, lastPlace] = [true, null];
    keyNames.clear();
    lookedFor.clear();
  }
  workOut();
  return true;
}
const refresh = () => reading ||= read().finally(() => { reading = null; });

const keyNames = new Map(), lookedFor = new Set();
const owners = () => [...books.orders.keys(), ...books.builds.keys()];
function ownersShown() {
  const [view, word] = place();
  return ['order', 'build'].includes(view) ? [Number(word)] :
    !lookedFor.size || ['orders', 'builds', 'find', 'do', 'shopping', 'files'].includes(view) ? owners() : [];
}
async function readNames(wanted) {
  if (wanted.every(id => lookedFor.has(id) || !owners().includes(id))) return false;
  const told = await get('/export/kept'), before = keyNames.size;
  for (const line of told.text.split('\n')) {
    const made = line.includes('""do"":""order""') || line.includes('""do"":""build""');
    const [, key, id] = made && line.match(/^("(?:[^"]|"")*"|[^,]*),".*"\{""entries"":\d+,""ids"":\[(\d+)/) || [];
    if (key) nameRow(Number(id), key.startsWith('"') ? key.slice(1, -1).replaceAll('""', '"') : key);
  }
  owners().forEach(id => lookedFor.add(id));
  return keyNames.size > before;
}
const isMadeUp = key => /(^|\/)page-[0-9a-f]{24}$|^\d{4}-\d\d-\d\d\/\d+$/.test(key);
function nameRow(id, key) {
  lookedFor.add(id);
  if (isMadeUp(key)) return;
  keyNames.set(id, key);
  choices = new Map();
}

const LASTING = { categories: 'name', locations: 'name', parts: 'name', orders: 'partner', builds: 'part',
  order_lines: 'part', items: 'part' };
const marksOf = () => Object.entries(LASTING).flatMap(([table, word]) => {
  const rows = [...books[table].values()];
  return [...new Set([...rows.slice(0, 3), ...rows.slice(-1)])].map(row => [table, row.id, row[word]]);
});
const areThese = marks => marks.every(([table, id, it]) => books[table].get(id)?.[LASTING[table]] === it);

function group(table, keyOf) {
  const lists = new Map(), by = typeof keyOf === 'string' ? row => row[keyOf] : keyOf;
  for (const row of books[table].values()) {
    const key = by(row), known = lists.get(key);
    if (known) known.push(row);
    else if (key) lists.set(key, [row]);
  }
  return key => lists.get(key) || [];
}
const lazily = make => { let made = null; return () => made ||= make(); };
const sum = (rows, field) => rows.reduce((total, row) => total + row[field], 0);
const leftOf = row => row.quantity - row.done;
function workOut() {
  const placed = place => group('items', it => it.place === place && it.ref);
  choices = new Map();
  stock = new Map();
  find = {
    itemsOf: group('items', it => it.place !== GONE && it.part), itemsAt: placed(AT), itemsIn: placed(IN),
    outputsOf: placed(OUTPUT), sentFor: placed(SENT), usedBy: placed(USED),
    allocationsOf: group('allocations', 'item'), allocationsOn: group('allocations', it => `${it.side} ${it.line}`),
    allocationsFor: group('allocations', it => `${it.side} ${it.owner}`), substitutesOf: group('substitutes', 'line'),
    billOf: group('lines', 'assembly'), usesOf: group('lines', 'component'), variantsOf: group('parts', 'template'),
    placesIn: group('locations', it => it.parent || 'top'), linesOf: group('order_lines', 'owner'),
    orderedOf: group('order_lines', 'part'), buildsOf: group('builds', 'part'), under: new Map(),
    spentOf: group('spent', it => `${it.build} ${it.line}`), paths: new Map(),
    sortedParts: lazily(() => byName(books.parts.values())),
    sortedItems: lazily(() => find.sortedParts().flatMap(it => find.itemsOf(it.id).filter(isAt))),
  };
  for (const part of books.parts.values()) {
    const coming = find.orderedOf(part.id).filter(it => !orderOf(it).side && orderOf(it).state < 2);
    stock.set(part.id, { part, present: 0, free: 0, held: 0, stuck: 0, inner: 0,
      coming: coming.reduce((total, it) => total + leftOf(it), 0) });
  }
  for (const item of books.items.values()) {
    let root = item;
    for (let deep = 0; root?.place === IN && deep < 20; deep++) root = books.items.get(root.ref);
    const sums = stock.get(item.part), held = heldOf(item);
    if (!sums || root?.place !== AT) continue;
    sums.present += item.quantity;
    sums.held += held;
    sums[item.place === IN ? 'inner' : ALLOCATABLE.includes(item.status) ? 'free' : 'stuck'] += item.quantity - held;
  }
  const count = place => {
    const total = find.placesIn(place).reduce((all, it) => all + count(it.id), find.itemsAt(place).length);
    find.under.set(place, total);
    return total;
  };
  count('top');
  find.fixed = new Set([...books.builds.values()].flatMap(it => it.state < 3 ? [it.part, ...above(it.part)] : []));
}
const orderOf = line => books.orders.get(line.owner), heldOf = item => sum(find.allocationsOf(item.id), 'quantity');
const isAt = item => item.place === AT, isUsable = item => ALLOCATABLE.includes(item.status);
const freeOf = item => isAt(item) && isUsable(item) ? item.quantity - heldOf(item) : 0;
const freeIn = part => stock.get(part)?.free ?? 0, comingOf = part => stock.get(part)?.coming ?? 0;
const bitOf = flag => Math.max(FLAGS.indexOf(flag), LINE_FLAGS.indexOf(flag));
const has = (row, flag) => (row?.flags >> bitOf(flag)) % 2 === 1;
const flagsOf = (row, words = FLAGS) => words.filter(it => has(row, it));
const partAt = id => books.parts.get(id);

function above(part) {
  const next = books.parts.get(part)?.template;
  return next ? [next, ...above(next)] : [];
}
const below = part => find.variantsOf(part).flatMap(it => [it.id, ...below(it.id)]);
const linesFor = part => [...find.billOf(part), ...above(part).flatMap(find.billOf).filter(it => has(it, 'inherited'))]
  .sort((a, b) => a.id - b.id);
const isOwn = (line, part) => part === line.component || has(line, 'variants') && above(part).includes(line.component);
const fits = (line, part) => isOwn(line, part) || find.substitutesOf(line.id).some(it => it.part === part);

const partsFor = line => [line.component, ...has(line, 'variants') ? below(line.component) : [],
  ...find.substitutesOf(line.id).map(it => it.part)];
const freeItems = parts => parts.flatMap(part => find.itemsOf(part)).filter(it => freeOf(it) > 0);
const byAge = rows => [...rows].sort((a, b) => a.id - b.id);
function shares(items, wanted, left) {
  const given = [];
  for (const item of items) {
    const rest = left.get(item.id) ?? freeOf(item), quantity = Math.min(rest, wanted);
    if (quantity <= 0) continue;
    left.set(item.id, rest - quantity);
    wanted -= quantity;
    given.push({ item: item.id, quantity });
  }
  return given;
}

const wantedOf = line => leftOf(line) - sum(find.allocationsOn(`0 ${line.id}`), 'quantity');
const isOpenBuild = build => build.state < 3;
const allocatedFor = (build, line, output = null) => sum(find.allocationsOn(`1 ${line.id}`).filter(it =>
  it.owner === build.id && (!output || it.output === output)), 'quantity');
function needsOf(build) {
  return !isOpenBuild(build) ? [] : linesFor(build.part).filter(it => !has(it, 'consumable')).map(line => {
    const isTracked = has(partAt(line.component), 'trackable'), spent = sum(find.spentOf(`${build.id} ${line.id}`),
      'quantity');
    const required = isTracked ? line.quantity * leftOf(build) : Math.max(0, line.quantity * build.quantity - spent);
    const allocated = allocatedFor(build, line), missing = Math.max(0, required - allocated);
    return { id: line.id, line, build, isTracked, spent, required, allocated, missing,
      isOptional: has(line, 'optional'), component: line.component };
  });
}
const unusedOf = build => find.allocationsFor(`1 ${build.id}`).filter(it => !it.output);
const begunOf = build => sum(find.outputsOf(build.id), 'quantity');
const lacksOf = (build, output) => needsOf(build).filter(it => it.isTracked && !it.isOptional)
  .map(it => ({ ...it, missing: it.line.quantity * output.quantity - allocatedFor(build, it.line, output.id) }))
  .filter(it => it.missing > 0);

async function entriesFrom(begin, end) {
  const rows = [];
  for (let told = ['']; told.length && begin + rows.length <= end; rows.push(...told))
    told = JSON.parse((await get(`/history/${begin + rows.length}`)).text).history;
  return rows.slice(0, end + 1 - begin).map(entryIn);
}


function path(table, id) {
  const known = find?.paths.get(table + id);
  if (known !== undefined) return known;
  const words = [];
  for (let row = books[table].get(id); row; row = books[table].get(row.parent)) words.unshift(row.name);
  find?.paths.set(table + id, words.join(' / '));
  return words.join(' / ');
}
const partName = id => books.parts.get(id)?.name ?? `part ${id}`;
const partLink = id => link('part/' + id, name(partName(id)));
const categoryOf = part => path('categories', part.category);
const itemName = item => [partName(item.part), item.serial, item.batch && `(${item.batch})`].filter(Boolean).join(' ');
const itemLink = item => link('item/' + item.id, name(item.serial || item.batch || `item ${item.id}`));
const callOf = row => keyNames.get(row.id) ?? row.id;
const PLACE_KINDS = ['location', 'item', 'build', 'order', 'build'];
const PLACE_WORDS = ['', 'in ', 'output of ', 'sent for ', 'used by '];
function placeName(place, id) {
  if (place >= OFF) return place === OFF ? `written off: ${REASONS[id]}` : 'gone';
  if (place === AT) return path('locations', id);
  return PLACE_WORDS[place] + (place === IN ? itemName(books.items.get(id)) : wordsOf(PLACE_KINDS[place], id));
}
const placeLink = (place, id) =>
  place < OFF ? link(`${PLACE_KINDS[place]}/${id}`, name(placeName(place, id))) : placeName(place, id);

const amountOf = (row, part = row.part) => `${digits(row.quantity)} \u00d7 ${partName(part)}`;
const ownerOf = it => `${it.side ? 'build' : 'order'}/${it.owner}`;
const ROWS = {
  category: [it => path('categories', it.id), () => 'stock'],
  location: [it => path('locations', it.id)],
  part: [it => it.name, null, it => [...flagsOf(it), it.retired ? 'retired' : ''].join(' ')],
  line: [it => `${partName(it.assembly)}: ${amountOf(it, it.component)}`, it => `part/${it.assembly}`,
    it => flagsOf(it, LINE_FLAGS).join(' ')],
  substitute: [it => `${partName(it.part)} in ${wordsOf('line', it.line)}`, it => `part/${it.part}`],
  item: [it => `${itemName(it)}, ${digits(it.quantity)}, ${placeName(it.place, it.ref)}`, null,
    it => `${STATUSES[it.status]}, ${digits(heldOf(it))} allocated`],
  order: [it => `${SIDES[it.side]} ${callOf(it)}: ${it.partner} (${ORDER_STATES[it.state]})`],
  order_line: [it => `${wordsOf('order', it.owner)}: ${amountOf(it)}`, it => `order/${it.owner}`,
    it => `${digits(it.done)} done`],
  build: [it => `build ${callOf(it)}: ${amountOf(it)} (${BUILD_STATES[it.state]})`, null,
    it => `${digits(it.done)} done, ${digits(begunOf(it))} begun`],
  allocation: [it => `${digits(it.quantity)} of ${wordsOf('item', it.item)}, for ${plain(ownerOf(it))}`, ownerOf],
};
const rowsOfKind = kind => books[kind === 'category' ? 'categories' : kind + 's'];
const rowOf = (kind, id) => rowsOfKind(kind).get(id);
const wordsOf = (kind, id) => rowOf(kind, id) ? ROWS[kind][0](rowOf(kind, id)) : `${kind} ${id}`;
const rowLink = (kind, id) => link(ROWS[kind][1]?.(rowOf(kind, id)) ?? `${kind}/${id}`, name(wordsOf(kind, id)));
const factOf = (kind, id) => rowOf(kind, id) ?
  [wordsOf(kind, id), ROWS[kind][2]?.(rowOf(kind, id))].filter(Boolean).join('; ') : 'gone';

const fold = text => (/^[\0-\x7f]*$/.test(text) ? text : text.normalize('NFKD').replace(/[\u0300-\u036f]/g, ''))
  .toLowerCase();
const squeeze = text => fold(text).replace(/[^\p{L}\p{N}]+/gu, '');
const wordsIn = text => fold(text).split(/\s+/).filter(Boolean);
function choicesOf(kind) {
  if (!choices.has(kind)) {
    const rows = [...rowsOfKind(kind).values()].filter(it => it.place !== GONE);
    choices.set(kind, rows.map(row => ({ row, low: fold(wordsOf(kind, row.id)) })));
  }
  return choices.get(kind);
}
const looselyIn = word => squeeze(word) && RegExp([...squeeze(word)].join('[^\\p{L}\\p{N}]*'), 'u');
const fitsWords = ({ low }, words, loose) => words.every((word, at) => low.includes(word) ||
  loose[at] && loose[at].test(low));
function isSlip(a, b) {
  let at = 0;
  while (at < a.length && a[at] === b[at]) at++;
  const [x, y] = [a.slice(at), b.slice(at)];
  return x.slice(1) === y.slice(1) || x.slice(1) === y || x === y.slice(1) ||
    x[0] === y[1] && x[1] === y[0] && x.slice(2) === y.slice(2);
}
function bySlips(kind, words) {
  const halves = new Map(words.filter(it => /^\p{L}{4,}$/u.test(it)).map(it => {
    const middle = it.length >> 1;
    return [it, [it.slice(0, middle - 1), it.slice(middle + 1)]];
  }));
  const isNear = ({ low }, word) => low.includes(word) || halves.get(word)?.some(half => low.includes(half)) &&
    low.split(/[^\p{L}\p{N}]+/u).some(other => isSlip(word, other));
  return !halves.size ? [] : choicesOf(kind).filter(it => words.every(word => isNear(it, word))).map(it => it.row);
}
const startOf = (kind, row) => fold(row.name ?? (kind === 'item' ? row.serial || row.batch || '' :
  String(keyNames.get(row.id) ?? row.partner ?? '')));
function rankOf(kind, row, text) {
  const start = startOf(kind, row), tight = squeeze(text), own = squeeze(start);
  return [start === text, tight && own === tight, start.startsWith(text), tight && own.startsWith(tight),
    start.includes(' ' + text), start.includes(text), true].findIndex(Boolean);
}

const inOrder = new Intl.Collator(undefined, { numeric: true }).compare;
const byName = rows => [...rows].sort((a, b) => inOrder(a.name, b.name));


function namedIn(command, fields) {
  const named = FORMS.get(command).fields.filter(it => ROWS[it.kind] && rowOf(it.kind, fields[it.name]))
    .map(it => [it.kind, fields[it.name]]);
  return named.flatMap(([kind, id]) => {
    const row = rowOf(kind, id), one = [kind, id];
    if (kind === 'order_line') return [one, ['order', row.owner]];
    if (kind === 'item' && row.place === OUTPUT) return [one, ['build', row.ref]];
    return kind === 'allocation' ? [[row.side ? 'build' : 'order', row.owner]] : [one];
  });
}
function snapshot(rows) {
  const sums = new Map([...stock].map(([id, it]) => [id, { ...it }]));
  const facts = new Map(rows.map(([kind, id]) => [`${kind} ${id}`, [kind, id, factOf(kind, id)]]));
  return { sums, rows: [...facts.values()], ids: new Set(owners()) };
}
const SUM_WORDS = { present: 'present', free: 'free', held: 'allocated', coming: 'on order' };
function effects({ sums, rows }) {
  const told = [];
  for (const [kind, id, was] of rows) {
    const now = factOf(kind, id);
    if (was !== now && ['order', 'build', 'item', 'order_line'].includes(kind))
      told.push([name(was), now === 'gone' ? ' is gone' : [' is now ', name(now)]]);
  }
  for (const [id, after] of stock) {
    const before = sums.get(id) ?? { present: 0, free: 0, held: 0, coming: 0 };
    const words = Object.entries(SUM_WORDS).filter(([it]) => before[it] !== after[it])
      .map(([it, word]) => `${word} ${digits(before[it])} \u2192 ${digits(after[it])}`);
    if (words.length) told.push([partLink(id), ': ', words.join(', ')]);
  }
  return told.slice(0, 12);
}
const PAST = Object.fromEntries(`found Found,add Added,remove Took out,count Counted,transfer Moved,
install Put in,uninstall Took out,disassemble Took apart,reinstate Brought back,order New:,order_line Added,
issue_order Issued,receive Received,
"#,
    r#"allocate_sale Allocated,ship Shipped,return_item Took back,close_order Closed,cancel_order Cancelled,build New build:,
issue_build Issued,hold_build Put on hold:,cancel_build Cancelled,outputs Began,complete_output Completed,
cancel_output Cancelled,scrap_output Scrapped,allocate_build Allocated,complete_build Completed,consume Used up,
release Gave back`.split(/,\s?/).map(it => [it.split(' ')[0], it.replace(/^\w+ /, '')]));
function sentenceOf(command, fields, verb = PAST[command] ?? FORMS.get(command).title + ':') {
  const { part, item, output, line, location, quantity, partner, side, name, ...others } = fields;
  const one = part ?? (command === 'receive' && rowOf('order_line', line)?.part), piece = item ?? output;
  const [[kind, id] = []] = namedIn(command, others);
  const what = one ? partName(one) : piece ? wordsOf('item', piece) : partner ? `${side}, ${partner}` :
    name ?? (kind && wordsOf(kind, id));
  return [verb, quantity != null && `${digits(quantity)} \u00d7`, what,
    location && `\u2013 ${path('locations', location)}`].filter(Boolean).join(' ') + '.';
}

let flash = null;
const doneWords = (sentence, told, ...more) => says('good', node('b', 'Done. '), name(sentence), ' ',
  told.length ? list(told) : soft('Nothing in stock changed by it.'), more);


const STATES = { order_line: [0, 1], issue_order: [0], cancel_order: [0, 1], issue_build: [0, 2], hold_build: [0, 1],
  cancel_build: [0, 1, 2], auto_allocate: [0, 1], allocate_build: [0, 1] };
const AWAY = { uninstall: IN, reinstate: OFF, return_item: SENT };
const isFree = item => freeOf(item) > 0, isPlain = item => isAt(item) && !item.serial;
const live = flag => part => has(part, flag) && !part.retired, maySet = line => !find.fixed.has(line.assembly);
const isOpenLine = side => line => leftOf(line) > 0 && orderOf(line).side === side && orderOf(line).state === PROGRESS;
const SUITS = {
  'add_part template': live('template'), 'found part': it => !it.retired && !has(it, 'virtual'),
  'build part': live('assembly'),
  'add_line assembly': it => live('assembly')(it) && !find.fixed.has(it.id), 'add_line component': live('component'),
  'add_substitute part': live('component'), 'add_substitute line': maySet, 'drop_line line': maySet,
  'drop_substitute substitute': it => maySet(rowOf('line', it.line)),
  'order_line part': (it, now) =>
    !it.retired && (!now.order || has(it, rowOf('order', now.order).side ? 'salable' : 'purchaseable')),
  'receive line': isOpenLine(0), 'allocate_sale line': isOpenLine(1),
  'allocate_sale item': (it, now) => isFree(it) && (!now.line || it.part === rowOf('order_line', now.line).part),
  'ship order': it => it.state === PROGRESS && find.allocationsFor(`0 ${it.id}`).length,
  'close_order order': it => it.state === PROGRESS && find.linesOf(it.id).every(line => !leftOf(line)),
  'add item': isPlain, 'merge into': isPlain, 'remove item': isFree, 'install item': isFree,
  'split item': it => isPlain(it) && isFree(it) && it.quantity > 1, 'disassemble item': it => isAt(it) && it.serial,
  'serialise item': it => isPlain(it) && isFree(it) && has(rowOf('part', it.part), 'trackable'),
  'merge items': (it, now) => isPlain(it) && it.id !== now.into &&
    (!now.into || ['part', 'batch', 'status'].every(word => it[word] === rowOf('item', now.into)[word])),
  'install parent': (it, now) => it.serial && it.place <= IN && it.id !== now.item &&
    (!now.item || linesFor(it.part).some(line => !has(line, 'consumable') && fits(line, rowOf('item', now.item).part))),
  'complete_build build': it => it.state === PROGRESS && !leftOf(it),
  'allocate_build line': (it, now) => now.build && !has(it, 'consumable') &&
    linesFor(rowOf('build', now.build).part).includes(it),
  'allocate_build item': (it, now) => isFree(it) && (!now.line || fits(rowOf('line', now.line), it.part)),
  'consume allocation': it => it.side && !it.output && rowOf('build', it.owner).state === PROGRESS,
};
function suits({ command }, { name, kind }) {
  if (SUITS[`${command} ${name}`]) return SUITS[`${command} ${name}`];
  if (name === 'output') return (it, now) =>
    it.place === OUTPUT && rowOf('build', it.ref).state === PROGRESS && (!now.build || it.ref === now.build);
  if (kind === 'item') return it => it.place === (AWAY[command] ?? AT);
  if (kind === 'order' || kind === 'build') return it => (STATES[command] || [1]).includes(it.state);
  return it => !it.retired;
}

let lastPlace = null;   // the location that was named last in this window
function usualPlace(part) {
  return find.itemsOf(part).findLast(isAt)?.ref ?? (books.locations.has(lastPlace) ? lastPlace : undefined);
}
const ofRow = (kind, make) => it => it && rowOf(kind, it) ? make(rowOf(kind, it)) : {};
const toPlace = ofRow('item', it => ({ location: usualPlace(it.part) }));
const PREFILL = {
  found: it => it.part ? { location: usualPlace(it.part) } : {}, complete_output: it => toPlace(it.output),
  return_item: it => toPlace(it.item), uninstall: it => toPlace(it.item), reinstate: it => toPlace(it.item),
  disassemble: it => toPlace(it.item), install: () => ({ quantity: 1 }),
  transfer: it => ofRow('item', ({ quantity }) => ({ quantity }))(it.item),
  receive: it => ofRow('order_line', line => ({ quantity: leftOf(line), location: usualPlace(line.part) }))(it.line),
  outputs: it => ofRow('build', build => ({ quantity: leftOf(build) - begunOf(build) || 1 }))(it.build),
  allocate_sale: it => ofRow('order_line', line => oneOf(it.item, [line.part], wantedOf(line)))(it.line),
  allocate_build: it => ofRow('line', line => oneOf(it.item, partsFor(line), rowOf('build', it.build) &&
    needsOf(rowOf('build', it.build)).find(other => other.id === line.id)?.missing))(it.line),
};
function oneOf(id, parts, wanted) {
  const item = rowOf('item', id) ?? freeItems(parts)[0];
  return item ? { item: item.id, quantity: Math.max(1, Math.min(freeOf(item), wanted || 1)) } : {};
}

const NAMED = { add_part: 'part', add_category: 'category', add_location: 'location' };
function nearWords(text, known, told) {
  const tight = squeeze(text), one = text && known.find(it => it[1] === text);
  if (one) return node('p.bad', { role: 'alert' }, told(one[0]), ' is called just so.');
  const near = tight ? known.filter(it => squeeze(it[1]) === tight) : [];
  return near.length > 0 && node('p.warn', { role: 'alert' }, 'Nearly the same name is there already: ',
    near.slice(0, 5).map((it, n) => [n > 0 && ', ', told(it[0])]), '. Is it the same? A name is for good.');
}
function adviceOn(command, now, given) {
  const kind = NAMED[command], build = rowOf('build', now.build);
  if (kind) {
    const rows = [...rowsOfKind(kind).values()].filter(it => kind === 'part' || it.parent === (now.parent ?? null));
    return nearWords(now.name ?? '', rows.map(row => [row, row.name]), row => rowLink(kind, row.id));
  }
  if (command === 'cancel_build' && build) return cancelWarning(build);
  if (command === 'complete_build' && build) return missingWords(build);
  const partners = [...new Set([...books.orders.values()].map(it => it.partner))], known = now.partner ?? '';
  return command === 'order' || command === 'build' ? [nearWords(given, [...keyNames].map(it => [it[0], it[1]]), id =>
    rowLink(books.orders.has(id) ? 'order' : 'build', id)), !partners.includes(known) && nearWords(known,
    partners.map(it => [it, it]), name)] : [];
}

let lastId = 0;
function rowField({ kind, isOptional }, label, isSuited, now, changed = () => {}, isBare = false) {
  const id = `f${++lastId}`, hint = node('div.soft', { hidden: isBare });
  const list = node('ul', { role: 'listbox', id: id + 'l', 'aria-label': label, hidden: true });
  const box = node('input', { id, role: 'combobox', autocomplete: 'off', 'aria-autocomplete': 'list',
    'aria-expanded': 'false', 'aria-controls': id + 'l', placeholder: isOptional ? 'none' : 'Words, or a number',
    'aria-label': isBare && label });
  let value = null, offered = [], at = -1;
  const open = isOpen => {
    list.hidden = !isOpen;
    box.ariaExpanded = isOpen;
    if (!isOpen) box.removeAttribute('aria-activedescendant');
  };
  const put = (row, isFine) => {
    value = row?.id ?? null;
    hint.textContent = row ? `number ${value}` : '';
    box.setCustomValidity(row || isFine ? '' : 'Choose one from the list.');
  };
  const take = (row, isByHand) => {
    box.value = row ? wordsOf(kind, row.id) : '';
    put(row, isOptional);
    open(false);
    if (isByHand) of.isTouched = true;
    if (row) watchRow(kind, row.id);
    changed();
  };
  const mark = to => {
    at = to;
    [...list.children].forEach((it, n) => { it.ariaSelected = n === at; });
    if (offered[at]) box.setAttribute('aria-activedescendant', `${id}o${at}`);
    list.children[at]?.scrollIntoView({ block: 'nearest' });
  };
  const offer = () => {
    const words = wordsIn(box.value), loose = words.map(looselyIn), values = now(), good = [], rest = [];
    const one = words.length === 1 && rowOf(kind, Number(words[0]));
    for (const it of choicesOf(kind)) {
      if (good.length === 200) break;
      if (it.row !== one && fitsWords(it, words, loose)) (isSuited(it.row, values) ? good : rest).push(it.row);
    }
    if (!good.length && !rest.length && !one) rest.push(...bySlips(kind, words).slice(0, 50));
    const text = fold(box.value.trim()), ranked = rows => !text ? rows :
      rows.slice(0, 400).map(row => [rankOf(kind, row, text), row]).sort((a, b) => a[0] - b[0]).map(it => it[1]);
    offered = [...one ? [one] : [], ...ranked(good), ...ranked(rest)].slice(0, 50);
    const press = row => event => { event.preventDefault(); take(row, true); };
    list.replaceChildren(...offered.map((row, n) => node('li',
      { role: 'option', id: `${id}o${n}`, pointerdown: press(row) }, name(wordsOf(kind, row.id)),
      soft(` ${row.id}`, !isSuited(row, values) && ", doesn't suit"))));
    if (!offered.length) list.append('Nothing fits.');
    open(true);
    mark(words.length || good.length ? 0 : -1);   // what doesn't suit isn't taken unasked
  };
  box.addEventListener('input', () => { of.isTouched = true; put(null, isOptional && !box.value); offer(); });
  box.addEventListener('click', () => list.hidden && offer());
  box.addEventListener('blur', () => open(false));
  box.addEventListener('keydown', event => {
    const step = { ArrowDown: 1, ArrowUp: offered.length - 1 }[event.key];
    if (step !== undefined && list.hidden) offer();
    else if (step !== undefined) mark((at + step) % (offered.length || 1));
    else if (list.hidden || !['Enter', 'Escape'].includes(event.key)) return;
    else if (event.key === 'Enter' && offered[at]) take(offered[at], true);
    else open(false);
    event.preventDefault();
  });
  put(null, isOptional);
  const of = { made: [!isBare && node('label', { for: id }, label), box, list, hint], get: () => value, box,
    set: id => take(rowOf(kind, Number(id))), isTouched: false };
  return of;
}
function itemsField(label, isSuited, now) {
  const chosen = new Map(), chips = node('div.row');
  const isNew = (row, values) => isSuited(row, values) && !chosen.has(row.id);
  const one = rowField({ kind: 'item', isOptional: true }, label, isNew, now, () => {
    const id = one.get();
    if (!id || chosen.has(id)) return;
    const drop = button(['Leave out ', name(wordsOf('item', id))], () => { drop.remove(); chosen.delete(id); });
    chosen.set(id, drop);
    chips.append(drop);
    one.set(0);
  });
  return { made: [one.made, chips], get: () => [...chosen.keys()] };
}
function flagsField(label) {
  const boxes = FLAGS.map(value => node('input', { type: 'checkbox', value }));
  return { made: node('fieldset', node('legend', label), soft('They are final once the part is made.'),
    boxes.map(it => node('label.flag', it, node('span', node('b', it.value), ': ', FLAG_WORDS[it.value])))),
  get: () => boxes.filter(it => it.checked).map(it => it.value) };
}
const LABELS = { list: 'As M1,M2,M7 or as a range 1-20',
  key: 'What you call it, without spaces. Lists show it and Find finds it. It is final.' };
function fieldOf(form, field, now, changed) {
  const id = `f${++lastId}`, { kind } = field;
  const label = capital(field.name) + (field.isOptional ? ' (may be empty)' : '');
  if (ROWS[kind]) return rowField(field, label, suits(form, field), now, changed);
  if (kind === 'items') return itemsField(label, suits(form, field), now);
  if (kind === 'words') return flagsField(label);
  const words = { side: SIDES, status: STATUSES }[field.name], isYes = kind === 'yes', isNumber = kind === 'number';
  const box = words ? node('select', { id }, words.map(it => node('option', it))) :
    node('input', { id, autocomplete: 'off', type: isYes ? 'checkbox' : 'text', required: !field.isOptional && !isYes,
      list: field.name === 'partner' && id + 'p',
      ...isNumber && { inputmode: 'numeric', pattern: NUMBER, title: 'digits' },
      ...kind === 'key' && { pattern: '[!-~]{1,80}', title: 'no spaces and no accents' } });
  box.addEventListener('input', () => { of.isTouched = true; changed(); });
  const partners = () => [...new Set([...books.orders.values()].map(it => it.partner))].sort(inOrder);
  const of = { made: [node('label', { for: id }, label), box, LABELS[kind] && soft(LABELS[kind]),
    field.name === 'partner' && node('datalist', { id: id + 'p' }, partners().map(value => node('option', { value })))],
  set: to => { box.value = to; }, isOwn: !words && !isYes, box,
  get: () => isYes ? box.checked || null : isNumber ? numberIn(box.value) : box.value || null };
  return of;
}
function request(command, fields, key) {
  let line = null;
  const sent = async () => {
    if (performance.now() - readAt > 2000) await reread();
    if (isOther) {
      setTimeout(show, 0, true);
      return { isHeld: true, why: 'These are the books of another workshop now.' };
    }
    if (!line && openLike(command, fields, key)) {
      offerOpen(true);
      return SETTLE;
    }
    const answer = await send(line ||= lineOf(command, fields, key));
    if (!answer.isDone && !answer.isOpen) line = null;
    if (answer.isDone && !key && ['order', 'build'].includes(command)) answer.ids.forEach(id => lookedFor.add(id));
    return answer;
  };
  return () => {
    busy++;
    return sent().finally(() => { busy--; });
  };
}
const reread = () => refresh().catch(() => {});
const notDone = ({ isOpen, isHeld, why }, ...more) =>
  says(isOpen ? 'warn' : 'bad', node('b', isOpen ? UNKNOWN : isHeld ? 'Not sent: ' : 'Refused: '), why, more);

function commandForm(command, given, { hides = [], title, go: verb, back } = {}) {
  const form = FORMS.get(command), words = title ?? form.title, isOwner = command === 'order' || command === 'build';
  const advice = node('div'), said = node('div'), go = node('button.main', verb ?? words);
  let asked = null, isFilling = true;   // what was sent and isn't answered yet
  const changed = () => {
    if (isFilling) return;
    isFilling = true;
    const values = PREFILL[command]?.(now()) ?? {};
    for (const { name, of } of fields) if (values[name] != null && !of.isTouched) of.set(values[name]);
    isFilling = false;
    advice.replaceChildren(...[adviceOn(command, now(), isOwner && key.get() || '')].flat(9).filter(Boolean));
  };
  const fixed = Object.fromEntries(hides.map(it => [it, given[it] ?? null]));
  const key = isOwner && fieldOf(form, { name: 'name', kind: 'key', isOptional: true }, null, () => changed());
  const now = () => ({ ...fixed, ...Object.fromEntries(fields.map(it => [it.name, it.of.get()])) });
  const fields = form.fields.filter(it => !hides.includes(it.name))
    .map(it => ({ ...it, of: fieldOf(form, it, () => now(), () => changed()) }));
  const all = node('fieldset', [...fields.map(it => it.of), key].map(it => it && node('div.field', it.made)));
  for (const { name, of } of fields) if (given[name] != null) {
    of.set(given[name]);
    of.isTouched = true;
  }
  isFilling = false;
  changed();
  const done = async ({ ids, tries }, before, values, sentence) => {
    lastPlace = values.location || lastPlace;
    const isNew = key && !before.ids.has(ids[0]);
    if (isNew) nameRow(ids[0], key.get() ?? newKey());
    await reread();
    const kinds = ids.slice(0, 20).map(id => [Object.keys(ROWS).find(it => rowOf(it, id)), id]).filter(it => it[0]);
    const chosen = fields.filter(it => ROWS[it.kind] && values[it.name]).map(it => [it.name, values[it.name]]);
    const to = key ? `${command}/${ids[0]}` : back ?? `do/${command}?${new URLSearchParams(chosen)}`;
    comeBack(go, to, doneWords(
      sentence, effects(before), tries > 1 && `It was sent ${tries} times. `, key && !isNew && node('b.warn',
        'It was there already: nothing new was made. '), kinds.length > 0 && ['New: ', each(kinds, it =>
        rowLink(...it))]), words);
  };
  const isTaken = async called => {
    await reread();
    await readNames(owners()).catch(() => {});
    return [...keyNames.values()].includes(called);
  };
  const submit = async event => {
    event.preventDefault();
    if (isEarly(go)) return;
    const values = now(), called = isOwner && key.get(), rows = namedIn(command, values);
    all.disabled = go.disabled = true;
    let answer = { why: ['The name ', name(called || ''), ' is taken.'] };
    if (!called || asked || !await isTaken(called)) {
      const fields = Object.fromEntries(Object.entries(values).filter(it => it[1] !== null));
      asked ||= request(command, fields, called || newKey());
      const before = snapshot(rows), sentence = sentenceOf(command, values);
      answer = await asked();
      if (answer.isDone) return done(answer, before, values, sentence);
      await reread();
    }
    changed();
    said.replaceChildren(notDone(answer, !answer.isOpen && list(namedIn(command, values).map(([kind, id]) =>
      [`${plain(kind)}: `, rowLink(kind, id), ' ', ROWS[kind][2]?.(rowOf(kind, id))]))));
    [all.disabled, go.disabled, go.textContent] = [answer.isOpen, false, answer.isOpen ? 'Send again' : verb ?? words];
    if (!answer.isOpen) asked = null;
  };
  return node('div', node('form.card', { submit, 'aria-label': words }, title && node('h2', title),
    node('p.soft', `What it does: ${form.does}`), all, advice, go), said);
}
const inline = (command, given, more) =>
  commandForm(command, given, { hides: Object.keys(given), back: here(), ...more });
function doView(_, query, command) {
  const form = FORMS.get(command), given = Object.fromEntries(query);
  if (!form) {
    const groups = [];
    for (const it of FORMS.values()) {
      if (GROUPS[it.command]) groups.push(section(GROUPS[it.command]));
      groups.at(-1).append(node('p', link('do/' + it.command, it.title), ' ', soft(it.does)));
    }
    return ['What can be done', groups];
  }
  const output = rowOf('item', Number(given.output));
  if (output && form.fields[0].name === 'build') given.build = output.ref;
  return [command === 'order' && given.side ? `New ${given.side}` : form.title,
    given.back && [link(given.back, '\u2190 back'), ' '], !Object.values(FILES).includes(command) &&
    link('files?kind=' + command, 'Rows from a file'), commandForm(command, given, { back: given.back }),
    node('details', node('summary', 'May be refused for'), list([...form.refusals].map(it =>
      [...MEANINGS.values()][it.charCodeAt(0) - 97])))];
}


function quick(text, command, fields, look = '') {
  const said = node('div'), asked = request(command, fields);
  const go = button(text, async () => {
    if (isEarly(go)) return;
    go.disabled = true;
    const before = snapshot(namedIn(command, fields)), sentence = sentenceOf(command, fields), answer = await asked();
    await reread();
    go.disabled = false;
    if (answer.isDone) comeBack(go, here(), doneWords(sentence, effects(before)));
    else said.replaceChildren(notDone(answer));
  }, look);
  return node('span', go, said);
}

function batch({ verb, past, about, columns, rows, command, fieldsOf, first = [], last = [], end = '', to = here }) {
  const said = node('div'), steps = [...first, ...last];
  let before = null;
  for (const row of rows) {
    row.told = node('span', { role: 'status' });
    row.tick = node('input', { type: 'checkbox', checked: !row.isOff, 'aria-label': `${verb}: ${row.called}` });
  }
  const isDone = async (it, what) => {
    if (it.isDone) return true;
    it.ask = it.isOpen ? it.ask : request(...what());
    return Object.assign(it, { isDone: false, isOpen: false }, await it.ask()).isDone;
  };
  const run = async () => {
    if (rows.some(it => !it.cells)) return grid.next() ?? says('warn', 'There were more rows: look at them first.');
    const chosen = rows.filter(it => it.tick.checked && !it.isDone);
    for (const row of chosen) {
      row.fault = fieldsOf(row).fault;
      row.told.replaceChildren(row.fault ? node('span.bad', row.fault) : '');
    }
    if (chosen.some(it => it.fault)) return says('bad', 'Nothing was sent: see the rows.');
    if (!chosen.length && !steps.length) return says('warn', 'Nothing is ticked.');
    const words = rows.filter(it => it.tick.checked)
      .map(it => `${it.amount?.value ?? digits(it.quantity)} \u00d7 ${it.called}`);
    before ||= snapshot([about]);
    let stop = null;
    for (const it of first) if (!stop && !await isDone(it, it)) stop = it;
    for (const row of stop ? [] : chosen) {
      await isDone(row, () => [command, fieldsOf(row)]);
      row.told.replaceChildren(row.isDone ? node('span.good', 'done') : node('span.bad', row.why));
      for (const box of [row.tick, ...row.boxes ?? []]) box.disabled = row.isDone || row.isOpen;
      if (row.isOpen) { stop = row; break; }
    }
    const refused = chosen.filter(it => !it.isDone);
    if (!refused.length) for (const it of last) if (!stop && !await isDone(it, it)) stop = it;
    await reread();
    rewatch();
    if (!stop && !refused.length)
      return comeBack(go, to(), doneWords(`${past} ${words.join(', ') || 'nothing'}${end}.`, effects(before)));
    return stop?.isOpen ? notDone(stop) : says('bad', `Done: ${digits(rows.filter(it => it.isDone).length)}. Refused: ${
      digits(refused.length)}. `, stop?.why, last.length > 0 && ' What was to come after it was not sent.',
    list(effects(before)));
  };
  const go = button(last.length ? verb : `${verb} what is ticked`, async () => {
    if (isEarly(go)) return;
    go.disabled = true;
    busy++;
    try { said.replaceChildren(...[await run()].filter(Boolean)); } finally { busy--; go.disabled = false; }
  }, 'main');
  const ticks = cell('Do it', it => it.tick), answers = cell('Answer', it => it.told);
  ticks.isAct = answers.isAct = true;
  const once = it => ({ ...it, show: row => {
    row.cells ||= new Map();
    return row.cells.get(it) ?? row.cells.set(it, it.show(row)).get(it);
  } });
  const grid = table(verb, [ticks, ...columns.map(once), answers], rows);
  return node('div', rows.length > 0 && grid, acts(go), said);
}
const boxed = (row, box) => { (row.boxes ||= []).push(box); return box; };
const amountBox = (row, quantity) =>
  row.amount = boxed(row, numberBox(`Quantity of ${row.called}`, { value: String(quantity) }));
function amountIn(row) {
  const quantity = numberIn(row.amount.value);
  row.amount.ariaInvalid = !quantity;
  return quantity ? { quantity } : { fault: 'The quantity has to be a whole number, in digits.' };
}
function placeBox(row, part, rows, other) {
  const changed = () => {
    for (const { place } of rows) if (of.get() && place && !place.get() && !place.isTouched) place.set(of.get());
  };
  const of = rowField({ kind: 'location' }, `Location of ${row.called}`, () => true, () => ({}), changed, true);
  of.set(usualPlace(part) ?? other);
  row.place = of;
  boxed(row, of.box);
  return node('div.field', of.made);
}
function placeIn(row) {
  lastPlace = row.place.get() ?? lastPlace;
  return row.place.get() ? { location: row.place.get() } : { fault: 'Say the location.' };
}


const isLow = part => !part.retired && !has(part, 'template') && !has(part, 'virtual') && freeIn(part.id) < lowBelow;
const LOOKS = [['free', 'free'], ['held', 'allocated'], ['inner', 'in other items'], ['stuck', "can't be given out"]];
const stockBar = sums => bar(LOOKS.map(([look, word]) => [look, sums[look], word]));
const marks = part => [part.retired && chip('retired', 'warn'), isLow(part) && chip('low', 'warn')];
const stockKey = () => node('p.key soft', LOOKS.map(([look, word]) => [node('i.' + look), word]));

const backTo = () => 'back=' + encodeURIComponent(here());
const actOn = (command, given, text = FORMS.get(command).title) =>
  act(`${command}?${new URLSearchParams(given)}&${backTo()}`, text);
const act = (to, text) => node('a.button', { href: '#/do/' + to }, text);
const actsOn = (kind, row, leftOut = []) => acts([...FORMS.values()].map(form => {
  const field = form.fields.find(it => it.kind === kind && suits(form, it)(row, {}));
  return field && !leftOut.includes(form.command) && actOn(form.command, { [field.name]: row.id }, form.title);
}));

function stockTable(rows) {
  const most = Math.log(2 + Math.max(0, ...rows.map(it => it.present)));
  const drawn = sums => {
    const made = stockBar(sums);
    made.style.width = `${100 * Math.log(1 + sums.present) / most}%`;
    return sums.present > 0 && made;
  };
  return table('Parts', [
    column('Part', it => it.part.name.toLowerCase(), it => [partLink(it.part.id), ' ', marks(it.part)], 'head'),
    column('Category', it => categoryOf(it.part)), numbers('Present', 'present'), numbers('Free', 'free'),
    numbers('Allocated', 'held', 'n late'), numbers('On order', 'coming', 'n late'),
    column('How it stands', 'present', drawn, 'wide late')], rows);
}
const stockRows = () => find.sortedParts().map(it => stock.get(it.id));
function stockView(_, query) {
  const textOf = part => fold([part.name, categoryOf(part), ...flagsOf(part)].join(' '));
  const rows = stockRows(), grid = stockTable(rows);
  const texts = lazily(() => new Map(rows.map(it => [it, textOf(it.part)])));
  const told = node('span.soft', { role: 'status' });
  const show = text => {
    const words = wordsIn(text);
    const shown = words.length ? rows.filter(it => words.every(word => texts().get(it).includes(word))) : rows;
    told.textContent = `${digits(shown.length)} parts`;
    if (shown.length < rows.length || grid.isCut) grid.renew(shown);
    grid.isCut = shown.length < rows.length;
  };
  const box = node('input', { type: 'search', id: 'filter', value: query.get('q'), 'data-view': true,
    placeholder: 'Part, category or flag', 'aria-label': 'Part, category or flag', input: () => {
      show(box.value);
      history.replaceState(null, '', '#/stock' + (box.value && '?q=' + encodeURIComponent(box.value)));
    } });
  show(box.value);
  return ['Stock', acts(box, told, act('add_part', 'New part'), act('found', 'Found stock')), stockKey(), grid];
}

let lowBelow = Number(localStorage.getItem('low') ?? 1);
function lowView() {
  const rows = () => stockRows().filter(it => isLow(it.part)), grid = stockTable(rows());
  const box = numberBox('Low below', { value: lowBelow, id: 'low', 'data-view': true, change: () => {
    lowBelow = numberIn(box.value) || 0;
    localStorage.setItem('low', box.value = lowBelow);
    grid.renew(rows());
  } });
  return ['What is low', acts(node('label', 'Parts of which less is free than', box)), stockKey(), grid];
}

function shoppingRows(withOptional) {
  const rows = new Map();
  for (const build of books.builds.values()) for (const need of needsOf(build)) {
    if (need.isOptional && !withOptional) continue;
    const id = need.component, empty = { id, part: id, required: 0, allocated: 0, missing: 0, builds: [] };
    const row = rows.get(id) ?? empty;
    rows.set(id, row);
    for (const it of ['required', 'allocated', 'missing']) row[it] += need[it];
    if (need.missing) row.builds.push(build);
  }
  return [...rows.values()].map(it => ({ ...it, free: freeIn(it.id), coming: comingOf(it.id),
    buy: Math.max(0, it.missing - freeIn(it.id) - comingOf(it.id)) })).sort((a, b) => b.buy - a.buy || a.id - b.id);
}
function shoppingView(_, query) {
  const isAll = query.has('optional'), rows = shoppingRows(isAll), [, ...low] = lowView();
  const how = it => ['purchaseable', 'assembly'].map(flag => has(partAt(it.part), flag)).indexOf(true);
  return ['Shopping list', node('p.soft', `What open builds need, ${isAll ? 'optional lines too' :
    'but for optional lines'}. To buy or make is what is missing, less what is free and on order.`),
  acts(node('span', { 'data-view': true }, tick('optional lines too', isAll, isOn => {
    location.hash = `#/shopping${isOn ? '?optional=1' : ''}`;
  })), act('order?side=purchase', 'New purchase')),
  table('Shopping list', [parts('Part', 'part'), numbers('Required', 'required'),
    numbers('Allocated', 'allocated', 'n late'), numbers('Missing', 'missing', 'n late'), numbers('Free', 'free'),
    numbers('On order', 'coming'), numbers('To buy or make', 'buy'),
    column('How', how, it => ['buy', 'make'][how(it)]),
    cell('For builds', it => each(it.builds.slice(0, 6), build => link('build/' + build.id,
      name(String(callOf(build))))), 'late')], rows),
  section('Low stock', low)];
}

const lot = it => it.serial || it.batch || '';
const itemColumns = (...more) => [rowNumbers('item'), ...more, numbers('Quantity', 'quantity'),
  numbers('Allocated', heldOf, 'n late'), column('Serial or batch', lot, it => lot(it) && itemLink(it)),
  column('Status', 'status', it => chip(STATUSES[it.status], isUsable(it) ? '' : 'bad'))].filter(Boolean);
const where = column('Where', it => placeName(it.place, it.ref), it => placeLink(it.place, it.ref));
const partColumn = parts('Part', 'part');

const branch = (words, grow, open) => node('li', grow ? opening('', words, grow, open) : words);

function itemsUnder(place, isDeep) {
  const inner = at => [at, ...isDeep ? find.placesIn(at).flatMap(it => inner(it.id)) : []];
  const places = new Set(inner(place));
  return find.sortedItems().filter(it => places.has(it.ref));
}
const deepTick = (view, here, query) => node('span', { 'data-view': true }, tick('and deeper', query.has('deep'),
  isDeep => { location.hash = `#/${view}/${here.id}${isDeep ? '?deep=1' : ''}`; }));
function locationsView(here, query) {
  const over = new Set(), items = here && itemsUnder(here.id, query.has('deep'));
  for (let at = here; at; at = books.locations.get(at.parent)) over.add(at.id);
  const words = it => [node('a', { href: '#/location/' + it.id, 'aria-current': it === here && 'true' }, name(it.name)),
    soft(' ', digits(find.under.get(it.id)))];
  const tree = parent => node('ul.tree', byName(find.placesIn(parent)).map(it => branch(words(it),
    find.placesIn(it.id).length > 0 && (() => tree(it.id)), parent === 'top' || over.has(it.id))));
  return [here ? path('locations', here.id) : 'Locations', node('div.two',
    node('nav', { 'aria-label': 'Locations' }, tree('top')), node('div', here && [
      acts(deepTick('location', here, query), actOn('found', { location: here.id }),
        actOn('receive', { location: here.id }), node('a.button', { href: `#/sheet/${here.id}` }, 'Count sheet')),
      table('Items', itemColumns(partColumn, query.has('deep') && where), items)],
    acts(actOn('add_location', here ? { parent: here.id } : {}, 'New location'))))];
}

function asked(promise, drawn) {
  const made = node('div', { 'aria-busy': 'true' }, 'Asking ...');
  promise.then(told => node('div', drawn(told)), fault => fault.message)
    .then(it => { made.replaceChildren(it); made.ariaBusy = 'false'; });
  return made;
}

const kindWord = kind => ({ written: 'written off', consumed: 'used up' })[kind] || plain(kind);
const entryWords = it => [node('b', kindWord(KINDS[it.kind])), ` ${digits(it.quantity)} \u00d7 `, partLink(it.part),
  it.place === AT ? ' at ' : ' ', it.place === OFF ? `(${REASONS[it.ref]})` : placeLink(it.place, it.ref),
  ', ', link('item/' + it.item, 'item ' + it.item)];
function entriesTable(isWanted, most = 20) {
  let from = entries + 1, rows = [], more = null;
  const grid = table('Entries', [numbers('Entry', 'n', 'n late'), column('Day', 'day'),
    column('What happened', it => KINDS[it.kind], entryWords)], rows);
  const back = async turns => {
    const wanted = rows.length + 50;
    for (let n = 0; n < turns && from > 1 && rows.length < wanted; n++) {
      const begin = Math.max(1, from - 1000), told = await entriesFrom(begin, from - 1);
      rows = [...rows, ...told.reverse().filter(isWanted)];
      from = begin;
    }
    grid.renew(rows);
    more.textContent = `Look further back than entry ${digits(from)}`;
    more.hidden = from === 1;
  };
  more = button('', () => back(most).catch(fault => { more.textContent = fault.message; }), 'more');
  return asked(back(most), () => [grid, more]);
}
function recentView(_, query) {
  const frame = node('div'), boxOf = (id, type, label) => node('input', { id, type, 'aria-label': label,
    placeholder: label, value: query.get(id), 'data-view': true, input: () => {
      clearTimeout(wait);
      wait = setTimeout(changed, 200);
    } });
  const boxes = [boxOf('part', 'search', 'Part'), boxOf('from', 'date', 'From'), boxOf('to', 'date', 'To')];
  let wait = 0;
  const show = () => {
    const [text, from, to] = boxes.map(it => it.value), words = wordsIn(text), loose = words.map(looselyIn);
    const fitting = new Set(choicesOf('part').filter(it => fitsWords(it, words, loose)).map(it => it.row.id));
    frame.replaceChildren(entriesTable(it => fitting.has(it.part) && it.day >= from && (!to || it.day <= to)));
  };
  const changed = () => {
    const asked = new URLSearchParams(boxes.filter(it => it.value).map(it => [it.id, it.value]));
    history.replaceState(null, '', '#/recent' + (asked.size ? '?' + asked : ''));
    show();
  };
  show();
  return ['Recent activity', acts(boxes[0], boxes.slice(1).map(it => node('label', it.ariaLabel, it))), frame];
}

function ledgerPicture(lines) {
  const amounts = Object.fromEntries(lines.slice(1)), looks = ['free', 'inner', 'held', 'stuck'];
  const sides = ['received found built returned', 'present consumed shipped written'].map(it => it.split(' '));
  const told = kind => `${kindWord(kind)} ${digits(amounts[kind])}`;
  const [all, other] = sides.map(side => side.reduce((total, kind) => total + BigInt(amounts[kind]), 0n));
  const equation = sides.map(side => side.map(told).join(' + ')).join(' = ');
  const stack = side => node('div.stack', side.map((kind, at) => {
    const share = Number(amounts[kind]) / Number(all);   // words stand only where there is room for them
    return share > 0 && piece(looks[at], share, told(kind), share > .07 && told(kind));
  }));
  return node('figure.card', { id: 'ledger' }, all > 0 && node('div', { role: 'img', 'aria-label': equation },
    'Came in:', stack(sides[0]), 'Is here or accounted for:', stack(sides[1])),
    node('figcaption.soft', equation,
      all === other ? node('b.good', ' \u2713 balanced') : node('b.bad', ' \u2717 not balanced'),
      `. With customers now: ${digits(amounts.sent)}; in finished builds: ${digits(amounts.used)}.`));
}

function billTree(part, times, depth = 0) {
  return node('ul.tree', linesFor(part).map(line => {
    const free = freeIn(line.component), wanted = line.quantity * times;
    return branch([node('b', digits(line.quantity)), ' \u00d7 ', partLink(line.component), ' ',
      flagsOf(line, LINE_FLAGS).map(it => chip(it)), depth > 0 && `${digits(wanted)} in all, `,
      !has(line, 'consumable') && node(free < wanted ? 'span.bad' : 'span.good', `${digits(free)} free `),
      link('line/' + line.id, 'change'),
      find.substitutesOf(line.id).map(({ part }) =>
        node('div', 'or ', partLink(part), ` (${digits(freeIn(part))} free)`))],
    linesFor(line.component).length > 0 && (() => billTree(line.component, wanted, depth + 1)), depth < 1);
  }));
}
const lineView = line => [wordsOf('line', line.id), actsOn('line', line),
  find.substitutesOf(line.id).map(it => section(wordsOf('substitute', it.id), actsOn('substitute', it)))];
const linksTo = rows => rows.map(it => [partLink(it), ' ']);
function partView(part) {
  const sums = stock.get(part.id), variants = find.variantsOf(part.id).map(it => it.id);
  return [part.name, node('p', flagsOf(part).map(it => chip(it)), marks(part)),
  facts({ Part: part.id, Category: name(categoryOf(part)), Template: part.template && partLink(part.template),
    Variants: variants.length && linksTo(variants),
    Stock: `${digits(sums.free)} free of ${digits(sums.present)}; ${digits(sums.coming)} on order` }),
  actsOn('part', part),
  section('Ledger', asked(report('ledger', part.id), ledgerPicture)),
  section('Stock', stockBar(sums), stockKey(), table('Items', itemColumns(where), find.itemsOf(part.id))),
  has(part, 'assembly') && section('What one is made of', billTree(part.id, 1)),
  section('Where it is used', find.usesOf(part.id).map(it => node('div', rowLink('line', it.id))), 'By any way: ',
    asked(report('where_used', part.id), rows => linksTo(rows.map(it => Number(it[0]))))),
  section('Builds', buildTable(find.buildsOf(part.id))),
  section('Orders', find.orderedOf(part.id).map(it => node('div', rowLink('order_line', it.id)))),
  section('Latest entries', entriesTable(it => it.part === part.id, 1))];
}
const contentTree = item => node('ul.tree', find.itemsIn(item.id).map(it =>
  branch([partLink(it.part), ' ', itemLink(it), ` \u00d7 ${digits(it.quantity)}`],
    find.itemsIn(it.id).length > 0 && (() => contentTree(it)), true)));
function timeline(lines) {
  const list = node('ol.time', { id: 'timeline' }), drawn = slices(list, ([, day, kind, quantity, said]) => {
    const [place, id] = said.split(' '), at = PLACES.indexOf(place), isOut = /consumed|shipped|written/.test(kind);
    const sign = isOut ? '\u2212' : /received|found|built|returned/.test(kind) ? '+' : '\u2022';
    return node('li', chip(sign), soft(day), ' ', node('b', kindWord(kind)),
      ` ${digits(quantity)} `, placeLink(at, at === OFF ? REASONS.indexOf(id) : Number(id)));
  });
  drawn.renew(lines);
  return [list, drawn.more];
}
const allocationTable = rows => listed('Allocated', [
  column('Item', 'item', it => rowLink('item', it.item), 'head'), numbers('Quantity', 'quantity'),
  column('For', 'owner', it => [rowLink(it.side ? 'build' : 'order', it.owner),
    it.output && [', output ', link('item/' + it.output, it.output)]]),
  { ...column('Do', null, it => [quick('Give back', 'release', { allocation: it.id }), ' ',
    it.side === 1 && !it.output && rowOf('build', it.owner).state === PROGRESS &&
    quick('Use up', 'consume', { allocation: it.id })]), isAct: true }], rows);
const batchLink = it => it.batch && link(`batch/${it.part}?text=${encodeURIComponent(it.batch)}`, name(it.batch));
const itemView = item => [itemName(item), facts({ Item: item.id, Part: partLink(item.part), Batch: batchLink(item),
  Quantity: digits(item.quantity), Free: isAt(item) && digits(freeOf(item)), Where: placeLink(item.place, item.ref),
  Status: chip(STATUSES[item.status], isUsable(item) ? 'good' : 'bad') }),
actsOn('item', item), mends(() => wrongWithItem(item)), allocationTable(find.allocationsOf(item.id)),
find.itemsIn(item.id).length > 0 && section('What lies in it', contentTree(item)),
section('History', asked(report('history', item.id), timeline)), itemOrigins(item)];
function progress(rows, begun) {
  const done = sum(rows, 'done'), whole = sum(rows, 'quantity');
  return node('div', bar([['free', done, 'done'], ['held', sum(begun, 'quantity'), 'begun or allocated']], whole),
    soft(`${digits(done)} of ${digits(whole)}`));
}
const progressOf = begunOf => column('Progress', it => it.done / it.quantity, it => progress([it], begunOf(it)));

const nameColumn = column('Name', it => keyNames.get(it.id) ?? '', it => keyNames.has(it.id) &&
  name(keyNames.get(it.id)));
function lackOf(build) {
  if (!isOpenBuild(build)) return null;
  const lines = needsOf(build).filter(it => it.missing > 0 && !it.isOptional);
  return node(lines.length ? 'span.bad' : 'span.good', lines.length ? name(lines.map(it =>
    `${digits(it.missing)} \u00d7 ${partName(it.component)}`).join(', ')) : 'nothing');
}
const buildTable = rows => table('Builds', [rowNumbers('build'), nameColumn, parts('Of', 'part'), states(BUILD_STATES),
  progressOf(it => find.outputsOf(it.id)), column('Missing', null, lackOf)], rows);
const openTick = (view, query) => node('span', { 'data-view': true }, tick('only what is open', !query.has('all'),
  isOpen => { location.hash = `#/${view}${isOpen ? '' : '?all=1'}`; }));
const buildsView = (_, query) => ['Builds', acts(openTick('builds', query), act('build?back=builds', 'New build')),
  buildTable([...books.builds.values()].filter(it => query.has('all') || isOpenBuild(it)).reverse())];
function ordersView(_, query) {
  const lines = it => find.linesOf(it.id);
  const rows = [...books.orders.values()].filter(it => query.has('all') || it.state < 2).reverse();
  const columns = [rowNumbers('order'), nameColumn, column('Partner', 'partner', it => name(it.partner), 'head'),
    states(ORDER_STATES), numbers('Lines', it => lines(it).length),
    column('Progress', null, it => progress(lines(it), find.allocationsFor(`0 ${it.id}`)))];
  return ['Orders', acts(openTick('orders', query), act('order?side=purchase&back=orders', 'New purchase'),
    act('order?side=sale&back=orders', 'New sale')), ['Purchases', 'Sales'].map((title, side) =>
    listed(title, columns, rows.filter(it => it.side === side)))];
}

const FOUND = ['location', 'part', 'order', 'build', 'item'];
function findView(_, query, text = '') {
  const low = fold(text.trim()), words = wordsIn(text), loose = words.map(looselyIn);
  const [, asked = '', number] = low.match(/^([a-z]*) *(\d+)$/) ?? [];
  const found = FOUND.map(kind => {
    const one = number && (!asked || asked === kind) && rowOf(kind, Number(number));
    const rows = !words.length ? [] : choicesOf(kind).filter(it => it.row !== one && fitsWords(it, words, loose))
      .map(({ row }) => [rankOf(kind, row, low), row]).sort((a, b) => a[0] - b[0] ||
        inOrder(startOf(kind, a[1]), startOf(kind, b[1])) || a[1].id - b[1].id).map(it => it[1]);
    if (one && one.place !== GONE) rows.unshift(one);
    return [kind, rows];
  });
  const isSlipped = found.every(it => !it[1].length);
  if (isSlipped) for (const it of found) it[1] = bySlips(it[0], words);
  const sections = found.map(([kind, rows]) => section(`${capital(kind)}s: ${digits(rows.length)}`, rows.length > 0 &&
    table(kind + 's found', [column('What', it => wordsOf(kind, it.id), it => rowLink(kind, it.id), 'head')], rows)));
  return [`Found: ${text}`, isSlipped && found.some(it => it[1].length) && node('p.warn',
    'Nothing has these words. With a slip of one letter in them these have:'),
  [...sections].sort((a, b) => !!b.children[1] - !!a.children[1])];
}


const ofLine = (line, missing = line.quantity) => `${digits(missing)} \u00d7 ${partName(line.component ?? line.part)}`;
function orderView(order) {
  const lines = find.linesOf(order.id), isSale = order.side === 1, isLive = order.state === PROGRESS;
  const open = lines.filter(it => leftOf(it) > 0), held = find.allocationsFor(`0 ${order.id}`);
  lines.forEach(it => watchRow('order_line', it.id));
  const one = { order: order.id }, more = () => inline('order_line', one, { title: 'Add a line', go: 'Add this line' });
  return [capital(wordsOf('order', order.id)), facts({ Order: order.id, Partner: name(order.partner),
    Done: lines.length > 0 && progress(lines, held) }),
  lines.length > 0 && acts(order.state === PENDING && quick('Issue this order', 'issue_order', one, 'main'),
    isLive && !open.length && quick('Close this order', 'close_order', one, 'main')),
  isLive && !isSale && open.length > 0 && receiveWork(order, open),
  isLive && isSale && [allocateWork('allocate_sale', ['order', order.id], open.map(line => ({ fields: { line: line.id },
    line, wanted: wantedOf(line), items: byAge(freeItems([line.part])), what: name(amountOf(line)) }))),
  held.length > 0 && section('Ship', 'These leave the house: ', list(held.map(it => [digits(it.quantity), ' of ',
    rowLink('item', it.item)])), acts(quick('Ship what is allocated', 'ship', one, 'main')))],
  listed('Lines', [partColumn, numbers('Quantity', 'quantity'), progressOf(it => find.allocationsOn(`0 ${it.id}`)),
    numbers('Free', it => freeIn(it.part))], lines),
  isLive && panel('Add a line', more), order.state === PENDING && more(),
  isSale && [allocationTable(held), listed('With the customer', itemColumns(partColumn), find.sentFor(order.id))],
  order.state < 3 && mends(() => wrongWithOrder(order, lines, held)),
  actsOn('order', order, ['issue_order', 'close_order', 'order_line', 'ship'])];
}
function receiveWork(order, open) {
  const rows = open.map(line => ({ line, called: partName(line.part) }));
  const textBox = (row, word) => row[word] = boxed(row, node('input', { autocomplete: 'off',
    'aria-label': `${capital(word)} of ${row.called}` }));
  const fieldsOf = row => ({ line: row.line.id, ...row.batch.value && { batch: row.batch.value },
    ...row.serials?.value && { serials: row.serials.value }, ...placeIn(row), ...amountIn(row) });
  return section('Receive', node('p.soft', 'Serials are written as M1,M2 or as a range 1-20. ',
    link(`files?kind=receipts&order=${order.id}`, 'Rows from a file')), batch({ verb: 'Receive',
    past: 'Received', rows, command: 'receive', fieldsOf, about: ['order', order.id], columns: [
      cell('Part', it => partLink(it.line.part), 'head'),
      cell('Outstanding', it => digits(leftOf(it.line)), 'n'), cell('Quantity', it => amountBox(it, leftOf(it.line))),
      cell('Location', it => placeBox(it, it.line.part, rows)), cell('Batch', it => textBox(it, 'batch')),
      cell('Serials', it => has(partAt(it.line.part), 'trackable') && textBox(it, 'serials'))] }));
}
function allocateWork(command, about, wants) {
  const left = new Map(), rows = [], short = [];
  for (const it of wants) {
    const given = shares(it.items, it.wanted, left).map(one => ({ ...it, ...one, called: wordsOf('item', one.item),
      isOff: it.isOff || it.line.component && !isOwn(it.line, rowOf('item', one.item).part) }));
    const missing = it.wanted - sum(given.filter(one => !one.isOff), 'quantity');
    rows.push(...given);
    if (missing > 0 && !it.isOff) short.push(ofLine(it.line, missing));
  }
  const fieldsOf = row => ({ ...row.fields, item: row.item, ...amountIn(row) });
  return rows.length + short.length > 0 && section('Allocate what is free, the oldest first', short.length > 0 &&
    node('p.bad', 'Not enough is free: ', name(short.join(', ')), '.'), rows.length > 0 && batch({ verb: 'Allocate',
    past: 'Allocated', about, rows, command, fieldsOf, columns: [cell('Item', it => rowLink('item', it.item), 'head'),
      cell('For', it => it.what.cloneNode(true)), cell('Quantity', it => amountBox(it, it.quantity))] }));
}


function buildView(build, query) {
  const outputs = find.outputsOf(build.id), needs = needsOf(build), isLive = build.state === PROGRESS, { id } = build;
  const toBegin = leftOf(build) - begunOf(build), isTrackable = has(partAt(build.part), 'trackable');
  outputs.forEach(it => watchRow('item', it.id));
  const wantOf = (need, wanted, output) => ({ wanted, isOff: need.isOptional, line: need.line,
    fields: { build: id, line: need.id, ...output && { output: output.id } }, items: freeItems(partsFor(need.line)),
    what: node('span', name(partName(need.component)), need.isOptional && ' (optional)',
      output && [', output ', name(itemName(output))]) });
  const wants = needs.flatMap(need => !need.isTracked ? wantOf(need, need.missing) : outputs.map(it =>
    wantOf(need, Math.max(0, need.line.quantity * it.quantity - allocatedFor(build, need.line, it.id)), it)));
  const kindOf = it => [it.isOptional && chip('optional'), it.isTracked && chip('for each piece'),
    it.spent > 0 && `${digits(it.spent)} used up`];
  return [capital(wordsOf('build', id)), facts({ Build: id, Part: partLink(build.part),
    Done: progress([build], outputs), Missing: lackOf(build) }),
  acts(isOpenBuild(build) && !isLive && quick(build.state === ON_HOLD ? 'Go on with this build' : 'Issue this build',
    'issue_build', { build: id }, 'main')),
  isLive && toBegin > 0 && panel(`Begin outputs (${digits(toBegin)} left)`, () => inline('outputs', { build: id },
    { hides: ['build', ...isTrackable ? [] : ['serials']], title: 'Begin outputs', go: 'Begin these' })),
  build.state < ON_HOLD && allocateWork('allocate_build', ['build', id], wants),
  isLive && outputs.length > 0 && completeWork(build, outputs),
  isLive && !outputs.length && section('Complete the build', missingWords(build) ||
    node('p', 'All is made. What is allocated is used up then.'),
  acts(quick('Complete this build', 'complete_build', { build: id }, leftOf(build) ? '' : 'main'))),
  needs.length > 0 && listed('What it needs', [parts('Component', 'component'), numbers('Required', 'required'),
"#,
    r#"    numbers('Allocated', 'allocated'), numbers('Missing', 'missing'), numbers('Free', it => freeIn(it.component)),
    cell('Kind', kindOf, 'late')], needs),
  listed('Outputs', itemColumns(), outputs), allocationTable(find.allocationsFor(`1 ${id}`)),
  listed('Used up', itemColumns(partColumn), find.usedBy(id)), buildOrigins(build),
  isOpenBuild(build) && panel('Cancel this build', () => endWork(build), query.has('end')),
  build.state > PENDING && mends(() => wrongWithBuild(build, outputs)),
  actsOn('build', build, ['issue_build', 'outputs', 'complete_build', 'cancel_build', 'auto_allocate'])];
}
const toEnd = build => link(`build/${build.id}?end=1`, 'Use up what was used, and end the build');
function missingWords(build) {
  const lines = needsOf(build).filter(it => it.missing > 0 && !it.isOptional && !it.isTracked), left = leftOf(build);
  return left + lines.length > 0 && node('div.bad', { role: 'status' }, 'To be completed it lacks: ', list([
    ...left ? [`${digits(left)} of ${digits(build.quantity)} aren't made yet`] : [],
    ...lines.map(it => [name(ofLine(it.line, it.missing)), ` (${digits(freeIn(it.component))} free)`])]),
  toEnd(build));
}
function completeWork(build, outputs) {
  const lacks = item => lacksOf(build, item).map(it => ofLine(it.line, it.missing)).join(', ');
  const rows = outputs.map(item => ({ item, quantity: item.quantity, called: itemName(item),
    isOff: lacks(item) !== '' }));
  const near = find.allocationsFor(`1 ${build.id}`).map(it => rowOf('item', it.item).ref)[0];
  return section('Complete outputs', batch({ verb: 'Complete', past: 'Completed', rows, command: 'complete_output',
    fieldsOf: row => ({ output: row.item.id, ...placeIn(row) }), about: ['build', build.id],
    columns: [cell('Output', it => itemLink(it.item), 'head'), cell('Quantity', it => digits(it.quantity), 'n'),
      cell('Lacks', it => node(it.isOff ? 'span.bad' : 'span.good', name(lacks(it.item) || 'nothing'))),
      cell('Location', it => placeBox(it, build.part, rows, near))] }));
}
function cancelWarning(build) {
  const unused = unusedOf(build);
  return unused.length > 0 && node('div.warn', { role: 'alert' }, build.done > 0 && node('b',
    `${digits(build.done)} of ${digits(build.quantity)} are made already. `), 'This is allocated and isn\'t used up. ',
  'It goes back into stock, though it may be used up in truth:', list(unused.map(it => [digits(it.quantity), ' of ',
    rowLink('item', it.item)])), !here().startsWith('build/') && toEnd(build));
}
function endWork(build) {
  const begun = begunOf(build), one = ['cancel_build', { build: build.id }];
  const rows = unusedOf(build).map(it => ({ ...it, called: wordsOf('item', it.item) }));
  const takes = it => books.lines.get(it.line).quantity * build.done - sum(find.spentOf(`${build.id} ${it.line}`),
    'quantity');
  return [cancelWarning(build), begun > 0 && node('p.bad', `${digits(begun)} are begun and not completed: they go.`),
    build.state !== PENDING && rows.length > 0 && section('Use up and end', node('p', 'What is ticked is used up: it ',
      'leaves the stock. The rest goes back. Then the build ends: the program calls it ', node('b', 'cancelled'),
      `, with ${digits(build.done)} of ${digits(build.quantity)} made.`), batch({ verb: 'Use up and end',
      past: 'Used up', about: ['build', build.id], rows, command: 'consume', fieldsOf: row => ({ allocation: row.id }),
      first: build.state === ON_HOLD ? [() => ['issue_build', one[1]]] : [], last: [() => one],
      end: ', and ended the build', columns: [cell('Item', it => rowLink('item', it.item), 'head'),
        cell('Quantity', it => digits(it.quantity), 'n'),
        cell('What is made takes', it => digits(takes(it)), 'n')] })),
    section('Cancel only', node('p', 'What is allocated goes back into stock, and outputs that are begun are gone.'),
      acts(quick('Cancel, and use nothing up', ...one)))];
}

const mends = make => panel('When something went wrong', () => node('dl', make().filter(it => it[0])
  .map(([, wrong, ...how]) => [node('dt', wrong), node('dd', how)])));
const takeOut = it => actOn('remove', { item: it.id }, ['Take out of ', name(wordsOf('item', it.id))]);
const giveBack = it => quick(['Give back ', name(wordsOf('allocation', it.id))], 'release', { allocation: it.id });
function wrongWithItem(item) {
  const isHere = isAt(item), one = { item: item.id }, isPiece = !!item.serial, held = find.allocationsOf(item.id);
  const inner = find.itemsIn(item.id);
  const anew = text => actOn('found', { part: item.part, ...isHere && { location: item.ref }, quantity: 1,
    ...item.batch && { batch: item.batch } }, text);
  return [
    [isHere && !isPiece, 'Took too much out, or more is here than the books say', actOn('add', one, 'Put some back'),
      ' or ', actOn('count', one, 'Count it again')],
    [isHere, 'Received or found too much: fewer are here', actOn('remove', one, 'Take the surplus out'),
      soft(' An order counts them as received. If they still come, add a line to it.')],
    [isHere && isPiece, 'It has the wrong serial', actOn('remove', { ...one, quantity: 1 },
      'First take it off the books'), ' then ', anew('Find it with the right one'),
    soft(' The wrong serial stays taken.')],
    [isHere, 'It lies somewhere else, or its status is wrong', actOn('transfer', one, 'Move it'), ' or ',
      actOn('set_status', one, 'Set its status')],
    [held.length, 'It is allocated to the wrong order or build', each(held, giveBack)],
    [item.place === OFF, 'It was taken off the books by mistake', actOn('reinstate', one, 'Bring it back')],
    [item.place === GONE, 'All of it was taken out by mistake', anew('Find it anew')],
    [item.place === IN, 'It was put into the wrong item', actOn('uninstall', one, 'Take it out')],
    [item.place === SENT, 'It was shipped by mistake, or came back', actOn('return_item', one, 'Take it back')],
    [item.place === USED, 'It wasn\'t used up in truth', 'Nothing takes that back: ', anew('Find it anew')],
    [item.place === OUTPUT, 'It was begun by mistake, or is spoilt', outputMends(item)],
    [isHere && inner.length, 'The wrong piece was put into it', each(inner, it => actOn('uninstall', { item: it.id },
      ['Take out ', name(itemName(it))])), 'or ', actOn('disassemble', one, 'Take it all apart')],
  ];
}
const outputMends = it => [quick(['Cancel output ', name(lot(it) || it.id)], 'cancel_output', { output: it.id }), ' ',
  quick(['Scrap output ', name(lot(it) || it.id)], 'scrap_output', { output: it.id })];
function wrongWithOrder(order, lines, held) {
  const isOpen = order.state < 2, isSale = order.side === 1, done = lines.filter(it => it.done > 0);
  const newest = part => find.itemsOf(part).filter(isAt).slice(-3).reverse();
  const came = done.flatMap(it => newest(it.part)), pieces = came.filter(it => it.serial);
  const sent = find.sentFor(order.id);
  return [
    [isOpen, 'The partner or a line is wrong', done.length > 0 && 'What is done of it stays with it. ',
      anewForm(order, lines)],
    [!isSale && came.length, 'Received too much', each(came, takeOut),
      soft(' The order counts it as received. If more comes, add a line.')],
    [!isSale && pieces.length, 'Received with a wrong serial', 'Open the piece: ', each(pieces, itemLink)],
    [isSale && held.length, 'The wrong item is allocated', each(held, giveBack)],
    [sent.length, 'Shipped by mistake, or it came back', each(sent, it => actOn('return_item', { item: it.id },
      ['Take back ', name(itemName(it))]))],
  ];
}
function anewForm(order, lines) {
  const partner = node('input', { 'aria-label': 'Right partner', value: order.partner, autocomplete: 'off' });
  const rows = lines.map(line => ({ line, called: partName(line.part), isOff: !leftOf(line) }));
  const first = [() => ['order', { side: SIDES[order.side], partner: partner.value }]], made = () => first[0].ids[0];
  return node('div', node('label', 'Partner', partner), batch({ verb: 'Make it anew, and cancel this one',
    past: 'Made anew:', about: ['order', order.id], rows, command: 'order_line', to: () => `order/${made()}`, first,
    fieldsOf: row => ({ order: first[0].ids && made(), part: row.line.part, ...amountIn(row) }),
    last: [...order.state === PROGRESS ? [() => ['issue_order', { order: made() }]] : [],
      () => ['cancel_order', { order: order.id }]],
    columns: [cell('Part', it => name(it.called), 'head'),
      cell('Quantity', it => amountBox(it, leftOf(it.line) || 1))] }));
}
function wrongWithBuild(build, outputs) {
  const isOpen = isOpenBuild(build), made = build.done ? find.itemsOf(build.part).filter(isAt).slice(-3) : [];
  const used = linesFor(build.part).flatMap(line => partsFor(line).flatMap(find.itemsOf).filter(isFree).slice(0, 2));
  return [
    [isOpen && outputs.length, 'An output was begun by mistake, or is spoilt', each(outputs, outputMends)],
    [made.length, 'Completed too many, or too early', each(made, it => it.serial ? actOn('disassemble', { item: it.id },
      ['Take apart ', name(itemName(it))]) : takeOut(it)), soft(' The build counts it as made all the same.')],
    [isOpen, 'Its part or its quantity is wrong', 'Cancel it, above, and make ', actOn('build', { part: build.part,
      quantity: build.quantity }, 'a new build')],
    [build.state === 3 && used.length, 'It was cancelled, though parts were used up', each(used, takeOut)],
  ];
}

const SHEET = 'sheet:';
const isUnanswered = line => line != null && openAt(JSON.parse(line).key) !== null;
function sheetView(here, query) {
  const isDeep = query.has('deep'), word = `${SHEET}${here.id}:${isDeep}`, was = store.get(word);
  const isForeign = was !== null && !areThese(was.books ?? []), kept = isForeign ? {} : was?.rows ?? {};
  const typed = () => Object.values(kept).filter(it => it.text).length;
  const below = node('div'), count = node('span.soft', { role: 'status' });
  const ids = new Set([...itemsUnder(here.id, isDeep).map(it => it.id), ...Object.keys(kept).map(Number)]);
  const itemOf = row => rowOf('item', row.id);
  const rows = [...ids].filter(id => rowOf('item', id)).map(id => ({ id,
    opened: kept[id]?.opened ?? rowOf('item', id).quantity }));
  const keep = () => {
    if (Object.keys(kept).length) store.set(word, { books: marks, rows: kept });
    else if (!isForeign) store.drop(word);
    count.textContent = `${digits(typed())} of ${digits(rows.length)} counted`;
  };
  const marked = row => {
    const { quantity, place } = itemOf(row), sent = kept[row.id]?.line;
    row.note ||= node('span.warn', { role: 'status' });
    row.note.textContent = sent ? `A count of ${digits(JSON.parse(sent).quantity)} was sent and not answered.` :
      place !== AT ? 'It lies here no more.' : quantity === row.opened ? '' :
      `The books changed from ${digits(row.opened)} to ${digits(quantity)} since the sheet was opened.`;
    row.note.closest('tr')?.classList.toggle('changed', row.note.textContent !== '');
    return row.note;
  };
  const markAll = () => rows.forEach(it => it.note && marked(it));
  const look = button('Look at what will change', () => countSummary(of), 'main look'), marks = marksOf();
  const move = (box, step) => {
    const boxes = () => [...sheet.querySelectorAll('tbody input')], at = boxes().indexOf(box) + step;
    if (at >= boxes().length) grid.next();
    const next = boxes()[at] ?? (step > 0 ? look : null);
    next?.focus();
    next?.select?.();
  };
  const boxOf = row => {
    const box = numberBox('Counted of ' + wordsOf('item', row.id), { value: kept[row.id]?.text, input: () => {
      box.ariaInvalid = box.value.trim() !== '' && Number.isNaN(numberIn(box.value));
      const { line, typed } = kept[row.id] ?? {};   // what wasn't answered stays
      delete kept[row.id];
      const text = box.value.trim() && box.value;
      if (text || line) kept[row.id] = { text, opened: row.opened, line, typed };
      keep();
    }, keydown: event => {
      const step = { Enter: 1, ArrowDown: 1, ArrowUp: -1 }[event.key];
      if (!step || event.ctrlKey || event.altKey) return;
      event.preventDefault();
      move(box, step);
    } });
    return box;
  };
  const partOf = it => partName(itemOf(it).part), grid = table('Items', [
    column('Part', partOf, it => [name(partOf(it)), ' ', soft(name(lot(itemOf(it))))], 'head'),
    column('Item', 'id', it => link('item/' + it.id, it.id), 'late'), isDeep && column('Where',
      it => placeName(itemOf(it).place, itemOf(it).ref), it => placeLink(itemOf(it).place, itemOf(it).ref)),
    numbers('Expected', it => itemOf(it).quantity), cell('Counted', boxOf), cell('Note', marked)].filter(Boolean),
  rows);
  const sheet = node('div', { role: 'group', 'aria-label': 'Counts' }, grid, acts(count, look,
    button('Empty this sheet', () => { store.drop(word); show(false); })));
  const of = { kept, keep, rows, sheet, below, look, markAll };
  markAll();
  keep();
  whenRead.push(markAll);
  return ['Count sheet: ' + path('locations', here.id), acts(deepTick('sheet', here, query),
    link(`location/${here.id}`, '\u2190 the location'), link('files?kind=counts', 'Rows from a file')), isForeign &&
    says('warn', "What was typed on such a sheet of another workshop isn't put here."), node('p.soft acts', 'Enter ',
    'and the arrows go from row to row. Nothing is sent before you have seen what will change. An empty box isn\'t ',
    'counted.'), sheet, below];
}
function settleCount(line, isDone) {
  const { item, quantity, do: command } = JSON.parse(line);
  for (const word of command === 'count' ? store.keys(SHEET) : []) {
    const sheet = store.get(word), it = areThese(sheet.books ?? []) && sheet.rows?.[item];
    if (!it) continue;
    if (isDone) it.opened = quantity;
    if (it.line === line) {
      if (!it.text || isDone && it.text === it.typed) delete sheet.rows[item];
      delete it.line;
    }
    store.set(word, sheet);
  }
}
async function settle(key) {
  const { line, path, books } = openAt(key) ?? {};
  if (!line) return { isDone: true };
  await reread();
  if (!areThese(books)) return { isHeld: true, why: 'These are the books of another workshop now.' };
  busy++;
  const answer = await send(line, path, key);
  busy--;
  await reread();
  if (!answer.isOpen && path === RUN) settleCount(line, answer.isDone);
  return answer;
}
function settleFirst(of) {
  const keys = Object.entries(of.kept).flatMap(([id, { line }]) => {
    const own = isUnanswered(line) && JSON.parse(line).key;
    return own || openLike('count', { item: Number(id) }) || [];
  });
  const go = button('Send them again', async () => {
    go.disabled = true;
    let answer = null;
    for (const key of new Set(keys)) if (!answer?.isOpen) answer = await settle(key);
    flash = { at: here().split('?')[0], made: answer.isDone ? says('good', 'It is done now, once.') : notDone(answer) };
    show(false);
    offerOpen();
    if (!answer.isOpen) main.querySelector('button.look').click();
  }, 'main');
  return keys.length > 0 && [node('b', `Sent and not answered: ${digits(new Set(keys).size)}. `), UNKNOWN,
    'Until then nothing else is sent. ', go];
}
async function countSummary(of, message) {
  const { kept, rows, sheet, below, look } = of;
  const say = (look, ...told) => below.replaceChildren(says(look, ...told));
  try { await refresh(); } catch (fault) { return say('bad', 'Nothing was sent. ', fault.message); }
  if (isOther) return show(true);
  of.markAll();
  const first = settleFirst(of);
  if (first) return say('warn', first);
  const counted = Object.entries(kept).filter(it => it[1].text && rowOf('item', Number(it[0])));
  const all = counted.map(([id, { text, opened, line }]) => {
    const item = rowOf('item', Number(id)), counted = numberIn(text), change = item.quantity - opened;
    const fault = item.place !== AT ? 'It lies here no more: it is left out.' : Number.isNaN(counted) ?
      'That is no whole number.' : item.serial && counted > 1 ? 'A piece with a serial is counted as 0 or 1.' : '';
    const late = line ? -1 : counted + change, option = (value, told) => node('option', { value }, told);
    const ask = change !== 0 && !fault && node('select', { 'data-view': true, change: () => drawn(),
      'aria-label': `Counted before or after: ${wordsOf('item', item.id)}` },
    option('', 'Leave it out, and count it again'), option(counted, `Counted after that: ${digits(counted)} are there`),
    late >= 0 && option(late, `Counted before that: now ${digits(late)} have to be there`));
    return { id: item.id, item, line, text, counted, opened, now: item.quantity, fault, more: node('span'), ask };
  });
  if (!all.length) return say('warn', 'Nothing is counted yet: all boxes are empty.');
  const weight = it => it.fault || it.ask ? Infinity : Math.abs(it.counted - it.now);
  all.sort((a, b) => weight(a) === weight(b) ? 0 : weight(b) - weight(a));
  const quantityOf = it => it.fault || it.ask && !it.ask.value ? null : Number(it.ask ? it.ask.value : it.counted);
  const go = button('Send', () => sendCounts(of, all.map(it => ({ ...it, quantity: quantityOf(it) }))
    .filter(it => it.quantity !== null)), 'main'), head = node('p', { role: 'status' });
  const drawn = () => {
    const there = all.filter(it => quantityOf(it) !== null), changed = there.filter(it => quantityOf(it) !== it.now);
    for (const it of all) {
      const more = quantityOf(it) - it.now, isBig = Math.abs(more) >= Math.max(3, it.now / 5);
      it.more.replaceChildren(...there.includes(it) ? [signed(more), isBig ? chip('big', 'bad') : ''] : ['left out']);
    }
    head.textContent = [[changed.length, 'items change'], [there.length - changed.length, 'are as expected'],
      [all.length - there.length, 'are left out'], [rows.length - all.length, 'stay uncounted']]
      .map(([n, words]) => `${digits(n)} ${words}`).join(', ') + '. Nothing is sent yet.';
    [go.disabled, go.textContent] = [!there.length, `Send these ${digits(there.length)} counts`];
  };
  const settle = it => it.fault ? node('span.bad', it.fault) : it.ask && node('div.warn',
    it.line && 'A count that was sent and not answered may be in this. ',
    `The books changed from ${digits(it.opened)} to ${digits(it.now)} since the sheet was opened. `, it.ask);
  const titled = node('h2', { tabindex: -1 }, 'What will change');
  drawn();
  sheet.hidden = true;
  below.replaceChildren(titled, message ? says('warn', message) : '', head, table('What will change', [
    cell('Part', it => rowLink('item', it.id), 'head'), cell('Expected', it => digits(it.now), 'n'),
    cell('Counted', it => name(it.text), 'n'), cell('Difference', it => it.more, 'n'), cell('To settle', settle)], all),
  acts(go, button('Back to the sheet', () => {
    sheet.hidden = false;
    below.replaceChildren();
    look.focus();
  })));
  titled.focus();
  hush();
}
async function sendCounts(of, chosen) {
  const { kept, keep, below } = of;
  if (isEarly() || busy) return;
  busy++;
  try {
    await refresh();
    if (isOther) return show(true);
    if (chosen.some(it => it.item.place !== rowOf('item', it.id).place || it.now !== rowOf('item', it.id).quantity))
      return await countSummary(of, 'Nothing was sent: the books changed once more. Look at it again.');
    below.querySelectorAll('button, select').forEach(it => { it.disabled = true; });
    const from = entries + 1;
    for (const it of chosen) {
      const one = kept[it.id], fields = { item: it.id, quantity: it.quantity };
      Object.assign(one, { typed: one.text, line: lineOf('count', fields) });
      keep();
      it.answer = await send(one.line);
      if (it.answer.isOpen) break;
      if (it.answer.isDone) delete kept[it.id];
      else delete one.line;
      keep();
    }
    await reread();
    countReport(of, chosen, await entriesFrom(from, entries).catch(() => []));
  } catch (fault) {
    below.append(says('bad', fault.message));
  } finally {
    busy--;
    offerOpen();
  }
}
function countReport(of, chosen, written) {
  const sign = it => KINDS[it.kind] === 'found' ? 1 : -1;
  const wordOf = it => `${kindWord(KINDS[it.kind])} ${digits(it.quantity)}` +
    (it.place === OFF ? ` (${REASONS[it.ref]})` : '');
  const truth = ({ id, answer, quantity, now }) => {
    if (!answer?.isDone) return node('span.bad', answer ? answer.why : 'not sent');
    const own = written.filter(it => it.item === id), total = own.reduce((all, it) => all + sign(it) * it.quantity, 0);
    const isOther = own.length > 1 || total !== quantity - now || !own.length && answer.entries > 0;
    return node(isOther ? 'span.warn' : 'span.good', isOther && 'Another changed it meanwhile. ',
      own.length ? `Written: ${own.map(wordOf).join(', ')}.` : 'As expected: nothing was written.',
      ` The books say ${digits(rowOf('item', id).quantity)} now.`);
  };
  const done = chosen.filter(it => it.answer?.isDone).length, open = chosen.find(it => it.answer?.isOpen);
  const refused = chosen.filter(it => it.answer && !it.answer.isDone).length;
  of.below.replaceChildren(open ? notDone(open.answer) : says(refused ? 'bad' : 'good',
    `Counted: ${digits(done)}. Refused: ${digits(refused)}.`), table('What came of it', [
    cell('Part', it => rowLink('item', it.id), 'head'), cell('Before', it => digits(it.now), 'n'),
    cell('Counted', it => digits(it.quantity), 'n'), cell('What was written', truth)], chosen),
  acts(open && button('Look at it again', () => countSummary(of), 'main'), button('To the sheet', () => show(false))));
  of.below.firstChild.focus();
}


function recordsIn(text, comma = ',') {
  const rows = [[]], end = `(${comma}|\r\n|\n|\r|$)`;
  const cell = RegExp(`(?:"([^"]*(?:""[^"]*)*)"|([^"${comma}\r\n][^${comma}\r\n]*|))${end}`, 'y');
  while (cell.lastIndex < text.length) {
    const it = cell.exec(text);
    if (!it) throw new Error(`Record ${rows.length} has a quote that isn't closed, or text behind one.`);
    rows.at(-1).push(it[1]?.replaceAll('""', '"') ?? it[2]);
    if (it[3] !== comma) rows.push([]);
  }
  return rows.filter(it => it.length > 1 || it[0]);
}
const origins = make => opening('origins', 'Where it came from, and where it went', () => node('div', make(),
  node('p.soft', "What a request without a key made isn't known here.")));
const traced = (title, list, word) => [node('h3', title), asked(readList(list, word), text =>
  listTable(title, list, text))];
const itemOrigins = item => origins(() => [traced('Came from', 'trace-back', itemWord(item.id)),
  traced('Went to', 'trace-forward', itemWord(item.id))]);
let makers = null;
const CUTS = ['transfer', 'split', 'serialise', 'install'];
async function readMakers() {
  if (makers?.tag === tag) return makers;
  const read = { tag, of: new Map() }, [, ...rows] = recordsIn((await get('/export/kept')).text);
  for (const [, command, answer] of rows) {
    const { ids = [] } = JSON.parse(answer), { do: made, build, item } = JSON.parse(command);
    const key = made === 'outputs' ? 'build ' + build : CUTS.includes(made) && 'item ' + item;
    if (key) read.of.set(key, [...read.of.get(key) ?? [], ...ids]);
  }
  return makers = read;
}
const madeOf = (read, key) => (read.of.get(key) ?? []).flatMap(it => [it, ...madeOf(read, 'item ' + it)]);
function buildOrigins(build) {
  return origins(() => asked(readMakers(), read => {
    const made = madeOf(read, 'build ' + build.id).map(it => rowOf('item', it)).filter(it => it && it.place !== GONE);
    const known = sum(made, 'quantity'), inner = made.flatMap(it => find.itemsIn(it.id));
    return [node('h3', 'Went into it'), table('Went into it', itemColumns(partColumn, where),
      [...find.usedBy(build.id), ...inner]), node('h3', 'Came of it'), table('Came of it', itemColumns(where), made),
    known < build.done && node('p.soft', `Of ${digits(build.done)} that are done ${digits(known)} can be told here.`)];
  }));
}
function batchView(_, query, word) {
  const part = Number(word), batch = query.get('text'), isOne = it => it.part === part && it.batch === batch;
  const items = [...books.items.values()].filter(isOne), sums = new Map();
  for (const it of items) sums.set(it.place, (sums.get(it.place) ?? 0) + it.quantity);
  const places = ['here', 'in other items', 'outputs', 'with customers', 'used up', 'written off'];
  const went = it => it.place === USED ? partLink(rowOf('build', it.ref).part) : it.place === IN &&
    partLink(rowOf('item', it.ref).part);
  return [`Batch ${batch} of ${partName(part)}`, facts({ Part: partLink(part), Batch: name(batch),
    ...Object.fromEntries(places.map((it, at) => [capital(it), sums.get(at) && digits(sums.get(at))])) }),
  listed('Items', [...itemColumns(where), column('Went into', null, went)], items),
  origins(() => [each(items.slice(0, 20), it => traced(`Came from: ${wordsOf('item', it.id)}`, 'trace-back',
    itemWord(it.id))), traced('Went to', 'trace-forward', batch)])];
}


const FILES = { receipts: 'receive', counts: 'count' }, filed = { text: '', document: '', ...store.get('filed') };
const WAS = { receipts: 'outstanding', counts: 'expected' };
const HEADS = { receipts: 'number,line,location,quantity,batch,serials', counts: 'number,item,quantity' };
const ALIASES = { quantity: ['counted', 'qty'], line: ['order line', 'part'], component: ['part'], name: ['part'] };
const MOST_BYTES = 1048576, sizeOf = text => new TextEncoder().encode(text).length,
  TOO_LONG = `The file has more than ${digits(MOST_BYTES)} bytes: cut it up.`, COMMAS = [',', ';', '\t'];
const fieldsOfKind = kind => FORMS.get(FILES[kind] ?? kind).fields;
const isRequired = it => !it.isOptional && !['yes', 'words'].includes(it.kind);
function fileIn(text, kind) {
  const named = heads => fieldsOfKind(kind).filter(it => columnOf(it.name, heads) >= 0).length;
  let best = null;
  for (const comma of COMMAS) {
    const head = text.split(/\r|\n/).find(Boolean) ?? '', heads = head.split(comma).map(it => it.replace(/^"|"$/g, ''));
    if (!best || named(heads) > best.named || named(heads) === best.named && heads.length > best.heads.length)
      best = { comma, heads, named: named(heads) };
  }
  const [heads = [], ...rows] = recordsIn(text.replace(/^\ufeff/, ''), best.comma);
  const long = rows.findIndex(it => it.length > heads.length);
  if (long >= 0) throw new Error(`Record ${long + 2} has more fields than the header.`);
  return { heads, rows: rows.map((cells, at) => ({ cells, record: at + 2 })) };
}
function columnOf(field, heads) {
  const known = heads.map(it => fold(it.trim()));
  return [field, ...ALIASES[field] ?? []].map(it => known.indexOf(it)).find(at => at >= 0) ?? -1;
}
const withoutGaps = text => text.replace(/\s*\/\s*/g, '/');
function namesOf(kind, { id, part, name: own, place, serial, batch, owner }, order) {
  const isOpen = () => isOpenLine(0)(rowOf(kind, id)) && (!order || owner === order);
  if (kind === 'order_line') return isOpen() ? [partName(part)] : [];
  if (kind === 'order' || kind === 'build') return [keyNames.get(id)];
  if (kind === 'item') return place === GONE ? [] : [...new Set([serial, batch])];
  return kind === 'location' || kind === 'category' ? [own, withoutGaps(ROWS[kind][0]({ id }))] : [own];
}
function rowsCalled(kind, text, { order, known }) {
  if (/^\d{1,15}$/.test(text)) return [rowOf(kind, Number(text))].filter(Boolean);
  if (!known.has(kind)) {
    const rows = new Map();
    for (const row of rowsOfKind(kind).values()) for (const word of new Set(namesOf(kind, row, order)))
      if (word) rows.set(word, [...rows.get(word) ?? [], row]);
    known.set(kind, rows);
  }
  return known.get(kind).get(text) ?? known.get(kind).get(withoutGaps(text)) ?? [];
}
function valueIn({ name: field, kind }, text, given) {
  if (ROWS[kind]) {
    const found = rowsCalled(kind, text, given);
    if (found.length === 1) return found[0].id;
    throw new Error(`${field}: ${found.length ? 'several rows are' : 'nothing is'} called ${text}`);
  }
  if (kind === 'items') return text.split(/[\s,;]+/).map(it => valueIn({ name: field, kind: 'item' }, it, given));
  if (kind === 'words') return text.split(/[\s,;]+/);
  if (kind === 'number' && Number.isNaN(numberIn(text))) throw new Error(`${field}: ${text} is no whole number`);
  if (kind === 'yes' && !/^(yes|no|true|false)$/i.test(text)) throw new Error(`${field}: ${text} isn't yes or no`);
  return kind === 'number' ? numberIn(text) : kind === 'yes' ? /^(yes|true)$/i.test(text) : text;
}
function fieldsIn(row, kind, sources, given) {
  const of = it => (sources[it].fixed || row.cells[sources[it].column] || '').trim();
  const own = fieldsOfKind(kind), number = of('number'), isSaid = Object.keys(sources).some(it => it !== 'number' &&
    row.cells[sources[it].column]?.trim());
  if (!isSaid || FILES[kind] && !of('quantity')) return null;
  const fields = {}, faults = [];
  for (const it of own) try {
    const text = of(it.name);
    if (text) fields[it.name] = valueIn(it, text, given);
    else if (it.kind === 'words') fields[it.name] = [];
    else if (isRequired(it)) faults.push(`${it.name} is empty`);
  } catch (fault) { faults.push(fault.message); }
  const day = !FILES[kind] && of('day'), key = !FILES[kind] && of('key');
  if (day && !/^\d{4}-\d\d-\d\d$/.test(day)) faults.push(`day: ${day} is no day`);
  if (FILES[kind] && number && !/^\d{1,15}$/.test(number)) faults.push(`number: ${number} is none`);
  return { number: FILES[kind] ? Number(number || row.record) : number || '@' + row.record, fields: day ?
    { ...fields, day } : fields, key, expected: WAS[kind] ? numberIn(of(WAS[kind])) : NaN,
  fault: faults.join('; ') };
}
function textIn(bytes) {
  try {
    return new TextDecoder('utf-8', { fatal: true }).decode(bytes);
  } catch { return new TextDecoder('windows-1252').decode(bytes); }
}
function columnChoices(kind, heads, sources, changed) {
  const extra = WAS[kind] ? ['number', WAS[kind]] : ['number', 'key', 'day'];
  Object.keys(sources).forEach(it => delete sources[it]);
  const choice = (field, isNeeded) => {
    const source = sources[field] = { column: columnOf(field, heads), fixed: '' };
    const from = node('select', { 'aria-label': `Column of ${field}`, change: () => {
      source.column = Number(from.value);
      changed();
    } }, node('option', { value: -1 }, 'no column'), heads.map((it, at) =>
      node('option', { value: at, selected: at === source.column }, it)));
    const same = node('input', { 'aria-label': `${field}, the same in each row`, autocomplete: 'off',
      placeholder: 'the same in each row', input: () => {
        source.fixed = same.value.trim();
        changed();
      } });
    return [node('dt', field + (isNeeded ? '' : ' (may be empty)')), node('dd.row', from,
      !extra.includes(field) && same)];
  };
  return node('dl', fieldsOfKind(kind).map(it => choice(it.name, isRequired(it))), extra.map(it => choice(it)));
}
const KINDS_OF_FILES = () => [...Object.keys(FILES), ...[...FORMS.keys()].filter(it =>
  !Object.values(FILES).includes(it))];
const TITLES_OF_FILES = { receipts: 'Deliveries', counts: 'Counts' };
function filesView(_, query) {
  const wanted = query.get('kind') ?? filed.kind ?? 'receipts', sources = {};
  const below = node('div'), columns = node('div');
  const kind = node('select', { id: 'kind', change: () => changed() }, KINDS_OF_FILES().map(value =>
    node('option', { value, selected: value === wanted }, TITLES_OF_FILES[value] ?? FORMS.get(value).title)));
  const box = node('textarea', { id: 'rows', rows: 8, spellcheck: 'false', input: () => changed() });
  let isNamed = false;
  const called = node('input', { id: 'document', autocomplete: 'off', value: filed.document, input: () => {
    isNamed = true;
    changed();
  } });
  const file = node('input', { id: 'file', type: 'file', accept: '.csv,.txt,.tsv,text/csv', change: async () => {
    const [one] = file.files;
    if (!one) return;
    box.value = textIn(await one.arrayBuffer());
    if (!isNamed) called.value = one.name.replace(/\.\w+$/, '').replace(/[^A-Za-z0-9._-]+/g, '-').slice(0, 32);
    changed();
  } });
  box.value = filed.text;
  const order = rowField({ kind: 'order', isOptional: true }, 'Of order', it => it.state === PROGRESS && !it.side,
    () => ({}), () => below.replaceChildren());
  if (query.get('order')) order.set(query.get('order'));
  const ofOrder = node('div.field', order.made);
  let drawn = '';
  const changed = () => {
    Object.assign(filed, { text: box.value, document: called.value, kind: kind.value });
    if (filed.text.length < 200000) store.set('filed', filed);   // lines without an answer need the room more
    ofOrder.hidden = kind.value !== 'receipts';
    below.replaceChildren();
    let heads = [];
    try {
      heads = fileIn(box.value.split(/\r|\n/).find(Boolean) ?? '', kind.value).heads;
    } catch { /* it is told when one looks at the rows */ }
    const now = JSON.stringify([kind.value, heads]);
    if (now !== drawn) columns.replaceChildren(box.value.trim() ? columnChoices(kind.value, heads, sources, () =>
      below.replaceChildren()) : '');
    drawn = now;   // of the same columns what was chosen stays
  };
  changed();
  const look = isWhole => async () => {
    const say = (...it) => below.replaceChildren(says('bad', 'Nothing was sent. ', it));
    if (!/^[A-Za-z0-9._-]{1,32}$/.test(called.value))
      return say('The document needs a name of letters, digits, dots, _ and - alone, 32 at most.');
    try {
      await refresh();
      if (isOther) return show(true);
      const text = box.value.replace(/^\ufeff/, '');
      if (isWhole) return below.replaceChildren(...wholeFile(kind.value, called.value, text));
      const { rows } = fileIn(box.value, kind.value), given = { order: order.get(), known: new Map() };
      const all = rows.map(it => ({ ...it, ...fieldsIn(it, kind.value, sources, given) })).filter(it => it.fields);
      below.replaceChildren(...fileSummary(kind.value, called.value, all, rows.length));
    } catch (fault) { say(fault.message); }
  };
  const labelled = (box, words, more) => node('div.field', node('label', { for: box.id }, words), box, more);
  return ['Rows from a file', node('div.card', labelled(kind, 'What the rows are'), labelled(file, 'A file'),
    labelled(box, 'Or rows that are pasted, a line of heads above them'), ofOrder,
    labelled(called, 'Name of the document', soft('A row is done once under this name and its number: that in the ',
      'column number, or else its place in the file.')), columns, acts(button('Look at the rows', look(false), 'main'),
    button('Let the program read it', look(true)))),
  below];
}
function fileSummary(kind, document, all, count) {
  const command = FILES[kind] ?? kind, good = all.filter(it => !it.fault), said = node('div');
  for (const row of all) row.told = node('span', { role: 'status' }, row.fault && node('span.bad', row.fault));
  const numbers = new Set(), twice = good.find(it => numbers.size === numbers.add(it.number).size);
  const item = row => rowOf('item', row.fields.item), more = row => row.fields.quantity - item(row).quantity;
  const rowsToCount = row => !row.fault && item(row), chosen = () => good.filter(it => !it.tick || it.tick.checked);
  const now = row => kind === 'counts' ? item(row).quantity : leftOf(rowOf('order_line', row.fields.line));
  const isChanged = row => !row.fault && row.expected >= 0 && now(row) !== row.expected &&
    (kind === 'receipts' || now(row) !== row.fields.quantity);
  for (const row of WAS[kind] ? good : []) {
    row.now = now(row);
    if (isChanged(row)) row.tick = node('input', { type: 'checkbox', change: () => drawn() });
  }
  const settled = row => row.tick && node('label.warn', row.tick, `The books changed from ${digits(row.expected)} to ${
    digits(now(row))} since the sheet was saved: send it all the same`);
  const go = button('', async () => {
    if (isEarly(go) || busy) return;
    go.disabled = true;
    const rows = chosen(), before = snapshot([]);
    busy++;
    let answer = null;
    await reread();
    if (isOther) {
      busy--;
      return show(true);
    }
    try {
      answer = WAS[kind] && rows.some(it => it.now !== now(it)) ? { isHeld: true,
        why: 'The books changed since the rows were looked at. Look at them again.' } :
        await (FILES[kind] ? sendFile : sendRows)(kind, document, rows);
    } finally { busy--; }
    await reread();
    go.disabled = false;
    if (kind === 'counts') rows.filter(it => it.isDone && item(it)?.quantity !== it.fields.quantity).forEach(it =>
      it.told.replaceChildren(node('span.warn', `done before: the books say ${digits(item(it)?.quantity ?? 0)} now`)));
    const done = rows.filter(it => it.isDone).length;
    said.replaceChildren(answer ? notDone(answer) : says(done < rows.length ? 'bad' : 'good', node('b',
      `Done: ${digits(done)}. Refused: ${digits(rows.length - done)}. `), list(effects(before))));
    said.firstChild.focus();
    offerOpen();
  }, 'main');
  const faulty = all.length - good.length, head = node('p', { role: 'status' });
  const drawn = () => {
    const { length } = chosen();
    head.textContent = [[length, 'rows are to be sent'], [good.length - length, 'are left out'], [faulty,
      'are faulty and left out'], [count - all.length, 'say nothing']].map(([n, words]) => `${digits(n)} ${words}`)
      .join(', ') + '. Nothing is sent yet.';
    [go.disabled, go.textContent] = [!length, `Send these ${digits(length)} rows`];
  };
  drawn();
  hush();
  return [node('h2', 'What the rows will do'), twice ? says('bad', `Two rows have the number ${twice.number}. `,
    'Nothing can be sent.') : head, !twice && good.length > 0 && acts(go), said,
  table('What the rows will do', [cell('Row', it => digits(it.record), 'n'), cell('What', it => name(it.fault ?
    it.cells.join(', ') : sentenceOf(command, it.fields, FORMS.get(command).title + ':')), 'head'),
  ...kind === 'counts' ? [
    cell('Expected', it => rowsToCount(it) && digits(item(it).quantity), 'n'),
    cell('Difference', it => rowsToCount(it) && [signed(more(it)), Math.abs(more(it)) >= Math.max(3,
      item(it).quantity / 5) && chip('big', 'bad')], 'n')] : [], ...WAS[kind] ? [cell('To settle', settled)] : [],
  cell('Answer', it => it.told)],
  [...all].sort((a, b) => !!(b.fault || b.tick) - !!(a.fault || a.tick)))].filter(Boolean);
}
function wholeFile(kind, document, text) {
  if (sizeOf(text) > MOST_BYTES) throw new Error(TOO_LONG);
  const { heads, rows } = fileIn(text, kind), at = columnOf('number', heads), said = node('div');
  for (const row of rows) row.told = node('span', { role: 'status' });
  const full = rows.filter(row => row.cells.some((it, n) => n !== at && it.trim()));
  const go = button(`Send these ${digits(rows.length)} records as they are`, async () => {
    if (isEarly(go) || busy) return;
    go.disabled = true;
    busy++;
    keepDay();
    const before = snapshot([]), path = `/import/${kind}/${document}/${day.value}${FILES[kind] ? '?loose' : ''}`;
    let answer = null;
    try { answer = await sendText(text, path); } finally { busy--; }
    const told = answer.isDone ? [...toldIn(answer.report)] : [];
    const of = ([number, it]) => [FILES[kind] ? rows.find(row => row.cells[at]?.trim() === number) :
      full[number - 1], it];
    for (const [row, it] of [...told.map(of), ...(answer.faults ?? []).map(it => JSON.parse(it)).map(it =>
      [rows.find(row => row.record === it.line), it])]) if (row) tellRow(row, it);
    await reread();
    go.disabled = false;
    const done = told.filter(it => it[1].ids).length;
    said.replaceChildren(answer.isDone ? says(done < told.length ? 'bad' : 'good', node('b', `Done: ${digits(done)
    }. Refused: ${digits(told.length - done)}. `), list(effects(before))) : notDone(answer));
    said.firstChild.focus();
    offerOpen();
  }, 'main');
  hush();
  return [node('h2', 'As the program reads it'), node('p', { role: 'status' }, 'The program takes columns and rows by ',
    `name itself, as 'import${FILES[kind] ? ' --loose' : ''}' does. Nothing is sent yet.`), acts(go), said,
  table('As the program reads it', [cell('Row', it => digits(it.record), 'n'),
    cell('What', it => name(it.cells.join(', ')), 'head'), cell('Answer', it => it.told)], rows)];
}
function tellRow(row, answer) {
  row.isDone = !!answer.ids;
  const word = answer.refused ?? answer.fault, isOld = answer.ids?.length > 0 &&
    answer.ids.every(id => Object.keys(ROWS).some(kind => rowOf(kind, id)));
  row.told.replaceChildren(isOld ? node('span.warn', 'done before: nothing new was made') : row.isDone ?
    node('span.good', 'done') : node('span.bad', answer.why ?? [MEANINGS.get(word) ?? '', soft(` (${word})`)]));
}
async function sendFile(kind, document, rows) {
  const names = HEADS[kind].split(',').slice(1);
  const quoted = it => /[",\r\n]/.test(it) ? `"${it.replaceAll('"', '""')}"` : it;
  const lineIn = row => [row.number, ...names.map(it => quoted(String(row.fields[it] ?? '')))].join(',') + '\n';
  const body = HEADS[kind] + '\n' + rows.map(lineIn).join('');
  if (sizeOf(body) > MOST_BYTES)
    return { why: TOO_LONG };
  keepDay();
  const answer = await sendText(body, `/import/${kind}/${document}/${day.value}`);
  const faulty = rows[answer.said?.line - 2];
  if (!answer.isDone) return faulty ? { ...answer, why: [`Row ${digits(faulty.record)}: `, answer.why] } : answer;
  const told = toldIn(answer.report);
  for (const row of rows) if (told.has(String(row.number))) tellRow(row, told.get(String(row.number)));
  return null;
}
const toldIn = report => new Map(report.split('\n').filter(Boolean).map((line, at) => {
  const [, number = String(at + 1), it] = line.match(/^(?:(\d+)\t)?(.*)$/);
  return [number, JSON.parse(it)];
}));
async function sendRows(kind, document, rows) {
  const keyOf = row => row.key || `${kind}/${document}/${row.number}`, parts = [];
  if (rows.some(row => openLike(kind, row.fields, keyOf(row)))) {
    offerOpen(true);
    return SETTLE;
  }
  let size = 0;
  for (const row of rows) {
    const line = lineOf(kind, row.fields, keyOf(row)) + '\n';
    size += sizeOf(line);
    if (!parts.length || size > MOST_BYTES) {
      parts.push({ body: '', rows: [] });
      size = sizeOf(line);
    }
    parts.at(-1).body += line;
    parts.at(-1).rows.push(row);
  }
  for (const { body, rows } of parts) {
    const answer = await sendText(body, LINES, `${LINES}/${kind}/${document}/${rows[0].number}`);
    if (!answer.isDone) return answer;
    [...toldIn(answer.report).values()].forEach((it, at) => rows[at] && tellRow(rows[at], it));
  }
  return null;
}


const LISTS = new Map(rowsOf(`stock low | What is there of each part, and where it lies.
at location | What lies at a location and below it.
part part | All there is of a part.
item item | All there is of an item, and what became of it.
orders open | Orders with their lines, keys and days.
builds open | Builds with what they need, keys and days.
find text | What has a word in its name, key, batch or serial.
shortages | What all open builds together lack.
trace-forward item batch | Where an item or a batch went.
trace-back item | Where an item came from.
count-sheet location | A sheet for a stocktake, to be filled in and sent as a file of counts.
receipt-sheet order | A sheet for what purchases have outstanding, to be filled in and sent as a file of deliveries.`)
  .map(([said, does]) => [said.split(' ')[0], { words: said.split(' ').slice(1), does }]));
const SUMS = RegExp(`^(present|free|allocated|items|quantity|wanted|done|outstanding|required|missing|buy|expected)$`);
const KIND_OF = { part: 'part', item: 'item', order: 'order', build: 'build', component: 'part' };
const NAME_OF = { stock: 'part', 'used in': 'part' };
function itemWord(id) {
  const batches = new Set([...books.items.values()].map(it => it.batch));
  let word = String(id);
  while (batches.has(word)) word = '0' + word;
  return word;
}
async function readList(list, word, said = []) {
  const path = `/show/${list}${word ? '/' + encodeURIComponent(word) : ''}?${[...said, 'csv'].join('&')}`;
  const { status, text } = await ask(path, {}), told = status === 409 && JSON.parse(text);
  if (told) throw new Error(MEANINGS.get(told.refused) ?? 'Nothing is called so, or several rows are.');
  if (status !== 200) throw new Error(statusWords(status));
  return text;
}
function listTable(title, list, text) {
  const [heads, ...records] = recordsIn(text), at = Object.fromEntries(heads.map((it, n) => [it, n]));
  const head = ['name', 'partner', 'part', 'component name'].find(it => it in at), of = it => row => row[at[it]];
  const kindIn = (word, row) => word === 'number' ? NAME_OF[row[at.kind] ?? list] ?? row[at.kind] :
    word === 'part' && !('name' in at) ? '' : KIND_OF[word];
  const shown = (word, row) => {
    const text = row[at[word]], kind = kindIn(word, row), id = Number(text);
    if (text && ROWS[kind] && rowOf(kind, id)) return link(`${kind}/${id}`, text);
    if (word === 'key' && isMadeUp(text)) return '';
    const made = text && name(text);
    if (made && word === head && at.depth >= 0) made.style.marginLeft = `${row[at.depth]}em`;
    return made;
  };
  const isNumber = it => /^(number|line|depth|day|last)$/.test(it) || it in KIND_OF && it !== head;
  const columns = heads.map(it => SUMS.test(it) ? column(capital(it), row => Number(of(it)(row)), row =>
    of(it)(row) && digits(of(it)(row)), 'n') : column(capital(it), row => isNumber(it) && /^\d+$/.test(of(it)(row)) ?
    Number(of(it)(row)) : of(it)(row), row => shown(it, row), it === head ? 'head' : it === 'depth' ? 'n late' :
    isNumber(it) ? 'n' : /^(kind|side|state|status|how)$/.test(it) ? 'short' : ''));
  return table(title, columns, records, () => saveFile(`${list}-${today()}.csv`, text));
}
const LISTS_OF = { stock: 'stock', low: 'stock', shopping: 'shortages', location: 'at count-sheet', part: 'part',
  item: 'item trace-forward trace-back', order: 'receipt-sheet', orders: 'orders receipt-sheet', builds: 'builds',
  find: 'find', batch: 'trace-forward' };
function listLinks(view, row, query, word) {
  const said = { stock: [], low: ['low', lowBelow], find: ['text', word], batch: ['batch', query.get('text')],
    orders: !query.has('all') && ['open', 1], builds: !query.has('all') && ['open', 1] }[view] || row && [view, row.id];
  const lists = LISTS_OF[view]?.split(' ') ?? [], ofView = list => LISTS.get(list).words.includes(said?.[0]);
  return !lists.length ? '' : node('p.row acts soft lists', 'Lists:', lists.map(it => link(`list/${it}${
    said && ofView(it) ? `?${new URLSearchParams([said])}` : ''}`, it)));
}
function listView(_, query, list) {
  const { words, does } = LISTS.get(list) ?? { words: [] };
  if (!does) return [`No list ${list}`, 'There is no such list.'];
  const boxes = words.map(word => {
    const value = query.get(word), label = capital(word), id = `list-${word}`;
    if (ROWS[word]) {
      const of = rowField({ kind: word, isOptional: true }, label, () => true, () => ({}));
      if (value) of.set(value);
      return [word, of.get, node('div.field', of.made)];
    }
    const box = word === 'open' ? node('input', { id, type: 'checkbox', checked: value }) : word === 'low' ?
      numberBox(label, { id, value, pattern: NUMBER, title: 'digits' }) :
      node('input', { id, value, autocomplete: 'off' });
    return [word, () => word === 'open' ? box.checked && 1 : word === 'low' ? box.value && numberIn(box.value) :
      box.value, node('div.field', word === 'open' ? node('label', box, ' the open ones alone') : [
      node('label', { for: id }, word === 'low' ? 'Parts of which less is free than' : label), box])];
  });
  const submit = event => {
    event.preventDefault();
    const said = new URLSearchParams(boxes.map(([word, of]) => [word, of()]).filter(it => it[1]));
    if (here() === `list/${list}?${said}`) show(true);
    location.hash = `#/list/${list}${said.size ? '?' + said : ''}`;
  };
  const word = words.map(it => ['low', 'open'].includes(it) ? null : it === 'item' ? query.get(it) &&
    itemWord(query.get(it)) : query.get(it)).find(Boolean);
  const said = [query.has('open') && 'open', query.has('low') && `low=${query.get('low')}`].filter(Boolean);
  const isWhole = word || list.endsWith('-sheet') || !words.some(it => !['low', 'open'].includes(it));
  return [`List: ${list}`, node('p.soft', does), boxes.length > 0 && node('form.card acts', { submit,
    'aria-label': 'What is listed', 'data-view': true }, boxes.map(it => it[2]), node('button.main', 'Show it')),
  isWhole && asked(readList(list, word, said), text => listTable(list, list, text)),
  acts(link('lists', '\u2190 all lists'))];
}
function listsView() {
  const said = node('div'), told = node('div');
  const save = button('Save a dump', async () => {
    if (save.disabled) return;
    save.disabled = true;
    said.replaceChildren(await dump().then(it => says('good', `Saved: ${it}.`), fault =>
      says('bad', 'Nothing was saved. ', fault.message)));
    save.disabled = false;
  });
  const stop = button('Stop it now', async () => {
    if (isEarly(stop) || busy) return;
    stop.disabled = true;
    told.replaceChildren(...[await stopProgram()].filter(Boolean));
"#,
    r#"    stop.disabled = false;
  }, 'main');
  const open = () => store.keys(OPEN).length;
  return ['Lists', [...LISTS].map(([it, { does }]) => node('p', link('list/' + it, capital(it)), ' ', soft(does))),
    section('A backup', node('p', 'All of the books as they are now, as SQL: sqlite3 makes a file of them again. ',
      'Nobody stops working for it.'), acts(save), said),
    section('The program', panel('Stop the program', () => ['It ends for everybody who uses it. What was answered is ',
      'kept, and the file alone has all of the books then. It has to be started again on its own machine.',
      open() > 0 && node('p.warn', `Not answered yet: ${digits(open())}. Settle that first, above.`), acts(stop),
      told]))];
}
async function dump() {
  const { text } = await get('/dump'), called = `invdesk-${today()}.sql`;
  if (!/(^|\n)COMMIT;\s*$/.test(text)) throw new Error('The dump was cut short.');
  saveFile(called, text, 'application/sql');
  return called;
}
let isStopped = false;
async function stopProgram() {
  busy++;
  try {
    const { status } = await ask('/stop', { method: 'POST' });
    if (status !== 200) return says('bad', statusWords(status));
    isStopped = true;
    show(true);
  } catch (fault) {
    return says('warn', "It isn't known whether it stopped. ", fault.message);
  } finally { busy--; }
}


const VIEWS = { stock: stockView, low: lowView, shopping: shoppingView, locations: locationsView, builds: buildsView,
  orders: ordersView, recent: recentView, do: doView, files: filesView, lists: listsView, list: listView,
  location: locationsView, sheet: sheetView,
  part: partView, line: lineView, item: itemView, build: buildView, order: orderView, batch: batchView,
  find: findView };
const here = () => location.hash.replace(/^#\/?/, '');
function place() {
  const [at, query] = here().split('?'), [view, word = ''] = at.split('/');
  const decoded = new URLSearchParams('word=' + word.replaceAll('+', '%2B')).get('word');
  return [Object.hasOwn(VIEWS, view) ? view : 'stock', decoded, new URLSearchParams(query)];
}

let watched = new Map(), whenRead = [], isDirty = false, busy = 0;
function watchRow(kind, id) {
  const key = `${kind} ${id}`;
  if (!watched.has(key)) watched.set(key, [kind, id, factOf(kind, id)]);
}
main.addEventListener('input', event => { if (!event.target.closest('[data-view]')) isDirty = true; });
const isWriting = () => busy > 0 || isDirty || ['do', 'sheet', 'files'].includes(place()[0]) ||
  main.contains(document.activeElement) &&
  document.activeElement.matches('input:not([data-view]), select:not([data-view]), textarea');
const rewatch = () => watched.forEach(it => { it[2] = factOf(it[0], it[1]); });

function show(isMoved) {
  if (isStopped) return main.replaceChildren(node('h1', 'The program was stopped'), node('p', { role: 'status' },
    'Its file alone has all of the books. Nothing is read or sent until it is started again on its machine.'),
  button('Try again', start));
  const [view, word, query] = place(), height = scrollY, kind = view === 'sheet' ? 'location' : view;
  const row = ROWS[kind] && rowOf(kind, Number(word)), focused = !isMoved && document.activeElement?.id;
  const caret = focused && document.activeElement.selectionStart;
  const opened = isMoved ? [] : [...main.querySelectorAll('details[open] > summary')].map(it => it.textContent);
  if (flash && flash.at !== here().split('?')[0]) flash = null;
  [printing, watched, whenRead, isDirty] = [[], new Map(), [], false];
  byId('notices').querySelector('.news')?.remove();
  if (isMoved) { hush(); offerOpen(); }
  if (isOther) byId('notices').append(node('div.said warn news', { role: 'alert' },
    'These are the books of another workshop than before. What was typed for that is gone.'));
  isOther = false;
  if (row && view !== 'sheet') watchRow(kind, row.id);
  const [title, ...inner] =
    ROWS[kind] && !row ? [`No ${kind} ${word}`, 'There is no such row.'] : VIEWS[view](row, query, word);
  const head = node('h1', { tabindex: -1 }, name(title));
  main.replaceChildren(listLinks(view, row, query, word), head, ...flash ? [flash.made] : [], node('div', inner));
  document.title = `${title} - invdesk`;
  byId('views').replaceChildren(...Object.keys(VIEWS).slice(0, 10).map(it =>
    node('a', { href: '#/' + it, 'aria-current': (it === view || it === kind + 's') && 'page' }, capital(it))));
  if (opened.length) for (const it of main.querySelectorAll('details > summary'))
    if (opened.includes(it.textContent)) it.parentElement.open = true;
  if (isMoved) head.focus({ preventScroll: true });
  else if (focused && byId(focused) && main.contains(byId(focused))) {
    byId(focused).focus({ preventScroll: true });
    if (caret != null && byId(focused).type === 'search') byId(focused).setSelectionRange(caret, caret);
  }
  scrollTo(0, isMoved ? 0 : height);
  if (isMoved && query.has('end')) main.querySelector('details[open]')?.scrollIntoView();
}
function comeBack(from, to, made, form) {
  if (!from.isConnected) { made.classList.add('news'); return byId('notices').append(made); }
  flash = { at: to.split('?')[0], made };
  history.replaceState(null, '', '#/' + to.replace(/\?end=1$/, ''));
  hush();
  show(false);
  scrollTo(0, 0);
  const again = form && main.querySelector(`form[aria-label="${form}"] input`);
  (again?.checkVisibility() ? again : made).focus({ preventScroll: true });
}
const tell = text => { byId('status').textContent = text; };
function askForToken(why) {
  const box = node('input', { id: 'token', type: 'password', required: true });
  const submit = event => {
    event.preventDefault();
    setToken(box.value.trim());
    start();
  };
  main.replaceChildren(node('h1', 'The token'), ...why ? [node('p.bad', { role: 'alert' }, `${why}.`)] : [],
    node('form.card', { submit, 'aria-label': 'Token' }, node('label', 'The token of the program', box),
      node('button.main', 'Go on')));
}
function failed(fault) {
  tag = null;   // what is read next is shown
  if (byId('token')) return;
  if (fault.isUnproven) askForToken(fault.message);
  else main.replaceChildren(node('h1', "The program doesn't answer"),
    node('p.bad', { role: 'alert' }, fault.message), button('Try again', start));
}
async function start() {
  const begun = performance.now();
  isStopped = false;
  try {
    await refresh();
    show(true);
    tell(`Read in ${Math.round(performance.now() - begun)} ms.`);
    warmUp();
    await named();
  } catch (fault) {
    if (fault.isUnproven) askForToken(fault.message);
    else if (!find) failed(fault);
  }
}
async function named() {
  if (!await readNames(ownersShown())) return;
  warmUp();
  if (!isWriting()) show(false);
}
function offerOpen(isAsked) {
  byId('notices').querySelectorAll('.open').forEach(it => it.remove());
  for (const key of busy && !isAsked ? [] : store.keys(OPEN).map(it => it.slice(OPEN.length))) {
    const { line, path, books, was } = openAt(key), told = name(path === RUN ? line : key);
    const forget = button('Forget it', () => { store.drop(OPEN + key); made.remove(); });
    const again = button('Send it again', async () => {
      if (busy) return;
      again.disabled = true;
      const answer = await settle(key);
      const refused = answer.report ? [...toldIn(answer.report)].filter(it => !it[1].ids) : [];
      made.replaceChildren(!answer.isDone ? notDone(answer) : says(refused.length ? 'warn' : 'good',
        'It is done now, once. ', refused.length > 0 && ['Refused: ', list(refused.map(([number, it]) =>
          `row ${number}: ${it.refused}`))]));
      if (place()[0] === 'sheet') show(false);
      else renew();
    });
    const since = areThese(books) ? was.map(([kind, id, fact]) => [fact, factOf(kind, id)]).filter(it =>
      it[0] !== it[1]) : [];
    const made = node('div.said warn open', areThese(books) ? [node('b', 'Not answered: '), told, ' ', UNKNOWN,
      since.length > 0 && ['Since it was sent: ', since.map(([was, now]) => [name(was), ' \u2192 ', name(now), '. '])],
      again] : [node('b', 'Not answered, and of another workshop: '), told, " It isn't offered to this one."],
    ' ', forget);
    byId('notices').append(made);
  }
}
function warmUp() {
  const jobs = [find.sortedItems, ...FOUND.map(kind => () => choicesOf(kind))], of = find;
  const next = () => {
    if (of !== find || !jobs.length) return;
    jobs.shift()();
    (self.requestIdleCallback ?? setTimeout)(next);
  };
  (self.requestIdleCallback ?? setTimeout)(next);
}
async function renew(isAsked) {
  keepDay();
  if (isStopped) return;
  try {
    const isNew = await refresh();
    away();
    if (isNew) warmUp();
    if (isOther || isNew && !isWriting()) show(isOther);
    else if (isNew) news();
    if (isAsked) tell(isNew ? 'The books have changed.' : 'Nothing has changed.');
    await named();
  } catch (fault) {
    if (isWriting()) away(fault);
    else failed(fault);
  }
}
function away(fault) {
  const told = byId('notices').querySelector('.away');
  if (!fault) told?.remove();
  else if (!told) byId('notices').append(node('div.said bad away', { role: 'alert' }, node('b',
    "The program doesn't answer. "), fault.message, '. What you typed stays here, and is sent when you send it.'));
}
function news() {
  if (busy) return;
  whenRead.forEach(it => it());
  const changed = [...watched.values()].map(([kind, id, was]) => [was, factOf(kind, id)]).filter(it => it[0] !== it[1]);
  byId('notices').querySelector('.news')?.remove();
  if (changed.length) byId('notices').append(node('div.said warn news', { role: 'alert' }, node('b',
    'This has changed meanwhile: '), list(changed.slice(0, 8).map(([was, now]) => [name(was), ' \u2192 ', name(now)])),
  'What you typed is still there. ', place()[0] !== 'do' && button('Show it anew, without that', () => show(false))));
}
function takeToken() {
  const told = location.hash.match(/^#token=(.+)$/);
  if (!told) return false;
  setToken(told[1]);
  history.replaceState(null, '', '#/stock');
  return true;
}
addEventListener('hashchange', () => {
  if (takeToken()) start();
  if (!find) return;
  show(true);
  renew();
});
addEventListener('focus', () => {
  hush();
  if (find) renew();
});
addEventListener('visibilitychange', () => { if (find && document.visibilityState === 'visible') renew(); });
setInterval(() => {
  keepDay();
  if (find && document.visibilityState === 'visible') renew();
}, 20000);
setInterval(keepDay, 1000);
byId('again').addEventListener('click', () => renew(true));
byId('print').addEventListener('click', () => print());
byId('find').addEventListener('submit', event => {
  event.preventDefault();
  location.hash = '#/find/' + encodeURIComponent(byId('find').text.value);
});
addEventListener('keydown', event => {
  if (event.key !== '/' || event.ctrlKey || event.metaKey || event.target.matches('input, select')) return;
  event.preventDefault();
  byId('find').text.value = '';
  byId('find').text.focus();
});
keepDay();
takeToken();
start();
</script>
</body>
</html>
"#,
];

/// What a browser may do for the page: run its one script, use its one style, and ask this service.
pub const POLICY: &str =
    "default-src 'none'; script-src 'sha256-fY/WBO3Y5LMEwYBTEdqeFfFb4NSe5tI59SkQiRZM280='; style-src 'sha256-H/RH2zxl1jPpzQh/MiuMidWBHtQ8tXiKS5i1xLCOEYs='; connect-src 'self'; img-src data:; base-uri 'none'; form-action 'none'; frame-ancestors 'none'; require-trusted-types-for 'script'; trusted-types 'none'";
