//! The style sheet of the page.

/// How the page looks, in light and in dark and on paper. Bars are placed by the cycles that their elements have.
pub const STYLE: &str = "\
:root {
  color-scheme: light dark;
  --ink: #1c2128; --soft: #5c6672; --paper: #fcfcfb; --panel: #f3f4f5; --rule: #d5d9de; --hairline: #e8eaed;
  --at: #fff0b8; --edge: #b4560a; --link: #1d5fb0; --bar: #dce8f7;
  --load: #2f6fc4; --store: #12805c; --branch: #b0306a; --multiply: #7a47b8; --shift: #a86a00; --constant: #6b7480;
}
@media (prefers-color-scheme: dark) {
  :root {
    --ink: #dfe3e8; --soft: #98a2ae; --paper: #15181c; --panel: #1c2025; --rule: #373e47; --hairline: #262c33;
    --at: #4a3d10; --edge: #f0a350; --link: #82b4f0; --bar: #233750;
    --load: #6ea8f2; --store: #4cc096; --branch: #ec7ab0; --multiply: #b790ee; --shift: #dfa544; --constant: #97a1ad;
  }
}
* { box-sizing: border-box; }
html { scroll-padding-top: 5rem; }
body {
  margin: 0; background: var(--paper); color: var(--ink);
  font: 13px/1.45 ui-monospace, SFMono-Regular, Menlo, Consolas, 'DejaVu Sans Mono', monospace;
}
a { color: inherit; text-decoration: none; }
a:hover { color: var(--link); text-decoration: underline; }
header {
  position: sticky; top: 0; z-index: 2; display: grid; grid-template-columns: auto 1fr; column-gap: 1.5rem;
  align-items: baseline; padding: .5rem 1rem; background: var(--panel); border-bottom: 1px solid var(--rule);
}
h1 { margin: 0; font-size: 1rem; }
nav { display: flex; gap: .1rem 1rem; overflow-x: auto; white-space: nowrap; }
nav a { color: var(--link); }
#told { grid-column: 1 / -1; margin: .2rem 0 0; min-height: 1.45em; color: var(--soft); }
main { display: grid; grid-template-columns: minmax(16rem, 25rem) minmax(0, 1fr); align-items: start; }
aside {
  position: sticky; top: 4.2rem; max-height: calc(100vh - 4.2rem); overflow: auto; padding: .75rem 0;
  border-right: 1px solid var(--rule);
}
ol { margin: 0; padding: 0; list-style: none; width: max-content; min-width: 100%; }
li { padding-right: 1rem; border-left: 3px solid transparent; white-space: pre; tab-size: 8; }
li > a, li > b { display: inline-block; min-width: 3.5rem; padding-right: .9rem; text-align: right; font-weight: normal; color: var(--soft); }
li > b { opacity: .6; }
code { font: inherit; }
article { padding: 0 1.25rem 2rem; }
section {
  padding: 1rem 0 1.25rem; overflow-x: auto; border-bottom: 1px solid var(--rule);
  content-visibility: auto; contain-intrinsic-size: auto 40rem;
}
section:last-child { border-bottom: 0; }
h2 { margin: 0 0 .4rem; font-size: 1.08rem; font-weight: normal; }
h2 b { font-weight: 700; }
h3 { margin: 1.1rem 0 .3rem; font-size: 1rem; font-weight: 600; }
pre { margin: .4rem 0; font: inherit; color: var(--soft); white-space: pre-wrap; }
table { border-collapse: collapse; font-variant-numeric: tabular-nums; }
th, td { padding: .1rem .5rem; text-align: left; font-weight: normal; white-space: nowrap; }
thead th { color: var(--soft); border-bottom: 1px solid var(--rule); }
tbody tr { border-bottom: 1px solid var(--hairline); }
.grid tbody th { text-align: right; color: var(--soft); }
.grid td { color: var(--soft); border-left: 1px solid var(--hairline); }
.grid td[data-line] { color: var(--ink); border-left: 3px solid var(--kind, var(--rule)); cursor: pointer; }
.grid td[data-line] { background: color-mix(in srgb, var(--kind, transparent) 9%, transparent); }
.grid td[data-line] a { color: var(--soft); }
.grid td.path { font-weight: 700; box-shadow: inset 0 -2px var(--edge); }
.grid td b { display: inline-block; min-width: 1.2rem; font-weight: normal; color: var(--ink); }
.load { --kind: var(--load); }
.store { --kind: var(--store); }
.branch { --kind: var(--branch); }
.multiply { --kind: var(--multiply); }
.shift { --kind: var(--shift); }
.constant { --kind: var(--constant); }
.flight { width: 100%; max-width: 84rem; }
.flight td:last-child { width: 100%; padding-right: 14rem; }
.flight td:nth-child(2) { text-align: right; color: var(--soft); }
.flight i {
  display: block; margin-left: calc(var(--from) / var(--cycles) * 100%); width: calc(var(--for) / var(--cycles) * 100%);
  padding: 0 .35rem; overflow: visible; font-style: normal; background: var(--bar);
  border: solid var(--load); border-width: 0 1px 0 3px;
}
.causes td:nth-child(-n+3), .causes th:nth-child(-n+3) { text-align: right; }
[data-line]:focus { outline: 2px solid var(--edge); outline-offset: -2px; }
.grid td:target, li:target, .grid td.at, .at { background: var(--at); }
td.at, li.at { outline: 2px solid var(--edge); outline-offset: -2px; }
td.before, li.before { outline: 2px dashed var(--edge); outline-offset: -2px; }
td.behind, li.behind { outline: 2px dotted var(--edge); outline-offset: -2px; }
@media (max-width: 70rem) {
  main { grid-template-columns: minmax(0, 1fr); }
  aside { position: static; max-height: 40vh; border-right: 0; border-bottom: 1px solid var(--rule); }
}
@page { size: landscape; margin: 1cm; }
@media print {
  body { font-size: 8.5pt; }
  header, aside { position: static; max-height: none; overflow: visible; }
  main { display: block; }
  nav, #told { display: none; }
  section { overflow: visible; content-visibility: visible; }
  h2, h3 { break-after: avoid; }
  tr, pre, li { break-inside: avoid; }
  thead { display: table-header-group; }
}
";
