// How a page looks, and the texts about what it has. Nothing comes from elsewhere, and the page forbids itself to ask for it.

// The beginning, up to what a browser may do for this page.
pub(crate) const PAGE_START: &[u8] = br#"<!doctype html>
<html lang='en'>
<head>
<meta charset='utf-8'>
<meta name='viewport' content='width=device-width,initial-scale=1'>
<meta name='referrer' content='no-referrer'>
"#;

// How the page looks, light or dark, as the reader has it: on a narrow screen one part and one cell beneath the other, on a
// wide one the steps beneath the entries. The script begins behind it.
pub(crate) const LOOK: &[u8] = br#"<style>
:root{color-scheme:light dark;--ink:#1b1f24;--faint:#59636e;--line:#d8dee4;--ground:#fff;--raised:#f4f6f8}
:root{--link:#0550ae;--mark:#fff4c2}
@media(prefers-color-scheme:dark){
:root{--ink:#e6e9ec;--faint:#9aa4af;--line:#383f47;--ground:#13161a;--raised:#1d2227;--link:#7ab7ff;--mark:#4a3f0a}
}
*{box-sizing:border-box}
body{max-width:70rem;margin:0 auto;padding:1.5rem 1rem 4rem;font:1rem/1.5 system-ui,sans-serif}
body{color:var(--ink);background:var(--ground)}
header{border-bottom:1px solid var(--line);margin-bottom:1.5rem;padding-bottom:.75rem}
header p{margin:0;color:var(--faint)}
h1{margin:0 0 .5rem;font-size:1.6rem;line-height:1.25;overflow-wrap:anywhere}
h2{margin:0 0 .75rem;font-size:1.2rem;overflow-wrap:anywhere}
h3{margin:1.25rem 0 .5rem;font-size:1rem}
nav{display:flex;flex-wrap:wrap;gap:.25rem 1.25rem}
a{color:var(--link)}
main{display:grid;grid-template:auto 1fr/repeat(auto-fit,minmax(min(100%,19rem),1fr));gap:2rem}
section{min-width:0;scroll-margin-top:1rem}
#status,#kinds{grid-row:span 2}
#champions,#holdouts,#records{grid-column:1/-1}
footer{margin-top:2rem;font-size:.9rem}
pre{overflow-wrap:anywhere;white-space:pre-wrap}
code,td a{font-family:ui-monospace,monospace;font-size:.9rem;overflow-wrap:anywhere}
table{border-collapse:collapse;width:100%}
th,td{padding:.3rem .75rem .3rem 0;border-bottom:1px solid var(--line);text-align:left;vertical-align:top}
th{font-weight:normal}
thead th,th button{color:var(--faint)}
td{font-variant-numeric:tabular-nums}
#records td,footer td{overflow-wrap:anywhere}
#status th,footer th{min-width:7.5rem}
th+td{text-align:right;padding-right:0}
#kinds th,#kinds th+td,.plot tr>*{border-bottom:0}
.means{padding:0 0 .6rem;font-size:.9rem;color:var(--faint)}
meter{display:block;width:100%;height:.5rem;margin-bottom:.25rem;appearance:none;background:var(--raised)}
meter::-webkit-meter-bar{height:.5rem;background:var(--raised);border:0;border-radius:0}
meter::-webkit-meter-optimum-value{background:var(--link)}
meter::-moz-meter-bar{background:var(--link)}
.left{padding:.5rem .75rem;background:var(--mark)}
.plot tr>*{padding:.1rem .75rem .1rem 0;text-align:left}
.plot th{white-space:nowrap;color:var(--faint)}
.plot th:first-child{width:1%;text-align:right}
.bar{display:inline-block;height:1em;margin-right:.4rem;vertical-align:-.1em;background:var(--link)}
.figures{display:flex;flex-wrap:wrap;gap:1.5rem 2rem}
figure{display:flex;flex-wrap:wrap;align-items:start;gap:0 1.5rem;margin:0;min-width:0;max-width:100%}
figcaption{flex:1 1 100%}
.transitions{width:auto;margin:.5rem 0;font-family:ui-monospace,monospace;font-size:.9rem}
.transitions tr>*{padding:.1rem .7rem;text-align:center;border:1px solid var(--line)}
.transitions th{color:var(--faint)}
ul{margin:0;padding-left:1.25rem}
.tools{display:flex;flex-wrap:wrap;align-items:baseline;gap:.5rem 1rem;margin-bottom:.75rem}
[hidden]{display:none!important}
input,select,button{padding:.2rem .6rem;font:inherit;color:inherit;background:var(--raised)}
input,select,button{border:1px solid var(--line);border-radius:.25rem;max-width:100%}
[type=search]{flex:1 1 12rem;max-width:28rem}
[type=number]{width:8.5rem;padding:0 .3rem}
button{cursor:pointer}
td button{padding:0 .4rem;font-size:.8rem}
th button{padding:0;background:none;border:0;text-align:inherit;text-decoration:underline dotted}
.more{margin-top:.75rem}
.run{min-width:0;max-width:100%;font-size:.9rem;color:var(--faint)}
.run p{margin:.25rem 0}
.view{overflow:auto;max-height:40rem;color:var(--ink)}
canvas{display:block;border:1px solid var(--line);image-rendering:pixelated}
[aria-sort=ascending] button::after{content:' \2191'}
[aria-sort=descending] button::after{content:' \2193'}
#records td:last-child{width:50%;white-space:pre-line}
:focus-visible{outline:2px solid var(--link);outline-offset:2px}
@media(max-width:40rem){
#records tr{display:block;padding:.5rem 0;border-bottom:1px solid var(--line)}
#records td,#records td:last-child{display:block;width:auto;padding:.1rem 0;border:0}
#records th{display:inline-block;border:0}
}
@media print{nav,.tools,button{display:none}}
</style>
<script>
'use strict';"#;

// From the title to the heading.
pub(crate) const HEADING: &[u8] = br#"</title>
</head>
<body>
<header>
<p>Busy beaver report</p>
<h1>"#;

// Behind the heading of a report, before the rows that say what the page is made from.
pub(crate) const REPORT: &[u8] = br#"</h1>
<nav aria-label='Parts of this page'></nav>
</header>
<main></main>
<footer>
<table>
"#;

// Behind those, before the report's lines.
pub(crate) const LINES: &[u8] = br#"</table>
</footer>
<noscript><pre>
"#;

// Behind the lines, before the report's JSON.
pub(crate) const JSON: &[u8] = br#"</pre></noscript>
<script type='application/json' id='report'>
"#;

// Behind that, before what is counted.
pub(crate) const COUNTS: &[u8] = br#"</script>
<script type='application/json' id='counts'>
"#;

// Behind the heading of a page of records; the script says how many have which verdict.
pub(crate) const RECORDS: &[u8] = br#"</h1>
<nav aria-label='Parts of this page' hidden></nav>
<p id='verdicts'></p>
</header>
<main></main>
<footer>
<table>
"#;

// Before the objects of records, which a reader without scripts reads as they are.
pub(crate) const RECORD_LINES: &[u8] = br#"</table>
</footer>
<noscript><pre>
"#;
