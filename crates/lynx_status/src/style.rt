//! What stands before and behind the main part of the page.

/// The head of the page, with its style; the form; and the beginning of the main part.
pub(crate) const BEFORE: &[u8] = br#"<!doctype html>
<html lang="en">
<head>
<meta charset="utf-8">
<meta name="viewport" content="width=device-width, initial-scale=1">
<title>Lynx: status</title>
<style>
:root {
  color-scheme: light dark;
  --back: #ffffff; --text: #1b1b1f; --quiet: #55575f; --line: #c6c8cf; --box: #f4f5f7;
  --good: #1b6e3c; --bad: #b3261e;
  --hue0: #0b57d0; --hue1: #9a4a00; --hue2: #1b6e3c; --hue3: #7b1fa2; --hue4: #b3261e;
  --hue5: #00696f;
}
@media (prefers-color-scheme: dark) {
  :root {
    --back: #14161a; --text: #e7e8ec; --quiet: #a9adb6; --line: #434955; --box: #1f232a;
    --good: #7bd88f; --bad: #ff8a80;
    --hue0: #8ab4f8; --hue1: #f0b060; --hue2: #7bd88f; --hue3: #d7a8f5; --hue4: #ff8a80;
    --hue5: #6fd6d6;
  }
}
* { box-sizing: border-box; }
body {
  margin: 0 auto; padding: 16px; max-width: 1200px;
  background: var(--back); color: var(--text);
  font: 15px/1.45 system-ui, sans-serif; font-variant-numeric: tabular-nums;
}
h1 { font-size: 22px; margin: 0; }
h2 { font-size: 17px; margin: 24px 0 8px; }
header { display: flex; flex-wrap: wrap; gap: 8px 24px; align-items: center; }
form { display: flex; gap: 8px; align-items: center; margin-left: auto; }
input, button {
  font: inherit; color: inherit; background: var(--box);
  border: 1px solid var(--quiet); border-radius: 4px; padding: 4px 8px;
}
input { width: 9em; }
button { cursor: pointer; }
:focus-visible { outline: 2px solid var(--hue0); outline-offset: 1px; }
#state { color: var(--bad); margin: 0; }
#state:empty { display: none; }
.totals { display: flex; flex-wrap: wrap; gap: 4px 24px; margin: 16px 0; padding: 0; }
.totals div { display: flex; gap: 6px; }
dt { color: var(--quiet); }
dd { margin: 0; }
table { border-collapse: collapse; width: 100%; }
caption { text-align: left; color: var(--quiet); padding: 8px 0 4px; }
th, td { text-align: right; padding: 4px 8px; border-bottom: 1px solid var(--line); }
th { color: var(--quiet); font-weight: 500; }
th:first-child, td:first-child, .servers :is(th, td):nth-child(2) { text-align: left; }
tfoot td { font-weight: 600; }
#answer table { width: auto; min-width: 50%; }
.runs { color: var(--good); }
.stopped { color: var(--bad); font-weight: 600; }
.chart {
  overflow: auto; max-height: 70vh; border: 1px solid var(--line); border-radius: 4px;
}
.chart svg { display: block; font: 12px system-ui, sans-serif; }
.chart text { fill: var(--text); }
.chart .quiet { fill: var(--quiet); }
.chart .column { stroke: var(--line); }
.chart rect { fill: var(--box); stroke: currentColor; }
.chart .refused rect { stroke-dasharray: 4 3; }
.chart [data-chain] { cursor: pointer; }
.chart path { fill: none; stroke: currentColor; stroke-width: 1.5; }
.chart marker path { fill: currentColor; stroke: none; }
.hue0 { color: var(--hue0); } .hue1 { color: var(--hue1); } .hue2 { color: var(--hue2); }
.hue3 { color: var(--hue3); } .hue4 { color: var(--hue4); } .hue5 { color: var(--hue5); }
.refused { color: var(--quiet); }
@media (max-width: 640px) {
  form { margin-left: 0; }
  .servers thead {
    position: absolute; width: 1px; height: 1px; overflow: hidden; clip-path: inset(50%);
  }
  .servers, .servers tbody, .servers tfoot { display: block; }
  .servers tr {
    display: grid; grid-template-columns: repeat(3, 1fr); padding: 8px 0;
    border-bottom: 1px solid var(--line);
  }
  .servers td { text-align: left; border: none; padding: 2px 4px; }
  .servers td::before {
    content: attr(data-name); display: block;
    color: var(--quiet); font-size: 13px; font-weight: 400;
  }
}
</style>
</head>
<body>
<header>
<h1>Lynx</h1>
<p id="state" role="status"></p>
<form id="ask">
<label for="chain">Chain</label>
<input id="chain" required pattern=" *[0-9]+:[0-9]+ *" placeholder="0:5" autocomplete="off">
<button>Show</button>
</form>
</header>
<section id="answer" aria-live="polite"></section>
<noscript><p>Without its script the page stays as it is: load it again.</p></noscript>
<main>
"#;

/// The end of the main part. The script follows, and then [`BEHIND`].
pub(crate) const MAIN_END: &[u8] = b"</main>\n";

/// The end of the page.
pub(crate) const BEHIND: &[u8] = b"</body>\n</html>\n";
