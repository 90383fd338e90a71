//! The page that shows the numbers while they change.

/// One file, which loads nothing but `/stats`, each second.
pub(crate) const PAGE: &str = r##"<!DOCTYPE html>
<html lang="en">
<meta charset="utf-8">
<meta name="viewport" content="width=device-width, initial-scale=1">
<title>pqd</title>
<link rel="icon" href="data:,">
<style>
:root { color-scheme: light dark; --ink: #1b1f24; --paper: #fbfbf9; --line: #d8d8d2; --mark: #2f6f8f; --bad: #b3372b }
@media (prefers-color-scheme: dark) {
  :root { --ink: #e6e6e0; --paper: #15181b; --line: #363b40; --mark: #6db1d2; --bad: #ee8374 }
}
body { margin: 2rem auto; max-width: 52rem; padding: 0 1rem; color: var(--ink); background: var(--paper);
  font: 15px/1.5 system-ui, sans-serif }
h1 { font-size: 1.2rem; margin: 0 }
h2 { font-size: .85rem; font-weight: 600; margin: 2rem 0 .5rem; text-transform: uppercase; letter-spacing: .06em }
dl { display: flex; flex-wrap: wrap; gap: .75rem 2.5rem; margin: 1rem 0 0 }
dt { font-size: .8rem; opacity: .7 }
dd { margin: 0; font-size: 1.3rem; font-variant-numeric: tabular-nums }
table { border-collapse: collapse; width: 100% }
td { padding: .3rem .75rem .3rem 0; border-bottom: 1px solid var(--line); white-space: nowrap }
td.bar { width: 60%; padding-right: 0 }
td.count { text-align: right; font-variant-numeric: tabular-nums }
.bar div { height: .8rem; min-width: 1px; background: var(--mark) }
svg { display: block; width: 100%; height: 7rem; border-bottom: 1px solid var(--line) }
polyline { fill: none; stroke: var(--mark); stroke-width: 1.5; vector-effect: non-scaling-stroke }
.bad { color: var(--bad) }
</style>
<h1>pqd <span id="state"></span></h1>
<dl id="numbers"></dl>
<h2>Queues</h2>
<table id="queues"></table>
<h2>Replies a second <span id="rate"></span></h2>
<svg viewBox="0 0 119 100" preserveAspectRatio="none"><polyline id="line"></polyline></svg>
<h2>Journal</h2>
<dl id="journal"></dl>
<script>
"use strict";
const by = id => document.getElementById(id), rates = [];
let last = null;
function put(tag, text, kind) {
  const node = document.createElement(tag);
  node.textContent = text;
  if (kind) node.className = kind;
  return node;
}
function list(id, pairs) {
  by(id).replaceChildren(...pairs.map(([name, value, kind]) => {
    const pair = document.createElement("div");
    pair.append(put("dt", name), put("dd", value, kind));
    return pair;
  }));
}
function say(text, bad) {
  by("state").textContent = text;
  by("state").className = bad ? "bad" : "";
}
function lasted(seconds) {
  const two = n => String(n).padStart(2, "0");
  return `${Math.floor(seconds / 3600)}:${two(Math.floor(seconds / 60) % 60)}:${two(seconds % 60)}`;
}
function rows(stats) {
  by("queues").replaceChildren(...stats.queues.map(queue => {
    const row = document.createElement("tr"), bar = put("td", "", "bar"), full = document.createElement("div");
    full.style.width = `${100 * queue.items / (queue.clients * queue.records)}%`;
    bar.append(full);
    row.append(put("td", queue.queue), put("td", queue.kind), put("td", queue.items, "count"),
      put("td", `of ${queue.clients} × ${queue.records} records`), bar);
    return row;
  }));
}
function line(stats) {
  const now = performance.now();
  if (last && stats.replies >= last.replies) rates.push((stats.replies - last.replies) * 1000 / (now - last.now));
  last = { replies: stats.replies, now };
  if (rates.length > 120) rates.shift();
  const most = Math.max(1, ...rates), from = 120 - rates.length;
  by("line").setAttribute("points", rates.map((rate, at) => `${from + at},${98 - 95 * rate / most}`).join(" "));
  by("rate").textContent = rates.length ? Math.round(rates[rates.length - 1]) : "";
}
function show(stats) {
  say(stats.ready ? "ready" : "recovering", !stats.ready);
  list("numbers", [["up", lasted(stats.uptime)], ["connections", stats.connections], ["workers", stats.workers],
    ["replies", stats.replies]]);
  rows(stats);
  line(stats);
  const journal = stats.journal;
  list("journal", journal ? [["sync", journal.sync], ["bytes", journal.bytes], ["synced", journal.kept],
    ["batches", journal.batches], ["failures", journal.failures, journal.failures ? "bad" : ""], ["state",
    journal.failed ? "failed" : "goes on", journal.failed ? "bad" : ""]] : [["journal", "none"]]);
}
async function look() {
  try {
    show(await (await fetch("stats")).json());
  } catch (error) {
    say("does not answer", true);
  }
  setTimeout(look, 1000);
}
look();
</script>
</html>
"##;
