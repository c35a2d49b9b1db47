//! The script of the page.

/// Fetches the page each second and puts its main part in the place of the old one, unless text is
/// marked there; and shows the chain that is asked for, or whose box is clicked.
pub(crate) const SCRIPT: &[u8] = br#"<script>
"use strict";
const ask = document.getElementById("ask");
const input = document.getElementById("chain");
const answer = document.getElementById("answer");
const state = document.getElementById("state");

function made(name, text) {
  const element = document.createElement(name);
  if (text !== undefined) element.textContent = text;
  return element;
}

function rowOf(cell, texts) {
  const row = made("tr");
  for (const text of texts) row.append(made(cell, text));
  return row;
}

function tableOf(chain) {
  const table = made("table");
  table.append(made("caption", `${chain.chain} ${chain.program}`));
  const head = made("thead");
  head.append(rowOf("th", ["hop", "server", "stamp", "results"]));
  const body = made("tbody");
  for (const hop of chain.hops) {
    const results = hop.results ? hop.results.join(" ") || "-" : "";
    body.append(rowOf("td", [hop.hop, hop.server, hop.stamp ?? "owed", results]));
  }
  table.append(head, body);
  return table;
}

async function show(chain) {
  try {
    const reply = await fetch(`/chain/${encodeURIComponent(chain).replace("%3A", ":")}`);
    if (reply.ok) answer.replaceChildren(tableOf(await reply.json()));
    else if (reply.status === 404) answer.replaceChildren(made("p", `No chain ${chain}.`));
    else answer.replaceChildren(made("p", `The service answers ${reply.status}.`));
  } catch {
    answer.replaceChildren(made("p", "The service doesn't answer."));
  }
}

ask.addEventListener("submit", (event) => {
  event.preventDefault();
  show(input.value.trim());
});

document.addEventListener("click", (event) => {
  const box = event.target.closest("[data-chain]");
  if (!box) return;
  input.value = box.dataset.chain;
  show(input.value);
});

function chart() {
  return document.querySelector(".chart");
}

function isAtEnd(view) {
  return !view || view.scrollTop + view.clientHeight >= view.scrollHeight - 4;
}

function replaceMain(text) {
  const main = new DOMParser().parseFromString(text, "text/html").querySelector("main");
  if (!main || !getSelection().isCollapsed) return;
  const old = chart();
  const [atEnd, left, top] = [isAtEnd(old), old?.scrollLeft ?? 0, old?.scrollTop ?? 0];
  document.querySelector("main").replaceWith(main);
  chart()?.scrollTo(left, atEnd ? chart().scrollHeight : top);
}

async function refresh() {
  try {
    const reply = await fetch("/status");
    if (reply.ok) replaceMain(await reply.text());
    state.textContent = reply.ok ? "" : `The service answers ${reply.status}.`;
  } catch {
    state.textContent = "The service doesn't answer. What stands here is older.";
  }
  setTimeout(refresh, 1000);
}

chart()?.scrollTo(0, chart().scrollHeight);
setTimeout(refresh, 1000);
</script>
"#;
