//! How a page of HTML begins.

/// What stands before the heading.
pub const HEAD: &str = r##"<!DOCTYPE html>
<html lang="en">
<head>
<meta charset="utf-8">
<meta name="viewport" content="width=device-width, initial-scale=1">
<meta http-equiv="Content-Security-Policy" content="default-src 'none'; style-src 'unsafe-inline'">
<title>What can happen</title>
<style>
:root { color-scheme: light dark; --ground: #fff; --ink: #222; --soft: #666; --line: #ccc; --head: #f3f3f3; --step: #eef4fb; --edge: #7a9cc6; --bad: #b3261e; --badstep: #fdecea; --good: #1d6b35; --link: #0b57d0 }
@media (prefers-color-scheme: dark) {
  :root { --ground: #17191c; --ink: #e6e6e6; --soft: #a5a9ae; --line: #44484e; --head: #24272b; --step: #1f2d3d; --edge: #6d93c4; --bad: #ff9d93; --badstep: #46211e; --good: #86d79d; --link: #8ab4f8 }
}
* { box-sizing: border-box }
body { margin: 0 auto; padding: 1.5rem; max-width: 80rem; background: var(--ground); color: var(--ink); font: 1rem/1.45 system-ui, sans-serif }
h1 { font-size: 1.5rem; margin: 0 0 .5rem }
h2 { font-size: 1.2rem; margin: 2rem 0 .5rem; padding-top: .5rem; border-top: 1px solid var(--line) }
code, td { font-family: ui-monospace, monospace; font-size: .9rem }
code { overflow-wrap: anywhere }
a { color: var(--link) }
:focus-visible { outline: 3px solid var(--link); outline-offset: 2px }
.scroll { overflow-x: auto; margin: 1rem 0 }
table { border-collapse: collapse }
th, td { border: 1px solid var(--line); padding: .3rem .6rem; text-align: left; vertical-align: top }
th { background: var(--head); font-weight: 600 }
.as { color: var(--good) }
.bad { color: var(--bad); font-weight: 700 }
.run td.step { background: var(--step); border: 2px solid var(--edge); min-width: 12rem }
.run td.differs { background: var(--badstep); border: 3px double var(--bad) }
.sql { display: block; white-space: pre-wrap; color: var(--soft) }
.mark { display: block; color: var(--bad); font-weight: 700 }
.answer { display: block; white-space: pre-wrap }
.number { color: var(--soft) }
@media print {
  :root { color-scheme: light; --ground: #fff; --ink: #000; --soft: #444; --line: #888; --head: #fff; --step: #fff; --edge: #444; --bad: #000; --badstep: #fff; --good: #000; --link: #000 }
  body { padding: 0; max-width: none; font-size: 10pt }
  section, tr { break-inside: avoid }
  .scroll { overflow: visible }
}
</style>
</head>
<body>
<main>
<h1 id="outcomes">What can happen</h1>
<p>"##;
