//! The style sheet of the page: light and dark by the reader's setting, narrow and wide, and on
//! paper of A4.

/// The style sheet (CSS). It names no other file, and is plain text in XML.
pub(crate) const STYLE: &str = "\
    :root {\n\
      color-scheme: light dark;\n\
      --paper: #ffffff; --panel: #f5f6f8; --line: #d5d9df; --ink: #171a1f; --soft: #545c67;\n\
      --bad: #b3261e; --good: #1b6e3c; --open: #8a5a00; --mark: #fbe4e2;\n\
      --frames: #4a76a8; --initialising: #8b93a0; --pre-operational: #c08a1e;\n\
      --operational: #2e8b57; --stopped: #7d5ba6;\n\
    }\n\
    @media (prefers-color-scheme: dark) {\n\
      :root {\n\
        --paper: #14171b; --panel: #1d2127; --line: #363c45; --ink: #e7e9ec; --soft: #a3abb6;\n\
        --bad: #ff8d84; --good: #6fcf97; --open: #e5b454; --mark: #46211f;\n\
        --frames: #7fa8d8; --initialising: #6a7380; --pre-operational: #d9a441;\n\
        --operational: #56b27f; --stopped: #b79be3;\n\
      }\n\
    }\n\
    * { box-sizing: border-box; }\n\
    html { -webkit-text-size-adjust: 100%; text-size-adjust: 100%; }\n\
    body {\n\
      margin: 0 auto; padding: 2.5rem 1.5rem 4rem; max-width: 72rem;\n\
      background: var(--paper); color: var(--ink); overflow-wrap: anywhere;\n\
      font: 1rem/1.5 system-ui, 'Segoe UI', 'Noto Sans', 'DejaVu Sans', sans-serif;\n\
      font-variant-numeric: tabular-nums;\n\
    }\n\
    h1 {\n\
      margin: 0; font-size: clamp(2rem, 6vw, 3.25rem); line-height: 1.1;\n\
      letter-spacing: -.02em; font-weight: 700;\n\
    }\n\
    h2 { margin: 3rem 0 1rem; font-size: 1.25rem; font-weight: 650; }\n\
    h3 { margin: 1.75rem 0 .5rem; font-size: 1rem; font-weight: 650; }\n\
    p { margin: 0 0 .75rem; max-width: 46rem; }\n\
    code, pre {\n\
      font-family: ui-monospace, 'SF Mono', Menlo, Consolas, 'DejaVu Sans Mono', monospace;\n\
      font-size: .875em;\n\
    }\n\
    header { padding-left: 1.25rem; border-left: .5rem solid var(--open); }\n\
    header.bad { border-color: var(--bad); }\n\
    header.good { border-color: var(--good); }\n\
    .open h1 { color: var(--open); }\n\
    .bad h1 { color: var(--bad); }\n\
    .good h1 { color: var(--good); }\n\
    header p { margin: .5rem 0 0; max-width: none; color: var(--soft); font-size: 1.0625rem; }\n\
    dl { display: grid; grid-template-columns: max-content 1fr; gap: .25rem 1.5rem; margin: 0; }\n\
    dt { color: var(--soft); }\n\
    dd { margin: 0; }\n\
    .counts { display: flex; flex-wrap: wrap; gap: 1rem 2.5rem; margin-top: 1.5rem; }\n\
    .counts div { display: flex; flex-direction: column-reverse; }\n\
    .counts dd { font-size: 1.75rem; font-weight: 650; line-height: 1.2; }\n\
    .counts dt { font-size: .875rem; }\n\
    table { width: 100%; border-collapse: collapse; }\n\
    th, td {\n\
      padding: .5rem .75rem .5rem 0; text-align: left; vertical-align: top;\n\
      border-top: 1px solid var(--line);\n\
    }\n\
    th { color: var(--soft); font-size: .875rem; font-weight: 500; border-top: 0; }\n\
    .n { text-align: right; white-space: nowrap; width: 6.5rem; }\n\
    .differences .n { text-align: left; width: 5.5rem; padding-right: 1.25rem; }\n\
    td:last-child, th:last-child { padding-right: 0; }\n\
    tbody td:first-child { white-space: nowrap; }\n\
    .found { color: var(--bad); font-weight: 650; }\n\
    .not { color: var(--soft); }\n\
    .around td { padding: 0 0 1.25rem; border-top: 0; }\n\
    pre {\n\
      margin: 0; padding: .625rem .75rem; background: var(--panel); border-radius: .375rem;\n\
      overflow: hidden; line-height: 1.45; white-space: pre-wrap; overflow-wrap: anywhere;\n\
    }\n\
    mark {\n\
      display: block; margin: 0 -.75rem; padding: 0 .75rem 0 .5rem;\n\
      border-left: .25rem solid var(--bad); background: var(--mark); color: inherit;\n\
    }\n\
    ul { margin: 0; padding: 0; list-style: none; columns: 19rem; column-gap: 2.5rem; }\n\
    li { padding: .1875rem 0; break-inside: avoid; }\n\
    li::after { content: ''; display: block; clear: both; }\n\
    li code { margin-right: .5rem; }\n\
    li b { float: right; margin-left: .75rem; font-weight: 500; }\n\
    .lane {\n\
      display: grid; grid-template-columns: 8.5rem 1fr; align-items: center;\n\
      margin-bottom: .375rem;\n\
    }\n\
    .lane svg { display: block; width: 100%; height: 1.75rem; background: var(--panel); }\n\
    .frames {\n\
      fill: var(--frames); stroke: var(--frames); stroke-width: 1;\n\
      vector-effect: non-scaling-stroke;\n\
    }\n\
    .initialising { fill: var(--initialising); background: var(--initialising); }\n\
    .pre-operational { fill: var(--pre-operational); background: var(--pre-operational); }\n\
    .operational { fill: var(--operational); background: var(--operational); }\n\
    .stopped { fill: var(--stopped); background: var(--stopped); }\n\
    .several { fill: var(--soft); background: var(--soft); }\n\
    .across {\n\
      stroke: var(--bad); stroke-width: 1; vector-effect: non-scaling-stroke; opacity: .55;\n\
    }\n\
    .hit { stroke: var(--bad); stroke-width: 5; vector-effect: non-scaling-stroke; }\n\
    .hit:hover { stroke: var(--ink); }\n\
    .axis {\n\
      display: flex; justify-content: space-between; margin: 0 0 1rem 8.5rem;\n\
      color: var(--soft); font-size: .8125rem;\n\
    }\n\
    .key {\n\
      display: flex; flex-wrap: wrap; gap: .25rem 1.25rem;\n\
      color: var(--soft); font-size: .875rem;\n\
    }\n\
    .key i { display: inline-block; width: .75rem; height: .75rem; margin-right: .375rem; }\n\
    footer {\n\
      margin-top: 3.5rem; padding-top: 1rem; border-top: 1px solid var(--line);\n\
      color: var(--soft); font-size: .875rem;\n\
    }\n\
    @media (max-width: 40rem) {\n\
      body { padding: 1.5rem 1rem 3rem; }\n\
      header { padding-left: .875rem; border-left-width: .375rem; }\n\
      .counts { gap: .75rem 1.75rem; }\n\
      .counts dd { font-size: 1.375rem; }\n\
      dl:not(.counts) { display: block; }\n\
      dl:not(.counts) dd { margin-bottom: .5rem; }\n\
      table, tbody, tr, td { display: block; }\n\
      thead { display: none; }\n\
      td, .n, .differences .n { width: auto; padding: 0; text-align: left; border-top: 0; }\n\
      .n, .differences .n { display: inline-block; margin-right: 1rem; }\n\
      tr { padding: .75rem 0; border-top: 1px solid var(--line); }\n\
      td[data-is]::before {\n\
        content: attr(data-is) ' '; color: var(--soft); font-size: .875rem; font-weight: 400;\n\
      }\n\
      .around { padding: 0 0 1rem; border-top: 0; }\n\
      .lane { display: block; }\n\
      .lane > span { font-size: .875rem; color: var(--soft); }\n\
      .axis { margin-left: 0; }\n\
      .axis span:nth-child(even) { display: none; }\n\
    }\n\
    @media print {\n\
      @page { size: A4; margin: 16mm 14mm; }\n\
      :root {\n\
        color-scheme: light;\n\
        --paper: #ffffff; --panel: #f5f6f8; --line: #c9ced6; --ink: #000000; --soft: #444b55;\n\
        --bad: #a01c15; --good: #1b6e3c; --open: #7a5000; --mark: #fbe4e2;\n\
        --frames: #4a76a8; --initialising: #8b93a0; --pre-operational: #c08a1e;\n\
        --operational: #2e8b57; --stopped: #7d5ba6;\n\
      }\n\
      html { font-size: 9.5pt; }\n\
      body { padding: 0; max-width: none; }\n\
      h2 { margin-top: 2rem; }\n\
      .n { width: 4.5rem; }\n\
      h2, h3, thead, .lane, .axis { break-after: avoid; }\n\
      .one, .lane, .key, dl, header, footer, tr { break-inside: avoid; }\n\
      footer { margin-top: 1.5rem; break-before: avoid; }\n\
      header, svg, pre, mark, i { print-color-adjust: exact; -webkit-print-color-adjust: exact; }\n\
    }\n\
    ";
