//! The style of pages.

/// The style sheet of all pages: light and dark, wide and narrow, and in print. A column is told by
/// the class of its cells, and a row that is late, short or void by the class of the row. Where a
/// page is narrow, each row is a card, and the sheet has the labels of its cells.
pub const STYLE: &str = "\
:root{color-scheme:light dark;--ink:#1d2530;--soft:#56616f;--line:#d5dbe2;--paper:#fff;
--wash:#f4f6f8;--way:#0b5394;--late:#a3181e;--late-wash:#fdf0f0;--short:#8a5300;
--short-wash:#fdf6e7;--met:#2b6b3f}
@media (prefers-color-scheme:dark){:root{--ink:#e6eaef;--soft:#a3adb9;--line:#3a424d;
--paper:#14181d;--wash:#1d232a;--way:#8ab8ee;--late:#ff9d9d;--late-wash:#371a1d;
--short:#f0c36d;--short-wash:#33290f;--met:#8fd0a3}}
*{box-sizing:border-box}
body{margin:0;background:var(--paper);color:var(--ink);font:14.5px/1.5 system-ui,
-apple-system,'Segoe UI',Roboto,'Noto Sans','DejaVu Sans',sans-serif}
nav{display:flex;flex-wrap:wrap;gap:.25rem 1.5rem;padding:.7rem 1.25rem;
background:var(--wash);border-bottom:1px solid var(--line)}
main{max-width:84rem;margin:0 auto;padding:1.25rem 1.25rem 3rem;overflow-x:auto}
a{color:var(--way);text-underline-offset:.15em;text-decoration-thickness:1px}
a:hover{text-decoration-thickness:2px}
a:focus-visible,:is(input,select,textarea,button):focus-visible{
outline:3px solid var(--way);outline-offset:2px;border-radius:2px}
h1,h2,caption{margin:0;padding:0 0 .8rem;font-size:1.3rem;font-weight:600;line-height:1.3;
text-align:left}
caption{white-space:nowrap}
h2,h1~table caption{padding:1.1rem 0 .4rem;font-size:1.1rem}
p{max-width:46rem;margin:0 0 .8rem}
table+p{margin-top:.8rem}
cite{display:block;color:var(--soft);font-size:.88rem;font-style:normal}
label{display:block;font-weight:600}
input,select,textarea,button{font:inherit;color:inherit;background:var(--paper);
max-width:100%;min-height:2.4rem;padding:.35rem .5rem;border:1px solid var(--soft);
border-radius:4px}
input,select,textarea{width:18rem}
input[type=checkbox]{width:1.4rem;min-height:1.4rem;margin:.2rem 0}
button{padding:.35rem 1.1rem;background:var(--way);color:var(--paper);
border-color:var(--way);font-weight:600;cursor:pointer}
small{display:block;color:var(--soft);font-size:.88rem}
pre{max-width:46rem;margin:0 0 .8rem;padding:.6rem .8rem;background:var(--wash);
border-left:4px solid var(--line);font-size:.94rem;white-space:pre-wrap;overflow-wrap:anywhere}
.bad{color:var(--late);font-weight:600}
table{border-collapse:collapse;font-variant-numeric:tabular-nums}
th,td{padding:.42rem .45rem;text-align:left;vertical-align:baseline;white-space:nowrap}
thead th{border-bottom:2px solid var(--ink);color:var(--soft);font-size:.86rem;
font-weight:600;vertical-align:bottom;white-space:normal}
tbody tr{border-bottom:1px solid var(--line)}
tbody tr:hover{background:var(--wash)}
tfoot th,tfoot td{border-top:2px solid var(--ink);font-weight:700}
tfoot th{text-align:right}
.amount,.paid,.left,.over,.fit,.ss,.medicare,.lookback,.first_lookback,.total,.run,
.payment,.amount+.first{text-align:right}
.payment+.paid{text-align:left}
td.paid,td.form,td.rule{color:var(--soft)}
td.left,td.account{font-weight:600}
tr.late{background:var(--late-wash);box-shadow:inset 4px 0 var(--late)}
tr.late td.verdict,tr.late td.left,tr.late td.due{color:var(--late);font-weight:700}
tr.short{background:var(--short-wash);box-shadow:inset 4px 0 var(--short)}
tr.short td.verdict,tr.short td.left{color:var(--short);font-weight:700}
tr.met td.verdict,tr.made-up td.verdict{color:var(--met)}
tr.late td.verdict::before{content:'\\25B2\\00A0'}
tr.short td.verdict::before{content:'\\25B3\\00A0'}
tr.met td.verdict::before,tr.made-up td.verdict::before{content:'\\2713\\00A0'}
tr.open td.verdict::before,tr.with-return td.verdict::before{content:'\\25CB\\00A0'}
tr.void td{color:var(--soft);text-decoration:line-through}
@media screen and (max-width:60rem){
main{padding:1rem 1rem 2rem}
h1,caption{font-size:1.15rem}
caption{white-space:normal}
nav{padding:.6rem 1rem}
thead{position:absolute;width:1px;height:1px;overflow:hidden;clip-path:inset(50%)}
table,tbody,tfoot,caption{display:block}
tbody tr{display:grid;grid-template-columns:minmax(0,1fr) auto;gap:0 .75rem;
margin:0 0 .7rem;padding:.55rem .8rem;border:1px solid var(--line);border-radius:6px}
tbody td{padding:.12rem 0}
td.account,td.amount,td.paid,td.left,td.over,td.lookback,td.first_lookback{
white-space:normal;overflow-wrap:anywhere}
td[class]{grid-column:1;text-align:left}
td.over,td.pay_by,td.makeup,td.form,td.last,td.paid,td.payment,td.for,td.obligation,
td.run,td.year,td.quarter,td.opening,td.turned,td.start,td.added,td.is,
td.kind,td.turn,td.total,td.day+.amount,td.amount+.first{grid-column:2;text-align:right}
td.payment+.paid{grid-column:1;text-align:left}
td.account{order:-2;font-size:1.05rem}
tbody .left,tbody .over{font-size:1.05rem}
td.verdict{order:-1;grid-column:2;text-align:right}
td.rule{order:1}
td.due::before{content:'Due '}
td.form::before{content:'Form '}
td.first::before{content:'Period '}
td.last::before{content:'to '}
td.rule::before{content:'Rule '}
td.left::before{content:'Left '}
td.over::before{content:'Over '}
td.left::before,td.over::before{color:var(--soft);font-weight:400;font-size:.92rem}
td.amount::before{content:'Amount '}
td.amount+td.first::before{content:'First reported '}
td.day+.amount::before{content:'Liability '}
td.total::before{content:'Total so far '}
td.paid::before{content:'Paid '}
td.payment+.paid::before{content:'Paid on '}
td.pay_by::before{content:'Pay by '}
td.makeup::before{content:'Make up by '}
td.start::before{content:'First day '}
td.carried::before{content:'Carried '}
td.year::before{content:'Year '}
td.quarter::before{content:'Quarter '}
td.lookback::before{content:'Lookback total '}
td.opening::before{content:'Opens as '}
td.turned::before{content:'Turned on '}
td.first_lookback::before{content:'First reported '}
td.added::before{content:'Added '}
td.holiday::before{content:'Holiday '}
td.run::before{content:'Run '}
td.payday::before{content:'Payday '}
td.fit::before{content:'Income tax '}
td.ss::before{content:'Social security '}
td.medicare::before{content:'Medicare '}
td.payment::before{content:'Payment '}
td.for::before{content:'For '}
td.obligation::before{content:'Counts for '}
td.void::before{content:'Void '}
td.kind::before{content:'Schedule '}
td.reason::before{content:'Reason '}
td.turn::before{content:'Turned on '}
td:empty::before{content:none}
tfoot tr{display:flex;flex-wrap:wrap;justify-content:space-between;gap:.1rem .75rem;
padding:.4rem .8rem;border-top:2px solid var(--ink)}
tfoot th,tfoot td[class]{border:0;padding:0;font-size:1.05rem;white-space:nowrap}
tfoot td[class]{margin-left:auto}
tfoot th+td.left::before{content:none}
tfoot td:empty{display:none}
}
@media print{
@page{size:landscape;margin:12mm}
:root{--ink:#000;--soft:#222;--line:#999;--paper:#fff;--wash:#fff;--late:#000;
--late-wash:#fff;--short:#000;--short-wash:#fff;--met:#000;font-size:8.5pt}
body{font-size:1rem}
nav{display:none}
main{max-width:none;padding:0;overflow:visible}
a{color:inherit;text-decoration:none}
th,td{padding:.2rem .3rem}
thead{display:table-header-group}
tfoot{display:table-row-group}
tr{break-inside:avoid}
tr.late td{border-top:1px solid #000;border-bottom:1px solid #000}
}
";
