//! How pages look: in the colours of a bright or of a dark screen, and on paper.

ghost use Rattle.std.specs.Prelude.{◌≡◌, ◌++◌, OnOk};
ghost use Rattle.otp_pages.specs.Style.{dark_style, light_style, map_style, marks_style, run_style, tables_style, tags_style, text_style, tree_style, style};

use std::alloc::AllocError;

/// The colours of a bright page.
const LIGHT: &[u8] = b"\
:root{color-scheme:light dark;--ink:#1c2330;--dim:#566070;--paper:#ffffff;--card:#f3f5f8;--line:#c9d1dc;--up:#1b6e37;--way:#7a5200;--down:#a8231b;--key:#1d4f9e}\n";

/// The colours of a dark page.
const DARK: &[u8] = b"\
@media (prefers-color-scheme:dark){:root{--ink:#e6e9ef;--dim:#a3adba;--paper:#14181f;--card:#1e2530;--line:#414c5b;--up:#77d494;--way:#e6ba62;--down:#ff938a;--key:#93baf9}}\n";

/// Texts.
const TEXT: &[u8] = b"\
body{margin:1.5rem auto;padding:0 1rem;max-width:76rem;font:1rem/1.45 system-ui,sans-serif;color:var(--ink);background:var(--paper)}\n\
h1{font-size:1.35rem;margin:0 0 .3rem}\n\
code{font:.93em/1.3 ui-monospace,monospace}\n\
p,ul{margin:.3rem 0}\n\
small{color:var(--dim)}\n\
.legend{color:var(--dim);font-size:.9rem}\n";

/// Trees.
const TREE: &[u8] = b"\
.tree ul{list-style:none;padding:0 0 0 1rem;margin:0 0 .3rem .4rem;border-left:2px solid var(--line)}\n\
.tree li{padding:.15rem 0}\n\
.tree li>code{display:inline-block;min-width:11rem;margin-right:.5rem;font-weight:600}\n\
.flags{padding:.25rem .6rem;background:var(--card);border-left:.25rem solid var(--key);break-inside:avoid}\n\
.flags b{color:var(--key);margin-right:.6rem}\n";

/// Maps: what a crash of the child that is open takes down, by the strategy of its supervisor.
const MAP: &[u8] = b"\
.map{font-size:.93rem}\n\
.map ul{list-style:none;display:flex;flex-wrap:wrap;gap:.4rem;padding:.4rem;margin:0}\n\
.map li{padding:.2rem .5rem;border:1px solid var(--line);border-radius:.4rem}\n\
.map li:has(>ul){flex-basis:100%}\n\
.map summary{cursor:pointer}\n\
.map summary code{margin-right:.5rem}\n\
.map small{margin-left:.4rem}\n\
.map details p{padding-left:1rem;color:var(--dim)}\n\
.map details[open]>summary{color:var(--down);font-weight:700}\n\
.map li:has(>details[open]),.map .one_for_all:has(>li:not(.is_temporary)>details[open])>li,.map .rest_for_one>li:not(.is_temporary):has(>details[open])~li{border-color:var(--down);background:var(--card);box-shadow:0 0 0 1px var(--down)}\n";

/// Pictures of runs: a bar for each child, and the steps of each supervisor's period.
const RUN: &[u8] = b"\
.verdict{padding:.25rem .6rem;background:var(--card);border-left:.25rem solid var(--key);font-weight:600}\n\
.axis,.tracks,.window{display:block;width:100%;fill:var(--ink);overflow:visible}\n\
.axis{height:1.4rem;font-size:.8rem;position:sticky;top:0;background:var(--paper)}\n\
.axis text{text-anchor:middle}\n\
.axis text:first-child{text-anchor:start}\n\
.axis .last{text-anchor:end}\n\
.tracks{font-size:2rem}\n\
.tracks text{font-size:.45em}\n\
.tracks rect{transform:translateY(.54em)}\n\
.tracks line,.window line{stroke:var(--line)}\n\
.on{fill:var(--up)}\n\
.off{fill:var(--card);stroke:var(--line)}\n\
.crash{fill:var(--down);color:var(--down)}\n\
.along{fill:var(--way);color:var(--way)}\n\
.window{height:2.5rem;border-bottom:1px solid var(--dim);margin-bottom:.6rem}\n\
.used{fill:var(--key)}\n\
.full{fill:var(--way);color:var(--way)}\n\
.fall{fill:var(--down)}\n\
details>summary{cursor:pointer}\n";

/// What is said of a child.
const TAGS: &[u8] = b"\
.tag{display:inline-block;padding:0 .5em;margin-right:.4rem;border:1px solid var(--line);border-radius:.7em;font-size:.85rem}\n\
.permanent{border-color:currentColor;color:var(--up)}\n\
.transient{border-color:currentColor;color:var(--way)}\n\
.temporary{border-style:dashed;border-color:currentColor;color:var(--dim)}\n\
.significant{border-color:currentColor;color:var(--down)}\n";

/// Tables.
const TABLES: &[u8] = b"\
table{border-collapse:collapse;margin:.8rem 0;font-size:.93rem}\n\
th,td{min-width:5rem;padding:.3rem .6rem;border-bottom:1px solid var(--line);text-align:left;vertical-align:top}\n\
thead th{border-bottom:2px solid var(--ink)}\n\
tr{break-inside:avoid}\n\
.n{text-align:right;white-space:nowrap}\n\
td small,th small{display:block;font-weight:400}\n\
th code,td code{overflow-wrap:anywhere}\n\
.line{min-width:15rem}\n";

/// Bars and marks, and a page on paper.
const MARKS: &[u8] = b"\
.bar{width:5rem;height:.6rem;margin-right:.5rem}\n\
.bar rect{fill:var(--key)}\n\
.bar .all{fill:var(--line)}\n\
.up{color:var(--up)}\n\
.way{color:var(--way)}\n\
.down{color:var(--down)}\n\
.chip{display:inline-block;margin:0 .7rem .1rem 0;white-space:nowrap;font:.9em/1.4 ui-monospace,monospace}\n\
.new{font-weight:700;text-decoration:underline}\n\
.end{display:block;color:var(--down);font-size:.88rem}\n\
@media print{body{margin:0;max-width:none;font-size:10pt}}\n";

#[tactic(auto, unfolding(crate::specs::Style::light_style))]
fn put_light(out: &mut Vec<u8>) -> Result<(), AllocError>
    ensures { OnOk result (out.new.items ≡ out.old.items ++ light_style) }
{
    out.extend_from_slice(LIGHT)
}

#[tactic(auto, unfolding(crate::specs::Style::dark_style))]
fn put_dark(out: &mut Vec<u8>) -> Result<(), AllocError>
    ensures { OnOk result (out.new.items ≡ out.old.items ++ dark_style) }
{
    out.extend_from_slice(DARK)
}

#[tactic(auto, unfolding(crate::specs::Style::text_style))]
fn put_text(out: &mut Vec<u8>) -> Result<(), AllocError>
    ensures { OnOk result (out.new.items ≡ out.old.items ++ text_style) }
{
    out.extend_from_slice(TEXT)
}

#[tactic(auto, unfolding(crate::specs::Style::tree_style))]
fn put_tree(out: &mut Vec<u8>) -> Result<(), AllocError>
    ensures { OnOk result (out.new.items ≡ out.old.items ++ tree_style) }
{
    out.extend_from_slice(TREE)
}

#[tactic(auto, unfolding(crate::specs::Style::map_style))]
fn put_map(out: &mut Vec<u8>) -> Result<(), AllocError>
    ensures { OnOk result (out.new.items ≡ out.old.items ++ map_style) }
{
    out.extend_from_slice(MAP)
}

#[tactic(auto, unfolding(crate::specs::Style::run_style))]
fn put_run(out: &mut Vec<u8>) -> Result<(), AllocError>
    ensures { OnOk result (out.new.items ≡ out.old.items ++ run_style) }
{
    out.extend_from_slice(RUN)
}

#[tactic(auto, unfolding(crate::specs::Style::tags_style))]
fn put_tags(out: &mut Vec<u8>) -> Result<(), AllocError>
    ensures { OnOk result (out.new.items ≡ out.old.items ++ tags_style) }
{
    out.extend_from_slice(TAGS)
}

#[tactic(auto, unfolding(crate::specs::Style::tables_style))]
fn put_tables(out: &mut Vec<u8>) -> Result<(), AllocError>
    ensures { OnOk result (out.new.items ≡ out.old.items ++ tables_style) }
{
    out.extend_from_slice(TABLES)
}

#[tactic(auto, unfolding(crate::specs::Style::marks_style))]
fn put_marks(out: &mut Vec<u8>) -> Result<(), AllocError>
    ensures { OnOk result (out.new.items ≡ out.old.items ++ marks_style) }
{
    out.extend_from_slice(MARKS)
}

/// Appends how pages look.
#[tactic(auto, unfolding(crate::specs::Style::style))]
pub(crate) fn put_style(out: &mut Vec<u8>) -> Result<(), AllocError>
    ensures { OnOk result (out.new.items ≡ out.old.items ++ style) }
{
    put_light(out)?;
    put_dark(out)?;
    put_text(out)?;
    put_tree(out)?;
    put_map(out)?;
    put_run(out)?;
    put_tags(out)?;
    put_tables(out)?;
    put_marks(out)
}
