//! The texts of a chart that are the same in each.

ghost use Rattle.std.specs.Prelude.{◌≡◌, ◌++◌, OnOk};
ghost use Rattle.lynx_chart.specs.Captions.{style_text};

use lynx_names::Memory;

/// How the page is drawn.
pub(crate) const PAGE_STYLE: &[u8] = b"<style>\n\
      svg{background:#ffffff;color:#333333;font:11px \"DejaVu Sans Mono\",Menlo,Consolas,monospace}\n\
      text{fill:currentColor}\n\
      path,use{fill:none;stroke:currentColor}\n\
      marker path{fill:currentColor;stroke:none}\n\
      .column{stroke:#999999;stroke-dasharray:1 4}\n\
      .head{font-weight:bold;text-anchor:middle}\n";

/// How boxes are drawn.
pub(crate) const BOX_STYLE: &[u8] = b".box use,.owed use{fill:inherit;stroke:#555555}\n\
      .box text{fill:#000000}\n\
      .at{text-anchor:end;opacity:0.7}\n\
      .refusal,.owed{fill:#ffffff}\n\
      .owed use{stroke:currentColor;stroke-dasharray:5 3}\n";

/// How lines are drawn.
pub(crate) const LINE_STYLE: &[u8] = b".message{marker-end:url(#tip)}\n\
      .held{stroke-dasharray:6 4}\n\
      .again{stroke-width:0.5}\n\
      .restart{stroke-width:3;stroke-dasharray:2 2}\n\
      .link path{stroke:#cc0000;stroke-width:2;marker-end:url(#end)}\n\
      #end path,.link text{fill:#cc0000}\n\
      .link text{text-anchor:end;paint-order:stroke;stroke:#ffffff;stroke-width:4px}\n";

/// How the chain is drawn at which one points.
pub(crate) const CHAIN_STYLE: &[u8] = b".chain:hover path,.chain:hover use{stroke-width:3}\n\
      svg:has(.chain:hover) .chain:not(:hover){opacity:0.3}\n";

/// How all is drawn where one prefers it dark.
pub(crate) const DARK_STYLE: &[u8] = b"@media (prefers-color-scheme:dark){\n\
      svg{background:#1c1c1c;color:#dddddd}\n\
      .owed{fill:#1c1c1c}\n\
      .link path{stroke:#ff7777}\n\
      #end path,.link text{fill:#ff7777}\n\
      .link text{stroke:#1c1c1c}\n\
      }\n\
      </style>\n";

/// The tips of arrows.
pub(crate) const TIPS: &[u8] = b"<defs>\n\
      <marker id=\"tip\" viewBox=\"0 0 8 8\" refX=\"8\" refY=\"4\" markerWidth=\"8\" markerHeight=\"8\"\n\
      \x20markerUnits=\"userSpaceOnUse\" orient=\"auto\"><path d=\"M0,0L8,4L0,8z\"/></marker>\n\
      <marker id=\"end\" viewBox=\"0 0 8 8\" refX=\"8\" refY=\"4\" markerWidth=\"10\" markerHeight=\"10\"\n\
      \x20markerUnits=\"userSpaceOnUse\" orient=\"auto\"><path d=\"M0,0L8,4L0,8z\"/></marker>\n";

/// The crosses of what was lost or dropped, and the frame of a box.
pub(crate) const CROSSES: &[u8] = b"<path id=\"right\" d=\"M0,0h20m-5,-5l10,10m0,-10l-10,10\"/>\n\
      <path id=\"left\" d=\"M0,0h-20m-5,-5l10,10m0,-10l-10,10\"/>\n\
      <rect id=\"box\" x=\"-8\" y=\"-15\" width=\"200\" height=\"62\"/>\n\
      </defs>\n";

/// How a run is explained by an order, in words.
pub(crate) const ORDER_WORDS: &[u8] =
    b"One after another in this order, without a break, the chains give the same results.";

/// Why none explains it, in words.
pub(crate) const CYCLE_WORDS: &[u8] =
    b"By the red lines each chain comes before the next, and the last before the first.";

/// How the chart is read.
pub(crate) const LEGEND_FIRST: &[u8] =
    b"Down a column a server's entries stand by their stamps. An arrow is a message: dashed";

/// The same, further.
pub(crate) const LEGEND_SECOND: &[u8] =
    b"where it was held, thin where it came again, with a cross where it was lost or dropped.";

/// The same, further.
pub(crate) const LEGEND_THIRD: &[u8] =
    b"A dashed box is a hop that is owed. The colour of a chain is its place.";

/// Writes how all is drawn.
pub(crate) fn put_style(out: &mut Vec<u8>) -> Result<(), Memory>
    ensures { OnOk result (out.new.items ≡ out.old.items ++ style_text) }
{
    out.extend_from_slice(PAGE_STYLE)?;
    out.extend_from_slice(BOX_STYLE)?;
    out.extend_from_slice(LINE_STYLE)?;
    out.extend_from_slice(CHAIN_STYLE)?;
    out.extend_from_slice(DARK_STYLE)?;
    out.extend_from_slice(TIPS)?;
    out.extend_from_slice(CROSSES)?;
    Ok(())
}
