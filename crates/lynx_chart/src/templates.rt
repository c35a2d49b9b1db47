//! The shapes of a chart as they are written. A `%` stands where a value comes.

/// A line of text above all: its height, and what it says.
pub(crate) const NOTE: &[u8] = b"<text x=\"24\" y=\"%\">%</text>\n";

/// The line down a server's column: how far right it stands, and how far down it goes.
pub(crate) const COLUMN: &[u8] = b"<path class=\"column\" d=\"M%,118V%\"/>\n";

/// The head of a server's column: where it stands, and the server.
pub(crate) const HEAD: &[u8] = b"<text class=\"head\" x=\"%\" y=\"%\">server %</text>\n";

/// The shapes of a chain follow: its colour.
pub(crate) const OPENS: &[u8] = b"<g class=\"chain\" fill=\"%\">\n";

/// The shapes of a chain, or of a box, end.
pub(crate) const CLOSES: &[u8] = b"</g>\n";

/// A box with its frame: its kind, where its first line begins, the four lines that it tells when
/// one points at it, and what stands in its corner.
pub(crate) const BOX: &[u8] =
    b"<g class=\"%\" transform=\"translate(%,%)\"><title>%%%%%</title><use href=\"#box\"/>";

/// What stands in the corner of a box.
pub(crate) const CORNER: &[u8] = b"<text class=\"at\" x=\"184\">%</text>";

/// A line in a box: its height, and what it says.
pub(crate) const LINE: &[u8] = b"<text y=\"%\">%</text>";

/// An arrow: its kind, its way, and what it tells.
pub(crate) const ARROW: &[u8] = b"<path class=\"%\" d=\"M%\"><title>%</title></path>\n";

/// A cross: the side of the box on which it stands, where, and what it tells.
pub(crate) const CROSS: &[u8] = b"<use href=\"#%\" x=\"%\" y=\"%\"><title>%</title></use>\n";

/// A line across a server's column: where it begins, and the server.
pub(crate) const RESTART: &[u8] =
    b"<path class=\"restart\" d=\"M%,%m0,-3h200\"><title>server % restarts</title></path>\n";

/// A red line from one box to another: what it tells, where it begins, how far right, how far down
/// and back to where it goes, where its cell stands, and the cell.
pub(crate) const LINK: &[u8] = b"<g class=\"link\"><title>%</title><path d=\"M%,%h%V%H%\"/>\
      <text x=\"%\" y=\"%\" dy=\"-8\">%</text></g>\n";

/// The first line of a chart: its width and its height, twice.
pub(crate) const OPENING: &[u8] =
    b"<svg xmlns=\"http://www.w3.org/2000/svg\" width=\"%\" height=\"%\" viewBox=\"0 0 % %\">\n";

/// What a chart is, which no browser shows: the last line of the run.
pub(crate) const DESCRIBED: &[u8] = b"<desc>%</desc>\n";

/// A chart ends.
pub(crate) const ENDS: &[u8] = b"</svg>\n";
