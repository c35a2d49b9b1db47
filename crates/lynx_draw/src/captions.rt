//! The texts of a picture that are the same in each.

ghost use Rattle.std.specs.Prelude.{◌≡◌};
ghost use Rattle.lynx_draw.specs.Captions.{accepted_text, begin_words, box_start, changed_text, conflict_style, excused_style, excused_text, head_text, label_start, late_label, late_text, legend_text, mark_end, offending_text, pair_words, thick_frame, unseen_end, walk_style};

/// How all of it is drawn.
#[tactic(auto, unfolding(crate::specs::Captions::head_text))]
pub(crate) fn head_text() -> &'static [u8]
    ensures { result.now ≡ head_text }
{
    b"digraph lynx {\n  graph [fontname=\"Helvetica\", fontsize=12, style=rounded, labeljust=l, newrank=true, nodesep=0.4, ranksep=0.6];\n  node [shape=box, style=filled, fontname=\"Helvetica\", fontsize=11];\n  edge [fontname=\"Helvetica\", fontsize=10];\n"
}

/// What is said of a set that is accepted since no closed walk offends.
#[tactic(auto, unfolding(crate::specs::Captions::accepted_text))]
pub(crate) fn accepted_text() -> &'static [u8]
    ensures { result.now ≡ accepted_text }
{
    b"  label=\"accepted\\l"
}

/// What is said of one that is accepted by blocks.
#[tactic(auto, unfolding(crate::specs::Captions::excused_text))]
pub(crate) fn excused_text() -> &'static [u8]
    ensures { result.now ≡ excused_text }
{
    b"  label=\"accepted by blocks: the orange steps lead all the way round, but no chains run so: between chains of other origins each block goes forward alone.\\l"
}

/// What is said of one that offends.
#[tactic(auto, unfolding(crate::specs::Captions::offending_text))]
pub(crate) fn offending_text() -> &'static [u8]
    ensures { result.now ≡ offending_text }
{
    b"  label=\"offending: by the red steps in their order, each chain may come before the next, all the way round.\\l"
}

/// What is said of the marks of a changed set.
#[tactic(auto, unfolding(crate::specs::Captions::changed_text))]
pub(crate) fn changed_text() -> &'static [u8]
    ensures { result.now ≡ changed_text }
{
    b"Thick frames stand around changed hops.\\l"
}

/// How the picture is read.
#[tactic(auto, unfolding(crate::specs::Captions::legend_text))]
pub(crate) fn legend_text() -> &'static [u8]
    ensures { result.now ≡ legend_text }
{
    b"Solid arrows lead to the next hop. Dashed lines join hops that may conflict, in the tables named.\\lWhere two chains of one program may conflict, it is drawn again. Each server has its colour.\\l\";\n"
}

/// What is said of one that offends where what stands in the way is drawn alone.
#[tactic(auto, unfolding(crate::specs::Captions::late_text))]
pub(crate) fn late_text() -> &'static [u8]
    ensures { result.now ≡ late_text }
{
    b"  label=\"offending: the programs with thick frames stand in the way, since those of other servers meet two hops of theirs.\\l"
}

/// How a program is drawn that stands in the way.
#[tactic(auto, unfolding(crate::specs::Captions::thick_frame))]
pub(crate) fn thick_frame() -> &'static [u8]
    ensures { result.now ≡ thick_frame }
{
    b"    penwidth=3;\n"
}

/// What is said of it below its name.
#[tactic(auto, unfolding(crate::specs::Captions::late_label))]
pub(crate) fn late_label() -> &'static [u8]
    ensures { result.now ≡ late_label }
{
    b"\\lmeets other servers by two hops\\l"
}

/// How conflicts are drawn.
#[tactic(auto, unfolding(crate::specs::Captions::conflict_style))]
pub(crate) fn conflict_style() -> &'static [u8]
    ensures { result.now ≡ conflict_style }
{
    b"  edge [style=dashed, dir=none];\n"
}

/// How the steps of a walk are drawn that offends.
#[tactic(auto, unfolding(crate::specs::Captions::walk_style))]
pub(crate) fn walk_style() -> &'static [u8]
    ensures { result.now ≡ walk_style }
{
    b"  edge [dir=forward, penwidth=2, color=\"#cc0000\", fontcolor=\"#cc0000\", fontsize=12];\n"
}

/// How those of one are drawn that is excused.
#[tactic(auto, unfolding(crate::specs::Captions::excused_style))]
pub(crate) fn excused_style() -> &'static [u8]
    ensures { result.now ≡ excused_style }
{
    b"  edge [dir=forward, penwidth=2, color=\"#cc7700\", fontcolor=\"#cc7700\", fontsize=12];\n"
}

/// The beginning of a box.
#[tactic(auto, unfolding(crate::specs::Captions::box_start))]
pub(crate) fn box_start() -> &'static [u8]
    ensures { result.now ≡ box_start }
{
    b"  subgraph \"cluster group of "
}

/// What stands between the name of a box and its label.
#[tactic(auto, unfolding(crate::specs::Captions::label_start))]
pub(crate) fn label_start() -> &'static [u8]
    ensures { result.now ≡ label_start }
{
    b"\" {\n    label=\""
}

/// What stands in its label before the server.
#[tactic(auto, unfolding(crate::specs::Captions::begin_words))]
pub(crate) fn begin_words() -> &'static [u8]
    ensures { result.now ≡ begin_words }
{
    b" programs that begin at server "
}

/// .. and behind the count of pairs.
#[tactic(auto, unfolding(crate::specs::Captions::pair_words))]
pub(crate) fn pair_words() -> &'static [u8]
    ensures { result.now ≡ pair_words }
{
    b" pairs of their hops may conflict, and are not drawn"
}

/// The end of an arrow that isn't seen.
#[tactic(auto, unfolding(crate::specs::Captions::unseen_end))]
pub(crate) fn unseen_end() -> &'static [u8]
    ensures { result.now ≡ unseen_end }
{
    b" [style=invis];\n"
}

/// The end of the line that draws a thick frame around a hop.
#[tactic(auto, unfolding(crate::specs::Captions::mark_end))]
pub(crate) fn mark_end() -> &'static [u8]
    ensures { result.now ≡ mark_end }
{
    b" [penwidth=3];\n"
}
