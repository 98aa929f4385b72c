//! The text of a chart as a picture (SVG), to the byte. Definitions over what a chart shows, and their laws.
#![tactic(auto)]

ghost use Rattle.svg_texts.specs.LaneLaws.{LanesFillRows, LanesTellApart};

/// What is drawn of a row stands side by side and fills it, so that no two spans overlap and the row is as wide as its columns.
pub fn lanes_fill_rows()
    ensures { LanesFillRows }
{}

/// Cells that are drawn as one span are equal.
pub fn lanes_tell_apart()
    ensures { LanesTellApart }
{}
