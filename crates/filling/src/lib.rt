// The steps of a run that fills a window. A piece that has no room is cut at the window's end.
#![tactic(auto)]

pub mod giving; // a piece, or as much of it as there is room for
pub mod steps; // what stands at a place of the text
