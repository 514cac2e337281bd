// The types of a vet. What they mean, and what a vet promises, is in specs/.
#![tactic(auto)]

use rules::ArgumentPosition;

// How far something leads: the argument that comes next, and the most bytes that are written before it.
#[derive(Clone, Copy, Debug, PartialEq, Eq)]
pub struct Reach {
    pub next: ArgumentPosition,
    pub size: usize,
}

// Where the ways through a conditional end: none is known yet; all at the argument `next`, the longest with `size` bytes;
// or at more than one argument. Three cases, as the definitions have them: an Option would hide one in another.
#[derive(Clone, Copy, Debug, PartialEq, Eq)]
pub enum Ends {
    Nowhere,
    Equal { next: ArgumentPosition, size: usize },
    Unequal,
}
