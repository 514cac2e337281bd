// What a directive writes, as a value of a few words, which is measured, and written whole or in part. What it stands
// for is in specs/Bytes, what it may be made from in specs/Given, and what is left of one that is cut in specs/Rest.
#![tactic(auto)]

pub mod copying; // fills and copies
pub mod window; // where a window falls in a text of three segments
pub mod quoting; // a string in quotes
pub mod figuring; // a number with its sign
pub mod writing; // a piece: its length and its writers
pub mod resuming; // a string in quotes that a window cuts

// A number: a sign, 0 for none, and the digits of a magnitude, in groups of a width that is not 0.
#[derive(Clone, Copy)]
pub struct Figure {
    pub base: u64,
    pub magnitude: u64,
    pub sign: u8,
    pub width: usize,
    pub comma: u8,
}

// Where the bytes of a text come from. A string is given by its place in the table.
#[derive(Clone, Copy)]
pub enum Content {
    Run { byte: u8, count: usize },
    Copied { start: usize, end: usize },
    Quoted { start: usize, end: usize },
    Figures(Figure),
    // so many bytes of the body's word
    Word(usize),
}

// A text before padding, with its length.
#[derive(Clone, Copy)]
pub struct Body {
    pub size: usize,
    // in the body itself, since nothing takes memory
    pub word: [u8; 12],
    pub content: Content,
}

// A text with the padding on its two sides.
#[derive(Clone, Copy)]
pub struct Piece {
    pub before: usize,
    pub behind: usize,
    pub pad: u8,
    pub body: Body,
}
