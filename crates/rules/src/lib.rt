// The types that document 01 speaks of. What they mean is in specs/.
#![tactic(auto)]

pub mod limits;
pub mod refusal;

// The number of an entry of the table, from 0.
#[derive(Clone, Copy, Debug, PartialEq, Eq)]
pub struct EntryIndex(pub usize);

// The number of an argument in the list of arguments at hand, from 0.
#[derive(Clone, Copy, Debug, PartialEq, Eq)]
pub struct ArgumentPosition(pub usize);

// What an entry holds. A string is given by its place: the bytes of the table from start to end.
#[derive(Clone, Copy, Debug, PartialEq, Eq)]
pub enum Argument {
    Boolean(bool),
    Integer(i64),
    Character(u8),
    Text { start: usize, end: usize },
    Entries { first: EntryIndex, count: usize },
}

// A directive that writes a text of its own and leaves the order of reading alone.
#[derive(Clone, Copy, Debug, PartialEq, Eq)]
pub enum Form {
    // ~a, and with true ~s
    Object(bool),
    // ~d ~x ~o ~b, by their base
    Numeral(u64),
    // ~c
    Glyph,
    // ~p
    Plural,
    // ~~ ~% ~_ ~| ~/, by the byte that they repeat
    Repeat(u8),
    // tilde-newline
    Fold,
}

// What a block is.
#[derive(Clone, Copy, Debug, PartialEq, Eq)]
pub enum Bracket {
    // ~[ ~]
    Conditional,
    // ~{ ~}
    Iteration,
}

// The role of a directive, by its code.
#[derive(Clone, Copy, Debug, PartialEq, Eq)]
pub enum Code {
    Writes(Form),
    // ~*
    Jump,
    // ~^
    Escape,
    // ~[ ~{
    Opens(Bracket),
    // ~;
    Separator,
    // ~] ~}
    Closes(Bracket),
    // any other byte
    Unknown,
}

// A parameter as it is written.
#[derive(Clone, Copy, Debug, PartialEq, Eq)]
pub enum Parameter {
    // nothing is written
    Default,
    // 0 to 4,096
    Number(u16),
    // ' and a byte
    Character(u8),
    // v, which takes the next argument
    Next,
    // #, the arguments that remain
    Remaining,
}

// The parameters of a directive: how many are written, empty ones included, and the first five of them.
#[derive(Clone, Copy, Debug, PartialEq, Eq)]
pub struct Parameters {
    pub count: usize,
    pub first: Parameter,
    pub second: Parameter,
    pub third: Parameter,
    pub fourth: Parameter,
    pub fifth: Parameter,
}

// A place for a parameter.
#[derive(Clone, Copy, Debug, PartialEq, Eq)]
pub enum Place {
    // nothing may be written: there is no such place
    Empty,
    Number { least: u16, most: u16 },
    Character,
}

// The places of a directive: how many there are, and five of them, those behind the last being empty.
#[derive(Clone, Copy, Debug, PartialEq, Eq)]
pub struct Places {
    pub count: usize,
    pub first: Place,
    pub second: Place,
    pub third: Place,
    pub fourth: Place,
    pub fifth: Place,
}

// The modifiers that a directive takes.
#[derive(Clone, Copy, Debug, PartialEq, Eq)]
pub enum Modifiers {
    Neither,
    Colon,
    At,
    // one of them, not both
    Either,
    Any,
}

// The kinds of argument that a directive takes.
#[derive(Clone, Copy, Debug, PartialEq, Eq)]
pub enum Kinds {
    Any,
    NoList,
    Integer,
    Character,
}

// Where the argument of a directive comes from.
#[derive(Clone, Copy, Debug, PartialEq, Eq)]
pub enum Origin {
    // it takes none
    Nowhere,
    // the next argument
    Next,
    // the next one, or with `:` the one before it
    NextOrBack,
    // the next one, or the character whose number is the first parameter
    NextOrNumber,
}

// Whether a format with a directive is plain.
#[derive(Clone, Copy, Debug, PartialEq, Eq)]
pub enum Plainness {
    Plain,
    // it is, but for this
    Conditional,
    Never,
}

// What a directive is.
#[derive(Clone, Copy, Debug, PartialEq, Eq)]
pub struct Row {
    pub places: Places,
    pub modifiers: Modifiers,
    pub kinds: Kinds,
    pub origin: Origin,
    pub plainness: Plainness,
}

// A directive as it is written. The text goes on at after.
#[derive(Clone, Copy, Debug, PartialEq, Eq)]
pub struct Directive {
    pub code: Code,
    pub colon: bool,
    pub atsign: bool,
    pub parameters: Parameters,
    pub after: usize,
}

// What stands at a position of a format text.
#[derive(Clone, Copy, Debug, PartialEq, Eq)]
pub enum Item {
    // the end of the text
    End,
    Literal(u8),
    Written(Directive),
    // a directive with a number that is a sign without digits or out of range
    BadNumber,
    // a directive inside which the text ends
    Unfinished,
}

// A parameter that is worked out: absent, or its number, which for a character is its byte.
pub type Setting = Option<usize>;

// The parameters of a directive, worked out.
#[derive(Clone, Copy, Debug, PartialEq, Eq)]
pub struct Settings {
    pub first: Setting,
    pub second: Setting,
    pub third: Setting,
    pub fourth: Setting,
    pub fifth: Setting,
}
