// What each directive is: the list of document 01 that gives its places and modifiers, with the kinds that it takes, where
// its argument comes from, and whether it is plain. Everything that goes by these reads them here.
ghost use Rattle.std.specs.Prelude.{◌≡◌};
ghost use Rattle.rules.specs.Rows.{one_place, no_argument, form_row, row_of, row_in, kind_taken, accepts};
ghost use Rattle.rules.specs.declared.Code.TheVariants.{Opens};

use rules::limits::{MOST_CHARACTER, MOST_NUMBER};
use rules::{
    Bracket, Code, Directive, Form, Kinds, Modifiers, Origin, Place, Places, Plainness, Row,
};

// The tags of kinds.
// Numbers and no enum: `takes_kind` answers for every number, and an enum would ask more of its callers.
const INTEGER: usize = 1;

const CHARACTER: usize = 2;

const LIST: usize = 4;

const ANY_NUMBER: Place = Place::Number {
    least: 0,
    most: MOST_NUMBER,
};

const COUNTING_NUMBER: Place = Place::Number {
    least: 1,
    most: MOST_NUMBER,
};

const CHARACTER_NUMBER: Place = Place::Number {
    least: 0,
    most: MOST_CHARACTER,
};

const NO_PLACES: Places = Places {
    count: 0,
    first: Place::Empty,
    second: Place::Empty,
    third: Place::Empty,
    fourth: Place::Empty,
    fifth: Place::Empty,
};

fn one_place(only: Place) -> Places
    ensures { result ≡ one_place only }
{
    Places {
        count: 1,
        first: only,
        ..NO_PLACES
    }
}

// A directive that takes no argument by itself.
fn no_argument(places: Places, modifiers: Modifiers, plainness: Plainness) -> Row
    ensures { result ≡ no_argument places modifiers plainness }
{
    Row {
        places,
        modifiers,
        kinds: Kinds::Any,
        origin: Origin::Nowhere,
        plainness,
    }
}

// A directive that writes.
pub fn form_row(f: Form) -> Row
    ensures { result ≡ form_row f }
{
    match f {
        Form::Object(_) => Row {
            places: Places {
                count: 4,
                first: ANY_NUMBER,
                second: COUNTING_NUMBER,
                third: ANY_NUMBER,
                fourth: Place::Character,
                ..NO_PLACES
            },
            modifiers: Modifiers::At,
            kinds: Kinds::NoList,
            origin: Origin::Next,
            plainness: Plainness::Plain,
        },
        Form::Numeral(_) => Row {
            places: Places {
                count: 4,
                first: ANY_NUMBER,
                second: Place::Character,
                third: Place::Character,
                fourth: COUNTING_NUMBER,
                ..NO_PLACES
            },
            modifiers: Modifiers::Any,
            kinds: Kinds::Integer,
            origin: Origin::Next,
            plainness: Plainness::Plain,
        },
        Form::Glyph => Row {
            places: one_place(CHARACTER_NUMBER),
            modifiers: Modifiers::Either,
            kinds: Kinds::Character,
            origin: Origin::NextOrNumber,
            plainness: Plainness::Plain,
        },
        Form::Plural => Row {
            places: NO_PLACES,
            modifiers: Modifiers::Any,
            kinds: Kinds::Any,
            origin: Origin::NextOrBack,
            plainness: Plainness::Plain,
        },
        Form::Repeat(_) => no_argument(one_place(ANY_NUMBER), Modifiers::Neither, Plainness::Plain),
        Form::Fold => no_argument(NO_PLACES, Modifiers::Either, Plainness::Plain),
    }
}

fn opener_row(bracket: Bracket, modified: bool) -> Row
    ensures { result ≡ row_of (Opens bracket) modified }
{
    match bracket {
        // a place only without a modifier
        Bracket::Conditional => no_argument(
            if modified {
                NO_PLACES
            } else {
                one_place(ANY_NUMBER)
            },
            Modifiers::Either,
            Plainness::Conditional,
        ),
        Bracket::Iteration => no_argument(one_place(ANY_NUMBER), Modifiers::At, Plainness::Never),
    }
}

// Any directive, by its code and whether a modifier is written.
pub fn row_of(code: Code, modified: bool) -> Row
    ensures { result ≡ row_of code modified }
{
    match code {
        Code::Writes(f) => form_row(f),
        Code::Jump => no_argument(one_place(ANY_NUMBER), Modifiers::Either, Plainness::Never),
        Code::Escape => no_argument(NO_PLACES, Modifiers::Neither, Plainness::Never),
        Code::Opens(bracket) => opener_row(bracket, modified),
        Code::Separator => no_argument(NO_PLACES, Modifiers::Colon, Plainness::Plain),
        Code::Closes(_) => no_argument(NO_PLACES, Modifiers::Neither, Plainness::Plain),
        Code::Unknown => no_argument(NO_PLACES, Modifiers::Any, Plainness::Plain),
    }
}

pub fn row_in(d: Directive) -> Row
    ensures { result ≡ row_in d }
{
    row_of(d.code, d.colon || d.atsign)
}

fn kind_taken(kinds: Kinds, kind: usize) -> bool
    ensures { result ≡ kind_taken kinds kind }
{
    match kinds {
        Kinds::Any => true,
        Kinds::NoList => kind != LIST,
        Kinds::Integer => kind == INTEGER,
        Kinds::Character => kind == CHARACTER,
    }
}

// Whether a directive that writes takes an argument of a kind, given by its tag.
pub fn takes_kind(f: Form, kind: usize) -> bool
    ensures { result ≡ accepts f kind }
{
    kind_taken(form_row(f).kinds, kind)
}
