// Which parameters and modifiers a directive takes.
ghost use Rattle.std.specs.Prelude.{◌≡◌, true};
ghost use Rattle.rules.specs.Directive.{no_parameters};
ghost use Rattle.rules.specs.Rows.{takes as takes_of, suits as suits_in, fit_into, places_in, well_written};
ghost use Rattle.rules.specs.declared.Parameter.TheVariants.{Default};

use crate::rows::row_in;
use rules::{Directive, Modifiers, Parameter, Parameters, Place, Places};

fn suits(place: Place, x: Parameter) -> bool
    ensures { result ≡ suits_in place x }
{
    match place {
        Place::Empty => matches!(x, Parameter::Default),
        Place::Number { least, most } => match x {
            Parameter::Number(n) => least <= n && n <= most,
            Parameter::Character(_) => false,
            Parameter::Default | Parameter::Next | Parameter::Remaining => true,
        },
        Place::Character => matches!(
            x,
            Parameter::Default | Parameter::Character(_) | Parameter::Next
        ),
    }
}

// The parameters are no more than there are places, and each suits its own. Each is asked before any answer is looked at:
// that takes fewer instructions than a branch after each (measured).
fn fits_into(places: Places, ps: Parameters) -> bool
    ensures { result ≡ fit_into places ps }
{
    let first = suits(places.first, ps.first);
    let second = suits(places.second, ps.second);
    let third = suits(places.third, ps.third);
    let fourth = suits(places.fourth, ps.fourth);
    let fifth = suits(places.fifth, ps.fifth);
    ps.count <= places.count && first && second && third && fourth && fifth
}

fn takes(modifiers: Modifiers, colon: bool, atsign: bool) -> bool
    ensures { result ≡ takes_of modifiers colon atsign }
{
    match modifiers {
        Modifiers::Neither => !(colon || atsign),
        Modifiers::Colon => !atsign,
        Modifiers::At => !colon,
        Modifiers::Either => !(colon && atsign),
        Modifiers::Any => true,
    }
}

fn is_default(x: Parameter) -> bool
    ensures { result ≡ true → x ≡ Default }
{
    matches!(x, Parameter::Default)
}

// Whether no parameter is written. `&`, not `&&`: the five are asked at once, in fewer instructions (measured).
pub fn is_bare(ps: Parameters) -> bool
    ensures { result ≡ true → ps ≡ no_parameters }
{
    ps.count == 0
        && (is_default(ps.first)
            & is_default(ps.second)
            & is_default(ps.third)
            & is_default(ps.fourth)
            & is_default(ps.fifth))
}

// No parameter is wrong. Most directives that are not short have none: then no place is looked up, at half the cost.
#[tactic(auto, using(crate::proofs::Tests::bare_fits))]
fn fits_places(d: Directive) -> bool
    ensures { result ≡ fit_into (places_in d) d.parameters }
{
    is_bare(d.parameters) || fits_into(row_in(d).places, d.parameters)
}

// No parameter or modifier is wrong.
#[tactic(auto, unfolding(rules::specs::Rows::well_written))]
pub fn is_well_written(d: Directive) -> bool
    ensures { result ≡ well_written d }
{
    takes(row_in(d).modifiers, d.colon, d.atsign) && fits_places(d)
}
