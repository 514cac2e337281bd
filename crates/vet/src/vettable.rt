// Which formats a vet takes: those that are plain but for their conditionals.
ghost use Rattle.std.specs.Prelude.{◌≡◌, true, not, ◌<◌};
ghost use Rattle.rules.specs.Choice.{both};
ghost use Rattle.rules.specs.Rows.{in_order};
ghost use Rattle.rules.specs.Text.{place_after};
ghost use Rattle.rules.specs.Verdict.{verdict_as};
ghost use Rattle.vet_rules.specs.Plain.{plain_code, is_next, none_next, plain_item, vettable_verdict};

use directives::rows::row_of;
use reader::directive::item_at;
use rules::refusal::{Fault, Refusal};
use rules::{Code, Directive, Item, Parameter, Plainness};

fn is_vettable_code(code: Code) -> bool
    ensures { result ≡ plain_code true code }
{
    matches!(
        row_of(code, false).plainness,
        Plainness::Plain | Plainness::Conditional
    )
}

// The parameter is no `v`.
fn is_fixed(x: Parameter) -> bool
    ensures { result ≡ not (is_next x) }
{
    !matches!(x, Parameter::Next)
}

fn is_vettable_directive(d: Directive) -> bool
    ensures { result ≡ both (plain_code true d.code) (none_next (in_order d.parameters)) }
{
    let ps = d.parameters;
    is_vettable_code(d.code)
        && is_fixed(ps.first)
        && is_fixed(ps.second)
        && is_fixed(ps.third)
        && is_fixed(ps.fourth)
        && is_fixed(ps.fifth)
}

#[tactic(auto, unfolding(vet_rules::specs::Plain::plain_item))]
fn is_vettable(item: Item) -> bool
    ensures { result ≡ plain_item true item }
{
    match item {
        Item::Written(d) => is_vettable_directive(d),
        _ => true,
    }
}

// Where the text goes on after an item at p.
pub fn place_after(item: Item, p: usize) -> usize
    requires { p < 18446744073709551615 }
    ensures { result ≡ place_after p item }
{
    match item {
        Item::End => p,
        Item::Written(d) => d.after,
        Item::Literal(_) | Item::BadNumber | Item::Unfinished => p + 1,
    }
}

// The first tilde that no vet takes. How long an item is shows only when it is read: no `for` steps over them.
pub fn check_vettable(format: &[u8]) -> Result<(), Fault>
    ensures { verdict_as result ≡ vettable_verdict format.now }
{
    let mut p = 0;
    while p < format.len() {
        let item = item_at(format, p);
        if !is_vettable(item) {
            return Err(Fault {
                refusal: Refusal::NotPlain,
                position: p,
            });
        }
        p = place_after(item, p);
    }
    Ok(())
}
