// What may be asked of a vet.
ghost use Rattle.std.specs.Prelude.{◌≡◌, leb};
ghost use Rattle.std.specs.List.{list_all};
ghost use Rattle.vet_rules.specs.Vet.{may_ask};

use rules::limits::{LAST_KIND, LONGEST_STRING, MOST_ENTRIES};

// No kind has an unknown tag.
fn are_known(kinds: &[u8]) -> bool
    ensures { result ≡ list_all (λ kind. leb kind 4) kinds.now }
{
    kinds.iter().all(|kind| *kind <= LAST_KIND)
}

// There are no more than 1,024 kinds, all known, and no string longer than 4,096 bytes is asked for.
#[tactic(auto, using(crate::proofs::Asks::known_all))]
pub fn may_ask(kinds: &[u8], longest: usize) -> bool
    ensures { result ≡ may_ask kinds.now longest }
{
    kinds.len() <= MOST_ENTRIES && are_known(kinds) && longest <= LONGEST_STRING
}
