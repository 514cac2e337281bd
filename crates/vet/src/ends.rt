// Where the ways through a conditional end.
ghost use Rattle.std.specs.Prelude.{◌≡◌, ◌≤◌};
ghost use Rattle.vet_rules.specs.Ways.{meeting, with_none};

use rules::{ArgumentPosition, Directive};
use vet_rules::{Ends, Reach};

// One way more.
#[tactic(auto, using(vet_rules::proofs::Padding::larger_max), unfolding(vet_rules::specs::Ways::meeting))]
pub fn meet(ends: Ends, way: Reach) -> Ends
    ensures { result ≡ meeting ends way.next.0 way.size }
{
    match ends {
        Ends::Nowhere => Ends::Equal {
            next: way.next,
            size: way.size,
        },
        Ends::Equal { next, size } if next == way.next => Ends::Equal {
            next,
            size: size.max(way.size),
        },
        _ => Ends::Unequal,
    }
}

// The way by which the block d runs none of its clauses, the last of which stands after a ~:; with true.
pub fn with_none(d: Directive, fallback: bool, start: ArgumentPosition, ends: Ends) -> Ends
    requires { start.0 ≤ 1024 }
    ensures { result ≡ with_none d fallback start.0 ends }
{
    if d.colon {
        return ends;
    }
    if d.atsign {
        return meet(
            ends,
            Reach {
                next: ArgumentPosition(start.0 + 1),
                size: 0,
            },
        );
    }
    if fallback {
        return ends;
    }
    meet(
        ends,
        Reach {
            next: start,
            size: 0,
        },
    )
}
