// Where a run stands, and how it stops.
ghost use Rattle.std.specs.Prelude.{◌≡◌, ◌<◌};
ghost use Rattle.actions.specs.Ran.{refused_ran, ended_ran, begun};

use parameters::Hand;
use rules::ArgumentPosition;
use rules::refusal::{Fault, Refusal};

// How the run of a sequence stops: at its end, at an escape that leaves it, or refused. Three cases, by which the laws of
// flows go: a Result would ask for the escape inside it.
#[derive(Clone, Copy, PartialEq, Eq, Debug)]
pub enum Stop {
    Ended,
    Escaped,
    Refused(Fault),
}

// A run that stopped: the next argument, the steps that are left and the end of what is written, and the place of the
// text where it goes on or ended.
#[derive(Clone, Copy, PartialEq, Eq, Debug)]
pub struct Ran {
    pub stop: Stop,
    pub next: ArgumentPosition,
    pub left: usize,
    pub at: usize,
    pub place: usize,
}

// A directive that is met or begun: its position, the place after it, the steps that are left and the end of what is
// written.
#[derive(Clone, Copy, PartialEq, Eq, Debug)]
pub struct Spot {
    pub position: usize,
    pub place: usize,
    pub left: usize,
    pub at: usize,
}

// What a run goes on with: the arguments in hand with the next of them, the steps that are left and the end of what is
// written.
#[derive(Clone, Copy)]
pub struct Stand {
    pub hand: Hand,
    pub next: ArgumentPosition,
    pub left: usize,
    pub at: usize,
}

impl Spot {
    // Refused here, with nothing more written.
    pub fn refuse(self, refusal: Refusal, next: ArgumentPosition) -> Ran
        ensures { result ≡ refused_ran refusal self.position next.0 self.left self.at self.place }
    {
        Ran {
            stop: Stop::Refused(Fault {
                refusal,
                position: self.position,
            }),
            next,
            left: self.left,
            at: self.at,
            place: self.place,
        }
    }

    // A directive for which a step is left, begun: that step is done.
    pub fn begin(self) -> Spot
        requires { 0 < self.left }
        ensures { result ≡ begun self }
    {
        Spot {
            left: self.left - 1,
            ..self
        }
    }

    // On to the place after the directive, with so much written.
    pub fn go_on(self, next: ArgumentPosition, at: usize) -> Ran
        ensures { result ≡ ended_ran next.0 self.left at self.place }
    {
        Ran {
            stop: Stop::Ended,
            next,
            left: self.left,
            at,
            place: self.place,
        }
    }
}
