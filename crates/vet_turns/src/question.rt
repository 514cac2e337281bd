// What a vet is asked of its arguments.
ghost use Rattle.std.specs.Prelude.{◌≡◌, ◌+◌, ◌-◌, ◌≤◌, ◌<◌, length, MatchResult};
ghost use Rattle.rules.specs.declared.refusal.Refusal.TheVariants.{NoArgument};
ghost use Rattle.vet_rules.specs.Turns.{kind_in};
ghost use Rattle.vet_rules.specs.Vet.{Asked};

use rules::ArgumentPosition;
use rules::refusal::Refusal;

// A kind of argument, by its tag.
#[derive(Clone, Copy, Debug, PartialEq, Eq)]
pub enum Kind {
    Boolean,
    Integer,
    Character,
    Text,
    Entries,
}

// The tag of the next argument's kind, and the argument after it.
pub fn take_tag(kinds: &[u8], next: ArgumentPosition) -> Result<(u8, ArgumentPosition), Refusal>
    ensures { MatchResult result (λ taken. (next.0 < length kinds.now) × (taken.0 ≡ kind_in kinds.now next.0) × (taken.1.0 ≡ next.0 + 1)) (λ e. (e ≡ NoArgument) × (length kinds.now ≤ next.0)) }
{
    if next.0 < kinds.len() {
        Ok((kinds[next.0], ArgumentPosition(next.0 + 1)))
    } else {
        Err(Refusal::NoArgument)
    }
}

// The kinds of the arguments, as C gives them: 1,024 at the most, and all known; and how long a string is at the most.
#[derive(Clone, Copy)]
pub struct Question<'a> {
    pub kinds: &'a [u8],
    pub longest: usize,
    pub ghost asked: { Asked kinds.now longest },
}

impl Question<'_> {
    ghost use Rattle.vet_turns.specs.Kinds.{tag_of_kind};

    // The kind of an argument that there is.
    fn kind_at(&self, i: usize) -> Kind
        requires { i < length self.now.kinds.now }
        ensures { tag_of_kind result ≡ kind_in self.now.kinds.now i }
    {
        match self.kinds[i] {
            0 => Kind::Boolean,
            1 => Kind::Integer,
            2 => Kind::Character,
            3 => Kind::Text,
            _ => Kind::Entries,
        }
    }

    // The kind of the next argument, and the argument after it.
    pub fn take(&self, next: ArgumentPosition) -> Result<(Kind, ArgumentPosition), Refusal>
        ensures { MatchResult result (λ taken. (next.0 < length self.now.kinds.now) × (tag_of_kind taken.0 ≡ kind_in self.now.kinds.now next.0) × (taken.1.0 ≡ next.0 + 1)) (λ e. (e ≡ NoArgument) × (length self.now.kinds.now ≤ next.0)) }
    {
        let (_, after) = take_tag(self.kinds, next)?;
        Ok((self.kind_at(next.0), after))
    }

    // The kind of the argument before the next one.
    pub fn back(&self, next: ArgumentPosition) -> Result<Kind, Refusal>
        requires { next.0 ≤ length self.now.kinds.now }
        ensures { MatchResult result (λ kind. (0 < next.0) × (tag_of_kind kind ≡ kind_in self.now.kinds.now (next.0 - 1))) (λ e. (e ≡ NoArgument) × (next.0 ≡ 0)) }
    {
        if next.0 == 0 {
            Err(Refusal::NoArgument)
        } else {
            Ok(self.kind_at(next.0 - 1))
        }
    }
}
