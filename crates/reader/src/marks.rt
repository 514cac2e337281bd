// Marks: the directives that open, part and close blocks, where no parameter is written. Nearly all that stand in texts
// are so written. They are known by two or three bytes, which is much faster than to read a `Directive`.
ghost use Rattle.std.specs.Prelude.{◌≡◌, ◌+◌, ◌≤◌};
ghost use Rattle.reader.specs.Marks.{mark_at, mark_size, closes_at};

use crate::directive::byte_at;

#[derive(Clone, Copy, Debug, PartialEq, Eq)]
pub enum Mark {
    // ~;
    Separator,
    // ~]
    EndConditional,
    // ~}
    EndIteration,
    // ~[
    Numbered,
    // ~:[
    TwoClauses,
    // ~@[
    OneClause,
    // ~{
    OverList,
    // ~@{
    OverArguments,
}

// The mark at p, if one stands there. Put in place where it is called, as skip_short is: clauses are gone over by the two,
// and as calls they take up to twice as long (measured).
#[inline(always)]
#[tactic(auto, unfolding(crate::specs::Marks::mark_of))]
pub fn mark_at(text: &[u8], p: usize) -> Option<Mark>
    ensures { result ≡ mark_at text.now p }
{
    if byte_at(text, p) != b'~' {
        return None;
    }
    match byte_at(text, p + 1) {
        b';' => Some(Mark::Separator),
        b']' => Some(Mark::EndConditional),
        b'}' => Some(Mark::EndIteration),
        b'[' => Some(Mark::Numbered),
        b'{' => Some(Mark::OverList),
        b':' => match byte_at(text, p + 2) {
            b'[' => Some(Mark::TwoClauses),
            _ => None,
        },
        b'@' => match byte_at(text, p + 2) {
            b'[' => Some(Mark::OneClause),
            b'{' => Some(Mark::OverArguments),
            _ => None,
        },
        _ => None,
    }
}

// Where the text goes on after a mark at p.
pub fn after_mark(mark: Mark, p: usize) -> usize
    requires { p + 3 ≤ 18446744073709551615 }
    ensures { result ≡ p + mark_size mark }
{
    match mark {
        Mark::TwoClauses | Mark::OneClause | Mark::OverArguments => p + 3,
        _ => p + 2,
    }
}

// Whether the text ends at p, or ~; ~] or ~} stands there.
pub fn closes_at(text: &[u8], p: usize) -> bool
    ensures { result ≡ closes_at text.now p }
{
    text.len() <= p || text[p] == b'~' && matches!(byte_at(text, p + 1), b';' | b']' | b'}')
}
