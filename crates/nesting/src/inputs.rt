// What a run reads.
ghost use Rattle.std.specs.Prelude.{◌≡◌};
ghost use Rattle.rules.specs.Table.{table_verdict};
ghost use Rattle.rules.specs.Verdict.{Accepted};

use blocks::landmarks::Landmark;

// A text, an array of its landmarks, and a table that is accepted. That the landmarks are the text's is asked where they
// are used: a ghost field holds no equation of sequences.
#[derive(Clone, Copy)]
pub struct Inputs<'a> {
    pub text: &'a [u8],
    pub marks: &'a [Landmark],
    pub table: &'a [u8],
    pub ghost accepted: { table_verdict table.now ≡ Accepted },
}
