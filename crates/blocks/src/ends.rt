// Which items end a sequence, and which codes open a block.
ghost use Rattle.std.specs.Prelude.{◌≡◌};
ghost use Rattle.blocks.specs.Parts.{ends_sequence, ends_at, ElementAt, opens_block, iterates};

use reader::directive::item_at;
use reader::marks::closes_at;
use rules::{Bracket, Code, Item};

// Whether a code ends the sequence in which it stands.
fn is_end(code: Code) -> bool
    ensures { result ≡ ends_sequence code }
{
    matches!(code, Code::Separator | Code::Closes(_) | Code::Unknown)
}

pub fn ends_here(item: Item) -> bool
    ensures { result ≡ ends_at item }
{
    match item {
        Item::End | Item::BadNumber | Item::Unfinished => true,
        Item::Literal(_) => false,
        Item::Written(d) => is_end(d.code),
    }
}

// The item at p. Where a clause or a block closes without parameters it is said to be the end of the text: most sequences
// end so, which is seen without reading an item.
pub fn element_at(text: &[u8], p: usize) -> Item
    ensures { ElementAt text.now p result }
{
    if closes_at(text, p) {
        return Item::End;
    }
    item_at(text, p)
}

// Whether a directive opens a block.
pub fn opens_block(code: Code) -> bool
    ensures { result ≡ opens_block code }
{
    matches!(code, Code::Opens(_))
}

pub fn is_iteration(code: Code) -> bool
    ensures { result ≡ iterates code }
{
    matches!(code, Code::Opens(Bracket::Iteration))
}
