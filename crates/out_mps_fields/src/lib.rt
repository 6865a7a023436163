// Parts of a line of a free MPS text (T14.2), put at the end of a text.
#![tactic(auto)]

ghost use Rattle.std.specs.Prelude.{[], ◌∷◌, ◌++◌, pos};
ghost use Rattle.rules.specs.Listing.{decimal};
ghost use Rattle.rules_mps.specs.Mps.{fields};
ghost use Rattle.out_text.specs.Grows.{Grows};

use out_numbers::{put_integer, put_number};
use out_text::Text;

// What stands before the number of a name, and the number.
// To u64 by `as`, since usize has no `From` to it, and a `TryFrom` that cannot fail is no plainer.
pub fn put_name(text: &mut Text, front: &[u8], number: usize)
    ensures { Grows (front.now ++ decimal (pos number)) text.old text.new }
{
    text.put_bytes(front);
    put_number(text, number as u64);
}

// The last field of a line, a figure.
pub fn put_last(text: &mut Text, figure: i64)
    ensures { Grows (fields (decimal figure ∷ [])) text.old text.new }
{
    text.put_byte(b' ');
    put_integer(text, figure);
    text.put_byte(b'\n');
}
