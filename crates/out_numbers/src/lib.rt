// Numbers in decimal (T8.3), put at the end of a text that grows in lent bytes (`out_text`).
#![tactic(auto)]

ghost use Rattle.std.specs.Prelude.{◌≡◌, length, set, pos};
ghost use Rattle.rules.specs.Listing.{decimal};
ghost use Rattle.out_text.specs.Grows.{Grows};

use out_text::Text;

// How many digits v has.
fn places(v: u64) -> usize
    ensures { result ≡ length (decimal (pos v)) }
{
    match v.checked_ilog10() {
        Some(last) => last as usize + 1,
        None => 1,
    }
}

// One byte at a place, where there is such a place. The library's `get_mut` says nothing of what the bytes end as.
fn set_byte(bytes: &mut [u8], place: usize, byte: u8)
    ensures { bytes.new ≡ set bytes.old place byte }
{
    if place < bytes.len() {
        bytes[place] = byte;
    }
}

// A number in decimal. Its digits are worked out from the last one on, and go to their places. Where the text ends past
// the bytes already, none has a place, and its end may be too large to add to.
// `as` is to types that a digit fits: a `TryFrom` that cannot fail is no plainer.
// By hand: the kit's `itoa`, whose digits are then copied, takes twice as long (docs/DECISIONS.md, section 6).
pub fn put_number(text: &mut Text, v: u64)
    ensures { Grows (decimal (pos v)) text.old text.new }
{
    let at = text.end;
    if text.bytes.len() <= at {
        return;
    }
    let end = at + places(v);
    let mut left = v;
    for place in (at..end).rev() {
        set_byte(text.bytes, place, b'0' + (left % 10) as u8);
        left /= 10;
    }
    text.end = end.min(text.bytes.len());
}

// A number with its sign, in decimal.
pub fn put_integer(text: &mut Text, v: i64)
    ensures { Grows (decimal v) text.old text.new }
{
    if v.is_negative() {
        text.put_byte(b'-');
    }
    put_number(text, v.unsigned_abs());
}
