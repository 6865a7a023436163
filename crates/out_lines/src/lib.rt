// Lines of a listing (T8.3), put at the end of a text or as the whole of one.
#![tactic(auto)]

ghost use Rattle.std.specs.Prelude.{◌++◌, ◌≤◌, pos, length};
ghost use Rattle.rules.specs.Refusals.{numbered};
ghost use Rattle.rules.specs.Listing.{text as ascii, decimal, spaced, refusal_text};
ghost use Rattle.out_text.specs.Grows.{Grows};
ghost use Rattle.out_lines.specs.Lines.{line_of, Begins};

use out_numbers::{put_integer, put_number};
use out_text::Text;
use rules::Refusal;

// A space and a number.
fn put_figure(text: &mut Text, v: i64)
    ensures { Grows (ascii " " ++ decimal v) text.old text.new }
{
    text.put_byte(b' ');
    put_integer(text, v);
}

// Numbers, each after one space.
fn put_figures(text: &mut Text, figures: &[i64])
    ensures { Grows (spaced figures.now) text.old text.new }
{
    for figure in figures {
        put_figure(text, *figure);
    }
}

// A line: a word, its numbers, and a newline.
pub fn put_line(text: &mut Text, word: &[u8], figures: &[i64])
    ensures { Grows (line_of word.now figures.now) text.old text.new }
{
    text.put_bytes(word);
    put_figures(text, figures);
    text.put_byte(b'\n');
}

// A space and a number that is not negative. It has at most 20 digits.
// To u64 by `as`, since usize has no `From` to it, and a `TryFrom` that cannot fail is no plainer.
fn put_size(text: &mut Text, v: usize)
    ensures puts { Grows (ascii " " ++ decimal (pos v)) text.old text.new }
    ensures v_len_bound { length (decimal (pos v)) ≤ 20 }
{
    text.put_byte(b' ');
    put_number(text, v as u64);
}

// The line of a refusal, as the whole of a text. It answers the text's length.
pub fn put_refusal(out: &mut [u8], refusal: Refusal) -> usize
    ensures { Begins (refusal_text (numbered refusal)) out.old out.new result }
{
    let mut line = Text { bytes: out, end: 0 };
    let cause = refusal.cause;
    line.put_bytes(b"refused");
    put_size(&mut line, usize::from(cause));
    put_size(&mut line, refusal.place);
    line.put_byte(b'\n');
    line.end
}
