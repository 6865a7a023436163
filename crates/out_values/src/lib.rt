// Lines of single figures of a record: the step count, and the values of 8 bytes. Each is put at the end of a text.
// They are read as another kind of number each, and one function for both is no plainer.
#![tactic(auto)]

ghost use Rattle.std.specs.Prelude.{[], ◌∷◌};
ghost use Rattle.rules.specs.Bytes.{signed_at};
ghost use Rattle.rules.specs.Record.{steps_at};
ghost use Rattle.bytes_read.specs.Inside.{Inside};
ghost use Rattle.out_text.specs.Grows.{Grows};
ghost use Rattle.out_lines.specs.Lines.{line_of};
ghost use Rattle.out_values.specs.StepsLine.{steps_line};

use bytes_read::{signed_at, size_at};
use out_layout::STEPS_AT;
use out_lines::put_line;
use out_text::Text;

// The line of the step count.
// To i64 by `as`, since usize has no `From` to it, and a `TryFrom` that cannot fail is no plainer.
pub fn put_steps(text: &mut Text, record: &[u8])
    requires { Inside 2 «record».now steps_at }
    ensures { Grows (steps_line «record».now) text.old text.new }
{
    let figures = [size_at(record, STEPS_AT) as i64];
    put_line(text, b"steps", &figures);
}

// The line of a word and the figure of 8 bytes at a place of the record.
pub fn put_value(text: &mut Text, word: &[u8], record: &[u8], place: usize)
    requires { Inside 8 «record».now place }
    ensures { Grows (line_of word.now (signed_at 8 «record».now place ∷ []))
        text.old text.new }
{
    let figures = [signed_at(record, place, 8)];
    put_line(text, word, &figures);
}
