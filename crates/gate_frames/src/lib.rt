// What the programs of the gate share: the frames of their input; what they lend, and how they show what comes back
// (`shown`); and the writing of a line.
//
// A sheet comes in a frame: its length in 2 bytes, little-endian; its bytes; and as many bytes more as the program
// wants.
#![tactic(auto)]

ghost use Rattle.std.specs.Prelude.{◌≡◌, ◌+◌, ◌-◌, ◌<◌, ◌≤◌, length, IfSome};
ghost use Rattle.std.specs.Iterator.{at_most};
ghost use Rattle.gate_frames.specs.Frames.{frame_at};
ghost use Rattle.gate_frames.specs.Next.{NextFrame};

mod shown;

use bytes_read::size_at;
use filter::{ReadFailed, read_input};
pub use shown::{Hex, Refused, fill};
use std::io::{Print, Read};
use std::ops::Range;

// The room for the input.
pub const INPUT: usize = 65536;

// for a program that finds frames by their places: where the sheet lies of the frame that begins at a place of the
// input, with `after` bytes after the sheet. A frame that is cut short is none.
pub fn frame_at(input: &[u8], at: usize, after: usize) -> Option<Range<usize>>
    ensures found { result ≡ frame_at input.now at after }
    ensures inside { IfSome result (λ sheet. (sheet.start ≤ sheet.end) × (sheet.end + after ≤ length input.now)) }
    ensures passed { IfSome result (λ sheet. at < sheet.end) }
{
    if input.len() < at {
        return None;
    }
    if input.len() - at < 2 {
        return None;
    }
    let start = at + 2;
    let size = size_at(input, at);
    if input.len() - start < size {
        return None;
    }
    let end = start + size;
    if input.len() - end < after {
        return None;
    }
    Some(start..end)
}

// A sheet, and the bytes after it in its frame.
#[derive(Drop)]
pub struct Frame<'a, const AFTER: usize> {
    pub sheet: &'a [u8],
    pub after: &'a [u8; AFTER],
}

// The frames of an input from a place on. The first that is cut short ends them.
#[derive(Drop)]
pub struct Frames<'a, const AFTER: usize> {
    input: &'a [u8],
    at: usize,
}

impl<'a, const AFTER: usize> Iterator for Frames<'a, AFTER> {
    type Item = Frame<'a, AFTER>;

    ghost next_gives = { λ s r t. NextFrame AFTER s.input.now s.at r t.input.now t.at };

    ghost remaining = { λ s. at_most (length s.input.now - s.at) };

    fn next(&mut self) -> Option<Frame<'a, AFTER>> {
        let sheet = frame_at(self.input, self.at, AFTER)?;
        let after = self.input[sheet.end..].first_chunk()?;
        self.at = sheet.end + AFTER;
        Some(Frame {
            sheet: &self.input[sheet],
            after,
        })
    }
}

// The frames of an input, which is read into the room: to its end, or until the room is full or a read fails.
// The six programs loop over them by a `for` of one call: a function that takes the call is no plainer.
pub fn read_frames<'a, const AFTER: usize>(
    input: &mut impl Read,
    room: &'a mut [u8],
) -> Frames<'a, AFTER>
    ensures begins { result.at ≡ 0 }
    ensures within { length result.input.now ≤ length room.old }
{
    let filled = read_input(input, room).unwrap_or_else(|ReadFailed { filled }| filled);
    Frames {
        input: &room[..filled],
        at: 0,
    }
}

// Writes a line that ends before a place to standard output. One that would end past its room is not written, so that
// the end stands beside the line: a slice would not let that be said (must-fail/line_past_its_room).
pub fn write_line(output: &impl Print, line: &[u8], end: usize) {
    if end <= line.len() {
        let _ = output.write_all(&line[0..end]);
    }
}
