// Prints what `out_mps::write_mps` answers to each sheet of standard input, and what it leaves in the buffer that it is
// lent.
//
// A sheet comes in a frame (see `gate_frames`), with the length of the buffer in 2 bytes after it. A frame that is cut
// short, or that asks for a buffer of more than 9,300 bytes, ends the run.
//
// For each sheet there is a line with the answer: `wrote` and the length, or `refused`, the number and the place. Then
// come all bytes of the buffer as they are, the text and the bytes that must stay as lent, and a newline. A lent byte
// is a full stop.
//
// `tests/gate_mps` makes the frames, and works out with `tests/solver` what is to be printed.
#![tactic(auto)]

use gate_frames::{Frame, INPUT, Refused, read_frames};
use out_mps::write_mps;
use std::io::Print;

// The longest buffer. The longest text has 9,248 bytes (T14.7).
const LENT: usize = 9300;

// Writes the text of a sheet to a buffer, and prints the answer and the buffer.
fn print_text(output: &impl Print, sheet: &[u8], buffer: &mut [u8]) {
    let _ = match write_mps(sheet, buffer) {
        Ok(length) => println!(output; "wrote {length}"),
        Err(refusal) => println!(output; "{}", Refused(refusal)),
    };
    let _ = output.write_all(buffer);
    let _ = output.write_all(b"\n");
}

// Lends a buffer to the text of a sheet. There is none where the frame asks for a longer one.
// `gate_plan` does so with another room and another call: a function that takes the two is no plainer.
fn print_frame(output: &impl Print, frame: &Frame<2>) -> Option<()> {
    let mut room = [b'.'; LENT];
    let lent = usize::from(u16::from_le_bytes(*frame.after));
    print_text(output, frame.sheet, room.get_mut(..lent)?);
    Some(())
}

fn main(rt: HostRuntime) {
    let mut room = [0u8; INPUT];
    for frame in read_frames(&mut rt.stdin(), &mut room) {
        if print_frame(&rt.stdout(), &frame).is_none() {
            return;
        }
    }
}
