// Prints what `planner::plan` answers to each sheet of standard input, and what it leaves in the buffer that it is
// lent, a line for each.
//
// A sheet comes in a frame (see `gate_frames`), with the length of the buffer in 2 bytes after it. A frame that is
// cut short, or that asks for a buffer of more than 400 bytes, ends the run.
//
// Before a plan, the byte at place i of the buffer is the last byte of 7 i + 3.
//
// The line of a plan is `plan`, low and gap. That of a refusal is `refused`, the number and the place. Then comes
// every byte of the buffer, in two hexadecimal digits: the record, and the bytes that must stay as lent.
//
// `tests/gate_plan` makes the frames, and works out with `tests/solver` what is to be printed.
#![tactic(auto)]

use gate_frames::{Frame, Hex, INPUT, Refused, fill, read_frames, write_line};
use rules::{PlanFigures, Refusal};
use std::io::{Cursor, Print, Write};

// The longest buffer. The longest record has 342 bytes (T6.2).
const LENT: usize = 400;

// The room for a line. A line takes less than 900 bytes.
const ROOM: usize = 1024;

// Writes the line of a sheet.
fn show_plan(line: &mut impl Write, answer: Result<PlanFigures, Refusal>, buffer: &[u8]) {
    let left = Hex(buffer);
    let _ = match answer {
        Ok(PlanFigures { low, gap }) => writeln!(line, "plan {low} {gap} {left}"),
        Err(refusal) => writeln!(line, "{} {left}", Refused(refusal)),
    };
}

// Plans a sheet, and prints its line, by one write: `println!` takes a line byte by byte.
fn print_plan(output: &impl Print, sheet: &[u8], buffer: &mut [u8]) {
    fill(buffer);
    let mut room = [0u8; ROOM];
    let mut line = Cursor::new(&mut room[..]);
    show_plan(&mut line, planner::plan(sheet, buffer), buffer);
    let end = line.position() as usize;
    write_line(output, &room, end);
}

// Lends a buffer to the plan of a sheet. There is none where the frame asks for a longer one.
// `gate_mps` does so with another room and another call: a function that takes the two is no plainer.
fn print_frame(output: &impl Print, frame: &Frame<2>) -> Option<()> {
    let mut room = [0u8; LENT];
    let lent = usize::from(u16::from_le_bytes(*frame.after));
    print_plan(output, frame.sheet, room.get_mut(..lent)?);
    Some(())
}

fn main(rt: HostRuntime) {
    let mut room = [0u8; INPUT];
    for frame in read_frames(&mut rt.stdin(), &mut room) {
        if print_frame(&rt.stdout(), &frame).is_none() {
            return;
        }
    }
}
