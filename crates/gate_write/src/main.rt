// Prints what `sheet_write::write_sheet` answers to each case of standard input, and what it leaves in the buffer that
// it is lent, a line for each.
//
// A case comes in a frame (see `gate_frames`) with nothing after it. Its numbers are little-endian: the sizes n, m, p,
// D and k, of 4 bytes each; how many figures there are of costs, least amounts, most amounts, a, b and starts, and the
// length of the buffer, of 2 bytes each; and the figures, array after array, of 4 bytes each, with a sign.
//
// A frame that is cut short ends the run. So does a case that is shorter than what it says it has, that has more than
// 1,024 figures in all, or that asks for a buffer of more than 4,096 bytes.
//
// Before a case, the byte at place i of the buffer is the last byte of 7 i + 3.
//
// The line of a sheet is `wrote` and its length. That of a refusal is `refused`, the number and the place. Then come a
// space and every byte of the buffer, in two hexadecimal digits: the sheet, and the bytes that must stay as lent.
//
// `tests/gate_write` makes the cases, and works out with `tests/solver` what is to be printed.
#![tactic(auto)]

ghost use Rattle.std.specs.Prelude.{◌+◌, ◌≤◌};

use bytes_read::size_at;
use gate_frames::{Frames, Hex, INPUT, Refused, fill, read_frames, write_line};
use rules::{Refusal, Shape, Sizes};
use rules_arrays::Arrays;
use sheet_write::write_sheet;
use std::io::{Cursor, Print, Write};

// How many bytes of a case stand before its figures.
const HEAD: usize = 34;

// The most figures of a case. The longest sheet has 640 (T2.6).
const FIGURES: usize = 1024;

// The longest buffer. The longest sheet has 3,852 bytes (T2.6).
const LENT: usize = 4096;

// The room for a line. A line takes less than 8,300 bytes.
const ROOM: usize = 8448;

// Writes the line of a case.
fn show_output(line: &mut impl Write, answer: Result<usize, Refusal>, buffer: &[u8]) {
    let left = Hex(buffer);
    let _ = match answer {
        Ok(length) => writeln!(line, "wrote {length} {left}"),
        Err(refusal) => writeln!(line, "{} {left}", Refused(refusal)),
    };
}

// Prints the line of a case, by one write: `println!` gives out one of more than 1,024 bytes in parts.
fn print_output(output: &impl Print, answer: Result<usize, Refusal>, buffer: &[u8]) {
    let mut room = [0u8; ROOM];
    let mut line = Cursor::new(&mut room[..]);
    show_output(&mut line, answer, buffer);
    let end = line.position() as usize;
    write_line(output, &room, end);
}

// The unsigned number of 4 bytes at a place. `u32::from_le_bytes` wants them as an array, and to cut it is no plainer.
fn number_at(head: &[u8; HEAD], at: usize) -> usize
    requires { at + 4 ≤ 34 }
{
    size_at(head, at) + 65536 * size_at(head, at + 2)
}

// The sizes of a case.
fn sizes_of(head: &[u8; HEAD]) -> Sizes {
    Sizes {
        shape: Shape {
            materials: number_at(head, 0),
            limits: number_at(head, 4),
        },
        numerator: number_at(head, 8),
        scale: number_at(head, 12),
        steps: number_at(head, 16),
    }
}

// Each function from here to `print_case` answers nothing where the case is not a sound one.

// Writes the sheet of a case into a buffer. The case must have the figures that it says it has.
fn write_case(
    head: &[u8; HEAD],
    figures: &[i32],
    buffer: &mut [u8],
) -> Option<Result<usize, Refusal>> {
    let (costs, figures) = figures.split_at_checked(size_at(head, 20))?;
    let (least_amounts, figures) = figures.split_at_checked(size_at(head, 22))?;
    let (most_amounts, figures) = figures.split_at_checked(size_at(head, 24))?;
    let (coefficients, figures) = figures.split_at_checked(size_at(head, 26))?;
    let (right_hand_sides, figures) = figures.split_at_checked(size_at(head, 28))?;
    let starts = figures.get(..size_at(head, 30))?;
    let arrays = Arrays {
        costs,
        least_amounts,
        most_amounts,
        coefficients,
        right_hand_sides,
        starts,
    };
    Some(write_sheet(sizes_of(head), &arrays, buffer))
}

// Lends a case the buffer that it asks for, and prints its line.
fn print_written(output: &impl Print, head: &[u8; HEAD], figures: &[i32]) -> Option<()> {
    let mut room = [0u8; LENT];
    let buffer = room.get_mut(..size_at(head, 32))?;
    fill(buffer);
    let answer = write_case(head, figures, buffer)?;
    print_output(output, answer, buffer);
    Some(())
}

// The figures of a case are all that stands after its head.
fn print_case(output: &impl Print, case: &[u8]) -> Option<()> {
    let (head, rest) = case.split_first_chunk::<HEAD>()?;
    let (numbers, _) = rest.as_chunks::<4>();
    let mut room = [0i32; FIGURES];
    let figures = room.get_mut(..numbers.len())?;
    for (figure, number) in figures.iter_mut().zip(numbers) {
        *figure = i32::from_le_bytes(*number);
    }
    print_written(output, head, figures)
}

fn main(rt: HostRuntime) {
    let mut room = [0u8; INPUT];
    let frames: Frames<0> = read_frames(&mut rt.stdin(), &mut room);
    for frame in frames {
        if print_case(&rt.stdout(), frame.sheet).is_none() {
            return;
        }
    }
}
