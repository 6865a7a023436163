// Prints what `sheet_read::read_sheet` answers to each sheet of standard input, a line for each.
//
// A sheet comes in a frame (see `gate_frames`) with nothing after it. A frame that is cut short ends the run.
//
// The line of a refused sheet is `refused`, the number and the place. That of an accepted sheet is `accepted`, the
// sizes n, m, p, D and k, and every figure that is not 0: costs, least amounts, most amounts, a, b and starts, as
// `c0=3`, `l0=1`, `u0=10`, `a0,1=-2`, `b0=-12` and `s0=7`, each after a space. The arrays are looked at in every place,
// so that a figure in a wrong place shows.
//
// `tests/gate_read` makes the sheets, and works out with `tests/solver` what is to be printed.
#![tactic(auto)]

use gate_frames::{Frames, INPUT, Refused, read_frames, write_line};
use sheet_figures::Figures;
use sheet_read::read_sheet;
use std::fmt;
use std::fmt::Write;
use std::io::Print;

// The room for a line. A line with every figure takes less than 9,000 bytes.
const ROOM: usize = 16384;

// A line, as far as it is put together. `println!` would give out one of more than 1,024 bytes in parts, and a `Cursor`
// takes longer for the small parts of a figure (docs/DESIGN-PASS.md, "Speed"). What has no room is left out.
#[derive(Drop)]
struct Line {
    bytes: [u8; ROOM],
    end: usize,
}

impl fmt::Write for Line {
    fn write_str(&mut self, text: &str) -> fmt::Result {
        for &byte in text.as_bytes() {
            if self.end < ROOM {
                self.bytes[self.end] = byte;
                self.end += 1;
            }
        }
        Ok(())
    }
}

// The figures of an array that are not 0, each after a space, under the letter of the array.
#[derive(Drop)]
struct Shown<'a, T>(char, &'a [T]);

impl<T: Copy + Into<i64>> fmt::Display for Shown<'_, T> {
    fn fmt<W: fmt::Write>(&self, f: &mut fmt::Formatter<W>) -> fmt::Result {
        let Shown(letter, figures) = self;
        for (place, figure) in figures.iter().enumerate() {
            let value: i64 = (*figure).into();
            if value != 0 {
                write!(f, " {letter}{place}={value}")?;
            }
        }
        Ok(())
    }
}

// The coefficients that are not 0, each after a space. That of limit i and material j stands at place 32 i + j.
#[derive(Drop)]
struct Coefficients<'a>(&'a [i16; 512]);

impl fmt::Display for Coefficients<'_> {
    fn fmt<W: fmt::Write>(&self, f: &mut fmt::Formatter<W>) -> fmt::Result {
        for (place, value) in self.0.iter().enumerate() {
            if *value != 0 {
                write!(f, " a{},{}={value}", place / 32, place % 32)?;
            }
        }
        Ok(())
    }
}

// An accepted sheet: its sizes and its figures.
#[derive(Drop)]
struct Accepted<'a>(&'a Figures, &'a [i16; 512]);

impl fmt::Display for Accepted<'_> {
    fn fmt<W: fmt::Write>(&self, f: &mut fmt::Formatter<W>) -> fmt::Result {
        let Accepted(read, coefficient) = self;
        write!(f, "accepted {} {}", read.materials, read.limits)?;
        write!(f, " {} {} {}", read.numerator, read.scale, read.steps)?;
        let (cost, least, most) = (&read.cost, &read.least, &read.most);
        write!(
            f,
            "{}{}{}",
            Shown('c', cost),
            Shown('l', least),
            Shown('u', most)
        )?;
        write!(f, "{}", Coefficients(coefficient))?;
        write!(f, "{}{}", Shown('b', &read.rhs), Shown('s', &read.start))
    }
}

// Prints the line of a sheet, by one write.
fn print_sheet(output: &impl Print, sheet: &[u8]) {
    let mut coefficient: [i16; 512] = [0; 512];
    let mut line = Line {
        bytes: [0; ROOM],
        end: 0,
    };
    let _ = match read_sheet(sheet, &mut coefficient) {
        Ok(figures) => line.writeln(Accepted(&figures, &coefficient)),
        Err(refusal) => line.writeln(Refused(refusal)),
    };
    write_line(output, &line.bytes, line.end);
}

fn main(rt: HostRuntime) {
    let mut room = [0u8; INPUT];
    let frames: Frames<0> = read_frames(&mut rt.stdin(), &mut room);
    for frame in frames {
        print_sheet(&rt.stdout(), frame.sheet);
    }
}
