// Prints the listing of each sheet of standard input.
//
// A sheet comes in a frame (see `gate_frames`) with nothing after it. A frame that is cut short ends the run.
//
// `tests/compare` makes the sheets, and works out with `tests/solver` what is to be printed.
#![tactic(auto)]

use batchplan_lib::batchplan_listing;
use gate_frames::{Frames, INPUT, read_frames, write_line};
use std::io::Print;

// The room for a listing. It takes every listing (T8.4).
const ROOM: usize = 4096;

fn print_listing(output: &impl Print, sheet: &[u8]) {
    let mut out = [0u8; ROOM];
    let end = batchplan_listing(sheet, &mut out);
    write_line(output, &out, end);
}

fn main(rt: HostRuntime) {
    let mut room = [0u8; INPUT];
    let frames: Frames<0> = read_frames(&mut rt.stdin(), &mut room);
    for frame in frames {
        print_listing(&rt.stdout(), frame.sheet);
    }
}
