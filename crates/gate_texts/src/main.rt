// Prints texts of answers with the figures of standard input.
//
// A frame (see `gate_frames`) has a record buffer in the place of the sheet, and a place in 8 bytes after it. First
// comes the text of a plan whose record stands in the buffer, and nothing where the buffer holds no record; then that
// of refusal 8 at the place. A frame that is cut short ends the run.
//
// So every number that 64 bits can hold can be seen in a text, whether or not a sheet has such an answer.
// `tests/gate_texts` makes the frames, and works out what is to be printed.
#![tactic(auto)]

use gate_frames::{INPUT, read_frames, write_line};
use out_listing::write_listing;
use rules::{Cause, PlanFigures, Refusal};
use std::io::Print;

// The room for a text. It takes every text (T8.4).
const ROOM: usize = 4096;

// The text of an answer and its record.
fn print_text(output: &impl Print, answer: Result<PlanFigures, Refusal>, record: &[u8]) {
    let mut out = [0u8; ROOM];
    let end = write_listing(answer, record, &mut out);
    write_line(output, &out, end);
}

// The texts of a plan, which takes its figures out of the record, and of a refusal.
fn print_texts(output: &impl Print, record: &[u8], place: usize) {
    print_text(output, Ok(PlanFigures { low: 0, gap: 0 }), record);
    print_text(output, Err(Cause::Buffer.at(place)), record);
}

fn main(rt: HostRuntime) {
    let mut room = [0u8; INPUT];
    for frame in read_frames(&mut rt.stdin(), &mut room) {
        let place = usize::from_le_bytes(*frame.after);
        print_texts(&rt.stdout(), frame.sheet, place);
    }
}
