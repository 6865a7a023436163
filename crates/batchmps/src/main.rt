// batchmps: prints the batch sheet on standard input as free MPS (T10.8, T14), or the line of its refusal.
//
// It reads to the end of the input, or to one byte past the longest sheet: by then the answer is settled (T10.1).
// Where the input cannot be read, or the text cannot be written, it says so on standard error.
#![tactic(auto)]

use out_mps::{LONGEST, write_printed};

fn main(rt: HostRuntime) {
    let mut room = [0u8; LONGEST];
    filter::run(&rt, &mut rt.stdin(), "batchmps", &mut room, write_printed);
}
