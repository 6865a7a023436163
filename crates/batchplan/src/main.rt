// batchplan: prints the listing of the batch sheet on standard input.
//
// It reads to the end of the input, or to one byte past the longest sheet: by then the answer is settled (T10.1).
// Where the input cannot be read, or the listing cannot be written, it says so on standard error.
#![tactic(auto)]

use batchplan_lib::batchplan_listing;

// The room for a listing. It takes every listing (T8.4).
const ROOM: usize = 4096;

fn main(rt: HostRuntime) {
    let mut room = [0u8; ROOM];
    filter::run(
        &rt,
        &mut rt.stdin(),
        "batchplan",
        &mut room,
        batchplan_listing,
    );
}
