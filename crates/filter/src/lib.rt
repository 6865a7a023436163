// What the programs share that are filters: the reading of standard input, and the writing of a text.
#![tactic(auto)]

ghost use Rattle.std.specs.Prelude.{◌≡◌, ◌≤◌, ◌⊎◌, length, IfOk, IfErr};

use std::io::{Print, Read};

// for a program that reads a sheet by `read_input`: the room for it, one byte more than the longest has (T2.6).
pub const BYTES: usize = 3853;

// A read failed, after so many bytes.
#[derive(Drop)]
pub struct ReadFailed {
    pub filled: usize,
}

// Reads until the buffer is full, the input ends or a read fails, however the input is cut, and says how many bytes.
// A `for` would be no plainer: how far a turn goes is what its read gave.
pub fn read_input(input: &mut impl Read, buffer: &mut [u8]) -> Result<usize, ReadFailed>
    ensures read { IfOk result (λ filled. filled ≤ length buffer.new) }
    ensures failed { IfErr result (λ error. error.filled ≤ length buffer.new) }
{
    let mut filled = 0;
    while filled < buffer.len() {
        let more = input
            .read(&mut buffer[filled..])
            .map_err(|_| ReadFailed { filled })?;
        if more == 0 {
            break;
        }
        filled += more;
    }
    Ok(filled)
}

// for a program that has its output and its errors apart: writes the text that ends before a place to the one. Where
// that fails, the complaint goes to the other.
pub fn print_text(
    output: &impl Print,
    errors: &impl Print,
    text: &[u8],
    end: usize,
    complaint: &[u8],
)
    requires { end ≤ length text.now }
{
    if output.write_all(&text[0..end]).is_err() {
        let _ = errors.write_all(complaint);
    }
}

// for a program that is no filter: writes a text to standard output. Where that fails, the program says so on standard
// error, after its name.
pub fn print_named(rt: &(impl Print + Eprint), name: &str, text: &[u8]) {
    if rt.write_all(text).is_err() {
        let _ = eprintln!(rt; "{name}: cannot write to standard output");
    }
}

// A program that is a filter. It reads a sheet, and writes the text that `work` puts into the room; `work` answers
// where the text ends. Where the sheet cannot be read, the program says so on standard error, after its name.
pub fn run<W: FnOnce(&[u8], &mut [u8]) -> usize>(
    rt: &(impl Print + Eprint),
    input: &mut impl Read,
    name: &str,
    room: &mut [u8],
    work: W,
)
    requires callable { (sheet : _) (lent : _) → lent.now ≡ room.old → W.pre work sheet lent }
    requires ends { (sheet : _) (lent : _) (end : _) (after : _) → lent.now ≡ room.old
        → W.post work sheet lent end after → end ≤ length room.old }
    ensures { (room.new ≡ room.old) ⊎ ((sheet : _) × (lent : _) × (end : _) × (after : _) × (lent.now ≡ room.old)
        × W.post work sheet lent end after × (room.new ≡ after.now)) }
{
    let mut sheet = [0u8; BYTES];
    let Ok(filled) = read_input(input, &mut sheet) else {
        let _ = eprintln!(rt; "{name}: cannot read standard input");
        return;
    };
    let end = work(&sheet[..filled], room);
    print_named(rt, name, &room[..end]);
}
