// A sheet's bytes to its free MPS text in lent bytes (T14), or to a refusal.
#![tactic(auto)]

ghost use Rattle.std.specs.Prelude.{◌≤◌, length};
ghost use Rattle.rules.specs.Output.{short_buffer, Writes};
ghost use Rattle.rules.specs.Listing.{Listed};
ghost use Rattle.rules_mps.specs.Mps.{mps_text, mps_of, mps_refusal, longest_mps, mps_printed};
ghost use Rattle.proof_magnitudes.specs.Accepted.{Accepted};
ghost use Rattle.sheet_figures.specs.Figures.{problem_of};

use out_lines::put_refusal;
use out_mps_text::put_text;
use rules::{Cause, Refusal};
use sheet_figures::Figures;
use sheet_read::read_sheet;

// The length of the longest text (T14.7).
pub const LONGEST: usize = 9248;

// The text by way of a buffer of its own, which takes every text, to a buffer that may be too short.
fn write_copy(f: &Figures, coefficient: &[i16; 512], text: &mut [u8]) -> Result<usize, Refusal>
    requires { Accepted (problem_of f.now coefficient.now) f.now.steps }
    ensures { Writes (mps_text (problem_of f.now coefficient.now))
        (short_buffer 11 (mps_text (problem_of f.now coefficient.now)) (length text.old))
        text.old text.new result }
{
    let mut space = [0u8; LONGEST];
    let end = put_text(&mut space, f, coefficient);
    if text.len() < end {
        return Err(Cause::Text.at(end));
    }
    let whole = &space[..end];
    text[..end].copy_from_slice(whole);
    Ok(end)
}

// The text of figures that are read. A buffer that takes every text gets it at once.
fn write_figures(f: &Figures, coefficient: &[i16; 512], text: &mut [u8]) -> Result<usize, Refusal>
    requires { Accepted (problem_of f.now coefficient.now) f.now.steps }
    ensures { Writes (mps_text (problem_of f.now coefficient.now))
        (short_buffer 11 (mps_text (problem_of f.now coefficient.now)) (length text.old))
        text.old text.new result }
{
    if text.len() < LONGEST {
        return write_copy(f, coefficient, text);
    }
    Ok(put_text(text, f, coefficient))
}

// Writes the free MPS text of a sheet: any bytes, into any buffer. It answers the length of the text, which stands at
// the start of the buffer before the rest as it was; or a refusal, with the buffer as it was.
pub fn write_mps(sheet: &[u8], text: &mut [u8]) -> Result<usize, Refusal>
    ensures { Writes (mps_of sheet.now)
        (mps_refusal sheet.now (length text.old)) text.old text.new result }
{
    let mut a: [i16; 512] = [0; 512];
    let figures = read_sheet(sheet, &mut a)?;
    write_figures(&figures, &a, text)
}

// Writes what batchmps prints of a sheet (T14.8), its text or the line of its refusal, to a buffer that takes either,
// and answers its length.
pub fn write_printed(sheet: &[u8], text: &mut [u8]) -> usize
    requires { longest_mps ≤ length text.old }
    ensures listed { Listed (mps_printed sheet.now) text.old text.new result }
    ensures sheet_len_bound { length (mps_printed sheet.now) ≤ longest_mps }
{
    match write_mps(sheet, text) {
        Ok(length) => length,
        Err(refusal) => put_refusal(text, refusal),
    }
}
