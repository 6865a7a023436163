// The header of a sheet: its sizes, or none (refusal 1), and refusals 2 to 4.
#![tactic(auto)]

ghost use Rattle.std.specs.Prelude.{◌≡◌, length};
ghost use Rattle.rules.specs.Sheet.{sheet_of};
ghost use Rattle.rules.specs.Refusals.{refusal_of, sizes_refusal};
ghost use Rattle.sheet_header.specs.Header.{HasHeader, header_answered, header_read};

use bytes_read::size_at;
use rules::{Cause, Refusal, Shape, Sizes};
use sheet_sizes::{dimensions_in_range, parameters_in_range};

// How long the header is: six sizes of 2 bytes.
const HEADER: usize = 12;

// The header of a sheet: its sizes, e, and how long the header is, which is where the keys begin.
// It does not hold the sheet's bytes: `header_read` is a value, and each pass asks more of both than the one before it.
#[derive(Clone, Copy)]
pub struct Header {
    pub sizes: Sizes,
    pub entries: usize,
    pub length: usize,
}

// The header of a sheet, or none where the sheet is too short for one (refusal 1): n, m, e, p, D and k come first, 2
// bytes each.
pub fn read_header(s: &[u8]) -> Option<Header>
    ensures { header_answered result ≡ header_read s.now }
{
    if s.len() < HEADER {
        return None;
    }
    Some(Header {
        sizes: Sizes {
            shape: Shape {
                materials: size_at(s, 0),
                limits: size_at(s, 2),
            },
            numerator: size_at(s, 6),
            scale: size_at(s, 8),
            steps: size_at(s, 10),
        },
        entries: size_at(s, 4),
        length: HEADER,
    })
}

// Refusals 2 to 4.
pub fn check_header(s: &[u8], header: Header) -> Result<(), Refusal>
    requires { HasHeader s.now header }
    ensures { refusal_of result ≡ sizes_refusal (sheet_of s.now) (length s.now) }
{
    let sizes = header.sizes;
    let shape = sizes.shape;
    let e = header.entries;
    if !dimensions_in_range(shape, e) {
        return Err(Cause::Dimensions.at(0));
    }
    let keys = header.length;
    if s.len() != keys + 6 * e {
        return Err(Cause::Length.at(0));
    }
    if !parameters_in_range(sizes) {
        return Err(Cause::Parameters.at(0));
    }
    Ok(())
}
