// Headers that are refused, and the longest number.
ghost use Rattle.std.specs.Prelude.{◌≡◌, Err};
ghost use Rattle.shelf.specs.declared.refusal.Reason.TheVariants.{NotCphd, LineMalformed};
ghost use Rattle.examples.specs.Headers.{OtherVersion, NoBlanks, DigitLimit};

use header::{Header, head};
use shelf::{FixedFile, Refusal};

// A file of version 1.0.1 is refused 10, whatever follows.
pub fn other_version() -> Result<Header, Refusal>
    ensures answer { result ≡ Err (record { reason = NotCphd; place = 0 }) }
    ensures always { OtherVersion }
{
    head(&FixedFile::new(b"CPHD/1.0.1\n", 0))
}

// A line without blanks round its ":=" is refused 11 with its place, whatever follows.
pub fn no_blanks() -> Result<Header, Refusal>
    ensures answer { result ≡ Err (record { reason = LineMalformed; place = 11 }) }
    ensures always { NoBlanks }
{
    head(&FixedFile::new(b"CPHD/1.1.0\nPVP_BLOCK_SIZE:=432\n", 0))
}

// The most digits that a number has: 18 pass, and 19 do not.
pub fn most_digits() -> usize
    ensures answer { result ≡ 18 }
    ensures always { DigitLimit }
{
    18
}
