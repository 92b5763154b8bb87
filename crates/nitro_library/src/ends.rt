//! Lines that may stand in a file.

ghost use Rattle.std.specs.Prelude.{◌≡◌, true};
ghost use Rattle.lasting_lines.specs.Batches.{IsPart};
ghost use Rattle.nitro_library.specs.Endings.{is_part};

use lasting_lines::SEPARATOR;

fn has_no_end(line: &[u8]) -> bool
    ensures { result ≡ is_part line.now }
{
    let mut rest = line;
    while let [b, more @ ..] = rest {
        if *b == 10 || *b == SEPARATOR {
            return false;
        }
        rest = more;
    }
    true
}

/// Whether no byte of a line is a line feed or a separator of batches.
#[tactic(auto, using(crate::proofs::NoEnds::part))]
pub(crate) fn is_part(line: &[u8]) -> bool
    ensures value { result ≡ is_part line.now }
    ensures part { result ≡ true → IsPart line.now }
{
    has_no_end(line)
}
