// Document 02, request Four: the number of a negative code's name, read from a table of 256 entries. What it is, is `name_number` of `rules`.
#![tactic(auto)]

ghost use Rattle.std.specs.Prelude.{◌≡◌};
ghost use Rattle.rules.specs.Codes.{name_number};

use table::NUMBERS;

mod table;

// A number, 0 for a code without a name: the C interface hands it out as it is.
pub fn name_number(code: u8) -> u8
    ensures { result ≡ name_number code }
{
    NUMBERS[code as usize]
}
