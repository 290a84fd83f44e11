// Names of a letter and a number.
ghost use Rattle.std.specs.Prelude.{◌≡◌, ◌++◌, ◌∷◌, OnOk};
ghost use Rattle.std.specs.Fmt.{decimal};

use itoa::Buffer;
use std::alloc::AllocError;

/// Appends a letter and a number.
pub fn append_name(letter: u8, number: u64, line: &mut Vec<u8>) -> Result<(), AllocError>
    ensures { OnOk result (line.new.items ≡ line.old.items ++ letter ∷ decimal number) }
{
    line.push(letter)?;
    line.extend_from_slice(Buffer::new().format(number).as_bytes())
}
