// Whether bytes are UTF-8.
ghost use Rattle.std.specs.Prelude.{◌<◌, ◌^◌, length};
ghost use Rattle.rdf_chars.specs.Utf8.{Finishes};

use rdf_chars::{BadUtf8, Utf8Steps};

// Byte by byte, to find the place.
fn find_bad_utf8(text: &[u8]) -> Result<(), BadUtf8>
    requires { length text.now < 2 ^ 32 }
    ensures { Finishes text.now result }
{
    let mut steps = Utf8Steps::new();
    for byte in text {
        let _said = steps.push(*byte);
    }
    steps.finish()
}

/// The length of the longest front that is UTF-8, where the whole text is not.
pub(crate) fn check_utf8(text: &[u8]) -> Result<(), BadUtf8>
    requires { length text.now < 2 ^ 32 }
    ensures { Finishes text.now result }
{
    match str::from_utf8(text) {
        Ok(_) => Ok(()),
        Err(_) => find_bad_utf8(text),
    }
}
