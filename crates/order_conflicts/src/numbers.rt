// Numbers that pass a test.
ghost use Rattle.std.specs.Prelude.{◌≡◌, ◌++◌, ◌∷◌, [], cond, OnOk};

use std::alloc::AllocError;

/// Appends a number where it passes.
pub fn push_where(numbers: &mut Vec<u32>, n: u32, passes: bool) -> Result<(), AllocError>
    ensures { OnOk result (numbers.new.items ≡ numbers.old.items ++ cond passes (n ∷ []) []) }
{
    if passes {
        numbers.push(n)?;
    }
    Ok(())
}
