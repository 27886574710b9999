ghost use Rattle.std.specs.Prelude.{◌≡◌, IfOk};

use mine_model::NoMemory;

/// The number, where it is one of 32 bits.
pub(crate) fn to_number(index: usize) -> Result<u32, NoMemory>
    ensures { IfOk result (λ number. number ≡ index) }
{
    match u32::try_from(index) {
        Ok(number) => Ok(number),
        Err(_) => Err(NoMemory),
    }
}
