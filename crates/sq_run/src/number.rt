// Numbers of the program's lists.
ghost use Rattle.std.specs.Prelude.{◌≡◌, IfOk};

use sq_base::NoMemory;

/// The number of a place in a list. None is past those that may be, since memory ends before.
pub fn number_of(place: usize) -> Result<u32, NoMemory>
    ensures { IfOk result (λ n. n ≡ place) }
{
    match u32::try_from(place) {
        Ok(number) => Ok(number),
        Err(_) => Err(NoMemory),
    }
}
