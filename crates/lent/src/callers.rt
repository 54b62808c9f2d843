// Who calls, by the number that a C program gives.
ghost use Rattle.std.specs.Prelude.{◌≡◌};
ghost use Rattle.lent.specs.Callers.{caller_of};

use answers::call::Caller;

// The number of the desk. The foyer's is 1, and any other number names the foyer too, which has fewer slots and shorter
// lists.
pub const DESK: u32 = 0;

// The caller that a number names. Not `From<u32>`, whose impl could stand only beside `Caller` in `answers`: the numbers are the C
// interface's (include/cechnuol.h).
pub fn caller_of(number: u32) -> Caller
    ensures { result ≡ caller_of number }
{
    if number == DESK {
        Caller::Desk
    } else {
        Caller::Foyer
    }
}
