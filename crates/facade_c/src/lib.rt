// What a C program calls; `include/pulgarv.h` declares it.
#![tactic(auto)]

ghost use Rattle.std.specs.Prelude.{◌≡◌};
ghost use Rattle.facade_c.specs.Told.{Small, code, Told};

use listing::list;
use table::Fault;

// The answer as one number: C has no Result, and its callers know -21 for a place that is too short.
fn code(answer: Result<usize, Fault>) -> i64
    requires { Small answer }
    ensures { result ≡ code answer }
{
    match answer {
        Ok(n) => n as i64,
        Err(_) => -21,
    }
}

// The length of the listing, which is then at the front of the place, or -21 where the place is too short for it.
#[unsafe(no_mangle)]
pub extern "C" fn pulgarv_admit(table: &[u8], place: &mut [u8]) -> i64
    ensures { Told table.now place.old place.new result }
{
    code(list(table, place))
}
