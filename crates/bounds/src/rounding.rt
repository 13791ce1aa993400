// Division that answers for every divisor: by 0 it gives 0.
ghost use Rattle.std.specs.Prelude.{◌≡◌, ◌+◌, ◌/◌, ◌^◌, ◌≤◌};
ghost use Rattle.bounds.specs.Sums.{up};

pub(crate) fn divide(a: u64, d: u64) -> u64
    ensures value { result ≡ a / d }
    ensures small { result ≤ a }
{
    a.checked_div(d).unwrap_or(0)
}

// The quotient, rounded up.
pub(crate) fn divide_up(a: u64, d: u64) -> u64
    requires { a + d ≤ 2 ^ 63 }
    ensures value { result ≡ up a d }
    ensures small { result ≤ a + d }
{
    divide(a + d.saturating_sub(1), d)
}
