// Refusals compared.
ghost use Rattle.std.specs.Prelude.{◌≡◌, ◌==◌, Decides};
ghost use Rattle.std.specs.Ordering.{on};
ghost use Rattle.shelf.specs.Refusals.{number};

use shelf::{Reason, Refusal};

// Whether two calls were refused alike: `==` says so exactly where reason and place are the same.
pub fn refused_alike(a: Refusal, b: Refusal) -> bool
    ensures { Decides result (a ≡ b) }
{
    a == b
}

// Whether two reasons are the same: `==` says so exactly where their numbers are equal.
pub fn same_reason(one: Reason, other: Reason) -> bool
    ensures value { result ≡ on number ◌==◌ one other }
    ensures same { Decides result (one ≡ other) }
{
    one == other
}
