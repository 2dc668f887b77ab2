//! Laws of requests. Each function is nothing but its contract.

ghost use Rattle.std.specs.Prelude.{◌≡◌};
ghost use Rattle.task_requests.specs.Limits.{max_budget};

/// The limits have these values.
pub fn limits_are_these()
    ensures turns { max_budget ≡ 1000000 }
{}
