ghost use Rattle.std.specs.Prelude.{◌≡◌, ◌+◌, ◌==◌, nat_le};

/// Whether a claimed total is what a terminator costs and the value of a router on the way to it together.
pub fn is_total(total: u32, cost: u32, value: u64) -> bool
    ensures { result ≡ (total == cost + value) }
{
    u128::from(total) == u128::from(cost) + u128::from(value)
}

/// Whether a claimed total is at most that.
pub fn is_at_most(total: u32, cost: u32, value: u64) -> bool
    ensures { result ≡ nat_le total (cost + value) }
{
    u128::from(total) <= u128::from(cost) + u128::from(value)
}
