ghost use Rattle.std.specs.Prelude.{◌≡◌};
ghost use Rattle.desk_base.specs.Pieces.{is_listed, next_call};

/// Counts a call, and answers whether its place is among those that are to fail. A count at its type's end stays there.
pub fn is_next_listed(calls: &mut u64, failing: &[u32]) -> bool
    ensures listed { result ≡ is_listed failing.now calls.old }
    ensures counted { calls.new ≡ next_call calls.old }
{
    let call = *calls;
    *calls = call.saturating_add(1);
    failing.iter().any(|place| u64::from(*place) == call)
}
