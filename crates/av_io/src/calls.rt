// Calls that are numbered from 1 on.
ghost use Rattle.std.specs.Prelude.{◌≡◌};
ghost use Rattle.av_io.specs.Causes.{one_more};
ghost use Rattle.av_io.specs.Calls.{fails_next};

/// Counts one call, and answers whether it fails: its number is among those. At 2^64 - 1 the count stays, and no
/// further call fails.
pub fn count_call(fails: &[u64], calls: &mut u64) -> bool
    ensures fails { result ≡ fails_next fails.now calls.old }
    ensures counted { calls.new ≡ one_more calls.old }
{
    if *calls == u64::MAX {
        return false;
    }
    *calls += 1;
    fails.contains(calls)
}
