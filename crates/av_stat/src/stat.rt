// A statistic as a closure.
ghost use Rattle.std.specs.Prelude.{◌≡◌, ◌≤◌, ℕ, List, IsTrue};
ghost use Rattle.std.specs.Fn.{FnReturnsAt};
ghost use Rattle.av_perm.specs.Word.{is_perm};
ghost use Rattle.av_perm.specs.Stat.{statistic_of};
ghost use Rattle.av_stat.specs.Listed.{ReturnsStatistic};

use av_perm::{MAX_STATISTIC, Perm, StatKind};

// Asks the closure.
fn asked<F: Fn(&Perm) -> u64>(call: &F, word: &Perm) -> u64
    requires { (shown : _) → IsTrue (is_perm shown.now) → F.pre call.now shown }
    ensures value { FnReturnsAt F.Fn call.now word.now result }
    ensures perm { IsTrue (is_perm word.now) }
{
    let _len = word.len();
    call(word)
}

/// A statistic: its kind, and a closure that returns it.
///
/// That the closure may be called on every word, and that it returns the statistic of this kind, is asked at each call, since
/// a struct can't keep what it says of a closure's conditions.
#[derive(Drop)]
pub struct Stat<F> {
    kind: StatKind,
    call: F,
}

impl<F: Fn(&Perm) -> u64> Stat<F> {
    /// The statistic of a kind, returned by a closure.
    pub fn new(kind: StatKind, call: F) -> Stat<F>
        requires callable { (shown : _) → IsTrue (is_perm shown.now) → F.pre call shown }
        requires statistic { ReturnsStatistic kind (FnReturnsAt F.Fn call) }
        ensures kind { result.kind ≡ kind }
        ensures call { result.call ≡ call }
    {
        Stat { kind, call }
    }

    /// The statistic of a word, which is at most `MAX_STATISTIC`.
    pub fn of(&self, word: &Perm) -> u64
        requires callable { (shown : _) → IsTrue (is_perm shown.now) → F.pre self.now.call shown }
        requires statistic { ReturnsStatistic self.now.kind (FnReturnsAt F.Fn self.now.call) }
        ensures value { result ≡ statistic_of self.now.kind word.now }
        ensures few { result ≤ MAX_STATISTIC }
    {
        asked(&self.call, word)
    }
}
