// The bars of a histogram and of a distribution, and the statistic of a word.
use crate::words::word;
use av_bars::{Bar, Bars, DistBar, DistBars};
use av_perm::{Memory, Perm, StatKind, statistic};
use av_stat::Stat;

#[test]
fn bars_are_kept_in_order(rt: HostRuntime) -> Result<(), Memory> {
    let mut bars = Bars::empty(rt.alloc());
    assert_eq!(rt; bars.len(), 0);
    bars.push(Bar { value: 1, count: 2 })?;
    bars.push(Bar { value: 7, count: 1 })?;
    assert_eq!(rt; bars.len(), 2);
    assert!(rt; *bars.get(1) == Bar { value: 7, count: 1 });
    assert!(rt; bars.as_slice()[0] == Bar { value: 1, count: 2 });
    Ok(())
}

#[test]
fn bars_of_a_distribution_are_kept_in_order(rt: HostRuntime) -> Result<(), Memory> {
    let mut bars = DistBars::empty(rt.alloc());
    assert_eq!(rt; bars.len(), 0);
    bars.push(DistBar { value: 0, count: 1 })?;
    bars.push(DistBar { value: 2, count: 5 })?;
    assert_eq!(rt; bars.len(), 2);
    assert!(rt; *bars.get(1) == DistBar { value: 2, count: 5 });
    assert!(rt; bars.as_slice()[0] == DistBar { value: 0, count: 1 });
    Ok(())
}

#[test]
fn a_stored_closure_answers(rt: HostRuntime) {
    let stat = Stat::new(StatKind::Inv, |word: &Perm| {
        statistic(StatKind::Inv, word)
    });
    assert_eq!(rt; stat.of(&Perm::one()), 0);
    assert_eq!(rt; stat.of(&word(&rt, &[4, 1, 3, 2])), 4);
}
