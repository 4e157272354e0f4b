// Cuts and intervals that are known.
use crate::words::word;
use av_interval::{Span, Spans, maximal_intervals, skew_cut, sum_cut};
use av_perm::Perm;

#[test]
fn cuts(rt: HostRuntime) {
    assert_eq!(rt; sum_cut(&word(&rt, &[3, 1, 2, 5, 4])), Some(3));
    assert_eq!(rt; skew_cut(&word(&rt, &[3, 1, 2, 5, 4])), None);
    assert_eq!(rt; skew_cut(&word(&rt, &[4, 5, 1, 3, 2])), Some(2));
    assert_eq!(rt; sum_cut(&word(&rt, &[2, 4, 1, 3])), None);
    assert_eq!(rt; skew_cut(&word(&rt, &[2, 4, 1, 3])), None);
    assert_eq!(rt; sum_cut(&Perm::one()), None);
}

// The word is 2413[21, 1, 12, 1].
#[test]
fn intervals_of_an_inflation(rt: HostRuntime) {
    let word = word(&rt, &[4, 3, 6, 1, 2, 5]);
    assert_eq!(rt; word.len(), 6);
    let (None, None) = (sum_cut(&word), skew_cut(&word)) else {
        assert!(rt; false);
        return;
    };
    let spans = maximal_intervals(&word);
    let blocks = [
        Span { first: 1, last: 2 },
        Span { first: 3, last: 3 },
        Span { first: 4, last: 5 },
        Span { first: 6, last: 6 },
    ];
    assert!(rt; spans.as_slice() == blocks.as_slice());
    assert_eq!(rt; spans.len(), 4);
    if spans.len() == 4 {
        assert_eq!(rt; *spans.get(2), Span { first: 4, last: 5 });
    }
}

#[test]
fn a_list_of_two_spans(rt: HostRuntime) {
    let mut spans = Spans::empty();
    spans.push(Span { first: 1, last: 2 });
    spans.push(Span { first: 3, last: 4 });
    assert_eq!(rt; spans.len(), 2);
    assert!(rt; Span { first: 1, last: 2 } == *spans.get(0));
}
