// Texts that are known.
use crate::system_parts::{NAMES_OF_132, TERMS_OF_132, name_of, node, system_of, terms_of};
use crate::words::word;
use av_count::Count;
use av_decomp::tree;
use av_io::{MemSink, Sink, SinkFault, SureSink};
use av_match::find;
use av_perm::{Perm, StatKind, Words};
use av_print::{
    Bytes, Joined, Number, RankedWord, Text, put, put_count, put_number, put_system, put_tree,
    put_word, put_words,
};
use av_sys::{Equation, Equations, Sign, System, Terms};
use av_text::{DistKind, Query};
use std::alloc::Global;
use std::test::Fail;

#[test]
fn bytes_and_numerals(rt: HostRuntime) {
    let mut sink = SureSink::new(rt.alloc());
    assert_eq!(rt; put(&mut sink, b"count "), Ok(()));
    assert_eq!(rt; put(&mut sink, b""), Ok(()));
    assert_eq!(rt; put_number(&mut sink, 0), Ok(()));
    assert_eq!(rt; put(&mut sink, b" = "), Ok(()));
    assert_eq!(rt; put_number(&mut sink, u128::MAX), Ok(()));
    assert_eq!(rt;
        sink.bytes(),
        &b"count 0 = 340282366920938463463374607431768211455"[..]
    );
}

#[test]
fn counts_joined_by_spaces(rt: HostRuntime) {
    let mut sink = SureSink::new(rt.alloc());
    let counts = Joined {
        separator: b" ",
        items: &[Count::Known(1), Count::Known(429), Count::Over],
    };
    assert_eq!(rt; counts.put_on(&mut sink), Ok(()));
    assert_eq!(rt; put_count(&mut sink, Count::Known(u128::MAX)), Ok(()));
    assert_eq!(rt;
        sink.bytes(),
        &b"1 429 over340282366920938463463374607431768211455"[..]
    );
}

#[test]
fn words_and_lists_of_words(rt: HostRuntime) -> Result<(), Fail> {
    let mut words = Words::empty(rt.alloc());
    let mut sink = SureSink::new(rt.alloc());
    assert_eq!(rt; put_words(&mut sink, &words), Ok(()));
    words.push(word(&rt, &[2, 4, 1, 3]))?;
    words.push(Perm::one())?;
    words.push(word(&rt, &[10, 2, 3, 4, 5, 6, 7, 8, 9, 1]))?;
    let line = (Bytes(b"\nbasis "), &words, Bytes(b"\n"));
    assert_eq!(rt; line.put_on(&mut sink), Ok(()));
    let nine = word(&rt, &[1, 2, 3, 4, 5, 6, 7, 8, 9]);
    assert_eq!(rt; put_word(&mut sink, &nine), Ok(()));
    assert_eq!(rt;
        sink.bytes(),
        &b"none\nbasis 2413 1 10,2,3,4,5,6,7,8,9,1\n123456789"[..]
    );
    Ok(())
}

// Writes the query's canonical text, and a line feed.
fn put_line<K: Sink>(sink: &mut K, query: Query) -> Result<(), Fail> {
    (query, Bytes(b"\n")).put_on(sink)?;
    Ok(())
}

#[test]
fn canonical_texts_of_queries(rt: HostRuntime) -> Result<(), Fail> {
    let mut sink = SureSink::new(rt.alloc());
    let some = word(&rt, &[2, 1, 3]);
    put_line(&mut sink, Query::Count { n: 7 })?;
    put_line(&mut sink, Query::Counts { n: 160 })?;
    put_line(
        &mut sink,
        Query::List {
            n: 5,
            start: 2,
            many: 1_000_000,
        },
    )?;
    put_line(
        &mut sink,
        Query::Unrank {
            n: 10,
            r: u128::MAX,
        },
    )?;
    put_line(&mut sink, Query::Rank { word: some.copy() })?;
    put_line(&mut sink, Query::Tree { word: some })?;
    assert_eq!(rt;
        sink.bytes(),
        &b"count 7\ncounts 160\nlist 5 from 2 for 1000000\n\
           unrank 10 340282366920938463463374607431768211455\nrank 213\ntree 213\n"[..]
    );
    Ok(())
}

#[test]
fn canonical_texts_of_draws_and_statistics(rt: HostRuntime) -> Result<(), Fail> {
    let mut sink = SureSink::new(rt.alloc());
    put_line(
        &mut sink,
        Query::Draw {
            n: 3,
            seed: u64::MAX,
            many: 2,
        },
    )?;
    put_line(
        &mut sink,
        Query::DrawStat {
            kind: StatKind::Lrm,
            n: 160,
            seed: 0,
            many: 100_000,
        },
    )?;
    put_line(
        &mut sink,
        Query::Stat {
            kind: StatKind::Inv,
            n: 12,
        },
    )?;
    put_line(
        &mut sink,
        Query::Pick {
            kind: StatKind::Des,
            value: 12_720,
            n: 1,
        },
    )?;
    put_line(
        &mut sink,
        Query::Dist {
            kind: DistKind::Inv,
            n: 24,
        },
    )?;
    assert_eq!(rt;
        sink.bytes(),
        &b"draw 3 18446744073709551615 2\ndrawstat lrm 160 0 100000\nstat inv 12\npick des 12720 1\n\
           dist inv 24\n"[..]
    );
    Ok(())
}

#[test]
fn a_word_with_its_rank_and_its_places(rt: HostRuntime) -> Result<(), Fail> {
    let mut sink = SureSink::new(rt.alloc());
    let some = word(&rt, &[1, 3, 2]);
    let ranked = RankedWord {
        rank: 12,
        word: &some,
    };
    assert_eq!(rt; ranked.put_on(&mut sink), Ok(()));
    let falling = word(&rt, &[2, 1]);
    match find(&some, &falling) {
        Some(places) => assert_eq!(rt; places.put_on(&mut sink), Ok(())),
        None => assert!(rt; false, "the word falls"),
    }
    assert_eq!(rt; sink.bytes(), &b"12 132\n2 3"[..]);
    Ok(())
}

#[test]
fn a_sink_whose_third_call_fails_holds_two_bytes(rt: HostRuntime) -> Result<(), Fail> {
    let mut sink = MemSink::new(rt.alloc(), 1, vec![in rt.alloc(); 3u64]?);
    let line = (Bytes(b"permspec "), Number(1));
    assert_eq!(rt; line.put_on(&mut sink), Err(SinkFault::Failed));
    assert_eq!(rt; sink.bytes(), &b"pe"[..]);
    Ok(())
}

// Writes the tree of the word with these entries, and a line feed.
fn put_tree_of<K: Sink>(alloc: Global, sink: &mut K, entries: &[u8]) -> Result<(), Fail> {
    let word = Perm::from_entries(entries)?;
    put_tree(sink, &tree(alloc, &word)?)?;
    put(sink, b"\n")?;
    Ok(())
}

#[test]
fn trees(rt: HostRuntime) -> Result<(), Fail> {
    let mut sink = SureSink::new(rt.alloc());
    put_tree_of(rt.alloc(), &mut sink, &[1])?;
    put_tree_of(rt.alloc(), &mut sink, &[2, 1, 3])?;
    put_tree_of(rt.alloc(), &mut sink, &[2, 6, 1, 4, 5, 3])?;
    put_tree_of(rt.alloc(), &mut sink, &[2, 4, 6, 8, 10, 1, 3, 5, 7, 9])?;
    assert_eq!(rt;
        sink.bytes(),
        &b"1\n12[21[1,1],1]\n2413[1,1,1,21[12[1,1],1]]\n(2,4,6,8,10,1,3,5,7,9)[1,1,1,1,1,1,1,1,1,1]\n"[..]
    );
    Ok(())
}

#[test]
fn the_system_of_the_class_that_avoids_132(rt: HostRuntime) -> Result<(), Fail> {
    let system = system_of(rt.alloc(), &NAMES_OF_132, &TERMS_OF_132)?;
    let mut sink = SureSink::new(rt.alloc());
    put_system(&mut sink, &system, 2)?;
    assert_eq!(rt;
        sink.bytes(),
        &b"system 2 equations 5 terms 10\nE0 C avoid 132 require none = 1 | 12[E1,E2] | 21[E3,E0]\nE1 P avoid 132 require none = 1 | 21[E3,E0]\nE2 C avoid 21 require none = 1 | 12[E4,E2]\nE3 M avoid 132 require none = 1 | 12[E1,E2]\nE4 P avoid 21 require none = 1\nend\n"[..]
    );
    Ok(())
}

#[test]
fn a_long_root_and_an_equation_without_terms(rt: HostRuntime) -> Result<(), Fail> {
    let alloc = rt.alloc();
    let mut terms = terms_of(alloc, 0, &[(0, "", "")])?;
    let root = word(&rt, &[2, 4, 6, 8, 10, 1, 3, 5, 7, 9]);
    terms.push(node(alloc, root, "1010101011")?)?;
    let mut equations = Equations::empty(alloc);
    equations.push(Equation {
        name: name_of(alloc, Sign::C, "321", "")?,
        terms,
    })?;
    equations.push(Equation {
        name: name_of(alloc, Sign::M, "", "2413")?,
        terms: Terms::empty(alloc),
    })?;
    let mut sink = SureSink::new(alloc);
    put_system(&mut sink, &System { equations }, 1)?;
    assert_eq!(rt;
        sink.bytes(),
        &b"system 1 equations 2 terms 2\nE0 C avoid 321 require none = 1 | (2,4,6,8,10,1,3,5,7,9)[E1,E0,E1,E0,E1,E0,E1,E0,E1,E1]\nE1 M avoid none require 2413 = none\nend\n"[..]
    );
    Ok(())
}
