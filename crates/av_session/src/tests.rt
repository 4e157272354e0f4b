// Whole runs, with sources and sinks in memory: what is written, and how the run ends.

use crate::{Options, Status, read_words, run};
use av_io::{Source, SureSink, SureSource};
use av_match::minimal;
use av_perm::{Memory, NotPerm, Perm, Words, is_simple};
use av_simple::{Outcome, search};
use av_text::read_script;
use std::alloc::{AllocError, Global};
use std::test::Fail;

pub const CATALAN: &[u8] = b"basis 132\ncount 7\n";

pub const CATALAN_ANSWER: &[u8] = b"permspec 1
basis 132
simples 4:0 5:0
gap 4
system 2 equations 5 terms 10
E0 C avoid 132 require none = 1 | 12[E1,E2] | 21[E3,E0]
E1 P avoid 132 require none = 1 | 21[E3,E0]
E2 C avoid 21 require none = 1 | 12[E4,E2]
E3 M avoid 132 require none = 1 | 12[E1,E2]
E4 P avoid 21 require none = 1
end
count 7 = 429
";

// The length of its last line, which is that of the query.
pub const LAST_LINE: usize = 14;

// The words of a command line.
fn command_line(alloc: Global, texts: &[&str]) -> Result<Vec<String>, AllocError> {
    let mut words = Vec::new(alloc);
    for text in texts {
        words.push(String::from_str(alloc, text)?)?;
    }
    Ok(words)
}

// How a run ended, and what its sink holds.
#[derive(Drop)]
pub struct Ended {
    pub status: Status,
    pub held: Vec<u8>,
}

// Runs over this source, and a sink that never fails.
pub fn run_over<S: Source>(
    alloc: Global,
    options: &[&str],
    source: &mut S,
) -> Result<Ended, AllocError> {
    let words = command_line(alloc, options)?;
    let mut sink = SureSink::new(alloc);
    let status = run(alloc, &words, source, &mut sink);
    let held = Vec::from_slice(alloc, sink.bytes())?;
    Ok(Ended { status, held })
}

// Runs over a source and a sink that never fail.
pub fn run_script(alloc: Global, options: &[&str], script: &[u8]) -> Result<Ended, AllocError> {
    let mut source = SureSource::new(Vec::from_slice(alloc, script)?);
    run_over(alloc, options, &mut source)
}

static ANSWERED: [(&str, Status, &str); 19] = [
    (
        "basis 132\nlist 3\nlist 3 from 3 for 9\nlist 3 from 5\nrank 231\nrank 132\nunrank 3 4\nunrank 3 5\ndraw 3 0 2\n\
         drawstat inv 3 0 2\ndrawstat des 3 0 2\ndrawstat lrm 3 0 2\nstat inv 3\nstat des 3\nstat lrm 3\npick inv 2 3\n\
         pick inv 4 3\ndist inv 3\ndist des 4\n",
        Status::Done,
        "permspec 1
basis 132
simples 4:0 5:0
gap 4
system 2 equations 5 terms 10
E0 C avoid 132 require none = 1 | 12[E1,E2] | 21[E3,E0]
E1 P avoid 132 require none = 1 | 21[E3,E0]
E2 C avoid 21 require none = 1 | 12[E4,E2]
E3 M avoid 132 require none = 1 | 12[E1,E2]
E4 P avoid 21 require none = 1
end
list 3 from 0 for 1000 =
0 123
1 213
2 312
3 321
4 231
end
list 3 from 3 for 9 =
3 321
4 231
end
list 3 from 5 for 1000 =
end
rank 231 = 4
rank 132 = no 132 at 1 2 3
unrank 3 4 = 231
unrank 3 5 = none of 5
draw 3 0 2 =
3 321
2 312
end
drawstat inv 3 0 2 = least 2 most 3 total 5
drawstat des 3 0 2 = least 1 most 2 total 3
drawstat lrm 3 0 2 = least 1 most 1 total 2
stat inv 3 = 0:1 1:1 2:2 3:1
stat des 3 = 0:1 1:3 2:1
stat lrm 3 = 1:2 2:2 3:1
pick inv 2 3 =
2 312
4 231
end
pick inv 4 3 =
end
dist inv 3 = 0:1 1:1 2:2 3:1
dist des 4 = 0:1 1:6 2:6 3:1
",
    ),
    (
        "basis 123 132\ncounts 4\ncount 128\ncount 129\ndraw 129 0 1\ndrawstat inv 129 0 1\n",
        Status::Done,
        "permspec 1
basis 123 132
simples 4:0 5:0
gap 4
system 2 equations 6 terms 11
E0 C avoid 123 132 require none = 1 | 12[E1,E2] | 21[E3,E0]
E1 P avoid 12 require none = 1 | 21[E4,E5]
E2 C avoid 12 21 require none = 1
E3 M avoid 123 132 require none = 1 | 12[E1,E2]
E4 M avoid 12 require none = 1
E5 C avoid 12 require none = 1 | 21[E4,E5]
end
counts 4 = 1 2 4 8
count 128 = 170141183460469231731687303715884105728
count 129 = over
draw 129 0 1 = over
drawstat inv 129 0 1 = over
",
    ),
    (
        "basis 132\r\n\r\n# Catalan\r\ncount 3",
        Status::Done,
        "permspec 1
basis 132
simples 4:0 5:0
gap 4
system 2 equations 5 terms 10
E0 C avoid 132 require none = 1 | 12[E1,E2] | 21[E3,E0]
E1 P avoid 132 require none = 1 | 21[E3,E0]
E2 C avoid 21 require none = 1 | 12[E4,E2]
E3 M avoid 132 require none = 1 | 12[E1,E2]
E4 P avoid 21 require none = 1
end
count 3 = 5
",
    ),
    (
        "basis 2143 2413 3142\ncount 1\n",
        Status::Done,
        "permspec 1
basis 2143 2413 3142
simples 4:0 5:0
gap 4
system 2 equations 5 terms 11
E0 C avoid 2143 2413 3142 require none = 1 | 12[E1,E0] | 12[E2,E3] | 21[E4,E0]
E1 P avoid 21 require none = 1
E2 P avoid 2143 2413 3142 require 21 = 21[E4,E0]
E3 C avoid 21 require none = 1 | 12[E1,E3]
E4 M avoid 2143 2413 3142 require none = 1 | 12[E1,E0] | 12[E2,E3]
end
count 1 = 1
",
    ),
    (
        "basis 123 132\ncount 1\n",
        Status::Done,
        "permspec 1
basis 123 132
simples 4:0 5:0
gap 4
system 2 equations 6 terms 11
E0 C avoid 123 132 require none = 1 | 12[E1,E2] | 21[E3,E0]
E1 P avoid 12 require none = 1 | 21[E4,E5]
E2 C avoid 12 21 require none = 1
E3 M avoid 123 132 require none = 1 | 12[E1,E2]
E4 M avoid 12 require none = 1
E5 C avoid 12 require none = 1 | 21[E4,E5]
end
count 1 = 1
",
    ),
    (
        "basis 1\ncount 1\ndraw 1 0 1\ndrawstat inv 1 0 1\nstat inv 1\npick inv 0 1\ndist inv 24\n",
        Status::Done,
        "permspec 1
basis 1
simples 4:0 5:0
gap 4
system 2 equations 1 terms 0
E0 C avoid 1 require none = none
end
count 1 = 0
draw 1 0 1 = none of 0
drawstat inv 1 0 1 = none of 0
stat inv 1 = none
pick inv 0 1 =
end
dist inv 24 = none
",
    ),
    (
        "basis 12 12 132\ncount 1\n",
        Status::Done,
        "permspec 1
basis 12
simples 4:0 5:0
gap 4
system 2 equations 2 terms 3
E0 C avoid 12 require none = 1 | 21[E1,E0]
E1 M avoid 12 require none = 1
end
count 1 = 1
",
    ),
    (
        "basis 132\nrequire 21\ncounts 5\nlist 3\nrank 123\nrank 132\n",
        Status::Done,
        "permspec 1
basis 132
require 21
simples 4:0 5:0
gap 4
system 2 equations 7 terms 13
E0 C avoid 132 require 21 = 12[E1,E2] | 21[E3,E4]
E1 P avoid 132 require 21 = 21[E3,E4]
E2 C avoid 21 require none = 1 | 12[E5,E2]
E3 M avoid 132 require none = 1 | 12[E6,E2]
E4 C avoid 132 require none = 1 | 12[E6,E2] | 21[E3,E4]
E5 P avoid 21 require none = 1
E6 P avoid 132 require none = 1 | 21[E3,E4]
end
counts 5 = 0 1 4 13 41
list 3 from 0 for 1000 =
0 213
1 312
2 321
3 231
end
rank 123 = lacks 21
rank 132 = no 132 at 1 2 3
",
    ),
    (
        "basis 21\nrequire 321\ncounts 3\n",
        Status::Done,
        "permspec 1
basis 21
require 321
simples 4:0 5:0
gap 4
system 2 equations 1 terms 0
E0 C avoid 21 require 321 = none
end
counts 3 = 0 0 0
",
    ),
    (
        "basis 21\nrequire 1\ncounts 3\ndist des 24\n",
        Status::Done,
        "permspec 1
basis 21
require none
simples 4:0 5:0
gap 4
system 2 equations 2 terms 3
E0 C avoid 21 require none = 1 | 12[E1,E0]
E1 P avoid 21 require none = 1
end
counts 3 = 1 1 1
dist des 24 = 0:1
",
    ),
    (
        "basis 21\nrequire 123\ncounts 4\n",
        Status::Done,
        "permspec 1
basis 21
require 123
simples 4:0 5:0
gap 4
system 2 equations 5 terms 6
E0 C avoid 21 require 123 = 12[E1,E2]
E1 P avoid 12 21 require none = 1
E2 C avoid 21 require 12 = 12[E3,E4]
E3 P avoid 21 require none = 1
E4 C avoid 21 require none = 1 | 12[E3,E4]
end
counts 4 = 0 0 1 1
",
    ),
    (
        "basis 21\nrequire 123\ncounts 4\nformat 1\n",
        Status::Done,
        "permspec 1
basis 21
require 123
simples 4:0 5:0
gap 4
system 1 equations 7 terms 8
E0 C avoid 21 require 123 = 12[E1,E2] | 12[E3,E4] | 12[E5,E4]
E1 P avoid 12 21 require none = 1
E2 C avoid 21 require 12 = 12[E6,E4]
E3 P avoid 21 123 require 12 = none
E4 C avoid 21 require none = 1 | 12[E6,E4]
E5 P avoid 21 require 123 = none
E6 P avoid 21 require none = 1
end
counts 4 = 0 0 1 1
",
    ),
    (
        "basis\n",
        Status::Unsettled,
        "permspec 1\nbasis none\nsimples 4:2 5:6 6:46 7:338 8:2926\nunsettled 8\n",
    ),
    (
        "basis 12\ntree 213\ntree 2,6,1,4,5,3\n",
        Status::Done,
        "permspec 1
basis 12
simples 4:0 5:0
gap 4
system 2 equations 2 terms 3
E0 C avoid 12 require none = 1 | 21[E1,E0]
E1 M avoid 12 require none = 1
end
tree 213 = 12[21[1,1],1]
tree 261453 = 2413[1,1,1,21[12[1,1],1]]
",
    ),
    (
        "basis 12\nunion 21\ncounts 5\n",
        Status::Done,
        "permspec 1
union 12 with 21
basis 132 213 231 312
simples 4:0 5:0
gap 4
system 2 equations 5 terms 9
E0 C avoid 132 213 231 312 require none = 1 | 12[E1,E2] | 21[E3,E4]
E1 P avoid 21 require none = 1
E2 C avoid 21 require none = 1 | 12[E1,E2]
E3 M avoid 12 require none = 1
E4 C avoid 12 require none = 1 | 21[E3,E4]
end
counts 5 = 1 2 2 2 2
",
    ),
    (
        "basis 1\nunion 132\ncount 7\n",
        Status::Done,
        "permspec 1
union 1 with 132
basis 132
simples 4:0 5:0
gap 4
system 2 equations 5 terms 10
E0 C avoid 132 require none = 1 | 12[E1,E2] | 21[E3,E0]
E1 P avoid 132 require none = 1 | 21[E3,E0]
E2 C avoid 21 require none = 1 | 12[E4,E2]
E3 M avoid 132 require none = 1 | 12[E1,E2]
E4 P avoid 21 require none = 1
end
count 7 = 429
",
    ),
    (
        "basis 132\nunion\n",
        Status::Unsettled,
        "permspec 1\nunion 132 with none\nbasis none\nsimples 4:2 5:6 6:46 7:338 8:2926\nunsettled 8\n",
    ),
    ("basis 132\ncount 161\n", Status::Refused, "fault 2 7\n"),
    ("", Status::Refused, "fault 0 1\n"),
];

#[test]
fn scripts_are_answered(rt: HostRuntime) -> Result<(), Fail> {
    for (script, status, text) in &ANSWERED {
        let ended = run_script(rt.alloc(), &[], script.as_bytes())?;
        assert!(rt; ended.status == *status, "{script}");
        assert!(rt; ended.held.as_slice() == text.as_bytes(), "{script}");
    }
    Ok(())
}

// The ten words of which the class has gap 5, and two simple words of length 4.
const TEN: &[u8] =
    b"basis 24153 25314 31524 35142 41352 42513 246135 362514 415263 531642\ncount 1\n";

// The six simple words of length 5.
const SIX: &[u8] = b"basis 24153 25314 31524 35142 41352 42513\n";

// Its text with simple words up to length 6.
const TEN_ANSWER: &[u8] = b"permspec 1
basis 24153 25314 31524 35142 41352 42513 246135 362514 415263 531642
simples 4:2 5:0 6:0
gap 5
system 2 equations 3 terms 13
E0 C avoid 24153 25314 31524 35142 41352 42513 246135 362514 415263 531642 require none = 1 | 12[E1,E0] | 21[E2,E0] | 2413[E0,E0,E0,E0] | 3142[E0,E0,E0,E0]
E1 P avoid 24153 25314 31524 35142 41352 42513 246135 362514 415263 531642 require none = 1 | 21[E2,E0] | 2413[E0,E0,E0,E0] | 3142[E0,E0,E0,E0]
E2 M avoid 24153 25314 31524 35142 41352 42513 246135 362514 415263 531642 require none = 1 | 12[E1,E0] | 2413[E0,E0,E0,E0] | 3142[E0,E0,E0,E0]
end
count 1 = 1
";

#[test]
fn the_limit_of_lengths_decides(rt: HostRuntime) -> Result<(), Fail> {
    let options: [&[&str]; 2] = [&[], &["--max-simple", "6"]];
    for words in &options {
        let settled = run_script(rt.alloc(), words, TEN)?;
        assert!(rt; settled.status == Status::Done, "{words:?}");
        assert!(rt; settled.held.as_slice() == TEN_ANSWER, "{words:?}");
    }
    let unsettled = run_script(rt.alloc(), &["--max-simple=5"], TEN)?;
    assert!(rt; unsettled.status == Status::Unsettled);
    assert!(rt; unsettled.held.ends_with(b"simples 4:2 5:0\nunsettled 5\n"));
    // One empty length is not enough.
    let one_empty = run_script(rt.alloc(), &["--max-simple", "6"], SIX)?;
    assert!(rt; one_empty.status == Status::Unsettled);
    assert!(rt;
        one_empty
            .held
            .ends_with(b"simples 4:2 5:0 6:4\nunsettled 6\n")
    );
    Ok(())
}

// The system of 15 equations and terms is within 15, and too large for 14.
#[test]
fn the_limit_of_sizes_decides(rt: HostRuntime) -> Result<(), Fail> {
    let within = run_script(rt.alloc(), &["--max-size", "15"], CATALAN)?;
    assert!(rt; within.status == Status::Done);
    assert!(rt; within.held.as_slice() == CATALAN_ANSWER);
    let beyond = run_script(rt.alloc(), &["--max-size=14"], CATALAN)?;
    assert!(rt; beyond.status == Status::TooLarge);
    assert!(rt;
        beyond.held.as_slice()
            == b"permspec 1\nbasis 132\nsimples 4:0 5:0\ngap 4\ntoo large 14\n".as_slice()
    );
    Ok(())
}

// The size is that of the canonical system in both formats: 15, though the pruned system has 11.
#[test]
fn the_size_is_counted_before_pruning(rt: HostRuntime) -> Result<(), Fail> {
    for script in [
        "basis 21\nrequire 123\n",
        "basis 21\nrequire 123\nformat 1\n",
    ] {
        let within = run_script(rt.alloc(), &["--max-size=15"], script.as_bytes())?;
        assert!(rt; within.status == Status::Done, "{script}");
        let beyond = run_script(rt.alloc(), &["--max-size=14"], script.as_bytes())?;
        assert!(rt; beyond.status == Status::TooLarge, "{script}");
    }
    Ok(())
}

// A script of 65,536 bytes is read whole, and one byte more is too much.
#[test]
fn the_longest_script(rt: HostRuntime) -> Result<(), Fail> {
    let mut script = Vec::from_slice(rt.alloc(), b"basis 132\n#")?;
    script.extend_from_slice(&[b'x'; 65_525])?;
    let longest = run_script(rt.alloc(), &[], &script)?;
    assert!(rt; longest.status == Status::Done);
    assert!(rt; longest.held.as_slice() == &CATALAN_ANSWER[..CATALAN_ANSWER.len() - LAST_LINE]);
    script.push(b'x')?;
    let longer = run_script(rt.alloc(), &[], &script)?;
    assert!(rt; longer.status == Status::Refused);
    assert!(rt; longer.held.as_slice() == b"fault 0 8\n".as_slice());
    Ok(())
}

// The separable permutations, by the numbers of Schroeder.
#[test]
fn counts_of_the_separable_permutations(rt: HostRuntime) -> Result<(), Fail> {
    let script = b"basis 2413 3142\ncount 1\ncount 4\ncount 7\n";
    let ended = run_script(rt.alloc(), &[], script)?;
    assert!(rt; ended.status == Status::Done);
    assert!(rt;
        ended
            .held
            .ends_with(b"count 1 = 1\ncount 4 = 22\ncount 7 = 1806\n")
    );
    Ok(())
}

// The sum of the counts of bars: of the numbers after a colon.
fn sum_of_counts(bars: &[u8]) -> u128 {
    let mut sum: u128 = 0;
    let mut count: u128 = 0;
    let mut is_count = false;
    for byte in bars {
        match byte {
            b':' => is_count = true,
            b'0'..=b'9' => {
                if is_count {
                    count = count
                        .saturating_mul(10)
                        .saturating_add(u128::from(*byte - b'0'));
                }
            }
            _ => {
                sum = sum.saturating_add(count);
                count = 0;
                is_count = false;
            }
        }
    }
    sum
}

// The class has 1289904147324 permutations of length 24. Those with fewest inversions are counted by partitions: one for each
// partition of the number.
#[test]
fn a_distribution_at_the_greatest_length(rt: HostRuntime) -> Result<(), Fail> {
    let ended = run_script(rt.alloc(), &[], b"basis 132\ndist inv 24\n")?;
    assert!(rt; ended.status == Status::Done);
    // The system is that of the first script.
    let Some(line) = ended
        .held
        .as_slice()
        .get(CATALAN_ANSWER.len() - LAST_LINE..)
    else {
        assert!(rt; false, "the text is too short");
        return Ok(());
    };
    assert!(rt; line.starts_with(b"dist inv 24 = 0:1 1:1 2:2 3:3 4:5 "));
    assert!(rt; line.ends_with(b" 276:1\n"));
    assert_eq!(rt; sum_of_counts(line), 1_289_904_147_324);
    Ok(())
}

#[test]
fn other_words_are_refused(rt: HostRuntime) -> Result<(), Fail> {
    let refused: [&[&str]; 39] = [
        &["--max-simple", "11"],
        &["--max-simple=4"],
        &["--max-simple=08"],
        &["--max-simple"],
        &["--max-simple", "8", "--max-simple", "8"],
        &["--max-simple=8", "--max-size=9", "--max-simple=8"],
        &["--max-size", "0"],
        &["--max-size", "65537"],
        &["--max-size=", "5"],
        &["--max-size==5"],
        &["--max-size", "--max-simple=8"],
        &["--demo"],
        &["--demo="],
        &["--demo", "100000"],
        &["--demo", "007"],
        &["--demo=1", "--demo=1"],
        &["--dem", "1"],
        &["--"],
        &["--", "--max-simple=8"],
        &["--check", "--"],
        &["--check", "--check"],
        &["--check="],
        &["--check=1"],
        &["--check=true"],
        &["--check", "1"],
        &["--check", "--demo", "3"],
        &["--demo=3", "--check"],
        &["--max-size", "5", "--check"],
        &["--check", "--max-size=5"],
        &["--demo", "--check"],
        &["--max-simple", "--check"],
        &["--chec"],
        &["--checks"],
        &["-check"],
        &["-h"],
        &["--help"],
        &["--version"],
        &[""],
        &["x"],
    ];
    for words in &refused {
        let ended = run_script(rt.alloc(), words, CATALAN)?;
        assert!(rt; ended.status == Status::Words, "{words:?}");
        assert!(rt; ended.held.is_empty(), "{words:?}");
    }
    Ok(())
}

#[test]
fn the_options_are_accepted(rt: HostRuntime) -> Result<(), Fail> {
    let accepted: [&[&str]; 7] = [
        &["--max-size=14"],
        &["--max-simple", "5", "--max-size", "65536"],
        &["--max-size", "1", "--max-simple=10"],
        &["--max-size=1", "--max-simple", "10"],
        &["--max-simple=5", "--max-size=20000"],
        &["--demo=0"],
        &["--demo", "99999", "--max-size=1", "--max-simple", "10"],
    ];
    for texts in &accepted {
        let words = command_line(rt.alloc(), texts)?;
        assert!(rt; read_words(rt.alloc(), &words).is_ok(), "{texts:?}");
    }
    let words = command_line(rt.alloc(), &["--max-size", "14", "--max-simple=6"])?;
    let wanted = Options {
        max_simple: 6,
        max_size: 14,
        demo: None,
        check: false,
    };
    assert!(rt; read_words(rt.alloc(), &words) == Ok(wanted));
    Ok(())
}

#[test]
fn a_check_takes_no_value(rt: HostRuntime) -> Result<(), Fail> {
    let accepted: [&[&str]; 3] = [
        &["--check", "--max-simple", "6"],
        &["--max-simple=6", "--check"],
        &["--max-simple", "6", "--check"],
    ];
    let wanted = Options {
        max_simple: 6,
        max_size: 20_000,
        demo: None,
        check: true,
    };
    for texts in &accepted {
        let words = command_line(rt.alloc(), texts)?;
        assert!(rt; read_words(rt.alloc(), &words) == Ok(wanted), "{texts:?}");
    }
    let words = command_line(rt.alloc(), &["--check"])?;
    assert!(rt; read_words(rt.alloc(), &words).is_ok_and(|options| options.check));
    Ok(())
}

// A script that asks for the tree of the word n, .., 2, 1, and its text.
fn falling(alloc: Global, n: u8) -> Result<Vec<u8>, AllocError> {
    let mut script = Vec::from_slice(alloc, b"basis 1\ntree ")?;
    for k in 0..n {
        let entry = n - k;
        script.extend_from_slice(format!(in alloc; "{entry}")?.as_bytes())?;
        script.extend_from_slice(if entry == 1 { b"\n" } else { b"," })?;
    }
    Ok(script)
}

// The longest words have the deepest trees.
#[test]
fn a_tree_of_depth_159(rt: HostRuntime) -> Result<(), Fail> {
    let script = falling(rt.alloc(), 160)?;
    let ended = run_script(rt.alloc(), &[], &script)?;
    assert!(rt; ended.status == Status::Done);
    // 41 bytes of header, 66 of the system, the word of 531, and 955 of the tree: 158 times `21[1,` and `]` round `21[1,1]`.
    assert_eq!(rt; ended.held.len(), 41 + 66 + 5 + 531 + 3 + 955 + 1);
    assert!(rt; ended.held.ends_with(b"]]]]\n"));
    Ok(())
}

#[test]
fn lists_are_told_from_words(rt: HostRuntime) -> Result<(), Fail> {
    let long = [1u8; 161];
    let none: [u8; 0] = [];
    let faults: [(&[u8], usize); 3] = [(&[1, 2, 2, 4], 3), (&none, 1), (&long, 162)];
    for (entries, place) in &faults {
        assert!(rt; Perm::from_entries(entries) == Err(NotPerm { at: *place }));
    }
    let Ok(word) = Perm::from_entries(&[2, 4, 1, 3, 5]) else {
        assert!(rt; false);
        return Ok(());
    };
    assert!(rt; !is_simple(&word), "2413 is an interval of it");
    Ok(())
}

// The roots of the class of the ten words.
fn roots(alloc: Global) -> Result<Option<Words>, Memory> {
    let Ok(script) = read_script(alloc, TEN) else {
        return Ok(None);
    };
    let basis = minimal(alloc, &script.basis.copy(alloc)?)?;
    let found = search(alloc, &basis, 6)?;
    match found.outcome() {
        Outcome::Gap(_) => Ok(Some(found.roots(alloc)?)),
        Outcome::Unsettled => Ok(None),
    }
}

#[test]
fn two_simple_words_are_below_the_gap(rt: HostRuntime) {
    let Ok(Some(roots)) = roots(rt.alloc()) else {
        assert!(rt; false);
        return;
    };
    let wanted: [[u8; 4]; 2] = [[2, 4, 1, 3], [3, 1, 4, 2]];
    assert_eq!(rt; roots.len(), 2);
    for (root, entries) in roots.as_slice().iter().zip(&wanted) {
        assert!(rt; root.as_slice() == entries.as_slice());
    }
}
