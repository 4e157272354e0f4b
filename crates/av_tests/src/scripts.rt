// Texts that are scripts, and texts that are refused.
use av_perm::Memory;
use av_text::{Kind, Query, ScriptError, demo_script, read_script};

/// Texts that are refused, each with the line and the kind of its fault.
static REFUSED: [(&str, u32, Kind); 104] = [
    // No basis line.
    ("", 0, Kind::NoBasis),
    ("\n", 0, Kind::NoBasis),
    (" \t\r\n# basis 132", 0, Kind::NoBasis),
    ("count 7", 0, Kind::NoBasis),
    ("count 7\ntree 21\n", 0, Kind::NoBasis),
    // Tokens that spell no word.
    ("basis 0", 1, Kind::BadWord),
    ("basis 1224", 1, Kind::BadWord),
    ("basis 1234567890", 1, Kind::BadWord),
    ("basis 112345678910", 1, Kind::BadWord),
    ("basis 2,1,3,", 1, Kind::BadWord),
    ("basis ,2,1,3", 1, Kind::BadWord),
    ("basis 2,1,,3", 1, Kind::BadWord),
    ("basis 02,01", 1, Kind::BadWord),
    ("basis 2,0,1", 1, Kind::BadWord),
    ("basis 1,0002", 1, Kind::BadWord),
    ("basis 1,999", 1, Kind::BadWord),
    ("basis 1,-2", 1, Kind::BadWord),
    ("basis 1;2", 1, Kind::BadWord),
    ("basis none", 1, Kind::BadWord),
    ("basis 132 # 21", 1, Kind::BadWord),
    ("basis 132\ntree 0", 2, Kind::BadWord),
    ("basis 132\ntree 122", 2, Kind::BadWord),
    ("basis 132\ntree 1,2,,3", 2, Kind::BadWord),
    ("basis 132\nrank 122", 2, Kind::BadWord),
    ("basis 132\nrank 1,2,,3", 2, Kind::BadWord),
    (
        "basis 132\ntree 111111111111111111111111111111111111111111111111111111111111111111111111111111111111111111\
         1111111111111111111111111111111111111111111111111111111111111111111111",
        2,
        Kind::BadWord,
    ),
    // Words that are too long.
    ("basis 1111111111111", 1, Kind::LongWord),
    ("basis 1,2,3,4,5,6,7,8,9,10,11,12,13", 1, Kind::LongWord),
    ("basis 999,1,2,3,4,5,6,7,8,9,10,11,12", 1, Kind::LongWord),
    // The first token decides.
    ("basis 21 122 1111111111111", 1, Kind::BadWord),
    ("basis 21 1111111111111 122", 1, Kind::LongWord),
    (
        "basis 132\ntree 111111111111111111111111111111111111111111111111111111111111111111111111111111111111111111\
         11111111111111111111111111111111111111111111111111111111111111111111111",
        2,
        Kind::LongWord,
    ),
    // More than 64 words, before what they are.
    (
        "basis 0 1 1 1 1 1 1 1 1 1 1 1 1 1 1 1 1 1 1 1 1 1 1 1 1 1 1 1 1 1 1 1 1 \
         1 1 1 1 1 1 1 1 1 1 1 1 1 1 1 1 1 1 1 1 1 1 1 1 1 1 1 1 1 1 1 1",
        1,
        Kind::ManyWords,
    ),
    // Lines of no form.
    ("b", 1, Kind::UnknownQuery),
    ("BASIS 132", 1, Kind::UnknownQuery),
    ("basis132", 1, Kind::UnknownQuery),
    ("basis 132\ncuont 7", 2, Kind::UnknownQuery),
    ("basis 132\nCount 7", 2, Kind::UnknownQuery),
    ("basis 132\ncount", 2, Kind::UnknownQuery),
    ("basis 132\ncount 7 7", 2, Kind::UnknownQuery),
    ("basis 132\ncount x y", 2, Kind::UnknownQuery),
    ("basis 132\ncount 7 # all", 2, Kind::UnknownQuery),
    ("basis 132\ncounts", 2, Kind::UnknownQuery),
    ("basis 132\ncounts 7 7", 2, Kind::UnknownQuery),
    ("basis 132\ntree", 2, Kind::UnknownQuery),
    ("basis 132\ntree 1 2", 2, Kind::UnknownQuery),
    ("basis 132\n7", 2, Kind::UnknownQuery),
    ("basis 132\nlist", 2, Kind::UnknownQuery),
    ("basis 132\nlist 3 from", 2, Kind::UnknownQuery),
    ("basis 132\nlist 3 by 2", 2, Kind::UnknownQuery),
    ("basis 132\nlist 3 for 2 from 1", 2, Kind::UnknownQuery),
    ("basis 132\nlist x from 2 for", 2, Kind::UnknownQuery),
    ("basis 132\nunrank 3", 2, Kind::UnknownQuery),
    ("basis 132\ndraw 3 1", 2, Kind::UnknownQuery),
    ("basis 132\ndrawstat maj 0 x 1", 2, Kind::UnknownQuery),
    ("basis 132\nstat foo 3", 2, Kind::UnknownQuery),
    ("basis 132\nstat inv 3 4", 2, Kind::UnknownQuery),
    ("basis 132\npick inv 3", 2, Kind::UnknownQuery),
    // Arguments that are no number.
    ("basis 132\ncount x", 2, Kind::BadNumber),
    ("basis 132\ncount 07", 2, Kind::BadNumber),
    ("basis 132\ncount 00", 2, Kind::BadNumber),
    ("basis 132\ncount +7", 2, Kind::BadNumber),
    ("basis 132\ncount 7.", 2, Kind::BadNumber),
    ("basis 132\ncounts 007", 2, Kind::BadNumber),
    ("basis 132\ncounts 2,1", 2, Kind::BadNumber),
    ("basis 132\nunrank 3 x", 2, Kind::BadNumber),
    ("basis 132\nlist 3 from 01 for 0", 2, Kind::BadNumber),
    ("basis 132\nstat inv x", 2, Kind::BadNumber),
    ("basis 132\npick inv x 13", 2, Kind::BadNumber),
    // Numbers out of range.
    ("basis 132\ncount 0", 2, Kind::Range),
    ("basis 132\ncount 161", 2, Kind::Range),
    ("basis 132\ncounts 0", 2, Kind::Range),
    ("basis 132\ncounts 161", 2, Kind::Range),
    ("basis 132\nlist 3 for 0", 2, Kind::Range),
    ("basis 132\nlist 3 for 1000001", 2, Kind::Range),
    ("basis 132\ndraw 3 18446744073709551616 0", 2, Kind::Range),
    ("basis 132\nstat inv 0", 2, Kind::Range),
    ("basis 132\nstat inv 13", 2, Kind::Range),
    ("basis 132\npick inv 12721 3", 2, Kind::Range),
    ("basis 132\npick lrm 12720 13", 2, Kind::Range),
    (
        "basis 132\nlist 3 from 340282366920938463463374607431768211456",
        2,
        Kind::Range,
    ),
    (
        "basis 132\nunrank 3 340282366920938463463374607431768211456",
        2,
        Kind::Range,
    ),
    ("basis 132\nunrank 0 x", 2, Kind::Range),
    (
        "basis 132\ncount 340282366920938463463374607431768211457",
        2,
        Kind::Range,
    ),
    (
        "basis 132\ncount 99999999999999999999999999999999999999999999",
        2,
        Kind::Range,
    ),
    // Bytes that aren't allowed, also in a comment, and before any other fault of the line.
    ("basis 132\n\u{c3}", 2, Kind::BadByte),
    ("basis 132\n# \x7f", 2, Kind::BadByte),
    ("basis 132\r\r\ncount 7", 1, Kind::BadByte),
    ("basis 132\n\rcount 7\n", 2, Kind::BadByte),
    ("basis 132\ncount x\x00", 2, Kind::BadByte),
    ("basis 132\nbasis 0\x1f", 2, Kind::BadByte),
    // A second basis line, whatever it has.
    ("basis 132\n# note\nbasis 21", 3, Kind::SecondBasis),
    ("basis\nbasis", 2, Kind::SecondBasis),
    ("basis 132\nbasis 0 1111111111111", 2, Kind::SecondBasis),
    // A second union line, whatever it has, and a union line whose words are too long beside those of the basis, last of all.
    ("basis 12\nunion 21\nunion 21", 3, Kind::SecondUnion),
    ("basis 12\nunion\nunion 122", 3, Kind::SecondUnion),
    ("basis 12\nunion 122", 2, Kind::BadWord),
    ("basis 132\nunion 12345678", 2, Kind::LongUnion),
    ("union 12345678\ncount 3\nbasis 21 132", 1, Kind::LongUnion),
    ("basis 132\nunion 12345678\ncount 0", 3, Kind::Range),
    ("union 12345678", 0, Kind::NoBasis),
    // The first line that has a fault.
    ("cuont 7\nbasis 0", 1, Kind::UnknownQuery),
    ("basis 0\ncount \x07", 1, Kind::BadWord),
    ("count 161\ncount x\n", 1, Kind::Range),
];

/// Texts that are scripts.
const ACCEPTED: [&str; 12] = [
    "basis 132\nunion 1234567",
    "union\nbasis 132",
    "basis\nunion 12345678",
    "basis",
    "basis\n",
    "basis 132\r",
    "\n \t \r\n#\n# note\n\tbasis\t1  \ncount 1",
    "count 7\n#note\nbasis 1,3,2 132",
    "basis 132\ncount 160\ncounts 160",
    "basis 12,11,10,9,8,7,6,5,4,3,2,1 2,1",
    "basis 132\r\n\r\ntree 10,9,8,7,6,5,4,3,2,1\r\n\r",
    "basis 1 1 1 1 1 1 1 1 1 1 1 1 1 1 1 1 1 1 1 1 1 1 1 1 1 1 1 1 1 1 1 1 \
     1 1 1 1 1 1 1 1 1 1 1 1 1 1 1 1 1 1 1 1 1 1 1 1 1 1 1 1 1 1 1 1",
];

#[test]
fn each_fault_has_its_line_and_kind(rt: HostRuntime) {
    for (text, line, kind) in &REFUSED {
        match read_script(rt.alloc(), text.as_bytes()) {
            Err(fault) => assert_eq!(rt;
                fault,
                ScriptError::Refused {
                    line: *line,
                    kind: *kind
                },
                "at {text:?}"
            ),
            Ok(_) => assert!(rt; false, "accepted {text:?}"),
        }
    }
    for text in ACCEPTED {
        assert!(rt;
            read_script(rt.alloc(), text.as_bytes()).is_ok(),
            "refused {text:?}"
        );
    }
}

#[test]
fn a_script_is_what_its_lines_say(rt: HostRuntime) {
    let text = "count 7\n# note\n\tbasis 2,1,3  132 132\r\n\ntree 10,9,8,7,6,5,4,3,2,1";
    let Ok(script) = read_script(rt.alloc(), text.as_bytes()) else {
        return assert!(rt; false, "refused");
    };
    assert_eq!(rt; script.basis.len(), 3);
    assert_eq!(rt; script.basis.get(0).as_slice(), [2, 1, 3].as_slice());
    assert_eq!(rt; script.basis.get(1).as_slice(), [1, 3, 2].as_slice());
    assert_eq!(rt; script.basis.get(2).as_slice(), [1, 3, 2].as_slice());
    assert_eq!(rt; script.queries.len(), 2);
    assert!(rt; matches!(script.queries.get(0), Query::Count { n: 7 }));
    match script.queries.get(1) {
        Query::Tree { word } => {
            assert_eq!(rt; word.as_slice(), [10, 9, 8, 7, 6, 5, 4, 3, 2, 1].as_slice())
        }
        _ => assert!(rt; false, "not the second query"),
    }
}

#[test]
fn a_text_is_as_long_as_it_may_be(rt: HostRuntime) {
    let Ok(mut text) = vec![in rt.alloc(); b'#'; 65_536] else {
        return assert!(rt; false, "memory is wanting");
    };
    for (byte, at) in b"basis 132\n".iter().zip(text.iter_mut()) {
        *at = *byte;
    }
    assert!(rt; read_script(rt.alloc(), &text).is_ok());
    assert!(rt; text.push(b'#').is_ok());
    match read_script(rt.alloc(), &text) {
        Err(ScriptError::Refused { line: 0, kind }) => assert_eq!(rt; kind.number(), 8),
        _ => assert!(rt; false, "not refused as too long"),
    }
}

// The words of length 4 at the places 0, 10, 15 and 23, in lexicographic order.
#[test]
fn demo_scripts(rt: HostRuntime) -> Result<(), Memory> {
    let wanted: [(u32, &[u8]); 4] = [
        (
            0,
            b"basis 24153 25314 31524 35142 41352 42513 246135 362514 415263 531642 1234\ncounts 160\ndrawstat inv 40 0 1000\n",
        ),
        (
            10,
            b"basis 24153 25314 31524 35142 41352 42513 246135 362514 415263 531642 2413\ncounts 160\ndrawstat inv 40 10 1000\n",
        ),
        (
            47,
            b"basis 24153 25314 31524 35142 41352 42513 246135 362514 415263 531642 4321\ncounts 160\ndrawstat inv 40 47 1000\n",
        ),
        (
            99999,
            b"basis 24153 25314 31524 35142 41352 42513 246135 362514 415263 531642 3241\ncounts 160\ndrawstat inv 40 99999 1000\n",
        ),
    ];
    for (g, bytes) in wanted {
        let script = demo_script(rt.alloc(), g)?;
        assert!(rt; script.as_slice() == bytes, "{g}");
    }
    Ok(())
}
