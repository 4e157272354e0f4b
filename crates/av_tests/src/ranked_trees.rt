// Words at places that are known.
use crate::system_parts::binary;
use crate::words::word;
use av_count::Table;
use av_tree::unrank;
use std::test::Fail;

#[test]
fn words_come_by_terms_then_sizes_then_subtrees(rt: HostRuntime) -> Result<(), Fail> {
    let system = binary(rt.alloc())?;
    if system.check() {
        let table = Table::new(rt.alloc(), &system, 3)?;
        assert!(rt; unrank(&system, &table, 3, 0) == Some(word(&rt, &[1, 2, 3])));
        assert!(rt; unrank(&system, &table, 3, 1) == Some(word(&rt, &[1, 3, 2])));
        assert!(rt; unrank(&system, &table, 3, 3) == Some(word(&rt, &[2, 1, 3])));
        assert!(rt; unrank(&system, &table, 3, 6) == Some(word(&rt, &[2, 3, 1])));
        assert!(rt; unrank(&system, &table, 3, 8) == None);
    } else {
        assert!(rt; false);
    }
    Ok(())
}
