// The inflation of a word by blocks.
ghost use Rattle.std.specs.Prelude.{◌≡◌, ◌+◌, ◌<◌, ◌≤◌, ◌++◌, length, slice_index, sum_by, IsTrue};
ghost use Rattle.av_perm.specs.Word.{is_perm};
ghost use Rattle.av_perm.specs.Inflate.{points_below, block, raised, inflate};

use crate::limits::MAX_LENGTH;
use crate::perm::Perm;
use arrayvec::ArrayVec;

/// The inflation of a root by as many blocks, which have at most `MAX_LENGTH` entries together: each block in turn stands for an
/// entry of the root, and the blocks' values lie as those entries lie. It takes no memory.
pub fn inflate(root: &Perm, blocks: &[Perm]) -> Perm
    requires count { length blocks.now ≡ length root.now }
    requires few { sum_by length blocks.now ≤ MAX_LENGTH }
    ensures { result ≡ inflate root.now blocks.now }
{
    let mut entries = ArrayVec::new();
    for i in 0..root.len() {
        let raise = raise_of(root, blocks, i);
        push_raised(&mut entries, &blocks[i], raise);
    }
    Perm::from_word(entries)
}

// By how much block i is raised: by the lengths of the blocks with smaller root entries.
fn raise_of(root: &Perm, blocks: &[Perm], i: usize) -> u8
    requires count { length blocks.now ≡ length root.now }
    requires few { sum_by length blocks.now ≤ MAX_LENGTH }
    requires within { i < length root.now }
    ensures { result ≡ points_below (slice_index root.now i) root.now blocks.now }
{
    let entry = root.entry(i + 1);
    let mut raise = 0;
    for k in 0..root.len() {
        if root.entry(k + 1) < entry {
            raise += blocks[k].len() as u8;
        }
    }
    raise
}

// Appends the entries of a block, each raised.
fn push_raised(entries: &mut ArrayVec<u8, MAX_LENGTH>, block: &Perm, raise: u8)
    requires room { length entries.old.items + length block.now ≤ MAX_LENGTH }
    requires low { raise + length block.now ≤ MAX_LENGTH }
    ensures items { entries.new.items ≡ entries.old.items ++ raised raise block.now }
    ensures block { IsTrue (is_perm block.now) }
{
    let _word = block.len();
    for entry in block.as_slice() {
        entries.push(*entry + raise);
    }
}
