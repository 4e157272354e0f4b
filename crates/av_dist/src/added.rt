// What an inflation adds to the statistics of its blocks.
ghost use Rattle.std.specs.Prelude.{◌≡◌, ◌<◌, ◌≤◌, ◌+◌, ◌*◌, length, drop, slice_index};
ghost use Rattle.av_dist.specs.Crossing.{lesser, crossing, added};

use av_perm::{MAX_ROOT_LENGTH, Perm, StatKind, statistic};
use av_text::DistKind;

// The sum of the sizes from place i + 1 on where the entry is below that of place i.
fn lesser_sizes(root: &[u8], sizes: &[u8], i: usize) -> usize
    requires i { i < length root.now }
    requires few { length root.now ≤ MAX_ROOT_LENGTH }
    requires long { length sizes.now ≡ length root.now }
    ensures value { result ≡ lesser (slice_index root.now i) (drop (i + 1) root.now) (drop (i + 1) sizes.now) }
    ensures most { result ≤ 255 * MAX_ROOT_LENGTH }
{
    let own = root[i];
    let mut sum = 0;
    for j in i + 1..root.len() {
        if root[j] < own {
            sum += sizes[j] as usize;
        }
    }
    sum
}

// The sum of the products of two sizes, over the pairs of places of the root of which the first holds the greater entry.
fn crossing_sizes(root: &[u8], sizes: &[u8]) -> usize
    requires few { length root.now ≤ MAX_ROOT_LENGTH }
    requires long { length sizes.now ≡ length root.now }
    ensures { result ≡ crossing root.now sizes.now }
{
    let mut sum = 0;
    for i in 0..root.len() {
        sum += sizes[i] as usize * lesser_sizes(root, sizes, i);
    }
    sum
}

// What an inflation of the root by blocks of these sizes has beyond the statistics of its blocks.
pub fn added_by(kind: DistKind, root: &Perm, sizes: &[u8]) -> usize
    requires few { length root.now ≤ MAX_ROOT_LENGTH }
    requires long { length sizes.now ≡ length root.now }
    ensures { result ≡ added kind root.now sizes.now }
{
    match kind {
        DistKind::Inv => crossing_sizes(root.as_slice(), sizes),
        DistKind::Des => statistic(StatKind::Des, root) as usize,
    }
}
