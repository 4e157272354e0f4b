// The root and the blocks of a word.
ghost use Rattle.std.specs.Prelude.{◌≡◌, ℕ, ◌<◌, ◌≤◌, length, map, slice_index, ◌-◌};
ghost use Rattle.av_perm.specs.Word.{entry};
ghost use Rattle.av_perm.specs.Pattern.{pattern_of};
ghost use Rattle.av_interval.specs.Intervals.{Tiles};
ghost use Rattle.av_decomp.specs.Blocks.{block_at, root_at, halves_at, IsBlockSpans};
ghost use Rattle.av_decomp.specs.Shapes.{IsShapeOf};

use arrayvec::ArrayVec;
use av_interval::{Span, Spans, maximal_intervals, skew_cut, sum_cut};
use av_perm::{MAX_LENGTH, Perm, pattern_of};

/// What a word is: the word 1, or the inflation of a root by the blocks at spans of places, which follow one another.
#[derive(Drop)]
pub enum Shape {
    /// The word 1.
    One,
    /// The inflation of a root that is 12, 21 or simple.
    Inflated {
        /// The root.
        root: Perm,
        /// The places of its blocks, from left to right.
        spans: Spans,
    },
}

/// The shape of a word. It is `One` exactly for the word 1. Else it is the one root that is 12, 21 or simple and of which the
/// word is an inflation, where the first block under 12 is sum-indecomposable and that under 21 skew-indecomposable, with
/// the spans of the blocks.
pub fn decompose(word: &Perm) -> Shape
    ensures { IsShapeOf word.now result }
{
    if word.len() == 1 {
        return Shape::One;
    }
    let spans = block_spans(word);
    let root = root_of(word, &spans);
    Shape::Inflated { root, spans }
}

// The spans of the blocks: the two parts at the first cut as a sum, else as a skew sum, else the maximal intervals.
fn block_spans(word: &Perm) -> Spans
    requires { 2 ≤ length word.now }
    ensures { IsBlockSpans word.now result }
{
    let _len = word.len();
    if let Some(cut) = sum_cut(word) {
        return halves(word, cut);
    }
    match skew_cut(word) {
        Some(cut) => halves(word, cut),
        None => maximal_intervals(word),
    }
}

/// The spans of the two parts of a word that is cut after its first `cut` entries.
pub fn halves(word: &Perm, cut: usize) -> Spans
    requires some { 1 ≤ cut }
    requires part { cut < length word.now }
    ensures { result ≡ halves_at (length word.now) cut }
{
    let last = word.len() as u8;
    let cut = cut as u8;
    let mut spans = Spans::empty();
    spans.push(Span {
        first: 1,
        last: cut,
    });
    spans.push(Span {
        first: cut + 1,
        last,
    });
    spans
}

// The pattern of the first entries of the blocks.
fn root_of(word: &Perm, spans: &Spans) -> Perm
    requires { Tiles 1 (length word.now) spans.now }
    ensures { result ≡ root_at word.now spans.now }
{
    let _len = word.len();
    let mut firsts: ArrayVec<u8, MAX_LENGTH> = ArrayVec::new();
    for span in spans.as_slice() {
        firsts.push(word.entry(span.first as usize));
    }
    pattern_of(firsts.as_slice())
}

/// The block of a word at a span of its places: the pattern of the entries there.
pub fn block(word: &Perm, span: &Span) -> Perm
    requires low { 1 ≤ span.now.first }
    requires order { span.now.first ≤ span.now.last }
    requires high { span.now.last ≤ length word.now }
    ensures { result ≡ block_at word.now span.now }
{
    let _len = word.len();
    let entries = word.as_slice();
    pattern_of(&entries[span.first as usize - 1..span.last as usize])
}
