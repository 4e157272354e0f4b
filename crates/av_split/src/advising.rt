// What is known of a box of a root and a name.
ghost use Rattle.std.specs.Prelude.{◌≡◌, ◌≤◌, ◌<◌, ◌++◌, [], ◌∷◌, ℕ, suc, List, Option, None, Some, length, map, All};
ghost use Rattle.av_perm.specs.Inflate.{joined};
ghost use Rattle.av_embed.specs.Embed.{fibre, embeddings};
ghost use Rattle.av_name.specs.declared.constraints.Known.{Known};
ghost use Rattle.av_split.specs.Split.{both, all_of, some_of, first_open, demand_known, demands_known, next_question, Demand};
ghost use Rattle.av_split.specs.Boxes.{Question, word_rules, ask, questions, demand, demands};
ghost use Rattle.av_split.specs.Cells.{known_so, or_first, or_else};
ghost use Rattle.av_split.specs.Gathering.{IsWordStep, IsWholeStep, question_asked, turned_word_step, word_step_or, word_question, IsGathered, IsAdvice, MayAsk};

use crate::boxes::SplitBox;
use av_embed::{Embeddings, Map, fibre};
use av_name::{Known, known_of};
use av_perm::{MAX_LENGTH, MAX_PATTERN_LENGTH, MAX_ROOT_LENGTH, Perm, Words};
use av_sys::Name;

// What is known of questions together.
#[derive(Drop)]
pub enum WordStep {
    // It holds.
    Holds,
    // It doesn't.
    Fails,
    // It is open, and so is this question, the first: whether the child, from 0 on, contains the word.
    Asks { child: usize, word: Perm },
}

// A question that is open.
#[derive(Drop)]
pub struct Asked {
    child: usize,
    word: Perm,
}

// What is known of two together.
fn both_steps(first: WordStep, second: WordStep) -> WordStep
    ensures { (k l : Known) (o p : Option Question) → IsWholeStep first k o → IsWholeStep second l p → IsWholeStep result (both k l) (or_else o p) }
{
    match first {
        WordStep::Fails => WordStep::Fails,
        WordStep::Holds => second,
        WordStep::Asks { child, word } => match second {
            WordStep::Fails => WordStep::Fails,
            _ => WordStep::Asks { child, word },
        },
    }
}

// What is known of the question of a child, where some places of the word go to it.
fn child_step(cell: &SplitBox, word: &Perm, places: &Map, child: usize) -> WordStep
    requires places { length places.now ≡ length word.now }
    requires here { child < length cell.now }
    requires small { child < MAX_LENGTH }
    ensures { IsWholeStep result (all_of (word_rules.known cell.now) (ask child (fibre word.now places.now (suc child)))) (first_open (word_rules.known cell.now) (λ (q : Question). Some q) (ask child (fibre word.now places.now (suc child)))) }
{
    match fibre(word, places, child + 1) {
        Some(pattern) => match known_of(cell.get(child), &pattern) {
            Known::Inside => WordStep::Holds,
            Known::Outside => WordStep::Fails,
            Known::Open => WordStep::Asks {
                child,
                word: pattern,
            },
        },
        None => WordStep::Holds,
    }
}

// What is known of an embedding.
fn embedding_step(cell: &SplitBox, word: &Perm, places: &Map) -> WordStep
    requires places { length places.now ≡ length word.now }
    requires small { length cell.now ≤ MAX_ROOT_LENGTH }
    ensures { IsWholeStep result (all_of (word_rules.known cell.now) (joined (λ i. ask i (fibre word.now places.now (suc i))) (length cell.now))) (first_open (word_rules.known cell.now) (λ (q : Question). Some q) (joined (λ i. ask i (fibre word.now places.now (suc i))) (length cell.now))) }
{
    let mut step = WordStep::Holds;
    for child in 0..cell.len() {
        step = both_steps(step, child_step(cell, word, places, child));
    }
    step
}

// The first of two questions.
fn or_asked(found: Option<Asked>, child: usize, word: Perm) -> Option<Asked>
    ensures { question_asked result ≡ or_first (question_asked found) (word_question child word) }
{
    match found {
        Some(first) => Some(first),
        None => Some(Asked { child, word }),
    }
}

// The step to the question that was kept, or else another.
fn step_or(found: Option<Asked>, step: WordStep) -> WordStep
    ensures { result ≡ word_step_or found step }
{
    match found {
        Some(asked) => WordStep::Asks {
            child: asked.child,
            word: asked.word,
        },
        None => step,
    }
}

// The step where it is required, or the opposite.
fn turned_step(required: bool, step: WordStep) -> WordStep
    ensures { result ≡ turned_word_step required step }
{
    if required {
        return step;
    }
    match step {
        WordStep::Holds => WordStep::Fails,
        WordStep::Fails => WordStep::Holds,
        WordStep::Asks { child, word } => WordStep::Asks { child, word },
    }
}

// Whether some embedding of the word holds.
fn some_step(root: &Perm, word: &Perm, cell: &SplitBox) -> WordStep
    requires root { 2 ≤ length root.now }
    requires small { length root.now ≤ MAX_ROOT_LENGTH }
    requires short { length word.now ≤ MAX_PATTERN_LENGTH }
    requires sized { length cell.now ≡ length root.now }
    ensures { IsWordStep result (some_of (all_of (word_rules.known cell.now)) (map (questions root.now word.now) (embeddings root.now word.now))) (first_open (all_of (word_rules.known cell.now)) (λ (m : List Question). first_open (word_rules.known cell.now) (λ (q : Question). Some q) m) (map (questions root.now word.now) (embeddings root.now word.now))) }
{
    // Its length tells that it is a word.
    let _len = word.len();
    let mut found = None;
    for places in Embeddings::new(word, root) {
        match embedding_step(cell, word, &places) {
            WordStep::Holds => return WordStep::Holds,
            WordStep::Fails => {}
            WordStep::Asks { child, word } => found = or_asked(found, child, word),
        }
    }
    step_or(found, WordStep::Fails)
}

// A demand to contain the word, or to avoid it.
fn demand_step(root: &Perm, required: bool, word: &Perm, cell: &SplitBox) -> WordStep
    requires root { 2 ≤ length root.now }
    requires small { length root.now ≤ MAX_ROOT_LENGTH }
    requires short { length word.now ≤ MAX_PATTERN_LENGTH }
    requires sized { length cell.now ≡ length root.now }
    ensures { IsWordStep result (demand_known (word_rules.known cell.now) (demand root.now required word.now)) (first_open (all_of (word_rules.known cell.now)) (λ (m : List Question). first_open (word_rules.known cell.now) (λ (q : Question). Some q) m) (map (questions root.now word.now) (embeddings root.now word.now))) }
{
    turned_step(required, some_step(root, word, cell))
}

// What demands that were gone through tell: one is broken, or none is, with the first open question.
#[derive(Drop)]
pub enum Gathered {
    Broken,
    So { found: Option<Asked> },
}

// Goes through the demands to contain each word of a list, or to avoid each.
fn gather(
    root: &Perm,
    required: bool,
    words: &Words,
    cell: &SplitBox,
    found: Option<Asked>,
) -> Gathered
    requires root { 2 ≤ length root.now }
    requires small { length root.now ≤ MAX_ROOT_LENGTH }
    requires short { All (λ w. length w ≤ MAX_PATTERN_LENGTH) words.now }
    requires sized { length cell.now ≡ length root.now }
    ensures { IsGathered cell.now result (question_asked found) (map (demand root.now required) words.now) }
{
    let mut kept = found;
    for word in words.as_slice() {
        match demand_step(root, required, word, cell) {
            WordStep::Holds => {}
            WordStep::Fails => return Gathered::Broken,
            WordStep::Asks { child, word } => kept = or_asked(kept, child, word),
        }
    }
    Gathered::So { found: kept }
}

/// What is known of a box of a root and a name.
#[derive(Drop)]
pub enum Advice {
    /// No list of blocks in the box has an inflation that avoids the avoided words and contains the required ones.
    Broken,
    /// Each has.
    Done,
    /// Neither is known. Whether this child, from 1 on, contains this pattern tells more.
    Ask { child: u8, pattern: Perm },
}

// The advice where no demand is broken.
fn advice_of(found: Option<Asked>) -> Advice
    requires { MayAsk found }
    ensures { (k : Known) (o : Option Question) → k ≡ known_so (question_asked found) → o ≡ question_asked found → IsAdvice result k o }
{
    match found {
        None => Advice::Done,
        Some(asked) => Advice::Ask {
            child: asked.child as u8 + 1,
            pattern: asked.word,
        },
    }
}

/// What is known of a box of a root and a name. The root has 2 to 10 entries, the words of the name have at most 12, and the
/// box has a constraint for each child. To avoid a word is to avoid it by each of its embeddings into the root, and to contain
/// one is to contain it by some embedding: these are the demands of the name. `Broken` comes exactly where the box breaks some
/// demand, `Done` exactly where it meets all, and otherwise the first open question of the first open embedding of the first open
/// demand is asked. It takes no memory.
pub fn advise(root: &Perm, name: &Name, cell: &SplitBox) -> Advice
    requires root { 2 ≤ length root.now }
    requires small { length root.now ≤ MAX_ROOT_LENGTH }
    requires avoid { All (λ w. length w ≤ MAX_PATTERN_LENGTH) name.now.avoid }
    requires require { All (λ w. length w ≤ MAX_PATTERN_LENGTH) name.now.require }
    requires sized { length cell.now ≡ length root.now }
    ensures { IsAdvice result (demands_known (word_rules.known cell.now) (demands root.now name.now.avoid name.now.require)) (next_question (word_rules.known cell.now) (demands root.now name.now.avoid name.now.require)) }
{
    // Their lengths tell that these are words.
    let _avoid = name.avoid.len();
    let _require = name.require.len();
    match gather(root, false, &name.avoid, cell, None) {
        Gathered::Broken => Advice::Broken,
        Gathered::So { found: first } => match gather(root, true, &name.require, cell, first) {
            Gathered::Broken => Advice::Broken,
            Gathered::So { found } => advice_of(found),
        },
    }
}
