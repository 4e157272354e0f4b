// The walk as it is defined: on boxes that are copied at each cut, in which all terms are looked at.
use crate::splits::can_split;
use crate::splits_by_hand::cut;
use av_name::{Known, known_of};
use av_perm::{MAX_ROOT_LENGTH, Memory, Perm, Words};
use av_split::{Advice, SplitBox, advise};
use av_sys::{Children, Equation, System, Term};
use std::alloc::Global;

// What is known of a term or of a cell.
#[derive(Drop)]
enum Step {
    Inside,
    Refuted,
    Asks { child: usize, word: Perm },
}

// What is known of a term once words of a child are looked at, all of which it requires or avoids.
fn words_step(cell: &SplitBox, child: usize, required: bool, words: &Words, before: Step) -> Step {
    let mut step = before;
    for word in words.as_slice() {
        let known = if child < cell.len() {
            known_of(cell.get(child), word)
        } else {
            Known::Open
        };
        step = match (known, step) {
            (_, Step::Refuted) => Step::Refuted,
            (Known::Open, Step::Inside) => Step::Asks {
                child,
                word: word.copy(),
            },
            (Known::Open, step) => step,
            (Known::Inside, step) => { if required { step } else { Step::Refuted } }
            (Known::Outside, step) => { if required { Step::Refuted } else { step } }
        };
    }
    step
}

// What is known of a term.
fn term_step(cell: &SplitBox, system: &System, children: &Children) -> Step {
    let mut step = Step::Inside;
    for (i, child) in children.as_slice().iter().enumerate() {
        if (child.0 as usize) < system.equations.len() {
            let name = &system.equations.get(child.0 as usize).name;
            step = words_step(cell, i, false, &name.avoid, step);
            step = words_step(cell, i, true, &name.require, step);
        }
    }
    step
}

// How many terms are inside, and the first open question.
#[derive(Drop)]
struct Counted {
    inside: usize,
    next: Option<(usize, Perm)>,
}

// The terms with the root.
fn count_terms(cell: &SplitBox, system: &System, equation: &Equation, root: &Perm) -> Counted {
    let mut inside: usize = 0;
    let mut next = None;
    for term in equation.terms.as_slice() {
        let step = match term {
            Term::Node {
                root: other,
                children,
            } if other == root => term_step(cell, system, children),
            _ => Step::Refuted,
        };
        match step {
            Step::Inside => inside = inside.saturating_add(1),
            Step::Refuted => {}
            Step::Asks { child, word } => {
                if next.is_none() {
                    next = Some((child, word));
                }
            }
        }
    }
    Counted { inside, next }
}

// What becomes of a cell: a letter for how it ends, or the question that splits it, with its child from 0 on.
#[derive(Drop)]
enum Treated {
    Ends(u8),
    Splits { child: usize, word: Perm },
}

// The split, or the end where there is none.
fn split_or(next: Option<(usize, Perm)>, letter: u8) -> Treated {
    match next {
        Some((child, word)) => Treated::Splits { child, word },
        None => Treated::Ends(letter),
    }
}

// What becomes of a cell.
fn treat(system: &System, equation: &Equation, root: &Perm, cell: &SplitBox) -> Option<Treated> {
    if !can_split(root, &equation.name) || cell.len() != root.len() {
        return None;
    }
    let count = count_terms(cell, system, equation, root);
    Some(match advise(root, &equation.name, cell) {
        Advice::Broken => {
            if count.inside > 0 {
                Treated::Ends(b'x')
            } else {
                split_or(count.next, b'g')
            }
        }
        Advice::Done => match count.inside {
            0 => split_or(count.next, b'b'),
            1 => split_or(count.next, b'g'),
            _ => Treated::Ends(b't'),
        },
        Advice::Ask { child, pattern } => Treated::Splits {
            child: (child as usize).saturating_sub(1),
            word: pattern,
        },
    })
}

/// The leaves that were seen: a letter for how each ends, and the cells of the bare ones.
#[derive(Drop)]
pub struct Seen {
    pub ends: Vec<u8>,
    pub bare: Vec<SplitBox>,
}

// Notes how a cell ends, or splits it. Answers whether it could.
fn walk_on(
    alloc: Global,
    system: &System,
    equation: &Equation,
    root: &Perm,
    cell: SplitBox,
    seen: &mut Seen,
    left: &mut Vec<SplitBox>,
) -> Result<bool, Memory> {
    match treat(system, equation, root, &cell) {
        None => Ok(false),
        Some(Treated::Splits { child, word }) => cut(alloc, &cell, child, &word, left),
        Some(Treated::Ends(letter)) => {
            seen.ends.push(letter).map_err(|_| Memory)?;
            if letter == b'b' {
                seen.bare.push(cell).map_err(|_| Memory)?;
            }
            Ok(true)
        }
    }
}

/// The leaves of a root and an equation, where there are at most a thousand cells.
pub fn plain_leaves(
    alloc: Global,
    system: &System,
    i: usize,
    root: &Perm,
) -> Result<Option<Seen>, Memory> {
    if i >= system.equations.len() || root.len() < 2 || root.len() > MAX_ROOT_LENGTH {
        return Ok(None);
    }
    let equation = system.equations.get(i);
    let mut seen = Seen {
        ends: Vec::new(alloc),
        bare: Vec::new(alloc),
    };
    let mut left: Vec<SplitBox> = Vec::new(alloc);
    left.push(SplitBox::free(alloc, root.len())?)
        .map_err(|_| Memory)?;
    for _ in 0..1000 {
        let Some(cell) = left.pop() else {
            return Ok(Some(seen));
        };
        if !walk_on(alloc, system, equation, root, cell, &mut seen, &mut left)? {
            return Ok(None);
        }
    }
    Ok(None)
}
