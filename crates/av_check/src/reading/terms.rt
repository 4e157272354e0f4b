// Terms of an equation.
ghost use Rattle.std.specs.Prelude.{◌<◌, [], ◌∷◌, ◌++◌, codes, map, IfOk};
ghost use Rattle.av_sys.specs.Terms.{IsTermOf};
ghost use Rattle.av_print.specs.Systems.{number_text, children_text, term_text};
ghost use Rattle.av_check.specs.Reading.{Reads, AreNumbers, AreChildren, IsNodeTerm, root_part, children_part, AreTermsOf, AreSomeTerms, barred_tokens, terms_tokens};

use crate::reading::numbers::equation_number;
use crate::reading::pieces::{before, cut_at, is, is_none};
use crate::reading::words::root_of;
use av_perm::Memory;
use av_sys::{Children, EquationNumber, Term, Terms};
use std::alloc::Global;

/// The children whose texts the pieces are, each the number of one of so many equations.
fn each_child(alloc: Global, pieces: &[&[u8]], count: u32) -> Result<Option<Children>, Memory>
    requires { 0 < count }
    ensures { IfOk result (Reads (AreNumbers count) (map number_text) (map (λ p. p.now) pieces.now)) }
{
    let mut children = Children::empty(alloc);
    for piece in pieces {
        let Some(child) = equation_number(piece, count) else {
            return Ok(None);
        };
        children.push(EquationNumber(child))?;
    }
    Ok(Some(children))
}

/// The children whose text this is.
fn children_of(alloc: Global, text: &[u8], count: u32) -> Result<Option<Children>, Memory>
    requires { 0 < count }
    ensures { IfOk result (Reads (AreChildren count) children_text text.now) }
{
    let pieces = cut_at(alloc, text, b',')?;
    each_child(alloc, &pieces, count)
}

/// The node whose root and children have these texts.
fn node_of(alloc: Global, root: &[u8], children: &[u8], count: u32) -> Result<Option<Term>, Memory>
    requires { 0 < count }
    ensures { IfOk result (Reads (IsNodeTerm count) (λ t. root_part t ∷ children_part t ∷ []) (root.now ∷ children.now ∷ [])) }
{
    let Some(root) = root_of(root) else {
        return Ok(None);
    };
    let Some(children) = children_of(alloc, children, count)? else {
        return Ok(None);
    };
    if children.len() == root.len() {
        Ok(Some(Term::Node { root, children }))
    } else {
        Ok(None)
    }
}

/// The node of the two pieces at the opening bracket: its root, and its children before the closing one.
fn opened(alloc: Global, pieces: &[&[u8]], count: u32) -> Result<Option<Term>, Memory>
    requires { 0 < count }
    ensures { IfOk result (Reads (IsNodeTerm count) (λ t. root_part t ∷ (children_part t ++ codes "]") ∷ []) (map (λ p. p.now) pieces.now)) }
{
    let [root, rest] = pieces else {
        return Ok(None);
    };
    match before(rest, b"]") {
        Some(children) => node_of(alloc, root, children, count),
        None => Ok(None),
    }
}

/// The term of a system of so many equations whose text the token is.
fn term_of(alloc: Global, token: &[u8], count: u32) -> Result<Option<Term>, Memory>
    requires { 0 < count }
    ensures { IfOk result (Reads (IsTermOf count) term_text token.now) }
{
    if is(token, b"1") {
        return Ok(Some(Term::Point));
    }
    let pieces = cut_at(alloc, token, b'[')?;
    opened(alloc, &pieces, count)
}

/// The term whose text is the only token.
fn last_term(alloc: Global, tokens: &[&[u8]], count: u32) -> Result<Option<Term>, Memory>
    requires { 0 < count }
    ensures { IfOk result (Reads (IsTermOf count) (λ t. term_text t ∷ []) (map (λ t. t.now) tokens.now)) }
{
    match tokens {
        [token] => term_of(alloc, token, count),
        _ => Ok(None),
    }
}

/// One term at least, with a bar between each two.
fn barred_terms(alloc: Global, tokens: &[&[u8]], count: u32) -> Result<Option<Terms>, Memory>
    requires { 0 < count }
    ensures { IfOk result (Reads (AreSomeTerms count) barred_tokens (map (λ t. t.now) tokens.now)) }
{
    let mut terms = Terms::empty(alloc);
    let mut left = tokens;
    while let [token, bar, rest @ ..] = left {
        let Some(term) = term_of(alloc, token, count)? else {
            return Ok(None);
        };
        if !is(bar, b"|") {
            return Ok(None);
        }
        terms.push(term)?;
        left = rest;
    }
    let Some(last) = last_term(alloc, left, count)? else {
        return Ok(None);
    };
    terms.push(last)?;
    Ok(Some(terms))
}

/// The list of terms whose text has these tokens: terms with bars between, or `none`.
pub fn terms_of(alloc: Global, tokens: &[&[u8]], count: u32) -> Result<Option<Terms>, Memory>
    requires { 0 < count }
    ensures { IfOk result (Reads (AreTermsOf count) terms_tokens (map (λ t. t.now) tokens.now)) }
{
    if is_none(tokens) {
        Ok(Some(Terms::empty(alloc)))
    } else {
        barred_terms(alloc, tokens, count)
    }
}
