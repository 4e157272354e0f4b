// The lists of children of a system's nodes. They share their ends: two nodes whose children agree from some child on have the
// same links from there on.
ghost use Rattle.std.specs.Prelude.{◌≡◌, ◌<◌, ◌≤◌, ℕ, List, [], length, drop, slice_get, Some, IfOk, OnErr};
ghost use Rattle.av_count.specs.Links.{IsRest, IsLinkOf, Joins, AddsRest, AddsNode};

use av_perm::Memory;
use av_sys::Children;
use indexmap::IndexSet;
use std::alloc::Global;
use std::marker::Model;

// The children of a node from one child on.
#[derive(Clone, Copy, PartialEq, Eq, Hash)]
pub enum Rest {
    // The last child alone: its equation.
    Last(usize),
    // More than one: the number of the link of the first of them.
    More(usize),
}

// A child's equation, and the children after it.
#[derive(Clone, Copy, PartialEq, Eq, Hash)]
pub struct Link {
    pub first: usize,
    pub rest: Rest,
}

// Different links, each with its place among them for a number.
#[derive(Drop)]
pub struct Links {
    links: IndexSet<Link>,
}

impl Model for Links {
    ghost use Rattle.std.specs.Prelude.{List};
    ghost use Rattle.av_count.specs.declared.links.Link.{Link};

    ghost Value = { List Link };

    ghost view = { λ l. l.links.keys };
}

impl Links {
    // No links.
    pub fn empty(alloc: Global) -> Links
        ensures { result ≡ [] }
    {
        Links {
            links: IndexSet::new(alloc),
        }
    }

    // How many there are.
    pub fn len(&self) -> usize
        ensures { result ≡ length self.now }
    {
        self.links.len()
    }

    // The link with a number.
    pub fn get(&self, i: usize) -> Link
        requires { i < length self.now }
        ensures { slice_get self.now i ≡ Some result }
    {
        self.links[i]
    }

    // The number of the link, which joins the others if it is none of them.
    fn number(&mut self, link: Link) -> Result<usize, Memory>
        ensures { IfOk result (λ i. Joins self.old self.new link i) }
    {
        match self.links.insert_full(link) {
            Ok((i, _)) => Ok(i),
            Err(_) => Err(Memory),
        }
    }

    // The children from one on, whose links join the others.
    fn rest(&mut self, children: &Children, from: usize) -> Result<Rest, Memory>
        requires { from < length children.now }
        ensures { IfOk result (λ r. AddsRest self.old self.new (drop from children.now) r) }
    {
        let first = children.equation(from);
        let last = children.len() - 1;
        if from == last {
            Ok(Rest::Last(first))
        } else {
            let rest = self.rest(children, from + 1)?;
            Ok(Rest::More(self.number(Link { first, rest })?))
        }
    }

    // All children of a node. The links of those after the first join the others.
    pub fn node(&mut self, children: &Children) -> Result<Link, Memory>
        requires { 2 ≤ length children.now }
        ensures { IfOk result (λ l. AddsNode self.old self.new children.now l) }
    {
        let first = children.equation(0);
        let rest = self.rest(children, 1)?;
        Ok(Link { first, rest })
    }

    // The children that are left after so many more.
    pub fn after(&self, rest: Rest, skip: usize) -> Rest
        requires { (cs : List ℕ) × IsRest self.now cs rest × (skip < length cs) }
        ensures { (cs : List ℕ) → IsRest self.now cs rest → skip < length cs → IsRest self.now (drop skip cs) result }
    {
        if skip == 0 {
            return rest;
        }
        match rest {
            Rest::Last(_) => rest,
            Rest::More(i) => self.after(self.get(i).rest, skip - 1),
        }
    }
}
