// The children of a system's nodes by links.
ghost use Rattle.std.specs.Prelude.{◌≡◌, ◌<◌, ◌≤◌, [], None, length, slice_index_or, IfOk};
ghost use Rattle.av_sys.specs.Terms.{IsWellFormed, terms_at, term_at};
ghost use Rattle.av_count.specs.Links.{IsHead, AreNodes, AreLinks, AddsHead, AddsHeads};
ghost use Rattle.av_count.specs.Tables.{IsLaidOut};

use crate::links::{Link, Links};
use crate::numbered::{term, terms};
use av_perm::Memory;
use av_sys::{System, Term};
use std::alloc::Global;
use std::marker::Model;
use std::snapshot::Snapshot;

// For each term of an equation its children, none for a point.
#[derive(Drop)]
pub struct Heads {
    items: Vec<Option<Link>>,
}

impl Model for Heads {
    ghost use Rattle.std.specs.Prelude.{List, Option};
    ghost use Rattle.av_count.specs.declared.links.Link.{Link};

    ghost Value = { List (Option Link) };

    ghost view = { λ h. h.items.items };
}

// The children of a term. Their links join the others.
fn add_head(system: &System, eq: usize, t: usize, links: &mut Links) -> Result<Option<Link>, Memory>
    requires formed { IsWellFormed system.now }
    requires eq { eq < length system.now.equations }
    requires t { t < length (terms_at system.now eq) }
    requires links { AreLinks (length system.now.equations) links.old }
    ensures { IfOk result (λ o. AddsHead system.now eq t links.old links.new o) }
{
    match term(system, eq, t) {
        Term::Point => Ok(None),
        Term::Node { children, .. } => Ok(Some(links.node(children)?)),
    }
}

impl Heads {
    // The children of the terms of an equation. Their links join the others.
    fn of(alloc: Global, system: &System, eq: usize, links: &mut Links) -> Result<Heads, Memory>
        requires formed { IsWellFormed system.now }
        requires eq { eq < length system.now.equations }
        requires links { AreLinks (length system.now.equations) links.old }
        ensures { IfOk result (λ heads. AddsHeads system.now eq links.old links.new heads) }
    {
        let mut items: Vec<Option<Link>> = Vec::new(alloc);
        for t in 0..terms(system, eq) {
            let children = add_head(system, eq, t, links)?;
            if items.push(children).is_err() {
                return Err(Memory);
            }
        }
        Ok(Heads { items })
    }

    // How many terms there are.
    pub fn len(&self) -> usize
        ensures { result ≡ length self.now }
    {
        self.items.len()
    }

    // The children of a term.
    pub fn get(&self, t: usize) -> Option<Link>
        requires { t < length self.now }
        ensures { result ≡ slice_index_or self.now t None }
    {
        self.items[t]
    }
}

// A system's nodes, and the largest size of the trees that are counted.
#[derive(Drop)]
pub struct Layout {
    pub of: Snapshot<System>,
    pub largest: usize,
    pub nodes: Vec<Heads>,
    pub links: Links,
}

impl Layout {
    // The nodes of a system.
    pub fn new(alloc: Global, system: &System, largest: usize) -> Result<Layout, Memory>
        requires formed { IsWellFormed system.now }
        ensures nodes { IfOk result (λ g. AreNodes system.now g.links (length system.now.equations) g.nodes.items) }
        ensures stands { IfOk result (λ g. (g.of.value ≡ system.now) × (g.largest ≡ largest)) }
    {
        let mut links = Links::empty(alloc);
        let mut nodes: Vec<Heads> = Vec::new(alloc);
        for eq in 0..system.equations.len() {
            let heads = Heads::of(alloc, system, eq, &mut links)?;
            if nodes.push(heads).is_err() {
                return Err(Memory);
            }
        }
        Ok(Layout {
            of: Snapshot::of(system),
            largest,
            nodes,
            links,
        })
    }

    // How many equations there are.
    pub fn equations(&self) -> usize
        requires { IsLaidOut self.now }
        ensures { result ≡ length self.now.of.value.equations }
    {
        self.nodes.len()
    }

    // How many terms an equation has.
    pub fn terms(&self, eq: usize) -> usize
        requires layout { IsLaidOut self.now }
        requires eq { eq < length self.now.of.value.equations }
        ensures { result ≡ length (terms_at self.now.of.value eq) }
    {
        self.nodes[eq].len()
    }

    // The children of a term, none for a point.
    pub fn head(&self, eq: usize, t: usize) -> Option<Link>
        requires layout { IsLaidOut self.now }
        requires eq { eq < length self.now.of.value.equations }
        requires t { t < length (terms_at self.now.of.value eq) }
        ensures { IsHead self.now.links (term_at self.now.of.value eq t) result }
    {
        self.nodes[eq].get(t)
    }
}
