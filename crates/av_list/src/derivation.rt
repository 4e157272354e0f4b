// Derivations from the left: what is placed of a tree, in preorder, and what is due.
ghost use Rattle.std.specs.Prelude.{◌≡◌, ◌<◌, ◌≤◌, ◌+◌, ◌*◌, ℕ, List, [], ◌∷◌, length, drop, reverse, MatchOption, IfOk};
ghost use Rattle.av_list.specs.Progress.{Progress};

use crate::vertex::{Due, Vertex};
use av_perm::{MAX_LENGTH, Memory};
use std::alloc::Global;
use std::marker::Model;

// Room for a tree of a size, what is placed of it, in preorder, and what is due after that, the next last. A tree of size n has
// at most 2n - 1 vertices, and at most n trees are due at once, so nothing here takes memory once it is made.
#[derive(Drop)]
pub struct Derivation {
    size: usize,
    vertices: Vec<Vertex>,
    dues: Vec<Due>,
}

impl Model for Derivation {
    ghost use Rattle.std.specs.Prelude.{◌≤◌, ◌+◌, ◌*◌, reverse, vec_capacity};
    ghost use Rattle.av_list.specs.Progress.{Progress};

    ghost Value = { Progress };

    ghost view = { λ p. record { size = p.size; placed = reverse p.vertices.items; due = reverse p.dues.items } };

    ghost invariant = { λ p. (2 * p.size ≤ vec_capacity p.vertices + 1) × (p.size ≤ vec_capacity p.dues) };
}

impl Derivation {
    // Nothing is placed, and nothing due.
    pub fn new(alloc: Global, size: usize) -> Result<Derivation, Memory>
        requires least { 1 ≤ size }
        requires most { size ≤ MAX_LENGTH }
        ensures { IfOk result (λ p. (p.size ≡ size) × (p.placed ≡ []) × (p.due ≡ [])) }
    {
        let Ok(vertices) = Vec::with_capacity(alloc, 2 * size - 1) else {
            return Err(Memory);
        };
        let Ok(dues) = Vec::with_capacity(alloc, size) else {
            return Err(Memory);
        };
        Ok(Derivation {
            size,
            vertices,
            dues,
        })
    }

    // The size of the whole tree.
    pub fn size(&self) -> usize
        ensures { result ≡ self.now.size }
    {
        self.size
    }

    // Takes what is due next.
    pub fn pop_due(&mut self) -> Option<Due>
        ensures due { MatchOption result ((self.old.due ≡ []) × (self.new.due ≡ [])) (λ d. self.old.due ≡ d ∷ self.new.due) }
        ensures size { self.new.size ≡ self.old.size }
        ensures placed { self.new.placed ≡ self.old.placed }
    {
        self.dues.pop()
    }

    // Adds what is due next.
    pub fn push_due(&mut self, due: Due)
        requires { length self.old.due < self.old.size }
        ensures due { self.new.due ≡ due ∷ self.old.due }
        ensures size { self.new.size ≡ self.old.size }
        ensures placed { self.new.placed ≡ self.old.placed }
    {
        let _ = self.dues.push(due);
    }

    // Takes the vertex that was placed last, and what is due below it.
    pub fn pop_vertex(&mut self) -> Option<Vertex>
        ensures vertex { MatchOption result ((self.old.placed ≡ []) × (self.new ≡ self.old)) (λ x. (self.old.placed ≡ x ∷ self.new.placed) × (self.new.due ≡ drop (length x.sizes) self.old.due)) }
        ensures size { self.new.size ≡ self.old.size }
    {
        match self.vertices.pop() {
            None => None,
            Some(vertex) => {
                let keep = self.dues.len().saturating_sub(vertex.sizes.len());
                self.dues.truncate(keep);
                Some(vertex)
            }
        }
    }

    // Places a vertex.
    pub fn push_vertex(&mut self, vertex: Vertex)
        requires { length self.old.placed + 2 ≤ 2 * self.old.size }
        ensures due { self.new.due ≡ self.old.due }
        ensures size { self.new.size ≡ self.old.size }
        ensures placed { self.new.placed ≡ vertex ∷ self.old.placed }
    {
        let _ = self.vertices.push(vertex);
    }

    // The vertices in preorder.
    pub fn vertices(&self) -> &[Vertex]
        ensures { result.now ≡ reverse self.now.placed }
    {
        self.vertices.as_slice()
    }

    // What is due, the next last.
    pub fn dues(&self) -> &[Due]
        ensures { result.now ≡ reverse self.now.due }
    {
        self.dues.as_slice()
    }
}
