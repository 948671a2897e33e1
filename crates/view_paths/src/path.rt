// A path that is kept while places are gone through. It takes no memory.
ghost use Rattle.std.specs.Prelude.{◌≡◌, ◌+◌, ◌<◌, ◌≤◌, [], ◌∷◌, ◌++◌, length, take, slice_get};
ghost use Rattle.std.specs.Prelude.{MatchOption};
ghost use Rattle.view_paths.specs.Turns.{IsSharedFront, IsFront};

use crate::Element;
use std::marker::Model;

/// How many elements a path may have.
pub const MAX_DEPTH: usize = 24;

/// The elements that something is in, the outermost first; at most `MAX_DEPTH`.
#[derive(Drop)]
pub struct Path<E> {
    elements: [E; MAX_DEPTH],
    len: usize,
}

impl<E> Model for Path<E> {
    ghost use Rattle.std.specs.Prelude.{List, ◌≡◌, ◌≤◌, length, take};
    ghost use Rattle.std.specs.Coded.{coded_list};

    ghost Value = { List E };

    ghost coded = { coded_list E.code };

    ghost view = { λ p. take p.len p.elements };

    ghost invariant = { λ p. (length p.elements ≡ 24) × (p.len ≤ 24) };
}

impl<E: Element> Path<E> {
    /// The path without an element. `fill` is any one: no call gives it back.
    pub fn new(fill: E) -> Path<E>
        ensures { result ≡ [] }
    {
        Path {
            elements: [fill; MAX_DEPTH],
            len: 0,
        }
    }

    pub fn len(&self) -> usize
        ensures len { result ≡ length self.now }
        ensures most { result ≤ MAX_DEPTH }
    {
        self.len
    }

    /// The element with this number from outside.
    pub fn get(&self, i: usize) -> Option<E>
        ensures { result ≡ slice_get self.now i }
    {
        if i < self.len {
            Some(self.elements[i])
        } else {
            None
        }
    }

    /// Puts an element inside of all others.
    pub fn push(&mut self, element: E)
        requires room { length self.old < MAX_DEPTH }
        ensures { self.new ≡ self.old ++ element ∷ [] }
    {
        self.elements[self.len] = element;
        self.len += 1;
    }

    /// Leaves so many elements, where there are more.
    pub fn truncate(&mut self, len: usize)
        ensures { self.new ≡ take len self.old }
    {
        if len < self.len {
            self.len = len;
        }
    }

    /// How many elements this path shares with another one, from outside.
    pub fn shared(&self, to: &Path<E>) -> usize
        ensures { IsSharedFront E.same self.now to.now result }
    {
        shared_count(&self.elements[..self.len], &to.elements[..to.len])
    }

    /// Takes the innermost element away, if there are more than so many.
    pub fn close_next(&mut self, shared: usize) -> Option<E>
        ensures { MatchOption result ((self.new ≡ self.old) × (length self.old ≤ shared))
            (λ element. (self.old ≡ self.new ++ element ∷ []) × (shared ≤ length self.new)) }
    {
        if self.len > shared {
            self.len -= 1;
            Some(self.elements[self.len])
        } else {
            None
        }
    }

    /// Puts the next element of a path inside that this one is the front of, if there is one.
    pub fn open_next(&mut self, to: &Path<E>) -> Option<E>
        requires { IsFront self.old to.now }
        ensures front { IsFront self.new to.now }
        ensures opened { MatchOption result ((self.new ≡ self.old) × (self.old ≡ to.now))
            (λ element. self.new ≡ self.old ++ element ∷ []) }
    {
        if self.len >= to.len {
            return None;
        }
        let element = to.elements[self.len];
        self.push(element);
        Some(element)
    }
}

/// How many elements at the front of both are the same.
fn shared_count<E: Element>(from: &[E], to: &[E]) -> usize
    ensures { IsSharedFront E.same from.now to.now result }
{
    let most = from.len().min(to.len());
    for i in 0..most {
        if !from[i].is_same(to[i]) {
            return i;
        }
    }
    most
}
