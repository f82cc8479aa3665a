//! Row numbers.
ghost use Rattle.std.specs.Prelude.{◌≡◌, ◌≤◌, ◌+◌, ◌↔◌, false, IfOk, IfSome, IsSome};
ghost use Rattle.word_core.specs.Counter.{IsNext, drawn, lacks, numbering_before};
ghost use Rattle.word_core.specs.Counter.{numbering_of, numbers_between, resumed, start};

use crate::{Id, Ids, Limits};
use std::alloc::{AllocError, Global};
use std::marker::Model;

/// Draws row numbers, each once, from 1 on. What a request drew can be taken back.
#[derive(Debug, Drop)]
pub struct Counter {
    next: u64,
    before: u64,
    limits: Limits,
}

impl Model for Counter {
    ghost use Rattle.std.specs.Prelude.{◌+◌, ◌≤◌};
    ghost use Rattle.word_core.specs.Counter.{Counting};

    ghost Value = { Counting };

    ghost view = { λ c. record { next = c.next; before = c.before; limits = c.limits } };

    ghost invariant = { λ c. (1 ≤ c.before) × (c.before ≤ c.next)
        × (c.next ≤ c.limits.numbers + 1) };
}

impl Counter {
    pub fn new(limits: Limits) -> Counter
        ensures now { numbering_of result ≡ start limits }
        ensures before { numbering_before result ≡ start limits }
    {
        Counter {
            next: 1,
            before: 1,
            limits,
        }
    }

    /// The counter that goes on with this number, now and before: none where the limits leave no such number.
    pub fn resume(limits: Limits, next: Id) -> Option<Counter>
        ensures fits { IsSome result ↔ IsNext limits next }
        ensures now { IfSome result (λ counter. numbering_of counter ≡ resumed limits next) }
        ensures before { IfSome result (λ counter. numbering_before counter ≡ resumed limits next) }
    {
        if next < 1 || next > limits.numbers + 1 {
            return None;
        }
        Some(Counter {
            next,
            before: next,
            limits,
        })
    }

    pub fn limits(&self) -> Limits
        ensures { result ≡ self.now.limits }
    {
        self.limits
    }

    /// The number that is drawn next, where there is one left.
    pub fn next(&self) -> Id
        ensures { result ≡ self.now.next }
    {
        self.next
    }

    /// The largest number that the next one may be: neither it nor the one that was next before is past it.
    pub fn largest(&self) -> Id
        ensures value { result ≡ self.now.limits.numbers + 1 }
        ensures next { self.now.next ≤ result }
        ensures before { self.now.before ≤ result }
    {
        self.limits.numbers + 1
    }

    /// Whether this many numbers are more than are left.
    pub fn lacks(&self, count: u64) -> bool
        ensures { result ≡ lacks count (numbering_of self.now) }
    {
        count > self.limits.numbers + 1 - self.next
    }

    /// The next number, which isn't drawn again unless it is taken back.
    pub fn draw(&mut self) -> Id
        requires { lacks 1 (numbering_of self.old) ≡ false }
        ensures number { result ≡ self.old.next }
        ensures now { numbering_of self.new ≡ drawn 1 (numbering_of self.old) }
        ensures before { numbering_before self.new ≡ numbering_before self.old }
    {
        let number = self.next;
        self.next = number + 1;
        number
    }

    /// The numbers that were drawn since the request began, in order. An error is one of memory.
    pub fn pending(&self, alloc: Global) -> Result<Ids, AllocError>
        ensures { IfOk result (λ ids.
            ids ≡ numbers_between (numbering_before self.now) (numbering_of self.now)) }
    {
        Ids::range(alloc, self.before, self.next - self.before)
    }

    /// Makes what was drawn final: the number that is next now becomes the one before.
    pub fn keep(&mut self)
        ensures now { numbering_of self.new ≡ numbering_of self.old }
        ensures before { numbering_before self.new ≡ numbering_of self.old }
    {
        self.before = self.next;
    }

    /// Takes back what was drawn: the next number is again the one before.
    pub fn back(&mut self)
        ensures now { numbering_of self.new ≡ numbering_before self.old }
        ensures before { numbering_before self.new ≡ numbering_before self.old }
    {
        self.next = self.before;
    }
}
