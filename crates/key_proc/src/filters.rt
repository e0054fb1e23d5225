//! When a binding holds, said of facts.
ghost use Rattle.std.specs.Prelude.{◌≡◌, IfOk};
ghost use Rattle.key_proc.specs.Facts.{has};
ghost use Rattle.key_proc.specs.Filters.{holds};

use crate::facts::{Fact, Facts};
use sqlite_items::Boxed;
use std::alloc::{AllocError, Global};

/// A statement about facts. A binding is active where its filter holds.
#[derive(Debug, Drop)]
pub enum Filter {
    /// It holds always.
    Always,
    /// The fact holds.
    Is(Fact),
    /// The statement inside doesn't hold.
    Not(Boxed<Filter>),
    /// Both hold.
    And(Boxed<Filter>, Boxed<Filter>),
    /// One of them holds, or both.
    Or(Boxed<Filter>, Boxed<Filter>),
}

impl Filter {
    /// Returns the filter that holds where the one inside doesn't.
    pub fn unless(alloc: Global, inner: Filter) -> Result<Filter, AllocError>
        ensures { IfOk result (λ filter. filter ≡ Filter.Not inner) }
    {
        Ok(Filter::Not(Boxed::new(alloc, inner)?))
    }

    /// Returns the filter that holds where both do.
    pub fn both(alloc: Global, first: Filter, second: Filter) -> Result<Filter, AllocError>
        ensures { IfOk result (λ filter. filter ≡ Filter.And first second) }
    {
        let first = Boxed::new(alloc, first)?;
        Ok(Filter::And(first, Boxed::new(alloc, second)?))
    }

    /// Returns the filter that holds where one of the two does.
    pub fn either(alloc: Global, first: Filter, second: Filter) -> Result<Filter, AllocError>
        ensures { IfOk result (λ filter. filter ≡ Filter.Or first second) }
    {
        let first = Boxed::new(alloc, first)?;
        Ok(Filter::Or(first, Boxed::new(alloc, second)?))
    }

    /// Tells whether the filter holds where these facts do.
    pub fn holds(&self, facts: &Facts) -> bool
        ensures { result ≡ holds (has facts.now) self.now }
    {
        match self {
            Filter::Always => true,
            Filter::Is(fact) => facts.has(*fact),
            Filter::Not(inner) => !inner.get().holds(facts),
            Filter::And(first, second) => { first.get().holds(facts) && second.get().holds(facts) },
            Filter::Or(first, second) => { first.get().holds(facts) || second.get().holds(facts) },
        }
    }
}
