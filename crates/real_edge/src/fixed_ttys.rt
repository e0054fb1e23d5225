//! A terminal whose size is given, and which is left as it is.
ghost use Rattle.std.specs.Prelude.{◌≡◌, None};
ghost use Rattle.causes.specs.Faults.{Rose};

use crate::clocks::{copy_of, present_moment};
use cell_grid::Size;
use ports::{Entered, Failed, Tty};
use std::rt::Clock;

/// A terminal of a given size, with its count of faults. It is neither asked nor made raw, and it tells no mode: what writes
/// to it has its own way of handing on what is typed.
#[derive(Drop)]
pub struct FixedTty<R: Clock + Drop> {
    rt: R,
    size: Size,
    count: u64,
    last: Option<Entered>,
    faults: u64,
}

impl<R: Clock + Drop> FixedTty<R> {
    /// Returns a terminal of this size before it is entered.
    pub fn new(rt: R, size: Size) -> FixedTty<R> {
        FixedTty {
            rt,
            size,
            count: 0,
            last: None,
            faults: 0,
        }
    }
}

impl<R: Clock + Drop> Tty for FixedTty<R> {
    ghost mode = { λ _. None };

    ghost entries = { λ t. record { count = t.count; last = t.last } };

    ghost faults = { λ t. t.faults };

    fn enter(&mut self) -> Result<Entered, Failed> {
        match present_moment(&self.rt) {
            Ok(moment) => {
                let entered = Entered {
                    size: self.size,
                    moment,
                };
                self.count = self.count.saturating_add(1);
                self.last = Some(copy_of(&entered));
                Ok(entered)
            }
            Err(_) => {
                self.faults = self.faults.saturating_add(1);
                Err(Failed)
            }
        }
    }

    fn leave(&mut self) -> Result<(), Failed> {
        Ok(())
    }
}
