//! What a worker passes before each batch. A clause sees a gate as the batches that passed it, where it tells them.
ghost use Rattle.std.specs.Prelude.{◌≡◌, true, List, Option};
ghost use Rattle.job_desk.specs.Gates.{Passing, after_passing};

/// What a worker asks before it makes a batch. A gate may hold it there.
pub trait Gate {
    ghost passed: { Self → Option (List Passing) };

    /// Returns once the batch with this number, from 0 on, of the answer to the request with this number may be made.
    fn before(&mut self, id: u64, number: u32)
        ensures { passed self.new ≡ after_passing true (passed self.old) id number };
}
