//! Laws of a worker, each the contract of a function that does nothing. They hold of one call of `serve`, and of one call of
//! `work` up to its last letters.
ghost use Rattle.job_desk.specs.WorkerLaws.{AlwaysHolds, FewCutShort, AnswersAlone, AnswersInOrder, CutShortWhereDead};

/// Of the requests that were taken, those whose last batch was not sent are at most as many as were said to be dead, and one
/// more where memory failed.
pub fn few_are_cut_short()
    ensures { AlwaysHolds FewCutShort }
{}

/// The letters are `Answer` alone. Behind them come those that `work` sends last.
pub fn answers_alone()
    ensures { AlwaysHolds AnswersAlone }
{}

/// The batches that were sent are, in the order of the requests that were given, those of each from number 0 on without a
/// gap.
pub fn answers_in_order()
    ensures { AlwaysHolds AnswersInOrder }
{}

/// Each request that was given and whose last batch was not sent is one of those that were said to be dead. Where memory
/// failed the last one may be an exception.
pub fn cut_short_where_dead()
    ensures { AlwaysHolds CutShortWhereDead }
{}
