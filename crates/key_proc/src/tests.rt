//! Which binding fires, case by case.
use crate::BindingRow::{Eager, Plain};
use crate::RowKeys::{One, Three, Two};
use crate::{
    BindingRow, Bindings, Fact, FactFilter, FactTest, Facts, Fired, Held, Save, bindings_of,
};
use key_names::{Key, KeyPress, KeyText};
use std::alloc::Global;
use std::process::Abort;
use std::test::Fail;

const A: Key = Key::Char('a');

const B: Key = Key::Char('b');

const C: Key = Key::Char('c');

const X: Key = Key::Control('x');

const ANY: Key = Key::Any;

const EMACS: FactFilter = FactFilter::All(&[FactTest::Is(Fact::Emacs)]);

const INSERT: FactFilter = FactFilter::All(&[FactTest::Is(Fact::Insert)]);

const NAVIGATION: FactFilter = FactFilter::All(&[FactTest::Is(Fact::Navigation)]);

const REPLACE: FactFilter = FactFilter::All(&[FactTest::Is(Fact::Replace)]);

const OPERATOR: FactFilter = FactFilter::All(&[FactTest::Is(Fact::Operator)]);

const SELECTION: FactFilter = FactFilter::All(&[FactTest::Is(Fact::Selection)]);

const SUGGESTION: FactFilter = FactFilter::All(&[FactTest::Is(Fact::Suggestion)]);

const BOTH: FactFilter = FactFilter::All(&[FactTest::Is(Fact::Menu), FactTest::Is(Fact::Empty)]);

const ONE: FactFilter = FactFilter::Either(
    &[FactTest::Is(Fact::Menu)],
    &[FactTest::Is(Fact::Empty)],
);

const WITHOUT: FactFilter = FactFilter::All(&[
    FactTest::Is(Fact::Searching),
    FactTest::Not(Fact::Menu),
]);

const ALWAYS: FactFilter = FactFilter::All(&[]);

const ROWS: [BindingRow; 20] = [
    Plain(One(A), EMACS, Save::Always, 1),
    Plain(Two(A, B), EMACS, Save::Always, 2),
    Plain(Three(A, B, C), EMACS, Save::Always, 3),
    Eager(One(A), INSERT, Save::Always, 4),
    Plain(Two(A, B), INSERT, Save::Always, 5),
    Plain(One(ANY), NAVIGATION, Save::Always, 6),
    Plain(Two(A, ANY), NAVIGATION, Save::Always, 7),
    Plain(Two(ANY, B), NAVIGATION, Save::Always, 8),
    Plain(Three(ANY, B, C), REPLACE, Save::Always, 9),
    Plain(Three(A, ANY, C), REPLACE, Save::Always, 10),
    Plain(Three(A, B, ANY), REPLACE, Save::Always, 11),
    Plain(One(A), OPERATOR, Save::Always, 12),
    Plain(One(ANY), OPERATOR, Save::Always, 13),
    Plain(One(A), SELECTION, Save::Always, 14),
    Plain(One(A), SELECTION, Save::Always, 15),
    Eager(One(ANY), SUGGESTION, Save::Always, 16),
    Plain(One(A), BOTH, Save::Always, 17),
    Plain(One(B), ONE, Save::Always, 18),
    Plain(One(C), WITHOUT, Save::Always, 19),
    Plain(One(X), ALWAYS, Save::Always, 20),
];

// The command, the last key and the number of keys of what fires; the key that is dropped.
#[derive(Clone, Copy, Debug, PartialEq, Eq)]
enum Answer {
    Fire(u32, Key, u32),
    Dropped(Key),
    Wait,
    Nothing,
}

// The facts that hold, the held keys, whether there is a flush, the answer, and how many keys are left.
const CASES: [(&[Fact], &[Key], bool, Answer, usize); 36] = [
    (&[], &[], false, Answer::Nothing, 0),
    (&[Fact::Emacs], &[], true, Answer::Nothing, 0),
    (&[Fact::Emacs], &[A], false, Answer::Wait, 1),
    (&[Fact::Emacs], &[A], true, Answer::Fire(1, A, 1), 0),
    (&[Fact::Emacs], &[A, B], false, Answer::Wait, 2),
    (&[Fact::Emacs], &[A, B], true, Answer::Fire(2, B, 2), 0),
    (&[Fact::Emacs], &[A, B, C], false, Answer::Fire(3, C, 3), 0),
    (&[Fact::Emacs], &[A, B, A], false, Answer::Fire(2, B, 2), 1),
    (&[Fact::Emacs], &[A, C], false, Answer::Fire(1, A, 1), 1),
    (&[Fact::Emacs], &[B], false, Answer::Dropped(B), 0),
    (&[Fact::Emacs], &[B, A], true, Answer::Dropped(B), 1),
    (&[], &[A], false, Answer::Dropped(A), 0),
    (&[], &[A, B, C], true, Answer::Dropped(A), 2),
    (&[Fact::Insert], &[A], false, Answer::Fire(4, A, 1), 0),
    (&[Fact::Insert], &[A, B], false, Answer::Fire(5, B, 2), 0),
    (&[Fact::Navigation], &[C], false, Answer::Wait, 1),
    (&[Fact::Navigation], &[C], true, Answer::Fire(6, C, 1), 0),
    (
        &[Fact::Navigation],
        &[A, C],
        false,
        Answer::Fire(7, C, 2),
        0,
    ),
    (
        &[Fact::Navigation],
        &[C, B],
        false,
        Answer::Fire(8, B, 2),
        0,
    ),
    (
        &[Fact::Navigation],
        &[A, B],
        false,
        Answer::Fire(8, B, 2),
        0,
    ),
    (
        &[Fact::Navigation],
        &[A, C, C],
        true,
        Answer::Fire(7, C, 2),
        1,
    ),
    (
        &[Fact::Replace],
        &[C, B, C],
        false,
        Answer::Fire(9, C, 3),
        0,
    ),
    (
        &[Fact::Replace],
        &[A, C, C],
        false,
        Answer::Fire(10, C, 3),
        0,
    ),
    (
        &[Fact::Replace],
        &[A, B, A],
        false,
        Answer::Fire(11, A, 3),
        0,
    ),
    (
        &[Fact::Replace],
        &[A, B, C],
        false,
        Answer::Fire(11, C, 3),
        0,
    ),
    (&[Fact::Operator], &[A], false, Answer::Fire(12, A, 1), 0),
    (&[Fact::Operator], &[B], false, Answer::Fire(13, B, 1), 0),
    (&[Fact::Selection], &[A], false, Answer::Fire(15, A, 1), 0),
    (
        &[Fact::Operator, Fact::Suggestion],
        &[A],
        false,
        Answer::Fire(16, A, 1),
        0,
    ),
    (&[Fact::Menu], &[A], false, Answer::Dropped(A), 0),
    (
        &[Fact::Menu, Fact::Empty],
        &[A],
        false,
        Answer::Fire(17, A, 1),
        0,
    ),
    (&[Fact::Menu], &[B], false, Answer::Fire(18, B, 1), 0),
    (&[Fact::Empty], &[B], false, Answer::Fire(18, B, 1), 0),
    (&[Fact::Searching], &[C], false, Answer::Fire(19, C, 1), 0),
    (
        &[Fact::Searching, Fact::Menu],
        &[C],
        false,
        Answer::Dropped(C),
        0,
    ),
    (&[], &[X], false, Answer::Fire(20, X, 1), 0),
];

fn facts_of(facts: &[Fact]) -> Facts {
    let mut holding = Facts::none();
    for fact in facts {
        holding = holding.with(*fact);
    }
    holding
}

fn press(alloc: Global, key: Key) -> KeyPress {
    KeyPress {
        key,
        text: KeyText::new(alloc),
    }
}

fn answer_of(fired: &Fired) -> Answer {
    match fired {
        Fired::Fire {
            command,
            last,
            used,
            ..
        } => Answer::Fire(*command, last.key, *used),
        Fired::Dropped(press) => Answer::Dropped(press.key),
        Fired::Wait => Answer::Wait,
        Fired::Nothing => Answer::Nothing,
    }
}

/// Tells what is decided of these keys where these facts hold, and how many keys are left then.
fn decided(
    rt: &impl Abort,
    alloc: Global,
    table: &Bindings<20>,
    facts: &[Fact],
    keys: &[Key],
    flush: bool,
) -> (Answer, usize) {
    let mut held = Held::new();
    for key in keys {
        assert!(rt; held.len() < 3);
        held.push(press(alloc, *key));
    }
    let fired = held.decide(table, &facts_of(facts), flush);
    (answer_of(&fired), held.len())
}

#[test]
fn fires_by_the_rules(rt: HostRuntime) -> Result<(), Fail> {
    let table = bindings_of::<20>(rt.alloc(), &ROWS)?;
    for (facts, keys, flush, answer, left) in CASES {
        assert_eq!(rt;
            decided(&rt, rt.alloc(), &table, facts, keys, flush),
            (answer, left),
            "facts {facts:?}, keys {keys:?}"
        );
    }
    Ok(())
}
