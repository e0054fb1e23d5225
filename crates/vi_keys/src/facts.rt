//! The facts by which vi's keys are decided.
ghost use Rattle.std.specs.Prelude.{◌≡◌};
ghost use Rattle.key_proc.specs.Facts.{has};
ghost use Rattle.key_proc.specs.declared.facts.Fact.{Fact};
ghost use Rattle.vi_keys.specs.ViFacts.{mode_fact, holds_as_vi};

use edit_state::{EditState, ViMode, ViState};
use key_proc::{Fact, Facts};

/// Returns the facts that hold as vi's keys are read, by which a key of `vi_bindings` is decided.
pub fn vi_facts(state: &EditState, vi: ViState) -> Facts
    ensures { (fact : Fact) → has result fact ≡ holds_as_vi state.now vi fact }
{
    let facts = state.facts().with(mode_fact(vi.mode));
    match vi.operator {
        Some(_) => facts.with(Fact::Operator),
        None => facts,
    }
}

fn mode_fact(mode: ViMode) -> Fact
    ensures { result ≡ mode_fact mode }
{
    match mode {
        ViMode::Insert => Fact::Insert,
        ViMode::Navigation => Fact::Navigation,
        ViMode::Replace => Fact::Replace,
    }
}
