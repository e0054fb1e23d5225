//! A session: its state, and what an event does to it.

use crate::commands::{drain, keys_behind};
use crate::histories::{begin_line, history_with, new_entry};
use crate::outcomes::{Outcome, StepFault};
use crate::scenes::{drawing, settled_scroll};
use cell_grid::{Drawing, Size};
use edit_buffer::{Buffer, Ring, keep_newest};
use edit_cmds::{EMACS, emacs_bindings};
use edit_state::EditState;
use events::Event;
use key_names::KeyPress;
use key_proc::{Bindings, Held};
use prompt_settings::Config;
use requests::{Kind, Request};
use sequences::Queue;
use std::alloc::Global;
use std::marker::Model;
use text_doc::{Doc, Item, Lines, NoMemory, Text};
use vt_input::{Keys, Parser, standard_table};
use win_view::Scroll;

/// How long a key may wait for the rest of its bytes, in milliseconds.
const INPUT_WAITS: u64 = 500;

/// How long held keys may wait for a further key, in milliseconds.
const KEYS_WAIT: u64 = 1_000;

/// The state of one prompt: a text that is edited until it is accepted or the prompt ends otherwise.
#[derive(Drop)]
pub struct Session {
    alloc: Global,
    bindings: Bindings<EMACS>,
    edit: EditState,
    parser: Parser<75>,
    held: Held,
    moment: u64,
    // the moment of the last piece
    piece_moment: u64,
    // the moment of the last key
    key_moment: u64,
    size: Size,
    scroll: Scroll,
    config: Config,
    history: Vec<Text>,
    outcome: Option<Outcome>,
    kept: Keys,
    failed: bool,
}

impl Model for Session {
    ghost use Rattle.session_core.specs.State.{State};

    ghost Value = { State };

    ghost use Rattle.session_core.specs.Fields.{state_of, IsKept};

    ghost view = { state_of };

    ghost invariant = { IsKept };
}

impl Session {
    ghost use Rattle.std.specs.Prelude.{◌≡◌, ◌≤◌, ◌↔◌, false, true, None, IsTrue, IfOk, OnOk, OnErr, Err, length, option_copied};
    ghost use Rattle.std.specs.List.{All};
    ghost use Rattle.cell_grid.specs.Drawable.{AllRowsDrawable};
    ghost use Rattle.cell_grid.specs.Grid.{columns};
    ghost use Rattle.session_core.specs.State.{opened, failed, has_ended, HasFailed};
    ghost use Rattle.session_core.specs.History.{entry_of, history_after};
    ghost use Rattle.session_core.specs.Next.{again, are_keys_due, flushed_input, flushed_keys, is_accepted, is_input_due};
    ghost use Rattle.session_core.specs.Next.{next, pieced, size_after, started, stepped, ticked};
    ghost use Rattle.session_core.specs.Draw.{draw, settle, IsSettled};
    ghost use Rattle.session_core.specs.Keys.{kept_behind, pressed, ran_key, ran_keys, typing_of, with_typing};
    ghost use Rattle.session_core.specs.Typing.{drained};
    ghost use Rattle.session_core.specs.Wishes.{wanted};
    ghost use Rattle.prompt_view.specs.Drawing.{HasCursorInside};
    ghost use Rattle.events.specs.Jobs.{wanted_of};

    #[tactic(auto, using(crate::proofs::HistoryLemmas::newest_short))]
    /// Returns a session before its first event, with the text that each prompt begins with. The history has its oldest entry first, of which the newest
    /// 1,000 are kept. The moment is in milliseconds since 1970.
    pub fn new(
        alloc: Global,
        config: Config,
        history: Lines,
        size: Size,
        moment: u64,
    ) -> Result<Session, NoMemory>
        requires entries { All (λ entry. length entry ≤ 32768) history }
        ensures opened { IfOk result (λ session. session ≡ opened config history size moment) }
    {
        let lines = history.copy()?;
        let mut history = history.into_vec();
        keep_newest(&mut history);
        let text = Text::from_chars(alloc, config.default())?;
        let buffer = Buffer::new(alloc, lines, text)?;
        let multiline = config.multiline();
        let ring = Ring::new(alloc)?;
        let table = standard_table(alloc)?;
        let parser = Parser::new(alloc, table)?;
        let bindings = emacs_bindings(alloc)?;
        Ok(Session {
            alloc,
            bindings,
            edit: EditState::new(buffer, ring, multiline),
            parser,
            held: Held::new(),
            moment,
            piece_moment: moment,
            key_moment: moment,
            size,
            scroll: Scroll { down: 0, across: 0 },
            config,
            history,
            outcome: None,
            kept: Keys::new(alloc),
            failed: false,
        })
    }

    #[tactic(auto, using(crate::proofs::StateLemmas::next_size))]
    /// Takes one event. A session that finds no memory ends without an outcome.
    pub fn step(&mut self, event: Event) -> Result<(), StepFault>
        ensures next { OnOk result (self.new ≡ next self.old event) }
        ensures size { OnOk result (self.new.size ≡ size_after event self.old.size) }
        ensures settled { OnOk result (IsSettled self.new) }
        ensures ended { (result ≡ Err StepFault.Ended) ↔ IsTrue (has_ended self.old) }
        ensures same { result ≡ Err StepFault.Ended → self.new ≡ self.old }
        ensures no_memory { result ≡ Err StepFault.NoMemory → HasFailed self.new }
    {
        if self.ended() {
            return Err(StepFault::Ended);
        }
        match self.take(event) {
            Ok(()) => Ok(()),
            Err(_) => {
                self.fail();
                Err(StepFault::NoMemory)
            }
        }
    }

    #[tactic(auto, unfolding(crate::specs::Next::next))]
    /// Does the step of the event, and scrolls the window to the cursor.
    fn take(&mut self, event: Event) -> Result<(), NoMemory>
        requires goes_on { self.old.outcome ≡ None }
        ensures next { OnOk result (self.new ≡ next self.old event) }
        ensures settled { OnOk result (IsSettled self.new) }
    {
        self.advance(event)?;
        self.settle()?;
        Ok(())
    }

    /// Does the step of the event.
    fn advance(&mut self, event: Event) -> Result<(), NoMemory>
        requires goes_on { self.old.outcome ≡ None }
        ensures stepped { OnOk result (self.new ≡ stepped self.old event) }
    {
        match event {
            Event::Start => self.start()?,
            Event::Piece(bytes) => self.read(bytes.as_slice())?,
            Event::Tick(moment) => self.tick(moment)?,
            Event::Resize(size) => self.size = size,
            // no setting asks for answers yet
            Event::Answer(_) => {}
            Event::End => {
                self.parser.clear();
                self.outcome = Some(Outcome::EndOfFile);
            }
        }
        Ok(())
    }

    #[tactic(auto, unfolding(crate::specs::Next::started))]
    /// Runs the keys that the prompt before left.
    fn start(&mut self) -> Result<(), NoMemory>
        requires goes_on { self.old.outcome ≡ None }
        ensures started { OnOk result (self.new ≡ started self.old) }
    {
        let kept = std::mem::replace(&mut self.kept, Keys::new(self.alloc));
        self.settle()?;
        self.run_keys(kept)?;
        Ok(())
    }

    #[tactic(auto, unfolding(crate::specs::Next::pieced))]
    /// Reads bytes of the terminal, and runs the keys that they end.
    fn read(&mut self, bytes: &[u8]) -> Result<(), NoMemory>
        requires goes_on { self.old.outcome ≡ None }
        ensures pieced { OnOk result (self.new ≡ pieced self.old bytes.now) }
    {
        let keys = self.parser.feed(bytes)?;
        self.piece_moment = self.moment;
        self.run_keys(keys)?;
        Ok(())
    }

    /// Lets the clock say a moment. What has waited too long waits no more.
    fn tick(&mut self, moment: u64) -> Result<(), NoMemory>
        requires goes_on { self.old.outcome ≡ None }
        ensures ticked { OnOk result (self.new ≡ ticked self.old moment) }
    {
        self.moment = self.moment.max(moment);
        self.flush_input()?;
        self.flush_keys()?;
        Ok(())
    }

    #[tactic(auto, unfolding(crate::specs::Next::flushed_input))]
    /// Half a second after the last piece, runs the keys of what waits outside a paste.
    fn flush_input(&mut self) -> Result<(), NoMemory>
        requires goes_on { self.old.outcome ≡ None }
        ensures flushed { OnOk result (self.new ≡ flushed_input self.old) }
    {
        if !self.is_input_due() {
            return Ok(());
        }
        let keys = self.parser.flush()?;
        self.run_keys(keys)?;
        Ok(())
    }

    fn is_input_due(&self) -> bool
        ensures { result ≡ is_input_due self.now }
    {
        self.parser.holds() && self.moment.saturating_sub(self.piece_moment) >= INPUT_WAITS
    }

    #[tactic(auto, unfolding(crate::specs::Next::flushed_keys))]
    /// A second after the last key, does what the keys that are held are bound to.
    fn flush_keys(&mut self) -> Result<(), NoMemory>
        ensures flushed { OnOk result (self.new ≡ flushed_keys self.old) }
    {
        if !self.are_keys_due() {
            return Ok(());
        }
        self.drain(true)?;
        if self.outcome.is_some() {
            let none = Keys::new(self.alloc).into_queue();
            self.keep_behind(none)?;
        }
        Ok(())
    }

    fn are_keys_due(&self) -> bool
        ensures { result ≡ are_keys_due self.now }
    {
        let waits = self.moment.saturating_sub(self.key_moment) >= KEYS_WAIT;
        self.outcome.is_none() && !self.held.is_empty() && waits
    }

    /// Does what the held keys are bound to.
    fn drain(&mut self, flush: bool) -> Result<(), NoMemory>
        requires goes_on { self.old.outcome ≡ None }
        ensures drained { OnOk result (self.new
            ≡ with_typing self.old (drained flush (typing_of self.old))) }
    {
        drain(
            self.alloc,
            &mut self.edit,
            &mut self.held,
            &mut self.outcome,
            &self.bindings,
            flush,
        )?;
        Ok(())
    }

    #[tactic(auto, using(crate::proofs::KeyLemmas::ran_on, crate::proofs::KeyLemmas::ran_last))]
    /// Runs keys, until one of them ends the prompt. The cost of a key is that of its command, of the bindings, and of the
    /// lines' cells, which are all built anew.
    fn run_keys(&mut self, keys: Keys) -> Result<(), NoMemory>
        requires goes_on { self.old.outcome ≡ None }
        ensures ran { OnOk result (self.new ≡ ran_keys self.old keys) }
    {
        let mut left = keys.into_queue();
        while let Some(key) = left.pop_front() {
            self.run_key(key)?;
            if self.outcome.is_some() {
                self.keep_behind(left)?;
                return Ok(());
            }
        }
        Ok(())
    }

    #[tactic(auto, unfolding(crate::specs::Keys::ran_key))]
    /// Runs a key.
    fn run_key(&mut self, key: KeyPress) -> Result<(), NoMemory>
        requires goes_on { self.old.outcome ≡ None }
        ensures ran { OnOk result (self.new ≡ ran_key self.old key) }
    {
        self.key_moment = self.moment;
        self.press(key)?;
        self.settle()?;
        Ok(())
    }

    /// Holds a key, and does what the held keys are bound to.
    fn press(&mut self, key: KeyPress) -> Result<(), NoMemory>
        requires goes_on { self.old.outcome ≡ None }
        ensures drained { OnOk result (self.new
            ≡ with_typing self.old (drained false (pressed key (typing_of self.old)))) }
    {
        self.held.push(key);
        drain(
            self.alloc,
            &mut self.edit,
            &mut self.held,
            &mut self.outcome,
            &self.bindings,
            false,
        )?;
        Ok(())
    }

    /// Keeps the keys that are held, and these behind them.
    fn keep_behind(&mut self, keys: Queue<KeyPress>) -> Result<(), NoMemory>
        ensures kept { OnOk result (self.new ≡ kept_behind self.old keys) }
    {
        let kept = keys_behind(self.alloc, &mut self.held, keys)?;
        self.kept = kept;
        Ok(())
    }

    #[tactic(auto, unfolding(crate::specs::Draw::settle, crate::specs::Draw::scene_of))]
    /// Scrolls the window to the cursor.
    fn settle(&mut self) -> Result<(), NoMemory>
        ensures scrolled { OnOk result (self.new ≡ settle self.old) }
        ensures settled { OnOk result (IsSettled self.new) }
        ensures outcome { OnOk result (self.new.outcome ≡ self.old.outcome) }
    {
        let finished = self.outcome.is_some();
        let scroll = settled_scroll(
            self.alloc,
            &self.config,
            &self.edit,
            finished,
            self.size,
            self.scroll,
        )?;
        self.scroll = scroll;
        Ok(())
    }

    #[tactic(auto, unfolding(crate::specs::Draw::draw, crate::specs::Draw::scene_of))]
    /// Returns the full drawing of the present state: the text with its message, and the bars of an argument and of a search.
    /// The cells of all lines are built.
    pub fn drawing(&mut self) -> Result<Drawing, NoMemory>
        ensures drawn { IfOk result (λ drawing. drawing ≡ draw self.old) }
        ensures wide { IfOk result (λ drawing. columns drawing.grid ≡ self.old.size.cols) }
        ensures high { IfOk result (λ drawing.
            (1 ≤ length drawing.grid) × (length drawing.grid ≤ self.old.size.rows)) }
        ensures cursor { IfOk result (λ drawing. IsSettled self.old → HasCursorInside drawing) }
        ensures drawable { IfOk result (λ drawing. AllRowsDrawable drawing.grid) }
        ensures same { self.new ≡ self.old }
    {
        let finished = self.outcome.is_some();
        let drawing = drawing(
            self.alloc,
            &self.config,
            &self.edit,
            finished,
            self.size,
            self.scroll,
        )?;
        Ok(drawing)
    }

    #[tactic(auto, unfolding(crate::specs::Next::again))]
    /// Begins the next prompt behind an accepted text, which is put into the history, unless it is empty or its newest entry. The
    /// keys that were kept are run by the next `Start`. Where there is no memory the session stays as it is.
    pub fn again(&mut self) -> Result<(), NoMemory>
        requires accepted { IsTrue (is_accepted self.old.outcome) }
        ensures again { OnOk result (self.new ≡ again self.old) }
        ensures no_memory { OnErr result (self.new ≡ self.old) }
    {
        let history = self.history_after()?;
        let lines = Lines::from_vec(Text::copied_all(self.alloc, history.as_slice())?);
        let text = Text::from_chars(self.alloc, self.config.default())?;
        let buffer = Buffer::new(self.alloc, lines, text)?;
        self.history = history;
        begin_line(&mut self.edit, buffer, self.config.multiline());
        self.scroll = Scroll { down: 0, across: 0 };
        self.outcome = None;
        Ok(())
    }

    #[tactic(auto, using(crate::proofs::HistoryLemmas::history_short))]
    /// Returns the history with what the outcome adds to it.
    fn history_after(&self) -> Result<Vec<Text>, NoMemory>
        ensures entries { IfOk result (λ entries. entries.items
            ≡ history_after self.now.history self.now.outcome) }
        ensures short { IfOk result (λ entries. All (λ entry. length entry ≤ 32768) entries.items) }
    {
        let entry = match self.entry() {
            Some(entry) => Some(entry.copy()?),
            None => None,
        };
        let entries = history_with(self.alloc, self.history.as_slice(), entry)?;
        Ok(entries)
    }

    /// Returns the text that `again` adds to the history: the accepted one, unless it is empty or the newest entry.
    pub fn entry(&self) -> Option<&Text>
        ensures entry { option_copied result ≡ entry_of self.now.history self.now.outcome }
    {
        match &self.outcome {
            Some(Outcome::Accepted(text)) => new_entry(self.history.as_slice(), text),
            _ => None,
        }
    }

    #[tactic(auto, unfolding(crate::specs::Wishes::wanted))]
    /// Returns the request of this kind whose answer is wanted, if one is.
    pub fn wanted(&self, kind: Kind) -> Option<&Request>
        ensures wanted { option_copied result ≡ wanted_of kind (wanted self.now) }
    {
        // no setting asks for answers yet
        match kind {
            Kind::Complete | Kind::Suggest | Kind::Check => None,
        }
    }

    /// Tells how the prompt ended, if it has.
    pub fn outcome(&self) -> Option<&Outcome>
        ensures outcome { option_copied result ≡ self.now.outcome }
    {
        self.outcome.as_ref()
    }

    /// Tells whether no further event is taken.
    pub fn ended(&self) -> bool
        ensures ended { result ≡ has_ended self.now }
    {
        self.failed || self.outcome.is_some()
    }

    /// Ends the session without an outcome.
    pub fn fail(&mut self)
        ensures failed { self.new ≡ failed self.old }
    {
        self.failed = true;
        self.outcome = None;
    }

    /// Returns the text that is being edited, with its cursor and mark.
    pub fn doc(&self) -> &Doc
        ensures doc { result.now ≡ self.now.edit.buffer.doc }
    {
        self.edit.buffer.doc()
    }

    /// Returns the size of the terminal.
    pub fn size(&self) -> Size
        ensures size { result ≡ self.now.size }
    {
        self.size
    }

    /// Returns the present moment, in milliseconds since 1970.
    pub fn moment(&self) -> u64
        ensures moment { result ≡ self.now.moment }
    {
        self.moment
    }
}
