//! A parser of key presses, fed with pieces of bytes.
ghost use Rattle.std.specs.Prelude.{◌≡◌, ◌≤◌, ◌++◌, drop, vec_len, OnOk};
ghost use Rattle.characters.specs.Characters.{unfinished_char};

use crate::cutter::Cutter;
use crate::keys::Keys;
use crate::paste::OpenPaste;
use crate::table::SeqTable;
use characters::decode_into;
use std::alloc::{AllocError, Global};
use std::marker::Model;

/// Reads key presses from the bytes of a terminal. What can't be decided yet waits for the next piece or a flush.
#[derive(Debug, Drop)]
pub struct Parser<const N: usize> {
    table: SeqTable<N>,
    // The bytes of an unfinished character.
    bytes: Vec<u8>,
    // The characters that wait outside a paste.
    text: Vec<char>,
    paste: Option<OpenPaste>,
}

impl<const N: usize> Model for Parser<N> {
    ghost use Rattle.vt_input.specs.Inputs.{Parsing};

    ghost Value = { Parsing };

    ghost view = { λ p. record {
      rows = p.table;
      bytes = p.bytes.items;
      held = record { text = p.text.items; paste = p.paste };
    } };
}

impl<const N: usize> Parser<N> {
    ghost use Rattle.std.specs.Prelude.{◌≡◌, [], ◌++◌, true, is_some, IfOk, OnOk};
    ghost use Rattle.characters.specs.Characters.{unfinished_char};
    ghost use Rattle.vt_input.specs.Sequences.{is_short};
    ghost use Rattle.vt_input.specs.Held.{fed_by};
    ghost use Rattle.vt_input.specs.Inputs.{IsSmall, decoded_after, finished, fed_bytes, parsing_after, flushed};
    ghost use Rattle.vt_input.specs.Inputs.{parsing_flushed, has_waiting, stands_for};

    /// Returns a parser that has read nothing.
    pub fn new(alloc: Global, table: SeqTable<N>) -> Result<Parser<N>, AllocError>
        ensures fresh { IfOk result (λ parser. parser ≡ stands_for table.entry []) }
        ensures small { IfOk result (λ parser. IsSmall parser) }
    {
        Ok(Parser {
            table,
            bytes: Vec::new(alloc),
            text: Vec::new(alloc),
            paste: None,
        })
    }

    /// Reads a piece of bytes, and returns the key presses that it decides. After want of memory nothing is claimed of
    /// the parser, and it is only dropped.
    pub fn feed(&mut self, piece: &[u8]) -> Result<Keys, AllocError>
        ensures keys { IfOk result (λ keys. keys ≡ (fed_bytes self.old piece.now).presses) }
        ensures rest { OnOk result (self.new ≡ parsing_after self.old piece.now) }
        ensures small { OnOk result (IsSmall self.old → IsSmall self.new) }
    {
        let keys = self.read(piece)?;
        Ok(keys)
    }

    /// Decides all that waits outside a paste, and returns its key presses, as when no more bytes came for a while; in
    /// a paste it does nothing. An unfinished character counts as U+FFFD.
    pub fn flush(&mut self) -> Result<Keys, AllocError>
        ensures keys { IfOk result (λ keys. keys ≡ (flushed self.old).presses) }
        ensures rest { OnOk result (self.new ≡ parsing_flushed self.old) }
        ensures small { OnOk result (IsSmall self.old → IsSmall self.new) }
    {
        let keys = self.decide_all()?;
        Ok(keys)
    }

    /// Forgets all that was read, an open paste too, and takes no memory.
    pub fn clear(&mut self)
        ensures fresh { self.new ≡ stands_for self.old.rows [] }
        ensures small { IsSmall self.new }
    {
        self.bytes.clear();
        self.text.clear();
        self.paste = None;
    }

    /// Tells whether something waits outside a paste.
    pub fn holds(&self) -> bool
        ensures { result ≡ has_waiting self.now }
    {
        self.paste.is_none() && !(self.text.is_empty() && self.bytes.is_empty())
    }

    /// Gives and leaves what `feed` does.
    fn read(&mut self, piece: &[u8]) -> Result<Keys, AllocError>
        ensures keys { IfOk result (λ keys. keys ≡ (fed_bytes self.old piece.now).presses) }
        ensures rest { OnOk result (self.new ≡ parsing_after self.old piece.now) }
        ensures short { OnOk result (is_short self.old.rows ≡ true) }
    {
        self.decode(piece)?;
        let keys = self.cut_held(false)?;
        Ok(keys)
    }

    /// Gives and leaves what `flush` does.
    fn decide_all(&mut self) -> Result<Keys, AllocError>
        ensures keys { IfOk result (λ keys. keys ≡ (flushed self.old).presses) }
        ensures rest { OnOk result (self.new ≡ parsing_flushed self.old) }
    {
        if self.is_in_paste() {
            return Ok(Keys::new(*self.text.allocator()));
        }
        self.finish_character()?;
        let keys = self.cut_held(true)?;
        Ok(keys)
    }

    /// Tells whether a paste is open.
    fn is_in_paste(&self) -> bool
        ensures { result ≡ is_some self.now.held.paste }
    {
        self.paste.is_some()
    }

    /// Adds the characters of a piece to the text.
    fn decode(&mut self, piece: &[u8]) -> Result<(), AllocError>
        ensures { OnOk result (self.new ≡ decoded_after self.old piece.now) }
    {
        self.bytes.extend_from_slice(piece)?;
        let read = decode_into(self.bytes.as_slice(), &mut self.text)?;
        drop_front(&mut self.bytes, read);
        Ok(())
    }

    /// Adds U+FFFD for the bytes of an unfinished character.
    fn finish_character(&mut self) -> Result<(), AllocError>
        ensures { OnOk result (self.new ≡ finished self.old) }
    {
        add_unfinished(self.bytes.as_slice(), &mut self.text)?;
        self.bytes.clear();
        Ok(())
    }

    /// Takes the key presses off the front of the text, or of the open paste and the text behind it.
    fn cut_held(&mut self, flush: bool) -> Result<Keys, AllocError>
        ensures keys { IfOk result (λ keys.
            keys ≡ (fed_by self.old.rows flush self.old.held.paste self.old.held.text).presses) }
        ensures rest { OnOk result (self.new
            ≡ record self.old {
              held = (fed_by self.old.rows flush self.old.held.paste self.old.held.text).held;
            }) }
        ensures short { OnOk result (is_short self.old.rows ≡ true) }
    {
        let alloc = *self.text.allocator();
        let mut cutter = Cutter {
            presses: Keys::new(alloc),
            paste: self.paste.take(),
        };
        let taken = cutter.cut(alloc, self.table.rows(), flush, self.text.as_slice())?;
        drop_front(&mut self.text, taken);
        let Cutter { presses, paste } = cutter;
        self.paste = paste;
        Ok(presses)
    }
}

/// Adds U+FFFD where there are bytes.
fn add_unfinished(bytes: &[u8], text: &mut Vec<char>) -> Result<(), AllocError>
    ensures { OnOk result (text.new.items ≡ text.old.items ++ unfinished_char bytes.now) }
{
    if !bytes.is_empty() {
        text.push('\u{FFFD}')?;
    }
    Ok(())
}

/// Drops the first elements.
fn drop_front<T: Drop>(items: &mut Vec<T>, count: usize)
    requires { count ≤ vec_len items.old }
    ensures { items.new.items ≡ drop count items.old.items }
{
    let left = items.len() - count;
    items.as_mut_slice().rotate_left(count);
    items.truncate(left);
}
