//! The places of a document that a move of the cursor, an operator or a mark can go to.
ghost use Rattle.std.specs.Prelude.{◌≡◌, ◌+◌, ◌<◌, ◌≤◌, length, IfSome, IsTrue, IsFalse};
ghost use Rattle.text_doc.specs.Words.{prev_word, next_word_start, next_word_end};
ghost use Rattle.text_doc.specs.Rows.{line_start, line_end, row_of, index_of, up, down};
ghost use Rattle.text_doc.specs.Finds.{find_char};
ghost use Rattle.text_doc.specs.Brackets.{matching_bracket};

use crate::{Doc, brackets, finds, rows, words};

impl Doc {
    /// Returns the cursor's row and column, both counted from 0. Line feeds alone part the rows.
    pub fn row_col(&self) -> (usize, usize)
        ensures row { result.0 ≡ row_of self.now.text self.now.cursor }
        ensures col { line_start self.now.text self.now.cursor + result.1 ≡ self.now.cursor }
        ensures round_trip { index_of self.now.text result.0 result.1 ≡ self.now.cursor }
    {
        self.row_col_of(self.cursor())
    }

    /// Returns the row and column of a place, as `row_col` does.
    pub fn row_col_of(&self, place: usize) -> (usize, usize)
        requires { place ≤ length self.now.text }
        ensures row { result.0 ≡ row_of self.now.text place }
        ensures col { line_start self.now.text place + result.1 ≡ place }
        ensures round_trip { index_of self.now.text result.0 result.1 ≡ place }
    {
        let text = self.indexed();
        let row = text.row_of(place);
        let start = rows::line_start(text, place);
        (row, place - start)
    }

    /// Returns the place in this row and column: in the last row where there are fewer rows, and at the row's end
    /// where the row is shorter.
    pub fn index_of(&self, row: usize, col: usize) -> usize
        ensures place { result ≡ index_of self.now.text row col }
        ensures within { result ≤ length self.now.text }
    {
        rows::index_of(self.indexed(), row, col)
    }

    /// Returns where the cursor's row starts.
    pub fn line_start(&self) -> usize
        ensures start { result ≡ line_start self.now.text self.now.cursor }
        ensures within { result ≤ self.now.cursor }
    {
        self.line_start_from(self.cursor())
    }

    /// Returns where the row of a place starts.
    pub fn line_start_from(&self, place: usize) -> usize
        requires { place ≤ length self.now.text }
        ensures start { result ≡ line_start self.now.text place }
        ensures within { result ≤ place }
    {
        rows::line_start(self.indexed(), place)
    }

    /// Returns where the cursor's row ends: at its line feed, or at the text's end.
    pub fn line_end(&self) -> usize
        ensures end { result ≡ line_end self.now.text self.now.cursor }
        ensures behind { self.now.cursor ≤ result }
        ensures within { result ≤ length self.now.text }
    {
        self.line_end_from(self.cursor())
    }

    /// Returns where the row of a place ends, as `line_end` does.
    pub fn line_end_from(&self, place: usize) -> usize
        requires { place ≤ length self.now.text }
        ensures end { result ≡ line_end self.now.text place }
        ensures behind { place ≤ result }
        ensures within { result ≤ length self.now.text }
    {
        rows::line_end(self.indexed(), place)
    }

    /// Returns the greatest word start below the cursor. A word is a run of `[A-Za-z0-9_]`, or one of other characters
    /// that are not white space; a big word is a run of all that is not white space.
    pub fn prev_word(&self, big: bool) -> Option<usize>
        ensures place { result ≡ prev_word big self.now.text self.now.cursor }
        ensures below { IfSome result (λ at. at < self.now.cursor) }
        ensures within { IfSome result (λ at. at < length self.now.text) }
    {
        self.prev_word_from(self.cursor(), big)
    }

    /// Returns the greatest word start below a place, of words as in `prev_word`.
    pub fn prev_word_from(&self, from: usize, big: bool) -> Option<usize>
        requires { from ≤ length self.now.text }
        ensures place { result ≡ prev_word big self.now.text from }
        ensures below { IfSome result (λ at. at < from) }
        ensures within { IfSome result (λ at. at < length self.now.text) }
    {
        words::prev_word(self.indexed(), from, big)
    }

    /// Returns the least word start above the cursor, of words as in `prev_word`.
    pub fn next_word_start(&self, big: bool) -> Option<usize>
        ensures place { result ≡ next_word_start big self.now.text self.now.cursor }
        ensures above { IfSome result (λ at. self.now.cursor < at) }
        ensures within { IfSome result (λ at. at < length self.now.text) }
    {
        self.next_word_start_from(self.cursor(), big)
    }

    /// Returns the least word start above a place, of words as in `prev_word`.
    pub fn next_word_start_from(&self, from: usize, big: bool) -> Option<usize>
        requires { from ≤ length self.now.text }
        ensures place { result ≡ next_word_start big self.now.text from }
        ensures above { IfSome result (λ at. from < at) }
        ensures within { IfSome result (λ at. at < length self.now.text) }
    {
        words::next_word_start(self.indexed(), from, big)
    }

    /// Returns the least word end above the cursor, of words as in `prev_word`. A word's end is the place behind its
    /// last character.
    pub fn next_word_end(&self, big: bool) -> Option<usize>
        ensures place { result ≡ next_word_end big self.now.text self.now.cursor }
        ensures above { IfSome result (λ at. self.now.cursor < at) }
        ensures within { IfSome result (λ at. at ≤ length self.now.text) }
    {
        self.next_word_end_from(self.cursor(), big)
    }

    /// Returns the least word end above a place, as `next_word_end` does.
    pub fn next_word_end_from(&self, from: usize, big: bool) -> Option<usize>
        requires { from ≤ length self.now.text }
        ensures place { result ≡ next_word_end big self.now.text from }
        ensures above { IfSome result (λ at. from < at) }
        ensures within { IfSome result (λ at. at ≤ length self.now.text) }
    {
        words::next_word_end(self.indexed(), from, big)
    }

    /// Returns the place `count` rows up or in the first row, in this column or at that row's end. There is none where
    /// the cursor is in the first row, or `count` is 0.
    pub fn up(&self, count: u32, col: usize) -> Option<usize>
        ensures place { result ≡ up self.now.text self.now.cursor count col }
        ensures within { IfSome result (λ at. at ≤ length self.now.text) }
    {
        self.up_from(self.cursor(), count, col)
    }

    /// Returns the place `count` rows up from a place, as `up` does.
    pub fn up_from(&self, from: usize, count: u32, col: usize) -> Option<usize>
        requires { from ≤ length self.now.text }
        ensures place { result ≡ up self.now.text from count col }
        ensures within { IfSome result (λ at. at ≤ length self.now.text) }
    {
        rows::up(self.indexed(), from, count, col)
    }

    /// Returns the place `count` rows down or in the last row, in this column or at that row's end. There is none
    /// where the cursor is in the last row, or `count` is 0.
    pub fn down(&self, count: u32, col: usize) -> Option<usize>
        ensures place { result ≡ down self.now.text self.now.cursor count col }
        ensures within { IfSome result (λ at. at ≤ length self.now.text) }
    {
        self.down_from(self.cursor(), count, col)
    }

    /// Returns the place `count` rows down from a place, as `down` does.
    pub fn down_from(&self, from: usize, count: u32, col: usize) -> Option<usize>
        requires { from ≤ length self.now.text }
        ensures place { result ≡ down self.now.text from count col }
        ensures within { IfSome result (λ at. at ≤ length self.now.text) }
    {
        rows::down(self.indexed(), from, count, col)
    }

    /// Returns the place number `nth` of `c` in the cursor's row, behind the cursor or before it, counted from 1 and
    /// away from the cursor. There is none where `nth` is 0.
    pub fn find_char(&self, c: char, forward: bool, nth: u32) -> Option<usize>
        ensures place { result ≡ find_char self.now.text self.now.cursor c forward nth }
        ensures ahead { IsTrue forward → IfSome result (λ at. self.now.cursor < at) }
        ensures back { IsFalse forward → IfSome result (λ at. at < self.now.cursor) }
        ensures within { IfSome result (λ at. at < length self.now.text) }
    {
        self.find_char_from(self.cursor(), c, forward, nth)
    }

    /// Returns the place number `nth` of `c` in the row of a place, behind the place or before it, as `find_char` does.
    pub fn find_char_from(&self, from: usize, c: char, forward: bool, nth: u32) -> Option<usize>
        requires { from ≤ length self.now.text }
        ensures place { result ≡ find_char self.now.text from c forward nth }
        ensures ahead { IsTrue forward → IfSome result (λ at. from < at) }
        ensures back { IsFalse forward → IfSome result (λ at. at < from) }
        ensures within { IfSome result (λ at. at < length self.now.text) }
    {
        finds::find_char(self.indexed(), from, c, forward, nth)
    }

    /// Returns the place of the bracket that matches the one at the cursor, of `()`, `[]`, `{}` and `<>`. A bracket
    /// counts its own kind alone.
    pub fn matching_bracket(&self) -> Option<usize>
        ensures place { result ≡ matching_bracket self.now.text self.now.cursor }
        ensures within { IfSome result (λ at. at < length self.now.text) }
    {
        brackets::matching_bracket(self.indexed(), self.cursor())
    }
}
