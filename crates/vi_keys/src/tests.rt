//! Tables worked out by hand: commands one after the other, and what they leave.
use crate::{ViCommand, is_ready, run_vi, vi_bindings};
use edit_buffer::{Buffer, Ring};
use edit_state::{Done, EditState, ViMode, ViState};
use key_names::{Key, KeyPress, KeyText};
use std::alloc::Global;
use std::process::Abort;
use std::test::Fail;
use text_doc::{Lines, MAX_LENGTH, Text};

/// A text and a cursor, commands with the characters of their keys, and then the last answer, the text and the cursor.
type Case = (
    &'static str,
    usize,
    &'static [(ViCommand, char)],
    Done,
    &'static str,
    usize,
);

/// A case: text and cursor, then each command with its key, then the answer, the text and the cursor.
macro_rules! case {
    ($text:tt $at:tt: $($command:ident $c:tt)* => $done:ident $wanted:tt $cursor:tt) => {
        ($text, $at, &[$((ViCommand::$command, $c)),*], Done::$done, $wanted, $cursor)
    };
}

/// Each motion without a count and with one, and at the edges of rows and of the text.
static MOTIONS: [Case; 56] = [
    case!("abc" 2: MoveLeft 'h' => Changed "abc" 1),
    case!("abc" 2: DigitArgument '2' MoveLeft 'h' => Changed "abc" 0),
    case!("a\nb" 2: MoveLeft 'h' => Same "a\nb" 2),
    case!("abc" 1: MoveRight 'l' => Changed "abc" 2),
    case!("abc" 2: MoveRight 'l' => Same "abc" 2),
    case!("abc\nd" 0: DigitArgument '9' MoveRight 'l' => Changed "abc\nd" 2),
    case!("" 0: MoveRight 'l' => Same "" 0),
    case!("ab\ncd" 1: MoveDown 'j' => Changed "ab\ncd" 4),
    case!("a\nb\nc" 0: DigitArgument '2' MoveDown 'j' => Changed "a\nb\nc" 4),
    case!("ab\ncd" 4: MoveUp 'k' => Changed "ab\ncd" 1),
    case!("ab" 1: MoveUp 'k' => Same "ab" 1),
    case!("a\nbcd" 4: MoveToRowStart '0' => Changed "a\nbcd" 2),
    case!("  ab" 3: MoveToRowText '^' => Changed "  ab" 2),
    case!("a\n  " 3: MoveToRowText '^' => Same "a\n  " 3),
    case!("abc\nd" 0: MoveToRowEnd '$' => Changed "abc\nd" 2),
    case!("ab, cd" 0: MoveToWord 'w' => Changed "ab, cd" 2),
    case!("ab, cd" 0: DigitArgument '2' MoveToWord 'w' => Changed "ab, cd" 4),
    case!("ab" 0: MoveToWord 'w' => Changed "ab" 1),
    case!("ab, cd" 0: MoveToBigWord 'W' => Changed "ab, cd" 4),
    case!("ab, cd" 4: MoveBackWord 'b' => Changed "ab, cd" 2),
    case!("ab, cd" 4: DigitArgument '9' MoveBackWord 'b' => Changed "ab, cd" 0),
    case!("ab, cd" 4: MoveBackBigWord 'B' => Changed "ab, cd" 0),
    case!("ab, cd" 0: MoveToWordEnd 'e' => Changed "ab, cd" 1),
    case!("ab, cd" 0: DigitArgument '2' MoveToWordEnd 'e' => Changed "ab, cd" 2),
    case!("ab, cd" 5: MoveToWordEnd 'e' => Same "ab, cd" 5),
    case!("ab, cd" 0: MoveToBigWordEnd 'E' => Changed "ab, cd" 2),
    case!("" 0: MoveToWordEnd 'e' => Same "" 0),
    case!("a\nb\nc" 4: MoveToFirstRow 'g' => Changed "a\nb\nc" 0),
    case!("a\nb\nc" 0: DigitArgument '2' MoveToFirstRow 'g' => Changed "a\nb\nc" 2),
    case!("a\nb\nc" 0: DigitArgument '9' MoveToFirstRow 'g' => Changed "a\nb\nc" 4),
    case!("a\nb\nc" 0: MoveToLastRow 'G' => Changed "a\nb\nc" 4),
    case!("a\nb\nc" 0: DigitArgument '2' MoveToLastRow 'G' => Changed "a\nb\nc" 2),
    case!("axbx" 0: FindAhead 'x' => Changed "axbx" 1),
    case!("axbx" 0: DigitArgument '2' FindAhead 'x' => Changed "axbx" 3),
    case!("a\nx" 0: FindAhead 'x' => Bell "a\nx" 0),
    case!("abab" 3: FindBack 'a' => Changed "abab" 2),
    case!("abab" 3: DigitArgument '2' FindBack 'a' => Changed "abab" 0),
    case!("axbx" 0: TillAhead 'x' => Changed "axbx" 0),
    case!("axbx" 0: DigitArgument '2' TillAhead 'x' => Changed "axbx" 2),
    case!("abab" 3: TillBack 'a' => Changed "abab" 3),
    case!("axbx" 0: FindAhead 'x' FindAgain ';' => Changed "axbx" 3),
    case!("axbx" 0: FindAhead 'x' FindAgain ';' FindTurned ',' => Changed "axbx" 1),
    case!("ax" 0: FindAgain ';' => Bell "ax" 0),
    case!("a(b)c" 1: MoveToBracket '%' => Changed "a(b)c" 3),
    case!("a(b)c" 0: MoveToBracket '%' => Bell "a(b)c" 0),
    case!("abc\na\nabc" 2: MoveDown 'j' MoveDown 'j' => Changed "abc\na\nabc" 8),
    case!("abc\na\nabc" 2: MoveDown 'j' MoveLeft 'h' MoveDown 'j' => Changed "abc\na\nabc" 6),
    case!("babab" 4: FindBack 'a' FindBack 'a' FindTurned ',' => Changed "babab" 3),
    case!("a\nb\nc" 4: DigitArgument '2' MoveUp 'k' => Changed "a\nb\nc" 0),
    case!("a,b c d" 0: DigitArgument '2' MoveToBigWord 'W' => Changed "a,b c d" 6),
    case!("a b,c d" 6: DigitArgument '2' MoveBackBigWord 'B' => Changed "a b,c d" 0),
    case!("a,b c d" 0: DigitArgument '2' MoveToBigWordEnd 'E' => Changed "a,b c d" 4),
    case!("abab" 3: DigitArgument '2' TillBack 'a' => Changed "abab" 1),
    case!("axbxcx" 0: FindAhead 'x' DigitArgument '2' FindAgain ';' => Changed "axbxcx" 5),
    case!("xaxax" 0: DigitArgument '2' FindAhead 'x' DigitArgument '2' FindTurned ',' => Changed "xaxax" 0),
    case!("a(b)c" 3: MoveToBracket '%' => Changed "a(b)c" 1),
];

/// Operators with motions, doubled, with words and with selections.
static OPERATORS: [Case; 56] = [
    case!("ab cd" 0: DeleteOperator 'd' MoveToWord 'w' => Changed "cd" 0),
    case!("ab cd" 0: DeleteOperator 'd' MoveToWordEnd 'e' => Changed " cd" 0),
    case!("abc" 1: DeleteOperator 'd' MoveToRowEnd '$' => Changed "a" 0),
    case!("ab cd" 0: ChangeOperator 'c' MoveToWord 'w' => Changed "cd" 0),
    case!("ab cd" 3: YankOperator 'y' MoveToWord 'w' => Changed "ab cd" 3),
    case!("ab cd" 3: DeleteOperator 'd' MoveBackWord 'b' => Changed "cd" 0),
    case!("ab cd" 3: YankOperator 'y' MoveBackWord 'b' => Changed "ab cd" 0),
    case!("abc" 2: DeleteOperator 'd' MoveRight 'l' => Changed "ab" 1),
    case!("abc" 0: DeleteOperator 'd' MoveLeft 'h' => Changed "abc" 0),
    case!("a\nb\nc" 0: DeleteOperator 'd' MoveDown 'j' => Changed "c" 0),
    case!("a\nb" 2: DeleteOperator 'd' MoveDown 'j' => Bell "a\nb" 2),
    case!("a\nb\nc" 4: DeleteOperator 'd' MoveUp 'k' => Changed "a" 0),
    case!("a\nb\nc" 2: DeleteOperator 'd' MoveToLastRow 'G' => Changed "a" 0),
    case!("a\nb\nc" 2: DeleteOperator 'd' MoveToFirstRow 'g' => Changed "c" 0),
    case!("a\nb\nc" 0: ChangeOperator 'c' MoveDown 'j' => Changed "\nc" 0),
    case!("a\nb\nc" 2: DeleteOperator 'd' DeleteRows 'd' => Changed "a\nc" 2),
    case!("a\nb" 2: DeleteOperator 'd' DeleteRows 'd' => Changed "a" 0),
    case!("a" 0: DeleteOperator 'd' DeleteRows 'd' => Changed "" 0),
    case!("" 0: DeleteOperator 'd' DeleteRows 'd' => Changed "" 0),
    case!("a\n\nb" 2: DeleteOperator 'd' DeleteRows 'd' => Changed "a\nb" 2),
    case!("a\nb\nc" 0: DigitArgument '2' DeleteOperator 'd' DeleteRows 'd' => Changed "c" 0),
    case!("a\nb\nc\nd" 0: DigitArgument '2' DeleteOperator 'd' DigitArgument '3' DeleteRows 'd' => Changed "" 0),
    case!("a b c d e" 0: DigitArgument '2' DeleteOperator 'd' DigitArgument '2' MoveToWord 'w' => Changed "e" 0),
    case!("a\nb\nc\nd" 0: DigitArgument '3' DeleteOperator 'd' MoveToLastRow 'G' => Changed "" 0),
    case!("a\nb\nc" 4: DigitArgument '2' DeleteOperator 'd' DigitArgument '1' MoveToLastRow 'G' => Changed "a" 0),
    case!("a\nbc\nd" 3: ChangeOperator 'c' ChangeRows 'c' => Changed "a\n\nd" 2),
    case!("a\n\nb" 2: ChangeOperator 'c' ChangeRows 'c' => Changed "a\n\nb" 2),
    case!("ab\ncd" 1: YankOperator 'y' YankRows 'y' PutBehind 'p' => Changed "ab\nab\ncd" 3),
    case!("ab\ncd" 4: YankOperator 'y' MoveUp 'k' => Changed "ab\ncd" 0),
    case!("ab\ncd" 4: YankOperator 'y' YankRows 'y' => Changed "ab\ncd" 4),
    case!("ab" 0: DeleteOperator 'd' ChangeRows 'c' => Bell "ab" 0),
    case!("ab" 0: DeleteOperator 'd' EndOperator 'a' => Bell "ab" 0),
    case!("ab" 0: DeleteOperator 'd' Leave 'e' => Changed "ab" 0),
    case!("abc" 0: DeleteOperator 'd' FindAhead 'z' => Bell "abc" 0),
    case!("abc" 0: DeleteOperator 'd' FindAhead 'c' => Changed "" 0),
    case!("abc" 0: DeleteOperator 'd' TillAhead 'c' => Changed "c" 0),
    case!("abc" 2: DeleteOperator 'd' FindBack 'a' => Changed "c" 0),
    case!("a(b)c" 1: DeleteOperator 'd' MoveToBracket '%' => Changed "ac" 1),
    case!("axbxc" 0: FindAhead 'x' DeleteOperator 'd' FindAgain ';' => Changed "ac" 1),
    case!("xaxa" 1: FindAhead 'x' DeleteOperator 'd' FindTurned ',' => Changed "xa" 0),
    case!("ab cd" 1: DeleteOperator 'd' InnerWord 'i' => Changed " cd" 0),
    case!("ab cd" 0: DeleteOperator 'd' AroundWord 'a' => Changed "cd" 0),
    case!("ab  cd" 2: DeleteOperator 'd' InnerWord 'i' => Changed "abcd" 2),
    case!("ab" 1: ChangeOperator 'c' InnerWord 'i' => Changed "" 0),
    case!("ab cd" 4: YankOperator 'y' InnerWord 'i' => Changed "ab cd" 3),
    case!("" 0: DeleteOperator 'd' InnerWord 'i' => Changed "" 0),
    case!("abc" 2: DeleteOperator 'd' MoveToRowStart '0' => Changed "c" 0),
    case!("abcd" 1: SelectChars 'v' MoveRight 'l' DeleteSelection 's' => Changed "ad" 1),
    case!("abcd" 2: SelectChars 'v' MoveLeft 'h' DeleteSelection 's' => Changed "ad" 1),
    case!("a\nb\nc" 0: SelectRows 'V' MoveDown 'j' DeleteSelection 's' => Changed "c" 0),
    case!("abc" 1: SelectChars 'v' YankSelection 's' PutBehind 'p' => Changed "abbc" 2),
    case!("a\nb" 2: SelectRows 'V' ChangeSelection 's' => Changed "a\n" 2),
    case!("ab" 0: SelectChars 'v' MoveDown 'j' => Bell "ab" 0),
    case!("ab" 0: SelectChars 'v' Leave 'e' => Changed "ab" 0),
    case!("ab" 0: DeleteSelection 's' => Same "ab" 0),
    case!("abc\nd" 0: SelectChars 'v' MoveToRowEnd '$' DeleteSelection 's' => Changed "d" 0),
];

/// Further motions behind `d`, without a count and with one.
static DELETIONS: [Case; 27] = [
    case!("abcd" 2: DeleteOperator 'd' MoveLeft 'h' => Changed "acd" 1),
    case!("abcd" 3: DeleteOperator 'd' DigitArgument '2' MoveLeft 'h' => Changed "ad" 1),
    case!("abc" 0: DeleteOperator 'd' MoveRight 'l' => Changed "bc" 0),
    case!("abcd" 1: DeleteOperator 'd' DigitArgument '2' MoveRight 'l' => Changed "ad" 1),
    case!("a\nb\nc\nd" 0: DeleteOperator 'd' DigitArgument '2' MoveDown 'j' => Changed "d" 0),
    case!("a\nb\nc\nd" 6: DeleteOperator 'd' DigitArgument '2' MoveUp 'k' => Changed "a" 0),
    case!("  abc" 4: DeleteOperator 'd' MoveToRowText '^' => Changed "  c" 2),
    case!("ab\ncd" 0: DeleteOperator 'd' DigitArgument '2' MoveToRowEnd '$' => Changed "\ncd" 0),
    case!("a b c" 0: DeleteOperator 'd' DigitArgument '2' MoveToWord 'w' => Changed "c" 0),
    case!("a,b c" 0: DeleteOperator 'd' MoveToBigWord 'W' => Changed "c" 0),
    case!("a,b c d" 0: DeleteOperator 'd' DigitArgument '2' MoveToBigWord 'W' => Changed "d" 0),
    case!("a b c" 4: DeleteOperator 'd' DigitArgument '2' MoveBackWord 'b' => Changed "c" 0),
    case!("a,b c" 4: DeleteOperator 'd' MoveBackBigWord 'B' => Changed "c" 0),
    case!("a b,c d" 6: DeleteOperator 'd' DigitArgument '2' MoveBackBigWord 'B' => Changed "d" 0),
    case!("ab cd e" 0: DeleteOperator 'd' DigitArgument '2' MoveToWordEnd 'e' => Changed " e" 0),
    case!("a,b c" 0: DeleteOperator 'd' MoveToBigWordEnd 'E' => Changed " c" 0),
    case!("a,b c d" 0: DeleteOperator 'd' DigitArgument '2' MoveToBigWordEnd 'E' => Changed " d" 0),
    case!("a\nb\nc" 4: DeleteOperator 'd' DigitArgument '2' MoveToFirstRow 'g' => Changed "a" 0),
    case!("a\nb\nc" 0: DeleteOperator 'd' DigitArgument '2' MoveToLastRow 'G' => Changed "c" 0),
    case!("axbxc" 0: DeleteOperator 'd' DigitArgument '2' FindAhead 'x' => Changed "c" 0),
    case!("abab" 3: DeleteOperator 'd' DigitArgument '2' FindBack 'a' => Changed "b" 0),
    case!("axbxc" 0: DeleteOperator 'd' DigitArgument '2' TillAhead 'x' => Changed "xc" 0),
    case!("abcd" 3: DeleteOperator 'd' TillBack 'a' => Changed "ad" 1),
    case!("abab" 3: DeleteOperator 'd' DigitArgument '2' TillBack 'a' => Changed "ab" 1),
    case!("axbxcxd" 0: FindAhead 'x' DeleteOperator 'd' DigitArgument '2' FindAgain ';' => Changed "ad" 1),
    case!("xaxbxcx" 4: FindBack 'x' DeleteOperator 'd' DigitArgument '2' FindTurned ',' => Changed "xa" 1),
    case!("a(b)c" 3: DeleteOperator 'd' MoveToBracket '%' => Changed "ac" 1),
];

/// Each motion behind `c`. The cursor may stay at the end of a row.
static CHANGES: [Case; 24] = [
    case!("abcd" 2: ChangeOperator 'c' MoveLeft 'h' => Changed "acd" 1),
    case!("abcd" 2: ChangeOperator 'c' DigitArgument '2' MoveRight 'l' => Changed "ab" 2),
    case!("a\nb\nc" 4: ChangeOperator 'c' MoveUp 'k' => Changed "a\n" 2),
    case!("a\nb\nc" 4: ChangeOperator 'c' DigitArgument '2' MoveUp 'k' => Changed "" 0),
    case!("abc" 2: ChangeOperator 'c' MoveToRowStart '0' => Changed "c" 0),
    case!("  ab" 3: ChangeOperator 'c' MoveToRowText '^' => Changed "  b" 2),
    case!("abc" 1: ChangeOperator 'c' MoveToRowEnd '$' => Changed "a" 1),
    case!("a b" 0: ChangeOperator 'c' DigitArgument '2' MoveToWord 'w' => Changed "" 0),
    case!("a b c" 0: DigitArgument '2' ChangeOperator 'c' MoveToWord 'w' => Changed "c" 0),
    case!("a,b c" 0: ChangeOperator 'c' MoveToBigWord 'W' => Changed "c" 0),
    case!("ab cd" 3: ChangeOperator 'c' MoveBackWord 'b' => Changed "cd" 0),
    case!("a,b" 2: ChangeOperator 'c' MoveBackBigWord 'B' => Changed "b" 0),
    case!("ab cd" 3: ChangeOperator 'c' MoveToWordEnd 'e' => Changed "ab " 3),
    case!("a,b" 0: ChangeOperator 'c' MoveToBigWordEnd 'E' => Changed "" 0),
    case!("a\nb\nc" 2: ChangeOperator 'c' MoveToFirstRow 'g' => Changed "\nc" 0),
    case!("a\nb\nc" 2: ChangeOperator 'c' MoveToLastRow 'G' => Changed "a\n" 2),
    case!("axb" 0: ChangeOperator 'c' FindAhead 'x' => Changed "b" 0),
    case!("abab" 3: ChangeOperator 'c' FindBack 'a' => Changed "abb" 2),
    case!("axb" 0: ChangeOperator 'c' TillAhead 'b' => Changed "b" 0),
    case!("abcd" 3: ChangeOperator 'c' TillBack 'a' => Changed "ad" 1),
    case!("axbx" 0: FindAhead 'x' ChangeOperator 'c' FindAgain ';' => Changed "a" 1),
    case!("xaxb" 0: FindAhead 'x' ChangeOperator 'c' FindTurned ',' => Changed "xb" 0),
    case!("(a)b" 0: ChangeOperator 'c' MoveToBracket '%' => Changed "b" 0),
    case!("abc" 1: ChangeOperator 'c' FindAhead 'z' => Bell "abc" 1),
];

/// Each motion behind `y`, and the clip put back before where `y` leads.
static COPIES: [Case; 23] = [
    case!("abcd" 2: YankOperator 'y' MoveLeft 'h' PutBefore 'P' => Changed "abbcd" 1),
    case!("abcd" 1: YankOperator 'y' DigitArgument '2' MoveRight 'l' PutBefore 'P' => Changed "abcbcd" 2),
    case!("a\nb\nc" 0: YankOperator 'y' MoveDown 'j' PutBefore 'P' => Changed "a\nb\na\nb\nc" 0),
    case!("a\nb" 2: YankOperator 'y' MoveUp 'k' PutBefore 'P' => Changed "a\nb\na\nb" 0),
    case!("abc" 2: YankOperator 'y' MoveToRowStart '0' PutBefore 'P' => Changed "ababc" 1),
    case!("  ab" 3: YankOperator 'y' MoveToRowText '^' PutBefore 'P' => Changed "  aab" 2),
    case!("abc" 1: YankOperator 'y' MoveToRowEnd '$' PutBefore 'P' => Changed "abcbc" 2),
    case!("ab cd" 0: YankOperator 'y' MoveToWord 'w' PutBefore 'P' => Changed "ab ab cd" 2),
    case!("a,b c d" 0: YankOperator 'y' DigitArgument '2' MoveToBigWord 'W' PutBefore 'P' => Changed "a,b c a,b c d" 5),
    case!("ab cd" 4: YankOperator 'y' MoveBackWord 'b' PutBefore 'P' => Changed "ab ccd" 3),
    case!("a,b" 2: YankOperator 'y' MoveBackBigWord 'B' PutBefore 'P' => Changed "a,a,b" 1),
    case!("ab cd" 0: YankOperator 'y' MoveToWordEnd 'e' PutBefore 'P' => Changed "abab cd" 1),
    case!("a,b c" 0: YankOperator 'y' MoveToBigWordEnd 'E' PutBefore 'P' => Changed "a,ba,b c" 2),
    case!("a\nb" 2: YankOperator 'y' MoveToFirstRow 'g' PutBefore 'P' => Changed "a\nb\na\nb" 0),
    case!("a\nb\nc" 2: YankOperator 'y' MoveToLastRow 'G' PutBefore 'P' => Changed "a\nb\nc\nb\nc" 2),
    case!("axb" 0: YankOperator 'y' FindAhead 'x' PutBefore 'P' => Changed "axaxb" 1),
    case!("abab" 3: YankOperator 'y' FindBack 'a' PutBefore 'P' => Changed "abaab" 2),
    case!("axb" 0: YankOperator 'y' TillAhead 'b' PutBefore 'P' => Changed "axaxb" 1),
    case!("abcd" 3: YankOperator 'y' TillBack 'a' PutBefore 'P' => Changed "abcbcd" 2),
    case!("axbx" 0: FindAhead 'x' YankOperator 'y' FindAgain ';' PutBefore 'P' => Changed "axbxxbx" 3),
    case!("xaxb" 0: FindAhead 'x' YankOperator 'y' FindTurned ',' PutBefore 'P' => Changed "xaxaxb" 1),
    case!("(a)b" 0: YankOperator 'y' MoveToBracket '%' PutBefore 'P' => Changed "(a)(a)b" 2),
    case!("a\nb\nc" 0: DigitArgument '2' YankOperator 'y' YankRows 'y' PutBehind 'p' => Changed "a\na\nb\nb\nc" 2),
];

/// Each motion with a selection. The mark stays as `r` and `~` replace characters around it.
static SELECTIONS: [Case; 31] = [
    case!("abcd" 3: SelectChars 'v' DigitArgument '2' MoveLeft 'h' DeleteSelection 'd' => Changed "a" 0),
    case!("abcd" 0: SelectChars 'v' DigitArgument '2' MoveRight 'l' DeleteSelection 'd' => Changed "d" 0),
    case!("ab\ncd" 0: SelectChars 'v' MoveDown 'j' DeleteSelection 'd' => Changed "d" 0),
    case!("ab\ncd" 4: SelectChars 'v' MoveUp 'k' DeleteSelection 'd' => Changed "a" 0),
    case!("abc" 2: SelectChars 'v' MoveToRowStart '0' DeleteSelection 'd' => Changed "" 0),
    case!("  ab" 3: SelectChars 'v' MoveToRowText '^' DeleteSelection 'd' => Changed "  " 1),
    case!("ab cd" 0: SelectChars 'v' MoveToWord 'w' DeleteSelection 'd' => Changed "d" 0),
    case!("a,b c" 0: SelectChars 'v' MoveToBigWord 'W' DeleteSelection 'd' => Changed "" 0),
    case!("ab cd" 4: SelectChars 'v' MoveBackWord 'b' DeleteSelection 'd' => Changed "ab " 2),
    case!("a,b" 2: SelectChars 'v' MoveBackBigWord 'B' DeleteSelection 'd' => Changed "" 0),
    case!("ab cd" 0: SelectChars 'v' MoveToWordEnd 'e' DeleteSelection 'd' => Changed " cd" 0),
    case!("a,b c" 0: SelectChars 'v' MoveToBigWordEnd 'E' DeleteSelection 'd' => Changed " c" 0),
    case!("a\nb" 2: SelectChars 'v' MoveToFirstRow 'g' DeleteSelection 'd' => Changed "" 0),
    case!("ab\ncd" 0: SelectChars 'v' MoveToLastRow 'G' DeleteSelection 'd' => Changed "d" 0),
    case!("axb" 0: SelectChars 'v' FindAhead 'x' DeleteSelection 'd' => Changed "b" 0),
    case!("abab" 3: SelectChars 'v' FindBack 'a' DeleteSelection 'd' => Changed "ab" 1),
    case!("axb" 0: SelectChars 'v' TillAhead 'b' DeleteSelection 'd' => Changed "b" 0),
    case!("abcd" 3: SelectChars 'v' TillBack 'a' DeleteSelection 'd' => Changed "a" 0),
    case!("axbx" 0: FindAhead 'x' SelectChars 'v' FindAgain ';' DeleteSelection 'd' => Changed "a" 0),
    case!("xaxb" 0: FindAhead 'x' SelectChars 'v' FindTurned ',' DeleteSelection 'd' => Changed "b" 0),
    case!("(a)b" 0: SelectChars 'v' MoveToBracket '%' DeleteSelection 'd' => Changed "b" 0),
    case!("abc" 1: SelectChars 'v' FindAhead 'z' => Bell "abc" 1),
    case!("abcd" 1: SelectChars 'v' MoveRight 'l' ChangeSelection 'c' => Changed "ad" 1),
    case!("abc" 1: SelectChars 'v' MoveRight 'l' ChangeSelection 'c' => Changed "a" 1),
    case!("abcd" 1: SelectChars 'v' MoveRight 'l' YankSelection 'y' PutBefore 'P' => Changed "abcbcd" 2),
    case!("a\nb\nc" 4: SelectRows 'V' MoveUp 'k' DeleteSelection 'd' => Changed "a" 0),
    case!("a\nb\nc\nd" 0: SelectRows 'V' DigitArgument '2' MoveDown 'j' DeleteSelection 'd' => Changed "d" 0),
    case!("a\nb\nc" 0: SelectRows 'V' MoveDown 'j' ChangeSelection 'c' => Changed "\nc" 0),
    case!("a\nb" 2: SelectRows 'V' YankSelection 'y' PutBefore 'P' => Changed "a\nb\nb" 2),
    case!("abcd" 2: SelectChars 'v' MoveLeft 'h' DigitArgument '2' ReplaceChars 'z' DeleteSelection 'd' => Changed "azd" 2),
    case!("abcd" 2: SelectChars 'v' MoveLeft 'h' DigitArgument '2' SwapCase '~' DeleteSelection 'd' => Changed "aB" 1),
];

/// The other commands of Navigation and Replace.
static OTHERS: [Case; 40] = [
    case!("abc" 1: CutAhead 'x' => Changed "ac" 1),
    case!("abc" 1: DigitArgument '2' CutAhead 'x' => Changed "a" 0),
    case!("ab\nc" 0: DigitArgument '9' CutAhead 'x' => Changed "\nc" 0),
    case!("" 0: CutAhead 'x' => Same "" 0),
    case!("abc" 2: CutBack 'X' => Changed "ac" 1),
    case!("abc" 0: CutBack 'X' => Same "abc" 0),
    case!("abc\nd" 1: CutRest 'D' => Changed "a\nd" 0),
    case!("abc" 1: ChangeRest 'C' => Changed "a" 1),
    case!("abc" 0: ChangeAhead 's' => Changed "bc" 0),
    case!("a\nb" 2: ChangeWholeRows 'S' => Changed "a\n" 2),
    case!("a\nb" 0: YankWholeRows 'Y' PutBehind 'p' => Changed "a\na\nb" 2),
    case!("abc" 1: ReplaceChars 'z' => Changed "azc" 1),
    case!("abc" 1: DigitArgument '2' ReplaceChars 'z' => Changed "azz" 2),
    case!("abc" 1: DigitArgument '3' ReplaceChars 'z' => Bell "abc" 1),
    case!("aB1" 0: SwapCase '~' => Changed "AB1" 1),
    case!("aB1" 0: DigitArgument '3' SwapCase '~' => Changed "Ab1" 2),
    case!("a\n  b" 0: JoinRows 'J' => Changed "a b" 1),
    case!("ab" 0: JoinRows 'J' => Same "ab" 0),
    case!("a\n" 0: JoinRows 'J' => Changed "a " 1),
    case!("ab" 0: CutAhead 'x' PutBehind 'p' => Changed "ba" 1),
    case!("ab" 0: CutAhead 'x' PutBefore 'P' => Changed "ab" 0),
    case!("ab" 0: CutAhead 'x' DigitArgument '3' PutBehind 'p' => Changed "baaa" 3),
    case!("ab" 0: PutBehind 'p' => Same "ab" 0),
    case!("a\nb" 0: DeleteOperator 'd' DeleteRows 'd' PutBefore 'P' => Changed "a\nb" 0),
    case!("a\nb" 0: DeleteOperator 'd' DeleteRows 'd' PutBehind 'p' => Changed "b\na" 2),
    case!("abc" 1: InsertHere 'i' => Changed "abc" 1),
    case!("  ab" 3: InsertAtText 'I' => Changed "  ab" 2),
    case!("abc" 2: InsertBehind 'a' => Changed "abc" 3),
    case!("abc" 0: InsertAtEnd 'A' => Changed "abc" 3),
    case!("a\nb" 0: OpenBelow 'o' => Changed "a\n\nb" 2),
    case!("a\nb" 2: OpenAbove 'O' => Changed "a\n\nb" 2),
    case!("abc" 1: EnterReplace 'R' OverwriteChar 'z' => Changed "azc" 2),
    case!("abc" 2: EnterReplace 'R' OverwriteChar 'z' OverwriteChar 'y' => Changed "abzy" 4),
    case!("abc" 0: EnterReplace 'R' OverwriteChar 'z' OverwriteBack 'b' => Changed "zbc" 0),
    case!("abc" 0: Undo 'u' => Bell "abc" 0),
    case!("abc" 0: Redo 'c' => Bell "abc" 0),
    case!("ab" 0: AcceptLine 'r' => Accept "ab" 0),
    case!("ab" 0: Interrupt 'c' => Interrupt "ab" 0),
    case!("ab" 0: Ignore 'n' => Same "ab" 0),
    case!("abc" 2: InsertHere 'i' EnterNavigation 'n' => Changed "abc" 1),
];

/// Tells whether a case leaves what it is to leave.
fn run_case(rt: &impl Abort, alloc: Global, case: &Case) -> Result<bool, Fail> {
    let mut state = state_of(rt, alloc, Text::read_str(alloc, case.0)?, case.1)?;
    let mut vi = navigation();
    let mut last = Done::Same;
    for (command, c) in case.2 {
        let key = KeyPress {
            key: Key::Char(*c),
            text: KeyText::new(alloc),
        };
        assert!(rt; is_ready(&state, vi));
        last = run_vi(alloc, *command, &key, &mut state, &mut vi)?;
    }
    let wanted = Text::read_str(alloc, case.4)?;
    let doc = state.buffer.doc();
    Ok(last == case.3 && doc.has_text(wanted.as_slice()) && doc.cursor() == case.5)
}

/// Returns a state of this text with the cursor at this place.
pub(crate) fn state_of(
    rt: &impl Abort,
    alloc: Global,
    text: Text,
    at: usize,
) -> Result<EditState, Fail> {
    assert!(rt; text.len() <= MAX_LENGTH);
    let buffer = Buffer::new(alloc, Lines::new(alloc), text)?;
    let mut state = EditState::new(buffer, Ring::new(alloc)?, false);
    assert!(rt; at <= state.buffer.doc().len());
    state.go_to(at);
    Ok(state)
}

/// Returns what vi's keys keep in Navigation.
pub(crate) fn navigation() -> ViState {
    ViState {
        mode: ViMode::Navigation,
        operator: None,
        operator_count: 1,
        last_find: None,
        lines: false,
    }
}

/// Fails at the first case that leaves something else.
fn run_cases(rt: &impl Abort, alloc: Global, cases: &[Case]) -> Result<(), Fail> {
    for case in cases {
        let holds = run_case(rt, alloc, case)?;
        assert!(rt; holds);
    }
    Ok(())
}

#[test]
fn motions_go_where_they_go(rt: HostRuntime) -> Result<(), Fail> {
    run_cases(&rt, rt.alloc(), &MOTIONS)
}

#[test]
fn operators_take_what_they_take(rt: HostRuntime) -> Result<(), Fail> {
    run_cases(&rt, rt.alloc(), &OPERATORS)
}

#[test]
fn deletions_take_what_they_take(rt: HostRuntime) -> Result<(), Fail> {
    run_cases(&rt, rt.alloc(), &DELETIONS)
}

#[test]
fn changes_take_what_they_take(rt: HostRuntime) -> Result<(), Fail> {
    run_cases(&rt, rt.alloc(), &CHANGES)
}

#[test]
fn copies_take_what_they_take(rt: HostRuntime) -> Result<(), Fail> {
    run_cases(&rt, rt.alloc(), &COPIES)
}

#[test]
fn selections_take_what_they_take(rt: HostRuntime) -> Result<(), Fail> {
    run_cases(&rt, rt.alloc(), &SELECTIONS)
}

#[test]
fn other_commands_change_what_they_change(rt: HostRuntime) -> Result<(), Fail> {
    run_cases(&rt, rt.alloc(), &OTHERS)
}

#[test]
fn table_has_all_rows(rt: HostRuntime) -> Result<(), Fail> {
    let table = vi_bindings(rt.alloc())?;
    let number = ViCommand::Interrupt.number();
    assert!(rt; ViCommand::from_number(number) == Some(ViCommand::Interrupt));
    assert!(rt; ViCommand::from_number(number + 1).is_none());
    drop(table);
    Ok(())
}
