//! Laws of spellings and of lines, each the contract of a function that does nothing.
ghost use Rattle.std.specs.Prelude.{◌≡◌, ℕ, List, Some, ◌↔◌};
ghost use Rattle.script_lines.specs.declared.script_line.ScriptLine.{ScriptLine};
ghost use Rattle.script_lines.specs.ScriptLine.{script_line};
ghost use Rattle.script_lines.specs.Spelled.{AreBytes, Says};
ghost use Rattle.script_lines.specs.Spelling.{spelling, unspelled};

/// Bytes are read from their spelling.
pub fn spellings_read_back()
    ensures { (bytes : List ℕ) → AreBytes bytes → unspelled (spelling bytes) ≡ Some bytes }
{}

/// Bytes are read from no other text than their spelling.
pub fn one_spelling_alone()
    ensures { (text bytes : List ℕ) → unspelled text ≡ Some bytes → text ≡ spelling bytes }
{}

/// A line says something exactly where it is the one line for it, within the limits.
pub fn one_line_for_each()
    ensures { (line : List ℕ) (said : ScriptLine)
        → (script_line line ≡ Some said) ↔ Says line said }
{}
