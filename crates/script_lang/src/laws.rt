//! What holds of all scripts.
ghost use Rattle.std.specs.Prelude.{◌≡◌, ℕ, List, Ok};
ghost use Rattle.hex.specs.Hex.{IsBytes};
ghost use Rattle.script_lang.specs.declared.script.Script.{Script};
ghost use Rattle.script_lang.specs.Grammar.{script_of};
ghost use Rattle.script_lang.specs.Proper.{IsInOrder, IsProper, IsServed};
ghost use Rattle.script_lang.specs.Spelling.{IsSpelled, script_text};

/// A proper script whose commands are served is read back from its spelling.
pub fn spelling_is_read_back()
    ensures { (script : Script) → IsProper script → IsServed script → IsInOrder script
        → IsSpelled script → script_of (script_text script) ≡ Ok script }
{}

/// What is read is proper, and its commands are served.
pub fn what_is_read_is_proper()
    ensures { (bytes : List ℕ) (script : Script) → IsBytes bytes → script_of bytes ≡ Ok script
        → IsProper script × IsServed script }
{}
