//! What is printed is read back.

ghost use Rattle.text_lines.specs.script_codec.specs.declared.scripts.Script.{Script};
ghost use Rattle.script_text.specs.Layouts.{Says};
ghost use Rattle.script_text.specs.Texts.{script_said};
ghost use Rattle.std.specs.Prelude.{◌≡◌, ◌↔◌, List, Ok, ℕ};

/// Reading a text answers a script exactly where the text says it. So a text says one script at most.
pub fn law_says()
    ensures { (text : List ℕ) (script : Script) → Says text script ↔ (script_said text ≡ Ok script) }
{}
