//! What a journal owes to the script whose lines the passes did.

ghost use Rattle.journal_core.specs.declared.entries.Entry.{Entry};
ghost use Rattle.script_codec.specs.Covering.{Covers};
ghost use Rattle.script_codec.specs.declared.scripts.Script.{Script};
ghost use Rattle.std.specs.Prelude.{List};
ghost use Rattle.workers.specs.Served.{AllServed};

/// A journal in which the calls of each pass are its lines in order, and which has no others, covers the script. It does
/// nothing.
pub fn law_served_cover()
    ensures { (script : Script) (journal : List Entry) → AllServed script journal → Covers journal script }
{}
