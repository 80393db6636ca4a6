//! What a journal owes to the script that it ran.

ghost use Rattle.journal_core.specs.declared.entries.Entry.{Entry};
ghost use Rattle.script_codec.specs.Covering.{Covers, Runs};
ghost use Rattle.script_codec.specs.declared.scripts.Script.{Script};
ghost use Rattle.std.specs.Prelude.{List};

/// The journal of a run of all lines in order covers the script: each line that is no mark has one entry, with
/// its actor, its act and the pass of its lane, and those of each pass stand in order. It does nothing.
pub fn law_runs_cover()
    ensures { (script : Script) (journal : List Entry) → Runs script.config.hosts script.lanes 1 script.lines journal → Covers journal script }
{}
