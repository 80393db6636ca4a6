//! What is said of every text.

ghost use Rattle.journal_check.specs.FirstWrong.{IsChecked, IsJournalOf, SameButCounts};
ghost use Rattle.journal_core.specs.declared.entries.Entry.{Entry};
ghost use Rattle.report.specs.script_codec.specs.Scripts.{IsScript};
ghost use Rattle.report.specs.script_codec.specs.declared.scripts.Script.{Script};
ghost use Rattle.std.specs.Prelude.{◌≡◌, List, Option, ℕ};

/// Of each script and text there is one answer. It does nothing.
#[tactic(auto, using(crate::proofs::Answers::one_answer))]
pub fn law_one_answer()
    ensures { (s : Script) (text : List ℕ) (a b : Option ℕ) → IsChecked s text a → IsChecked s text b → a ≡ b }
{}

/// A text tells its journal: two legal and numbered journals that cover one script and have one text are the same but for
/// the counts in their stamps, which number the accesses between two commands. It does nothing.
#[tactic(auto, using(crate::proofs::OneJournal::one_journal))]
pub fn law_one_journal()
    ensures { (s : Script) → IsScript s → (text : List ℕ) (a b : List Entry) → IsJournalOf s text a → IsJournalOf s text b → SameButCounts a b }
{}
