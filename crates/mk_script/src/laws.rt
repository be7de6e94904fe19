//! What holds of the definitions of scripts: a law, the contract of a function that does nothing.

ghost use Rattle.mk_script.specs.Bodies.{Means};
ghost use Rattle.mk_script.specs.Drafts.{Settings};
ghost use Rattle.mk_script.specs.Meanings.{Known, Meaning};
ghost use Rattle.mk_script.specs.Orders.{HasFault, IsFirstFault};
ghost use Rattle.mk_script.specs.Scripts.{AreFiles, Stands};
ghost use Rattle.mk_script.specs.Statements.{Statement};
ghost use Rattle.mk_script.specs.Threads.{for_simulation, for_threads};
ghost use Rattle.mk_script.specs.declared.fault.ScriptFaultKind.{ScriptFaultKind};
ghost use Rattle.mk_script.specs.declared.script.Script.{Script};
ghost use Rattle.std.specs.Prelude.{List, Ok, Result, ℕ};

/// Which fault of a statement is reported, whatever lines stand before it. Each looked at by itself, whatever else is wrong,
/// it has BadLine where its words are no command that may stand there; NoCores where `cores` is still to come; BadNumber where
/// a word that is to be a number isn't one, or not one in its range; Twice where what it makes is there already; AfterCores
/// where it has to stand before `cores` and doesn't; NoName where something that it uses isn't there; and BadBody where the body
/// that it brings can't be read. Of those that it has the first in this order is reported, and it has a meaning only where it
/// has none.
pub fn faults_are_told_in_order()
    // A statement has a meaning or is told a fault ..
    ensures some { (s : Settings) (k : Known) (st : Statement) → (outcome : Result Meaning ScriptFaultKind) × Means s k st outcome }
    // .. and that is the first that it has, or it has none.
    ensures first { (s : Settings) (k : Known) (st : Statement) (outcome : Result Meaning ScriptFaultKind) → AreFiles s.files →
        Means s k st outcome → IsFirstFault (HasFault s k st) outcome }
{}

/// A text that stands for a script where it is read for threads stands for the same script where it is read for a simulation:
/// a simulation knows more commands, and lets a core's number be greater.
pub fn scripts_for_threads_are_scripts()
    ensures { (files : List (List ℕ)) (text : List ℕ) (script : Script) →
        Stands (for_threads files) text (Ok script) → Stands (for_simulation files) text (Ok script) }
{}
