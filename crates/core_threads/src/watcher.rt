//! What decides when a core may receive its next job.

use ghost_log::Log;
use std::snapshot::Snapshot;

/// What a watcher was asked, and its answer.
#[derive(Clone, Copy, PartialEq, Eq, Debug)]
pub struct Question {
    pub core: u16,
    pub number: u64,
    pub answer: bool,
}

/// It is asked before a turn with a job in front, and told after a receipt. Each core's thread calls it, and keeps notes of what it
/// was asked and told of that core.
pub trait Watcher {
    ghost use Rattle.std.specs.Prelude.{◌≡◌, ◌++◌, ◌∷◌, []};

    /// Whether the core may receive the job of this number now.
    fn may(&self, notes: &mut Notes, core: u16, number: u64) -> bool
        ensures asked { notes.new.asked.items ≡ notes.old.asked.items ++ (record { core = core; number = number; answer = result }) ∷ [] }
        ensures told { notes.new.told.items ≡ notes.old.told.items };

    /// The core has received the job of this number.
    fn did(&self, notes: &mut Notes, core: u16, number: u64)
        ensures asked { notes.new.asked.items ≡ notes.old.asked.items }
        ensures told { notes.new.told.items ≡ notes.old.told.items ++ (core, number) ∷ [] };
}

/// What a watcher was asked of one core, and the receipts that it was told of, each by its core and the number of its job. Only proofs
/// read the two lists, so they take no bytes.
#[derive(Drop)]
pub struct Notes {
    pub asked: Log<Question>,
    pub told: Log<(u16, u64)>,
}

impl Notes {
    ghost use Rattle.std.specs.Prelude.{◌≡◌, ◌++◌, ◌∷◌, []};

    /// Empty lists.
    pub fn new() -> Notes
        ensures asked { result.asked.items ≡ [] }
        ensures told { result.told.items ≡ [] }
    {
        Notes {
            asked: Log::new(),
            told: Log::new(),
        }
    }

    /// Notes a question.
    pub fn ask(&mut self, core: u16, number: u64, answer: bool)
        ensures asked { self.new.asked.items ≡ self.old.asked.items ++ (record { core = core; number = number; answer = answer }) ∷ [] }
        ensures told { self.new.told.items ≡ self.old.told.items }
    {
        let question = Question {
            core,
            number,
            answer,
        };
        self.asked = self.asked.and(&Snapshot::of(&question));
    }

    /// Notes a receipt.
    pub fn tell(&mut self, core: u16, number: u64)
        ensures asked { self.new.asked.items ≡ self.old.asked.items }
        ensures told { self.new.told.items ≡ self.old.told.items ++ (core, number) ∷ [] }
    {
        self.told = self.told.and(&Snapshot::of(&(core, number)));
    }
}

/// Always says yes.
#[derive(Clone, Copy, PartialEq, Eq, Debug)]
pub struct Free;

impl Watcher for Free {
    fn may(&self, notes: &mut Notes, core: u16, number: u64) -> bool {
        notes.ask(core, number, true);
        true
    }

    fn did(&self, notes: &mut Notes, core: u16, number: u64) {
        notes.tell(core, number);
    }
}
