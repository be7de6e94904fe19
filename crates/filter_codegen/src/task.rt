//! What is left to do while a graph is built from the end of a condition.

ghost use Rattle.filter_codegen.specs.Tasks.{PopsEntry, Resolves};

/// Where a condition leads that is still to be built: to places that are known, or to entries of what is built before it.
#[derive(Clone, Copy, Debug, PartialEq, Eq)]
pub enum Task {
    /// To these places.
    To { pass: usize, fail: usize },
    /// Where it is true, to the last entry.
    Pass { fail: usize },
    /// Where it is false, to the last entry.
    Fail { pass: usize },
    /// Where it is true, to the last entry, and where it is false, to the one before.
    Choose,
}

/// Two places.
#[derive(Clone, Copy, Debug, PartialEq, Eq)]
pub struct Ways {
    pub pass: usize,
    pub fail: usize,
}

/// The last entry, or the place that rejects where there is none.
pub fn pop_entry(entries: &mut Vec<usize>) -> usize
    ensures { PopsEntry entries.old.items entries.new.items result }
{
    match entries.pop() {
        Some(entry) => entry,
        None => 0,
    }
}

/// The places to which a task leads.
pub fn resolve(task: Task, entries: &mut Vec<usize>) -> Ways
    ensures { Resolves task entries.old.items entries.new.items result }
{
    match task {
        Task::To { pass, fail } => Ways { pass, fail },
        Task::Pass { fail } => Ways {
            pass: pop_entry(entries),
            fail,
        },
        Task::Fail { pass } => Ways {
            pass,
            fail: pop_entry(entries),
        },
        Task::Choose => {
            let pass = pop_entry(entries);
            let fail = pop_entry(entries);
            Ways { pass, fail }
        }
    }
}
