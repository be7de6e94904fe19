//! What a script stands for.

use filter_table::{Limits, Op};
use seq::Seq;
use world_events::Event;

/// What a script has done, in order.
#[derive(Drop)]
pub enum Item {
    /// A request enters at this core, after those that are pending there.
    Ask(u16, Op),
    /// The first pending request of core 0 is started.
    Begin,
    /// The core submits its first pending request.
    Submit(u16),
    /// Core 0 starts the request that the core has waiting.
    StartFor(u16),
    /// A message is taken, or a packet is received.
    Apply(Event),
    /// All messages are taken and all pending requests are done, until nothing is left.
    Settle,
    /// The core's table is shown.
    Show(u16),
}

/// Items in order.
pub type ItemList = Seq<Item>;

/// The budgets of the cores, by their numbers.
pub type BudgetList = Seq<u32>;

/// A script: the limits of its machine, the budgets of its cores, and what it has done.
#[derive(Drop)]
pub struct Script {
    /// The limits of its machine.
    pub limits: Limits,
    /// The budgets of its cores.
    pub budgets: BudgetList,
    /// What it has done.
    pub items: ItemList,
}
