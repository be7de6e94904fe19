//! The lines that a simulation and a run print: one for each event with its answer or its fault, those of a core's table, and one for
//! each job that was left.
//!
//! | For | Line |
//! |---|---|
//! | a decision | `committed VERSION`, then ` cap ID`, ` filter ID` or nothing; or `refused WHY` |
//! | Start, StartFor | `start: ` or `startfor C: `, then `prepared TXN` or the decision |
//! | Submit | `submit C: sent` |
//! | Take | `take TO FROM: `, then `prepare TXN VOTE`, `vote TXN VOTE` with a blank and the decision where there is one, `commit TXN version V`, `abort TXN version V`, `ack TXN`, `submit`, or `reply ` and the decision |
//! | Rx | `rx CORE NUMBER: version V none`, or ` ENDPOINT=KEPT` for each in place of ` none` |
//! | an event that is not done | the same words up to the colon, then ` fault NAME` |
//! | a job that was left | `left CORE NUMBER` |
//! | a table | `show CORE: version V caps N filters N instructions N`, then per capability `cap ID endpoint E holder D rights r\|m\|rm parent ID` (`-` for none), then per filter `filter ID owner D cap ID endpoint E instructions N` |
//!
//! WHY is the name of the rule that is broken, with the verifier's rule and the place after BadProgram, or `Budget core N` or
//! `NoMemory core N`. Each line ends with a line feed.
#![tactic(auto)]

mod decision;
mod event;
mod table;

pub use event::{line_of, push_done, push_left};
pub use table::show_core;
