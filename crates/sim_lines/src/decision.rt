//! Decisions and votes as words.

ghost use Rattle.std.specs.Prelude.{◌≡◌, ◌++◌, OnOk, string_bytes};
ghost use Rattle.sim_lines.specs.Decisions.{decision_words, made_words, rule_words, veto_words};
ghost use Rattle.sim_lines.specs.Decisions as spec;

use filter_table::{Decision, Made, OpFault, Veto, Vote};
use std::alloc::AllocError;
use std::fmt::Write;

/// Prints a decision.
pub(crate) fn push_decision(text: &mut String, decision: Decision) -> Result<(), AllocError>
    ensures { OnOk result (string_bytes text.new ≡ string_bytes text.old ++ decision_words decision) }
{
    match decision {
        Decision::Committed { version, made } => {
            write!(text, "committed {version}")?;
            push_made(text, made)
        }
        Decision::Refused { core, why } => {
            text.push_str("refused ")?;
            push_veto(text, core, why)
        }
    }
}

/// Prints what was made.
fn push_made(text: &mut String, made: Made) -> Result<(), AllocError>
    ensures { OnOk result (string_bytes text.new ≡ string_bytes text.old ++ made_words made) }
{
    match made {
        Made::Cap(id) => write!(text, " cap {id}"),
        Made::Filter(id) => write!(text, " filter {id}"),
        Made::Nothing => Ok(()),
    }
}

/// Prints why a core refuses.
fn push_veto(text: &mut String, core: u16, why: Veto) -> Result<(), AllocError>
    ensures { OnOk result (string_bytes text.new ≡ string_bytes text.old ++ veto_words core why) }
{
    match why {
        Veto::Rule(fault) => push_rule(text, fault),
        Veto::Budget => write!(text, "Budget core {core}"),
        Veto::NoMemory => write!(text, "NoMemory core {core}"),
    }
}

/// Prints the rule that is broken.
fn push_rule(text: &mut String, fault: OpFault) -> Result<(), AllocError>
    ensures { OnOk result (string_bytes text.new ≡ string_bytes text.old ++ rule_words fault) }
{
    match fault {
        OpFault::NoCap => text.push_str("NoCap"),
        OpFault::NotHolder => text.push_str("NotHolder"),
        OpFault::NoRight => text.push_str("NoRight"),
        OpFault::RightsExceed => text.push_str("RightsExceed"),
        OpFault::EndpointTaken => text.push_str("EndpointTaken"),
        OpFault::CapsFull => text.push_str("CapsFull"),
        OpFault::IdsSpent => text.push_str("IdsSpent"),
        OpFault::NoFilter => text.push_str("NoFilter"),
        OpFault::NotOwner => text.push_str("NotOwner"),
        OpFault::TableFull => text.push_str("TableFull"),
        OpFault::DomainFull => text.push_str("DomainFull"),
        OpFault::FilterIdsSpent => text.push_str("FilterIdsSpent"),
        OpFault::BadProgram { rule, pc } => write!(text, "BadProgram {rule} {pc}"),
        OpFault::VersionsSpent => text.push_str("VersionsSpent"),
    }
}

/// The name of a vote.
pub(crate) fn vote_name(vote: Vote) -> &'static str
    ensures { result.now ≡ spec.vote_name vote }
{
    match vote {
        Vote::Yes => "Yes",
        Vote::Budget => "Budget",
        Vote::NoMemory => "NoMemory",
    }
}
