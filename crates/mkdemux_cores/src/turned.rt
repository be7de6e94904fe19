//! What C learns of a turn.

ghost use Rattle.std.specs.Prelude.{◌≡◌};
ghost use Rattle.mkdemux_cores.specs.Reports.{reported, refused, made_id, rule_number, rule_place};

use filter_table::{Decision, Made, OpFault, Veto};

/// What a turn did.
#[repr(C)]
#[derive(Clone, Copy, Debug, PartialEq, Eq)]
pub struct Turned {
    /// 0: nothing. 1: a step of the protocol. 2: a step with the decision on this core's oldest request that had none.
    pub what: u32,
    /// Of a decision, 0: committed. 1: refused by a rule, of which every core says the same. 2: vetoed, by one core.
    pub decision: u32,
    /// The version that a commit made.
    pub version: u64,
    /// The id of the capability or the filter that a commit made, `NO_ID` where it made none.
    pub made: u32,
    /// Why there is no commit: the rule's number from 1 to 12, 15, or `BAD_PROGRAM` and more, or the veto's, 13 or 14.
    pub rule: u32,
    /// The place of the instruction for which a program is refused.
    pub place: u32,
    /// The core that refused.
    pub core: u32,
    /// Of a decision, the number of the request that it is on, from 1, as this core was asked.
    pub request: u64,
    /// The cores that may now do what they couldn't, since this turn sent them lines or made room that they wait for: a bit for each, the
    /// least for core 0.
    pub woken: u64,
    /// 1 where a further turn may do something without anything from outside, else 0.
    pub more: u32,
    /// The cores that this core knew to be closed as the turn began: a bit for each, the least for core 0. Core 0 knows of each core,
    /// another one only of core 0.
    pub closed: u64,
}

/// No id: nothing ever has it.
pub const NO_ID: u32 = u32::MAX;

/// To this the verifier's number is added where it refuses a program.
pub const BAD_PROGRAM: u32 = 256;

/// A turn that did nothing, and woke no core.
pub const NOTHING: Turned = Turned {
    what: 0,
    decision: 0,
    version: 0,
    made: NO_ID,
    rule: 0,
    place: 0,
    core: 0,
    request: 0,
    woken: 0,
    more: 0,
    closed: 0,
};

/// A step, with the decision on the request of this core that has this number, if the step has one.
pub fn report(decision: Option<Decision>, request: u64) -> Turned
    ensures { result ≡ reported request decision }
{
    match decision {
        None => Turned { what: 1, ..NOTHING },
        Some(Decision::Committed { version, made }) => Turned {
            what: 2,
            version,
            made: id_of(made),
            request,
            ..NOTHING
        },
        Some(Decision::Refused { core, why }) => Turned {
            request,
            ..refusal(core, why)
        },
    }
}

/// A decision that no core makes the change.
fn refusal(core: u16, why: Veto) -> Turned
    ensures { result ≡ refused core why }
{
    let (decision, rule, place) = match why {
        Veto::Rule(fault) => (1, number_of(fault), place_of(fault)),
        Veto::Budget => (2, 13, 0),
        Veto::NoMemory => (2, 14, 0),
    };
    Turned {
        what: 2,
        decision,
        rule,
        place,
        core: u32::from(core),
        ..NOTHING
    }
}

/// The id of what was made.
fn id_of(made: Made) -> u32
    ensures { result ≡ made_id made }
{
    match made {
        Made::Cap(id) | Made::Filter(id) => id,
        Made::Nothing => NO_ID,
    }
}

/// The number of a rule.
fn number_of(fault: OpFault) -> u32
    ensures { result ≡ rule_number fault }
{
    match fault {
        OpFault::NoCap => 1,
        OpFault::NotHolder => 2,
        OpFault::NoRight => 3,
        OpFault::RightsExceed => 4,
        OpFault::EndpointTaken => 5,
        OpFault::CapsFull => 6,
        OpFault::IdsSpent => 7,
        OpFault::NoFilter => 8,
        OpFault::NotOwner => 9,
        OpFault::TableFull => 10,
        OpFault::FilterIdsSpent => 11,
        OpFault::VersionsSpent => 12,
        OpFault::DomainFull => 15,
        OpFault::BadProgram { rule, .. } => BAD_PROGRAM + u32::from(rule),
    }
}

/// The place of the instruction for which a program is refused.
fn place_of(fault: OpFault) -> u32
    ensures { result ≡ rule_place fault }
{
    match fault {
        OpFault::BadProgram { pc, .. } => u32::from(pc),
        _ => 0,
    }
}
