//! What events tell of cores.

ghost use Rattle.std.specs.Prelude.{◌≡◌, [], ◌∷◌, None, Some, take};
ghost use Rattle.filter_table.specs.declared.operation.Op.TheVariants.{Create};
ghost use Rattle.filter_table.specs.declared.operation.Made.TheVariants.{Cap};
ghost use Rattle.filter_table.specs.declared.decision.Decision.TheVariants.{Committed};
ghost use Rattle.filter_table.specs.declared.decision.Vote.TheVariants as vote;
ghost use Rattle.world_model.specs.Committed.{log_of};
ghost use Rattle.world_model.specs.Readings.{numbered, request_of, sent, settled, unsent, version_of, vote_of};
ghost use Rattle.definitions_tried.specs.Readings.{create, submitted, vetoed};

/// Two-phase commit (Gray 1978, "Notes on data base operating systems", section 5.8.3), as events tell of it: a
/// request of core 1 is submitted, begun, voted on, committed by core 0, and then by core 1. One against which a core
/// votes is committed by nobody.
pub fn told_by_events()
    ensures committed { log_of submitted ≡ create ∷ [] }
    ensures not_before_the_vote { log_of (take 4 submitted) ≡ [] }
    ensures vetoed { log_of vetoed ≡ [] }
    ensures core_0_first { version_of 0 (take 5 submitted) ≡ 1 }
    ensures core_1_not_yet { version_of 1 (take 5 submitted) ≡ 0 }
    ensures core_1_then { version_of 1 submitted ≡ 1 }
    ensures no_other_core { version_of 2 submitted ≡ 0 }
    ensures its_vote { vote_of 1 1 submitted ≡ Some vote.Yes }
    ensures no_vote_on_another { vote_of 1 2 submitted ≡ None }
    ensures the_veto { vote_of 1 1 vetoed ≡ Some vote.NoMemory }
    ensures nothing_sent { request_of 1 [] ≡ unsent }
    ensures request_sent { request_of 1 (take 1 submitted) ≡ sent create }
    ensures request_numbered { request_of 1 (take 4 submitted) ≡ numbered create 1 }
    ensures request_settled { request_of 1 submitted ≡ settled create (Committed 1 (Cap 1)) }
    ensures no_request_of_core_0 { request_of 0 submitted ≡ unsent }
{}
