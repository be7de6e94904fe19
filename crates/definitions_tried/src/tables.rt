//! Capabilities, logs of operations, and the endpoints that a packet goes to.

ghost use Rattle.std.specs.Prelude.{◌≡◌, ◌++◌, [], ◌∷◌, Some, None, length};
ghost use Rattle.filter_table.specs.Limits.{default_limits};
ghost use Rattle.endpoint_caps.specs.declared.CapFault.TheVariants.{NoCap, NotHolder, NoRight, RightsExceed, EndpointTaken, CapsFull, IdsSpent};
ghost use Rattle.endpoint_caps.specs.declared.Right.TheVariants.{Receive, Mint};
ghost use Rattle.endpoint_caps.specs.declared.Rights.TheVariants.{R, M, Rm};
ghost use Rattle.endpoint_caps.specs.Capabilities.{Under, created, create_tests, dropped, first, is_within, mint_tests, no_caps, revoked, right_tests};
ghost use Rattle.filter_table.specs.declared.operation.Made.TheVariants.{Cap, Filter};
ghost use Rattle.filter_table.specs.declared.operation.Op.TheVariants.{Create, DropCap, Install, Mint as MintFor, Remove, Replace, Revoke};
ghost use Rattle.filter_table.specs.declared.operation.OpFault.TheVariants as op_fault;
ghost use Rattle.filter_table.specs.declared.operation.StageFault.TheVariants.{Budget, Rule};
ghost use Rattle.filter_table.specs.Tables.{Accepting, Allowed, made, table};
ghost use Rattle.definitions_tried.specs.Filters.{arp, arp_request, ip_datagram};
ghost use Rattle.definitions_tried.specs.Tables.{few_insns, filter_ids, four_endpoints, held_by_2, ids, keeps, log, minted_for_2, minted_once, minted_twice, next_cap, next_filter, of_two_domains, one_dropped, removal, small, two_endpoints, with_filters, with_others};

/// Derivation and revocation as in seL4's Reference Manual, "Capability derivation": to revoke a capability removes
/// all that were derived from it, whatever the number of mints, and leaves it; a right can be handed on by its holder
/// alone, and no right is won by a mint.
pub fn capabilities()
    ensures all_are_held { ids minted_twice ≡ 1 ∷ 2 ∷ 3 ∷ 4 ∷ [] }
    ensures minted_from_a_minted_one { Under minted_twice.held 1 4 }
    ensures not_the_other_way { Under minted_twice.held 4 1 → ⊥ }
    ensures not_a_sibling { Under minted_twice.held 2 4 → ⊥ }
    ensures not_itself { Under minted_twice.held 1 1 → ⊥ }
    ensures revoked_with_all_mints { ids (revoked minted_twice 1) ≡ 1 ∷ [] }
    ensures revoked_below_a_minted_one { ids (revoked minted_twice 3) ≡ 1 ∷ 2 ∷ 3 ∷ [] }
    ensures dropped_with_all_mints { ids (dropped minted_twice 3) ≡ 1 ∷ 2 ∷ [] }
    ensures no_id_again { ids (created (dropped minted_twice 1) 2 7) ≡ 5 ∷ [] }
    ensures endpoint_once { first (create_tests default_limits.caps minted_twice 1 7) ≡ Some EndpointTaken }
    ensures another_endpoint { first (create_tests default_limits.caps minted_twice 1 8) ≡ None }
    ensures by_its_holder_alone { first (mint_tests default_limits.caps minted_once 2 1 R) ≡ Some NotHolder }
    ensures none_of_that_id { first (mint_tests default_limits.caps minted_once 1 9 R) ≡ Some NoCap }
    ensures not_without_the_right_to_mint { first (mint_tests default_limits.caps minted_once 2 2 R) ≡ Some NoRight }
    ensures no_more_rights { first (mint_tests default_limits.caps minted_twice 2 3 R) ≡ Some RightsExceed }
    ensures the_same_rights { first (mint_tests default_limits.caps minted_twice 2 3 M) ≡ None }
    ensures no_receiving_by_a_right_to_mint { first (right_tests minted_twice.held 2 3 Receive) ≡ Some NoRight }
    ensures the_holder_before_the_right { first (mint_tests default_limits.caps minted_once 1 2 R) ≡ Some NotHolder }
    ensures one_more_of_1024 { first (create_tests default_limits.caps (with_others 1019) 1 8) ≡ None }
    ensures none_more_than_1024 { first (create_tests default_limits.caps (with_others 1020) 1 8) ≡ Some CapsFull }
    ensures the_rights_before_the_room { first (mint_tests default_limits.caps (with_others 1020) 2 3 R) ≡ Some RightsExceed }
{}

/// The table is a function of its log (Schneider 1990, "Implementing fault-tolerant services using the state machine
/// approach"): the versions count the operations, and ids begin with 1.
pub fn logs()
    ensures versions { ((table default_limits log 0).version ≡ 0) × ((table default_limits log 2).version ≡ 2) × ((table default_limits log 3).version ≡ 3) }
    ensures first_cap { made (table default_limits log 0) (Create 1 7) ≡ Cap 1 }
    ensures first_filter { made (table default_limits log 1) (Install 1 1 arp) ≡ Filter 1 }
    ensures held { ids (table default_limits log 2).caps ≡ 1 ∷ [] }
    ensures none_is_held { ids (table default_limits log 3).caps ≡ [] }
    ensures filter_stays { length (table default_limits log 3).filters ≡ 1 }
    ensures next_cap { made (table default_limits log 3) (Create 1 8) ≡ Cap 2 }
{}

/// What bounds a table, whatever the budget: 1,024 filters at the default, and versions below 2^64. A filter is replaced by who
/// still has its capability, and removed alone.
pub fn bounds()
    ensures one_more_of_1024 { Allowed (with_filters 9 1023) 9000 (Install 1 1 arp) None }
    ensures none_more_than_1024 { Allowed (with_filters 9 1024) 9000 (Install 1 1 arp) (Some (Rule op_fault.TableFull)) }
    ensures the_last_version { Allowed (with_filters 18446744073709551614 0) 9000 (Create 1 8) None }
    ensures no_version_after_it { Allowed (with_filters 18446744073709551615 0) 9000 (Create 1 8) (Some (Rule op_fault.VersionsSpent)) }
    ensures not_replaced_without_its_capability { Allowed (table default_limits log 3) 9000 (Replace 1 1 arp) (Some (Rule op_fault.NoCap)) }
    ensures removed_alone { filter_ids (table default_limits removal 4) ≡ 2 ∷ [] }
{}

/// The limits of a machine, and the share of them that a domain may have. A capability counts for the domain that made
/// it, so nobody fills another's share by minting for it. What all domains have is looked at before what one has.
pub fn shares()
    ensures share_of_capabilities { Allowed (table small two_endpoints 2) 9000 (Create 1 9) (Some (Rule op_fault.DomainFull)) }
    ensures another_domain { Allowed (table small two_endpoints 2) 9000 (Create 2 9) None }
    ensures again_after_a_drop { Allowed (table small one_dropped 3) 9000 (Create 1 9) None }
    ensures full_for_all { Allowed (table small four_endpoints 4) 9000 (Create 1 11) (Some (Rule op_fault.CapsFull)) }
    ensures counts_for_its_maker { Allowed (table small minted_for_2 2) 9000 (Create 1 8) (Some (Rule op_fault.DomainFull)) }
    ensures not_minted_further { Allowed (table small minted_for_2 2) 9000 (MintFor 1 1 2 R) (Some (Rule op_fault.DomainFull)) }
    ensures not_for_its_holder { Allowed (table small held_by_2 3) 9000 (Create 2 9) None }
    ensures minted_from_a_held_one { Allowed (table small held_by_2 3) 9000 (MintFor 2 2 3 R) None }
    ensures share_of_filters { Allowed (table small removal 3) 9000 (Install 1 1 arp) (Some (Rule op_fault.DomainFull)) }
    ensures again_after_a_removal { Allowed (table small removal 4) 9000 (Install 1 1 arp) None }
    ensures share_of_instructions { Allowed (table few_insns removal 2) 9000 (Install 1 1 arp) (Some (Rule op_fault.DomainFull)) }
    ensures replaced_within { Allowed (table few_insns removal 2) 9000 (Replace 1 1 arp) None }
    ensures share_before_the_budget { Allowed (table few_insns removal 2) 7 (Replace 1 1 (arp ++ arp)) (Some (Rule op_fault.DomainFull)) }
    ensures instructions_of_another { Allowed (table few_insns of_two_domains 3) 9000 (Install 2 2 arp) None }
{}

/// Why each operation is refused, beside budgets, bounds and what `capabilities` has: there is no such thing, or it
/// is another domain's, or the last id was given out (docs/formats.md, "Operations on the table").
pub fn refusals()
    ensures endpoint_taken { Allowed (table default_limits log 1) 9000 (Create 2 7) (Some (Rule op_fault.EndpointTaken)) }
    ensures no_cap_to_revoke { Allowed (table default_limits log 1) 9000 (Revoke 1 2) (Some (Rule op_fault.NoCap)) }
    ensures not_held_to_revoke { Allowed (table default_limits log 1) 9000 (Revoke 2 1) (Some (Rule op_fault.NotHolder)) }
    ensures no_cap_to_drop { Allowed (table default_limits log 1) 9000 (DropCap 1 2) (Some (Rule op_fault.NoCap)) }
    ensures not_held_to_drop { Allowed (table default_limits log 1) 9000 (DropCap 2 1) (Some (Rule op_fault.NotHolder)) }
    ensures no_cap_to_install { Allowed (table default_limits log 1) 9000 (Install 1 2 arp) (Some (Rule op_fault.NoCap)) }
    ensures not_held_to_install { Allowed (table default_limits log 1) 9000 (Install 2 1 arp) (Some (Rule op_fault.NotHolder)) }
    ensures no_filter_to_remove { Allowed (table default_limits log 2) 9000 (Remove 1 2) (Some (Rule op_fault.NoFilter)) }
    ensures not_owned_to_remove { Allowed (table default_limits log 2) 9000 (Remove 2 1) (Some (Rule op_fault.NotOwner)) }
    ensures no_filter_to_replace { Allowed (table default_limits log 2) 9000 (Replace 1 2 arp) (Some (Rule op_fault.NoFilter)) }
    ensures not_owned_to_replace { Allowed (table default_limits log 2) 9000 (Replace 2 1 arp) (Some (Rule op_fault.NotOwner)) }
    ensures last_id_of_a_cap { first (create_tests default_limits.caps (next_cap 4294967294) 1 8) ≡ None }
    ensures no_id_of_a_cap { first (create_tests default_limits.caps (next_cap 4294967295) 1 8) ≡ Some IdsSpent }
    ensures no_id_of_a_filter { Allowed (next_filter 4294967295) 9000 (Install 1 1 arp) (Some (Rule op_fault.FilterIdsSpent)) }
{}

/// A budget bounds the instructions of all filters, the new one included, and a replaced one not.
pub fn budgets()
    ensures within { Allowed (table default_limits log 1) 4 (Install 1 1 arp) None }
    ensures one_too_few { Allowed (table default_limits log 1) 3 (Install 1 1 arp) (Some Budget) }
    ensures second_within { Allowed (table default_limits log 2) 8 (Install 1 1 arp) None }
    ensures second_one_too_few { Allowed (table default_limits log 2) 7 (Install 1 1 arp) (Some Budget) }
    ensures in_place_of_the_old { Allowed (table default_limits log 2) 4 (Replace 1 1 arp) None }
    ensures in_place_one_too_few { Allowed (table default_limits log 2) 3 (Replace 1 1 arp) (Some Budget) }
{}

/// The frame of ARP goes to endpoint 7, with the 16 bytes that it has, although the filter would keep 64; another
/// frame goes to nobody; and once the capability is gone, so does the frame of ARP.
pub fn receivers()
    ensures arp { Accepting (table default_limits log 2) arp_request (keeps 7 16 ∷ []) }
    ensures another_frame { Accepting (table default_limits log 2) ip_datagram [] }
    ensures before_the_install { Accepting (table default_limits log 1) arp_request [] }
    ensures capability_gone { Accepting (table default_limits log 3) arp_request [] }
    ensures not_the_verdict { Accepting (table default_limits log 2) arp_request (keeps 7 64 ∷ []) → ⊥ }
    ensures not_nobody { Accepting (table default_limits log 2) arp_request [] → ⊥ }
{}
