//! Captures in pcapng, and what is kept of captures.

ghost use Rattle.std.specs.Prelude.{◌≡◌, [], ◌∷◌, ◌++◌, Some, None, Ok, Err, true, false, pos};
ghost use Rattle.pcapng_reader.specs.declared.block.BlockError.TheVariants.{LengthNotRepeated, NoInterface, NoSection};
ghost use Rattle.pcapng_reader.specs.declared.block.Content.TheVariants.{Packet};
ghost use Rattle.pcapng_reader.specs.declared.fault.CaptureFault.TheVariants.{BadBlock, Truncated};
ghost use Rattle.pcapng_reader.specs.Grammar.{Reads};
ghost use Rattle.pcapng_reader.specs.Packets.{captured_in};
ghost use Rattle.pcapng_reader.specs.Times.{stamp_of};
ghost use Rattle.console.specs.declared.filter.CodeFault.TheVariants.{Link};
ghost use Rattle.console.specs.Programs.{same_for_all};
ghost use Rattle.keep_engine.specs.Keeping.{Keeps, stop_of, text_of};
ghost use Rattle.definitions_tried.specs.Blocks.{little_section, big_section, interface, arp_block, cut_block, big_cut_block, simple_block, begins, enhanced, simple, block, head, accepted, accepted_of, no_program, of_two, refused};
ghost use Rattle.definitions_tried.specs.Filters.{arp, cut_frame};

/// Captures as draft-ietf-opsawg-pcapng says: sections in both orders of bytes, an interface with a resolution of time stamps,
/// an enhanced packet with padding, and a simple packet.
pub fn read_blocks()
    ensures low_byte_first { Reads little_section (block 0 little_section (begins false) ∷ []) None }
    ensures high_byte_first { Reads big_section (block 0 big_section (begins true) ∷ []) None }
    ensures enhanced_packet { Reads (little_section ++ interface ++ arp_block) (head ++ block 60 arp_block (Packet (enhanced 16)) ∷ []) None }
    ensures cut_packet { Reads (little_section ++ interface ++ cut_block) (head ++ block 60 cut_block (Packet (enhanced 13)) ∷ []) None }
    ensures simple_packet { Reads (little_section ++ interface ++ simple_block) (head ++ block 60 simple_block (Packet (simple 16)) ∷ []) None }
    ensures padding_is_no_packet { captured_in (enhanced 13) cut_block ≡ cut_frame.bytes }
    ensures nanoseconds { stamp_of (record { units = 4294967298; resolution = 9; offset = pos 0 }) ≡ record { seconds = pos 4; nanoseconds = 294967298 } }
    ensures microseconds { stamp_of (record { units = 4294967298; resolution = 6; offset = pos 0 }) ≡ record { seconds = pos 4294; nanoseconds = 967298000 } }
    ensures powers_of_two { stamp_of (record { units = 5; resolution = 129; offset = pos 0 }) ≡ record { seconds = pos 2; nanoseconds = 500000000 } }
{}

/// Captures that end early or are none: the blocks before the fault, and where the block begins that is at fault.
pub fn refused_blocks()
    ensures no_section { Reads interface [] (Some (BadBlock NoSection 0)) }
    ensures no_interface { Reads (little_section ++ arp_block) (block 0 little_section (begins false) ∷ []) (Some (BadBlock NoInterface 28)) }
    ensures an_interface_of_the_section_before { Reads (little_section ++ interface ++ big_section ++ big_cut_block) (head ++ block 60 big_section (begins true) ∷ []) (Some (BadBlock NoInterface 88)) }
    ensures cut_in_a_block { Reads (little_section ++ 6 ∷ 0 ∷ 0 ∷ []) (block 0 little_section (begins false) ∷ []) (Some (Truncated 28)) }
    ensures no_bytes { Reads [] [] (Some (Truncated 0)) }
{}

/// What `keep` gives of a capture in pcapng with a frame of ARP and one of IP: by the filter for ARP all but the frame of IP, and
/// inverted all but the frame of ARP; of Ethernet, 1, which both are, the same, and of Linux's cooked packets, 113, neither. Where CODE has
/// no program for Ethernet, nothing after the interface is written.
pub fn kept_blocks()
    ensures arp_is_kept { Keeps (same_for_all arp) accepted (little_section ++ interface ++ arp_block ++ simple_block) None (of_two (Ok arp_block) (Ok [])) }
    ensures another_is_kept_inverted { Keeps (same_for_all arp) refused (little_section ++ interface ++ arp_block ++ simple_block) None (of_two (Ok []) (Ok simple_block)) }
    ensures ethernet_is_kept { Keeps (same_for_all arp) (accepted_of 1) (little_section ++ interface ++ arp_block ++ simple_block) None (of_two (Ok arp_block) (Ok [])) }
    ensures no_ethernet_is_kept { Keeps (same_for_all arp) (accepted_of 113) (little_section ++ interface ++ arp_block ++ simple_block) None (of_two (Ok []) (Ok [])) }
    ensures a_section_is_kept_where_no_packet_is { Keeps (same_for_all arp) refused little_section None (Ok little_section ∷ []) }
    ensures it_stops_where_there_is_no_program { Keeps no_program accepted (little_section ++ interface ++ arp_block ++ simple_block) None (of_two (Err (Link 1)) (Err (Link 1))) }
    ensures what_is_kept_is_written { text_of (of_two (Ok arp_block) (Ok [])) ≡ little_section ++ interface ++ arp_block }
    ensures nothing_is_written_after_a_stop { text_of (of_two (Err (Link 1)) (Ok simple_block)) ≡ little_section ++ interface }
    ensures the_first_stop_is_reported { stop_of (of_two (Err (Link 1)) (Err (Link 113))) ≡ Some (Link 1) }
{}
