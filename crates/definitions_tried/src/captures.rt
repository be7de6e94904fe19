//! Captures in files.

ghost use Rattle.std.specs.Prelude.{[], ◌∷◌, ◌++◌, Some, None, true, false};
ghost use Rattle.pcap_reader.specs.declared.capture.CaptureFault.TheVariants.{BadMagic, BadVersion, TruncatedHeader, TruncatedRecord, TooLong};
ghost use Rattle.pcap_reader.specs.Savefile.{Reads};
ghost use Rattle.definitions_tried.specs.Captures.{little, big_nano, little_record, big_record, cut_record, long_record, longest_record, old, ethernet, packet};

/// Captures as pcap-savefile(5) of libpcap says, in both orders of bytes: a packet's captured bytes, and the length that it had.
pub fn read_captures()
    ensures no_packet { Reads little (Some (ethernet false false)) [] None }
    ensures low_byte_first { Reads (little ++ little_record) (Some (ethernet false false)) (packet (10 ∷ 20 ∷ 30 ∷ []) 60 ∷ []) None }
    ensures high_byte_first { Reads (big_nano ++ big_record) (Some (ethernet true true)) (packet (10 ∷ 20 ∷ 30 ∷ []) 60 ∷ []) None }
    ensures two_packets { Reads (little ++ little_record ++ little_record) (Some (ethernet false false)) (packet (10 ∷ 20 ∷ 30 ∷ []) 60 ∷ packet (10 ∷ 20 ∷ 30 ∷ []) 60 ∷ []) None }
    ensures not_the_captured_length { Reads (little ++ little_record) (Some (ethernet false false)) (packet (10 ∷ 20 ∷ 30 ∷ []) 3 ∷ []) None → ⊥ }
    ensures not_without_the_packet { Reads (little ++ little_record) (Some (ethernet false false)) [] None → ⊥ }
{}

/// Captures that end early or are none: the packets before the fault, and where the record begins that is at fault.
pub fn refused_captures()
    ensures cut_in_a_packet { Reads (little ++ cut_record) (Some (ethernet false false)) [] (Some (TruncatedRecord 24)) }
    ensures cut_in_the_second_packet { Reads (little ++ little_record ++ cut_record) (Some (ethernet false false)) (packet (10 ∷ 20 ∷ 30 ∷ []) 60 ∷ []) (Some (TruncatedRecord 43)) }
    ensures cut_in_the_header_of_a_record { Reads (little ++ 0 ∷ []) (Some (ethernet false false)) [] (Some (TruncatedRecord 24)) }
    ensures too_long { Reads (little ++ long_record) (Some (ethernet false false)) [] (Some (TooLong 24)) }
    ensures the_longest_is_cut { Reads (little ++ longest_record) (Some (ethernet false false)) [] (Some (TruncatedRecord 24)) }
    ensures no_bytes { Reads [] None [] (Some TruncatedHeader) }
    ensures cut_in_the_header { Reads (0xd4 ∷ 0xc3 ∷ 0xb2 ∷ 0xa1 ∷ 2 ∷ []) None [] (Some TruncatedHeader) }
    ensures another_version { Reads old None [] (Some BadVersion) }
    ensures no_magic { Reads (0x0a ∷ 0x0d ∷ 0x0d ∷ 0x0a ∷ []) None [] (Some BadMagic) }
{}
