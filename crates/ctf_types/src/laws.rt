//! Laws of the layout: what holds of all values, structures and bits. The functions do nothing; their contracts are the laws.

ghost use Rattle.ctf_types.specs.Laws.{OneFieldEnd, OneStructEnd, OneRecord, ToldByLowBits, OneClockValue, ToldWithinACycle, OneFieldValue, OneValue, OnePacket, OnePacketList, FrontOfFile, LyingFits, OwnBits, OwnZeros, OwnPacketBits, CleanIsLying, ShownLies, ShownLieClean, ShownEnd, AllowedStaysAllowed};
ghost use Rattle.ctf_types.specs.PacketRuns.{RunsJoin, RunsJoinClean, FilesJoin, FilesJoinClean, PiecesJoin, PiecesJoinClean, FrontLies, FrontLiesClean, FrontIsOfOneStream, FrontNeverFalls, FrontOfStream, CleanStructLies, CleanPacketLies, CleanStreamLies};

/// In given bits a field has at most one value at a place, and a structure one list of values: what a reader finds there is what was written.
pub fn one_value()
    ensures of_a_field { OneFieldValue }
    ensures of_a_structure { OneValue }
    ensures of_a_packet { OnePacket }
{}

/// A value that lies from one position on, of a field or of a structure, ends at one position, in whatever bits it lies.
/// Two records that lie from one position in the same bits are of one event, with the same values and one end.
pub fn one_end()
    ensures of_a_field { OneFieldEnd }
    ensures of_a_structure { OneStructEnd }
    ensures of_a_record { OneRecord }
{}

/// A short timestamp loses no clock value: one that is less than a cycle of its bits behind the value before it is the one that a reader finds
/// (CTF 1.8.3, section 8).
pub fn short_timestamps()
    ensures told { ToldByLowBits }
    ensures one { OneClockValue }
    ensures within { ToldWithinACycle }
{}

/// The bytes of a stream file are at most one list of packets. A file that is cut off holds the first of them.
pub fn one_packet_list()
    ensures unique { OnePacketList }
    ensures of_a_front { FrontOfFile }
    ensures also_clean { CleanIsLying }
{}

/// Only values that fit a structure can lie there.
pub fn lying_fits()
    ensures fits { LyingFits }
{}

/// Where a value lies depends on its own bits alone: a write elsewhere leaves it as it was.
pub fn own_bits_alone()
    ensures of_a_structure { OwnBits }
    ensures of_a_clean_structure { OwnZeros }
    ensures of_a_packet { OwnPacketBits }
{}

/// A structure with automatic lengths lies as the structure that a reader sees, each length as a member before its array
/// (CTF 1.8.3, section 4.2.4), and ends where that ends.
pub fn shown_lies()
    ensures lies { ShownLies }
    ensures lies_clean { ShownLieClean }
    ensures ends { ShownEnd }
{}

/// The metadata of a configuration that the rules allow is metadata that the rules allow.
pub fn allowed_metadata()
    ensures allowed { AllowedStaysAllowed }
{}

/// Packets that lie one after the other lie joined: two runs, a file and what is appended to it, pieces that are a packet each.
pub fn joined_packets()
    ensures runs { RunsJoin }
    ensures clean_runs { RunsJoinClean }
    ensures files { FilesJoin }
    ensures clean_files { FilesJoinClean }
    ensures pieces { PiecesJoin }
    ensures clean_pieces { PiecesJoinClean }
{}

/// The first packets of what lies lie by themselves: of a run, of packets of one stream, of clock values that never fall, and of a stream file.
pub fn front_of_packets()
    ensures of_a_run { FrontLies }
    ensures of_a_clean_run { FrontLiesClean }
    ensures of_one_stream { FrontIsOfOneStream }
    ensures of_clocks { FrontNeverFalls }
    ensures of_a_stream { FrontOfStream }
{}

/// What lies with every unused bit zero lies for a reader, who takes any bits there.
pub fn clean_lies()
    ensures of_a_structure { CleanStructLies }
    ensures of_a_packet { CleanPacketLies }
    ensures of_a_stream { CleanStreamLies }
{}
