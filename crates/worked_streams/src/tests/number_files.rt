//! A packet of the program's own configuration without a record, and what a reader finds in it.

use crate::tests::expected::same;
use crate::tests::rings::packet;
use number_packets::read_bytes;
use packet_reader::StreamEnding;
use std::test::Fail;

#[test]
fn closes_a_packet_without_records(rt: HostRuntime) -> Result<(), Fail> {
    let packet = packet(rt.alloc(), 7, &[])?;
    same(&rt, packet.sequence(), 7, "the number");
    let digits = hex::encode(rt.alloc(), packet.bytes())?;
    let expected = "c11ffcc1800000006000000000000000";
    same(&rt, digits.as_str(), expected, "the bytes");
    let read = read_bytes(rt.alloc(), packet.bytes())?;
    same(
        &rt,
        (read.packets.len(), read.end),
        (1, StreamEnding::Whole),
        "a packet",
    );
    Ok(())
}
