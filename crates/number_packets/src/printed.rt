//! What is printed: packets in hexadecimal, and the values that were read back.

ghost use Rattle.std.specs.Prelude.{◌≡◌, ◌++◌, IfOk, OnOk, string_bytes};
ghost use Rattle.std.specs.List.{flat_map};
ghost use Rattle.number_packets.specs.FirstPath.{pieces_of};
ghost use Rattle.number_packets.specs.Printed.{packet_line, values_line, bad_line as bad_line_text};

use packet_writer::Packet;
use std::alloc::{AllocError, Global};

/// Adds the lines of packets.
pub fn print_packets(
    alloc: Global,
    output: &mut String,
    packets: &[Packet],
) -> Result<(), AllocError>
    ensures { OnOk result (string_bytes output.new ≡ string_bytes output.old ++ flat_map packet_line (pieces_of packets.now)) }
{
    for packet in packets {
        print_packet(alloc, output, packet.bytes())?;
    }
    Ok(())
}

/// Adds a packet's line: its bytes in lower case hexadecimal.
fn print_packet(alloc: Global, output: &mut String, packet: &[u8]) -> Result<(), AllocError>
    ensures { OnOk result (string_bytes output.new ≡ string_bytes output.old ++ packet_line packet.now) }
{
    let digits = hex::encode(alloc, packet)?;
    output.push_str(digits.as_str())?;
    output.push('\n')
}

/// Adds the line of the values that were read back.
pub fn print_values(alloc: Global, output: &mut String, values: &[u64]) -> Result<(), AllocError>
    ensures { OnOk result (string_bytes output.new ≡ string_bytes output.old ++ values_line values.now) }
{
    output.push_str("read:")?;
    for value in values {
        let text = format!(in alloc; " {value}")?;
        output.push_str(text.as_str())?;
    }
    output.push('\n')
}

/// What is said of the first bad line, counted from 1.
pub fn bad_line(alloc: Global, line: usize) -> Result<String, AllocError>
    ensures { IfOk result (λ text. string_bytes text ≡ bad_line_text line) }
{
    format!(in alloc; "bad line {line}\n")
}
