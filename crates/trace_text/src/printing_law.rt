//! The one printed text of a trace, as a law.

ghost use Rattle.std.specs.Prelude.{◌≡◌, ℕ, List};
ghost use Rattle.ctf_types.specs.declared.Metadata.{Metadata};
ghost use Rattle.packet_reader.specs.declared.read_streams.ReadStream.{ReadStream};
ghost use Rattle.trace_stack.specs.declared.reading.ReadTrace.{ReadTrace};
ghost use Rattle.trace_stack.specs.Reading.{IsOneOrder};
ghost use Rattle.trace_text.specs.PrintedTrace.{IsPrinted, printed};

use clock_merge::one_merged_order;

/// What is printed of a trace that was read has its records in the merged order, and there is one such text of the trace.
pub fn one_printed_trace()
    ensures merged { (t : ReadTrace) → IsOneOrder t.streams t.order.items → IsPrinted t.metadata t.streams (printed t) }
    ensures one { (m : Metadata) (streams : List ReadStream) (text other : List ℕ) → IsPrinted m streams text → IsPrinted m streams other → text ≡ other }
{
    one_merged_order();
}
