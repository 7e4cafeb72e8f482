//! A caller that traces again and again makes its arguments once: numbers are set and texts refilled in place, with no memory asked for.

use crate::tests::expected::same;
use crate::tests::fixtures::arguments;
use ctf_types::Args;
use std::alloc::Global;
use std::process::Abort;
use std::test::Fail;

/// Sets the arguments of the next call. It has no allocator to ask. Whether the text has room.
fn set(args: &mut Args, unsigned: u64, signed: i64, text: &[u8]) -> bool {
    if args.common.len() != 1 || args.specific.len() != 1 || args.payload.len() != 1 {
        return false;
    }
    args.common.set_unsigned(0, unsigned);
    args.specific.set_signed(0, signed);
    args.payload.refill_text(0, text)
}

/// The values of the three structures of a call, a number, a signed number and a text, and the text that is held then.
type Call = (u64, i64, &'static [u8], &'static [u8]);

/// The last text is longer than any that was held.
static CALLS: &[Call] = &[
    (1, -1, b"as long....", b"as long...."),
    (2, -2, b"shorter", b"shorter"),
    (3, i64::MIN, b"", b""),
    (u64::MAX, 4, b"the longest", b"the longest"),
    (5, 5, &[b'x'; 4096], b"the longest"),
];

/// Arguments that are set to those of a call hold them, but for a text that has no room.
fn is_set(
    rt: &impl Abort,
    alloc: Global,
    args: &mut Args,
    (unsigned, signed, text, held): &Call,
) -> Result<(), Fail> {
    let has_room = set(args, *unsigned, *signed, text);
    same(rt, has_room, text == held, "room for the text");
    let found = format!(in alloc; "{args:?}")?;
    let expected = arguments(alloc, *unsigned, *signed, *held)?;
    let expected = format!(in alloc; "{expected:?}")?;
    same(rt, found.as_str(), expected.as_str(), "arguments");
    Ok(())
}

#[test]
fn arguments_are_set_in_place(rt: HostRuntime) -> Result<(), Fail> {
    let mut args = arguments(rt.alloc(), 0, 0, b"the longest")?;
    for call in CALLS {
        is_set(&rt, rt.alloc(), &mut args, call)?;
    }
    Ok(())
}
