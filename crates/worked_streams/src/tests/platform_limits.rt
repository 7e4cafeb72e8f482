//! Platforms at the limits of their conditions: one past them is no call.

use crate::tests::expected::same;
use packet_ring::{RingBackEnd, RingEnd, ring};
use packet_writer::PacketBuf;
use std::test::Fail;
use trace_platform::{BackEnd, ListBackEnd, PacketSource};

/// The longest packet of a ring; and its most places with the shortest one: it lends 1024 buffers, each of which comes back.
#[test]
fn makes_rings_at_their_limits(rt: HostRuntime) -> Result<(), Fail> {
    let (mut longest, _ring_end) = ring(rt.alloc(), 1, 1 << 20)?;
    same(&rt, lent_length(&mut longest), Some(1 << 20), "the longest");
    let (mut most, mut ring_end) = ring(rt.alloc(), 1024, 1)?;
    for number in 0..1024 {
        same(&rt, lends(&mut most, &mut ring_end), Some(1), number);
    }
    same(&rt, ring_end.take().is_none(), true, "no packet");
    Ok(())
}

/// The longest buffer and the shortest; the longest packet of a list; and its most buffers with the shortest one: it lends 1024, and is full then.
#[test]
fn makes_lists_and_buffers_at_their_limits(rt: HostRuntime) -> Result<(), Fail> {
    let longest = PacketBuf::new(rt.alloc(), 1 << 20)?.len();
    let shortest = PacketBuf::new(rt.alloc(), 1)?.len();
    same(&rt, (longest, shortest), (1 << 20, 1), "bytes");
    let mut longest = ListBackEnd::new(rt.alloc(), 1, 1 << 20)?;
    same(&rt, lent_length(&mut longest), Some(1 << 20), "the longest");
    let mut most = ListBackEnd::new(rt.alloc(), 1024, 1)?;
    for number in 0..1024 {
        same(&rt, lent_length(&mut most), Some(1), number);
    }
    same(&rt, most.is_full(), true, "all are lent");
    Ok(())
}

/// How long the next buffer is, which comes back.
fn lends(back_end: &mut RingBackEnd, ring_end: &mut RingEnd) -> Option<usize> {
    if back_end.is_full() {
        return None;
    }
    let buffer = back_end.take_buffer()?;
    let length = buffer.len();
    ring_end.give_back(buffer);
    Some(length)
}

fn lent_length(back_end: &mut impl BackEnd) -> Option<usize> {
    if back_end.is_full() {
        return None;
    }
    Some(back_end.take_buffer()?.len())
}
