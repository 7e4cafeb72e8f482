//! What a trace block means (CTF 1.8.3, section 7): version 1.8, its byte order, its identifier and the packet header.

ghost use Rattle.std.specs.Prelude.{◌≡◌, IfOk};
ghost use Rattle.tsdl_meaning.specs.Words.{meant_by, order_table, trace_order, has_number, is_trace};

use crate::lookup::{attr_in, has_parts};
use crate::scope_rule::{NamedRule, ScopeRule};
use crate::value::{natural_value, word_value};
use ctf_types::ByteOrder;
use std::alloc::{AllocError, Global};
use tsdl_grammar::Item;

/// The scope of a trace block, and what it asks of its members.
pub(crate) const PACKET_HEADER: NamedRule = (&["packet", "header"], ScopeRule::PacketHeader);

/// `byte_order = le` or `be`.
pub(crate) fn trace_order(items: &[Item]) -> Option<ByteOrder>
    ensures { result ≡ trace_order items.now }
{
    order_word(word_value(attr_in("byte_order", items)?)?.as_str())
}

/// The words of `order_word`.
pub(crate) const ORDERS: &str = "`le` or `be`";

#[tactic(auto, using(crate::proofs::WordTables::other_word))]
pub(crate) fn order_word(word: &str) -> Option<ByteOrder>
    ensures { result ≡ meant_by order_table word.now }
{
    match word {
        "le" => Some(ByteOrder::Little),
        "be" => Some(ByteOrder::Big),
        _ => None,
    }
}

/// Version 1.8, and no scope but the packet header.
pub(crate) fn is_trace(alloc: Global, items: &[Item]) -> Result<bool, AllocError>
    ensures { IfOk result (λ is. is ≡ is_trace items.now) }
{
    Ok(
        has_parts(alloc, &[PACKET_HEADER.0], items)?
            && has_number("major", 1, items)
            && has_number("minor", 8, items),
    )
}

/// Whether an attribute is there and has this number.
fn has_number(word: &str, number: u64, items: &[Item]) -> bool
    ensures { result ≡ has_number word.now number items.now }
{
    attr_in(word, items).and_then(natural_value) == Some(number)
}
