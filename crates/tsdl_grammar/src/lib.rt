//! The grammar of TSDL metadata: its tokens and their places, its trees and how they are spelled, and the metadata that a text denotes.
#![tactic(auto)]

mod atom;
mod escapes;
mod fault;
mod front;
mod laws;
mod literal;
mod piece;
mod position;
mod token;
mod tokenizer;
mod tree;
mod wrong_character;

pub use atom::{Atom, atom_at, atoms};
pub use escapes::{escape, escaped_byte, unescape};
pub use fault::{MetaFault, MetaFaultKind};
pub use front::{Atoms, Front, atom_count, first_token};
pub use laws::{
    attributes_of_fields_stand_in_any_order, blocks_stand_in_any_order, clocks_say_their_parts,
    decimals_come_back, escapes_come_back, escapes_keep_utf8, events_say_their_parts,
    integers_have_defaults, integers_need_a_size, integers_say_their_parts,
    items_stand_in_any_order, kinds_of_blocks_mix, sequences_name_their_length,
    streams_say_their_parts, streams_stand_by_number, structures_say_their_parts,
    texts_say_their_parts, texts_stand_in_any_order, tokens_are_unique, tokens_or_a_stop,
};
pub use literal::literal_value;
pub use piece::{Cut, Piece};
pub use position::{Position, found_at, position_of};
pub use token::{Mark, Span, Token, TokenKind};
pub use tokenizer::{MAGIC_LINE, check_tokens, token_start, tokens};
pub use tree::{
    Attribute, Block, Bracket, Closing, Entries, Entry, Fact, Item, Kind, Label, MemberTree, Name,
    NamedFact, Number, Scope, Sign, Structure, Value,
};
