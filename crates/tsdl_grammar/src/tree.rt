//! The trees of TSDL: what a metadata text says, before it is judged.
//!
//! ```text
//! text   = { block ";" }
//! block  = ("trace" | "stream" | "event" | "clock") "{" { attribute | scope } "}"
//!        | "env" "{" { identifier "=" (number | string) ";" } "}"
//! ```

use ctf_types::{ListOf, Text};

/// A number with its sign: `[ "-" | "+" ] literal`.
#[derive(Clone, Copy, Debug, PartialEq, Eq)]
pub struct Number {
    pub sign: Option<Sign>,
    pub literal: u64,
}

#[derive(Clone, Copy, Debug, PartialEq, Eq)]
pub enum Sign {
    Plus,
    Minus,
}

/// Words with dots between them: `identifier { "." identifier }`.
#[derive(Debug, Drop)]
pub struct Name {
    pub first: Text,
    pub rest: ListOf<Text>,
}

/// What an attribute has: `number | string | name`.
#[derive(Debug, Drop)]
pub enum Value {
    Number(Number),
    Text(Text),
    Name(Name),
}

/// `name "=" value ";"`.
#[derive(Debug, Drop)]
pub struct Attribute {
    pub name: Name,
    pub value: Value,
}

/// An enumeration's label: `string | identifier`.
#[derive(Debug, Drop)]
pub enum Label {
    Quoted(Text),
    Bare(Text),
}

/// A label and its range: `label "=" number [ "..." number ]`.
#[derive(Debug, Drop)]
pub struct Entry {
    pub label: Label,
    pub low: Number,
    pub high: Option<Number>,
}

/// The entries of an enumeration: `[ entry { "," entry } [ "," ] ]`.
#[derive(Debug, Drop)]
pub enum Entries {
    Empty,
    Listed(Entry, ListOf<Entry>, Closing),
}

/// The type of a member before its brackets.
#[derive(Debug, Drop)]
pub enum Kind {
    /// `"integer" "{" { attribute } "}"`.
    Integer(ListOf<Attribute>),
    /// `"enum" ":" "integer" "{" { attribute } "}" "{" entries "}"`.
    Enumeration(ListOf<Attribute>, Entries),
    /// `"string" [ "{" { attribute } "}" ]`.
    Text(Option<ListOf<Attribute>>),
}

/// Whether a comma stands after an enumeration's last entry.
#[derive(Clone, Copy, Debug, PartialEq, Eq)]
pub enum Closing {
    Plain,
    Comma,
}

/// An array's length: `"[" (number | identifier) "]"`.
#[derive(Debug, Drop)]
pub enum Bracket {
    Count(Number),
    Member(Text),
}

/// `kind identifier { bracket } ";"`. The first bracket is the outermost array's.
#[derive(Debug, Drop)]
pub struct MemberTree {
    pub kind: Kind,
    pub name: Text,
    pub brackets: ListOf<Bracket>,
}

/// `"struct" "{" { member } "}" [ "align" "(" number ")" ]`.
#[derive(Debug, Drop)]
pub struct Structure {
    pub members: ListOf<MemberTree>,
    pub align: Option<Number>,
}

/// `name ":=" structure ";"`.
#[derive(Debug, Drop)]
pub struct Scope {
    pub name: Name,
    pub structure: Structure,
}

/// What stands in a block: an attribute or a scope.
#[derive(Debug, Drop)]
pub enum Item {
    Attribute(Attribute),
    Scope(Scope),
}

/// What an environment name has: `number | string`.
#[derive(Debug, Drop)]
pub enum Fact {
    Number(Number),
    Text(Text),
}

/// `identifier "=" (number | string) ";"`.
#[derive(Debug, Drop)]
pub struct NamedFact {
    pub name: Text,
    pub fact: Fact,
}

/// A block of a metadata text (CTF 1.8.3, section 7).
#[derive(Debug, Drop)]
pub enum Block {
    Trace(ListOf<Item>),
    Stream(ListOf<Item>),
    Event(ListOf<Item>),
    Clock(ListOf<Item>),
    Environment(ListOf<NamedFact>),
}
