//! What a text has to go on with at each place of the grammar.

use tsdl_grammar::Mark;

/// What was expected where a text stops. Each place that has words of its own, or that can hold TSDL that is not read
/// here, has a variant.
#[derive(Clone, Copy, Debug, PartialEq, Eq)]
pub enum Expected {
    /// A block.
    Block,
    /// What stands in a block.
    Item,
    /// What stands behind a name in a block.
    ItemMark,
    /// What stands in the braces of an integer or of a string.
    Attribute,
    /// What an attribute has.
    Value,
    /// A word behind a dot.
    Identifier,
    /// What stands in `env`.
    FactName,
    /// What a name of `env` has.
    Fact,
    /// A member of a structure.
    Member,
    /// The colon behind `enum`.
    EnumColon,
    /// The integer of an enumeration.
    EnumInteger,
    /// A member's name behind its kind.
    MemberName,
    /// What stands in a bracket.
    Length,
    /// An entry of an enumeration.
    Label,
    /// The mark behind an entry's label.
    LabelMark,
    /// What stands behind an entry's only number.
    EntryMark,
    /// What stands behind an entry's upper end.
    RangeMark,
    /// The mark of a scope, where the one of an attribute stands before a structure.
    ScopeMark,
    /// The structure of a scope.
    Structure,
    /// The brace behind `struct`.
    StructureBrace,
    /// Any other number.
    Number,
    /// A number, where one above 2^64 - 1 stands.
    SmallerNumber,
    /// Any other mark.
    Mark(Mark),
}

impl Expected {
    /// The same in words.
    pub fn words(self) -> &'static str {
        match self {
            Expected::Block => "`trace`, `env`, `clock`, `stream` or `event`",
            Expected::Item => "an attribute, a scope or `}`",
            Expected::ItemMark => "`=` or `:=`",
            Expected::Attribute => "an attribute or `}`",
            Expected::Value => "a number, a string or a name",
            Expected::Identifier => "an identifier",
            Expected::FactName => "a name or `}`",
            Expected::Fact => "a number or a string",
            Expected::Member => "`integer`, `enum`, `string` or `}`",
            Expected::EnumInteger => "`integer`",
            Expected::MemberName => "the name of a member",
            Expected::Length => "a number or the name of a member",
            Expected::Label => "a label or `}`",
            Expected::EntryMark => "`,`, `...` or `}`",
            Expected::RangeMark => "`,` or `}`",
            Expected::ScopeMark => "`:=` and not `=` before a structure",
            Expected::Structure => "`struct`",
            Expected::Number => "a number",
            Expected::SmallerNumber => "a number up to 2^64 - 1",
            Expected::StructureBrace | Expected::Mark(Mark::OpenBrace) => "`{`",
            Expected::Mark(Mark::CloseBrace) => "`}`",
            Expected::Mark(Mark::OpenBracket) => "`[`",
            Expected::Mark(Mark::CloseBracket) => "`]`",
            Expected::Mark(Mark::OpenParenthesis) => "`(`",
            Expected::Mark(Mark::CloseParenthesis) => "`)`",
            Expected::Mark(Mark::Semicolon) => "`;`",
            Expected::Mark(Mark::Comma) => "`,`",
            Expected::EnumColon | Expected::Mark(Mark::Colon) => "`:`",
            Expected::LabelMark | Expected::Mark(Mark::Equals) => "`=`",
            Expected::Mark(Mark::Minus) => "`-`",
            Expected::Mark(Mark::Plus) => "`+`",
            Expected::Mark(Mark::Dot) => "`.`",
            Expected::Mark(Mark::Assign) => "`:=`",
            Expected::Mark(Mark::Ellipsis) => "`...`",
        }
    }
}
