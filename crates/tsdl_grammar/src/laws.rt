//! Laws of the grammar: what its definitions come to. Each function is a statement, and does nothing when it runs.

ghost use Rattle.std.specs.Prelude.{◌≡◌, ℕ, ◌<◌, ◌^◌, false, List, Some, None, codes, IsUtf8, decimal};
ghost use Rattle.std.specs.List.{AllByRecursion};
ghost use Rattle.ctf_types.specs.{declared.Base.TheVariants.Dec, declared.ClockType.ClockType, declared.Event.Event, declared.FieldType.FieldType};
ghost use Rattle.ctf_types.specs.{declared.IntType.IntType, declared.Length.TheVariants.At, declared.MemberType.MemberType};
ghost use Rattle.ctf_types.specs.{declared.MemberType.TheVariants.Dyn, declared.Metadata.Metadata, declared.Stream.Stream, declared.StructType.StructType};
ghost use Rattle.tsdl_grammar.specs.{declared.token.Token.Token, declared.tree.Attribute.Attribute, declared.tree.Block.Block, declared.tree.Item.Item};
ghost use Rattle.tsdl_grammar.specs.{declared.tree.MemberTree.MemberTree, declared.tree.Structure.Structure};
ghost use Rattle.tsdl_grammar.specs.{Denotes.{Denotes, IsTextOf, text_meta}, Escapes.{escaped, unescaped}, Literals.literal_of, Lookups.attr, MemberMeaning.{member_meaning, text_meaning}};
ghost use Rattle.tsdl_grammar.specs.{StructureMeaning.struct_meaning, Tokens.{StopsAt, Tokenizes}};
ghost use Rattle.tsdl_grammar.specs.IntegerMeaning.{Known, default_align, int_meaning};
ghost use Rattle.tsdl_grammar.specs.BlockMeaning.{clock_meaning, stream_meaning, event_meaning};
ghost use Rattle.tsdl_grammar.specs.Orders.{Reordered, SameItems, Paired, SameButClockOrder, SameButEnvironmentOrder};
ghost use Rattle.tsdl_grammar.specs.FieldOrders.{SameFields};
ghost use Rattle.tsdl_grammar.specs.Laws.{SaysInteger, SaysStructure, SaysClock, SaysStream, SaysEvent, SaysMetadata, SameBlocks, NamesLength, NumbersRise};

/// A text has one list of tokens.
pub fn tokens_are_unique()
    ensures { (text : List ℕ) (ts us : List Token) → Tokenizes text ts → Tokenizes text us → ts ≡ us }
{}

/// A text that has tokens has no place at which none starts.
#[tactic(auto, using(crate::proofs::Splits::no_stop))]
pub fn tokens_or_a_stop()
    ensures { (text : List ℕ) (ts : List Token) (at : ℕ) → Tokenizes text ts → StopsAt text at → ⊥ }
{}

/// A text that is written with escapes stands for itself again.
#[tactic(auto, using(crate::proofs::Escaping::stands_again))]
pub fn escapes_come_back()
    ensures { (text : List ℕ) → unescaped (escaped text) ≡ text }
{}

/// What is written with escapes is UTF-8 where the text is, and a string in UTF-8 stands for a text in UTF-8.
#[tactic(auto, using(crate::proofs::EscapesUtf8::both_ways))]
pub fn escapes_keep_utf8()
    ensures written { (text : List ℕ) → IsUtf8 text → IsUtf8 (escaped text) }
    ensures read { (bytes : List ℕ) → IsUtf8 bytes → IsUtf8 (unescaped bytes) }
{}

/// A number's decimal digits are a literal of that value.
#[tactic(auto, using(crate::proofs::NumberStands::reads_back))]
pub fn decimals_come_back()
    ensures { (n : ℕ) → n < 2 ^ 64 → literal_of (decimal n) ≡ n }
{}

/// Where the parts of an integer come from: its size is needed, its alignment is 8 where the size is a multiple
/// of 8 and else 1, it is unsigned and decimal, each unless an attribute says else, and no attribute stands twice.
pub fn integers_say_their_parts()
    ensures { (known : Known) (attrs : List Attribute) (t : IntType) → int_meaning known attrs ≡ Some t → SaysInteger known attrs t }
{}

/// What an integer has by default: an alignment of 8 where its size is a multiple of 8, else of 1, no sign, base 10 and no clock.
pub fn integers_have_defaults()
    ensures align { (known : Known) (attrs : List Attribute) (t : IntType) → int_meaning known attrs ≡ Some t → attr (codes "align") attrs ≡ None → t.align ≡ default_align t.size }
    ensures signed { (known : Known) (attrs : List Attribute) (t : IntType) → int_meaning known attrs ≡ Some t → attr (codes "signed") attrs ≡ None → t.signed ≡ false }
    ensures base { (known : Known) (attrs : List Attribute) (t : IntType) → int_meaning known attrs ≡ Some t → attr (codes "base") attrs ≡ None → t.base ≡ Dec }
    ensures clock { (known : Known) (attrs : List Attribute) (t : IntType) → int_meaning known attrs ≡ Some t → attr (codes "map") attrs ≡ None → t.clock ≡ None }
{}

/// An integer without a size means nothing.
#[tactic(auto, using(crate::proofs::MeaningParts::size_needed))]
pub fn integers_need_a_size()
    ensures { (known : Known) (attrs : List Attribute) → attr (codes "size") attrs ≡ None → int_meaning known attrs ≡ None }
{}

/// The length of a sequence is an unsigned integer member that stands before it.
#[tactic(auto, using(crate::proofs::LengthParts::names_length))]
pub fn sequences_name_their_length()
    ensures { (known : Known) (before : List (List ℕ × MemberType)) (m : MemberTree) (t : FieldType) (i : ℕ) → member_meaning known before m ≡ Some (Dyn t (At i)) → NamesLength before i }
{}

/// Where the parts of a structure come from: its members in order, and its minimum alignment.
pub fn structures_say_their_parts()
    ensures { (known : Known) (s : Structure) (t : StructType) → struct_meaning known s ≡ Some t → SaysStructure known s t }
{}

/// Where the parts of a clock come from: its name is needed, and the others have their defaults.
#[tactic(auto, using(crate::proofs::BlockParts::says_clock))]
pub fn clocks_say_their_parts()
    ensures { (is : List Item) (c : ClockType) → clock_meaning is ≡ Some c → SaysClock is c }
{}

/// Where the parts of a stream come from. Its packet context has a member `packet_size` and a member `content_size`.
pub fn streams_say_their_parts()
    ensures { (known : Known) (is : List Item) (s : Stream) → stream_meaning known is ≡ Some s → SaysStream known is s }
{}

/// Where the parts of an event come from, and the number of its stream. Its name is needed.
#[tactic(auto, using(crate::proofs::BlockParts::says_event))]
pub fn events_say_their_parts()
    ensures { (known : Known) (is : List Item) (stream : ℕ) (e : Event) → event_meaning known is ≡ Some (stream, e) → SaysEvent known is stream e }
{}

/// Where the parts of the metadata come from: one trace block, at most one environment, and clocks of different names.
#[tactic(auto, using(crate::proofs::MeaningParts::says_metadata))]
pub fn texts_say_their_parts()
    ensures { (bs : List Block) (m : Metadata) → text_meta bs ≡ Some m → SaysMetadata bs m }
{}

/// Blocks of different kinds stand in any order.
#[tactic(auto, using(crate::proofs::MeaningParts::same_meaning))]
pub fn kinds_of_blocks_mix()
    ensures { (bs cs : List Block) → SameBlocks bs cs → text_meta bs ≡ text_meta cs }
{}

/// Blocks stand in any order: in another order they mean the same metadata, but for the order of the clocks, which is theirs.
pub fn blocks_stand_in_any_order()
    ensures { (bs cs : List Block) (m : Metadata) → Reordered bs cs → text_meta bs ≡ Some m → (n : Metadata) × (text_meta cs ≡ Some n) × SameButClockOrder m n }
{}

/// Attributes, scopes and entries of the environment stand in any order in their block: in another order the text means the
/// same metadata, but for the order of the environment, which is the text's.
pub fn items_stand_in_any_order()
    ensures { (bs cs : List Block) (m : Metadata) → Paired SameItems bs cs → text_meta bs ≡ Some m → (n : Metadata) × (text_meta cs ≡ Some n) × SameButEnvironmentOrder m n }
{}

/// The attributes of an integer, and of a string, stand in any order in its braces: in another order it means the same, and so
/// does the text.
pub fn attributes_of_fields_stand_in_any_order()
    ensures integers { (known : Known) (attrs others : List Attribute) → Reordered attrs others → int_meaning known attrs ≡ int_meaning known others }
    ensures strings { (attrs others : List Attribute) → Reordered attrs others → text_meaning (Some attrs) ≡ text_meaning (Some others) }
    ensures texts { (bs cs : List Block) → Paired SameFields bs cs → text_meta bs ≡ text_meta cs }
{}

/// So it is of texts. Of two texts of blocks in any order, of items in any order in their blocks, or of attributes in any order in
/// the integers and strings of their structures, where the one denotes metadata the other denotes the same, but for those orders.
pub fn texts_stand_in_any_order()
    ensures blocks { (text other : List ℕ) (bs cs : List Block) (m : Metadata) → IsTextOf text bs → IsTextOf other cs → Reordered bs cs → text_meta bs ≡ Some m → Denotes text m × ((n : Metadata) × Denotes other n × SameButClockOrder m n) }
    ensures items { (text other : List ℕ) (bs cs : List Block) (m : Metadata) → IsTextOf text bs → IsTextOf other cs → Paired SameItems bs cs → text_meta bs ≡ Some m → Denotes text m × ((n : Metadata) × Denotes other n × SameButEnvironmentOrder m n) }
    ensures fields { (text other : List ℕ) (bs cs : List Block) (m : Metadata) → IsTextOf text bs → IsTextOf other cs → Paired SameFields bs cs → text_meta bs ≡ Some m → Denotes text m × Denotes other m }
{}

/// The streams of the metadata stand by number, no two of one number, and so do the events of each stream.
pub fn streams_stand_by_number()
    ensures streams { (bs : List Block) (m : Metadata) → text_meta bs ≡ Some m → NumbersRise (λ s. s.id) m.streams }
    ensures events { (bs : List Block) (m : Metadata) → text_meta bs ≡ Some m → AllByRecursion (λ s. NumbersRise (λ e. e.id) s.events) m.streams }
{}
