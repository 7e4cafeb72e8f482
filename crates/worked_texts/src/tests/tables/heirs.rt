//! Aliases, a part beside them behind `PAYLOAD` or `EXTRAS`, and what is said of it: the place that is refused and why,
//! the payload where it is shown, or `ok`. What stands in angle brackets is a word.

/// Heirs, and the payload that each is as a whole.
pub const HEIRS: &str = r#"
"A":{"class":"struct","members":[{"x":{"field-type":{"class":"uint","size":8}}},{"y":{"field-type":{"class":"uint","size":8}}}]},"B":{"$inherit":"A","members":[{"x":{"field-type":{"size":4}}}]},"C":{"$inherit":"B","members":[{"z":{"field-type":{"class":"uint","size":4}}}]} PAYLOAD "C" -> {"class":"struct","members":[{"x":{"field-type":{"class":"uint","size":4}}},{"y":{"field-type":{"class":"uint","size":8}}},{"z":{"field-type":{"class":"uint","size":4}}}]}
"S":{"class":"struct","members":[{"x":{"field-type":{"size":8},"note":1}}]},"u":{"size":4} PAYLOAD {"$inherit":"S","members":[{"x":"u"}]} -> {"class":"struct","members":[{"x":{"field-type":{"size":4}}}]}
"S":{"class":"struct","members":[{"x":{"field-type":{"size":8},"note":1}}]},"u":{"size":4} PAYLOAD {"$inherit":"S","members":null} -> {"class":"struct","members":null}
"e":{"mappings":{"members":[1],"$inherit":[2]}} PAYLOAD {"$inherit":"e","mappings":{"members":[3]}} -> {"mappings":{"$inherit":[2],"members":[1,3]}}
 PAYLOAD {"$inherit":null,"size":1} -> {"size":1}
"#;

/// The first place that is refused.
pub const FIRST_PLACES: &str = r#"
"P":{"$inherit":"Q"},"Q":{"$inherit":"P"} PAYLOAD {} -> <aliases>/P: InheritCycle
"X":{"$inherit":"nope"} PAYLOAD {} -> <aliases>/X/$inherit: NoSuchAlias
"A0":{"class":"uint","size":8},"A1":{"class":"struct","members":[{"a":"A0"},{"b":"A0"},{"c":"A0"},{"d":"A0"}]},"A2":{"class":"struct","members":[{"a":"A1"},{"b":"A1"},{"c":"A1"},{"d":"A1"}]},"A3":{"class":"struct","members":[{"a":"A2"},{"b":"A2"},{"c":"A2"},{"d":"A2"}]},"A4":{"class":"struct","members":[{"a":"A3"},{"b":"A3"},{"c":"A3"},{"d":"A3"}]},"A5":{"class":"struct","members":[{"a":"A4"},{"b":"A4"},{"c":"A4"},{"d":"A4"}]},"B":"nope" PAYLOAD {} -> <aliases>/A5: Limit
"A":{"element-field-type":"nope"},"B":{"members":[{"x":{}},{"x":{}}]} PAYLOAD {} -> <aliases>/A/element-field-type: NoSuchAlias
"B":{"members":[{"x":{}},{"x":{}}]} PAYLOAD {} -> <aliases>/B/members/1/x: NameClash
"B":{"members":[{"x":null}]} PAYLOAD {} -> <aliases>/B/members/0/x: WrongKind
"#;

/// A circle of aliases, and what stands before its end.
pub const CIRCLES: &str = r#"
"P":{"class":"struct","members":[{"x":"nope"},{"y":"P"}]} PAYLOAD {} -> <aliases>/P/members/0/x: NoSuchAlias
"P":{"class":"struct","members":[{"y":"P"},{"x":"nope"}]} PAYLOAD {} -> <aliases>/P: InheritCycle
"P":{"$inherit":"Q","members":[{"x":"nope"}]},"Q":{"$inherit":"P"} PAYLOAD {} -> <aliases>/P: InheritCycle
"P":{"members":[{"x":{}},{"x":{}},{"y":"P"}]} PAYLOAD {} -> <aliases>/P/members/1/x: NameClash
"P":{"members":[{"x":{}},{"x":"P"}]} PAYLOAD {} -> <aliases>/P: InheritCycle
"P":{"members":[{"x":1},{"y":"P"}]} PAYLOAD {} -> <aliases>/P/members/0/x: WrongKind
"#;

/// Aliases that are each four of the one before.
pub const HEAVY_ALIASES: &str = r#"
<900 heavy aliases> PAYLOAD {} -> <aliases>/a5: Limit
"#;

/// What is left of a type, and what is replaced, count.
pub const LEFT: &str = r#"
# seventeen heavy layers, each replaced
<big> PAYLOAD <17 heavy layers, each replaced> -> ok
# two heavy members, replaced together
<big> PAYLOAD {"$inherit":{"members":[{"a":"big"},{"b":"big"}]},"members":null} -> <payload>/$inherit: Limit
# 33 levels, replaced
<deep> PAYLOAD {"$inherit":{"field-type":{"field-type":{"field-type":{"field-type":{"field-type":{"field-type":{"field-type":"deep"}}}}}}},"field-type":null} -> <payload>/$inherit: TooDeep
# 32 levels, replaced
<deep> PAYLOAD {"$inherit":{"field-type":{"field-type":{"field-type":{"field-type":{"field-type":{"field-type":"deep"}}}}}},"field-type":null} -> ok
"#;

/// A limit that what is inherited from passes stands at its place in the walk.
pub const INHERITED: &str = r#"
<big> PAYLOAD {"$inherit":{"members":[{"a":"big"},{"b":"big"}]},"members":[{"x":"nope"}]} -> <payload>/$inherit: Limit
<big> PAYLOAD {"$inherit":{"members":[{"a":"big"},{"b":"big"},{"c":"nope"}]},"members":null} -> <payload>/$inherit/members/2/c: NoSuchAlias
<big> PAYLOAD {"element-field-type":{"members":[{"x":{}},{"x":{}}]},"field-type":{"$inherit":{"members":[{"a":"big"},{"b":"big"}]},"members":null}} -> <payload>/element-field-type/members/1/x: NameClash
<big> PAYLOAD {"members":[{"x":{"$inherit":{"members":[{"a":"big"},{"b":"big"}]},"members":null}},{"x":{}}]} -> <payload>/members/0/x/$inherit: Limit
<big> PAYLOAD {"members":[{"x":{}},{"x":{"$inherit":{"members":[{"a":"big"},{"b":"big"}]},"members":null}}]} -> <payload>/members/1/x: NameClash
<big> PAYLOAD {"$inherit":{"$inherit":{"members":[{"a":"big"},{"b":"big"}]},"members":null},"members":[{"x":"nope"}]} -> <payload>/$inherit/$inherit: Limit
<big> PAYLOAD {"$inherit":{"$inherit":{"members":[{"a":"big"}]},"members":[{"b":"big"}]},"members":null} -> <payload>/$inherit: Limit
<big> PAYLOAD {"$inherit":{"members":[{"a":"big"}]},"members":[{"b":"big"}]} -> <payload>: Limit
<big> PAYLOAD {"$inherit":{"members":[{"a":"big"}]},"members":[{"b":"big"},{"c":"nope"}]} -> <payload>/members/1/c: NoSuchAlias
"#;

/// So it does in an alias, which may be resolved, or not, or lead into a circle.
pub const INHERITED_BY_ALIASES: &str = r#"
<big>,"heir":{"$inherit":{"members":[{"a":"big"},{"b":"big"}]},"members":[{"x":"nope"}]} PAYLOAD {} -> <aliases>/heir/$inherit: Limit
<big>,"area":"heir","heir":{"$inherit":{"members":[{"a":"big"},{"b":"big"}]},"members":null},"zone":"nope" PAYLOAD {} -> <aliases>/heir/$inherit: Limit
<big>,"area":"nope","heir":{"$inherit":{"members":[{"a":"big"},{"b":"big"}]},"members":null} PAYLOAD {} -> <aliases>/area: NoSuchAlias
<big>,"area":{"$inherit":{"members":[{"a":"big"},{"b":"big"},{"c":"heir"}]}},"heir":"nope" PAYLOAD {} -> <aliases>/heir: NoSuchAlias
<big>,"area":{"members":[{"a":"big"},{"b":"big"},{"c":"heir"}]},"heir":"nope" PAYLOAD {} -> <aliases>/heir: NoSuchAlias
<big>,"area":{"$inherit":{"members":[{"a":"big"},{"b":"big"}]},"members":[{"c":"heir"}]},"heir":"nope" PAYLOAD {} -> <aliases>/area/$inherit: Limit
<big>,"ring":{"$inherit":{"members":[{"a":"big"},{"b":"big"}]},"members":[{"c":"ring"}]} PAYLOAD {} -> <aliases>/ring/$inherit: Limit
<big>,"ring":{"$inherit":{"members":[{"a":"big"},{"b":"big"},{"c":"ring"}]},"members":null} PAYLOAD {} -> <aliases>/ring: InheritCycle
"#;

/// As many values as a type may hold, and one more.
pub const FULL: &str = r#"
<4,096 values> PAYLOAD {} -> ok
<4,097 values> PAYLOAD {} -> <aliases>/a: Limit
"#;

/// Many heirs, and long chains of heirs.
pub const HEAVY_HEIRS: &str = r#"
# many heirs
<big> PAYLOAD <4,000 heirs> -> <payload>: Limit
# long chains
<big> PAYLOAD <300 long chains> -> ok
"#;

/// Of the extra members of a packet context each has its faults before the limit that it passes, and all of that
/// before the next one.
pub const EXTRAS: &str = r#"
<big> EXTRAS {"x":{"members":[{"a":"big"},{"b":"big"}]}},{"y":"nope"} -> <extras>/0/x: Limit
<big> EXTRAS {"x":{"members":[{"a":"big"},{"b":"big"}]}},{"x":{}} -> <extras>/0/x: Limit
<big> EXTRAS {"x":"nope"},{"y":{"members":[{"a":"big"},{"b":"big"}]}} -> <extras>/0/x: NoSuchAlias
<big> EXTRAS {"x":{}},{"x":{"members":[{"a":"big"},{"b":"big"}]}} -> <extras>/1/x: NameClash
<big> EXTRAS {"x":{"$inherit":{"members":[{"a":"big"},{"b":"big"}]},"members":[{"c":"nope"}]}},{"y":"nope"} -> <extras>/0/x/$inherit: Limit
<big> EXTRAS {"x":{}},{"x":{"$inherit":{"members":[{"a":"big"},{"b":"big"}]},"members":null}} -> <extras>/1/x: NameClash
<big> EXTRAS {"x":{"members":[{"a":"big"},{"b":"big"},{"c":"nope"}]}} -> <extras>/0/x/members/2/c: NoSuchAlias
"#;

/// The extra members of a packet context are limited, and the entries of no other members list.
pub const MANY_MEMBERS: &str = r#"
"$field-type-aliases":{"many":{"members":[<257 members>]}} -> ok
"data-stream-types":{"s":{"packet-context-field-type-extra-members":[<256 members>]}} -> ok
"data-stream-types":{"s":{"packet-context-field-type-extra-members":[<257 members>]}} -> <extras>: Limit
"#;

/// More aliases than a configuration may have are resolved like fewer.
pub const MANY_ALIASES: &str = r#"
<1,024 objects> PAYLOAD "n1" -> ok
<1,024 objects>,"x":{} PAYLOAD "n1" -> ok
<1,025 names of no alias> PAYLOAD "a1" -> <aliases>/a0: NoSuchAlias
<1,024 objects>,"b":"nope" PAYLOAD "n1" -> <aliases>/b: NoSuchAlias
"#;

/// Chains of more aliases than a configuration may have, in either direction of their names.
pub const LONG_CHAINS: &str = r#"
<a chain of 1,024 aliases> PAYLOAD "a1" -> ok
<a chain of 1,100 aliases>,"b":"nope" PAYLOAD "a1" -> <aliases>/b: NoSuchAlias
<a chain of 1,100 aliases from its end> PAYLOAD "a1" -> ok
<a circle of 1,100 aliases> PAYLOAD "a1" -> <aliases>/a0: InheritCycle
"#;

/// In a chain of heirs the first that passes a limit is refused, and none of its own heirs for it.
pub const GROWING: &str = r#"
<a chain that grows> PAYLOAD "g0" -> <aliases>/g40: Limit
<a chain that grows from its end> PAYLOAD "h99" -> <aliases>/h59: Limit
"#;

/// An alias of many members that leads into a circle, or is refused, and another one that names it as often.
pub const OFTEN_NAMED: &str = r#"
"big":{"members":[<10,000 bytes>,{"z":"big"}]},"heir":{"members":[<10,000 heirs>]} PAYLOAD {} -> <aliases>/big: InheritCycle
"base":{"class":"uint","size":8},"big":{"members":[<10,000 bytes>,{"z":"nope"}]},"heir":{"members":[{"a":"base"},<10,000 heirs>]} PAYLOAD {} -> <aliases>/big/members/10000/z: NoSuchAlias
"#;
