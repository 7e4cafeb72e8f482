//! Integers as fields.

pub const FIELDS: &str = r#"
{"class":"uint","size":1} -> accepted
{"class":"uint","size":64} -> accepted
{"class":"uint","size":0} -> @/size: OutOfRange
{"class":"uint","size":65} -> @/size: OutOfRange
{"class":"uint"} -> @/size: Missing
{"class":"uint","size":null} -> @/size: WrongKind
{"class":"uint","size":"8"} -> @/size: WrongKind
{"class":"uint","size":8,"alignment":4096} -> accepted
{"class":"uint","size":8,"alignment":8192} -> @/alignment: Limit
{"class":"uint","size":8,"alignment":3} -> @/alignment: OutOfRange
{"class":"uint","size":8,"alignment":0} -> @/alignment: OutOfRange
{"class":"uint","size":8,"alignment":"8"} -> @/alignment: WrongKind
{"class":"uint","size":8,"alignment":null} -> accepted
{"class":"uint","size":8,"preferred-display-base":"binary"} -> accepted
{"class":"uint","size":8,"preferred-display-base":"bin"} -> accepted
{"class":"uint","size":8,"preferred-display-base":"octal"} -> accepted
{"class":"uint","size":8,"preferred-display-base":"oct"} -> accepted
{"class":"uint","size":8,"preferred-display-base":"decimal"} -> accepted
{"class":"uint","size":8,"preferred-display-base":"dec"} -> accepted
{"class":"uint","size":8,"preferred-display-base":"hexadecimal"} -> accepted
{"class":"uint","size":8,"preferred-display-base":"hex"} -> accepted
{"class":"uint","size":8,"preferred-display-base":"sixteen"} -> @/preferred-display-base: OutOfRange
{"class":"uint","size":8,"preferred-display-base":16} -> @/preferred-display-base: WrongKind
{"class":"uint","size":8,"length":3} -> @/length: Unknown
{"class":"unsigned-integer","size":8} -> accepted
{"class":"unsigned-int","size":8} -> accepted
{"class":"signed-integer","size":8} -> accepted
{"class":"signed-int","size":8} -> accepted
{"class":"sint","size":64} -> accepted
{"class":"sint","size":65} -> @/size: OutOfRange
{"class":"int","size":8} -> @/class: OutOfRange
{"class":8,"size":8} -> @/class: WrongKind
{"class":null,"size":8} -> @/class: WrongKind
{"size":8} -> @/class: Missing
8 -> @: WrongKind
null -> @: WrongKind
"nope" -> @: NoSuchAlias
{"$inherit":"nope"} -> @/$inherit: NoSuchAlias
{"class":"uint","size":8.5} -> @/size: NotWhole
{"class":"uint","alignment":3} -> @/size: Missing
{"class":"uint","size":-1} -> @/size: OutOfRange
{"class":"uint","size":true} -> @/size: WrongKind
{"class":"sint","size":1} -> accepted
{"class":"sint","size":0} -> @/size: OutOfRange
{"class":"uint","size":8,"alignment":1} -> accepted
{"class":"uint","size":8,"alignment":-8} -> @/alignment: OutOfRange
{"class":"uint","size":8,"alignment":12288} -> @/alignment: OutOfRange
{"class":"sint","size":8,"alignment":4096} -> accepted
{"class":"sint","size":8,"alignment":8192} -> @/alignment: Limit
{"class":"sint","size":8,"alignment":6} -> @/alignment: OutOfRange
{"class":"sint","size":8,"preferred-display-base":"oct"} -> accepted
{"class":"sint","size":8,"preferred-display-base":"base"} -> @/preferred-display-base: OutOfRange
{"class":"uint","size":8,"preferred-display-base":null} -> accepted
{"class":"uint","size":8,"preferred-display-base":"Hex"} -> @/preferred-display-base: OutOfRange
{"class":"uint","size":65,"alignment":3} -> @/alignment: OutOfRange
{"class":"uint","size":65,"extra":1} -> @/extra: Unknown
{"class":"uint","size":65,"zero":1} -> @/size: OutOfRange
{"class":"uint","size":8,"mappings":{"A":[1]}} -> @/mappings: Unknown
[] -> @: WrongKind
true -> @: WrongKind
"#;
