//! Enumerations as fields.

pub const FIELDS: &str = r#"
{"class":"uenum","size":8,"mappings":{"A":[1]}} -> accepted
{"class":"unsigned-enum","size":8,"mappings":{"A":[0,[1,255]]}} -> accepted
{"class":"unsigned-enumeration","size":8,"mappings":{"A":[1]}} -> accepted
{"class":"senum","size":8,"mappings":{"A":[-128,[0,127]]}} -> accepted
{"class":"signed-enum","size":8,"mappings":{"A":[1],"B":[1]}} -> accepted
{"class":"signed-enumeration","size":8,"mappings":{"members":[1]}} -> accepted
{"class":"uenum","size":8} -> @/mappings: Missing
{"class":"uenum","size":8,"mappings":{}} -> @/mappings: OutOfRange
{"class":"uenum","size":8,"mappings":[1]} -> @/mappings: WrongKind
{"class":"uenum","size":8,"mappings":{"A":[]}} -> @/mappings/A: OutOfRange
{"class":"uenum","size":8,"mappings":{"A":1}} -> @/mappings/A: WrongKind
{"class":"uenum","size":8,"mappings":{"A":null}} -> @/mappings/A: WrongKind
{"class":"uenum","size":8,"mappings":{"A":[1,256]}} -> @/mappings/A/1: OutOfRange
{"class":"uenum","size":8,"mappings":{"A":[-1]}} -> @/mappings/A/0: OutOfRange
{"class":"senum","size":8,"mappings":{"A":[128]}} -> @/mappings/A/0: OutOfRange
{"class":"senum","size":8,"mappings":{"A":[-129]}} -> @/mappings/A/0: OutOfRange
{"class":"uenum","size":8,"mappings":{"A":[[5,4]]}} -> @/mappings/A/0: OutOfRange
{"class":"uenum","size":8,"mappings":{"A":[[1,2,3]]}} -> @/mappings/A/0: WrongKind
{"class":"uenum","size":8,"mappings":{"A":[true]}} -> @/mappings/A/0: WrongKind
{"class":"uenum","size":8,"mappings":{"A":[1]},"x":1} -> @/x: Unknown
{"class":"uenum","mappings":{"A":[1]}} -> @/size: Missing
{"class":"uenum","size":8,"mappings":{"A":[1]},"alignment":4096} -> accepted
{"class":"uenum","size":8,"mappings":{"A":[1]},"alignment":8192} -> @/alignment: Limit
{"class":"uenum","size":8,"mappings":{"A":[1]},"alignment":3} -> @/alignment: OutOfRange
{"class":"uenum","size":8,"mappings":{"A":[1]},"alignment":"8"} -> @/alignment: WrongKind
{"class":"uenum","size":8,"mappings":{"A":[1]},"alignment":null} -> accepted
{"class":"uenum","size":8,"mappings":{"A":[1]},"preferred-display-base":"hex"} -> accepted
{"class":"uenum","size":8,"mappings":{"A":[1]},"preferred-display-base":"sixteen"} -> @/preferred-display-base: OutOfRange
{"class":"uenum","size":8,"mappings":{"A":[1]},"preferred-display-base":16} -> @/preferred-display-base: WrongKind
{"class":"uenum","size":65,"mappings":{"A":[1]}} -> @/size: OutOfRange
{"class":"uenum","size":"8","mappings":{"A":[1]}} -> @/size: WrongKind
{"class":"uenum","size":8,"mappings":null} -> @/mappings: WrongKind
{"class":"senum","size":8,"mappings":{}} -> @/mappings: OutOfRange
{"class":"senum","size":8} -> @/mappings: Missing
{"class":"uenum","size":64,"mappings":{"A":[[0,18446744073709551615]]}} -> accepted
{"class":"senum","size":64,"mappings":{"A":[[-9223372036854775808,9223372036854775807]]}} -> accepted
{"class":"senum","size":64,"mappings":{"A":[9223372036854775808]}} -> @/mappings/A/0: OutOfRange
{"class":"uenum","size":1,"mappings":{"A":[0,1]}} -> accepted
{"class":"uenum","size":1,"mappings":{"A":[0,2]}} -> @/mappings/A/1: OutOfRange
{"class":"uenum","size":8,"mappings":{"A":[[0,256]]}} -> @/mappings/A/0: OutOfRange
{"class":"uenum","size":8,"mappings":{"A":[[5,5]]}} -> accepted
{"class":"uenum","size":8,"mappings":{"A":[[0,9],[5,20]],"B":[7]}} -> accepted
{"class":"uenum","size":8,"mappings":{"A":[[1]]}} -> @/mappings/A/0: WrongKind
{"class":"uenum","size":8,"mappings":{"A":[[]]}} -> @/mappings/A/0: WrongKind
{"class":"uenum","size":8,"mappings":{"A":[[1,"x"]]}} -> @/mappings/A/0/1: WrongKind
{"class":"uenum","size":8,"mappings":{"A":["x"]}} -> @/mappings/A/0: WrongKind
{"class":"uenum","size":8,"mappings":{"A":[null]}} -> @/mappings/A/0: WrongKind
{"class":"uenum","size":8,"mappings":{"A":[1.5]}} -> @/mappings/A/0: NotWhole
{"class":"uenum","size":8,"mappings":{"A":[1],"B":[]}} -> @/mappings/B: OutOfRange
{"class":"uenum","size":8,"mappings":{"A\n\tB":[1]}} -> accepted
{"class":"uenum","size":8,"mappings":{"not a name":[1],"":[2]}} -> accepted
{"class":"uenum","size":8,"mappings":{"field-type":[1],"members":[2],"$inherit":[3],"element-field-type":[4]}} -> accepted
"#;
