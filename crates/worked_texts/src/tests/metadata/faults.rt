//! Texts behind the magic line that denote nothing. The caret stands where the first fault is. A line each;
//! one that begins with `#` is a comment.

/// A construct that is not read where the caret stands, and its name behind an arrow.
pub const UNSUPPORTED: &str = r#"
# blocks
 trace{^floating_point} -> Unsupported("floating_point")
 ^typealias integer{size=8;}:=u8; -> Unsupported("typealias")
 ^typedef -> Unsupported("typedef")
 ^struct s{}; -> Unsupported("struct")
 ^callsite{}; -> Unsupported("callsite")
 ^variant{}; -> Unsupported("variant")
 ^integer{}; -> Unsupported("integer")
 ^traces{}; -> Unsupported("traces")
 env{};^environment{}; -> Unsupported("environment")
# the keywords that are not read, wherever a word stands
 ^_Bool -> Unsupported("_Bool")
 trace{^_Complex=1; -> Unsupported("_Complex")
 trace{a.^_Imaginary=1; -> Unsupported("_Imaginary")
 trace{a=^void; -> Unsupported("void")
 trace{a=b.^int; -> Unsupported("int")
 trace{a=1 ^long; -> Unsupported("long")
 trace{a=-^short; -> Unsupported("short")
 trace{byte_order=^float; -> Unsupported("float")
 trace{major=1;minor=8;byte_order=le;}^const; -> Unsupported("const")
 event{name=^char; -> Unsupported("char")
 clock{name=c;description=^double; -> Unsupported("double")
 env{^unsigned=1; -> Unsupported("unsigned")
 env{a=^unsigned; -> Unsupported("unsigned")
 event{fields:=^variant{ -> Unsupported("variant")
 event{fields:=struct{^floating_point{ -> Unsupported("floating_point")
 event{fields:=struct{^unsigned int x; -> Unsupported("unsigned")
 event{fields:=struct{^const integer{size=8;}x; -> Unsupported("const")
 event{fields:=struct{enum:^unsigned -> Unsupported("unsigned")
 event{fields:=struct{enum:integer{size=8;}{^double=1 -> Unsupported("double")
 event{fields:=struct{string ^long; -> Unsupported("long")
 event{fields:=struct{string x[^int]; -> Unsupported("int")
 event{fields:=struct{integer{^typedef=1; -> Unsupported("typedef")
# the trace's version and byte order
 trace{major=^2; -> Unsupported("major")
 trace{major=^0; -> Unsupported("major")
 trace{major=1;minor=^9; -> Unsupported("minor")
 trace{byte_order=^network; -> Unsupported("network")
 trace{byte_order=^native; -> Unsupported("native")
 trace{byte_order=^LE; -> Unsupported("LE")
# scopes of another block
 trace{^packet.context:=struct{ -> Unsupported("packet.context")
 trace{^fields:=struct{ -> Unsupported("fields")
 stream{^packet.header:=struct{ -> Unsupported("packet.header")
 stream{^event.fields:=struct{ -> Unsupported("event.fields")
 stream{^packet:=struct{ -> Unsupported("packet")
 event{^event.context:=struct{ -> Unsupported("event.context")
 event{^fields.x:=struct{ -> Unsupported("fields.x")
 clock{^fields:=struct{ -> Unsupported("fields")
# structures in structures, attributes that integers and strings have not
 event{fields:=struct{^struct{}x; -> Unsupported("struct")
 event{fields:=struct{^struct s x; -> Unsupported("struct")
 event{fields:=struct{integer{^length=8; -> Unsupported("length")
 event{fields:=struct{integer{size=8;^content.type=8; -> Unsupported("content.type")
 event{fields:=struct{string{^size=8; -> Unsupported("size")
 event{fields:=struct{string{encoding=utf8;^align=8; -> Unsupported("align")
# words for bases, byte orders and encodings
 event{fields:=struct{integer{base=^hexa; -> Unsupported("hexa")
 event{fields:=struct{integer{base=^dec.x; -> Unsupported("dec.x")
 event{fields:=struct{integer{byte_order=^le; -> Unsupported("le")
 event{fields:=struct{string{encoding=^UTF16; -> Unsupported("UTF16")
 trace{byte_order=le;packet.header:=struct{integer{byte_order=^be; -> Unsupported("be")
 trace{byte_order=le;packet.header:=struct{integer{byte_order=^network; -> Unsupported("network")
 trace{byte_order=be;packet.header:=struct{integer{byte_order=^le; -> Unsupported("le")
 event{fields:=struct{integer{byte_order=^le;};};};trace{byte_order=be;}; -> Unsupported("le")
 event{fields:=struct{integer{byte_order=^le;};};};trace{byte_order="le";}; -> Unsupported("le")
# members in any bracket but the first
 event{fields:=struct{string x[2][^n]; -> Unsupported("n")
 event{fields:=struct{integer{size=8;}n;string x[n][^n]; -> Unsupported("n")
# members whose names have a meaning
 trace{packet.header:=struct{integer{size=16;}^magic; -> Unsupported("magic")
 trace{packet.header:=struct{integer{size=32;signed=1;}^magic; -> Unsupported("magic")
 trace{packet.header:=struct{integer{size=32;}^magic[1]; -> Unsupported("magic")
 trace{packet.header:=struct{enum:integer{size=32;}{}^magic; -> Unsupported("magic")
 trace{packet.header:=struct{string ^magic; -> Unsupported("magic")
 trace{packet.header:=struct{integer{size=8;}^uuid; -> Unsupported("uuid")
 trace{packet.header:=struct{integer{size=8;}^uuid[15]; -> Unsupported("uuid")
 trace{packet.header:=struct{integer{size=8;}^uuid[16][1]; -> Unsupported("uuid")
 trace{packet.header:=struct{integer{size=8;}n;integer{size=8;}^uuid[n]; -> Unsupported("uuid")
 trace{packet.header:=struct{integer{size=8;signed=1;}^uuid[16]; -> Unsupported("uuid")
 trace{packet.header:=struct{integer{size=8;align=4;}^uuid[16]; -> Unsupported("uuid")
 trace{packet.header:=struct{integer{size=16;}^uuid[16]; -> Unsupported("uuid")
 trace{packet.header:=struct{string ^uuid[16]; -> Unsupported("uuid")
 trace{packet.header:=struct{integer{size=8;signed=1;}^stream_id; -> Unsupported("stream_id")
 trace{packet.header:=struct{string ^stream_id; -> Unsupported("stream_id")
 stream{event.header:=struct{enum:integer{size=8;}{}^id; -> Unsupported("id")
 stream{event.header:=struct{integer{size=8;}^id[1]; -> Unsupported("id")
 stream{packet.context:=struct{string ^packet_size; -> Unsupported("packet_size")
 stream{packet.context:=struct{integer{size=8;signed=1;}^content_size; -> Unsupported("content_size")
 stream{packet.context:=struct{integer{size=8;}^timestamp_begin[1]; -> Unsupported("timestamp_begin")
 stream{packet.context:=struct{enum:integer{size=8;}{}^timestamp_end; -> Unsupported("timestamp_end")
 stream{packet.context:=struct{string ^events_discarded; -> Unsupported("events_discarded")
 stream{packet.context:=struct{string ^packet_seq_num; -> Unsupported("packet_seq_num")
"#;

/// What stands where the caret stands for the second time.
pub const DUPLICATE: &str = r#"
# blocks
 trace{byte_order=le;major=1;minor=8;};^trace{
 env{};^env{
# attributes, also those that are passed over, and scopes
 trace{major=1;^major=1;
 trace{a=1;^a=2;
 trace{a.b=1;a=1;^a.b=2;
 trace{packet.header:=struct{};^packet.header:=struct{};
 stream{id=0;^id=1;
 event{name=e;id=1;^name=e;
 event{fields:=struct{};context:=struct{};^fields:=struct{};
 clock{name=c;freq=1;^freq=1;
 event{fields:=struct{integer{size=8;^size=8;
 event{fields:=struct{integer{encoding=a;size=8;^encoding=b;
 event{fields:=struct{string{encoding=utf8;^encoding=utf8;
# members and environment names
 event{fields:=struct{string x;string y;string ^x;
 event{fields:=struct{integer{size=8;}n;string n1[n];integer{size=8;}^n1;
 env{a=1;^a=2;};
 env{a=1;b="";^a="";
# clocks, streams and events
 clock{name=c;};clock{name=^c;
 clock{name=c;};clock{name=^"c";
 stream{};stream{^};
 stream{id=1;};stream{id=^0x1;
 stream{};stream{id=^0;
 stream{id=0;};stream{^};
 event{name=a;};event{name=b;^};
 event{name=a;id=1;stream_id=2;};event{name=b;stream_id=2;id=1;^};
 event{name=a;stream_id=1;};event{name=a;};event{stream_id=1;name=b;^};
"#;

/// A stream without the sizes of its packets. The caret stands at the end of the text.
pub const NO_PACKET_SIZE: &str = r"
 trace{byte_order=le;major=1;minor=8;};stream{};^
 stream{};trace{byte_order=le;major=1;minor=8;};event{name=e;};^
 trace{byte_order=le;major=1;minor=8;};stream{packet.context:=struct{};};^
 trace{byte_order=le;major=1;minor=8;};stream{packet.context:=struct{integer{size=8;}packet_size;};};^
 trace{byte_order=le;major=1;minor=8;};stream{packet.context:=struct{integer{size=8;}content_size;};};^
 trace{byte_order=le;major=1;minor=8;};stream{event.context:=struct{integer{size=8;}packet_size;integer{size=8;}content_size;};};^
 trace{byte_order=le;major=1;minor=8;};stream{id=1;packet.context:=struct{integer{size=8;}packet_size;integer{size=8;}content_size;};};stream{};^
";

/// A sequence's length that is no unsigned integer member before it.
pub const BAD_LENGTH: &str = r"
 event{fields:=struct{integer{size=8;}x[^x];
 event{fields:=struct{integer{size=8;signed=true;}n;string x[^n];
 event{fields:=struct{string n;string x[^n];
 event{fields:=struct{enum:integer{size=8;}{}n;string x[^n];
 event{fields:=struct{integer{size=8;}n[1];string x[^n];
 event{fields:=struct{integer{size=8;}n;integer{size=8;}m[n];string x[^m];
 event{fields:=struct{string x[^n];integer{size=8;}n;
 event{fields:=struct{integer{size=8;}n;string x[^N];
 event{fields:=struct{string x[^event.n];
 event{context:=struct{integer{size=8;}n;};fields:=struct{string x[^n];
 stream{packet.context:=struct{integer{size=8;}n;};event.context:=struct{string x[^n];
# before the name's own flaw
 trace{packet.header:=struct{string magic[^n];
";

/// More array lengths or elements than are read, a sequence of elements without bits, and a large alignment.
pub const LIMIT: &str = r"
 event{fields:=struct{string x[1][1][1][1][1][1][1][1][^1];
 event{fields:=struct{integer{size=8;}n;string x[n][1][1][1][1][1][1][1][1][^1];
 event{fields:=struct{string x[8][8][8][8][8][8][^8][8];
 event{fields:=struct{string x[^1048577];
 event{fields:=struct{string x[1024][^1025];
 event{fields:=struct{string x[0][^1048577];
 event{fields:=struct{string x[1048576][0][^2];
 event{fields:=struct{string x[^4294967296][4294967296];
 event{fields:=struct{string x[2][^18446744073709551615];
 event{fields:=struct{integer{size=8;}n;string x[n][^1048577];
 event{fields:=struct{integer{size=8;}n;string x[n][^0];
 event{fields:=struct{integer{size=8;}n;string x[n][2][^0];
 event{fields:=struct{integer{align=^8192;
 event{fields:=struct{integer{align=^0x8000000000000000;
 event{fields:=struct{}align(^8192);
";

/// As many names as are read, and one more. What stands in angle brackets is a word.
pub const NAMES: &str = r"
 event{fields:=struct{<1,024 strings>^ -> Syntax
 event{fields:=struct{<1,024 strings>string ^x; -> Limit
 env{<256 variables>^ -> Syntax
 env{<256 variables>^x=1; -> Limit
 event{fields:=struct{enum:integer{size=8;}{<65,536 labels>^ -> Syntax
 event{fields:=struct{enum:integer{size=8;}{<65,536 labels>^x=0 -> Limit
";
