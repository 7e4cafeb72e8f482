//! Texts behind the magic line in which the grammar has no such token. The caret stands where the first fault is. A line each;
//! one that begins with `#` is a comment.

/// What the grammar does not allow where the caret stands, or a number or a name that is out of its range.
pub const SYNTAX: &str = r#"
# an end that comes too early
^
 trace^
 trace{^
 trace{major^
 trace{major=^
 trace{major=1^
 trace{major=1;^
 trace{byte_order=le;major=1;minor=8;}^
 event{fields:=struct{^
 event{fields:=struct{integer{size=8;}^
 event{fields:=struct{integer{size=8;}x[^
# the end of the text: no trace block, an event of no stream, each before a stream without sizes
 env{};^
 stream{};^
 trace{byte_order=le;major=1;minor=8;};event{name=e;};^
 trace{byte_order=le;major=1;minor=8;};stream{};event{name=e;stream_id=1;};^
# blocks
 ^;
 ^1{};
 ^"trace"{};
 ^{};
 ^}
 trace^;
 trace ^trace{};
 trace{byte_order=le;major=1;minor=8;} ^stream{};
 env{}^,
 env^=
# attributes and scopes
 trace{^=1;
 trace{^1=1;
 trace{^"major"=1;
 trace{major^;
 trace{major ^minor=8;
 trace{major^:1;
 trace{^.major=1;
 trace{a.^=1;
 trace{a.^1=1;
 trace{a.^.b=1;
 trace{a=^;
 trace{a=^{};
 trace{a=-^b;
 trace{a=-^-1;
 trace{a=b.^;
 trace{a=1^.5;
 trace{a=5ulL^u;
 trace{a=0^8;
 trace{a=0^X8;
 trace{a="b"^"c";
 trace{a=^18446744073709551616;
 trace{a=-^18446744073709551616;
 trace{a=18446744073709551615;^
 trace{a=0xffffffffffffffff;b=-18446744073709551615;c=01777777777777777777777;^
 trace{a=^0x10000000000000000;
 event{fields:=^integer{
 event{fields:=^{
 event{fields:=^s;
 event{fields:=struct ^s{
 event{fields:=struct{}^}
# trace
 trace{^};
 trace{byte_order=le;major=1;^};
 trace{byte_order=le;minor=8;^};
 trace{major=1;minor=8;^};
 trace{major=^"1";
 trace{major=^one;
 trace{major=^-1;
 trace{minor=^-8;
 trace{byte_order=^1;
 trace{byte_order=^"le";
 trace{uuid=^"2a6422d0";
 trace{uuid=^"";
 trace{uuid=^u;
 trace{uuid="2a6422d0-6cee-11e0-8c08-cb07d7b3a564";^
# stream
 stream{id=^-1;
 stream{id=^a;
 stream{id=^"0";
 stream{id=^18446744073709551616;
 stream{id=18446744073709551615;^
 stream{id=-0;^
# event
 event{^};
 event{id=1;^};
 event{name=^1;
 event{name=^a.b;
 event{name="";^
 event{id=^e;
 event{stream_id=^-2;
 event{stream_id=+2;loglevel=^-3;
 event{loglevel=^"3";
# clock
 clock{^};
 clock{freq=1;^};
 clock{name=^1;
 clock{name=^a.b;
 clock{uuid=^"2a6422d0-6cee-11e0-8c08";
 clock{description=^d;
 clock{freq=^-1;
 clock{freq=^"1";
 clock{precision=^-1;
 clock{offset=^-1;
 clock{offset_s=^s;
 clock{offset_s=^9223372036854775808;
 clock{offset_s=^-9223372036854775809;
 clock{offset_s=9223372036854775807;^
 clock{offset_s=-9223372036854775808;^
 clock{absolute=^2;
 clock{absolute=^-1;
 clock{absolute=^True;
 clock{absolute=^"true";
 clock{absolute=0x1;^
 clock{absolute=FALSE;^
# environment
 env{^"a"=1;
 env{a^:=1;
 env{a^.b=1;
 env{a=^b;
 env{a=1^}
 env{a=^9223372036854775808;
 env{a=^-9223372036854775809;
 env{a=9223372036854775807;b=-9223372036854775808;c="";^
# integers
 event{fields:=struct{integer^;
 event{fields:=struct{integer{^}x;
 event{fields:=struct{integer{align=8;^}x;
 event{fields:=struct{integer{size=8^}x;
 event{fields:=struct{integer{size^;}x;
 event{fields:=struct{integer{size^:=8;}x;
 event{fields:=struct{integer{size=^0;
 event{fields:=struct{integer{size=1;^
 event{fields:=struct{integer{size=64;^
 event{fields:=struct{integer{size=^65;
 event{fields:=struct{integer{size=^-8;
 event{fields:=struct{integer{size=^x;
 event{fields:=struct{integer{size=^"8";
 event{fields:=struct{integer{align=^0;
 event{fields:=struct{integer{align=^3;
 event{fields:=struct{integer{align=^12288;
 event{fields:=struct{integer{align=^-8;
 event{fields:=struct{integer{align=1;^
 event{fields:=struct{integer{align=4096;^
 event{fields:=struct{integer{signed=^2;
 event{fields:=struct{integer{signed=^yes;
 event{fields:=struct{integer{signed=^"true";
 event{fields:=struct{integer{signed=01;^
 event{fields:=struct{integer{byte_order=^1;
 event{fields:=struct{integer{byte_order=native;^
 event{fields:=struct{integer{base=^7;
 event{fields:=struct{integer{base=^"hex";
 event{fields:=struct{integer{base=0x10;^
 event{fields:=struct{integer{map=^1;
 event{fields:=struct{integer{map=^c;
 event{fields:=struct{integer{map=^clock.c;
 event{fields:=struct{integer{map=^clock.c.value.x;
 clock{name=c;};event{fields:=struct{integer{map=^stream.c.value;
 clock{name=c;};event{fields:=struct{integer{map=clock.^d.value;
 clock{name=c;};event{fields:=struct{integer{map=clock.c.value;^
 event{fields:=struct{integer{encoding=-1;^
# enumerations
 event{fields:=struct{enum ^e{
 event{fields:=struct{enum:^uint8_t{
 event{fields:=struct{enum:integer{size=8;}^x;
 event{fields:=struct{enum:integer{size=8;}{^,}x;
 event{fields:=struct{enum:integer{size=8;}{^1=1}x;
 event{fields:=struct{enum:integer{size=8;}{a^,b}x;
 event{fields:=struct{enum:integer{size=8;}{a=^b}x;
 event{fields:=struct{enum:integer{size=8;}{a=^"1"}x;
 event{fields:=struct{enum:integer{size=8;}{a=1 ^b=2}x;
 event{fields:=struct{enum:integer{size=8;}{a=1,^,b=2}x;
 event{fields:=struct{enum:integer{size=8;}{a=1...^}x;
 event{fields:=struct{enum:integer{size=8;}{a=2...^1}x;
 event{fields:=struct{enum:integer{size=8;}{a=-1...^-2}x;
 event{fields:=struct{enum:integer{size=8;}{a=0...^-1}x;
 event{fields:=struct{enum:integer{size=8;}{a=^18446744073709551616}x;
 event{fields:=struct{enum:integer{size=8;}{a=-1...-1,"a"=5,b=-18446744073709551615...18446744073709551615,}x;^
 event{fields:=struct{enum:integer{size=8;}{}x;^
# strings
 event{fields:=struct{string{^
 event{fields:=struct{string{encoding=^1;
 event{fields:=struct{string{encoding=^"UTF8";
 event{fields:=struct{string{}^;
 event{fields:=struct{string{encoding=none;}x;string{}^{};
# members
 event{fields:=struct{^;
 event{fields:=struct{^u8 x;
 event{fields:=struct{^event x;
 event{fields:=struct{^"x";
 event{fields:=struct{string^;
 event{fields:=struct{string ^1;
 event{fields:=struct{string x^}
 event{fields:=struct{string x ^y;
 event{fields:=struct{string x^=1;
 event{fields:=struct{string struct;string event;string align;string size;^
# brackets
 event{fields:=struct{string x[^];
 event{fields:=struct{string x[^-1];
 event{fields:=struct{string x[-0][+1];^
 event{fields:=struct{string x[^"1"];
 event{fields:=struct{string x[1^;
 event{fields:=struct{string x[1 ^2];
 event{fields:=struct{string x[^18446744073709551616];
 event{fields:=struct{integer{size=8;}n;string x[n^.y];
# alignments of structures
 event{fields:=struct{}^alignment(8);
 event{fields:=struct{}align ^8;
 event{fields:=struct{}align(^);
 event{fields:=struct{}align(^0);
 event{fields:=struct{}align(^6);
 event{fields:=struct{}align(^-8);
 event{fields:=struct{}align(^x);
 event{fields:=struct{}align(8^;
 event{fields:=struct{}align(1);context:=struct{string x;}align(4096);^
# what is allowed: names, lengths and limits that are reached and not passed
 event{fields=1;fields:=struct{};^
 event{name=a;id=1;};event{name=a;id=1;stream_id=1;};^
 event{fields:=struct{string x;};context:=struct{string x;};^
 event{fields:=struct{string id;string magic;string packet_size;^
 stream{event.header:=struct{string magic;string timestamp;string packet_size;^
 stream{event.header:=struct{integer{size=1;align=1;}id;^
 stream{packet.context:=struct{string id;string stream_id;integer{size=1;}packet_size;^
 trace{packet.header:=struct{integer{size=32;align=1;}magic;integer{size=8;}uuid[16];integer{size=1;}stream_id;^
 trace{byte_order=be;packet.header:=struct{integer{byte_order=network;^
 trace{byte_order=le;packet.header:=struct{integer{byte_order=native;^
 event{fields:=struct{integer{size=8;byte_order=be;}x;^,};};trace{byte_order=be;};
 event{fields:=struct{integer{size=8;map=clock.c.value;}x;^,};};clock{name="c";};
 event{fields:=struct{string x[1][1][1][1][1][1][1][1];^
 event{fields:=struct{integer{size=8;}n;string x[n][1][1][1][1][1][1][1][1];^
 event{fields:=struct{string x[8][8][8][8][8][8][4];^
 event{fields:=struct{string x[1048576];^
 event{fields:=struct{string x[0][1048576][0];^
 event{fields:=struct{integer{size=8;}n;string x[n][1048576];^
"#;
