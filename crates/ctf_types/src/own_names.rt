//! The members of a packet context that have a meaning of their own (CTF 1.8.3, section 5.2).

ghost use Rattle.std.specs.Prelude.{◌≡◌, map};
ghost use Rattle.std.specs.List.{list_any};
ghost use Rattle.std.specs.Str.{bytes_eq};
ghost use Rattle.ctf_types.specs.Packets.{own_names};

/// Their names. Those of the two sizes come first.
pub static OWN_NAMES: [&str; 6] = [
    "packet_size",
    "content_size",
    "timestamp_begin",
    "timestamp_end",
    "events_discarded",
    "packet_seq_num",
];

/// Whether a member of a packet context of this name has a meaning of its own.
pub fn is_own_name(name: &str) -> bool
    ensures { result ≡ list_any (bytes_eq name.now) own_names }
{
    is_among(name, &OWN_NAMES)
}

/// Whether a word is among these.
pub fn is_among(word: &str, words: &[&str]) -> bool
    ensures { result ≡ list_any (bytes_eq word.now) (map (λ w. w.now) words.now) }
{
    words.iter().any(|other| word == *other)
}
