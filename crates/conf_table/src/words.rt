//! The fixed words of a configuration.
ghost use Rattle.std.specs.Prelude.{◌≡◌, map};
ghost use Rattle.conf_table.specs.Words.{words_of};

/// A choice of words.
#[derive(Clone, Copy, Debug, PartialEq, Eq)]
pub enum Words {
    ByteOrder,
    DisplayBase,
}

static BYTE_ORDERS: [&str; 6] = ["little-endian", "little", "le", "big-endian", "big", "be"];

static DISPLAY_BASES: [&str; 8] = [
    "binary",
    "bin",
    "octal",
    "oct",
    "decimal",
    "dec",
    "hexadecimal",
    "hex",
];

/// The words of a choice, those of one meaning beside one another.
#[tactic(auto, unfolding(crate::specs::Words::words_of))]
pub fn words_in(choice: Words) -> &'static [&'static str]
    ensures { map (λ w. w.now) result.now ≡ words_of choice }
{
    match choice {
        Words::ByteOrder => &BYTE_ORDERS,
        Words::DisplayBase => &DISPLAY_BASES,
    }
}
