//! What the fixed words of a configuration stand for.
ghost use Rattle.std.specs.Prelude.{◌≡◌, map};
ghost use Rattle.std.specs.List.{zip};
ghost use Rattle.conf_table.specs.Words.{words_of};
ghost use Rattle.conf_table.specs.declared.words.Words.TheVariants as choices;
ghost use Rattle.conf_values.specs.Words.{word_in, base_words, order_words};

use conf_table::{Words, words_in};
use ctf_types::Base::{self, Bin, Dec, Hex, Oct};
use ctf_types::ByteOrder::{self, Big, Little};

/// What each word of a display base stands for, in the order of the table's words.
static BASES: [Base; 8] = [Bin, Bin, Oct, Oct, Dec, Dec, Hex, Hex];

/// What each word of a byte order stands for, in the order of the table's words.
static ORDERS: [ByteOrder; 6] = [Little, Little, Little, Big, Big, Big];

/// The display base that this word stands for.
#[tactic(auto, unfolding(crate::specs::Words::base_words))]
pub fn base_word(word: &str) -> Option<Base>
    ensures { result ≡ word_in base_words word.now }
{
    meaning(words_in(Words::DisplayBase), &BASES, word)
}

/// The byte order that this word stands for.
#[tactic(auto, unfolding(crate::specs::Words::order_words))]
pub fn order_word(word: &str) -> Option<ByteOrder>
    ensures { result ≡ word_in order_words word.now }
{
    meaning(words_in(Words::ByteOrder), &ORDERS, word)
}

/// The meaning that stands where the word does.
fn meaning<T: Copy>(words: &'static [&'static str], meanings: &'static [T], word: &str) -> Option<T>
    ensures { result ≡ word_in (zip (map (λ w. w.now) words.now) meanings.now) word.now }
{
    for (other, meaning) in words.iter().zip(meanings) {
        if word == *other {
            return Some(*meaning);
        }
    }
    None
}

/// Each word of the table stands for something, and no other word does.
#[tactic(auto, unfolding(crate::specs::Words::base_words, crate::specs::Words::order_words, conf_table::specs::Words::words_of))]
pub fn words_of_the_table()
    ensures bases { map (λ row. row.0) base_words ≡ words_of choices.DisplayBase }
    ensures orders { map (λ row. row.0) order_words ≡ words_of choices.ByteOrder }
{}
