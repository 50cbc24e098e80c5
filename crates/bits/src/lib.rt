// Sets of bits held in 32-bit words, lowest first: one word, a slice of words.
#![tactic(auto)]

pub mod set;
pub mod word;

pub use set::{merge_at, merge_words, none_from, put_bit, test_bit, words_for};
pub use word::{below, bit_between, cut_word, merge_word};
