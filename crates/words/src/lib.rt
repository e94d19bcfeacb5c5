// The one word by which an exported call answers. docs/HOST.md describes it.
#![tactic(auto)]

mod word;

pub use word::{Word, answer_word, match_word, refusal_word};
