ghost use Rattle.std.specs.Prelude.{MatchOption};
ghost use Rattle.list_texts.specs.Limits.{AreLimit, HaveLimit, words_of};

use crate::words::number_of;

/// The most bytes that a program takes, where its words are this one number: decimal digits without
/// sign or leading zero, below 2^64.
pub fn limit_of(words: &[String]) -> Option<u64>
    ensures { MatchOption result (¬ HaveLimit (words_of words.now))
        (λ limit. AreLimit (words_of words.now) limit) }
{
    match words {
        [word] => number_of(word.as_bytes()),
        _ => None,
    }
}
