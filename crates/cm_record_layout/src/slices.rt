//! Parts of a list of words.
ghost use Rattle.std.specs.Prelude.{◌≡◌, ◌≤◌, length, drop};

/// The words from a place on.
#[tactic(auto, using(std::proofs::lemmas::List::take_rest))]
pub fn words_from(words: &[u64], at: usize) -> &[u64]
    requires { at ≤ length words.now }
    ensures { result.now ≡ drop at words.now }
{
    &words[at..]
}
