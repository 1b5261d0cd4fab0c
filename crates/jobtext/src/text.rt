// Words as texts.
ghost use Rattle.std.specs.Prelude.{◌≡◌, Decides};
ghost use Rattle.std.specs.Str.{bytes_eq};

// Whether the word is this text.
#[tactic(auto, using(crate::proofs::Same::same_words))]
pub fn is_text(word: &[u8], text: &str) -> bool
    ensures value { result ≡ bytes_eq word.now text.now }
    ensures decides { Decides result (word.now ≡ text.now) }
{
    word == text.as_bytes()
}
