ghost use Rattle.std.specs.Prelude.{◌≡◌, option_map};
ghost use Rattle.sr_text.specs.Fronts.{after_word};

/// What follows a word at the front.
pub(crate) fn after_word<'a>(word: &[u8], bytes: &'a [u8]) -> Option<&'a [u8]>
    ensures { option_map (λ x. x.now) result ≡ after_word word.now bytes.now }
{
    bytes.strip_prefix(word)
}
