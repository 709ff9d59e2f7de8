ghost use Rattle.std.specs.Prelude.{◌≡◌};
ghost use Rattle.request_check.specs.SealTexts.{has_space};

/// Whether the text holds a space.
#[tactic(auto, unfolding(crate::specs::SealTexts::has_space))]
pub(crate) fn has_space(text: &str) -> bool
    ensures { result ≡ has_space text.now }
{
    text.as_bytes().iter().any(|b| *b == b' ')
}
