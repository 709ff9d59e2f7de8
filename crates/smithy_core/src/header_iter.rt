ghost use Rattle.std.specs.Prelude.{◌≡◌};
ghost use Rattle.std.specs.Iterator.{YieldsFirstBy, item_count};
ghost use Rattle.smithy_core.specs.TextPairs.{text_pairs};

use std::marker::Model;

/// Gives the pairs of [`Headers`](crate::Headers) in order.
///
/// Contracts see the list of the pairs that are left.
#[derive(Drop)]
pub struct HeaderIter<'a> {
    left: &'a [(String, String)],
}

impl<'a> Model for HeaderIter<'a> {
    ghost use Rattle.std.specs.Prelude.{ℕ, List};
    ghost use Rattle.smithy_core.specs.TextPairs.{text_pairs};

    ghost Value = { List (List ℕ × List ℕ) };

    ghost view = { λ iter. text_pairs iter.left.now };
}

impl<'a> HeaderIter<'a> {
    // Gives these pairs.
    pub(crate) fn over(pairs: &'a [(String, String)]) -> HeaderIter<'a>
        ensures { result ≡ text_pairs pairs.now }
    {
        HeaderIter { left: pairs }
    }
}

impl<'a> Iterator for HeaderIter<'a> {
    type Item = (&'a str, &'a str);

    ghost next_gives = { YieldsFirstBy (λ item. (item.0.now, item.1.now)) (λ iter. iter) };

    ghost remaining = { item_count (λ iter. iter) };

    fn next(&mut self) -> Option<(&'a str, &'a str)> {
        let (first, others) = self.left.split_first()?;
        self.left = others;
        Some((first.0.as_str(), first.1.as_str()))
    }
}
