ghost use Rattle.std.specs.Prelude.{◌≡◌, ◌<◌, List, [], ◌∷◌, MatchOption, option_map};
ghost use Rattle.std.specs.Iterator.{YieldsFirstBy, item_count};
ghost use Rattle.smithy_core.specs.TextPairs.{first_value, lower, named_values, text_pairs};

use crate::lower::is_lower_of;
use std::marker::Model;

/// Gives the values of one name of [`Headers`](crate::Headers) in order.
///
/// Contracts see the list of the values that are left.
#[derive(Drop)]
pub struct HeaderValues<'a> {
    left: &'a [(String, String)],
    name: &'a str,
}

impl<'a> Model for HeaderValues<'a> {
    ghost use Rattle.std.specs.Prelude.{ℕ, List};
    ghost use Rattle.smithy_core.specs.TextPairs.{lower, named_values, text_pairs};

    ghost Value = { List (List ℕ) };

    ghost view = { λ values. named_values (text_pairs values.left.now) (lower values.name.now) };
}

impl<'a> HeaderValues<'a> {
    // Gives the values of the name in these pairs.
    pub(crate) fn over(pairs: &'a [(String, String)], name: &'a str) -> HeaderValues<'a>
        ensures { result ≡ named_values (text_pairs pairs.now) (lower name.now) }
    {
        HeaderValues { left: pairs, name }
    }
}

impl<'a> Iterator for HeaderValues<'a> {
    type Item = &'a str;

    ghost next_gives = { YieldsFirstBy (λ item. item.now) (λ values. values) };

    ghost remaining = { item_count (λ values. values) };

    fn next(&mut self) -> Option<&'a str> {
        let (value, others) = after_named(self.left, self.name)?;
        self.left = others;
        Some(value)
    }
}

/// The first value of the name, and the pairs after it.
pub(crate) fn after_named<'a>(
    pairs: &'a [(String, String)],
    name: &str,
) -> Option<(&'a str, &'a [(String, String)])>
    ensures first { option_map (λ found. found.0.now) result ≡ first_value (text_pairs pairs.now) (lower name.now) }
    ensures values { MatchOption result (named_values (text_pairs pairs.now) (lower name.now) ≡ [])
        (λ found. named_values (text_pairs pairs.now) (lower name.now) ≡ found.0.now ∷ named_values (text_pairs found.1.now) (lower name.now)) }
{
    for (at, pair) in pairs.iter().enumerate() {
        if is_lower_of(pair.0.as_str(), name) {
            return Some((pair.1.as_str(), &pairs[at + 1..]));
        }
    }
    None
}
