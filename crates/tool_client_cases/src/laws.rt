ghost use Rattle.std.specs.Prelude.{◌≡◌, [], ◌∷◌, codes};
ghost use Rattle.aws_intercept.specs.Metric.{id_at};
ghost use Rattle.aws_intercept.specs.MetricIds.{fitted};
ghost use Rattle.aws_intercept.specs.Recursion.{escaped_trace};

/// What the definitions say where no call can show it: the ids of places past the last metric, as the tests of the SDK for Rust
/// ask.
#[tactic(auto, unfolding(aws_intercept::specs::Metric::id_at, aws_intercept::specs::Metric::sign))]
pub fn ids_count_on()
    ensures two_signs { id_at 127 ≡ codes "A-" }
    ensures next_sign { id_at 128 ≡ codes "BA" }
    ensures later { id_at 349 ≡ codes "Ed" }
{}

/// What is left of ids by another limit than that of agents, as the tests of the SDK for Rust ask.
#[tactic(auto, unfolding(aws_intercept::specs::MetricIds::fitted))]
pub fn ids_that_do_not_fit()
    ensures within { fitted 5 (codes "A,10BC,E") ≡ codes "A" }
    ensures comma_last { fitted 5 (codes "A10B,CE") ≡ codes "A10B" }
    ensures comma_behind { fitted 5 (codes "A10BC,E") ≡ codes "A10BC" }
    ensures no_comma { fitted 5 (codes "A10BCE") ≡ codes "A10BC" }
    ensures one { fitted 5 (codes "A") ≡ codes "A" }
    ensures two { fitted 5 (codes "A,B") ≡ codes "A,B" }
{}

/// The escapes of the bytes that stand in no text.
#[tactic(auto, unfolding(aws_intercept::specs::Recursion::escaped_trace, percent_encoding::specs::Percent::percent_encode_byte))]
pub fn escapes_of_stray_bytes()
    ensures { escaped_trace (192 ∷ 193 ∷ 245 ∷ 246 ∷ 247 ∷ 248 ∷ 249 ∷ 250 ∷ 251 ∷ 252 ∷ 253 ∷ 254 ∷ 255 ∷ []) ≡ codes "%C0%C1%F5%F6%F7%F8%F9%FA%FB%FC%FD%FE%FF" }
{}
