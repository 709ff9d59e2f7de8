ghost use Rattle.std.specs.Prelude.{◌≡◌, ◌≤◌, ◌++◌, ◌∷◌, ℕ, List, Some, codes, fold, length, map};
ghost use Rattle.std.specs.List.{join_with_byte};
ghost use Rattle.http_uri.specs.Grammar.{IsAuthority, IsScheme};
ghost use Rattle.http_uri.specs.Uri.{Spells, uri_text};
ghost use Rattle.http_uri.specs.declared.uri.Uri.{Uri};
ghost use Rattle.smithy_http.specs.QueryWriter.{before_pair, escaped_pair, with_pairs};
ghost use Rattle.smithy_http.specs.Escape.{base_set, escaped};
ghost use Rattle.smithy_http.specs.Label.{label_set};
ghost use Rattle.smithy_http.specs.Query.{ampersand, before_pieces, pair_text, query_of, with_piece};
ghost use Rattle.smithy_http.specs.Target.{IsAccepted, IsAuthorityAlone, Target, at_authority, target_of, target_text};
ghost use Rattle.smithy_http.specs.declared.label.EncodingStrategy.{EncodingStrategy};

/// Pieces that are written to a text one after another are `?` and the pieces with `&` between.
#[tactic(auto, using(crate::proofs::QueryLemmas::pieces_joined))]
pub fn pieces_are_joined()
    ensures { (text : List ℕ) (pieces : List (List ℕ)) → (fold with_piece (before_pieces text) pieces).text ≡ text ++ query_of pieces }
{}

/// Pairs that are added to a target one after another are joined by `&`, and follow `&` where its query wasn't empty.
#[tactic(auto, using(crate::proofs::QueryLemmas::pairs_joined))]
pub fn pairs_are_joined()
    ensures { (target : Target) (first : List ℕ × List ℕ) (more : List (List ℕ × List ℕ))
        → with_pairs target (first ∷ more)
        ≡ record target { query = Some (before_pair target.query ++ join_with_byte ampersand (map pair_text (first ∷ more))) } }
{}

/// A target that is built with escaped pairs more has exactly its parts, and so exactly its text.
#[tactic(auto, using(crate::proofs::TargetLemmas::pairs_read_back, crate::proofs::TargetLemmas::text_joined))]
pub fn pairs_are_read_back()
    ensures parts { (text : List ℕ) (base built : Uri) (pairs : List (List ℕ × List ℕ))
        → Spells text base → ¬ (IsAuthorityAlone (target_of base)) → Spells (target_text (with_pairs (target_of base) (map escaped_pair pairs))) built
        → target_of built ≡ with_pairs (target_of base) (map escaped_pair pairs) }
    ensures text { (uri : Uri) → uri_text uri ≡ target_text (target_of uri) }
{}

/// A label is accepted after a scheme, an authority and `/`, unless the target passes 65,534 bytes.
#[tactic(auto, using(crate::proofs::FitLemmas::label_fits))]
pub fn labels_fit()
    ensures { (scheme authority text : List ℕ) (strategy : EncodingStrategy) → IsScheme scheme → IsAuthority authority
        → length (at_authority scheme authority (codes "/" ++ escaped (label_set strategy) text)) ≤ 65534
        → IsAccepted (at_authority scheme authority (codes "/" ++ escaped (label_set strategy) text)) }
{}

/// An escaped text is accepted as a query after a scheme, an authority and `/?`, unless the target passes 65,534 bytes.
#[tactic(auto, using(crate::proofs::FitLemmas::query_part_fits))]
pub fn query_parts_fit()
    ensures { (scheme authority text : List ℕ) → IsScheme scheme → IsAuthority authority
        → length (at_authority scheme authority (codes "/?" ++ escaped base_set text)) ≤ 65534
        → IsAccepted (at_authority scheme authority (codes "/?" ++ escaped base_set text)) }
{}
