ghost use Rattle.std.specs.Prelude.{◌≡◌, ℕ, List, [], ◌∷◌, ◌++◌, Ok, Some};
ghost use Rattle.std.specs.Option.{option_or};
ghost use Rattle.smithy_core.specs.TextPairs.{lower};
ghost use Rattle.env_config.specs.Laws.{value_in};
ghost use Rattle.env_config.specs.Sections.{FileText, Key, Sections, sections, value_at_key};

/// In parsed files the value of a key is found under every name that differs from the key in case alone.
#[tactic(auto, using(crate::proofs::LowerLemmas::profile_found, crate::proofs::LowerLemmas::session_found))]
pub fn found_in_any_case()
    ensures profiles { (files : List FileText) (merged : Sections) (name key value asked : List ℕ) → sections files ≡ Ok merged → value_in merged.profiles name key ≡ Some value
        → lower asked ≡ lower key → value_in merged.profiles name (lower asked) ≡ Some value }
    ensures sessions { (files : List FileText) (merged : Sections) (name key value asked : List ℕ) → sections files ≡ Ok merged → value_in merged.sessions name key ≡ Some value
        → lower asked ≡ lower key → value_in merged.sessions name (lower asked) ≡ Some value }
{}

/// A later file wins key by key: the value of a key is the one that the last file gives by itself, or else the one that
/// the files before it give.
#[tactic(auto, using(crate::proofs::LaterLemmas::later_profile, crate::proofs::LaterLemmas::later_session, crate::proofs::LaterLemmas::later_other))]
pub fn later_file_wins()
    ensures profiles { (files : List FileText) (file : FileText) (before alone after : Sections) (name key : List ℕ) → sections files ≡ Ok before → sections (file ∷ []) ≡ Ok alone → sections (files ++ file ∷ []) ≡ Ok after
        → value_in after.profiles name key ≡ option_or (value_in alone.profiles name key) (value_in before.profiles name key) }
    ensures sessions { (files : List FileText) (file : FileText) (before alone after : Sections) (name key : List ℕ) → sections files ≡ Ok before → sections (file ∷ []) ≡ Ok alone → sections (files ++ file ∷ []) ≡ Ok after
        → value_in after.sessions name key ≡ option_or (value_in alone.sessions name key) (value_in before.sessions name key) }
    ensures others { (files : List FileText) (file : FileText) (before alone after : Sections) (key : Key) → sections files ≡ Ok before → sections (file ∷ []) ≡ Ok alone → sections (files ++ file ∷ []) ≡ Ok after
        → value_at_key after.others key ≡ option_or (value_at_key alone.others key) (value_at_key before.others key) }
{}
