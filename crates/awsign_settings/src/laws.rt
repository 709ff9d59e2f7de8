//! What settings that are printed say of a signature, and what they don't.
ghost use Rattle.std.specs.Prelude.{◌≡◌, ℕ, List, codes};
ghost use Rattle.smithy_core.specs.TextPairs.{last_value};
ghost use Rattle.env_config.specs.Sections.{FileText, sections};
ghost use Rattle.aws_settings.specs.Choice.{choice_by, profile_of};
ghost use Rattle.awsign_words.specs.Words.{OptionValues, has};
ghost use Rattle.awsign_run.specs.Chosen.{asked_profile};
ghost use Rattle.awsign_settings.specs.Own.{own_profiles};
ghost use Rattle.awsign_settings.specs.Settings.{UsedSettings};
ghost use Rattle.awsign_settings.specs.Lines.{settings_text, with_secrets};
ghost use Rattle.awsign_settings.specs.UsedLaws.{printed_choice};

/// The settings that are printed are those that a request is signed with: by the same options, variables and texts of profile files the same
/// key and region are chosen, or the same is missed.
pub fn settings_are_used()
    ensures { (options : OptionValues) (env : List (List ℕ × List ℕ)) (files : List FileText) → printed_choice options env (own_profiles (asked_profile options env) files)
        ≡ choice_by (has options (codes "--profile")) (last_value options (codes "--region")) env (profile_of (sections files) (asked_profile options env)) }
{}

/// No secret is printed, and no session token: with other ones the text is the same.
pub fn secrets_are_hidden()
    ensures { (paths secret token : List ℕ) (settings : UsedSettings) → settings_text paths (with_secrets secret token settings) ≡ settings_text paths settings }
{}
