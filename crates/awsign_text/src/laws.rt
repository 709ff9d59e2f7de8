//! Laws of what is printed.
ghost use Rattle.std.specs.Prelude.{◌≡◌, ℕ, List, Option, Some};
ghost use Rattle.awsign_text.specs.Curl.{config_settings, curl_config_text, request_settings};

/// What is printed as a config of curl reads back as exactly the options by which curl sends the request.
pub fn config_reads_back()
    ensures { (method target : List ℕ) → (headers : List (List ℕ × List ℕ)) → (file : Option (List ℕ))
        → let settings = request_settings method target headers file in config_settings (curl_config_text settings) ≡ Some settings }
{}
