ghost use Rattle.std.specs.Prelude.{◌≡◌, ◌<◌, ◌∷◌, ◌&&◌, false, length, option_copied};
ghost use Rattle.std.specs.List.{before_first};
ghost use Rattle.env_config.specs.Line.{CutsProperty, is_comment_sign, is_skipped, profile_lines, property_of, section_name, trimmed, uncommented, without_cr};

/// Why a line is no property.
#[derive(Clone, Copy, Debug, PartialEq, Eq)]
pub enum PropertyFault {
    /// It has no `=`.
    NoEquals,
    /// Nothing stands before the first `=`.
    NoName,
}

/// The first line, without its end, and what stands after it.
pub fn cut_line(text: &str) -> (&str, &str)
    requires { 0 < length text.now }
    ensures lines { profile_lines text.now ≡ result.0.now ∷ profile_lines result.1.now }
    ensures shorter { length result.1.now < length text.now }
{
    match text.split_once('\n') {
        Some((line, rest)) => (without_cr(line), rest),
        None => (text, ""),
    }
}

fn without_cr(line: &str) -> &str
    ensures { result.now ≡ without_cr line.now }
{
    line.strip_suffix('\r').unwrap_or(line)
}

/// The text without the spaces and tabs at both ends.
pub fn trim(text: &str) -> &str
    ensures { result.now ≡ trimmed text.now }
{
    text.trim_start_matches([' ', '\t'])
        .trim_end_matches([' ', '\t'])
}

/// Whether the line has spaces and tabs only, or begins with a comment sign.
#[tactic(auto, unfolding(crate::specs::Line::is_skipped))]
pub fn is_skipped(line: &str) -> bool
    ensures { result ≡ is_skipped line.now }
{
    trim(line).is_empty() || line.starts_with('#') || line.starts_with(';')
}

/// The text between the brackets of a section line.
pub fn section_name(line: &str) -> Option<&str>
    ensures { option_copied result ≡ section_name line.now }
{
    let text = trim(before_sign(trim(line)));
    text.strip_prefix('[')?.strip_suffix(']')
}

/// What stands before the first comment sign, or all.
pub fn before_sign(text: &str) -> &str
    ensures { result.now ≡ before_first is_comment_sign text.now }
{
    match text.find(['#', ';']) {
        Some(place) => &text[..place],
        None => text,
    }
}

/// Key and value of a property line, trimmed.
///
/// # Errors
///
/// Why the line is no property.
#[tactic(auto, unfolding(crate::specs::Line::property_of))]
pub fn cut_property(line: &str) -> Result<(&str, &str), PropertyFault>
    ensures { CutsProperty (property_of line.now) result }
{
    let text = trim(without_comment(trim(line)));
    let Some((key, value)) = text.split_once('=') else {
        return Err(PropertyFault::NoEquals);
    };
    let key = trim(key);
    if key.is_empty() {
        return Err(PropertyFault::NoName);
    }
    Ok((key, trim(value)))
}

/// What stands before the first comment sign that follows white space, or all.
pub fn without_comment(text: &str) -> &str
    ensures { result.now ≡ uncommented text.now }
{
    if has_sign(text) {
        before_comment(text)
    } else {
        text
    }
}

// Whether there is a comment sign.
fn has_sign(text: &str) -> bool
    ensures { result ≡ false → text.now ≡ uncommented text.now }
{
    text.contains('#') || text.contains(';')
}

// The text before its comment, character by character.
fn before_comment(text: &str) -> &str
    ensures { result.now ≡ uncommented text.now }
{
    let mut follows_space = false;
    for (place, c) in text.char_indices() {
        if begins_comment(follows_space, c) {
            return &text[..place];
        }
        follows_space = c.is_whitespace();
    }
    text
}

fn begins_comment(follows_space: bool, c: char) -> bool
    ensures { result ≡ (follows_space && is_comment_sign c) }
{
    follows_space && (c == '#' || c == ';')
}
