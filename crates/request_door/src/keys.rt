ghost use Rattle.std.specs.Prelude.{◌≡◌, ◌++◌, [], ◌∷◌, OnErr, OnOk, option_copied};
ghost use Rattle.std.specs.String.{string_bytes};
ghost use Rattle.smithy_core.specs.TextPairs.{first_value, text_pairs};

use smithy_core::Mem;
use std::alloc::Global;
use std::marker::Model;

/// The keys that a service knows.
pub trait Keys {
    ghost use Rattle.std.specs.Prelude.{◌≡◌, ℕ, List, Option, IfOk, option_map, string_bytes};

    // the secret of each key's id
    ghost secrets: { Self → List ℕ → Option (List ℕ) };

    /// The secret of the key of this id, where it is known.
    fn secret(&self, alloc: Global, key_id: &str) -> Mem<Option<String>>
        ensures { IfOk result (λ found. option_map string_bytes found ≡ secrets self.now key_id.now) };
}

/// A list of keys.
///
/// Contracts see the pairs of an id and a secret.
#[derive(Drop)]
pub struct KeyList {
    pairs: Vec<(String, String)>,
}

impl Model for KeyList {
    ghost use Rattle.std.specs.Prelude.{ℕ, List};
    ghost use Rattle.smithy_core.specs.TextPairs.{text_pairs};

    ghost Value = { List (List ℕ × List ℕ) };

    ghost view = { λ keys. text_pairs keys.pairs.items };
}

impl KeyList {
    /// No keys.
    pub fn new(alloc: Global) -> KeyList
        ensures { result ≡ [] }
    {
        KeyList {
            pairs: Vec::new(alloc),
        }
    }

    /// Adds a key. Of keys of one id the first counts.
    pub fn push(&mut self, key_id: &str, secret: &str) -> Mem<()>
        ensures ok { OnOk result (self.new ≡ self.old ++ (key_id.now, secret.now) ∷ []) }
        ensures err { OnErr result (self.new ≡ self.old) }
    {
        let alloc = *self.pairs.allocator();
        let key_id = String::from_str(alloc, key_id)?;
        let secret = String::from_str(alloc, secret)?;
        self.pairs.push((key_id, secret))?;
        Ok(())
    }
}

impl Keys for KeyList {
    ghost use Rattle.smithy_core.specs.TextPairs.{first_value};

    ghost secrets = { λ keys key_id. first_value keys key_id };

    fn secret(&self, alloc: Global, key_id: &str) -> Mem<Option<String>> {
        match listed(self.pairs.as_slice(), key_id) {
            Some(secret) => Ok(Some(String::from_str(alloc, secret)?)),
            None => Ok(None),
        }
    }
}

// The secret of the first key of this id.
fn listed<'a>(pairs: &'a [(String, String)], key_id: &str) -> Option<&'a str>
    ensures { option_copied result ≡ first_value (text_pairs pairs.now) key_id.now }
{
    for (id, secret) in pairs {
        if id.as_str() == key_id {
            return Some(secret.as_str());
        }
    }
    None
}
