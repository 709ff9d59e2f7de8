ghost use Rattle.std.specs.Prelude.{◌≡◌, ◌++◌, codes, IfOk, string_bytes};
ghost use Rattle.smithy_core.specs.Civil.{stamp};
ghost use Rattle.eventstream.specs.Key.{scope};

use crate::signing_time::SigningTime;
use smithy_core::Mem;
use std::alloc::Global;

/// When and for what a signature is made, as texts.
#[derive(Drop)]
pub(crate) struct SigningScope {
    /// The moment's date and time.
    pub(crate) stamp: String,
    /// The moment's date, the region, the name and `aws4_request`.
    pub(crate) scope: String,
}

impl SigningScope {
    /// The texts of a moment, a region and a name.
    pub(crate) fn new(
        alloc: Global,
        time: &SigningTime,
        region: &str,
        name: &str,
    ) -> Mem<SigningScope>
        ensures stamp { IfOk result (λ texts. string_bytes texts.stamp ≡ stamp time.now) }
        ensures scope { IfOk result (λ texts. string_bytes texts.scope ≡ scope time.now region.now name.now) }
    {
        Ok(SigningScope {
            stamp: time.stamp_text(alloc)?,
            scope: time.scope(alloc, region, name)?,
        })
    }

    /// The credential of a key id: the key id and the scope.
    pub(crate) fn credential(&self, alloc: Global, key_id: &str) -> Mem<String>
        ensures { IfOk result (λ text. string_bytes text ≡ key_id.now ++ codes "/" ++ string_bytes self.now.scope) }
    {
        let mut text = String::with_capacity(alloc, 128)?;
        text.push_str(key_id)?;
        text.push('/')?;
        text.push_str(self.scope.as_str())?;
        Ok(text)
    }
}
