//! Who signs, and for which region and service.
ghost use Rattle.std.specs.Prelude.{◌<◌, length, string_bytes};
ghost use Rattle.smithy_core.specs.Identity.{access_key_id, secret_access_key};

use smithy_core::{Credentials, Mem};

/// Who signs, and for which region and service; none of these texts is empty. There is no [`Debug`](std::fmt::Debug), so that no secret is
/// printed.
#[derive(Drop)]
pub struct Chosen {
    /// The key.
    pub credentials: Credentials,
    /// The region.
    pub region: String,
    /// The service's signing name.
    pub service: String,
    pub ghost has_key_id: { 0 < length (access_key_id credentials) },
    pub ghost has_secret: { 0 < length (secret_access_key credentials) },
    pub ghost has_region: { 0 < length (string_bytes region) },
    pub ghost has_service: { 0 < length (string_bytes service) },
}

impl Chosen {
    ghost use Rattle.std.specs.Prelude.{◌≡◌, IfOk};
    ghost use Rattle.awsign_run.specs.Chosen.{signs_for_of};

    /// The same.
    pub fn try_clone(&self) -> Mem<Chosen>
        ensures { IfOk result (λ copy. signs_for_of copy ≡ signs_for_of self.now) }
    {
        Ok(Chosen {
            credentials: self.credentials.try_clone()?,
            region: self.region.clone()?,
            service: self.service.clone()?,
        })
    }
}
