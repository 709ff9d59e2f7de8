ghost use Rattle.std.specs.Prelude.{◌≡◌, codes, IfOk, string_bytes};
ghost use Rattle.sigv4.specs.Settings.{default_settings, s3_settings, settings_of};
ghost use Rattle.request_door.specs.Doors.{AnswersDoor};
ghost use Rattle.aws_signing.specs.Service.{asked_at, own_service, service_of, with_limits};

use crate::signer::Signer;
use request_door::{Admitted, DoorFault, KeyList, Keys, Limits, admit};
use sigv4::SigningSettings;
use smithy_core::{HttpRequest, Mem, Moment};
use std::alloc::Global;
use std::marker::Model;

/// A service to which signed requests come: its region, its name, the keys that it knows, and what it lets through at most.
///
/// ```rust
/// let service = Service::new(alloc, "us-east-1", "orders", keys)?;
/// match service.admit(&request, clock.now()) {
///     Ok(admitted) => serve(admitted.key_id.as_str(), &request),
///     Err(fault) => refuse(fault.code()),
/// }
/// ```
///
/// Contracts see these parts.
#[derive(Drop)]
pub struct Service<K> {
    region: String,
    name: String,
    settings: SigningSettings,
    keys: K,
    limits: Limits,
}

impl<K> Model for Service<K> {
    ghost use Rattle.std.specs.Prelude.{string_bytes};
    ghost use Rattle.sigv4.specs.Settings.{settings_of};
    ghost use Rattle.aws_signing.specs.Service.{ServiceState};

    ghost Value = { ServiceState K };

    ghost view = { λ service. record {
      region = string_bytes service.region;
      name = string_bytes service.name;
      settings = settings_of service.settings;
      keys = service.keys;
      limits = service.limits;
    } };
}

impl Signer {
    /// The service to which this signer's requests go, with the limits of AWS, which knows this signer's key alone: it shows what
    /// a service makes of a request.
    ///
    /// ```rust
    /// let url = signer.presign("GET", "https://bucket.s3.amazonaws.com/key", 900, clock.now())?;
    /// let request = HttpRequest::new(alloc, "GET", url.as_str())?;
    /// let admitted = signer.service()?.admit(&request, clock.now())?;
    /// ```
    ///
    /// # Errors
    ///
    /// Memory ran out.
    pub fn service(&self) -> Mem<Service<KeyList>>
        ensures { IfOk result (λ service. service ≡ own_service self.now.holder self.now.settings) }
    {
        self.holder.service(self.settings.try_clone()?)
    }
}

impl<K: Drop> Service<K> {
    /// A service of a region and a name, with the limits of AWS.
    pub fn new(alloc: Global, region: &str, name: &str, keys: K) -> Mem<Service<K>>
        ensures { IfOk result (λ service. service ≡ service_of region.now name.now default_settings keys) }
    {
        Service::of(alloc, region, name, SigningSettings::new(alloc)?, keys)
    }

    /// A service that takes requests as Amazon S3 does: paths are escaped once and stay as they are, and in a presigned URL the
    /// payload isn't signed.
    pub fn for_s3(alloc: Global, region: &str, keys: K) -> Mem<Service<K>>
        ensures { IfOk result (λ service. service ≡ service_of region.now (codes "s3") s3_settings keys) }
    {
        Service::of(alloc, region, "s3", SigningSettings::for_s3(alloc)?, keys)
    }

    /// A service that takes requests which are signed by these settings, with the limits of AWS.
    pub(crate) fn of(
        alloc: Global,
        region: &str,
        name: &str,
        settings: SigningSettings,
        keys: K,
    ) -> Mem<Service<K>>
        ensures { IfOk result (λ service. service ≡ service_of region.now name.now (settings_of settings) keys) }
    {
        Ok(Service {
            region: String::from_str(alloc, region)?,
            name: String::from_str(alloc, name)?,
            settings,
            keys,
            limits: Limits::new(),
        })
    }

    /// The service with other limits.
    pub fn with_limits(self, limits: Limits) -> Service<K>
        ensures { result ≡ with_limits self limits }
    {
        Service { limits, ..self }
    }
}

impl<K: Keys> Service<K> {
    /// Who signed a request, in its headers or in its target, where it passes each test of a service at a moment, with its own
    /// body.
    ///
    /// # Errors
    ///
    /// The first test that is met, as [`admit`] has them. [`DoorFault::code`] is the error to answer.
    pub fn admit(&self, request: &HttpRequest, now: Moment) -> Result<Admitted, DoorFault>
        ensures { AnswersDoor (asked_at (K.secrets self.now.keys) self.now request.now now) result }
    {
        admit(
            *self.region.allocator(),
            request,
            request.body.as_slice(),
            &self.settings,
            self.region.as_str(),
            self.name.as_str(),
            &self.keys,
            now,
            &self.limits,
        )
    }
}
