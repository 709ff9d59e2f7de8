/// How often the path of a request is escaped before it is signed.
#[derive(Clone, Copy, Debug, PartialEq, Eq)]
pub enum PercentEncodingMode {
    /// Once more than in the request.
    Double,
    /// As it is in the request.
    Single,
}

/// Whether the path of a request is put into its normal form (RFC 3986, section 5.2.4) before it is signed.
#[derive(Clone, Copy, Debug, PartialEq, Eq)]
pub enum UriPathNormalizationMode {
    /// It is put into its normal form.
    Enabled,
    /// It stays as it is.
    Disabled,
}

impl From<bool> for UriPathNormalizationMode {
    ghost use Rattle.std.specs.Prelude.{◌≡◌, if◌then◌else◌};
    ghost use Rattle.sigv4.specs.declared.modes.UriPathNormalizationMode.TheVariants.{Enabled, Disabled};

    ghost from_gives = { λ enabled mode. mode ≡ (if enabled then Enabled else Disabled) };

    fn from(enabled: bool) -> UriPathNormalizationMode {
        if enabled {
            UriPathNormalizationMode::Enabled
        } else {
            UriPathNormalizationMode::Disabled
        }
    }
}
