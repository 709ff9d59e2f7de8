ghost use Rattle.std.specs.Prelude.{◌≡◌, IfOk, option_copied};
ghost use Rattle.smithy_core.specs.Identity.{IsSameCredentials, IsSameIdentity, access_key_id, credentials_expiry, credentials_in, credentials_of, secret_access_key, secret_of, session_token};

use crate::memory::Mem;
use crate::moment::Moment;
use crate::text::copied_text;

/// Credentials of an account. There is no [`Debug`](std::fmt::Debug), so that no secret is printed.
pub struct Credentials {
    key_id: String,
    secret: String,
    token: Option<String>,
    expiry: Option<Moment>,
}

// Written out: a derived drop would be taken apart in the proof of each function that drops one.
impl Drop for Credentials {
    fn drop(self) {
        let Credentials {
            key_id,
            secret,
            token,
            expiry: _,
        } = self;
        drop(key_id);
        drop(secret);
        drop(token);
    }
}

impl Credentials {
    /// Credentials of these parts.
    pub fn new(
        key_id: String,
        secret: String,
        token: Option<String>,
        expiry: Option<Moment>,
    ) -> Credentials
        ensures { result ≡ credentials_of key_id secret token expiry }
    {
        Credentials {
            key_id,
            secret,
            token,
            expiry,
        }
    }

    /// The access key id.
    pub fn access_key_id(&self) -> &str
        ensures { result.now ≡ access_key_id self.now }
    {
        self.key_id.as_str()
    }

    /// The secret access key.
    pub fn secret_access_key(&self) -> &str
        ensures { result.now ≡ secret_access_key self.now }
    {
        self.secret.as_str()
    }

    /// The session token, where there is one.
    pub fn session_token(&self) -> Option<&str>
        ensures { option_copied result ≡ session_token self.now }
    {
        match &self.token {
            Some(token) => Some(token.as_str()),
            None => None,
        }
    }

    /// When the credentials expire, where that is known.
    pub fn expiry(&self) -> Option<Moment>
        ensures { result ≡ credentials_expiry self.now }
    {
        self.expiry
    }

    /// Credentials of the same parts.
    pub fn try_clone(&self) -> Mem<Credentials>
        ensures { IfOk result (IsSameCredentials self.now) }
    {
        Ok(Credentials {
            key_id: self.key_id.clone()?,
            secret: self.secret.clone()?,
            token: copied_text(&self.token)?,
            expiry: self.expiry,
        })
    }
}

/// Who signs.
#[derive(Drop)]
pub enum Identity {
    Credentials(Credentials),
    Token(String),
}

impl From<Credentials> for Identity {
    ghost use Rattle.std.specs.Prelude.{◌≡◌};
    ghost use Rattle.smithy_core.specs.declared.identity.Identity.TheVariants as identity;

    ghost from_gives = { λ credentials result. result ≡ identity.Credentials credentials };

    fn from(credentials: Credentials) -> Identity {
        Identity::Credentials(credentials)
    }
}

impl Identity {
    /// The credentials, where the identity isn't a token.
    pub fn credentials(&self) -> Option<&Credentials>
        ensures { option_copied result ≡ credentials_in self.now }
    {
        match self {
            Identity::Credentials(credentials) => Some(credentials),
            Identity::Token(_) => None,
        }
    }

    /// The secret access key of credentials, and an empty text of a token.
    pub fn secret(&self) -> &str
        ensures { result.now ≡ secret_of self.now }
    {
        match self {
            Identity::Credentials(credentials) => credentials.secret_access_key(),
            Identity::Token(_) => "",
        }
    }

    /// An equal identity.
    pub fn try_clone(&self) -> Mem<Identity>
        ensures { IfOk result (IsSameIdentity self.now) }
    {
        Ok(match self {
            Identity::Credentials(credentials) => Identity::Credentials(credentials.try_clone()?),
            Identity::Token(token) => Identity::Token(token.clone()?),
        })
    }
}
