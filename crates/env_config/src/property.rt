ghost use Rattle.std.specs.Prelude.{◌≡◌, IfOk};
ghost use Rattle.std.specs.String.{string_bytes};
ghost use Rattle.env_config.specs.Property.{property_pair};

use smithy_core::Mem;
use std::fmt;

/// A key and its value. [`Debug`](std::fmt::Debug) prints the key and how long the value is, since it may be a secret.
#[derive(PartialEq, Eq, Drop)]
pub struct Property {
    key: String,
    value: String,
}

impl Property {
    /// This key with this value.
    pub fn new(key: String, value: String) -> Property
        ensures key { (property_pair result).0 ≡ string_bytes key }
        ensures value { (property_pair result).1 ≡ string_bytes value }
    {
        Property { key, value }
    }

    /// The key.
    pub fn key(&self) -> &str
        ensures { result.now ≡ (property_pair self.now).0 }
    {
        self.key.as_str()
    }

    /// The value.
    pub fn value(&self) -> &str
        ensures { result.now ≡ (property_pair self.now).1 }
    {
        self.value.as_str()
    }

    /// An equal property.
    pub fn try_clone(&self) -> Mem<Property>
        ensures { IfOk result (λ copy. property_pair copy ≡ property_pair self.now) }
    {
        Ok(Property {
            key: self.key.clone()?,
            value: self.value.clone()?,
        })
    }
}

impl fmt::Debug for Property {
    ghost use Rattle.std.specs.Prelude.{Some, length};
    ghost use Rattle.env_config.specs.Property.{property_pair, property_shown};

    ghost debug_output = { λ property. Some (property_shown (property_pair property).0 (length (property_pair property).1)) };

    fn fmt<W: fmt::Write>(&self, f: &mut fmt::Formatter<W>) -> fmt::Result {
        let (key, length) = (self.key.as_str(), self.value.len());
        write!(f, "Property({key}, {length} bytes)")
    }
}

impl Clone for Property {
    ghost use Rattle.std.specs.Prelude.{◌≡◌};
    ghost use Rattle.env_config.specs.Property.{property_pair};

    ghost is_clone = { λ property copy. property_pair copy ≡ property_pair property };

    fn clone(&self) -> Mem<Property> {
        self.try_clone()
    }
}
