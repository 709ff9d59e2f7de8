ghost use Rattle.std.specs.Prelude.{◌≡◌, map, IfOk};
ghost use Rattle.std.specs.Cow.{cow_str_bytes};
ghost use Rattle.std.specs.Iterator.{YieldsFirstBy, item_count};
ghost use Rattle.std.specs.String.{string_bytes};
ghost use Rattle.smithy_core.specs.TextPairs.{text_pair};
ghost use Rattle.sigv4.specs.Instructions.{instruction_pair};

use smithy_core::Mem;
use std::alloc::Global;
use std::borrow::CowStr;
use std::marker::Model;

/// A header that a signed request gets.
///
/// Contracts see its name, its value, and whether that is to be kept out of logs.
#[derive(Drop)]
pub struct Header {
    name: CowStr<'static, Global>,
    value: String,
    sensitive: bool,
}

impl Model for Header {
    ghost use Rattle.std.specs.Prelude.{string_bytes};
    ghost use Rattle.std.specs.Cow.{cow_str_bytes};
    ghost use Rattle.sigv4.specs.Instructions.{Instruction};

    ghost Value = { Instruction };

    ghost view = { λ header. record { name = cow_str_bytes header.name; value = string_bytes header.value; sensitive = header.sensitive } };
}

impl Header {
    // A header of these parts.
    pub(crate) fn new(name: CowStr<'static, Global>, value: String, sensitive: bool) -> Header
        ensures { result ≡ record { name = cow_str_bytes name.entry; value = string_bytes value; sensitive = sensitive } }
    {
        Header {
            name,
            value,
            sensitive,
        }
    }

    /// The name.
    pub fn name(&self) -> &str
        ensures { result.now ≡ self.now.name }
    {
        self.name.as_str()
    }

    /// The value.
    pub fn value(&self) -> &str
        ensures { result.now ≡ self.now.value }
    {
        self.value.as_str()
    }

    /// Whether the value is to be kept out of logs.
    pub fn sensitive(&self) -> bool
        ensures { result ≡ self.now.sensitive }
    {
        self.sensitive
    }

    // The name and the value.
    pub(crate) fn into_pair(self) -> Mem<(String, String)>
        ensures { IfOk result (λ pair. text_pair pair ≡ instruction_pair self) }
    {
        let alloc = *self.value.allocator();
        Ok((self.name.into_owned(alloc)?, self.value))
    }

    /// An equal header.
    pub fn try_clone(&self) -> Mem<Header>
        ensures { IfOk result (λ copy. copy ≡ self.now) }
    {
        Ok(Header {
            name: self.name.clone()?,
            value: self.value.clone()?,
            sensitive: self.sensitive,
        })
    }
}

impl Clone for Header {
    ghost is_clone = { λ header copy. copy ≡ header };

    fn clone(&self) -> Mem<Header> {
        self.try_clone()
    }
}

/// Gives the names and the values of headers in order.
///
/// Contracts see the list of the pairs that are left.
#[derive(Drop)]
pub struct HeaderPairs<'a> {
    left: &'a [Header],
}

impl<'a> Model for HeaderPairs<'a> {
    ghost use Rattle.std.specs.Prelude.{ℕ, List, map};
    ghost use Rattle.sigv4.specs.Instructions.{instruction_pair};

    ghost Value = { List (List ℕ × List ℕ) };

    ghost view = { λ pairs. map instruction_pair pairs.left.now };
}

impl<'a> HeaderPairs<'a> {
    // Gives these headers.
    pub(crate) fn over(headers: &'a [Header]) -> HeaderPairs<'a>
        ensures { result ≡ map instruction_pair headers.now }
    {
        HeaderPairs { left: headers }
    }
}

impl<'a> Iterator for HeaderPairs<'a> {
    type Item = (&'a str, &'a str);

    ghost next_gives = { YieldsFirstBy (λ item. (item.0.now, item.1.now)) (λ pairs. pairs) };

    ghost remaining = { item_count (λ pairs. pairs) };

    fn next(&mut self) -> Option<(&'a str, &'a str)> {
        let (first, others) = self.left.split_first()?;
        self.left = others;
        Some((first.name(), first.value()))
    }
}
