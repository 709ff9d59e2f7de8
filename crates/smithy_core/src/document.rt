ghost use Rattle.std.specs.Prelude.{◌≡◌, IfOk, Option, option_map, string_bytes};
ghost use Rattle.std.specs.Option.{option_or};
ghost use Rattle.smithy_core.specs.Document.{data_of, get, items_data, last_member, members_data, value_if_named};

use crate::memory::Mem;

/// A value of free form, as an endpoint carries it.
///
/// A copy, a debug text and the end of a document take stack for each level of it, as in the SDK for Rust: who makes one of a
/// stranger's text bounds how deep that may go.
#[derive(Debug, Drop)]
pub enum Document {
    /// Nothing.
    Null,
    /// True or false.
    Bool(bool),
    /// A text.
    String(String),
    /// Values in order.
    Array(Vec<Document>),
    /// Names and their values in order. Of equal names the last one counts.
    Object(Vec<(String, Document)>),
}

impl Document {
    /// The value of the last pair of an object that has this name. What isn't an object has no names.
    pub fn get(&self, key: &str) -> Option<&Document>
        ensures { option_map (λ value. data_of value.now) result ≡ get (data_of self.now) key.now }
    {
        match self {
            Document::Object(members) => last_member(members, key),
            _ => None,
        }
    }

    /// An equal document.
    pub fn try_clone(&self) -> Mem<Document>
        ensures { IfOk result (λ copy. data_of copy ≡ data_of self.now) }
    {
        copied(self)
    }
}

// The value of the last pair with this name.
#[tactic(auto, using(crate::proofs::DocumentLemmas::last_member_more))]
fn last_member<'a>(members: &'a Vec<(String, Document)>, key: &str) -> Option<&'a Document>
    ensures { option_map (λ value. data_of value.now) result ≡ last_member (members_data members.now.items) key.now }
{
    let mut found = None;
    for member in members {
        found = later_member(found, member, key);
    }
    found
}

// The value of the pair where it has this name, or else what was found before it.
fn later_member<'a>(
    found: Option<&'a Document>,
    member: &'a (String, Document),
    key: &str,
) -> Option<&'a Document>
    ensures { option_map (λ value. data_of value.now) result
        ≡ option_or (value_if_named (string_bytes member.now.0) (data_of member.now.1) key.now) (option_map (λ value. data_of value.now) found.entry) }
{
    if member.0.as_str() == key {
        Some(&member.1)
    } else {
        found
    }
}

#[cycle(copied)]
fn copied(document: &Document) -> Mem<Document>
    ensures { IfOk result (λ copy. data_of copy ≡ data_of document.now) }
{
    match document {
        Document::Null => Ok(Document::Null),
        Document::Bool(value) => Ok(Document::Bool(*value)),
        Document::String(text) => Ok(Document::String(text.clone()?)),
        Document::Array(items) => Ok(Document::Array(copied_items(items)?)),
        Document::Object(members) => Ok(Document::Object(copied_members(members)?)),
    }
}

#[cycle(copied)]
fn copied_items(items: &Vec<Document>) -> Mem<Vec<Document>>
    ensures { IfOk result (λ copies. items_data copies.items ≡ items_data items.now.items) }
{
    let mut copies = Vec::with_capacity(*items.allocator(), items.len())?;
    for item in items {
        copies.push(copied(item)?)?;
    }
    Ok(copies)
}

#[cycle(copied)]
fn copied_members(members: &Vec<(String, Document)>) -> Mem<Vec<(String, Document)>>
    ensures { IfOk result (λ copies. members_data copies.items ≡ members_data members.now.items) }
{
    let mut copies = Vec::with_capacity(*members.allocator(), members.len())?;
    for member in members {
        let name = member.0.clone()?;
        copies.push((name, copied(&member.1)?))?;
    }
    Ok(copies)
}
