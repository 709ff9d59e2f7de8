ghost use Rattle.std.specs.Prelude.{◌≡◌, [], unwrap_or, IfOk, OnOk, OnErr, string_bytes};
ghost use Rattle.http_uri.specs.Uri.{uri_query};
ghost use Rattle.smithy_http.specs.QueryWriter.{BuildsTarget, BuildsQuery, BuildsText, JoinsText, ReadsTargetParts, with_pair, without_query};
ghost use Rattle.smithy_http.specs.Escape.{base_set, escaped};
ghost use Rattle.smithy_http.specs.Target.{target_of};

use crate::piece::marked_pair;
use crate::query::fmt_string;
use crate::target::{is_authority_alone, join_target, parse_target, read_target};
use crate::uri_fault::UriFault;
use http_uri::Uri;
use smithy_core::Mem;
use std::alloc::Global;
use std::marker::Model;

/// Writes pairs into the query of a target.
///
/// Contracts see the target that is written so far.
pub struct QueryWriter {
    base: Uri,
    query: String,
    has_query: bool,
}

// Written out: a derived drop would be taken apart in the proof of each function that drops one.
impl Drop for QueryWriter {
    fn drop(self) {
        let QueryWriter {
            base,
            query,
            has_query: _,
        } = self;
        drop(base);
        drop(query);
    }
}

impl Model for QueryWriter {
    ghost use Rattle.std.specs.Prelude.{◌≡◌, [], false, Some, None, if◌then◌else◌, string_bytes};
    ghost use Rattle.http_uri.specs.Uri.{uri_scheme, uri_authority, uri_path};
    ghost use Rattle.smithy_http.specs.Target.{Target};

    ghost Value = { Target };

    ghost view = { λ writer. record {
      scheme = uri_scheme writer.base;
      authority = uri_authority writer.base;
      path = uri_path writer.base;
      query = if writer.has_query then Some (string_bytes writer.query) else None;
    } };

    ghost invariant = { λ writer. writer.has_query ≡ false → string_bytes writer.query ≡ [] };
}

impl QueryWriter {
    /// Goes on with the query of the target that the text spells, as [`QueryWriter::new`] does.
    ///
    /// # Errors
    ///
    /// [`UriFault::InvalidUri`] exactly where the text isn't accepted as a target, or passes 65,534 bytes,
    /// or has an authority without a scheme.
    pub fn new_from_string(alloc: Global, uri: &str) -> Result<QueryWriter, UriFault>
        ensures { ReadsTargetParts uri.now result }
    {
        let uri = read_target(alloc, uri)?;
        Ok(QueryWriter::new(alloc, &uri)?)
    }

    /// Goes on with the query of the target. The target's fragment is gone, and its path is `/` where it had none.
    pub fn new(alloc: Global, uri: &Uri) -> Mem<QueryWriter>
        ensures { IfOk result (λ writer. writer ≡ target_of uri.now) }
    {
        let (query, has_query) = match uri.query() {
            Some(query) => (String::from_str(alloc, query)?, true),
            None => (String::new(alloc), false),
        };
        Ok(QueryWriter {
            base: uri.clone()?,
            query,
            has_query,
        })
    }

    /// Takes all parameters away.
    pub fn clear_params(&mut self)
        ensures { self.new ≡ without_query self.old }
    {
        self.query.clear();
        self.has_query = false;
    }

    /// Adds a parameter, its key and its value escaped. Where memory ran out, nothing is added.
    pub fn insert(&mut self, k: &str, v: &str) -> Mem<()>
        ensures ok { OnOk result (self.new ≡ with_pair self.old (escaped base_set k.now) (escaped base_set v.now)) }
        ensures err { OnErr result (self.new ≡ self.old) }
    {
        let alloc = *self.query.allocator();
        let key = fmt_string(alloc, k)?;
        let value = fmt_string(alloc, v)?;
        self.insert_encoded(key.as_str(), value.as_str())
    }

    /// Adds a parameter as it is given. Where memory ran out, nothing is added.
    pub fn insert_encoded(&mut self, encoded_k: &str, encoded_v: &str) -> Mem<()>
        ensures ok { OnOk result (self.new ≡ with_pair self.old encoded_k.now encoded_v.now) }
        ensures err { OnErr result (self.new ≡ self.old) }
    {
        let mark = if self.query.is_empty() { "" } else { "&" };
        let piece = marked_pair(*self.query.allocator(), mark, encoded_k, encoded_v)?;
        self.query.push_str(piece.as_str())?;
        self.has_query = true;
        Ok(())
    }

    /// The target with its parameters.
    ///
    /// # Errors
    ///
    /// [`UriFault::InvalidUri`] exactly where the text isn't accepted as a target, or passes 65,534 bytes,
    /// or the target has an authority without a scheme.
    pub fn build_uri(self) -> Result<Uri, UriFault>
        ensures { BuildsTarget self result }
    {
        self.build()
    }

    /// The query of the target that [`QueryWriter::build_uri`] gives, or nothing where that has none.
    ///
    /// # Errors
    ///
    /// Those of [`QueryWriter::build_uri`].
    pub fn build_query(self) -> Result<String, UriFault>
        ensures { BuildsQuery self result }
    {
        let uri = self.build()?;
        Ok(copied_query(*self.query.allocator(), &uri)?)
    }

    /// The text that [`QueryWriter::build_uri`] reads. Where a parameter that was added as it is holds a `#`, the text
    /// goes on with it, and the URI that is read ends before it.
    ///
    /// # Errors
    ///
    /// Those of [`QueryWriter::build_uri`].
    pub fn build_text(self) -> Result<String, UriFault>
        ensures { BuildsText self result }
    {
        let text = self.text()?;
        parse_target(text.clone()?)?;
        Ok(text)
    }

    /// A writer of the same target.
    pub fn try_clone(&self) -> Mem<QueryWriter>
        ensures { IfOk result (λ copy. copy ≡ self.now) }
    {
        Ok(QueryWriter {
            base: self.base.clone()?,
            query: self.query.clone()?,
            has_query: self.has_query,
        })
    }

    fn build(&self) -> Result<Uri, UriFault>
        ensures { BuildsTarget self.now result }
    {
        parse_target(self.text()?)
    }

    // The text of the target, which has no authority without a scheme.
    fn text(&self) -> Result<String, UriFault>
        ensures { JoinsText self.now result }
    {
        if is_authority_alone(&self.base) {
            return Err(UriFault::InvalidUri);
        }
        let query = if self.has_query {
            Some(self.query.as_str())
        } else {
            None
        };
        let authority = match self.base.authority() {
            Some(authority) => Some(authority.as_str()),
            None => None,
        };
        Ok(join_target(
            *self.query.allocator(),
            self.base.scheme_str(),
            authority,
            self.base.path(),
            query,
        )?)
    }
}

// The query, or nothing where there is none.
fn copied_query(alloc: Global, uri: &Uri) -> Mem<String>
    ensures { IfOk result (λ query. string_bytes query ≡ unwrap_or (uri_query uri.now) []) }
{
    String::from_str(alloc, uri.query().unwrap_or(""))
}
