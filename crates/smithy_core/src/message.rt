ghost use Rattle.std.specs.Prelude.{◌≡◌, [], ◌∷◌, ◌++◌, IfOk};
ghost use Rattle.mac_core.specs.Crc.{after_bytes};

use crate::header::Header;
use crate::memory::Mem;
use bytes::Bytes;
use mac_core::Crc;
use std::alloc::Global;
use std::fmt;
use std::marker::Model;

/// A message of an event stream: headers in order, and a payload. [`Debug`](std::fmt::Debug) prints how many headers and
/// bytes there are, and nothing of them, since an event may hold a secret (the SDK's type prints all of it).
///
/// Contracts see it as its `Parts`.
pub struct Message {
    headers: Vec<Header>,
    payload: Bytes,
    summed: Option<Summed>,
}

// Written out: a derived drop would be taken apart in the proof of each function that drops one.
impl Drop for Message {
    fn drop(self) {
        let Message {
            headers,
            payload,
            summed: _,
        } = self;
        drop(headers);
        drop(payload);
    }
}

// A checksum before it took the payload, and after.
#[derive(Clone, Copy, Debug)]
struct Summed {
    before: Crc,
    after: Crc,
}

impl Model for Message {
    ghost use Rattle.std.specs.Prelude.{◌≡◌, IfSome};
    ghost use Rattle.mac_core.specs.Crc.{after_bytes};
    ghost use Rattle.smithy_core.specs.Message.{Parts};

    ghost Value = { Parts };

    ghost view = { λ message. record { headers = message.headers.items; payload = message.payload } };

    ghost invariant = { λ message. IfSome message.summed (λ summed. summed.after ≡ after_bytes summed.before message.payload) };
}

impl Message {
    /// A message without headers.
    pub fn new(alloc: Global, payload: Bytes) -> Message
        ensures { result ≡ record { headers = []; payload = payload } }
    {
        Message::new_from_parts(Vec::new(alloc), payload)
    }

    /// The message of these headers and this payload.
    pub fn new_from_parts(headers: Vec<Header>, payload: Bytes) -> Message
        ensures { result ≡ record { headers = headers.items; payload = payload } }
    {
        Message {
            headers,
            payload,
            summed: None,
        }
    }

    /// The same message, of whose payload is known from now on what it leaves of a checksum: what was before it, and what is
    /// after it. Each byte of a frame in a frame then goes through the checksum once.
    pub fn with_checksums(self, before: Crc, after: Crc) -> Message
        requires { after ≡ after_bytes before self.payload }
        ensures { result ≡ self }
    {
        let Message {
            headers,
            payload,
            summed: _,
        } = self;
        Message {
            headers,
            payload,
            summed: Some(Summed { before, after }),
        }
    }

    /// The message with one header more, at the end.
    pub fn add_header(self, header: Header) -> Mem<Message>
        ensures { IfOk result (λ message. message ≡ record self { headers = self.headers ++ header ∷ [] }) }
    {
        let Message {
            mut headers,
            payload,
            summed,
        } = self;
        headers.push(header)?;
        Ok(Message {
            headers,
            payload,
            summed,
        })
    }

    /// An equal message.
    pub fn try_clone(&self) -> Mem<Message>
        ensures { IfOk result (λ copy. copy ≡ self.now) }
    {
        let mut headers = Vec::new(*self.headers.allocator());
        for header in &self.headers {
            headers.push(header.try_clone()?)?;
        }
        Ok(Message {
            headers,
            payload: self.payload.clone()?,
            summed: self.summed,
        })
    }

    /// Its headers.
    pub fn headers(&self) -> &[Header]
        ensures { result.now ≡ self.now.headers }
    {
        self.headers.as_slice()
    }

    /// Its payload.
    pub fn payload(&self) -> &Bytes
        ensures { result.now ≡ self.now.payload }
    {
        &self.payload
    }

    /// Takes the bytes of its payload into a checksum, without looking at them, where is known what they leave of one.
    pub fn sum_payload(&self, checksum: &mut Crc)
        ensures { checksum.new ≡ after_bytes checksum.old self.now.payload }
    {
        match &self.summed {
            Some(summed) => {
                checksum.join_between(&summed.before, &summed.after, self.payload.len());
            }
            None => checksum.update(self.payload.as_slice()),
        }
    }
}

impl fmt::Debug for Message {
    ghost use Rattle.std.specs.Prelude.{Some, length};
    ghost use Rattle.smithy_core.specs.Message.{message_sizes};

    ghost debug_output = { λ message. Some (message_sizes (length message.headers) (length message.payload)) };

    fn fmt<W: fmt::Write>(&self, f: &mut fmt::Formatter<W>) -> fmt::Result {
        let (headers, payload) = (self.headers.len(), self.payload.len());
        write!(f, "Message({headers} headers, {payload} bytes)")
    }
}
