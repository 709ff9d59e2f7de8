//! The generator of events: a linear congruential one over 64 bits.
ghost use Rattle.std.specs.Prelude.{◌≡◌, IfOk};
ghost use Rattle.signed_stream.specs.Generator.{draw_after, drawn_bytes, drawn_event, drawn_events, drawn_len, next_draw};

use bytes::Bytes;
use smithy_core::{Header, HeaderValue, Mem, Message, StrBytes};
use std::alloc::Global;
use std::marker::Model;

/// What is left of a generator between two events.
///
/// Contracts see the last draw, which is the seed before the first.
#[derive(Debug, Drop)]
pub struct Generator {
    draw: u64,
}

impl Model for Generator {
    ghost use Rattle.std.specs.Prelude.{ℕ};

    ghost Value = { ℕ };

    ghost view = { λ generator. generator.draw };
}

impl Generator {
    /// A generator that has drawn nothing.
    pub fn new(seed: u64) -> Generator
        ensures { result ≡ seed }
    {
        Generator { draw: seed }
    }

    // Draws a number.
    #[tactic(auto, using(crate::proofs::GeneratorLemmas::wrapped), unfolding(crate::specs::Generator::next_draw))]
    fn draw(&mut self) -> u64
        ensures value { result ≡ next_draw self.old }
        ensures kept { self.new ≡ next_draw self.old }
    {
        self.draw = self
            .draw
            .wrapping_mul(6_364_136_223_846_793_005)
            .wrapping_add(1_442_695_040_888_963_407);
        self.draw
    }

    /// Draws an event.
    #[tactic(auto, unfolding(crate::specs::Generator::drawn_event, crate::specs::Generator::drawn_len))]
    pub fn event(&mut self, alloc: Global) -> Mem<Message>
        ensures event { IfOk result (λ event. event ≡ drawn_event (next_draw self.old)) }
        ensures kept { IfOk result (λ event. self.new ≡ draw_after (drawn_len (next_draw self.old)) (next_draw self.old)) }
    {
        let draw = self.draw();
        let payload = self.bytes(alloc, draw >> 58)?;
        let header = Header::new(
            StrBytes::from_static("n"),
            HeaderValue::Int64(draw.cast_signed()),
        );
        let mut headers = Vec::new(alloc);
        headers.push(header)?;
        Ok(Message::new_from_parts(headers, Bytes::from_vec(payload)?))
    }

    // Draws so many bytes.
    #[tactic(auto, using(crate::proofs::GeneratorLemmas::byte_drawn, crate::proofs::GeneratorLemmas::draw_left))]
    fn bytes(&mut self, alloc: Global, count: u64) -> Mem<Vec<u8>>
        ensures bytes { IfOk result (λ bytes. bytes.items ≡ drawn_bytes count self.old) }
        ensures kept { IfOk result (λ bytes. self.new ≡ draw_after count self.old) }
    {
        let mut bytes = Vec::new(alloc);
        'draws: for _i in 0..count {
            bytes.push((self.draw() >> 56) as u8)?;
        }
        Ok(bytes)
    }
}

/// So many events of the generator with a seed.
#[tactic(auto, using(crate::proofs::GeneratorLemmas::event_drawn))]
pub fn generated_events(alloc: Global, seed: u64, count: u64) -> Mem<Vec<Message>>
    ensures { IfOk result (λ events. events.items ≡ drawn_events count seed) }
{
    let mut generator = Generator::new(seed);
    let mut events = Vec::new(alloc);
    'events: for _i in 0..count {
        events.push(generator.event(alloc)?)?;
    }
    Ok(events)
}
