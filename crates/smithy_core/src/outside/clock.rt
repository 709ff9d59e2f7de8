ghost use Rattle.std.specs.Prelude.{◌≡◌, ◌-◌, ◌<◌, [], Some, IfOk};
ghost use Rattle.std.specs.List.{slice_index_or};

use crate::memory::Mem;
use crate::moment::Moment;
use std::marker::Model;

/// Gives moments, and can't fail. `answers` relates a clock before a call, the moment, and the clock after it.
pub trait Clock {
    ghost use Rattle.std.specs.Prelude.{List, Option};
    ghost use Rattle.smithy_core.specs.Clock.{GainsOne};
    ghost use Rattle.smithy_core.specs.Moment.{Instant};

    // a call, if more is known of it than the first clause below says
    ghost answers: { Self → Instant → Self → Type 0 } = { λ _ _ _. Unit {0} };

    // what it has given, if it shows it
    ghost given: { Self → Option (List Instant) };

    /// The moment now.
    fn now(&mut self) -> Moment
        ensures gains { GainsOne (given self.old) (given self.new) result }
        ensures answers { answers self.old result self.new };
}

/// Gives the listed moments in order, and then the last one again and again.
///
/// Contracts see a `ClockState`.
#[derive(Debug, Drop)]
pub struct ListClock {
    moments: Vec<Moment>,
    last: Moment,
    calls: u64,
}

impl Model for ListClock {
    ghost use Rattle.smithy_core.specs.Clock.{ClockState};

    ghost Value = { ClockState };

    ghost view = { λ clock. record { moments = clock.moments.items; last = clock.last; calls = clock.calls } };
}

impl ListClock {
    ghost use Rattle.std.specs.Vec.{vec_len};
    ghost use Rattle.smithy_core.specs.Moment.{Instant};

    /// A clock that has given nothing. There has to be one moment at least.
    pub fn new(moments: Vec<Moment>) -> ListClock
        requires { 0 < vec_len moments }
        ensures given { ⟦<ListClock as Clock>⟧.given result ≡ Some [] }
        ensures moments { result.moments ≡ moments.items }
        ensures last { (other : Instant) → result.last ≡ slice_index_or moments.items (vec_len moments - 1) other }
        ensures calls { result.calls ≡ 0 }
    {
        let last = moments[moments.len() - 1];
        ListClock {
            moments,
            last,
            calls: 0,
        }
    }

    /// A clock with the same moments, after the same calls.
    pub fn try_clone(&self) -> Mem<ListClock>
        ensures { IfOk result (λ copy. copy ≡ self.now) }
    {
        Ok(ListClock {
            moments: self.moments.clone()?,
            last: self.last,
            calls: self.calls,
        })
    }
}

impl Clock for ListClock {
    ghost use Rattle.smithy_core.specs.Clock.{GivesNext, given};

    ghost answers = { GivesNext };

    ghost given = { given };

    fn now(&mut self) -> Moment {
        let calls = self.calls;
        self.calls = calls.saturating_add(1);
        if calls < self.moments.len() as u64 {
            self.moments[calls as usize]
        } else {
            self.last
        }
    }
}

/// Always gives the same moment.
///
/// Contracts see a `ClockState` that lists no moment, so that the last one comes each time.
#[derive(Clone, Copy, Debug)]
pub struct FixedClock {
    at: Moment,
    calls: u64,
}

impl Model for FixedClock {
    ghost use Rattle.std.specs.Prelude.{[]};
    ghost use Rattle.smithy_core.specs.Clock.{ClockState};

    ghost Value = { ClockState };

    ghost view = { λ clock. record { moments = []; last = clock.at; calls = clock.calls } };

    ghost inverse = { λ clock. record { at = clock.last; calls = clock.calls } };
}

impl FixedClock {
    /// A clock that has given nothing.
    pub fn new(at: Moment) -> FixedClock
        ensures given { ⟦<FixedClock as Clock>⟧.given result ≡ Some [] }
        ensures at { result ≡ record { moments = []; last = at; calls = 0 } }
    {
        FixedClock { at, calls: 0 }
    }
}

impl Clock for FixedClock {
    ghost use Rattle.smithy_core.specs.Clock.{GivesNext, given};

    ghost answers = { GivesNext };

    ghost given = { given };

    fn now(&mut self) -> Moment {
        self.calls = self.calls.saturating_add(1);
        self.at
    }
}
