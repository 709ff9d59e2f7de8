//! An operation with its attempts: each attempt is dressed, signed, numbered and sent anew, and the last reply is answered.
//!
//! The layer above is promised that [`operate`] sends exactly the requests of its attempts in order, each signed at a moment of
//! its own with the skew of the clocks that the replies before it gave (`specs/Attempt.antt`, `specs/Again.antt`), that it stops
//! at the first reply that isn't worth one more attempt or at the most attempts, and that each fault comes for its own reason
//! (`specs/Attempts.antt`). It doesn't wait between attempts.
#![tactic(auto)]

mod again;
mod attempt;
mod attempts;
mod fault;
mod over;
mod reply;
mod script;
mod signing;
mod transport;

pub use crate::attempts::operate;
pub use crate::fault::OperationFault;
pub use crate::over::operate_over;
pub use crate::reply::{Outcome, Reply};
pub use crate::script::ScriptedTransport;
pub use crate::transport::{SendFault, Transport};
