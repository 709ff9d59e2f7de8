use crate::response_fault::ReceiveError;
use smithy_core::Message;

// A message whose frame is at the front of a buffer, and how many bytes the frame has.
#[derive(Drop)]
pub(crate) struct Front {
    pub(crate) message: Message,
    pub(crate) len: usize,
}

// The message that comes next, and how many bytes its frame has at the front of the buffer, unless it was kept.
#[derive(Drop)]
pub(crate) struct Coming {
    pub(crate) message: Message,
    pub(crate) len: Option<usize>,
}

// What was made of a message.
#[derive(Drop)]
pub(crate) enum Made<A, E> {
    // What is answered, and the message that is to be kept.
    Answer(Result<A, ReceiveError<E>>, Option<Message>),
    // Memory ran out, and the message comes back.
    Back(Message),
}
