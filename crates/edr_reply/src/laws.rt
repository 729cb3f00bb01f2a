//! Laws of replies.
ghost use Rattle.edr_reply.specs.Laws.{MessageIsOne, BreakIsOne, BrokenIsNone, WrittenRepliesAreRead};

/// Some bytes begin with one reply at most.
pub fn message_is_one()
    ensures { MessageIsOne }
{}

/// Some bytes break off at one place at most.
pub fn break_is_one()
    ensures { BreakIsOne }
{}

/// Bytes that break off begin with no reply.
pub fn broken_is_none()
    ensures { BrokenIsNone }
{}

/// What the server writes of a reply with a body is read as that reply.
pub fn written_replies_are_read()
    ensures { WrittenRepliesAreRead }
{}
