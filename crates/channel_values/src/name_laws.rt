//! Laws over the definitions alone.

ghost use Rattle.channel_values.specs.Laws.{DigestsTell, MessagesTell};

/// Among strings of which none collide, equal digests are digests of equal things.
pub fn digests_tell()
    ensures { DigestsTell }
{}

/// Equal strings that are signed are signed for equal things.
pub fn messages_tell()
    ensures { MessagesTell }
{}
