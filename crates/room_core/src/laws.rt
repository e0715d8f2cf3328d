//! Laws of the machine.

ghost use Rattle.std.specs.Prelude.{◌≡◌};
ghost use Rattle.room_core.specs.Machine.{IsStep, RoomState};
ghost use Rattle.room_core.specs.declared.event.CoreEvent.{CoreEvent};
ghost use Rattle.room_core.specs.declared.reply.CoreReply.{CoreReply};

use desk::Advance;

/// A step has one reply, and leads to one room.
pub fn steps_have_one_reply<V: Advance>()
    ensures { (before after other : RoomState V.Origin) (event : CoreEvent) (reply answer : CoreReply) → IsStep (V.judges before.origin) before event reply after
        → IsStep (V.judges before.origin) before event answer other → (reply ≡ answer) × (after ≡ other) }
{
    V::one_judgement();
}

/// A step leaves where the history began.
pub fn steps_keep_origins<V: Advance>()
    ensures { (before after : RoomState V.Origin) (event : CoreEvent) (reply : CoreReply) → IsStep (V.judges before.origin) before event reply after → after.origin ≡ before.origin }
{}
