//! A pass over the datagrams of a frame, by a handler.
ghost use Rattle.std.specs.Prelude.{◌≡◌, Bool};
ghost use Rattle.ec_frame.specs.Datagram.{Datagram, IsDatagram, IsSpelling, spelling};
ghost use Rattle.ec_frame.specs.Frame.{Payload, IsFrame, with_datagrams};
ghost use Rattle.ec_frame.specs.Walk.{KeepsLength, handled_all, after_all};

use crate::cursor::Datagrams;

/// A handler of each datagram of a frame.
pub trait Handler {
    /// What the handler makes of a datagram.
    ghost handled: { Self → Datagram → Datagram };

    /// What the handler is afterwards.
    ghost after: { Self → Datagram → Self };

    /// A handled datagram is one too, as long as it was.
    ghost keeps_length: { KeepsLength handled };

    /// Handles the datagram that `part` spells.
    fn handle(&mut self, part: &mut [u8])
        requires { IsSpelling part.old }
        ensures datagram { (more : Bool) (d : Datagram) → IsDatagram d → part.old ≡ spelling more d
            → part.new ≡ spelling more (handled self.old d) }
        ensures state { (more : Bool) (d : Datagram) → IsDatagram d → part.old ≡ spelling more d
            → self.new ≡ after self.old d };
}

/// Passes each datagram of a checked frame to a handler, in order. The header and the bytes after the
/// datagrams stay as they are.
pub fn pass<H: Handler>(handler: &mut H, frame: &mut [u8])
    requires { (p : Payload) × IsFrame frame.old p }
    ensures frame { (p : Payload) → IsFrame frame.old p
        → IsFrame frame.new
        (with_datagrams p (handled_all H.handled H.after handler.old p.datagrams)) }
    ensures state { (p : Payload) → IsFrame frame.old p
        → handler.new ≡ after_all H.handled H.after handler.old p.datagrams }
{
    let mut places = Datagrams::new(frame);
    while let Some(span) = places.next_place(frame) {
        handler.handle(&mut frame[span.from..span.to]);
    }
}
