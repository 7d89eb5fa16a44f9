//! The mailbox of a slave: it takes one message, and answers it, or refuses or drops it.

ghost use Rattle.std.specs.Prelude.{◌≡◌, is_some, option_map, true};
ghost use Rattle.ec_sync.specs.SyncManager.{message_in, message_taken};
ghost use Rattle.ec_slave.specs.State.{manager_at};
ghost use Rattle.ec_slave.specs.Application.{with_manager};
ghost use Rattle.ec_slave.specs.Serving.{has_mailbox as has_mailbox_in, takes_reply, is_preop as is_preop_state, is_served as is_served_now, message_served, replied, request_in, refuses as refuses_in, refusal_in, has_room as has_room_of, sent, refusal_given};

use crate::slave::Slave;
use ec_al::State;
use ec_coe::{MESSAGE_LENGTH, Message, RefusalBytes, Service, read_message, refuse};
use ec_sync::SyncManager;

/// Whether the state is PREOP.
fn is_preop(state: State) -> bool
    ensures { result ≡ is_preop_state state }
{
    match state {
        State::PreOp => true,
        State::Init | State::SafeOp | State::Op => false,
    }
}

/// Whether a manager takes a message of the slave: an enabled, empty mailbox that the ring reads.
pub(crate) fn takes_message(manager: &SyncManager) -> bool
    ensures { result ≡ takes_reply manager.now }
{
    manager.may_put_message(0)
}

/// Whether a message with an SDO fits a manager.
pub(crate) fn has_room(manager: &SyncManager) -> bool
    ensures { result ≡ has_room_of manager.now }
{
    manager.settings().length as usize >= MESSAGE_LENGTH
}

impl Slave {
    /// Takes a message, if one lies in manager 0 and the reply can lie in manager 1. It answers a request. A full slave refuses
    /// any other message, if there is room for the refusal, and any other slave drops it.
    #[tactic(auto, unfolding(crate::specs::Serving::message_served))]
    pub(crate) fn serve_message(&mut self)
        ensures { self.new ≡ message_served self.old }
    {
        if self.is_served() {
            self.exchange_message();
        }
    }

    /// Takes the message out of manager 0.
    fn take_message(&mut self)
        ensures { self.new ≡ with_manager self.old 0 (message_taken (manager_at self.old.managers 0)) }
    {
        self.managers[0].mailbox_take();
    }

    /// Whether a message is taken now.
    fn is_served(&self) -> bool
        ensures { result ≡ is_served_now self.now }
    {
        self.has_mailbox() && self.can_reply() && self.has_message()
    }

    /// Whether a message lies in manager 0, an enabled mailbox that the ring writes.
    fn has_message(&self) -> bool
        ensures { result ≡ is_some (message_in (manager_at self.now.managers 0)) }
    {
        self.managers[0].message().is_some()
    }

    /// Whether a message can lie in manager 1: an enabled, empty mailbox that the ring reads.
    fn can_reply(&self) -> bool
        ensures { result ≡ takes_reply (manager_at self.now.managers 1) }
    {
        takes_message(&self.managers[1])
    }

    /// Puts a message into manager 1, and counts it.
    pub(crate) fn put_message(&mut self, bytes: &[u8])
        ensures { self.new ≡ sent self.old bytes.now }
    {
        self.managers[1].mailbox_put(bytes);
        self.replies = self.replies % 7 + 1;
    }

    /// The refusal of the message in manager 0, which is no request; none if the slave doesn't refuse it.
    fn refusal(&self) -> Option<RefusalBytes>
        ensures { option_map (λ bytes. bytes.items) result ≡ refusal_in self.now }
    {
        if !self.refuses() {
            return None;
        }
        let raw = self.managers[0].message()?;
        Some(refuse(raw, self.replies % 7 + 1))
    }

    /// Whether the slave refuses a message that is no request: it is full, and manager 1 has room for the refusal.
    fn refuses(&self) -> bool
        ensures { result ≡ refuses_in self.now }
    {
        self.dictionary.kind().face().is_some() && has_room(&self.managers[1])
    }

    /// Puts the answer to a request into manager 1, and counts it.
    fn reply(&mut self, request: &Message)
        ensures { self.new ≡ replied self.old request.now }
    {
        let counter = self.replies % 7 + 1;
        let in_preop = is_preop(self.al.state());
        let reply = self.dictionary.answer(in_preop, request, counter);
        let room = self.managers[1].settings().length as usize;
        let bytes = self.dictionary.reply_bytes(room, &reply);
        self.managers[1].mailbox_put(bytes.as_slice());
        self.replies = counter;
    }

    /// The request that lies in manager 0: a message of CoE with the service of a request. None if manager 1 has no room for
    /// the reply.
    fn request(&self) -> Option<Message>
        ensures { result ≡ request_in self.now }
    {
        let message = read_message(self.managers[0].message()?).ok()?;
        let fits = has_room(&self.managers[1]);
        (message.service == Service::Request && fits).then_some(message)
    }

    /// Whether messages are answered: in every state but INIT, by a type with a mailbox.
    fn has_mailbox(&self) -> bool
        ensures { result ≡ has_mailbox_in self.now }
    {
        self.al.state() != State::Init && self.dictionary.kind().mailbox().is_some()
    }

    /// Takes the message that lies in manager 0, and answers, refuses or drops it. It stands apart so that a step in which none
    /// is taken is short.
    #[tactic(auto, unfolding(crate::specs::Serving::message_served))]
    #[inline(never)]
    fn exchange_message(&mut self)
        requires { is_served_now self.old ≡ true }
        ensures { self.new ≡ message_served self.old }
    {
        match self.request() {
            Some(request) => {
                self.take_message();
                self.reply(&request);
            }
            None => self.refuse_message(),
        }
    }

    /// Takes a message that is no request, and refuses it or drops it.
    fn refuse_message(&mut self)
        ensures { self.new ≡ refusal_given (with_manager self.old 0 (message_taken (manager_at self.old.managers 0))) (refusal_in self.old) }
    {
        let refusal = self.refusal();
        self.take_message();
        if let Some(refusal) = refusal {
            self.put_message(refusal.as_slice());
        }
    }
}
