//! What a driver asks of the layer below: messages, first in, first out, with room that is taken before what they
//! say is done.
ghost use Rattle.std.specs.Prelude.{◌≡◌, ℕ, ◌+◌, ◌-◌, ◌<◌, ◌≤◌, ◌^◌, [], ◌∷◌, ◌++◌, max, slice_get, IfSome, IfNone, OnOk, OnErr};
ghost use Rattle.std.specs.VecDeque.{deque_len, deque_capacity};

use efi_base::NoMemory;
use std::alloc::Global;
use std::collections::VecDeque;
use std::marker::Model;

/// The messages that wait, the first one first, and room for so many more.
#[derive(Drop)]
pub struct Outbox<M> {
    messages: VecDeque<M>,
    spare: usize,
}

impl<M> Model for Outbox<M> {
    ghost use Rattle.std.specs.Prelude.{ℕ, ◌+◌, ◌≤◌};
    ghost use Rattle.std.specs.VecDeque.{deque_len, deque_capacity};
    ghost use Rattle.efi_book.specs.Outboxes.{Waiting};

    ghost Value = { Waiting M };

    ghost view = { λ b. record { messages = b.messages.items; spare = b.spare } };

    ghost invariant = { λ b. deque_len b.messages + b.spare ≤ deque_capacity b.messages };
}

impl<M: Drop> Outbox<M> {
    ghost use Rattle.efi_book.specs.Outboxes.{no_messages, asked, asked_spare, without_first, with_room};

    pub fn new(alloc: Global) -> Outbox<M>
        ensures { result ≡ no_messages }
    {
        Outbox {
            messages: VecDeque::new(alloc),
            spare: 0,
        }
    }

    /// Room for `n` further messages of `put` in all.
    pub fn reserve(&mut self, n: u32) -> Result<(), NoMemory>
        ensures ok { OnOk result (self.new ≡ with_room self.old (max self.old.spare n)) }
        ensures err { OnErr result (self.new ≡ self.old) }
    {
        let n = n as usize;
        if n <= self.spare {
            return Ok(());
        }
        self.messages.reserve(n)?;
        self.spare = n;
        Ok(())
    }

    /// Room for one more message.
    pub fn take_room(&mut self) -> Result<(), NoMemory>
        ensures ok { OnOk result (self.new ≡ with_room self.old (self.old.spare + 1)) }
        ensures err { OnErr result (self.new ≡ self.old) }
    {
        let n = self.spare + 1;
        self.messages.reserve(n)?;
        self.spare = n;
        Ok(())
    }

    /// The room for one message isn't wanted any more.
    pub fn give_room(&mut self)
        requires { 0 < self.old.spare }
        ensures { self.new ≡ with_room self.old (self.old.spare - 1) }
    {
        self.spare -= 1;
    }

    /// Puts a message behind the others, in room that was taken. It takes no memory.
    pub fn put(&mut self, message: M)
        requires { 0 < self.old.spare }
        ensures { self.new ≡ asked_spare self.old message }
    {
        self.spare -= 1;
        self.messages.push_back_reserved(message);
    }

    /// Puts a message behind the others.
    pub fn ask(&mut self, message: M) -> Result<(), NoMemory>
        ensures ok { OnOk result (self.new ≡ asked self.old message) }
        ensures err { OnErr result (self.new ≡ self.old) }
    {
        let n = self.spare + 1;
        self.messages.reserve(n)?;
        self.messages.push_back_reserved(message);
        Ok(())
    }

    /// The message that waits longest. It takes no memory.
    pub fn take_down(&mut self) -> Option<M>
        ensures first { result ≡ slice_get self.old.messages 0 }
        ensures some { IfSome result (λ _. self.new ≡ without_first self.old) }
        ensures none { IfNone result (self.new ≡ self.old) }
    {
        self.messages.pop_front()
    }
}
