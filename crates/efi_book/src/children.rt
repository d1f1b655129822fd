//! The children of a driver under handles: the callers', and those that the stack keeps for itself. What a child is
//! configured with, and its tokens, aren't looked at here.
ghost use Rattle.std.specs.Prelude.{◌≡◌, ℕ, ◌+◌, ◌<◌, length, slice_get, option_copied, IfOk, IfErr, Some};
ghost use Rattle.std.specs.Borrow.{sem};
ghost use Rattle.std.specs.Option.{option_copied_mut};
ghost use Rattle.efi_base.specs.Refusals.{HandsBackExactly, RefusesExactly};

use crate::table::Table;
use efi_base::{NoMemory, Refuse, Refused};
use std::alloc::Global;
use std::marker::Model;

/// How many children callers may have at a time.
pub const CHILDREN: u32 = 256;

/// How many children the stack may keep for itself at a time.
pub const OWN_CHILDREN: u32 = 258;

/// The name of a child of one protocol. `K` is a type for each protocol, so that a handle of one isn't taken for
/// one of another. A place is used again; a serial is not.
#[derive(Clone, Copy, PartialEq, Eq, Debug)]
pub struct Handle<K> {
    pub key: usize,
    pub serial: u64,
    pub kind: K,
}

/// A live child.
#[derive(Drop)]
pub struct Child<C> {
    pub key: usize,
    pub serial: u64,
    pub value: C,
}

/// The live children in the order of their making, in two tables with one count of serials.
#[derive(Drop)]
pub struct Children<K, C> {
    kind: K,
    live: Table<C>,
    own: Table<C>,
    next: u64,
}

impl<K, C> Model for Children<K, C> {
    ghost use Rattle.efi_book.specs.Families.{Family};

    ghost Value = { Family C };

    ghost view = { λ s. record { live = s.live.children; own = s.own.children; next = s.next; room = s.live.room; own_room = s.own.room } };
}

impl<K: Copy + Drop, C: Drop> Children<K, C> {
    ghost use Rattle.efi_book.specs.Families.{no_children, no_children_from, create_refusal, create_own_refusal, handle_refusal, with_child, with_own, without_child, with_value, value_of, is_callers};
    ghost use Rattle.efi_book.specs.Lends.{lends_child};

    /// Room for 256 children of callers.
    pub fn new(alloc: Global, kind: K) -> Result<Children<K, C>, NoMemory>
        ensures { IfOk result (λ c. c ≡ no_children 256 0) }
    {
        Children::with_tables(alloc, kind, CHILDREN, 0)
    }

    /// Room for `room` children of callers.
    pub fn with_room(alloc: Global, kind: K, room: u32) -> Result<Children<K, C>, NoMemory>
        ensures { IfOk result (λ c. c ≡ no_children room 0) }
    {
        Children::with_tables(alloc, kind, room, 0)
    }

    /// Room for `room` children of callers, and for `own` that the stack keeps.
    pub fn with_tables(
        alloc: Global,
        kind: K,
        room: u32,
        own: u32,
    ) -> Result<Children<K, C>, NoMemory>
        ensures { IfOk result (λ c. c ≡ no_children room own) }
    {
        Children::starting_at(alloc, kind, room, own, 1)
    }

    /// As `with_tables`, where the first serial is this one, as after so many others.
    pub fn starting_at(
        alloc: Global,
        kind: K,
        room: u32,
        own: u32,
        first: u64,
    ) -> Result<Children<K, C>, NoMemory>
        ensures { IfOk result (λ c. c ≡ no_children_from room own first) }
    {
        let live = Table::with_room(alloc, room as usize)?;
        let own = Table::with_room(alloc, own as usize)?;
        Ok(Children {
            kind,
            live,
            own,
            next: first,
        })
    }

    /// One more child of a caller. It takes no memory.
    pub fn create(&mut self, value: C) -> Result<Handle<K>, Refused<C>>
        ensures answer { HandsBackExactly (create_refusal self.old) result }
        ensures ok { IfOk result (λ h. (h.serial ≡ self.old.next) × (self.new ≡ with_child self.old h.key value)) }
        ensures err { IfErr result (λ r. (r.work ≡ value) × (self.new ≡ self.old)) }
    {
        if self.live.len() >= self.live.room() {
            return Err(Refused {
                why: Refuse::NotReady,
                work: value,
            });
        }
        if self.next == u64::MAX {
            return Err(Refused {
                why: Refuse::Exhausted,
                work: value,
            });
        }
        let serial = self.next;
        let key = self.live.push(serial, value);
        self.next += 1;
        Ok(Handle {
            key,
            serial,
            kind: self.kind,
        })
    }

    /// One more child that the stack keeps for itself. It takes no memory.
    pub fn create_own(&mut self, value: C) -> Result<Handle<K>, Refused<C>>
        ensures answer { HandsBackExactly (create_own_refusal self.old) result }
        ensures ok { IfOk result (λ h. (h.serial ≡ self.old.next) × (self.new ≡ with_own self.old h.key value)) }
        ensures err { IfErr result (λ r. (r.work ≡ value) × (self.new ≡ self.old)) }
    {
        if self.own.len() >= self.own.room() {
            return Err(Refused {
                why: Refuse::NotReady,
                work: value,
            });
        }
        if self.next == u64::MAX {
            return Err(Refused {
                why: Refuse::Exhausted,
                work: value,
            });
        }
        let serial = self.next;
        let key = self.own.push(serial, value);
        self.next += 1;
        Ok(Handle {
            key,
            serial,
            kind: self.kind,
        })
    }

    /// The named child is gone, and its place may be used again. It takes no memory.
    pub fn destroy(&mut self, h: Handle<K>) -> Result<C, Refuse>
        ensures answer { RefusesExactly (handle_refusal self.old h.key h.serial) result }
        ensures ok { IfOk result (λ c. (value_of self.old h.key h.serial ≡ Some c) × (self.new ≡ without_child self.old h.key h.serial)) }
        ensures err { IfErr result (λ _. self.new ≡ self.old) }
    {
        if let Some(gone) = self.live.remove(h.key, h.serial) {
            return Ok(gone);
        }
        let Some(gone) = self.own.remove(h.key, h.serial) else {
            return Err(Refuse::BadHandle);
        };
        Ok(gone)
    }

    /// The named child's value.
    pub fn get(&self, h: Handle<K>) -> Option<&C>
        ensures { option_copied result ≡ value_of self.now h.key h.serial }
    {
        if let Some(child) = self.live.find(h.key, h.serial) {
            return Some(&child.value);
        }
        let child = self.own.find(h.key, h.serial)?;
        Some(&child.value)
    }

    /// The named child's value, for writing: when the borrow is over, the children are as after `put` of what was
    /// written last.
    pub fn get_mut(&mut self, h: Handle<K>) -> Option<&mut C>
        ensures* writes_back { sem 𝓛 (lends_child C.row K.row self.entry h.key h.serial result) }
        ensures value { option_copied_mut result ≡ value_of self.old h.key h.serial }
    {
        if self.is_callers(h) {
            self.live.value_mut(h.key, h.serial)
        } else {
            self.own.value_mut(h.key, h.serial)
        }
    }

    /// Gives the named child another value. Where there is none, nothing changes.
    pub fn put(&mut self, h: Handle<K>, value: C)
        ensures { self.new ≡ with_value self.old h.key h.serial value }
    {
        if self.is_callers(h) {
            self.live.put(h.key, h.serial, value);
            return;
        }
        self.own.put(h.key, h.serial, value);
    }

    /// Whether a caller's child has this handle.
    pub fn is_callers(&self, h: Handle<K>) -> bool
        ensures { result ≡ is_callers self.now h.key h.serial }
    {
        match self.live.find(h.key, h.serial) {
            Some(_) => true,
            None => false,
        }
    }

    /// The serial of the child that is made next.
    pub fn next_serial(&self) -> u64
        ensures { result ≡ self.now.next }
    {
        self.next
    }

    /// How many children callers have.
    pub fn len(&self) -> usize
        ensures { result ≡ length self.now.live }
    {
        self.live.len()
    }

    /// The callers' children, by order of making from 0.
    pub fn at(&self, i: usize) -> &Child<C>
        requires { i < length self.now.live }
        ensures { slice_get self.now.live i ≡ Some result.now }
    {
        self.live.at(i)
    }

    /// How many children the stack keeps for itself.
    pub fn own_len(&self) -> usize
        ensures { result ≡ length self.now.own }
    {
        self.own.len()
    }

    /// The stack's own children, by order of making from 0.
    pub fn own_at(&self, i: usize) -> &Child<C>
        requires { i < length self.now.own }
        ensures { slice_get self.now.own i ≡ Some result.now }
    {
        self.own.at(i)
    }
}
