//! One table of children: a slab of them, and their keys in the order of making. Serials and handles are given out
//! elsewhere.
ghost use Rattle.std.specs.Prelude.{◌≡◌, ℕ, ◌+◌, ◌<◌, ◌≤◌, [], ◌∷◌, ◌++◌, length, map, filter, find, is_some, slice_get, option_copied, option_map, IfSome, IfNone, IfOk, Some, vec_len, vec_capacity};
ghost use Rattle.std.specs.Borrow.{sem};
ghost use Rattle.std.specs.Option.{option_copied_mut};
ghost use Rattle.slab.specs.Slab.{get};
ghost use Rattle.efi_book.specs.Tables.{is_not_key, in_slot};
ghost use Rattle.efi_book.specs.Families.{is_named, is_not_named, renewed};

use crate::children::Child;
use efi_base::NoMemory;
use slab::Slab;
use std::alloc::Global;
use std::marker::Model;
use std::mem;

/// The children in the order of their making. A child is found in one look under its key.
#[derive(Drop)]
pub struct Table<C> {
    slots: Slab<Child<C>>,
    order: Vec<usize>,
    room: usize,
}

impl<C> Model for Table<C> {
    ghost use Rattle.std.specs.Prelude.{vec_capacity};
    ghost use Rattle.slab.specs.Slab.{get};
    ghost use Rattle.efi_book.specs.Tables.{Rows, IsKept, children_at};

    ghost Value = { Rows C };

    ghost view = { λ t. record { children = children_at (get t.slots) t.order.items; room = t.room } };

    ghost invariant = { λ t. IsKept t.slots t.order.items t.room (vec_capacity t.order) };
}

// The child under the key, where it has the serial.
fn under<C>(slots: &Slab<Child<C>>, key: usize, serial: u64) -> Option<&Child<C>>
    ensures { option_copied result ≡ in_slot (get slots.now key) serial }
{
    match slots.get(key) {
        Some(child) => {
            if child.serial == serial {
                return Some(child);
            }
            None
        }
        None => None,
    }
}

// Takes a key out.
fn leave_out(order: &mut Vec<usize>, key: usize)
    ensures kept { order.new.items ≡ filter (is_not_key key) order.old.items }
    ensures room { vec_capacity order.new ≡ vec_capacity order.old }
{
    let mut i = 0;
    while i < order.len() {
        if order[i] == key {
            order.remove(i);
        } else {
            i += 1;
        }
    }
}

fn value_in<C>(child: Child<C>) -> C
    ensures { result ≡ child.value }
{
    let Child {
        key: _,
        serial: _,
        value,
    } = child;
    value
}

impl<C: Drop> Table<C> {
    ghost use Rattle.efi_book.specs.Tables.{no_rows, with_row, with_rows};
    ghost use Rattle.efi_book.specs.Lends.{lends_row};

    /// Room for so many children.
    pub fn with_room(alloc: Global, room: usize) -> Result<Table<C>, NoMemory>
        ensures { IfOk result (λ t. t ≡ no_rows room) }
    {
        let Ok(order) = Vec::with_capacity(alloc, room) else {
            return Err(NoMemory);
        };
        let Ok(slots) = Slab::with_capacity(alloc, room) else {
            return Err(NoMemory);
        };
        Ok(Table { slots, order, room })
    }

    pub fn room(&self) -> usize
        ensures { result ≡ self.now.room }
    {
        self.room
    }

    pub fn len(&self) -> usize
        ensures { result ≡ length self.now.children }
    {
        self.order.len()
    }

    /// One more child, under a key that was vacant. It takes no memory.
    pub fn push(&mut self, serial: u64, value: C) -> usize
        requires { length self.old.children < self.old.room }
        ensures { self.new ≡ with_row self.old result serial value }
    {
        let key = self.slots.vacant_key();
        self.slots.insert_reserved(Child { key, serial, value });
        self.order.push_reserved(key);
        key
    }

    /// The child with this key and serial.
    pub fn find(&self, key: usize, serial: u64) -> Option<&Child<C>>
        ensures { option_copied result ≡ find (is_named key serial) self.now.children }
    {
        under(&self.slots, key, serial)
    }

    /// Takes the child with this key and serial out. It takes no memory.
    pub fn remove(&mut self, key: usize, serial: u64) -> Option<C>
        ensures value { result ≡ option_map (λ c. c.value) (find (is_named key serial) self.old.children) }
        ensures some { IfSome result (λ _. self.new ≡ with_rows self.old (filter (is_not_named key serial) self.old.children)) }
        ensures none { IfNone result (self.new ≡ self.old) }
    {
        if let None = under(&self.slots, key, serial) {
            return None;
        }
        let child = self.slots.remove(key);
        leave_out(&mut self.order, key);
        Some(value_in(child))
    }

    /// Gives the child with this key and serial another value; where there is none, nothing changes.
    pub fn put(&mut self, key: usize, serial: u64, value: C)
        ensures { self.new ≡ with_rows self.old (map (renewed key serial value) self.old.children) }
    {
        if let None = under(&self.slots, key, serial) {
            return;
        }
        let _old = mem::replace(&mut self.slots[key], Child { key, serial, value });
    }

    /// The value of the child with this key and serial, for writing.
    pub fn value_mut(&mut self, key: usize, serial: u64) -> Option<&mut C>
        ensures* writes_back { sem 𝓛 (lends_row C.row self.entry key serial result) }
        ensures value { option_copied_mut result ≡ option_map (λ c. c.value) (find (is_named key serial) self.old.children) }
    {
        if let None = under(&self.slots, key, serial) {
            return None;
        }
        Some(&mut self.slots[key].value)
    }

    /// The child at this place, in the order of making.
    pub fn at(&self, i: usize) -> &Child<C>
        requires { i < length self.now.children }
        ensures { slice_get self.now.children i ≡ Some result.now }
    {
        &self.slots[self.order[i]]
    }
}
