//! Rows in order, one behind the other, seen by contracts as a list.
ghost use Rattle.std.specs.Prelude.{◌≡◌, ◌==◌, ◌∷◌, ◌++◌, [], length, IfOk};

use efi_base::NoMemory;
use std::alloc::Global;
use std::marker::Model;

/// Rows in the order of their lines.
#[derive(Debug, Drop)]
pub struct Rows<T> {
    items: Vec<T>,
}

impl<T> Model for Rows<T> {
    ghost use Rattle.std.specs.Prelude.{List};

    ghost Value = { List T };

    ghost view = { λ r. r.items.items };
}

impl<T> Rows<T> {
    /// No rows, without taking memory.
    pub fn new(alloc: Global) -> Rows<T>
        ensures { result ≡ [] }
    {
        Rows {
            items: Vec::new(alloc),
        }
    }

    pub fn len(&self) -> usize
        ensures { result ≡ length self.now }
    {
        self.items.len()
    }

    pub fn is_empty(&self) -> bool
        ensures { result ≡ (length self.now == 0) }
    {
        self.items.is_empty()
    }

    pub fn as_slice(&self) -> &[T]
        ensures { result.now ≡ self.now }
    {
        self.items.as_slice()
    }

    /// Puts a row behind the others.
    pub fn push(&mut self, row: T) -> Result<(), NoMemory>
    where
        T: Drop,
        ensures { IfOk result (λ _. self.new ≡ self.old ++ (row ∷ [])) }
    {
        self.items.push(row)?;
        Ok(())
    }
}
