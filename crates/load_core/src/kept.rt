//! Octets that are kept up to a limit.
ghost use Rattle.std.specs.Prelude.{◌≡◌, ◌++◌, ℕ, List, take, OnOk};
ghost use Rattle.std.specs.Io.{StartsWith};

use efi_base::NoMemory;

/// Puts as many octets behind those that are kept as the limit leaves.
pub fn keep(kept: &mut Vec<u8>, most: usize, octets: &[u8]) -> Result<(), NoMemory>
    ensures kept { (all : List ℕ) → kept.old.items ≡ take most all → OnOk result (kept.new.items ≡ take most (all ++ octets.now)) }
    ensures front { StartsWith kept.new.items kept.old.items }
{
    let left = most.saturating_sub(kept.len());
    let count = left.min(octets.len());
    kept.extend_from_slice(&octets[..count])?;
    Ok(())
}
