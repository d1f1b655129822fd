//! What holds of the Internet checksum (RFC 1071) and of what writers do: each law is the contract of a function that does
//! nothing. Writers stand on the first, and readers that refuse a wrong checksum have the second for it.
ghost use Rattle.std.specs.Prelude.{◌≡◌, ℕ, ◌%◌, ◌++◌, List, Result, length, take, IfOk};
ghost use Rattle.byteorder.specs.Endian.{big_number, big_bytes};
ghost use Rattle.efi_base.specs.Checksum.{checksum_of, AreOctets};
ghost use Rattle.efi_base.specs.Writes.{Writes};
ghost use Rattle.efi_base.specs.declared.fault.NoRoom.{NoRoom};

/// Octets in which the two of the checksum were 0, and then were filled in with it, sum to all ones; so they do where
/// the checksum is 0 and all ones are filled in.
pub fn filled_in_sums_to_ones()
    ensures checksum { (front back : List ℕ) → AreOctets front → AreOctets back → length front % 2 ≡ 0
        → checksum_of (front ++ (big_bytes 2 (checksum_of (front ++ (big_bytes 2 0 ++ back))) ++ back)) ≡ 0 }
    ensures ones { (front back : List ℕ) → AreOctets front → AreOctets back → length front % 2 ≡ 0
        → checksum_of (front ++ (big_bytes 2 0 ++ back)) ≡ 0
        → checksum_of (front ++ (big_bytes 2 65535 ++ back)) ≡ 0 }
{}

/// A word that was changed into another changes the checksum, but for 0 and all ones, which the sum takes as one.
pub fn changed_word_is_seen()
    ensures { (front one other back : List ℕ) → AreOctets front → AreOctets one → AreOctets other → AreOctets back
        → length front % 2 ≡ 0 → length one ≡ 2 → length other ≡ 2
        → checksum_of (front ++ (one ++ back)) ≡ checksum_of (front ++ (other ++ back))
        → big_number 2 one % 65535 ≡ big_number 2 other % 65535 }
{}

/// What a writer wrote stands in front of the room, as long as the writer said.
pub fn written_text_is_in_front()
    ensures { (text old : List ℕ) → (result : Result ℕ NoRoom) → (now : List ℕ) → Writes text old result now
        → IfOk result (λ n. take n now ≡ text) }
{}
