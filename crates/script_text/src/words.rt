//! The words of a line, taken one by one from its front. Which words a line has isn't here.
ghost use Rattle.std.specs.Prelude.{◌≡◌, ◌<◌, ◌≤◌, ◌^◌, ℕ, List, Option, Some, None, MatchOption, IfSome, option_map};
ghost use Rattle.std.specs.Option.{is_none, option_copied};
ghost use Rattle.script_text.specs.Words.{behind, finished, flag, ip_next, mac_next, name_next, number_next, taken};

use efi_base::{Ip4, Mac, Name};
use session_text::{name_of, number_in};
use std::marker::Model;
use text_base::{front, ip, mac, rest};

/// What of a line isn't taken yet: none where its last word was.
#[derive(Drop)]
pub struct Words<'a> {
    left: Option<&'a [u8]>,
}

impl<'a> Model for Words<'a> {
    ghost use Rattle.std.specs.Prelude.{ℕ, List, Option};
    ghost use Rattle.std.specs.Option.{option_copied};

    ghost Value = { Option (List ℕ) };

    ghost view = { λ w. option_copied w.left };
}

impl<'a> Words<'a> {
    /// All words of a text.
    pub fn new(text: &'a [u8]) -> Words<'a>
        ensures { result ≡ Some text.now }
    {
        Words { left: Some(text) }
    }

    /// The same words once more.
    pub fn again(&self) -> Words<'a>
        ensures { result ≡ self.now }
    {
        Words { left: self.left }
    }

    /// The value, where no word is left behind it.
    pub fn finished<T: Drop>(&self, value: T) -> Option<T>
        ensures { result ≡ finished self.now value }
    {
        if self.left.is_some() {
            return None;
        }
        Some(value)
    }

    /// What is left, as it stands.
    pub fn text(&self) -> Option<&'a [u8]>
        ensures { option_copied result ≡ self.now }
    {
        self.left
    }

    /// The next word.
    pub fn word(&self) -> Option<(&'a [u8], Words<'a>)>
        ensures { MatchOption result (taken self.now ≡ None) (λ s. taken self.now ≡ Some (s.0.now, s.1)) }
    {
        let Some(text) = self.left else {
            return None;
        };
        let left = rest(text, b' ');
        Some((front(text, b' '), Words { left }))
    }

    /// What stands behind this word, where it is the next.
    pub fn behind(&self, word: &[u8]) -> Option<Words<'a>>
        ensures { result ≡ behind word.now self.now }
    {
        let Some((first, left)) = self.word() else {
            return None;
        };
        if first != word {
            return None;
        }
        Some(left)
    }

    /// Whether this word is the next, and what stands behind it then.
    pub fn flag(self, word: &[u8]) -> (bool, Words<'a>)
        ensures { result ≡ flag (behind word.now self.entry) self.entry }
    {
        match self.behind(word) {
            Some(left) => (true, left),
            None => (false, self),
        }
    }

    pub fn number(&self, least: u64, most: u64) -> Option<(u64, Words<'a>)>
        ensures value { result ≡ number_next least most self.now }
        ensures within { IfSome result (λ n. n.0 ≤ most) }
    {
        let Some((word, left)) = self.word() else {
            return None;
        };
        let Some(n) = number_in(word, least, most) else {
            return None;
        };
        Some((n, left))
    }

    pub fn ip(&self) -> Option<(Ip4, Words<'a>)>
        ensures { result ≡ ip_next self.now }
    {
        let Some((word, left)) = self.word() else {
            return None;
        };
        let Some(ip) = ip(word) else {
            return None;
        };
        Some((ip, left))
    }

    pub fn mac(&self) -> Option<(Mac, Words<'a>)>
        ensures { result ≡ mac_next self.now }
    {
        let Some((word, left)) = self.word() else {
            return None;
        };
        let Some(mac) = mac(word) else {
            return None;
        };
        Some((mac, left))
    }

    pub fn name(&self) -> Option<(Name, Words<'a>)>
        ensures { result ≡ name_next self.now }
    {
        let Some((word, left)) = self.word() else {
            return None;
        };
        let Some(name) = name_of(word) else {
            return None;
        };
        Some((name, left))
    }
}
