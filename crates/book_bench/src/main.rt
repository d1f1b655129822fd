//! A program to time a book with: a token is accepted, ends and is taken, so many times, while on so many other children
//! as many tokens as may be are pending. The clock is the caller's (bench/book.py).
#![tactic(auto)]

use efi_base::{ChildId, End, Owner, TokenId};
use efi_book::Book;
use std::{env, io};

fn main(rt: HostRuntime) -> io::Result<()> {
    let mut words = env::args(&rt)?.skip(1);
    let rounds = number_of(words.next(), 1);
    let others = number_of(words.next(), 0);
    let mut book = Book::new(rt.alloc());
    fill(&mut book, others);
    println!(rt; "{}", repeat(&mut book, rounds))
}

fn number_of(word: Option<String>, otherwise: u32) -> u32 {
    match word {
        Some(word) => word.parse::<u32>().unwrap_or(otherwise),
        None => otherwise,
    }
}

/// As many tokens as may be are pending on each of so many other children.
fn fill(book: &mut Book<u32>, others: u32) {
    for other in 0..others {
        for n in 0..64u32 {
            let owner = Owner::User(TokenId(n as u64));
            let _ticket = book.accept(ChildId(other as u64 + 2), owner, n);
        }
    }
}

/// Takes a token through the book so many times, and counts those that came out.
fn repeat(book: &mut Book<u32>, rounds: u32) -> u32 {
    let mut taken = 0u32;
    for n in 0..rounds {
        let owner = Owner::User(TokenId(n as u64));
        if let Ok(ticket) = book.accept(ChildId(1), owner, n) {
            book.complete(ticket, End::Success);
        }
        if let Some(_) = book.take_done() {
            taken = taken.wrapping_add(1);
        }
    }
    taken
}
