// SPDX-License-Identifier: MIT OR Apache-2.0
//! A text that grows piece by piece, and that remembers whether memory was short.
ghost use Rattle.std.specs.Prelude.{◌≡◌, ℕ, List, [], Option, None, Some, IfErr, IfOk, IfSome, if◌then◌else◌};
ghost use Rattle.play_reasons.specs.Drafts.{Puts};

use play_trace::PlayError;
use std::alloc::Allocator;
use std::fmt::Display;
use std::io::Write;
use std::marker::Model;
use std::mem;

/// A text that grows piece by piece. If there is no memory for a piece, the text is short until it is cleared. Only `bytes` and
/// `end` report that. In clauses a draft is its text, or `None` if it is short.
#[derive(Drop)]
pub struct Draft<A: Allocator> {
    text: Vec<u8, A>,
    is_short: bool,
}

impl<A: Allocator> Model for Draft<A> {
    ghost Value = { Option (List ℕ) };

    ghost view = { λ draft. if draft.is_short then None else Some draft.text.items };
}

impl<A: Allocator> Draft<A> {
    /// Returns a draft that continues this text.
    pub fn of(text: Vec<u8, A>) -> Draft<A>
        ensures { result ≡ Some text.items }
    {
        Draft {
            text,
            is_short: false,
        }
    }

    /// Returns an empty draft that takes its memory from this allocator.
    pub fn new(alloc: A) -> Draft<A>
        ensures { result ≡ Some [] }
    {
        Draft::of(Vec::new(alloc))
    }

    /// Removes the text, and keeps its memory for the next one. The draft is then not short.
    pub fn clear(&mut self)
        ensures { self.new ≡ Some [] }
    {
        self.text.clear();
        self.is_short = false;
    }

    /// Appends bytes to the text.
    pub fn put_bytes(&mut self, bytes: &[u8])
        ensures { Puts self.old self.new bytes.now }
    {
        if self.text.extend_from_slice(bytes).is_err() {
            self.is_short = true;
        }
    }

    /// Appends a word to the text.
    pub fn put(&mut self, word: &str)
        ensures { Puts self.old self.new word.now }
    {
        self.put_bytes(word.as_bytes());
    }

    /// Appends what a value prints to the text.
    pub fn put_shown<T: Display>(&mut self, value: &T)
        ensures { IfSome (T.output value.now) (λ words. Puts self.old self.new words) }
    {
        if write!(self.text, "{value}").is_err() {
            self.is_short = true;
        }
    }

    /// Returns the bytes of the text, or `NoMemory` if it is short.
    pub fn bytes(&self) -> Result<&[u8], PlayError>
        ensures whole { IfOk result (λ bytes. self.now ≡ Some bytes.now) }
        ensures short { IfErr result (λ e. (e ≡ PlayError.NoMemory) × (self.now ≡ None)) }
    {
        if self.is_short {
            Err(PlayError::NoMemory)
        } else {
            Ok(&self.text)
        }
    }

    /// Returns the text, or `NoMemory` if it is short.
    pub fn end(self) -> Result<Vec<u8, A>, PlayError>
        ensures whole { IfOk result (λ text. self ≡ Some text.items) }
        ensures short { IfErr result (λ e. (e ≡ PlayError.NoMemory) × (self ≡ None)) }
    {
        if self.is_short {
            Err(PlayError::NoMemory)
        } else {
            Ok(self.text)
        }
    }
}

impl<A: Allocator + Copy> Draft<A> {
    /// Returns an empty draft that takes the memory of another text. That text is then empty.
    pub fn over(text: &mut Vec<u8, A>) -> Draft<A>
        ensures { result ≡ Some [] }
    {
        let alloc = *text.allocator();
        let mut draft = Draft::of(mem::replace(text, Vec::new(alloc)));
        draft.clear();
        draft
    }
}
