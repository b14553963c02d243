//! The words of a line, taken from the left.
ghost use Rattle.std.specs.Prelude.{◌≡◌, ◌<◌, ◌^◌, length, Ok, MatchResult, IfOk, IfSome, IsUtf8};
ghost use Rattle.std.specs.Option.{option_map};
ghost use Rattle.gh_base.specs.Parts.{parts_of};
ghost use Rattle.script_text.specs.LineReading as spec;

use crate::fault::LineFault;
use gh_base::{ScriptKind, first_part};
use std::marker::Model;

/// The words that are left of a line. Contracts see the byte where they begin, and their list.
#[derive(Drop)]
pub struct LineWords<'a> {
    at: usize,
    left: Option<&'a str>,
}

impl<'a> Model for LineWords<'a> {
    ghost use Rattle.std.specs.Prelude.{ℕ, List, ◌+◌, ◌≤◌, ◌^◌, IfSome, IsUtf8};
    ghost use Rattle.std.specs.Option.{option_map};
    ghost use Rattle.gh_base.specs.Parts.{parts_left, room};

    ghost Value = { ℕ × List (List ℕ) };

    ghost view = { λ w. (w.at, parts_left 32 (option_map (λ t. t.now) w.left)) };

    ghost invariant = { λ w. IfSome (option_map (λ t. t.now) w.left) IsUtf8 × (w.at + room (option_map (λ t. t.now) w.left) ≤ 2 ^ 32) };
}

impl<'a> LineWords<'a> {
    /// The words of a line, between single spaces.
    pub fn new(line: &'a str) -> LineWords<'a>
        requires { length line.now < 2 ^ 32 }
        ensures { result ≡ (0, parts_of 32 line.now) }
    {
        LineWords {
            at: 0,
            left: Some(line),
        }
    }

    /// The next word, with its byte.
    pub fn next(&mut self) -> Result<(u32, &'a str), LineFault>
        ensures word { MatchResult result (λ p. spec.next self.old ≡ Ok ((p.0, p.1.now), self.new)) (spec.Stops (spec.next self.old)) }
        ensures text { IfOk result (λ p. IsUtf8 p.1.now) }
    {
        let at = self.at;
        match self.left {
            None => Err(LineFault::At(at.saturating_sub(1) as u32, ScriptKind::Word)),
            Some(text) => {
                let (word, left) = first_part(text, ' ');
                self.at = at + word.len() + 1;
                self.left = left;
                Ok((at as u32, word))
            }
        }
    }

    /// Refuses a word more.
    #[tactic(auto, using(crate::proofs::Parts::one_more_word))]
    pub fn end(&mut self) -> Result<(), LineFault>
        ensures { spec.Reads (spec.last self.old) result self.new }
    {
        match self.left {
            None => Ok(()),
            Some(_) => Err(LineFault::At(self.at as u32, ScriptKind::Word)),
        }
    }

    /// The rest of the line, with its byte, where there is more.
    #[tactic(auto, using(crate::proofs::Parts::rest_is_text))]
    pub fn rest(&mut self) -> Option<(u32, &'a str)>
        ensures value { option_map (λ p. (p.0, p.1.now)) result ≡ spec.rest_of self.old.0 self.old.1 }
        ensures text { IfSome result (λ p. IsUtf8 p.1.now) }
        ensures short { IfSome result (λ p. length p.1.now < 2 ^ 32) }
        ensures left { spec.rest self.old ≡ Ok (spec.rest_of self.old.0 self.old.1, self.new) }
    {
        match self.left {
            None => None,
            Some(text) => {
                self.left = None;
                Some((self.at as u32, text))
            }
        }
    }
}
