//! A cursor over the tokens of a text.

ghost use Rattle.std.specs.Prelude.{◌≡◌, ◌<◌, ◌≤◌, ◌+◌, ◌^◌, length, OnOk};
ghost use Rattle.spec_syntax.specs.Input as spec;
ghost use Rattle.spec_syntax.specs.Input.{ParsesUnlessOom};

use spec_syntax::{ParseErr, Piece, Tag, same_tag};
use std::marker::Model;

/// How many operators and operands one expression may have.
pub const MAX_PARTS: u16 = 256;

/// The tokens from here on, and how many operators and operands the expression may still have.
#[derive(Drop)]
pub struct Cursor<'a> {
    pieces: &'a [Piece<'a>],
    left: u16,
}

impl<'a> Model for Cursor<'a> {
    ghost use Rattle.spec_syntax.specs.Input.{Input};

    ghost Value = { Input };

    ghost use Rattle.std.specs.Prelude.{map};

    ghost view = { λ c. record { rest = map (λ p. (p.tag, p.text.now)) c.pieces.now; left = c.left } };
}

impl<'a> Cursor<'a> {
    /// At the first of these tokens.
    pub fn new(pieces: &'a [Piece<'a>]) -> Cursor<'a>
        ensures { result ≡ spec.start (spec.syms pieces.now) }
    {
        Cursor { pieces, left: 0 }
    }

    /// What comes next.
    #[tactic(auto, unfolding(spec_syntax::specs::Input::tag))]
    pub fn peek(&self) -> Tag
        ensures { result ≡ spec.tag self.now }
    {
        match self.pieces {
            [] => Tag::End,
            [piece, ..] => piece.tag,
        }
    }

    /// Takes the token, and answers its text.
    #[tactic(auto, unfolding(spec_syntax::specs::Input::text, spec_syntax::specs::Input::next))]
    pub fn take(&mut self) -> &'a str
        ensures text { result.now ≡ spec.text self.old }
        ensures next { self.new ≡ spec.next self.old }
    {
        match self.pieces {
            [] => "",
            [piece, rest @ ..] => {
                self.pieces = rest;
                piece.text
            }
        }
    }

    /// Whether a token of the tag comes next.
    #[tactic(auto, unfolding(spec_syntax::specs::Input::sees))]
    pub fn sees(&self, tag: Tag) -> bool
        ensures { result ≡ spec.sees tag self.now }
    {
        match self.pieces {
            [] => false,
            [piece, ..] => same_tag(piece.tag, tag),
        }
    }

    /// Whether a `(` stands behind the next token.
    #[tactic(auto, unfolding(spec_syntax::specs::Input::calls))]
    pub fn calls(&self) -> bool
        ensures { result ≡ spec.calls self.now }
    {
        match self.pieces {
            [_, piece, ..] => same_tag(piece.tag, Tag::Open),
            _ => false,
        }
    }

    /// Takes the token if it has the tag.
    #[tactic(auto, unfolding(spec_syntax::specs::Input::after))]
    pub fn eat(&mut self, tag: Tag) -> bool
        ensures found { result ≡ spec.sees tag self.old }
        ensures after { self.new ≡ spec.after tag self.old }
    {
        let found = self.sees(tag);
        if found {
            self.take();
        }
        found
    }

    /// Takes the token, which must have the tag.
    #[tactic(auto, unfolding(spec_syntax::specs::Input::expect))]
    pub fn expect(&mut self, tag: Tag) -> Result<(), ParseErr>
        ensures { ParsesUnlessOom (spec.expect tag self.old) result self.new }
    {
        if self.sees(tag) {
            self.take();
            Ok(())
        } else {
            Err(ParseErr::Syntax)
        }
    }

    /// How many tokens are left.
    #[tactic(auto, unfolding(spec_syntax::specs::Input::tokens_left))]
    pub fn tokens_left(&self) -> usize
        ensures { result ≡ spec.tokens_left self.now }
    {
        self.pieces.len()
    }

    /// How many operators and operands the expression may still have.
    pub fn left(&self) -> u16
        ensures { result ≡ self.now.left }
    {
        self.left
    }

    /// Begins an expression.
    #[tactic(auto, unfolding(spec_syntax::specs::Input::begin))]
    pub fn begin(&mut self)
        ensures { self.new ≡ spec.begin self.old }
    {
        self.left = MAX_PARTS;
    }

    /// Counts an operator or an operand.
    #[tactic(auto, unfolding(spec_syntax::specs::Input::spend))]
    pub fn spend(&mut self) -> Result<(), ParseErr>
        ensures { ParsesUnlessOom (spec.spend self.old) result self.new }
    {
        if self.left == 0 {
            return Err(ParseErr::Syntax);
        }
        self.left -= 1;
        Ok(())
    }

    /// Takes each token of the tag that comes next, and counts it.
    pub fn repeated(&mut self, tag: Tag) -> Result<u16, ParseErr>
        ensures { ParsesUnlessOom (spec.repeated tag self.old) result self.new }
    {
        let before = self.left;
        while self.eat(tag) {
            self.spend()?;
        }
        Ok(before - self.left)
    }
}
