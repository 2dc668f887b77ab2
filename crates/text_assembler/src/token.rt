//! Tokens (6.3).

ghost use Rattle.std.specs.Prelude.{◌≡◌};
ghost use Rattle.text_assembler.specs.Inside.Answers.{IsMalformed};

use crate::fault::ReadError;
use std::marker::Model;
use wasm_ast::{Bytes, ValType};

/// What a token is.
#[derive(Drop)]
pub enum Lexeme {
    /// `(`
    Open,
    /// `)`
    Close,
    /// A word: a keyword, a number or an identifier.
    Word(Bytes),
    /// A string, with the bytes that it denotes.
    Text(Bytes),
}

/// A token of a text. Contracts do not see where it is.
#[derive(Drop)]
pub struct Token {
    lexeme: Lexeme,
    left: usize,
}

impl Model for Token {
    ghost use Rattle.text_assembler.specs.declared.token.Lexeme.{Lexeme};

    ghost Value = { Lexeme };

    ghost view = { λ t. t.lexeme };
}

impl Token {
    /// A token, and how many bytes of the text are left where it begins.
    pub fn new(lexeme: Lexeme, left: usize) -> Token
        ensures { result ≡ lexeme }
    {
        Token { lexeme, left }
    }

    /// What it is.
    pub fn lexeme(&self) -> &Lexeme
        ensures { result.now ≡ self.now }
    {
        &self.lexeme
    }

    /// That no module is denoted: the fault is where this token begins.
    pub fn fault(&self) -> ReadError
        ensures { IsMalformed result }
    {
        ReadError::Malformed { left: self.left }
    }
}

/// A value type as it is written. Contracts do not see where it is.
#[derive(Drop)]
pub struct WrittenType {
    val_type: ValType,
    left: usize,
}

impl Model for WrittenType {
    ghost use Rattle.wasm_ast.specs.declared.values.ValType.{ValType};

    ghost Value = { ValType };

    ghost view = { λ w. w.val_type };
}

impl WrittenType {
    /// A type, and how many tokens are left where it is.
    pub fn new(val_type: ValType, left: usize) -> WrittenType
        ensures { result ≡ val_type }
    {
        WrittenType { val_type, left }
    }

    /// Which type it is.
    pub fn val_type(&self) -> ValType
        ensures { result ≡ self.now }
    {
        self.val_type
    }

    /// How many tokens are left where it is.
    pub fn left(&self) -> usize {
        self.left
    }

    /// The same type at the same place.
    pub fn copy(&self) -> WrittenType
        ensures { result ≡ self.now }
    {
        WrittenType::new(self.val_type, self.left)
    }
}
