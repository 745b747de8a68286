// What the grammar sees of a token.
ghost use Rattle.std.specs.Prelude.{◌≡◌};
ghost use Rattle.std.specs.List.{list_all};
ghost use Rattle.avs_lex.specs.Spelling.{continues_name, IsQuoted, quotes_of};
ghost use Rattle.avs_lex.specs.Tokens.{IsTokenOf};
ghost use Rattle.avs_tree.specs.Lexeme.{unquoted, content_of, symbol_of, spells_name, is_name};

use crate::tree::Operator;
use crate::words::{Keyword, reserved_word};
use avs_lex::{Token, TokenKind, begins_name, continues_name};

/// Punctuation other than operators, and the ends of lines and of the script.
#[derive(Clone, Copy, Debug, PartialEq, Eq)]
pub enum Punctuation {
    Newline,
    End,
    LeftParen,
    RightParen,
    LeftBrace,
    RightBrace,
    Comma,
    Dot,
    Assign,
    Not,
    Question,
    Colon,
}

/// What a token is to the grammar.
#[derive(Clone, Copy, Debug, PartialEq, Eq)]
pub enum Symbol {
    Name,
    Int(i64),
    Str,
    Keyword(Keyword),
    Operator(Operator),
    Punctuation(Punctuation),
}

// What is between the quotes of a string.
#[tactic(auto, unfolding(crate::specs::Lexeme::unquoted))]
fn unquoted(bytes: &str) -> &str
    requires { IsQuoted bytes.now }
    ensures { result.now ≡ unquoted bytes.now }
{
    let width = quotes(bytes);
    &bytes[width..bytes.len() - width]
}

// How many quotes there are at each end of a string.
fn quotes(bytes: &str) -> usize
    ensures { result ≡ quotes_of bytes.now }
{
    if bytes.as_bytes().starts_with(b"\"\"\"") {
        3
    } else {
        1
    }
}

/// What a token says: of a string what is between its quotes, else all of it.
pub fn content<'a>(text: &'a str, token: &Token) -> &'a str
    requires { IsTokenOf text.now token.now }
    ensures { result.now ≡ content_of text.now token.now }
{
    let bytes = &text[token.start as usize..token.end as usize];
    match token.kind {
        TokenKind::Str => unquoted(bytes),
        _ => bytes,
    }
}

/// What a token is to the grammar.
pub fn symbol_of(text: &str, token: &Token) -> Symbol
    requires { IsTokenOf text.now token.now }
    ensures { result ≡ symbol_of text.now token.now }
{
    match token.kind {
        TokenKind::Ident => match reserved_word(content(text, token)) {
            Some(keyword) => Symbol::Keyword(keyword),
            None => Symbol::Name,
        },
        TokenKind::Int(number) => Symbol::Int(number),
        TokenKind::Str => Symbol::Str,
        TokenKind::Newline => Symbol::Punctuation(Punctuation::Newline),
        TokenKind::End => Symbol::Punctuation(Punctuation::End),
        TokenKind::LeftParen => Symbol::Punctuation(Punctuation::LeftParen),
        TokenKind::RightParen => Symbol::Punctuation(Punctuation::RightParen),
        TokenKind::LeftBrace => Symbol::Punctuation(Punctuation::LeftBrace),
        TokenKind::RightBrace => Symbol::Punctuation(Punctuation::RightBrace),
        TokenKind::Comma => Symbol::Punctuation(Punctuation::Comma),
        TokenKind::Dot => Symbol::Punctuation(Punctuation::Dot),
        TokenKind::Assign => Symbol::Punctuation(Punctuation::Assign),
        TokenKind::Not => Symbol::Punctuation(Punctuation::Not),
        TokenKind::Question => Symbol::Punctuation(Punctuation::Question),
        TokenKind::Colon => Symbol::Punctuation(Punctuation::Colon),
        TokenKind::Equal => Symbol::Operator(Operator::Equal),
        TokenKind::NotEqual => Symbol::Operator(Operator::NotEqual),
        TokenKind::Less => Symbol::Operator(Operator::Less),
        TokenKind::LessEqual => Symbol::Operator(Operator::LessEqual),
        TokenKind::Greater => Symbol::Operator(Operator::Greater),
        TokenKind::GreaterEqual => Symbol::Operator(Operator::GreaterEqual),
        TokenKind::Plus => Symbol::Operator(Operator::Plus),
        TokenKind::PlusPlus => Symbol::Operator(Operator::PlusPlus),
        TokenKind::Minus => Symbol::Operator(Operator::Minus),
        TokenKind::Times => Symbol::Operator(Operator::Times),
        TokenKind::Divide => Symbol::Operator(Operator::Divide),
        TokenKind::Remainder => Symbol::Operator(Operator::Remainder),
        TokenKind::AndAnd => Symbol::Operator(Operator::And),
        TokenKind::OrOr => Symbol::Operator(Operator::Or),
    }
}

fn continues_names(bytes: &[u8]) -> bool
    ensures { result ≡ list_all continues_name bytes.now }
{
    bytes.iter().all(|c| continues_name(*c))
}

// Whether these are a letter or `_`, and then letters, digits and `_`.
#[tactic(auto, unfolding(crate::specs::Lexeme::spells_name))]
fn spells_name(bytes: &[u8]) -> bool
    ensures { result ≡ spells_name bytes.now }
{
    match bytes {
        [first, ..] => begins_name(*first) && continues_names(bytes),
        [] => false,
    }
}

/// Whether a text is a name, and no reserved word.
#[tactic(auto, unfolding(crate::specs::Lexeme::is_name))]
pub fn is_name(text: &str) -> bool
    ensures { result ≡ is_name text.now }
{
    spells_name(text.as_bytes()) && reserved_word(text).is_none()
}
