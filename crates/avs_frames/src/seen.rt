// What the machine sees in a turn: a token, with memory for what is made of it.
ghost use Rattle.std.specs.Prelude.{◌≡◌, Some, IfOk};
ghost use Rattle.avs_lex.specs.Tokens.{IsTokenOf};
ghost use Rattle.avs_tree.specs.Lexeme.{lexeme_of};
ghost use Rattle.avs_tree.specs.Lexeme as next;
ghost use Rattle.avs_tree.specs.Machine as machine;
ghost use Rattle.avs_frames.specs.Seen.{lexeme_view, seen};

use crate::memory::Outcome;
use avs_lex::Token;
use avs_tree::{Operator, Punctuation, Symbol, content, symbol_of};
use fv_io::Text;
use std::alloc::Global;

/// A token: its symbol, what it says, and its line.
#[derive(Clone, Copy)]
pub struct Seen<'a> {
    pub alloc: Global,
    pub symbol: Symbol,
    pub content: &'a str,
    pub line: u32,
}

impl<'a> Seen<'a> {
    /// What the grammar sees of this token of the text.
    #[tactic(auto, unfolding(avs_tree::specs::Lexeme::lexeme_of))]
    pub fn new(alloc: Global, text: &'a str, token: &Token) -> Seen<'a>
        requires { IsTokenOf text.now token.now }
        ensures { lexeme_view result ≡ lexeme_of text.now token.now }
    {
        Seen {
            alloc,
            symbol: symbol_of(text, token),
            content: content(text, token),
            line: token.line,
        }
    }

    /// What the token says.
    pub fn text(self) -> Outcome<Text>
        ensures { IfOk result (λ made. made ≡ self.entry.content.now) }
    {
        Ok(Text::from_str(self.alloc, self.content)?)
    }

    /// Whether the token is this punctuation.
    #[tactic(auto, unfolding(avs_tree::specs::Lexeme::is_punctuation))]
    pub fn is(self, punctuation: Punctuation) -> bool
        ensures { result ≡ next.is_punctuation punctuation (seen self.entry) }
    {
        match self.symbol {
            Symbol::Punctuation(found) => found == punctuation,
            _ => false,
        }
    }

    /// The operator that the token is, if it has this precedence.
    #[tactic(auto, unfolding(avs_tree::specs::Lexeme::operator_at))]
    pub fn operator(self, precedence: u8) -> Option<Operator>
        ensures { result ≡ next.operator_at precedence (seen self.entry) }
    {
        match self.symbol {
            Symbol::Operator(op) if op.precedence() == precedence => Some(op),
            _ => None,
        }
    }

    // The least precedence at which the token continues an expression: 9 where it ends any, and 0 where it cannot
    // follow one.
    #[tactic(auto, unfolding(avs_tree::specs::Machine::reach))]
    fn reach(self) -> u8
        ensures { result ≡ machine.reach (Some self.entry.symbol) }
    {
        match self.symbol {
            Symbol::Punctuation(Punctuation::LeftParen) => 0,
            Symbol::Punctuation(Punctuation::Dot) => 1,
            Symbol::Punctuation(Punctuation::Question) => 8,
            Symbol::Operator(op) => op.precedence(),
            _ => 9,
        }
    }

    /// Whether the token continues an expression of this precedence, where one of precedence `highest` may stand.
    #[tactic(auto, unfolding(avs_tree::specs::Machine::continues))]
    pub fn continues(self, precedence: u8, highest: u8) -> bool
        ensures { result ≡ machine.continues precedence highest (seen self.entry) }
    {
        let reach = self.reach();
        precedence < reach && reach <= highest
    }
}
