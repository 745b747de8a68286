// `parse`: the tree of tokens, or the place of their first fault.
ghost use Rattle.std.specs.Prelude.{◌≡◌, ◌-◌, ◌<◌, ◌≤◌, length, drop, IfOk, IfErr, IsOk};
ghost use Rattle.avs_lex.specs.Tokens.{IsTokenList};
ghost use Rattle.avs_tree.specs.Lexeme.{lexemes, line_of};
ghost use Rattle.avs_tree.specs.Grammar.{HasTree};
ghost use Rattle.avs_tree.specs.View.{script_view};
ghost use Rattle.avs_tree.specs.Place.{verdict};
ghost use Rattle.avs_parse.specs.Place.{TellsPlace, TellsLine, HasNoTree, IsNamed};
ghost use Rattle.avs_parse.specs.Turns.{AreFew};
ghost use Rattle.avs_parse.specs.VerdictView.{verdict_view};

use crate::fault::ParseError;
use crate::machine::{Counted, Verdict, run};
use avs_frames::Outcome;
use avs_lex::Token;
use avs_tree::Script;
use std::alloc::Global;

// The number of a token as one of 32 bits: it is at most the offset at which the token starts.
fn narrow(number: usize, start: u32) -> u32
    requires { number ≤ start }
    ensures { result ≡ number }
{
    number as u32
}

// The number of the token from which on this many are left, and its line.
fn place(text: &str, tokens: &[Token], left: usize) -> (u32, u32)
    requires list { IsTokenList text.now tokens.now }
    requires some { 0 < left }
    requires within { left ≤ length tokens.now }
    ensures token { result.0 ≡ length tokens.now - left }
    ensures line { result.1 ≡ line_of (drop (length tokens.now - left) (lexemes text.now tokens.now)) }
{
    let number = tokens.len() - left;
    let token = tokens[number];
    (narrow(number, token.start), token.line)
}

// What is answered for a verdict. A fault is called what it is.
fn told(text: &str, tokens: &[Token], ended: Verdict) -> Result<Script, ParseError>
    requires list { IsTokenList text.now tokens.now }
    requires verdict { verdict_view ended ≡ verdict (lexemes text.now tokens.now) }
    ensures tree { IfOk result (λ made. HasTree (lexemes text.now tokens.now) (script_view made)) }
    ensures place { IfErr result (TellsPlace (lexemes text.now tokens.now)) }
    ensures line { IfErr result (TellsLine (lexemes text.now tokens.now)) }
    ensures fault { IfErr result (HasNoTree (lexemes text.now tokens.now)) }
    ensures named { IfErr result IsNamed }
{
    match ended {
        Verdict::Accepts(script) => Ok(script),
        Verdict::Stops(left) => {
            let (token, line) = place(text, tokens, left);
            Err(ParseError::Syntax { token, line })
        }
        Verdict::TooDeep(left) => {
            let (token, line) = place(text, tokens, left);
            Err(ParseError::NestLimit { token, line })
        }
    }
}

// What is answered for a run: out of memory exactly where memory ran out in it.
fn answered(text: &str, tokens: &[Token], answer: Outcome<Verdict>) -> Result<Script, ParseError>
    requires list { IsTokenList text.now tokens.now }
    requires verdict { IfOk answer (λ ended. verdict_view ended ≡ verdict (lexemes text.now tokens.now)) }
    ensures tree { IfOk result (λ made. HasTree (lexemes text.now tokens.now) (script_view made)) }
    ensures place { IfErr result (TellsPlace (lexemes text.now tokens.now)) }
    ensures line { IfErr result (TellsLine (lexemes text.now tokens.now)) }
    ensures fault { IfErr result (HasNoTree (lexemes text.now tokens.now)) }
    ensures named { IsOk answer → IfErr result IsNamed }
{
    match answer {
        Ok(ended) => told(text, tokens, ended),
        Err(_) => Err(ParseError::Memory),
    }
}

/// What `parse` answers, and how many turns it took.
pub struct Parsed {
    pub answer: Result<Script, ParseError>,
    pub turns: u64,
}

/// The same as `parse`, with how many turns it took, also where memory ran out. In a turn at most one thing is taken from a
/// stack, and at most two are put.
pub fn parse_in_turns(alloc: Global, text: &str, tokens: &[Token]) -> Parsed
    requires { IsTokenList text.now tokens.now }
    ensures tree { IfOk result.answer (λ made. HasTree (lexemes text.now tokens.now) (script_view made)) }
    ensures place { IfErr result.answer (TellsPlace (lexemes text.now tokens.now)) }
    ensures line { IfErr result.answer (TellsLine (lexemes text.now tokens.now)) }
    ensures fault { IfErr result.answer (HasNoTree (lexemes text.now tokens.now)) }

    // At most three turns a token.
    ensures steps { AreFew result.turns (length tokens.now) }
{
    let Counted { answer, turns } = run(alloc, text, tokens);
    let answer = answered(text, tokens, answer);
    Parsed { answer, turns }
}

/// The tree of the tokens that `lex` gave of this text, or their first fault.
pub fn parse(alloc: Global, text: &str, tokens: &[Token]) -> Result<Script, ParseError>
    requires { IsTokenList text.now tokens.now }

    // The tree is the one that the grammar gives.
    ensures tree { IfOk result (λ made. HasTree (lexemes text.now tokens.now) (script_view made)) }

    // A fault names the first token at which no script goes on, or at which each nests too deep, and its line.
    ensures place { IfErr result (TellsPlace (lexemes text.now tokens.now)) }
    ensures line { IfErr result (TellsLine (lexemes text.now tokens.now)) }

    // A fault comes only where the grammar gives no tree within the limit of nesting.
    ensures fault { IfErr result (HasNoTree (lexemes text.now tokens.now)) }
{
    let Parsed { answer, turns: _ } = parse_in_turns(alloc, text, tokens);
    answer
}
