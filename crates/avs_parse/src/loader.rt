// `load`: the tree of a text, with the line of its end.
ghost use Rattle.std.specs.Prelude.{◌≡◌, ◌<◌, ◌-◌, ◌^◌, length, IfOk};
ghost use Rattle.avs_lex.specs.Tokens.{IsTokenList, Tokens};
ghost use Rattle.avs_tree.specs.Sizes.{IsScriptShort};
ghost use Rattle.avs_tree.specs.View.{script_view};
ghost use Rattle.avs_parse.specs.Load.{script_of, last_line};
ghost use Rattle.avs_parse.specs.Loads.{Loads, of_text, of_tokens};

use crate::fault::{LoadFault, ParseError};
use crate::script::parse;
use avs_lex::{LexError, Token, lex};
use avs_tree::Script;
use std::alloc::Global;

/// A tree, and the line of the end of its script, counted from 1.
#[derive(Drop)]
pub struct Loaded {
    pub script: Script,
    pub last_line: u32,
}

// The line of the last token.
fn last_line(tokens: &[Token]) -> u32
    ensures { result ≡ last_line tokens.now }
{
    match tokens.last() {
        Some(token) => token.line,
        None => 0,
    }
}

// A fault of the tokens of a text.
fn fault_of_tokens(fault: ParseError) -> LoadFault
    ensures { result ≡ of_tokens fault }
{
    match fault {
        ParseError::Syntax { token: _, line } => LoadFault::Syntax { line },
        ParseError::NestLimit { token: _, line } => LoadFault::NestLimit { line },
        ParseError::Memory => LoadFault::Memory,
    }
}

// A lexical fault of a text.
fn fault_of_text(fault: LexError) -> LoadFault
    ensures { result ≡ of_text fault }
{
    match fault {
        LexError::Fault { kind, line } => LoadFault::Lex { kind, line },
        LexError::Memory => LoadFault::Memory,
    }
}

// The tree of a text with these tokens, or the first fault of them.
#[tactic(auto, using(crate::proofs::LoadLemmas::tree_is, crate::proofs::NumberLemmas::short_script))]
fn tree_of(alloc: Global, text: &str, tokens: &[Token]) -> Result<Loaded, LoadFault>
    requires tokens { Tokens text.now tokens.now }
    requires list { IsTokenList text.now tokens.now }
    ensures tree { Loads (script_of text.now) result }
    ensures short { IfOk result (λ loaded. IsScriptShort (length text.now) (script_view loaded.script)) }
{
    match parse(alloc, text, tokens) {
        Ok(script) => {
            let last_line = last_line(tokens);
            Ok(Loaded { script, last_line })
        }
        Err(fault) => Err(fault_of_tokens(fault)),
    }
}

/// The tree of a text, or its first fault.
pub fn load(alloc: Global, text: &str) -> Result<Loaded, LoadFault>
    requires { length text.now < 2 ^ 32 - 1 }
    ensures tree { Loads (script_of text.now) result }
    // No statement has more expressions and method calls than the text has bytes.
    ensures short { IfOk result (λ loaded. IsScriptShort (length text.now) (script_view loaded.script)) }
{
    match lex(alloc, text) {
        Ok(tokens) => tree_of(alloc, text, &tokens),
        Err(fault) => Err(fault_of_text(fault)),
    }
}
