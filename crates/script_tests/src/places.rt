// The parser's answers, each once: a tree, a syntax fault, and too deep a nesting.
use avs_lex::lex;
use avs_parse::{ParseError, parse};
use std::alloc::Global;
use std::test::Fail;

// Why this script has no tree, if it has none.
fn fault(alloc: Global, text: &str) -> Result<Option<ParseError>, Fail> {
    if text.len() >= 1_000 {
        Err("too long")?
    }
    let tokens = lex(alloc, text)?;
    Ok(parse(alloc, text, &tokens).err())
}

#[test]
fn a_script_has_a_tree(rt: HostRuntime) -> Result<(), Fail> {
    let text = "function F(clip c, int \"n\") {\n  return c.Trim(n, -1 + 2 * 3)\n}\nF(Version())\n";
    assert_eq!(rt; fault(rt.alloc(), text)?, None);
    Ok(())
}

#[test]
fn a_syntax_fault_is_at_its_token(rt: HostRuntime) -> Result<(), Fail> {
    let want = Some(ParseError::Syntax { token: 4, line: 3 });
    assert_eq!(rt; fault(rt.alloc(), "a\n\nb c")?, want);
    Ok(())
}

// The 33rd parenthesis.
#[test]
fn too_deep_a_nesting_is_at_its_token(rt: HostRuntime) -> Result<(), Fail> {
    let deepest = "x = (((((((((((((((((((((((((((((((((";
    let want = Some(ParseError::NestLimit { token: 34, line: 1 });
    assert_eq!(rt; fault(rt.alloc(), deepest)?, want);
    Ok(())
}
