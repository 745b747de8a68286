// Scripts as text, which is read again.
use avs_lex::lex;
use avs_parse::parse;
use avs_print::print;
use avs_tree::Script;
use fv_io::Text;
use std::alloc::Global;
use std::test::Fail;

// The tree of a script that has one.
fn tree(alloc: Global, text: &str) -> Result<Script, Fail> {
    if text.len() >= 10_000_000 {
        Err("too long")?
    }
    let tokens = lex(alloc, text)?;
    Ok(parse(alloc, text, &tokens)?)
}

// What is printed of a script, and of that again.
fn printed_twice(alloc: Global, text: &str) -> Result<(Text, Text), Fail> {
    let first = print(alloc, &tree(alloc, text)?)?;
    let second = print(alloc, &tree(alloc, first.as_str())?)?;
    Ok((first, second))
}

#[test]
fn scripts_are_printed_and_read_again(rt: HostRuntime) -> Result<(), Fail> {
    for (text, wanted) in [
        ("a=1+2*3", "a = 1 + 2 * 3\n"),
        ("a=$FFFFFFFF", "a = 4294967295\n"),
        ("a=$ffffffffffffffff", "a = $FFFFFFFFFFFFFFFF\n"),
        (
            "f(x=-1,\"b\").g.h(2)",
            "f ( x = - 1 , \"b\" ) . g . h ( 2 )\n",
        ),
        ("x=\"\"\"a\"b\"\"\"", "x = \"\"\"a\"b\"\"\"\n"),
        ("return a?b:!c", "return a ? b : ! c\n"),
        (
            "if(a){b}else if(c){d\ne}else{}",
            "if ( a ) { b\n} else if ( c ) { d\ne\n} else { }\n",
        ),
        (
            "for(i=0,9,2){global j=i}",
            "for ( i = 0 , 9 , 2 ) { global j = i\n}\n",
        ),
        (
            "a\nfunction F(clip c,int \"n\"){c}\nb",
            "function F ( clip c , int \"n\" ) { c\n}\na\nb\n",
        ),
        ("while(yes){}", "while ( true ) { }\n"),
    ] {
        let (first, second) = printed_twice(rt.alloc(), text)?;
        assert_eq!(rt;
            (first.as_str(), second.as_str()),
            (wanted, wanted),
            "{text}"
        );
    }
    Ok(())
}

// A script of 1 MiB, which is the most that the program reads.
#[test]
fn a_script_of_1_mib_is_printed_and_read_again(rt: HostRuntime) -> Result<(), Fail> {
    let alloc = rt.alloc();
    let mut text = String::new(alloc);
    for _ in 0..174_762 {
        text.push_str("x = 1\n")?;
    }
    let (first, second) = printed_twice(alloc, text.as_str())?;
    assert!(rt; first.as_str() == text.as_str(), "as it was written");
    assert!(rt; second.as_str() == text.as_str(), "as it was read again");
    Ok(())
}
