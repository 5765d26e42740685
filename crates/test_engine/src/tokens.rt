//! Texts with the tokens that they are cut into.
use jd_grammar::token::Token;
use jd_lexer::{Lexer, lex};
use std::alloc::Global;
use std::test::Fail;

const TOKENS: [(&str, &str); 24] = [
    (
        "function if elseif else while for in try catch",
        "Function If Elseif Else While For In Try Catch ",
    ),
    (
        "return break continue end true false nothing using",
        "Return Break Continue End True False Nothing Using ",
    ),
    (
        "@spawnat @fetchfrom @everywhere @distributed",
        "SpawnAt FetchFrom Everywhere Later ",
    ),
    (
        "+ - * ÷ % & | ⊻ ! ~",
        "Plus Minus Star Divide Percent And Or Xor Not Complement ",
    ),
    (
        "== != < <= > >= && ||",
        "Equal Unequal Less LessEqual Greater GreaterEqual AndAlso OrElse ",
    ),
    (
        "? : , -> = += -= *=",
        "Question Colon Comma Arrow Assign PlusAssign MinusAssign StarAssign ",
    ),
    (
        "( ) [ ] { } ; \n",
        "OpenParen CloseParen OpenBracket CloseBracket OpenBrace CloseBrace Semicolon LineEnd ",
    ),
    (
        "--> <=- ===&&&",
        "Minus Arrow LessEqual Minus Equal Assign AndAlso And ",
    ),
    (
        "println max push! Int",
        "Name(Word(Println)) Name(Word(Max)) Name(Word(Push)) Name(Word(Int)) ",
    ),
    ("b a_1 b", "Name(Other(0)) Name(Other(1)) Name(Other(0)) "),
    ("put! Channel remote_do", "Later Later Later "),
    // One `!` ends a name where no `=` follows.
    ("a! a", "Name(Other(0)) Name(Other(1)) "),
    ("a!=b", "Name(Other(0)) Unequal Name(Other(1)) "),
    ("a!==b", "Name(Other(0)) Unequal Assign Name(Other(1)) "),
    ("a!!", "Name(Other(0)) Not "),
    ("end! push", "Name(Other(0)) Name(Other(1)) "),
    (
        "1_ 1__0 1_0",
        "Number(1) Name(Other(0)) Number(1) Name(Other(1)) Number(10) ",
    ),
    (
        "9223372036854775807 9223372036854775808 9223372036854775809 99999999999999999999",
        "Number(9223372036854775807) Wide(true) Wide(false) Wide(false) ",
    ),
    ("\"a\" \"\"", "Text(0) Text(1) "),
    // Where a line goes on.
    ("a +\n # c\n\nb", "Name(Other(0)) Plus Name(Other(1)) "),
    (
        "?\n:\n->\n=\n,\n!=\n÷\n1",
        "Question Colon Arrow Assign Comma Unequal Divide Number(1) ",
    ),
    (
        "+=\n!\n~\nin\n",
        "PlusAssign LineEnd Not LineEnd Complement LineEnd In LineEnd ",
    ),
    (
        "(\n[\n]\n)\n",
        "OpenParen OpenBracket CloseBracket CloseParen LineEnd ",
    ),
    ("{\n}\r\n", "OpenBrace LineEnd CloseBrace LineEnd "),
];

/// The tokens, and where reading stopped.
fn read<'a>(alloc: Global, text: &'a str) -> Result<(Lexer<'a>, Option<usize>), Fail> {
    if text.len() > 100 {
        return Err(Fail::from("the text is too long"));
    }
    Ok(lex(alloc, text.as_bytes())?)
}

fn write_kinds(tokens: &[Token], out: &mut String) -> Result<(), Fail> {
    for token in tokens {
        let kind = token.kind;
        write!(out, "{kind:?} ")?;
    }
    Ok(())
}

/// The kinds of the tokens, where all of the text was read.
fn kinds_of(alloc: Global, text: &str) -> Result<String, Fail> {
    let (lexer, stop) = read(alloc, text)?;
    let mut kinds = String::new(alloc);
    let written = write_kinds(lexer.tokens.as_slice(), &mut kinds);
    drop(lexer);
    written?;
    if stop.is_some() {
        kinds.push('?')?;
    }
    Ok(kinds)
}

#[test]
fn texts_are_the_longest_tokens_that_fit(rt: HostRuntime) -> Result<(), Fail> {
    for (text, expected) in &TOKENS {
        let kinds = kinds_of(rt.alloc(), text)?;
        let agrees = kinds.as_str() == *expected;
        drop(kinds);
        assert!(&rt; agrees, "{text}");
    }
    Ok(())
}

const STOPS: [(&str, usize); 8] = [
    ("a @b", 2),
    ("1 @spawnatx", 2),
    ("\"a", 0),
    ("a \"\\q\"", 2),
    ("\"$\"", 0),
    ("a\rb", 1),
    ("1 é", 2),
    ("a . b", 2),
];

fn stop_of(alloc: Global, text: &str) -> Result<Option<usize>, Fail> {
    let (lexer, stop) = read(alloc, text)?;
    drop(lexer);
    Ok(stop)
}

#[test]
fn reading_stops_where_no_token_begins(rt: HostRuntime) -> Result<(), Fail> {
    for (text, place) in &STOPS {
        let stop = stop_of(rt.alloc(), text)?;
        assert!(&rt; stop == Some(*place), "{text}");
    }
    Ok(())
}

fn write_places(tokens: &[Token], out: &mut String) -> Result<(), Fail> {
    for token in tokens {
        let Token {
            start,
            end,
            spaced,
            ..
        } = *token;
        write!(out, "{start}-{end} {spaced} ")?;
    }
    Ok(())
}

fn are_texts(lexer: &Lexer, text: &[u8]) -> bool {
    match lexer.texts.as_slice() {
        [only] => only.as_slice() == text,
        _ => false,
    }
}

/// Whether the text has tokens at these places, and this one text among them.
fn is_cut(alloc: Global, text: &str, places: &str, inside: &str) -> Result<bool, Fail> {
    let (lexer, _) = read(alloc, text)?;
    let mut shown = String::new(alloc);
    let written = write_places(lexer.tokens.as_slice(), &mut shown);
    let agrees = are_texts(&lexer, inside.as_bytes()) && shown.as_str() == places;
    drop(lexer);
    drop(shown);
    written?;
    Ok(agrees)
}

const PLACES: &str =
    "0-2 false 3-4 true 4-6 true 6-14 false 14-15 false 15-16 false 16-17 false 17-18 false 18-19 true ";

#[test]
fn tokens_keep_their_places_and_texts_their_bytes(rt: HostRuntime) -> Result<(), Fail> {
    let agrees = is_cut(rt.alloc(), "ab#\n÷\"\\n\\$é\"(1)\n2", PLACES, "\n$é")?;
    assert!(rt; agrees);
    Ok(())
}
