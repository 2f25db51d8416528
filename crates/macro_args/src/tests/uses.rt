//! Uses of macros as The TeXbook describes them, chapter 20.
use crate::{ArgScan, Refusal, Rules, Verdict, takes_tokens};
use std::alloc::{AllocError, Global};
use std::test::Fail;
use tokens::{NameId, Token, TokenList};

/// The name `par`.
const PAR: Token = Token::Name(NameId(1000));

fn character(byte: u8) -> Token {
    let cat = match byte {
        b'{' => 1,
        b'}' => 2,
        b'$' => 3,
        b' ' => 10,
        b'A'..=b'Z' | b'a'..=b'z' => 11,
        _ => 12,
    };
    Token::Char { cat, byte }
}

/// The tokens of a text, in which a digit behind # is a parameter, a byte behind a backslash a name, and P is
/// `\par`.
fn tokens(alloc: Global, text: &[u8]) -> Result<Vec<Token>, AllocError> {
    let mut tokens = Vec::new(alloc);
    let mut mark = 0;
    for byte in text {
        let token = match mark {
            b'#' => Token::Arg(byte.saturating_sub(b'0')),
            b'\\' => Token::Name(NameId(u64::from(*byte))),
            _ => if *byte == b'P' { PAR } else { character(*byte) },
        };
        let marks = mark == 0 && (*byte == b'#' || *byte == b'\\');
        mark = if marks { *byte } else { 0 };
        if !marks {
            tokens.push(token)?;
        }
    }
    Ok(tokens)
}

/// Hands the text to a reader until it answers otherwise than `Need`. What it answered then, how many tokens were
/// taken, and the arguments.
fn used(
    alloc: Global,
    long: bool,
    parameters: &[u8],
    text: &[u8],
) -> Result<(Verdict, usize, Vec<TokenList>), Fail> {
    let parameters = TokenList::from_slice(alloc, tokens(alloc, parameters)?.as_slice())?;
    if !takes_tokens(&parameters) {
        return Ok((Verdict::Done, 0, Vec::new(alloc)));
    }
    let rules = Rules {
        long,
        par: NameId(1000),
    };
    let mut scan = ArgScan::new(alloc, rules, parameters);
    let text = tokens(alloc, text)?;
    for (i, token) in text.as_slice().iter().enumerate() {
        let verdict = scan.take(*token)?;
        if verdict != Verdict::Need {
            return Ok((verdict, i + 1, scan.arguments()));
        }
    }
    Ok((Verdict::Need, text.len(), scan.arguments()))
}

/// Whether the whole text, and no less, is a use with these arguments.
fn gives(alloc: Global, parameters: &[u8], text: &[u8], arguments: &[&[u8]]) -> Result<bool, Fail> {
    let (verdict, taken, found) = used(alloc, false, parameters, text)?;
    if verdict != Verdict::Done
        || taken != tokens(alloc, text)?.len()
        || found.len() != arguments.len()
    {
        return Ok(false);
    }
    for (list, argument) in found.as_slice().iter().zip(arguments.iter()) {
        let wanted = TokenList::from_slice(alloc, tokens(alloc, argument)?.as_slice())?;
        if !list.is_same(&wanted) {
            return Ok(false);
        }
    }
    Ok(true)
}

/// Whether the text is refused at its last token.
fn refuses(alloc: Global, parameters: &[u8], text: &[u8], refusal: Refusal) -> Result<bool, Fail> {
    let (verdict, taken, _found) = used(alloc, false, parameters, text)?;
    Ok(verdict == Verdict::Refused(refusal) && taken == tokens(alloc, text)?.len())
}

#[test]
fn arguments_of_each_shape(rt: HostRuntime) -> Result<(), Fail> {
    let alloc = rt.alloc();
    let rows: [(&[u8], &[u8], &[&[u8]]); 12] = [
        (b"#1.", b"xy.", &[b"xy"]),
        (
            b"AB#1#2C$#3\\$ ",
            b"AB {\\L}C${And\\$ }{look}\\$ ",
            &[b"\\L", b"", b"{And\\$ }{look}"],
        ),
        (b"#1aab", b"aaab", &[b"a"]),
        (b"#1{", b"xy{", &[b"xy"]),
        (b"#1#2.", b"  x.", &[b"x", b""]),
        (b"#1.", b"{a.b}.", &[b"a.b"]),
        (b"#1.", b"{a}{b}.", &[b"{a}{b}"]),
        (b"#1", b"{{a}}", &[b"{a}"]),
        (b"#1P!", b"PaP!", &[b"Pa"]),
        (
            b"#1#2#3#4#5#6#7#8#9",
            b"1 2{34}5 678{}{{9}}",
            &[b"1", b"2", b"34", b"5", b"6", b"7", b"8", b"", b"{9}"],
        ),
        (b"ab", b"ab", &[]),
        (b"", b"", &[]),
    ];
    for (parameters, text, arguments) in &rows {
        assert!(rt; gives(alloc, parameters, text, arguments)?);
    }
    Ok(())
}

#[test]
fn troubles_come_at_their_token(rt: HostRuntime) -> Result<(), Fail> {
    let alloc = rt.alloc();
    let rows: [(&[u8], &[u8], Refusal); 8] = [
        (b"AB#1", b"AC", Refusal::NoMatch),
        (b"A#1", b"}", Refusal::NoMatch),
        (b"#1.", b"a}", Refusal::ExtraBrace),
        (b"#1", b" }", Refusal::ExtraBrace),
        (b"#1.", b"aP", Refusal::ParagraphEnded),
        (b"#1", b"P", Refusal::ParagraphEnded),
        (b"#1", b"{aP", Refusal::ParagraphEnded),
        (b"#1P!", b"{P", Refusal::ParagraphEnded),
    ];
    for (parameters, text, refusal) in &rows {
        assert!(rt; refuses(alloc, parameters, text, *refusal)?);
    }
    let (verdict, taken, _found) = used(alloc, true, b"#1.", b"aPb.")?;
    assert_eq!(rt; verdict, Verdict::Done);
    assert_eq!(rt; taken, 4);
    Ok(())
}
