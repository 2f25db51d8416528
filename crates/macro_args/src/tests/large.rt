//! Arguments of many tokens.
use crate::{ArgScan, Rules, Verdict};
use std::test::Fail;
use tokens::{NameId, Token, TokenList};

/// How many tokens the argument has.
const TOKENS: usize = 20_000;

#[test]
fn long_arguments(rt: HostRuntime) -> Result<(), Fail> {
    let alloc = rt.alloc();
    let end = Token::Char {
        cat: 12,
        byte: b'.',
    };
    let parameters = TokenList::from_slice(alloc, [Token::Arg(1), end].as_slice())?;
    let rules = Rules {
        long: false,
        par: NameId(0),
    };
    let mut scan = ArgScan::new(alloc, rules, parameters);
    for _ in 0..TOKENS {
        assert_eq!(rt;
            scan.take(Token::Char {
                cat: 11,
                byte: b'a'
            })?,
            Verdict::Need
        );
    }
    assert_eq!(rt; scan.take(end)?, Verdict::Done);
    let arguments = scan.arguments();
    assert_eq!(rt; arguments.len(), 1);
    assert_eq!(rt; arguments[0].as_slice().len(), TOKENS);
    Ok(())
}
