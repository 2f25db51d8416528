//! Calls that are worked through, and what they show.
use crate::{Event, Pending};
use std::alloc::Global;
use std::test::Fail;
use tokens::{Budget, CatTable, NameTable, Stop, Token, TokenList};

/// What reading needs beside the list.
#[derive(Drop)]
pub struct Desk {
    pub alloc: Global,
    pub categories: CatTable,
    pub names: NameTable,
    pub budget: Budget,
}

impl Desk {
    pub fn new(alloc: Global, steps: u64) -> Desk {
        let mut categories = CatTable::new([12; 256]);
        for byte in 97..123 {
            categories.set(byte, 11);
        }
        categories.set(92, 0);
        categories.set(13, 5);
        categories.set(32, 10);
        categories.set(127, 15);
        Desk {
            alloc,
            categories,
            names: NameTable::new(alloc),
            budget: Budget::new(steps),
        }
    }

    pub fn next(&mut self, pending: &mut Pending) -> Result<Event, Stop> {
        pending.next(&self.categories, 13, &mut self.names, &mut self.budget)
    }
}

/// What comes next, as text, at the end of `text`. Whether more may come.
fn show_next(desk: &mut Desk, pending: &mut Pending, text: &mut Vec<u8>) -> Result<bool, Fail> {
    match desk.next(pending) {
        Ok(Event::Token { token, noexpand }) => {
            if noexpand {
                text.push(b'~')?;
            }
            show_token(token, desk, text)?;
            Ok(true)
        }
        Ok(Event::Eof) => {
            text.extend_from_slice(b"<E>")?;
            Ok(true)
        }
        Ok(Event::SourceEnd { printed }) => {
            text.extend_from_slice(if printed { b"<F>" } else { b"<S>" })?;
            Ok(true)
        }
        Ok(Event::Empty) => Ok(false),
        Err(_) => {
            text.push(b'!')?;
            Ok(false)
        }
    }
}

fn show_token(token: Token, desk: &Desk, text: &mut Vec<u8>) -> Result<(), Fail> {
    match token {
        Token::Char { byte, .. } => text.push(byte)?,
        Token::Name(id) => {
            text.push(b'[')?;
            if id.0 < desk.names.len() {
                text.extend_from_slice(desk.names.text(id))?;
            }
            text.push(b']')?;
        }
        _ => text.push(b'?')?,
    }
    Ok(())
}

/// All that comes next, at most 99 things.
fn show_all(desk: &mut Desk, pending: &mut Pending, text: &mut Vec<u8>) -> Result<(), Fail> {
    for _ in 0..99 {
        if !show_next(desk, pending, text)? {
            break;
        }
    }
    Ok(())
}

/// A call on what is still to be read.
#[derive(Clone, Copy, Debug)]
pub enum Call {
    List(&'static str),
    /// The text of a macro with its arguments.
    Macro(&'static str, &'static [&'static str]),
    /// A token is put back, with its two flags.
    Back {
        byte: u8,
        noexpand: bool,
        paid: bool,
    },
    File(&'static str),
    Pseudo(&'static str, i32),
    EndInput,
    BeginBehindName,
    /// What comes next is shown, or all of it.
    Next,
    All,
}

/// What calls have shown, and what is told behind them.
#[derive(Drop)]
pub struct Shown {
    pub text: Vec<u8>,
    pub steps: u64,
    pub files: u32,
    pub line: u32,
}

/// What these calls show, on this first line and with 99 steps.
pub fn show(alloc: Global, first_line: &str, calls: &[Call]) -> Result<Shown, Fail> {
    let mut desk = Desk::new(alloc, 99);
    let mut pending = Pending::new(alloc, bytes(alloc, first_line)?);
    let mut text = Vec::new(alloc);
    for call in calls {
        make(*call, &mut desk, &mut pending, &mut text)?;
    }
    Ok(Shown {
        text,
        steps: desk.budget.used(),
        files: pending.files(),
        line: pending.line(),
    })
}

fn make(
    call: Call,
    desk: &mut Desk,
    pending: &mut Pending,
    text: &mut Vec<u8>,
) -> Result<(), Fail> {
    match call {
        Call::Next => {
            let _ = show_next(desk, pending, text)?;
            Ok(())
        }
        Call::All => show_all(desk, pending, text),
        _ => change(call, desk, pending),
    }
}

fn change(call: Call, desk: &mut Desk, pending: &mut Pending) -> Result<(), Fail> {
    match call {
        Call::List(letters) => Ok(pending.push_list(list(desk.alloc, letters)?)?),
        Call::Macro(body, texts) => push_macro(desk.alloc, pending, body, texts),
        Call::Back {
            byte,
            noexpand,
            paid,
        } => Ok(pending.back(letter(byte), noexpand, paid)?),
        Call::File(text) => Ok(pending.push_file(bytes(desk.alloc, text)?, -1, &mut desk.budget)?),
        Call::Pseudo(text, newline) => Ok(pending.push_pseudo(bytes(desk.alloc, text)?, newline)?),
        Call::EndInput => {
            pending.end_input();
            Ok(())
        }
        Call::BeginBehindName => Ok(pending.begin_behind_name(13, &mut desk.budget)?),
        _ => Ok(()),
    }
}

fn push_macro(
    alloc: Global,
    pending: &mut Pending,
    body: &str,
    texts: &[&str],
) -> Result<(), Fail> {
    let mut arguments = Vec::new(alloc);
    for text in texts {
        arguments.push(list(alloc, text)?)?;
    }
    Ok(pending.push_macro(list(alloc, body)?, arguments)?)
}

fn letter(byte: u8) -> Token {
    Token::Char { cat: 11, byte }
}

pub fn bytes(alloc: Global, text: &str) -> Result<Vec<u8>, Fail> {
    Ok(Vec::from_slice(alloc, text.as_bytes())?)
}

/// A list of letters, in which a digit stands for an argument.
fn list(alloc: Global, text: &str) -> Result<TokenList, Fail> {
    let mut tokens = Vec::new(alloc);
    for byte in text.as_bytes() {
        tokens.push(token_of(*byte))?;
    }
    Ok(TokenList::from_slice(alloc, tokens.as_slice())?)
}

fn token_of(byte: u8) -> Token {
    if byte >= b'1' && byte <= b'9' {
        Token::Arg(byte - b'0')
    } else {
        letter(byte)
    }
}
