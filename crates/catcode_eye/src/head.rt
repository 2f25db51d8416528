//! The head of a line: its first byte once each doubled superscript in front of it has been replaced
//! (The TeXbook, chapter 8; `tex.web` 352 and 355).
ghost use Rattle.std.specs.Prelude.{◌≡◌, ◌+◌, ◌<◌, ◌≤◌, ◌∷◌, length, drop, IfSome};
ghost use Rattle.std.specs.Option.{option_map};
ghost use Rattle.catcode_eye.specs.Superscripts.{digit_value, two_digits, shifted, unmarked, replaced, reduced};

use tokens::CatTable;

/// The category of a superscript character.
const SUPERSCRIPT: u8 = 7;

/// A byte with the number of bytes that it is written with.
#[derive(Clone, Copy)]
struct Form {
    byte: u8,
    length: usize,
}

/// A byte of a line with the index in the line of what stands behind it.
#[derive(Clone, Copy)]
pub struct Head {
    pub byte: u8,
    pub next: usize,
}

fn digit_value(byte: u8) -> Option<u8>
    ensures value { result ≡ digit_value byte }
    ensures bound { IfSome result (λ digit. digit < 16) }
{
    match byte {
        b'0'..=b'9' => Some(byte - b'0'),
        b'a'..=b'f' => Some(byte - b'a' + 10),
        _ => None,
    }
}

fn shifted(byte: u8) -> Option<u8>
    ensures { result ≡ shifted byte }
{
    if byte < 64 {
        Some(byte + 64)
    } else if byte < 128 {
        Some(byte - 64)
    } else {
        None
    }
}

/// The byte that two digits name.
fn two_digits(x: u8, y: u8) -> Option<u8>
    ensures { result ≡ two_digits (digit_value x) (digit_value y) }
{
    let high = digit_value(x)?;
    let low = digit_value(y)?;
    Some(16 * high + low)
}

/// What two marks and the bytes behind them stand for.
fn unmarked(rest: &[u8]) -> Option<Form>
    ensures value { unmarked rest.now ≡ option_map (λ form. form.byte ∷ drop form.length rest.now) result }
    ensures forward { IfSome result (λ form. 0 < form.length) }
    ensures within { IfSome result (λ form. form.length ≤ length rest.now) }
{
    match rest {
        [] => None,
        [x] => shifted(*x).map(|byte| Form { byte, length: 1 }),
        [x, y, ..] => {
            if let Some(byte) = two_digits(*x, *y) {
                Some(Form { byte, length: 2 })
            } else {
                shifted(*x).map(|byte| Form { byte, length: 1 })
            }
        }
    }
}

/// The byte that stands for the doubled superscript which begins with `head`, if one does.
fn form_at(line: &[u8], head: Head, cats: &CatTable) -> Option<Head>
    requires { head.next ≤ length line.now }
    ensures value { replaced cats.now (head.byte ∷ drop head.next line.now)
        ≡ option_map (λ form. form.byte ∷ drop form.next line.now) result }
    ensures forward { IfSome result (λ form. head.next < form.next) }
    ensures within { IfSome result (λ form. form.next ≤ length line.now) }
{
    if cats.get(head.byte) != SUPERSCRIPT {
        return None;
    }
    if head.next >= line.len() || line[head.next] != head.byte {
        return None;
    }
    let start = head.next + 1;
    let form = unmarked(&line[start..])?;
    Some(Head {
        byte: form.byte,
        next: start + form.length,
    })
}

/// The head of the rest of a line that begins at the index `at`.
pub fn head_at(line: &[u8], at: usize, cats: &CatTable) -> Head
    requires { at < length line.now }
    ensures value { reduced cats.now (drop at line.now) ≡ result.byte ∷ drop result.next line.now }
    ensures forward { at < result.next }
    ensures within { result.next ≤ length line.now }
{
    let mut head = Head {
        byte: line[at],
        next: at + 1,
    };
    while let Some(form) = form_at(line, head, cats) {
        head = form;
    }
    head
}
