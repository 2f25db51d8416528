//! The shape of printed bytes: line ends at \newlinechar and after the 79th byte of a line, and
//! forms such as `^^M` for what can't be shown (tex.web 48, 54 to 60).
ghost use Rattle.std.specs.Prelude.{◌≡◌, ℕ, ◌+◌, ◌<◌, ◌≤◌, ◌++◌, length, take, drop, IsTrue, IfOk, OnOk, OnErr};
ghost use Rattle.std.specs.List.{list_all};
ghost use Rattle.std.specs.Io.{StartsWith};
ghost use Rattle.world.specs.Printed.{byte_put, bytes_put, hex_digit, visible, is_newline, is_plain, byte_printed, printed};

use std::alloc::AllocError;

/// The byte in this column is the 79th of its line, and the line ends after it.
const LAST_COLUMN: u8 = 78;

/// Adds printed bytes to `out` from a column on, and answers the column after them.
pub fn append_printed(
    out: &mut Vec<u8>,
    column: u8,
    bytes: &[u8],
    newline: i32,
) -> Result<u8, AllocError>
    requires { column < 79 }
    ensures bytes { OnOk result (out.new.items ≡ out.old.items ++ (printed newline bytes.now column).bytes) }
    ensures column { IfOk result (λ after. after ≡ (printed newline bytes.now column).column) }
    ensures bound { IfOk result (λ after. after < 79) }
    ensures err { OnErr result (out.new.items ≡ out.old.items) }
{
    let start = out.len();
    match append_all(out, column, bytes, newline) {
        Ok(after) => Ok(after),
        Err(error) => {
            out.truncate(start);
            Err(error)
        }
    }
}

/// The column after printed bytes, where only the column is kept.
pub fn column_after(column: u8, bytes: &[u8], newline: i32) -> u8
    requires { column < 79 }
    ensures value { result ≡ (printed newline bytes.now column).column }
    ensures bound { result < 79 }
{
    let mut column = column;
    for byte in bytes {
        column = column_after_byte(column, *byte, newline);
    }
    column
}

#[tactic(auto, using(crate::proofs::Columns::column_of_bytes))]
fn column_after_byte(column: u8, byte: u8, newline: i32) -> u8
    requires { column < 79 }
    ensures value { result ≡ (byte_printed newline byte column).column }
    ensures bound { result < 79 }
{
    if is_newline(newline, byte) {
        return 0;
    }
    (column + width(byte)) % (LAST_COLUMN + 1)
}

/// How many bytes show this byte.
fn width(byte: u8) -> u8
    ensures value { result ≡ length (visible byte) }
    ensures bound { result < 5 }
{
    match byte {
        32..=126 => 1,
        0..=31 | 127 => 3,
        _ => 4,
    }
}

fn is_newline(newline: i32, byte: u8) -> bool
    ensures { result ≡ is_newline newline byte }
{
    newline == i32::from(byte)
}

fn append_all(out: &mut Vec<u8>, column: u8, bytes: &[u8], newline: i32) -> Result<u8, AllocError>
    requires { column < 79 }
    ensures bytes { OnOk result (out.new.items ≡ out.old.items ++ (printed newline bytes.now column).bytes) }
    ensures column { IfOk result (λ after. after ≡ (printed newline bytes.now column).column) }
    ensures bound { IfOk result (λ after. after < 79) }
    ensures err { OnErr result (StartsWith out.new.items out.old.items) }
{
    let mut column = column;
    let mut rest = bytes;
    while !rest.is_empty() {
        let run = append_run(out, column, rest, newline)?;
        column += run as u8;
        let (_, further) = rest.split_at(run);
        rest = further;
        if let Some((byte, further)) = rest.split_first() {
            column = append_byte(out, column, *byte, newline)?;
            rest = further;
        }
    }
    Ok(column)
}

/// Adds the bytes in front that are shown as they are, as far as the line has room for one more
/// behind them, and answers how many these are.
fn append_run(
    out: &mut Vec<u8>,
    column: u8,
    bytes: &[u8],
    newline: i32,
) -> Result<usize, AllocError>
    requires { column < 79 }
    ensures within { IfOk result (λ run. run ≤ length bytes.now) }
    ensures room { IfOk result (λ run. column + run < 79) }
    ensures bytes { IfOk result (λ run. out.new.items ++ (printed newline (drop run bytes.now) (column + run)).bytes ≡ out.old.items ++ (printed newline bytes.now column).bytes) }
    ensures column { IfOk result (λ run. (printed newline (drop run bytes.now) (column + run)).column ≡ (printed newline bytes.now column).column) }
    ensures added { StartsWith out.new.items out.old.items }
{
    let run = length_of_run(bytes, usize::from(LAST_COLUMN - column), newline);
    let (plain, _) = bytes.split_at(run);
    out.extend_from_slice(plain)?;
    Ok(run)
}

/// How many of the bytes in front are shown as they are, `most` at most.
fn length_of_run(bytes: &[u8], most: usize, newline: i32) -> usize
    ensures within { result ≤ length bytes.now }
    ensures bound { result ≤ most }
    ensures plain { IsTrue (list_all (is_plain newline) (take result bytes.now)) }
{
    for (index, byte) in bytes.iter().enumerate() {
        if index == most || !is_plain(newline, *byte) {
            return index;
        }
    }
    bytes.len()
}

/// Whether a byte is shown as it is, and doesn't end the line.
fn is_plain(newline: i32, byte: u8) -> bool
    ensures { result ≡ is_plain newline byte }
{
    byte >= 32 && byte <= 126 && !is_newline(newline, byte)
}

fn append_byte(out: &mut Vec<u8>, column: u8, byte: u8, newline: i32) -> Result<u8, AllocError>
    requires { column < 79 }
    ensures bytes { OnOk result (out.new.items ≡ out.old.items ++ (byte_printed newline byte column).bytes) }
    ensures column { IfOk result (λ after. after ≡ (byte_printed newline byte column).column) }
    ensures bound { IfOk result (λ after. after < 79) }
    ensures err { OnErr result (StartsWith out.new.items out.old.items) }
{
    if is_newline(newline, byte) {
        out.push(b'\n')?;
        return Ok(0);
    }
    match byte {
        32..=126 => put_byte(out, column, byte),
        0..=31 => put_bytes(out, column, &[b'^', b'^', byte + 64]),
        127 => put_bytes(out, column, b"^^?"),
        _ => put_bytes(
            out,
            column,
            &[b'^', b'^', hex_digit(byte / 16), hex_digit(byte % 16)],
        ),
    }
}

/// A digit of a number in base 16, in lower case.
fn hex_digit(n: u8) -> u8
    requires { n < 16 }
    ensures { result ≡ hex_digit n }
{
    if n < 10 { b'0' + n } else { b'a' + (n - 10) }
}

fn put_bytes(out: &mut Vec<u8>, column: u8, bytes: &[u8]) -> Result<u8, AllocError>
    requires { column < 79 }
    ensures bytes { OnOk result (out.new.items ≡ out.old.items ++ (bytes_put bytes.now column).bytes) }
    ensures column { IfOk result (λ after. after ≡ (bytes_put bytes.now column).column) }
    ensures bound { IfOk result (λ after. after < 79) }
    ensures err { OnErr result (StartsWith out.new.items out.old.items) }
{
    let mut column = column;
    for byte in bytes {
        column = put_byte(out, column, *byte)?;
    }
    Ok(column)
}

fn put_byte(out: &mut Vec<u8>, column: u8, byte: u8) -> Result<u8, AllocError>
    requires { column < 79 }
    ensures bytes { OnOk result (out.new.items ≡ out.old.items ++ (byte_put byte column).bytes) }
    ensures column { IfOk result (λ after. after ≡ (byte_put byte column).column) }
    ensures bound { IfOk result (λ after. after < 79) }
    ensures err { OnErr result (StartsWith out.new.items out.old.items) }
{
    out.push(byte)?;
    if column < LAST_COLUMN {
        return Ok(column + 1);
    }
    out.push(b'\n')?;
    Ok(0)
}
