//! The lines of a file: where each ends, what of it is kept, and the byte that is put at its end
//! (The TeXbook, chapter 8; `tex.web` 31, 360 and 362).
ghost use Rattle.std.specs.Prelude.{◌≡◌, ◌≢◌, ℕ, ◌+◌, ◌-◌, ◌<◌, ◌≤◌, ◌++◌, length, take, drop, IfSome, IfNone, IfOk, OnErr};
ghost use Rattle.std.specs.Bool.{OnTrue, OnFalse};
ghost use Rattle.std.specs.List.{before_first, after_first, position_or_len};
ghost use Rattle.catcode_eye.specs.Lines.{byte_named, is_mark, is_blank, trimmed, end_bytes};

use std::alloc::AllocError;

/// The most bytes that a line may have before its trailing blanks are dropped.
const MOST_BYTES: usize = 65_535;

/// Where in a file a line ends that was cut at its mark.
#[derive(Clone, Copy)]
pub struct Bounds {
    /// The index behind the line's last byte that is kept.
    pub end: usize,
    /// The index at which the next line begins.
    pub next: usize,
}

/// The byte that an integer parameter names.
pub fn byte_named(parameter: i32) -> Option<u8>
    ensures { result ≡ byte_named parameter }
{
    u8::try_from(parameter).ok()
}

fn is_mark(mark: Option<u8>, byte: u8) -> bool
    ensures { result ≡ is_mark mark byte }
{
    match mark {
        None => false,
        Some(mark) => byte == mark,
    }
}

/// The length of the first line of `rest`.
fn line_length(rest: &[u8], mark: Option<u8>) -> usize
    ensures value { result ≡ position_or_len (is_mark mark) rest.now }
    ensures within { result ≤ length rest.now }
{
    for (i, byte) in rest.iter().enumerate() {
        if is_mark(mark, *byte) {
            return i;
        }
    }
    rest.len()
}

fn is_blank(byte: u8) -> bool
    ensures { result ≡ is_blank byte }
{
    byte == b' ' || byte == b'\r'
}

/// Whether the first `count` bytes of a line end in a blank.
fn ends_in_blank(line: &[u8], count: usize) -> bool
    requires { count ≤ length line.now }
    ensures some { OnTrue result (0 < count) }
    ensures blank { OnTrue result (trimmed (take count line.now) ≡ trimmed (take (count - 1) line.now)) }
    ensures kept { OnFalse result (trimmed (take count line.now) ≡ take count line.now) }
{
    count > 0 && is_blank(line[count - 1])
}

/// The length of a line without the blanks at its end.
fn trimmed_length(line: &[u8]) -> usize
    ensures value { take result line.now ≡ trimmed line.now }
    ensures within { result ≤ length line.now }
{
    let mut kept = line.len();
    while ends_in_blank(line, kept) {
        kept -= 1;
    }
    kept
}

/// The bounds of the line that begins at `start`, or nothing where it has too many bytes.
pub fn line_bounds(bytes: &[u8], start: usize, mark: Option<u8>) -> Option<Bounds>
    requires { start ≤ length bytes.now }
    ensures too_long { IfNone result (65535 < length (before_first (is_mark mark) (drop start bytes.now))) }
    ensures fits { IfSome result (λ _. length (before_first (is_mark mark) (drop start bytes.now)) ≤ 65535) }
    ensures kept { IfSome result (λ bounds. drop start (take bounds.end bytes.now)
        ≡ trimmed (before_first (is_mark mark) (drop start bytes.now))) }
    ensures behind { IfSome result (λ bounds. drop bounds.next bytes.now ≡ after_first (is_mark mark) (drop start bytes.now)) }
    ensures order { IfSome result (λ bounds. (start ≤ bounds.end) × (bounds.end ≤ bounds.next) × (bounds.next ≤ length bytes.now)) }
    ensures room { IfSome result (λ bounds. bounds.end ≡ bounds.next → bounds.next ≡ length bytes.now) }
{
    let rest = &bytes[start..];
    let length = line_length(rest, mark);
    if length > MOST_BYTES {
        return None;
    }
    let end = start + trimmed_length(&rest[..length]);
    let next = if length < rest.len() {
        start + length + 1
    } else {
        bytes.len()
    };
    Some(Bounds { end, next })
}

/// Puts the end byte, if there is one, behind what is kept of a line. It takes the place of a byte that
/// was dropped, where there is such a byte.
pub fn with_end(
    bytes: &mut Vec<u8>,
    bounds: Bounds,
    end_byte: Option<u8>,
) -> Result<Bounds, AllocError>
    requires order { bounds.end ≤ bounds.next }
    requires within { bounds.next ≤ length bytes.old.items }
    requires room { bounds.end ≡ bounds.next → bounds.next ≡ length bytes.old.items }
    ensures line { IfOk result (λ after. take after.end bytes.new.items ≡ take bounds.end bytes.old.items ++ end_bytes end_byte) }
    ensures behind { IfOk result (λ after. drop after.next bytes.new.items ≡ drop bounds.next bytes.old.items) }
    ensures order { IfOk result (λ after. (bounds.end ≤ after.end) × (after.end ≤ after.next) × (after.next ≤ length bytes.new.items)) }
    ensures err { OnErr result (bytes.new.items ≡ bytes.old.items) }
{
    let Some(byte) = end_byte else {
        return Ok(bounds);
    };
    let end = bounds.end;
    if end < bounds.next {
        bytes[end] = byte;
        return Ok(Bounds {
            end: end + 1,
            next: bounds.next,
        });
    }
    bytes.push(byte)?;
    Ok(Bounds {
        end: end + 1,
        next: bytes.len(),
    })
}
