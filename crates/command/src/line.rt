// What a line has before its comment.
ghost use Rattle.std.specs.Prelude.{◌≡◌, ◌==◌, length};
ghost use Rattle.std.specs.List.{position_or_len};
ghost use Rattle.std.specs.Option.{unwrap_or};
ghost use Rattle.command.specs.Words.{before_comment, bad, any_bad};

use memchr::memchr;

// The line up to its comment.
pub fn before_comment(line: &[u8]) -> &[u8]
    ensures { result.now ≡ before_comment line.now }
{
    let end = comment(line).unwrap_or(line.len());
    &line[..end]
}

// Where the comment begins.
fn comment(line: &[u8]) -> Option<usize>
    ensures { unwrap_or result (length line.now) ≡ position_or_len (λ b. b == 35) line.now }
{
    // a short line is searched faster than `memchr` is called
    if line.len() < 32 {
        return line.iter().position(|b| *b == b'#');
    }
    memchr(b'#', line)
}

// Whether a byte may stand in a comment only.
fn is_bad(b: u8) -> bool
    ensures { result ≡ bad b }
{
    b == b'\r' || !b.is_ascii()
}

pub fn has_bad_byte(text: &[u8]) -> bool
    ensures { result ≡ any_bad text.now }
{
    // to the text's end and without a branch, so that many bytes are tested at once
    let mut bad = false;
    for b in text {
        bad |= is_bad(*b);
    }
    bad
}
