//! Comments and skipped lines.
ghost use Rattle.std.specs.Prelude.{◌≡◌, ◌≤◌, IfSome, length, false};
ghost use Rattle.arc_lex.specs.Bytes.{after_run};
ghost use Rattle.arc_lex.specs.Source.{to_close, is_mark, is_skipped};

use crate::bytes::{Class, begins, run};

/// How many bytes there are up to the first `*/` and with it, if there is one.
pub fn to_close(bytes: &[u8]) -> Option<usize>
    ensures value { result ≡ to_close false bytes.now }
    ensures within { IfSome result (λ n. n ≤ length bytes.now) }
{
    let mut star = false;
    for (i, b) in bytes.iter().enumerate() {
        if star && *b == b'/' {
            return Some(i + 1);
        }
        star = *b == b'*';
    }
    None
}

/// What is after the bytes at the front that are in the class.
fn after_run(class: Class, bytes: &[u8]) -> &[u8]
    ensures { result.now ≡ after_run class bytes.now }
{
    bytes.split_at(run(class, bytes)).1
}

/// Whether `mark` stands after some spaces.
fn is_mark(bytes: &[u8]) -> bool
    ensures { result ≡ is_mark bytes.now }
{
    begins(Class::Space, bytes) && after_run(Class::Space, bytes).starts_with(b"mark")
}

/// Whether `import`, `include` or `pragma mark` stands after spaces.
pub fn is_skipped(bytes: &[u8]) -> bool
    ensures { result ≡ is_skipped bytes.now }
{
    let word = after_run(Class::Space, bytes);
    if word.starts_with(b"import") || word.starts_with(b"include") {
        return true;
    }
    word.starts_with(b"pragma") && is_mark(word.split_at(6).1)
}
