//! Strings of a string table: the bytes from an offset up to a zero.

ghost use Rattle.std.specs.Prelude.{◌≡◌, ◌↔◌, ◌≢◌, List, ℕ, length, true, All};
ghost use Rattle.ebpf_object_file.specs.Text.{IsText, is_named, text_at, whole_text};

// Whether the string at an offset is this name. At most the bytes of the name and the zero after them are read, so that it
// takes no longer however long the strings of a file are.
pub(crate) fn is_named(strings: &[u8], at: usize, name: &[u8]) -> bool
    ensures { result ≡ is_named strings.now at name.now }
{
    if at > strings.len() {
        return false;
    }
    let rest = &strings[at..];
    rest.starts_with(name) && name.len() < rest.len() && rest[name.len()] == 0
}

// The bytes before the first zero, or all of them.
fn whole_text(bytes: &[u8]) -> &[u8]
    ensures { result.now ≡ whole_text bytes.now }
{
    for end in 0..bytes.len() {
        if bytes[end] == 0 {
            return &bytes[..end];
        }
    }
    bytes
}

// The string at an offset, cut after `most` bytes.
pub(crate) fn text_at(strings: &[u8], at: usize, most: usize) -> &[u8]
    ensures { result.now ≡ text_at strings.now at most }
{
    if at > strings.len() {
        return &[];
    }
    let rest = &strings[at..];
    whole_text(&rest[..rest.len().min(most)])
}

/// The test of a name finds exactly the string that ends with the next zero.
pub fn test_finds_names()
    ensures { (strings : List ℕ) (at : ℕ) (name : List ℕ) → All (λ byte. byte ≢ 0) name
        → (is_named strings at name ≡ true) ↔ IsText strings at name }
{}
