// The parts of a text around a separator.

ghost use Rattle.std.specs.Prelude.{◌≡◌, ◌≢◌, ◌<◌, ◌≤◌, ◌∷◌, ◌++◌, ◌⊎◌, IfSome, IsNone, ℕ, get_or, length, option_map};
ghost use Rattle.journal_text.specs.Journals.{ended};
ghost use Rattle.journal_reader.specs.Words.{is_empty, parts_seen, parts, parts_left, word_at};
ghost use Rattle.journal_reader.specs.Journals.{IsLine};

use memchr::memchr;

/// A line without its line feed, and what follows it.
#[tactic(auto, using(crate::proofs::Pieces::line_at, crate::proofs::Pieces::is_line))]
pub fn line(text: &[u8]) -> Option<(&[u8], &[u8])>
    ensures found { IfSome result (λ x. (text.now ≡ ended x.0.now ++ x.1.now) × IsLine x.0.now) }
    ensures shorter { IfSome result (λ x. length x.1.now < length text.now) }
    ensures unended { IsNone result → IsLine text.now }
{
    let at = find_far(text, b'\n');
    if at == text.len() {
        return None;
    }
    Some((&text[..at], &text[at + 1..]))
}

/// The part before the first separator, and what is left from it on.
#[tactic(auto, using(crate::proofs::Pieces::first_part_is))]
pub fn first_part(text: &[u8], sep: u8) -> (&[u8], &[u8])
    ensures parts { parts sep text.now ≡ result.0.now ∷ parts_left sep result.1.now }
    ensures shorter { length result.1.now ≤ length text.now }
{
    text.split_at(find(text, sep))
}

/// The next part.
pub fn part(rest: &[u8], sep: u8) -> Option<(&[u8], &[u8])>
    ensures exact { parts_seen sep result ≡ word_at (parts_left sep rest.now) }
    ensures sound { IfSome result (λ x. parts_left sep rest.now ≡ x.0.now ∷ parts_left sep x.1.now) }
    ensures shorter { IfSome result (λ x. length x.1.now < length rest.now) }
{
    if rest.is_empty() {
        None
    } else {
        Some(first_part(&rest[1..], sep))
    }
}

/// Whether no part is left.
#[tactic(auto, using(crate::proofs::Pieces::parts_left_some))]
pub fn is_done(rest: &[u8], sep: u8) -> bool
    ensures { result ≡ is_empty (parts_left sep rest.now) }
{
    if rest.is_empty() { true } else { false }
}

// The place of the first separator, or the end. Most words are short, and end before a search of many bytes at once pays.
fn find(bytes: &[u8], sep: u8) -> usize
    ensures within { result ≤ length bytes.now }
    ensures none { (k : ℕ) → k < result → get_or bytes.now k 0 ≢ sep }
    ensures end { (result ≡ length bytes.now) ⊎ (get_or bytes.now result 0 ≡ sep) }
{
    let near = bytes.len().min(16);
    for at in 0..near {
        if bytes[at] == sep {
            return at;
        }
    }
    near + find_far(&bytes[near..], sep)
}

// The same, where the separator is likely to be far.
fn find_far(bytes: &[u8], sep: u8) -> usize
    ensures within { result ≤ length bytes.now }
    ensures none { (k : ℕ) → k < result → get_or bytes.now k 0 ≢ sep }
    ensures end { (result ≡ length bytes.now) ⊎ (get_or bytes.now result 0 ≡ sep) }
{
    match memchr(sep, bytes) {
        Some(at) => at,
        None => bytes.len(),
    }
}
