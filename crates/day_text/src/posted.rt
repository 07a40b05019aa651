// The words for what a posting replaces.

ghost use Rattle.std.specs.Prelude.{◌≡◌};
ghost use Rattle.day_text.specs.Fields.{posted_of};

use road_graph::What;

/// What a posting replaces.
#[derive(Clone, Copy, Debug, PartialEq, Eq)]
pub enum Posted {
    Limit(What),
    Rating,
}

/// What a posting of this word replaces, or `None` where it is no such word.
pub fn parse_posted(text: &str) -> Option<Posted>
    ensures { result ≡ posted_of text.now }
{
    if text == "rating" {
        return Some(Posted::Rating);
    }
    What::of_word(text.as_bytes()).map(Posted::Limit)
}
