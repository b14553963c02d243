//! Reading tags.
ghost use Rattle.std.specs.Prelude.{◌≡◌};
ghost use Rattle.std.specs.Option.{option_map};
ghost use Rattle.tag_rules.specs.Tags.{tag_of, is_word};

use gh_base::TagList;

/// The value of a key: that of its first tag.
pub(crate) fn tag_value<'a>(tags: &'a TagList, key: &str) -> Option<&'a str>
    ensures { option_map (λ t. t.now) result ≡ tag_of key.now tags.now }
{
    let tag = tags.as_slice().iter().find(|tag| tag.key.as_str() == key)?;
    Some(tag.value.as_str())
}

/// Whether a key has this value.
pub(crate) fn has_value(tags: &TagList, key: &str, word: &str) -> bool
    ensures { result ≡ is_word (tag_of key.now tags.now) word.now }
{
    tag_value(tags, key) == Some(word)
}
