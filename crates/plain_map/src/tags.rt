//! Tags.
ghost use Rattle.std.specs.Prelude.{◌≡◌, ℕ, List};
ghost use Rattle.std.specs.Option.{option_map};
ghost use Rattle.std.specs.List.{list_all};
ghost use Rattle.gh_base.specs.Parts.{parts_of};
ghost use Rattle.gh_base.specs.Readings.{Gives};
ghost use Rattle.plain_map.specs.Fields.{two_of, tag_at, tags_of, tags_at, is_pair};

use crate::escapes::unescape;
use crate::fault::WordFault;
use gh_base::{OsmTag, PlainKind, TagList, first_part};
use std::alloc::Global;

#[tactic(auto, using(crate::proofs::Cuts::no_two))]
fn pair(text: &str) -> Option<(&str, &str)>
    ensures { option_map (λ c. (c.0.now, c.1.now)) result ≡ two_of (parts_of 61 text.now) }
{
    let (first, after) = first_part(text, '=');
    let (second, after) = first_part(after?, '=');
    match after {
        None => Some((first, second)),
        Some(_) => None,
    }
}

#[tactic(auto, unfolding(crate::specs::Fields::tag_at))]
fn tag(alloc: Global, text: &str) -> Result<OsmTag, WordFault>
    ensures { Gives result (tag_at text.now) }
{
    let Some((key, value)) = pair(text) else {
        return Err(WordFault::Is(PlainKind::Tag));
    };
    let key = unescape(alloc, key)?;
    let value = unescape(alloc, value)?;
    Ok(OsmTag { key, value })
}

fn are_pairs(text: &str) -> bool
    ensures { result ≡ list_all is_pair (parts_of 44 text.now) }
{
    let mut left = Some(text);
    'parts: while let Some(text) = left {
        let (part, after) = first_part(text, ',');
        if pair(part).is_none() {
            return false;
        }
        left = after;
    }
    true
}

#[tactic(auto, using(crate::proofs::Loops::front_more, crate::proofs::Loops::front_nil))]
fn each_tag(alloc: Global, text: &str) -> Result<TagList, WordFault>
    ensures { Gives result (tags_of (parts_of 44 text.now)) }
{
    let mut all = TagList::new(alloc);
    let mut left = Some(text);
    'parts: while let Some(text) = left {
        let (part, after) = first_part(text, ',');
        all.push(tag(alloc, part)?)?;
        left = after;
    }
    Ok(all)
}

/// The tags behind a T. A tag without exactly one `=` is a fault before any escape.
#[tactic(auto, unfolding(crate::specs::Fields::tags_at))]
pub fn read_tags(alloc: Global, text: &str) -> Result<TagList, WordFault>
    ensures { Gives result (tags_at text.now) }
{
    if text.is_empty() {
        return Ok(TagList::new(alloc));
    }
    if !are_pairs(text) {
        return Err(WordFault::Is(PlainKind::Tag));
    }
    each_tag(alloc, text)
}
