//! From how posts and their links ended to the lines that tell it.
ghost use Rattle.std.specs.Prelude.{◌≡◌, string_bytes, IfOk};
ghost use Rattle.command_posts.specs.PostsText.{links_line, other_ends, own_ends, posts_line, posts_lines, rule_ends};

use crate::ended::{PostEnds, post_ends};
use command_outcome::line_of_parts;
use host_posts::{EndCounts, PostOutcome, counts_of_posts};
use std::alloc::Global;
use tea_base::WantOfMemory;
use text_lines::spell_numbers;

/// How many links have ended by their client, or by themselves.
fn own_ends(alloc: Global, counts: EndCounts) -> Result<String, WantOfMemory>
    ensures { IfOk result (λ text. string_bytes text ≡ own_ends counts) }
{
    let mut text = spell_numbers(alloc, " left", &[counts.left])?;
    text.push_str(spell_numbers(alloc, " link-end", &[counts.link_end])?.as_str())?;
    text.push_str(spell_numbers(alloc, " link-fault", &[counts.link_fault])?.as_str())?;
    Ok(text)
}

/// How many were ended by a rule.
fn rule_ends(alloc: Global, counts: EndCounts) -> Result<String, WantOfMemory>
    ensures { IfOk result (λ text. string_bytes text ≡ rule_ends counts) }
{
    let mut text = spell_numbers(alloc, " idle", &[counts.idle])?;
    text.push_str(spell_numbers(alloc, " stale", &[counts.stale])?.as_str())?;
    text.push_str(spell_numbers(alloc, " refused", &[counts.refused])?.as_str())?;
    Ok(text)
}

/// How many could not be served on, and how many have given no frame.
fn other_ends(alloc: Global, counts: EndCounts) -> Result<String, WantOfMemory>
    ensures { IfOk result (λ text. string_bytes text ≡ other_ends counts) }
{
    let mut text = spell_numbers(alloc, " memory", &[counts.want_of_memory])?;
    text.push_str(spell_numbers(alloc, " unkept", &[counts.unkept])?.as_str())?;
    text.push_str(spell_numbers(alloc, " silent", &[counts.silent])?.as_str())?;
    Ok(text)
}

/// The line of the links.
fn links_line(alloc: Global, counts: EndCounts) -> Result<String, WantOfMemory>
    ensures { IfOk result (λ line. string_bytes line ≡ links_line counts) }
{
    let mut text = String::from_str(alloc, "links")?;
    text.push_str(own_ends(alloc, counts)?.as_str())?;
    text.push_str(rule_ends(alloc, counts)?.as_str())?;
    line_of_parts(text, other_ends(alloc, counts)?.as_str())
}

/// The line of so many posts.
fn posts_line(alloc: Global, count: u64, ends: PostEnds) -> Result<String, WantOfMemory>
    ensures { IfOk result (λ line. string_bytes line ≡ posts_line count ends) }
{
    let mut text = spell_numbers(alloc, "posts", &[count])?;
    text.push_str(spell_numbers(alloc, " stopped", &[ends.stopped])?.as_str())?;
    text.push_str(spell_numbers(alloc, " failed", &[ends.failed])?.as_str())?;
    text.push_str(spell_numbers(alloc, " memory", &[ends.want_of_memory])?.as_str())?;
    line_of_parts(
        text,
        spell_numbers(alloc, " spent", &[ends.spent])?.as_str(),
    )
}

/// The line of the links of all these posts, and that of the posts.
pub fn posts_lines(alloc: Global, posts: &[PostOutcome]) -> Result<String, WantOfMemory>
    ensures { IfOk result (λ text. string_bytes text ≡ posts_lines posts.now) }
{
    let mut text = links_line(alloc, counts_of_posts(posts))?;
    let ends = post_ends(posts);
    text.push_str(posts_line(alloc, posts.len() as u64, ends)?.as_str())?;
    Ok(text)
}
