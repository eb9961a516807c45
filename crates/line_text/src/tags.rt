//! Tags with commas between them.

ghost use Rattle.std.specs.Prelude.{◌≡◌, IfOk};
ghost use Rattle.line_text.specs.Fields.{tag_at, tags_at};
ghost use Rattle.line_text.specs.Stream.{found_before};

use crate::checked::Checked;
use crate::elements::{Element, FieldGrammar};
use crate::fields::read_tag;
use crate::lists::{at_most_eight_items, read_comma_list};
use crate::tokens::Tokens;
use lb_base::{List, Memory, Tag};
use std::alloc::Global;

impl Element<FieldGrammar> for Tag {
    ghost reads = { tag_at };

    fn read(_alloc: Global, tokens: &mut Tokens) -> Result<Option<Checked<Tag>>, Memory> {
        Ok(read_tag(tokens))
    }
}

/// The one to eight tags that stand first, with commas between; None where a token doesn't fit.
///
/// They are out of range where one is, or where they are more. After an answer the tokens behind them are left.
pub fn read_tags(alloc: Global, tokens: &mut Tokens) -> Result<Option<Checked<List<Tag>>>, Memory>
    ensures { IfOk result (λ found. found_before tokens.new found ≡ tags_at tokens.old) }
{
    match read_comma_list(alloc, tokens)? {
        Some(tags) => Ok(Some(at_most_eight_items(tags))),
        None => Ok(None),
    }
}
