//! Readers of what stands behind the first word of a hook.
ghost use Rattle.std.specs.Prelude.{◌≡◌, ◌<◌, ◌≤◌, length, IfOk, OnOk};
ghost use Rattle.hilti_grammar.specs.Grammar.{Symbol.Rule};
ghost use Rattle.hilti_reader.specs.Modules.{RuleName.HookRest as hook_rest, RuleName.HookBody as hook_body, a_priority, maybe};
ghost use Rattle.hilti_reader.specs.Readers.{ReadsTree};
ghost use Rattle.hilti_syntax.specs.Items.{item_tree, priority_tree, hook_item};
ghost use Rattle.hilti_syntax.specs.Parts.{behind_hook_word, found_hook};

use crate::read_bodies::read_body;
use hilti_kinds::Kind;
use hilti_module::{Body, Item, Name, Number, Word};
use hilti_read_shapes::read_arguments;
use hilti_reader::{Cursor, Stop};

/// Reads what stands behind the first word of a hook, and gives the whole item.
pub fn read_hook_rest(cursor: &mut Cursor, first: Word) -> Result<Item, Stop>
    ensures reads { ReadsTree (Rule hook_rest) behind_hook_word cursor.old result cursor.new }
    ensures item { IfOk result (λ item. item_tree item ≡ hook_item first (behind_hook_word item)) }
    ensures shorter { OnOk result (length cursor.new < length cursor.old) }
{
    if cursor.sees(&[Kind::Scope]) {
        cursor.skip(Kind::Scope)?;
        let second = cursor.word()?;
        let parameters = read_arguments(cursor)?;
        let (priority, body) = read_hook_body(cursor)?;
        return Ok(Item::HookBody {
            name: Name {
                first,
                second: Some(second),
            },
            parameters,
            priority,
            body,
        });
    }
    let arguments = read_arguments(cursor)?;
    if cursor.sees(&[Kind::LineEnd]) {
        cursor.skip(Kind::LineEnd)?;
        return Ok(Item::Hook {
            name: first,
            parameters: arguments,
        });
    }
    let (rank, inside) = read_hook_body(cursor)?;
    Ok(Item::HookBody {
        name: Name {
            first,
            second: None,
        },
        parameters: arguments,
        priority: rank,
        body: inside,
    })
}

/// Reads the priority and the body of a hook.
pub fn read_hook_body(cursor: &mut Cursor) -> Result<(Option<Number>, Body), Stop>
    ensures reads { ReadsTree (Rule hook_body) found_hook cursor.old result cursor.new }
    ensures shorter { OnOk result (length cursor.new < length cursor.old) }
{
    let priority = read_priority(cursor)?;
    let body = read_body(cursor)?;
    Ok((priority, body))
}

/// Reads a priority, if one is there.
fn read_priority(cursor: &mut Cursor) -> Result<Option<Number>, Stop>
    ensures reads { ReadsTree (maybe a_priority) priority_tree cursor.old result cursor.new }
    ensures shorter { OnOk result (length cursor.new ≤ length cursor.old) }
{
    if !cursor.sees(&[Kind::Priority]) {
        return Ok(None);
    }
    cursor.skip(Kind::Priority)?;
    let found = cursor.number()?;
    Ok(Some(found))
}
