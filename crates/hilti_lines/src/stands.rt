//! The bodies that instructions may stand in.
ghost use Rattle.std.specs.Prelude.{◌≡◌};
ghost use Rattle.hilti_operands.specs.Seen.{body_seen};
ghost use Rattle.hilti_lines.specs.Lines as spec;

use crate::codes::{BAD_RETURN, OUTSIDE_HOOK};
use hilti_operands::BodyView;
use hilti_table::{Body, Flow};

/// Whether an instruction may stand in a body.
pub fn may_stand(body: &BodyView<'_>, flow: Flow) -> bool
    ensures { result ≡ spec.may_stand (body_seen body.now) flow }
{
    match flow {
        Flow::Leaves(Body::Void) => body.function.result.is_none(),
        Flow::Leaves(Body::Result) => body.function.result.is_some(),
        Flow::Leaves(Body::Hook) => body.function.hook.is_some(),
        _ => true,
    }
}

/// The code of an instruction that may not stand in its body.
pub fn stand_code(flow: Flow) -> u32
    ensures { result ≡ spec.stand_code flow }
{
    match flow {
        Flow::Leaves(Body::Hook) => OUTSIDE_HOOK,
        _ => BAD_RETURN,
    }
}
