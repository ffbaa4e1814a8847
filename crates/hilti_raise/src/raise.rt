ghost use Rattle.std.specs.Prelude.{◌≡◌, ◌<◌, length, slice_get, IfSome, IsSome, IsSomeAnd};
ghost use Rattle.std.specs.List.{All};
ghost use Rattle.hilti_parts.specs.declared.parts.Block.{Block as Steps};
ghost use Rattle.hilti_parts.specs.declared.parts.Hook.{Hook as Declared};
ghost use Rattle.hilti_typing.specs.Programs.{IsBodyOf};
ghost use Rattle.hilti_raise.specs.Handlers.{block_at, IsCatching, IsHandlerOf};

use hilti_base::FnId;
use hilti_parts::Handler;
use hilti_program::Program;

/// The first of these handlers that catches an exception.
fn first_catching(program: &Program, handlers: &[Handler], exception: u32) -> Option<Handler>
    requires { exception < length program.now.exceptions }
    ensures { IsCatching program.now.exceptions exception handlers.now result }
{
    for handler in handlers {
        if program.is_below(exception, handler.exception) {
            return Some(*handler);
        }
    }
    None
}

/// The first handler of a block whose exception is the raised one or stands above it; `None` exactly where none is. It
/// takes no memory.
pub fn handler(program: &Program, f: FnId, block: u32, exception: u32) -> Option<Handler>
    requires block { IsSome (block_at program.now f.n block) }
    requires raised { exception < length program.now.exceptions }
    ensures first { IsSomeAnd (block_at program.now f.n block) (λ (steps : Steps).
        IsCatching program.now.exceptions exception steps.handlers result) }
    ensures typed { IfSome result (IsHandlerOf program.now f.n) }
{
    let block = &program.function(f).blocks.as_slice()[block as usize];
    first_catching(program, block.handlers.as_slice(), exception)
}

/// The bodies of a hook, in the order of running. Each takes what the hook takes.
pub fn bodies(program: &Program, hook: u32) -> &[FnId]
    requires { hook < length program.now.hooks }
    ensures is { IsSomeAnd (slice_get program.now.hooks hook) (λ (declared : Declared).
        result.now ≡ declared.bodies) }
    ensures typed { IsSomeAnd (slice_get program.now.hooks hook) (λ (declared : Declared).
        All (IsBodyOf program.now declared) result.now) }
{
    program.hook(hook).bodies.as_slice()
}
