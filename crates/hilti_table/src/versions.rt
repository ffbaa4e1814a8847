//! Exact instructions.
ghost use Rattle.std.specs.Prelude.{◌≡◌};
ghost use Rattle.hilti_table.specs.Exact.{exact_of};

use hilti_types::Op;

/// What stands for an instruction in the bodies of a module of version 2: the exact one where it has one, else itself.
pub fn exact(op: Op) -> Op
    ensures { result ≡ exact_of op }
{
    match op {
        Op::IntAdd => Op::IntAddExact,
        Op::IntSub => Op::IntSubExact,
        Op::IntMul => Op::IntMulExact,
        Op::IntShl => Op::IntShlExact,
        Op::IntSdiv => Op::IntSdivExact,
        Op::IntAs => Op::IntAsExact,
        plain => plain,
    }
}
