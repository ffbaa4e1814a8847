//! Laws of the table. They do nothing: a caller learns what they ensure.
ghost use Rattle.std.specs.Prelude.{◌≡◌, ℕ, List, [], ◌∷◌, length};
ghost use Rattle.hilti_types.specs.declared.op.Op.{Op as Instruction};
ghost use Rattle.hilti_types.specs.declared.op.Op.TheVariants as ops;
ghost use Rattle.hilti_table.specs.Exact.{HasExactRow, made_exact};
ghost use Rattle.hilti_table.specs.declared.row.Takes.{Takes as Operands};
ghost use Rattle.hilti_table.specs.Laws.{HasItsCount, GivesNothingAtEnd, LooksForNull};
ghost use Rattle.hilti_table.specs.Mnemonics.{named, IsWrittenSo};
ghost use Rattle.hilti_table.specs.Table.{every_plain};

/// No two plain instructions are written alike, and a mnemonic means the one that is written so. There are 120. The
/// exact ones are written as their plain ones, and no mnemonic means one.
pub fn mnemonics()
    ensures distinct { (mnemonic : List ℕ) → IsWrittenSo (named mnemonic) mnemonic }
    ensures counted { length every_plain ≡ 120 }
{}

/// An exact instruction takes, gives and is written as its plain one, goes on as that, and raises ValueError besides.
/// Six instructions have an exact one.
pub fn exact_rows()
    ensures rows { (op : Instruction) → HasExactRow op }
    ensures six { made_exact ≡ ops.IntAdd ∷ ops.IntSub ∷ ops.IntMul ∷ ops.IntSdiv ∷ ops.IntShl
        ∷ ops.IntAs ∷ [] }
{}

/// A row has as many kinds as operands that can be written, and at most 8.
pub fn operands()
    ensures { (takes : Operands) (n : ℕ) → HasItsCount takes n }
{}

/// An ending instruction gives nothing.
pub fn ends()
    ensures { (op : Instruction) → GivesNothingAtEnd op }
{}

/// An instruction raises NullReference exactly where its first operand is a reference, an iterator or a callable, which
/// may be Null, or one of its operands a timer or a manager. `ref.is_null` takes Null as any other value.
pub fn nulls()
    ensures { (op : Instruction) → LooksForNull op }
{}
