ghost use Rattle.std.specs.Prelude.{◌≡◌, IfOk};
ghost use Rattle.std.specs.Option.{option_copied, option_map};
ghost use Rattle.hilti_code.specs.Rows.{block_rows, function_rows, rows_of, row_in};
ghost use Rattle.hilti_code.specs.declared.code.Code.{Code as Made};

use hilti_base::{Collection, NoMemory};
use hilti_parts::{Block, Function, Parts};
use hilti_rows::{Row, resolve};
use hilti_stack::Position;
use std::alloc::Global;

/// The rows of a block, in the order of its instructions.
pub type BlockRows = Collection<Row>;

/// The rows of a function, by block.
pub type FunctionRows = Collection<BlockRows>;

/// The rows of all instructions of a program, by function, block and place.
#[derive(Debug, Drop)]
pub struct Code {
    functions: Collection<FunctionRows>,
}

impl Code {
    /// The code of a program; `None` exactly where some instruction has no row.
    pub fn of(alloc: Global, parts: &Parts) -> Result<Option<Code>, NoMemory>
        ensures { IfOk result (λ code.
            option_map (λ (made : Made). made.functions) code ≡ rows_of parts.now) }
    {
        let mut functions = Collection::new(alloc);
        for function in parts.functions.as_slice() {
            let Some(rows) = of_function(alloc, function)? else {
                return Ok(None);
            };
            functions.push(rows)?;
        }
        Ok(Some(Code { functions }))
    }

    /// The row at a place; `None` exactly where there is no instruction. It takes constant time.
    #[inline]
    pub fn fetch(&self, place: Position) -> Option<&Row>
        ensures { option_copied result ≡ row_in self.now.functions place }
    {
        let function = self.functions.get(place.function.n as usize)?;
        let block = function.get(place.block as usize)?;
        block.get(place.at as usize)
    }
}

fn of_function(alloc: Global, function: &Function) -> Result<Option<FunctionRows>, NoMemory>
    ensures { IfOk result (λ rows. rows ≡ function_rows function.now) }
{
    let mut blocks = FunctionRows::new(alloc);
    for block in function.blocks.as_slice() {
        let Some(rows) = of_block(alloc, block)? else {
            return Ok(None);
        };
        blocks.push(rows)?;
    }
    Ok(Some(blocks))
}

fn of_block(alloc: Global, block: &Block) -> Result<Option<BlockRows>, NoMemory>
    ensures { IfOk result (λ rows. rows ≡ block_rows block.now) }
{
    let mut rows = BlockRows::new(alloc);
    for instruction in block.instructions.as_slice() {
        let Some(row) = resolve(alloc, instruction)? else {
            return Ok(None);
        };
        rows.push(row)?;
    }
    Ok(Some(rows))
}
